//! The rows of one kind, one after the other.
ghost use Rattle.std.specs.Prelude.{ℕ, List, flat_map};
ghost use Rattle.om_io.specs.Writing.{Writes, outlet};
ghost use Rattle.std.specs.List.{AllByRecursion};

use crate::{Failed, Sink};
use om_ring::{Line, List};

/// A kind of rows, with what the names in them refer to.
pub trait RowKind {
    type Row: Drop;

    /// Which rows have a text.
    ghost plain: { Self → Self.Row → Type 0 };

    /// The text of a row.
    ghost text: { Self → Self.Row → List ℕ };

    /// Writes the text of a row through the buffer.
    ///
    /// # Errors
    ///
    /// `Failed` only where the sink's count of faults rose. A prefix, perhaps empty, of what the
    /// buffer held and the text was then appended to the sink.
    fn write<W: Sink>(&self, row: &Self::Row, to: &mut W, line: &mut Line) -> Result<(), Failed>
        requires { plain self.now row.now }
        ensures { Writes (outlet (W.written to.old) (W.faults to.old) line.old) (outlet (W.written to.new) (W.faults to.new) line.new) (text self.now row.now) result };
}

/// Writes the texts of all rows of a list through the buffer.
///
/// # Errors
///
/// `Failed` as [`write_each`] gives it.
pub fn write_rows<K: RowKind, W: Sink>(
    kind: &K,
    rows: &List<K::Row>,
    to: &mut W,
    line: &mut Line,
) -> Result<(), Failed>
    requires { AllByRecursion (K.plain kind.now) rows.now }
    ensures { Writes (outlet (W.written to.old) (W.faults to.old) line.old) (outlet (W.written to.new) (W.faults to.new) line.new) (flat_map (K.text kind.now) rows.now) result }
{
    write_each(kind, rows.as_slice(), to, line)
}

/// Writes the texts of these rows through the buffer.
///
/// # Errors
///
/// `Failed` only where the sink's count of faults rose. A prefix, perhaps empty, of what the buffer
/// held and the texts was then appended to the sink.
pub fn write_each<K: RowKind, W: Sink>(
    kind: &K,
    rows: &[K::Row],
    to: &mut W,
    line: &mut Line,
) -> Result<(), Failed>
    requires { AllByRecursion (K.plain kind.now) rows.now }
    ensures { Writes (outlet (W.written to.old) (W.faults to.old) line.old) (outlet (W.written to.new) (W.faults to.new) line.new) (flat_map (K.text kind.now) rows.now) result }
{
    for row in rows {
        kind.write(row, to, line)?;
    }
    Ok(())
}
