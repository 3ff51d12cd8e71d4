//! Reading the lines of one kind, one after the other.
ghost use Rattle.std.specs.Prelude.{◌≡◌, ℕ, List as ListOf, Bool as Test, Result as Answer, length};
ghost use Rattle.om_io.specs.Lines.{Words as WordsOf};
ghost use Rattle.om_asm.specs.Rows.{Gives, GivesAt, GivesMore, formed, rows_from};
ghost use Rattle.om_asm.specs.declared.fault.AsmKind.{AsmKind as Kind};

use crate::fault::{AsmFault, AsmKind, LineFault};
use crate::lines::{Lines, Words};
use om_ring::List;
use std::alloc::Global;

/// A kind of lines, with what the names in them refer to.
pub(crate) trait LineKind {
    type Row: Drop;

    /// Whether a line that begins with a word is of this kind, where so many lines of it stand before.
    ghost starts: { Self → ℕ → ListOf ℕ → Test };

    /// What a line says, whose first word stands apart.
    ghost row_of: { Self → ListOf ℕ → WordsOf → Answer Self.Row Kind };

    /// Whether a line that begins with `word` is of the kind, where `count` lines of it stand before.
    fn begins(&self, count: usize, word: &[u8]) -> bool
        ensures { result ≡ starts self.now count word.now };

    /// What a line says: its first word, and the others. A `Bad` has the kind of the line.
    fn read(&self, alloc: Global, word: &[u8], words: Words) -> Result<Self::Row, LineFault>
        ensures { Gives (row_of self.now word.now words.entry) result };
}

/// What a line says that can only have the form or not.
pub(crate) fn formed<T>(said: Option<T>) -> Result<T, LineFault>
    ensures { Gives (formed said) result }
{
    match said {
        Some(said) => Ok(said),
        None => Err(LineFault::Bad(AsmKind::Grammar)),
    }
}

/// Appends what the lines of a kind say, up to the first line of another kind.
pub(crate) fn read_rows<K: LineKind>(
    alloc: Global,
    kind: &K,
    lines: &mut Lines,
    rows: &mut List<K::Row>,
) -> Result<(), AsmFault>
    ensures { GivesMore (rows_from (K.starts kind.now) (K.row_of kind.now) (length rows.old) lines.old.number lines.old.lines) rows.old result rows.new lines.new }
{
    loop {
        let mut words = lines.words();
        let Some(word) = words.next() else {
            return Ok(());
        };
        if !kind.begins(rows.len(), word) {
            return Ok(());
        }
        match kind.read(alloc, word, words) {
            Ok(row) => match rows.push(row) {
                Ok(()) => {}
                Err(_) => return Err(AsmFault::Memory),
            },
            Err(fault) => return Err(fault.at_line(lines.number())),
        }
        lines.advance();
    }
}

/// What the lines of a kind say, up to the first line of another kind.
#[tactic(auto, using(crate::proofs::ReadingRows::behind_nothing))]
pub(crate) fn read_list<K: LineKind>(
    alloc: Global,
    kind: &K,
    lines: &mut Lines,
) -> Result<List<K::Row>, AsmFault>
    ensures { GivesAt (rows_from (K.starts kind.now) (K.row_of kind.now) 0 lines.old.number lines.old.lines) result lines.new }
{
    let mut rows = List::new(alloc);
    read_rows(alloc, kind, lines, &mut rows)?;
    Ok(rows)
}
