//! Writing through a buffer.
ghost use Rattle.std.specs.Prelude.{◌≡◌, ◌+◌, ◌≤◌, [], length, OnOk};
ghost use Rattle.om_ring.specs.declared.line.TheConstants.{LINE_BYTES};
ghost use Rattle.om_io.specs.declared.buffer.TheConstants.{ROOM_BYTES};
ghost use Rattle.om_io.specs.Writing.{Writes, outlet};

use crate::{Failed, Sink, write_all};
use om_ring::{LINE_BYTES, Line};

/// How many bytes are free after [`make_room`]: enough for each line that is written at once, of which the longest is that of a flow's
/// value, of 162 bytes.
pub const ROOM_BYTES: usize = 192;

/// Sees that [`ROOM_BYTES`] bytes are free in the buffer.
///
/// # Errors
///
/// `Failed` only where the sink's count of faults rose. A prefix of what the buffer held, perhaps
/// empty, was then appended to the sink.
pub fn make_room<W: Sink>(to: &mut W, line: &mut Line) -> Result<(), Failed>
    ensures written { Writes (outlet (W.written to.old) (W.faults to.old) line.old) (outlet (W.written to.new) (W.faults to.new) line.new) [] result }
    ensures room { OnOk result (length line.new + ROOM_BYTES ≤ LINE_BYTES) }
{
    if line.bytes().len() <= LINE_BYTES - ROOM_BYTES {
        return Ok(());
    }
    flush(to, line)
}

/// Appends all that the buffer holds to the sink.
///
/// # Errors
///
/// `Failed` only where the sink's count of faults rose. A prefix of what the buffer held, perhaps
/// empty, was then appended to the sink.
pub fn flush<W: Sink>(to: &mut W, line: &mut Line) -> Result<(), Failed>
    ensures written { Writes (outlet (W.written to.old) (W.faults to.old) line.old) (outlet (W.written to.new) (W.faults to.new) line.new) [] result }
    ensures empty { OnOk result (line.new ≡ []) }
{
    write_all(to, line.bytes())?;
    line.clear();
    Ok(())
}
