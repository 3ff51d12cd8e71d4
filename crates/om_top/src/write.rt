//! Writing whole texts.
ghost use Rattle.om_top.specs.Outside.{side, Writes};

use crate::ending::Ending;
use om_io::{Failed, Sink, write_all};

/// Writes a text, and ends.
pub(crate) fn write_text<O: Sink>(out: &mut O, text: &[u8]) -> Ending
    ensures { Writes (side O.written O.faults out.old out.new) text.now result }
{
    match write_all(out, text) {
        Ok(()) => Ending::Done,
        Err(Failed) => Ending::OutFault,
    }
}
