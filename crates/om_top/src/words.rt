//! Words that are too many or too long.
ghost use Rattle.std.specs.Prelude.{◌≡◌, ◌<◌, ◌↔◌, All, IsTrue, length, map, string_bytes};
ghost use Rattle.om_top.specs.declared.ending.Ending.TheVariants as ending;
ghost use Rattle.om_top.specs.declared.words.TheConstants.{WORD_LIMIT};
ghost use Rattle.om_top.specs.Limits.{IsWithinLimits};
ghost use Rattle.om_top.specs.Message.{Told};
ghost use Rattle.om_top.specs.Outside.{side};

use crate::ending::{Ending, status};
use crate::message::report;
use om_io::Sink;

/// More words, or bytes of a word, than a run takes: 2^31.
pub const WORD_LIMIT: usize = 1 << 31;

/// Whether [`run`](crate::run) takes the words: they are fewer than `WORD_LIMIT`, and each has fewer bytes than that.
pub fn within_limits(words: &[String]) -> bool
    ensures { IsTrue result ↔ IsWithinLimits (map (λ w. string_bytes w) words.now) }
{
    words.len() < WORD_LIMIT && are_short(words)
}

// Whether each word is short enough.
fn are_short(words: &[String]) -> bool
    ensures { IsTrue result ↔ All (λ w. length (string_bytes w) < WORD_LIMIT) words.now }
{
    words.iter().all(|word| word.len() < WORD_LIMIT)
}

/// Writes the usage line to `err`, and answers the exit status that goes with it. A fault of `err` changes nothing.
pub fn refuse_words<E: Sink>(err: &mut E) -> u8
    ensures status { result ≡ 2 }
    ensures told { Told (side E.written E.faults err.old err.new) ending.Usage }
{
    report(err, Ending::Usage);
    status(Ending::Usage)
}
