//! The words that ask for a sample, and the line that tells it.
ghost use Rattle.std.specs.Prelude.{◌≡◌, ◌≤◌, [], IfSome, OnOk, OnErr};
ghost use Rattle.om_io.specs.Bytes.{AppendsPrefix, after_told};
ghost use Rattle.om_io.specs.Causes.{HasCause};
ghost use Rattle.om_legs.specs.declared.leg_set.TheConstants.{MOST_LEGS};
ghost use Rattle.om_model.specs.declared.limits.TheConstants.{FEWEST_LEGS};
ghost use Rattle.om_sample.specs.Texts.{legs_in, sample_text};

use crate::limits::SAMPLE_EVENTS;
use crate::sums::Sums;
use om_io::{Failed, Sink, write_all};
use om_legs::MOST_LEGS;
use om_model::limits::FEWEST_LEGS;
use om_ring::{Line, Ring, read_decimal_below};

/// The number of legs that a word says: the decimal of one from 3 to 12, without leading zeros. None exactly where it is none.
pub fn read_legs(word: &[u8]) -> Option<u8>
    ensures value { result ≡ legs_in word.now }
    ensures most { IfSome result (λ legs. legs ≤ MOST_LEGS) }
    ensures fewest { IfSome result (λ legs. FEWEST_LEGS ≤ legs) }
{
    let legs = read_decimal_below(word, u64::from(MOST_LEGS) + 1)?;
    if legs < FEWEST_LEGS as u64 {
        return None;
    }
    Some(legs as u8)
}

// Appends the line of a sample.
fn push_sample<R: Ring>(ring: &R, legs: u8, sums: &Sums<R::E>, line: &mut Line)
    requires { line.old ≡ [] }
    ensures { line.new ≡ sample_text (R.text ring.now) legs sums.now.poles sums.now.total }
{
    line.push(b"sample legs ");
    line.push_number(u64::from(legs));
    line.push(b" events ");
    line.push_number(u64::from(SAMPLE_EVENTS));
    line.push(b" poles ");
    line.push_number(u64::from(sums.poles));
    line.push(b" sum ");
    ring.show(sums.total, line);
    line.push(b"\n");
}

/// Appends the line of a sample. It takes no memory.
///
/// # Errors
///
/// `Failed` only where the sink's count of faults rose. A prefix of the line, perhaps empty, was then appended.
pub fn write_sample<R: Ring, W: Sink>(
    ring: &R,
    legs: u8,
    sums: &Sums<R::E>,
    to: &mut W,
) -> Result<(), Failed>
    ensures ok { OnOk result (W.written to.new ≡ after_told (W.written to.old) (sample_text (R.text ring.now) legs sums.now.poles sums.now.total)) }
    ensures err { OnErr result (AppendsPrefix (W.written to.old) (W.written to.new) (sample_text (R.text ring.now) legs sums.now.poles sums.now.total)) }
    ensures cause { HasCause (W.faults to.old) (W.faults to.new) result }
{
    let mut line = Line::new();
    push_sample(ring, legs, sums, &mut line);
    write_all(to, line.bytes())
}
