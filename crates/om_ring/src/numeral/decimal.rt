//! Whole numbers out of text.
ghost use Rattle.std.specs.Prelude.{◌≡◌, ◌^◌, ◌<◌, IfSome};
ghost use Rattle.om_ring.specs.Spelt.{decimal_below};

use super::read::{Number, more_digits};

/// The number below 2^64 whose decimal `text` is. None exactly where it is no decimal, as with a zero in front of other
/// digits, or that of a greater number. It takes no memory.
pub fn read_decimal(text: &[u8]) -> Option<u64>
    ensures { result ≡ decimal_below (2 ^ 64) text.now }
{
    if text.is_empty() {
        return None;
    }
    let Number { value, end } = more_digits(text, 0);
    if end < text.len() {
        return None;
    }
    if text[0] == b'0' && end > 1 {
        None
    } else {
        value
    }
}

/// The number below `limit` whose decimal `text` is. None exactly where it is none. It takes no memory.
#[tactic(auto, using(crate::proofs::SpeltLemmas::decimal_less, crate::proofs::SpeltLemmas::decimal_absent))]
pub fn read_decimal_below(text: &[u8], limit: u64) -> Option<u64>
    ensures value { result ≡ decimal_below limit text.now }
    ensures within { IfSome result (λ n. n < limit) }
{
    let number = read_decimal(text)?;
    if number < limit { Some(number) } else { None }
}
