//! Eight digits at a time.
ghost use Rattle.std.specs.Prelude.{◌≡◌, ◌≤◌, ◌<◌, length, take, IfSome};
ghost use Rattle.om_ring.specs.Numerals.{AllDigits, digits_value};
ghost use Rattle.om_event.specs.Eights.{AreEight, word_of};

use crate::digits::Digits;

// Eight times "0".
const ZEROS: u64 = 0x3030_3030_3030_3030;

// The highest bit of each of eight bytes.
const HIGHEST: u64 = 0x8080_8080_8080_8080;

// Eight times what takes a byte behind 9 to its highest bit.
const BEHIND_NINE: u64 = 0x7676_7676_7676_7676;

// Every second byte of eight.
const SECOND_BYTES: u64 = 0x00ff_00ff_00ff_00ff;

// Every second pair of bytes of four.
const SECOND_PAIRS: u64 = 0x0000_ffff_0000_ffff;

// The eight bytes at the front, the first the lowest.
#[inline(always)]
fn word_at_front(text: &[u8]) -> Option<u64>
    ensures within { IfSome result (λ _. 8 ≤ length text.now) }
    ensures word { IfSome result (λ w. w ≡ word_of (take 8 text.now)) }
{
    let [a, b, c, d, e, f, g, h, ..] = text else {
        return None;
    };
    Some(u64::from_le_bytes([*a, *b, *c, *d, *e, *f, *g, *h]))
}

// The number that the digits of these values write, if the eight bytes are such. All are looked at together.
#[inline(always)]
fn joined(values: u64) -> Option<u64>
    ensures eight { IfSome result (λ n. AreEight values n) }
{
    if values & HIGHEST != 0 {
        return None;
    }
    if (values + BEHIND_NINE) & HIGHEST != 0 {
        return None;
    }
    let pairs = (values * 10 + values / 256) & SECOND_BYTES;
    let fours = (pairs * 100 + pairs / 65_536) & SECOND_PAIRS;
    Some((fours * 10_000 + fours / 4_294_967_296) % 4_294_967_296)
}

// How many bytes at the front of these values are those of digits, which their tests tell. Nothing is claimed of it.
#[inline(always)]
fn digit_count(values: u64) -> u32 {
    let others = (values | values.wrapping_add(BEHIND_NINE)) & HIGHEST;
    others.trailing_zeros() / 8
}

/// The digits at the front, up to seven of them, before another byte, if eight bytes are there. These are moved behind zeros, so that
/// all are looked at together.
#[inline(always)]
pub(crate) fn seven_at_front(text: &[u8]) -> Option<Digits>
    ensures within { IfSome result (λ d. (d.len ≤ 7) × (8 ≤ length text.now)) }
    ensures digits { IfSome result (λ d. AllDigits (take d.len text.now)) }
    ensures value { IfSome result (λ d. d.value ≡ digits_value (take d.len text.now)) }
    ensures below { IfSome result (λ d. d.value < 100000000) }
{
    let word = word_at_front(text)?;
    let values = word.wrapping_sub(ZEROS);
    let count = digit_count(values);
    if count > 7 {
        return None;
    }
    let value = joined((values << 8) << (56 - 8 * count))?;
    Some(Digits {
        value,
        len: count as usize,
    })
}

/// The number that eight digits at the front write, if there are as many.
#[inline(always)]
pub(crate) fn eight_at_front(text: &[u8]) -> Option<u64>
    ensures within { IfSome result (λ _. 8 ≤ length text.now) }
    ensures digits { IfSome result (λ _. AllDigits (take 8 text.now)) }
    ensures value { IfSome result (λ n. n ≡ digits_value (take 8 text.now)) }
    ensures below { IfSome result (λ n. n < 100000000) }
{
    let word = word_at_front(text)?;
    let number = joined(word.wrapping_sub(ZEROS))?;
    Some(number)
}
