//! The numerals of a line, from its front.
ghost use Rattle.std.specs.Prelude.{ℕ, List, ◌≡◌, ◌++◌, ◌∷◌, ◌≤◌, ◌<◌, ◌^◌, ◌+◌, length, drop, IfSome, decimal};
ghost use Rattle.om_ring.specs.Numerals.{NumeralFits, mark_text, shown_den, sign_text};
ghost use Rattle.om_event.specs.Written.{FourFits, IsWritten, LegFits, WaveFits, four_before, leg_of, number_before, wave_before, wave_of};

use crate::WaveKind;
use crate::digits::{Digits, digits_at_front, digits_before, fifteen_at_front, least_of_len};
use crate::fours::Fours;
use om_lorentz::Four;
use om_ring::Numeral;

// The decimal at the front, and what follows it.
#[inline(always)]
fn decimal_at_front(text: &[u8]) -> Option<(u64, &[u8])>
    ensures split { IfSome result (λ d. text.now ≡ decimal d.0 ++ d.1.now) }
    ensures fits { IfSome result (λ d. d.0 < 2 ^ 64) }
{
    let Digits { value, len } = digits_at_front(text)?;
    // the first digit isn't looked at again, since the compiler then loads the bytes of a word one by one
    if value < least_of_len(len)? {
        return None;
    }
    Some((value, &text[len..]))
}

// Whether there is a sign at the front, and what follows it.
#[inline(always)]
fn sign_at_front(text: &[u8]) -> (bool, &[u8])
    ensures { text.now ≡ sign_text result.0 ++ result.1.now }
{
    match text {
        [b'-', rest @ ..] => (true, rest),
        _ => (false, text),
    }
}

// The denominator at the front, 1 where there is no bar, and what follows it.
#[inline(always)]
fn denominator_at_front(text: &[u8]) -> Option<(u64, &[u8])>
    ensures split { IfSome result (λ d. text.now ≡ shown_den d.0 ++ d.1.now) }
    ensures fits { IfSome result (λ d. (0 < d.0) × (d.0 < 2 ^ 64)) }
{
    match text {
        [b'/', below @ ..] => {
            let (den, rest) = decimal_at_front(below)?;
            if den < 2 {
                return None;
            }
            Some((den, rest))
        }
        _ => Some((1, text)),
    }
}

// Whether there is a mark at the front, and what follows it.
#[inline(always)]
fn mark_at_front(text: &[u8]) -> (bool, &[u8])
    ensures { text.now ≡ mark_text result.0 ++ result.1.now }
{
    match text {
        [b'i', rest @ ..] => (true, rest),
        _ => (false, text),
    }
}

// What follows this byte at the front.
#[inline(always)]
fn behind_byte(text: &[u8], byte: u8) -> Option<&[u8]>
    ensures { IfSome result (λ rest. text.now ≡ byte ∷ rest.now) }
{
    match text {
        [first, rest @ ..] if *first == byte => Some(rest),
        _ => None,
    }
}

// The decimal at the front, before `stop`, and what follows that byte, if it has few digits or many. None says nothing of others.
#[inline(always)]
fn decimal_before(text: &[u8], stop: u8) -> Option<(u64, &[u8])>
    ensures split { IfSome result (λ d. text.now ≡ decimal d.0 ++ stop ∷ d.1.now) }
    ensures fits { IfSome result (λ d. d.0 < 2 ^ 64) }
{
    let Digits { value, len } = digits_before(text, stop)?;
    Some((value, &text[len + 1..]))
}

// Reads the numeral at the front in its canonical text, behind its sign, and answers how many bytes it has with the byte behind it.
#[inline(never)]
fn any_before(neg: bool, unsigned: &[u8], stop: u8, numeral: &mut Numeral) -> Option<usize>
    ensures within { IfSome result (λ read. read ≤ length unsigned.now) }
    ensures split { IfSome result (λ read. sign_text neg ++ unsigned.now ≡ number_before numeral.new stop (drop read unsigned.now)) }
    ensures fits { IfSome result (λ _. NumeralFits numeral.new) }
{
    let (num, behind_num) = decimal_at_front(unsigned)?;
    let (den, behind_den) = denominator_at_front(behind_num)?;
    let (imag, behind) = mark_at_front(behind_den);
    let rest = behind_byte(behind, stop)?;
    numeral.neg = neg;
    numeral.num = num;
    numeral.den = den;
    numeral.imag = imag;
    Some(unsigned.len() - rest.len())
}

// The decimal at the front, before `stop`, and its length, if it has fewer than sixteen digits. None says nothing of others.
#[inline(always)]
fn fifteen_before(text: &[u8], stop: u8) -> Option<Digits>
    ensures within { IfSome result (λ d. d.len < length text.now) }
    ensures split { IfSome result (λ d. text.now ≡ decimal d.value ++ stop ∷ drop (d.len + 1) text.now) }
    ensures fits { IfSome result (λ d. d.value < 2 ^ 64) }
{
    let Digits { value, len } = fifteen_at_front(text)?;
    if value < least_of_len(len)? {
        return None;
    }
    if text[len] != stop {
        return None;
    }
    Some(Digits { value, len })
}

// Reads the numeral as `any_before` does, after another test for a whole one without mark.
#[tactic(auto, using(crate::proofs::LeadingNumbers::whole_joined))]
fn other_before(neg: bool, unsigned: &[u8], stop: u8, numeral: &mut Numeral) -> Option<usize>
    ensures within { IfSome result (λ read. read ≤ length unsigned.now) }
    ensures split { IfSome result (λ read. sign_text neg ++ unsigned.now ≡ number_before numeral.new stop (drop read unsigned.now)) }
    ensures fits { IfSome result (λ _. NumeralFits numeral.new) }
{
    let Some(Digits { value, len }) = fifteen_before(unsigned, stop) else {
        let read = any_before(neg, unsigned, stop, numeral)?;
        return Some(read);
    };
    numeral.neg = neg;
    numeral.num = value;
    numeral.den = 1;
    numeral.imag = false;
    Some(len + 1)
}

// Reads the numeral at the front in its canonical text, and answers what follows the byte behind it. Whole ones without mark, as most
// are, are tried first.
#[inline(always)]
#[tactic(auto, using(crate::proofs::LeadingNumbers::whole_joined))]
fn numeral_before<'a>(text: &'a [u8], stop: u8, numeral: &mut Numeral) -> Option<&'a [u8]>
    ensures split { IfSome result (λ rest. text.now ≡ number_before numeral.new stop rest.now) }
    ensures fits { IfSome result (λ _. NumeralFits numeral.new) }
{
    let (neg, unsigned) = sign_at_front(text);
    let Some((num, rest)) = decimal_before(unsigned, stop) else {
        let read = other_before(neg, unsigned, stop, numeral)?;
        return Some(&unsigned[read..]);
    };
    numeral.neg = neg;
    numeral.num = num;
    numeral.den = 1;
    numeral.imag = false;
    Some(rest)
}

// Reads four of them with spaces between them.
fn four_before<'a>(text: &'a [u8], stop: u8, p: &mut Four<Numeral>) -> Option<&'a [u8]>
    ensures split { IfSome result (λ rest. text.now ≡ four_before p.new stop rest.now) }
    ensures fits { IfSome result (λ _. FourFits p.new) }
{
    let behind_t = numeral_before(text, b' ', &mut p.t)?;
    let behind_x = numeral_before(behind_t, b' ', &mut p.x)?;
    let behind_y = numeral_before(behind_x, b' ', &mut p.y)?;
    let rest = numeral_before(behind_y, stop, &mut p.z)?;
    Some(rest)
}

// Reads the numerals of a wave, before a line feed, and answers how many bytes follow it. A scalar's is the first.
#[inline(always)]
fn wave_before(kind: WaveKind, text: &[u8], wave: &mut Four<Numeral>) -> Option<usize>
    ensures split { IfSome result (λ left. (rest : List ℕ) × (text.now ≡ wave_before (wave_of kind wave.new) rest) × (left ≡ length rest)) }
    ensures fits { IfSome result (λ _. WaveFits (wave_of kind wave.new)) }
{
    match kind {
        WaveKind::Scalar => {
            let rest = numeral_before(text, b'\n', &mut wave.t)?;
            Some(rest.len())
        }
        WaveKind::Row | WaveKind::Column | WaveKind::Vector => {
            let rest = four_before(text, b'\n', wave)?;
            Some(rest.len())
        }
    }
}

// What follows this byte and a space at the front.
#[inline(always)]
fn behind_byte_and_space(text: &[u8], byte: u8) -> Option<&[u8]>
    ensures { IfSome result (λ rest. text.now ≡ byte ∷ 32 ∷ rest.now) }
{
    match text {
        [first, b' ', rest @ ..] if *first == byte => Some(rest),
        _ => None,
    }
}

// What follows the number of leg `k` and a space at the front.
#[inline(always)]
fn behind_leg_number(text: &[u8], k: u8) -> Option<&[u8]>
    ensures { IfSome result (λ rest. text.now ≡ decimal k ++ 32 ∷ rest.now) }
{
    if k < 10 {
        let rest = behind_byte_and_space(text, b'0' + k)?;
        return Some(rest);
    }
    let (number, behind) = decimal_at_front(text)?;
    if number != u64::from(k) {
        return None;
    }
    let rest = behind_byte(behind, b' ')?;
    Some(rest)
}

/// Reads the line of leg `k` at the front, if it is whole and each of its numerals has its canonical text, and answers its length
/// without the line feed.
pub(crate) fn leg_at_front(
    kind: WaveKind,
    k: u8,
    text: &[u8],
    numerals: &mut Fours<Numeral>,
) -> Option<usize>
    ensures read { IfSome result (λ len. IsWritten k text.now (leg_of kind numerals.new.momentum numerals.new.wave) len) }
    ensures fits { IfSome result (λ _. LegFits (leg_of kind numerals.new.momentum numerals.new.wave)) }
{
    let behind_number = behind_leg_number(text, k)?;
    let waves = four_before(behind_number, b' ', &mut numerals.momentum)?;
    let left = wave_before(kind, waves, &mut numerals.wave)?;
    Some(text.len() - left - 1)
}
