//! The text of a set of legs, as `1+4+7`.
ghost use Rattle.std.specs.Prelude.{◌≡◌, ◌+◌, ◌<◌, ◌≤◌, ◌==◌, [], ◌∷◌, ◌++◌, IfSome, MatchOption, decimal, length, option_map};
ghost use Rattle.std.specs.List.{position, slice_split};
ghost use Rattle.om_legs.specs.Legs.{set_of_one};
ghost use Rattle.om_model.specs.LegSetText.{is_set as is_set_of, leg_number as leg_number_of, leg_set_of_word, leg_set_word, legs_read, one_more, set_numbers};

use om_legs::{LegSet, MOST_LEGS};
use om_ring::{LINE_BYTES, Line, read_decimal_below};

/// What the text of a set of legs names: its legs among 1 to 12, and its greatest number.
#[derive(Clone, Copy)]
pub(crate) struct LegsRead {
    pub(crate) legs: LegSet,
    pub(crate) greatest: u8,
}

// The most bytes of the number of a leg.
const LEG_BYTES: usize = 2;

/// The most bytes of the text of a set of legs, each with a `+`.
pub const LEG_SET_BYTES: usize = MOST_LEGS as usize * (LEG_BYTES + 1);

/// The set of legs that a text means: its legs as decimals, rising, joined by `+`. None exactly where the text is no such set or
/// names no leg.
pub fn leg_set_of(text: &[u8]) -> Option<LegSet>
    ensures { result ≡ leg_set_of_word text.now }
{
    let read = read_legs(text)?;
    if read.greatest > MOST_LEGS {
        return None;
    }
    Some(read.legs)
}

/// Appends the text of a set of legs.
pub fn push_leg_set(legs: LegSet, line: &mut Line)
    requires free { length line.old + LEG_SET_BYTES ≤ LINE_BYTES }
    ensures text { line.new ≡ line.old ++ leg_set_word legs }
    ensures short { length line.new ≤ length line.old + LEG_SET_BYTES }
{
    let mut count = 0u8;
    for leg in 1..MOST_LEGS + 1 {
        if legs.holds(leg) {
            if count > 0 {
                line.push(b"+");
            }
            push_leg(leg, line);
            count += 1;
        }
    }
}

// Appends the number of a leg.
#[tactic(auto, using(std::proofs::lemmas::Fmt::decimal_digit, om_colour::proofs::LegNumbers::decimal_two))]
fn push_leg(leg: u8, line: &mut Line)
    requires free { length line.old + LEG_BYTES ≤ LINE_BYTES }
    requires leg { leg < 100 }
    ensures text { line.new ≡ line.old ++ decimal leg }
    ensures short { length line.new ≤ length line.old + LEG_BYTES }
{
    if leg < 10 {
        line.push(&[b'0' + leg]);
    } else {
        line.push(&[b'0' + leg / 10, b'0' + leg % 10]);
    }
}

pub(crate) fn is_set(text: &[u8]) -> bool
    ensures { result ≡ is_set_of text.now }
{
    read_legs(text).is_some()
}

/// The legs that a text names: numbers from 1 to 99 without leading zeros, strictly rising, joined by `+`. None where the text is
/// no such set.
pub(crate) fn read_legs(text: &[u8]) -> Option<LegsRead>
    ensures { result ≡ option_map legs_read (set_numbers text.now) }
{
    let mut read = LegsRead {
        legs: LegSet::empty(),
        greatest: 0,
    };
    let mut rest = text;
    while let Some((number, more)) = split_at_plus(rest) {
        read = with_number(read, leg_number(number))?;
        rest = more;
    }
    with_number(read, leg_number(rest))
}

// What stands before the first plus sign, and what stands behind it.
#[tactic(auto, using(crate::proofs::Splitting::split_none))]
fn split_at_plus(text: &[u8]) -> Option<(&[u8], &[u8])>
    ensures parts { MatchOption result (slice_split (λ b. b == 43) text.now ≡ text.now ∷ [])
        (λ p. slice_split (λ b. b == 43) text.now ≡ p.0.now ∷ slice_split (λ b. b == 43) p.1.now) }
    ensures less { IfSome result (λ p. length p.1.now < length text.now) }
{
    let end = plus_in(text)?;
    let (number, behind) = text.split_at(end);
    Some((number, &behind[1..]))
}

fn plus_in(text: &[u8]) -> Option<usize>
    ensures { result ≡ position (λ b. b == 43) text.now }
{
    text.iter().position(|b| *b == b'+')
}

// One number more, if it is greater than those before.
fn with_number(read: LegsRead, number: Option<u8>) -> Option<LegsRead>
    ensures { result ≡ one_more read number }
{
    let number = number?;
    if number <= read.greatest {
        return None;
    }
    Some(LegsRead {
        legs: read.legs.union(leg_of_number(number)),
        greatest: number,
    })
}

// The set of the leg with a number; without legs where the number is above 12.
fn leg_of_number(number: u8) -> LegSet
    requires { 0 < number }
    ensures { result ≡ set_of_one number }
{
    if number <= MOST_LEGS {
        LegSet::one(number)
    } else {
        LegSet::empty()
    }
}

// The number below 100 whose decimal the text is.
fn leg_number(text: &[u8]) -> Option<u8>
    ensures { result ≡ leg_number_of text.now }
{
    let number = read_decimal_below(text, 100)?;
    Some(number as u8)
}
