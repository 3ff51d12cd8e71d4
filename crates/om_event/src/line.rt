//! What a line of an event says.
ghost use Rattle.std.specs.Prelude.{◌≡◌, ◌+◌, ◌*◌, ◌≤◌, decimal, bytes_eq, IfOk};
ghost use Rattle.om_kernel.specs.Waves.{kind_of};
ghost use Rattle.om_event.specs.Kinds.{kind_named};
ghost use Rattle.om_event.specs.Lines.{leg_in, value_in, wave_size};
ghost use Rattle.om_event.specs.LineScan.{IsReadAs, four_in, number_at, numbers_in, wave_in};

use crate::pieces::{count_spaces, first_piece};
use crate::{Cause, WaveKind};
use om_kernel::Wave;
use om_lorentz::Four;
use om_ring::{Line, Ring, Steps, read_numeral, value_of};

/// What enters through a leg.
#[derive(Clone, Copy)]
pub(crate) struct Leg<E> {
    pub(crate) momentum: Four<E>,
    pub(crate) wave: Wave<E>,
}

// The value of a piece that is a numeral.
#[tactic(auto, unfolding(crate::specs::Lines::value_in))]
fn value_in<R: Ring<Mark = L>, L>(
    ring: &R,
    piece: &[u8],
    steps: &mut Steps<L>,
) -> Result<R::E, Cause>
    ensures value { result ≡ value_in (R.ops ring.now) piece.now }
    ensures at_most { steps.new ≤ steps.old + 4 * R.cost ring.now }
{
    let Ok(numeral) = read_numeral(piece) else {
        return Err(Cause::BadNumeral);
    };
    match value_of(ring, &numeral, steps) {
        Some(value) => Ok(value),
        None => Err(Cause::NoInverse),
    }
}

// The number that the first piece is, and what follows the piece.
#[tactic(auto, unfolding(crate::specs::LineScan::number_at))]
fn number_in<'a, R: Ring<Mark = L>, L>(
    ring: &R,
    text: &'a [u8],
    steps: &mut Steps<L>,
) -> Result<(R::E, &'a [u8]), Cause>
    ensures value { IsReadAs (λ x. (x.0, x.1.now)) result (number_at (R.ops ring.now) text.now) }
    ensures at_most { steps.new ≤ steps.old + 4 * R.cost ring.now }
{
    let (piece, rest) = first_piece(text);
    let value = value_in(ring, piece, steps)?;
    Ok((value, rest))
}

// Four components.
#[tactic(auto, unfolding(crate::specs::LineScan::four_in))]
fn four_in<'a, R: Ring<Mark = L>, L>(
    ring: &R,
    text: &'a [u8],
    steps: &mut Steps<L>,
) -> Result<(Four<R::E>, &'a [u8]), Cause>
    ensures value { IsReadAs (λ x. (x.0, x.1.now)) result (four_in (R.ops ring.now) text.now) }
    ensures at_most { steps.new ≤ steps.old + 16 * R.cost ring.now }
{
    let (t, text) = number_in(ring, text, steps)?;
    let (x, text) = number_in(ring, text, steps)?;
    let (y, text) = number_in(ring, text, steps)?;
    let (z, text) = number_in(ring, text, steps)?;
    Ok((Four { t, x, y, z }, text))
}

// The wave function.
#[tactic(auto, unfolding(crate::specs::LineScan::wave_of_one, crate::specs::LineScan::wave_of_four))]
fn wave_in<R: Ring<Mark = L>, L>(
    ring: &R,
    kind: WaveKind,
    text: &[u8],
    steps: &mut Steps<L>,
) -> Result<Wave<R::E>, Cause>
    ensures value { result ≡ wave_in (R.ops ring.now) kind text.now }
    ensures kind { IfOk result (λ w. kind_of w ≡ kind_named kind) }
    ensures at_most { steps.new ≤ steps.old + 16 * R.cost ring.now }
{
    match kind {
        WaveKind::Scalar => {
            let (x, _) = number_in(ring, text, steps)?;
            Ok(Wave::Scalar(x))
        }
        WaveKind::Row => {
            let (p, _) = four_in(ring, text, steps)?;
            Ok(Wave::Row(p))
        }
        WaveKind::Column => {
            let (p, _) = four_in(ring, text, steps)?;
            Ok(Wave::Column(p))
        }
        WaveKind::Vector => {
            let (p, _) = four_in(ring, text, steps)?;
            Ok(Wave::Vector(p))
        }
    }
}

// The numbers of a leg.
#[tactic(auto, unfolding(crate::specs::LineScan::numbers_in))]
fn numbers_in<R: Ring<Mark = L>, L>(
    ring: &R,
    kind: WaveKind,
    text: &[u8],
    steps: &mut Steps<L>,
) -> Result<Leg<R::E>, Cause>
    ensures value { result ≡ numbers_in (R.ops ring.now) kind text.now }
    ensures kind { IfOk result (λ leg. kind_of leg.wave ≡ kind_named kind) }
    ensures at_most { steps.new ≤ steps.old + 32 * R.cost ring.now }
{
    let (momentum, text) = four_in(ring, text, steps)?;
    let wave = wave_in(ring, kind, text, steps)?;
    Ok(Leg { momentum, wave })
}

// Whether a piece is the decimal of `k`.
fn is_number(piece: &[u8], k: u8) -> bool
    ensures { result ≡ bytes_eq piece.now (decimal k) }
{
    let mut number = Line::new();
    number.push_number(u64::from(k));
    piece == number.bytes()
}

// How many numerals a wave has.
fn wave_size(kind: WaveKind) -> usize
    ensures value { result ≡ wave_size kind }
    ensures few { result ≤ 4 }
{
    match kind {
        WaveKind::Scalar => 1,
        WaveKind::Row | WaveKind::Column | WaveKind::Vector => 4,
    }
}

/// What the line of leg `k` says, without its line feed; or the first cause in order.
#[tactic(auto, using(crate::proofs::LineReads::line_rules))]
pub(crate) fn read_leg<R: Ring<Mark = L>, L>(
    ring: &R,
    kind: WaveKind,
    k: u8,
    line: &[u8],
    steps: &mut Steps<L>,
) -> Result<Leg<R::E>, Cause>
    ensures value { result ≡ leg_in (R.ops ring.now) kind k line.now }
    ensures kind { IfOk result (λ leg. kind_of leg.wave ≡ kind_named kind) }
    ensures at_most { steps.new ≤ steps.old + 32 * R.cost ring.now }
{
    if count_spaces(line) != 4 + wave_size(kind) {
        return Err(Cause::Count);
    }
    let (number, numerals) = first_piece(line);
    if !is_number(number, k) {
        return Err(Cause::LegNumber);
    }
    numbers_in(ring, kind, numerals, steps)
}
