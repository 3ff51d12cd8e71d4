//! The parity of crossings.
ghost use Rattle.std.specs.Prelude.{◌≡◌, ℕ, ◌%◌, ◌<◌, ◌^◌};
ghost use Rattle.std.specs.Int.{bit_at};
ghost use Rattle.om_legs.specs.Legs.{legs_of, meeting};
ghost use Rattle.om_legs.specs.Crossings.{crossings, is_odd, bit_sum};

use crate::leg_set::LegSet;

/// Whether the number of pairs of a leg of `a` and a lesser leg of `b`, both fermions, is odd.
pub fn cross_parity(a: LegSet, b: LegSet, fermions: LegSet) -> bool
    ensures { result ≡ is_odd (crossings (legs_of (meeting a fermions)) (legs_of (meeting b fermions))) }
{
    let greater = a.number() & fermions.number();
    let lesser = b.number() & fermions.number();
    (greater & odd_below(lesser)).count_ones() % 2 == 1
}

// The places below which an odd number of bits is set.
fn odd_below(bits: u16) -> u16
    ensures { (k : ℕ) → k < 16 → bit_at result k ≡ bit_sum bits k % 2 }
{
    let mut odd = bits << 1;
    odd ^= odd << 1;
    odd ^= odd << 2;
    odd ^= odd << 4;
    odd ^ (odd << 8)
}
