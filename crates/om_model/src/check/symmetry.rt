//! Slots of a vertex that may be exchanged.
ghost use Rattle.std.specs.Prelude.{◌+◌, ◌^◌, ◌<◌, ◌↔◌, IsTrue, length};
ghost use Rattle.om_colour.specs.Table.{row_number};
ghost use Rattle.om_model.specs.Rules.{AllowsSwap, IsSymmetric, MaySwapAll, Pair, AreFactorValues};
ghost use Rattle.om_model.specs.declared.model.Vertex.{Vertex};

use super::vertices::Values;
use crate::Vertex;
use om_colour::ColourRow;
use om_lorentz::Structure;
use om_ring::Ring;

/// Whether any two slots with equal fields may be exchanged.
pub(crate) fn is_symmetric<R: Ring<Mark = L>, L>(
    ring: &R,
    vertex: &Vertex,
    colours: &ColourRow,
    values: &Values<R::E>,
) -> bool
    requires { AreFactorValues (R.ops ring.now) vertex.now values.now.first values.now.second values.now.third }
    ensures { IsTrue result ↔ IsSymmetric (R.ops ring.now) vertex.now colours.now }
{
    for slot in 0..vertex.fields.len() {
        if !may_swap_all(ring, vertex, colours, values, slot) {
            return false;
        }
    }
    true
}

// Whether a slot, counted from 0, may be exchanged with each slot before it that has the same field.
fn may_swap_all<R: Ring<Mark = L>, L>(
    ring: &R,
    vertex: &Vertex,
    colours: &ColourRow,
    values: &Values<R::E>,
    slot: usize,
) -> bool
    requires slot { slot < length vertex.now.fields }
    requires fits { slot + 1 < 2 ^ 64 }
    requires values { AreFactorValues (R.ops ring.now) vertex.now values.now.first values.now.second values.now.third }
    ensures { IsTrue result ↔ MaySwapAll (R.ops ring.now) vertex.now colours.now slot }
{
    let field = *vertex.fields.at(slot);
    for earlier in 0..slot {
        if *vertex.fields.at(earlier) == field
            && !may_swap(
                ring,
                vertex.structure,
                colours,
                values,
                earlier + 1,
                slot + 1,
            )
        {
            return false;
        }
    }
    true
}

// Whether two slots, counted from 1, the lower first, may be exchanged.
fn may_swap<R: Ring<Mark = L>, L>(
    ring: &R,
    structure: Structure,
    colours: &ColourRow,
    values: &Values<R::E>,
    lower: usize,
    upper: usize,
) -> bool
    ensures { IsTrue result ↔ AllowsSwap structure (row_number colours.now) values.now.first values.now.second values.now.third lower upper }
{
    match structure {
        Structure::Sss | Structure::Ssss | Structure::Gluon4 => true,
        Structure::Vvv => colours.row() == 5,
        Structure::Vvs => is_pair(lower, upper, 1, 2),
        Structure::Vvss => is_pair(lower, upper, 1, 2) || is_pair(lower, upper, 3, 4),
        Structure::Vvvv => may_swap_vectors(ring, values, lower, upper),
        Structure::Vss | Structure::Ffs | Structure::Ffv => false,
    }
}

// The same for four vectors: two pairs may be exchanged where the factors of the other two pairs are equal.
fn may_swap_vectors<R: Ring<Mark = L>, L>(
    ring: &R,
    values: &Values<R::E>,
    lower: usize,
    upper: usize,
) -> bool
    ensures { IsTrue result ↔ AllowsSwap Structure.Vvvv 0 values.now.first values.now.second values.now.third lower upper }
{
    if is_pair(lower, upper, 1, 2) || is_pair(lower, upper, 3, 4) {
        return ring.same(values.second, values.third);
    }
    if is_pair(lower, upper, 1, 3) || is_pair(lower, upper, 2, 4) {
        return ring.same(values.first, values.third);
    }
    (is_pair(lower, upper, 1, 4) || is_pair(lower, upper, 2, 3))
        && ring.same(values.first, values.second)
}

fn is_pair(lower: usize, upper: usize, first: usize, second: usize) -> bool
    ensures { IsTrue result ↔ Pair lower upper first second }
{
    lower == first && upper == second
}
