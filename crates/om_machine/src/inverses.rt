//! What the waves of an event are multiplied with on the inner edges.
//!
//! All denominators are inverted together: the product of all is inverted once, and gives each inverse by two products.
ghost use Rattle.std.specs.Prelude.{◌≡◌, ◌+◌, ◌*◌, ◌≤◌, [], length, MatchOption};
ghost use Rattle.om_code.specs.Meaning.{IsFirstPole};
ghost use Rattle.om_machine.specs.declared.sets.TheConstants.{SETS};
ghost use Rattle.om_machine.specs.Momenta.{AreDenominators, AreEdges, AreProducts, HoldsEdgeMomenta, product_before, table_from};

use crate::Event;
use crate::momenta::{damping_of, denominator_of};
use crate::numbers::Masses;
use crate::reads::masses_in;
use om_code::{Code, Den};
use om_lorentz::Four;
use om_ring::{List, Ring, Steps};

// Puts the denominators of the inner edges.
fn set_denominators<R: Ring<Mark = L>, L>(
    ring: &R,
    code: &Code,
    masses: &[Masses<R::E>],
    event: &Event<R::E>,
    momenta: &[Four<R::E>],
    denominators: &mut List<R::E>,
    steps: &mut Steps<L>,
)
    requires count { length denominators.old ≡ length code.now.dens }
    requires places { length momenta.now ≡ SETS }
    requires momenta { HoldsEdgeMomenta (R.ops ring.now) code.now event.now momenta.now }
    ensures value { let o = R.ops ring.now in let t = table_from o [] masses.now in
        AreDenominators o code.now t event.now (length code.now.dens) denominators.new }
    ensures length { length denominators.new ≡ length code.now.dens }
    ensures at_most { steps.new ≤ steps.old + length code.now.dens * (13 * R.cost ring.now) }
{
    let mut last = None;
    for (k, den) in code.dens.as_slice().iter().enumerate() {
        let row = usize::from(den.field / 2);
        let damping = damping_of(ring, masses, row, last, steps);
        let value = denominator_of(ring, code, masses, event, momenta, den, damping, steps);
        denominators.set(k, value);
        last = Some(damping);
    }
}

// Puts the product of the denominators before each edge, and answers that of all.
fn set_products<R: Ring<Mark = L>, L>(
    ring: &R,
    denominators: &[R::E],
    products: &mut List<R::E>,
    steps: &mut Steps<L>,
) -> R::E
    requires { length products.old ≡ length denominators.now }
    ensures value { result ≡ product_before (R.ops ring.now) denominators.now (length denominators.now) }
    ensures products { AreProducts (R.ops ring.now) denominators.now (length denominators.now) products.new }
    ensures length { length products.new ≡ length denominators.now }
    ensures at_most { steps.new ≤ steps.old + length denominators.now * R.cost ring.now }
{
    let mut product = ring.one();
    for k in 0..denominators.len() {
        products.set(k, product);
        product = ring.mul(product, denominators[k], steps);
    }
    product
}

// Puts what the wave of each edge is multiplied with in the place of the product before it, from the last edge to the first.
// `inverse` is that of the product of all denominators.
fn set_factors<R: Ring<Mark = L>, L>(
    ring: &R,
    code: &Code,
    masses: &[Masses<R::E>],
    event: &Event<R::E>,
    denominators: &[R::E],
    edges: &mut List<R::E>,
    inverse: R::E,
    steps: &mut Steps<L>,
)
    requires count { length denominators.now ≡ length code.now.dens }
    requires places { length edges.old ≡ length code.now.dens }
    requires denominators { let o = R.ops ring.now in let t = table_from o [] masses.now in
        AreDenominators o code.now t event.now (length code.now.dens) denominators.now }
    requires products { AreProducts (R.ops ring.now) denominators.now (length code.now.dens) edges.old }
    requires inverse { let o = R.ops ring.now in o.times (product_before o denominators.now (length code.now.dens)) inverse ≡ o.one }
    ensures value { let o = R.ops ring.now in let t = table_from o [] masses.now in
        AreEdges o code.now t event.now (length code.now.dens) edges.new }
    ensures length { length edges.new ≡ length code.now.dens }
    ensures at_most { steps.new ≤ steps.old + length code.now.dens * (3 * R.cost ring.now) }
{
    let _event = event;
    let count = code.dens.len();
    let mut left = inverse;
    for done in 0..count {
        let k = count - 1 - done;
        let den = code.dens.at(k);
        let own = ring.mul(left, *edges.at(k), steps);
        let norm = masses_in(ring, masses, usize::from(den.field / 2)).norm;
        let factor = ring.mul(norm, own, steps);
        edges.set(k, factor);
        left = ring.mul(left, denominators[k], steps);
    }
}

// Puts what the wave of each edge is multiplied with, or answers the first denominator without inverse.
fn set_one_by_one<R: Ring<Mark = L>, L>(
    ring: &R,
    code: &Code,
    masses: &[Masses<R::E>],
    event: &Event<R::E>,
    denominators: &[R::E],
    edges: &mut List<R::E>,
    steps: &mut Steps<L>,
) -> Option<Den>
    requires count { length denominators.now ≡ length code.now.dens }
    requires places { length edges.old ≡ length code.now.dens }
    requires denominators { let o = R.ops ring.now in let t = table_from o [] masses.now in
        AreDenominators o code.now t event.now (length code.now.dens) denominators.now }
    ensures value { let o = R.ops ring.now in let t = table_from o [] masses.now in
        MatchOption result (AreEdges o code.now t event.now (length code.now.dens) edges.new) (IsFirstPole o code.now t event.now code.now.dens) }
    ensures length { length edges.new ≡ length code.now.dens }
    ensures at_most { steps.new ≤ steps.old + length code.now.dens * (2 * R.cost ring.now) }
{
    let _event = event;
    for k in 0..code.dens.len() {
        let den = code.dens.at(k);
        let Some(inverse) = ring.inverse(denominators[k], steps) else {
            return Some(*den);
        };
        let norm = masses_in(ring, masses, usize::from(den.field / 2)).norm;
        let factor = ring.mul(norm, inverse, steps);
        edges.set(k, factor);
    }
    None
}

/// Puts what the wave of each edge is multiplied with; or the first denominator without inverse.
pub(crate) fn set_edges<R: Ring<Mark = L>, L>(
    ring: &R,
    code: &Code,
    masses: &[Masses<R::E>],
    event: &Event<R::E>,
    momenta: &[Four<R::E>],
    denominators: &mut List<R::E>,
    edges: &mut List<R::E>,
    steps: &mut Steps<L>,
) -> Option<Den>
    requires count { length denominators.old ≡ length code.now.dens }
    requires places { length edges.old ≡ length code.now.dens }
    requires sets { length momenta.now ≡ SETS }
    requires momenta { HoldsEdgeMomenta (R.ops ring.now) code.now event.now momenta.now }
    ensures value { let o = R.ops ring.now in let t = table_from o [] masses.now in
        MatchOption result (AreEdges o code.now t event.now (length code.now.dens) edges.new) (IsFirstPole o code.now t event.now code.now.dens) }
    ensures length { length edges.new ≡ length code.now.dens }
    ensures count { length denominators.new ≡ length code.now.dens }
    ensures at_most { steps.new ≤ steps.old + length code.now.dens * (18 * R.cost ring.now) }
{
    if code.dens.is_empty() {
        return None;
    }
    set_denominators(ring, code, masses, event, momenta, denominators, steps);
    let denominators = denominators.as_slice();
    let product = set_products(ring, denominators, edges, steps);
    match ring.inverse(product, steps) {
        Some(inverse) => {
            set_factors(
                ring,
                code,
                masses,
                event,
                denominators,
                edges,
                inverse,
                steps,
            );
            None
        }
        None => set_one_by_one(ring, code, masses, event, denominators, edges, steps),
    }
}
