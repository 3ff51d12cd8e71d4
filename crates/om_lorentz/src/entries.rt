//! The entries of the vertex structures.
ghost use Rattle.std.specs.Prelude.{◌≡◌, ℕ, ◌+◌, ◌*◌, ◌≤◌, ◌<◌};
ghost use Rattle.om_lorentz.specs.Entries.{difference, entry, g, momentum};
ghost use Rattle.om_lorentz.specs.Structures.{HasIndices, IsReading, IsSlot, index, read};

mod fermions;

use crate::matrices::{lower_difference, minus, times_metric};
use crate::structures::{Factors, Reading, Structure};
use crate::vectors::{Four, Momenta};
use fermions::{fermions_scalar, fermions_vector};
use om_ring::ring::Ring;
use om_ring::steps::Steps;

// What a vertex is read with, at indices that are below four.
#[derive(Drop)]
struct Vertex<E> {
    reading: Reading,
    factors: Factors<E>,
    momenta: Momenta<E>,
    indices: [u8; 4],
    ghost below: { (slot : ℕ) → IsSlot slot → index indices slot < 4 },
}

// The momentum that enters through a slot.
fn momentum<E: Copy>(vertex: &Vertex<E>, slot: u8) -> Four<E>
    requires { IsSlot slot }
    ensures { result ≡ momentum vertex.now.momenta slot }
{
    match slot {
        1 => vertex.momenta.first,
        2 => vertex.momenta.second,
        3 => vertex.momenta.third,
        _ => vertex.momenta.fourth,
    }
}

// The index of a slot.
fn index<E: Copy>(vertex: &Vertex<E>, slot: u8) -> u8
    requires { IsSlot slot }
    ensures value { result ≡ index vertex.now.indices slot }
    ensures below { result < 4 }
{
    vertex.indices[(slot - 1) as usize]
}

// x g_jk, where j and k are slots.
fn times_g<R: Ring<Mark = L>, L>(
    ring: &R,
    x: R::E,
    vertex: &Vertex<R::E>,
    j: u8,
    k: u8,
    steps: &mut Steps<L>,
) -> R::E
    requires j_in { IsSlot j }
    requires k_in { IsSlot k }
    ensures value { let o = R.ops ring.now in
        result ≡ o.times x (g o (index vertex.now.indices) j k) }
    ensures at_most { steps.new ≤ steps.old + R.cost ring.now }
{
    times_metric(ring, x, index(vertex, j), index(vertex, k), steps)
}

// x g_jk g_mn, where j, k, m and n are slots.
fn times_two<R: Ring<Mark = L>, L>(
    ring: &R,
    x: R::E,
    vertex: &Vertex<R::E>,
    j: u8,
    k: u8,
    m: u8,
    n: u8,
    steps: &mut Steps<L>,
) -> R::E
    requires j_in { IsSlot j }
    requires k_in { IsSlot k }
    requires m_in { IsSlot m }
    requires n_in { IsSlot n }
    ensures value { let o = R.ops ring.now in let i = index vertex.now.indices in
        result ≡ o.times (o.times x (g o i j k)) (g o i m n) }
    ensures at_most { steps.new ≤ steps.old + 2 * R.cost ring.now }
{
    let once = times_g(ring, x, vertex, j, k, steps);
    times_g(ring, once, vertex, m, n, steps)
}

// g_jk (p_j - p_k)_n, where j, k and n are slots.
fn metric_difference<R: Ring<Mark = L>, L>(
    ring: &R,
    vertex: &Vertex<R::E>,
    j: u8,
    k: u8,
    n: u8,
    steps: &mut Steps<L>,
) -> R::E
    requires j_in { IsSlot j }
    requires k_in { IsSlot k }
    requires n_in { IsSlot n }
    ensures value { let o = R.ops ring.now in let i = index vertex.now.indices in
        result ≡ o.times (g o i j k) (difference o (momentum vertex.now.momenta) i j k n) }
    ensures at_most { steps.new ≤ steps.old + 3 * R.cost ring.now }
{
    let (p, q) = (momentum(vertex, j), momentum(vertex, k));
    let along = lower_difference(ring, &p, &q, index(vertex, n), steps);
    times_g(ring, along, vertex, j, k, steps)
}

// The entry of `Vss`.
fn vector_scalars<R: Ring<Mark = L>, L>(
    ring: &R,
    vertex: &Vertex<R::E>,
    steps: &mut Steps<L>,
) -> R::E
    ensures value { let v = vertex.now in
        result ≡ entry (R.ops ring.now) Structure.Vss v.reading v.factors v.momenta v.indices }
    ensures at_most { steps.new ≤ steps.old + 3 * R.cost ring.now }
{
    let (p, q) = (&vertex.momenta.second, &vertex.momenta.third);
    let along = lower_difference(ring, p, q, index(vertex, 1), steps);
    ring.mul(vertex.factors.a, along, steps)
}

// The entry of `Vvv`.
fn three_vectors<R: Ring<Mark = L>, L>(
    ring: &R,
    vertex: &Vertex<R::E>,
    steps: &mut Steps<L>,
) -> R::E
    requires reads { let at = read vertex.now.reading in IsSlot (at 1) × IsSlot (at 2) × IsSlot (at 3) }
    ensures value { let v = vertex.now in
        result ≡ entry (R.ops ring.now) Structure.Vvv v.reading v.factors v.momenta v.indices }
    ensures at_most { steps.new ≤ steps.old + 12 * R.cost ring.now }
{
    let [r, s, t, _] = vertex.reading.slots;
    let first = metric_difference(ring, vertex, r, s, t, steps);
    let second = metric_difference(ring, vertex, s, t, r, steps);
    let third = metric_difference(ring, vertex, t, r, s, steps);
    let two = ring.add(first, second, steps);
    let sum = ring.add(two, third, steps);
    ring.mul(vertex.factors.a, sum, steps)
}

// The entry of `Vvvv`.
fn four_vectors<R: Ring<Mark = L>, L>(ring: &R, vertex: &Vertex<R::E>, steps: &mut Steps<L>) -> R::E
    ensures value { let v = vertex.now in
        result ≡ entry (R.ops ring.now) Structure.Vvvv v.reading v.factors v.momenta v.indices }
    ensures at_most { steps.new ≤ steps.old + 8 * R.cost ring.now }
{
    let first = times_two(ring, vertex.factors.a, vertex, 1, 2, 3, 4, steps);
    let second = times_two(ring, vertex.factors.b, vertex, 1, 3, 2, 4, steps);
    let third = times_two(ring, vertex.factors.c, vertex, 1, 4, 2, 3, steps);
    let two = ring.add(first, second, steps);
    ring.add(two, third, steps)
}

// The entry of `Gluon4`.
fn four_gluons<R: Ring<Mark = L>, L>(ring: &R, vertex: &Vertex<R::E>, steps: &mut Steps<L>) -> R::E
    requires reads { let at = read vertex.now.reading in
        IsSlot (at 1) × IsSlot (at 2) × IsSlot (at 3) × IsSlot (at 4) }
    ensures value { let v = vertex.now in
        result ≡ entry (R.ops ring.now) Structure.Gluon4 v.reading v.factors v.momenta v.indices }
    ensures at_most { steps.new ≤ steps.old + 11 * R.cost ring.now }
{
    let [r, s, t, u] = vertex.reading.slots;
    let a = vertex.factors.a;
    let crossed = times_two(ring, a, vertex, r, t, s, u, steps);
    let next = times_two(ring, a, vertex, r, s, t, u, steps);
    let last = times_two(ring, a, vertex, r, u, s, t, steps);
    let twice = ring.add(crossed, crossed, steps);
    let rest = minus(ring, twice, next, steps);
    minus(ring, rest, last, steps)
}

/// The entry of a vertex at given indices, without the leading i: the line of its structure in
/// `specs/Entries.antt`.
///
/// `indices` holds an index of the spin of each slot, in the order in which the slots are written, and 0
/// past the vertex. `reading` names each slot once, and 0 past the vertex; only `Vvv` and `Gluon4` read
/// their slots in its order. `momenta` enter through the slots and have upper components. At most twelve
/// ring calls.
pub fn entry<R: Ring<Mark = L>, L>(
    ring: &R,
    structure: Structure,
    reading: Reading,
    factors: &Factors<R::E>,
    momenta: &Momenta<R::E>,
    indices: [u8; 4],
    steps: &mut Steps<L>,
) -> R::E
    requires indices_in { HasIndices structure indices }
    requires reads { IsReading structure reading }
    ensures value { result ≡ entry (R.ops ring.now) structure reading factors.now momenta.now indices }
    ensures at_most { steps.new ≤ steps.old + 12 * R.cost ring.now }
{
    let vertex = Vertex {
        reading,
        factors: *factors,
        momenta: *momenta,
        indices,
    };
    match structure {
        Structure::Sss | Structure::Ssss => factors.a,
        Structure::Vss => vector_scalars(ring, &vertex, steps),
        Structure::Vvs | Structure::Vvss => times_g(ring, factors.a, &vertex, 1, 2, steps),
        Structure::Ffs => fermions_scalar(ring, &vertex, steps),
        Structure::Ffv => fermions_vector(ring, &vertex, steps),
        Structure::Vvv => three_vectors(ring, &vertex, steps),
        Structure::Vvvv => four_vectors(ring, &vertex, steps),
        Structure::Gluon4 => four_gluons(ring, &vertex, steps),
    }
}
