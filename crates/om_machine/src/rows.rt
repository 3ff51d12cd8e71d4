//! The numbers of the rows of a code's model.
ghost use Rattle.std.specs.Prelude.{◌≡◌, ◌≢◌, ◌+◌, ◌*◌, ◌≤◌, length, None, slice_get, MatchOption, MatchResult};
ghost use Rattle.om_lorentz.specs.declared.structures.Spin.TheVariants.{Vector};
ghost use Rattle.om_lorentz.specs.Propagators.{MassAgrees};
ghost use Rattle.om_model.specs.Rules.{HasFactorWithoutValue, HasLength, HasLengths, HasNoInverse};
ghost use Rattle.std.specs.List.{AllByRecursion};
ghost use Rattle.om_code.specs.Verified.{IsVerified};
ghost use Rattle.om_machine.specs.Rows.{HasFactors, HasMasses, HaveFactors, HaveMasses, IsParticleFault, IsVertexFault, product_or_zero};

use crate::LoadFault;
use crate::numbers::Masses;
use om_code::Code;
use om_lorentz::{Factors, Spin};
use om_model::{Particle, Vertex};
use om_ring::{List, Ring, Steps, value_of_product};
use std::alloc::Global;

/// The numbers of all particle rows, or the line of the first without inverse.
pub(crate) fn load_masses<R: Ring<Mark = L>, L>(
    alloc: Global,
    ring: &R,
    code: &Code,
    steps: &mut Steps<L>,
) -> Result<List<Masses<R::E>>, LoadFault>
    requires { IsVerified code.now }
    ensures value { let o = R.ops ring.now in let rows = code.now.model.particles in
        MatchResult result (HaveMasses o rows (length rows)) (IsParticleFault o code.now) }
    ensures at_most { steps.new ≤ steps.old + length code.now.model.particles * (200 * R.cost ring.now) }
{
    let mut masses = List::new(alloc);
    for k in 0..code.model.particles.len() {
        let Some(row) = masses_of(ring, code.model.particles.at(k), steps) else {
            return Err(LoadFault::NoInverse { line: k as u32 + 3 });
        };
        let Ok(()) = masses.push(row) else {
            return Err(LoadFault::Memory);
        };
    }
    Ok(masses)
}

// The numbers of a particle row.
fn masses_of<R: Ring<Mark = L>, L>(
    ring: &R,
    particle: &Particle,
    steps: &mut Steps<L>,
) -> Option<Masses<R::E>>
    requires { HasLengths particle.now }
    ensures value { let o = R.ops ring.now in MatchOption result (HasNoInverse o particle.now) (HasMasses o particle.now) }
    ensures at_most { steps.new ≤ steps.old + 200 * R.cost ring.now }
{
    let mass = value_of_product(ring, particle.mass.as_slice(), steps)?;
    let width = value_of_product(ring, particle.width.as_slice(), steps)?;
    let norm = value_of_product(ring, particle.norm.as_slice(), steps)?;
    let kept = kept_inverse(ring, particle.spin, mass, steps)?;
    Some(Masses {
        mass,
        inverse: kept.inverse,
        massive: kept.massive,
        width,
        norm,
    })
}

// 1 / mass, and whether it is needed.
#[derive(Clone, Copy)]
struct Kept<E> {
    inverse: E,
    massive: bool,
}

// 1 / mass for a vector whose mass isn't 0.
fn kept_inverse<R: Ring<Mark = L>, L>(
    ring: &R,
    spin: Spin,
    mass: R::E,
    steps: &mut Steps<L>,
) -> Option<Kept<R::E>>
    ensures value { let o = R.ops ring.now in
        MatchOption result ((spin ≡ Vector) × (mass ≢ o.zero) × (o.inverse mass ≡ None)) (λ k. MassAgrees o spin mass k.inverse k.massive) }
    ensures at_most { steps.new ≤ steps.old + R.cost ring.now }
{
    match spin {
        Spin::Vector if !ring.same(mass, ring.zero()) => {
            let inverse = ring.inverse(mass, steps)?;
            Some(Kept {
                inverse,
                massive: true,
            })
        }
        _ => Some(Kept {
            inverse: ring.zero(),
            massive: false,
        }),
    }
}

/// The factors of all vertex rows, or the line of the first without inverse.
pub(crate) fn load_factors<R: Ring<Mark = L>, L>(
    alloc: Global,
    ring: &R,
    code: &Code,
    steps: &mut Steps<L>,
) -> Result<List<Factors<R::E>>, LoadFault>
    requires { IsVerified code.now }
    ensures value { let o = R.ops ring.now in let rows = code.now.model.vertices in
        MatchResult result (HaveFactors o rows (length rows)) (IsVertexFault o code.now) }
    ensures at_most { steps.new ≤ steps.old + length code.now.model.vertices * (200 * R.cost ring.now) }
{
    let mut factors = List::new(alloc);
    for k in 0..code.model.vertices.len() {
        let Some(row) = factors_of(ring, code.model.vertices.at(k), steps) else {
            return Err(LoadFault::NoInverse {
                line: (code.model.particles.len() + k) as u32 + 3,
            });
        };
        let Ok(()) = factors.push(row) else {
            return Err(LoadFault::Memory);
        };
    }
    Ok(factors)
}

// The factors of a vertex row.
fn factors_of<R: Ring<Mark = L>, L>(
    ring: &R,
    vertex: &Vertex,
    steps: &mut Steps<L>,
) -> Option<Factors<R::E>>
    requires few { length vertex.now.factors ≤ 3 }
    requires short { AllByRecursion HasLength vertex.now.factors }
    ensures value { let o = R.ops ring.now in MatchOption result (HasFactorWithoutValue o vertex.now.factors) (HasFactors o vertex.now) }
    ensures at_most { steps.new ≤ steps.old + 200 * R.cost ring.now }
{
    let a = factor_of(ring, vertex, 0, steps)?;
    let b = factor_of(ring, vertex, 1, steps)?;
    let c = factor_of(ring, vertex, 2, steps)?;
    Some(Factors { a, b, c })
}

// The value of a factor, counted from 0, 0 where the structure has fewer.
fn factor_of<R: Ring<Mark = L>, L>(
    ring: &R,
    vertex: &Vertex,
    k: usize,
    steps: &mut Steps<L>,
) -> Option<R::E>
    requires { AllByRecursion HasLength vertex.now.factors }
    ensures value { result ≡ product_or_zero (R.ops ring.now) (slice_get vertex.now.factors k) }
    ensures at_most { steps.new ≤ steps.old + 40 * R.cost ring.now }
{
    if k < vertex.factors.len() {
        value_of_product(ring, vertex.factors.at(k).as_slice(), steps)
    } else {
        Some(ring.zero())
    }
}
