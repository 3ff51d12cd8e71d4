//! The process that a text is.
ghost use Rattle.std.specs.Prelude.{◌^◌, ◌<◌, ◌≤◌, length, IfOk};
ghost use Rattle.om_model.specs.ProcessText.{GivesProcess, process_of};
ghost use Rattle.om_model.specs.ProcessOf.{IsProcessOf};

mod edges;
mod names;
mod syntax;
mod tokens;

use crate::limits::FEWEST_LEGS;
use crate::{Model, Process, ProcessFault};
use edges::named_edges;
use names::named_legs;
use om_legs::MOST_LEGS;
use std::alloc::Global;
use syntax::syntax_fault;

/// The process of `model` that `text` is: names, `->`, names, and then any number of pairs of `/` and a set of legs, with one or
/// more spaces between all of them, and spaces before and behind allowed. A set is decimals from 1 to 99 without leading zeros,
/// strictly rising, joined by `+`, and names the edge with these legs on one of its sides. A token that may not stand where it
/// stands, or that is missing, comes before a name that isn't in the model, that before a wrong number of names, and that before a
/// set that names no edge. Where a call of the allocator fails the answer is `Memory`.
pub fn read_process(alloc: Global, model: &Model, text: &[u8]) -> Result<Process, ProcessFault>
    requires rows { length model.now.particles ≤ 2 ^ 15 }
    requires bytes { length text.now < 2 ^ 31 }
    ensures answer { GivesProcess (process_of model.now text.now) result }
    ensures process { IfOk result (λ p. IsProcessOf model.now p) }
{
    if let Some(place) = syntax_fault(text) {
        return Err(ProcessFault::Syntax(place));
    }
    let legs = named_legs(alloc, model.particles.as_slice(), text)?;
    if legs.len() < FEWEST_LEGS || legs.len() > usize::from(MOST_LEGS) {
        return Err(ProcessFault::Legs(legs.len() as u32));
    }
    let edges = named_edges(alloc, legs.len() as u8, text)?;
    Ok(Process { legs, edges })
}

#[cfg(test)]
mod tests;
