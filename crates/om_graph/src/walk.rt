//! The walk over the sets of legs that lie away from the keystone, those of fewer legs first.
ghost use Rattle.std.specs.Prelude.{◌≡◌, ◌&&◌, eqb, ◌∷◌, [], ◌<◌, OnOk, false, true};
ghost use Rattle.om_graph.specs.Fillings.{AreFillings};
ghost use Rattle.om_graph.specs.Reactions.{reaction_in};
ghost use Rattle.om_graph.specs.SetSearch.{outward_sets, set_at, sets_of_size};
ghost use Rattle.om_graph.specs.SetWalk.{CanWalk, Walks};
ghost use Rattle.om_graph.specs.Vertices.{is_outward as is_outward_of};
ghost use Rattle.om_legs.specs.Legs.{IsLegSet, size as size_of};

use crate::fillings::Fillings;
use crate::fusions::sort;
use crate::nodes::Nodes;
use crate::reaction::{Reaction, is_outward};
use crate::set_fusions::add_fusions;
use crate::terms::add_terms;
use crate::{BuildFault, MOST_TERMS, Term};
use om_legs::LegSet;
use om_ring::List;
use std::alloc::Global;

/// Adds the nodes and the terms over all of these sets, by number of legs, then by number. Stops at the first term past the
/// limit.
pub(crate) fn add_sets(
    alloc: Global,
    reaction: &Reaction<'_>,
    nodes: &mut Nodes,
    terms: &mut List<Term>,
) -> Result<(), BuildFault>
    requires { CanWalk (reaction_in reaction.now) nodes.old terms.old (outward_sets (reaction_in reaction.now).scattering.size) }
    ensures { Walks (reaction_in reaction.now) nodes.old terms.old (outward_sets (reaction_in reaction.now).scattering.size) nodes.new terms.new result }
{
    let mut fillings = Fillings::new(alloc, false);
    for legs in 2..reaction.size() / 2 + 1 {
        if let Err(fault) = add_sets_of(alloc, reaction, &mut fillings, legs, nodes, terms) {
            return Err(fault);
        }
    }
    Ok(())
}

// Those of the sets that have so many legs.
fn add_sets_of(
    alloc: Global,
    reaction: &Reaction<'_>,
    fillings: &mut Fillings,
    legs: u8,
    nodes: &mut Nodes,
    terms: &mut List<Term>,
) -> Result<(), BuildFault>
    requires can { CanWalk (reaction_in reaction.now) nodes.old terms.old (sets_of_size (reaction_in reaction.now).scattering.size legs) }
    requires cached { AreFillings (reaction_in reaction.now) false fillings.old }
    ensures cached { OnOk result (AreFillings (reaction_in reaction.now) false fillings.new) }
    ensures walks { Walks (reaction_in reaction.now) nodes.old terms.old (sets_of_size (reaction_in reaction.now).scattering.size legs) nodes.new terms.new result }
{
    let end = LegSet::all(reaction.size()).number() + 1;
    for number in 1..end {
        if let Err(fault) = add_numbered(alloc, reaction, fillings, legs, number, nodes, terms) {
            return Err(fault);
        }
    }
    Ok(())
}

// The set with this number, if it is one of them.
fn add_numbered(
    alloc: Global,
    reaction: &Reaction<'_>,
    fillings: &mut Fillings,
    legs: u8,
    number: u16,
    nodes: &mut Nodes,
    terms: &mut List<Term>,
) -> Result<(), BuildFault>
    requires valid { IsLegSet number }
    requires can { CanWalk (reaction_in reaction.now) nodes.old terms.old (set_at (reaction_in reaction.now).scattering.size legs number) }
    requires cached { AreFillings (reaction_in reaction.now) false fillings.old }
    ensures cached { OnOk result (AreFillings (reaction_in reaction.now) false fillings.new) }
    ensures walks { Walks (reaction_in reaction.now) nodes.old terms.old (set_at (reaction_in reaction.now).scattering.size legs number) nodes.new terms.new result }
{
    let set = LegSet::from_number(number);
    if is_among(set, legs, reaction.size()) {
        add_set(alloc, reaction, fillings, set, nodes, terms)
    } else {
        Ok(())
    }
}

// Whether the set has so many legs and lies away from the keystone.
fn is_among(set: LegSet, legs: u8, size: u8) -> bool
    ensures { result ≡ (eqb (size_of set) legs && is_outward_of size set) }
{
    set.size() == legs && is_outward(set, size)
}

fn add_set(
    alloc: Global,
    reaction: &Reaction<'_>,
    fillings: &mut Fillings,
    set: LegSet,
    nodes: &mut Nodes,
    terms: &mut List<Term>,
) -> Result<(), BuildFault>
    requires valid { IsLegSet set }
    requires outward { is_outward_of (reaction_in reaction.now).scattering.size set ≡ true }
    requires can { CanWalk (reaction_in reaction.now) nodes.old terms.old (set ∷ []) }
    requires cached { AreFillings (reaction_in reaction.now) false fillings.old }
    ensures cached { OnOk result (AreFillings (reaction_in reaction.now) false fillings.new) }
    ensures walks { Walks (reaction_in reaction.now) nodes.old terms.old (set ∷ []) nodes.new terms.new result }
{
    let mut found = Vec::new(alloc);
    let limit = MOST_TERMS - terms.len();
    if let Err(fault) = add_fusions(alloc, reaction, nodes, fillings, limit, set, &mut found) {
        return Err(fault);
    }
    if let Err(fault) = sort(&mut found) {
        return Err(fault);
    }
    add_terms(nodes, terms, &found)
}
