//! What nodes close to over all legs, partition by partition.
ghost use Rattle.std.specs.Prelude.{◌≡◌, ℕ, ◌≤◌, ◌++◌, List as ListOf, [], flat_map, length, Contains, OnOk, true};
ghost use Rattle.om_legs.specs.Legs.{all_legs};
ghost use Rattle.om_legs.specs.Splits.{AreSplits};
ghost use Rattle.om_model.specs.Diagram.{all_in};
ghost use Rattle.om_graph.specs.Fillings.{AreFillings};
ghost use Rattle.om_graph.specs.Loops.{Adds, CanCloseFrom, CanCloseOver, meet_closed, met_partition};
ghost use Rattle.om_graph.specs.Reactions.{reaction_in};
ghost use Rattle.om_graph.specs.Vertices.{is_outward as is_outward_of, keeps_edges};

use crate::BuildFault;
use crate::chosen::Chosen;
use crate::closed_rows::ClosedRows;
use crate::fillings::Fillings;
use crate::linked::Linked;
use crate::meets::add_tuples;
use crate::reaction::{Reaction, is_outward};
use crate::valence::has_valence;
use om_legs::{FourParts, LegSet, ThreeParts, partitions3, partitions4};
use std::alloc::Global;

/// Adds what the nodes of the parts of all legs close to, over the partitions into three and four parts, up to the limit.
pub(crate) fn add_closings(
    alloc: Global,
    reaction: &Reaction<'_>,
    nodes: &Linked<'_>,
    limit: usize,
    found: &mut ClosedRows,
) -> Result<(), BuildFault>
    requires close { CanCloseOver (reaction_in reaction.now) nodes.now }
    ensures added { (threes fours : ListOf (ListOf ℕ)) × AreSplits 3 (all_legs (reaction_in reaction.now).scattering.size) threes × AreSplits 4 (all_legs (reaction_in reaction.now).scattering.size) fours × Adds limit found.old (flat_map (met_partition (reaction_in reaction.now) (meet_closed (reaction_in reaction.now)) nodes.now) threes ++ flat_map (met_partition (reaction_in reaction.now) (meet_closed (reaction_in reaction.now)) nodes.now) fours) found.new result }
{
    let mut fillings = Fillings::new(alloc, true);
    let threes = partitions3(reaction.size());
    let fours = partitions4(reaction.size());
    if let Err(fault) = add_threes(alloc, reaction, nodes, &mut fillings, limit, threes, found) {
        return Err(fault);
    }
    add_fours(alloc, reaction, nodes, &mut fillings, limit, fours, found)
}

// What the nodes of three parts close to, over some splits.
fn add_threes(
    alloc: Global,
    reaction: &Reaction<'_>,
    nodes: &Linked<'_>,
    fillings: &mut Fillings,
    limit: usize,
    splits: ThreeParts,
    found: &mut ClosedRows,
) -> Result<(), BuildFault>
    requires close { (parts : ListOf ℕ) → Contains splits parts → CanCloseFrom (reaction_in reaction.now) nodes.now [] parts }
    requires lengths { (parts : ListOf ℕ) → Contains splits parts → length parts ≡ 3 }
    requires cached { AreFillings (reaction_in reaction.now) true fillings.old }
    ensures cached { OnOk result (AreFillings (reaction_in reaction.now) true fillings.new) }
    ensures added { Adds limit found.old (flat_map (met_partition (reaction_in reaction.now) (meet_closed (reaction_in reaction.now)) nodes.now) splits) found.new result }
{
    for parts in splits {
        if let Err(fault) = add_partition(alloc, reaction, nodes, fillings, limit, &parts, found) {
            return Err(fault);
        }
    }
    Ok(())
}

// What the nodes of four parts close to, over some splits.
fn add_fours(
    alloc: Global,
    reaction: &Reaction<'_>,
    nodes: &Linked<'_>,
    fillings: &mut Fillings,
    limit: usize,
    splits: FourParts,
    found: &mut ClosedRows,
) -> Result<(), BuildFault>
    requires close { (parts : ListOf ℕ) → Contains splits parts → CanCloseFrom (reaction_in reaction.now) nodes.now [] parts }
    requires lengths { (parts : ListOf ℕ) → Contains splits parts → length parts ≡ 4 }
    requires cached { AreFillings (reaction_in reaction.now) true fillings.old }
    ensures cached { OnOk result (AreFillings (reaction_in reaction.now) true fillings.new) }
    ensures added { Adds limit found.old (flat_map (met_partition (reaction_in reaction.now) (meet_closed (reaction_in reaction.now)) nodes.now) splits) found.new result }
{
    if !has_valence(reaction, 4) {
        return Ok(());
    }
    for parts in splits {
        if let Err(fault) = add_partition(alloc, reaction, nodes, fillings, limit, &parts, found) {
            return Err(fault);
        }
    }
    Ok(())
}

// What the nodes of some parts close to, where each lies away from the keystone and the named edges stay whole.
#[tactic(auto, unfolding(crate::specs::Loops::met_partition, crate::specs::Loops::meet_closed))]
fn add_partition(
    alloc: Global,
    reaction: &Reaction<'_>,
    nodes: &Linked<'_>,
    fillings: &mut Fillings,
    limit: usize,
    parts: &[LegSet],
    found: &mut ClosedRows,
) -> Result<(), BuildFault>
    requires some { 3 ≤ length parts.now }
    requires few { length parts.now ≤ 4 }
    requires close { CanCloseFrom (reaction_in reaction.now) nodes.now [] parts.now }
    requires cached { AreFillings (reaction_in reaction.now) true fillings.old }
    ensures cached { OnOk result (AreFillings (reaction_in reaction.now) true fillings.new) }
    ensures added { Adds limit found.old (met_partition (reaction_in reaction.now) (meet_closed (reaction_in reaction.now)) nodes.now parts.now) found.new result }
{
    if are_outward(parts, reaction.size()) && keep_edges(reaction, parts) {
        let none = Chosen::new();
        add_tuples(alloc, reaction, nodes, fillings, limit, parts, none, found)
    } else {
        Ok(())
    }
}

fn keep_edges(reaction: &Reaction<'_>, parts: &[LegSet]) -> bool
    requires { 1 ≤ length parts.now }
    ensures { result ≡ keeps_edges (reaction_in reaction.now) parts.now }
{
    match parts {
        [first, more @ ..] => reaction.keeps_edges(*first, more),
        [] => unreachable!(),
    }
}

#[tactic(auto, unfolding(om_model::specs::Diagram::all_in))]
fn are_outward(parts: &[LegSet], size: u8) -> bool
    ensures { result ≡ all_in (is_outward_of size) parts.now }
{
    match parts {
        [] => true,
        [part, more @ ..] => is_outward(*part, size) && are_outward(more, size),
    }
}
