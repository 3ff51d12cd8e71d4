//! What nodes fuse to, choice by choice.
ghost use Rattle.std.specs.List.Sorted.{IsPermutation, IsSortedBy};
ghost use Rattle.std.specs.Prelude.{◌≡◌, ℕ, All, IfErr, OnOk};
ghost use Rattle.om_graph.specs.Graph.{found_lt};
ghost use Rattle.om_graph.specs.Loops.{fused_found};
ghost use Rattle.om_graph.specs.Possible.{key_lt};
ghost use Rattle.om_graph.specs.SetWalk.{IsOver};

use crate::chosen::Chosen;
use crate::fields::Meeting;
use crate::limit::add;
use crate::meets::Meets;
use crate::nodes::Nodes;
use crate::parts::Parts;
use crate::reaction::Reaction;
use crate::signs::is_odd;
use crate::slots::{joined, slots_at, union_of};
use crate::{BuildFault, Key};

/// Nodes that meet at a vertex, with the node that they make. Ordered by what they make, the vertex, the choice and the nodes.
#[derive(Clone, Copy, PartialEq, Eq, PartialOrd, Ord, Debug)]
pub(crate) struct Fused {
    pub(crate) key: Key,
    pub(crate) vertex: u32,
    pub(crate) choice: u8,
    pub(crate) branches: Chosen,
    pub(crate) minus: bool,
}

impl Meets for Nodes {
    ghost use Rattle.std.proofs.Common.{rules};
    ghost use Rattle.std.specs.Prelude.{false, map};
    ghost use Rattle.om_graph.specs.Loops.{CanJoinAt, fused_by, fused_seen};

    type Made = Key;

    type Found = Vec<Fused>;

    ghost keys = { λ nodes. nodes };

    ghost closing = { false };

    ghost fewest = { 2 };

    ghost made = { fused_by };

    ghost fit = { λ r ks m. CanJoinAt r ks m.vertex m.up };

    ghost seen = { λ found. map fused_seen found.items };

    fn nodes(&self) -> &Nodes {
        self
    }

    fn add_choices(
        &self,
        reaction: &Reaction<'_>,
        meeting: Meeting,
        parts: &Parts,
        at: &[Key],
        limit: usize,
        chosen: Chosen,
        found: &mut Vec<Fused>,
    ) -> Result<(), BuildFault> {
        let Some(field) = meeting.up else {
            return Ok(());
        };
        let legs = union_of(at);
        let slots = slots_at(parts, at);
        let minus = is_odd(&slots, reaction.fermions());
        for choice in 0..reaction.choices(meeting.vertex) {
            let one = Fused {
                key: Key {
                    legs,
                    field,
                    partial: joined(reaction, meeting.vertex, choice, &slots),
                },
                vertex: meeting.vertex,
                choice,
                branches: chosen,
                minus,
            };
            if let Err(fault) = add(found, limit, one) {
                return Err(fault);
            }
        }
        Ok(())
    }

    ghost bounds = { Prim.search rules };
}

/// Puts what was found over one set in order.
pub(crate) fn sort(found: &mut Vec<Fused>) -> Result<(), BuildFault>
    requires { (set : ℕ) × (counts : ℕ → ℕ) × All (IsOver set counts) found.old.items }
    ensures same { IsPermutation found.old.items found.new.items }
    ensures sorted { OnOk result (IsSortedBy (λ x y. found_lt key_lt (fused_found x) (fused_found y)) found.new.items) }
    ensures fault { IfErr result (λ fault. fault ≡ BuildFault.Memory) }
{
    match found.sort() {
        Ok(()) => Ok(()),
        Err(_) => Err(BuildFault::Memory),
    }
}
