//! The phases in which an instruction needs the slots.
ghost use Rattle.std.specs.Prelude.{◌≡◌, map, take, ◌==◌};
ghost use Rattle.std.specs.List.{list_any};
ghost use Rattle.om_code.specs.Rules.{are_ready, has_phases, may_fuse, may_load};
ghost use Rattle.om_code.specs.Slots.{held_at};

use crate::slots::{branches_held, held_at};
use crate::{Code, Held, Instr};
use om_legs::Branches;

/// Whether the slots are in the phases that an instruction needs.
pub(crate) fn has_phases(code: &Code, held: &[Held], instr: &Instr) -> bool
    ensures { result ≡ has_phases code.now held.now instr.now }
{
    match instr {
        Instr::Load { to, .. } => may_load(code, held, *to),
        Instr::Fuse { to, branches, .. } => may_fuse(code, held, *to, branches.as_slice())
            && are_branches_ready(held, branches),
        Instr::Prop { of, .. } => held_at(held, *of).is_gathering(),
        Instr::Key { branches, .. } => are_branches_ready(held, branches),
    }
}

fn may_load(code: &Code, held: &[Held], to: u32) -> bool
    ensures { result ≡ may_load code.now held.now to }
{
    if code.version == 1 {
        to as usize == held.len()
    } else {
        !held_at(held, to).is_gathering()
    }
}

fn may_fuse(code: &Code, held: &[Held], to: u32, nodes: &[u32]) -> bool
    ensures { result ≡ may_fuse code.now held.now to nodes.now }
{
    if code.version == 1 {
        to as usize == held.len() || held_at(held, to).is_gathering()
    } else {
        !stands_in(to, nodes)
    }
}

fn stands_in(slot: u32, nodes: &[u32]) -> bool
    ensures { result ≡ list_any (λ k. k == slot) nodes.now }
{
    nodes.iter().any(|k| *k == slot)
}

fn are_branches_ready(held: &[Held], branches: &Branches) -> bool
    ensures { result ≡ are_ready (take branches.now.count (map (held_at held.now) branches.now.nodes)) }
{
    let met = branches_held(held, branches);
    are_ready(&met[..branches.count as usize])
}

fn are_ready(branches: &[Held]) -> bool
    ensures { result ≡ are_ready branches.now }
{
    branches.iter().all(|branch| branch.is_ready())
}
