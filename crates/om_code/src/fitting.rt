//! The legs and fields that an instruction needs.
ghost use Rattle.std.specs.Prelude.{◌≡◌, ◌+◌, ◌≤◌, ◌↔◌, IsTrue, length, slice_get, ◌&&◌};
ghost use Rattle.om_legs.specs.Legs.{all_legs, size};
ghost use Rattle.om_model.specs.Diagram.{same_numbers};
ghost use Rattle.om_code.specs.Readable.{HasFew};
ghost use Rattle.om_code.specs.Rules.{AreApart, HasSets, adds_to, are_in_order, fits, is_den_of, leaves_one, size_of};
ghost use Rattle.om_code.specs.Slots.{fields_of, left_field as left_field_of, slots_of_vertex, union_of};

use crate::fields::{fill_slots, left_field};
use crate::slots::{branches_held, fused, held_at, slots_of_vertex, union_of};
use crate::{Code, Held, Instr};
use om_legs::{LegSet, MOST_LEGS};
use om_model::anti_field;

/// Whether the legs of the branches are those that an instruction needs.
pub(crate) fn has_sets(code: &Code, held: &[Held], instr: &Instr) -> bool
    requires some_legs { 1 ≤ size_of code.now }
    requires few_legs { size_of code.now ≤ MOST_LEGS }
    ensures { IsTrue result ↔ HasSets code.now held.now instr.now }
{
    match instr {
        Instr::Fuse { branches, .. } => {
            let met = branches_held(held, branches);
            can_be_inner(code, &met[..branches.count as usize])
        }
        Instr::Key { branches, .. } => {
            let met = branches_held(held, branches);
            share_out_all(code, &met[..branches.count as usize])
        }
        Instr::Load { .. } | Instr::Prop { .. } => true,
    }
}

// Whether the branches share no leg, and have as many legs as one side of an inner edge may have.
fn can_be_inner(code: &Code, branches: &[Held]) -> bool
    requires few_legs { size_of code.now ≤ MOST_LEGS }
    ensures { let all = union_of 0 branches.now in IsTrue result ↔ (AreApart 0 branches.now × (2 ≤ size all) × (size all + 2 ≤ size_of code.now)) }
{
    let size = usize::from(union_of(branches).size());
    are_apart(branches) && 2 <= size && size + 2 <= code.legs.len()
}

// Whether the branches share out all legs.
fn share_out_all(code: &Code, branches: &[Held]) -> bool
    requires some_legs { 1 ≤ size_of code.now }
    requires few_legs { size_of code.now ≤ MOST_LEGS }
    ensures { IsTrue result ↔ (AreApart 0 branches.now × (union_of 0 branches.now ≡ all_legs (size_of code.now))) }
{
    are_apart(branches) && union_of(branches) == LegSet::all(code.legs.len() as u8)
}

// Whether no two branches share a leg.
fn are_apart(branches: &[Held]) -> bool
    ensures { IsTrue result ↔ AreApart 0 branches.now }
{
    let mut before = LegSet::empty();
    for branch in branches {
        if before.meets(branch.legs) {
            return false;
        }
        before = before.union(branch.legs);
    }
    true
}

// Whether the least legs of the branches rise.
fn are_in_order(branches: &[Held]) -> bool
    ensures { result ≡ are_in_order 0 branches.now }
{
    let mut before = 0;
    for branch in branches {
        let least = branch.legs.least();
        if before >= least {
            return false;
        }
        before = least;
    }
    true
}

/// Whether the fields and the order of the branches fit the vertex, and the slot fits what goes into it.
pub(crate) fn fits(code: &Code, held: &[Held], instr: &Instr) -> bool
    requires few { HasFew instr.now }
    requires some_legs { 1 ≤ size_of code.now }
    requires few_legs { size_of code.now ≤ MOST_LEGS }
    ensures { result ≡ fits code.now held.now instr.now }
{
    match instr {
        Instr::Load { .. } => true,
        Instr::Fuse {
            to,
            vertex,
            branches,
            ..
        } => {
            let met = branches_held(held, branches);
            fuse_fits(code, *vertex, &met[..branches.count as usize])
                && adds_to(&held_at(held, *to), &fused(code, held, *vertex, branches))
        }
        Instr::Prop { of, den } => is_den_of(code, &held_at(held, *of), *den),
        Instr::Key {
            vertex,
            branches,
            ..
        } => {
            let met = branches_held(held, branches);
            key_fits(code, *vertex, &met[..branches.count as usize])
        }
    }
}

fn fuse_fits(code: &Code, vertex: u32, branches: &[Held]) -> bool
    requires two { 2 ≤ length branches.now }
    requires three { length branches.now ≤ 3 }
    ensures { result ≡ (are_in_order 0 branches.now && leaves_one (left_field_of (slots_of_vertex code.now vertex) (fields_of branches.now))) }
{
    are_in_order(branches) && left_field(branches, slots_of_vertex(code, vertex)).is_some()
}

fn key_fits(code: &Code, vertex: u32, branches: &[Held]) -> bool
    requires two { 2 ≤ length branches.now }
    requires four { length branches.now ≤ 4 }
    ensures { result ≡ (are_in_order 0 branches.now && same_numbers (fields_of branches.now) (slots_of_vertex code.now vertex)) }
{
    are_in_order(branches) && fill_slots(branches, slots_of_vertex(code, vertex))
}

// Whether a further fuse gives what the slot gathers.
fn adds_to(here: &Held, new: &Held) -> bool
    ensures { result ≡ adds_to here.now new.now }
{
    !here.is_gathering() || (here.legs == new.legs && here.field == new.field)
}

// Whether a denominator, if there is one in that row, is that of what a slot holds.
fn is_den_of(code: &Code, here: &Held, row: u32) -> bool
    requires some_legs { 1 ≤ size_of code.now }
    requires few_legs { size_of code.now ≤ MOST_LEGS }
    ensures { result ≡ is_den_of code.now here.now (slice_get code.now.dens row) }
{
    match code.dens.as_slice().get(row as usize) {
        None => false,
        Some(den) if here.legs.holds(1) => {
            here.legs.complement(code.legs.len() as u8) == den.legs
                && anti_field(code.model.particles.as_slice(), here.field) == den.field
        }
        Some(den) => here.legs == den.legs && here.field == den.field,
    }
}
