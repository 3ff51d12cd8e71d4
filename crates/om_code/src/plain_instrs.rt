//! Which lists of instructions have a text.
ghost use Rattle.std.specs.Prelude.{◌≡◌, ◌↔◌, IsTrue};
ghost use Rattle.std.specs.List.{AllByRecursion};
ghost use Rattle.om_code.specs.Plain.{AreSlots, HasPlainInstrs, InParts, IsLoadSlot, IsPlainInstr, IsPlace, part_of as part_of_instr, registers_named as registers_named_by, slots_for as slots_for_instr};

use crate::{Code, Instr};

/// Whether the version, the slots and the instructions are plain.
pub(crate) fn has_plain_instrs(code: &Code) -> bool
    ensures { IsTrue result ↔ HasPlainInstrs code.now }
{
    (code.version == 1 || code.version == 2)
        && are_slots(code.version, code.slots, code.instrs.as_slice())
        && are_plain_instrs(code.version, code.instrs.as_slice())
        && are_in_parts(code.instrs.as_slice())
}

// Whether one more is below 2^32.
fn is_place(k: u32) -> bool
    ensures { IsTrue result ↔ IsPlace k }
{
    k < u32::MAX
}

fn are_places(nodes: &[u32]) -> bool
    ensures { IsTrue result ↔ AllByRecursion IsPlace nodes.now }
{
    for node in nodes {
        if !is_place(*node) {
            return false;
        }
    }
    true
}

fn is_plain_instr(version: u8, instr: &Instr) -> bool
    ensures { IsTrue result ↔ IsPlainInstr version instr.now }
{
    match instr {
        Instr::Load { to, leg } => 1 <= *leg && is_load_slot(version, *to, *leg),
        Instr::Fuse {
            to,
            vertex,
            branches,
            ..
        } => is_place(*to)
            && is_place(*vertex)
            && branches.count <= 3
            && are_places(&branches.nodes),
        Instr::Prop { of, den } => is_place(*of) && is_place(*den),
        Instr::Key {
            flow,
            vertex,
            branches,
            ..
        } => is_place(*flow)
            && is_place(*vertex)
            && 3 <= branches.count
            && are_places(&branches.nodes),
    }
}

fn is_load_slot(version: u8, to: u32, leg: u8) -> bool
    ensures { IsTrue result ↔ IsLoadSlot version to leg }
{
    if version == 1 {
        is_place(to) && to + 1 == u32::from(leg)
    } else {
        is_place(to)
    }
}

fn are_plain_instrs(version: u8, instrs: &[Instr]) -> bool
    ensures { IsTrue result ↔ AllByRecursion (IsPlainInstr version) instrs.now }
{
    for instr in instrs {
        if !is_plain_instr(version, instr) {
            return false;
        }
    }
    true
}

fn part_of(instr: &Instr) -> u8
    ensures { result ≡ part_of_instr instr.now }
{
    match instr {
        Instr::Load { .. } => 0,
        Instr::Fuse { .. } | Instr::Prop { .. } => 1,
        Instr::Key { .. } => 2,
    }
}

// Whether the loads stand before all other instructions and the keys behind them.
#[tactic(auto, unfolding(crate::specs::Plain::InParts))]
fn are_in_parts(instrs: &[Instr]) -> bool
    ensures { IsTrue result ↔ InParts 0 instrs.now }
{
    let mut part = 0;
    for instr in instrs {
        if part > part_of(instr) {
            return false;
        }
        part = part_of(instr);
    }
    true
}

// Whether version 1 has as many slots as registers.
fn are_slots(version: u8, slots: u32, instrs: &[Instr]) -> bool
    ensures { IsTrue result ↔ AreSlots version slots instrs.now }
{
    if version == 1 {
        u64::from(slots) == registers_named(instrs)
    } else {
        true
    }
}

// The greatest register that a load or a fuse names, counted from 1, or 0.
#[tactic(auto, unfolding(crate::specs::Plain::registers_named))]
fn registers_named(instrs: &[Instr]) -> u64
    ensures { result ≡ registers_named_by instrs.now }
{
    let mut most = 0;
    for instr in instrs {
        most = most.max(slots_for(instr));
    }
    most
}

fn slots_for(instr: &Instr) -> u64
    ensures { result ≡ slots_for_instr instr.now }
{
    match instr {
        Instr::Load { to, .. } | Instr::Fuse { to, .. } => u64::from(*to) + 1,
        Instr::Prop { .. } | Instr::Key { .. } => 0,
    }
}
