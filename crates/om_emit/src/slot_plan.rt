//! The first-fit plan.
ghost use Rattle.std.specs.Prelude.{◌≡◌, ◌+◌, ◌++◌, ◌^◌, ◌<◌, ◌≤◌, ℕ, true, map, length, IfOk, vec_len, All};
ghost use Rattle.om_code.specs.Spans.{is_named, width};
ghost use Rattle.om_code.specs.SlotPlans.{first_fit, slot_or_0};
ghost use Rattle.om_code.specs.Ops.{registers_of, lines_of_code};
ghost use Rattle.om_legs.specs.BranchNodes.{nodes_of};
ghost use Rattle.om_emit.specs.GraphCode.{key_lines};
ghost use Rattle.om_emit.specs.Planning.{slot_in_plan, no_slots, planned, last_uses};
ghost use Rattle.om_legs.specs.BranchNodes.{mark_each};

use crate::planner::Planner;
use om_code::Instr;
use om_graph::KeyTerm;
use om_legs::Branches;
use om_ring::NoMemory;
use std::alloc::Global;
use std::collections::BTreeSet;

/// Slots for the registers of an instruction list.
#[derive(Drop)]
pub struct SlotPlan {
    // by register, 0 where no instruction names it
    slots: Vec<u32>,
    count: u32,
}

impl SlotPlan {
    /// The slot of a register, or 0 where no instruction names it.
    #[inline(always)]
    pub fn slot(&self, register: u32) -> u32
        ensures { result ≡ slot_in_plan self.now register }
    {
        let register = register as usize;
        if register < self.slots.len() {
            self.slots[register]
        } else {
            0
        }
    }

    /// How many slots there are.
    pub fn count(&self) -> u32
        ensures { result ≡ self.now.count }
    {
        self.count
    }
}

/// The first-fit plan of an instruction list whose registers are below `registers`.
///
/// It goes once over the instructions to find the last use of each register, and once to give the
/// slots. The numbers that are free are kept in order, so a step takes the logarithm of their number.
pub fn first_fit(alloc: Global, instrs: &[Instr], registers: u32) -> Result<SlotPlan, NoMemory>
    requires few { registers < 2 ^ 31 }
    requires in_range { (r : ℕ) → is_named (lines_of_code instrs.now) r ≡ true → r < registers }
    ensures plan { IfOk result (λ plan. (r : ℕ) → is_named (lines_of_code instrs.now) r ≡ true → slot_in_plan plan r ≡ first_fit (lines_of_code instrs.now) r) }
    ensures count { IfOk result (λ plan. plan.count ≡ width (lines_of_code instrs.now)) }
{
    let last_uses = last_uses(alloc, instrs, registers)?;
    let plan = plan_of(alloc, instrs, &last_uses)?;
    Ok(plan)
}

/// The first-fit plan of instructions with keystone terms behind them, which name no register that the instructions don't.
///
/// Such terms get no slot, so that the instructions alone make the plan once the last use of each register is known.
pub(crate) fn plan_with_keys(
    alloc: Global,
    instrs: &[Instr],
    keys: &[KeyTerm],
    registers: u32,
) -> Result<SlotPlan, NoMemory>
    requires few { registers < 2 ^ 31 }
    requires in_range { (r : ℕ) → is_named (lines_of_code instrs.now) r ≡ true → r < registers }
    requires known { (r : ℕ) → is_named (key_lines keys.now) r ≡ true → is_named (lines_of_code instrs.now) r ≡ true }
    ensures plan { IfOk result (λ plan. (r : ℕ) → is_named (lines_of_code instrs.now) r ≡ true → slot_in_plan plan r ≡ first_fit (lines_of_code instrs.now ++ key_lines keys.now) r) }
    ensures count { IfOk result (λ plan. plan.count ≡ width (lines_of_code instrs.now ++ key_lines keys.now)) }
    ensures length { IfOk result (λ plan. vec_len plan.slots ≡ registers) }
{
    let last_uses = last_uses_with_keys(alloc, instrs, keys, registers)?;
    let plan = plan_of(alloc, instrs, &last_uses)?;
    Ok(plan)
}

// The plan that instructions make, where the last uses of registers are known.
fn plan_of(alloc: Global, instrs: &[Instr], last_uses: &[usize]) -> Result<SlotPlan, NoMemory>
    requires few { length last_uses.now < 2 ^ 31 }
    requires in_range { All (λ instr. All (λ r. r < length last_uses.now) (registers_of instr)) instrs.now }
    requires room { (i : ℕ) → i ≤ length instrs.now → (planned last_uses.now (lines_of_code instrs.now) (no_slots (length last_uses.now)) i).count ≤ length last_uses.now }
    ensures slots { IfOk result (λ plan. plan.slots.items ≡ map slot_or_0 (planned last_uses.now (lines_of_code instrs.now) (no_slots (length last_uses.now)) (length instrs.now)).slots) }
    ensures count { IfOk result (λ plan. plan.count ≡ (planned last_uses.now (lines_of_code instrs.now) (no_slots (length last_uses.now)) (length instrs.now)).count) }
    ensures length { IfOk result (λ plan. vec_len plan.slots ≡ length last_uses.now) }
{
    let Ok(slots) = vec![in alloc; None; last_uses.len()] else {
        return Err(NoMemory);
    };
    let mut planner = Planner {
        slots,
        free: BTreeSet::new(alloc),
        count: 0,
    };
    for (i, instr) in instrs.iter().enumerate() {
        let operands = instr.operands();
        let named = operands.as_slice();
        planner.give_all(named);
        planner.release_all(named, last_uses, i)?;
    }
    let slots = slots_of(alloc, planner.slots.as_slice())?;
    Ok(SlotPlan {
        slots,
        count: planner.count,
    })
}

// The slots of registers, 0 where one has none.
fn slots_of(alloc: Global, given: &[Option<u32>]) -> Result<Vec<u32>, NoMemory>
    ensures slots { IfOk result (λ slots. slots.items ≡ map slot_or_0 given.now) }
    ensures length { IfOk result (λ slots. vec_len slots ≡ length given.now) }
{
    let mut slots = Vec::new(alloc);
    for slot in given {
        if slots.push(slot_or_0(*slot)).is_err() {
            return Err(NoMemory);
        }
    }
    Ok(slots)
}

fn slot_or_0(slot: Option<u32>) -> u32
    ensures { result ≡ slot_or_0 slot }
{
    match slot {
        Some(number) => number,
        None => 0,
    }
}

// By register, the last of the instructions and the keystone terms behind them that names it.
fn last_uses_with_keys(
    alloc: Global,
    instrs: &[Instr],
    keys: &[KeyTerm],
    registers: u32,
) -> Result<Vec<usize>, NoMemory>
    requires in_range { All (λ instr. All (λ r. r < registers) (registers_of instr)) instrs.now }
    requires keys_in_range { All (λ key. All (λ r. r < registers) (nodes_of key.branches)) keys.now }
    ensures last { IfOk result (λ last. last.items ≡ last_uses registers (lines_of_code instrs.now ++ key_lines keys.now) (length instrs.now + length keys.now)) }
    ensures length { IfOk result (λ last. vec_len last ≡ registers) }
{
    let mut last = last_uses(alloc, instrs, registers)?;
    for (i, key) in keys.iter().enumerate() {
        mark_branches(&mut last, &key.branches, instrs.len() + i);
    }
    Ok(last)
}

// The last so far that names the nodes that meet.
#[inline(always)]
fn mark_branches(last: &mut Vec<usize>, branches: &Branches, at: usize)
    requires in_range { All (λ r. r < vec_len last.old) (nodes_of branches.now) }
    ensures marked { last.new.items ≡ mark_each at last.old.items (nodes_of branches.now) }
    ensures length { vec_len last.new ≡ vec_len last.old }
{
    branches.mark(last.as_mut_slice(), at);
}

// By register, the last instruction that names it.
fn last_uses(alloc: Global, instrs: &[Instr], registers: u32) -> Result<Vec<usize>, NoMemory>
    requires in_range { All (λ instr. All (λ r. r < registers) (registers_of instr)) instrs.now }
    ensures last { IfOk result (λ last. last.items ≡ last_uses registers (lines_of_code instrs.now) (length instrs.now)) }
    ensures length { IfOk result (λ last. vec_len last ≡ registers) }
{
    let Ok(mut last) = vec![in alloc; 0; registers as usize] else {
        return Err(NoMemory);
    };
    for (i, instr) in instrs.iter().enumerate() {
        mark_each(&mut last, instr.operands().as_slice(), i);
    }
    Ok(last)
}

fn mark_each(last: &mut Vec<usize>, registers: &[u32], at: usize)
    requires in_range { All (λ r. r < vec_len last.old) registers.now }
    ensures marked { last.new.items ≡ mark_each at last.old.items registers.now }
    ensures length { vec_len last.new ≡ vec_len last.old }
{
    for register in registers {
        last[*register as usize] = at;
    }
}
