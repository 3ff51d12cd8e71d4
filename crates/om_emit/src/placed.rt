//! Instructions with slots in place of registers.
ghost use Rattle.std.specs.Prelude.{◌≡◌, ◌++◌, map, length, OnOk};
ghost use Rattle.std.specs.List.{AllByRecursion};
ghost use Rattle.om_legs.specs.BranchNodes.{nodes_of};
ghost use Rattle.om_emit.specs.Planning.{slot_in_plan};
ghost use Rattle.om_emit.specs.Counts.{CountsNodes};
ghost use Rattle.om_emit.specs.GraphCode.{key_op};
ghost use Rattle.om_code.specs.Ops.{op_of, placed_op};

use crate::slot_plan::SlotPlan;
use om_code::Instr;
use om_graph::KeyTerm;
use om_legs::Branches;
use om_ring::{List, NoMemory};

/// Puts the slots of a plan in place of the registers of instructions.
pub(crate) fn place_all(instrs: &mut List<Instr>, plan: &SlotPlan)
    ensures ops { map op_of instrs.new ≡ map (placed_op (slot_in_plan plan.now)) (map op_of instrs.old) }
    ensures counted { AllByRecursion CountsNodes instrs.new }
{
    for k in 0..instrs.len() {
        let instr = placed(instrs.at(k), plan);
        instrs.set(k, instr);
    }
}

/// Appends keystone terms, with the slots of a plan in place of their nodes.
pub(crate) fn push_keys(
    instrs: &mut List<Instr>,
    keys: &[KeyTerm],
    plan: &SlotPlan,
) -> Result<(), NoMemory>
    requires counted { AllByRecursion CountsNodes instrs.old }
    ensures ops { OnOk result (map op_of instrs.new ≡ map op_of instrs.old ++ map (λ key. placed_op (slot_in_plan plan.now) (key_op key)) keys.now) }
    ensures counted { OnOk result (AllByRecursion CountsNodes instrs.new) }
{
    for key in keys {
        instrs.push(placed_key(key, plan))?;
    }
    Ok(())
}

#[inline(always)]
fn placed_key(key: &KeyTerm, plan: &SlotPlan) -> Instr
    ensures op { op_of result ≡ placed_op (slot_in_plan plan.now) (key_op key.now) }
    ensures counted { CountsNodes result }
{
    Instr::Key {
        flow: key.flow,
        minus: key.minus,
        vertex: key.vertex,
        choice: key.choice,
        branches: placed_branches(&key.branches, plan),
    }
}

fn placed(instr: &Instr, plan: &SlotPlan) -> Instr
    ensures op { op_of result ≡ placed_op (slot_in_plan plan.now) (op_of instr.now) }
    ensures counted { CountsNodes result }
{
    match instr {
        Instr::Load { to, leg } => Instr::Load {
            to: plan.slot(*to),
            leg: *leg,
        },
        Instr::Fuse {
            to,
            minus,
            vertex,
            choice,
            branches,
        } => Instr::Fuse {
            to: plan.slot(*to),
            minus: *minus,
            vertex: *vertex,
            choice: *choice,
            branches: placed_branches(branches, plan),
        },
        Instr::Prop { of, den } => Instr::Prop {
            of: plan.slot(*of),
            den: *den,
        },
        Instr::Key {
            flow,
            minus,
            vertex,
            choice,
            branches,
        } => Instr::Key {
            flow: *flow,
            minus: *minus,
            vertex: *vertex,
            choice: *choice,
            branches: placed_branches(branches, plan),
        },
    }
}

// Slots in place of nodes.
#[inline(always)]
fn placed_branches(branches: &Branches, plan: &SlotPlan) -> Branches
    ensures nodes { nodes_of result ≡ map (slot_in_plan plan.now) (nodes_of branches.now) }
    ensures counted { result.count ≡ length (nodes_of result) }
{
    let [a, b, c, d] = branches.nodes;
    let (a, b) = (plan.slot(a), plan.slot(b));
    match branches.count {
        2 => Branches::two(a, b),
        3 => Branches::three(a, b, plan.slot(c)),
        _ => Branches::four(a, b, plan.slot(c), plan.slot(d)),
    }
}
