//! The slots of a code that is read.
ghost use Rattle.std.specs.Prelude.{◌≡◌, max};
ghost use Rattle.std.specs.List.{AllByRecursion};
ghost use Rattle.om_code.specs.Plain.{registers_named, slots_for};
ghost use Rattle.om_asm.specs.Program.{FillsFew, slots_number};

use om_code::Instr;

// The greatest register that a load or a fuse fills, or 0.
fn registers_named(instrs: &[Instr]) -> u32
    requires { AllByRecursion FillsFew instrs.now }
    ensures { result ≡ registers_named instrs.now }
{
    let mut most = 0;
    for instr in instrs {
        most = greater(most, slots_for(instr));
    }
    most
}

fn greater(a: u32, b: u32) -> u32
    ensures { result ≡ max a b }
{
    if a < b { b } else { a }
}

// The register that an instruction fills, counted from 1, or 0.
fn slots_for(instr: &Instr) -> u32
    requires { FillsFew instr.now }
    ensures { result ≡ slots_for instr.now }
{
    match instr {
        Instr::Load { to, .. } | Instr::Fuse { to, .. } => to + 1,
        Instr::Prop { .. } | Instr::Key { .. } => 0,
    }
}

/// The slots of a code: those that its line names, or in version 1 its registers.
pub(crate) fn number_of_slots(version: u8, slots: u32, instrs: &[Instr]) -> u32
    requires { AllByRecursion FillsFew instrs.now }
    ensures { result ≡ slots_number version slots instrs.now }
{
    if version == 1 {
        registers_named(instrs)
    } else {
        slots
    }
}
