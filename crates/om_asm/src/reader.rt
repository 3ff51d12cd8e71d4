//! Reading the text of a code.
ghost use Rattle.std.specs.Prelude.{◌≡◌, ◌<◌, ◌^◌, length, Ok, IfOk};
ghost use Rattle.om_asm.specs.InRange.{CodeInRange};
ghost use Rattle.om_program_text.specs.ProgramText.{program_text};
ghost use Rattle.om_code.specs.declared.code.Code.{Code as CodeOf};
ghost use Rattle.om_code.specs.Plain.{IsPlain};
ghost use Rattle.om_asm.specs.Program.{process_at, program_at, program_of};
ghost use Rattle.om_asm.specs.Rows.{GivesAt, GivesNothing};

use crate::fault::AsmFault;
use crate::fields::Fields;
use crate::groups::{read_dens, read_flows, read_legs, read_particles, read_vertices};
use crate::head_lines::{read_end, read_model_name, read_slots, read_version};
use crate::instr_groups::read_instrs;
use crate::lines::Lines;
use crate::slots::number_of_slots;
use om_code::{Code, Den};
use om_colour::Flow;
use om_model::Model;
use om_ring::List;
use std::alloc::Global;

// The parts of a code between its model and its slots.
#[derive(Drop)]
struct ProcessLines {
    legs: List<u16>,
    flows: List<Flow>,
    dens: List<Den>,
}

#[tactic(auto, unfolding(crate::specs::Program::process_at))]
fn read_process(alloc: Global, fields: &Fields, lines: &mut Lines) -> Result<ProcessLines, AsmFault>
    ensures { GivesAt (process_at fields.now lines.old) result lines.new }
{
    let legs = read_legs(alloc, fields, lines)?;
    let flows = read_flows(alloc, lines)?;
    let dens = read_dens(alloc, fields, lines)?;
    Ok(ProcessLines { legs, flows, dens })
}

#[tactic(auto, unfolding(crate::specs::Program::program_at))]
fn read_program(alloc: Global, lines: &mut Lines) -> Result<Code, AsmFault>
    ensures { GivesNothing (program_at lines.old) result }
{
    let version = read_version(lines)?;
    let name = read_model_name(lines)?;
    let particles = read_particles(alloc, lines)?;
    let Ok(fields) = Fields::of(alloc, &particles) else {
        return Err(AsmFault::Memory);
    };
    let vertices = read_vertices(alloc, &fields, lines)?;
    let ProcessLines { legs, flows, dens } = read_process(alloc, &fields, lines)?;
    drop(fields);
    let slots = read_slots(version, lines)?;
    let instrs = read_instrs(alloc, version, lines)?;
    read_end(lines)?;
    let slots = number_of_slots(version, slots, instrs.as_slice());
    Ok(Code {
        version,
        model: Model {
            name,
            particles,
            vertices,
        },
        legs,
        flows,
        dens,
        slots,
        instrs,
    })
}

/// The code of a text.
///
/// # Errors
///
/// The first line that is in no program text is `Bad`: `Name` where it has the form and names a field that no particle
/// line above it has, else `Grammar`. `Memory` where a call of the allocator fails.
pub fn read_code(alloc: Global, text: &[u8]) -> Result<Code, AsmFault>
    requires { length text.now < 2 ^ 31 }
    // What is read is the text of the code, and the code is plain.
    ensures found { IfOk result (λ c. IsPlain c × (text.now ≡ program_text c)) }
    // The text of a plain code is read as the code, unless memory runs out.
    ensures only { (c : CodeOf) → IsPlain c → CodeInRange c → text.now ≡ program_text c → GivesNothing (Ok c) result }
    // The code, or the first bad line.
    ensures exact { GivesNothing (program_of text.now) result }
{
    let mut lines = Lines::new(text);
    read_program(alloc, &mut lines)
}
