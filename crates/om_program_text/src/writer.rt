//! Writing the text of a code.
ghost use Rattle.std.specs.Prelude.{◌≡◌, ◌+◌, ◌≤◌, ◌++◌, length, codes, OnOk, OnErr};
ghost use Rattle.om_io.specs.Bytes.{after_told, AppendsPrefix};
ghost use Rattle.om_io.specs.Causes.{HasCause};
ghost use Rattle.om_io.specs.Writing.{Writes, outlet, all_of};
ghost use Rattle.om_io.specs.Lines.{lines_text};
ghost use Rattle.om_program_text.specs.ProgramText.{program_text, slots_lines};
ghost use Rattle.om_program_text.specs.Parts.{head_text, model_parts, process_parts, front_parts, instr_parts};
ghost use Rattle.om_program_text.specs.declared.block.TheConstants.{BLOCK_BYTES};
ghost use Rattle.om_io.specs.declared.buffer.TheConstants.{ROOM_BYTES};
ghost use Rattle.om_code.specs.Plain.{IsPlain};

use crate::block::{BLOCK_BYTES, Block, make_block_room, send_block};
use crate::instr_lines::write_each;
use crate::model_lines::{ParticleLines, VertexLines};
use crate::pieces::put;
use crate::process_lines::{DenLines, FlowLines, LegLines};
use crate::spellings::{BLANK, MOST_SPELT, spell};
use om_code::{Code, Instr};
use om_io::{Failed, ROOM_BYTES, Sink, flush, make_room, write_rows};
use om_ring::{LINE_BYTES, Line};

/// Appends the text of a code. It takes no memory.
///
/// # Errors
///
/// `Failed` only where the sink's count of faults rose. A prefix of the text, perhaps empty, was then appended.
pub fn write_code<W: Sink>(code: &Code, to: &mut W) -> Result<(), Failed>
    requires { IsPlain code.now }
    ensures ok { OnOk result (W.written to.new ≡ after_told (W.written to.old) (program_text code.now)) }
    ensures err { OnErr result (AppendsPrefix (W.written to.old) (W.written to.new) (program_text code.now)) }
    ensures cause { HasCause (W.faults to.old) (W.faults to.new) result }
{
    let mut line = Line::new();
    write_lines(code, to, &mut line)?;
    flush(to, &mut line)?;
    let mut block = Block::new();
    let numbers = numbers_in(code);
    write_instrs(
        code.version,
        code.instrs.as_slice(),
        numbers,
        to,
        &mut block,
    )?;
    send_block(to, &mut block)
}

// Writes all lines but those of the instructions and the last one through a buffer.
fn write_lines<W: Sink>(code: &Code, to: &mut W, line: &mut Line) -> Result<(), Failed>
    requires { IsPlain code.now }
    ensures { Writes (outlet (W.written to.old) (W.faults to.old) line.old) (outlet (W.written to.new) (W.faults to.new) line.new) (all_of (front_parts code.now)) result }
{
    write_head(code, to, line)?;
    write_model(code, to, line)?;
    write_process(code, to, line)?;
    write_slots(code.version, code.slots, to, line)
}

fn write_model<W: Sink>(code: &Code, to: &mut W, line: &mut Line) -> Result<(), Failed>
    requires { IsPlain code.now }
    ensures { Writes (outlet (W.written to.old) (W.faults to.old) line.old) (outlet (W.written to.new) (W.faults to.new) line.new) (all_of (model_parts code.now)) result }
{
    let particles = &code.model.particles;
    write_rows(&ParticleLines, particles, to, line)?;
    write_rows(&VertexLines { particles }, &code.model.vertices, to, line)
}

fn write_process<W: Sink>(code: &Code, to: &mut W, line: &mut Line) -> Result<(), Failed>
    requires { IsPlain code.now }
    ensures { Writes (outlet (W.written to.old) (W.faults to.old) line.old) (outlet (W.written to.new) (W.faults to.new) line.new) (all_of (process_parts code.now)) result }
{
    let particles = &code.model.particles;
    write_rows(&LegLines { particles }, &code.legs, to, line)?;
    write_rows(&FlowLines, &code.flows, to, line)?;
    write_rows(&DenLines { particles }, &code.dens, to, line)
}

// How many places the instructions name, but for those of vertices.
fn numbers_in(code: &Code) -> usize {
    let slots = code.slots as usize;
    let flows = code.flows.len();
    if slots < flows { flows } else { slots }
}

// Writes the lines of the instructions and the last one through a block. The numbers of the first places are spelt once for all lines.
fn write_instrs<W: Sink>(
    version: u8,
    instrs: &[Instr],
    numbers: usize,
    to: &mut W,
    block: &mut Block,
) -> Result<(), Failed>
    ensures { Writes (outlet (W.written to.old) (W.faults to.old) block.old) (outlet (W.written to.new) (W.faults to.new) block.new) (all_of (instr_parts version instrs.now)) result }
{
    let count = if numbers < MOST_SPELT {
        numbers
    } else {
        MOST_SPELT
    };
    let mut spelt = [BLANK; MOST_SPELT];
    spell(&mut spelt, count);
    write_each(version, instrs, &spelt[..count], to, block)?;
    write_end(to, block)
}

// The first two lines.
fn write_head<W: Sink>(code: &Code, to: &mut W, line: &mut Line) -> Result<(), Failed>
    ensures { let c = code.now in Writes (outlet (W.written to.old) (W.faults to.old) line.old) (outlet (W.written to.new) (W.faults to.new) line.new) (head_text c) result }
{
    make_room(to, line)?;
    push_head(code, line);
    Ok(())
}

fn push_head(code: &Code, line: &mut Line)
    requires { length line.old + ROOM_BYTES ≤ LINE_BYTES }
    ensures { let c = code.now in line.new ≡ line.old ++ (head_text c) }
{
    line.push(b"omega ");
    line.push_number(u64::from(code.version));
    line.push(b"\nmodel ");
    line.push(code.model.name.bytes());
    line.push(b"\n");
}

// The line of the slots, which version 1 lacks.
fn write_slots<W: Sink>(version: u8, slots: u32, to: &mut W, line: &mut Line) -> Result<(), Failed>
    ensures { Writes (outlet (W.written to.old) (W.faults to.old) line.old) (outlet (W.written to.new) (W.faults to.new) line.new) (lines_text (slots_lines version slots)) result }
{
    make_room(to, line)?;
    if version != 1 {
        line.push(b"slots ");
        line.push_number(u64::from(slots));
        line.push(b"\n");
    }
    Ok(())
}

fn write_end<W: Sink>(to: &mut W, block: &mut Block) -> Result<(), Failed>
    ensures { Writes (outlet (W.written to.old) (W.faults to.old) block.old) (outlet (W.written to.new) (W.faults to.new) block.new) (codes "end\n") result }
{
    make_block_room(to, block)?;
    push_end(block);
    Ok(())
}

fn push_end(block: &mut Block)
    requires { length block.old + ROOM_BYTES ≤ BLOCK_BYTES }
    ensures { block.new ≡ block.old ++ codes "end\n" }
{
    block.len = put(&mut block.bytes, block.len, b"end\n");
}
