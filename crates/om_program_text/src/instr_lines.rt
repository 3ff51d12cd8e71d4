//! The lines of instructions.
ghost use Rattle.std.specs.Prelude.{◌≡◌, ◌+◌, ◌≤◌, [], ◌++◌, ◌∷◌, length, take, flat_map};
ghost use Rattle.om_io.specs.Lines.{line_text};
ghost use Rattle.om_io.specs.Writing.{Writes, outlet};
ghost use Rattle.om_io.specs.declared.buffer.TheConstants.{ROOM_BYTES};
ghost use Rattle.om_model.specs.TermText.{branch_words, sign_word, spaced, term_words};
ghost use Rattle.om_model.specs.declared.term_text.TheConstants.{TERM_BYTES};
ghost use Rattle.om_program_text.specs.declared.block.TheConstants.{BLOCK_BYTES};
ghost use Rattle.om_program_text.specs.declared.instr_lines.TheConstants.{BRANCHES_BYTES};
ghost use Rattle.om_program_text.specs.ProgramText.{instr_words, load_words};
ghost use Rattle.om_program_text.specs.Spelt.{AreSpelt};

use crate::block::{BLOCK_BYTES, Block, make_block_room};
use crate::pieces::{SPACED_BYTES, put, put_byte, put_place, put_short};
use crate::spellings::Spelling;
use om_code::Instr;
use om_io::{Failed, ROOM_BYTES, Sink};
use om_legs::Branches;
use om_model::TERM_BYTES;

// The most bytes of the branches of a term, each behind a space.
const BRANCHES_BYTES: usize = 4 * SPACED_BYTES;

/// Writes the lines of instructions.
pub(crate) fn write_each<W: Sink>(
    version: u8,
    instrs: &[Instr],
    spelt: &[Spelling],
    to: &mut W,
    block: &mut Block,
) -> Result<(), Failed>
    requires { AreSpelt spelt.now }
    ensures { Writes (outlet (W.written to.old) (W.faults to.old) block.old) (outlet (W.written to.new) (W.faults to.new) block.new) (flat_map (λ i. line_text (instr_words version i)) instrs.now) result }
{
    for instr in instrs {
        make_block_room(to, block)?;
        push_instr(version, instr, spelt, block);
    }
    Ok(())
}

#[inline(always)]
fn push_instr(version: u8, instr: &Instr, spelt: &[Spelling], block: &mut Block)
    requires room { length block.old + ROOM_BYTES ≤ BLOCK_BYTES }
    requires spelt { AreSpelt spelt.now }
    ensures { block.new ≡ block.old ++ line_text (instr_words version instr.now) }
{
    block.len = put_instr(&mut block.bytes, block.len, version, spelt, instr);
}

// Puts the line of an instruction in, and answers the place behind it.
#[inline(always)]
fn put_instr(to: &mut [u8], at: usize, version: u8, spelt: &[Spelling], instr: &Instr) -> usize
    requires room { at + ROOM_BYTES ≤ length to.old }
    requires spelt { AreSpelt spelt.now }
    ensures bytes { take result to.new ≡ take at to.old ++ line_text (instr_words version instr.now) }
    ensures short { result ≤ at + ROOM_BYTES }
    ensures same { length to.new ≡ length to.old }
{
    match instr {
        Instr::Load { to: slot, leg } => put_load(to, at, version, spelt, *slot, *leg),
        Instr::Fuse {
            to: slot,
            minus,
            vertex,
            choice,
            branches,
        } => {
            let word = *b"fuse";
            put_term(
                to, at, &word, spelt, *slot, *minus, *vertex, *choice, branches,
            )
        }
        Instr::Prop { of, den } => {
            let at = put(to, at, b"prop");
            let at = put_place(to, at, spelt, *of);
            let at = put_place(to, at, spelt, *den);
            put_byte(to, at, b'\n')
        }
        Instr::Key {
            flow,
            minus,
            vertex,
            choice,
            branches,
        } => {
            let word = *b"key";
            put_term(
                to, at, &word, spelt, *flow, *minus, *vertex, *choice, branches,
            )
        }
    }
}

fn put_load(to: &mut [u8], at: usize, version: u8, spelt: &[Spelling], slot: u32, leg: u8) -> usize
    requires room { at + ROOM_BYTES ≤ length to.old }
    requires spelt { AreSpelt spelt.now }
    ensures bytes { take result to.new ≡ take at to.old ++ line_text (load_words version slot leg) }
    ensures short { result ≤ at + ROOM_BYTES }
    ensures same { length to.new ≡ length to.old }
{
    let at = put(to, at, b"load");
    if version == 1 {
        let at = put_short(to, at, leg);
        return put_byte(to, at, b'\n');
    }
    let at = put_place(to, at, spelt, slot);
    let at = put_short(to, at, leg);
    put_byte(to, at, b'\n')
}

// Puts the line of a term in, and answers the place behind it.
#[inline(always)]
fn put_term(
    to: &mut [u8],
    at: usize,
    word: &[u8],
    spelt: &[Spelling],
    made: u32,
    minus: bool,
    vertex: u32,
    choice: u8,
    branches: &Branches,
) -> usize
    requires room { at + length word.now + TERM_BYTES + 2 ≤ length to.old }
    requires spelt { AreSpelt spelt.now }
    ensures bytes { take result to.new ≡ take at to.old ++ line_text (word.now ∷ term_words made minus vertex choice branches.now) }
    ensures short { result ≤ at + length word.now + TERM_BYTES + 2 }
    ensures same { length to.new ≡ length to.old }
{
    let at = put(to, at, word);
    let at = put_place(to, at, spelt, made);
    let at = put_sign(to, at, minus);
    let at = put_place(to, at, spelt, vertex);
    let at = put_short(to, at, choice);
    let at = put_branches(to, at, spelt, branches);
    put_byte(to, at, b'\n')
}

// Puts the sign behind a space in, and answers the place behind it.
#[inline(always)]
fn put_sign(to: &mut [u8], at: usize, minus: bool) -> usize
    requires { at + 2 ≤ length to.old }
    ensures bytes { take result to.new ≡ take at to.old ++ 32 ∷ sign_word minus }
    ensures end { result ≡ at + 2 }
    ensures same { length to.new ≡ length to.old }
{
    let sign = sign_byte(minus);
    let at = put_byte(to, at, b' ');
    put_byte(to, at, sign)
}

#[inline(always)]
fn sign_byte(minus: bool) -> u8
    ensures { result ∷ [] ≡ sign_word minus }
{
    if minus { b'-' } else { b'+' }
}

// Puts each branch behind a space in, and answers the place behind them.
#[inline(always)]
fn put_branches(to: &mut [u8], at: usize, spelt: &[Spelling], branches: &Branches) -> usize
    requires room { at + BRANCHES_BYTES ≤ length to.old }
    requires spelt { AreSpelt spelt.now }
    ensures bytes { take result to.new ≡ take at to.old ++ spaced (branch_words branches.now) }
    ensures short { result ≤ at + BRANCHES_BYTES }
    ensures same { length to.new ≡ length to.old }
{
    let [first, second, third, fourth] = branches.nodes;
    let at = put_place(to, at, spelt, first);
    let at = put_place(to, at, spelt, second);
    if branches.count == 2 {
        return at;
    }
    let at = put_place(to, at, spelt, third);
    if branches.count == 3 {
        return at;
    }
    put_place(to, at, spelt, fourth)
}
