//! Reading the instructions of a program.
ghost use Rattle.om_asm.specs.Rows.{GivesAt, instrs_at, is_key, is_load, is_step, key_row, load_row, step_row};

use crate::fault::{AsmFault, LineFault};
use crate::instr_line::{read_fuse, read_key, read_load, read_prop};
use crate::lines::{Lines, Words};
use crate::rows::{LineKind, formed, read_rows};
use om_code::Instr;
use om_ring::List;
use std::alloc::Global;

const LOAD: &[u8] = b"load";

const FUSE: &[u8] = b"fuse";

const PROP: &[u8] = b"prop";

const KEY: &[u8] = b"key";

// The loads of a version.
#[derive(Drop)]
struct Loads {
    version: u8,
}

impl LineKind for Loads {
    type Row = Instr;

    ghost starts = { λ _ _ w. is_load w };

    ghost row_of = { λ kind. load_row kind.version };

    fn begins(&self, _count: usize, word: &[u8]) -> bool {
        word == LOAD
    }

    fn read(&self, _alloc: Global, _word: &[u8], words: Words) -> Result<Instr, LineFault> {
        formed(read_load(self.version, words))
    }
}

// The fuses and props.
#[derive(Drop)]
struct Steps;

impl LineKind for Steps {
    type Row = Instr;

    ghost starts = { λ _ _ w. is_step w };

    ghost row_of = { λ _. step_row };

    fn begins(&self, _count: usize, word: &[u8]) -> bool {
        word == FUSE || word == PROP
    }

    fn read(&self, _alloc: Global, word: &[u8], words: Words) -> Result<Instr, LineFault> {
        formed(if word == FUSE {
            read_fuse(words)
        } else {
            read_prop(words)
        })
    }
}

// The keys.
#[derive(Drop)]
struct Keys;

impl LineKind for Keys {
    type Row = Instr;

    ghost starts = { λ _ _ w. is_key w };

    ghost row_of = { λ _. key_row };

    fn begins(&self, _count: usize, word: &[u8]) -> bool {
        word == KEY
    }

    fn read(&self, _alloc: Global, _word: &[u8], words: Words) -> Result<Instr, LineFault> {
        formed(read_key(words))
    }
}

/// The instructions from a line on.
#[tactic(auto, unfolding(crate::specs::Rows::instrs_at), using(crate::proofs::ReadingRows::behind_nothing))]
pub(crate) fn read_instrs(
    alloc: Global,
    version: u8,
    lines: &mut Lines,
) -> Result<List<Instr>, AsmFault>
    ensures { GivesAt (instrs_at version lines.old) result lines.new }
{
    let mut instrs = List::new(alloc);
    read_rows(alloc, &Loads { version }, lines, &mut instrs)?;
    read_rows(alloc, &Steps, lines, &mut instrs)?;
    read_rows(alloc, &Keys, lines, &mut instrs)?;
    Ok(instrs)
}
