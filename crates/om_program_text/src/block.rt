//! Bytes that are gathered for a sink, many lines at a time.
ghost use Rattle.std.specs.Prelude.{◌≡◌, ◌+◌, ◌≤◌, [], length, OnOk};
ghost use Rattle.om_program_text.specs.declared.block.TheConstants.{BLOCK_BYTES};
ghost use Rattle.om_io.specs.declared.buffer.TheConstants.{ROOM_BYTES};
ghost use Rattle.om_io.specs.Writing.{Writes, outlet};

use om_io::{Failed, ROOM_BYTES, Sink, write_all};
use std::marker::Model;

/// The most bytes that a block holds.
pub(crate) const BLOCK_BYTES: usize = 8192;

/// At most [`BLOCK_BYTES`] bytes. Contracts see them as their list.
#[derive(Drop)]
pub(crate) struct Block {
    pub(crate) bytes: [u8; BLOCK_BYTES],
    pub(crate) len: usize,
}

impl Model for Block {
    ghost use Rattle.std.specs.Prelude.{ℕ, List, take, ◌≤◌};
    ghost use Rattle.om_program_text.specs.declared.block.TheConstants.{BLOCK_BYTES};

    ghost Value = { List ℕ };

    ghost view = { λ b. take b.len b.bytes };

    ghost invariant = { λ b. b.len ≤ BLOCK_BYTES };
}

impl Block {
    /// A block without bytes.
    pub(crate) fn new() -> Block
        ensures { result ≡ [] }
    {
        Block {
            bytes: [0; BLOCK_BYTES],
            len: 0,
        }
    }

    // The bytes that were put in.
    fn bytes(&self) -> &[u8]
        ensures { result.now ≡ self.now }
    {
        &self.bytes[..self.len]
    }
}

/// Sees that `ROOM_BYTES` bytes are free.
pub(crate) fn make_block_room<W: Sink>(to: &mut W, block: &mut Block) -> Result<(), Failed>
    ensures written { Writes (outlet (W.written to.old) (W.faults to.old) block.old) (outlet (W.written to.new) (W.faults to.new) block.new) [] result }
    ensures room { OnOk result (length block.new + ROOM_BYTES ≤ BLOCK_BYTES) }
{
    if block.bytes().len() <= BLOCK_BYTES - ROOM_BYTES {
        return Ok(());
    }
    send_block(to, block)
}

/// Appends all that the block holds to the sink.
pub(crate) fn send_block<W: Sink>(to: &mut W, block: &mut Block) -> Result<(), Failed>
    ensures written { Writes (outlet (W.written to.old) (W.faults to.old) block.old) (outlet (W.written to.new) (W.faults to.new) block.new) [] result }
    ensures empty { OnOk result (block.new ≡ []) }
{
    write_all(to, block.bytes())?;
    block.len = 0;
    Ok(())
}
