//! Whole pieces and whole files.
ghost use Rattle.std.specs.Prelude.{◌≡◌, ◌≢◌, ◌<◌, ◌≤◌, ℕ, List, length, vec_len, IfOk, IfSome, OnOk, OnErr, IsErrOf};
ghost use Rattle.om_io.specs.Bytes.{after_told, AppendsPrefix};
ghost use Rattle.om_io.specs.Causes.{HasCause, Rose};
ghost use Rattle.om_io.specs.declared.whole.FileFault.TheVariants as variants;

use crate::{Failed, Folder, Sink};
use std::alloc::{AllocError, Global};

/// Appends all of a piece. It takes no memory.
///
/// # Errors
///
/// `Failed` only where the sink's count of faults rose. A prefix of the piece, perhaps empty, was then appended.
#[tactic(auto, using(crate::proofs::Told::after_front))]
pub fn write_all<W: Sink>(to: &mut W, piece: &[u8]) -> Result<(), Failed>
    ensures ok { OnOk result (W.written to.new ≡ after_told (W.written to.old) piece.now) }
    ensures err { OnErr result (AppendsPrefix (W.written to.old) (W.written to.new) piece.now) }
    ensures cause { HasCause (W.faults to.old) (W.faults to.new) result }
{
    let mut done = 0;
    while done < piece.len() {
        let count = to.write(&piece[done..])?;
        done += count;
    }
    Ok(())
}

/// Why a file wasn't read whole.
#[derive(Clone, Copy, Debug, Drop, PartialEq, Eq)]
pub enum FileFault {
    /// A read failed.
    Failed,
    /// The file has more bytes than the limit.
    TooLong,
    /// Memory ran out.
    Memory,
}

/// A read that failed.
impl From<Failed> for FileFault {
    ghost from_gives = { λ _ fault. fault ≡ variants.Failed };

    fn from(_failed: Failed) -> FileFault {
        FileFault::Failed
    }
}

/// Want of memory.
impl From<AllocError> for FileFault {
    ghost from_gives = { λ _ fault. fault ≡ variants.Memory };

    fn from(_error: AllocError) -> FileFault {
        FileFault::Memory
    }
}

// How many bytes a read of a whole file asks for.
const PIECE: usize = 8192;

/// The whole of the file `name`, of at most `limit` bytes.
///
/// # Errors
///
/// The first read that fails gives `Failed`: only where the count of `name` rose. A file of more than `limit`
/// bytes, of which no read failed, gives `TooLong`, unless memory runs out, which gives `Memory`.
#[tactic(auto, using(crate::proofs::Parts::part_told))]
pub fn read_file<F: Folder>(
    alloc: Global,
    files: &mut F,
    name: &str,
    limit: u64,
) -> Result<Vec<u8>, FileFault>
    // All the bytes of a told file, and no more than the limit.
    ensures bytes { IfSome (F.file files.old name.now) (λ file. IfOk result (λ v. v.items ≡ file)) }
    ensures within { IfOk result (λ v. vec_len v ≤ limit) }

    // When each error comes.
    ensures failed { IsErrOf result FileFault.Failed
        → Rose (F.faults files.old name.now) (F.faults files.new name.now) }
    ensures too_long { IsErrOf result FileFault.TooLong
        → IfSome (F.file files.old name.now) (λ file. limit < length file) }

    // What stays.
    ensures later { F.faults files.old name.now ≤ F.faults files.new name.now }
    ensures files { (q : List ℕ) → F.file files.new q ≡ F.file files.old q }
    ensures others { (q : List ℕ) → q ≢ name.now → F.faults files.new q ≡ F.faults files.old q }
{
    let mut text = Vec::new(alloc);
    let mut piece = [0u8; PIECE];
    loop {
        let at = text.len();
        let count = files.read_at(name, at as u64, &mut piece)?;
        if count == 0 {
            return Ok(text);
        }
        if limit < (at + count) as u64 {
            return Err(FileFault::TooLong);
        }
        text.extend_from_slice(&piece[..count])?;
    }
}
