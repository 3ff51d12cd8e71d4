//! Sources, folders and sinks that never fail.
ghost use Rattle.std.specs.Prelude.{◌≡◌, ℕ, List, None, Some};

use crate::memory::copy_part;
use crate::{Failed, Folder, Sink, Source};
use std::marker::Model;

/// Bytes in memory as a source that never fails. It is seen as the bytes that are left.
#[derive(Drop)]
pub struct SureSource {
    bytes: Vec<u8>,
    at: usize,
}

impl Model for SureSource {
    ghost use Rattle.std.specs.Prelude.{ℕ, List, ◌≤◌, drop, vec_len};

    ghost Value = { List ℕ };

    ghost view = { λ s. drop s.at s.bytes.items };

    ghost invariant = { λ s. s.at ≤ vec_len s.bytes };
}

impl SureSource {
    /// A source of these bytes.
    pub fn new(bytes: Vec<u8>) -> SureSource
        ensures told { ⟦<SureSource as Source>⟧.left result ≡ Some bytes.items }
        ensures never { (s : _) → ⟦<SureSource as Source>⟧.faults s ≡ 0 }
    {
        SureSource { bytes, at: 0 }
    }
}

impl Source for SureSource {
    ghost left = { λ s. Some s };

    ghost faults = { λ _. 0 };

    #[tactic(auto, using(crate::proofs::Moved::left_parts))]
    fn read(&mut self, to: &mut [u8]) -> Result<usize, Failed> {
        let count = copy_part(&self.bytes, self.at, usize::MAX, to);
        self.at += count;
        Ok(count)
    }
}

/// A folder in memory that never fails, with one file for every name. It is seen as the file's bytes.
#[derive(Drop)]
pub struct SureFolder {
    bytes: Vec<u8>,
}

impl Model for SureFolder {
    ghost use Rattle.std.specs.Prelude.{ℕ, List};

    ghost Value = { List ℕ };

    ghost view = { λ s. s.bytes.items };
}

impl SureFolder {
    /// A folder in which every name has these bytes.
    pub fn new(bytes: Vec<u8>) -> SureFolder
        ensures told { (q : List ℕ) → ⟦<SureFolder as Folder>⟧.file result q ≡ Some bytes.items }
        ensures never { (s : _) (q : List ℕ) → ⟦<SureFolder as Folder>⟧.faults s q ≡ 0 }
    {
        SureFolder { bytes }
    }
}

impl Folder for SureFolder {
    ghost file = { λ s _. Some s };

    ghost faults = { λ _ _. 0 };

    fn read_at(&mut self, _name: &str, at: u64, to: &mut [u8]) -> Result<usize, Failed> {
        Ok(copy_part(&self.bytes, at as usize, usize::MAX, to))
    }
}

/// A sink that never fails. It drops what is written, and tells nothing of it.
#[derive(Clone, Copy, Debug, Default, Drop)]
#[non_exhaustive]
pub struct SureSink;

impl SureSink {
    /// A sink that never fails.
    pub fn new() -> SureSink
        ensures { (s : _) → ⟦<SureSink as Sink>⟧.faults s ≡ 0 }
    {
        SureSink
    }
}

impl Sink for SureSink {
    ghost written = { λ _. None };

    ghost faults = { λ _. 0 };

    fn write(&mut self, piece: &[u8]) -> Result<usize, Failed> {
        Ok(piece.len())
    }
}
