//! Readers, writers and files of the machine. Nothing is known of what they hold.
ghost use Rattle.std.specs.Prelude.{◌≡◌, ◌≤◌, ℕ, List, [], length, None, Some, IfOk, bytes_eq, if◌then◌else◌};
ghost use Rattle.om_io.specs.SystemAnswers.{Answers};

use crate::calls::counted_fault;
use crate::{Failed, Folder, Sink, Source};
use std::io::{Read, Seek, SeekFrom, Write};
use std::rt::Files;
use std::{fs, io};

// The answer to an outcome of the system: a count of at least `least` bytes as it is, anything else as a failure that is
// counted.
fn answer(outcome: io::Result<usize>, least: usize, faults: &mut u64) -> Result<usize, Failed>
    ensures { Answers least outcome faults.old faults.new result }
{
    match outcome {
        Ok(count) if count >= least => Ok(count),
        _ => Err(counted_fault(faults)),
    }
}

/// A reader of std as a source. It doesn't tell what is left.
#[derive(Drop)]
pub struct StdSource<T: Read> {
    from: T,
    faults: u64,
}

impl<T: Read> StdSource<T> {
    /// A source that hasn't failed yet.
    pub fn new(from: T) -> Self
        ensures { ⟦<StdSource<T> as Source>⟧.faults result ≡ 0 }
    {
        StdSource { from, faults: 0 }
    }
}

impl<T: Read> Source for StdSource<T> {
    ghost left = { λ _. None };

    ghost faults = { λ s. s.faults };

    fn read(&mut self, to: &mut [u8]) -> Result<usize, Failed> {
        answer(self.from.read(to), 0, &mut self.faults)
    }
}

/// A writer of std as a sink. It doesn't tell what was written.
///
/// A write that takes nothing of a piece that isn't empty is a failure.
#[derive(Drop)]
pub struct StdSink<T: Write> {
    to: T,
    faults: u64,
}

impl<T: Write> StdSink<T> {
    /// A sink that hasn't failed yet.
    pub fn new(to: T) -> Self
        ensures { ⟦<StdSink<T> as Sink>⟧.faults result ≡ 0 }
    {
        StdSink { to, faults: 0 }
    }
}

impl<T: Write> Sink for StdSink<T> {
    ghost written = { λ _. None };

    ghost faults = { λ s. s.faults };

    fn write(&mut self, piece: &[u8]) -> Result<usize, Failed> {
        answer(self.to.write(piece), piece.len().min(1), &mut self.faults)
    }
}

/// One file of the machine, which doesn't tell its bytes. Every other name is an empty file that never fails.
#[derive(Drop)]
pub struct StdFolder<'r, R: Files> {
    rt: &'r R,
    name: &'r str,
    faults: u64,
}

impl<'r, R: Files> StdFolder<'r, R> {
    /// The file `name` alone, which hasn't failed yet. It isn't opened before it is read.
    pub fn new(rt: &'r R, name: &'r str) -> Self
        ensures told { (q : List ℕ) → ⟦<StdFolder<'r, R> as Folder>⟧.file result q
            ≡ (if bytes_eq q name.now then None else Some []) }
        ensures faults { (q : List ℕ) → ⟦<StdFolder<'r, R> as Folder>⟧.faults result q ≡ 0 }
    {
        StdFolder {
            rt,
            name,
            faults: 0,
        }
    }
}

// Opens the file and reads from a place on.
fn read_part<R: Files>(rt: &R, name: &str, at: u64, to: &mut [u8]) -> io::Result<usize>
    ensures { IfOk result (λ n. n ≤ length to.old) }
{
    let mut file = fs::open(rt, name)?;
    file.seek(SeekFrom::Start(at))?;
    file.read(to)
}

impl<'r, R: Files> Folder for StdFolder<'r, R> {
    ghost file = { λ s q. if bytes_eq q s.name.now then None else Some [] };

    ghost faults = { λ s q. if bytes_eq q s.name.now then s.faults else 0 };

    fn read_at(&mut self, name: &str, at: u64, to: &mut [u8]) -> Result<usize, Failed> {
        if name != self.name {
            return Ok(0);
        }
        answer(read_part(self.rt, name, at, to), 0, &mut self.faults)
    }
}
