//! Sources, folders and sinks in memory, which fail at the calls that they are told to fail at.
ghost use Rattle.std.specs.Prelude.{◌≡◌, ◌≤◌, ◌-◌, ◌++◌, [], min, length, take, drop, Some, IfOk, option_map, string_bytes};
ghost use Rattle.om_io.specs.InMemory.{no_calls, ReadsSource, bytes_of, faults_of, ReadsFolder, WritesSink};

use crate::calls::CallCounter;
use crate::{Failed, Folder, Sink, Source};
use om_ring::NoMemory;
use std::alloc::Global;
use std::marker::Model;

/// Bytes in memory as a source, which gives at most so many of them at a read.
#[derive(Drop)]
pub struct MemSource {
    bytes: Vec<u8>,
    at: usize,
    cut: usize,
    calls: CallCounter,
}

impl Model for MemSource {
    ghost use Rattle.std.specs.Prelude.{◌≤◌, drop, vec_len};
    ghost use Rattle.om_io.specs.InMemory.{SourceState};

    ghost Value = { SourceState };

    ghost view = { λ s. record { left = drop s.at s.bytes.items; cut = s.cut; calls = s.calls } };

    ghost invariant = { λ s. (s.at ≤ vec_len s.bytes) × (1 ≤ s.cut) };
}

impl MemSource {
    /// A source of `bytes`, at most `cut` of them a read. The reads whose numbers, from 1, stand in `fails` fail.
    pub fn new(bytes: Vec<u8>, cut: usize, fails: Vec<u64>) -> MemSource
        requires { 1 ≤ cut }
        ensures { result ≡ record { left = bytes.items; cut = cut; calls = no_calls fails.items } }
    {
        MemSource {
            bytes,
            at: 0,
            cut,
            calls: CallCounter::new(fails),
        }
    }
}

impl Source for MemSource {
    ghost left = { λ s. Some s.left };

    ghost faults = { λ s. s.calls.faults };

    fn read(&mut self, to: &mut [u8]) -> Result<usize, Failed>
        ensures exact { ReadsSource self.old self.new to.old to.new result }
    {
        if self.calls.next_fails() {
            return Err(self.calls.fail());
        }
        let count = copy_part(&self.bytes, self.at, self.cut, to);
        self.at += count;
        Ok(count)
    }
}

/// One file in memory, or none, as a folder. Every other name is an empty file that never fails.
#[derive(Drop)]
pub struct MemFolder {
    name: String,
    file: Option<Vec<u8>>,
    calls: CallCounter,
}

impl Model for MemFolder {
    ghost use Rattle.std.specs.Prelude.{string_bytes, option_map};
    ghost use Rattle.om_io.specs.InMemory.{FolderState};

    ghost Value = { FolderState };

    ghost view = { λ s. record {
      name = string_bytes s.name;
      file = option_map (λ v. v.items) s.file;
      calls = s.calls;
    } };
}

impl MemFolder {
    /// A folder with the file `name`. The reads of `name` whose numbers, from 1, stand in `fails` fail, and
    /// without a file all of them do; `name` is then told as empty.
    pub fn new(name: String, file: Option<Vec<u8>>, fails: Vec<u64>) -> MemFolder
        ensures { result ≡ record {
          name = string_bytes name;
          file = option_map (λ v. v.items) file;
          calls = no_calls fails.items;
        } }
    {
        MemFolder {
            name,
            file,
            calls: CallCounter::new(fails),
        }
    }
}

impl Folder for MemFolder {
    ghost file = { λ s q. Some (bytes_of s q) };

    ghost faults = { faults_of };

    fn read_at(&mut self, name: &str, at: u64, to: &mut [u8]) -> Result<usize, Failed>
        ensures exact { ReadsFolder self.old self.new name.now at to.old to.new result }
    {
        if name != self.name.as_str() {
            return Ok(0);
        }
        let fails = self.calls.next_fails();
        match &self.file {
            Some(bytes) if !fails => Ok(copy_part(bytes, at as usize, usize::MAX, to)),
            _ => Err(self.calls.fail()),
        }
    }
}

/// Moves at most `most` of the bytes from the place `at` on to the front of `to`, and returns how many.
pub(crate) fn copy_part(bytes: &[u8], at: usize, most: usize, to: &mut [u8]) -> usize
    ensures count { result ≡ min (length to.old) (min most (length bytes.now - at)) }
    ensures part { to.new ≡ take result (drop at bytes.now) ++ drop result to.old }
{
    let count = to.len().min(most).min(bytes.len().saturating_sub(at));
    if count > 0 {
        to[..count].copy_from_slice(&bytes[at..at + count]);
    }
    count
}

/// A sink in memory with room for a number of bytes.
#[derive(Drop)]
pub struct MemSink {
    bytes: Vec<u8>,
    room: usize,
    calls: CallCounter,
}

impl Model for MemSink {
    ghost use Rattle.std.specs.Prelude.{◌≤◌, vec_len, vec_capacity};
    ghost use Rattle.om_io.specs.InMemory.{SinkState};

    ghost Value = { SinkState };

    ghost view = { λ s. record { written = s.bytes.items; room = s.room; calls = s.calls } };

    ghost invariant = { λ s. (vec_len s.bytes ≤ s.room) × (s.room ≤ vec_capacity s.bytes) };
}

impl MemSink {
    /// A sink with room for `room` bytes, which it takes at once. The writes whose numbers, from 1, stand in
    /// `fails` fail, and so does one of a piece that isn't empty where no room is left.
    ///
    /// # Errors
    ///
    /// `NoMemory` where there is no memory for the room.
    pub fn new(alloc: Global, room: usize, fails: Vec<u64>) -> Result<MemSink, NoMemory>
        ensures { IfOk result (λ s. s ≡ record { written = []; room = room; calls = no_calls fails.items }) }
    {
        match Vec::with_capacity(alloc, room) {
            Ok(bytes) => Ok(MemSink {
                bytes,
                room,
                calls: CallCounter::new(fails),
            }),
            Err(_) => Err(NoMemory),
        }
    }

    /// The bytes that were written.
    pub fn bytes(&self) -> &[u8]
        ensures { result.now ≡ self.now.written }
    {
        &self.bytes
    }
}

impl Sink for MemSink {
    ghost written = { λ s. Some s.written };

    ghost faults = { λ s. s.calls.faults };

    fn write(&mut self, piece: &[u8]) -> Result<usize, Failed>
        ensures exact { WritesSink self.old self.new piece.now result }
    {
        let is_full = self.bytes.len() >= self.room;
        if self.calls.next_fails() || (is_full && !piece.is_empty()) {
            return Err(self.calls.fail());
        }
        let count = piece.len().min(self.room - self.bytes.len());
        self.bytes.extend_from_slice(&piece[..count]).unwrap();
        Ok(count)
    }
}
