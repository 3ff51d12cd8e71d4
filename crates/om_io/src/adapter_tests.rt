//! The adapters over readers, writers and files of std.
use super::*;
use crate::tests::{check_source, many_bytes};
use std::alloc::Global;
use std::io::{self, Read, Write};
use std::process::Abort;
use std::rt::Files;
use std::test::Fail;
use std::{env, fs, process};

// Takes one byte at a time, and fails at the third write and at no other.
#[derive(Drop)]
struct Trickle {
    taken: Vec<u8>,
    calls: u8,
}

impl Write for Trickle {
    fn write(&mut self, piece: &[u8]) -> io::Result<usize> {
        self.calls = self.calls.saturating_add(1);
        if self.calls == 3 {
            return Err(io::Error::from(io::ErrorKind::Other));
        }
        if piece.is_empty() {
            return Ok(0);
        }
        self.taken.push(piece[0])?;
        Ok(1)
    }

    fn flush(&mut self) -> io::Result<()> {
        Ok(())
    }
}

// Gives two bytes at a time, and fails at the second read and at no other.
#[derive(Drop)]
struct Stutter<'a> {
    left: &'a [u8],
    calls: u8,
}

impl<'a> Read for Stutter<'a> {
    fn read(&mut self, to: &mut [u8]) -> io::Result<usize> {
        self.calls = self.calls.saturating_add(1);
        if self.calls == 2 {
            return Err(io::Error::from(io::ErrorKind::Other));
        }
        let count = self.left.len().min(to.len()).min(2);
        let (now, later) = self.left.split_at(count);
        to[..count].copy_from_slice(now);
        self.left = later;
        Ok(count)
    }
}

#[test]
fn reader_that_fails_once(rt: HostRuntime) {
    let mut source = StdSource::new(Stutter {
        left: b"abcd",
        calls: 0,
    });
    check_source(&rt, &mut source, &[Some("ab"), None, Some("cd"), Some("")]);
}

#[test]
fn reader_of_std(rt: HostRuntime) {
    let text: &[u8] = b"abcdef";
    let mut source = StdSource::new(text);
    check_source(&rt, &mut source, &[Some("abcd"), Some("ef"), Some("")]);
}

#[test]
fn writer_of_std(rt: HostRuntime) {
    let mut writer = Trickle {
        taken: Vec::new(rt.alloc()),
        calls: 0,
    };
    let mut sink = StdSink::new(&mut writer);
    assert_eq!(rt; write_all(&mut sink, b"abcd"), Err(Failed));
    assert_eq!(rt; write_all(&mut sink, b"cd"), Ok(()));
    assert_eq!(rt; writer.taken.as_slice(), b"abcd".as_slice());
}

// Reads a file that is there, the same under another name, and again once the file is gone.
fn check_machine_file<R: Files + Abort>(rt: &R, alloc: Global, path: &str) -> Result<(), Fail> {
    let bytes = many_bytes(alloc, 20_000)?;
    fs::write(rt, path, bytes.as_slice())?;
    let mut files = StdFolder::new(rt, path);
    let whole = read_file(alloc, &mut files, path, 20_000);
    let other = read_file(alloc, &mut files, "another", 20_000);
    fs::remove_file(rt, path)?;
    let gone = read_file(alloc, &mut files, path, 20_000);
    assert_eq!(rt; whole?.as_slice(), bytes.as_slice());
    assert_eq!(rt; other?.len(), 0);
    assert_eq!(rt; gone, Err(FileFault::Failed));
    Ok(())
}

#[test]
fn file_of_the_machine(rt: HostRuntime) -> Result<(), Fail> {
    let folder = env::temp_dir(&rt)?;
    let name = format!(in rt.alloc(); "om_io_test_{}", process::id(rt.process()))?;
    let path = folder.join(rt.alloc(), name.as_str())?;
    let path = path.to_str().ok_or("a path that isn't text")?;
    check_machine_file(&rt, rt.alloc(), path)
}

// A folder can be opened like a file, and each read of it fails.
#[test]
fn folder_of_the_machine_read_as_a_file(rt: HostRuntime) -> Result<(), Fail> {
    let folder = env::temp_dir(&rt)?;
    let path = folder.to_str().ok_or("a path that isn't text")?;
    assert!(rt; fs::open(&rt, path).is_ok());
    let mut files = StdFolder::new(&rt, path);
    assert_eq!(rt;
        read_file(rt.alloc(), &mut files, path, 20_000),
        Err(FileFault::Failed)
    );
    Ok(())
}
