//! What the clauses don't say: that calls succeed.
use super::*;
use std::alloc::Global;
use std::process::Abort;
use std::test::Fail;

// Compares what a read moved with the text, or the failure where there is none.
fn check_bytes(rt: &impl Abort, outcome: Result<usize, Failed>, buffer: &[u8], want: Option<&str>) {
    match (outcome, want) {
        (Ok(count), Some(text)) if count <= buffer.len() => {
            assert_eq!(rt; &buffer[..count], text.as_bytes());
        }
        (Err(Failed), None) => {}
        _ => panic!(rt; "a read that fails where it isn't to, or the other way round"),
    }
}

pub(crate) fn check_source<S: Source>(rt: &impl Abort, from: &mut S, wants: &[Option<&str>]) {
    for want in wants {
        let mut buffer = [0u8; 4];
        let outcome = from.read(&mut buffer);
        check_bytes(rt, outcome, &buffer, *want);
    }
}

#[test]
fn source_in_memory(rt: HostRuntime) -> Result<(), Fail> {
    let bytes = b"abcdefgh".to_vec(rt.alloc())?;
    let mut source = MemSource::new(bytes, 3, vec![in rt.alloc(); 2, 5]?);
    let wants = [
        Some("abc"),
        None,
        Some("def"),
        Some("gh"),
        None,
        Some(""),
        Some(""),
    ];
    check_source(&rt, &mut source, &wants);
    let mut sure = SureSource::new(b"abcdef".to_vec(rt.alloc())?);
    check_source(&rt, &mut sure, &[Some("abcd"), Some("ef"), Some("")]);
    Ok(())
}

// A name, a place, and what reading four bytes there gives.
type Part = (&'static str, u64, Option<&'static str>);

fn check_folder<F: Folder>(rt: &impl Abort, from: &mut F, parts: &[Part]) {
    for (name, at, want) in parts {
        let mut buffer = [0u8; 4];
        let outcome = from.read_at(name, *at, &mut buffer);
        check_bytes(rt, outcome, &buffer, *want);
    }
}

#[test]
fn folder_in_memory(rt: HostRuntime) -> Result<(), Fail> {
    let name = String::from_str(rt.alloc(), "a")?;
    let file = b"abcdef".to_vec(rt.alloc())?;
    let mut folder = MemFolder::new(name, Some(file), vec![in rt.alloc(); 2]?);
    let parts = [
        ("b", 0, Some("")),
        ("a", 3, Some("def")),
        ("b", 0, Some("")),
        ("a", 0, None),
        ("a", 0, Some("abcd")),
        ("a", u64::MAX, Some("")),
    ];
    check_folder(&rt, &mut folder, &parts);
    let mut sure = SureFolder::new(b"abcdef".to_vec(rt.alloc())?);
    check_folder(&rt, &mut sure, &[("any", 4, Some("ef"))]);
    Ok(())
}

#[test]
fn sink_in_memory(rt: HostRuntime) -> Result<(), Fail> {
    let mut sink = MemSink::new(rt.alloc(), 5, vec![in rt.alloc(); 2]?)?;
    let pieces = [
        ("abc", Ok(3)),
        ("de", Err(Failed)),
        ("def", Ok(2)),
        ("f", Err(Failed)),
        ("", Ok(0)),
    ];
    for (piece, want) in &pieces {
        assert_eq!(rt; sink.write(piece.as_bytes()), *want, "at {piece}");
    }
    assert_eq!(rt; sink.bytes(), b"abcde".as_slice());
    assert_eq!(rt; SureSink::new().write(b"abc"), Ok(3));
    Ok(())
}

#[test]
fn whole_pieces(rt: HostRuntime) -> Result<(), Fail> {
    let mut sink = MemSink::new(rt.alloc(), 5, vec![in rt.alloc(); 3]?)?;
    let pieces = [
        ("abc", Ok(())),
        ("", Ok(())),
        ("d", Ok(())),
        ("x", Err(Failed)),
        ("efg", Err(Failed)),
    ];
    for (piece, want) in &pieces {
        assert_eq!(rt; write_all(&mut sink, piece.as_bytes()), *want, "at {piece}");
    }
    assert_eq!(rt; sink.bytes(), b"abcde".as_slice());
    Ok(())
}

/// Bytes that differ from one part of a file to the next.
pub(crate) fn many_bytes(alloc: Global, len: usize) -> Result<Vec<u8>, Fail> {
    let mut bytes = Vec::new(alloc);
    for k in 0..len {
        bytes.push((k % 251) as u8)?;
    }
    Ok(bytes)
}

// Reads the whole of a file of so many bytes, and compares its bytes or the fault.
fn check_file(
    rt: &impl Abort,
    alloc: Global,
    len: usize,
    limit: u64,
    fails: u64,
    want: Option<FileFault>,
) -> Result<(), Fail> {
    let bytes = many_bytes(alloc, len)?;
    let name = String::from_str(alloc, "a")?;
    let mut folder = MemFolder::new(name, Some(bytes), vec![in alloc; fails]?);
    match read_file(alloc, &mut folder, "a", limit) {
        Ok(found) => {
            assert_eq!(rt; want, None);
            assert_eq!(rt; found.as_slice(), many_bytes(alloc, len)?.as_slice());
        }
        Err(fault) => assert_eq!(rt; Some(fault), want, "at {len} bytes"),
    }
    Ok(())
}

#[test]
fn whole_files(rt: HostRuntime) -> Result<(), Fail> {
    let rows = [
        (20_000, 20_000, 0, None),
        (20_000, 19_999, 0, Some(FileFault::TooLong)),
        (20_000, 20_000, 2, Some(FileFault::Failed)),
        (0, 20_000, 0, None),
        (0, 0, 0, None),
        (1, 0, 0, Some(FileFault::TooLong)),
    ];
    for (len, limit, fails, want) in &rows {
        check_file(&rt, rt.alloc(), *len, *limit, *fails, *want)?;
    }
    Ok(())
}
