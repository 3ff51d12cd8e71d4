//! What no clause says: how texts end, worked out by hand, in pieces of several sizes and where a read fails.
ghost use Rattle.std.specs.Prelude.{◌≤◌};
ghost use Rattle.om_code.specs.Verified.{IsVerified};

use crate::test_code::verified_code;
use crate::{Cause, Next, Reader};
use om_code::Code;
use om_io::MemSource;
use om_machine::Event;
use om_ring::{Book, Steps, Zp};
use std::alloc::Global;
use std::process::Abort;
use std::test::Fail;

// An event of a scalar, a column and a row. It has 55 bytes.
const EVENT: &str = "1 1 2 3 4 5\n2 -1 1/2 0 7i 8 0 0 0\n3 9 0 0 0 1/3i 1 2 3\n";

// What stands before the line of each leg.
const BEFORE: [&str; 3] = ["", "1 1 2 3 4 5\n", "1 1 2 3 4 5\n2 -1 1/2 0 7i 8 0 0 0\n"];

// A bad line in the place of that of a leg: the leg, the line, so many nines and another text behind it, and the cause.
type Bad = (usize, &'static str, usize, &'static str, Cause);

const BAD: [Bad; 45] = [
    (1, "\n", 0, "", Cause::Count),
    (1, " \n", 0, "", Cause::Count),
    (1, "1 1 2 3 4\n", 0, "", Cause::Count),
    (1, "1 1 2 3 4 5 6\n", 0, "", Cause::Count),
    (1, "1 1 2 3 4 5 \n", 0, "", Cause::Count),
    (1, " 1 1 2 3 4 5\n", 0, "", Cause::Count),
    (1, "1 1  2 3 4 5\n", 0, "", Cause::Count),
    (1, "1\t1 2 3 4 5\n", 0, "", Cause::Count),
    (1, "2 x\n", 0, "", Cause::Count),
    (1, "01 1 2 3 4 5\n", 0, "", Cause::LegNumber),
    (1, "+1 1 2 3 4 5\n", 0, "", Cause::LegNumber),
    (1, " 1 2 3 4 5\n", 0, "", Cause::LegNumber),
    (1, "2 x 2 3 4 5\n", 0, "", Cause::LegNumber),
    (1, "1  2 3 4 5\n", 0, "", Cause::BadNumeral),
    (1, "1 1 2 3 4 \t5\n", 0, "", Cause::BadNumeral),
    (1, "1 1 2 3 4 5\r\n", 0, "", Cause::BadNumeral),
    (1, "1 1 2 3 4 1/0\n", 0, "", Cause::BadNumeral),
    (1, "1 x 2/18446744069414584321 4 5\n", 0, "", Cause::Count),
    (
        1,
        "1 1 x 2/18446744069414584321 4 5\n",
        0,
        "",
        Cause::BadNumeral,
    ),
    (
        1,
        "1 1 2/18446744069414584321 x 4 5\n",
        0,
        "",
        Cause::NoInverse,
    ),
    (1, "1", 0, "", Cause::Cut),
    (1, "1 1 2 3 4 5", 0, "", Cause::Cut),
    (2, "\n", 0, "", Cause::Count),
    (2, "2 1 2 3 4 5\n", 0, "", Cause::Count),
    (2, "1 1 2 3 4 5 6 7 8\n", 0, "", Cause::LegNumber),
    (2, "2 1 2 3 4 5 6 7 i8\n", 0, "", Cause::BadNumeral),
    (
        2,
        "2 1 2 3 4 5 6 7/18446744069414584321 8\n",
        0,
        "",
        Cause::NoInverse,
    ),
    (2, "", 0, "", Cause::Cut),
    (2, "2 1 2 3 4 5 6 7 8", 0, "", Cause::Cut),
    (3, "3 1 2 3 4 5 6 7\n", 0, "", Cause::Count),
    (3, "03 1 2 3 4 5 6 7 8\n", 0, "", Cause::LegNumber),
    (3, "3 1 2 3 4 5 6 7 -\n", 0, "", Cause::BadNumeral),
    (3, "3 1 2 3 4 5 6 7 8\r\n", 0, "", Cause::BadNumeral),
    (
        3,
        "3 1 2 3 4 5 6 7 8/18446744069414584321\n",
        0,
        "",
        Cause::NoInverse,
    ),
    (3, "", 0, "", Cause::Cut),
    (3, "3 1 2 3 4 5 6 7 8", 0, "", Cause::Cut),
    (1, "", 511, "", Cause::Cut),
    (1, "", 511, "\n", Cause::Count),
    (1, "", 512, "", Cause::TooLong),
    (1, "", 512, "\n", Cause::TooLong),
    (1, "1 1 2 3 4 ", 501, "\n", Cause::BadNumeral),
    (1, "1 1 2 3 4 ", 502, "\n", Cause::TooLong),
    (2, "", 512, "", Cause::TooLong),
    (3, "", 511, "", Cause::Cut),
    (3, "", 512, "", Cause::TooLong),
];

// How many events a text has, and how it ends. One read fails, counted from 1.
#[tactic(auto, using(crate::proofs::KindsOfCode::has_kinds))]
fn read_all(
    alloc: Global,
    code: &Code,
    bytes: &[u8],
    cut: usize,
    fails: u64,
) -> Result<(u32, Next), Fail>
    requires verified { IsVerified code.now }
    requires some { 1 ≤ cut }
{
    let mut input = MemSource::new(bytes.to_vec(alloc)?, cut, vec![in alloc; fails]?);
    let mut reader = Reader::new(code);
    let mut event = Event::new(alloc, &Zp, code)?;
    let mut steps = Steps::new(Book);
    let mut last = Next::End;
    let mut count: u32 = 0;
    for _call in 0..5 {
        if !reader.live() {
            break;
        }
        last = reader.next(&Zp, &mut input, &mut event, &mut steps);
        if last == Next::Event {
            count = count.saturating_add(1);
        }
    }
    Ok((count, last))
}

// How a text ends with a bad line, as the first event and as the second one.
fn check(rt: &impl Abort, alloc: Global, code: &Code, row: &Bad) -> Result<(), Fail>
    requires { IsVerified code.now }
{
    let (leg, line, nines, behind, cause) = *row;
    let before = BEFORE.get(leg.saturating_sub(1)).ok_or("no such leg")?;
    let mut text = before.as_bytes().to_vec(alloc)?;
    text.extend_from_slice(line.as_bytes())?;
    text.extend_from_slice("9".repeat(alloc, nines)?.as_bytes())?;
    text.extend_from_slice(behind.as_bytes())?;
    let mut later = EVENT.as_bytes().to_vec(alloc)?;
    later.extend_from_slice(&text)?;
    let bad = |event: u32| Next::Bad {
        event,
        line: leg as u8,
        cause,
    };
    for cut in [1, 7, 20, 512] {
        let first = read_all(alloc, code, &text, cut, 0)?;
        assert!(rt; first == (0, bad(1)), "{row:?} {first:?}");
        let second = read_all(alloc, code, &later, cut, 0)?;
        assert!(rt; second == (1, bad(2)), "{row:?} {second:?}");
    }
    Ok(())
}

#[test]
fn whole_events(rt: HostRuntime) -> Result<(), Fail> {
    let alloc = rt.alloc();
    let verified = verified_code(&rt, alloc)?;
    for count in 0..3 {
        let text = EVENT.repeat(alloc, count)?;
        for cut in [1, 7, 20, 512] {
            let read = read_all(alloc, verified.code(), text.as_bytes(), cut, 0)?;
            assert!(rt; read == (count as u32, Next::End), "{read:?}");
        }
    }
    Ok(())
}

#[test]
fn bad_lines(rt: HostRuntime) -> Result<(), Fail> {
    let alloc = rt.alloc();
    let verified = verified_code(&rt, alloc)?;
    for row in &BAD {
        check(&rt, alloc, verified.code(), row)?;
    }
    Ok(())
}

// Two events take seven reads of 20 bytes, of which the third ends the first event and the sixth the second.
#[test]
fn failed_reads(rt: HostRuntime) -> Result<(), Fail> {
    let alloc = rt.alloc();
    let verified = verified_code(&rt, alloc)?;
    let two = EVENT.repeat(alloc, 2)?;
    for (fails, count) in [(1, 0), (2, 0), (3, 0), (4, 1), (5, 1), (6, 1), (7, 2)] {
        let read = read_all(alloc, verified.code(), two.as_bytes(), 20, fails)?;
        assert!(rt; read == (count, Next::Failed), "{read:?}");
    }
    let read = read_all(alloc, verified.code(), two.as_bytes(), 20, 8)?;
    assert!(rt; read == (2, Next::End), "{read:?}");
    Ok(())
}
