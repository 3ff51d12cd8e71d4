//! Keystones of few legs by hand, and how many there are.
ghost use Rattle.std.specs.Prelude.{◌≤◌};

use crate::keystones;
use om_legs::LegSet;

// The numbers of the sets of the keystones of 3 and of 4 legs, in which leg k counts 2^(k-1).
const THREE_LEGS: [[u16; 4]; 1] = [[1, 2, 4, 0]];

const FOUR_LEGS: [[u16; 4]; 4] = [[1, 2, 12, 0], [1, 6, 8, 0], [1, 10, 4, 0], [1, 2, 4, 8]];

fn numbers(parts: [LegSet; 4]) -> [u16; 4] {
    [
        parts[0].number(),
        parts[1].number(),
        parts[2].number(),
        parts[3].number(),
    ]
}

// How many keystones of n legs there are, and how many of them stand in a table.
fn found(n: u8, table: &[[u16; 4]]) -> (u32, u32)
    requires some { 3 ≤ n }
    requires within { n ≤ 12 }
{
    let mut all: u32 = 0;
    let mut known: u32 = 0;
    for parts in keystones(n) {
        all = all.wrapping_add(1);
        if table.contains(&numbers(parts)) {
            known = known.wrapping_add(1);
        }
    }
    (all, known)
}

// How many keystones of n legs have three parts.
fn threes(n: u8) -> u32
    requires some { 3 ≤ n }
    requires within { n ≤ 12 }
{
    let mut count: u32 = 0;
    for parts in keystones(n) {
        let last = parts[3];
        if last.size() == 0 {
            count = count.wrapping_add(1);
        }
    }
    count
}

#[test]
fn keystones_of_few_legs(rt: HostRuntime) {
    let three = found(3, &THREE_LEGS);
    assert_eq!(rt; three, (1, 1));
    let four = found(4, &FOUR_LEGS);
    assert_eq!(rt; four, (4, 4));
}

#[test]
fn keystones_of_many_legs(rt: HostRuntime) {
    let ten = threes(10);
    assert_eq!(rt; ten, 5565);
    let twelve = threes(12);
    assert_eq!(rt; twelve, 56133);
}
