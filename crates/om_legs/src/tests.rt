//! Worked sets, splits and crossings, and the numbers of splits of twelve legs.
use super::*;

// The set of some legs.
fn set_of(legs: &[u8]) -> LegSet {
    let mut set = LegSet::empty();
    for leg in 1..=12 {
        if legs.contains(&leg) {
            set = set.union(LegSet::one(leg));
        }
    }
    set
}

#[test]
fn sets(rt: HostRuntime) {
    let odd = set_of(&[1, 3, 5, 11]);
    assert_eq!(rt; odd.size(), 4);
    assert_eq!(rt; odd.least(), 1);
    assert_eq!(rt; LegSet::empty().least(), 0);
    assert!(rt; odd.holds(11) && !odd.holds(12));
    assert_eq!(rt; odd.minus(set_of(&[1, 2, 11])), set_of(&[3, 5]));
    assert_eq!(rt; odd.complement(6), set_of(&[2, 4, 6]));
    assert_eq!(rt; LegSet::all(4), set_of(&[1, 2, 3, 4]));
    assert!(rt; odd.meets(LegSet::all(1)) && !odd.meets(set_of(&[2, 12])));
    assert!(rt; set_of(&[1, 2]) < LegSet::one(3));
}

#[test]
fn splits_of_three_legs(rt: HostRuntime) {
    let mut left = splits2(LegSet::all(3));
    assert_eq!(rt; left.next(), Some([LegSet::one(1), set_of(&[2, 3])]));
    assert_eq!(rt; left.next(), Some([set_of(&[1, 2]), LegSet::one(3)]));
    assert_eq!(rt; left.next(), Some([set_of(&[1, 3]), LegSet::one(2)]));
    assert_eq!(rt; left.next(), None);
    assert_eq!(rt; splits2(LegSet::one(7)).count(), 0);
    let each = [LegSet::one(2), LegSet::one(4), LegSet::one(9)];
    assert_eq!(rt; splits3(set_of(&[2, 4, 9])).next(), Some(each));
}

#[test]
fn twelve_legs_have_all_their_splits(rt: HostRuntime) {
    assert_eq!(rt; splits2(LegSet::all(12)).count(), 2_047);
    assert_eq!(rt; splits3(LegSet::all(12)).count(), 86_526);
    assert_eq!(rt; partitions3(12).count(), 86_526);
    assert_eq!(rt; partitions4(12).count(), 611_501);
}

// Of (3, 1), (5, 1), (5, 4), (8, 1), (8, 4) and (8, 6) three are left where leg 1 is no fermion.
#[test]
fn crossings_of_two_sets(rt: HostRuntime) {
    let (a, b) = (set_of(&[3, 5, 8]), set_of(&[1, 4, 6]));
    assert!(rt; !cross_parity(a, b, LegSet::all(12)));
    assert!(rt; cross_parity(a, b, LegSet::all(12).minus(LegSet::one(1))));
}

#[test]
fn branches_compare(rt: HostRuntime) {
    let pair = Branches::first_of(2, [4, 9, 6, 7]);
    let triple = Branches::first_of(3, [1, 2, 3, 8]);
    assert!(rt; pair < triple && pair == pair);
}

#[test]
fn nodes_are_marked(rt: HostRuntime) {
    let mut marks = [0, 0, 0, 0, 0];
    Branches::three(1, 4, 2).mark(&mut marks, 7);
    assert!(rt; marks == [0, 7, 7, 0, 7]);
}
