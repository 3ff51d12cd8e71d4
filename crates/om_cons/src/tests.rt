//! Places of numbers, of keys with several parts, and of many keys.
use super::*;
use crate::laws::identical_keys;
use std::test::Fail;

// The ends of a wave function's colour lines, and where a line from above ends.
#[derive(Clone, Copy, Debug, PartialEq, Eq, Hash)]
struct Partial {
    ends: [u8; 12],
    into: u8,
}

// A key of three parts: a set of legs, a field and a partial flow.
#[derive(Clone, Copy, Debug, PartialEq, Eq, Hash)]
struct Key {
    legs: u16,
    field: u16,
    partial: Partial,
}

const PARTIAL: Partial = Partial {
    ends: [0; 12],
    into: 0,
};

const KEY: Key = Key {
    legs: 3,
    field: 1,
    partial: PARTIAL,
};

#[test]
fn numbers_keep_their_places(rt: HostRuntime) -> Result<(), Fail> {
    let mut table = Table::new(rt.alloc());
    assert!(rt; table.is_empty());
    for (key, place) in [(7u64, 0), (9, 1), (7, 0)] {
        assert_eq!(rt; table.intern(key), Ok(place), "at {key}");
    }
    assert_eq!(rt; table.len(), 2);
    assert!(rt; !table.is_empty());
    assert_eq!(rt; table.find(&8), None);
    assert_eq!(rt; table.find(&9), Some(1));
    for (place, key) in [(0, 7), (1, 9)] {
        assert!(rt; place < table.len());
        assert_eq!(rt; *table.at(place), key);
    }
    assert!(rt; table.as_slice() == [7, 9].as_slice());
    identical_keys(&table);
    Ok(())
}

#[test]
fn keys_differ_by_each_part(rt: HostRuntime) -> Result<(), Fail> {
    let mut table = Table::new(rt.alloc());
    let mut last_end = KEY;
    last_end.partial.ends[11] = 12;
    let mut into = KEY;
    into.partial.into = 1;
    let keys = [
        KEY,
        last_end,
        into,
        Key { legs: 5, ..KEY },
        Key { field: 2, ..KEY },
    ];
    for (place, key) in keys.iter().enumerate() {
        assert_eq!(rt; table.find(key), None, "before {place}");
        assert_eq!(rt; table.intern(*key), Ok(place), "at {place}");
    }
    for (place, key) in keys.iter().enumerate() {
        assert_eq!(rt; table.intern(*key), Ok(place), "at {place} again");
        assert_eq!(rt; table.find(key), Some(place), "after {place}");
    }
    assert_eq!(rt; table.len(), keys.len());
    identical_keys(&table);
    Ok(())
}

#[test]
fn many_keys_are_found_by_their_hash(rt: HostRuntime) -> Result<(), Fail> {
    let mut table = Table::new(rt.alloc());
    for _round in 0..2 {
        for place in 0..100_000usize {
            let key = Key {
                legs: (place % 4096) as u16,
                field: (place / 4096) as u16,
                ..KEY
            };
            assert_eq!(rt; table.intern(key), Ok(place));
        }
        assert_eq!(rt; table.len(), 100_000);
    }
    Ok(())
}

// Where an allocation is made to fail, the key that is refused comes back, and the table is as before.
#[test]
fn refused_key_comes_back(rt: HostRuntime) -> Result<(), Fail> {
    let mut table = Table::new(rt.alloc());
    for key in 0..100u64 {
        let before = table.len();
        match table.intern(key) {
            Ok(place) => assert_eq!(rt; place, before),
            Err((back, NoMemory)) => {
                assert_eq!(rt; back, key);
                assert_eq!(rt; table.len(), before);
                assert_eq!(rt; table.find(&key), None);
            }
        }
    }
    Ok(())
}
