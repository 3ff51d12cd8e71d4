//! Keys, each kept once, numbered in the order in which they came.
#![tactic(auto)]

ghost use Rattle.std.specs.Prelude.{◌≡◌, ◌++◌, ◌∷◌, ◌<◌, ◌↔◌, [], length, slice_get, false, Some, Ok, All, IsNone, IsTrue, IfSome, IfNone, IfOk, IfErr};
ghost use Rattle.om_cons.specs.Place.{place_of, StandsAt};

pub mod laws;
#[cfg(test)]
mod tests;

use indexmap::IndexSet;
use om_ring::NoMemory;
use std::alloc::Global;
use std::hash::Hash;
use std::marker::Model;

/// A list of keys, no two of which are equal by the key's own `==`. Keys are found by their hash.
///
/// A place is the index of a key in the list, from 0. No key leaves the list, and none moves: a new key goes last.
#[derive(Debug, Drop)]
pub struct Table<K: Eq + Hash + Drop> {
    keys: IndexSet<K>,
}

impl<K: Eq + Hash + Drop> Model for Table<K> {
    ghost use Rattle.std.specs.Prelude.{List};
    ghost use Rattle.std.specs.List.{IsDistinct};

    ghost Value = { List K };

    ghost view = { λ table. table.keys.keys };

    ghost invariant = { λ table. IsDistinct K.eq table.keys.keys };
}

impl<K: Eq + Hash + Drop> Table<K> {
    ghost use Rattle.std.specs.List.{IsDistinct};

    /// A table without keys. It takes no memory.
    pub fn new(alloc: Global) -> Table<K>
        ensures { result ≡ [] }
    {
        Table {
            keys: IndexSet::new(alloc),
        }
    }

    /// The place of the key that is equal to `k`, or, where there is none, of `k` itself, which then goes last.
    ///
    /// A key that is there stays as it was, and `k` is dropped. Only a new key can be refused, and only for want of memory:
    /// then `k` is handed back and the table is as before.
    #[tactic(auto, using(crate::proofs::Places::interned))]
    pub fn intern(&mut self, k: K) -> Result<usize, (K, NoMemory)>
        // A key that is there can't be refused.
        ensures present { IfSome (place_of K.eq self.old k)
            (λ place. (result ≡ Ok place) × (self.new ≡ self.old)) }
        ensures appended { IfNone (place_of K.eq self.old k)
            (IfOk result (λ place. (place ≡ length self.old) × (self.new ≡ self.old ++ k ∷ []))) }
        ensures refused { IfErr result (λ refused. (refused.0 ≡ k) × (self.new ≡ self.old)) }
        ensures found { IfOk result (λ place. place_of K.eq self.new k ≡ Some place) }
        ensures distinct { IsDistinct K.eq self.new }
    {
        match self.keys.insert_full(k) {
            Ok((place, _)) => Ok(place),
            Err(refused) => Err((refused.value, NoMemory)),
        }
    }

    /// The key at a place.
    pub fn at(&self, place: usize) -> &K
        requires { place < length self.now }
        ensures { slice_get self.now place ≡ Some result.now }
    {
        &self.keys.as_slice()[place]
    }

    /// The place of the key that is equal to `k`, or `None` where there is none.
    #[tactic(auto, using(crate::proofs::Places::found))]
    pub fn find(&self, k: &K) -> Option<usize>
        ensures place { result ≡ place_of K.eq self.now k.now }
        ensures equal { IfSome result (StandsAt K.eq self.now k.now) }
        ensures absent { IsNone result ↔ All (λ there. K.eq k.now there ≡ false) self.now }
    {
        self.keys.get_index_of(k)
    }

    /// All keys, in the order of their places.
    pub fn as_slice(&self) -> &[K]
        ensures { result.now ≡ self.now }
    {
        self.keys.as_slice()
    }

    /// The number of keys.
    pub fn len(&self) -> usize
        ensures { result ≡ length self.now }
    {
        self.keys.len()
    }

    /// Whether there are no keys.
    pub fn is_empty(&self) -> bool
        ensures { IsTrue result ↔ (length self.now ≡ 0) }
    {
        self.keys.is_empty()
    }
}
