//! Laws of tables: calls that do nothing, whose contracts a caller may use.
ghost use Rattle.std.specs.Prelude.{◌≡◌, ◌≢◌, ◌↔◌, ℕ, Some, IsSome, slice_get, Contains, AllPairs};
ghost use Rattle.std.specs.List.{IsDistinct};
ghost use Rattle.om_cons.specs.Place.{IsIdentity, place_of};

use crate::Table;
use std::hash::Hash;

/// No two keys of a table are equal, so each key is found where it stands.
pub fn distinct_keys<K: Eq + Hash + Drop>(table: &Table<K>)
    ensures distinct { IsDistinct K.eq table.now }
    ensures found { (place : ℕ) (k : K) →
        slice_get table.now place ≡ Some k → place_of K.eq table.now k ≡ Some place }
{
    let _keys = &table.keys;
}

/// Where any two equal keys are one value, a key is found exactly where it stands, and no value stands twice.
///
/// A caller needs no proof of the condition at a number, nor at a tuple, a struct or an enum of numbers and arrays of
/// numbers that derives `PartialEq`.
pub fn identical_keys<K: Eq + Hash + Drop>(table: &Table<K>)
    requires { IsIdentity K.eq }
    ensures found { (place : ℕ) (k : K) →
        (place_of K.eq table.now k ≡ Some place) ↔ (slice_get table.now place ≡ Some k) }
    ensures there { (k : K) → IsSome (place_of K.eq table.now k) ↔ Contains table.now k }
    ensures once { AllPairs (λ x y. x ≢ y) table.now }
{
    distinct_keys(table);
}
