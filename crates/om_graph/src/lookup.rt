//! Keys of a table that are looked up first where another one was found.
ghost use Rattle.std.specs.Prelude.{◌≡◌, IsTrue};
ghost use Rattle.om_cons.specs.Place.{IsIdentity, place_of};

use om_cons::Table;
use om_cons::laws::identical_keys;
use std::hash::Hash;

/// The place of a key. It is often the one before it, which takes no hash.
pub(crate) fn find_from<K: Eq + Hash + Drop>(
    table: &Table<K>,
    near: usize,
    key: &K,
) -> Option<usize>
    requires { IsIdentity K.eq }
    ensures { result ≡ place_of K.eq table.now key.now }
{
    identical_keys(table);
    if near < table.len() && are_equal(table.at(near), key) {
        return Some(near);
    }
    table.find(key)
}

/// Whether two keys are equal, and then the same.
pub(crate) fn are_equal<K: PartialEq>(a: &K, b: &K) -> bool
    requires { IsIdentity K.eq }
    ensures { IsTrue result → a.now ≡ b.now }
{
    *a == *b
}
