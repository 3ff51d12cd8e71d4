//! The splits of a set into two parts.
ghost use Rattle.std.specs.Prelude.{◌≡◌};

use crate::leg_set::LegSet;
use std::marker::Model;

/// The splits of a set of legs into two parts, seen as the list of those that are still to come.
#[derive(Debug, Drop)]
pub struct TwoParts {
    set: LegSet,
    // all legs of the set but its least, which stands in the first part
    rest: LegSet,
    // the second part of the next split, or the empty set at the end
    second: LegSet,
}

impl Model for TwoParts {
    ghost use Rattle.std.specs.Prelude.{ℕ, List};
    ghost use Rattle.om_legs.specs.Legs.{IsSubset};
    ghost use Rattle.om_legs.specs.Walks.{pairs_left};

    ghost Value = { List (List ℕ) };

    ghost view = { λ left. pairs_left left.set left.rest left.second };

    ghost invariant = { λ left. IsSubset left.second left.rest };
}

impl TwoParts {
    ghost use Rattle.om_legs.specs.Legs.{IsLegSet};
    ghost use Rattle.om_legs.specs.Walks.{pairs};

    /// All splits of a set into two parts.
    pub(crate) fn new(set: LegSet) -> TwoParts
        ensures items { result ≡ pairs set }
        ensures valid { IsLegSet set }
    {
        let rest = set.without_least();
        TwoParts {
            set,
            rest,
            second: rest,
        }
    }
}

impl Iterator for TwoParts {
    ghost use Rattle.std.specs.Iterator.{YieldsFirst, item_count};

    type Item = [LegSet; 2];

    ghost next_gives = { YieldsFirst (λ left. left) };

    ghost remaining = { item_count (λ left. left) };

    fn next(&mut self) -> Option<[LegSet; 2]> {
        if self.second == LegSet::empty() {
            return None;
        }
        let second = self.second;
        self.second = second.subset_before(self.rest);
        Some([self.set.minus(second), second])
    }
}
