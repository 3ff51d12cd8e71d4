//! The splits of a set into four parts.
ghost use Rattle.std.specs.Prelude.{◌≡◌};

use crate::leg_set::LegSet;
use crate::three_parts::ThreeParts;
use crate::two_parts::TwoParts;
use std::marker::Model;

/// The splits of a set of legs into four parts, seen as the list of those that are still to come.
#[derive(Debug, Drop)]
pub struct FourParts {
    first: LegSet,
    // the splits of the legs outside `first` that are still to come
    others: ThreeParts,
    // the first parts still to come, each with the legs outside it
    firsts: TwoParts,
}

impl Model for FourParts {
    ghost use Rattle.std.specs.Prelude.{ℕ, List};
    ghost use Rattle.om_legs.specs.Walks.{triples, refined_left};

    ghost Value = { List (List ℕ) };

    ghost view = { λ left. refined_left triples left.first left.others left.firsts };
}

impl FourParts {
    ghost use Rattle.om_legs.specs.Legs.{IsLegSet};
    ghost use Rattle.om_legs.specs.Walks.{quadruples};

    /// All splits of a set into four parts.
    pub(crate) fn new(set: LegSet) -> FourParts
        ensures items { result ≡ quadruples set }
        ensures valid { IsLegSet set }
    {
        FourParts {
            first: LegSet::empty(),
            others: ThreeParts::new(LegSet::empty()),
            firsts: TwoParts::new(set),
        }
    }
}

impl Iterator for FourParts {
    ghost use Rattle.std.specs.Iterator.{YieldsFirst, item_count};

    type Item = [LegSet; 4];

    ghost next_gives = { YieldsFirst (λ left. left) };

    ghost remaining = { item_count (λ left. left) };

    fn next(&mut self) -> Option<[LegSet; 4]> {
        // Fewer than three others have no split. Few such sets follow one another, so the next item
        // is never more than a few steps away.
        loop {
            if let Some(parts) = self.others.next() {
                let [second, third, fourth] = parts;
                return Some([self.first, second, third, fourth]);
            }
            let [first, others] = self.firsts.next()?;
            self.first = first;
            self.others = ThreeParts::new(others);
        }
    }
}
