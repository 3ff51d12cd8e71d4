//! The splits of a set into three parts.
ghost use Rattle.std.specs.Prelude.{◌≡◌};

use crate::leg_set::LegSet;
use crate::two_parts::TwoParts;
use std::marker::Model;

/// The splits of a set of legs into three parts, seen as the list of those that are still to come.
#[derive(Debug, Drop)]
pub struct ThreeParts {
    first: LegSet,
    // the splits of the legs outside `first` that are still to come
    others: TwoParts,
    // the first parts still to come, each with the legs outside it
    firsts: TwoParts,
}

impl Model for ThreeParts {
    ghost use Rattle.std.specs.Prelude.{ℕ, List};
    ghost use Rattle.om_legs.specs.Walks.{pairs, refined_left};

    ghost Value = { List (List ℕ) };

    ghost view = { λ left. refined_left pairs left.first left.others left.firsts };
}

impl ThreeParts {
    ghost use Rattle.om_legs.specs.Legs.{IsLegSet};
    ghost use Rattle.om_legs.specs.Walks.{triples};

    /// All splits of a set into three parts.
    pub(crate) fn new(set: LegSet) -> ThreeParts
        ensures items { result ≡ triples set }
        ensures valid { IsLegSet set }
    {
        ThreeParts {
            first: LegSet::empty(),
            others: TwoParts::new(LegSet::empty()),
            firsts: TwoParts::new(set),
        }
    }
}

impl Iterator for ThreeParts {
    ghost use Rattle.std.specs.Iterator.{YieldsFirst, item_count};

    type Item = [LegSet; 3];

    ghost next_gives = { YieldsFirst (λ left. left) };

    ghost remaining = { item_count (λ left. left) };

    fn next(&mut self) -> Option<[LegSet; 3]> {
        // Fewer than two others have no split. Few such sets follow one another, so the next item
        // is never more than a few steps away.
        loop {
            if let Some(parts) = self.others.next() {
                let [second, third] = parts;
                return Some([self.first, second, third]);
            }
            let [first, others] = self.firsts.next()?;
            self.first = first;
            self.others = TwoParts::new(others);
        }
    }
}
