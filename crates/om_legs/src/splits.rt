//! All splits of a set into parts.
ghost use Rattle.std.specs.Prelude.{◌≡◌, ◌^◌, ◌<◌, ◌≤◌, length};
ghost use Rattle.om_legs.specs.Legs.{IsLegSet, all_legs};
ghost use Rattle.om_legs.specs.Splits.{AreSplits};
ghost use Rattle.om_legs.specs.Walks.{pairs, triples, quadruples};
ghost use Rattle.om_legs.specs.declared.leg_set.TheConstants.{MOST_LEGS};

use crate::four_parts::FourParts;
use crate::leg_set::LegSet;
use crate::three_parts::ThreeParts;
use crate::two_parts::TwoParts;

/// All splits of a set into two parts that aren't empty, each once, the part with the least leg
/// first. A set of fewer than two legs has none. It takes no memory.
pub fn splits2(set: LegSet) -> TwoParts
    ensures items { AreSplits 2 set result }
    ensures walk { result ≡ pairs set }
    ensures few { length result < 2 ^ 12 }
    ensures valid { IsLegSet set }
{
    TwoParts::new(set)
}

/// All splits of a set into three parts that aren't empty, each once, the parts by least leg. A set
/// of fewer than three legs has none. It takes no memory.
pub fn splits3(set: LegSet) -> ThreeParts
    ensures items { AreSplits 3 set result }
    ensures walk { result ≡ triples set }
    ensures few { length result < 2 ^ 24 }
    ensures valid { IsLegSet set }
{
    ThreeParts::new(set)
}

/// All splits of the legs 1 to n into three parts that aren't empty, each once, the parts by least
/// leg; n is 1 to [`MOST_LEGS`]. It takes no memory.
pub fn partitions3(n: u8) -> ThreeParts
    requires some { 0 < n }
    requires within { n ≤ MOST_LEGS }
    ensures items { AreSplits 3 (all_legs n) result }
    ensures walk { result ≡ triples (all_legs n) }
    ensures few { length result < 2 ^ 24 }
{
    splits3(LegSet::all(n))
}

/// All splits of the legs 1 to n into four parts that aren't empty, each once, the parts by least
/// leg; n is 1 to [`MOST_LEGS`]. It takes no memory.
pub fn partitions4(n: u8) -> FourParts
    requires some { 0 < n }
    requires within { n ≤ MOST_LEGS }
    ensures items { AreSplits 4 (all_legs n) result }
    ensures walk { result ≡ quadruples (all_legs n) }
    ensures few { length result < 2 ^ 36 }
{
    FourParts::new(LegSet::all(n))
}
