//! Whether named edges stay whole at a vertex.
ghost use Rattle.std.specs.Prelude.{◌≡◌, ◌<◌, ◌≤◌, ◌∷◌, ◌||◌};
ghost use Rattle.om_legs.specs.Legs.{complement};
ghost use Rattle.om_legs.specs.declared.leg_set.TheConstants.{MOST_LEGS};
ghost use Rattle.om_model.specs.Diagram.{all_in};
ghost use Rattle.om_model.specs.Diagrams.{any_in};
ghost use Rattle.om_graph.specs.Vertices.{lies_in as lies_in_of};

use om_legs::LegSet;

/// Whether of each named set the set itself or what it leaves lies within the rest or one of the parts.
#[tactic(auto, unfolding(om_model::specs::Diagram::all_in))]
pub(crate) fn keep_all(size: u8, edges: &[LegSet], rest: LegSet, parts: &[LegSet]) -> bool
    requires some { 0 < size }
    requires within { size ≤ MOST_LEGS }
    ensures { result ≡ all_in (λ e. any_in (λ part. lies_in_of e part || lies_in_of (complement e size) part) (rest ∷ parts.now)) edges.now }
{
    match edges {
        [] => true,
        [edge, more @ ..] => keeps_edge(size, *edge, rest, parts)
            && keep_all(size, more, rest, parts),
    }
}

#[tactic(auto, unfolding(om_model::specs::Diagrams::any_in))]
fn keeps_edge(size: u8, edge: LegSet, rest: LegSet, parts: &[LegSet]) -> bool
    requires some { 0 < size }
    requires within { size ≤ MOST_LEGS }
    ensures { result ≡ any_in (λ part. lies_in_of edge part || lies_in_of (complement edge size) part) (rest ∷ parts.now) }
{
    let other = edge.complement(size);
    lies_in(edge, rest) || lies_in(other, rest) || lies_in_one(edge, other, parts)
}

#[tactic(auto, unfolding(om_model::specs::Diagrams::any_in))]
fn lies_in_one(edge: LegSet, other: LegSet, parts: &[LegSet]) -> bool
    ensures { result ≡ any_in (λ part. lies_in_of edge part || lies_in_of other part) parts.now }
{
    match parts {
        [] => false,
        [part, more @ ..] => lies_in(edge, *part)
            || lies_in(other, *part)
            || lies_in_one(edge, other, more),
    }
}

fn lies_in(set: LegSet, part: LegSet) -> bool
    ensures { result ≡ lies_in_of set part }
{
    set.minus(part) == LegSet::empty()
}
