//! The laws of colour lines. Each is the contract of a function that does nothing.
ghost use Rattle.std.specs.Prelude.{◌≡◌, ◌↔◌, IsTrue};
ghost use Rattle.om_colour.specs.Laws.{ChoicesSendOn, ComputesFlow, ComputesPartial, EachLineEnds, EachLineEndsAt, FollowsLines, JoinedPartialFits, LegHasColour, LegPartialIsBehind, LinesEndOnce, LinesEndOnceAt, NothingIsBehind, OneFlow, OnePartial, OneRow, PartialsFit, ReadingsNameEachSlot, SameLinesOverEdge, SameLinesOverVertex, VertexHasColour};
ghost use Rattle.om_colour.specs.Order.{flow_order, partial_order};

use crate::{Flow, Partial};

/// Each choice of each row of the table is one to one from the slots at which a line arrives to the slots at
/// which one leaves, and sends no line back through its own slot.
pub fn choices_send_lines_on()
    ensures { ChoicesSendOn }
{}

/// The colours of three or four slots are in at most one row of the table.
pub fn one_row_of_table()
    ensures { OneRow }
{}

/// The order in which a choice of a row of the table reads the slots names each slot once.
pub fn readings_name_each_slot()
    ensures { ReadingsNameEachSlot }
{}

/// Where the choices of the vertices match, each line of a diagram ends.
pub fn each_line_ends()
    ensures { EachLineEnds }
{}

/// At a vertex whose choice sends on the colours of its slots, each line that starts beyond a slot ends.
pub fn each_line_ends_at_vertex()
    ensures { EachLineEndsAt }
{}

/// A leg is a side of its colour. At a vertex, sides of the colours that a choice sends on make a side of the
/// colour that the slot left has at the other end of its edge.
pub fn sides_have_colours()
    ensures leg { LegHasColour }
    ensures vertex { VertexHasColour }
{}

/// Where each leg stands once, no line ends at two legs, over an edge or at a vertex.
pub fn lines_end_once()
    ensures edge { LinesEndOnce }
    ensures vertex { LinesEndOnceAt }
{}

/// The lines of a diagram are the same over each edge of a vertex.
pub fn same_lines_over_vertex()
    ensures { SameLinesOverVertex }
{}

/// The lines of a diagram are the same at both ends of an edge.
pub fn same_lines_over_edge()
    ensures { SameLinesOverEdge }
{}

/// The ends of lines can be computed.
pub fn follow_computes_lines()
    ensures { FollowsLines }
{}

/// The partial flow of a side and the flow of a diagram can be computed.
pub fn flows_can_be_computed()
    ensures partial { ComputesPartial }
    ensures whole { ComputesFlow }
{}

/// A side has one partial flow, and a diagram has one flow.
pub fn flows_are_unique()
    ensures partial { OnePartial }
    ensures whole { OneFlow }
{}

/// The partial flow of a leg holds that leg alone, and its lines are those of its colour.
pub fn leg_partials_fit()
    ensures leg { LegPartialIsBehind }
    ensures none { NothingIsBehind }
{}

/// Partial flows of parts that hold different legs fit a choice that sends their colours on.
pub fn partials_fit()
    ensures { PartialsFit }
{}

/// What [`crate::join`] makes of them is such a partial flow too.
pub fn joined_partials_fit()
    ensures { JoinedPartialFits }
{}

/// Flows are ordered by their ends from leg 1 on, and compare as equal exactly where they are the same.
pub fn flows_are_ordered_by_ends(a: &Flow, b: &Flow)
    ensures order { ⟦<Flow as Ord>⟧.cmp a.now b.now ≡ flow_order a.now b.now }
    ensures equal { IsTrue (⟦<Flow as PartialEq>⟧.eq a.now b.now) ↔ (a.now ≡ b.now) }
{}

/// Partial flows are ordered by their ends from leg 1 on, then by `into`, and compare as equal exactly where
/// they are the same.
pub fn partials_are_ordered_by_ends(a: &Partial, b: &Partial)
    ensures order { ⟦<Partial as Ord>⟧.cmp a.now b.now ≡ partial_order a.now b.now }
    ensures equal { IsTrue (⟦<Partial as PartialEq>⟧.eq a.now b.now) ↔ (a.now ≡ b.now) }
{}
