//! Laws of the codes of graphs. Each is the contract of a function that does nothing.
ghost use Rattle.om_emit.specs.EdgesAbove.{DensAreEdgesAbove};
ghost use Rattle.om_emit.specs.EmittedAnswer.{EmittedCodeGivesAnswer, EmittedFlowsAreTheirs, EvaluatedIsAnswer, NoDiagramNoFlow, SumsStandAtFlows};
ghost use Rattle.om_emit.specs.Laws.{CodeGivesKeystones, CodeGivesSums, CodesHaveFewestSlots, EmittedCodeGivesSums, GraphCodeGivesSums, GraphCodeKeepsFinds};

use om_ring::Ring;

/// The code of nodes, with the slots of any slot plan in place of its registers, gives the sums of their keystones.
///
/// `W` is what a node holds and `S` are the sums.
pub fn code_gives_keystones<W, S>()
    ensures { (plus : W → W → W) → CodeGivesKeystones W S plus }
{}

/// The code of a graph whose nodes are made of earlier ones, with the slots of any slot plan in place of its registers, gives the
/// sums of its keystones from what its nodes hold.
///
/// `W` is what a node holds and `S` are the sums.
pub fn graph_code_gives_sums<W, S>()
    ensures { (plus : W → W → W) → GraphCodeGivesSums W S plus }
{}

/// With the slots of any slot plan the instructions of such a graph find what they found in the registers of its nodes, no slot
/// gathers in the end, and no fuse has its own slot among its branches.
///
/// `W` is what a register holds and `S` are the sums.
pub fn graph_code_keeps_finds<W, S>()
    ensures { (plus : W → W → W) → GraphCodeKeepsFinds W S plus }
{}

/// The code of such a graph gives the sums of its keystones from what its nodes hold.
///
/// `W` is what a slot holds and `S` are the sums.
pub fn code_gives_sums<W, S>()
    ensures { (plus : W → W → W) → CodeGivesSums W S plus }
{}

/// The code of a graph has as many slots as the width of its instruction list, and no slot plan of that list has fewer.
pub fn codes_have_fewest_slots()
    ensures { CodesHaveFewestSlots }
{}

/// The denominators of a graph are in order, each once, and are just the edges above its inner nodes.
pub fn dens_are_edges_above()
    ensures { DensAreEdgesAbove }
{}

/// The sums that the code of such a graph means are those of its keystones, from what its nodes hold.
pub fn emitted_code_gives_sums<R: Ring>(ring: &R)
    ensures { EmittedCodeGivesSums (R.ops ring.now) }
{
    let _ring = ring;
}

/// The compiler is correct: with the numbers of any table, what the code of a canonical graph means for an event is the answer to
/// the event by all diagrams, pole and name included. What a machine of the code gives, with the numbers of the model, is
/// therefore the answer, and the sum of flow k belongs to flow k of the code. Its flows are those of the diagrams, in order; there
/// is none exactly where no diagram is, and then the code has no line.
pub fn emitted_code_gives_answer<R: Ring>(ring: &R)
    ensures answer { EmittedCodeGivesAnswer (R.ops ring.now) }
    ensures evaluated { EvaluatedIsAnswer (R.ops ring.now) }
    ensures sums { SumsStandAtFlows R.E }
    ensures flows { EmittedFlowsAreTheirs }
    ensures none { NoDiagramNoFlow }
{
    let _ring = ring;
}
