//! Laws of the canonical graph. Each is the contract of a function that does nothing.
ghost use Rattle.om_keystone.specs.Laws.{CanonicalGraphGivesAnswer, CanonicalIsBuilt, CanonicalIsPartOfPossible, NodesHaveNames, NodesHaveWaves};
ghost use Rattle.om_keystone.specs.Laws.{FlowsAreTheirs, KeysAreKeystones, NodesAreEdges, TermsAreVertices};
ghost use Rattle.om_keystone.specs.TermSigns.{SignsOfTermsMultiply};

use om_ring::Ring;

/// Each node, term and keystone term of the canonical graph stands in the possible graph.
pub fn canonical_is_part_of_possible()
    ensures { CanonicalIsPartOfPossible }
{}

/// The canonical graph is made of the diagrams that count alone: its nodes are their outward edges, its terms their vertices other than
/// keystones, its keystone terms their keystones, and its flows their flows.
pub fn canonical_graph_is_of_diagrams()
    ensures nodes { NodesAreEdges }
    ensures terms { TermsAreVertices }
    ensures keys { KeysAreKeystones }
    ensures flows { FlowsAreTheirs }
{}

/// The sign of a diagram is the product of the signs of the keystone term and of the terms that it uses.
pub fn signs_of_terms_multiply()
    ensures { SignsOfTermsMultiply }
{}

/// The edge above a node of the canonical graph is named by its side without leg 1, a set as a number, and the field that leaves that side.
pub fn nodes_have_names()
    ensures { NodesHaveNames }
{}

/// The canonical graph can be built node by node, in the order of its terms.
pub fn canonical_is_built()
    ensures { CanonicalIsBuilt }
{}

/// The nodes of the canonical graph have wave functions, and with them the answer of the canonical graph of a process over a well-formed
/// model, with the numbers of any table, is the answer to the event.
pub fn canonical_graph_gives_answer<R: Ring>(ring: &R)
    ensures waves { NodesHaveWaves (R.ops ring.now) }
    ensures answer { CanonicalGraphGivesAnswer (R.ops ring.now) }
{
    let _ring = ring;
}
