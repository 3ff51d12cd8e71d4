//! Laws of what can be fused out of the legs of a process. Each is the contract of a function that does nothing.
ghost use Rattle.om_graph.specs.ColoursFit.{NodesClose, NodesJoin};
ghost use Rattle.om_graph.specs.HaveReactions.{WellFormedHaveReactions};
ghost use Rattle.om_graph.specs.OnePossible.{OnePossible};
ghost use Rattle.om_graph.specs.Possible.{flow_lt, key_lt};
ghost use Rattle.om_graph.specs.TreeKeys.{NodesAreSound, SidesHaveKeys};
ghost use Rattle.om_model.specs.Order.{IsOrder};

/// Keys and flows are ordered, so that a rising list of them has each once.
pub fn keys_and_flows_are_ordered()
    ensures keys { IsOrder key_lt }
    ensures flows { IsOrder flow_lt }
{}

/// A tree has a key exactly where it is a subtree that may hang from a keystone and cuts no named set; the key is its set of legs,
/// the field that leaves it and its partial flow.
pub fn sides_have_keys()
    ensures { SidesHaveKeys }
{}

/// The partial flow of each node fits its legs and the colour of its field.
pub fn nodes_are_sound()
    ensures { NodesAreSound }
{}

/// Wherever nodes that share out legs can enter a vertex, their partial flows fit each of its choices.
pub fn colours_fit()
    ensures join { NodesJoin }
    ensures close { NodesClose }
{}

/// A process over a well-formed model has lines and named edges as the laws of its keys ask for.
pub fn well_formed_have_reactions()
    ensures { WellFormedHaveReactions }
{}

/// There is one possible graph of a process, so the number of its terms is a number of the process.
pub fn one_possible_graph()
    ensures { OnePossible }
{}
