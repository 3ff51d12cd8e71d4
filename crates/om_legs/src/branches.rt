//! The nodes that meet at a vertex.
ghost use Rattle.om_legs.specs.Branches.{AreBranches};

/// The nodes that meet at a vertex, in order of their least leg: `count` of them, from the front of
/// `nodes`. The count is 2 to 4, and the places past it hold 0.
#[derive(Clone, Copy, PartialEq, Eq, PartialOrd, Ord, Hash, Debug)]
pub struct Branches {
    pub count: u8,
    pub nodes: [u32; 4],
    pub ghost valid: { AreBranches count nodes },
}
