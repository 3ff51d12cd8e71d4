//! Branches by their nodes, and marks on these.
ghost use Rattle.std.specs.Prelude.{◌≡◌, ◌≤◌, ◌<◌, All, length, slice_set, take};
ghost use Rattle.om_legs.specs.BranchNodes.{four_nodes, mark_each, nodes_of, three_nodes, two_nodes};

use crate::branches::Branches;

impl Branches {
    /// Two nodes.
    #[tactic(auto, using(crate::proofs::BranchEquality::branches_same))]
    pub fn two(a: u32, b: u32) -> Branches
        ensures { result ≡ two_nodes a b }
    {
        Branches {
            count: 2,
            nodes: [a, b, 0, 0],
        }
    }

    /// Three nodes.
    #[tactic(auto, using(crate::proofs::BranchEquality::branches_same))]
    pub fn three(a: u32, b: u32, c: u32) -> Branches
        ensures { result ≡ three_nodes a b c }
    {
        Branches {
            count: 3,
            nodes: [a, b, c, 0],
        }
    }

    /// Four nodes.
    #[tactic(auto, using(crate::proofs::BranchEquality::branches_same))]
    pub fn four(a: u32, b: u32, c: u32, d: u32) -> Branches
        ensures { result ≡ four_nodes a b c d }
    {
        Branches {
            count: 4,
            nodes: [a, b, c, d],
        }
    }

    /// The first `count` of four nodes, at most all of them.
    #[inline(always)]
    pub fn first_of(count: u8, nodes: [u32; 4]) -> Branches
        requires { 2 ≤ count }
        ensures nodes { nodes_of result ≡ take count nodes }
        ensures counted { result.count ≡ length (nodes_of result) }
    {
        let [a, b, c, d] = nodes;
        match count {
            2 => Branches::two(a, b),
            3 => Branches::three(a, b, c),
            _ => Branches::four(a, b, c, d),
        }
    }

    /// The nodes, in order.
    pub fn as_slice(&self) -> &[u32]
        ensures { result.now ≡ nodes_of self.now }
    {
        &self.nodes[..self.count as usize]
    }

    /// Puts a mark at the place of each node.
    #[inline(always)]
    #[tactic(auto, unfolding(crate::specs::BranchNodes::mark_each))]
    pub fn mark<T: Copy>(&self, marks: &mut [T], mark: T)
        requires { All (λ n. n < length marks.old) (nodes_of self.now) }
        ensures marks { marks.new ≡ mark_each mark marks.old (nodes_of self.now) }
        ensures length { length marks.new ≡ length marks.old }
    {
        let [first, second, third, fourth] = self.nodes;
        put(marks, first, mark);
        put(marks, second, mark);
        if self.count == 2 {
            return;
        }
        put(marks, third, mark);
        if self.count == 3 {
            return;
        }
        put(marks, fourth, mark);
    }
}

#[inline(always)]
fn put<T: Copy>(marks: &mut [T], node: u32, mark: T)
    requires { node < length marks.old }
    ensures marks { marks.new ≡ slice_set marks.old node mark }
    ensures length { length marks.new ≡ length marks.old }
{
    marks[node as usize] = mark;
}
