//! Marks on the nodes that keystone terms reach by terms.
ghost use Rattle.std.specs.Prelude.{◌≡◌, ◌<◌, IfOk, All, map, length};
ghost use Rattle.om_graph.specs.declared.KeyTerm.{KeyTerm};
ghost use Rattle.om_graph.specs.declared.Term.{Term};
ghost use Rattle.om_graph.specs.Possible.{unsigned, unsigned_key};
ghost use Rattle.om_legs.specs.BranchNodes.{nodes_of};
ghost use Rattle.std.specs.List.{list_all};
ghost use Rattle.om_keystone.specs.Pruning.{is_marked, mark_keys, mark_terms, marks_of};

use om_graph::{KeyTerm, Term};
use om_ring::NoMemory;
use std::alloc::Global;

/// The marks of the nodes that are reached, by one pass over the keystone terms and one over the terms, last to first.
pub(crate) fn marks_of(
    alloc: Global,
    count: usize,
    terms: &[Term],
    keys: &[KeyTerm],
) -> Result<Vec<bool>, NoMemory>
    requires terms_within { All (λ (x : Term). All (λ n. n < count) (nodes_of x.branches)) terms.now }
    requires keys_within { All (λ (y : KeyTerm). All (λ n. n < count) (nodes_of y.branches)) keys.now }
    ensures marks { IfOk result (λ marks. marks.items ≡ marks_of count (map unsigned terms.now) (map unsigned_key keys.now)) }
{
    let Ok(mut marks) = vec![in alloc; false; count] else {
        return Err(NoMemory);
    };
    let marked = marks.as_mut_slice();
    mark_keys(marked, keys);
    mark_terms(marked, terms);
    Ok(marks)
}

// Marks the nodes of keystone terms.
fn mark_keys(marks: &mut [bool], keys: &[KeyTerm])
    requires { All (λ (y : KeyTerm). All (λ n. n < length marks.old) (nodes_of y.branches)) keys.now }
    ensures marks { marks.new ≡ mark_keys marks.old (map unsigned_key keys.now) }
    ensures length { length marks.new ≡ length marks.old }
{
    for key in keys {
        key.branches.mark(marks, true);
    }
}

// Marks the branches of the nodes that are marked, by the last term first: a branch has a lesser number than its node, so
// all terms that could mark a node come before the node's own.
fn mark_terms(marks: &mut [bool], terms: &[Term])
    requires { All (λ (x : Term). All (λ n. n < length marks.old) (nodes_of x.branches)) terms.now }
    ensures marks { marks.new ≡ mark_terms marks.old (map unsigned terms.now) }
    ensures length { length marks.new ≡ length marks.old }
{
    for i in (0..terms.len()).rev() {
        let term = terms[i];
        if has_mark(marks, term.node) {
            term.branches.mark(marks, true);
        }
    }
}

/// Whether a node is marked; a number past the last node isn't.
pub(crate) fn has_mark(marks: &[bool], node: u32) -> bool
    ensures { result ≡ is_marked marks.now node }
{
    let node = node as usize;
    node < marks.len() && marks[node]
}

/// Whether each node is marked.
pub(crate) fn has_all_marks(marks: &[bool]) -> bool
    ensures { result ≡ list_all (λ mark. mark) marks.now }
{
    marks.iter().all(|mark| *mark)
}
