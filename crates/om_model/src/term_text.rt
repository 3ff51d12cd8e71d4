//! The words of a term: what it makes, its sign, vertex and choice, and the nodes that meet there.
ghost use Rattle.std.specs.Prelude.{◌≡◌, ◌+◌, ◌≤◌, ◌++◌, length};
ghost use Rattle.om_ring.specs.declared.line.TheConstants.{LINE_BYTES, DECIMAL_BYTES};
ghost use Rattle.om_model.specs.declared.term_text.TheConstants.{BRANCHES_BYTES, TERM_BYTES};
ghost use Rattle.om_model.specs.TermText.{branch_words, place_word, sign_word, spaced, term_words};
ghost use Rattle.std.specs.List.{join_with_byte};

use om_legs::Branches;
use om_ring::{DECIMAL_BYTES, Line};

// The most bytes of the numbers of the nodes, each behind a space.
const BRANCHES_BYTES: usize = 4 * (1 + DECIMAL_BYTES);

/// The most bytes of the words of a term: what it makes, its sign, vertex and choice with spaces between, and the nodes.
pub const TERM_BYTES: usize = DECIMAL_BYTES
    + 1
    + 1
    + 1
    + DECIMAL_BYTES
    + 1
    + DECIMAL_BYTES
    + BRANCHES_BYTES;

/// Appends the words of a term with single spaces between: the number of what it makes, its sign,
/// the number of its vertex, its choice, and the numbers of the nodes that meet there. Numbers count
/// from 0 here and from 1 in the text, but for the choice, which counts from 0 in both.
pub fn push_term(
    made: u32,
    minus: bool,
    vertex: u32,
    choice: u8,
    branches: &Branches,
    line: &mut Line,
)
    requires free { length line.old + TERM_BYTES ≤ LINE_BYTES }
    ensures text { line.new ≡ line.old ++ join_with_byte 32 (term_words made minus vertex choice branches.now) }
    ensures short { length line.new ≤ length line.old + TERM_BYTES }
{
    push_place(made, line);
    line.push(b" ");
    line.push(sign_word(minus));
    line.push(b" ");
    push_place(vertex, line);
    line.push(b" ");
    line.push_number(u64::from(choice));
    push_branches(branches, line);
}

/// Appends the number from 1 of what has the number `k` from 0.
pub fn push_place(k: u32, line: &mut Line)
    requires free { length line.old + DECIMAL_BYTES ≤ LINE_BYTES }
    ensures text { line.new ≡ line.old ++ place_word k }
    ensures short { length line.new ≤ length line.old + DECIMAL_BYTES }
{
    line.push_number(u64::from(k) + 1);
}

// `-` for a minus, `+` else.
fn sign_word(minus: bool) -> &'static [u8]
    ensures { result.now ≡ sign_word minus }
{
    if minus { b"-" } else { b"+" }
}

// Appends each branch behind a space.
fn push_branches(branches: &Branches, line: &mut Line)
    requires free { length line.old + BRANCHES_BYTES ≤ LINE_BYTES }
    ensures text { line.new ≡ line.old ++ spaced (branch_words branches.now) }
    ensures short { length line.new ≤ length line.old + BRANCHES_BYTES }
{
    for node in branches.as_slice() {
        line.push(b" ");
        push_place(*node, line);
    }
}
