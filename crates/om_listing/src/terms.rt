//! The lines of fusions and keystones.
ghost use Rattle.std.specs.Prelude.{◌≡◌, ◌+◌, ◌≤◌, ◌++◌, length};
ghost use Rattle.om_ring.specs.declared.line.TheConstants.{LINE_BYTES};
ghost use Rattle.om_io.specs.declared.buffer.TheConstants.{ROOM_BYTES};
ghost use Rattle.om_io.specs.Lines.{line_text};
ghost use Rattle.om_listing.specs.Listing.{fusion_words, keystone_words};

use om_graph::{KeyTerm, Term};
use om_io::{Failed, RowKind, Sink, make_room};
use om_model::push_term;
use om_ring::Line;

/// The fusions.
#[derive(Drop)]
pub(crate) struct FusionLines;

impl RowKind for FusionLines {
    type Row = Term;

    ghost plain = { λ _ _. Unit {0} };

    ghost text = { λ _ x. line_text (fusion_words x) };

    fn write<W: Sink>(&self, term: &Term, to: &mut W, line: &mut Line) -> Result<(), Failed> {
        make_room(to, line)?;
        push_fusion(term, line);
        Ok(())
    }
}

fn push_fusion(term: &Term, line: &mut Line)
    requires { length line.old + ROOM_BYTES ≤ LINE_BYTES }
    ensures { line.new ≡ line.old ++ line_text (fusion_words term.now) }
{
    line.push(b"fusion ");
    push_term(
        term.node,
        term.minus,
        term.vertex,
        term.choice,
        &term.branches,
        line,
    );
    line.push(b"\n");
}

/// The keystones.
#[derive(Drop)]
pub(crate) struct KeystoneLines;

impl RowKind for KeystoneLines {
    type Row = KeyTerm;

    ghost plain = { λ _ _. Unit {0} };

    ghost text = { λ _ y. line_text (keystone_words y) };

    fn write<W: Sink>(&self, key: &KeyTerm, to: &mut W, line: &mut Line) -> Result<(), Failed> {
        make_room(to, line)?;
        push_keystone(key, line);
        Ok(())
    }
}

fn push_keystone(key: &KeyTerm, line: &mut Line)
    requires { length line.old + ROOM_BYTES ≤ LINE_BYTES }
    ensures { line.new ≡ line.old ++ line_text (keystone_words key.now) }
{
    line.push(b"keystone ");
    push_term(
        key.flow,
        key.minus,
        key.vertex,
        key.choice,
        &key.branches,
        line,
    );
    line.push(b"\n");
}
