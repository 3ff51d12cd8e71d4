//! The laws that callers may rely on. Each is the contract of an empty function.
ghost use Rattle.std.specs.Prelude.{List, ◌≢◌, []};
ghost use Rattle.om_event.specs.Kinds.{MadeByKinds};
ghost use Rattle.om_event.specs.Laws.{GoByFronts};
ghost use Rattle.om_event.specs.Pieces.{PiecesAreTheLine};
ghost use Rattle.om_event.specs.declared.kind.WaveKind.{WaveKind};

use om_ring::Ring;

/// The events of a text are the event at its front and the events of what follows it; or the text ends as its front says.
pub fn go_by_fronts<R: Ring>(_ring: &R)
    ensures { (kinds : List WaveKind) → kinds ≢ [] → GoByFronts (R.ops _ring.now) kinds }
{}

/// An event is made for a code exactly where it has the kinds that a reader of the code keeps.
pub fn made_by_kinds<R: Ring>(_ring: &R)
    ensures { MadeByKinds R.E }
{}

/// The pieces of a line, with single spaces between them, are the line.
pub fn pieces_are_the_line()
    ensures { PiecesAreTheLine }
{}
