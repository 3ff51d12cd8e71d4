//! A reader of events.
ghost use Rattle.std.specs.Prelude.{◌≡◌, ◌≤◌, ℕ, List, [], ◌++◌, ◌+◌, ◌*◌, ◌↔◌, length, IsTrue, true};
ghost use Rattle.om_code.specs.Verified.{IsVerified};
ghost use Rattle.om_io.specs.Bytes.{before_told};
ghost use Rattle.om_io.specs.Causes.{Rose};
ghost use Rattle.om_event.specs.Kinds.{AreKindsOf, HasKinds};
ghost use Rattle.om_event.specs.Next.{Stays, Gives, GivesEnd, GivesEvent, AtEnd};
ghost use Rattle.om_event.specs.declared.limits.TheConstants.{MOST_EVENTS};
ghost use Rattle.om_legs.specs.declared.leg_set.TheConstants.{MOST_LEGS};

use crate::fours::{make_scratch, set_leg};
use crate::front::ReadLine;
use crate::hold::Hold;
use crate::kind::kind_of_field;
use crate::waited::{Waited, next_line};
use crate::{Cause, MOST_EVENTS, WaveKind};
use om_code::Code;
use om_io::{Failed, Source};
use om_legs::MOST_LEGS;
use om_machine::Event;
use om_ring::{Ring, Steps};
use std::marker::Model;

/// What asking for the next event gives.
#[derive(Clone, Copy, Debug, Drop, PartialEq, Eq)]
pub enum Next {
    /// An event.
    Event,
    /// The input ended after whole events.
    End,
    /// The first bad line: that of leg `line` of this event, both counted from 1.
    Bad { event: u32, line: u8, cause: Cause },
    /// A byte follows the last event that is read, the 1,000,000th.
    TooMany,
    /// A read failed. No whole event and no bad line stands in the bytes that were given before.
    Failed,
}

/// A reader of the events of a code. Contracts see the kinds of the waves of its legs, the bytes that it was given and hasn't
/// used, how many events it has given, and whether it may be asked for more.
#[derive(Drop)]
pub struct Reader {
    kinds: [WaveKind; MOST_LEGS as usize],
    legs: u8,
    hold: Hold,
    given: u32,
    live: bool,
}

impl Model for Reader {
    ghost use Rattle.std.specs.Prelude.{◌≤◌, take};
    ghost use Rattle.om_legs.specs.declared.leg_set.TheConstants.{MOST_LEGS};
    ghost use Rattle.om_event.specs.Next.{Reading};
    ghost use Rattle.om_event.specs.declared.limits.TheConstants.{MOST_EVENTS};

    ghost Value = { Reading };

    ghost view = { λ r. record { kinds = take r.legs r.kinds; held = r.hold; given = r.given; live = r.live } };

    ghost invariant = { λ r. (1 ≤ r.legs) × (r.legs ≤ MOST_LEGS) × (r.given ≤ MOST_EVENTS) };
}

impl Reader {
    /// A reader of the events of a verified code. It holds no byte, has given no event and is live. It takes no memory.
    pub fn new(code: &Code) -> Reader
        requires { IsVerified code.now }
        ensures kinds { AreKindsOf code.now result.kinds }
        ensures held { result.held ≡ [] }
        ensures given { result.given ≡ 0 }
        ensures live { result.live ≡ true }
    {
        let fields = code.legs.as_slice();
        let mut kinds = [WaveKind::Scalar; MOST_LEGS as usize];
        for (leg, field) in fields.iter().enumerate() {
            kinds[leg] = kind_of_field(code, *field);
        }
        Reader {
            kinds,
            legs: fields.len() as u8,
            hold: Hold::new(),
            given: 0,
            live: true,
        }
    }

    /// Whether the reader may be asked for an event.
    pub fn live(&self) -> bool
        ensures { IsTrue result ↔ IsTrue self.now.live }
    {
        self.live
    }

    /// The next event of the text, which is the bytes held and then the bytes left in the input, however these come in pieces.
    /// After `Event` the bytes held, and then the bytes left, are what follows that event. After any other answer the reader isn't
    /// live, and the numbers of the event are left open. The event keeps its kinds, and no memory is taken.
    ///
    /// Each leg takes at most 32 times the cost of a ring call; where no byte was held and none came, and after the last event
    /// that is read, no ring call is made.
    pub fn next<R: Ring<Mark = L>, S: Source, L>(
        &mut self,
        ring: &R,
        input: &mut S,
        event: &mut Event<R::E>,
        steps: &mut Steps<L>,
    ) -> Next
        requires live { self.old.live ≡ true }
        requires made { HasKinds self.old.kinds event.old }
        ensures stays { Stays self.old self.new result }
        ensures kinds { self.new.kinds ≡ self.old.kinds }
        ensures made { HasKinds self.old.kinds event.new }
        ensures gives { (came : List ℕ) × (S.left input.old ≡ before_told came (S.left input.new))
            × Gives (R.ops ring.now) self.old (self.old.held ++ came) self.new.held event.new result
            × (self.old.held ++ came ≡ [] → steps.new ≡ steps.old) }
        ensures end { AtEnd result (S.left input.new) }
        ensures failed { result ≡ Next.Failed → Rose (S.faults input.old) (S.faults input.new) }
        ensures later { S.faults input.old ≤ S.faults input.new }
        ensures at_most { steps.new ≤ steps.old + length self.old.kinds * (32 * R.cost ring.now) }
        ensures none_behind { self.old.given ≡ MOST_EVENTS → steps.new ≡ steps.old }
    {
        self.live = false;
        if self.given == MOST_EVENTS {
            return wait_for_end(&mut self.hold, input);
        }
        let event_number = self.given + 1;
        let kinds = &self.kinds[..usize::from(self.legs)];
        let next = read_event(
            ring,
            kinds,
            event_number,
            &mut self.hold,
            input,
            event,
            steps,
        );
        if let Next::Event = next {
            self.given = event_number;
            self.live = true;
        }
        next
    }
}

// What comes after the last event that is read.
fn wait_for_end<S: Source>(hold: &mut Hold, input: &mut S) -> Next
    ensures gives { (came : List ℕ) × (S.left input.old ≡ before_told came (S.left input.new)) × GivesEnd (hold.old ++ came) result }
    ensures end { AtEnd result (S.left input.new) }
    ensures failed { result ≡ Next.Failed → Rose (S.faults input.old) (S.faults input.new) }
    ensures later { S.faults input.old ≤ S.faults input.new }
{
    if !hold.bytes().is_empty() {
        return Next::TooMany;
    }
    match hold.fill(input) {
        Ok(0) => Next::End,
        Ok(_) => Next::TooMany,
        Err(Failed) => Next::Failed,
    }
}

// Reads an event with legs of these kinds.
fn read_event<R: Ring<Mark = L>, S: Source, L>(
    ring: &R,
    kinds: &[WaveKind],
    number: u32,
    hold: &mut Hold,
    input: &mut S,
    event: &mut Event<R::E>,
    steps: &mut Steps<L>,
) -> Next
    requires some { 1 ≤ length kinds.now }
    requires few { length kinds.now ≤ MOST_LEGS }
    requires made { HasKinds kinds.now event.old }
    ensures made { HasKinds kinds.now event.new }
    ensures gives { (came : List ℕ) × (S.left input.old ≡ before_told came (S.left input.new))
        × GivesEvent (R.ops ring.now) kinds.now number (hold.old ++ came) hold.new event.new result
        × (hold.old ++ came ≡ [] → steps.new ≡ steps.old) }
    ensures end { AtEnd result (S.left input.new) }
    ensures failed { result ≡ Next.Failed → Rose (S.faults input.old) (S.faults input.new) }
    ensures later { S.faults input.old ≤ S.faults input.new }
    ensures at_most { steps.new ≤ steps.old + length kinds.now * (32 * R.cost ring.now) }
{
    let mut scratch = make_scratch(ring);
    let mut leg = 0;
    for kind in kinds {
        let before = leg;
        leg += 1;
        match next_line(ring, *kind, leg, hold, input, &mut scratch, steps) {
            Waited::Line(ReadLine { leg: said, len }) => {
                match said {
                    Ok(()) => set_leg(event, leg, *kind, &scratch.values),
                    Err(cause) => return Next::Bad {
                        event: number,
                        line: leg,
                        cause,
                    },
                }
                hold.drop_front(len + 1);
            }
            Waited::TooLong => return Next::Bad {
                event: number,
                line: leg,
                cause: Cause::TooLong,
            },
            Waited::Ended => {
                return if before == 0 && hold.bytes().is_empty() {
                    Next::End
                } else {
                    Next::Bad {
                        event: number,
                        line: leg,
                        cause: Cause::Cut,
                    }
                };
            }
            Waited::Failed => return Next::Failed,
        }
    }
    Next::Event
}
