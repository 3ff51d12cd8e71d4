//! What fills the slots of the vertices at which nodes meet.
ghost use Rattle.std.specs.Prelude.{◌≡◌, ◌≤◌, ◌<◌, [], false, length, map, IsTrue, OnOk, None, Some};
ghost use Rattle.om_graph.specs.Fillings.{AreFillings, AreVertices, entering, filled_at, filling_at, fillings_at, listed_sides, sides_of, upward_part};
ghost use Rattle.om_graph.specs.Reactions.{reaction_in};

use crate::Key;
use crate::fields::{Meeting, Meetings};
use crate::lookup::are_equal;
use crate::parts::{Part, Parts, Side, fill, first_in, legs_of, put, sorted};
use crate::reaction::Reaction;
use om_legs::LegSet;
use om_model::anti_field;
use om_ring::NoMemory;
use std::alloc::Global;

/// A vertex at which nodes meet, with the parts at its slots.
#[derive(Drop)]
pub(crate) struct Filling {
    pub(crate) meeting: Meeting,
    pub(crate) parts: Parts,
}

/// The sides of two to four edges.
#[derive(Clone, Copy, PartialEq, Eq, Debug)]
pub(crate) struct Sides {
    pub(crate) count: u8,
    pub(crate) first: Side,
    pub(crate) second: Side,
    pub(crate) third: Side,
    pub(crate) fourth: Side,
}

/// The fillings for nodes. They depend on the sets and the fields of the nodes alone, so those found last serve all nodes with
/// these.
#[derive(Drop)]
pub(crate) struct Fillings {
    pub(crate) meetings: Meetings,
    pub(crate) last: Option<Sides>,
    pub(crate) fillings: Vec<Filling>,
}

impl Fillings {
    pub(crate) fn new(alloc: Global, closing: bool) -> Fillings
        ensures kind { result.meetings.closing ≡ closing }
        ensures none { result.meetings.fields ≡ [] }
        ensures no_last { result.last ≡ None }
    {
        Fillings {
            meetings: Meetings::new(alloc, closing),
            last: None,
            fillings: Vec::new(alloc),
        }
    }

    /// Finds the fillings for nodes with these keys.
    pub(crate) fn find(
        &mut self,
        alloc: Global,
        reaction: &Reaction<'_>,
        keys: &[Key],
    ) -> Result<(), NoMemory>
        requires some { 2 ≤ length keys.now }
        requires most { length keys.now ≤ 4 }
        requires few { self.old.meetings.closing ≡ false → length keys.now ≤ 3 }
        requires cached { AreFillings (reaction_in reaction.now) self.old.meetings.closing self.old }
        ensures cached { OnOk result (AreFillings (reaction_in reaction.now) self.old.meetings.closing self.new) }
        ensures found { OnOk result (self.new.fillings.items ≡ fillings_at (reaction_in reaction.now) self.old.meetings.closing (sides_of keys.now)) }
    {
        let sides = sides_of(keys);
        if is_last(&self.last, &sides) {
            return Ok(());
        }
        self.last = None;
        let place = self.meetings.place_of(alloc, reaction, keys)?;
        let closing = self.meetings.closing;
        let met = self.meetings.at(place);
        refill(&mut self.fillings, reaction, closing, met, &sides)?;
        self.last = Some(sides);
        Ok(())
    }

    /// Those that were found last, by vertex.
    pub(crate) fn all(&self) -> &[Filling]
        ensures { result.now ≡ self.now.fillings.items }
    {
        self.fillings.as_slice()
    }
}

fn sides_of(keys: &[Key]) -> Sides
    requires some { 2 ≤ length keys.now }
    requires few { length keys.now ≤ 4 }
    ensures listed { listed_sides result ≡ sides_of keys.now }
    ensures few { result.count ≤ 4 }
{
    match keys {
        [a, b] => Sides {
            count: 2,
            first: side_of(a),
            second: side_of(b),
            third: no_side(),
            fourth: no_side(),
        },
        [a, b, c] => Sides {
            count: 3,
            first: side_of(a),
            second: side_of(b),
            third: side_of(c),
            fourth: no_side(),
        },
        [a, b, c, d] => Sides {
            count: 4,
            first: side_of(a),
            second: side_of(b),
            third: side_of(c),
            fourth: side_of(d),
        },
        _ => unreachable!(),
    }
}

fn no_side() -> Side
    ensures { result ≡ record { legs = 0; field = 0 } }
{
    Side {
        legs: LegSet::empty(),
        field: 0,
    }
}

fn side_of(key: &Key) -> Side
    ensures { result ≡ record { legs = key.now.legs; field = key.now.field } }
{
    Side {
        legs: key.legs,
        field: key.field,
    }
}

fn is_last(last: &Option<Sides>, sides: &Sides) -> bool
    ensures { IsTrue result → last.now ≡ Some sides.now }
{
    match last {
        Some(last) => are_equal(last, sides),
        None => false,
    }
}

// The fillings at these vertices, in place of others.
fn refill(
    fillings: &mut Vec<Filling>,
    reaction: &Reaction<'_>,
    closing: bool,
    met: &[Meeting],
    sides: &Sides,
) -> Result<(), NoMemory>
    requires few { sides.now.count ≤ 4 }
    requires fewer { closing ≡ false → sides.now.count ≤ 3 }
    requires vertices { AreVertices (reaction_in reaction.now) met.now }
    ensures { OnOk result (fillings.new.items ≡ map (filling_at (reaction_in reaction.now) closing (listed_sides sides.now)) met.now) }
{
    fillings.truncate(0);
    let all = [sides.first, sides.second, sides.third, sides.fourth];
    let listed = &all[..sides.count as usize];
    for meeting in met {
        let filling = Filling {
            meeting: *meeting,
            parts: filled_at(reaction, closing, *meeting, listed),
        };
        if fillings.push(filling).is_err() {
            return Err(NoMemory);
        }
    }
    Ok(())
}

// The parts at the slots of a vertex: by least leg, the edge upwards among them, each goes to the first free slot with its
// field.
fn filled_at(reaction: &Reaction<'_>, closing: bool, meeting: Meeting, sides: &[Side]) -> Parts
    requires few { length sides.now ≤ 4 }
    requires fewer { closing ≡ false → length sides.now ≤ 3 }
    requires vertex { meeting.vertex < (reaction_in reaction.now).scattering.theory.vertices }
    ensures { result ≡ filled_at (reaction_in reaction.now) closing meeting sides.now }
{
    let parts = entering(reaction, closing, meeting.up, sides);
    fill(reaction.slots(meeting.vertex), &parts)
}

// The parts that enter, by least leg.
fn entering(reaction: &Reaction<'_>, closing: bool, up: Option<u16>, sides: &[Side]) -> Parts
    requires few { length sides.now ≤ 4 }
    requires fewer { closing ≡ false → length sides.now ≤ 3 }
    ensures { result ≡ entering (reaction_in reaction.now) closing up sides.now }
{
    let branches = sorted(reaction.size(), sides, 0);
    match up {
        Some(field) if !closing => put(upward_part(reaction, field, sides), &branches),
        _ => branches,
    }
}

// The edge upwards, seen from its lower end.
fn upward_part(reaction: &Reaction<'_>, field: u16, sides: &[Side]) -> Part
    ensures { result ≡ upward_part (reaction_in reaction.now) field sides.now }
{
    let size = reaction.size();
    Part {
        field: anti_field(reaction.particles(), field),
        least: first_in(legs_of(sides).complement(size), size),
        branch: None,
    }
}
