//! Events of whole numbers, for tests.
ghost use Rattle.std.specs.Prelude.{◌≡◌, IfOk, IsTrue};
ghost use Rattle.om_code.specs.Verified.{IsVerified};
ghost use Rattle.om_kernel.specs.Waves.{kind_of};
ghost use Rattle.om_machine.specs.Events.{IsMadeFor};

use crate::Event;
use om_code::Code;
use om_kernel::Wave;
use om_lorentz::Four;
use om_ring::{Elem, Ring, Zp};
use std::alloc::Global;
use std::process::Abort;
use std::test::Fail;

/// What enters through a leg: the momentum has a time alone, and the wave is 1, or 1 at one index of a spinor.
#[derive(Clone, Copy, Debug)]
pub(crate) enum Entry {
    One,
    Row(usize),
    Column(usize),
}

#[derive(Clone, Copy, Debug)]
pub(crate) struct Leg {
    pub(crate) time: u64,
    pub(crate) entry: Entry,
}

fn four(place: usize, x: Elem) -> Four<Elem> {
    let at = |k: usize| if k == place { x } else { Zp.zero() };
    Four {
        t: at(0),
        x: at(1),
        y: at(2),
        z: at(3),
    }
}

fn wave_of(entry: Entry) -> Wave<Elem> {
    match entry {
        Entry::One => Wave::Scalar(Zp.one()),
        Entry::Row(place) => Wave::Row(four(place, Zp.one())),
        Entry::Column(place) => Wave::Column(four(place, Zp.one())),
    }
}

fn have_same_kind(w: &Wave<Elem>, v: &Wave<Elem>) -> bool
    ensures { IsTrue result → kind_of w.now ≡ kind_of v.now }
{
    match (w, v) {
        (Wave::Scalar(_), Wave::Scalar(_)) => true,
        (Wave::Row(_), Wave::Row(_)) => true,
        (Wave::Column(_), Wave::Column(_)) => true,
        (Wave::Vector(_), Wave::Vector(_)) => true,
        _ => false,
    }
}

fn put(rt: &impl Abort, code: &Code, event: &mut Event<Elem>, k: u8, leg: Leg)
    requires { IsMadeFor code.now event.old }
    ensures { IsMadeFor code.now event.new }
{
    assert!(rt; 1 <= k);
    assert!(rt; usize::from(k) <= code.legs.len());
    let new = wave_of(leg.entry);
    assert!(rt; have_same_kind(&new, event.wave(k)));
    event.set(k, four(0, Zp.number(leg.time)), new);
}

/// The event of four legs, or of five.
pub(crate) fn event(
    rt: &impl Abort,
    alloc: Global,
    code: &Code,
    legs: [Leg; 5],
) -> Result<Event<Elem>, Fail>
    requires { IsVerified code.now }
    ensures { IfOk result (IsMadeFor code.now) }
{
    let mut event = Event::new(alloc, &Zp, code).ok().ok_or("no event")?;
    let [first, second, third, fourth, fifth] = legs;
    put(rt, code, &mut event, 1, first);
    put(rt, code, &mut event, 2, second);
    put(rt, code, &mut event, 3, third);
    put(rt, code, &mut event, 4, fourth);
    if code.legs.len() > 4 {
        put(rt, code, &mut event, 5, fifth);
    }
    Ok(event)
}
