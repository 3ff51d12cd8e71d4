//! The generator.
ghost use Rattle.std.specs.Prelude.{◌≡◌, ◌<◌};
ghost use Rattle.om_ring.specs.Ops.{number_of};
ghost use Rattle.om_sample.specs.Generator.{draw, next_state};

use crate::limits::{DRAW_UNIT, INCREMENT, MULTIPLIER};
use om_ring::Ring;

/// A linear congruential generator modulo 2^64: its state. It starts as the seed.
#[derive(Clone, Copy, Debug, PartialEq, Eq)]
pub struct Generator {
    pub state: u64,
}

impl Generator {
    /// Takes the next state, and gives the number below 2^16 that its upper bits are.
    pub fn draw(&mut self) -> u64
        ensures value { result ≡ draw self.old.state 0 }
        ensures state { self.new.state ≡ next_state self.old.state }
    {
        self.state = self.state.wrapping_mul(MULTIPLIER).wrapping_add(INCREMENT);
        self.state / DRAW_UNIT
    }

    /// The same, as an element of a ring.
    pub(crate) fn draw_element<R: Ring>(&mut self, ring: &R) -> R::E
        ensures value { result ≡ number_of (R.ops ring.now) (draw self.old.state 0) }
        ensures state { self.new.state ≡ next_state self.old.state }
    {
        ring.number(self.draw())
    }
}
