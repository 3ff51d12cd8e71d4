//! Where flows stood when they were last met.
ghost use Rattle.std.specs.Prelude.{◌≡◌, IsTrue, Some, slice_get};

use crate::lines::{are_same, words_of};
use om_colour::Flow;
use om_cons::Table;
use om_ring::NoMemory;
use std::alloc::Global;

// How many slots there are at first, and by how many bits a hash is shifted to be one of them.
const FIRST_SLOTS: usize = 4_096;

const FIRST_SHIFT: u32 = 52;

// The least shift: there are never more slots than numbers.
const LAST_SHIFT: u32 = 32;

/// The numbers of flows that were met last, one for each slot. Any number may stand there: who looks there compares. There are at
/// least as many slots as flows where memory allows it.
#[derive(Drop)]
pub(crate) struct Recent {
    numbers: Vec<u32>,
    shift: u32,
}

impl Recent {
    pub(crate) fn new(alloc: Global) -> Result<Recent, NoMemory> {
        match Vec::from_elem(alloc, 0, FIRST_SLOTS) {
            Ok(numbers) => Ok(Recent {
                numbers,
                shift: FIRST_SHIFT,
            }),
            Err(_) => Err(NoMemory),
        }
    }

    /// The slot of a flow.
    pub(crate) fn slot_of(&self, flow: Flow) -> usize {
        let (low, high) = words_of(flow.ends);
        let mixed = low
            .wrapping_mul(0x9E37_79B9_7F4A_7C15)
            .wrapping_add(high.wrapping_mul(0xC2B2_AE3D_27D4_EB4F));
        mixed.wrapping_shr(self.shift) as usize
    }

    /// What stands in a slot.
    pub(crate) fn at(&self, slot: usize) -> u32 {
        if slot < self.numbers.len() {
            self.numbers[slot]
        } else {
            0
        }
    }

    /// Puts a number in a slot.
    pub(crate) fn put(&mut self, slot: usize, number: u32) {
        let slots = self.numbers.len();
        if slot < slots {
            self.numbers[slot] = number;
        }
        if number as usize >= slots {
            self.grow();
        }
    }

    // Twice as many slots. What stands in them stays, though other flows belong there now.
    #[cold]
    #[inline(never)]
    fn grow(&mut self) {
        let slots = self.numbers.len().saturating_mul(2);
        if self.shift > LAST_SHIFT && self.numbers.resize(slots, 0).is_ok() {
            self.shift -= 1;
        }
    }
}

/// Whether the flow stands at this place.
pub(crate) fn is_at(flows: &Table<Flow>, place: u32, flow: Flow) -> bool
    ensures { IsTrue result → slice_get flows.now place ≡ Some flow }
{
    let place = place as usize;
    place < flows.len() && are_same(*flows.at(place), flow)
}
