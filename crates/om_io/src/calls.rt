//! Calls and faults that are counted.
ghost use Rattle.std.specs.Prelude.{◌≡◌};
ghost use Rattle.om_io.specs.InMemory.{next_count, no_calls, next_fails, after_call};

use crate::Failed;
use std::marker::Model;

/// Counts a fault. A counter that has reached its greatest number stands still.
pub(crate) fn counted_fault(faults: &mut u64) -> Failed
    ensures { faults.new ≡ next_count faults.old }
{
    *faults = faults.saturating_add(1);
    Failed
}

/// Counts the calls on an object, and knows which of them are to fail.
#[derive(Drop)]
pub(crate) struct CallCounter {
    fails: Vec<u64>,
    made: u64,
    faults: u64,
}

impl Model for CallCounter {
    ghost use Rattle.om_io.specs.InMemory.{Calls};

    ghost Value = { Calls };

    ghost view = { λ c. record { fails = c.fails.items; made = c.made; faults = c.faults } };
}

impl CallCounter {
    /// No call was made yet. Those are to fail whose numbers, from 1, stand in `fails`.
    pub(crate) fn new(fails: Vec<u64>) -> CallCounter
        ensures { result ≡ no_calls fails.items }
    {
        CallCounter {
            fails,
            made: 0,
            faults: 0,
        }
    }

    /// Counts a call, and says whether it is to fail.
    pub(crate) fn next_fails(&mut self) -> bool
        ensures answer { result ≡ next_fails self.old }
        ensures counted { self.new ≡ after_call self.old }
    {
        self.made = self.made.saturating_add(1);
        self.fails.contains(&self.made)
    }

    /// Counts the failure of the last call.
    pub(crate) fn fail(&mut self) -> Failed
        ensures { self.new ≡ record self.old { faults = next_count self.old.faults } }
    {
        counted_fault(&mut self.faults)
    }
}
