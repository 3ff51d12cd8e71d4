//! Where bytes go.
ghost use Rattle.std.specs.Prelude.{◌≡◌, ◌<◌, ◌≤◌, ℕ, List, length, take, IfOk, OnErr};
ghost use Rattle.std.specs.Prelude.{Option as Maybe};
ghost use Rattle.om_io.specs.Bytes.{after_told};
ghost use Rattle.om_io.specs.Causes.{HasCause};

use crate::Failed;

/// A stream of bytes that is written at its end, and may fail.
///
/// No call changes whether a sink tells its bytes.
pub trait Sink {
    /// The bytes that were written, where they are told.
    ghost written: { Self → Maybe (List ℕ) };

    /// How often the sink has failed. It never falls.
    ghost faults: { Self → ℕ };

    /// Appends bytes from the front of `piece`, and returns how many: at least 1 where `piece` isn't empty.
    ///
    /// # Errors
    ///
    /// `Failed` only where the count of faults rose. Nothing was then appended.
    fn write(&mut self, piece: &[u8]) -> Result<usize, Failed>
        ensures count { IfOk result (λ n. n ≤ length piece.now) }
        ensures some { IfOk result (λ n. 0 < length piece.now → 0 < n) }
        ensures appended { IfOk result (λ n. written self.new ≡ after_told (written self.old) (take n piece.now)) }
        ensures kept { OnErr result (written self.new ≡ written self.old) }
        ensures cause { HasCause (faults self.old) (faults self.new) result };
}
