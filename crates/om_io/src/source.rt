//! Where bytes come from.
ghost use Rattle.std.specs.Prelude.{◌≡◌, ◌<◌, ◌≤◌, ◌↔◌, ℕ, List, [], length, take, drop, IfOk, IfSome, OnErr, IsSome};
ghost use Rattle.std.specs.Prelude.{Option as Maybe};
ghost use Rattle.om_io.specs.Bytes.{before_told};
ghost use Rattle.om_io.specs.Causes.{HasCause};

use crate::Failed;

/// A stream of bytes that is read from its front, and may fail.
///
/// No call changes whether a source tells its bytes.
pub trait Source {
    /// The bytes that are left, where they are told.
    ghost left: { Self → Maybe (List ℕ) };

    /// How often the source has failed. It never falls.
    ghost faults: { Self → ℕ };

    /// Moves bytes from the front of what is left to the front of `to`, and returns how many.
    ///
    /// Where the bytes are told, the rest of `to` is as before, and in a `to` with room the number is 0 exactly
    /// where nothing was left.
    ///
    /// # Errors
    ///
    /// `Failed` only where the count of faults rose. What is left is then as before.
    fn read(&mut self, to: &mut [u8]) -> Result<usize, Failed>
        ensures count { IfOk result (λ n. n ≤ length to.old) }
        ensures taken { IfOk result (λ n. left self.old ≡ before_told (take n to.new) (left self.new)) }
        ensures rest { IsSome (left self.old) → IfOk result (λ n. drop n to.new ≡ drop n to.old) }
        ensures end { IfSome (left self.old) (λ bytes. IfOk result (λ n. 0 < length to.old → (n ≡ 0) ↔ (bytes ≡ []))) }
        ensures kept { OnErr result (left self.new ≡ left self.old) }
        ensures cause { HasCause (faults self.old) (faults self.new) result };
}
