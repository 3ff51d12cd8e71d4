//! Files by name.
ghost use Rattle.std.specs.Prelude.{◌≡◌, ◌≢◌, ◌≤◌, ℕ, List, length, IfOk, IfSome};
ghost use Rattle.std.specs.Prelude.{Option as Maybe};
ghost use Rattle.om_io.specs.Bytes.{HoldsPart};
ghost use Rattle.om_io.specs.Causes.{HasCause};

use crate::Failed;

/// Files that are read by name and place, and may fail.
///
/// No call changes what the files hold, nor whether a file tells it.
pub trait Folder {
    /// The bytes of each named file, where they are told.
    ghost file: { Self → List ℕ → Maybe (List ℕ) };

    /// How often reading each name has failed. It never falls.
    ghost faults: { Self → List ℕ → ℕ };

    /// Moves bytes of the file `name`, from the place `at` on, to the front of `to`, and returns how many.
    ///
    /// Where the file is told, the rest of `to` is as before, and in a `to` with room the number is 0 exactly
    /// where `at` is at or past the file's end. The counts of all other names stay as they were.
    ///
    /// # Errors
    ///
    /// `Failed` only where the count of `name` rose. A file that isn't there is such a failure.
    fn read_at(&mut self, name: &str, at: u64, to: &mut [u8]) -> Result<usize, Failed>
        ensures count { IfOk result (λ n. n ≤ length to.old) }
        ensures bytes { IfSome (file self.old name.now) (λ file. IfOk result (λ n. HoldsPart file at n to.old to.new)) }
        ensures files { (q : List ℕ) → file self.new q ≡ file self.old q }
        ensures others { (q : List ℕ) → q ≢ name.now → faults self.new q ≡ faults self.old q }
        ensures cause { HasCause (faults self.old name.now) (faults self.new name.now) result };
}
