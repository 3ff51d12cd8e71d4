//! Laws of the definitions that the contract of [`run`](crate::run) rests on.
ghost use Rattle.std.specs.Prelude.{ℕ, List};
ghost use Rattle.om_top.specs.Agree.{CompiledTextsArePrograms, RunOnTextsIsEval, RunOwesWhatEvalOwes};
ghost use Rattle.om_top.specs.Causes.{UsageCause, ModelCause, ProcessCause, SizeCause, ProgramCause, EventsCause, ProgramEventsCause, FaultsHaveCauses, QuietEndings, CommandEndings};
ghost use Rattle.om_top.specs.Complete.{EvalIsComplete, RunIsComplete, CheckIsComplete, WriteIsComplete, SampleIsComplete};

use om_ring::Ring;

/// Each refusal comes exactly where its cause is there: the usage line where the words have the form of no command; that of a model
/// where its file has too many bytes or a fault, of a process where the text is that of none or its possible graph has more than
/// 4,194,304 terms and keystone terms, and of a program where its file has too many bytes or a fault; that of events where there is
/// a diagram, or a flow of the program, and the input isn't events and nothing more.
pub fn refusals_have_causes<R: Ring>(ring: &R)
    ensures usage { UsageCause (R.ops ring.now) (R.text ring.now) }
    ensures model { ModelCause (R.ops ring.now) (R.text ring.now) }
    ensures process { ProcessCause (R.ops ring.now) (R.text ring.now) }
    ensures size { SizeCause (R.ops ring.now) (R.text ring.now) }
    ensures program { ProgramCause (R.ops ring.now) (R.text ring.now) }
    ensures eval { EventsCause (R.ops ring.now) (R.text ring.now) }
    ensures run { ProgramEventsCause (R.ops ring.now) (R.text ring.now) }
{
    let _ring = ring;
}

/// A fault comes only where the count of faults of its object rose: one of the output only where nothing is refused before, and
/// one of the input only where there is a diagram or a flow too. After a refusal before the input, a fault of the file or want of
/// memory nothing was read from the input and nothing was written. Each command ends with one of its statuses.
pub fn endings_say_what_stands<R: Ring>(ring: &R)
    ensures faults { FaultsHaveCauses (R.ops ring.now) (R.text ring.now) }
    ensures quiet { QuietEndings (R.ops ring.now) (R.text ring.now) }
    ensures statuses { CommandEndings (R.ops ring.now) (R.text ring.now) }
{
    let _ring = ring;
}

/// Where nothing is refused and no count of faults rises, each command is done with its defined bytes, or memory runs out.
pub fn commands_complete<R: Ring>(ring: &R)
    ensures eval { EvalIsComplete (R.ops ring.now) (R.text ring.now) }
    ensures run { RunIsComplete (R.ops ring.now) (R.text ring.now) }
    ensures check { CheckIsComplete (R.ops ring.now) (R.text ring.now) }
    ensures write { WriteIsComplete (R.ops ring.now) (R.text ring.now) }
    ensures sample { SampleIsComplete (R.ops ring.now) (R.text ring.now) }
{
    let _ring = ring;
}

/// The text that `compile` writes for a process over an accepted model is a program file: it has no
/// more bytes than such a file may have, and is read as the code that was written, which keeps all
/// rules. For each input `run` owes on it what `eval` owes on the model and the process. On a file
/// that holds it `run` leaves what `eval` leaves, unless the file can't be read or memory runs out.
/// What is asked of model, process and code stands in what [`run`](crate::run) says of `compile`.
pub fn compile_and_run_agree<R: Ring>(ring: &R)
    ensures program { CompiledTextsArePrograms (R.ops ring.now) }
    ensures owed { (show : R.E → List ℕ) → RunOwesWhatEvalOwes (R.ops ring.now) show }
    ensures run { (show : R.E → List ℕ) → RunOnTextsIsEval (R.ops ring.now) show }
{
    let _ring = ring;
}
