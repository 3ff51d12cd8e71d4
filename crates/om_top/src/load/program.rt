//! The program of a file.
ghost use Rattle.std.specs.Prelude.{◌+◌, ◌*◌, ◌≤◌, ℕ, length, IfOk};
ghost use Rattle.om_top.specs.Cost.{ProgramMayCall, program_calls};
ghost use Rattle.om_top.specs.Loads.{IsLoaded, LoadsProgram, ReadsCode, ReadsProgram};
ghost use Rattle.om_top.specs.Outside.{file_side};
ghost use Rattle.om_top.specs.declared.load.program.TheConstants.{MOST_PROGRAM_BYTES};

use crate::ending::Ending;
use crate::faults::ProgramFault;
use om_asm::{AsmFault, read_code};
use om_code::{CodeFault, Verified, verify};
use om_io::{FileFault, Folder, read_file};
use om_machine::{LoadFault, Machine, load};
use om_ring::{Ring, Steps};
use std::alloc::Global;

/// The most bytes of the file of a program.
pub const MOST_PROGRAM_BYTES: u64 = 536_870_912;

/// The machine of the program of the file of this name, with all memory that events need. Where there is none, the answer is how
/// the run ends.
pub(crate) fn load_program<R: Ring<Mark = L>, F: Folder, L>(
    alloc: Global,
    ring: &R,
    files: &mut F,
    name: &str,
    steps: &mut Steps<L>,
) -> Result<Machine<R::E>, Ending>
    ensures program { LoadsProgram (R.ops ring.now) (file_side F.file F.faults name.now files.old files.new) result }
    ensures loaded { IfOk result (IsLoaded (R.ops ring.now)) }
    ensures calls { (n : ℕ) × ProgramMayCall (file_side F.file F.faults name.now files.old files.new) result n × (steps.new ≤ steps.old + n * R.cost ring.now) }
{
    match read_file(alloc, files, name, MOST_PROGRAM_BYTES) {
        Ok(bytes) => machine_of(alloc, ring, &bytes, steps),
        Err(FileFault::TooLong) => Err(Ending::ProgramTooLong),
        Err(FileFault::Failed) => Err(Ending::FileFault),
        Err(FileFault::Memory) => Err(Ending::NoMemory),
    }
}

// The machine of the program that some bytes are. Where there is none, the answer is how the run ends.
fn machine_of<R: Ring<Mark = L>, L>(
    alloc: Global,
    ring: &R,
    bytes: &[u8],
    steps: &mut Steps<L>,
) -> Result<Machine<R::E>, Ending>
    requires { length bytes.now ≤ MOST_PROGRAM_BYTES }
    ensures program { ReadsProgram (R.ops ring.now) bytes.now result }
    ensures loaded { IfOk result (IsLoaded (R.ops ring.now)) }
    ensures calls { steps.new ≤ steps.old + program_calls bytes.now * R.cost ring.now }
{
    let code = match verified_code(alloc, bytes) {
        Ok(code) => code,
        Err(ending) => return Err(ending),
    };
    match load(alloc, ring, code, steps) {
        Ok(machine) => Ok(machine),
        Err(LoadFault::NoInverse { line }) => {
            Err(Ending::ProgramFault(ProgramFault::NoInverse { line }))
        }
        Err(LoadFault::Memory) => Err(Ending::NoMemory),
    }
}

// The verified code whose text some bytes are. Where there is none, the answer is how the run ends.
fn verified_code(alloc: Global, bytes: &[u8]) -> Result<Verified, Ending>
    requires { length bytes.now ≤ MOST_PROGRAM_BYTES }
    ensures { ReadsCode bytes.now result }
{
    let code = match read_code(alloc, bytes) {
        Ok(code) => code,
        Err(AsmFault::Bad { line, kind }) => {
            return Err(Ending::ProgramFault(ProgramFault::Text { line, kind }));
        }
        Err(AsmFault::Memory) => return Err(Ending::NoMemory),
    };
    match verify(alloc, code) {
        Ok(code) => Ok(code),
        Err(CodeFault::Broken { line, kind }) => {
            Err(Ending::ProgramFault(ProgramFault::Rule { line, kind }))
        }
        Err(CodeFault::Memory) => Err(Ending::NoMemory),
    }
}
