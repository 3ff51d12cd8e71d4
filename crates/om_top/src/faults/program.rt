//! Faults of programs.
ghost use Rattle.std.specs.Prelude.{◌≡◌, ◌+◌, ◌≤◌, ◌++◌, length};
ghost use Rattle.om_top.specs.FaultText.{asm_kind_name, at_line, code_kind_name, program_fault_text};

use om_asm::AsmKind;
use om_code::CodeKind;
use om_ring::Line;

/// What is wrong with a program: the first line that is, counted from 1.
#[derive(Clone, Copy, Debug, Drop, PartialEq, Eq)]
pub enum ProgramFault {
    /// It is in no program text.
    Text { line: u32, kind: AsmKind },
    /// It breaks a rule of programs.
    Rule { line: u32, kind: CodeKind },
    /// It is that of a particle or vertex, and a number of it has no inverse.
    NoInverse { line: u32 },
}

/// Appends what is wrong with a program.
pub(crate) fn push_program_fault(fault: ProgramFault, line: &mut Line)
    requires { length line.old ≤ 100 }
    ensures text { line.new ≡ line.old ++ program_fault_text fault }
    ensures short { length line.new ≤ length line.old + 100 }
{
    match fault {
        ProgramFault::Text { line: number, kind } => push_at_line(number, asm_name(kind), line),
        ProgramFault::Rule { line: number, kind } => push_at_line(number, code_name(kind), line),
        ProgramFault::NoInverse { line: number } => push_at_line(number, b"NoInverse", line),
    }
}

// Appends the number of a line and what is wrong with it.
fn push_at_line(number: u32, name: &[u8], line: &mut Line)
    requires { length line.old + length name.now ≤ 300 }
    ensures text { line.new ≡ line.old ++ at_line number name.now }
    ensures short { length line.new ≤ length line.old + length name.now + 30 }
{
    line.push(b"line ");
    line.push_number(u64::from(number));
    line.push(b": ");
    line.push(name);
}

fn asm_name(kind: AsmKind) -> &'static [u8]
    ensures name { result.now ≡ asm_kind_name kind }
    ensures short { length result.now ≤ 8 }
{
    match kind {
        AsmKind::Grammar => b"Grammar",
        AsmKind::Name => b"Name",
    }
}

fn code_name(kind: CodeKind) -> &'static [u8]
    ensures name { result.now ≡ code_kind_name kind }
    ensures short { length result.now ≤ 8 }
{
    match kind {
        CodeKind::Row => b"Row",
        CodeKind::Legs => b"Legs",
        CodeKind::Flow => b"Flow",
        CodeKind::Den => b"Den",
        CodeKind::Number => b"Number",
        CodeKind::Register => b"Register",
        CodeKind::Fit => b"Fit",
        CodeKind::Sets => b"Sets",
    }
}
