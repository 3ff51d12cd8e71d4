//! The texts of the faults of processes.
ghost use Rattle.std.specs.Prelude.{◌≡◌, ◌+◌, ◌≤◌, ◌++◌, length};
ghost use Rattle.om_top.specs.FaultText.{at_byte, process_fault_text};

use om_model::ProcessFault;
use om_ring::Line;

/// Appends what is wrong with the text of a process.
pub(crate) fn push_process_fault(fault: ProcessFault, line: &mut Line)
    requires { length line.old ≤ 100 }
    ensures text { line.new ≡ line.old ++ process_fault_text fault }
    ensures short { length line.new ≤ length line.old + 100 }
{
    match fault {
        ProcessFault::Syntax(place) => push_at_byte(b"syntax", place, line),
        ProcessFault::Unknown(place) => push_at_byte(b"unknown name", place, line),
        ProcessFault::Legs(count) => {
            line.push_number(u64::from(count));
            line.push(b" legs");
        }
        ProcessFault::Edge(place) => push_at_byte(b"edge", place, line),
        ProcessFault::Memory => line.push(b"Memory"),
    }
}

// Appends a name with the byte of a text that it speaks of.
fn push_at_byte(name: &[u8], place: usize, line: &mut Line)
    requires { length line.old + length name.now ≤ 300 }
    ensures text { line.new ≡ line.old ++ at_byte name.now place }
    ensures short { length line.new ≤ length line.old + length name.now + 40 }
{
    line.push(name);
    line.push(b" at byte ");
    line.push_number(place as u64);
}
