//! Faults of inputs.
ghost use Rattle.std.specs.Prelude.{◌≡◌, ◌+◌, ◌≤◌, ◌++◌, length};
ghost use Rattle.om_top.specs.FaultText.{event_cause_name, event_fault_text};

use om_event::{Cause, MOST_EVENTS};
use om_ring::Line;

/// Why an input isn't events and nothing more.
#[derive(Clone, Copy, Debug, Drop, PartialEq, Eq)]
pub enum EventFault {
    /// The first bad line: that of leg `line` of an event, both counted from 1.
    Bad { event: u32, line: u8, cause: Cause },
    /// A byte follows the last event that is read.
    TooMany,
}

/// Appends what is wrong with an input.
pub(crate) fn push_event_fault(fault: EventFault, line: &mut Line)
    requires { length line.old ≤ 100 }
    ensures text { line.new ≡ line.old ++ event_fault_text fault }
    ensures short { length line.new ≤ length line.old + 100 }
{
    match fault {
        EventFault::Bad {
            event,
            line: leg,
            cause,
        } => {
            line.push(b"event ");
            line.push_number(u64::from(event));
            line.push(b" line ");
            line.push_number(u64::from(leg));
            line.push(b": ");
            line.push(cause_name(cause));
        }
        EventFault::TooMany => {
            line.push(b"more than ");
            line.push_number(u64::from(MOST_EVENTS));
        }
    }
}

fn cause_name(cause: Cause) -> &'static [u8]
    ensures name { result.now ≡ event_cause_name cause }
    ensures short { length result.now ≤ 10 }
{
    match cause {
        Cause::TooLong => b"TooLong",
        Cause::Count => b"Count",
        Cause::LegNumber => b"LegNumber",
        Cause::BadNumeral => b"BadNumeral",
        Cause::NoInverse => b"NoInverse",
        Cause::Cut => b"Cut",
    }
}
