//! How a run ends.
ghost use Rattle.std.specs.Prelude.{◌≡◌};
ghost use Rattle.om_top.specs.Message.{status_of};

use crate::faults::{EventFault, ProgramFault};
use om_model::ProcessFault;
use om_modelfile::ModelFault;

/// How a run ends. Each ending has a status and, but for `Done`, a line on the standard error.
#[derive(Clone, Copy, Debug, PartialEq, Eq)]
pub enum Ending {
    /// All was done.
    Done,
    /// The words have the form of no command.
    Usage,
    /// The model's file has more bytes than a model file may have.
    ModelTooLong,
    /// The model's file is faulty, or its model breaks a rule. Want of memory is no such fault.
    ModelFault(ModelFault),
    /// The text is that of no process of the model. Want of memory is no such fault.
    ProcessFault(ProcessFault),
    /// The possible graph of the process has too many terms and keystone terms.
    GraphTooLarge,
    /// The program's file has more bytes than a program file may have.
    ProgramTooLong,
    /// The program's file is faulty, or its program breaks a rule.
    ProgramFault(ProgramFault),
    /// The input isn't events and nothing more.
    EventFault(EventFault),
    /// A read of the file failed.
    FileFault,
    /// A read of the input failed.
    InputFault,
    /// A write to the output failed.
    OutFault,
    /// Memory ran out, before anything was read from the input or written.
    NoMemory,
}

/// The exit status of an ending.
pub(crate) fn status(ending: Ending) -> u8
    ensures { result ≡ status_of ending }
{
    match ending {
        Ending::Done => 0,
        Ending::Usage => 2,
        Ending::ModelTooLong | Ending::ModelFault(_) => 3,
        Ending::ProcessFault(_) => 4,
        Ending::ProgramTooLong | Ending::ProgramFault(_) => 5,
        Ending::EventFault(_) => 6,
        Ending::FileFault | Ending::InputFault => 7,
        Ending::OutFault => 8,
        Ending::GraphTooLarge => 9,
        Ending::NoMemory => 10,
    }
}
