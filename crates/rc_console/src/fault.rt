//! Why the program has no answer.

ghost use Rattle.std.specs.Prelude.{◌≡◌};
ghost use Rattle.rc_console.specs.Faults as spec;

use crate::files::MEMORY;
use crate::words::WordsFault;
use rc_report::engine_fault::EngineFault;
use std::alloc::AllocError;

/// Why the program has no answer.
#[derive(Debug, Drop)]
pub enum CommandFault {
    /// The words are no command.
    Words(WordsFault),
    /// A device failed, or memory ran out.
    Engine(EngineFault),
    /// 2,097,152 reads met no end of the input.
    NoEnd,
    /// What ran was another program.
    OtherProgram,
}

impl CommandFault {
    /// Why there is no answer, in words.
    pub fn why(&self) -> &str
        ensures { result.now ≡ spec.why_of self.now }
    {
        match self {
            CommandFault::Words(fault) => fault.why(),
            CommandFault::Engine(fault) => why_of_engine(*fault),
            CommandFault::NoEnd => "the input has no end",
            CommandFault::OtherProgram => "other program (31)",
        }
    }

    /// Whether the output failed because its reader has closed it, which isn't reported.
    pub fn is_hung_up(&self, is_closed: bool) -> bool
        ensures { result ≡ spec.is_hung_up is_closed self.now }
    {
        is_closed && matches!(self, CommandFault::Engine(EngineFault::Write))
    }
}

/// Why an engine didn't finish, in words.
fn why_of_engine(fault: EngineFault) -> &'static str
    ensures { result.now ≡ spec.why_of_engine fault }
{
    match fault {
        EngineFault::Read => "the input can't be read",
        EngineFault::Write => "the output can't be written",
        EngineFault::OutOfMemory => MEMORY,
    }
}

impl From<WordsFault> for CommandFault {
    ghost use Rattle.std.specs.Prelude.{◌≡◌};
    ghost use Rattle.rc_console.specs.declared.fault.CommandFault.TheVariants.{Words};

    ghost from_gives = { λ fault e. e ≡ Words fault };

    fn from(fault: WordsFault) -> CommandFault {
        CommandFault::Words(fault)
    }
}

impl From<EngineFault> for CommandFault {
    ghost use Rattle.std.specs.Prelude.{◌≡◌};
    ghost use Rattle.rc_console.specs.declared.fault.CommandFault.TheVariants.{Engine};

    ghost from_gives = { λ fault e. e ≡ Engine fault };

    fn from(fault: EngineFault) -> CommandFault {
        CommandFault::Engine(fault)
    }
}

impl From<AllocError> for CommandFault {
    ghost use Rattle.std.specs.Prelude.{◌≡◌};
    ghost use Rattle.rc_console.specs.declared.fault.CommandFault.TheVariants.{Engine};
    ghost use Rattle.rc_report.specs.declared.engine_fault.EngineFault.TheVariants.{OutOfMemory};

    ghost from_gives = { λ _ e. e ≡ Engine OutOfMemory };

    fn from(_error: AllocError) -> CommandFault {
        CommandFault::Engine(EngineFault::OutOfMemory)
    }
}
