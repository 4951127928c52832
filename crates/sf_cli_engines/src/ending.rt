//! How a run ends, and its exit status.

ghost use Rattle.std.specs.Prelude.{◌≡◌};
ghost use Rattle.sf_cli_engines.specs.Ending.{exit_status_of, outcome_of, status_of};

use sf_text::StreamFault;

/// How an engine ends that could read and write.
#[derive(Clone, Copy, PartialEq, Eq)]
pub enum Ending {
    /// The input was answered.
    Answered,
    /// The history is illegal.
    Illegal,
    /// Events of the history were lost, so nothing is said of the whole of it.
    Incomplete,
    /// The input was refused, and one line says why.
    Refused,
}

/// The exit status: 0 for an answer, 1 for an illegal or incomplete history, 2 for input that is refused.
pub fn status(ending: Ending) -> u8
    ensures { result ≡ status_of ending }
{
    match ending {
        Ending::Answered => 0,
        Ending::Illegal | Ending::Incomplete => 1,
        Ending::Refused => 2,
    }
}

/// How the program ends.
#[derive(Clone, Copy)]
pub enum Outcome {
    /// An engine ended that could read and write.
    Ended(Ending),
    /// A stream failed.
    Failed(StreamFault),
    /// The command line asks for nothing.
    Usage,
}

impl Outcome {
    /// What an engine's end is to the program.
    pub fn of(ended: Result<Ending, StreamFault>) -> Outcome
        ensures { result ≡ outcome_of ended }
    {
        match ended {
            Ok(ending) => Outcome::Ended(ending),
            Err(fault) => Outcome::Failed(fault),
        }
    }
}

/// The exit status of the program: that of the engine's end, and 2 where a stream failed or nothing was asked for.
pub fn exit_status(outcome: Outcome) -> u8
    ensures { result ≡ exit_status_of outcome }
{
    match outcome {
        Outcome::Ended(ending) => status(ending),
        Outcome::Failed(_) | Outcome::Usage => status(Ending::Refused),
    }
}
