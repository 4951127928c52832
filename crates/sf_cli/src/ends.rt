//! How the program ends: what it says on standard error, and its exit status.

ghost use Rattle.std.specs.Prelude.{◌≡◌, Result};
ghost use Rattle.sf_cli.specs.Served.{drive_exit_status_of, help_exit_status_of};
ghost use Rattle.sf_cli_engines.specs.Ending.{exit_status_of, outcome_of};

use sf_cli_drive::{DriveEnding, status as drive_status};
use sf_cli_engines::{Ending, Outcome, exit_status};
use sf_text::StreamFault;
use std::fmt::Display;

/// Says what is wrong with the command line on standard error, as far as that can be written, and answers the exit status.
pub fn misused<D: Display + Drop>(rt: &impl Eprint, said: D) -> u8
    ensures { result ≡ exit_status_of Outcome.Usage }
{
    let _ = eprint!(rt; "{said}");
    exit_status(Outcome::Usage)
}

// Says on standard error that a stream failed, and answers the exit status.
fn failed(rt: &impl Eprint, fault: StreamFault) -> u8
    ensures { result ≡ exit_status_of (Outcome.Failed fault) }
{
    let _ = eprintln!(rt; "{fault}");
    exit_status(Outcome::Failed(fault))
}

/// The exit status of an engine's end; where a stream failed, that is said on standard error.
pub fn ended(rt: &impl Eprint, ended: Result<Ending, StreamFault>) -> u8
    ensures { result ≡ exit_status_of (outcome_of ended) }
{
    match ended {
        Ok(ending) => exit_status(Outcome::Ended(ending)),
        Err(fault) => failed(rt, fault),
    }
}

/// Says on standard error why a drive failed, if it did, and returns its exit status.
pub fn driven(rt: &impl Eprint, driven: Result<DriveEnding, StreamFault>) -> u8
    ensures { result ≡ drive_exit_status_of driven }
{
    match driven {
        Ok(ending) => drive_status(ending),
        Err(fault) => failed(rt, fault),
    }
}

/// Says on standard error why help or the version was not written, if it was not, and returns the exit status: 0 where it was written.
pub fn helped(rt: &impl Eprint, written: Result<(), StreamFault>) -> u8
    ensures { result ≡ help_exit_status_of written }
{
    match written {
        Ok(()) => 0,
        Err(fault) => failed(rt, fault),
    }
}
