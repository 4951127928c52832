//! What a drive says, and how it ends.
ghost use Rattle.std.specs.Prelude.{◌≡◌};
ghost use Rattle.sf_cli_drive.specs.Reports.{ending_of, status_of};

use sf_replay_check::Verdict;
use std::fmt;

/// What a drive found.
#[derive(Clone, Copy)]
pub struct Report {
    /// How many gets there were.
    pub gets: u64,
    /// How many of them answered the key's value.
    pub answers: u64,
    /// Whether what was gathered is what the book says.
    pub totals_equal: bool,
    /// What the checker says of the merged logs.
    pub verdict: Verdict,
}

impl fmt::Display for Report {
    ghost use Rattle.std.specs.Prelude.{Some};
    ghost use Rattle.sf_cli_drive.specs.Reports.{report_text};

    ghost output = { λ r. Some (report_text r) };

    fn fmt<W: fmt::Write>(&self, f: &mut fmt::Formatter<W>) -> fmt::Result {
        let totals = if self.totals_equal { "equal" } else { "differ" };
        let gets = self.gets;
        let answers = self.answers;
        write!(f, "gets {gets}\nanswers {answers}\ntotals {totals}\n")?;
        match self.verdict {
            Verdict::Legal => f.write_str("history legal"),
            Verdict::Illegal { index, cause } => write!(f, "event {index}: {cause}"),
        }
    }
}

/// How a drive ends that could write.
#[derive(Clone, Copy, PartialEq, Eq)]
pub enum DriveEnding {
    /// Its report says that all went well.
    Passed,
    /// Its report says what did not.
    Failed,
    /// Memory was refused, and one line says so.
    OutOfMemory,
}

impl Report {
    /// How a drive ends that says this: it passes where every get was answered rightly, the totals agree, and the history
    /// is legal.
    pub fn ending(&self) -> DriveEnding
        ensures { result ≡ ending_of self.now }
    {
        let is_legal = match self.verdict {
            Verdict::Legal => true,
            Verdict::Illegal { .. } => false,
        };
        if self.gets == self.answers && self.totals_equal && is_legal {
            DriveEnding::Passed
        } else {
            DriveEnding::Failed
        }
    }
}

/// The exit status: 0 where all went well, 1 where it did not, 2 where memory was refused.
pub fn status(ending: DriveEnding) -> u8
    ensures { result ≡ status_of ending }
{
    match ending {
        DriveEnding::Passed => 0,
        DriveEnding::Failed => 1,
        DriveEnding::OutOfMemory => 2,
    }
}
