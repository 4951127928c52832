//! What a drive says on standard error while it runs, where that is a terminal.

use std::fmt;
use std::time::{Clock, Instant};

// After so many seconds a drive begins to say how far it is.
const QUIET_SECONDS: u64 = 2;

// How many gets go by from one look at the clock to the next.
const GETS_A_LOOK: u32 = 256;

/// How far the first thread of a drive is.
#[derive(Clone, Copy)]
pub struct ProgressLine {
    /// How long it runs.
    pub seconds: u64,
    /// How many gets it has made.
    pub made: u32,
    /// How many it is to make.
    pub gets: u32,
}

impl fmt::Display for ProgressLine {
    ghost use Rattle.std.specs.Prelude.{Some};
    ghost use Rattle.sf_cli_drive.specs.Reports.{progress_text};

    ghost output = { λ line. Some (progress_text line) };

    fn fmt<W: fmt::Write>(&self, f: &mut fmt::Formatter<W>) -> fmt::Result {
        let seconds = self.seconds;
        let made = self.made;
        let gets = self.gets;
        write!(f, "{seconds} s: {made} of {gets} gets on the first thread")
    }
}

/// Says how far the first thread is: one line a second, and nothing in the first two. A refused write is let go.
#[derive(Clone, Copy)]
pub(crate) struct Progress {
    started: Instant,
    said: u64,
}

impl Progress {
    // Progress that begins now, if there is a clock.
    pub(crate) fn new(rt: &impl Clock) -> Option<Progress> {
        match Instant::now(rt) {
            Ok(started) => Some(Progress {
                started,
                said: QUIET_SECONDS,
            }),
            Err(_) => None,
        }
    }

    // Says it where a second has gone by since it was said.
    pub(crate) fn say(&mut self, rt: &(impl Clock + Eprint), made: u32, gets: u32) {
        if made % GETS_A_LOOK != 0 {
            return;
        }
        let Ok(ran) = self.started.elapsed(rt) else {
            return;
        };
        let seconds = ran.as_secs();
        if self.said < seconds {
            self.said = seconds;
            let line = ProgressLine {
                seconds,
                made,
                gets,
            };
            let _ = eprintln!(rt; "{line}");
        }
    }
}
