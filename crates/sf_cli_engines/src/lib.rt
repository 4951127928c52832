//! The engines of `sfctl`: what each subcommand reads and writes, over any reader and writer.
#![tactic(auto)]

mod checking;
mod drawing;
mod ending;
mod engine;
mod engines;
mod hints;
mod merging;
mod playing;
mod record_hints;
mod recording;
mod sources;
mod telling;
mod timing;
mod turn_hints;

pub use checking::Checked;
pub use ending::{Ending, Outcome, exit_status, status};
pub use engine::{Engine, Form, Judged, Shown};
pub use hints::{Hint, Said, hint_for, said_below};
pub use timing::{Found, TimedChecked};
