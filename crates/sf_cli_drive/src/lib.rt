//! `sfctl drive`: getters on threads of their own get keys of one fill, and four lines say whether all went well, or records say what
//! happened.
#![tactic(auto)]

mod driving;
mod found;
mod jobs;
mod line;
mod loaders;
mod progress;
mod report;
mod words;

pub use driving::drive;
pub use line::{DriveLine, MOST_GETS, MOST_KEYS, MOST_THREADS};
pub use progress::ProgressLine;
pub use report::{DriveEnding, Report, status};
pub use words::{DRIVE_ABOUT, DRIVE_HELP, drive_line, switch, with_drive_options};
