//! Schedules in text: read, played on the step core, and printed.
#![tactic(auto)]

mod player;
mod printing;
mod reading;
mod refusal;
mod schedule;
mod schedule_line;

pub use printing::{step_text, trace_text};
pub use refusal::ScheduleRefusal;
pub use schedule::{Trace, play};
pub use schedule_line::ScheduleLine;
