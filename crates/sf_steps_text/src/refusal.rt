//! Why a schedule is not played.

use std::alloc::AllocError;
use std::error::Error;
use std::fmt;

/// Why a schedule is not played.
#[derive(Clone, Copy, Debug)]
pub enum ScheduleRefusal {
    /// This line, counted from 1, is not a turn of the schedule.
    BadSchedule(u64),
    /// Memory was refused.
    Memory,
}

impl fmt::Display for ScheduleRefusal {
    ghost use Rattle.std.specs.Prelude.{Some};
    ghost use Rattle.sf_steps_text.specs.TraceText.{refusal_text};

    ghost output = { λ refusal. Some (refusal_text refusal) };

    fn fmt<W: fmt::Write>(&self, f: &mut fmt::Formatter<W>) -> fmt::Result {
        match self {
            ScheduleRefusal::BadSchedule(line) => write!(
                f,
                "line {line}: not a turn of this schedule"
            ),
            ScheduleRefusal::Memory => write!(f, "out of memory"),
        }
    }
}

impl Error for ScheduleRefusal {}

impl From<AllocError> for ScheduleRefusal {
    ghost use Rattle.std.specs.Prelude.{◌≡◌};
    ghost use Rattle.sf_steps_text.specs.declared.refusal.ScheduleRefusal.TheVariants.{Memory};

    ghost from_gives = { λ _ e. e ≡ Memory };

    fn from(_error: AllocError) -> ScheduleRefusal {
        ScheduleRefusal::Memory
    }
}
