//! Why the sequential group refuses a call.

use std::alloc::{AllocError, AllocFailed};
use std::error::Error;
use std::fmt;

/// Why a call of the sequential group is refused. The group is then as it was.
#[derive(Clone, Copy, Debug, PartialEq, Eq)]
pub enum ModelRefusal {
    /// This caller asks or forgets while it leads or holds a ticket, or it is to be the second of its own asking.
    NotFree(u32),
    /// This caller settles and leads no call.
    NotLeading(u32),
    /// This caller takes and holds no ticket.
    NothingAsked(u32),
    /// This caller has used its last generation.
    Spent(u32),
    /// Memory was refused.
    Memory,
}

impl fmt::Display for ModelRefusal {
    ghost use Rattle.std.specs.Prelude.{Some};
    ghost use Rattle.sf_sequential.specs.CauseText.{cause_text};

    ghost output = { λ refusal. Some (cause_text refusal) };

    fn fmt<W: fmt::Write>(&self, f: &mut fmt::Formatter<W>) -> fmt::Result {
        match self {
            ModelRefusal::NotFree(caller) => write!(f, "caller {caller} is not free"),
            ModelRefusal::NotLeading(caller) => write!(f, "caller {caller} is not leading"),
            ModelRefusal::NothingAsked(caller) => write!(f, "caller {caller} has nothing to take"),
            ModelRefusal::Spent(caller) => write!(f, "caller {caller} is spent"),
            ModelRefusal::Memory => write!(f, "out of memory"),
        }
    }
}

impl Error for ModelRefusal {}

impl From<AllocError> for ModelRefusal {
    ghost use Rattle.std.specs.Prelude.{◌≡◌};
    ghost use Rattle.sf_sequential.specs.declared.refusal.ModelRefusal.TheVariants.{Memory};

    ghost from_gives = { λ _ e. e ≡ Memory };

    fn from(_error: AllocError) -> ModelRefusal {
        ModelRefusal::Memory
    }
}

impl<T: Drop> From<AllocFailed<T>> for ModelRefusal {
    ghost use Rattle.std.specs.Prelude.{◌≡◌};
    ghost use Rattle.sf_sequential.specs.declared.refusal.ModelRefusal.TheVariants.{Memory};

    ghost from_gives = { λ _ e. e ≡ Memory };

    fn from(_failed: AllocFailed<T>) -> ModelRefusal {
        ModelRefusal::Memory
    }
}
