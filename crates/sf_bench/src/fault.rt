//! Why nothing was measured.
use sf_text::StreamFault;
use std::alloc::AllocError;
use std::io;
use thiserror::Error;

/// Why a benchmark gives no times.
#[derive(Clone, Copy, Debug, PartialEq, Eq, Error)]
pub enum Fault {
    /// Memory was refused.
    #[error("out of memory")]
    Memory,
    /// The clock gave no time.
    #[error("the clock cannot be read")]
    Clock,
    /// A write failed.
    #[error("cannot write")]
    Written,
    /// A call that is measured was refused, or did not answer what was expected.
    #[error("a measured call was refused")]
    Refused,
}

impl From<AllocError> for Fault {
    fn from(_: AllocError) -> Fault {
        Fault::Memory
    }
}

impl From<StreamFault> for Fault {
    fn from(_: StreamFault) -> Fault {
        Fault::Written
    }
}
