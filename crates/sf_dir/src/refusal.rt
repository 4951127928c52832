//! Why a key is not resolved.
use thiserror::Error;

/// Why a key got no place: it is too long, or each place has another key.
#[derive(Clone, Copy, Debug, PartialEq, Eq, Error)]
pub enum Refusal {
    /// The key is longer than the directory's keys may be.
    #[error("key too long")]
    KeyTooLong,
    /// Each place has another key.
    #[error("directory full")]
    Full,
}
