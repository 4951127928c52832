//! Why a getter gives no value.
ghost use Rattle.std.specs.Prelude.{◌≡◌};
ghost use Rattle.sf_fill_values.specs.Answers.{refusal_of};

use bytes::ByteStr;
use sf_dir::Refusal;
use std::error::Error;
use std::fmt;

/// Why a get answers no value, or a reload forgets nothing.
#[derive(Debug, Drop)]
pub enum LoadFault {
    /// The key is refused, or no generation or no count is left.
    Refused(GetRefusal),
    /// The letter says that the local getter failed, for the reason that the text gives.
    Local(ByteStr),
    /// Memory was refused to this getter: for its key, for the letter, or for what it owes.
    Memory,
    /// The letter says that memory was refused to the one that led and loaded.
    LeaderMemory,
}

/// Why a get is refused.
#[derive(Clone, Copy, Debug, PartialEq, Eq, Drop)]
pub enum GetRefusal {
    /// The key is longer than the directory's keys may be.
    KeyTooLong,
    /// Each place has another key.
    Full,
    /// The getter's caller has used its last generation, or its Gets stand at the greatest `u64`.
    Spent,
}

impl fmt::Display for LoadFault {
    ghost use Rattle.std.specs.Prelude.{Some};
    ghost use Rattle.sf_fill_values.specs.FaultText.{fault_text};

    ghost output = { λ fault. Some (fault_text fault) };

    fn fmt<W: fmt::Write>(&self, f: &mut fmt::Formatter<W>) -> fmt::Result {
        match self {
            LoadFault::Refused(refusal) => write!(f, "{refusal}"),
            LoadFault::Local(text) => f.write_str(text.as_str()),
            LoadFault::Memory => f.write_str("out of memory"),
            LoadFault::LeaderMemory => f.write_str("out of memory in the load"),
        }
    }
}

impl Error for LoadFault {}

impl fmt::Display for GetRefusal {
    ghost use Rattle.std.specs.Prelude.{Some};
    ghost use Rattle.sf_fill_values.specs.FaultText.{refusal_text};

    ghost output = { λ refusal. Some (refusal_text refusal) };

    fn fmt<W: fmt::Write>(&self, f: &mut fmt::Formatter<W>) -> fmt::Result {
        f.write_str(match self {
            GetRefusal::KeyTooLong => "key too long",
            GetRefusal::Full => "directory full",
            GetRefusal::Spent => "spent",
        })
    }
}

impl Error for GetRefusal {}

/// The fault of a key that is refused.
pub fn of_key(refusal: Refusal) -> LoadFault
    ensures { result ≡ refusal_of refusal }
{
    match refusal {
        Refusal::KeyTooLong => LoadFault::Refused(GetRefusal::KeyTooLong),
        Refusal::Full => LoadFault::Refused(GetRefusal::Full),
    }
}
