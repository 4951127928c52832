//! Why a loader gave no value.

use bytes::ByteStr;
use std::error::Error;
use std::fmt;

// What is said of want of memory.
const MEMORY_TEXT: &str = "out of memory";

/// Why a peer gave no value.
#[derive(Debug, Drop)]
pub enum PeerFault {
    /// It failed, for the reason that the text gives.
    Failed(ByteStr),
    /// Memory was refused; this case needs none.
    Memory,
}

impl fmt::Display for PeerFault {
    ghost use Rattle.std.specs.Prelude.{Some};
    ghost use Rattle.sf_loaders.specs.FaultText.{peer_text};

    ghost output = { λ fault. Some (peer_text fault) };

    fn fmt<W: fmt::Write>(&self, f: &mut fmt::Formatter<W>) -> fmt::Result {
        match self {
            PeerFault::Failed(text) => f.write_str(text.as_str()),
            PeerFault::Memory => f.write_str(MEMORY_TEXT),
        }
    }
}

impl Error for PeerFault {}

/// Why the local getter gave no value.
#[derive(Debug, Drop)]
pub enum LocalFault {
    /// It failed, for the reason that the text gives.
    Failed(ByteStr),
    /// Memory was refused; this case needs none.
    Memory,
}

impl fmt::Display for LocalFault {
    ghost use Rattle.std.specs.Prelude.{Some};
    ghost use Rattle.sf_loaders.specs.FaultText.{local_text};

    ghost output = { λ fault. Some (local_text fault) };

    fn fmt<W: fmt::Write>(&self, f: &mut fmt::Formatter<W>) -> fmt::Result {
        match self {
            LocalFault::Failed(text) => f.write_str(text.as_str()),
            LocalFault::Memory => f.write_str(MEMORY_TEXT),
        }
    }
}

impl Error for LocalFault {}
