//! The loaders that a fill is handed, and what their makers state of them.
//!
//! What a loader answers is stated as a relation between its state before the asking, what it was asked, its answer
//! and its state after. So a caller's contract can say that a loader was asked once and answered this.

ghost use Rattle.std.specs.Prelude.{◌<◌, ℕ, List, Option, Result, IfOk};
ghost use Rattle.sf_history.specs.declared.call.CallId.{CallId};
ghost use Rattle.sf_loaders.specs.declared.faults.PeerFault.{PeerFault};
ghost use Rattle.sf_loaders.specs.declared.faults.LocalFault.{LocalFault};

use crate::faults::{LocalFault, PeerFault};
use bytes::Bytes;
use sf_history::CallId;

/// Where a set of loaders gets its values: what their makers state of each value, whichever of them gave it.
pub trait Origin {
    /// The value is one for the key that the run of the call loaded.
    ghost loaded: { List ℕ → CallId → List ℕ → Type 0 };
}

/// Names the peer that is to be asked for a key.
pub trait Picker {
    /// The picker before, the key, the peer that it named, and the picker after.
    ghost pick_gives: { Self → List ℕ → Option ℕ → Self → Type 0 };

    /// The number of the peer to ask for the key; none where the local getter is to be asked.
    fn pick(&mut self, key: &[u8]) -> Option<u32>
        ensures { pick_gives self.old key.now result self.new };
}

/// Fetches values from peers.
pub trait Peer {
    /// What is stated of its values.
    type Origin: Origin;

    /// The fetcher before, the peer, the key, the call, the answer, and the fetcher after.
    ghost fetch_gives: { Self → ℕ → List ℕ → CallId → Result (List ℕ) PeerFault → Self → Type 0 };

    /// Asks the peer for the key's value, for the run of the call.
    fn fetch(&mut self, peer: u32, key: &[u8], call: CallId) -> Result<Bytes, PeerFault>
        ensures gives { fetch_gives self.old peer key.now call result self.new }
        ensures loaded { IfOk result (λ value. Self.Origin.loaded key.now call value) };
}

/// Loads values in this process: groupcache's getter.
pub trait Local {
    /// What is stated of its values.
    type Origin: Origin;

    /// The getter before, the key, the call, the answer, and the getter after.
    ghost load_gives: { Self → List ℕ → CallId → Result (List ℕ) LocalFault → Self → Type 0 };

    /// Loads the key's value, for the run of the call.
    fn load(&mut self, key: &[u8], call: CallId) -> Result<Bytes, LocalFault>
        ensures gives { load_gives self.old key.now call result self.new }
        ensures loaded { IfOk result (λ value. Self.Origin.loaded key.now call value) };
}

/// Draws for the one in ten of the peers' values that are kept.
pub trait Chance {
    /// The source of chance before, its draw, and the source after.
    ghost draw_gives: { Self → ℕ → Self → Type 0 };

    /// A draw, 0 to 9.
    fn draw(&mut self) -> u32
        ensures below_ten { result < 10 }
        ensures gives { draw_gives self.old result self.new };
}
