//! The load path.

ghost use Rattle.std.specs.Prelude.{◌≡◌, ◌<◌, ℕ, List, None, IfOk};
ghost use Rattle.sf_history.specs.declared.call.CallId.{CallId};
ghost use Rattle.sf_loaders.specs.LoadPath.{IsLoadOf, IsOfOneRun, LoadAnswer};

use crate::counts::{Counts, Source};
use crate::faults::{LocalFault, PeerFault};
use crate::traits::{Chance, Local, Origin, Peer, Picker};
use bytes::Bytes;
use sf_history::CallId;

/// A set of loaders: what one getter of a fill asks for its values.
#[derive(Drop)]
pub struct Loaders<P, F, L, C> {
    /// Names the peer to ask.
    pub picker: P,
    /// Fetches from a peer.
    pub peer: F,
    /// Loads in this process.
    pub local: L,
    /// Draws which of the peers' values are kept; a load draws nothing.
    pub chance: C,
    /// Why the last fetch from a peer failed that did; a load goes on with the local getter then.
    pub peer_fault: Option<PeerFault>,
}

impl<P, F, L, C> Loaders<P, F, L, C> {
    /// A set of loaders, of which no peer has failed yet.
    pub fn new(picker: P, peer: F, local: L, chance: C) -> Self
        ensures { result ≡ record {
          picker = picker;
          peer = peer;
          local = local;
          chance = chance;
          peer_fault = None;
        } }
    {
        Loaders {
            picker,
            peer,
            local,
            chance,
            peer_fault: None,
        }
    }
}

/// Loads the key's value for the run of the call, and says what that adds to the counters.
///
/// A fault of the peer, want of memory too, is counted and kept in `peer_fault`, and falls through to the local getter; one of
/// the local getter is the result. (groupcache drops the peer's fault.)
pub fn load_once<P, F, L, C, O>(
    loaders: &mut Loaders<P, F, L, C>,
    key: &[u8],
    call: CallId,
) -> (Result<(Bytes, Source), LocalFault>, Counts)
where
    P: Picker,
    F: Peer<Origin = O>,
    L: Local<Origin = O>,
    O: Origin,
    ensures path { IsLoadOf P.pick_gives F.fetch_gives L.load_gives
        key.now call loaders.old result loaders.new }
    ensures loaded { IfOk result.0 (λ found. O.loaded key.now call found.0) }
    ensures counts { IsOfOneRun result.1 }
    ensures undrawn { loaders.new.chance ≡ loaders.old.chance }
{
    let mut counts = Counts {
        loads_deduped: 1,
        ..Counts::default()
    };
    if let Some(peer) = loaders.picker.pick(key) {
        match loaders.peer.fetch(peer, key, call) {
            Ok(value) => {
                counts.peer_loads = 1;
                return (Ok((value, Source::Peer)), counts);
            }
            Err(fault) => {
                counts.peer_errors = 1;
                loaders.peer_fault = Some(fault);
            }
        }
    }
    match loaders.local.load(key, call) {
        Ok(value) => {
            counts.local_loads = 1;
            (Ok((value, Source::Local)), counts)
        }
        Err(fault) => {
            counts.local_load_errors = 1;
            (Err(fault), counts)
        }
    }
}

/// What one getter of a fill asks for its values, as one: [`Loaders`], or what stands for them.
pub trait LoadPath {
    /// What is stated of its values.
    type Origin: Origin;

    /// The key, the call of the run, the path before it, what comes of it, and the path after.
    ghost run_gives: { List ℕ → CallId → Self → LoadAnswer → Self → Type 0 };

    /// The path before a draw, the draw, and the path after.
    ghost draw_gives: { Self → ℕ → Self → Type 0 };

    /// Loads the key's value for the run of the call, and says what that adds to the counters.
    fn run(&mut self, key: &[u8], call: CallId) -> (Result<(Bytes, Source), LocalFault>, Counts)
        ensures gives { run_gives key.now call self.old result self.new }
        ensures loaded { IfOk result.0 (λ found. Self.Origin.loaded key.now call found.0) }
        ensures counts { IsOfOneRun result.1 };

    /// A draw, 0 to 9, for the one in ten of the peers' values that are kept.
    fn draw(&mut self) -> u32
        ensures below_ten { result < 10 }
        ensures gives { draw_gives self.old result self.new };
}

impl<P: Picker, F: Peer, L: Local<Origin = F::Origin>, C: Chance> LoadPath for Loaders<P, F, L, C> {
    type Origin = F::Origin;

    ghost use Rattle.std.specs.Prelude.{◌≡◌};
    ghost use Rattle.sf_loaders.specs.LoadPath.{IsLoadOf};

    ghost run_gives = { λ key call old answer new.
        IsLoadOf P.pick_gives F.fetch_gives L.load_gives key call old answer new
        × (new.chance ≡ old.chance) };

    ghost draw_gives = { λ old draw new. C.draw_gives old.chance draw new.chance
        × (new ≡ record old { chance = new.chance }) };

    fn run(&mut self, key: &[u8], call: CallId) -> (Result<(Bytes, Source), LocalFault>, Counts) {
        load_once(self, key, call)
    }

    fn draw(&mut self) -> u32 {
        self.chance.draw()
    }
}
