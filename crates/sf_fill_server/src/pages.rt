//! Where the pages come from: a version that changes.

use bytes::Bytes;
use sf_history::CallId;
use sf_loaders::scripted::{AnyValue, FixedPicker, RoundChance};
use sf_loaders::{Loaders, Local, LocalFault, Peer, PeerFault};
use std::sync::atomic::{AtomicBool, Ordering};

/// The pages' origin.
#[derive(Drop)]
pub struct Pages {
    changed: AtomicBool,
}

impl Pages {
    /// Pages of the first version.
    pub fn new() -> Pages {
        Pages {
            changed: AtomicBool::new(false),
        }
    }

    /// From now on, loads give the second version.
    pub fn change(&self) {
        self.changed.store(true, Ordering::SeqCst);
    }
}

/// Loads pages in this process.
#[derive(Clone, Copy)]
pub struct Disk<'a> {
    pages: &'a Pages,
}

impl<'a> Local for Disk<'a> {
    type Origin = AnyValue;

    ghost use Rattle.std.specs.Prelude.{⊤};

    ghost load_gives = { λ old key call answer new. ⊤ };

    fn load(&mut self, _key: &[u8], _call: CallId) -> Result<Bytes, LocalFault> {
        if self.pages.changed.load(Ordering::SeqCst) {
            Ok(Bytes::from("version 2"))
        } else {
            Ok(Bytes::from("version 1"))
        }
    }
}

/// There are no peers.
#[derive(Clone, Copy)]
pub struct NoPeer;

impl Peer for NoPeer {
    type Origin = AnyValue;

    ghost use Rattle.std.specs.Prelude.{⊤};

    ghost fetch_gives = { λ old peer key call answer new. ⊤ };

    fn fetch(&mut self, _peer: u32, _key: &[u8], _call: CallId) -> Result<Bytes, PeerFault> {
        Err(PeerFault::Memory)
    }
}

/// The loaders of one getter.
pub fn loaders<'a>(pages: &'a Pages) -> Loaders<FixedPicker, NoPeer, Disk<'a>, RoundChance> {
    Loaders::new(
        FixedPicker::new(None),
        NoPeer,
        Disk { pages },
        RoundChance::default(),
    )
}
