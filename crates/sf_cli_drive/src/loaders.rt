//! The loaders of a drive: the value of a key is `v:` and the key.
ghost use Rattle.std.specs.Prelude.{◌≡◌, IfOk};
ghost use Rattle.sf_cli_drive.specs.Values.{value_of};

use bytes::{ByteStr, Bytes};
use sf_history::CallId;
use sf_loaders::{Local, LocalFault, Origin, Peer, PeerFault, Picker};
use std::alloc::{AllocError, Global};

/// Where a drive's values come from.
pub(crate) struct Values;

impl Origin for Values {
    ghost use Rattle.std.specs.Prelude.{◌≡◌};
    ghost use Rattle.sf_cli_drive.specs.Values.{value_of};

    ghost loaded = { λ key call value. value ≡ value_of key };
}

// The value of the key.
fn value(alloc: Global, key: &[u8]) -> Result<Bytes, AllocError>
    ensures { IfOk result (λ value. value ≡ value_of key.now) }
{
    let mut bytes = Vec::from_slice(alloc, b"v:")?;
    bytes.extend_from_slice(key)?;
    Ok(Bytes::from_vec(bytes)?)
}

/// Names peer 0 for the keys whose number is odd.
#[derive(Clone, Copy)]
pub(crate) struct OddPicker;

impl Picker for OddPicker {
    ghost use Rattle.std.specs.Prelude.{◌≡◌};
    ghost use Rattle.sf_cli_drive.specs.Values.{owner_of};

    ghost pick_gives = { λ old key picked new. picked ≡ owner_of key };

    fn pick(&mut self, key: &[u8]) -> Option<u32> {
        match key.last() {
            Some(digit) if digit % 2 == 1 => Some(0),
            _ => None,
        }
    }
}

/// A peer that fails at its third fetch, at its sixth, and so on.
#[derive(Clone, Copy)]
pub(crate) struct ThirdFails {
    pub(crate) alloc: Global,
    pub(crate) fetched: u64,
}

impl Peer for ThirdFails {
    type Origin = Values;

    ghost use Rattle.sf_cli_drive.specs.Values.{IsFetchOf};

    ghost fetch_gives = { λ old peer key call answer new.
        IsFetchOf old.fetched key answer new.fetched };

    fn fetch(&mut self, _peer: u32, key: &[u8], _call: CallId) -> Result<Bytes, PeerFault> {
        self.fetched = self.fetched.wrapping_add(1);
        if self.fetched % 3 == 0 {
            return Err(PeerFault::Failed(ByteStr::from("each third fetch fails")));
        }
        match value(self.alloc, key) {
            Ok(value) => Ok(value),
            Err(AllocError) => Err(PeerFault::Memory),
        }
    }
}

/// A local getter that never fails, but where memory is refused.
#[derive(Clone, Copy)]
pub(crate) struct AnyKey {
    pub(crate) alloc: Global,
}

impl Local for AnyKey {
    type Origin = Values;

    ghost use Rattle.sf_cli_drive.specs.Values.{IsLoadFor};

    ghost load_gives = { λ old key call answer new. IsLoadFor key answer };

    fn load(&mut self, key: &[u8], _call: CallId) -> Result<Bytes, LocalFault> {
        match value(self.alloc, key) {
            Ok(value) => Ok(value),
            Err(AllocError) => Err(LocalFault::Memory),
        }
    }
}
