//! Known bytes of a key, as a load path.
ghost use Rattle.std.specs.Prelude.{◌≡◌, Some, is_some};
ghost use Rattle.sf_history.specs.declared.call.CallId.{CallId};

use crate::counts::{Counts, Source};
use crate::faults::LocalFault;
use crate::load_path::LoadPath;
use crate::traits::Origin;
use bytes::{ByteStr, Bytes};
use sf_history::CallId;
use std::marker::{Model, PhantomData};

/// A key's known bytes, which are given to the first run of its load path.
#[derive(Drop)]
pub struct Given<'k, O: Origin> {
    key: &'k [u8],
    bytes: Option<Bytes>,
    of: PhantomData<O>,
}

impl<'k, O: Origin> Model for Given<'k, O> {
    ghost use Rattle.std.specs.Prelude.{IfSome};
    ghost use Rattle.sf_history.specs.declared.call.CallId.{CallId};
    ghost use Rattle.sf_loaders.specs.Given.{KnownBytes};

    ghost Value = { KnownBytes };

    ghost view = { λ g. record { key = g.key.now; bytes = g.bytes } };

    ghost invariant = { λ g.
        IfSome g.bytes (λ bytes. (call : CallId) → O.loaded g.key.now call bytes) };
}

impl<'k, O: Origin> Given<'k, O> {
    /// The key's bytes, of which the origin states whatever run is said to have loaded them.
    pub fn new(key: &'k [u8], bytes: Bytes) -> Self
        requires stated { (call : CallId) → O.loaded key.now call bytes }
        ensures { result ≡ record { key = key.now; bytes = Some bytes } }
    {
        Given {
            key,
            bytes: Some(bytes),
            of: PhantomData,
        }
    }

    /// Whether no run was given them.
    pub fn is_left(&self) -> bool
        ensures { result ≡ is_some self.now.bytes }
    {
        self.bytes.is_some()
    }
}

impl<'k, O: Origin> LoadPath for Given<'k, O> {
    type Origin = O;

    ghost use Rattle.sf_loaders.specs.Given.{GivesKnown};

    ghost run_gives = { GivesKnown };

    ghost draw_gives = { λ old draw new. new ≡ old };

    fn run(&mut self, key: &[u8], _call: CallId) -> (Result<(Bytes, Source), LocalFault>, Counts) {
        let counts = Counts {
            loads_deduped: 1,
            ..Counts::default()
        };
        if self.key == key {
            if let Some(bytes) = self.bytes.take() {
                let given = Counts {
                    local_loads: 1,
                    ..counts
                };
                return (Ok((bytes, Source::Local)), given);
            }
        }
        let failed = Counts {
            local_load_errors: 1,
            ..counts
        };
        (
            Err(LocalFault::Failed(ByteStr::from("no known bytes"))),
            failed,
        )
    }

    fn draw(&mut self) -> u32 {
        0
    }
}
