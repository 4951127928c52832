//! What all handles and calls of a group share.

use sf_keyed_chain::KeyedChain;
use std::marker::Model;
use std::sync::atomic::AtomicU64;

/// The group, and how many handles were made. Contracts see the group.
#[derive(Drop)]
pub struct Shared {
    pub(crate) chain: KeyedChain,
    pub(crate) dealt: AtomicU64,
}

impl Model for Shared {
    ghost use Rattle.std.specs.Prelude.{List, ℕ};

    ghost Value = { List ℕ };

    ghost view = { λ s. s.chain };
}
