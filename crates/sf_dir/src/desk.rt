//! Desks, which resolve keys. What a desk has seen is the view of its seat at the table, never a field of its own.
ghost use Rattle.std.specs.Prelude.{◌≡◌};

use crate::rule::View;
use atomic_table::Seat;
use std::marker::Model;

/// One who resolves keys, in one thread at a time. What it has seen of the directory's names only grows.
#[derive(Drop)]
pub struct Desk {
    pub(crate) seat: Seat<u8, View>,
    pub(crate) number: u32,
    pub(crate) spare: Option<u64>,
}

impl Model for Desk {
    ghost use Rattle.sf_dir.specs.Known.{DeskState, IsDesk, desk_state};

    ghost Value = { DeskState };

    ghost view = { λ d. desk_state d.seat.table_id d.seat.me.0 d.number };

    ghost invariant = { λ d. IsDesk d.number d.spare d.seat.me.0 };
}

impl Desk {
    /// The desk's number, from 1.
    pub fn number(&self) -> u32
        ensures { result ≡ self.now.number }
    {
        self.number
    }
}
