//! Notes, which show what somebody has seen.
ghost use Rattle.std.specs.Prelude.{◌≡◌};

use sf_group_steps::WordSeat;
use std::marker::Model;

/// A list of events that somebody has seen. It stands for no caller, and what it shows only grows.
#[derive(Drop)]
pub struct Note<V> {
    pub(crate) seat: WordSeat<V>,
}

impl<V> Model for Note<V> {
    ghost use Rattle.std.specs.Prelude.{◌≡◌, []};
    ghost use Rattle.sf_group.specs.Known.{IsNote, note_value};
    ghost use Rattle.sf_group_rows.specs.Tokens.{NoteValue};

    ghost Value = { NoteValue V };

    ghost view = { λ n. note_value n.seat.table_id n.seat.me.0 };

    ghost invariant = { λ n. IsNote n.seat.me.0 × (n.seat.me.1 ≡ []) };
}
