//! Places, which are the answers of a directory.
ghost use Rattle.std.specs.Prelude.{◌≡◌};

use crate::directory::Directory;
use crate::rule::{Shows, View};
use crate::steps::look;
use crate::word_index::NO_PLACE;
use atomic_table::Seat;
use sf_words::PlaceNo;
use std::marker::Model;

/// A key's place in a directory. Clauses see the directory, the place's number and the key.
#[derive(Drop)]
pub struct Place<'d> {
    pub(crate) directory: &'d Directory,
    pub(crate) seat: Seat<u8, View>,
    pub(crate) number: PlaceNo,
}

impl<'d> Model for Place<'d> {
    ghost use Rattle.sf_dir.specs.Known.{PlaceState, IsPlace, IsSeatOf, place_state};

    ghost Value = { PlaceState };

    ghost view = { λ p. place_state p.directory.now p.seat.me.0 p.number };

    ghost invariant = { λ p. IsPlace p.number p.seat.me.0
        × IsSeatOf p.directory.now p.seat.table_id p.seat.me.0 };
}

impl<'d> Place<'d> {
    /// The place's number.
    pub fn number(&self) -> PlaceNo
        ensures { result ≡ self.now.number }
    {
        self.number
    }

    /// Another one of the same place. It takes no memory and does not wait.
    pub fn again(&mut self) -> Place<'d>
        ensures same { result ≡ self.old }
        ensures kept { self.new ≡ self.old }
    {
        let directory = self.directory;
        let seat = directory.table.shared.split_seat::<Shows>(&mut self.seat);
        Place {
            directory,
            seat,
            number: self.number,
        }
    }

    /// Shows that two places of one directory with one number are of one key: this one is told what the other has
    /// seen. It takes no memory and does not wait.
    pub fn agree(&mut self, other: &mut Place<'_>)
        requires directory { self.old.directory ≡ other.old.directory }
        requires number { self.old.number ≡ other.old.number }
        ensures same { self.old.key ≡ other.old.key }
        ensures kept { (self.new ≡ self.old) × (other.new ≡ other.old) }
    {
        let directory = self.directory;
        let words = &directory.table.shared;
        let note = words.split_seat::<Shows>(&mut other.seat);
        words.join_seat::<Shows>(&mut self.seat, note);
        look(words, &mut self.seat, NO_PLACE);
    }
}
