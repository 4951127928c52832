//! The kinds of step on the table: a look at a place or at a row (a load), a draw (a fetch and add on the counter), a
//! write (a store in the spare row) and a publish (an exchange on a place). Each is one step on one word.
ghost use Rattle.std.specs.Prelude.{◌≡◌, ℕ, ◌+◌, ◌<◌, List, None};
ghost use Rattle.sf_dir.specs.WordIndex.{counter_at, row_count};
ghost use Rattle.sf_dir.specs.Plays.{Looked, Drew, Wrote, Tried};
ghost use Rattle.sf_dir.specs.Walk.{IsOwnSeat, IsLaidOut, MayWrite, MayPublish};

use crate::rule::{DirectorySizes, Draws, Law, Looks, Publishes, View, Writes};
use crate::word_index::EMPTY;
use atomic_table::{Seat, Shared};

// How far a draw moves the counter.
const ONE_ROW: u64 = 1;

pub(crate) type Words = Shared<u8, View, DirectorySizes, Law>;

pub(crate) type DeskSeat = Seat<u8, View>;

/// Loads a word.
pub(crate) fn look(words: &Words, seat: &mut DeskSeat, word: u64) -> u64
    requires own { IsOwnSeat words.now seat.old }
    requires word { word < words.now.table_id.words }
    ensures own { seat.new.table_id ≡ seat.old.table_id }
    ensures looked { Looked words.now.key word seat.old.me.0 result seat.new.me.0 }
{
    words.load::<Looks>(seat, word as usize)
}

/// Draws the next row, for the desk of a seat that has no spare one.
pub(crate) fn draw(words: &Words, seat: &mut DeskSeat, counter: u64) -> u64
    requires own { IsOwnSeat words.now seat.old }
    requires limits { IsLaidOut words.now.key words.now.table_id words.now.key }
    requires counter { counter ≡ counter_at words.now.key }
    requires free { (seat.old.me.0.to ≡ seat.old.me.0.from + 1) × (seat.old.me.0.spare ≡ None) }
    ensures own { seat.new.table_id ≡ seat.old.table_id }
    ensures drew { Drew words.now.key seat.old.me.0 result seat.new.me.0 }
{
    words.fetch_add::<Draws>(seat, counter as usize, ONE_ROW)
}

/// Stores a word of the seat's spare row, at the end of those that are written or over one of them.
pub(crate) fn write(words: &Words, seat: &mut DeskSeat, word: u64, value: u64)
    requires own { IsOwnSeat words.now seat.old }
    requires word { word < words.now.table_id.words }
    requires spare { MayWrite words.now.key seat.old.me.0 word }
    ensures own { seat.new.table_id ≡ seat.old.table_id }
    ensures wrote { Wrote words.now.key word seat.old.me.0 value seat.new.me.0 }
{
    words.store::<Writes>(seat, word as usize, value)
}

/// Publishes the seat's spare row at a place, if that is empty. Returns 0 if so, else what stands there.
pub(crate) fn publish(words: &Words, seat: &mut DeskSeat, place: u64, row: u64) -> u64
    requires own { IsOwnSeat words.now seat.old }
    requires limits { IsLaidOut words.now.key words.now.table_id words.now.key }
    requires row { row < row_count words.now.key }
    requires may { (key : List ℕ) × MayPublish words.now.key seat.old.me.0 place row key }
    ensures own { seat.new.table_id ≡ seat.old.table_id }
    ensures tried { Tried words.now.key place seat.old.me.0 result seat.new.me.0 }
{
    words.compare_exchange::<Publishes>(seat, place as usize, EMPTY, row + 1)
}
