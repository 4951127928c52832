//! The opening of a keyed group's table.
ghost use Rattle.std.specs.Prelude.{◌≡◌, ◌<◌, ◌^◌, [], IfOk};
ghost use Rattle.sf_keyed_words.specs.Rule.{word_total, first_view, note_of};
ghost use Rattle.sf_keyed_words.specs.Moves.{has_entered};
ghost use Rattle.sf_keyed_words.specs.Plays.{numbered};

use crate::rule::{Enters, KeyedSizes, Law, Numbers, Shares, View};
use crate::steps::{KeyedSeat, Words};
use atomic_table::Table;
use std::alloc::{AllocError as Memory, Global};

/// A table of free cells, with its first seat.
pub fn open(
    alloc: Global,
    sizes: KeyedSizes,
) -> Result<(Table<u8, View, KeyedSizes, Law, Global>, KeyedSeat), Memory>
    requires limits { word_total sizes < 2 ^ 60 }
    ensures laid { IfOk result (λ made. (made.0.shared.table_id.words ≡ word_total sizes) × (made.0.shared.key ≡ sizes)) }
    ensures own { IfOk result (λ made. made.1.table_id ≡ made.0.shared.table_id) }
    ensures seat { IfOk result (λ made. made.1.me.0 ≡ first_view sizes) }
{
    let total = sizes.tops + sizes.sides + 8 * sizes.cells;
    let words = Vec::from_elem(alloc, 0u64, total as usize)?;
    Table::<u8, View, KeyedSizes, Law, Global>::of_words(alloc, words.as_slice(), &sizes)
}

/// A new seat, which has seen what this one has.
pub fn share(words: &Words, seat: &mut KeyedSeat) -> KeyedSeat
    requires own { seat.old.table_id ≡ words.now.table_id }
    requires words { 0 < words.now.table_id.words }
    ensures own { (seat.new.table_id ≡ seat.old.table_id) × (result.table_id ≡ words.now.table_id) }
    ensures seat { seat.new.me.0 ≡ seat.old.me.0 }
    ensures new { result.me ≡ (note_of seat.old.me.0, []) }
{
    words.split_seat::<Shares>(seat)
}

/// The seat has this number from then on: its Forgets are by this caller.
pub fn number_as(words: &Words, seat: &mut KeyedSeat, number: u64)
    requires own { seat.old.table_id ≡ words.now.table_id }
    requires words { 0 < words.now.table_id.words }
    ensures own { seat.new.table_id ≡ seat.old.table_id }
    ensures view { seat.new.me.0 ≡ numbered seat.old.me.0 number }
{
    words.compare_exchange::<Numbers>(seat, 0, number, number);
}

/// A new seat, which has seen all that has happened.
pub fn enter(words: &Words) -> KeyedSeat
    requires words { 0 < words.now.table_id.words }
    ensures own { (result.table_id ≡ words.now.table_id) × (result.me.1 ≡ []) }
    ensures view { has_entered (first_view words.now.key) result.me.0 }
{
    let (_, seat) = words.load_new_seat::<Enters>(0);
    seat
}
