//! Loads by which a seat comes to know what another knows. They change no word and are no turns.
ghost use Rattle.std.specs.Prelude.{◌≡◌, [], Some};
ghost use Rattle.sf_steps_laws.specs.Schedules.{IsCaller};
ghost use Rattle.sf_group_steps.specs.View.{setting_of, both_of};
ghost use Rattle.sf_group_steps.specs.Stands.{IsSeatOf};
ghost use Rattle.sf_group_steps.specs.Plays.{Made};
ghost use Rattle.sf_group_steps.specs.Hears.{HasHeard};

use crate::numbering::call_index;
use crate::rule::{Tells, WordSeat, Words};
use crate::steps::load_turns;
use sf_group_rows::{Fit, Sizes};
use std::marker::Brand;

/// The seat takes in another, and then loads a caller's call word: so it knows all that happened.
pub fn take_in<V: Fit>(
    words: &Words<V>,
    seat: &mut WordSeat<V>,
    other: WordSeat<V>,
    sizes: Sizes,
    number: u32,
)
    requires own { IsSeatOf seat.old.table_id words.now.table_id words.now.key }
    requires other { (other.table_id ≡ words.now.table_id) × (other.me.1 ≡ []) }
    requires sizes { (sizes ≡ words.now.key) × (seat.old.me.0.sizes ≡ Some sizes) }
    requires cells { (seat.old.me.0.cells ≡ []) × (other.me.0.cells ≡ []) }
    requires number { IsCaller (setting_of sizes) number }
    ensures own { (seat.new.table_id ≡ seat.old.table_id) × (seat.new.me.1 ≡ seat.old.me.1) }
    ensures took { Made sizes (both_of seat.old.me.0 other.me.0) seat.new.me.0 [] }
{
    words.join_seat::<Tells>(seat, other);
    load_turns::<V, u32, Brand>(words, seat, call_index(sizes, number), number, &number);
}

/// The seat knows all that happened, and so also what a note shows.
pub fn hear_note<V: Fit>(
    words: &Words<V>,
    seat: &mut WordSeat<V>,
    note: &mut WordSeat<V>,
    sizes: Sizes,
    number: u32,
)
    requires own { IsSeatOf seat.old.table_id words.now.table_id words.now.key }
    requires note { note.old.table_id ≡ words.now.table_id }
    requires sizes { (sizes ≡ words.now.key) × (seat.old.me.0.sizes ≡ Some sizes) }
    requires told { (seat.old.me.0.told ≡ []) × (seat.old.me.0.cells ≡ []) }
    requires number { IsCaller (setting_of sizes) number }
    ensures own { (seat.new.table_id ≡ seat.old.table_id) × (seat.new.me.1 ≡ seat.old.me.1) }
    ensures heard { HasHeard sizes seat.old.me.0 note.old.me.0.known.turns seat.new.me.0 }
    ensures note { (note.new.table_id ≡ note.old.table_id) × (note.new.me ≡ note.old.me) }
{
    let again = words.split_seat::<Tells>(note);
    take_in(words, seat, again, sizes, number);
}
