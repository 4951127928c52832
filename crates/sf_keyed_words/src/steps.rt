//! The steps on the table, each on one word, and what they leave of the seat's view.
ghost use Rattle.std.specs.Prelude.{◌≡◌, ◌≢◌, ℕ, ◌+◌, ◌*◌, ◌/◌, ◌%◌, ◌<◌, ◌≤◌, true};
ghost use Rattle.sf_keyed_words.specs.Rule.{word_total, is_open_word, joined_bit, ready_word, sides_from, slot_of, Unmet};
ghost use Rattle.sf_keyed_words.specs.Plays.{look_cell as the_look_cell};
ghost use Rattle.sf_keyed_words.specs.Plays.{walks_from, walks_on, see_state, confirms, read_low, read_high, begun_as, named_as, stored_as, try_claim, tries_lead, try_aside, tries_seal, tries_join, settles, tries_alone, tries_close, finds_none, look_settled, takes, takes_last, lets_go, given_back};

use crate::rule::{
    Begins, Claims, Closes, Confirms, FindsHigh, FindsLow, FindsNone, GivesBack, Joins, KeyedSizes,
    Law, Leads, Lets, LooksAside, LooksAtCell, LooksAtTop, Names, Reads, ReadsLow, Seals, Sees,
    SetsAside, Settles, SettlesAlone, Stores, Takes, TakesLast, View, Waits,
};
use atomic_table::{Seat, Shared};

pub type Words = Shared<u8, View, KeyedSizes, Law>;

pub type KeyedSeat = Seat<u8, View>;

/// Loads the top word of a slot, where a walk begins.
pub fn look_top(words: &Words, seat: &mut KeyedSeat, slot: u64) -> u64
    requires own { seat.old.table_id ≡ words.now.table_id }
    requires size { words.now.table_id.words ≡ word_total words.now.key }
    requires sizes { seat.old.me.0.sizes ≡ words.now.key }
    requires slot { slot < words.now.key.tops }
    ensures own { seat.new.table_id ≡ seat.old.table_id }
    ensures view { walks_from seat.old.me.0 slot result seat.new.me.0 }
{
    words.load::<LooksAtTop>(seat, slot as usize)
}

/// Loads the next side word.
pub fn look_side(words: &Words, seat: &mut KeyedSeat, at: u64) -> u64
    requires own { seat.old.table_id ≡ words.now.table_id }
    requires size { words.now.table_id.words ≡ word_total words.now.key }
    requires sizes { seat.old.me.0.sizes ≡ words.now.key }
    requires walks { (seat.old.me.0.walks ≡ true) × (seat.old.me.0.clear ≡ true) × (seat.old.me.0.looked < 16) }
    requires at { (at ≡ words.now.key.tops + (sides_from seat.old.me.0.slot + seat.old.me.0.looked)) × (sides_from seat.old.me.0.slot + seat.old.me.0.looked < words.now.key.sides) }
    ensures own { seat.new.table_id ≡ seat.old.table_id }
    ensures view { walks_on seat.old.me.0 result seat.new.me.0 }
{
    words.load::<LooksAside>(seat, at as usize)
}

/// Loads the state of the call that is looked at.
pub fn see(words: &Words, seat: &mut KeyedSeat, at: u64) -> u64
    requires own { seat.old.table_id ≡ words.now.table_id }
    requires size { words.now.table_id.words ≡ word_total words.now.key }
    requires at { (at ≡ words.now.key.tops + words.now.key.sides + 8 * (seat.old.me.0.but % 1048576)) × (seat.old.me.0.but % 1048576 < words.now.key.cells) }
    ensures own { seat.new.table_id ≡ seat.old.table_id }
    ensures view { seat.new.me.0 ≡ see_state seat.old.me.0 result }
{
    words.load::<Sees>(seat, at as usize)
}

/// Loads that state again, after the name: where the call is open still, it is the open call of the name.
pub fn confirm(words: &Words, seat: &mut KeyedSeat, at: u64) -> u64
    requires own { seat.old.table_id ≡ words.now.table_id }
    requires size { words.now.table_id.words ≡ word_total words.now.key }
    requires at { (at ≡ words.now.key.tops + words.now.key.sides + 8 * (seat.old.me.0.but % 1048576)) × (seat.old.me.0.but % 1048576 < words.now.key.cells) }
    requires told { seat.old.me.0.told ≡ true }
    ensures own { seat.new.table_id ≡ seat.old.table_id }
    ensures view { confirms seat.old.me.0 result seat.new.me.0 }
{
    words.load::<Confirms>(seat, at as usize)
}

/// Loads the state of the cell that is to be claimed.
pub fn look_cell(words: &Words, seat: &mut KeyedSeat, at: u64) -> u64
    requires own { seat.old.table_id ≡ words.now.table_id }
    requires size { words.now.table_id.words ≡ word_total words.now.key }
    requires at { at < words.now.table_id.words }
    ensures own { seat.new.table_id ≡ seat.old.table_id }
    ensures view { seat.new.me.0 ≡ the_look_cell seat.old.me.0 at result }
{
    words.load::<LooksAtCell>(seat, at as usize)
}

/// Loads the lower word of the name of the call that is looked at.
pub fn read_low(words: &Words, seat: &mut KeyedSeat, at: u64) -> u64
    requires own { seat.old.table_id ≡ words.now.table_id }
    requires size { words.now.table_id.words ≡ word_total words.now.key }
    requires at { (at ≡ words.now.key.tops + words.now.key.sides + 8 * (seat.old.me.0.but % 1048576) + 1) × (seat.old.me.0.but % 1048576 < words.now.key.cells) }
    ensures own { seat.new.table_id ≡ seat.old.table_id }
    ensures view { seat.new.me.0 ≡ read_low seat.old.me.0 result }
{
    words.load::<ReadsLow>(seat, at as usize)
}

/// Loads the upper word, after the lower one.
pub fn read(words: &Words, seat: &mut KeyedSeat, at: u64) -> u64
    requires own { seat.old.table_id ≡ words.now.table_id }
    requires size { words.now.table_id.words ≡ word_total words.now.key }
    requires at { (at ≡ words.now.key.tops + words.now.key.sides + 8 * (seat.old.me.0.but % 1048576) + 2) × (seat.old.me.0.but % 1048576 < words.now.key.cells) }
    requires half { seat.old.me.0.half ≡ true }
    ensures own { seat.new.table_id ≡ seat.old.table_id }
    ensures view { seat.new.me.0 ≡ read_high seat.old.me.0 result }
{
    words.load::<Reads>(seat, at as usize)
}

/// Stores the lower word of the name of the seat's own call.
pub fn store_low(words: &Words, seat: &mut KeyedSeat, at: u64, low: u64)
    requires own { seat.old.table_id ≡ words.now.table_id }
    requires size { words.now.table_id.words ≡ word_total words.now.key }
    requires at { (at ≡ words.now.key.tops + words.now.key.sides + 8 * (seat.old.me.0.own % 1048576) + 1) × (seat.old.me.0.own % 1048576 < words.now.key.cells) }
    requires call { seat.old.me.0.own ≢ 0 }
    ensures own { seat.new.table_id ≡ seat.old.table_id }
    ensures view { seat.new.me.0 ≡ begun_as seat.old.me.0 low }
{
    words.store::<Begins>(seat, at as usize, low);
}

/// Stores the upper word, after the lower one.
pub fn store_high(words: &Words, seat: &mut KeyedSeat, at: u64, high: u64)
    requires own { seat.old.table_id ≡ words.now.table_id }
    requires size { words.now.table_id.words ≡ word_total words.now.key }
    requires at { (at ≡ words.now.key.tops + words.now.key.sides + 8 * (seat.old.me.0.own % 1048576) + 2) × (seat.old.me.0.own % 1048576 < words.now.key.cells) }
    requires call { (seat.old.me.0.own ≢ 0) × (seat.old.me.0.first ≡ true) }
    ensures own { seat.new.table_id ≡ seat.old.table_id }
    ensures view { seat.new.me.0 ≡ named_as seat.old.me.0 high }
{
    words.store::<Names>(seat, at as usize, high);
}

/// Loads the lower word of a name that the cell of the seat's own call has, from a call before.
pub fn find_low(words: &Words, seat: &mut KeyedSeat, at: u64) -> u64
    requires own { seat.old.table_id ≡ words.now.table_id }
    requires size { words.now.table_id.words ≡ word_total words.now.key }
    requires at { (at ≡ words.now.key.tops + words.now.key.sides + 8 * (seat.old.me.0.own % 1048576) + 1) × (seat.old.me.0.own % 1048576 < words.now.key.cells) }
    requires call { seat.old.me.0.own ≢ 0 }
    ensures own { seat.new.table_id ≡ seat.old.table_id }
    ensures view { seat.new.me.0 ≡ begun_as seat.old.me.0 result }
{
    words.load::<FindsLow>(seat, at as usize)
}

/// Loads the upper word, after the lower one.
pub fn find_high(words: &Words, seat: &mut KeyedSeat, at: u64) -> u64
    requires own { seat.old.table_id ≡ words.now.table_id }
    requires size { words.now.table_id.words ≡ word_total words.now.key }
    requires at { (at ≡ words.now.key.tops + words.now.key.sides + 8 * (seat.old.me.0.own % 1048576) + 2) × (seat.old.me.0.own % 1048576 < words.now.key.cells) }
    requires call { (seat.old.me.0.own ≢ 0) × (seat.old.me.0.first ≡ true) }
    ensures own { seat.new.table_id ≡ seat.old.table_id }
    ensures view { seat.new.me.0 ≡ named_as seat.old.me.0 result }
{
    words.load::<FindsHigh>(seat, at as usize)
}

/// Stores the value of the call that the seat leads.
pub fn store_value(words: &Words, seat: &mut KeyedSeat, at: u64, value: u64)
    requires own { seat.old.table_id ≡ words.now.table_id }
    requires size { words.now.table_id.words ≡ word_total words.now.key }
    requires at { (at ≡ words.now.key.tops + words.now.key.sides + 8 * (seat.old.me.0.leads % 1048576) + 3) × (seat.old.me.0.leads % 1048576 < words.now.key.cells) }
    requires call { seat.old.me.0.leads ≢ 0 }
    ensures own { seat.new.table_id ≡ seat.old.table_id }
    ensures view { seat.new.me.0 ≡ stored_as seat.old.me.0 value }
{
    words.store::<Stores>(seat, at as usize, value);
}

/// Leads the seat's own call: at the end of a walk that met no open call of the name, the top word names it, if that is still
/// what it was. A slot whose top is not marked needs no walk over side words. The new top is marked where other calls of the slot may be open.
pub fn lead(words: &Words, seat: &mut KeyedSeat, slot: u64, old: u64, new: u64) -> u64
    requires own { seat.old.table_id ≡ words.now.table_id }
    requires size { words.now.table_id.words ≡ word_total words.now.key }
    requires slot { (slot < words.now.key.tops) × (slot_of words.now.key seat.old.me.0.key ≡ slot) × (seat.old.me.0.slot ≡ slot) }
    requires call { (seat.old.me.0.own ≢ 0) × (seat.old.me.0.named ≡ true) × (new / 4 ≡ seat.old.me.0.own) × (new / 2 % 2 ≡ 0) }
    requires top { (old ≡ seat.old.me.0.found) × (old / 4 ≡ seat.old.me.0.top) × (old / 2 % 2 ≡ 0) }
    requires walked { (seat.old.me.0.walks ≡ true) × (seat.old.me.0.clear ≡ true) × (old % 2 ≡ 1 → seat.old.me.0.looked ≡ 16) }
    requires mark { new % 2 ≡ 0 → (name : ℕ) → slot_of words.now.key name ≡ slot → Unmet seat.old.me.0.names name }
    requires other { (seat.old.me.0.other ≡ true) × (seat.old.me.0.saved ≡ true) × Unmet seat.old.me.0.names seat.old.me.0.key }
    requires idle { seat.old.me.0.leads ≡ 0 }
    ensures own { seat.new.table_id ≡ seat.old.table_id }
    ensures view { tries_lead seat.old.me.0 old result seat.new.me.0 }
{
    words.compare_exchange::<Leads>(seat, slot as usize, old, new)
}

/// Seals a slot, at the end of a walk over it: no call is led there any more. Where the top word is what it was, no name that the walk did
/// not meet has an open call, and none ever has one again.
pub fn seal(words: &Words, seat: &mut KeyedSeat, slot: u64, old: u64) -> u64
    requires own { seat.old.table_id ≡ words.now.table_id }
    requires size { words.now.table_id.words ≡ word_total words.now.key }
    requires sizes { seat.old.me.0.sizes ≡ words.now.key }
    requires slot { (slot < words.now.key.tops) × (seat.old.me.0.slot ≡ slot) }
    requires walked { (seat.old.me.0.walks ≡ true) × (seat.old.me.0.clear ≡ true) × (seat.old.me.0.found % 2 ≡ 1 → seat.old.me.0.looked ≡ 16) × (seat.old.me.0.other ≡ true) }
    requires top { (seat.old.me.0.found / 4 ≡ seat.old.me.0.top) × (old ≡ seat.old.me.0.found) × (old / 2 % 2 ≡ 0) × (old < 18446744073709551614) }
    ensures own { seat.new.table_id ≡ seat.old.table_id }
    ensures view { tries_seal seat.old.me.0 old (old + 2) result seat.new.me.0 }
{
    words.compare_exchange::<Seals>(seat, slot as usize, old, old + 2)
}

/// Sets the top aside, where the side word names the closed call that the seat is looking at.
pub fn set_aside(words: &Words, seat: &mut KeyedSeat, at: u64, side: u64, old: u64, new: u64) -> u64
    requires own { seat.old.table_id ≡ words.now.table_id }
    requires size { words.now.table_id.words ≡ word_total words.now.key }
    requires at { (at ≡ words.now.key.tops + (sides_from seat.old.me.0.slot + side)) × (sides_from seat.old.me.0.slot + side < words.now.key.sides) × (side < 16) }
    requires walks { (seat.old.me.0.walks ≡ true) × (seat.old.me.0.dead ≡ true) }
    requires calls { (old ≡ seat.old.me.0.aside) × (old / 4 ≡ seat.old.me.0.but) × (new / 4 ≡ seat.old.me.0.top) }
    ensures own { seat.new.table_id ≡ seat.old.table_id }
    ensures view { seat.new.me.0 ≡ try_aside seat.old.me.0 old result }
{
    words.compare_exchange::<SetsAside>(seat, at as usize, old, new)
}

/// Loads the top word at the end of a walk: where it is what it was, no name that the walk did not meet has an open call.
pub fn find_none(words: &Words, seat: &mut KeyedSeat, slot: u64) -> u64
    requires own { seat.old.table_id ≡ words.now.table_id }
    requires size { words.now.table_id.words ≡ word_total words.now.key }
    requires sizes { seat.old.me.0.sizes ≡ words.now.key }
    requires slot { (slot < words.now.key.tops) × (seat.old.me.0.slot ≡ slot) }
    requires walked { (seat.old.me.0.walks ≡ true) × (seat.old.me.0.clear ≡ true) × (seat.old.me.0.found % 2 ≡ 1 → seat.old.me.0.looked ≡ 16) × (seat.old.me.0.other ≡ true) }
    requires top { seat.old.me.0.found / 4 ≡ seat.old.me.0.top }
    ensures own { seat.new.table_id ≡ seat.old.table_id }
    ensures view { finds_none seat.old.me.0 result seat.new.me.0 }
{
    words.load::<FindsNone>(seat, slot as usize)
}

/// Loads the state of the call that the seat is a holder of.
pub fn wait(words: &Words, seat: &mut KeyedSeat, at: u64) -> u64
    requires own { seat.old.table_id ≡ words.now.table_id }
    requires size { words.now.table_id.words ≡ word_total words.now.key }
    requires at { (at ≡ words.now.key.tops + words.now.key.sides + 8 * (seat.old.me.0.ticket % 1048576)) × (seat.old.me.0.ticket % 1048576 < words.now.key.cells) }
    ensures own { seat.new.table_id ≡ seat.old.table_id }
    ensures view { seat.new.me.0 ≡ look_settled seat.old.me.0 result }
{
    words.load::<Waits>(seat, at as usize)
}

/// Loads the value of the settled call that the seat is a holder of.
pub fn value_of(words: &Words, seat: &mut KeyedSeat, at: u64) -> u64
    requires own { seat.old.table_id ≡ words.now.table_id }
    requires size { words.now.table_id.words ≡ word_total words.now.key }
    requires at { (at ≡ words.now.key.tops + words.now.key.sides + 8 * (seat.old.me.0.ticket % 1048576) + 3) × (seat.old.me.0.ticket % 1048576 < words.now.key.cells) }
    requires ticket { (seat.old.me.0.ticket ≢ 0) × (seat.old.me.0.done ≡ true) }
    ensures own { seat.new.table_id ≡ seat.old.table_id }
    ensures view { takes seat.old.me.0 result seat.new.me.0 }
{
    words.load::<Takes>(seat, at as usize)
}

/// Loads the value of the settled call that the seat was the last holder of.
pub fn last_value_of(words: &Words, seat: &mut KeyedSeat, at: u64) -> u64
    requires own { seat.old.table_id ≡ words.now.table_id }
    requires size { words.now.table_id.words ≡ word_total words.now.key }
    requires at { (at ≡ words.now.key.tops + words.now.key.sides + 8 * (seat.old.me.0.last % 1048576) + 3) × (seat.old.me.0.last % 1048576 < words.now.key.cells) }
    requires last { seat.old.me.0.last ≢ 0 }
    ensures own { seat.new.table_id ≡ seat.old.table_id }
    ensures view { takes_last seat.old.me.0 result seat.new.me.0 }
{
    words.load::<TakesLast>(seat, at as usize)
}

/// Claims the free cell, whose state word lies at `at`: the call that it may lead next is the seat's.
pub fn claim(words: &Words, seat: &mut KeyedSeat, at: u64, cell: u64, old: u64) -> u64
    requires own { seat.old.table_id ≡ words.now.table_id }
    requires size { words.now.table_id.words ≡ word_total words.now.key }
    requires at { (at ≡ words.now.key.tops + words.now.key.sides + 8 * cell) × (cell < words.now.key.cells) × (cell < 1048576) }
    requires free { (old % 8388608 ≡ 0) × (old < 18446744073701163008) × (old ≡ seat.old.me.0.state) }
    requires sizes { seat.old.me.0.sizes ≡ words.now.key }
    requires idle { seat.old.me.0.own ≡ 0 }
    ensures own { seat.new.table_id ≡ seat.old.table_id }
    ensures view { seat.new.me.0 ≡ try_claim seat.old.me.0 at old result }
{
    words.compare_exchange::<Claims>(seat, at as usize, old, old + 12_582_913)
}

/// Becomes one more holder of the open call that the seat is looking at, whose state then says that it was joined.
pub fn join(words: &Words, seat: &mut KeyedSeat, at: u64, old: u64, new: u64) -> u64
    requires own { seat.old.table_id ≡ words.now.table_id }
    requires size { words.now.table_id.words ≡ word_total words.now.key }
    requires at { (at ≡ words.now.key.tops + words.now.key.sides + 8 * (seat.old.me.0.but % 1048576)) × (seat.old.me.0.but % 1048576 < words.now.key.cells) }
    requires call { (seat.old.me.0.but ≢ 0) × (seat.old.me.0.told ≡ true) }
    requires opened { (is_open_word old seat.old.me.0.but ≡ true) × (old ≡ seat.old.me.0.state) }
    requires more { (new / 2097152 ≡ old / 2097152) × (joined_bit new ≡ 1) × (new % 1048576 ≡ old % 1048576 + 1) }
    requires idle { seat.old.me.0.ticket ≡ 0 }
    ensures own { seat.new.table_id ≡ seat.old.table_id }
    ensures view { tries_join seat.old.me.0 old result seat.new.me.0 }
{
    words.compare_exchange::<Joins>(seat, at as usize, old, new)
}

/// Settles the call that the seat leads, for its holders: it cannot fail.
pub fn settle(words: &Words, seat: &mut KeyedSeat, at: u64) -> u64
    requires own { seat.old.table_id ≡ words.now.table_id }
    requires size { words.now.table_id.words ≡ word_total words.now.key }
    requires at { (at ≡ words.now.key.tops + words.now.key.sides + 8 * (seat.old.me.0.leads % 1048576)) × (seat.old.me.0.leads % 1048576 < words.now.key.cells) }
    requires leads { (seat.old.me.0.leads ≢ 0) × (seat.old.me.0.stored ≡ true) }
    requires idle { seat.old.me.0.ticket ≡ 0 }
    ensures own { seat.new.table_id ≡ seat.old.table_id }
    ensures view { settles seat.old.me.0 result seat.new.me.0 }
{
    words.fetch_add::<Settles>(seat, at as usize, 2_097_152)
}

/// Settles the call that the seat leads, where nobody else holds it; its cell is ready for the next call.
pub fn settle_alone(words: &Words, seat: &mut KeyedSeat, at: u64, old: u64) -> u64
    requires own { seat.old.table_id ≡ words.now.table_id }
    requires size { words.now.table_id.words ≡ word_total words.now.key }
    requires at { (at ≡ words.now.key.tops + words.now.key.sides + 8 * (seat.old.me.0.leads % 1048576)) × (seat.old.me.0.leads % 1048576 < words.now.key.cells) }
    requires alone { (seat.old.me.0.leads ≢ 0) × (old ≡ ready_word seat.old.me.0.leads) × (old < 18446744073701163008) }
    requires idle { seat.old.me.0.own ≡ 0 }
    ensures own { seat.new.table_id ≡ seat.old.table_id }
    ensures view { tries_alone seat.old.me.0 old result seat.new.me.0 }
{
    words.compare_exchange::<SettlesAlone>(seat, at as usize, old, old + 8_388_608)
}

/// Closes the open call that the seat is looking at: a Forget.
pub fn close(words: &Words, seat: &mut KeyedSeat, at: u64, old: u64) -> u64
    requires own { seat.old.table_id ≡ words.now.table_id }
    requires size { words.now.table_id.words ≡ word_total words.now.key }
    requires at { (at ≡ words.now.key.tops + words.now.key.sides + 8 * (seat.old.me.0.but % 1048576)) × (seat.old.me.0.but % 1048576 < words.now.key.cells) }
    requires call { (seat.old.me.0.but ≢ 0) × (seat.old.me.0.told ≡ true) }
    requires opened { (is_open_word old seat.old.me.0.but ≡ true) × (old ≡ seat.old.me.0.state) × (4194304 ≤ old) }
    ensures own { seat.new.table_id ≡ seat.old.table_id }
    ensures view { tries_close seat.old.me.0 old result seat.new.me.0 }
{
    words.compare_exchange::<Closes>(seat, at as usize, old, old - 4_194_304)
}

/// Is a holder of its call no more.
pub fn leave(words: &Words, seat: &mut KeyedSeat, at: u64) -> u64
    requires own { seat.old.table_id ≡ words.now.table_id }
    requires size { words.now.table_id.words ≡ word_total words.now.key }
    requires at { (at ≡ words.now.key.tops + words.now.key.sides + 8 * (seat.old.me.0.ticket % 1048576)) × (seat.old.me.0.ticket % 1048576 < words.now.key.cells) }
    requires ticket { seat.old.me.0.ticket ≢ 0 }
    ensures own { seat.new.table_id ≡ seat.old.table_id }
    ensures view { seat.new.me.0 ≡ lets_go seat.old.me.0 result }
{
    words.fetch_sub::<Lets>(seat, at as usize, 1)
}

/// Sets the cell free that the seat has as its call's last holder.
pub fn give_back(words: &Words, seat: &mut KeyedSeat, at: u64, new: u64)
    requires own { seat.old.table_id ≡ words.now.table_id }
    requires size { words.now.table_id.words ≡ word_total words.now.key }
    requires at { (at ≡ words.now.key.tops + words.now.key.sides + 8 * (seat.old.me.0.last % 1048576)) × (seat.old.me.0.last % 1048576 < words.now.key.cells) }
    requires last { (seat.old.me.0.last ≢ 0) × (new ≡ seat.old.me.0.last / 1048576 * 8388608) }
    ensures own { seat.new.table_id ≡ seat.old.table_id }
    ensures view { seat.new.me.0 ≡ given_back seat.old.me.0 new }
{
    words.store::<GivesBack>(seat, at as usize, new);
}
