//! Askings and Forgets that are tried again where another came first.
ghost use Rattle.std.specs.Prelude.{◌≡◌, ◌≢◌, ◌+◌, ◌/◌, ◌%◌, ◌<◌, ◌≤◌, ◌^◌, ℕ, Some, None};
ghost use Rattle.sf_keyed_words.specs.Rule.{number, slot_of as the_slot_of};
ghost use Rattle.sf_keyed_walks.specs.Walk.{IsLaid, Stays, HasLed, HasJoined, HasClosed, HasNone, HasOther, IsGone, KeepsCalls};
ghost use Rattle.sf_keyed_walks.specs.declared.walk.Asked.TheVariants as asked;
ghost use Rattle.sf_keyed_walks.specs.declared.walk.Closing.TheVariants as closing;
ghost use Rattle.sf_keyed_walks.specs.declared.walk.Passed.TheVariants as passed;

use crate::walk::{Asked, Closing, Passed, ask_once, forget_once, pass_once};
use sf_keyed_words::steps::{KeyedSeat, Words};
use sf_keyed_words::{KeyedSizes, Name};

/// Forgets the name, whose slot this is: closes its open call, or finds that it has none. If `only` is a call, it closes that call alone. Busy after so many
/// tries, in each of which an exchange was lost to others.
pub fn forget_often(
    words: &Words,
    seat: &mut KeyedSeat,
    sizes: KeyedSizes,
    slot: u64,
    name: Name,
    only: Option<u64>,
    tries: u32,
) -> Closing
    requires own { seat.old.table_id ≡ words.now.table_id }
    requires laid { IsLaid words.now.key words.now.table_id.words sizes }
    requires sizes { seat.old.me.0.sizes ≡ sizes }
    requires slot { (slot < sizes.tops) × (the_slot_of sizes (number name) ≡ slot) }
    ensures own { seat.new.table_id ≡ seat.old.table_id }
    ensures closed { (call : ℕ) → result ≡ closing.Closed call → HasClosed seat.old.me.0 seat.new.me.0 call (number name) × ((wanted : ℕ) → only ≡ Some wanted → call ≡ wanted) }
    ensures nothing { result ≡ closing.Nothing → HasNone seat.old.me.0 seat.new.me.0 (number name) × (seat.new.me.0.found / 2 % 2 ≡ 0) }
    ensures gone { result ≡ closing.Gone → HasNone seat.old.me.0 seat.new.me.0 (number name) × IsGone seat.new.me.0 (number name) }
    ensures other { (call : ℕ) → result ≡ closing.Other call → HasOther seat.old.me.0 seat.new.me.0 call (number name) only × (only ≢ None) }
    ensures busy { result ≡ closing.Busy → Stays seat.old.me.0 seat.new.me.0 × (seat.old.me.0.lost + tries ≤ seat.new.me.0.lost) }
    ensures calls { KeepsCalls seat.old.me.0 seat.new.me.0 }
{
    for at in 0..tries {
        match forget_once(words, seat, sizes, slot, name, only) {
            Closing::Busy => {}
            Closing::Other(call) => return Closing::Other(call),
            Closing::Nothing => return Closing::Nothing,
            Closing::Gone => return Closing::Gone,
            Closing::Closed(call) => return Closing::Closed(call),
        }
    }
    Closing::Busy
}

/// Asks for the name, whose slot this is: joins its open call, or leads the seat's own. Busy after so many tries, in each of which an exchange was lost to
/// others.
pub fn ask_often(
    words: &Words,
    seat: &mut KeyedSeat,
    sizes: KeyedSizes,
    slot: u64,
    own: u64,
    name: Name,
    tries: u32,
) -> Asked
    requires own { seat.old.table_id ≡ words.now.table_id }
    requires laid { IsLaid words.now.key words.now.table_id.words sizes }
    requires sizes { seat.old.me.0.sizes ≡ sizes }
    requires slot { (slot < sizes.tops) × (the_slot_of sizes (number name) ≡ slot) }
    requires ready { (seat.old.me.0.own ≡ own) × (own < 2 ^ 61) × (own ≢ 0 → own % 1048576 < sizes.cells) }
    requires idle { (seat.old.me.0.leads ≡ 0) × (seat.old.me.0.ticket ≡ 0) }
    ensures own { seat.new.table_id ≡ seat.old.table_id }
    ensures led { result ≡ asked.Led → HasLed seat.old.me.0 seat.new.me.0 own (number name) }
    ensures joined { (found : ℕ) → result ≡ asked.Joined found → HasJoined seat.old.me.0 seat.new.me.0 found (number name) }
    ensures cell { (found : ℕ) → result ≡ asked.Joined found → (found ≢ 0) × (found < 2 ^ 61) × (found % 1048576 < sizes.cells) }
    ensures kept { result ≢ asked.Led → ((found : ℕ) → result ≢ asked.Joined found) → Stays seat.old.me.0 seat.new.me.0 }
    ensures no_cell { (result ≡ asked.NoCell → own ≡ 0) × (result ≡ asked.Led → own ≢ 0) }
    ensures busy { result ≡ asked.Busy → seat.old.me.0.lost + tries ≤ seat.new.me.0.lost }
    ensures full { result ≡ asked.Full → seat.new.me.0.opened ≡ 17 }
    ensures sealed { result ≡ asked.Sealed → seat.new.me.0.found / 2 % 2 ≡ 1 }
    ensures crowded { result ≡ asked.Crowded → 1048575 ≤ seat.new.me.0.state % 1048576 }
{
    for at in 0..tries {
        match ask_once(words, seat, sizes, slot, own, name) {
            Asked::Busy => {}
            Asked::Led => return Asked::Led,
            Asked::Joined(call) => return Asked::Joined(call),
            Asked::Full => return Asked::Full,
            Asked::Sealed => return Asked::Sealed,
            Asked::NoCell => return Asked::NoCell,
            Asked::Crowded => return Asked::Crowded,
        }
    }
    Asked::Busy
}

/// Asks for the name in a group that has grown: joins its open call, or seals its slot where it has none. Busy after so many tries, in each
/// of which an exchange was lost to others.
pub fn pass_often(
    words: &Words,
    seat: &mut KeyedSeat,
    sizes: KeyedSizes,
    name: Name,
    tries: u32,
) -> Passed
    requires own { seat.old.table_id ≡ words.now.table_id }
    requires laid { IsLaid words.now.key words.now.table_id.words sizes }
    requires sizes { seat.old.me.0.sizes ≡ sizes }
    requires idle { seat.old.me.0.ticket ≡ 0 }
    ensures own { seat.new.table_id ≡ seat.old.table_id }
    ensures joined { (found : ℕ) → result ≡ passed.Joined found → HasJoined seat.old.me.0 seat.new.me.0 found (number name) }
    ensures cell { (found : ℕ) → result ≡ passed.Joined found → (found ≢ 0) × (found < 2 ^ 61) × (found % 1048576 < sizes.cells) }
    ensures gone { result ≡ passed.Gone → HasNone seat.old.me.0 seat.new.me.0 (number name) × IsGone seat.new.me.0 (number name) }
    ensures busy { result ≡ passed.Busy → Stays seat.old.me.0 seat.new.me.0 × (seat.old.me.0.lost + tries ≤ seat.new.me.0.lost) }
    ensures crowded { result ≡ passed.Crowded → Stays seat.old.me.0 seat.new.me.0 × (1048575 ≤ seat.new.me.0.state % 1048576) }
{
    for at in 0..tries {
        match pass_once(words, seat, sizes, name) {
            Passed::Busy => {}
            Passed::Joined(call) => return Passed::Joined(call),
            Passed::Gone => return Passed::Gone,
            Passed::Crowded => return Passed::Crowded,
        }
    }
    Passed::Busy
}
