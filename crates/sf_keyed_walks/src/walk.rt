//! A walk over the slot of a name: an asking, which leads or joins, and a Forget.
ghost use Rattle.std.specs.Prelude.{◌≡◌, ◌≢◌, ◌+◌, ◌/◌, ◌%◌, ◌<◌, ◌≤◌, ◌^◌, ℕ, true, false, Some, None};
ghost use Rattle.sf_keyed_words.specs.Rule.{is_open_call, number};
ghost use Rattle.sf_keyed_words.specs.Plays.{begun_as, named_as};
ghost use Rattle.sf_keyed_words.specs.Rule.{hash_of as the_hash_of, slot_of as the_slot_of};
ghost use Rattle.sf_keyed_walks.specs.Walk.{IsLaid, Examined, Stays, HasLooked, MetNone, Shown, Began, WentThrough, HasMet, HasLed, HasJoined, HasClosed, HasNone, HasOther, HasSealed, HasSwept, IsGone, KeepsCalls};
ghost use Rattle.sf_keyed_walks.specs.declared.walk.Walked.{Walked as WalkedFields};
ghost use Rattle.sf_keyed_walks.specs.declared.walk.Way.TheVariants as way;
ghost use Rattle.sf_keyed_walks.specs.declared.walk.Asked.TheVariants as asked;
ghost use Rattle.sf_keyed_walks.specs.declared.walk.Closing.TheVariants as closing;
ghost use Rattle.sf_keyed_walks.specs.declared.walk.Passed.TheVariants as passed;
ghost use Rattle.sf_keyed_walks.specs.declared.walk.Swept.TheVariants as swept;

use sf_keyed_words::steps::{
    KeyedSeat, Words, close, confirm, find_high, find_low, find_none, join, lead, look_side,
    look_top, read, read_low, seal, see, set_aside, store_high, store_low,
};
use sf_keyed_words::{KeyedSizes, Name};

// How many side words a slot has.
const SIDES: u64 = 16;

/// What is known of a call that was looked at, whose state was this: it is closed; it has another name, if it is open; or it has the name.
#[derive(Clone, Copy)]
pub enum Look {
    Closed(u64),
    Other(Name, u64),
    Named(u64),
}

/// What a walk has shown: whether the top has to be set aside yet, whether it has met a call of the slot that may be open, and whether
/// another took a side word first.
#[derive(Clone, Copy)]
pub struct Walked {
    pub aside: bool,
    pub marks: bool,
    pub taken: bool,
}

/// How a walk ended: it met a call of the name, in this state, or came to the end, from this top word.
#[derive(Clone, Copy)]
enum Way {
    Met(u64, u64),
    Through(u64, Walked),
}

/// How an asking ended: a new call is led; the name's open call is joined; another came first; the side words have open calls
/// all; the slot is sealed; the name has no open call, and the seat has no cell for a new one; or the name's open call has as many
/// holders as its state word can count.
#[derive(Clone, Copy)]
pub enum Asked {
    Led,
    Joined(u64),
    Busy,
    Full,
    Sealed,
    NoCell,
    Crowded,
}

/// How a Forget ended: it closed this call; the name had none; it had none, and never has one again; the name had this other open call;
/// or another came first.
#[derive(Clone, Copy)]
pub enum Closing {
    Closed(u64),
    Nothing,
    Gone,
    Other(u64),
    Busy,
}

/// How an asking of a group that has grown ended: the name's open call is joined; the name has none, and never has one again; another came
/// first; or the name's open call has as many holders as its state word can count.
#[derive(Clone, Copy)]
pub enum Passed {
    Joined(u64),
    Gone,
    Busy,
    Crowded,
}

/// How a sweep of a slot ended: none of its names has an open call, and none ever has one again; one of them may have one; or another came
/// first.
#[derive(Clone, Copy)]
pub enum Swept {
    Quiet,
    Open,
    Busy,
}

// Whether a state word says that the call is some call, and open.
fn is_open(state: u64, call: u64) -> bool
    ensures { result ≡ is_open_call state call }
{
    call != 0 && state / 8_388_608 == call / 1_048_576 && state / 2_097_152 % 4 == 2
}

// The hash of a name's two words, by the seeds. Of a sum of the words, each times its seed, the upper half would be quicker; but for one seed
// in some hundred it has many names in one slot that count up, since where two of them meet, so do all that are as far apart.
fn hash_of(low_seed: u64, high_seed: u64, low: u64, high: u64) -> u64
    ensures { result ≡ the_hash_of low_seed high_seed low high % 18446744073709551616 }
{
    let product = low.wrapping_add(low_seed) as u128 * high.wrapping_add(high_seed) as u128;
    let folded = (product % 0x1_0000_0000_0000_0000) as u64
        ^ (product / 0x1_0000_0000_0000_0000) as u64;
    folded.wrapping_mul(0x9E37_79B9_7F4A_7C15)
}

/// The slot of a name.
pub fn slot_of(sizes: KeyedSizes, name: Name) -> u64
    requires { (0 < sizes.tops) × (sizes.tops ≤ 4294967296) }
    ensures is { result ≡ the_slot_of sizes (number name) }
    ensures within { result < sizes.tops }
{
    hash_of(sizes.low_seed, sizes.high_seed, name.low, name.high) / 0x1_0000_0000 * sizes.tops
        / 0x1_0000_0000
}

// Looks at the call that the seat is looking at.
fn examine(words: &Words, seat: &mut KeyedSeat, sizes: KeyedSizes, call: u64, name: Name) -> Look
    requires own { seat.old.table_id ≡ words.now.table_id }
    requires laid { IsLaid words.now.key words.now.table_id.words sizes }
    requires call { (seat.old.me.0.but ≡ call) × (call % 1048576 < sizes.cells) }
    ensures own { seat.new.table_id ≡ seat.old.table_id }
    ensures view { Examined seat.old.me.0 seat.new.me.0 call (number name) result }
{
    let cell = call % 1_048_576;
    let state = see(words, seat, sizes.tops + sizes.sides + 8 * cell);
    if !is_open(state, call) {
        return Look::Closed(state);
    }
    let low = read_low(words, seat, sizes.tops + sizes.sides + 8 * cell + 1);
    let high = read(words, seat, sizes.tops + sizes.sides + 8 * cell + 2);
    if low == name.low && high == name.high {
        Look::Named(state)
    } else {
        Look::Other(Name { low, high }, state)
    }
}

// Joins the open call of the name that the seat is looking at, in this state.
fn join_found(
    words: &Words,
    seat: &mut KeyedSeat,
    sizes: KeyedSizes,
    call: u64,
    name: Name,
    state: u64,
) -> Asked
    requires own { seat.old.table_id ≡ words.now.table_id }
    requires laid { IsLaid words.now.key words.now.table_id.words sizes }
    requires met { HasMet sizes seat.old.me.0 call state (number name) }
    requires idle { seat.old.me.0.ticket ≡ 0 }
    ensures own { seat.new.table_id ≡ seat.old.table_id }
    ensures led { (result ≢ asked.Led) × (result ≢ asked.NoCell) × (result ≢ asked.Full) × (result ≢ asked.Sealed) }
    ensures joined { (found : ℕ) → result ≡ asked.Joined found → HasJoined seat.old.me.0 seat.new.me.0 found (number name) }
    ensures cell { (found : ℕ) → result ≡ asked.Joined found → (found ≢ 0) × (found < 2 ^ 61) × (found % 1048576 < sizes.cells) }
    ensures kept { ((found : ℕ) → result ≢ asked.Joined found) → Stays seat.old.me.0 seat.new.me.0 }
    ensures busy { result ≡ asked.Busy → seat.old.me.0.lost < seat.new.me.0.lost }
    ensures crowded { result ≡ asked.Crowded → 1048575 ≤ seat.new.me.0.state % 1048576 }
{
    if state % 1_048_576 >= 1_048_575 {
        return Asked::Crowded;
    }
    let new = if state / 1_048_576 % 2 == 0 {
        state + 1_048_577
    } else {
        state + 1
    };
    let at = sizes.tops + sizes.sides + 8 * (call % 1_048_576);
    if join(words, seat, at, state, new) == state {
        Asked::Joined(call)
    } else {
        Asked::Busy
    }
}

// Looks at the slot's top word, and at its call.
fn look_first(
    words: &Words,
    seat: &mut KeyedSeat,
    sizes: KeyedSizes,
    slot: u64,
    name: Name,
    leads: bool,
) -> Way
    requires own { seat.old.table_id ≡ words.now.table_id }
    requires laid { IsLaid words.now.key words.now.table_id.words sizes }
    requires sizes { seat.old.me.0.sizes ≡ sizes }
    requires slot { slot < sizes.tops }
    ensures own { seat.new.table_id ≡ seat.old.table_id }
    ensures stays { Stays seat.old.me.0 seat.new.me.0 }
    ensures met { (call state : ℕ) → result ≡ way.Met call state → HasMet sizes seat.new.me.0 call state (number name) }
    ensures began { (found : ℕ) (on : WalkedFields) → result ≡ way.Through found on → Began sizes slot found (number name) seat.new.me.0 leads on }
{
    let found = look_top(words, seat, slot);
    match examine(words, seat, sizes, found / 4, name) {
        Look::Named(state) => Way::Met(found / 4, state),
        Look::Other(held, _) => {
            let marks = slot_of(sizes, held) == slot;
            Way::Through(
                found,
                Walked {
                    aside: leads,
                    marks,
                    taken: false,
                },
            )
        }
        Look::Closed(_) => Way::Through(
            found,
            Walked {
                aside: false,
                marks: false,
                taken: false,
            },
        ),
    }
}

// Looks at the slot's side words, after the top word, which was this. Where the top has to be set aside yet, it is, in place of a closed call.
fn walk_sides(
    words: &Words,
    seat: &mut KeyedSeat,
    sizes: KeyedSizes,
    slot: u64,
    found: u64,
    name: Name,
    before: Walked,
) -> Way
    requires own { seat.old.table_id ≡ words.now.table_id }
    requires laid { IsLaid words.now.key words.now.table_id.words sizes }
    requires sizes { seat.old.me.0.sizes ≡ sizes }
    requires slot { slot < sizes.tops }
    requires top { HasLooked seat.old.me.0 slot found 0 (number name) }
    requires opened { before.aside ≡ true → seat.old.me.0.opened ≡ 1 }
    requires marks { before.marks ≡ false → MetNone sizes slot seat.old.me.0 }
    requires taken { before.taken ≡ false }
    ensures own { seat.new.table_id ≡ seat.old.table_id }
    ensures stays { Stays seat.old.me.0 seat.new.me.0 }
    ensures met { (call state : ℕ) → result ≡ way.Met call state → HasMet sizes seat.new.me.0 call state (number name) }
    ensures through { (top : ℕ) (on : WalkedFields) → result ≡ way.Through top on → (top ≡ found) × HasLooked seat.new.me.0 slot found 16 (number name) × Shown sizes slot 16 seat.old.me.0 seat.new.me.0 before.aside on }
{
    let first = sizes.tops + slot / 64 * 16;
    let mut on = before;
    for at in 0..SIDES {
        let named = look_side(words, seat, first + at);
        let call = named / 4;
        if call == found / 4 {
            on.aside = false;
        }
        match examine(words, seat, sizes, call, name) {
            Look::Named(state) => return Way::Met(call, state),
            Look::Other(held, _) => {
                if !on.marks && slot_of(sizes, held) == slot {
                    on.marks = true;
                }
            }
            Look::Closed(_) => {
                if on.aside {
                    if set_aside(words, seat, first + at, at, named, found / 4 * 4) == named {
                        on.aside = false;
                    } else {
                        on.taken = true;
                    }
                }
            }
        }
    }
    Way::Through(found, on)
}

// Walks over the slot's words for the name. The side words of a slot whose top is not marked have no call of it, and are passed over, unless
// the top has to be set aside so that a call may be led.
fn walk_slot(
    words: &Words,
    seat: &mut KeyedSeat,
    sizes: KeyedSizes,
    slot: u64,
    name: Name,
    leads: bool,
) -> Way
    requires own { seat.old.table_id ≡ words.now.table_id }
    requires laid { IsLaid words.now.key words.now.table_id.words sizes }
    requires sizes { seat.old.me.0.sizes ≡ sizes }
    requires slot { slot < sizes.tops }
    ensures own { seat.new.table_id ≡ seat.old.table_id }
    ensures stays { Stays seat.old.me.0 seat.new.me.0 }
    ensures met { (call state : ℕ) → result ≡ way.Met call state → HasMet sizes seat.new.me.0 call state (number name) }
    ensures through { (found : ℕ) (on : WalkedFields) → result ≡ way.Through found on → WentThrough sizes slot found (number name) seat.new.me.0 leads on }
    ensures taken { (found : ℕ) (on : WalkedFields) → result ≡ way.Through found on → on.taken ≡ true → seat.old.me.0.lost < seat.new.me.0.lost }
{
    match look_first(words, seat, sizes, slot, name, leads) {
        Way::Met(call, state) => Way::Met(call, state),
        Way::Through(found, on) => {
            if found % 2 == 1 || on.aside {
                walk_sides(words, seat, sizes, slot, found, name, on)
            } else {
                Way::Through(found, on)
            }
        }
    }
}

/// Asks for the name, whose slot this is, once: joins its open call, or leads the seat's own call where the walk meets none, and nobody leads
/// at the slot meanwhile. A seat that has no cell, whose own call is 0, may join and not lead. Most askings find the name's call, or a
/// closed one, at the top of a slot that has no mark.
#[inline(always)]
pub fn ask_once(
    words: &Words,
    seat: &mut KeyedSeat,
    sizes: KeyedSizes,
    slot: u64,
    own: u64,
    name: Name,
) -> Asked
    requires own { seat.old.table_id ≡ words.now.table_id }
    requires laid { IsLaid words.now.key words.now.table_id.words sizes }
    requires sizes { seat.old.me.0.sizes ≡ sizes }
    requires slot { (slot < sizes.tops) × (the_slot_of sizes (number name) ≡ slot) }
    requires ready { (seat.old.me.0.own ≡ own) × (own < 2 ^ 61) × (own ≢ 0 → own % 1048576 < sizes.cells) }
    requires idle { (seat.old.me.0.leads ≡ 0) × (seat.old.me.0.ticket ≡ 0) }
    ensures own { seat.new.table_id ≡ seat.old.table_id }
    ensures led { result ≡ asked.Led → HasLed seat.old.me.0 seat.new.me.0 own (number name) }
    ensures joined { (found : ℕ) → result ≡ asked.Joined found → HasJoined seat.old.me.0 seat.new.me.0 found (number name) }
    ensures cell { (found : ℕ) → result ≡ asked.Joined found → (found ≢ 0) × (found < 2 ^ 61) × (found % 1048576 < sizes.cells) }
    ensures kept { result ≢ asked.Led → ((found : ℕ) → result ≢ asked.Joined found) → Stays seat.old.me.0 seat.new.me.0 }
    ensures no_cell { (result ≡ asked.NoCell → own ≡ 0) × (result ≡ asked.Led → own ≢ 0) }
    ensures busy { result ≡ asked.Busy → seat.old.me.0.lost < seat.new.me.0.lost }
    ensures full { result ≡ asked.Full → seat.new.me.0.opened ≡ 17 }
    ensures sealed { result ≡ asked.Sealed → seat.new.me.0.found / 2 % 2 ≡ 1 }
    ensures crowded { result ≡ asked.Crowded → 1048575 ≤ seat.new.me.0.state % 1048576 }
{
    let found = look_top(words, seat, slot);
    match examine(words, seat, sizes, found / 4, name) {
        Look::Named(state) => return join_found(words, seat, sizes, found / 4, name, state),
        Look::Closed(_) => {
            if found % 2 == 0 {
                let on = Walked {
                    aside: false,
                    marks: false,
                    taken: false,
                };
                return lead_after(words, seat, sizes, slot, found, own, name, on);
            }
        }
        Look::Other(_, _) => {}
    }
    // What goes to a function that is called, and comes from it, lies in memory: the usual ways have their own, in registers.
    match ask_beside(words, seat, copied(sizes), slot, own, name) {
        Asked::Led => Asked::Led,
        Asked::Joined(call) => Asked::Joined(call),
        Asked::Busy => Asked::Busy,
        Asked::Full => Asked::Full,
        Asked::Sealed => Asked::Sealed,
        Asked::NoCell => Asked::NoCell,
        Asked::Crowded => Asked::Crowded,
    }
}

// The sizes, for a function that is called.
#[inline(always)]
fn copied(sizes: KeyedSizes) -> KeyedSizes
    ensures { result ≡ sizes }
{
    KeyedSizes {
        tops: sizes.tops,
        sides: sizes.sides,
        cells: sizes.cells,
        low_seed: sizes.low_seed,
        high_seed: sizes.high_seed,
    }
}

// Asks by a walk over the slot's side words too.
#[inline(never)]
fn ask_beside(
    words: &Words,
    seat: &mut KeyedSeat,
    sizes: KeyedSizes,
    slot: u64,
    own: u64,
    name: Name,
) -> Asked
    requires own { seat.old.table_id ≡ words.now.table_id }
    requires laid { IsLaid words.now.key words.now.table_id.words sizes }
    requires sizes { seat.old.me.0.sizes ≡ sizes }
    requires slot { (slot < sizes.tops) × (the_slot_of sizes (number name) ≡ slot) }
    requires ready { (seat.old.me.0.own ≡ own) × (own < 2 ^ 61) × (own ≢ 0 → own % 1048576 < sizes.cells) }
    requires idle { (seat.old.me.0.leads ≡ 0) × (seat.old.me.0.ticket ≡ 0) }
    ensures own { seat.new.table_id ≡ seat.old.table_id }
    ensures led { result ≡ asked.Led → HasLed seat.old.me.0 seat.new.me.0 own (number name) }
    ensures joined { (found : ℕ) → result ≡ asked.Joined found → HasJoined seat.old.me.0 seat.new.me.0 found (number name) }
    ensures cell { (found : ℕ) → result ≡ asked.Joined found → (found ≢ 0) × (found < 2 ^ 61) × (found % 1048576 < sizes.cells) }
    ensures kept { result ≢ asked.Led → ((found : ℕ) → result ≢ asked.Joined found) → Stays seat.old.me.0 seat.new.me.0 }
    ensures no_cell { (result ≡ asked.NoCell → own ≡ 0) × (result ≡ asked.Led → own ≢ 0) }
    ensures busy { result ≡ asked.Busy → seat.old.me.0.lost < seat.new.me.0.lost }
    ensures full { result ≡ asked.Full → seat.new.me.0.opened ≡ 17 }
    ensures sealed { result ≡ asked.Sealed → seat.new.me.0.found / 2 % 2 ≡ 1 }
    ensures crowded { result ≡ asked.Crowded → 1048575 ≤ seat.new.me.0.state % 1048576 }
{
    match walk_slot(words, seat, sizes, slot, name, true) {
        Way::Met(call, state) => join_found(words, seat, sizes, call, name, state),
        Way::Through(found, on) => {
            if !on.aside {
                lead_after(words, seat, sizes, slot, found, own, name, on)
            } else if on.taken {
                Asked::Busy
            } else {
                Asked::Full
            }
        }
    }
}

// Names the seat's own call. Each store waits until all processors see it, so a word that the cell has from a call before is left: a caller
// that leads one key again and again stores no name.
fn name_own(words: &Words, seat: &mut KeyedSeat, sizes: KeyedSizes, own: u64, name: Name)
    requires own { seat.old.table_id ≡ words.now.table_id }
    requires laid { IsLaid words.now.key words.now.table_id.words sizes }
    requires call { (seat.old.me.0.own ≡ own) × (own ≢ 0) × (own % 1048576 < sizes.cells) }
    ensures own { seat.new.table_id ≡ seat.old.table_id }
    ensures named { seat.new.me.0 ≡ named_as (begun_as seat.old.me.0 name.low) name.high }
{
    let cell = sizes.tops + sizes.sides + 8 * (own % 1_048_576);
    if find_low(words, seat, cell + 1) != name.low {
        store_low(words, seat, cell + 1, name.low);
    }
    if find_high(words, seat, cell + 2) != name.high {
        store_high(words, seat, cell + 2, name.high);
    }
}

// Leads the seat's own call at the end of a walk, from this top word.
fn lead_after(
    words: &Words,
    seat: &mut KeyedSeat,
    sizes: KeyedSizes,
    slot: u64,
    found: u64,
    own: u64,
    name: Name,
    on: Walked,
) -> Asked
    requires own { seat.old.table_id ≡ words.now.table_id }
    requires laid { IsLaid words.now.key words.now.table_id.words sizes }
    requires slot { (slot < sizes.tops) × (the_slot_of sizes (number name) ≡ slot) }
    requires ready { (seat.old.me.0.own ≡ own) × (own < 2 ^ 61) × (own ≢ 0 → own % 1048576 < sizes.cells) }
    requires idle { (seat.old.me.0.leads ≡ 0) × (seat.old.me.0.ticket ≡ 0) }
    requires through { WentThrough sizes slot found (number name) seat.old.me.0 true on }
    requires saved { on.aside ≡ false }
    ensures own { seat.new.table_id ≡ seat.old.table_id }
    ensures led { result ≡ asked.Led → HasLed seat.old.me.0 seat.new.me.0 own (number name) }
    ensures others { ((call : ℕ) → result ≢ asked.Joined call) × (result ≢ asked.Full) × (result ≢ asked.Crowded) }
    ensures kept { result ≢ asked.Led → Stays seat.old.me.0 seat.new.me.0 }
    ensures no_cell { (result ≡ asked.NoCell → own ≡ 0) × (result ≡ asked.Led → own ≢ 0) }
    ensures busy { result ≡ asked.Busy → seat.old.me.0.lost < seat.new.me.0.lost }
    ensures sealed { result ≡ asked.Sealed → seat.new.me.0.found / 2 % 2 ≡ 1 }
{
    if found / 2 % 2 != 0 {
        return Asked::Sealed;
    }
    if own == 0 {
        return Asked::NoCell;
    }
    name_own(words, seat, sizes, own, name);
    let new = if on.marks { own * 4 + 1 } else { own * 4 };
    if lead(words, seat, slot, found, new) == found {
        Asked::Led
    } else {
        Asked::Busy
    }
}

/// Forgets the name, whose slot this is, once: closes its open call, or finds that it has none. If `only` is a call, it closes that call alone.
pub fn forget_once(
    words: &Words,
    seat: &mut KeyedSeat,
    sizes: KeyedSizes,
    slot: u64,
    name: Name,
    only: Option<u64>,
) -> Closing
    requires own { seat.old.table_id ≡ words.now.table_id }
    requires laid { IsLaid words.now.key words.now.table_id.words sizes }
    requires sizes { seat.old.me.0.sizes ≡ sizes }
    requires slot { (slot < sizes.tops) × (the_slot_of sizes (number name) ≡ slot) }
    ensures own { seat.new.table_id ≡ seat.old.table_id }
    ensures closed { (call : ℕ) → result ≡ closing.Closed call → HasClosed seat.old.me.0 seat.new.me.0 call (number name) × ((wanted : ℕ) → only ≡ Some wanted → call ≡ wanted) }
    ensures nothing { result ≡ closing.Nothing → HasNone seat.old.me.0 seat.new.me.0 (number name) × (seat.new.me.0.found / 2 % 2 ≡ 0) }
    ensures gone { result ≡ closing.Gone → HasNone seat.old.me.0 seat.new.me.0 (number name) × IsGone seat.new.me.0 (number name) }
    ensures other { (call : ℕ) → result ≡ closing.Other call → HasOther seat.old.me.0 seat.new.me.0 call (number name) only × (only ≢ None) }
    ensures busy { result ≡ closing.Busy → Stays seat.old.me.0 seat.new.me.0 × (seat.old.me.0.lost < seat.new.me.0.lost) }
    ensures calls { KeepsCalls seat.old.me.0 seat.new.me.0 }
{
    match walk_slot(words, seat, sizes, slot, name, false) {
        Way::Met(call, state) => close_found(words, seat, sizes, call, name, state, only),
        Way::Through(found, on) => none_after(words, seat, sizes, slot, found, name, on),
    }
}

// Looks at the top word again, at the end of a walk from this one.
fn none_after(
    words: &Words,
    seat: &mut KeyedSeat,
    sizes: KeyedSizes,
    slot: u64,
    found: u64,
    name: Name,
    on: Walked,
) -> Closing
    requires own { seat.old.table_id ≡ words.now.table_id }
    requires laid { IsLaid words.now.key words.now.table_id.words sizes }
    requires sizes { seat.old.me.0.sizes ≡ sizes }
    requires slot { (slot < sizes.tops) × (the_slot_of sizes (number name) ≡ slot) }
    requires through { WentThrough sizes slot found (number name) seat.old.me.0 false on }
    ensures own { seat.new.table_id ≡ seat.old.table_id }
    ensures others { ((call : ℕ) → result ≢ closing.Closed call) × ((call : ℕ) → result ≢ closing.Other call) }
    ensures nothing { result ≡ closing.Nothing → HasNone seat.old.me.0 seat.new.me.0 (number name) × (seat.new.me.0.found / 2 % 2 ≡ 0) }
    ensures gone { result ≡ closing.Gone → HasNone seat.old.me.0 seat.new.me.0 (number name) × IsGone seat.new.me.0 (number name) }
    ensures busy { result ≡ closing.Busy → Stays seat.old.me.0 seat.new.me.0 × (seat.old.me.0.lost < seat.new.me.0.lost) }
    ensures calls { KeepsCalls seat.old.me.0 seat.new.me.0 }
{
    if find_none(words, seat, slot) != found {
        return Closing::Busy;
    }
    if found / 2 % 2 == 0 {
        Closing::Nothing
    } else {
        Closing::Gone
    }
}

// Closes the open call of the name that the seat is looking at, in this state, unless it is to be another.
fn close_found(
    words: &Words,
    seat: &mut KeyedSeat,
    sizes: KeyedSizes,
    call: u64,
    name: Name,
    state: u64,
    only: Option<u64>,
) -> Closing
    requires own { seat.old.table_id ≡ words.now.table_id }
    requires laid { IsLaid words.now.key words.now.table_id.words sizes }
    requires met { HasMet sizes seat.old.me.0 call state (number name) }
    ensures own { seat.new.table_id ≡ seat.old.table_id }
    ensures closed { (found : ℕ) → result ≡ closing.Closed found → HasClosed seat.old.me.0 seat.new.me.0 found (number name) × ((wanted : ℕ) → only ≡ Some wanted → found ≡ wanted) }
    ensures others { (result ≢ closing.Nothing) × (result ≢ closing.Gone) }
    ensures other { (found : ℕ) → result ≡ closing.Other found → HasOther seat.old.me.0 seat.new.me.0 found (number name) only × (only ≢ None) }
    ensures busy { result ≡ closing.Busy → Stays seat.old.me.0 seat.new.me.0 × (seat.old.me.0.lost < seat.new.me.0.lost) }
    ensures calls { KeepsCalls seat.old.me.0 seat.new.me.0 }
{
    let at = sizes.tops + sizes.sides + 8 * (call % 1_048_576);
    if let Some(wanted) = only {
        if wanted != call {
            return if is_open(confirm(words, seat, at), call) {
                Closing::Other(call)
            } else {
                Closing::Busy
            };
        }
    }
    if close(words, seat, at, state) == state {
        Closing::Closed(call)
    } else {
        Closing::Busy
    }
}

/// Asks for the name in a group that has grown, once: joins its open call, or seals its slot where it has none, so that it never has one
/// again.
pub fn pass_once(words: &Words, seat: &mut KeyedSeat, sizes: KeyedSizes, name: Name) -> Passed
    requires own { seat.old.table_id ≡ words.now.table_id }
    requires laid { IsLaid words.now.key words.now.table_id.words sizes }
    requires sizes { seat.old.me.0.sizes ≡ sizes }
    requires idle { seat.old.me.0.ticket ≡ 0 }
    ensures own { seat.new.table_id ≡ seat.old.table_id }
    ensures joined { (found : ℕ) → result ≡ passed.Joined found → HasJoined seat.old.me.0 seat.new.me.0 found (number name) }
    ensures cell { (found : ℕ) → result ≡ passed.Joined found → (found ≢ 0) × (found < 2 ^ 61) × (found % 1048576 < sizes.cells) }
    ensures gone { result ≡ passed.Gone → HasNone seat.old.me.0 seat.new.me.0 (number name) × IsGone seat.new.me.0 (number name) }
    ensures busy { result ≡ passed.Busy → Stays seat.old.me.0 seat.new.me.0 × (seat.old.me.0.lost < seat.new.me.0.lost) }
    ensures crowded { result ≡ passed.Crowded → Stays seat.old.me.0 seat.new.me.0 × (1048575 ≤ seat.new.me.0.state % 1048576) }
{
    let slot = slot_of(sizes, name);
    match walk_slot(words, seat, sizes, slot, name, false) {
        Way::Met(call, state) => match join_found(words, seat, sizes, call, name, state) {
            Asked::Joined(joined) => Passed::Joined(joined),
            Asked::Crowded => Passed::Crowded,
            _ => Passed::Busy,
        },
        Way::Through(found, on) => {
            if seal_walk(words, seat, sizes, slot, found, name, on) {
                Passed::Gone
            } else {
                Passed::Busy
            }
        }
    }
}

// Seals the slot at the end of a walk from this top word, or finds it sealed. Whether its top word was that still.
fn seal_walk(
    words: &Words,
    seat: &mut KeyedSeat,
    sizes: KeyedSizes,
    slot: u64,
    found: u64,
    name: Name,
    on: Walked,
) -> bool
    requires own { seat.old.table_id ≡ words.now.table_id }
    requires laid { IsLaid words.now.key words.now.table_id.words sizes }
    requires sizes { seat.old.me.0.sizes ≡ sizes }
    requires slot { slot < sizes.tops }
    requires through { WentThrough sizes slot found (number name) seat.old.me.0 false on }
    ensures own { seat.new.table_id ≡ seat.old.table_id }
    ensures sealed { result ≡ true → HasSealed seat.old.me.0 seat.new.me.0 slot }
    ensures lost { result ≡ false → Stays seat.old.me.0 seat.new.me.0 × (seat.old.me.0.lost < seat.new.me.0.lost) }
{
    if found / 2 % 2 == 1 {
        return find_none(words, seat, slot) == found;
    }
    seal(words, seat, slot, found) == found
}

/// Sweeps a slot of a group that has grown, once: seals it where none of its names has an open call, so that none ever has one again.
pub fn sweep_once(words: &Words, seat: &mut KeyedSeat, sizes: KeyedSizes, slot: u64) -> Swept
    requires own { seat.old.table_id ≡ words.now.table_id }
    requires laid { IsLaid words.now.key words.now.table_id.words sizes }
    requires sizes { seat.old.me.0.sizes ≡ sizes }
    requires slot { slot < sizes.tops }
    ensures own { seat.new.table_id ≡ seat.old.table_id }
    ensures quiet { result ≡ swept.Quiet → HasSwept seat.old.me.0 seat.new.me.0 slot }
    ensures open { result ≡ swept.Open → Stays seat.old.me.0 seat.new.me.0 }
    ensures busy { result ≡ swept.Busy → Stays seat.old.me.0 seat.new.me.0 × (seat.old.me.0.lost < seat.new.me.0.lost) }
{
    // A call of the empty key's name is met by name, and one of any other name of the slot by its mark.
    let empty = Name { low: 0, high: 0 };
    match walk_slot(words, seat, sizes, slot, empty, false) {
        Way::Met(_, _) => Swept::Open,
        Way::Through(found, on) => {
            if on.marks {
                Swept::Open
            } else if seal_walk(words, seat, sizes, slot, found, empty, on) {
                Swept::Quiet
            } else {
                Swept::Busy
            }
        }
    }
}
