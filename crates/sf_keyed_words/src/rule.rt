//! The rule of the keyed group's table: what its words say, and what each seat knows. No value of these types but `KeyedSizes` is made.
use atomic_table::{Join, Play, Split, TableRule};
use sf_history::Event;
use std::collections::LinkedList;

/// How many slots there are, side words, of which 64 slots that follow one another share 16, and cells; and by what the words of a name
/// are multiplied, to tell the slot that it has.
#[derive(Clone, Copy)]
pub struct KeyedSizes {
    pub tops: u64,
    pub sides: u64,
    pub cells: u64,
    pub low_seed: u64,
    pub high_seed: u64,
}

/// What the group knows a key by: two words.
#[derive(Clone, Copy)]
pub struct Name {
    pub low: u64,
    pub high: u64,
}

/// A walk over a sealed slot, and the names that it met there: no other name of the slot has an open call, and none ever has one again.
pub struct Gone {
    pub slot: u64,
    pub names: LinkedList<u64>,
}

/// What a seat knows, where 0 is no call.
///
/// The call that it may lead next, with the lower word of a name that its cell has, and the name, if they were stored; the call that it leads, with the value
/// that was stored for it; a call that it is a holder of, and whether that was seen settled; and a settled call whose cell it
/// has as the last holder.
///
/// How far it has walked from a slot: the top word and the call that it names, and whether that is seen to be no open call of a name that
/// was not met, and to be closed or aside; how many side words it has looked at, and the last of them; and how many of the calls were open.
/// The call that it is just looking at: whether it is no open call of a name that was not met, whether it is closed, whether it was
/// counted among the open ones, and the lower word of the name, and the name, that it has if it is open. And the names that it has met, and its
/// walks over sealed slots.
///
/// The state word that it looked at last, and where a free cell's lies; and how often an exchange of its found another word than the
/// one that it had looked at.
///
/// What has happened so far; and what another seat had seen that was joined with this one, until the next load.
pub struct View {
    pub sizes: KeyedSizes,
    pub number: u64,
    pub own: u64,
    pub first: bool,
    pub start: u64,
    pub named: bool,
    pub key: u64,
    pub leads: u64,
    pub stored: bool,
    pub value: u64,
    pub ticket: u64,
    pub done: bool,
    pub last: u64,
    pub walks: bool,
    pub slot: u64,
    pub found: u64,
    pub top: u64,
    pub other: bool,
    pub saved: bool,
    pub but: u64,
    pub clear: bool,
    pub dead: bool,
    pub half: bool,
    pub low: u64,
    pub told: bool,
    pub name: u64,
    pub names: LinkedList<u64>,
    pub gone: LinkedList<Gone>,
    pub looked: u64,
    pub aside: u64,
    pub opened: u64,
    pub counted: bool,
    pub state: u64,
    pub place: u64,
    pub lost: u64,
    pub seen: LinkedList<Event<u64, Option<u64>>>,
    pub heard: LinkedList<Event<u64, Option<u64>>>,
}

pub struct Law;

impl TableRule<u8, View, KeyedSizes> for Law {
    ghost use Rattle.sf_keyed_words.specs.Rule.{Holds, first_view};

    ghost holds = { Holds };

    ghost first = { first_view };
}

/// A load by which a new seat has seen all that has happened.
pub struct Enters;

impl Play<u8, View> for Enters {
    ghost use Rattle.sf_keyed_words.specs.Moves.{has_entered};

    ghost then = { λ step before word after. has_entered before.0 after.0 };
}

/// A new seat sees what another has seen.
pub struct Shares;

impl Split<View> for Shares {
    ghost use Rattle.sf_keyed_words.specs.Rule.{note_of};

    ghost left = { λ v. v };

    ghost right = { note_of };
}

/// The call that a seat leads goes to a new seat.
pub struct SplitsFlight;

impl Split<View> for SplitsFlight {
    ghost use Rattle.sf_keyed_words.specs.Moves.{without_flight, flight_of};

    ghost left = { without_flight };

    ghost right = { flight_of };
}

/// The call that a seat is a holder of goes to a new seat.
pub struct SplitsTicket;

impl Split<View> for SplitsTicket {
    ghost use Rattle.sf_keyed_words.specs.Moves.{without_ticket, ticket_of};

    ghost left = { without_ticket };

    ghost right = { ticket_of };
}

/// A seat hears what another has seen.
pub struct JoinsNote;

impl Join<View> for JoinsNote {
    ghost use Rattle.sf_keyed_words.specs.Moves.{with_note, spent};

    ghost both = { with_note };

    ghost spent = { spent };
}

/// A seat takes over the call that another leads.
pub struct JoinsFlight;

impl Join<View> for JoinsFlight {
    ghost use Rattle.sf_keyed_words.specs.Moves.{with_flight, spent};

    ghost both = { with_flight };

    ghost spent = { spent };
}

/// A seat takes over the call that another is a holder of.
pub struct JoinsTicket;

impl Join<View> for JoinsTicket {
    ghost use Rattle.sf_keyed_words.specs.Moves.{with_ticket, spent};

    ghost both = { with_ticket };

    ghost spent = { spent };
}

/// A load after which a seat has seen what it heard.
pub struct Hears;

impl Play<u8, View> for Hears {
    ghost use Rattle.sf_keyed_words.specs.Moves.{has_heard};

    ghost then = { λ step before word after. has_heard before.0 after.0 };
}

/// A load of a slot's top word: a walk begins.
pub struct LooksAtTop;

impl Play<u8, View> for LooksAtTop {
    ghost use Rattle.sf_keyed_words.specs.Plays.{walks_from};

    ghost then = { λ step before word after. walks_from before.0 step.word word after.0 };
}

/// A load of the next side word.
pub struct LooksAside;

impl Play<u8, View> for LooksAside {
    ghost use Rattle.sf_keyed_words.specs.Plays.{walks_on};

    ghost then = { λ step before word after. walks_on before.0 word after.0 };
}

/// A load of the state of the call that is looked at.
pub struct Sees;

impl Play<u8, View> for Sees {
    ghost use Rattle.std.specs.Prelude.{◌≡◌};
    ghost use Rattle.sf_keyed_words.specs.Plays.{see_state};

    ghost then = { λ step before word after. after.0 ≡ see_state before.0 word };
}

/// A second load of that state, after the name.
pub struct Confirms;

impl Play<u8, View> for Confirms {
    ghost use Rattle.sf_keyed_words.specs.Plays.{confirms};

    ghost then = { λ step before word after. confirms before.0 word after.0 };
}

/// A load of a cell's state, before the cell is claimed.
pub struct LooksAtCell;

impl Play<u8, View> for LooksAtCell {
    ghost use Rattle.std.specs.Prelude.{◌≡◌};
    ghost use Rattle.sf_keyed_words.specs.Plays.{look_cell};

    ghost then = { λ step before word after. after.0 ≡ look_cell before.0 step.word word };
}

/// A step that changes nothing, by which the seat has a number of its own.
pub struct Numbers;

impl Play<u8, View> for Numbers {
    ghost use Rattle.std.specs.Prelude.{◌≡◌};
    ghost use Rattle.sf_keyed_words.specs.Plays.{numbered};

    ghost then = { λ step before word after. after.0 ≡ numbered before.0 step.first };
}

/// A load of the lower word of the name of the call that the seat is looking at.
pub struct ReadsLow;

impl Play<u8, View> for ReadsLow {
    ghost use Rattle.std.specs.Prelude.{◌≡◌};
    ghost use Rattle.sf_keyed_words.specs.Plays.{read_low};

    ghost then = { λ step before word after. after.0 ≡ read_low before.0 word };
}

/// A load of the upper one.
pub struct Reads;

impl Play<u8, View> for Reads {
    ghost use Rattle.std.specs.Prelude.{◌≡◌};
    ghost use Rattle.sf_keyed_words.specs.Plays.{read_high};

    ghost then = { λ step before word after. after.0 ≡ read_high before.0 word };
}

/// A store of the lower word of the name of the seat's own call.
pub struct Begins;

impl Play<u8, View> for Begins {
    ghost use Rattle.std.specs.Prelude.{◌≡◌};
    ghost use Rattle.sf_keyed_words.specs.Plays.{begun_as};

    ghost then = { λ step before word after. after.0 ≡ begun_as before.0 step.first };
}

/// A store of the upper one.
pub struct Names;

impl Play<u8, View> for Names {
    ghost use Rattle.std.specs.Prelude.{◌≡◌};
    ghost use Rattle.sf_keyed_words.specs.Plays.{named_as};

    ghost then = { λ step before word after. after.0 ≡ named_as before.0 step.first };
}

/// A load of the lower word that the cell of the seat's own call has, from a call before.
pub struct FindsLow;

impl Play<u8, View> for FindsLow {
    ghost use Rattle.std.specs.Prelude.{◌≡◌};
    ghost use Rattle.sf_keyed_words.specs.Plays.{begun_as};

    ghost then = { λ step before word after. after.0 ≡ begun_as before.0 word };
}

/// A load of the upper one.
pub struct FindsHigh;

impl Play<u8, View> for FindsHigh {
    ghost use Rattle.std.specs.Prelude.{◌≡◌};
    ghost use Rattle.sf_keyed_words.specs.Plays.{named_as};

    ghost then = { λ step before word after. after.0 ≡ named_as before.0 word };
}

/// An exchange of a free cell's state.
pub struct Claims;

impl Play<u8, View> for Claims {
    ghost use Rattle.std.specs.Prelude.{◌≡◌};
    ghost use Rattle.sf_keyed_words.specs.Plays.{try_claim};

    ghost then = { λ step before word after. after.0 ≡ try_claim before.0 (step.word) step.first word };
}

/// An exchange of a side word.
pub struct SetsAside;

impl Play<u8, View> for SetsAside {
    ghost use Rattle.std.specs.Prelude.{◌≡◌};
    ghost use Rattle.sf_keyed_words.specs.Plays.{try_aside};

    ghost then = { λ step before word after. after.0 ≡ try_aside before.0 step.first word };
}

/// A store of the value of the call that the seat leads.
pub struct Stores;

impl Play<u8, View> for Stores {
    ghost use Rattle.std.specs.Prelude.{◌≡◌};
    ghost use Rattle.sf_keyed_words.specs.Plays.{stored_as};

    ghost then = { λ step before word after. after.0 ≡ stored_as before.0 step.first };
}

/// An exchange of the top word.
pub struct Leads;

impl Play<u8, View> for Leads {
    ghost use Rattle.sf_keyed_words.specs.Plays.{tries_lead};

    ghost then = { λ step before word after. tries_lead before.0 step.first word after.0 };
}

/// An exchange of a call's state, with one holder more.
pub struct Joins;

impl Play<u8, View> for Joins {
    ghost use Rattle.sf_keyed_words.specs.Plays.{tries_join};

    ghost then = { λ step before word after. tries_join before.0 step.first word after.0 };
}

/// An exchange of a state with one holder, by which its call is settled and its cell ready for the next.
pub struct SettlesAlone;

impl Play<u8, View> for SettlesAlone {
    ghost use Rattle.sf_keyed_words.specs.Plays.{tries_alone};

    ghost then = { λ step before word after. tries_alone before.0 step.first word after.0 };
}

/// The call that the seat leads is settled.
pub struct Settles;

impl Play<u8, View> for Settles {
    ghost use Rattle.sf_keyed_words.specs.Plays.{settles};

    ghost then = { λ step before word after. settles before.0 word after.0 };
}

/// An exchange of a call's state, by which it is forgotten.
pub struct Closes;

impl Play<u8, View> for Closes {
    ghost use Rattle.sf_keyed_words.specs.Plays.{tries_close};

    ghost then = { λ step before word after. tries_close before.0 step.first word after.0 };
}

/// A second load of the top word, at the end of a walk.
pub struct FindsNone;

impl Play<u8, View> for FindsNone {
    ghost use Rattle.sf_keyed_words.specs.Plays.{finds_none};

    ghost then = { λ step before word after. finds_none before.0 word after.0 };
}

/// A load of the state of the call that the seat is a holder of.
pub struct Waits;

impl Play<u8, View> for Waits {
    ghost use Rattle.std.specs.Prelude.{◌≡◌};
    ghost use Rattle.sf_keyed_words.specs.Plays.{look_settled};

    ghost then = { λ step before word after. after.0 ≡ look_settled before.0 word };
}

/// A load of that call's value.
pub struct Takes;

impl Play<u8, View> for Takes {
    ghost use Rattle.sf_keyed_words.specs.Plays.{takes};

    ghost then = { λ step before word after. takes before.0 word after.0 };
}

/// A load of the value by the seat that was the call's last holder.
pub struct TakesLast;

impl Play<u8, View> for TakesLast {
    ghost use Rattle.sf_keyed_words.specs.Plays.{takes_last};

    ghost then = { λ step before word after. takes_last before.0 word after.0 };
}

/// One holder less.
pub struct Lets;

impl Play<u8, View> for Lets {
    ghost use Rattle.std.specs.Prelude.{◌≡◌};
    ghost use Rattle.sf_keyed_words.specs.Plays.{lets_go};

    ghost then = { λ step before word after. after.0 ≡ lets_go before.0 word };
}

/// A store that sets the seat's cell free.
pub struct GivesBack;

impl Play<u8, View> for GivesBack {
    ghost use Rattle.std.specs.Prelude.{◌≡◌};
    ghost use Rattle.sf_keyed_words.specs.Plays.{given_back};

    ghost then = { λ step before word after. after.0 ≡ given_back before.0 step.first };
}

/// An exchange that seals a slot.
pub struct Seals;

impl Play<u8, View> for Seals {
    ghost use Rattle.sf_keyed_words.specs.Plays.{tries_seal};

    ghost then = { λ step before word after. tries_seal before.0 step.first step.second word after.0 };
}
