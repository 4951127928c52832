//! A flight or a ticket goes to a seat of its own and comes back, and a seat hears what another has seen.
ghost use Rattle.std.specs.Prelude.{◌≡◌, ◌≢◌, ◌<◌, []};
ghost use Rattle.sf_keyed_words.specs.Moves.{without_flight, flight_of, without_ticket, ticket_of, with_note, with_flight, with_ticket, has_heard};

use crate::rule::{Hears, JoinsFlight, JoinsNote, JoinsTicket, SplitsFlight, SplitsTicket};
use crate::steps::{KeyedSeat, Words};

/// A new seat that leads the call which this one leads.
pub fn split_flight(words: &Words, seat: &mut KeyedSeat) -> KeyedSeat
    requires own { seat.old.table_id ≡ words.now.table_id }
    requires words { 0 < words.now.table_id.words }
    requires leads { seat.old.me.0.leads ≢ 0 }
    ensures own { (seat.new.table_id ≡ seat.old.table_id) × (result.table_id ≡ words.now.table_id) }
    ensures seat { seat.new.me.0 ≡ without_flight seat.old.me.0 }
    ensures new { result.me ≡ (flight_of seat.old.me.0, []) }
{
    words.split_seat::<SplitsFlight>(seat)
}

/// A new seat that is a holder of the call which this one is a holder of.
pub fn split_ticket(words: &Words, seat: &mut KeyedSeat) -> KeyedSeat
    requires own { seat.old.table_id ≡ words.now.table_id }
    requires words { 0 < words.now.table_id.words }
    ensures own { (seat.new.table_id ≡ seat.old.table_id) × (result.table_id ≡ words.now.table_id) }
    ensures seat { seat.new.me.0 ≡ without_ticket seat.old.me.0 }
    ensures new { result.me ≡ (ticket_of seat.old.me.0, []) }
{
    words.split_seat::<SplitsTicket>(seat)
}

// Has seen then what the seat heard before.
fn hear(words: &Words, seat: &mut KeyedSeat)
    requires own { seat.old.table_id ≡ words.now.table_id }
    requires words { 0 < words.now.table_id.words }
    ensures own { seat.new.table_id ≡ seat.old.table_id }
    ensures heard { has_heard seat.old.me.0 seat.new.me.0 }
{
    words.load::<Hears>(seat, 0);
}

/// Hears what the other seat has seen.
pub fn join_note(words: &Words, seat: &mut KeyedSeat, other: KeyedSeat)
    requires own { (seat.old.table_id ≡ words.now.table_id) × (other.table_id ≡ words.now.table_id) }
    requires words { 0 < words.now.table_id.words }
    requires bare { (other.me.0.own ≡ 0) × (other.me.0.leads ≡ 0) × (other.me.0.ticket ≡ 0) × (other.me.1 ≡ []) }
    ensures own { seat.new.table_id ≡ seat.old.table_id }
    ensures heard { has_heard (with_note seat.old.me.0 other.me.0) seat.new.me.0 }
{
    words.join_seat::<JoinsNote>(seat, other);
    hear(words, seat);
}

/// Takes over the call that the other seat leads.
pub fn join_flight(words: &Words, seat: &mut KeyedSeat, other: KeyedSeat)
    requires own { (seat.old.table_id ≡ words.now.table_id) × (other.table_id ≡ words.now.table_id) }
    requires words { 0 < words.now.table_id.words }
    requires idle { seat.old.me.0.leads ≡ 0 }
    requires flight { (other.me.0.own ≡ 0) × (other.me.0.leads ≢ 0) × (other.me.0.ticket ≡ 0) × (other.me.1 ≡ []) }
    ensures own { seat.new.table_id ≡ seat.old.table_id }
    ensures heard { has_heard (with_flight seat.old.me.0 other.me.0) seat.new.me.0 }
{
    words.join_seat::<JoinsFlight>(seat, other);
    hear(words, seat);
}

/// Takes over the call that the other seat is a holder of.
pub fn join_ticket(words: &Words, seat: &mut KeyedSeat, other: KeyedSeat)
    requires own { (seat.old.table_id ≡ words.now.table_id) × (other.table_id ≡ words.now.table_id) }
    requires words { 0 < words.now.table_id.words }
    requires idle { seat.old.me.0.ticket ≡ 0 }
    requires ticket { (other.me.0.own ≡ 0) × (other.me.0.leads ≡ 0) × (other.me.1 ≡ []) }
    ensures own { seat.new.table_id ≡ seat.old.table_id }
    ensures heard { has_heard (with_ticket seat.old.me.0 other.me.0) seat.new.me.0 }
{
    words.join_seat::<JoinsTicket>(seat, other);
    hear(words, seat);
}
