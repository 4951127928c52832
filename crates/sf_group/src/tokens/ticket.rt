//! Tickets: callers that wait for a letter.
ghost use Rattle.std.specs.Prelude.{◌≡◌, ◌+◌, ◌≤◌, []};
ghost use Rattle.sf_steps_laws.specs.declared.operation.Stage.TheVariants.{Holding};
ghost use Rattle.sf_group_steps.specs.View.{sizes_of};
ghost use Rattle.sf_group_steps.specs.Stands.{Sits, next_in};
ghost use Rattle.sf_group.specs.Known.{ticket_of, IsPlaceIn};

use crate::tokens::seated::Seated;
use sf_history::CallId;
use std::marker::Model;

/// A caller that waits for the letter of a call, as a member of it. It has to be spent.
pub struct Ticket<V> {
    pub(crate) seated: Seated<V>,
    pub(crate) place: u64,
    pub(crate) call: CallId,
    pub(crate) member: CallId,
}

impl<V> Model for Ticket<V> {
    ghost use Rattle.std.specs.Prelude.{◌≡◌, ◌≤◌, []};
    ghost use Rattle.sf_steps_laws.specs.declared.operation.Stage.TheVariants.{Holding};
    ghost use Rattle.sf_group_steps.specs.View.{sizes_of};
    ghost use Rattle.sf_group_steps.specs.Stands.{Sits, next_in};
    ghost use Rattle.sf_group.specs.Known.{ticket_of, IsPlaceIn};
    ghost use Rattle.sf_group_rows.specs.Tokens.{TicketValue};

    ghost Value = { TicketValue V };

    ghost view = { λ t. let s = t.seated in
        ticket_of s.seat.table_id s.seat.me.0 s.number t.place t.call t.member };

    ghost invariant = { λ t. let s = t.seated in let v = s.seat.me.0 in
        Sits (sizes_of v) s.number v (Holding t.place t.member.generation t.call)
        × (t.member.caller ≡ s.number) × (s.next ≡ next_in (sizes_of v) v s.number)
        × (s.seat.me.1 ≡ [])
        × IsPlaceIn (sizes_of v) t.place × (s.number ≤ 4294967295) × (t.place ≤ 4294967295) };
}

impl<V> Ticket<V> {
    // The ticket of one who waits since its last asking, which used a generation.
    pub(crate) fn of(mut seated: Seated<V>, place: u32, call: CallId, member: CallId) -> Ticket<V>
        requires sits { let v = seated.seat.me.0 in
            Sits (sizes_of v) seated.number v (Holding place member.generation call) }
        requires member { member.caller ≡ seated.number }
        requires next { let v = seated.seat.me.0 in
            (seated.next ≤ 4294967295) × (seated.next + 1 ≡ next_in (sizes_of v) v seated.number) }
        requires alone { seated.seat.me.1 ≡ [] }
        requires place { IsPlaceIn (sizes_of seated.seat.me.0) place }
        requires number { seated.number ≤ 4294967295 }
        ensures { let s = seated in
            result ≡ ticket_of s.seat.table_id s.seat.me.0 s.number place call member }
    {
        seated.next += 1;
        Ticket {
            seated,
            place: place as u64,
            call,
            member,
        }
    }

    /// The call whose letter it waits for.
    pub fn call(&self) -> CallId
        ensures { result ≡ self.now.call }
    {
        self.call
    }

    /// The member of the call that it is.
    pub fn member(&self) -> CallId
        ensures { result ≡ self.now.member }
    {
        self.member
    }

    /// Gives the ticket up for good: nothing is added, its letter is never taken, and its caller does not come back.
    pub fn abandon(self) {
        let Ticket {
            seated: _,
            place: _,
            call: _,
            member: _,
        } = self;
    }
}
