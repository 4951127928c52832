//! Flights: callers that lead a call.
ghost use Rattle.std.specs.Prelude.{◌≡◌, ◌+◌, ◌≤◌, [], IfSome};
ghost use Rattle.sf_steps_laws.specs.declared.operation.Stage.TheVariants.{Leading};
ghost use Rattle.sf_group_rows.specs.Afters.{FollowsCall};
ghost use Rattle.sf_group_steps.specs.View.{sizes_of};
ghost use Rattle.sf_group_steps.specs.Stands.{Sits, next_in};
ghost use Rattle.sf_group.specs.Known.{flight_of, IsPlaceIn};

use crate::tokens::seated::{Leader, Seated};
use crate::tokens::wide::MaybeCall;
use sf_history::CallId;
use std::marker::Model;

/// A caller that leads a call, until it settles that. It has to be spent.
pub struct Flight<V> {
    pub(crate) leader: Leader<V>,
    pub(crate) after: MaybeCall,
}

impl<V> Model for Flight<V> {
    ghost use Rattle.std.specs.Prelude.{◌≡◌, ◌≤◌, []};
    ghost use Rattle.sf_steps_laws.specs.declared.operation.Stage.TheVariants.{Leading};
    ghost use Rattle.sf_group_steps.specs.View.{sizes_of};
    ghost use Rattle.sf_group_steps.specs.Stands.{Sits, next_in};
    ghost use Rattle.sf_group.specs.Known.{call_before, flight_of, IsPlaceIn};
    ghost use Rattle.sf_group_rows.specs.Tokens.{FlightValue};
    ghost use Rattle.sf_group_rows.specs.Afters.{FollowsCall};

    ghost Value = { FlightValue V };

    ghost view = { λ f. let l = f.leader in let s = l.seated in
        let call = call_before s.number s.next in
        flight_of s.seat.table_id s.seat.me.0 s.number l.place call l.own };

    ghost invariant = { λ f. let l = f.leader in let s = l.seated in let v = s.seat.me.0 in
        let call = call_before s.number s.next in
        Sits (sizes_of v) s.number v (Leading l.place call.generation l.own)
        × (s.next ≡ next_in (sizes_of v) v s.number) × (s.seat.me.1 ≡ [])
        × IsPlaceIn (sizes_of v) l.place
        × FollowsCall (flight_of s.seat.table_id v s.number l.place call l.own) f.after
        × (s.number ≤ 4294967295) × (l.place ≤ 4294967295)
        × (2 ≤ s.next) × (s.next ≤ 4294967296) };
}

impl<V> Flight<V> {
    // The flight of one who leads since its last asking, which used a generation.
    pub(crate) fn of(
        mut seated: Seated<V>,
        place: u32,
        call: CallId,
        own: Option<CallId>,
        after: Option<CallId>,
    ) -> Flight<V>
        requires sits { let v = seated.seat.me.0 in
            Sits (sizes_of v) seated.number v (Leading place call.generation own) }
        requires call { (call.caller ≡ seated.number) × (call.generation ≡ seated.next)
            × (1 ≤ call.generation) }
        requires next { let v = seated.seat.me.0 in
            (seated.next ≤ 4294967295) × (seated.next + 1 ≡ next_in (sizes_of v) v seated.number) }
        requires alone { seated.seat.me.1 ≡ [] }
        requires place { IsPlaceIn (sizes_of seated.seat.me.0) place }
        requires own { IfSome own (λ member. 1 ≤ member.caller) }
        requires after { let s = seated in
            FollowsCall (flight_of s.seat.table_id s.seat.me.0 s.number place call own) after }
        requires number { seated.number ≤ 4294967295 }
        ensures { let s = seated in
            result ≡ flight_of s.seat.table_id s.seat.me.0 s.number place call own }
    {
        seated.next = call.generation as u64 + 1;
        let leader = Leader {
            seated,
            place: place as u64,
            own: MaybeCall::of(own),
        };
        Flight {
            leader,
            after: MaybeCall::of(after),
        }
    }

    /// The call that it leads.
    pub fn call(&self) -> CallId
        ensures { result ≡ self.now.call }
    {
        self.leader.call()
    }

    /// The number of its place.
    pub fn place(&self) -> u32
        ensures { result ≡ self.now.place }
    {
        self.leader.place as u32
    }

    /// The call that was current on its place before it, which no Forget had closed; it may have been settled.
    pub fn after(&self) -> Option<CallId>
        ensures { FollowsCall self.now result }
    {
        self.after.get()
    }

    /// Gives the flight up for good: nothing is added, its call is never settled, and its caller does not come back.
    pub fn abandon(self) {
        let Flight {
            leader: _,
            after: _,
        } = self;
    }
}
