//! Unfinished deliveries: callers that have settled their call, and owe letters of it.
ghost use Rattle.std.specs.Prelude.{◌≡◌};

use crate::tokens::seated::Leader;
use crate::tokens::wide::MaybeNumber;
use sf_group_rows::Fit;
use std::marker::Model;

/// A caller that has settled its call for good, and owes letters of it still. It has to be spent.
pub struct Settled<V: Fit> {
    pub(crate) leader: Leader<V>,
    pub(crate) joiners: u64,
    // The member with whom the list of those begins that are still owed letters.
    pub(crate) top: MaybeNumber,
    pub(crate) value: V,
}

impl<V: Fit> Model for Settled<V> {
    ghost use Rattle.std.specs.Prelude.{◌≡◌, ◌≤◌, []};
    ghost use Rattle.sf_history.specs.declared.event.Event.TheVariants as event;
    ghost use Rattle.sf_group_rows.specs.Seen.{Stands};
    ghost use Rattle.sf_group_steps.specs.Delivers.{IsOwed};
    ghost use Rattle.sf_steps_laws.specs.Turns.{at_members};
    ghost use Rattle.sf_group_steps.specs.View.{sizes_of, history_of};
    ghost use Rattle.sf_group_steps.specs.Stands.{Sits, next_in};
    ghost use Rattle.sf_group.specs.Known.{call_before, settled_of, IsPlaceIn};
    ghost use Rattle.sf_group_rows.specs.Tokens.{SettledValue};

    ghost Value = { SettledValue V };

    ghost view = { λ s. let l = s.leader in let a = l.seated in
        let call = call_before a.number a.next in
        settled_of a.seat.table_id a.seat.me.0 a.number l.place call s.value s.joiners };

    ghost invariant = { λ s. let l = s.leader in let a = l.seated in let v = a.seat.me.0 in
        let seen = history_of (sizes_of v) v.known.turns in
        let call = call_before a.number a.next in
        Sits (sizes_of v) a.number v
        (at_members l.place call.generation l.own s.value s.joiners s.top)
        × (a.next ≡ next_in (sizes_of v) v a.number)
        × (a.seat.me.1 ≡ []) × IsOwed s.top l.own × V.fits l.place call s.value seen
        × Stands (event.Settle call.caller call s.value s.joiners) seen
        × IsPlaceIn (sizes_of v) l.place × (a.number ≤ 4294967295) × (l.place ≤ 4294967295)
        × (s.joiners ≤ 4294967295) × (2 ≤ a.next) × (a.next ≤ 4294967296) };
}

impl<V: Fit> Settled<V> {
    /// How many joined the call.
    pub fn joiners(&self) -> u32
        ensures { result ≡ self.now.joiners }
    {
        self.joiners as u32
    }

    /// Gives the delivery up for good: nothing is added, the letters still owed never come, and its caller does not come
    /// back.
    pub fn abandon(self) {
        let Settled {
            leader: _,
            value: _,
            joiners: _,
            top: _,
        } = self;
    }
}
