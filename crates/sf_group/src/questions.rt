//! The questions whether a letter's call, or a call of any numbers, is its place's current one, and which call a place names.
ghost use Rattle.std.specs.Prelude.{◌≡◌};
ghost use Rattle.sf_group_rows.specs.Same.{IsPlaceOf, HasNothing, IsSameFlight, IsStillTicket};
ghost use Rattle.sf_group_rows.specs.Currents.{HasQuestioned, IsStillSaid};
ghost use Rattle.sf_group_rows.specs.Finishes.{IsHeldStill};
ghost use Rattle.sf_group_rows.specs.Forgets.{HasNamed};

use crate::group::Group;
use crate::tokens::{Caller, Flight, Letter, Settled, Ticket};
use sf_group_rows::Fit;
use sf_group_steps::{Actor, ask_current, ask_named, is_still_current};
use sf_history::CallId;

impl<V: Fit> Group<V> {
    /// Whether the letter's call is its place's current one. The caller first learns what the letter's note shows. Where the
    /// answer is yes, the call was current at some time later than all that the caller and the note had seen; where it is no, the
    /// call is not current when the question ends. It tries nothing again and takes no memory.
    pub fn is_current(&self, caller: &mut Caller<V>, letter: &mut Letter<V>) -> bool
        requires own { caller.old.group ≡ self.now }
        requires letter { letter.old.group ≡ self.now }
        ensures { HasQuestioned caller.old letter.old result caller.new letter.new }
    {
        self.learn(caller, &mut letter.note);
        let actor = Actor {
            sizes: self.sizes,
            number: caller.seated.number as u32,
            place: letter.place as u32,
        };
        let words = &self.table.shared;
        ask_current(words, &mut caller.seated.seat, actor, letter.call)
    }

    /// Which call the place names, for a Forget of that call alone: where it names one, that was led last on the place; where
    /// it names none, the place has no current call. Both are right at the end. It tries nothing again and takes no memory.
    pub fn named(&self, caller: &mut Caller<V>, place: u32) -> Option<CallId>
        requires own { caller.old.group ≡ self.now }
        requires place { IsPlaceOf self.now place }
        ensures { HasNamed caller.old place result caller.new }
    {
        let actor = Actor {
            sizes: self.sizes,
            number: caller.seated.number as u32,
            place,
        };
        ask_named(&self.table.shared, &mut caller.seated.seat, actor)
    }
    /// Whether the call of these numbers, whichever they are, is the place's current one. Where the answer is yes, the call was
    /// current at some time later than all that the caller had seen, whether it knew of the call or not; where it is no, the call
    /// is not current when the question ends. It loads two words at most, tries nothing again and takes no memory.
    pub fn is_still_current(&self, caller: &mut Caller<V>, place: u32, call: CallId) -> bool
        requires own { caller.old.group ≡ self.now }
        requires place { IsPlaceOf self.now place }
        ensures nothing { HasNothing caller.old caller.new }
        ensures said { IsStillSaid place call result caller.old.seen caller.new.seen }
    {
        is_still_current(
            &self.table.shared,
            &mut caller.seated.seat,
            self.sizes,
            place,
            call,
        )
    }
}

impl<V: Fit> Flight<V> {
    /// Whether the call of these numbers is the place's current one, as `Caller::is_still_current` says it, for a leader.
    pub fn is_still_current(&mut self, group: &Group<V>, place: u32, call: CallId) -> bool
        requires own { self.old.group ≡ group.now }
        requires place { IsPlaceOf group.now place }
        ensures same { IsSameFlight self.old self.new }
        ensures said { IsStillSaid place call result self.old.seen self.new.seen }
    {
        is_still_current(
            &group.table.shared,
            &mut self.leader.seated.seat,
            group.sizes,
            place,
            call,
        )
    }
}

impl<V: Fit> Ticket<V> {
    /// Whether the call of these numbers is the place's current one, as `Caller::is_still_current` says it, for a caller that waits.
    pub fn is_still_current(&mut self, group: &Group<V>, place: u32, call: CallId) -> bool
        requires own { self.old.group ≡ group.now }
        requires place { IsPlaceOf group.now place }
        ensures same { IsStillTicket self.old self.new }
        ensures said { IsStillSaid place call result self.old.seen self.new.seen }
    {
        is_still_current(
            &group.table.shared,
            &mut self.seated.seat,
            group.sizes,
            place,
            call,
        )
    }
}

impl<V: Fit> Settled<V> {
    /// Whether the call of these numbers is the place's current one, as `Caller::is_still_current` says it, for a caller that owes letters.
    pub fn is_still_current(&mut self, group: &Group<V>, place: u32, call: CallId) -> bool
        requires own { self.old.group ≡ group.now }
        requires place { IsPlaceOf group.now place }
        ensures same { IsHeldStill self.old self.new }
        ensures said { IsStillSaid place call result self.old.seen self.new.seen }
    {
        is_still_current(
            &group.table.shared,
            &mut self.leader.seated.seat,
            group.sizes,
            place,
            call,
        )
    }
}
