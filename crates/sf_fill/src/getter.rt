//! Getters: what they owe, and what they tell each other.
ghost use Rattle.std.specs.Prelude.{IfSome, ◌≡◌, ◌↔◌, ◌-◌, ◌<◌, ◌^◌, IsTrue, false, is_ok, not};
ghost use Rattle.sf_fill_store.specs.Standings.{free_caller, is_owing, seen_of};
ghost use Rattle.sf_group_rows.specs.Seen.{StartsWith};
ghost use Rattle.sf_fill.specs.GetterValue.{with_loaders};
ghost use Rattle.sf_fill.specs.Renewing.{Renews};
ghost use Rattle.sf_fill.specs.Fresh.{HasAdded, delivered_by};
ghost use Rattle.sf_fill_store.specs.Logs.{empty_log, logged_by};
ghost use Rattle.sf_fill.specs.Owing.{HasSettledUp};
ghost use Rattle.sf_group_rows.specs.Notes.{HasGrown};
ghost use Rattle.sf_fill.specs.Notes.{HasToldNote, HasLearntNote, NotesCarryPurges, NotesCarryReloads};

use crate::chair::Chair;
use crate::fill::Fill;
use crate::seat::Seat;
use sf_fill_counters::{Naming, Tallies};
use sf_fill_values::FillValue;
use sf_group::{Caller, Event, Memory, Note};
use sf_loaders::Origin;
use sf_words::PlaceNo;
use std::marker::Model;
use std::sync::Wait;

/// One who gets keys of a fill, in one thread at a time. It has to be spent.
pub struct Getter<'d, D: Naming, N: Naming, O: Origin, L> {
    pub(crate) seat: Seat<'d, D, N, O>,
    pub(crate) loaders: L,
}

impl<'d, D: Naming, N: Naming, O: Origin, L> Model for Getter<'d, D, N, O, L> {
    ghost use Rattle.sf_fill.specs.GetterValue.{GetterValue, with_loaders};

    ghost Value = { GetterValue L };

    ghost view = { λ g. with_loaders g.seat g.loaders };
}

impl<'d, D: Naming, N: Naming, O: Origin, L> Getter<'d, D, N, O, L> {
    // Whether no further get can be counted.
    pub(crate) fn is_full(&self) -> bool
        ensures full { IsTrue result ↔ (self.now.counted.gets ≡ 2 ^ 64 - 1) }
        ensures room { result ≡ false → self.now.counted.gets < 2 ^ 64 - 1 }
    {
        self.seat.is_full()
    }

    /// Whether a delivery is owed.
    pub fn owes(&self) -> bool
        ensures { result ≡ is_owing self.now.standing }
    {
        self.seat.owes()
    }

    /// The events that the getter's calls added, oldest first, as far as there was room for them; the results are `()`. The
    /// getter keeps none of them, and has no room for further ones.
    pub fn take_log(&mut self) -> Vec<Event<PlaceNo, ()>>
        ensures events { result.items ≡ self.old.log.events }
        ensures emptied { self.new ≡ record self.old { log = empty_log 0 } }
    {
        let seat = &mut self.seat;
        seat.log.take()
    }

    /// What the getter loads with, to look at.
    pub fn loaders(&self) -> &L
        ensures { result.now ≡ self.now.loaders }
    {
        &self.loaders
    }

    /// Spends the getter, once all that it counted is entered in the fill's book, and gives its caller to who asks and forgets in
    /// the fill's group without the fill. One that owes letters gives none, and abandons them.
    pub fn into_caller<R: Wait>(
        self,
        rt: &R,
        fill: &Fill<'d, D, N, O>,
    ) -> Option<Caller<FillValue<'d, D, O>>>
    where
        L: Drop,
        ensures caller { result ≡ free_caller self.entry.standing }
        ensures group { IfSome result (λ caller. caller.group ≡ N.group) }
    {
        let Getter { seat, loaders: _ } = self;
        let Seat {
            desk: _,
            chair,
            mut tallies,
            log: _,
            near: _,
        } = seat;
        fill.store.enter(rt, &mut tallies);
        chair.into_caller()
    }

    /// Enters in the fill's book what the getter has counted and not entered yet: the last 63 gets at most that its near letters
    /// answered.
    pub fn enter<R: Wait>(&mut self, rt: &R, fill: &Fill<'d, D, N, O>)
        ensures { self.new ≡ self.old }
    {
        let seat = &mut self.seat;
        fill.store.enter(rt, &mut seat.tallies);
    }

    /// Spends the getter, once all that it counted is entered in the fill's book; what it owes is abandoned.
    pub fn end<R: Wait>(self, rt: &R, fill: &Fill<'d, D, N, O>)
    where
        L: Drop,
    {
        let mut tallies = self.into_tallies();
        fill.store.enter(rt, &mut tallies);
    }

    /// Spends the getter where there is no fill at hand: what it owes is abandoned, and so are the last 63 gets at most, answered by its
    /// near letters, that are not entered in the book.
    pub fn abandon(self)
    where
        L: Drop,
    {
        drop(self.into_tallies());
    }

    // Spends the getter, but for its tallies.
    pub(crate) fn into_tallies(self) -> Tallies<N>
    where
        L: Drop,
        ensures { result.counted ≡ self.entry.counted }
    {
        let Getter { seat, loaders: _ } = self;
        let Seat {
            desk: _,
            chair: _,
            tallies,
            log: _,
            near: _,
        } = seat;
        tallies
    }

    /// Delivers the letters that are owed; where memory for one is refused, they are owed still.
    pub fn settle_up(&mut self, fill: &Fill<'d, D, N, O>) -> Result<(), Memory>
        ensures settled { HasSettledUp self.old self.new }
        ensures adds { HasAdded self.old.standing self.new.standing
            (delivered_by self.old.standing self.new.standing) }
        ensures logged { self.new.log ≡ logged_by self.old.log
            (delivered_by self.old.standing self.new.standing) }
        ensures done { is_ok result ≡ not (is_owing self.new.standing) }
    {
        self.seat.settle_up(fill.group())
    }

    /// A note that shows what the getter has seen, as the Forgets of its reloads.
    pub fn tell(&mut self, fill: &Fill<'d, D, N, O>) -> Note<FillValue<'d, D, O>>
        ensures group { result.group ≡ N.group }
        ensures told { HasToldNote self.old self.new result }
    {
        let group = fill.group();
        let seat = &mut self.seat;
        match &mut seat.chair {
            Chair::Free(caller) => group.tell(caller),
            Chair::Owing(settled) => settled.tell(group),
            Chair::Away => unreachable!(),
        }
    }

    /// The getter has then seen what the note shows: its next get answers nothing that a Forget had ended that the note
    /// shows. What it owes it owes still.
    pub fn learn(&mut self, fill: &Fill<'d, D, N, O>, note: &mut Note<FillValue<'d, D, O>>)
        requires note { note.old.group ≡ N.group }
        ensures learnt { HasLearntNote self.old note.old.seen self.new }
        ensures note { HasGrown note.old note.new }
    {
        let group = fill.group();
        let seat = &mut self.seat;
        match &mut seat.chair {
            Chair::Free(caller) => group.learn(caller, note),
            Chair::Owing(settled) => settled.learn(group, note),
            Chair::Away => unreachable!(),
        }
    }

    /// Returns the getter with these loaders, and the loaders that it had. A getter that was made with no loaders, as of `()`, is a seat
    /// for one that is added while the fill runs: it can get keys once it has loaders.
    pub fn with_loaders<M>(self, loaders: M) -> (Getter<'d, D, N, O, M>, L)
        ensures getter { result.0 ≡ with_loaders self.entry loaders }
        ensures back { result.1 ≡ self.entry.loaders }
    {
        let Getter {
            seat,
            loaders: back,
        } = self;
        (Getter { seat, loaders }, back)
    }

    /// Trades the getter's caller for the spare one, so that a getter whose caller has no generation left goes on. Each of the two
    /// callers has then seen what either had. Returns whether it was done: a getter that owes letters keeps its caller.
    pub fn renew(
        &mut self,
        fill: &Fill<'d, D, N, O>,
        spare: &mut Caller<FillValue<'d, D, O>>,
    ) -> bool
        requires spare { spare.old.group ≡ N.group }
        ensures renewed { Renews self.old spare.old result self.new spare.new }
        ensures seen { StartsWith (seen_of self.new.standing) (seen_of self.old.standing) }
        ensures group { spare.new.group ≡ N.group }
    {
        self.seat.renew(fill.group(), spare)
    }
}

/// A getter that learns the note of one that reloaded a key gets nothing of the key's place from before: no letter of the call
/// that was current when the reload began, and, where that closed or cleared its call, no bytes that were loaded before its
/// Forget. This function has no code, and its contract is the law.
pub fn notes_carry_reloads<L, M>()
    ensures { NotesCarryReloads L M }
{}

/// A getter that learns the note of one that forgot all places gets nothing from before: no letter of a call that was current when
/// that began, and no bytes that were loaded before a Forget of their place that the note shows. This function has no code,
/// and its contract is the law.
pub fn notes_carry_purges<L, M>()
    ensures { NotesCarryPurges L M }
{}
