//! What a caller has seen of a chain.
ghost use Rattle.std.specs.Prelude.{length, ◌≡◌, ◌≢◌, ◌≤◌, ◌⊎◌, ◌/◌, ◌%◌, ℕ, IsSome, IsSomeAnd, IfOk, IfErr};
ghost use Rattle.std.specs.Bool.{OnTrue, OnFalse};
ghost use Rattle.once_cell.specs.Once.{cell_name};
ghost use Rattle.sf_keyed_ages.specs.Stamps.{IsDrawn, IsNotStill, IsStill};
ghost use Rattle.sf_keyed_words.specs.Rule.{number, slot_of};
ghost use Rattle.sf_keyed.specs.declared.group.Ended.TheVariants.{Gone};
ghost use Rattle.sf_keyed.specs.declared.group.Forgotten.TheVariants.{Busy};
ghost use Rattle.sf_keyed.specs.Known.{IsGone};
ghost use Rattle.sf_keyed.specs.Calls.{IsAsked, IsClaimed, IsEnded, IsForgotten, IsLeft, IsLooked, IsPassed, IsSettled};
ghost use Rattle.sf_keyed_chain.specs.Chains.{EndsAt, EndsStamp, IsGoneBefore, IsHeard, IsLater};
ghost use Rattle.sf_keyed_chain.specs.Notes.{HasHeard, told_of};

use crate::level::Level;
use once_cell::race::{Note, OnceBox};
use sf_keyed::{
    Asked, Claim, Ended, Flight, Forgotten, Front, KeyedGroup, Name, Passed, Settled, Swept, Ticket,
};
use sf_keyed_ages::AgesFront;
use std::marker::Model;

/// What a caller has seen of one table. Contracts see it as a sight.
#[derive(Drop)]
pub struct Part {
    pub(crate) note: Note<Level>,
    front: Front,
    known: AgesFront,
    swept: u64,
    done: bool,
}

impl Model for Part {
    ghost use Rattle.std.specs.Prelude.{◌≡◌, ◌<◌, ℕ, true, IsSomeAnd};
    ghost use Rattle.sf_keyed_words.specs.Rule.{slot_of};
    ghost use Rattle.sf_keyed.specs.Known.{IsGone};
    ghost use Rattle.sf_keyed_chain.specs.Chains.{Sight};

    ghost Value = { Sight };

    ghost view = { λ p. record { cell = p.note.cell; front = p.front; known = p.known; swept = p.swept; done = p.done } };

    ghost invariant = { λ p. IsSomeAnd p.note.known (λ l. (l.group ≡ p.front.group) × (l.ages.table ≡ p.known.of)) × ((k : ℕ) → slot_of p.front.group.sizes k < p.swept → IsGone p.front k) × (p.done ≡ true → (k : ℕ) → IsGone p.front k) };
}

/// What a caller had seen of one table, for another caller.
#[derive(Drop)]
pub struct Told {
    pub(crate) note: Note<Level>,
    seen: sf_keyed::Note,
    known: AgesFront,
}

impl Model for Told {
    ghost use Rattle.std.specs.Prelude.{◌≡◌, IsSomeAnd};
    ghost use Rattle.sf_keyed_chain.specs.Notes.{ToldState};

    ghost Value = { ToldState };

    ghost view = { λ t. record { cell = t.note.cell; seen = t.seen; known = t.known } };

    ghost invariant = { λ t. IsSomeAnd t.note.known (λ l. (l.group ≡ t.seen.group) × (l.ages.table ≡ t.known.of)) };
}

impl Told {
    // A note of the table, for a caller that does not know it yet.
    pub(crate) fn table_note(&mut self) -> Note<Level>
        ensures same { self.new ≡ self.old }
        ensures note { (result.cell ≡ self.old.cell) × IsSome result.known }
    {
        self.note.again()
    }
}

impl Part {
    // A table that was not looked at yet.
    pub(crate) fn new(note: Note<Level>, front: Front, known: AgesFront) -> Part
        requires { IsSomeAnd note.known (λ l. (l.group ≡ front.group) × (l.ages.table ≡ known.of)) }
        ensures { (result.cell ≡ note.cell) × (result.front ≡ front) }
    {
        Part {
            note,
            front,
            known,
            swept: 0,
            done: false,
        }
    }

    // Whether all its hash slots are swept. Then each name is gone.
    pub(crate) fn is_done(&self) -> bool
        ensures { OnTrue result ((k : ℕ) → IsGone self.now.front k) }
    {
        self.done
    }

    // A note of the table, for a call that is led or held there.
    pub(crate) fn table_note(&mut self) -> Note<Level>
        ensures same { self.new ≡ self.old }
        ensures note { (result.cell ≡ self.old.cell) × IsSomeAnd result.known (λ l. l.group ≡ self.old.front.group) }
    {
        self.note.again()
    }

    // What the caller has seen of the table, for another caller.
    pub(crate) fn tell(&mut self, link: &OnceBox<Level>) -> Told
        requires { self.old.cell ≡ cell_name link.now }
        ensures same { self.new ≡ self.old }
        ensures told { result ≡ told_of self.old }
    {
        match link.get_as(&mut self.note) {
            Some(level) => Told {
                note: self.note.again(),
                seen: level.group.tell(&mut self.front),
                known: level.tell(&mut self.known),
            },
            None => unreachable!(),
        }
    }

    // Learns what another caller had seen of the table.
    pub(crate) fn hear(&mut self, link: &OnceBox<Level>, told: Told)
        requires cell { (self.old.cell ≡ cell_name link.now) × (told.cell ≡ cell_name link.now) }
        ensures heard { IsHeard self.old self.new }
        ensures told { HasHeard told self.new }
    {
        let Told { note, seen, known } = told;
        self.note.compare(note);
        match link.get_as(&mut self.note) {
            Some(level) => {
                level.group.learn(&mut self.front, seen);
                level.learn(&mut self.known, known);
            }
            None => unreachable!(),
        }
    }

    // Sweeps the next hash slots of a table that is not the last, so many at most, up to one that has an open call.
    pub(crate) fn sweep(&mut self, link: &OnceBox<Level>, slots: u32)
        requires { self.old.cell ≡ cell_name link.now }
        ensures heard { IsHeard self.old self.new }
    {
        match link.get_as(&mut self.note) {
            Some(level) => {
                for _ in 0..slots {
                    if self.swept >= level.group.slots() {
                        self.done = true;
                        return;
                    }
                    match level.group.sweep(&mut self.front, self.swept) {
                        Swept::Quiet => self.swept += 1,
                        Swept::Open => return,
                        Swept::Busy => return,
                    }
                }
            }
            None => unreachable!(),
        }
    }

    // Passes the name by in a table that is not the last: joins its open call there, or seals its slot.
    pub(crate) fn pass(&mut self, link: &OnceBox<Level>, name: Name, tries: u32) -> Passed
        requires { self.old.cell ≡ cell_name link.now }
        ensures later { IsLater self.old self.new }
        ensures passed { IsPassed self.old.front self.new.front (number name) tries result }
    {
        match link.get_as(&mut self.note) {
            Some(level) => level.group.pass(&mut self.front, name, tries),
            None => unreachable!(),
        }
    }

    // Asks the table, after the age of the name's hash slot was drawn. Returns that slot and its age too.
    pub(crate) fn ask(&mut self, link: &OnceBox<Level>, name: Name, tries: u32) -> (Asked, u64, u64)
        requires { self.old.cell ≡ cell_name link.now }
        ensures later { IsLater self.old self.new }
        ensures asked { IsAsked self.old.front self.new.front (number name) tries result.0 }
        ensures slot { result.1 ≡ slot_of self.old.front.group.sizes (number name) }
        ensures drawn { IsDrawn self.old.known self.new.known result.1 result.2 }
    {
        match link.get_as(&mut self.note) {
            Some(level) => {
                let slot = level.group.slot(name);
                let age = level.draw(&mut self.known, slot);
                (
                    level.group.ask_at(&mut self.front, slot, name, tries),
                    slot,
                    age,
                )
            }
            None => unreachable!(),
        }
    }

    // Closes the name's open call in the table, or finds that it has none there, and ends what was stamped at its hash slot before.
    pub(crate) fn forget(&mut self, link: &OnceBox<Level>, name: Name, tries: u32) -> Forgotten
        requires { self.old.cell ≡ cell_name link.now }
        ensures later { IsLater self.old self.new }
        ensures forgotten { IsForgotten self.old.front self.new.front (number name) tries result }
        ensures ended { result ≢ Busy → EndsAt self.old.known self.new.known (slot_of self.old.front.group.sizes (number name)) }
    {
        match link.get_as(&mut self.note) {
            Some(level) => {
                let slot = level.group.slot(name);
                let forgotten = level.group.forget_at(&mut self.front, slot, name, tries);
                if forgotten != Forgotten::Busy {
                    level.end(&mut self.known, slot);
                }
                forgotten
            }
            None => unreachable!(),
        }
    }

    // Closes this call of the name if it is open, and ends what was stamped at this slot and age where it is not.
    pub(crate) fn forget_call(
        &mut self,
        link: &OnceBox<Level>,
        name: Name,
        call: u64,
        slot: u64,
        age: u64,
        tries: u32,
    ) -> Ended
        requires { self.old.cell ≡ cell_name link.now }
        ensures later { IsLater self.old self.new }
        ensures ended { IsEnded self.old.front self.new.front (number name) call tries result }
        ensures stamp { result ≡ Gone → EndsStamp self.new slot age }
    {
        match link.get_as(&mut self.note) {
            Some(level) => {
                let ended = level.group.forget_call(&mut self.front, name, call, tries);
                if ended != Ended::Gone || slot >= level.group.slots() {
                    return ended;
                }
                level.end_at(&mut self.known, slot, age);
                ended
            }
            None => unreachable!(),
        }
    }

    // Whether what has this stamp is current, in this table.
    pub(crate) fn is_still(&mut self, link: &OnceBox<Level>, slot: u64, age: u64) -> bool
        requires { self.old.cell ≡ cell_name link.now }
        ensures heard { IsHeard self.old self.new }
        ensures still { OnTrue result (IsStill self.new.known slot age) }
        ensures over { OnFalse result ((self.new.front.group.sizes.tops ≤ slot) ⊎ IsNotStill self.new.known slot age) }
    {
        match link.get_as(&mut self.note) {
            Some(level) => slot < level.group.slots() && level.is_still(&mut self.known, slot, age),
            None => unreachable!(),
        }
    }

    // Takes a free cell of the table for the next call that the caller leads there.
    pub(crate) fn claim(&mut self, link: &OnceBox<Level>, cell: u64) -> Claim
        requires { self.old.cell ≡ cell_name link.now }
        ensures later { IsLater self.old self.new }
        ensures claimed { IsClaimed self.old.front self.new.front cell result }
    {
        match link.get_as(&mut self.note) {
            Some(level) => level.group.claim(&mut self.front, cell),
            None => unreachable!(),
        }
    }

    // Settles a call of the table, of which this is a note.
    pub(crate) fn settle(
        &mut self,
        link: &OnceBox<Level>,
        note: &mut Note<Level>,
        flight: Flight,
        value: u64,
    ) -> Settled
        requires cell { (self.old.cell ≡ cell_name link.now) × (note.old.cell ≡ cell_name link.now) }
        requires known { IsSomeAnd note.old.known (λ l. l.group ≡ flight.group) }
        ensures note { note.new ≡ note.old }
        ensures group { self.old.front.group ≡ flight.group }
        ensures later { IsLater self.old self.new }
        ensures settled { IsSettled self.old.front self.new.front flight value result }
    {
        self.note.compare(note.again());
        match link.get_as(&mut self.note) {
            Some(level) => level.group.settle(&mut self.front, flight, value),
            None => unreachable!(),
        }
    }

    // What a call of the table was settled with, of which this is a note.
    pub(crate) fn look(
        &mut self,
        link: &OnceBox<Level>,
        note: &mut Note<Level>,
        ticket: Ticket,
    ) -> (Option<u64>, Ticket)
        requires cell { (self.old.cell ≡ cell_name link.now) × (note.old.cell ≡ cell_name link.now) }
        requires known { IsSomeAnd note.old.known (λ l. l.group ≡ ticket.group) }
        ensures note { note.new ≡ note.old }
        ensures group { self.old.front.group ≡ ticket.group }
        ensures later { IsLater self.old self.new }
        ensures held { result.1 ≡ ticket }
        ensures looked { IsLooked self.old.front self.new.front ticket result.0 }
    {
        self.note.compare(note.again());
        match link.get_as(&mut self.note) {
            Some(level) => level.group.look(&mut self.front, ticket),
            None => unreachable!(),
        }
    }

    // Gives up a ticket of the table, of which this is a note.
    pub(crate) fn leave(
        &mut self,
        link: &OnceBox<Level>,
        note: &mut Note<Level>,
        ticket: Ticket,
    ) -> Option<u64>
        requires cell { (self.old.cell ≡ cell_name link.now) × (note.old.cell ≡ cell_name link.now) }
        requires known { IsSomeAnd note.old.known (λ l. l.group ≡ ticket.group) }
        ensures note { note.new ≡ note.old }
        ensures group { self.old.front.group ≡ ticket.group }
        ensures later { IsLater self.old self.new }
        ensures left { IsLeft self.old.front self.new.front ticket result }
    {
        self.note.compare(note.again());
        match link.get_as(&mut self.note) {
            Some(level) => level.group.leave(&mut self.front, ticket),
            None => unreachable!(),
        }
    }
}

/// What a caller has seen of a chain. Contracts see it as the sights of the tables that it knows.
#[derive(Drop)]
pub struct ChainFront {
    pub(crate) number: u64,
    pub(crate) parts: Vec<Part>,
}

impl Model for ChainFront {
    ghost use Rattle.std.specs.Prelude.{List, ◌≤◌, length};
    ghost use Rattle.std.specs.Vec.{vec_capacity};
    ghost use Rattle.sf_keyed_chain.specs.Chains.{Sight};

    ghost Value = { List Sight };

    ghost view = { λ f. f.parts.items };

    // It has room for all tables that there may be, so that no call but the one that makes it takes memory.
    ghost invariant = { λ f. 24 ≤ vec_capacity f.parts };
}

impl ChainFront {
    /// How many tables the caller knows.
    pub fn tables(&self) -> usize
        ensures { result ≡ length self.now }
    {
        self.parts.len()
    }

    /// How many of the first tables are swept whole, so that no name has a call there any more: askings pass them over.
    pub fn passed(&self) -> usize
        ensures { (k : ℕ) → IsGoneBefore k result self.now }
    {
        for at in 0..self.parts.len() {
            if !self.parts[at].is_done() {
                return at;
            }
        }
        self.parts.len()
    }
}

/// What a caller had seen of a chain, for another caller. Contracts see it as what was told of each table, in their order.
#[derive(Drop)]
pub struct ChainNote {
    pub(crate) parts: Vec<Told>,
}

impl Model for ChainNote {
    ghost use Rattle.std.specs.Prelude.{List};
    ghost use Rattle.sf_keyed_chain.specs.Notes.{ToldState};

    ghost Value = { List ToldState };

    ghost view = { λ n. n.parts.items };
}
