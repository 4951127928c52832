//! The ages, and what callers know of them.
ghost use Rattle.std.specs.Prelude.{◌≡◌, ◌+◌, ◌<◌, ◌≤◌, ◌^◌, [], IfOk};
ghost use Rattle.std.specs.Bool.{OnTrue, OnFalse};
ghost use Rattle.sf_keyed_ages.specs.Rule.{Has};
ghost use Rattle.sf_keyed_ages.specs.Stamps.{KnowsOn, IsDrawn, IsEnded, IsEndedAt, IsNotStill, IsStill};

use crate::rule::{Ends, Known, Law, Learns, Sees, Shares, Sits};
use atomic_table::{Seat, Table};
use std::alloc::{AllocError, Global};
use std::marker::Model;

// A slot of this age ends nothing any more, so that nothing there is current.
const SPENT: u64 = 1 << 62;

/// An age for each slot, which counts the Forgets that are done. Clauses see which ages they are, and how many slots.
#[derive(Drop)]
pub struct Ages {
    table: Table<(), Known, u64, Law, Global>,
    slots: u64,
}

impl Model for Ages {
    ghost use Rattle.std.specs.Prelude.{◌≡◌, ◌<◌};
    ghost use Rattle.sf_keyed_ages.specs.Stamps.{AgesId};

    ghost Value = { AgesId };

    ghost view = { λ a. record { table = a.table.shared.table_id; slots = a.slots } };

    ghost invariant = { λ a. (a.table.shared.key ≡ a.slots) × (a.table.shared.table_id.words ≡ a.slots) × (0 < a.slots) };
}

/// What a caller knows of ages: of Forgets, and of stamps. It takes no bytes. Clauses see the facts.
#[derive(Drop)]
pub struct AgesFront {
    seat: Seat<(), Known>,
}

impl Model for AgesFront {
    ghost use Rattle.std.specs.Prelude.{◌≡◌, []};
    ghost use Rattle.sf_keyed_ages.specs.Stamps.{AgesState};

    ghost Value = { AgesState };

    ghost view = { λ a. record { of = a.seat.table_id; facts = a.seat.me.0.facts } };

    ghost invariant = { λ a. a.seat.me.1 ≡ [] };
}

impl Ages {
    /// So many slots, each of age 0. Refused where there is no memory.
    pub fn new(alloc: Global, slots: u64) -> Result<Ages, AllocError>
        requires { (0 < slots) × (slots ≤ 2 ^ 32) }
        ensures { IfOk result (λ ages. ages.slots ≡ slots) }
    {
        let words = Vec::from_elem(alloc, 0u64, slots as usize)?;
        let (table, _seat) = Table::<(), Known, u64, Law, Global>::of_words(
            alloc,
            words.as_slice(),
            &slots,
        )?;
        Ok(Ages { table, slots })
    }

    /// A caller that knows nothing.
    pub fn enter(&self) -> AgesFront
        ensures { (result.of ≡ self.now.table) × (result.facts ≡ []) }
    {
        let _slots = self.slots;
        let (_, seat) = self.table.shared.load_new_seat::<Sits>(0);
        AgesFront { seat }
    }

    /// What this caller knows, for another caller: a caller that knows the same.
    pub fn tell(&self, me: &mut AgesFront) -> AgesFront
        requires { me.old.of ≡ self.now.table }
        ensures { (me.new ≡ me.old) × (result ≡ me.old) }
    {
        let _slots = self.slots;
        let seat = self.table.shared.split_seat::<Shares>(&mut me.seat);
        AgesFront { seat }
    }

    /// Learns what another caller knew.
    pub fn learn(&self, me: &mut AgesFront, note: AgesFront)
        requires { (me.old.of ≡ self.now.table) × (note.of ≡ self.now.table) }
        ensures { KnowsOn me.old me.new × KnowsOn note me.new }
    {
        let _slots = self.slots;
        self.table
            .shared
            .join_seat::<Learns>(&mut me.seat, note.seat);
    }

    /// The slot's age now: a leader draws its call's stamp so, before it leads.
    pub fn draw(&self, me: &mut AgesFront, slot: u64) -> u64
        requires { (me.old.of ≡ self.now.table) × (slot < self.now.slots) }
        ensures { IsDrawn me.old me.new slot result }
    {
        let _slots = self.slots;
        self.table.shared.load::<Sees>(&mut me.seat, slot as usize)
    }

    /// A Forget of a key of the slot is done: nothing that was stamped before is current from here on. Refused, and nothing ends, where the slot's
    /// age is spent, so that nothing there is current.
    pub fn end(&self, me: &mut AgesFront, slot: u64) -> bool
        requires { (me.old.of ≡ self.now.table) × (slot < self.now.slots) }
        ensures on { KnowsOn me.old me.new }
        ensures ended { OnTrue result (IsEnded me.old me.new slot) }
        ensures refused { OnFalse result (IsEndedAt me.new slot 4611686018427387903) }
    {
        let age = self.draw(me, slot);
        if age >= SPENT {
            return false;
        }
        self.add(me, slot, age);
        true
    }

    /// Ends what has this stamp, and whatever else was stamped at its slot and age: a Forget of one call that is settled. Refused, and nothing ends,
    /// where the stamp's age is spent, or the slot never had it.
    pub fn end_at(&self, me: &mut AgesFront, slot: u64, stamp: u64) -> bool
        requires { (me.old.of ≡ self.now.table) × (slot < self.now.slots) }
        ensures on { KnowsOn me.old me.new }
        ensures ended { OnTrue result (IsEndedAt me.new slot stamp) }
        ensures refused { OnFalse result (IsNotStill me.new slot stamp) }
    {
        let age = self.draw(me, slot);
        if age < stamp || age >= SPENT {
            return false;
        }
        if age == stamp {
            self.add(me, slot, age);
        }
        true
    }

    // Makes the slot, which has had this age, older.
    fn add(&self, me: &mut AgesFront, slot: u64, age: u64)
        requires own { (me.old.of ≡ self.now.table) × (slot < self.now.slots) }
        requires age { Has me.old.facts slot age × (age < 4611686018427387904) }
        ensures on { KnowsOn me.old me.new }
        ensures has { Has me.new.facts slot (age + 1) }
    {
        let _slots = self.slots;
        // Where this fails, another has made the slot older since it had that age, which serves as well.
        let _found = self
            .table
            .shared
            .compare_exchange::<Ends>(&mut me.seat, slot as usize, age, age + 1);
    }

    /// Whether what has the stamp is current: its slot has the stamp's age still, so that no Forget that is known has ended it. Nothing is current
    /// at an age that is spent.
    pub fn is_still(&self, me: &mut AgesFront, slot: u64, stamp: u64) -> bool
        requires { (me.old.of ≡ self.now.table) × (slot < self.now.slots) }
        ensures on { KnowsOn me.old me.new }
        ensures still { OnTrue result (IsStill me.new slot stamp) }
        ensures ended { OnFalse result (IsNotStill me.new slot stamp) }
    {
        let age = self.draw(me, slot);
        if age != stamp || age >= SPENT {
            return false;
        }
        true
    }
}
