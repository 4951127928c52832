//! One table of a chain, and its ages.
ghost use Rattle.std.specs.Prelude.{◌≡◌, ◌⊎◌, ◌≢◌, ◌+◌, ◌*◌, ◌/◌, ◌<◌, ◌≤◌, ◌%◌, ◌^◌, IfOk};
ghost use Rattle.std.specs.Bool.{OnTrue, OnFalse};
ghost use Rattle.sf_keyed_words.specs.Rule.{word_total};
ghost use Rattle.sf_keyed_ages.specs.Stamps.{KnowsOn, IsDrawn, IsEndedAt, IsNotStill, IsStill};
ghost use Rattle.sf_keyed_chain.specs.Chains.{EndsAt};

use sf_keyed::{KeyedGroup, KeyedSizes};
use sf_keyed_ages::{Ages, AgesFront};
use std::alloc::{AllocError, Global};
use std::marker::Model;

/// One table, with an age for each of its hash slots. Contracts see both.
#[derive(Drop)]
pub struct Level {
    pub(crate) group: KeyedGroup,
    ages: Ages,
}

impl Model for Level {
    ghost use Rattle.std.specs.Prelude.{◌≡◌};
    ghost use Rattle.sf_keyed_chain.specs.Chains.{LevelId};

    ghost Value = { LevelId };

    ghost view = { λ l. record { group = l.group; ages = l.ages } };

    ghost invariant = { λ l. l.ages.slots ≡ l.group.sizes.tops };
}

impl Level {
    // A table of these sizes. Refused where there is no memory.
    pub(crate) fn new(alloc: Global, sizes: KeyedSizes) -> Result<Level, AllocError>
        requires tops { (0 < sizes.tops) × (sizes.tops ≤ 4294967296) × (sizes.tops ≤ sizes.sides * 4) }
        requires sides { sizes.sides % 16 ≡ 0 }
        requires cells { (0 < sizes.cells) × (sizes.cells ≤ 1048576) }
        requires total { word_total sizes < 2 ^ 60 }
        ensures { IfOk result (λ level. level.group.sizes ≡ sizes) }
    {
        let (group, _) = KeyedGroup::new(alloc, sizes)?;
        let ages = Ages::new(alloc, sizes.tops)?;
        Ok(Level { group, ages })
    }

    // A caller that knows nothing of the ages.
    pub(crate) fn enter(&self) -> AgesFront
        ensures { result.of ≡ self.now.ages.table }
    {
        self.ages.enter()
    }

    // What the caller knows of the ages, for another caller.
    pub(crate) fn tell(&self, known: &mut AgesFront) -> AgesFront
        requires { known.old.of ≡ self.now.ages.table }
        ensures { (known.new ≡ known.old) × (result ≡ known.old) }
    {
        self.ages.tell(known)
    }

    // Learns what another caller knew of the ages.
    pub(crate) fn learn(&self, known: &mut AgesFront, note: AgesFront)
        requires { (known.old.of ≡ self.now.ages.table) × (note.of ≡ self.now.ages.table) }
        ensures { KnowsOn known.old known.new × KnowsOn note known.new }
    {
        self.ages.learn(known, note);
    }

    // The slot's age now.
    pub(crate) fn draw(&self, known: &mut AgesFront, slot: u64) -> u64
        requires { (known.old.of ≡ self.now.ages.table) × (slot < self.now.group.sizes.tops) }
        ensures { IsDrawn known.old known.new slot result }
    {
        self.ages.draw(known, slot)
    }

    // Ends what was stamped at the slot before.
    pub(crate) fn end(&self, known: &mut AgesFront, slot: u64)
        requires { (known.old.of ≡ self.now.ages.table) × (slot < self.now.group.sizes.tops) }
        ensures on { KnowsOn known.old known.new }
        ensures ended { EndsAt known.old known.new slot }
    {
        self.ages.end(known, slot);
    }

    // Ends what was stamped at the slot at this age.
    pub(crate) fn end_at(&self, known: &mut AgesFront, slot: u64, age: u64)
        requires { (known.old.of ≡ self.now.ages.table) × (slot < self.now.group.sizes.tops) }
        ensures on { KnowsOn known.old known.new }
        ensures ended { IsEndedAt known.new slot age ⊎ IsNotStill known.new slot age }
    {
        self.ages.end_at(known, slot, age);
    }

    // Whether the slot has this age still.
    pub(crate) fn is_still(&self, known: &mut AgesFront, slot: u64, age: u64) -> bool
        requires { (known.old.of ≡ self.now.ages.table) × (slot < self.now.group.sizes.tops) }
        ensures on { KnowsOn known.old known.new }
        ensures still { OnTrue result (IsStill known.new slot age) }
        ensures over { OnFalse result (IsNotStill known.new slot age) }
    {
        self.ages.is_still(known, slot, age)
    }
}
