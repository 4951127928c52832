//! Notes and letters pass on what one has seen. None of these calls waits or changes a word, and none takes memory but a
//! copy.
ghost use Rattle.std.specs.Prelude.{◌≡◌, IfOk, IfErr};
ghost use Rattle.sf_group_rows.specs.Seen.{StartsWith};
ghost use Rattle.sf_group_rows.specs.Finishes.{IsHeldStill};
ghost use Rattle.sf_group_rows.specs.Notes.{HasTold, HasLearnt, HasLearntLeading, HasGrown, HasMet, HasLent, HasCopied};

use crate::group::Group;
use crate::tokens::{Caller, Flight, Letter, Note, Settled};
use sf_group_rows::Fit;
use sf_group_steps::{Tells, hear_note};
use sf_history::Memory;

impl<V: Fit> Group<V> {
    /// A note that shows what the caller has seen.
    pub fn tell(&self, caller: &mut Caller<V>) -> Note<V>
        requires { caller.old.group ≡ self.now }
        ensures { HasTold caller.old caller.new result }
    {
        let words = &self.table.shared;
        let seat = words.split_seat::<Tells>(&mut caller.seated.seat);
        Note { seat }
    }

    /// The caller has then seen what the note shows.
    pub fn learn(&self, caller: &mut Caller<V>, note: &mut Note<V>)
        requires own { caller.old.group ≡ self.now }
        requires note { note.old.group ≡ self.now }
        ensures learnt { HasLearnt caller.old note.old.seen caller.new }
        ensures note { HasGrown note.old note.new }
    {
        hear_note(
            &self.table.shared,
            &mut caller.seated.seat,
            &mut note.seat,
            self.sizes,
            caller.seated.number as u32,
        );
    }

    /// Another note, which shows the same.
    pub fn again(&self, note: &mut Note<V>) -> Note<V>
        requires { note.old.group ≡ self.now }
        ensures note { HasGrown note.old note.new }
        ensures again { HasGrown note.old result }
    {
        let seat = self.table.shared.split_seat::<Tells>(&mut note.seat);
        Note { seat }
    }

    /// Each of the two callers has then seen what either had.
    pub fn meet(&self, one: &mut Caller<V>, other: &mut Caller<V>)
        requires one { one.old.group ≡ self.now }
        requires other { other.old.group ≡ self.now }
        ensures { HasMet one.old other.old one.new other.new }
    {
        let mut shown = self.tell(one);
        self.learn(other, &mut shown);
        let mut shown = self.tell(other);
        self.learn(one, &mut shown);
    }

    /// Another letter of the same answer, with a copy of its value. Where memory for that is refused, the letter is as it
    /// was.
    pub fn copy(&self, letter: &mut Letter<V>) -> Result<Letter<V>, Memory>
        requires { letter.old.group ≡ self.now }
        ensures copied { IfOk result (λ copy. HasCopied V.fits letter.old letter.new copy) }
        ensures refused { IfErr result (λ _. letter.new ≡ letter.old) }
    {
        let value = letter.value.share()?;
        let note = self.again(&mut letter.note);
        Ok(Letter {
            place: letter.place,
            call: letter.call,
            joiners: letter.joiners,
            value,
            note,
        })
    }
}

impl<V: Fit> Flight<V> {
    /// The leader has then seen what the note shows.
    pub fn learn(&mut self, group: &Group<V>, note: &mut Note<V>)
        requires own { self.old.group ≡ group.now }
        requires note { note.old.group ≡ group.now }
        ensures learnt { HasLearntLeading self.old note.old.seen self.new }
        ensures note { HasGrown note.old note.new }
    {
        hear_note(
            &group.table.shared,
            &mut self.leader.seated.seat,
            &mut note.seat,
            group.sizes,
            self.leader.seated.number as u32,
        );
    }
}

impl<V: Fit> Settled<V> {
    /// A note that shows what the caller has seen.
    pub fn tell(&mut self, group: &Group<V>) -> Note<V>
        requires { self.old.group ≡ group.now }
        ensures same { self.new ≡ self.old }
        ensures told { (result.group ≡ self.old.group) × (result.seen ≡ self.old.seen) }
    {
        let seat = group
            .table
            .shared
            .split_seat::<Tells>(&mut self.leader.seated.seat);
        Note { seat }
    }

    /// The caller has then seen what the note shows, and owes what it owed.
    pub fn learn(&mut self, group: &Group<V>, note: &mut Note<V>)
        requires own { self.old.group ≡ group.now }
        requires note { note.old.group ≡ group.now }
        ensures learnt { IsHeldStill self.old self.new × StartsWith self.new.seen note.old.seen }
        ensures note { HasGrown note.old note.new }
    {
        hear_note(
            &group.table.shared,
            &mut self.leader.seated.seat,
            &mut note.seat,
            group.sizes,
            self.leader.seated.number as u32,
        );
    }
}

impl<V: Fit> Letter<V> {
    /// A note that shows what the letter's own shows.
    pub fn note(&mut self, group: &Group<V>) -> Note<V>
        requires { self.old.group ≡ group.now }
        ensures letter { HasLent self.old self.new }
        ensures note { (result.group ≡ self.old.group) × StartsWith result.seen self.old.seen }
    {
        group.again(&mut self.note)
    }
}
