//! Letters, which bring the answers of calls.
ghost use Rattle.std.specs.Prelude.{◌≡◌, true, nat_lt};
ghost use Rattle.sf_steps_laws.specs.Schedules.{was_led_on};
ghost use Rattle.sf_group_rows.specs.Finishes.{FitsLetter};

use crate::tokens::note::Note;
use sf_group_rows::Fit;
use sf_history::CallId;
use std::marker::Model;

/// The answer of a call: the value that its leader settled it with, and how many joined it. Its note shows a list
/// in which the call was led on the place and is settled so, and with which the value fits.
#[derive(Drop)]
pub struct Letter<V: Fit> {
    pub(crate) place: u64,
    pub(crate) call: CallId,
    pub(crate) joiners: u64,
    pub(crate) value: V,
    pub(crate) note: Note<V>,
}

impl<V: Fit> Model for Letter<V> {
    ghost use Rattle.std.specs.Prelude.{◌≡◌, ◌≤◌, true};
    ghost use Rattle.sf_steps_laws.specs.Schedules.{was_led_on};
    ghost use Rattle.sf_group_rows.specs.Same.{IsPlaceOf};
    ghost use Rattle.sf_group_rows.specs.Tokens.{LetterValue};

    ghost Value = { LetterValue V };

    ghost view = { λ l.
        record {
          group = l.note.group;
          seen = l.note.seen;
          place = l.place;
          call = l.call;
          value = l.value;
          joiners = l.joiners;
        } };

    ghost invariant = { λ l. V.fits l.place l.call l.value l.note.seen
        × IsPlaceOf l.note.group l.place × (was_led_on l.note.seen l.place l.call ≡ true)
        × (l.place ≤ 4294967295) × (l.joiners ≤ 4294967295) };
}

impl<V: Fit> Letter<V> {
    /// The number of the place.
    pub fn place(&self) -> u32
        ensures { result ≡ self.now.place }
    {
        self.place as u32
    }

    /// The call.
    pub fn call(&self) -> CallId
        ensures { result ≡ self.now.call }
    {
        self.call
    }

    /// What the call was settled with.
    pub fn value(&self) -> &V
        ensures { result.now ≡ self.now.value }
    {
        &self.value
    }

    /// How many joined the call.
    pub fn joiners(&self) -> u32
        ensures { result ≡ self.now.joiners }
    {
        self.joiners as u32
    }

    /// Whether somebody joined the call.
    pub fn shared(&self) -> bool
        ensures { result ≡ nat_lt 0 self.now.joiners }
    {
        self.joiners > 0
    }

    /// What is known of the letter: its value fits with the list that its note shows, in which its call was led on its
    /// place.
    pub fn known(&self)
        ensures fits { FitsLetter V.fits self.now }
        ensures led { was_led_on self.now.seen self.now.place self.now.call ≡ true }
    {
        // Read for what it says of the letter alone.
        let _ = &self.place;
    }

    /// The letter's value and its note. What the letter is known by is known of both.
    pub fn into_parts(self) -> (V, Note<V>)
        ensures value { result.0 ≡ self.value }
        ensures note { (result.1.group ≡ self.group) × (result.1.seen ≡ self.seen) }
        ensures fits { FitsLetter V.fits self }
    {
        let Letter {
            place: _,
            call: _,
            value,
            joiners: _,
            note,
        } = self;
        (value, note)
    }

    /// The letter with another copy of its value, such as one that shares no memory.
    pub fn with_value(self, value: V) -> Letter<V>
        requires { value ≡ self.value }
        ensures { result ≡ self }
    {
        let Letter {
            place,
            call,
            value: _,
            joiners,
            note,
        } = self;
        Letter {
            place,
            call,
            value,
            joiners,
            note,
        }
    }
}
