//! The slots of a getter's near letters.
ghost use Rattle.std.specs.Prelude.{◌≡◌, ◌≤◌, ◌<◌, IfNone, IfOk, IfSome, Some, true};
ghost use Rattle.sf_fill_keys.specs.Spots.{MayBe};
ghost use Rattle.sf_fill_near.specs.Hits.{IsHit};
ghost use Rattle.sf_group_rows.specs.Notes.{HasLent};
ghost use Rattle.sf_group_rows.specs.Same.{IsPlaceOf};
ghost use Rattle.sf_fill_values.specs.Settled.{HasOnlyLooked, IsCurrentLetter, IsKeptLetter, IsSettled};

use crate::view::NearView;
use sf_fill_counters::Naming;
use sf_fill_values::{FillValue, View};
use sf_group::{Caller, Group, Letter, Memory};
use sf_loaders::Origin;
use std::alloc::Global;
use std::mem;

// How many near hits of a letter there are from one look in the caches to the next, so that their order knows of it.
const HITS_ALONE: u32 = 63;

// A slot's view.
#[derive(Drop)]
struct NearLetter<'d, D: Naming, N: Naming, O: Origin> {
    near: NearView<'d, D, N, O>,
    /// How many bytes its key and its value have.
    bytes: usize,
    /// How often it was answered since the getter last looked in the caches for it, less how often another asked for its slot.
    hits: u32,
}

impl<'d, D: Naming, N: Naming, O: Origin> NearLetter<'d, D, N, O> {
    // Whether its call is current, which is then an answer; nothing where it is not asked: where it is not of the key at the place, and
    // where it has as many hits as it may have, so that the getter looks in the caches.
    #[inline(always)]
    fn is_current(
        &mut self,
        group: &Group<FillValue<'d, D, O>>,
        place: u32,
        key: &[u8],
        caller: &mut Caller<FillValue<'d, D, O>>,
    ) -> Option<bool>
        requires group { group.now ≡ N.group }
        requires caller { caller.old.group ≡ N.group }
        requires place { IsPlaceOf N.group place }
        ensures looked { HasOnlyLooked caller.old caller.new }
        ensures current { result ≡ Some true
            → IsCurrentLetter caller.old place self.old.near caller.new }
        ensures lent { result ≡ Some true → HasLent self.old.near self.new.near }
        ensures of_key { result ≡ Some true → (self.new.near.place ≡ place)
            × MayBe self.new.near.value.spot key.now }
    {
        if self.near.place() != place || !self.near.is_of(key) || self.hits >= HITS_ALONE {
            return None;
        }
        let current = self.near.is_current(group, caller);
        if current {
            self.hits += 1;
        }
        Some(current)
    }
}

/// A getter's own letters: each lies in the slot that the rest of its place names, or in that one's neighbour. There are no slots
/// before the first is kept.
#[derive(Drop)]
pub struct Near<'d, D: Naming, N: Naming, O: Origin> {
    slots: Vec<Option<NearLetter<'d, D, N, O>>>,
    /// How many slots there are to be: none, or a power of two.
    most: usize,
    /// How many bytes they are to have at most.
    limit: usize,
    /// How many bytes there is room for still.
    room: usize,
    /// The slot that is emptied next where there is no room.
    hand: usize,
    alloc: Global,
}

// How many slots there are for so many letters: a power of two, so that a place names one without a division.
fn slot_count(most: u32) -> usize {
    if most == 0 {
        0
    } else {
        (most as usize).next_power_of_two()
    }
}

// Slots with nothing in them.
fn empty_slots<T: Drop>(alloc: Global, count: usize) -> Result<Vec<Option<T>>, Memory> {
    let mut slots = Vec::with_capacity(alloc, count)?;
    for _ in 0..count {
        slots.push(None)?;
    }
    Ok(slots)
}

// A copy of the letter, with bytes of its own. The letter's note may show more then.
fn own_copy<'d, D: Naming, O: Origin>(
    alloc: Global,
    group: &Group<FillValue<'d, D, O>>,
    letter: &mut Letter<FillValue<'d, D, O>>,
) -> Result<Letter<FillValue<'d, D, O>>, Memory>
    requires group { group.now ≡ letter.old.group }
    requires settled { IsSettled letter.old }
    ensures lent { HasLent letter.old letter.new }
    ensures group { IfOk result (λ copy. copy.group ≡ letter.old.group) }
    ensures settled { IfOk result (λ copy. IsSettled copy) }
{
    let (value, _) = group.copy(letter)?.into_parts();
    let own = value.into_own(alloc)?;
    let copy = group.copy(letter)?;
    Ok(copy.with_value(own))
}

impl<'d, D: Naming, N: Naming, O: Origin> Near<'d, D, N, O> {
    /// No letters yet, and room for so many, of so many bytes.
    pub fn new(alloc: Global, most: u32, limit: usize) -> Self {
        Near {
            slots: Vec::new(alloc),
            most: slot_count(most),
            limit,
            room: limit,
            hand: 0,
            alloc,
        }
    }

    // The first of the two slots that a letter of the place may have; the other is its neighbour, if there is one.
    fn first_slot(&self, place: u32) -> Option<usize> {
        let count = self.slots.len();
        if count == 0 {
            return None;
        }
        Some(place as usize & (count - 1))
    }

    // Whether the slot has a letter of the place.
    fn has_place(&self, index: usize, place: u32) -> bool {
        let Some(slot) = self.slots.get(index) else {
            return false;
        };
        let Some(near) = slot.as_ref() else {
            return false;
        };
        near.near.place() == place
    }

    // The slot that has a letter of the place.
    fn find(&self, place: u32) -> Option<usize> {
        let first = self.first_slot(place)?;
        if self.has_place(first, place) {
            return Some(first);
        }
        let second = first ^ 1;
        self.has_place(second, place).then_some(second)
    }

    // How dear the slot is: a slot that is not there most of all, and an empty one least.
    fn worth(&self, index: usize) -> u32 {
        let Some(slot) = self.slots.get(index) else {
            return u32::MAX;
        };
        let Some(near) = slot.as_ref() else {
            return 0;
        };
        near.hits.saturating_add(1)
    }

    // The slot for a letter of the place: the one that has one, or else that of the two whose letter was answered less often.
    fn slot_for(&self, place: u32) -> Option<usize> {
        if let Some(index) = self.find(place) {
            return Some(index);
        }
        let first = self.first_slot(place)?;
        let second = first ^ 1;
        if self.worth(second) < self.worth(first) {
            Some(second)
        } else {
            Some(first)
        }
    }

    // Empties the slot.
    #[inline(never)]
    fn clear(&mut self, index: usize) {
        if let Some(slot) = self.slots.get_mut(index) {
            if let Some(letter) = mem::replace(slot, None) {
                self.room = self.room.saturating_add(letter.bytes);
            }
        }
    }

    /// Empties all slots, which are given back.
    pub fn empty(&mut self) {
        self.slots = Vec::new(self.alloc);
        self.room = self.limit;
        self.hand = 0;
    }

    /// Empties the slot that has a letter of the place.
    pub fn remove(&mut self, place: u32) {
        if let Some(index) = self.find(place) {
            self.clear(index);
        }
    }

    /// The getter's own letter of the key at the place, if its call is current; else its slot is emptied. Of a letter that has as many
    /// hits as it may have there is none, so that the getter looks in the caches, which sets them back.
    #[inline(always)]
    pub fn look(
        &mut self,
        group: &Group<FillValue<'d, D, O>>,
        place: u32,
        key: &[u8],
        caller: &mut Caller<FillValue<'d, D, O>>,
    ) -> Option<&mut NearView<'d, D, N, O>>
        requires group { group.now ≡ N.group }
        requires caller { caller.old.group ≡ N.group }
        requires place { IsPlaceOf N.group place }
        ensures found { IfSome result (λ near.
            IsHit caller.old place key.now caller.new near.now) }
        ensures none { IfNone result (HasOnlyLooked caller.old caller.new) }
    {
        let slot = self.find(place)?;
        let letter = self.slots.get_mut(slot)?.as_mut()?;
        match letter.is_current(group, place, key, caller) {
            Some(true) => return Some(&mut letter.near),
            Some(false) => {}
            None => return None,
        }
        self.clear(slot);
        None
    }

    // Whether the slot has the letter, which is counted as looked for then.
    fn has(&mut self, index: usize, letter: &Letter<FillValue<'d, D, O>>) -> bool {
        let Some(slot) = self.slots.get_mut(index) else {
            return false;
        };
        let Some(near) = slot.as_mut() else {
            return false;
        };
        if near.near.place() != letter.place() || near.near.call() != letter.call() {
            return false;
        }
        near.hits = 0;
        true
    }

    // Whether the slot keeps what it has, which is of another place and was answered: each time this is asked takes one answer of it
    // back, so that a letter stays that is answered more often than others ask for its slot.
    fn keeps(&mut self, index: usize, place: u32) -> bool {
        let Some(slot) = self.slots.get_mut(index) else {
            return false;
        };
        let Some(near) = slot.as_mut() else {
            return false;
        };
        if near.hits == 0 || near.near.place() == place {
            return false;
        }
        near.hits -= 1;
        true
    }

    /// Puts a copy of the letter into a slot, if there are to be any. The letter's note may show more then.
    #[inline(always)]
    pub fn keep(
        &mut self,
        group: &Group<FillValue<'d, D, O>>,
        key_len: usize,
        letter: &mut Letter<FillValue<'d, D, O>>,
    )
        requires group { group.now ≡ N.group }
        requires letter { letter.old.group ≡ N.group }
        requires settled { IsSettled letter.old }
        ensures { HasLent letter.old letter.new }
    {
        if self.most > 0 {
            self.keep_in_slot(group, key_len, letter);
        }
    }

    // Puts a copy of the letter into a slot, in the place of what that has, if it brings bytes and there is room; nothing is put
    // where memory is refused. The letter's note may show more then.
    #[inline(never)]
    fn keep_in_slot(
        &mut self,
        group: &Group<FillValue<'d, D, O>>,
        key_len: usize,
        letter: &mut Letter<FillValue<'d, D, O>>,
    )
        requires group { group.now ≡ N.group }
        requires letter { letter.old.group ≡ N.group }
        requires settled { IsSettled letter.old }
        ensures { HasLent letter.old letter.new }
    {
        if self.slots.len() == 0 {
            if let Ok(slots) = empty_slots(self.alloc, self.most) {
                self.slots = slots;
            }
        }
        let Some(index) = self.slot_for(letter.place()) else {
            return;
        };
        if self.has(index, letter) || self.keeps(index, letter.place()) {
            return;
        }
        let Some(value_len) = letter.value().byte_count() else {
            return;
        };
        let bytes = key_len.saturating_add(value_len);
        if self.limit < bytes {
            return;
        }
        self.clear(index);
        self.make_room(bytes);
        if self.room < bytes {
            return;
        }
        let Ok(copy) = own_copy(self.alloc, group, letter) else {
            return;
        };
        copy.known();
        if let Ok(view) = View::of(copy) {
            self.put(index, view, bytes);
        }
    }

    // Empties one slot, if there is no room for so many bytes: the next one each time.
    fn make_room(&mut self, bytes: usize) {
        if self.room < bytes {
            self.clear(self.hand);
            let next = self.hand.saturating_add(1);
            self.hand = if next < self.slots.len() { next } else { 0 };
        }
    }

    // Puts the view into the slot, which is empty.
    fn put(&mut self, index: usize, view: View<'d, D, O>, bytes: usize)
        requires room { bytes ≤ self.old.room }
        requires kept { IsKeptLetter N.group view.place view }
    {
        let Some(slot) = self.slots.get_mut(index) else {
            return;
        };
        self.room -= bytes;
        *slot = Some(NearLetter {
            near: NearView::new(view),
            bytes,
            hits: 0,
        });
    }
}
