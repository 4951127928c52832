//! The letters that two caches keep.
ghost use Rattle.std.specs.Prelude.{◌≡◌, ◌↔◌, ◌≤◌, length, IfOk, IsTrue, IfSome, IfErr, OnOk, OnErr};
ghost use Rattle.sf_fill_caches.specs.Trimming.{after_put, entries_of, no_entries, room_of};
ghost use Rattle.sf_fill_caches.specs.Weights.{weight_of};
ghost use Rattle.sf_fill_values.specs.Keeping.{Drops, DropsOfBoth, Serves, ServesCurrent, ServesEither};
ghost use Rattle.sf_fill_keys.specs.Spots.{MayBe};
ghost use Rattle.sf_group_rows.specs.Currents.{HasQuestioned};
ghost use Rattle.sf_group_rows.specs.Notes.{HasCopied};
ghost use Rattle.sf_fill_values.specs.FillValue.{FitsFill};
ghost use Rattle.sf_fill_values.specs.Settled.{IsKeptLetter, IsSettled, IsCopyOf, HasLooked, HasLookedOn};
ghost use Rattle.sf_group_rows.specs.Same.{IsPlaceOf};

use crate::value::FillValue;
use sf_fill_caches::{CacheStats, Caches, Which};
use sf_fill_counters::Naming;
use sf_group::{Caller, Group, Letter, Memory};
use sf_history::CallId;
use sf_loaders::Origin;
use std::alloc::{AllocError, Global};
use std::marker::{Model, PhantomData};

/// A letter of the fill's group, whose call was settled so.
#[derive(Drop)]
pub(crate) struct Cached<'d, D: Naming, N: Naming, O: Origin> {
    letter: Letter<FillValue<'d, D, O>>,
    of: PhantomData<N>,
}

impl<'d, D: Naming, N: Naming, O: Origin> Model for Cached<'d, D, N, O> {
    ghost use Rattle.std.specs.Prelude.{◌≡◌};
    ghost use Rattle.sf_group_rows.specs.Tokens.{LetterValue};
    ghost use Rattle.sf_fill_values.specs.FillValue.{Filled};
    ghost use Rattle.sf_fill_values.specs.Settled.{IsSettled};

    ghost Value = { LetterValue Filled };

    ghost view = { λ c. c.letter };

    ghost invariant = { λ c. (c.letter.group ≡ N.group) × IsSettled c.letter };
}

impl<'d, D: Naming, N: Naming, O: Origin> Cached<'d, D, N, O> {
    // A letter of the group, to be kept.
    pub(crate) fn new(letter: Letter<FillValue<'d, D, O>>) -> Self
        requires group { letter.group ≡ N.group }
        requires settled { IsSettled letter }
        ensures { result ≡ letter.entry }
    {
        Cached {
            letter,
            of: PhantomData,
        }
    }

    // The number of the letter's place.
    pub(crate) fn place(&self) -> u32
        ensures { result ≡ self.now.place }
    {
        self.letter.place()
    }

    // The letter's call.
    pub(crate) fn call(&self) -> CallId
        ensures { result ≡ self.now.call }
    {
        self.letter.call()
    }

    // Whether it may be of the key, whose place is the letter's.
    pub(crate) fn is_of(&self, key: &[u8]) -> bool
        ensures { IsTrue result ↔ MayBe self.now.value.spot key.now }
    {
        self.letter.value().is_of(key)
    }

    // What is known of it.
    pub(crate) fn known(&self)
        ensures { IsKeptLetter N.group self.now.place self.now }
    {
        self.letter.known();
    }

    // Whether the letter's call is its place's current one. The caller learns what the letter's note shows first.
    pub(crate) fn is_current(
        &mut self,
        group: &Group<FillValue<'d, D, O>>,
        caller: &mut Caller<FillValue<'d, D, O>>,
    ) -> bool
        requires group { group.now ≡ N.group }
        requires caller { caller.old.group ≡ N.group }
        ensures { HasQuestioned caller.old self.old result caller.new self.new }
    {
        group.is_current(caller, &mut self.letter)
    }

    // A copy of the letter.
    pub(crate) fn copy(
        &mut self,
        group: &Group<FillValue<'d, D, O>>,
    ) -> Result<Letter<FillValue<'d, D, O>>, Memory>
        requires { group.now ≡ N.group }
        ensures copied { IfOk result (λ copy. HasCopied FitsFill self.old self.new copy) }
        ensures refused { IfErr result (λ _. self.new ≡ self.old) }
        ensures group { IfOk result (λ copy. copy.group ≡ N.group) }
        ensures settled { IfOk result (λ copy. IsSettled copy) }
    {
        group.copy(&mut self.letter)
    }
}

/// The letters that two caches keep, main and hot, within a limit of bytes.
#[derive(Drop)]
pub struct CachedLetters<'d, D: Naming, N: Naming, O: Origin> {
    caches: Caches<Cached<'d, D, N, O>>,
}

impl<'d, D: Naming, N: Naming, O: Origin> Model for CachedLetters<'d, D, N, O> {
    ghost use Rattle.std.specs.Prelude.{◌≡◌};
    ghost use Rattle.sf_fill_caches.specs.Trimming.{room_of};
    ghost use Rattle.sf_fill_values.specs.Keeping.{LetterCaches};

    ghost Value = { LetterCaches };

    ghost view = { λ k. k.caches };

    // The caches have the group's places, and the limit.
    ghost invariant = { λ k. (k.caches.places ≡ N.group.sizes.places)
        × (k.caches.limit ≡ room_of N.limit) };
}

impl<'d, D: Naming, N: Naming, O: Origin> CachedLetters<'d, D, N, O> {
    /// No letters yet, and room for those of the group's places, 1 to 1,048,576, within the limit. Refused where there is no memory.
    pub fn new(alloc: Global, limit: i64, places: u32) -> Result<Self, Memory>
        requires limit { limit ≡ N.limit }
        requires places { (1 ≤ places) × (places ≡ N.group.sizes.places) }
        ensures { IfOk result (λ kept. kept ≡ no_entries (room_of limit) places) }
    {
        Ok(CachedLetters {
            caches: Caches::new(alloc, limit, places)?,
        })
    }

    /// What main or hot holds now.
    pub fn stats(&self, which: Which) -> CacheStats
        ensures bytes { result.bytes ≡ weight_of (entries_of which self.now) }
        ensures items { result.items ≡ length (entries_of which self.now) }
        ensures within { result.bytes ≤ room_of N.limit }
    {
        self.caches.stats(which)
    }

    // A copy of the letter that the cache has for the key at the place, which becomes its most recent, if its call is current. Else
    // the entry is dropped, if it is of the key.
    fn copy_current(
        &mut self,
        group: &Group<FillValue<'d, D, O>>,
        which: Which,
        place: u32,
        key: &[u8],
        caller: &mut Caller<FillValue<'d, D, O>>,
    ) -> Option<Result<Letter<FillValue<'d, D, O>>, Memory>>
        requires group { group.now ≡ N.group }
        requires caller { caller.old.group ≡ N.group }
        ensures looked { HasLooked caller.old place result caller.new }
        ensures caches { ServesCurrent (λ l. (l.place ≡ place) × MayBe l.value.spot key.now) place
            which caller.old caller.new self.old result self.new }
        ensures of_key { IfSome result (λ found.
            IfOk found (λ letter. MayBe letter.value.spot key.now)) }
    {
        let cached = self.caches.look(which, place)?;
        if cached.place() != place || !cached.is_of(key) {
            return None;
        }
        cached.known();
        if cached.is_current(group, caller) {
            return Some(cached.copy(group));
        }
        self.caches.remove(which, place);
        None
    }

    /// A copy of the current letter that main, or else hot, has for the key at the place, which becomes its cache's most recent;
    /// entries of the key that are not current are dropped.
    pub fn look(
        &mut self,
        group: &Group<FillValue<'d, D, O>>,
        place: u32,
        key: &[u8],
        caller: &mut Caller<FillValue<'d, D, O>>,
    ) -> Option<Result<Letter<FillValue<'d, D, O>>, Memory>>
        requires group { group.now ≡ N.group }
        requires caller { caller.old.group ≡ N.group }
        ensures looked { HasLookedOn caller.old place result caller.new }
        ensures caches { ServesEither (λ l. (l.place ≡ place) × MayBe l.value.spot key.now) place
            caller.old caller.new self.old result self.new }
        ensures of_key { IfSome result (λ found.
            IfOk found (λ letter. MayBe letter.value.spot key.now)) }
    {
        if let Some(copy) = self.copy_current(group, Which::Main, place, key, caller) {
            return Some(copy);
        }
        self.copy_current(group, Which::Hot, place, key, caller)
    }

    // A copy of the letter that the cache has for the key at the place, which becomes its most recent, if it is of the call.
    pub(crate) fn copy_of(
        &mut self,
        group: &Group<FillValue<'d, D, O>>,
        which: Which,
        place: u32,
        key: &[u8],
        call: CallId,
    ) -> Option<Result<Letter<FillValue<'d, D, O>>, Memory>>
        requires { group.now ≡ N.group }
        ensures copy { IfSome result (IsCopyOf N.group place call) }
        ensures caches { Serves (λ l. (l.place ≡ place) × (l.call ≡ call)
            × MayBe l.value.spot key.now) place which self.old result self.new }
        ensures of_key { IfSome result (λ found.
            IfOk found (λ letter. MayBe letter.value.spot key.now)) }
    {
        let cached = self.caches.look(which, place)?;
        if cached.place() != place || cached.call() != call || !cached.is_of(key) {
            return None;
        }
        cached.known();
        Some(cached.copy(group))
    }

    /// Puts a letter into a cache, whose entry weighs so many bytes of key and value; nothing is put where memory is refused.
    pub fn put(
        &mut self,
        which: Which,
        place: u32,
        key_len: usize,
        value_len: usize,
        letter: Letter<FillValue<'d, D, O>>,
    ) -> Result<(), AllocError>
        requires place { IsPlaceOf N.group place }
        requires group { letter.group ≡ N.group }
        requires settled { IsSettled letter }
        ensures put { OnOk result
            (self.new ≡ after_put which place
            (record { key_len = key_len; value_len = value_len; item = letter.entry })
            self.old) }
        ensures refused { OnErr result (self.new ≡ self.old) }
    {
        self.caches
            .put(which, place, key_len, value_len, Cached::new(letter))
    }

    // Takes the letter of the place out of the cache, if it is of the call.
    fn drop_call(&mut self, which: Which, place: u32, call: CallId)
        ensures { Drops (λ letter. letter.call ≡ call) place which self.old self.new }
    {
        let of_call = match self.caches.peek(which, place) {
            Some(cached) => cached.call() == call,
            None => false,
        };
        if of_call {
            self.caches.remove(which, place);
        }
    }

    // Takes the letter of the place out of the cache, if it is of the key.
    fn drop_key(&mut self, which: Which, place: u32, key: &[u8])
        ensures { Drops (λ letter. MayBe letter.value.spot key.now) place which self.old self.new }
    {
        let of_key = match self.caches.peek(which, place) {
            Some(cached) => cached.is_of(key),
            None => false,
        };
        if of_key {
            self.caches.remove(which, place);
        }
    }

    /// Takes the letters of the place's call out of both caches; those of a newer call stay.
    pub fn remove_call(&mut self, place: u32, call: CallId)
        ensures { DropsOfBoth (λ letter. letter.call ≡ call) place self.old self.new }
    {
        self.drop_call(Which::Main, place, call);
        self.drop_call(Which::Hot, place, call);
    }

    /// Takes the letters of the key at the place out of both caches.
    pub fn remove_key(&mut self, place: u32, key: &[u8])
        ensures { DropsOfBoth (λ letter. MayBe letter.value.spot key.now) place self.old self.new }
    {
        self.drop_key(Which::Main, place, key);
        self.drop_key(Which::Hot, place, key);
    }
}
