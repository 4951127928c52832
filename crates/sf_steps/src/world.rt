//! The world: words, cells, next generations, and each caller's stage in its operation. It keeps no history.

ghost use Rattle.std.specs.Prelude.{◌≡◌, ◌≢◌, ℕ, ◌≤◌, ◌+◌, true, false, None, Some, IfOk, length, replicate, cond, slice_index_or};
ghost use Rattle.sf_words.specs.declared.key_word.KeyState.TheVariants.{Never, Names};
ghost use Rattle.sf_steps_laws.specs.World.{first_world, with_key, with_call, with_next, with_cell, with_stage, with_used, next_id, same_key, is_open_with};
ghost use Rattle.sf_steps.specs.Rows.{IsLawful, row_at};
ghost use Rattle.sf_steps_laws.specs.Stages.{field_of, top_in, place_in, is_asking, second_in, first_in, AreWithin, is_settling};
ghost use Rattle.sf_steps.specs.Settling.{result_in};
ghost use Rattle.sf_steps_laws.specs.declared.operation.Stage.TheVariants as stage;
ghost use Rattle.sf_words.specs.declared.limits.TheConstants.{LARGEST_GENERATION, LARGEST_PLACE};

use crate::caller_row::{CallerRow, first_rows};
use sf_history::{CallId, Memory, Share};
use sf_steps_laws::{Letter, Stage};
use sf_words::{CallState, KeyState, LeaderState};
use std::alloc::Global;
use std::mem;

/// The words of a group's callers and places, what is in its callers' cells, and what its callers are about.
///
/// Entry 0 of keys and rows belongs to nobody: callers and places are numbered from 1.
#[derive(Drop)]
pub struct World<V> {
    callers: u32,
    places: u32,
    keys: Vec<KeyState>,
    rows: Vec<CallerRow<V>>,
    alloc: Global,
    ghost keys_for_places: { length keys.items ≡ places + 1 },
    ghost rows_for_callers: { length rows.items ≡ callers + 1 },
    ghost places_in_range: { (1 ≤ places) × (places ≤ LARGEST_PLACE) },
    ghost lawful: { (a : ℕ) → IsLawful callers places (row_at rows.items a) },
    ghost paired: { (a b : ℕ) → second_in (row_at rows.items a).stage ≡ Some b
        → first_in (row_at rows.items b).stage ≡ Some a },
}

/// The key word that names a call.
pub(crate) fn named(call: CallId, cleared: bool) -> KeyState
    ensures { result ≡ Names call.caller call.generation cleared }
{
    KeyState::Names {
        caller: call.caller,
        generation: call.generation,
        cleared,
    }
}

pub(crate) fn is_same_key(word: KeyState, seen: KeyState) -> bool
    ensures { result ≡ same_key word seen }
{
    word == seen
}

fn is_open_with(seen: LeaderState, word: CallState) -> bool
    ensures { result ≡ is_open_with seen word }
{
    word == CallState::Open(seen)
}

// The key words of places on which nothing was led yet.
fn first_keys(alloc: Global, len: usize) -> Result<Vec<KeyState>, Memory>
    ensures { IfOk result (λ keys. keys.items ≡ replicate len Never) }
{
    Vec::from_elem(alloc, KeyState::Never, len)
}

impl<V: Drop> World<V> {
    ghost use Rattle.sf_steps.specs.Running.{SameSizes, world_of};

    /// The world in which nothing has happened: 1 to 64 callers and places, and generation 1 as each caller's first.
    pub fn new(alloc: Global, callers: u32, places: u32) -> Result<World<V>, Memory>
        requires callers { (1 ≤ callers) × (callers ≤ 64) }
        requires places { (1 ≤ places) × (places ≤ 64) }
        ensures world { IfOk result (λ w. world_of w ≡ first_world callers 1) }
        ensures sizes { IfOk result (λ w. (w.callers ≡ callers) × (w.places ≡ places)) }
    {
        Ok(World {
            callers,
            places,
            keys: first_keys(alloc, places as usize + 1)?,
            rows: first_rows(alloc, callers as usize + 1)?,
            alloc,
        })
    }

    /// How many callers there are: they are numbered from 1.
    pub fn callers(&self) -> u32
        ensures { result ≡ self.now.callers }
    {
        self.callers
    }

    /// How many places there are: they are numbered from 1.
    pub fn places(&self) -> u32
        ensures { result ≡ self.now.places }
    {
        self.places
    }

    /// The next generation of a caller.
    pub(crate) fn generation(&self, caller: u32) -> u64
        requires { caller ≤ self.now.callers }
        ensures { result ≡ (world_of self.now).generations caller }
    {
        self.rows[caller as usize].generation
    }

    /// The allocator.
    pub(crate) fn alloc(&self) -> Global {
        self.alloc
    }

    /// The stage of a caller.
    pub(crate) fn stage(&self, caller: u32) -> &Stage<V>
        requires { caller ≤ self.now.callers }
        ensures same { result.now ≡ (world_of self.now).stages caller }
        ensures place { (1 ≤ place_in result.now) × (place_in result.now ≤ self.now.places) }
        ensures within { AreWithin self.now.callers result.now }
    {
        &self.rows[caller as usize].stage
    }

    /// A load of a place's key word.
    pub(crate) fn key(&self, place: u32) -> KeyState
        ensures { result ≡ (world_of self.now).keys place }
    {
        self.keys
            .get(place as usize)
            .copied()
            .unwrap_or(KeyState::Never)
    }

    /// A load of a caller's call word.
    pub(crate) fn call(&self, caller: u32) -> CallState
        ensures same { result ≡ (world_of self.now).calls caller }
        ensures top { top_in result ≤ self.now.callers }
    {
        match self.rows.get(caller as usize) {
            Some(row) => row.call,
            None => CallState::Free,
        }
    }

    /// Whether a caller's call word is as it was seen, open.
    pub(crate) fn is_open(&self, caller: u32, seen: LeaderState) -> bool
        ensures { result ≡ is_open_with seen ((world_of self.now).calls caller) }
    {
        is_open_with(seen, self.call(caller))
    }

    /// A store of a caller's call word.
    pub(crate) fn set_call(&mut self, caller: u32, word: CallState)
        requires caller { caller ≤ self.old.callers }
        requires top { top_in word ≤ self.old.callers }
        ensures world { world_of self.new ≡ with_call (world_of self.old) caller word }
        ensures stages { (world_of self.new).stages ≡ (world_of self.old).stages }
        ensures sizes { SameSizes self.old self.new }
    {
        self.rows[caller as usize].call = word;
    }

    /// A load of a caller's next word.
    pub(crate) fn next(&self, caller: u32) -> Option<u32>
        ensures same { result ≡ (world_of self.now).nexts caller }
        ensures within { field_of result ≤ self.now.callers }
    {
        match self.rows.get(caller as usize) {
            Some(row) => row.next,
            None => None,
        }
    }

    /// A store of a caller's next word.
    pub(crate) fn set_next(&mut self, caller: u32, next: Option<u32>)
        requires caller { caller ≤ self.old.callers }
        requires within { field_of next ≤ self.old.callers }
        ensures world { world_of self.new ≡ with_next (world_of self.old) caller next }
        ensures stages { (world_of self.new).stages ≡ (world_of self.old).stages }
        ensures sizes { SameSizes self.old self.new }
    {
        self.rows[caller as usize].next = next;
    }

    /// Puts a letter into a caller's cell, or empties it.
    pub(crate) fn set_cell(&mut self, caller: u32, letter: Option<Letter<V>>)
        requires { caller ≤ self.old.callers }
        ensures world { world_of self.new ≡ with_cell (world_of self.old) caller letter }
        ensures stages { (world_of self.new).stages ≡ (world_of self.old).stages }
        ensures sizes { SameSizes self.old self.new }
    {
        self.rows[caller as usize].cell = letter;
    }

    /// An exchange of a place's key word.
    pub(crate) fn exchange_key(&mut self, place: u32, seen: KeyState, word: KeyState) -> bool
        requires { place ≤ self.old.places }
        ensures is_seen { result ≡ same_key ((world_of self.old).keys place) seen }
        ensures world { world_of self.new ≡ cond result (with_key (world_of self.old) place word)
            (world_of self.old) }
        ensures stages { (world_of self.new).stages ≡ (world_of self.old).stages }
        ensures sizes { SameSizes self.old self.new }
    {
        let same = is_same_key(self.keys[place as usize], seen);
        if same {
            self.keys[place as usize] = word;
        }
        same
    }

    /// An exchange of a caller's call word, which was seen open.
    pub(crate) fn exchange_call(&mut self, caller: u32, seen: LeaderState, word: CallState) -> bool
        requires { top_in word ≤ self.old.callers }
        ensures is_seen { result ≡ is_open_with seen ((world_of self.old).calls caller) }
        ensures world { world_of self.new ≡ cond result (with_call (world_of self.old) caller word)
            (world_of self.old) }
        ensures stages { (world_of self.new).stages ≡ (world_of self.old).stages }
        ensures sizes { SameSizes self.old self.new }
    {
        let same = self.is_open(caller, seen);
        if same {
            self.set_call(caller, word);
        }
        same
    }

    /// Puts a caller that is not the second of a chan at a stage.
    pub(crate) fn set_stage(&mut self, caller: u32, stage: Stage<V>)
        requires caller { caller ≤ self.old.callers }
        requires alone { first_in ((world_of self.old).stages caller) ≡ None }
        requires place { (1 ≤ place_in stage) × (place_in stage ≤ self.old.places) }
        requires spent { is_asking stage ≡ true
            → (world_of self.old).generations caller ≤ LARGEST_GENERATION }
        requires second { (b : ℕ) → second_in stage ≡ Some b
            → first_in ((world_of self.old).stages b) ≡ Some caller }
        requires within { AreWithin self.old.callers stage }
        ensures world { world_of self.new ≡ with_stage (world_of self.old) caller stage }
        ensures stage { (world_of self.new).stages caller ≡ stage }
        ensures generations { (world_of self.new).generations ≡ (world_of self.old).generations }
        ensures sizes { SameSizes self.old self.new }
    {
        self.rows[caller as usize].stage = stage;
    }

    /// Puts the second of a chan, or who is to be one, and its caller at their stages.
    pub(crate) fn set_stages(
        &mut self,
        second: u32,
        second_stage: Stage<V>,
        caller: u32,
        stage: Stage<V>,
    )
        requires callers { (second ≤ self.old.callers) × (caller ≤ self.old.callers)
            × (second ≢ caller) }
        requires alone { first_in ((world_of self.old).stages caller) ≡ None }
        requires first { (a : ℕ) → first_in ((world_of self.old).stages second) ≡ Some a
            → a ≡ caller }
        requires places { (1 ≤ place_in stage) × (place_in stage ≤ self.old.places)
            × (1 ≤ place_in second_stage) × (place_in second_stage ≤ self.old.places) }
        requires spent { is_asking stage ≡ true
            → (world_of self.old).generations caller ≤ LARGEST_GENERATION }
        requires second_spent { is_asking second_stage ≡ true
            → (world_of self.old).generations second ≤ LARGEST_GENERATION }
        requires second { (b : ℕ) → second_in stage ≡ Some b → (b ≡ second)
            × (first_in second_stage ≡ Some caller) }
        requires no_second { second_in second_stage ≡ None }
        requires within { AreWithin self.old.callers stage }
        requires second_within { AreWithin self.old.callers second_stage }
        ensures world { world_of self.new
            ≡ with_stage (with_stage (world_of self.old) second second_stage) caller stage }
        ensures stage { (world_of self.new).stages caller ≡ stage }
        ensures second_stage { (world_of self.new).stages second ≡ second_stage }
        ensures generations { (world_of self.new).generations ≡ (world_of self.old).generations }
        ensures sizes { SameSizes self.old self.new }
    {
        self.rows[second as usize].stage = second_stage;
        self.rows[caller as usize].stage = stage;
    }

    /// Takes the stage of a caller that is not the second of a chan, and leaves it free.
    pub(crate) fn take_stage(&mut self, caller: u32) -> Stage<V>
        requires caller { caller ≤ self.old.callers }
        requires alone { first_in ((world_of self.old).stages caller) ≡ None }
        ensures same { result ≡ (world_of self.old).stages caller }
        ensures place { (1 ≤ place_in result) × (place_in result ≤ self.old.places) }
        ensures within { AreWithin self.old.callers result }
        ensures world { world_of self.new ≡ with_stage (world_of self.old) caller stage.Free }
        ensures stage { (world_of self.new).stages caller ≡ stage.Free }
        ensures sizes { SameSizes self.old self.new }
    {
        mem::replace(&mut self.rows[caller as usize].stage, Stage::Free)
    }

    /// The call, or the member, that the caller's next generation makes.
    pub(crate) fn next_call(&self, caller: u32) -> CallId
        requires { is_asking ((world_of self.now).stages caller) ≡ true }
        ensures { result ≡ next_id (world_of self.now) caller }
    {
        CallId {
            caller,
            generation: self.generation(caller) as u32,
        }
    }

    /// Counts a generation of a caller as used.
    pub(crate) fn use_generation(&mut self, caller: u32)
        requires caller { caller ≤ self.old.callers }
        requires asks { is_asking ((world_of self.old).stages caller) ≡ false }
        requires room { (world_of self.old).generations caller ≤ LARGEST_GENERATION }
        ensures world { world_of self.new ≡ with_used (world_of self.old) caller }
        ensures stages { (world_of self.new).stages ≡ (world_of self.old).stages }
        ensures sizes { SameSizes self.old self.new }
    {
        self.rows[caller as usize].generation += 1;
    }
}

impl<V: Share> World<V> {
    ghost use Rattle.sf_steps.specs.Running.{SameSizes, world_of};

    /// Another one of the value with which the caller settles.
    pub(crate) fn share_result(&mut self, caller: u32) -> Result<V, Memory>
        requires caller { caller ≤ self.old.callers }
        requires settles { is_settling ((world_of self.old).stages caller) ≡ true }
        ensures value { IfOk result (λ value.
            result_in ((world_of self.old).stages caller) ≡ Some value) }
        ensures world { world_of self.new ≡ world_of self.old }
        ensures sizes { SameSizes self.old self.new }
    {
        match &mut self.rows[caller as usize].stage {
            Stage::Settling { result, .. } => result.share(),
            _ => unreachable!(),
        }
    }
}
