//! What a get answers.
ghost use Rattle.std.specs.Prelude.{◌≡◌, ◌↔◌, Ok, IfOk, IsTrue, nat_lt};
ghost use Rattle.std.specs.Option.{option_copied};
ghost use Rattle.sf_group_rows.specs.Currents.{HasQuestioned};
ghost use Rattle.sf_group_rows.specs.Notes.{HasLent};
ghost use Rattle.sf_group_rows.specs.Same.{IsPlaceOf};
ghost use Rattle.sf_fill_keys.specs.Spots.{IsInSpace, MayBe, place_at, spot_at, spot_key};
ghost use Rattle.sf_fill_values.specs.FillValue.{own_key};
ghost use Rattle.sf_fill_values.specs.Answers.{IsLoadedFor, answer_in};

use crate::fault::LoadFault;
use crate::value::FillValue;
use bytes::Bytes;
use sf_fill_counters::Naming;
use sf_fill_keys::{KeyPlace, Spot};
use sf_group::{Caller, Group, Letter, Memory, Note};
use sf_history::CallId;
use sf_loaders::{LocalFault, Origin};
use std::marker::Model;

/// A letter that brings bytes, which are what the origin states of its key and its root.
#[derive(Drop)]
pub struct View<'d, D: Naming, O: Origin> {
    spot: Spot<'d>,
    root: CallId,
    bytes: Bytes,
    call: CallId,
    joiners: u32,
    note: Note<FillValue<'d, D, O>>,
}

impl<'d, D: Naming, O: Origin> Model for View<'d, D, O> {
    ghost use Rattle.std.specs.Prelude.{Ok};
    ghost use Rattle.sf_group_rows.specs.Tokens.{LetterValue};
    ghost use Rattle.sf_fill_keys.specs.Spots.{IsInSpace, spot_key, spot_place};
    ghost use Rattle.sf_fill_values.specs.FillValue.{Filled};

    ghost Value = { LetterValue Filled };

    ghost view = { λ v.
        record {
          group = v.note.group;
          seen = v.note.seen;
          place = spot_place v.spot;
          call = v.call;
          value = record { spot = v.spot; root = v.root; result = Ok v.bytes };
          joiners = v.joiners;
        } };

    ghost invariant = { λ v. IsInSpace D.space v.spot × O.loaded (spot_key v.spot) v.root v.bytes };
}

impl<'d, D: Naming, O: Origin> View<'d, D, O> {
    /// The bytes.
    pub fn bytes(&self) -> &Bytes
        ensures { Ok result.now ≡ self.now.value.result }
    {
        &self.bytes
    }

    /// The bytes alone, which are not copied.
    pub fn into_bytes(self) -> Bytes
        ensures { Ok result ≡ self.entry.value.result }
    {
        let View {
            spot: _,
            root: _,
            bytes,
            call: _,
            joiners: _,
            note: _,
        } = self;
        bytes
    }

    /// The bytes, and a note that shows what the letter shows: who learns it has seen that the call was settled.
    pub fn into_parts(self) -> (Bytes, Note<FillValue<'d, D, O>>)
        ensures bytes { Ok result.0 ≡ self.entry.value.result }
        ensures note { (result.1.group ≡ self.entry.group) × (result.1.seen ≡ self.entry.seen) }
    {
        let View {
            spot: _,
            root: _,
            bytes,
            call: _,
            joiners: _,
            note,
        } = self;
        (bytes, note)
    }

    /// The key's bytes, where its place is hashed. A directory keeps them in its own words; the key that was got is the one.
    pub fn key(&self) -> Option<&Bytes>
        ensures { option_copied result ≡ own_key self.now.value.spot }
    {
        match &self.spot {
            Spot::Directory(_) => None,
            Spot::Hashed(hashed) => Some(&hashed.key),
        }
    }

    /// The number of the key's place, 1 to 1,048,576.
    pub fn place(&self) -> u32
        ensures { result ≡ self.now.place }
    {
        self.spot.number().number()
    }

    /// The call that was settled with them.
    pub fn call(&self) -> CallId
        ensures { result ≡ self.now.call }
    {
        self.call
    }

    /// The call whose run loaded them.
    pub fn root(&self) -> CallId
        ensures { result ≡ self.now.value.root }
    {
        self.root
    }

    /// How many joined the call.
    pub fn joiners(&self) -> u32
        ensures { result ≡ self.now.joiners }
    {
        self.joiners
    }

    /// Whether somebody joined the call.
    pub fn shared(&self) -> bool
        ensures { result ≡ nat_lt 0 self.now.joiners }
    {
        self.joiners > 0
    }
}

impl<'d, D: Naming, O: Origin> View<'d, D, O> {
    /// What a letter answers: its bytes, or why there are none.
    pub fn of(letter: Letter<FillValue<'d, D, O>>) -> Result<Self, LoadFault>
        ensures answer { result ≡ answer_in letter.entry }
        ensures same { IfOk result (λ view. view ≡ letter.entry) }
    {
        let call = letter.call();
        let joiners = letter.joiners();
        let (value, note) = letter.into_parts();
        let (spot, root, result) = value.into_parts();
        match result {
            Ok(bytes) => Ok(View {
                spot,
                root,
                bytes,
                call,
                joiners,
                note,
            }),
            Err(LocalFault::Failed(text)) => Err(LoadFault::Local(text)),
            Err(LocalFault::Memory) => Err(LoadFault::LeaderMemory),
        }
    }

    /// Whether it may be of the key, whose place is its own.
    pub fn is_of(&self, key: &[u8]) -> bool
        ensures { IsTrue result ↔ MayBe self.now.value.spot key.now }
    {
        self.spot.is_of(key)
    }

    /// Shows that it is of the key that was asked for, where both are of one place and it may be.
    pub fn agree(&mut self, at: &mut KeyPlace<'d>, key: &[u8])
        requires space { IsInSpace D.space (spot_at key.now at.old) }
        requires number { place_at at.old ≡ self.old.place }
        requires may_be { MayBe self.old.value.spot key.now }
        ensures keyed { spot_key self.old.value.spot ≡ spot_key (spot_at key.now at.old) }
        ensures loaded { IsLoadedFor O.loaded (spot_key (spot_at key.now at.old)) self.old }
        ensures kept { (self.new ≡ self.old) × (at.new ≡ at.old) }
    {
        self.spot.agree(at, key);
    }

    /// Whether its call is the current one of its place, whose number this is. The caller learns what its note shows first.
    pub fn is_current(
        &mut self,
        group: &Group<FillValue<'d, D, O>>,
        place: u32,
        caller: &mut Caller<FillValue<'d, D, O>>,
    ) -> bool
        requires caller { caller.old.group ≡ group.now }
        requires own { self.old.group ≡ group.now }
        requires number { place ≡ self.old.place }
        requires place { IsPlaceOf group.now self.old.place }
        ensures { HasQuestioned caller.old self.old result caller.new self.new }
    {
        group.learn(caller, &mut self.note);
        group.is_still_current(caller, place, self.call)
    }

    /// Another one of the same, which shares its bytes; refused where their count, or that of the key's, is at its greatest.
    #[inline(always)]
    pub fn again(&mut self, group: &Group<FillValue<'d, D, O>>) -> Result<Self, Memory>
        requires { self.old.group ≡ group.now }
        ensures lent { HasLent self.old self.new }
        ensures again { IfOk result (λ other. HasLent self.old other) }
        ensures answer { IfOk result (λ other. answer_in other ≡ Ok other) }
    {
        let bytes = self.bytes.clone()?;
        let spot = self.spot.again()?;
        Ok(View {
            spot,
            root: self.root,
            bytes,
            call: self.call,
            joiners: self.joiners,
            note: group.again(&mut self.note),
        })
    }
}

/// What a letter of the place answers: its bytes, or why there are none. The letter's value may be of the key, and is then.
pub fn show<'d, D: Naming, O: Origin>(
    letter: Letter<FillValue<'d, D, O>>,
    at: &mut KeyPlace<'d>,
    key: &[u8],
) -> Result<View<'d, D, O>, LoadFault>
    requires space { IsInSpace D.space (spot_at key.now at.old) }
    requires number { place_at at.old ≡ letter.place }
    requires may_be { MayBe letter.value.spot key.now }
    ensures answer { result ≡ answer_in letter.entry }
    ensures keyed { IfOk result (λ view.
        spot_key view.value.spot ≡ spot_key (spot_at key.now at.old)) }
    ensures loaded { IfOk result (IsLoadedFor O.loaded (spot_key (spot_at key.now at.old))) }
    ensures same { at.new ≡ at.old }
{
    match View::of(letter) {
        Ok(view) => {
            let mut view = view;
            view.agree(at, key);
            Ok(view)
        }
        Err(fault) => Err(fault),
    }
}
