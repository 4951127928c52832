//! A letter that a getter keeps near, as a view.
ghost use Rattle.std.specs.Prelude.{◌≡◌, ◌↔◌, IfOk, IsTrue, Ok};
ghost use Rattle.sf_fill_keys.specs.Spots.{IsInSpace, MayBe, place_at, spot_at, spot_key};
ghost use Rattle.sf_group_rows.specs.Currents.{HasQuestioned};
ghost use Rattle.sf_group_rows.specs.Notes.{HasLent};
ghost use Rattle.sf_group_rows.specs.Same.{IsPlaceOf};
ghost use Rattle.sf_fill_values.specs.Answers.{IsLoadedFor, answer_in};
ghost use Rattle.sf_fill_values.specs.Settled.{IsKeptLetter};

use bytes::Bytes;
use sf_fill_counters::Naming;
use sf_fill_keys::KeyPlace;
use sf_fill_values::{FillValue, View};
use sf_group::{Caller, Group, Memory};
use sf_history::CallId;
use sf_loaders::Origin;
use std::marker::{Model, PhantomData};

/// A letter of the fill's group, whose call was settled so, as a view: its bytes nobody shares but who was answered it.
#[derive(Drop)]
pub struct NearView<'d, D: Naming, N: Naming, O: Origin> {
    own: View<'d, D, O>,
    /// The number of its place, which is compared at each look.
    place: u32,
    of: PhantomData<N>,
}

impl<'d, D: Naming, N: Naming, O: Origin> Model for NearView<'d, D, N, O> {
    ghost use Rattle.std.specs.Prelude.{◌≡◌};
    ghost use Rattle.sf_fill_values.specs.FillValue.{Filled};
    ghost use Rattle.sf_fill_values.specs.Settled.{IsKeptLetter};
    ghost use Rattle.sf_group_rows.specs.Tokens.{LetterValue};

    ghost Value = { LetterValue Filled };

    ghost view = { λ n. n.own };

    ghost invariant = { λ n. IsKeptLetter N.group n.own.place n.own × (n.place ≡ n.own.place) };
}

impl<'d, D: Naming, N: Naming, O: Origin> NearView<'d, D, N, O> {
    // A view to be kept.
    pub(crate) fn new(own: View<'d, D, O>) -> Self
        requires { IsKeptLetter N.group own.place own }
        ensures { result ≡ own.entry }
    {
        NearView {
            place: own.place(),
            own,
            of: PhantomData,
        }
    }

    // The number of its place.
    pub(crate) fn place(&self) -> u32
        ensures { result ≡ self.now.place }
    {
        self.place
    }

    // Its call.
    pub(crate) fn call(&self) -> CallId
        ensures { result ≡ self.now.call }
    {
        self.own.call()
    }

    // Whether it may be of the key, whose place is its own.
    pub(crate) fn is_of(&self, key: &[u8]) -> bool
        ensures { IsTrue result ↔ MayBe self.now.value.spot key.now }
    {
        self.own.is_of(key)
    }

    // Whether its call is its place's current one. The caller learns what its note shows first.
    pub(crate) fn is_current(
        &mut self,
        group: &Group<FillValue<'d, D, O>>,
        caller: &mut Caller<FillValue<'d, D, O>>,
    ) -> bool
        requires group { group.now ≡ N.group }
        requires caller { caller.old.group ≡ N.group }
        requires place { IsPlaceOf N.group self.old.place }
        ensures kept { IsKeptLetter N.group self.old.place self.old }
        ensures asked { HasQuestioned caller.old self.old result caller.new self.new }
    {
        self.own.is_current(group, self.place, caller)
    }

    /// Another view of the same, for the key of the place, which it may be of. Refused where a count of what both share is at its
    /// greatest.
    #[inline(always)]
    pub fn show(
        &mut self,
        group: &Group<FillValue<'d, D, O>>,
        at: &mut KeyPlace<'d>,
        key: &[u8],
    ) -> Result<View<'d, D, O>, Memory>
        requires group { group.now ≡ N.group }
        requires space { IsInSpace D.space (spot_at key.now at.old) }
        requires number { place_at at.old ≡ self.old.place }
        requires may_be { MayBe self.old.value.spot key.now }
        ensures again { IfOk result (λ view. HasLent self.old view) }
        ensures answer { IfOk result (λ view. answer_in view ≡ Ok view) }
        ensures keyed { IfOk result (λ view.
            spot_key view.value.spot ≡ spot_key (spot_at key.now at.old)) }
        ensures loaded { IfOk result (IsLoadedFor O.loaded (spot_key (spot_at key.now at.old))) }
        ensures same { at.new ≡ at.old }
    {
        self.own.agree(at, key);
        self.own.again(group)
    }

    /// Its bytes, for the key of the place, which it may be of. Refused where their count is at its greatest.
    #[inline(always)]
    pub fn bytes(&mut self, at: &mut KeyPlace<'d>, key: &[u8]) -> Result<Bytes, Memory>
        requires space { IsInSpace D.space (spot_at key.now at.old) }
        requires number { place_at at.old ≡ self.old.place }
        requires may_be { MayBe self.old.value.spot key.now }
        ensures bytes { IfOk result (λ bytes. self.old.value.result ≡ Ok bytes) }
        ensures answer { answer_in self.old ≡ Ok self.old }
        ensures keyed { spot_key self.old.value.spot ≡ spot_key (spot_at key.now at.old) }
        ensures loaded { IsLoadedFor O.loaded (spot_key (spot_at key.now at.old)) self.old }
        ensures same { (self.new ≡ self.old) × (at.new ≡ at.old) }
    {
        self.own.agree(at, key);
        self.own.bytes().clone()
    }
}
