//! Looks at what the caches keep, and puts, under the lock.
ghost use Rattle.std.specs.Prelude.{◌≡◌, ◌<◌, ◌^◌, ◌-◌, IfErr, IfOk, IfSome, None};
ghost use Rattle.sf_group_rows.specs.Notes.{HasLent};
ghost use Rattle.sf_group_rows.specs.Same.{HasNothing, IsPlaceOf};
ghost use Rattle.sf_group_rows.specs.Seen.{IsLawful};
ghost use Rattle.sf_fill_counters.specs.GetCounts.{hit_counts};
ghost use Rattle.sf_fill_counters.specs.Ledgers.{all_entered, entered_with};
ghost use Rattle.sf_fill_values.specs.Settled.{CopiesFollowed, HasLookedOn, IsSettled};
ghost use Rattle.sf_fill_keys.specs.Spots.{MayBe};

use crate::store::Store;
use sf_fill_caches::Which;
use sf_fill_counters::{Naming, Tallies};
use sf_fill_values::{CachedLetters, FillValue, InCache, Missed};
use sf_group::{Caller, Flight, Letter, Memory};
use sf_loaders::Origin;
use std::sync::Wait;

impl<'d, D: Naming, N: Naming, O: Origin> Store<'d, D, N, O> {
    /// A copy of the current letter that main, or else hot, has for the key at the place; entries of the key that are not
    /// current are dropped. A limit that keeps nothing skips the look. What is found is counted as a hit, and entered, before the lock
    /// is given back.
    #[inline(never)]
    pub fn look<R: Wait>(
        &self,
        rt: &R,
        tallies: &mut Tallies<N>,
        place: u32,
        key: &[u8],
        caller: &mut Caller<FillValue<'d, D, O>>,
    ) -> Option<Result<Letter<FillValue<'d, D, O>>, Memory>>
        requires caller { caller.old.group ≡ N.group }
        requires room { tallies.old.counted.gets < 2 ^ 64 - 1 }
        ensures looked { HasLookedOn caller.old place result caller.new }
        ensures of_key { IfSome result (λ found.
            IfOk found (λ letter. MayBe letter.value.spot key.now)) }
        ensures hit { IfSome result (λ _. tallies.new ≡ entered_with tallies.old hit_counts) }
        ensures none { result ≡ None → tallies.new ≡ tallies.old }
    {
        if self.limit <= 0 {
            return None;
        }
        let mut locked = self.locked.lock(rt);
        let found = locked.kept.look(&self.group, place, key, caller)?;
        tallies.count_hit();
        locked.accounts.enter(tallies);
        Some(found)
    }

    /// A copy of the letter of the key that main, or else hot, has of the call that the flight's follows; other entries stay.
    pub fn second_look<R: Wait>(
        &self,
        rt: &R,
        flight: &Flight<FillValue<'d, D, O>>,
        key: &[u8],
    ) -> Result<InCache<FillValue<'d, D, O>>, Missed>
        requires { flight.now.group ≡ N.group }
        ensures follows { IfOk result (λ found. CopiesFollowed flight.now found.copy) }
        ensures of_key { IfOk result (λ found.
            IfOk found.copy (λ letter. MayBe letter.value.spot key.now)) }
        ensures call { IfErr result (λ missed. missed.call ≡ flight.now.call) }
    {
        let call = CachedLetters::<'d, D, N, O>::to_find(self.limit, flight)?;
        let mut locked = self.locked.lock(rt);
        locked.kept.look_again(&self.group, flight, key, call)
    }

    // Puts a copy of the letter into a cache, if the caller is told that its call is current; where memory for it is refused, nothing
    // is put. The letter's note may show more then. What the getter has counted is entered.
    pub(crate) fn put_letter<R: Wait>(
        &self,
        rt: &R,
        which: Which,
        key_len: usize,
        value_len: usize,
        tallies: &mut Tallies<N>,
        caller: &mut Caller<FillValue<'d, D, O>>,
        letter: &mut Letter<FillValue<'d, D, O>>,
    )
        requires place { IsPlaceOf N.group letter.old.place }
        requires caller { (caller.old.group ≡ N.group) × IsLawful N.group.sizes caller.old.seen }
        requires letter { (letter.old.group ≡ N.group) × IsSettled letter.old }
        ensures tallies { tallies.new ≡ all_entered tallies.old }
        ensures caller { HasNothing caller.old caller.new }
        ensures letter { HasLent letter.old letter.new }
    {
        match self.group.copy(letter) {
            Ok(copy) => {
                self.put_copy(rt, which, key_len, value_len, tallies, caller, letter, copy);
            }
            Err(_) => self.enter(rt, tallies),
        }
    }

    // Puts the letter's copy into a cache, if the caller is told that its call is current. It asks under the lock, so that no letter
    // comes back that a reload took out. What the getter has counted is entered before the lock is given back.
    fn put_copy<R: Wait>(
        &self,
        rt: &R,
        which: Which,
        key_len: usize,
        value_len: usize,
        tallies: &mut Tallies<N>,
        caller: &mut Caller<FillValue<'d, D, O>>,
        letter: &mut Letter<FillValue<'d, D, O>>,
        copy: Letter<FillValue<'d, D, O>>,
    )
        requires place { IsPlaceOf N.group letter.old.place }
        requires caller { (caller.old.group ≡ N.group) × IsLawful N.group.sizes caller.old.seen }
        requires letter { (letter.old.group ≡ N.group) × IsSettled letter.old }
        requires copy { (copy.group ≡ N.group) × IsSettled copy }
        ensures tallies { tallies.new ≡ all_entered tallies.old }
        ensures caller { HasNothing caller.old caller.new }
        ensures letter { HasLent letter.old letter.new }
    {
        let place = letter.place();
        let mut locked = self.locked.lock(rt);
        if self.group.is_current(caller, letter) {
            let _ = locked.kept.put(which, place, key_len, value_len, copy);
        }
        locked.accounts.enter(tallies);
    }

    /// Takes what both caches keep of the key at the place out of them.
    pub fn remove_key<R: Wait>(&self, rt: &R, place: u32, key: &[u8]) {
        let mut locked = self.locked.lock(rt);
        locked.kept.remove_key(place, key);
    }
}
