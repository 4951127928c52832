//! Gets.
ghost use Rattle.std.specs.Prelude.{◌≡◌, ◌<◌, ◌-◌, ◌^◌, ◌⊎◌, Err, IfNone, IfOk, IfSome, None, false, true};
ghost use Rattle.sf_group_rows.specs.Same.{IsPlaceOf};
ghost use Rattle.sf_fill_counters.specs.GetCounts.{hit_counts};
ghost use Rattle.sf_fill_counters.specs.Totals.{with_counts};
ghost use Rattle.sf_fill_keys.specs.Spots.{IsInSpace, MayBe, place_at, spot_at, spot_key};
ghost use Rattle.sf_fill_values.specs.declared.fault.LoadFault.{LoadFault};
ghost use Rattle.sf_fill_values.specs.declared.fault.GetRefusal.{GetRefusal};
ghost use Rattle.sf_fill_values.specs.Settled.{HasLookedOn, HasOnlyLooked};
ghost use Rattle.sf_fill_store.specs.Found.{DrawsWithin, Led, found_by};
ghost use Rattle.sf_fill.specs.Bytes.{BringsBytes};
ghost use Rattle.sf_fill.specs.Counted.{IsCounted};
ghost use Rattle.sf_fill.specs.Fresh.{IsFreshGet};
ghost use Rattle.sf_fill_values.specs.Answers.{IsLoadedFor};
ghost use Rattle.sf_fill.specs.Gets.{GetsOnce, HasAsked, HasGot};
ghost use Rattle.sf_fill.specs.GetterValue.{with_loaders};
ghost use Rattle.sf_fill_store.specs.Replies.{IsOfKey, IsOfPlace, counts_of, reply_of};
ghost use Rattle.sf_fill.specs.Hits.{IsAbsent};
ghost use Rattle.sf_fill.specs.Lookups.{HasFoundHit, IsHitFor};
ghost use Rattle.sf_fill.specs.Seats.{IsHere, standing_in};
ghost use Rattle.sf_fill_store.specs.Standings.{is_owing, number_of, seen_of};
ghost use Rattle.sf_fill_store.specs.Logs.{HasLogged};

use crate::chair::Chair;
use crate::fill::Fill;
use crate::getter::Getter;
use crate::hit::Hit;
use crate::seat::Seat;
use bytes::Bytes;
use sf_fill_counters::{GetCounts, NO_RUN, Naming, Tallies};
use sf_fill_keys::KeyPlace;
use sf_fill_near::Near;
use sf_fill_store::FillAsked;
use sf_fill_values::{FillValue, GetRefusal, LoadFault, View, of_key, show};
use sf_group::{Caller, Finished, Letter, Memory};
use sf_loaders::{LoadPath, Origin};
use std::sync::Wait;

const GET_ALONE: GetCounts = GetCounts {
    gets: 1,
    cache_hits: 0,
    loads: 0,
    run: NO_RUN,
};

// Where a getter's caller is kept after it asked, and what the get answers.
type Reply<'d, D, O> = (
    Chair<FillValue<'d, D, O>>,
    Result<View<'d, D, O>, LoadFault>,
);

// What a get answers whose asking came to this.
fn reply<'d, D: Naming, O: Origin>(
    asked: FillAsked<FillValue<'d, D, O>>,
    at: &mut KeyPlace<'d>,
    key: &[u8],
) -> Reply<'d, D, O>
    requires space { IsInSpace D.space (spot_at key.now at.old) }
    requires of_place { IsOfPlace (place_at at.old) (found_by asked) }
    requires of_key { IsOfKey key.now (found_by asked) }
    ensures reply { (standing_in result.0, counts_of (found_by asked.entry), result.1)
        ≡ reply_of (found_by asked.entry) }
    ensures here { IsHere result.0 }
    ensures keyed { IfOk result.1 (λ view.
        spot_key view.value.spot ≡ spot_key (spot_at key.now at.old)) }
    ensures loaded { IfOk result.1 (IsLoadedFor O.loaded (spot_key (spot_at key.now at.old))) }
{
    match asked {
        FillAsked::Unmade(caller) => (Chair::Free(caller), Err(LoadFault::Memory)),
        FillAsked::Spent(caller) => (
            Chair::Free(caller),
            Err(LoadFault::Refused(GetRefusal::Spent)),
        ),
        FillAsked::Joined(caller, letter) => (Chair::Free(caller), show(letter, at, key)),
        FillAsked::Led(finished, _) => match finished {
            Finished::Done(caller, letter) => (Chair::Free(caller), show(letter, at, key)),
            Finished::Held(settled) => (Chair::Owing(settled), Err(LoadFault::Memory)),
        },
    }
}

impl<'d, D: Naming, N: Naming, O: Origin> Fill<'d, D, N, O> {
    // A copy of the current letter of the key at the place that a cache has, if there is one, which is counted as a hit there; the
    // getter keeps it near.
    #[inline(never)]
    fn look_in_caches<R: Wait>(
        &self,
        rt: &R,
        caller: &mut Caller<FillValue<'d, D, O>>,
        tallies: &mut Tallies<N>,
        near: &mut Near<'d, D, N, O>,
        place: u32,
        key: &[u8],
    ) -> Option<Result<Letter<FillValue<'d, D, O>>, Memory>>
        requires caller { caller.old.group ≡ N.group }
        requires room { tallies.old.counted.gets < 2 ^ 64 - 1 }
        ensures looked { HasLookedOn caller.old place result caller.new }
        ensures of_key { IfSome result (λ found. IfOk found (λ letter.
            (letter.place ≡ place) × MayBe letter.value.spot key.now)) }
        ensures hit { IfSome result (λ _.
            tallies.new.counted ≡ with_counts tallies.old.counted hit_counts) }
        ensures none { result ≡ None → tallies.new ≡ tallies.old }
    {
        // The letter is lent where it lies: to take it out and put it in again copies its 144 bytes twice.
        let mut found = self.store.look(rt, tallies, place, key, caller)?;
        if let Ok(letter) = &mut found {
            near.keep(self.store.group(), key.len(), letter);
        }
        Some(found)
    }

    // The current letter of the key at the place that is at hand: one that the getter keeps near, for which no lock is taken unless
    // 64 such hits are to be entered, or one that a cache has. It is counted as a hit.
    #[inline(always)]
    fn lookup<'g, R: Wait>(
        &self,
        rt: &R,
        caller: &mut Caller<FillValue<'d, D, O>>,
        tallies: &mut Tallies<N>,
        near: &'g mut Near<'d, D, N, O>,
        place: u32,
        key: &[u8],
    ) -> Option<Hit<'g, 'd, D, N, O>>
        requires caller { caller.old.group ≡ N.group }
        requires room { tallies.old.counted.gets < 2 ^ 64 - 1 }
        requires place { IsPlaceOf N.group place }
        ensures found { IfSome result (HasFoundHit caller.old place caller.new) }
        ensures fits { IfSome result (IsHitFor place key.now) }
        ensures counted { IfSome result (λ _.
            tallies.new.counted ≡ with_counts tallies.old.counted hit_counts) }
        ensures none { IfNone result (HasOnlyLooked caller.old caller.new
            × (tallies.new.counted ≡ tallies.old.counted)) }
    {
        if let Some(letter) = near.look(self.store.group(), place, key, caller) {
            self.store.count_near_hit(rt, tallies);
            return Some(Hit::Near(letter));
        }
        match self.look_in_caches(rt, caller, tallies, near, place, key) {
            Some(found) => Some(Hit::Far(found)),
            None => None,
        }
    }

    // Asks the group for the key at the place, for a getter that owes nothing and found no letter. Its caller is away meanwhile.
    #[inline(never)]
    fn ask<R: Wait, L>(
        &self,
        rt: &R,
        seat: &mut Seat<'d, D, N, O>,
        at: &mut KeyPlace<'d>,
        key: &[u8],
        loaders: &mut L,
    ) -> Result<View<'d, D, O>, LoadFault>
    where
        L: LoadPath<Origin = O>,
        requires room { seat.old.counted.gets < 2 ^ 64 - 1 }
        requires free { is_owing seat.old.standing ≡ false }
        requires space { IsInSpace D.space (spot_at key.now at.old) }
        requires keyed { spot_key (spot_at key.now at.old) ≡ key.now }
        requires place { IsPlaceOf N.group (place_at at.old) }
        ensures asked { HasAsked (L.run_gives key.now) (DrawsWithin N.limit L.draw_gives) N.space
            key.now (spot_at key.now at.old) (with_loaders seat.old loaders.old)
            (with_loaders seat.new loaders.new) result }
        ensures logged { HasLogged (number_of seat.old.standing) (seen_of seat.old.standing)
            (seen_of seat.new.standing) seat.old.log seat.new.log }
        ensures keyed { IfOk result (λ view. spot_key view.value.spot ≡ key.now) }
        ensures loaded { IfOk result (IsLoadedFor O.loaded key.now) }
    {
        let Ok(spot) = at.spot(self.alloc, key) else {
            self.store.count(rt, &mut seat.tallies, GET_ALONE);
            return Err(LoadFault::Memory);
        };
        let caller = seat.chair.take_free();
        let log = &mut seat.log;
        let asked = self
            .store
            .ask(rt, caller, spot, key, loaders, log, &mut seat.tallies);
        let (chair, answer) = reply(asked, at, key);
        seat.chair = chair;
        answer
    }

    // Gets the key's value, for a getter that has delivered what it could.
    fn get_once<R: Wait, L>(
        &self,
        rt: &R,
        seat: &mut Seat<'d, D, N, O>,
        key: &[u8],
        loaders: &mut L,
    ) -> Result<View<'d, D, O>, LoadFault>
    where
        L: LoadPath<Origin = O>,
        requires room { seat.old.counted.gets < 2 ^ 64 - 1 }
        ensures got { GetsOnce (L.run_gives key.now) (DrawsWithin N.limit L.draw_gives) N.space
            key.now (with_loaders seat.old loaders.old) (with_loaders seat.new loaders.new) result }
        ensures logged { HasLogged (number_of seat.old.standing) (seen_of seat.old.standing)
            (seen_of seat.new.standing) seat.old.log seat.new.log }
        ensures keyed { IfOk result (λ view. spot_key view.value.spot ≡ key.now) }
        ensures loaded { IfOk result (IsLoadedFor O.loaded key.now) }
    {
        if seat.chair.owes() {
            self.store.count(rt, &mut seat.tallies, GET_ALONE);
            return Err(LoadFault::Memory);
        }
        let mut at = match self.space.find(&mut seat.desk, key) {
            Ok(at) => at,
            Err(refusal) => {
                self.store.count(rt, &mut seat.tallies, GET_ALONE);
                return Err(of_key(refusal));
            }
        };
        let place = at.number().number();
        let Chair::Free(caller) = &mut seat.chair else {
            unreachable!()
        };
        if let Some(hit) = self.lookup(rt, caller, &mut seat.tallies, &mut seat.near, place, key) {
            return hit.view(self.store.group(), &mut at, key);
        }
        self.ask(rt, seat, &mut at, key, loaders)
    }

    // Gets the key's value as `get` does, with these loaders.
    pub(crate) fn get_with<R: Wait, L>(
        &self,
        rt: &R,
        seat: &mut Seat<'d, D, N, O>,
        key: &[u8],
        loaders: &mut L,
    ) -> Result<View<'d, D, O>, LoadFault>
    where
        L: LoadPath<Origin = O>,
        requires room { seat.old.counted.gets < 2 ^ 64 - 1 }
        ensures got { HasGot (L.run_gives key.now) (DrawsWithin N.limit L.draw_gives) N.space key.now
            (with_loaders seat.old loaders.old) (with_loaders seat.new loaders.new) result }
        ensures counted { IsCounted (with_loaders seat.old loaders.old)
            (with_loaders seat.new loaders.new) result }
        ensures fresh { IsFreshGet N.space key.now (with_loaders seat.old loaders.old)
            (with_loaders seat.new loaders.new) result }
        ensures keyed { IfOk result (λ view. spot_key view.value.spot ≡ key.now) }
        ensures loaded { IfOk result (IsLoadedFor O.loaded key.now) }
    {
        let _delivered = seat.settle_up(self.store.group());
        self.get_once(rt, seat, key, loaders)
    }

    /// Gets the key's value: from a cache, or by leading the key's call, or from the call that another leads. What the getter
    /// owes is delivered first; where that is refused memory, so is the get. One whose Gets stand at the greatest `u64` is
    /// refused, and not counted.
    pub fn get<R: Wait, L>(
        &self,
        rt: &R,
        getter: &mut Getter<'d, D, N, O, L>,
        key: &[u8],
    ) -> Result<View<'d, D, O>, LoadFault>
    where
        L: LoadPath<Origin = O>,
        ensures got { getter.old.counted.gets < 2 ^ 64 - 1
            → HasGot (L.run_gives key.now) (DrawsWithin N.limit L.draw_gives) N.space key.now
            getter.old getter.new result }
        ensures counted { getter.old.counted.gets < 2 ^ 64 - 1
            → IsCounted getter.old getter.new result }
        ensures fresh { getter.old.counted.gets < 2 ^ 64 - 1
            → IsFreshGet N.space key.now getter.old getter.new result }
        ensures keyed { IfOk result (λ view. spot_key view.value.spot ≡ key.now) }
        ensures loaded { IfOk result (IsLoadedFor O.loaded key.now) }
        ensures full { getter.old.counted.gets ≡ 2 ^ 64 - 1 → (getter.new ≡ getter.old)
            × (result ≡ Err (LoadFault.Refused GetRefusal.Spent)) }
    {
        if getter.is_full() {
            return Err(LoadFault::Refused(GetRefusal::Spent));
        }
        self.get_with(rt, &mut getter.seat, key, &mut getter.loaders)
    }

    // The bytes alone of a letter at hand for the key, for a getter that owes nothing.
    fn bytes_at_hand<R: Wait>(
        &self,
        rt: &R,
        seat: &mut Seat<'d, D, N, O>,
        key: &[u8],
    ) -> Option<Result<Bytes, LoadFault>>
        requires room { seat.old.counted.gets < 2 ^ 64 - 1 }
        ensures bytes { IfSome result (BringsBytes N.space O.loaded key.now seat.old seat.new) }
        ensures absent { IfNone result ((seat.new ≡ seat.old) ⊎ IsAbsent N.space seat.old seat.new) }
        ensures owing { is_owing seat.old.standing ≡ true → (result ≡ None)
            × (seat.new ≡ seat.old) }
    {
        let Chair::Free(caller) = &mut seat.chair else {
            return None;
        };
        let Ok(mut at) = self.space.find(&mut seat.desk, key) else {
            return None;
        };
        let place = at.number().number();
        let found = self.lookup(rt, caller, &mut seat.tallies, &mut seat.near, place, key);
        let Some(hit) = found else {
            return None;
        };
        Some(hit.bytes(&mut at, key))
    }

    /// The bytes alone of what `get` answers of a letter at hand: nothing else of a view is copied, so it is the quickest hit. `None`
    /// where no letter is at hand, where the key has no place, where the getter owes letters, and where its Gets stand at the greatest
    /// `u64`; nothing is counted then, and `get` loads it or says why it does not.
    pub fn get_bytes_if_present<R: Wait, L>(
        &self,
        rt: &R,
        getter: &mut Getter<'d, D, N, O, L>,
        key: &[u8],
    ) -> Option<Result<Bytes, LoadFault>>
        ensures bytes { IfSome result
            (BringsBytes N.space O.loaded key.now getter.old getter.new) }
        ensures absent { result ≡ None → (getter.new ≡ getter.old)
            ⊎ IsAbsent N.space getter.old getter.new }
        ensures owing { is_owing getter.old.standing ≡ true → (result ≡ None)
            × (getter.new ≡ getter.old) }
        ensures full { getter.old.counted.gets ≡ 2 ^ 64 - 1 → (result ≡ None)
            × (getter.new ≡ getter.old) }
    {
        if getter.is_full() {
            return None;
        }
        self.bytes_at_hand(rt, &mut getter.seat, key)
    }
}
