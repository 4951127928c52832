//! Fills, and what lies under their lock.
ghost use Rattle.std.specs.Prelude.{◌≡◌, ◌<◌, ◌≤◌, IfErr, IfOk, IfSome, map, vec_len};
ghost use Rattle.sf_fill_caches.specs.Trimming.{room_of};
ghost use Rattle.sf_fill_counters.specs.Totals.{sums_of};
ghost use Rattle.sf_dir.specs.declared.refusal.Refusal.{Refusal};
ghost use Rattle.sf_fill_values.specs.Answers.{refusal_of};
ghost use Rattle.sf_fill_values.specs.Settled.{CopiesFollowed};
ghost use Rattle.sf_fill_keys.specs.declared.spot.Spot.{Spot};
ghost use Rattle.sf_fill_keys.specs.Spots.{IsRefusedSpot, IsSpotOfKey, MayBe};
ghost use Rattle.sf_fill.specs.GetterValue.{GetterValue};

use crate::getter::Getter;
use sf_fill_caches::{CacheStats, Which};
use sf_fill_counters::{AllParts, Naming, Totals};
use sf_fill_keys::KeySpace;
use sf_fill_store::Store;
use sf_fill_values::{FillValue, InCache, LoadFault, of_key};
use sf_group::{Flight, Group, Letter, Memory};
use sf_loaders::Origin;
use std::alloc::Global;
use std::marker::Model;
use std::sync::Wait;

/// Two caches of a group's answers, which getters fill: groupcache's `Group`. A lock is held to look, to put and to count,
/// and never while a getter loads or waits for a letter.
#[derive(Drop)]
pub struct Fill<'d, D: Naming, N: Naming, O: Origin> {
    pub(crate) space: KeySpace<'d>,
    pub(crate) store: Store<'d, D, N, O>,
    pub(crate) alloc: Global,
}

impl<'d, D: Naming, N: Naming, O: Origin> Model for Fill<'d, D, N, O> {
    ghost use Rattle.std.specs.Prelude.{◌≡◌, ◌≤◌};
    ghost use Rattle.sf_words.specs.declared.limits.TheConstants.{LARGEST_PLACE};
    ghost use Rattle.sf_group_rows.specs.Tokens.{GroupValue};
    ghost use Rattle.sf_fill_keys.specs.Spaces.{places_in, space_of};

    ghost Value = { GroupValue };

    ghost view = { λ f. f.store };

    // Its group has the places of its key space.
    ghost invariant = { λ f. (f.store ≡ N.group) × (space_of f.space ≡ N.space)
        × (D.space ≡ N.space) × (N.group.sizes.places ≡ places_in N.space)
        × (places_in N.space ≤ LARGEST_PLACE) };
}

impl<'d, D: Naming, N: Naming, O: Origin> Fill<'d, D, N, O> {
    /// Returns what all getters have entered so far. Each get is entered as it ends, in one locked section, unless a near letter answers
    /// it. Of those, the last 63 of each getter may be missing; of a getter that has ended, or was just told to `enter`, none is.
    pub fn book<R: Wait>(&self, rt: &R) -> Totals {
        self.store.book(rt)
    }

    /// The group whose callers its getters are. Others of its callers may ask and forget beside them.
    pub fn group(&self) -> &Group<FillValue<'d, D, O>>
        ensures { result.now ≡ N.group }
    {
        self.store.group()
    }

    /// Spends all getters, and answers the book's numbers: for each counter, the sum of what they counted. All are as many
    /// as there are parts.
    pub fn gather<R: Wait, L: Drop>(&self, rt: &R, getters: Vec<Getter<'d, D, N, O, L>>) -> Totals
        requires all { vec_len getters ≡ N.getters }
        requires some { 0 < vec_len getters }
        ensures { result ≡ sums_of (map (λ (g : GetterValue L). g.counted) getters.entry.items) }
    {
        let mut all = self.sum_up(rt, getters);
        self.store.gathered(rt, &mut all)
    }

    // The parts of all these getters, which are spent. What they counted is all entered.
    fn sum_up<R: Wait, L: Drop>(&self, rt: &R, getters: Vec<Getter<'d, D, N, O, L>>) -> AllParts<N>
        requires { 0 < vec_len getters }
        ensures { result ≡ record {
          parts = vec_len getters.entry;
          counted = sums_of (map (λ (g : GetterValue L). g.counted) getters.entry.items);
        } }
    {
        let mut getters = getters;
        let Some(last) = getters.pop() else {
            unreachable!()
        };
        let mut all = self.store.end(rt, last.into_tallies());
        'rest: while let Some(getter) = getters.pop() {
            let part = self.store.end(rt, getter.into_tallies());
            all.take(part);
        }
        getters.destroy_empty();
        all
    }

    /// A copy of the letter of the key that a cache has of the call that the flight's follows, which was settled after the leader
    /// had looked, or a refusal of memory for it: a leader's second look, for callers of the group that are no getters.
    pub fn followed<R: Wait>(
        &self,
        rt: &R,
        flight: &Flight<FillValue<'d, D, O>>,
        key: &[u8],
    ) -> Option<Result<Letter<FillValue<'d, D, O>>, Memory>>
        requires { flight.now.group ≡ N.group }
        ensures follows { IfSome result (λ found. CopiesFollowed flight.now found) }
        ensures of_key { IfSome result (λ found.
            IfOk found (λ letter. MayBe letter.value.spot key.now)) }
    {
        match self.store.second_look(rt, flight, key) {
            Ok(InCache { copy, which: _ }) => Some(copy),
            Err(_) => None,
        }
    }

    /// Takes what the caches and this getter keep of the key out of them, without a Forget: the getter's next get of it asks the
    /// group. A call that is open stays so, one that others have letters of stays current, and so do letters that they keep near.
    pub fn remove<R: Wait, L>(
        &self,
        rt: &R,
        getter: &mut Getter<'d, D, N, O, L>,
        key: &[u8],
    ) -> Result<(), LoadFault>
        ensures found { IfOk result (λ _.
            (spot : Spot) × IsSpotOfKey N.space key.now getter.old.desk getter.new.desk spot) }
        ensures refused { IfErr result (λ fault.
            (refusal : Refusal) × IsRefusedSpot N.space key.now getter.old.desk getter.new.desk
            refusal × (fault ≡ refusal_of refusal)) }
        ensures rest { getter.new ≡ record getter.old { desk = getter.new.desk } }
    {
        let seat = &mut getter.seat;
        let at = match self.space.find(&mut seat.desk, key) {
            Ok(at) => at,
            Err(refusal) => return Err(of_key(refusal)),
        };
        let place = at.number().number();
        seat.near.remove(place);
        self.store.remove_key(rt, place, key);
        Ok(())
    }

    /// What main or hot holds now, within the limit.
    pub fn cache_stats<R: Wait>(&self, rt: &R, which: Which) -> CacheStats
        ensures { result.bytes ≤ room_of N.limit }
    {
        self.store.cache_stats(rt, which)
    }
}
