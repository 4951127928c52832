//! What a getter does once it leads a call.
ghost use Rattle.std.specs.Prelude.{◌≡◌, IfOk};
ghost use Rattle.sf_fill_values.specs.Keeping.{GoesWithin, LoadsInto, SourceGoesInto, cache_of, taken_over};
ghost use Rattle.sf_group_rows.specs.Same.{HasNothing, IsPlaceOf, IsSameFlight};
ghost use Rattle.sf_group_rows.specs.Seen.{IsLawful};
ghost use Rattle.sf_group_rows.specs.Notes.{HasLent};
ghost use Rattle.sf_fill_keys.specs.Spots.{IsInSpace, MayBe, spot_key, spot_place};
ghost use Rattle.sf_fill_values.specs.FillValue.{FitsFill};
ghost use Rattle.sf_fill_counters.specs.GetCounts.{second_look_counts};
ghost use Rattle.sf_fill_counters.specs.Ledgers.{all_entered};
ghost use Rattle.sf_fill_store.specs.Found.{DrawsFor, DrawsWithin, HasSettled, IsFromCache, IsLoaded, IsSource};
ghost use Rattle.sf_fill_values.specs.Rooted.{IsRooted};
ghost use Rattle.sf_fill_values.specs.Settled.{CopiesFollowed, IsSettled};
ghost use Rattle.sf_fill_counters.specs.Totals.{IsOfOneGet};

use crate::store::Store;
use sf_fill_caches::Which;
use sf_fill_counters::{GetCounts, NO_RUN, Naming, Tallies};
use sf_fill_keys::Spot;
use sf_fill_values::{FillValue, InCache, Missed};
use sf_group::{Caller, Finished, Flight, Letter};
use sf_loaders::{LoadPath, LocalFault, Origin, Source};
use std::sync::Wait;

/// What a leader settles its call with, into which cache that goes, and what the get counts.
pub(crate) struct Sourced<'d, D: Naming, O: Origin> {
    pub(crate) value: FillValue<'d, D, O>,
    pub(crate) keep: Option<Which>,
    pub(crate) counts: GetCounts,
}

const SECOND_LOOK: GetCounts = GetCounts {
    gets: 1,
    cache_hits: 1,
    loads: 1,
    run: NO_RUN,
};

impl<'d, D: Naming, N: Naming, O: Origin> Store<'d, D, N, O> {
    // The value for a call that is led: what a cache has of the call that it follows, and else what the loaders give.
    pub(crate) fn source<R: Wait, L>(
        &self,
        rt: &R,
        flight: &mut Flight<FillValue<'d, D, O>>,
        spot: Spot<'d>,
        key: &[u8],
        loaders: &mut L,
    ) -> Sourced<'d, D, O>
    where
        L: LoadPath<Origin = O>,
        requires flight { (flight.old.group ≡ N.group) × IsLawful N.group.sizes flight.old.seen }
        requires led { IsRooted flight.old.place flight.old.call flight.old.call flight.old.seen }
        requires spot { IsInSpace D.space spot × (spot_key spot ≡ key.now)
            × (spot_place spot ≡ flight.old.place) }
        ensures source { IsSource (L.run_gives key.now) (DrawsWithin N.limit L.draw_gives)
            spot.entry flight.old loaders.old loaders.new result.value result.counts }
        ensures into { SourceGoesInto L.draw_gives (L.run_gives key.now) N.limit spot.entry
            flight.old loaders.old loaders.new result.value result.keep }
        ensures of_key { MayBe result.value.spot key.now }
        ensures learnt { IsSameFlight flight.old flight.new }
        ensures fits { FitsFill flight.new.place flight.new.call result.value flight.new.seen }
        ensures one { IsOfOneGet result.counts }
    {
        match self.second_look(rt, flight, key) {
            Ok(found) => self.reuse(flight, spot, found),
            Err(missed) => self.load(missed, spot, key, loaders),
        }
    }

    // What a cache has of the call that the flight's follows: the value, whose root stays, for the same cache. Where the copy was
    // refused memory, that is the fault.
    fn reuse(
        &self,
        flight: &mut Flight<FillValue<'d, D, O>>,
        spot: Spot<'d>,
        found: InCache<FillValue<'d, D, O>>,
    ) -> Sourced<'d, D, O>
        requires flight { (flight.old.group ≡ N.group) × IsLawful N.group.sizes flight.old.seen }
        requires led { IsRooted flight.old.place flight.old.call flight.old.call flight.old.seen }
        requires spot { IsInSpace D.space spot × (spot_place spot ≡ flight.old.place) }
        requires found { CopiesFollowed flight.old found.copy }
        requires of_key { IfOk found.copy (λ letter. MayBe letter.value.spot (spot_key spot)) }
        ensures value { IsFromCache spot.entry flight.old result.value }
        ensures taken { result.value ≡ taken_over spot.entry flight.old.call found.entry.copy }
        ensures keep { result.keep ≡ cache_of found.entry }
        ensures of_key { MayBe result.value.spot (spot_key spot.entry) }
        ensures counts { result.counts ≡ second_look_counts }
        ensures learnt { IsSameFlight flight.old flight.new }
        ensures fits { FitsFill flight.new.place flight.new.call result.value flight.new.seen }
    {
        let InCache { copy, which } = found;
        match copy {
            Ok(letter) => {
                let (value, mut note) = letter.into_parts();
                flight.learn(&self.group, &mut note);
                Sourced {
                    value,
                    keep: Some(which),
                    counts: SECOND_LOOK,
                }
            }
            Err(_) => Sourced {
                value: FillValue::of_run(spot, flight.call(), Err(LocalFault::Memory)),
                keep: None,
                counts: SECOND_LOOK,
            },
        }
    }

    // Where a value of that source goes: a local one into main, and one in ten of the peers' into hot. A limit that keeps nothing
    // draws nothing.
    fn cache_for<L: LoadPath>(&self, source: Source, loaders: &mut L) -> Option<Which>
        ensures goes { GoesWithin L.draw_gives N.limit source loaders.old loaders.new result }
        ensures draws { DrawsFor (DrawsWithin N.limit L.draw_gives) source loaders.old loaders.new }
    {
        if self.limit <= 0 {
            return None;
        }
        match source {
            Source::Local => Some(Which::Main),
            Source::Peer => (loaders.draw() == 0).then_some(Which::Hot),
        }
    }

    // What the loaders give for the run of the call, whose leader's second look found nothing.
    fn load<L>(
        &self,
        missed: Missed,
        spot: Spot<'d>,
        key: &[u8],
        loaders: &mut L,
    ) -> Sourced<'d, D, O>
    where
        L: LoadPath<Origin = O>,
        requires spot { IsInSpace D.space spot × (spot_key spot ≡ key.now) }
        ensures source { IsLoaded (L.run_gives key.now) (DrawsWithin N.limit L.draw_gives)
            spot.entry missed.call loaders.old loaders.new result.value result.counts }
        ensures into { LoadsInto L.draw_gives (L.run_gives key.now) N.limit missed.call loaders.old
            loaders.new result.keep }
        ensures of_key { MayBe result.value.spot key.now }
        ensures one { IsOfOneGet result.counts }
    {
        let call = missed.call();
        let (loaded, run) = loaders.run(key, call);
        let counts = GetCounts {
            gets: 1,
            cache_hits: 0,
            loads: 1,
            run,
        };
        match loaded {
            Ok((bytes, source)) => {
                let keep = self.cache_for(source, loaders);
                Sourced {
                    value: FillValue::of_run(spot, call, Ok(bytes)),
                    keep,
                    counts,
                }
            }
            Err(fault) => Sourced {
                value: FillValue::of_run(spot, call, Err(fault)),
                keep: None,
                counts,
            },
        }
    }

    // Settles the call with the value, and puts its letter into the cache, if it brings bytes and is current. What the getter has
    // counted is entered, where the lock is taken to put or else by itself.
    pub(crate) fn settle<R: Wait>(
        &self,
        rt: &R,
        flight: Flight<FillValue<'d, D, O>>,
        value: FillValue<'d, D, O>,
        keep: Option<Which>,
        key_len: usize,
        tallies: &mut Tallies<N>,
    ) -> Finished<FillValue<'d, D, O>>
        requires own { flight.group ≡ N.group }
        requires place { IsPlaceOf N.group flight.place }
        requires fits { FitsFill flight.place flight.call value flight.seen }
        ensures settled { HasSettled flight.entry value.entry result }
        ensures tallies { tallies.new ≡ all_entered tallies.old }
    {
        match self.group.finish(flight, value) {
            Finished::Done(mut caller, mut letter) => {
                self.keep(rt, keep, key_len, tallies, &mut caller, &mut letter);
                Finished::Done(caller, letter)
            }
            Finished::Held(settled) => {
                self.enter(rt, tallies);
                Finished::Held(settled)
            }
        }
    }

    // Puts a copy of the letter into the cache, if it brings bytes and the caller is told that its call is current. What the getter
    // has counted is entered.
    fn keep<R: Wait>(
        &self,
        rt: &R,
        keep: Option<Which>,
        key_len: usize,
        tallies: &mut Tallies<N>,
        caller: &mut Caller<FillValue<'d, D, O>>,
        letter: &mut Letter<FillValue<'d, D, O>>,
    )
        requires place { IsPlaceOf N.group letter.old.place }
        requires caller { (caller.old.group ≡ N.group) × IsLawful N.group.sizes caller.old.seen }
        requires letter { (letter.old.group ≡ N.group) × IsSettled letter.old }
        ensures tallies { tallies.new ≡ all_entered tallies.old }
        ensures caller { HasNothing caller.old caller.new }
        ensures letter { HasLent letter.old letter.new }
    {
        let Some(which) = keep else {
            self.enter(rt, tallies);
            return;
        };
        let Some(value_len) = letter.value().byte_count() else {
            self.enter(rt, tallies);
            return;
        };
        self.put_letter(rt, which, key_len, value_len, tallies, caller, letter);
    }
}
