//! Askings: a caller leads its key's call, or waits for the letter of the one that another leads.
ghost use Rattle.std.specs.Prelude.{◌≡◌, ◌<◌, ◌^◌, ◌-◌};
ghost use Rattle.sf_group_rows.specs.Same.{IsPlaceOf};
ghost use Rattle.sf_group_rows.specs.Seen.{IsLawful};
ghost use Rattle.sf_fill_counters.specs.Ledgers.{entered_with};
ghost use Rattle.sf_fill_counters.specs.Totals.{IsOfOneGet};
ghost use Rattle.sf_fill_values.specs.Rooted.{IsRooted};
ghost use Rattle.sf_fill_keys.specs.Spots.{IsInSpace, MayBe, spot_key, spot_place};
ghost use Rattle.sf_fill_store.specs.Found.{DrawsWithin, HasFoundFrom, HasRunFrom, IfDone, Led, found_by};
ghost use Rattle.sf_fill_store.specs.Logs.{HasLogged};
ghost use Rattle.sf_fill_store.specs.Replies.{IsOfKey, IsOfPlace, counts_of, reply_of};
ghost use Rattle.sf_fill_store.specs.Standings.{seen_of};

use crate::load::Sourced;
use crate::log::Log;
use crate::store::Store;
use sf_fill_counters::{GetCounts, NO_RUN, Naming, Tallies};
use sf_fill_keys::Spot;
use sf_fill_values::FillValue;
use sf_group::{Begun, Caller, Finished, Flight, Letter, Spent};
use sf_group_rows::Fit;
use sf_loaders::{LoadPath, Origin};
use sf_wait::{begin_wait, wait};
use std::sync::Wait;

// What a get counts that asks, and runs no load path.
const LOAD: GetCounts = GetCounts {
    gets: 1,
    cache_hits: 0,
    loads: 1,
    run: NO_RUN,
};

/// What it comes to that a free caller asks the group.
pub enum FillAsked<V: Fit> {
    /// Memory for the key was refused, and nothing was asked.
    Unmade(Caller<V>),
    /// The caller has no generation left to ask with.
    Spent(Caller<V>),
    /// The letter of the key's open call, which another led.
    Joined(Caller<V>, Letter<V>),
    /// The caller led a call and settled it; and what that counts.
    Led(Finished<V>, GetCounts),
}

impl<'d, D: Naming, N: Naming, O: Origin> Store<'d, D, N, O> {
    /// Asks the group: loads the key where the caller leads, and else waits for the letter. Where that is of another key, it asks
    /// again. The get is counted, and entered: with the letter's put, or where nothing is put by itself.
    pub fn ask<R: Wait, L>(
        &self,
        rt: &R,
        caller: Caller<FillValue<'d, D, O>>,
        spot: Spot<'d>,
        key: &[u8],
        loaders: &mut L,
        log: &mut Log,
        tallies: &mut Tallies<N>,
    ) -> FillAsked<FillValue<'d, D, O>>
    where
        L: LoadPath<Origin = O>,
        requires caller { caller.group ≡ N.group }
        requires spot { IsInSpace D.space spot × (spot_key spot ≡ key.now)
            × IsPlaceOf N.group (spot_place spot) }
        requires room { tallies.old.counted.gets < 2 ^ 64 - 1 }
        ensures found { HasFoundFrom N.space key.now (L.run_gives key.now)
            (DrawsWithin N.limit L.draw_gives) spot.entry caller.entry loaders.old loaders.new
            (found_by result) }
        ensures logged { HasLogged caller.entry.number caller.entry.seen
            (seen_of (reply_of (found_by result)).0) log.old log.new }
        ensures of_place { IsOfPlace (spot_place spot.entry) (found_by result) }
        ensures of_key { IsOfKey key.now (found_by result) }
        ensures one { IsOfOneGet (counts_of (found_by result)) }
        ensures counted { tallies.new ≡ entered_with tallies.old (counts_of (found_by result)) }
    {
        let number = spot.number();
        let mut asking = caller;
        for _ in rt.forever() {
            match begin_wait(rt, &self.group, asking, number.number()) {
                Ok(Begun::Lead(flight)) => {
                    log.add_lead(number, &flight);
                    let (finished, counts) = self.lead(
                        rt, flight, spot, key, loaders, log, tallies,
                    );
                    return FillAsked::Led(finished, counts);
                }
                Ok(Begun::Join(ticket)) => {
                    log.add_enter(number, &ticket);
                    let (caller, letter) = wait(rt, &self.group, ticket);
                    if letter.value().is_of(key) {
                        self.count(rt, tallies, LOAD);
                        return FillAsked::Joined(caller, letter);
                    }
                    asking = caller;
                }
                Err(Spent { back }) => {
                    self.count(rt, tallies, LOAD);
                    return FillAsked::Spent(back);
                }
            }
        }
        unreachable!()
    }

    // Settles the call that is led, with what its source gives, and counts the get.
    fn lead<R: Wait, L>(
        &self,
        rt: &R,
        flight: Flight<FillValue<'d, D, O>>,
        spot: Spot<'d>,
        key: &[u8],
        loaders: &mut L,
        log: &mut Log,
        tallies: &mut Tallies<N>,
    ) -> (Finished<FillValue<'d, D, O>>, GetCounts)
    where
        L: LoadPath<Origin = O>,
        requires flight { (flight.group ≡ N.group) × IsLawful N.group.sizes flight.seen
            × IsPlaceOf N.group flight.place }
        requires own { flight.call.caller ≡ flight.number }
        requires led { IsRooted flight.place flight.call flight.call flight.seen }
        requires spot { IsInSpace D.space spot × (spot_key spot ≡ key.now)
            × (spot_place spot ≡ flight.place) }
        requires room { tallies.old.counted.gets < 2 ^ 64 - 1 }
        ensures run { HasRunFrom (L.run_gives key.now) (DrawsWithin N.limit L.draw_gives) spot.entry
            flight.entry loaders.old loaders.new result.0 result.1 }
        ensures logged { HasLogged flight.entry.number flight.entry.seen
            (seen_of (reply_of (Led result.0 result.1)).0) log.old log.new }
        ensures of_place { IfDone (λ letter. letter.place ≡ flight.entry.place) result.0 }
        ensures of_key { IfDone (λ letter. MayBe letter.value.spot key.now) result.0 }
        ensures one { IsOfOneGet result.1 }
        ensures counted { tallies.new ≡ entered_with tallies.old result.1 }
    {
        let mut flight = flight;
        let call = flight.call();
        let Sourced {
            value,
            keep,
            counts,
        } = self.source(rt, &mut flight, spot, key, loaders);
        tallies.count(counts);
        let finished = self.settle(rt, flight, value, keep, key.len(), tallies);
        log.add_finished(call, &finished);
        (finished, counts)
    }
}
