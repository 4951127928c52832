//! Seats: all of a getter but its loaders.
ghost use Rattle.std.specs.Prelude.{◌≡◌, ◌↔◌, ◌-◌, ◌<◌, ◌^◌, IsTrue, false, is_ok, not};
ghost use Rattle.sf_fill.specs.Fresh.{delivered_by};
ghost use Rattle.sf_fill.specs.Owing.{HasDelivered, HasSettledUp};
ghost use Rattle.sf_fill.specs.Seats.{IsHere, standing_in};
ghost use Rattle.sf_fill_store.specs.declared.standing.Standing.TheVariants.{Owing};
ghost use Rattle.sf_fill_store.specs.Logs.{logged_by};
ghost use Rattle.sf_fill.specs.Renewing.{Renews};
ghost use Rattle.sf_fill_store.specs.Standings.{IsOfGroup, is_owing, seen_of};
ghost use Rattle.sf_group_rows.specs.Seen.{StartsWith};

use crate::chair::Chair;
use sf_fill_counters::{Naming, Tallies};
use sf_fill_keys::KeyDesk;
use sf_fill_near::Near;
use sf_fill_store::Log;
use sf_fill_values::FillValue;
use sf_group::{Caller, Event, Finished, Group, Memory, Settled};
use sf_loaders::Origin;
use std::marker::Model;
use std::mem;

/// All of a getter but its loaders, so that a call may lend it beside others.
pub(crate) struct Seat<'d, D: Naming, N: Naming, O: Origin> {
    pub(crate) desk: KeyDesk,
    pub(crate) chair: Chair<FillValue<'d, D, O>>,
    pub(crate) tallies: Tallies<N>,
    pub(crate) log: Log,
    pub(crate) near: Near<'d, D, N, O>,
}

impl<'d, D: Naming, N: Naming, O: Origin> Model for Seat<'d, D, N, O> {
    ghost use Rattle.sf_fill_keys.specs.Spaces.{IsDeskOf};
    ghost use Rattle.sf_fill.specs.GetterValue.{GetterValue};
    ghost use Rattle.sf_fill.specs.Seats.{IsHere, standing_in};
    ghost use Rattle.sf_fill_store.specs.Standings.{IsOfGroup};

    ghost Value = { GetterValue (Unit {0}) };

    ghost view = { λ s.
        record {
          desk = s.desk;
          standing = standing_in s.chair;
          loaders = tt;
          counted = s.tallies.counted;
          log = s.log;
        } };

    ghost invariant = { λ s. IsDeskOf N.space s.desk × IsHere s.chair
        × IsOfGroup N.group (standing_in s.chair) };
}

// Delivers the letters that are owed; where memory for one is refused, they are owed still.
fn deliver<'d, D: Naming, O: Origin>(
    group: &Group<FillValue<'d, D, O>>,
    settled: Settled<FillValue<'d, D, O>>,
    log: &mut Log,
) -> (Chair<FillValue<'d, D, O>>, Result<(), Memory>)
    requires group { settled.group ≡ group.now }
    ensures delivered { HasDelivered (Owing settled.entry) (standing_in result.0) }
    ensures logged { log.new ≡ logged_by log.old
        (delivered_by (Owing settled.entry) (standing_in result.0)) }
    ensures here { IsHere result.0 × IsOfGroup group.now (standing_in result.0) }
    ensures done { is_ok result.1 ≡ not (is_owing (standing_in result.0)) }
{
    match group.go_on(settled) {
        Finished::Done(caller, letter) => {
            log.add(Event::Handed {
                by: caller.number(),
                call: letter.call(),
            });
            (Chair::Free(caller), Ok(()))
        }
        Finished::Held(settled) => (Chair::Owing(settled), Err(Memory)),
    }
}

impl<'d, D: Naming, N: Naming, O: Origin> Seat<'d, D, N, O> {
    // Whether no further get can be counted.
    #[inline(always)]
    pub(crate) fn is_full(&self) -> bool
        ensures full { IsTrue result ↔ (self.now.counted.gets ≡ 2 ^ 64 - 1) }
        ensures room { result ≡ false → self.now.counted.gets < 2 ^ 64 - 1 }
    {
        self.tallies.is_full()
    }

    // Whether a delivery is owed.
    #[inline(always)]
    pub(crate) fn owes(&self) -> bool
        ensures { result ≡ is_owing self.now.standing }
    {
        match &self.chair {
            Chair::Free(_) => false,
            Chair::Owing(_) => true,
            Chair::Away => unreachable!(),
        }
    }

    // Delivers the letters that are owed; where memory for one is refused, they are owed still.
    pub(crate) fn settle_up(&mut self, group: &Group<FillValue<'d, D, O>>) -> Result<(), Memory>
        requires group { group.now ≡ N.group }
        ensures settled { HasSettledUp self.old self.new }
        ensures logged { self.new.log ≡ logged_by self.old.log
            (delivered_by self.old.standing self.new.standing) }
        ensures done { is_ok result ≡ not (is_owing self.new.standing) }
    {
        if !self.chair.owes() {
            return Ok(());
        }
        let settled = self.chair.take_owing();
        let (chair, outcome) = deliver(group, settled, &mut self.log);
        self.chair = chair;
        outcome
    }

    // Trades the caller for the spare one, once they have met. Whether it was done: one that owes letters stays.
    pub(crate) fn renew(
        &mut self,
        group: &Group<FillValue<'d, D, O>>,
        spare: &mut Caller<FillValue<'d, D, O>>,
    ) -> bool
        requires group { group.now ≡ N.group }
        requires spare { spare.old.group ≡ N.group }
        ensures renewed { Renews self.old spare.old result self.new spare.new }
        ensures seen { StartsWith (seen_of self.new.standing) (seen_of self.old.standing) }
        ensures group { spare.new.group ≡ N.group }
    {
        let Chair::Free(caller) = &mut self.chair else {
            return false;
        };
        group.meet(caller, spare);
        mem::swap(caller, spare);
        true
    }
}
