//! Reloads.
ghost use Rattle.std.specs.Prelude.{◌≡◌};
ghost use Rattle.sf_fill.specs.Reloads.{HasReloaded, ReloadsFrom};
ghost use Rattle.sf_fill.specs.Fresh.{IsReloading};
ghost use Rattle.sf_fill.specs.Purges.{ForgetsAll};
ghost use Rattle.sf_fill_store.specs.Standings.{number_of, seen_of};
ghost use Rattle.sf_fill_store.specs.Logs.{HasLogged};

use crate::chair::Chair;
use crate::fill::Fill;
use crate::getter::Getter;
use crate::seat::Seat;
use sf_fill_counters::Naming;
use sf_fill_store::Forgot;
use sf_fill_values::{LoadFault, of_key};
use sf_group::Memory;
use sf_loaders::Origin;
use sf_words::PlaceNo;
use std::sync::Wait;

impl<'d, D: Naming, N: Naming, O: Origin> Fill<'d, D, N, O> {
    // Forgets the call that the key names, unless the caller owes letters. The getter's own letter of its place leaves too.
    fn forget<R: Wait>(
        &self,
        rt: &R,
        seat: &mut Seat<'d, D, N, O>,
        key: &[u8],
    ) -> Result<Forgot, LoadFault>
        ensures reloaded { ReloadsFrom N.space key.now seat.old.standing seat.old.desk seat.new.desk
            seat.new.standing result }
        ensures logged { HasLogged (number_of seat.old.standing) (seen_of seat.old.standing)
            (seen_of seat.new.standing) seat.old.log seat.new.log }
        ensures rest { seat.new ≡ record seat.old {
          desk = seat.new.desk;
          standing = seat.new.standing;
          log = seat.new.log;
        } }
    {
        let Chair::Free(caller) = &mut seat.chair else {
            return Err(LoadFault::Memory);
        };
        match self.space.find(&mut seat.desk, key) {
            Err(refusal) => Err(of_key(refusal)),
            Ok(at) => {
                let place = at.number();
                seat.near.remove(place.number());
                let forgot = self.store.forget_named(rt, caller, place.number());
                seat.log.add_forgot(caller.number(), place, forgot);
                Ok(forgot)
            }
        }
    }

    /// Forgets the call that the key names, whose entries then leave both caches; a newer call, and what is kept of it,
    /// stays. A key that names none is idle. What the getter owes is delivered first; where that is refused memory, so is the
    /// reload.
    pub fn reload<R: Wait, L>(
        &self,
        rt: &R,
        getter: &mut Getter<'d, D, N, O, L>,
        key: &[u8],
    ) -> Result<Forgot, LoadFault>
        ensures reloaded { HasReloaded N.space key.now getter.old getter.new result }
        ensures adds { IsReloading N.space key.now getter.old getter.new result }
    {
        let seat = &mut getter.seat;
        let _delivered = seat.settle_up(self.store.group());
        self.forget(rt, seat, key)
    }

    // Forgets the call that each place names, in turn, once what is owed is delivered. The caller is away meanwhile.
    fn forget_each<R: Wait>(&self, rt: &R, seat: &mut Seat<'d, D, N, O>) -> Result<(), Memory>
        ensures { ForgetsAll N.group.sizes.places seat.old seat.new result }
    {
        let _delivered = seat.settle_up(self.store.group());
        if seat.chair.owes() {
            return Err(Memory);
        }
        let mut caller = seat.chair.take_free();
        seat.near.empty();
        let log = &mut seat.log;
        for index in 0..self.space.place_count() {
            let place = PlaceNo::from_index(index as usize);
            let forgot = self.store.forget_named(rt, &mut caller, place.number());
            log.add_forgot(caller.number(), place, forgot);
        }
        seat.chair = Chair::Free(caller);
        Ok(())
    }

    /// Forgets the call that each place names, in turn, whose entries then leave both caches; a call that is led meanwhile at a
    /// place whose turn was before stays. What the getter owes is delivered first; where that is refused memory, nothing is
    /// forgotten. Who learns the getter's note then gets nothing from before.
    pub fn forget_all<R: Wait, L>(
        &self,
        rt: &R,
        getter: &mut Getter<'d, D, N, O, L>,
    ) -> Result<(), Memory>
        ensures { ForgetsAll N.group.sizes.places getter.old getter.new result }
    {
        self.forget_each(rt, &mut getter.seat)
    }
}
