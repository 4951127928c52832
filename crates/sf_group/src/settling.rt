//! Calls that settle and hand letters out: settle, finish and go_on.
ghost use Rattle.std.specs.Prelude.{◌≡◌, ◌≤◌, true, Some};
ghost use Rattle.sf_steps_laws.specs.Schedules.{was_led_on};
ghost use Rattle.sf_group_rows.specs.Finishes.{HasFinished, HasGoneOn};
ghost use Rattle.sf_group_steps.specs.View.{sizes_of, history_of};
ghost use Rattle.sf_group.specs.Calls.{HasClosed, HasKnown, HasOwedNone};
ghost use Rattle.sf_group.specs.Known.{IsPlaceIn, letter_of};

use crate::group::Group;
use crate::tokens::{Caller, Flight, Leader, Letter, MaybeNumber, Note, Settled};
use sf_group_rows::{Finished, Fit};
use sf_group_steps::{
    Actor, Delivery, Tells, Unrested, Wakes, WordSeat, hand_out, settle_and_count,
};
use sf_history::CallId;

impl<V: Fit> Group<V> {
    /// The leader settles its call with the value, for good, and hands a letter to each that joined and to the own channel:
    /// then it is free again, with its own letter. Each letter to another takes a copy of the value; where there is no memory
    /// for one, the delivery is still to be gone on with. It settles in at most one try more than there are callers, since
    /// each of its tries that fails is another caller's joining, or the call's one Forget. The value has to fit the call, by
    /// what the leader has seen.
    #[inline(always)]
    pub fn finish(&self, flight: Flight<V>, value: V) -> Finished<Caller<V>, Letter<V>, Settled<V>>
        requires own { flight.group ≡ self.now }
        requires fits { V.fits flight.place flight.call value flight.seen }
        ensures finished { HasFinished V.fits flight value result }
        ensures closed { HasClosed flight result }
    {
        match self.settle(flight, value) {
            Finished::Done(caller, letter) => Finished::Done(caller, letter),
            Finished::Held(settled) => self.hand_on_held(settled),
        }
    }

    /// The leader settles its call as by `finish`, and hands no letter to another: where somebody joined, or the call has an own
    /// channel, the delivery is to be gone on with.
    pub fn settle(&self, flight: Flight<V>, value: V) -> Finished<Caller<V>, Letter<V>, Settled<V>>
        requires own { flight.group ≡ self.now }
        requires fits { V.fits flight.place flight.call value flight.seen }
        ensures finished { HasFinished V.fits flight value result }
        ensures closed { HasClosed flight result }
        ensures owed { HasOwedNone flight result }
    {
        let Flight {
            mut leader,
            after: _,
        } = flight;
        let actor = Actor {
            sizes: self.sizes,
            number: leader.seated.number as u32,
            place: leader.place as u32,
        };
        let call = leader.call();
        let channel = leader.own.get();
        let tally = settle_and_count(
            &self.table.shared,
            &mut leader.seated.seat,
            actor,
            call.generation,
            channel,
            &value,
        );
        let joiners = tally.joiners as u64;
        if tally.top.is_some() || channel.is_some() {
            return Finished::Held(Settled {
                leader,
                joiners,
                top: MaybeNumber::of(tally.top),
                value,
            });
        }
        let Leader {
            mut seated,
            place,
            own: _,
        } = leader;
        let letter = self.letter(&mut seated.seat, place, call, value, joiners);
        Finished::Done(Caller { seated }, letter)
    }

    /// Goes on with a delivery that lacked memory, from where it stands. No letter is handed out twice.
    pub fn go_on(&self, settled: Settled<V>) -> Finished<Caller<V>, Letter<V>, Settled<V>>
        requires own { settled.group ≡ self.now }
        ensures { HasGoneOn V.fits settled result }
    {
        self.hand_on(&self.resting, settled)
    }

    /// Goes on, in a group in which nobody rests, with a delivery that lacked memory: nobody is woken, so a caller that rests may sleep on.
    pub fn go_on_unrested(&self, settled: Settled<V>) -> Finished<Caller<V>, Letter<V>, Settled<V>>
        requires own { settled.group ≡ self.now }
        ensures { HasGoneOn V.fits settled result }
    {
        self.hand_on(&Unrested, settled)
    }

    // Hands out what is owed, and wakes who rests. Inlined, so that its locals are cleared where somebody joined, and not at each
    // `finish`.
    #[inline(always)]
    fn hand_on_held(&self, settled: Settled<V>) -> Finished<Caller<V>, Letter<V>, Settled<V>>
        requires own { settled.group ≡ self.now }
        ensures gone { HasGoneOn V.fits settled result }
        ensures known { HasKnown settled result }
    {
        self.hand_on(&self.resting, settled)
    }

    // Hands out what is owed. Who settles a call that nobody joined keeps no room for it.
    #[inline(never)]
    fn hand_on<W: Wakes>(
        &self,
        resting: &W,
        settled: Settled<V>,
    ) -> Finished<Caller<V>, Letter<V>, Settled<V>>
        requires own { settled.group ≡ self.now }
        ensures gone { HasGoneOn V.fits settled result }
        ensures known { HasKnown settled result }
    {
        let Settled {
            mut leader,
            joiners,
            top,
            mut value,
        } = settled;
        let actor = Actor {
            sizes: self.sizes,
            number: leader.seated.number as u32,
            place: leader.place as u32,
        };
        let call = leader.call();
        let channel = leader.own.get();
        let list = top.get();
        let delivery = Delivery {
            generation: call.generation,
            own: channel,
            joiners: joiners as u32,
        };
        let words = &self.table.shared;
        let seat = &mut leader.seated.seat;
        match hand_out(words, resting, seat, actor, delivery, &mut value, list) {
            Ok(()) => {}
            Err(left) => {
                return Finished::Held(Settled {
                    leader,
                    joiners,
                    top: MaybeNumber::of(left),
                    value,
                });
            }
        }
        let Leader {
            mut seated,
            place,
            own: _,
        } = leader;
        let letter = self.letter(&mut seated.seat, place, call, value, joiners);
        Finished::Done(Caller { seated }, letter)
    }

    // A letter whose note shows what the seat has seen.
    pub(crate) fn letter(
        &self,
        seat: &mut WordSeat<V>,
        place: u64,
        call: CallId,
        value: V,
        joiners: u64,
    ) -> Letter<V>
        requires small { (place ≤ 4294967295) × (joiners ≤ 4294967295) }
        requires own { seat.old.table_id ≡ self.now.table }
        requires seat { seat.old.me.0.sizes ≡ Some (sizes_of seat.old.me.0) }
        requires place { IsPlaceIn (sizes_of seat.old.me.0) place }
        requires led { was_led_on (history_of (sizes_of seat.old.me.0) seat.old.me.0.known.turns)
            place call ≡ true }
        requires fits { V.fits place call value
            (history_of (sizes_of seat.old.me.0) seat.old.me.0.known.turns) }
        ensures seat { (seat.new.table_id ≡ seat.old.table_id) × (seat.new.me ≡ seat.old.me) }
        ensures letter { result ≡ letter_of seat.old.table_id seat.old.me.0 place call value
            joiners }
    {
        let note = Note {
            seat: self.table.shared.split_seat::<Tells>(seat),
        };
        Letter {
            place,
            call,
            joiners,
            value,
            note,
        }
    }
}
