//! Askings: begin, and begin_chan with a second caller.
ghost use Rattle.std.specs.Prelude.{◌≡◌, ◌<◌, ◌≤◌, ◌⊎◌, IfOk, IfErr, IfSome, IfNone};
ghost use Rattle.sf_group_rows.specs.Same.{IsPlaceOf};
ghost use Rattle.sf_group_rows.specs.Begins.{HasBegun, HasChanBegun};
ghost use Rattle.sf_group.specs.Calls.{HasTriedToBegin, HasNotBegun, HaveTriedToBegin, HasNotBegunChan};

use crate::group::{Group, MOST_TRIES};
use crate::tokens::{Caller, Flight, Ticket};
use sf_group_chans::{Askers, ask_together};
use sf_group_rows::{Begun, ChanBegun, Fit, NotBegun};
use sf_group_steps::{Actor, AskAttempt, ask_often};
use sf_history::CallId;

// The generations that two callers use next. None where either is spent.
fn generations(next: u64, second_next: u64) -> Option<(u32, u32)>
    ensures given { IfSome result (λ given. (given.0 ≡ next) × (given.1 ≡ second_next)
        × (next ≤ 4294967295) × (second_next ≤ 4294967295)) }
    ensures spent { IfNone result ((4294967295 < next) ⊎ (4294967295 < second_next)) }
{
    let Ok(generation) = u32::try_from(next) else {
        return None;
    };
    let Ok(second_generation) = u32::try_from(second_next) else {
        return None;
    };
    Some((generation, second_generation))
}

impl<V: Fit> Group<V> {
    /// The caller asks for the place: it leads a new call where the place has no open one, and else joins that. Refused
    /// as spent is a caller that has no generation left, which is looked at first; as busy one whose tries (1 to 65,536)
    /// all failed, each since another had changed a word between its reading and its exchange.
    #[inline(always)]
    pub fn begin(
        &self,
        caller: Caller<V>,
        place: u32,
        tries: u32,
    ) -> Result<Begun<Flight<V>, Ticket<V>>, NotBegun<Caller<V>>>
        requires own { caller.group ≡ self.now }
        requires place { IsPlaceOf self.now place }
        requires tries { (1 ≤ tries) × (tries ≤ MOST_TRIES) }
        ensures begun { IfOk result (λ begun. HasBegun caller place begun) }
        ensures tried { IfOk result (λ begun. HasTriedToBegin caller tries begun) }
        ensures refused { IfErr result (λ refused. HasNotBegun caller place tries refused) }
    {
        let Caller { mut seated } = caller;
        let Ok(generation) = u32::try_from(seated.next) else {
            return Err(NotBegun::Spent(Caller { seated }));
        };
        let member = CallId {
            caller: seated.number as u32,
            generation,
        };
        let actor = Actor {
            sizes: self.sizes,
            number: seated.number as u32,
            place,
        };
        let words = &self.table.shared;
        let attempt = ask_often(words, &mut seated.seat, actor, generation, tries);
        match attempt {
            AskAttempt::Led(after) => Ok(Begun::Lead(Flight::of(
                seated, place, member, None, after,
            ))),
            AskAttempt::Joined(call) => Ok(Begun::Join(Ticket::of(seated, place, call, member))),
            AskAttempt::Lost => Err(NotBegun::Busy(tries, Caller { seated })),
        }
    }

    /// The caller asks for the place with a second caller. Where the place has no open call, the caller leads a new one,
    /// and the second holds its own channel; else the second joins the open one, and the caller stays free. Both have then
    /// seen what either had. Refused as spent where either has no generation left, which is looked at first; as busy where
    /// all tries (1 to 65,536) failed, each since another had changed a word between its reading and its exchange.
    pub fn begin_chan(
        &self,
        caller: Caller<V>,
        second: Caller<V>,
        place: u32,
        tries: u32,
    ) -> Result<ChanBegun<Flight<V>, Ticket<V>, Caller<V>>, NotBegun<(Caller<V>, Caller<V>)>>
        requires caller { caller.group ≡ self.now }
        requires second { second.group ≡ self.now }
        requires place { IsPlaceOf self.now place }
        requires tries { (1 ≤ tries) × (tries ≤ MOST_TRIES) }
        ensures begun { IfOk result (λ begun. HasChanBegun caller second place begun) }
        ensures tried { IfOk result (λ begun. HaveTriedToBegin caller second tries begun) }
        ensures refused { IfErr result (λ refused.
            HasNotBegunChan caller second place tries refused) }
    {
        let (next, second_next) = (caller.seated.next, second.seated.next);
        let Some((generation, second_generation)) = generations(next, second_next) else {
            return Err(NotBegun::Spent((caller, second)));
        };
        let Caller { seated: mut one } = caller;
        let Caller { seated: mut two } = second;
        let askers = Askers {
            sizes: self.sizes,
            number: one.number as u32,
            second: two.number as u32,
            place,
            generation,
            second_generation,
        };
        let call = CallId {
            caller: one.number as u32,
            generation,
        };
        let member = CallId {
            caller: two.number as u32,
            generation: second_generation,
        };
        let words = &self.table.shared;
        let (attempt, seat, second_seat) = ask_together(words, one.seat, two.seat, askers, tries);
        one.seat = seat;
        two.seat = second_seat;
        match attempt {
            AskAttempt::Led(after) => Ok(ChanBegun::Led(
                Flight::of(one, place, call, Some(member), after),
                Ticket::of(two, place, call, member),
            )),
            AskAttempt::Joined(open) => Ok(ChanBegun::Joined(
                Ticket::of(two, place, open, member),
                Caller { seated: one },
            )),
            AskAttempt::Lost => {
                let back = (Caller { seated: one }, Caller { seated: two });
                Err(NotBegun::Busy(tries, back))
            }
        }
    }
}
