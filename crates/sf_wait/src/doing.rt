//! Do: the caller leads and loads, or waits for another's answer.
ghost use Rattle.std.specs.Prelude.{◌≡◌, IfOk, IfErr};
ghost use Rattle.sf_group_rows.specs.Tokens.{FlightValue};
ghost use Rattle.sf_group_rows.specs.Same.{IsPlaceOf};
ghost use Rattle.sf_group_rows.specs.Begins.{HasLed};
ghost use Rattle.sf_wait.specs.Doing.{HasDoneWith, HasFailed};

use crate::waiting::{begin_wait, wait};
use sf_group::{Begun, Caller, Finished, Group, Letter, Settled};
use sf_group_rows::{Fit, Spent};
use std::sync::Wait;

/// Why a do has no letter.
pub enum DoFault<V: Fit, F> {
    /// The caller has no generation left. It comes back with its load, which was not called.
    Spent(Caller<V>, F),
    /// The caller led, and its call is settled; memory for a letter's copy was refused, so letters are owed still.
    Held(Settled<V>),
}

/// The caller asks for the place. Where it leads, it calls `load` once, and settles its call with what that answers; where
/// it joins, it waits for the letter, and `load` is not called but comes back.
pub fn do_with<V: Fit, R: Wait, F: FnOnce() -> V>(
    rt: &R,
    group: &Group<V>,
    caller: Caller<V>,
    place: u32,
    load: F,
) -> Result<(Caller<V>, Letter<V>, Option<F>), DoFault<V, F>>
    requires own { caller.group ≡ group.now }
    requires place { IsPlaceOf group.now place }
    requires callable { (flight : FlightValue V) → HasLed caller place flight → F.pre load }
    requires fits { (flight : FlightValue V) (value : V) → HasLed caller place flight
        → F.post load value
        → V.fits flight.place flight.call value flight.seen }
    ensures done { IfOk result (λ done.
        HasDoneWith V.fits (F.post load) caller place load done.0 done.1 done.2) }
    ensures failed { IfErr result (λ fault. HasFailed (F.post load) caller place load fault) }
{
    match begin_wait(rt, group, caller, place) {
        Ok(Begun::Lead(flight)) => match group.finish(flight, load()) {
            Finished::Done(caller, letter) => Ok((caller, letter, None)),
            Finished::Held(settled) => Err(DoFault::Held(settled)),
        },
        Ok(Begun::Join(ticket)) => {
            let (caller, letter) = wait(rt, group, ticket);
            Ok((caller, letter, Some(load)))
        }
        Err(Spent { back }) => Err(DoFault::Spent(back, load)),
    }
}
