//! The group's calls that can be busy or pending, each as a form that comes back when it is done.
ghost use Rattle.std.specs.Prelude.{◌≡◌, IfOk, IfErr};
ghost use Rattle.sf_group_rows.specs.Same.{IsPlaceOf};
ghost use Rattle.sf_group_rows.specs.Begins.{HasBegun, HasChanBegun, IsRefusedSpent, AreRefusedSpent};
ghost use Rattle.sf_group_rows.specs.Forgets.{HasForgotten, HasForgotCall};
ghost use Rattle.sf_group_rows.specs.Finishes.{HasFinished, HasGoneOn, IsReady};

use sf_group::{
    Begun, CallId, Caller, ChanBegun, Finished, Flight, Forgotten, Group, Hit, Letter, Polled,
    Settled, Ticket,
};
use sf_group_rows::{Fit, NotBegun, Spent};
use std::sync::Wait;

// How often a form tries before it begins again: more than once, since to begin again takes a tenth of a do by four threads on one
// key.
const TRIES: u32 = 4;

/// The caller asks for the place: it leads a new call where the place has no open one, and else joins that. Refused is a
/// caller that has no generation left.
pub fn begin_wait<V: Fit, R: Wait>(
    rt: &R,
    group: &Group<V>,
    caller: Caller<V>,
    place: u32,
) -> Result<Begun<V>, Spent<Caller<V>>>
    requires own { caller.group ≡ group.now }
    requires place { IsPlaceOf group.now place }
    ensures begun { IfOk result (λ begun. HasBegun caller place begun) }
    ensures spent { IfErr result (λ refused. IsRefusedSpent caller refused.back) }
{
    let mut asking = caller;
    for _ in rt.forever() {
        match group.begin(asking, place, TRIES) {
            Ok(begun) => return Ok(begun),
            Err(NotBegun::Busy(_, back)) => asking = back,
            Err(NotBegun::Spent(back)) => return Err(Spent { back }),
        }
    }
    unreachable!()
}

/// The second caller waits for the place's letter by a ticket. Where the place has no open call, the caller leads a new
/// one, whose flight makes a `Job`, and the second holds its own channel; else the second joins the open one, and the
/// caller stays free. Refused is where either has no generation left.
pub fn do_chan<V: Fit, R: Wait>(
    rt: &R,
    group: &Group<V>,
    caller: Caller<V>,
    second: Caller<V>,
    place: u32,
) -> Result<ChanBegun<V>, Spent<(Caller<V>, Caller<V>)>>
    requires caller { caller.group ≡ group.now }
    requires second { second.group ≡ group.now }
    requires place { IsPlaceOf group.now place }
    ensures begun { IfOk result (λ begun. HasChanBegun caller second place begun) }
    ensures spent { IfErr result (λ refused.
        AreRefusedSpent caller second refused.back.0 refused.back.1) }
{
    let mut asking = caller;
    let mut other = second;
    for _ in rt.forever() {
        match group.begin_chan(asking, other, place, TRIES) {
            Ok(begun) => return Ok(begun),
            Err(NotBegun::Busy(_, (back, second_back))) => {
                asking = back;
                other = second_back;
            }
            Err(NotBegun::Spent(back)) => return Err(Spent { back }),
        }
    }
    unreachable!()
}

/// The leader settles its call with the value, for good, and delivers the letters: the group's own `finish`, for who looks for it
/// among these forms. It waits for nobody.
pub fn finish_wait<V: Fit>(group: &Group<V>, flight: Flight<V>, value: V) -> Finished<V>
    requires own { flight.group ≡ group.now }
    requires fits { V.fits flight.place flight.call value flight.seen }
    ensures { HasFinished V.fits flight value result }
{
    group.finish(flight, value)
}

/// Goes on with a delivery for whose letters memory was refused: the group's own `go_on`, as `finish_wait` is its `finish`.
pub fn go_on_wait<V: Fit>(group: &Group<V>, settled: Settled<V>) -> Finished<V>
    requires { settled.group ≡ group.now }
    ensures { HasGoneOn V.fits settled result }
{
    group.go_on(settled)
}

/// The caller forgets the place, which closes its open call, if it has one.
pub fn forget_wait<V: Fit, R: Wait>(
    rt: &R,
    group: &Group<V>,
    caller: &mut Caller<V>,
    place: u32,
) -> Forgotten
    requires own { caller.old.group ≡ group.now }
    requires place { IsPlaceOf group.now place }
    ensures { HasForgotten caller.old place caller.new result }
{
    for _ in rt.forever() {
        if let Ok(forgotten) = group.forget(caller, place, TRIES) {
            return forgotten;
        }
    }
    unreachable!()
}

/// The caller forgets this call of the place, whichever call it is, and leaves a newer one as it is.
pub fn forget_call_wait<V: Fit, R: Wait>(
    rt: &R,
    group: &Group<V>,
    caller: &mut Caller<V>,
    place: u32,
    call: CallId,
) -> Hit
    requires own { caller.old.group ≡ group.now }
    requires place { IsPlaceOf group.now place }
    ensures { HasForgotCall caller.old place call result caller.new }
{
    for _ in rt.forever() {
        if let Ok(hit) = group.forget_call(caller, place, call, TRIES) {
            return hit;
        }
    }
    unreachable!()
}

/// Waits for the ticket's letter. The caller is then free.
pub fn wait<V: Fit, R: Wait>(rt: &R, group: &Group<V>, ticket: Ticket<V>) -> (Caller<V>, Letter<V>)
    requires { ticket.group ≡ group.now }
    ensures { IsReady V.fits ticket result.0 result.1 }
{
    let mut waiting = ticket;
    for _ in rt.forever() {
        match group.poll(waiting) {
            Polled::Ready(caller, letter) => return (caller, letter),
            Polled::Pending(pending) => waiting = pending,
        }
        group.rest(rt, &waiting);
    }
    unreachable!()
}
