//! Callers of a group.
ghost use Rattle.std.specs.Prelude.{◌≡◌, All};
ghost use Rattle.sf_group_rows.specs.Same.{IsPlaceOf};

use crate::wait::seats::Seat;
use crate::wait::value::Value;
use sf_group::{Caller, ChanBegun, Fit, Flight, Group};
use sf_wait::do_chan;
use std::process::Abort;
use std::sync::Wait;

/// The last caller of the list.
pub fn next_caller<V: Fit>(
    rt: &impl Abort,
    group: &Group<V>,
    list: &mut Vec<Caller<V>>,
) -> Caller<V>
    requires { All (λ c. c.group ≡ group.now) list.old.items }
    ensures caller { result.group ≡ group.now }
    ensures rest { All (λ c. c.group ≡ group.now) list.new.items }
{
    let Some(caller) = list.pop() else {
        panic!(rt; "no more callers")
    };
    caller
}

/// Of the last two callers of the list the lower leads a call of the place, and the other sits with its channel.
pub fn lead_chan<'a>(
    rt: &(impl Abort + Wait),
    group: &'a Group<Value>,
    list: &mut Vec<Caller<Value>>,
    place: u32,
) -> (Flight<Value>, Seat<'a>)
    requires own { All (λ c. c.group ≡ group.now) list.old.items }
    requires place { IsPlaceOf group.now place }
    ensures flight { result.0.group ≡ group.entry.now }
    ensures rest { All (λ c. c.group ≡ group.entry.now) list.new.items }
{
    let second = next_caller(rt, group, list);
    let caller = next_caller(rt, group, list);
    match do_chan(rt, group, caller, second, place) {
        Ok(ChanBegun::Led(flight, ticket)) => (flight, Seat::waiting(group, ticket, place)),
        Ok(ChanBegun::Joined(ticket, _)) => {
            ticket.abandon();
            panic!(rt; "it joins")
        }
        Err(_) => panic!(rt; "one is spent"),
    }
}
