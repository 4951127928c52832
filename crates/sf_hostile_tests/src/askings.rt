//! Groups of one place, and askings for it that are to end in one way.

ghost use Rattle.std.specs.Prelude.{◌≡◌, ◌≤◌, All, IfErr, IfOk};
ghost use Rattle.sf_group.specs.Same.{IsPlaceOf};

use sf_group::{Begun, Caller, Fit, Flight, Group, Letter, Polled, Ticket};
use sf_history::Memory;
use std::alloc::Global;
use std::process::Abort;

// A group of one place, and so many callers. Where memory is refused it is asked for once more.
pub(crate) fn make<V: Fit>(
    alloc: Global,
    callers: u32,
) -> Result<(Group<V>, Vec<Caller<V>>), Memory>
    requires { (1 ≤ callers) × (callers ≤ 65535) }
    ensures place { IfOk result (λ made. IsPlaceOf made.0 1) }
    ensures callers { IfOk result (λ made. All (λ c. c.group ≡ made.0) made.1.items) }
{
    if let Ok(made) = Group::new(alloc, 1, callers, 1) {
        return Ok(made);
    }
    Group::new(alloc, 1, callers, 1)
}

// The caller of the greatest number asks.
fn ask<V: Fit>(
    rt: &impl Abort,
    group: &Group<V>,
    list: &mut Vec<Caller<V>>,
) -> Result<Flight<V>, Ticket<V>>
    requires own { All (λ c. c.group ≡ group.now) list.old.items }
    requires place { IsPlaceOf group.now 1 }
    ensures flight { IfOk result (λ f. f.group ≡ group.now) }
    ensures ticket { IfErr result (λ t. t.group ≡ group.now) }
    ensures rest { All (λ c. c.group ≡ group.now) list.new.items }
{
    let Some(caller) = list.pop() else {
        panic!(rt; "no more callers")
    };
    match group.begin(caller, 1, 1) {
        Ok(Begun::Lead(flight)) => Ok(flight),
        Ok(Begun::Join(ticket)) => Err(ticket),
        Err(_) => panic!(rt; "it is refused"),
    }
}

// The caller of the greatest number leads.
pub(crate) fn lead<V: Fit>(
    rt: &impl Abort,
    group: &Group<V>,
    list: &mut Vec<Caller<V>>,
) -> Flight<V>
    requires own { All (λ c. c.group ≡ group.now) list.old.items }
    requires place { IsPlaceOf group.now 1 }
    ensures flight { result.group ≡ group.now }
    ensures rest { All (λ c. c.group ≡ group.now) list.new.items }
{
    match ask(rt, group, list) {
        Ok(flight) => flight,
        Err(ticket) => {
            ticket.abandon();
            panic!(rt; "it joins")
        }
    }
}

// The caller of the greatest number joins.
pub(crate) fn join<V: Fit>(
    rt: &impl Abort,
    group: &Group<V>,
    list: &mut Vec<Caller<V>>,
) -> Ticket<V>
    requires own { All (λ c. c.group ≡ group.now) list.old.items }
    requires place { IsPlaceOf group.now 1 }
    ensures ticket { result.group ≡ group.now }
    ensures rest { All (λ c. c.group ≡ group.now) list.new.items }
{
    match ask(rt, group, list) {
        Err(ticket) => ticket,
        Ok(flight) => {
            flight.abandon();
            panic!(rt; "it leads")
        }
    }
}

// The ticket's letter, which is there at the first look.
pub(crate) fn letter<V: Fit>(rt: &impl Abort, group: &Group<V>, ticket: Ticket<V>) -> Letter<V>
    requires { ticket.group ≡ group.now }
{
    match group.poll(ticket) {
        Polled::Ready(_, letter) => letter,
        Polled::Pending(ticket) => {
            ticket.abandon();
            panic!(rt; "a letter is not there")
        }
    }
}
