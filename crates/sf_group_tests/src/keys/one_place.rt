//! Two keys of one place, step by step.
ghost use Rattle.std.specs.Prelude.{◌≡◌, All};

use crate::keys::asking::Asker;
use crate::keys::item::{Item, item, size_in};
use crate::wait::callers::next_caller;
use sf_group::{Begun, Caller, Finished, Flight, Group, MOST_TRIES, Ticket};
use sf_keys::{KeyPolled, Places, ask_key, poll_key};
use std::process::Abort;
use std::sync::Wait;
use std::sync::atomic::AtomicU32;
use std::test::Fail;

const ONE: Places = Places {
    count: 1,
    seed0: 7,
    seed1: 8,
};

// The last caller of the list leads.
fn lead(
    rt: &impl Abort,
    group: &Group<Item>,
    list: &mut Vec<Caller<Item>>,
    key: &[u8],
) -> Flight<Item>
    requires own { All (λ c. c.group ≡ group.now) list.old.items }
    requires place { group.now.sizes.places ≡ 1 }
    ensures flight { result.group ≡ group.now }
    ensures rest { All (λ c. c.group ≡ group.now) list.new.items }
{
    let caller = next_caller(rt, group, list);
    match ask_key(group, ONE, caller, key, MOST_TRIES) {
        Ok(Begun::Lead(flight)) => flight,
        Ok(Begun::Join(ticket)) => {
            ticket.abandon();
            panic!(rt; "it joins")
        }
        Err(_) => panic!(rt; "it is refused"),
    }
}

// The last caller of the list joins, and finds no letter yet.
fn join(
    rt: &impl Abort,
    group: &Group<Item>,
    list: &mut Vec<Caller<Item>>,
    key: &[u8],
) -> Ticket<Item>
    requires own { All (λ c. c.group ≡ group.now) list.old.items }
    requires place { group.now.sizes.places ≡ 1 }
    ensures ticket { result.group ≡ group.now }
    ensures rest { All (λ c. c.group ≡ group.now) list.new.items }
{
    let caller = next_caller(rt, group, list);
    match ask_key(group, ONE, caller, key, MOST_TRIES) {
        Ok(Begun::Join(ticket)) => pending(rt, group, ticket, key),
        Ok(Begun::Lead(flight)) => {
            flight.abandon();
            panic!(rt; "it leads")
        }
        Err(_) => panic!(rt; "it is refused"),
    }
}

fn pending(rt: &impl Abort, group: &Group<Item>, ticket: Ticket<Item>, key: &[u8]) -> Ticket<Item>
    requires { ticket.group ≡ group.now }
    ensures { result.group ≡ group.now }
{
    match poll_key(group, ticket, key) {
        KeyPolled::Pending(ticket) => ticket,
        _ => panic!(rt; "it is ready"),
    }
}

// The leader settles its call with what a load answers for the key. How many joined it.
fn settle(rt: &impl Abort, group: &Group<Item>, flight: Flight<Item>, key: &'static [u8]) -> u32
    requires { flight.group ≡ group.now }
{
    match group.finish(flight, item(key)) {
        Finished::Done(_, letter) => letter.joiners(),
        Finished::Held(settled) => {
            settled.abandon();
            panic!(rt; "it is held")
        }
    }
}

// The number in the letter that is there, where that is the key's and not another's.
fn polled(rt: &impl Abort, group: &Group<Item>, ticket: Ticket<Item>, key: &[u8]) -> Option<usize>
    requires { ticket.group ≡ group.now }
{
    match poll_key(group, ticket, key) {
        KeyPolled::Ready(_, letter) => Some(size_in(&letter, key)),
        KeyPolled::Other(_) => None,
        KeyPolled::Pending(ticket) => {
            ticket.abandon();
            panic!(rt; "no letter")
        }
    }
}

fn are_found(rt: &impl Abort, first: Option<usize>, second: Option<usize>) {
    assert!(rt;
        first == Some(5),
        "the key's letter is taken for another's, or has another number"
    );
    assert!(rt;
        second.is_none(),
        "another key's letter is taken for the key's"
    );
}

#[test]
fn polls_of_two_keys(rt: HostRuntime) -> Result<(), Fail> {
    let (group, mut list) = Group::<Item>::new(rt.alloc(), 1, 3, 1)?;
    let flight = lead(&rt, &group, &mut list, b"first");
    let first = join(&rt, &group, &mut list, b"first");
    let second = join(&rt, &group, &mut list, b"second");
    let joined = settle(&rt, &group, flight, b"first");
    let first = polled(&rt, &group, first, b"first");
    let second = polled(&rt, &group, second, b"second");
    assert!(rt; joined == 2, "{joined} joined");
    are_found(&rt, first, second);
    Ok(())
}

// A do of the key comes to this: whether it was alone, and the number.
fn ask<'a>(
    rt: &(impl Abort + Wait),
    asker: Asker<'a>,
    key: &'static [u8],
    rounds: u32,
    due: (bool, usize),
) -> Asker<'a> {
    let (asker, alone, size) = asker.ask(rt, key, rounds);
    let as_due = alone == due.0 && size == due.1;
    assert!(rt; as_due, "alone: {alone}, {size}");
    asker
}

#[test]
fn dos_in_turn(rt: HostRuntime) -> Result<(), Fail> {
    let (group, mut list) = Group::<Item>::new(rt.alloc(), 1, 1, 1)?;
    let loads = AtomicU32::new(0);
    let asker = Asker::next(&rt, &group, ONE, &mut list, &loads);
    let asker = ask(&rt, asker, b"first", 1, (false, 5));
    let mut asker = ask(&rt, asker, b"second", 1, (false, 6));
    asker.forget(&rt, b"third");
    ask(&rt, asker, b"third", 0, (true, 5));
    Ok(())
}
