//! Each copy of a value refused in turn.

ghost use Rattle.std.specs.Prelude.{◌≡◌, All, IfSome};
ghost use Rattle.sf_group.specs.Same.{IsPlaceOf};

use crate::askings::{join, lead, letter, make};
use sf_group::{Caller, Finished, Fit, Group, Letter, Polled, Settled, Share, Ticket};
use sf_history::Memory;
use std::alloc::AllocError;
use std::cell::Cell;
use std::process::Abort;
use std::test::Fail;

// A number, of which one copy is refused: the next one where this says 1, and none where it says 0.
#[derive(Drop)]
struct Scarce {
    value: u32,
    refused: Cell<u32>,
}

impl Share for Scarce {
    fn share(&mut self) -> Result<Self, Memory> {
        let refused = self.refused.get();
        self.refused.set(refused.saturating_sub(1));
        if refused == 1 {
            return Err(AllocError);
        }
        Ok(Scarce {
            value: self.value,
            refused: Cell::new(0),
        })
    }
}

impl Fit for Scarce {
    ghost lasts = { λ _ _ _ _ _ f. f };
}

// A joiner's letter, which is to be there.
fn check_letter(rt: &impl Abort, letter: &Letter<Scarce>, due: bool) {
    assert!(rt; due, "a letter is there too early");
    assert!(rt;
        letter.value().value == 7 && letter.joiners() == 3,
        "another letter"
    );
}

// The letter is there where it is due, and else the ticket comes back.
fn poll(
    rt: &impl Abort,
    group: &Group<Scarce>,
    ticket: Ticket<Scarce>,
    due: bool,
) -> Option<Ticket<Scarce>>
    requires { ticket.group ≡ group.now }
    ensures { IfSome result (λ t. t.group ≡ group.now) }
{
    match group.poll(ticket) {
        Polled::Ready(_, letter) => {
            check_letter(rt, &letter, due);
            None
        }
        Polled::Pending(ticket) => {
            if due {
                ticket.abandon();
                panic!(rt; "a letter is not there")
            }
            Some(ticket)
        }
    }
}

// The letter is there now, if it was not before.
fn poll_rest(rt: &impl Abort, group: &Group<Scarce>, ticket: Option<Ticket<Scarce>>)
    requires { IfSome ticket (λ t. t.group ≡ group.now) }
{
    if let Some(ticket) = ticket {
        check_letter(rt, &letter(rt, group, ticket), true);
    }
}

// The leader's letter, of a delivery that is to be done.
fn check_done(rt: &impl Abort, letter: &Letter<Scarce>, due: bool) {
    assert!(rt; due, "it is done");
    assert!(rt;
        letter.value().value == 7 && letter.joiners() == 3,
        "the leader's letter"
    );
}

// A delivery that is to be held, and is done once it goes on.
fn go_on(rt: &impl Abort, group: &Group<Scarce>, settled: Settled<Scarce>, due: bool)
    requires { settled.group ≡ group.now }
{
    assert!(rt; due, "it is held");
    match group.go_on(settled) {
        Finished::Done(_, letter) => check_done(rt, &letter, true),
        Finished::Held(settled) => {
            settled.abandon();
            panic!(rt; "it is held again")
        }
    }
}

// One leads and three join; the copy of this number is refused. Those who joined last get their letters first.
fn deliver(rt: &impl Abort, group: &Group<Scarce>, callers: &mut Vec<Caller<Scarce>>, refused: u32)
    requires own { All (λ c. c.group ≡ group.now) callers.old.items }
    requires place { IsPlaceOf group.now 1 }
{
    let flight = lead(rt, group, callers);
    let first = join(rt, group, callers);
    let second = join(rt, group, callers);
    let last = join(rt, group, callers);
    let value = Scarce {
        value: 7,
        refused: Cell::new(refused),
    };
    let finished = group.finish(flight, value);
    let last = poll(rt, group, last, refused > 1);
    let second = poll(rt, group, second, refused > 2);
    let first = poll(rt, group, first, refused > 3);
    match finished {
        Finished::Held(settled) => go_on(rt, group, settled, refused <= 3),
        Finished::Done(_, letter) => check_done(rt, &letter, refused > 3),
    }
    poll_rest(rt, group, last);
    poll_rest(rt, group, second);
    poll_rest(rt, group, first);
}

// In the last run none is refused.
#[test]
fn each_copy_refused_in_turn(rt: HostRuntime) -> Result<(), Fail> {
    for refused in 1..=4 {
        let (group, mut callers) = make(rt.alloc(), 4)?;
        deliver(&rt, &group, &mut callers, refused);
    }
    Ok(())
}
