//! A spare caller, which joins the load of a fill's first getter.
ghost use Rattle.std.specs.Prelude.{◌≡◌, IfSome};
ghost use Rattle.sf_group_rows.specs.Same.{IsPlaceOf};

use crate::meeting::Flags;
use sf_fill::{Fill, FillValue, Naming};
use sf_group::{Begun, CallId, Caller, Letter, Polled, Ticket};
use sf_loaders::scripted::AnyValue;
use sf_wait::begin_wait;
use std::marker::Model;
use std::process::Abort;
use std::sync::Wait;

/// A ticket of the spare caller.
pub(crate) struct Waiting<'d, D: Naming> {
    ticket: Ticket<FillValue<'d, D, AnyValue>>,
}

impl<'d, D: Naming> Drop for Waiting<'d, D> {
    fn drop(self) {
        let Waiting { ticket } = self;
        ticket.abandon();
    }
}

impl<'d, D: Naming> Waiting<'d, D> {
    fn into_ticket(self) -> Ticket<FillValue<'d, D, AnyValue>>
        ensures { result ≡ self.entry.ticket }
    {
        let Waiting { ticket } = self;
        ticket
    }
}

/// The spare caller, which asks for place 1 while the first getter loads.
#[derive(Drop)]
pub(crate) struct Spare<'a, 'd, 'f, D: Naming, N: Naming> {
    pub(crate) fill: &'a Fill<'d, D, N, AnyValue>,
    pub(crate) caller: Caller<FillValue<'d, D, AnyValue>>,
    pub(crate) flags: &'f Flags,
}

impl<'a, 'd, 'f, D: Naming, N: Naming> Model for Spare<'a, 'd, 'f, D, N> {
    ghost use Rattle.std.specs.Prelude.{◌≡◌};
    ghost use Rattle.sf_group_rows.specs.Same.{IsPlaceOf};

    ghost Value = { Unit {0} };

    ghost view = { λ _. tt };

    ghost invariant = { λ s. (s.caller.group ≡ N.group) × IsPlaceOf N.group 1 };
}

impl<'a, 'd, 'f, D: Naming, N: Naming> Spare<'a, 'd, 'f, D, N> {
    // Its ticket. None where the first getter was answered without a load.
    pub(crate) fn ask<R: Wait + Abort>(self, rt: &R) -> Option<Waiting<'d, D>>
        ensures { IfSome result (λ w. w.ticket.group ≡ N.group) }
    {
        let Spare {
            fill,
            caller,
            flags,
        } = self;
        if !flags.meets_load() {
            // A later load need not wait.
            flags.end_asking();
            return None;
        }
        let begun = begin_wait(rt, fill.group(), caller, 1);
        flags.end_asking();
        match begun {
            Ok(Begun::Join(ticket)) => Some(Waiting { ticket }),
            Ok(Begun::Lead(flight)) => {
                flight.abandon();
                panic!(rt; "the load's call is not open")
            }
            Err(_) => panic!(rt; "the spare caller is spent"),
        }
    }
}

// The first call or member of the caller of this number.
fn first_of(caller: u32) -> CallId {
    CallId {
        caller,
        generation: 1,
    }
}

// The letter of the call that the spare caller alone joined, with the value where no memory was refused.
fn check_letter<'d, D: Naming>(
    rt: &impl Abort,
    letter: &Letter<FillValue<'d, D, AnyValue>>,
    call: CallId,
    refused: u32,
) {
    assert!(rt;
        letter.call() == call && letter.joiners() == 1,
        "another letter"
    );
    let bytes = letter.value().byte_count();
    assert!(rt; bytes == Some(1) || refused == 1, "another value");
}

// The ticket is the spare caller's first member of the first getter's call. Its letter is there, with the value where no memory
// was refused.
pub(crate) fn take_letter<'d, D: Naming, N: Naming>(
    rt: &impl Abort,
    fill: &Fill<'d, D, N, AnyValue>,
    waiting: Waiting<'d, D>,
    refused: u32,
)
    requires { waiting.ticket.group ≡ N.group }
{
    let ticket = waiting.into_ticket();
    let (call, member) = (ticket.call(), ticket.member());
    assert!(rt;
        call == first_of(1) && member == first_of(3),
        "{member} joined {call}"
    );
    match fill.group().poll(ticket) {
        Polled::Ready(_, letter) => check_letter(rt, &letter, call, refused),
        Polled::Pending(ticket) => {
            ticket.abandon();
            panic!(rt; "the letter is lost")
        }
    }
}
