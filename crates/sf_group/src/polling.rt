//! Calls by which letters come: poll, and the rest between two.
ghost use Rattle.std.specs.Prelude.{◌≡◌};
ghost use Rattle.sf_group_rows.specs.Finishes.{HasPolled};

use crate::group::Group;
use crate::tokens::{Caller, Letter, Ticket};
use sf_group_rows::{Fit, Polled};
use sf_group_steps::{Actor, collect};
use std::sync::Wait;

impl<V: Fit> Group<V> {
    /// Looks for the letter of the ticket's call, once. Where it is there, the caller has it and is free again.
    pub fn poll(&self, ticket: Ticket<V>) -> Polled<Caller<V>, Letter<V>, Ticket<V>>
        requires own { ticket.group ≡ self.now }
        ensures { HasPolled V.fits ticket result }
    {
        let Ticket {
            mut seated,
            place,
            call,
            member,
        } = ticket;
        let actor = Actor {
            sizes: self.sizes,
            number: seated.number as u32,
            place: place as u32,
        };
        let Some(cell) = collect(
            &self.table.shared,
            &mut seated.seat,
            actor,
            member.generation,
            call,
        ) else {
            return Polled::Pending(Ticket {
                seated,
                place,
                call,
                member,
            });
        };
        let joiners = cell.joiners as u64;
        let letter = self.letter(&mut seated.seat, place, call, cell.value, joiners);
        Polled::Ready(Caller { seated }, letter)
    }

    /// Sleeps while the ticket's letter is not there, until its delivery. It may come back at any time, and promises
    /// nothing: who rests polls again.
    pub fn rest<R: Wait>(&self, rt: &R, ticket: &Ticket<V>)
        requires own { ticket.now.group ≡ self.now }
    {
        self.resting
            .rest(rt, &self.table.shared, self.sizes, ticket.member);
    }
}
