//! What a getter's calls added to the group's history, as far as there is room for it.
ghost use Rattle.std.specs.Prelude.{◌≡◌, IfOk, None};
ghost use Rattle.sf_history.specs.declared.event.Event.TheVariants.{Enter, Lead};
ghost use Rattle.sf_fill_store.specs.Forgets.{forgot_by};
ghost use Rattle.sf_fill_store.specs.Logs.{empty_log, finish_events, logged_by, logged_one};

use crate::forget::Forgot;
use sf_group::{Event, Finished, Flight, Ticket};
use sf_group_rows::Fit;
use sf_history::{CallId, Hit};
use sf_words::PlaceNo;
use std::alloc::{AllocError, Global};
use std::marker::Model;
use std::mem;

/// Events of one caller, oldest first. Room for them is taken once; those beyond it are not kept.
#[derive(Drop)]
pub struct Log {
    events: Vec<Event<PlaceNo, ()>>,
    alloc: Global,
}

impl Model for Log {
    ghost use Rattle.std.specs.Prelude.{vec_capacity};
    ghost use Rattle.sf_fill_store.specs.Logs.{LogValue};

    ghost Value = { LogValue };

    ghost view = { λ log. record { events = log.events.items; room = vec_capacity log.events } };
}

impl Log {
    /// A log with room for so many events.
    pub fn with_room(alloc: Global, room: usize) -> Result<Log, AllocError>
        ensures { IfOk result (λ log. log ≡ empty_log room) }
    {
        Ok(Log {
            events: Vec::with_capacity(alloc, room)?,
            alloc,
        })
    }

    /// The event, where there is room for it.
    pub fn add(&mut self, event: Event<PlaceNo, ()>)
        ensures { self.new ≡ logged_one self.old event }
    {
        if self.events.len() < self.events.capacity() {
            self.events.push_reserved(event);
        }
    }

    // The Lead of the flight's call, which has no own channel.
    pub(crate) fn add_lead<V: Fit>(&mut self, key: PlaceNo, flight: &Flight<V>)
        ensures { self.new ≡ logged_one self.old
            (Lead flight.now.call.caller key flight.now.call None) }
    {
        let call = flight.call();
        self.add(Event::Lead {
            by: call.caller,
            key,
            call,
            own: None,
        });
    }

    // The Enter of the ticket's member.
    pub(crate) fn add_enter<V: Fit>(&mut self, key: PlaceNo, ticket: &Ticket<V>)
        ensures { self.new ≡ logged_one self.old
            (Enter ticket.now.member.caller key ticket.now.call ticket.now.member) }
    {
        let member = ticket.member();
        self.add(Event::Enter {
            by: member.caller,
            key,
            call: ticket.call(),
            member,
        });
    }

    // How a finish ended of a call that nobody has a channel of: what was settled, and what was handed out.
    pub(crate) fn add_finished<V: Fit>(&mut self, call: CallId, finished: &Finished<V>)
        ensures { self.new ≡ logged_by self.old (finish_events call finished.now) }
    {
        let joiners = match finished {
            Finished::Done(_, letter) => letter.joiners(),
            Finished::Held(settled) => settled.joiners(),
        };
        self.add(Event::Settle {
            by: call.caller,
            call,
            result: (),
            joiners,
        });
        if let Finished::Done(_, _) = finished {
            self.add(Event::Handed {
                by: call.caller,
                call,
            });
        }
    }

    /// What a reload of the place by the caller of this number came to.
    pub fn add_forgot(&mut self, by: u32, key: PlaceNo, forgot: Forgot)
        ensures { self.new ≡ logged_by self.old (forgot_by by key forgot) }
    {
        let (call, hit) = match forgot {
            Forgot::Closed(call) => (call, Hit::Closed),
            Forgot::Cleared(call) => (call, Hit::Cleared),
            Forgot::Missed(call) => (call, Hit::Missed),
            Forgot::Idle => return,
        };
        self.add(Event::ForgetCall { by, key, call, hit });
    }

    /// The events; there is no room from then on.
    pub fn take(&mut self) -> Vec<Event<PlaceNo, ()>>
        ensures events { result.items ≡ self.old.events }
        ensures emptied { self.new ≡ empty_log 0 }
    {
        mem::replace(&mut self.events, Vec::new(self.alloc))
    }
}
