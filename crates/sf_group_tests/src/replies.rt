//! What is replied to a command, and the text of that.

use crate::value::Value;
use sf_group::{Busy, CallId, Flight, Forgotten, Hit, Letter, Memory, Ticket};
use std::alloc::Global;

/// What a caller did or found, and what was told of it.
#[derive(Clone, Copy)]
pub(crate) struct Reply {
    pub(crate) caller: u32,
    pub(crate) did: &'static str,
    pub(crate) call: Option<CallId>,
    pub(crate) member: Option<CallId>,
    pub(crate) place: Option<u32>,
    pub(crate) number: Option<u32>,
    pub(crate) fault: Option<u32>,
    pub(crate) joiners: Option<u32>,
}

impl Reply {
    /// The caller did this, and nothing else is told.
    pub(crate) fn did(caller: u32, did: &'static str) -> Reply {
        Reply {
            caller,
            did,
            call: None,
            member: None,
            place: None,
            number: None,
            fault: None,
            joiners: None,
        }
    }

    /// What the caller did, with a call.
    pub(crate) fn of(caller: u32, did: &'static str, call: CallId) -> Reply {
        Reply {
            call: Some(call),
            ..Reply::did(caller, did)
        }
    }

    /// It did this with a call, or that with none.
    pub(crate) fn maybe(
        caller: u32,
        did: &'static str,
        did_nothing: &'static str,
        call: Option<CallId>,
    ) -> Reply {
        match call {
            Some(call) => Reply::of(caller, did, call),
            None => Reply::did(caller, did_nothing),
        }
    }

    /// What the caller did, with a number.
    pub(crate) fn counted(caller: u32, did: &'static str, number: u32) -> Reply {
        Reply::did(caller, did).with(number)
    }

    /// Nothing: the caller is not as it would have to be.
    pub(crate) fn cannot() -> Reply {
        Reply::did(0, "cannot")
    }

    /// The caller leads.
    pub(crate) fn leading(caller: u32, did: &'static str, flight: &Flight<Value>) -> Reply {
        Reply {
            place: Some(flight.place()),
            ..Reply::of(caller, did, flight.call())
        }
    }

    /// It leads, and this is the ticket of the call's own channel.
    pub(crate) fn leading_chan(
        caller: u32,
        flight: &Flight<Value>,
        ticket: &Ticket<Value>,
    ) -> Reply {
        let did = if ticket.call() == flight.call() {
            "leads with a channel"
        } else {
            "leads with the channel of another call"
        };
        Reply {
            member: Some(ticket.member()),
            ..Reply::leading(caller, did, flight)
        }
    }

    /// The caller, or one that it asked with, waits.
    pub(crate) fn waiting(caller: u32, did: &'static str, ticket: &Ticket<Value>) -> Reply {
        Reply {
            member: Some(ticket.member()),
            ..Reply::of(caller, did, ticket.call())
        }
    }

    /// With all that the letter says.
    pub(crate) fn of_letter(caller: u32, did: &'static str, letter: &Letter<Value>) -> Reply {
        letter.known();
        let (value, joiners) = (letter.value(), letter.joiners());
        let did = if letter.shared() == (joiners > 0) {
            did
        } else {
            "shares wrongly"
        };
        Reply {
            place: Some(letter.place()),
            number: if value.is_fault {
                None
            } else {
                Some(value.number)
            },
            fault: if value.is_fault {
                Some(value.number)
            } else {
                None
            },
            joiners: Some(joiners),
            ..Reply::of(caller, did, letter.call())
        }
    }

    /// What the letter says of the call that was led so.
    pub(crate) fn settled(caller: u32, led: Reply, letter: &Letter<Value>) -> Reply {
        let did = if led.place == Some(letter.place()) {
            "settled"
        } else {
            "settled elsewhere"
        };
        Reply::of_letter(caller, did, letter)
    }

    /// What a copy says.
    pub(crate) fn copied(caller: u32, copy: Result<Letter<Value>, Memory>) -> Reply {
        match copy {
            Ok(letter) => Reply::of_letter(caller, "copied", &letter),
            Err(_) => Reply::did(caller, "is refused a copy"),
        }
    }

    /// This reply, with how many joined.
    pub(crate) fn joined_by(self, joiners: u32) -> Reply {
        Reply {
            joiners: Some(joiners),
            ..self
        }
    }

    /// This reply, with a number.
    pub(crate) fn with(self, number: u32) -> Reply {
        Reply {
            number: Some(number),
            ..self
        }
    }

    /// What is told of the call on the place.
    pub(crate) fn told(caller: u32, place: u32, call: CallId, is_current: bool) -> Reply {
        let did = if is_current {
            "finds current"
        } else {
            "finds outdated"
        };
        Reply {
            place: Some(place),
            ..Reply::of(caller, did, call)
        }
    }

    /// What a Forget of a place found.
    pub(crate) fn forgot(caller: u32, forgotten: Result<Forgotten, Busy>) -> Reply {
        match forgotten {
            Ok(Forgotten::Closed(call)) => Reply::of(caller, "forgot", call),
            Ok(Forgotten::Idle) => Reply::did(caller, "forgot nothing"),
            Err(Busy(tries)) => Reply::counted(caller, "is busy", tries),
        }
    }

    /// What a Forget of the call found.
    pub(crate) fn hit(caller: u32, call: CallId, hit: Result<Hit, Busy>) -> Reply {
        match hit {
            Ok(Hit::Closed) => Reply::of(caller, "closed", call),
            Ok(Hit::Cleared) => Reply::of(caller, "cleared", call),
            Ok(Hit::Missed) => Reply::of(caller, "missed", call),
            Err(Busy(tries)) => Reply::counted(caller, "is busy", tries),
        }
    }

    /// As a line of a script has it.
    pub(crate) fn text(self, alloc: Global) -> Result<String, Memory> {
        let mut text = format!(in alloc; "{} {}", self.caller, self.did)?;
        write_call(&mut text, "", self.call)?;
        write_call(&mut text, "as ", self.member)?;
        write_number(&mut text, " on ", self.place)?;
        write_number(&mut text, " with ", self.number)?;
        write_number(&mut text, " fault ", self.fault)?;
        write_number(&mut text, " joiners=", self.joiners)?;
        Ok(text)
    }
}

/// The caller of the call, or 0.
pub(crate) fn caller_of(call: Option<CallId>) -> u32 {
    match call {
        Some(call) => call.caller,
        None => 0,
    }
}

fn write_call(text: &mut String, word: &str, call: Option<CallId>) -> Result<(), Memory> {
    match call {
        Some(call) => write!(text, " {word}{call}"),
        None => Ok(()),
    }
}

fn write_number(text: &mut String, word: &str, number: Option<u32>) -> Result<(), Memory> {
    match number {
        Some(number) => write!(text, "{word}{number}"),
        None => Ok(()),
    }
}
