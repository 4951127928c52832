//! Traces: what the steps of a schedule do.

ghost use Rattle.std.specs.Prelude.{◌≡◌, None, []};

use sf_history::{CallId, Event};
use sf_words::{CallState, KeyState, PlaceNo};
use std::alloc::Global;

/// What a step does. An exchange is `done` where it found the word that it had seen.
#[derive(Clone, Copy)]
pub enum Act {
    /// A load of a place's key word.
    Look {
        place: u32,
        found: KeyState,
    },
    /// A load of a caller's call word.
    Peek {
        caller: u32,
        found: CallState,
    },
    /// A store of an own call word, which is to lead this call or to be listed as this member.
    Ready {
        call: CallId,
        listed: bool,
    },
    /// An exchange of a key word, to lead the call.
    Lead {
        place: u32,
        call: CallId,
        done: bool,
    },
    /// A store of an own next word.
    Link {
        top: Option<u32>,
    },
    /// An exchange of a call word, to enter the call.
    Enter {
        call: CallId,
        done: bool,
    },
    /// An exchange of a call word, by which a Forget or the leader closes the call.
    Close {
        call: CallId,
        forgot: bool,
        done: bool,
    },
    /// An exchange of a key word that names the call to the same cleared.
    Clear {
        place: u32,
        call: CallId,
        done: bool,
    },
    /// A load of a member's next word.
    Follow {
        member: u32,
        next: Option<u32>,
    },
    /// A letter is put into a member's cell, and its call word stored as full.
    Deliver {
        member: CallId,
    },
    /// A load of an own call word, to take the letter where it is full.
    Collect {
        member: CallId,
        full: bool,
    },
}

/// A step of a schedule: who made it, what it did, the events that it added, and what it answered, where it ended a
/// question.
#[derive(Drop)]
pub struct Step<V> {
    /// The caller, from 1.
    pub caller: u32,
    /// What it did.
    pub act: Act,
    /// The events that it added, oldest first.
    pub events: Vec<Event<PlaceNo, V>>,
    /// Whether the call is current.
    pub answer: Option<bool>,
}

impl<V: Drop> Step<V> {
    /// A step that adds no event and answers nothing.
    pub(crate) fn quiet(alloc: Global, caller: u32, act: Act) -> Step<V>
        ensures made { (result.caller ≡ caller) × (result.act ≡ act) }
        ensures quiet { (result.events.items ≡ []) × (result.answer ≡ None) }
    {
        Step {
            caller,
            act,
            events: Vec::new(alloc),
            answer: None,
        }
    }
}
