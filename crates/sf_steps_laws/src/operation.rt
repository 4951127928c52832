//! Operations, and the stage of its operation at which a caller stands.
//!
//! A stage holds all that the caller remembers of what it read. A remembered word is compared as a whole by the
//! exchange that rests on it, so nothing else is concluded from it.

use sf_history::CallId;
use sf_words::{KeyState, LeaderState};

/// An operation that a caller starts. Places are numbered from 1.
#[derive(Drop)]
pub enum Op<V> {
    /// Ask for the value of a place's key: lead its new call, or join the open one.
    Ask { place: u32 },
    /// Ask with a second caller, which is the new call's own channel, or joins the open one.
    Chan { second: u32, place: u32 },
    /// Settle the call that the caller leads.
    Settle { result: V },
    /// Forget a place's key.
    Forget { place: u32 },
    /// Forget one call of a place's key, whichever call it is.
    ForgetCall { place: u32, call: CallId },
    /// Which call the place's key word names.
    Named { place: u32 },
    /// See whether the letter that the caller waits for is in its cell, and take it.
    Poll,
    /// Whether a call that was led on the place is the current one of its key.
    Current { place: u32, call: CallId },
}

/// The next step of an ask or a chan.
#[derive(Clone, Copy)]
pub enum AskStep {
    /// Load the key word; `failed` where the step before was a failed exchange.
    Look { failed: bool },
    /// Load the call word of the caller of the call that the key word named.
    Peek { call: CallId },
    /// Make the second's word ready, as the own channel of the call to be led.
    ReadyOwn { seen: KeyState, forgot: bool },
    /// Make the own word ready to lead; `forgot` where the peek found the call that the key word names forgotten.
    ReadyLead { seen: KeyState, forgot: bool },
    /// Exchange the key word that was seen.
    Lead { seen: KeyState, forgot: bool },
    /// Make the joiner's word ready.
    ReadyJoin { call: CallId, seen: LeaderState },
    /// Point the joiner's next word to the top of the list that was seen.
    Link { call: CallId, seen: LeaderState },
    /// Exchange the leader's call word that was seen, which was open.
    Enter { call: CallId, seen: LeaderState },
}

/// The next step of a settle.
#[derive(Clone, Copy)]
pub enum SettleStep {
    /// Load the own call word.
    Peek,
    /// Exchange the own call word that was seen, which was open.
    Close {
        seen: LeaderState,
    },
    /// Clear the key word, if it still names the call; `top` begins the list of a call that was forgotten.
    Clear {
        top: Option<u32>,
    },
    /// Load the next word of a member, to count it: so many were counted before it, and `top` begins the list.
    Count {
        joiners: u32,
        member: u32,
        top: u32,
    },
    /// Load the next word of a member.
    Follow {
        joiners: u32,
        member: u32,
    },
    /// Load the call word of a member; `next` comes after it in the list.
    PeekMember {
        joiners: u32,
        member: u32,
        next: Option<u32>,
    },
    /// Put the letter in the member's cell, and store its call word as full.
    Deliver {
        joiners: u32,
        member: CallId,
        next: Option<u32>,
    },
    /// Load the call word of the own channel.
    PeekOwn {
        joiners: u32,
    },
    /// Put the letter in the own channel's cell, and store its call word as full.
    DeliverOwn {
        joiners: u32,
        member: CallId,
    },
}

/// The next step of a forget, of a key or of one call.
#[derive(Clone, Copy)]
pub enum ForgetStep {
    /// Load the key word; `failed` where the step before was a failed exchange.
    Look { failed: bool },
    /// Load the call word of the caller of the call that the key word named.
    Peek { call: CallId },
    /// Exchange the leader's call word that was seen, which was open.
    Close { call: CallId, seen: LeaderState },
    /// Clear the key word of a call that was found not open.
    FirstClear { call: CallId },
    /// Clear the key word of the call that this Forget closed.
    LastClear { call: CallId },
}

/// The next step of the question whether a call is current.
#[derive(Clone, Copy)]
pub enum CurrentStep {
    /// Load the call word of the call's caller.
    Peek,
    /// Load the key word.
    Look,
}

/// Where a caller stands.
#[derive(Drop)]
pub enum Stage<V> {
    /// It leads no call, holds no ticket, and has no operation.
    Free,
    /// It leads the call of this generation, and has no operation. `own` is the call's own channel.
    Leading {
        place: u32,
        generation: u32,
        own: Option<CallId>,
    },
    /// It holds a ticket of the call, as the member of this generation, and has no operation.
    Holding {
        place: u32,
        generation: u32,
        call: CallId,
    },
    /// It holds such a ticket, and polls.
    Polling {
        place: u32,
        generation: u32,
        call: CallId,
    },
    /// It is the second of the chan that another caller makes.
    Seconding {
        first: u32,
    },
    /// It makes an ask, or a chan with a second.
    Asking {
        place: u32,
        second: Option<u32>,
        step: AskStep,
    },
    /// It settles the call of this generation.
    Settling {
        place: u32,
        generation: u32,
        own: Option<CallId>,
        result: V,
        step: SettleStep,
    },
    /// It makes a forget: of the place's key, or of the call `target` alone.
    Forgetting {
        place: u32,
        target: Option<CallId>,
        step: ForgetStep,
    },
    /// It asks which call the key word names.
    Naming {
        place: u32,
    },
    /// It asks whether the call is current.
    Questioning {
        place: u32,
        call: CallId,
        step: CurrentStep,
    },
}
