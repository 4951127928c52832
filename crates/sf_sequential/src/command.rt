//! The commands of the sequential group, and what it answers.

use sf_history::CallId;

/// What an asking came to.
#[derive(Clone, Copy, PartialEq, Eq)]
pub enum Asked {
    /// The caller leads this new call.
    Lead(CallId),
    /// The caller joined this open call.
    Join(CallId),
}

/// What an asking with a channel came to.
#[derive(Clone, Copy, PartialEq, Eq)]
pub enum ChanAsked {
    /// The caller leads this new call, and its second holds the call's own channel as this member.
    Led(CallId, CallId),
    /// The second joined this open call, and the caller stays free.
    Joined(CallId),
}

/// What taking a letter came to.
#[derive(PartialEq, Eq, Drop)]
pub enum Taken<V> {
    /// The letter of this call: what it was settled with, and how many joined it.
    Got(CallId, V, u32),
    /// The letter of this call is not there yet.
    Pending(CallId),
}

/// A command to the sequential group.
#[derive(Drop)]
pub enum Command<K, V> {
    /// The caller asks for the key.
    Ask { caller: u32, key: K },
    /// The caller asks for the key with a channel, on which its second waits.
    AskChan { caller: u32, second: u32, key: K },
    /// The caller settles the call that it leads.
    Settle { caller: u32, result: V },
    /// The caller forgets the key.
    Forget { caller: u32, key: K },
    /// The caller forgets one call of the key.
    ForgetCall { caller: u32, key: K, call: CallId },
    /// The caller takes the letter that it asked for.
    Take { caller: u32 },
    /// Whether the call is the key's current one.
    IsCurrent { key: K, call: CallId },
}
