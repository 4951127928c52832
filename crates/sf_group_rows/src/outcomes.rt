//! How the calls of a group end. The tokens are `F`, a flight (a caller that leads a call); `T`, a ticket (one that waits
//! for a letter); `C`, a free caller; `L`, a letter; and `S`, a caller that owes letters.

/// How an asking ended.
pub enum Begun<F, T> {
    /// The caller leads a new call.
    Lead(F),
    /// The caller waits for the letter of the open call.
    Join(T),
}

/// How an asking with a second caller ended.
pub enum ChanBegun<F, T, C> {
    /// The first leads a new call, of which the second holds the own channel.
    Led(F, T),
    /// The second waits for the letter of the open call, and the first is free again.
    Joined(T, C),
}

/// How settling, or going on with a delivery, ended.
pub enum Finished<C, L, S> {
    /// All letters are handed out. The leader is free again, and has its own.
    Done(C, L),
    /// Memory for a letter's copy was refused. The call is settled, and letters of it are owed still.
    Held(S),
}

/// How a poll ended.
pub enum Polled<C, L, T> {
    /// The letter is there, and the caller free again.
    Ready(C, L),
    /// The letter is not there yet.
    Pending(T),
}

/// Why a bounded asking made nothing. `C` is what was handed over: a caller, or two.
pub enum NotBegun<C> {
    /// So many tries failed, each because another changed what it looked at. What was handed over may have seen more.
    Busy(u32, C),
    /// A caller has used its last generation. What was handed over comes back as it was.
    Spent(C),
}

/// Why a bounded Forget made nothing: so many tries failed, 1 to `MOST_TRIES`, each because another changed what it looked at.
#[derive(Clone, Copy)]
pub struct Busy(pub u32);

/// The refusal of an asking: a caller has used its last generation.
#[derive(Drop)]
pub struct Spent<C> {
    /// What was handed over, as it was.
    pub back: C,
}
