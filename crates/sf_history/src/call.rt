//! Calls and members.

use std::fmt;

/// A call, or a member of one: the caller that asked, and which of its askings it was.
///
/// A call is one `call` object of x/sync's `singleflight`; a member is one that waits for it, or the channel of the
/// call's own leader.
#[derive(Clone, Copy, PartialEq, Eq)]
pub struct CallId {
    /// The caller's number, 1 to 65,535.
    pub caller: u32,
    /// The caller's generation, 1 to 4,294,967,295: each call that it leads and each call that it joins is a new one.
    pub generation: u32,
}

impl fmt::Display for CallId {
    ghost use Rattle.std.specs.Prelude.{Some};
    ghost use Rattle.sf_history.specs.Calls.{call_text};

    ghost output = { λ c. Some (call_text c) };

    fn fmt<W: fmt::Write>(&self, f: &mut fmt::Formatter<W>) -> fmt::Result {
        let caller = self.caller;
        let generation = self.generation;
        write!(f, "{caller}.{generation}")
    }
}
