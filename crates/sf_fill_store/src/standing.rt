//! Where a getter's caller stands.
ghost use Rattle.std.specs.Prelude.{◌≡◌};
ghost use Rattle.sf_fill_store.specs.Standings.{free_caller, is_owing};

use sf_group::{Caller, Settled};
use sf_group_rows::Fit;

/// Where a getter's caller is: free, or owing letters of a call that it has settled.
pub enum Standing<V: Fit> {
    /// It owes nothing, and may ask.
    Free(Caller<V>),
    /// It has settled a call, and memory for a letter of it was refused.
    Owing(Settled<V>),
}

impl<V: Fit> Standing<V> {
    /// Whether letters are owed.
    pub fn is_owing(&self) -> bool
        ensures { result ≡ is_owing self.now }
    {
        match self {
            Standing::Free(_) => false,
            Standing::Owing(_) => true,
        }
    }

    /// The caller, if it is free; what it owes else never comes.
    pub fn into_caller(self) -> Option<Caller<V>>
        ensures { result ≡ free_caller self }
    {
        match self {
            Standing::Free(caller) => Some(caller),
            Standing::Owing(settled) => {
                settled.abandon();
                None
            }
        }
    }

    /// Spends the caller; what it owes never comes.
    pub fn end(self) {
        match self {
            Standing::Free(caller) => drop(caller),
            Standing::Owing(settled) => settled.abandon(),
        }
    }
}
