//! Where a getter's caller is kept between calls.
ghost use Rattle.std.specs.Prelude.{◌≡◌, true};
ghost use Rattle.sf_fill.specs.Seats.{IsFreeHere, caller_in, owes_in};
ghost use Rattle.sf_fill.specs.declared.chair.Chair.TheVariants.{Away, Free, Owing};

use sf_group::{Caller, Settled};
use sf_group_rows::Fit;
use std::mem;

/// Where a getter's caller is kept between calls. A contract sees a `Standing`, which is one that is here.
pub(crate) enum Chair<V: Fit> {
    /// It owes nothing, and may ask.
    Free(Caller<V>),
    /// It has settled a call, and memory for a letter of it was refused.
    Owing(Settled<V>),
    /// A call has given it to the group, and puts what comes back here before it returns.
    Away,
}

/// What is owed never comes.
impl<V: Fit> Drop for Chair<V> {
    fn drop(self) {
        match self {
            Chair::Free(caller) => drop(caller),
            Chair::Owing(settled) => settled.abandon(),
            Chair::Away => {}
        }
    }
}

impl<V: Fit> Chair<V> {
    // Whether letters are owed.
    #[inline(always)]
    pub(crate) fn owes(&self) -> bool
        ensures { result ≡ owes_in self.now }
    {
        match self {
            Chair::Free(_) => false,
            Chair::Owing(_) => true,
            Chair::Away => false,
        }
    }

    // Takes the free caller away.
    #[inline(always)]
    pub(crate) fn take_free(&mut self) -> Caller<V>
        requires { IsFreeHere self.old }
        ensures taken { self.old ≡ Free result }
        ensures away { self.new ≡ Away }
    {
        mem::replace(self, Chair::Away).into_free()
    }

    // Takes the one that owes letters away.
    #[inline(always)]
    pub(crate) fn take_owing(&mut self) -> Settled<V>
        requires { owes_in self.old ≡ true }
        ensures taken { self.old ≡ Owing result }
        ensures away { self.new ≡ Away }
    {
        mem::replace(self, Chair::Away).into_owing()
    }

    // Takes it for good, if it is free; what it owes else never comes.
    pub(crate) fn into_caller(self) -> Option<Caller<V>>
        ensures { result ≡ caller_in self }
    {
        match self {
            Chair::Free(caller) => Some(caller),
            Chair::Owing(settled) => {
                settled.abandon();
                None
            }
            Chair::Away => None,
        }
    }

    fn into_free(self) -> Caller<V>
        requires { IsFreeHere self }
        ensures { self ≡ Free result }
    {
        match self {
            Chair::Free(caller) => caller,
            Chair::Owing(settled) => {
                settled.abandon();
                unreachable!()
            }
            Chair::Away => unreachable!(),
        }
    }

    fn into_owing(self) -> Settled<V>
        requires { owes_in self ≡ true }
        ensures { self ≡ Owing result }
    {
        match self {
            Chair::Owing(settled) => settled,
            Chair::Free(caller) => {
                drop(caller);
                unreachable!()
            }
            Chair::Away => unreachable!(),
        }
    }
}
