//! The rule of the table of ages. No value of these types is made.
use atomic_table::{Join, Play, Split, TableRule};
use std::collections::LinkedList;

/// That a slot's age was this once, so that it is no less now.
pub struct Fact {
    pub slot: u64,
    pub age: u64,
}

/// What a seat knows.
pub struct Known {
    pub facts: LinkedList<Fact>,
}

pub struct Law;

impl TableRule<(), Known, u64> for Law {
    ghost use Rattle.sf_keyed_ages.specs.Rule.{HoldsAges, nothing};

    ghost holds = { HoldsAges };

    ghost first = { λ slots. nothing };
}

/// A new seat sits down, which knows nothing.
pub struct Sits;

impl Play<(), Known> for Sits {
    ghost use Rattle.sf_keyed_ages.specs.Rule.{sits};

    ghost then = { sits };
}

/// A load.
pub struct Sees;

impl Play<(), Known> for Sees {
    ghost use Rattle.sf_keyed_ages.specs.Rule.{sees};

    ghost then = { sees };
}

/// An exchange for the next age.
pub struct Ends;

impl Play<(), Known> for Ends {
    ghost use Rattle.sf_keyed_ages.specs.Rule.{ends};

    ghost then = { ends };
}

/// A new seat, which knows what this one does.
pub struct Shares;

impl Split<Known> for Shares {
    ghost left = { λ v. v };

    ghost right = { λ v. v };
}

/// A seat learns what another knows.
pub struct Learns;

impl Join<Known> for Learns {
    ghost use Rattle.sf_keyed_ages.specs.Rule.{with_facts, nothing};

    ghost both = { with_facts };

    ghost spent = { nothing };
}
