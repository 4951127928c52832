//! Numbers of places: a directory gives each key one, and the events of a schedule name the key by it. The calls of a group and
//! the turns of a schedule take the plain number, since a place that is none of theirs is excluded by condition.

ghost use Rattle.std.specs.Prelude.{◌≡◌, ◌+◌, ◌<◌, ◌≤◌};
ghost use Rattle.std.specs.Option.{SomeIff};
ghost use Rattle.sf_words.specs.declared.limits.TheConstants.{LARGEST_PLACE};

use crate::limits::LARGEST_PLACE;
use std::fmt;
use std::marker::Model;

/// The number of a place, 1 to 1,048,576. Clauses see it as that number.
#[derive(Clone, Copy, Debug, PartialEq, Eq, PartialOrd, Ord)]
pub struct PlaceNo {
    number: u32,
}

impl Model for PlaceNo {
    ghost use Rattle.std.specs.Prelude.{ℕ, ◌≤◌};
    ghost use Rattle.sf_words.specs.declared.limits.TheConstants.{LARGEST_PLACE};

    ghost Value = { ℕ };

    ghost view = { λ p. p.number };

    ghost invariant = { λ p. (1 ≤ p.number) × (p.number ≤ LARGEST_PLACE) };

    ghost inverse = { λ n. record { number = n } };
}

impl PlaceNo {
    /// The place of this number, 1 to 1,048,576; `None` for any other number.
    pub fn new(number: u32) -> Option<PlaceNo>
        ensures { SomeIff result ((1 ≤ number) × (number ≤ LARGEST_PLACE)) number }
    {
        if 1 <= number && number <= LARGEST_PLACE {
            Some(PlaceNo { number })
        } else {
            None
        }
    }

    /// The place that has this index, counted from 0, in a row of places.
    pub fn from_index(index: usize) -> PlaceNo
        requires { index < LARGEST_PLACE }
        ensures { result ≡ index + 1 }
    {
        PlaceNo {
            number: index as u32 + 1,
        }
    }

    /// The number, 1 to 1,048,576.
    pub fn number(self) -> u32
        ensures same { result ≡ self }
        ensures range { (1 ≤ self) × (self ≤ LARGEST_PLACE) }
    {
        self.number
    }

    /// The index, counted from 0, in a row of places.
    pub fn index(self) -> usize
        ensures before { result + 1 ≡ self }
        ensures range { result < LARGEST_PLACE }
    {
        self.number as usize - 1
    }
}

impl fmt::Display for PlaceNo {
    ghost use Rattle.std.specs.Prelude.{Some, decimal};

    ghost output = { λ p. Some (decimal p) };

    fn fmt<W: fmt::Write>(&self, f: &mut fmt::Formatter<W>) -> fmt::Result {
        let number = self.number;
        write!(f, "{number}")
    }
}
