//! The rule of the directory's table: what its words say, and what each seat knows. No value of these types but
//! `DirectorySizes` is made.
use atomic_table::{Join, Play, Split, TableRule};
use std::collections::LinkedList;

/// How many places there are, how long keys may be, how many desks there are, and the seed of the hash.
#[derive(Clone, Copy)]
pub struct DirectorySizes {
    pub keys: u64,
    pub key_bytes: u64,
    pub desks: u64,
    pub seed0: u64,
    pub seed1: u64,
}

/// A name, with the row that holds its key.
pub struct Entry {
    pub place: u64,
    pub row: u64,
    pub key: LinkedList<u8>,
    pub by: u64,
}

/// A row that a desk has drawn and not published, with the words written into it so far.
pub struct Spare {
    pub row: u64,
    pub words: LinkedList<u64>,
}

/// What a seat knows: the desks that it stands for, `from` up to but not `to`, the names that it has seen, and its
/// spare row. `told` is what joined seats brought, until the next step.
pub struct View {
    pub sizes: Option<DirectorySizes>,
    pub from: u64,
    pub to: u64,
    pub seen: LinkedList<Entry>,
    pub spare: Option<Spare>,
    pub told: LinkedList<LinkedList<Entry>>,
}

pub struct Law;

impl TableRule<u8, View, DirectorySizes> for Law {
    ghost use Rattle.sf_dir.specs.Rule.{Holds, first_view};

    ghost holds = { Holds };

    ghost first = { first_view };
}

/// A load.
pub struct Looks;

impl Play<u8, View> for Looks {
    ghost use Rattle.sf_dir.specs.Plays.{looks};

    ghost then = { looks };
}

/// The counter's next row.
pub struct Draws;

impl Play<u8, View> for Draws {
    ghost use Rattle.sf_dir.specs.Plays.{draws};

    ghost then = { draws };
}

/// A store in the spare row.
pub struct Writes;

impl Play<u8, View> for Writes {
    ghost use Rattle.sf_dir.specs.Plays.{writes};

    ghost then = { writes };
}

/// An exchange of a place word.
pub struct Publishes;

impl Play<u8, View> for Publishes {
    ghost use Rattle.sf_dir.specs.Plays.{publishes};

    ghost then = { publishes };
}

/// The first desk of those that a seat stands for gets a seat of its own.
pub struct Deals;

impl Split<View> for Deals {
    ghost use Rattle.sf_dir.specs.Rule.{without_first, first_alone};

    ghost left = { without_first };

    ghost right = { first_alone };
}

/// A seat that stands for no desk sees what another has seen.
pub struct Shows;

impl Split<View> for Shows {
    ghost use Rattle.sf_dir.specs.Rule.{note_of};

    ghost left = { λ v. v };

    ghost right = { note_of };
}

impl Join<View> for Shows {
    ghost use Rattle.sf_dir.specs.Rule.{both_of, blank};

    ghost both = { both_of };

    ghost spent = { blank };
}
