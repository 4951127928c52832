//! The rule of the table of words: some schedule shows its words and cells, and each seat knows a beginning of it.
use crate::view::View;
use atomic_table::{Join, Seat, Shared, Split, TableRule};
use sf_group_rows::{Fit, Sizes};
use sf_steps_laws::Letter;

/// The table's words, on which seats step, and its cells, one a caller, in which letters lie.
pub type Words<V> = Shared<Option<Letter<V>>, View<V>, Sizes, Law>;

/// A seat at the table.
pub type WordSeat<V> = Seat<Option<Letter<V>>, View<V>>;

/// The rule: some schedule of turns shows the words and the cells that are at home, and each seat's view is a beginning of
/// it with all turns of the seat's callers.
pub struct Law;

impl<V: Fit> TableRule<Option<Letter<V>>, View<V>, Sizes> for Law {
    ghost use Rattle.sf_group_steps.specs.Shows.{Holds};
    ghost use Rattle.sf_group_steps.specs.View.{first_view};

    ghost holds = { Holds V.fits };

    ghost first = { first_view };
}

/// The first caller of those that a seat stands for gets a seat of its own.
pub struct Deals;

impl<V> Split<View<V>> for Deals {
    ghost use Rattle.sf_group_steps.specs.View.{without_first, first_alone};

    ghost left = { without_first };

    ghost right = { first_alone };
}

/// A new seat, which stands for no caller, knows what another does; or a seat takes in what another knows.
pub struct Tells;

impl<V> Split<View<V>> for Tells {
    ghost use Rattle.sf_group_steps.specs.View.{note_of};

    ghost left = { λ v. v };

    ghost right = { note_of };
}

impl<V> Join<View<V>> for Tells {
    ghost use Rattle.sf_group_steps.specs.View.{both_of, blank};

    ghost both = { both_of };

    ghost spent = { blank };
}
