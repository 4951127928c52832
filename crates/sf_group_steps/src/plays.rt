//! What each step on a word tells. No value of these types is made.
use crate::view::View;
use atomic_table::Play;
use sf_group_rows::Fit;
use sf_steps_laws::Letter;
use std::marker::{Brand, PhantomData};

/// The word that a step is on, and the turns that it is, by the number that it finds. Each step picks it.
pub trait Plan<V> {
    ghost use Rattle.std.specs.Prelude.{ℕ, List};
    ghost use Rattle.sf_steps_laws.specs.declared.turn.Turn.{Turn};
    ghost use Rattle.sf_group_steps.specs.Words.{Word};

    ghost word: { Word };

    ghost turns: { ℕ → List (Turn V) };
}

impl<V> Plan<V> for Brand {
    ghost use Rattle.std.specs.Prelude.{[]};
    ghost use Rattle.sf_group_steps.specs.Words.{key};

    ghost word = { key 0 };

    ghost turns = { λ _. [] };
}

/// A load or an exchange, which tells what it found.
pub struct Finds<J> {
    plan: PhantomData<J>,
}

impl<V, J: Plan<V>> Play<Option<Letter<V>>, View<V>> for Finds<J> {
    ghost use Rattle.sf_group_steps.specs.Plays.{finds};

    ghost then = { finds J.word J.turns };
}

/// A store.
pub struct Stores<J> {
    plan: PhantomData<J>,
}

impl<V, J: Plan<V>> Play<Option<Letter<V>>, View<V>> for Stores<J> {
    ghost use Rattle.sf_group_steps.specs.Plays.{stores};

    ghost then = { stores J.turns };
}

/// A plan of a step that may take a cell out of the table or bring it back, by the number that it finds. Each step picks
/// it.
pub trait CellPlan<V> {
    ghost use Rattle.std.specs.Prelude.{ℕ, List};
    ghost use Rattle.sf_steps_laws.specs.declared.turn.Turn.{Turn};
    ghost use Rattle.sf_group_steps.specs.Words.{Word};
    ghost use Rattle.sf_group_steps.specs.Cells.{Handle};

    ghost word: { Word };

    ghost turns: { ℕ → List (Turn V) };

    ghost handle: { ℕ → Handle };
}

impl<V> CellPlan<V> for Brand {
    ghost use Rattle.std.specs.Prelude.{[]};
    ghost use Rattle.sf_group_steps.specs.Words.{key};
    ghost use Rattle.sf_group_steps.specs.Cells.{none_of};

    ghost word = { key 0 };

    ghost turns = { λ _. [] };

    ghost handle = { λ _. none_of };
}

/// A load that may take a cell out of the table, or bring it back.
pub struct FindsCell<J> {
    plan: PhantomData<J>,
}

impl<V: Fit, J: CellPlan<V>> Play<Option<Letter<V>>, View<V>> for FindsCell<J> {
    ghost use Rattle.sf_group_steps.specs.Plays.{handles};

    ghost then = { handles V.fits J.word J.turns J.handle };
}

/// A store that brings a cell back.
pub struct StoresCell<J> {
    plan: PhantomData<J>,
}

impl<V: Fit, J: CellPlan<V>> Play<Option<Letter<V>>, View<V>> for StoresCell<J> {
    ghost use Rattle.sf_group_steps.specs.Plays.{handles_store};

    ghost then = { handles_store V.fits J.turns J.handle };
}
