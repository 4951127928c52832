//! The steps on words. What turns a step is, its caller picks by the arguments that are not read.
ghost use Rattle.std.specs.Prelude.{◌≡◌, ◌==◌};
ghost use prog.Atomic.{either};
ghost use Rattle.sf_group_steps.specs.Words.{index, IsWord, words_in};
ghost use Rattle.sf_group_steps.specs.Stands.{IsSeatOf};
ghost use Rattle.sf_group_steps.specs.Plays.{Moves, MovesCell, ToldFound, ToldStored, ToldHandled, ToldHandledStore};

use crate::plays::{CellPlan, Finds, FindsCell, Plan, Stores, StoresCell};
use crate::rule::{WordSeat, Words};
use sf_group_rows::Fit;

/// Loads a word.
pub fn load_turns<V: Fit, A, J: Plan<V>>(
    words: &Words<V>,
    seat: &mut WordSeat<V>,
    word: usize,
    by: u32,
    about: &A,
) -> u64
    requires own { IsSeatOf seat.old.table_id words.now.table_id words.now.key }
    requires word { IsWord words.now.key J.word × (word ≡ index words.now.key J.word) }
    requires moves { Moves words.now.key seat.old.me.0 J.word (λ n. n) J.turns }
    ensures own { seat.new.table_id ≡ seat.old.table_id }
    ensures told { ToldFound J.word J.turns seat.old.me result seat.new.me }
{
    // The plan of the turn is picked by them: they say whose turn it is, and what it is about.
    let _ = by;
    let _ = about;
    words.load::<Finds<J>>(seat, word)
}

/// Stores a word.
pub fn store_turns<V: Fit, A, J: Plan<V>>(
    words: &Words<V>,
    seat: &mut WordSeat<V>,
    word: usize,
    new: u64,
    by: u32,
    about: &A,
)
    requires own { IsSeatOf seat.old.table_id words.now.table_id words.now.key }
    requires word { IsWord words.now.key J.word × (word ≡ index words.now.key J.word) }
    requires moves { Moves words.now.key seat.old.me.0 J.word (λ _. new) (λ _. J.turns new) }
    ensures own { seat.new.table_id ≡ seat.old.table_id }
    ensures told { ToldStored (J.turns new) seat.old.me seat.new.me }
{
    // The plan of the turn is picked by them: they say whose turn it is, and what it is about.
    let _ = by;
    let _ = about;
    words.store::<Stores<J>>(seat, word, new);
}

/// Exchanges a word, where it is the old one.
pub fn exchange_turns<V: Fit, A, J: Plan<V>>(
    words: &Words<V>,
    seat: &mut WordSeat<V>,
    word: usize,
    old: u64,
    new: u64,
    by: u32,
    about: &A,
) -> u64
    requires own { IsSeatOf seat.old.table_id words.now.table_id words.now.key }
    requires word { IsWord words.now.key J.word × (word ≡ index words.now.key J.word) }
    requires moves { Moves words.now.key seat.old.me.0 J.word (λ n.
        either (n == old) new n) J.turns }
    ensures own { seat.new.table_id ≡ seat.old.table_id }
    ensures told { ToldFound J.word J.turns seat.old.me result seat.new.me }
{
    // The plan of the turn is picked by them: they say whose turn it is, and what it is about.
    let _ = by;
    let _ = about;
    words.compare_exchange::<Finds<J>>(seat, word, old, new)
}

/// Loads a word, and takes a cell out of the table or brings it back.
pub(crate) fn load_cell<V: Fit, A, J: CellPlan<V>>(
    words: &Words<V>,
    seat: &mut WordSeat<V>,
    word: usize,
    by: u32,
    about: &A,
) -> u64
    requires own { IsSeatOf seat.old.table_id words.now.table_id words.now.key }
    requires word { IsWord words.now.key J.word × (word ≡ index words.now.key J.word) }
    requires moves { MovesCell V.fits words.now.key seat.old.me J.word (λ n. n) J.turns J.handle }
    ensures own { seat.new.table_id ≡ seat.old.table_id }
    ensures told { ToldHandled V.fits J.word J.turns J.handle seat.old.me result seat.new.me }
{
    // The plan of the turn is picked by them: they say whose turn it is, and what it is about.
    let _ = by;
    let _ = about;
    words.load::<FindsCell<J>>(seat, word)
}

/// Stores a word, and brings a cell back.
pub(crate) fn store_cell<V: Fit, A, J: CellPlan<V>>(
    words: &Words<V>,
    seat: &mut WordSeat<V>,
    word: usize,
    new: u64,
    by: u32,
    about: &A,
)
    requires own { IsSeatOf seat.old.table_id words.now.table_id words.now.key }
    requires word { IsWord words.now.key J.word × (word ≡ index words.now.key J.word) }
    requires moves { MovesCell V.fits words.now.key seat.old.me J.word (λ _. new) (λ _.
        J.turns new) (λ _. J.handle new) }
    ensures own { seat.new.table_id ≡ seat.old.table_id }
    ensures told { ToldHandledStore V.fits (J.turns new) (J.handle new) seat.old.me seat.new.me }
{
    // The plan of the turn is picked by them: they say whose turn it is, and what it is about.
    let _ = by;
    let _ = about;
    words.store::<StoresCell<J>>(seat, word, new);
}
