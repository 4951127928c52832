//! Steps of a poll: the caller looks whether its letter is in its cell, and takes it.
ghost use Rattle.std.specs.Prelude.{◌≡◌, ◌≤◌, false, [], ◌∷◌, None, Some, IsTrue, IsFalse, IfSome, IfNone};
ghost use Rattle.sf_history.specs.History.{is_handed};
ghost use Rattle.sf_steps_laws.specs.declared.operation.Stage.TheVariants.{Free, Holding};
ghost use Rattle.sf_group_steps.specs.View.{history_of};
ghost use Rattle.sf_group_steps.specs.Stands.{IsSeatOf, Sits, SitsWith, Goes, GoesWith};
ghost use Rattle.sf_group_steps.specs.Collects.{IsAnswer, HasFound};

use crate::actor::Actor;
use crate::numbering::call_index;
use crate::rule::{WordSeat, Words};
use crate::steps::load_cell;
use sf_group_rows::Fit;
use sf_history::CallId;
use sf_steps_laws::Letter;
use sf_words::{CallState, unpack_call};
use std::marker::Brand;

// Loads the caller's own call word, and says whether it is full: then its cell is out of the table, with the letter.
fn look_in<V: Fit>(
    words: &Words<V>,
    seat: &mut WordSeat<V>,
    actor: Actor,
    generation: u32,
    called: CallId,
) -> bool
    requires own { IsSeatOf seat.old.table_id words.now.table_id words.now.key }
    requires sizes { actor.sizes ≡ words.now.key }
    requires holds { Sits actor.sizes actor.number seat.old.me.0
        (Holding actor.place generation called) }
    requires none { seat.old.me.1 ≡ [] }
    ensures own { seat.new.table_id ≡ seat.old.table_id }
    ensures full { IsTrue result
        → GoesWith actor.sizes actor.number seat.old.me.0 seat.new.me.0 Free [] 0
        (actor.number ∷ []) }
    ensures found { IsTrue result
        → HasFound V.fits actor.number actor.place called
        (history_of actor.sizes seat.new.me.0.known.turns) seat.new.me.1 }
    ensures waits { IsFalse result
        → Goes actor.sizes actor.number seat.old.me.0 seat.new.me.0
        (Holding actor.place generation called) [] 0 }
    ensures unhanded { IsFalse result → (seat.new.me.1 ≡ [])
        × (is_handed (history_of actor.sizes seat.new.me.0.known.turns) called ≡ false) }
{
    // The contract alone reads it.
    let _ = called;
    let found = load_cell::<V, u32, Brand>(
        words,
        seat,
        call_index(actor.sizes, actor.number),
        actor.number,
        &generation,
    );
    let Some(word) = unpack_call(found) else {
        unreachable!()
    };
    matches!(word.state(), CallState::Full { .. })
}

// Brings the empty cell back into the table, by a load of the own call word. It is no turn.
fn bring_home<V: Fit>(words: &Words<V>, seat: &mut WordSeat<V>, actor: Actor)
    requires own { IsSeatOf seat.old.table_id words.now.table_id words.now.key }
    requires sizes { actor.sizes ≡ words.now.key }
    requires free { SitsWith actor.sizes actor.number seat.old.me.0 Free (actor.number ∷ []) }
    requires empty { seat.old.me.1 ≡ (actor.number, None) ∷ [] }
    ensures own { (seat.new.table_id ≡ seat.old.table_id) × (seat.new.me.1 ≡ []) }
    ensures told { Goes actor.sizes actor.number seat.old.me.0 seat.new.me.0 Free [] 0 }
{
    load_cell::<V, u32, Brand>(
        words,
        seat,
        call_index(actor.sizes, actor.number),
        actor.number,
        &actor.number,
    );
}

/// Takes the letter of the call out of the caller's cell, if it is there.
pub fn collect<V: Fit>(
    words: &Words<V>,
    seat: &mut WordSeat<V>,
    actor: Actor,
    generation: u32,
    called: CallId,
) -> Option<Letter<V>>
    requires own { IsSeatOf seat.old.table_id words.now.table_id words.now.key }
    requires sizes { actor.sizes ≡ words.now.key }
    requires holds { Sits actor.sizes actor.number seat.old.me.0
        (Holding actor.place generation called) }
    requires none { seat.old.me.1 ≡ [] }
    ensures own { (seat.new.table_id ≡ seat.old.table_id) × (seat.new.me.1 ≡ []) }
    ensures ready { IfSome result (λ l.
        Goes actor.sizes actor.number seat.old.me.0 seat.new.me.0 Free [] 0) }
    ensures answer { IfSome result (λ l.
        IsAnswer V.fits actor.place called (history_of actor.sizes seat.new.me.0.known.turns)
        l) }
    ensures pending { IfNone result
        (Goes actor.sizes actor.number seat.old.me.0 seat.new.me.0
        (Holding actor.place generation called) [] 0) }
    ensures unhanded { IfNone result
        (is_handed (history_of actor.sizes seat.new.me.0.known.turns) called ≡ false) }
{
    if !look_in(words, seat, actor, generation, called) {
        return None;
    }
    let Some(letter) = words.exchange(seat, actor.number as usize, None) else {
        unreachable!()
    };
    bring_home(words, seat, actor);
    Some(letter)
}
