//! The kinds of step of an asking that joins: ready, link, enter.
ghost use Rattle.std.specs.Prelude.{◌≡◌, ◌≢◌, ℕ, ◌≤◌, None, [], ◌∷◌, IsTrue, IsFalse};
ghost use Rattle.sf_history.specs.declared.event.Event.TheVariants.{Enter};
ghost use Rattle.sf_words.specs.CallWord.{call_code};
ghost use Rattle.sf_words.specs.declared.call_word.CallState.TheVariants.{Open};
ghost use Rattle.sf_steps_laws.specs.declared.operation.Stage.TheVariants.{Asking, Holding};
ghost use Rattle.sf_steps_laws.specs.declared.operation.AskStep.TheVariants as ask;
ghost use Rattle.sf_group_steps.specs.Words.{call, next, index, IsCallFor};
ghost use Rattle.sf_group_steps.specs.Stands.{IsSeatOf, Sits, next_in, Goes};
ghost use Rattle.sf_group_steps.specs.Changes.{Stays, Loses};
ghost use Rattle.sf_group_steps.specs.Exchanges.{HasExchanged};
ghost use Rattle.sf_group_steps.specs.Attempts.{lost_stage};

use crate::actor::Actor;
use crate::numbering::{call_index, next_index};
use crate::rule::{WordSeat, Words};
use crate::steps::{exchange_turns, store_turns};
use sf_group_rows::Fit;
use sf_history::CallId;
use sf_words::{CallState, CallWord, LeaderState, NextWord, pack_call, pack_next};
use std::marker::Brand;

/// Makes the caller's own word ready to join.
pub(crate) fn ready_join<V: Fit>(
    words: &Words<V>,
    seat: &mut WordSeat<V>,
    actor: Actor,
    generation: u32,
    called: CallId,
    seen: LeaderState,
)
    requires own { IsSeatOf seat.old.table_id words.now.table_id words.now.key }
    requires sizes { actor.sizes ≡ words.now.key }
    requires generation { (1 ≤ generation)
        × (next_in actor.sizes seat.old.me.0 actor.number ≡ generation) }
    requires asks { Sits actor.sizes actor.number seat.old.me.0
        (Asking actor.place None (ask.ReadyJoin called seen)) }
    ensures own { (seat.new.table_id ≡ seat.old.table_id) × (seat.new.me.1 ≡ seat.old.me.1) }
    ensures told { Stays actor.sizes actor.number seat.old.me.0 seat.new.me.0
        (Asking actor.place None (ask.Link called seen)) }
    ensures exchanged { HasExchanged actor.sizes actor.number 0 seat.old.me.0 seat.new.me.0 }
{
    // The contract alone reads them.
    let _ = called;
    let _ = seen;
    let Some(word) = CallWord::new(CallState::Listed { generation }) else {
        unreachable!()
    };
    store_turns::<V, u32, Brand>(
        words,
        seat,
        call_index(actor.sizes, actor.number),
        pack_call(word),
        actor.number,
        &actor.place,
    );
}

/// Points the caller's own next word to the top of the list that was seen.
pub(crate) fn link<V: Fit>(
    words: &Words<V>,
    seat: &mut WordSeat<V>,
    actor: Actor,
    called: CallId,
    seen: LeaderState,
)
    requires own { IsSeatOf seat.old.table_id words.now.table_id words.now.key }
    requires sizes { actor.sizes ≡ words.now.key }
    requires seen { IsCallFor actor.sizes.callers (Open seen) }
    requires asks { Sits actor.sizes actor.number seat.old.me.0
        (Asking actor.place None (ask.Link called seen)) }
    ensures own { (seat.new.table_id ≡ seat.old.table_id) × (seat.new.me.1 ≡ seat.old.me.1) }
    ensures told { Stays actor.sizes actor.number seat.old.me.0 seat.new.me.0
        (Asking actor.place None (ask.Enter called seen)) }
    ensures exchanged { HasExchanged actor.sizes actor.number 0 seat.old.me.0 seat.new.me.0 }
{
    // The contract alone reads it.
    let _ = called;
    let Some(word) = NextWord::new(seen.top) else {
        unreachable!()
    };
    store_turns::<V, u32, Brand>(
        words,
        seat,
        next_index(actor.sizes, actor.number),
        pack_next(word),
        actor.number,
        &actor.place,
    );
}

/// Exchanges the leader's call word that was seen, and says whether it did. The last try is followed by the drop.
pub(crate) fn enter<V: Fit>(
    words: &Words<V>,
    seat: &mut WordSeat<V>,
    actor: Actor,
    generation: u32,
    called: CallId,
    seen: LeaderState,
    last: bool,
) -> bool
    requires own { IsSeatOf seat.old.table_id words.now.table_id words.now.key }
    requires sizes { actor.sizes ≡ words.now.key }
    requires called { (1 ≤ called.caller) × (called.caller ≤ actor.sizes.callers) }
    requires generation { (1 ≤ generation)
        × (next_in actor.sizes seat.old.me.0 actor.number ≡ generation) }
    requires seen { IsCallFor actor.sizes.callers (Open seen) }
    requires asks { Sits actor.sizes actor.number seat.old.me.0
        (Asking actor.place None (ask.Enter called seen)) }
    ensures own { (seat.new.table_id ≡ seat.old.table_id) × (seat.new.me.1 ≡ seat.old.me.1) }
    ensures won { IsTrue result
        → Goes actor.sizes actor.number seat.old.me.0 seat.new.me.0
        (Holding actor.place generation called)
        (Enter actor.number actor.place called
        (record { caller = actor.number; generation = generation }) ∷ []) 1 }
    ensures lost { IsFalse result
        → Loses actor.sizes actor.number (call called.caller) (call_code (Open seen)) seat.old.me.0
        seat.new.me.0 (lost_stage actor.place last) }
    ensures exchanged { HasExchanged actor.sizes actor.number 1 seat.old.me.0 seat.new.me.0 }
{
    // The contract alone reads it.
    let _ = generation;
    let Some(old) = CallWord::new(CallState::Open(seen)) else {
        unreachable!()
    };
    let Some(new) = CallWord::new(CallState::Open(LeaderState {
        generation: seen.generation,
        own: seen.own,
        top: Some(actor.number),
    })) else {
        unreachable!()
    };
    let old = pack_call(old);
    let found = exchange_turns::<V, (u32, bool), Brand>(
        words,
        seat,
        call_index(actor.sizes, called.caller),
        old,
        pack_call(new),
        actor.number,
        &(called.caller, last),
    );
    found == old
}
