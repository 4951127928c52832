//! The kinds of step of a settle up to its members, and its attempts.
ghost use Rattle.std.specs.Prelude.{◌≡◌, ℕ, ◌≤◌, [], IsTrue, IsFalse, IfSome, IfNone};
ghost use Rattle.sf_words.specs.declared.key_word.KeyState.TheVariants.{Names};
ghost use Rattle.sf_words.specs.declared.call_word.CallState.TheVariants.{Open};
ghost use Rattle.sf_steps_laws.specs.Turns.{at_count};
ghost use Rattle.sf_steps_laws.specs.declared.operation.Stage.TheVariants.{Leading, Settling};
ghost use Rattle.sf_steps_laws.specs.declared.operation.SettleStep.TheVariants as settle;
ghost use Rattle.sf_group_steps.specs.Words.{IsKeyFor, IsCallFor};
ghost use Rattle.sf_group_steps.specs.View.{setting_of};
ghost use Rattle.sf_group_steps.specs.Stands.{IsSeatOf, Sits, Goes};
ghost use Rattle.sf_group_steps.specs.Settles.{MaySettle, IsLeadersWord, Fails, HasPeeked, HasSettled};

use crate::actor::Actor;
use crate::numbering::{call_index, key_index};
use crate::rule::{WordSeat, Words};
use crate::steps::{exchange_turns, load_turns};
use sf_group_rows::Fit;
use sf_history::CallId;
use sf_words::{
    CallState, CallWord, KeyState, KeyWord, LeaderState, pack_call, pack_key, unpack_call,
};
use std::marker::Brand;

// Loads the own call word, which is open, or forgotten since a Forget closed the call. The first load starts the settle.
// A forgotten call takes no joiners any more, so this load settles it.
fn own_peek<V: Fit>(
    words: &Words<V>,
    seat: &mut WordSeat<V>,
    actor: Actor,
    generation: u32,
    own: Option<CallId>,
    value: &V,
) -> CallState
    requires own { IsSeatOf seat.old.table_id words.now.table_id words.now.key }
    requires sizes { actor.sizes ≡ words.now.key }
    requires may { MaySettle actor.sizes actor.number actor.place generation own value.now
        seat.old.me.0 }
    ensures own { (seat.new.table_id ≡ seat.old.table_id) × (seat.new.me.1 ≡ seat.old.me.1) }
    ensures told { HasPeeked actor.sizes actor.number actor.place generation own value.now
        seat.old.me.0 seat.new.me.0 result }
    ensures leads { IsLeadersWord generation result }
    ensures range { IsCallFor actor.sizes.callers result }
{
    // The contract alone reads them.
    let _ = generation;
    let _ = own;
    let found = load_turns::<V, V, Brand>(
        words,
        seat,
        call_index(actor.sizes, actor.number),
        actor.number,
        value,
    );
    let Some(word) = unpack_call(found) else {
        unreachable!()
    };
    word.state()
}

// Exchanges the own call word that was seen open for the same done, and says whether it did: then the call is settled,
// with those that the word listed. Who enters the call between makes it fail, as does its Forget.
fn close_own<V: Fit>(
    words: &Words<V>,
    seat: &mut WordSeat<V>,
    actor: Actor,
    generation: u32,
    own: Option<CallId>,
    value: &V,
    seen: LeaderState,
) -> bool
    requires own { IsSeatOf seat.old.table_id words.now.table_id words.now.key }
    requires sizes { actor.sizes ≡ words.now.key }
    requires seen { IsCallFor actor.sizes.callers (Open seen) }
    requires asks { Sits actor.sizes actor.number seat.old.me.0
        (Settling actor.place generation own value.now (settle.Close seen)) }
    ensures own { (seat.new.table_id ≡ seat.old.table_id) × (seat.new.me.1 ≡ seat.old.me.1) }
    ensures won { IsTrue result
        → HasSettled actor.sizes actor.number actor.place generation own value.now seat.old.me.0
        seat.new.me.0 seen.top }
    ensures lost { IsFalse result
        → Fails actor.sizes actor.number actor.place generation 1 own value.now seat.old.me.0
        seat.new.me.0 }
{
    // The contract alone reads them.
    let _ = generation;
    let _ = own;
    let _ = value;
    let Some(old) = CallWord::new(CallState::Open(seen)) else {
        unreachable!()
    };
    let Some(new) = CallWord::new(CallState::Done(seen)) else {
        unreachable!()
    };
    let old = pack_call(old);
    let found = exchange_turns::<V, u32, Brand>(
        words,
        seat,
        call_index(actor.sizes, actor.number),
        old,
        pack_call(new),
        actor.number,
        &actor.number,
    );
    found == old
}

// Clears the key word for the Forget that closed the call, where it still names that. A newer call's word stays.
fn clear_own<V: Fit>(
    words: &Words<V>,
    seat: &mut WordSeat<V>,
    actor: Actor,
    generation: u32,
    own: Option<CallId>,
    value: &V,
    top: Option<u32>,
)
    requires own { IsSeatOf seat.old.table_id words.now.table_id words.now.key }
    requires sizes { actor.sizes ≡ words.now.key }
    requires generation { 1 ≤ generation }
    requires asks { Sits actor.sizes actor.number seat.old.me.0
        (Settling actor.place generation own value.now (settle.Clear top)) }
    ensures own { (seat.new.table_id ≡ seat.old.table_id) × (seat.new.me.1 ≡ seat.old.me.1) }
    ensures told { Goes actor.sizes actor.number seat.old.me.0 seat.new.me.0
        (at_count actor.place generation own value.now top) [] 0 }
{
    // The contract alone reads them.
    let _ = own;
    let _ = value;
    let _ = top;
    let Some(old) = KeyWord::new(KeyState::Names {
        caller: actor.number,
        generation,
        cleared: false,
    }) else {
        unreachable!()
    };
    let Some(new) = KeyWord::new(KeyState::Names {
        caller: actor.number,
        generation,
        cleared: true,
    }) else {
        unreachable!()
    };
    exchange_turns::<V, u32, Brand>(
        words,
        seat,
        key_index(actor.sizes, actor.place),
        pack_key(old),
        pack_key(new),
        actor.number,
        &actor.place,
    );
}

// Peeks, and closes the call or clears its key word. Answers the top of the list that is owed letters, or nothing where
// the close failed.
fn settle_once<V: Fit>(
    words: &Words<V>,
    seat: &mut WordSeat<V>,
    actor: Actor,
    generation: u32,
    own: Option<CallId>,
    value: &V,
) -> Option<Option<u32>>
    requires own { IsSeatOf seat.old.table_id words.now.table_id words.now.key }
    requires sizes { actor.sizes ≡ words.now.key }
    requires generation { 1 ≤ generation }
    requires may { MaySettle actor.sizes actor.number actor.place generation own value.now
        seat.old.me.0 }
    ensures own { (seat.new.table_id ≡ seat.old.table_id) × (seat.new.me.1 ≡ seat.old.me.1) }
    ensures settled { IfSome result (λ top.
        HasSettled actor.sizes actor.number actor.place generation own value.now seat.old.me.0
        seat.new.me.0 top) }
    ensures failed { IfNone result
        (Fails actor.sizes actor.number actor.place generation 1 own value.now seat.old.me.0
        seat.new.me.0) }
{
    let word = own_peek(words, seat, actor, generation, own, value);
    match word {
        CallState::Open(seen) => {
            if close_own(words, seat, actor, generation, own, value, seen) {
                return Some(seen.top);
            }
            None
        }
        CallState::Forgot(seen) => {
            clear_own(words, seat, actor, generation, own, value, seen.top);
            Some(seen.top)
        }
        _ => unreachable!(),
    }
}

/// Settles the call, in callers plus one tries at most, and answers the top of the list that is owed letters. Each try
/// that fails is another caller's enter, or the one Forget of the call.
pub(crate) fn settle_often<V: Fit>(
    words: &Words<V>,
    seat: &mut WordSeat<V>,
    actor: Actor,
    generation: u32,
    own: Option<CallId>,
    value: &V,
) -> Option<u32>
    requires own { IsSeatOf seat.old.table_id words.now.table_id words.now.key }
    requires sizes { actor.sizes ≡ words.now.key }
    requires generation { 1 ≤ generation }
    requires leads { Sits actor.sizes actor.number seat.old.me.0
        (Leading actor.place generation own) }
    ensures own { (seat.new.table_id ≡ seat.old.table_id) × (seat.new.me.1 ≡ seat.old.me.1) }
    ensures settled { HasSettled actor.sizes actor.number actor.place generation own value.now
        seat.old.me.0 seat.new.me.0 result }
{
    for failed in 0..actor.sizes.callers + 1 {
        match settle_once(words, seat, actor, generation, own, value) {
            Some(top) => return top,
            None => {}
        }
    }
    unreachable!()
}
