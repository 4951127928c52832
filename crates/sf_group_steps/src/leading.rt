//! The kinds of step of an asking: look, peek, ready, lead. Each is one step on one word.
ghost use Rattle.std.specs.Prelude.{◌≡◌, ◌≢◌, ℕ, ◌≤◌, false, None, Some, IsTrue, IsFalse};
ghost use Rattle.sf_words.specs.declared.call_word.LeaderState.{LeaderState};
ghost use Rattle.sf_words.specs.declared.key_word.KeyState.TheVariants.{Names};
ghost use Rattle.sf_words.specs.KeyWord.{key_code};
ghost use Rattle.sf_steps_laws.specs.declared.operation.Stage.TheVariants.{Asking};
ghost use Rattle.sf_steps_laws.specs.declared.operation.AskStep.TheVariants as ask;
ghost use Rattle.sf_steps_laws.specs.Afters.{after_of};
ghost use Rattle.sf_steps_laws.specs.Askings.{looked, peeked};
ghost use Rattle.sf_steps_laws.specs.World.{is_forgot_in, open_in};
ghost use Rattle.sf_group_steps.specs.Words.{index, key, call, IsKeyFor, IsCallFor, code_at};
ghost use Rattle.sf_group_steps.specs.View.{setting_of, world_of};
ghost use Rattle.sf_group_steps.specs.Stands.{IsSeatOf, Sits, next_in, MayLook};
ghost use Rattle.sf_group_steps.specs.Changes.{Stays, Loses};
ghost use Rattle.sf_group_steps.specs.Exchanges.{HasExchanged};
ghost use Rattle.sf_group_steps.specs.Attempts.{lost_stage, HasLedAfter};

use crate::actor::Actor;
use crate::numbering::{call_index, key_index};
use crate::rule::{WordSeat, Words};
use crate::steps::{exchange_turns, load_turns, store_turns};
use sf_group_rows::Fit;
use sf_history::CallId;
use sf_words::{
    CallState, CallWord, KeyState, KeyWord, LeaderState, pack_call, pack_key, unpack_call,
    unpack_key,
};
use std::marker::Brand;

/// Loads the key word of the place.
pub(crate) fn look<V: Fit>(words: &Words<V>, seat: &mut WordSeat<V>, actor: Actor) -> KeyState
    requires own { IsSeatOf seat.old.table_id words.now.table_id words.now.key }
    requires sizes { actor.sizes ≡ words.now.key }
    requires may { MayLook actor.sizes actor.number actor.place seat.old.me.0 }
    ensures own { (seat.new.table_id ≡ seat.old.table_id) × (seat.new.me.1 ≡ seat.old.me.1) }
    ensures told { Stays actor.sizes actor.number seat.old.me.0 seat.new.me.0
        (Asking actor.place None (looked None result)) }
    ensures exchanged { HasExchanged actor.sizes actor.number 0 seat.old.me.0 seat.new.me.0 }
    ensures shown { (world_of actor.sizes seat.new.me.0.known.turns).keys actor.place ≡ result }
    ensures range { IsKeyFor actor.sizes.callers result }
{
    let found = load_turns::<V, u32, Brand>(
        words,
        seat,
        key_index(actor.sizes, actor.place),
        actor.number,
        &actor.place,
    );
    let Some(word) = unpack_key(found) else {
        unreachable!()
    };
    word.state()
}

/// Loads the call word of the call that the key word named.
pub(crate) fn peek<V: Fit>(
    words: &Words<V>,
    seat: &mut WordSeat<V>,
    actor: Actor,
    called: CallId,
) -> CallState
    requires own { IsSeatOf seat.old.table_id words.now.table_id words.now.key }
    requires sizes { actor.sizes ≡ words.now.key }
    requires called { (1 ≤ called.caller) × (called.caller ≤ actor.sizes.callers) }
    requires asks { Sits actor.sizes actor.number seat.old.me.0
        (Asking actor.place None (ask.Peek called)) }
    ensures own { (seat.new.table_id ≡ seat.old.table_id) × (seat.new.me.1 ≡ seat.old.me.1) }
    ensures told { Stays actor.sizes actor.number seat.old.me.0 seat.new.me.0
        (Asking actor.place None (peeked None called (is_forgot_in called.generation result)
        (open_in called.generation result))) }
    ensures exchanged { HasExchanged actor.sizes actor.number 0 seat.old.me.0 seat.new.me.0 }
    ensures shown { (world_of actor.sizes seat.new.me.0.known.turns).calls called.caller ≡ result }
    ensures other { (seen : LeaderState) → open_in called.generation result ≡ Some seen
        → called.caller ≢ actor.number }
    ensures range { IsCallFor actor.sizes.callers result }
{
    let found = load_turns::<V, CallId, Brand>(
        words,
        seat,
        call_index(actor.sizes, called.caller),
        actor.number,
        &called,
    );
    let Some(word) = unpack_call(found) else {
        unreachable!()
    };
    word.state()
}

/// Makes the caller's own word ready to lead. What it knows of the key word stays.
pub(crate) fn ready<V: Fit>(
    words: &Words<V>,
    seat: &mut WordSeat<V>,
    actor: Actor,
    generation: u32,
    seen: KeyState,
    forgot: bool,
)
    requires own { IsSeatOf seat.old.table_id words.now.table_id words.now.key }
    requires sizes { actor.sizes ≡ words.now.key }
    requires generation { (1 ≤ generation)
        × (next_in actor.sizes seat.old.me.0 actor.number ≡ generation) }
    requires asks { Sits actor.sizes actor.number seat.old.me.0
        (Asking actor.place None (ask.ReadyLead seen forgot)) }
    ensures own { (seat.new.table_id ≡ seat.old.table_id) × (seat.new.me.1 ≡ seat.old.me.1) }
    ensures told { Stays actor.sizes actor.number seat.old.me.0 seat.new.me.0
        (Asking actor.place None (ask.Lead seen forgot)) }
    ensures exchanged { HasExchanged actor.sizes actor.number 0 seat.old.me.0 seat.new.me.0 }
{
    // The contract alone reads them.
    let _ = seen;
    let _ = forgot;
    let Some(word) = CallWord::new(CallState::Open(LeaderState {
        generation,
        own: false,
        top: None,
    })) else {
        unreachable!()
    };
    store_turns::<V, u32, Brand>(
        words,
        seat,
        call_index(actor.sizes, actor.number),
        pack_call(word),
        actor.number,
        &actor.place,
    );
}

/// Exchanges the key word that was seen, and says whether it did. The last try is followed by the drop.
pub(crate) fn lead<V: Fit>(
    words: &Words<V>,
    seat: &mut WordSeat<V>,
    actor: Actor,
    generation: u32,
    seen: KeyState,
    forgot: bool,
    last: bool,
) -> bool
    requires own { IsSeatOf seat.old.table_id words.now.table_id words.now.key }
    requires sizes { actor.sizes ≡ words.now.key }
    requires generation { (1 ≤ generation)
        × (next_in actor.sizes seat.old.me.0 actor.number ≡ generation) }
    requires seen { IsKeyFor actor.sizes.callers seen }
    requires asks { Sits actor.sizes actor.number seat.old.me.0
        (Asking actor.place None (ask.Lead seen forgot)) }
    ensures own { (seat.new.table_id ≡ seat.old.table_id) × (seat.new.me.1 ≡ seat.old.me.1) }
    ensures won { IsTrue result
        → HasLedAfter actor.sizes actor.number actor.place generation seat.old.me.0 seat.new.me.0
        (after_of seen forgot) }
    ensures lost { IsFalse result
        → Loses actor.sizes actor.number (key actor.place) (key_code seen) seat.old.me.0
        seat.new.me.0 (lost_stage actor.place last) }
    ensures exchanged { HasExchanged actor.sizes actor.number 1 seat.old.me.0 seat.new.me.0 }
{
    // The contract alone reads it.
    let _ = forgot;
    let Some(old) = KeyWord::new(seen) else {
        unreachable!()
    };
    let Some(new) = KeyWord::new(KeyState::Names {
        caller: actor.number,
        generation,
        cleared: false,
    }) else {
        unreachable!()
    };
    let old = pack_key(old);
    let found = exchange_turns::<V, (u32, bool), Brand>(
        words,
        seat,
        key_index(actor.sizes, actor.place),
        old,
        pack_key(new),
        actor.number,
        &(actor.place, last),
    );
    found == old
}
