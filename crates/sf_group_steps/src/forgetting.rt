//! The kinds of step of a Forget, of a place's key or of one call, and its attempts.
ghost use Rattle.std.specs.Prelude.{◌≡◌, ◌≢◌, ℕ, ◌≤◌, Some, [], ◌∷◌, IsTrue, IsFalse};
ghost use Rattle.sf_words.specs.KeyWord.{key_code};
ghost use Rattle.sf_words.specs.CallWord.{call_code};
ghost use Rattle.sf_words.specs.declared.call_word.LeaderState.{LeaderState};
ghost use Rattle.sf_words.specs.declared.call_word.CallState.TheVariants.{Open};
ghost use Rattle.sf_steps_laws.specs.World.{open_in, is_forgot_in, key_of};
ghost use Rattle.sf_steps_laws.specs.Turns as turns;
ghost use Rattle.sf_steps_laws.specs.Turns.{forget_looked};
ghost use Rattle.sf_steps_laws.specs.Events.{look_events, closes, clears};
ghost use Rattle.sf_steps_laws.specs.declared.operation.Stage.TheVariants.{Forgetting, Free};
ghost use Rattle.sf_steps_laws.specs.declared.operation.ForgetStep.TheVariants as forget;
ghost use Rattle.sf_group_steps.specs.Words.{key, call, IsKeyFor, IsCallFor};
ghost use Rattle.sf_group_steps.specs.View.{setting_of, world_of};
ghost use Rattle.sf_group_steps.specs.Stands.{IsSeatOf, Sits, Goes};
ghost use Rattle.sf_group_steps.specs.Changes.{Loses, Went};
ghost use Rattle.sf_group_steps.specs.Exchanges.{HasExchanged, HasForgotBy, HasForgotSo};
ghost use Rattle.sf_group_steps.specs.Forgets as forgets;
ghost use Rattle.sf_group_steps.specs.Forgets.{IsMeant, lost_forget, MayForget, peek_stage, peek_adds, HasForgot, HasCleared, HasClosed, HasForgottenOften};

use crate::actor::Actor;
use crate::asking::{is_forgot, opened};
use crate::numbering::{call_index, key_index};
use crate::questions::{named_by, names};
use crate::rule::{WordSeat, Words};
use crate::steps::{exchange_turns, load_turns};
use sf_group_rows::Fit;
use sf_history::CallId;
use sf_words::{
    CallState, CallWord, KeyState, KeyWord, LeaderState, pack_call, pack_key, unpack_call,
    unpack_key,
};
use std::marker::Brand;

/// How an attempt of a Forget ended, of a place's key or of one call.
pub enum ForgetAttempt {
    /// It closed this call.
    Closed(CallId),
    /// It found this call current and not open, and cleared the key word.
    Cleared(CallId),
    /// It found no call to close or to clear.
    Missed,
    /// Its exchange failed.
    Lost,
}

// The call to which a Forget goes on from its look: the one that the key word names, and for a Forget of one call that
// alone.
fn called_by(seen: KeyState, target: Option<CallId>) -> Option<CallId>
    ensures { result ≡ forgets.called_by target seen }
{
    match target {
        None => named_by(seen),
        Some(call) if names(seen, call) => Some(call),
        Some(_) => None,
    }
}

// Whether a Forget of one call misses it at its peek, which finds it forgotten.
fn misses(target: Option<CallId>, called: CallId, found: CallState) -> bool
    ensures { result ≡ turns.misses target (is_forgot_in called.generation found) }
{
    target.is_some() && is_forgot(found, called.generation)
}

// Loads the key word of the place. Where it names no call, or one that is cleared, or not the call that is to be
// forgotten, the Forget is made.
fn forget_look<V: Fit>(
    words: &Words<V>,
    seat: &mut WordSeat<V>,
    actor: Actor,
    target: Option<CallId>,
) -> KeyState
    requires own { IsSeatOf seat.old.table_id words.now.table_id words.now.key }
    requires sizes { actor.sizes ≡ words.now.key }
    requires may { MayForget actor.sizes actor.number actor.place target seat.old.me.0 }
    ensures own { (seat.new.table_id ≡ seat.old.table_id) × (seat.new.me.1 ≡ seat.old.me.1) }
    ensures told { Went actor.sizes actor.number seat.old.me.0 seat.new.me.0
        (forget_looked actor.place target result)
        (look_events actor.number actor.place target result) }
    ensures exchanged { HasExchanged actor.sizes actor.number 0 seat.old.me.0 seat.new.me.0 }
    ensures shown { (world_of actor.sizes seat.new.me.0.known.turns).keys actor.place ≡ result }
    ensures range { IsKeyFor actor.sizes.callers result }
{
    let found = load_turns::<V, (u32, Option<CallId>), Brand>(
        words,
        seat,
        key_index(actor.sizes, actor.place),
        actor.number,
        &(actor.place, target),
    );
    let Some(word) = unpack_key(found) else {
        unreachable!()
    };
    word.state()
}

// Loads the call word of the call that the key word named. A Forget of one call that finds it forgotten is made.
fn forget_peek<V: Fit>(
    words: &Words<V>,
    seat: &mut WordSeat<V>,
    actor: Actor,
    target: Option<CallId>,
    called: CallId,
) -> CallState
    requires own { IsSeatOf seat.old.table_id words.now.table_id words.now.key }
    requires sizes { actor.sizes ≡ words.now.key }
    requires called { (1 ≤ called.caller) × (called.caller ≤ actor.sizes.callers) }
    requires asks { Sits actor.sizes actor.number seat.old.me.0
        (Forgetting actor.place target (forget.Peek called)) }
    ensures own { (seat.new.table_id ≡ seat.old.table_id) × (seat.new.me.1 ≡ seat.old.me.1) }
    ensures told { Went actor.sizes actor.number seat.old.me.0 seat.new.me.0
        (peek_stage actor.place target called result)
        (peek_adds actor.number actor.place target called result) }
    ensures exchanged { HasExchanged actor.sizes actor.number 0 seat.old.me.0 seat.new.me.0 }
    ensures shown { (world_of actor.sizes seat.new.me.0.known.turns).calls called.caller ≡ result }
    ensures other { (seen : LeaderState) → open_in called.generation result ≡ Some seen
        → called.caller ≢ actor.number }
    ensures range { IsCallFor actor.sizes.callers result }
{
    let found = load_turns::<V, CallId, Brand>(
        words,
        seat,
        call_index(actor.sizes, called.caller),
        actor.number,
        &called,
    );
    let Some(word) = unpack_call(found) else {
        unreachable!()
    };
    word.state()
}

// Exchanges the leader's call word that was seen open for the same forgotten, and says whether it did. Who enters the
// call between makes it fail. The last try is followed by the drop.
fn close_forgotten<V: Fit>(
    words: &Words<V>,
    seat: &mut WordSeat<V>,
    actor: Actor,
    target: Option<CallId>,
    called: CallId,
    seen: LeaderState,
    last: bool,
) -> bool
    requires own { IsSeatOf seat.old.table_id words.now.table_id words.now.key }
    requires sizes { actor.sizes ≡ words.now.key }
    requires called { (1 ≤ called.caller) × (called.caller ≤ actor.sizes.callers) }
    requires seen { IsCallFor actor.sizes.callers (Open seen) }
    requires asks { Sits actor.sizes actor.number seat.old.me.0
        (Forgetting actor.place target (forget.Close called seen)) }
    ensures own { (seat.new.table_id ≡ seat.old.table_id) × (seat.new.me.1 ≡ seat.old.me.1) }
    ensures won { IsTrue result
        → Goes actor.sizes actor.number seat.old.me.0 seat.new.me.0
        (Forgetting actor.place target (forget.LastClear called))
        (closes actor.number actor.place target called ∷ []) 0 }
    ensures lost { IsFalse result
        → Loses actor.sizes actor.number (call called.caller) (call_code (Open seen)) seat.old.me.0
        seat.new.me.0 (lost_forget actor.place target last) }
    ensures exchanged { HasExchanged actor.sizes actor.number 1 seat.old.me.0 seat.new.me.0 }
{
    let Some(old) = CallWord::new(CallState::Open(seen)) else {
        unreachable!()
    };
    let Some(new) = CallWord::new(CallState::Forgot(seen)) else {
        unreachable!()
    };
    let old = pack_call(old);
    let found = exchange_turns::<V, (u32, bool), Brand>(
        words,
        seat,
        call_index(actor.sizes, called.caller),
        old,
        pack_call(new),
        actor.number,
        &(called.caller, last),
    );
    found == old
}

// Exchanges the key word of a call that was found not open for the same cleared, and says whether it did: then nothing
// was open. The last try is followed by the drop.
fn first_clear<V: Fit>(
    words: &Words<V>,
    seat: &mut WordSeat<V>,
    actor: Actor,
    target: Option<CallId>,
    called: CallId,
    last: bool,
) -> bool
    requires own { IsSeatOf seat.old.table_id words.now.table_id words.now.key }
    requires sizes { actor.sizes ≡ words.now.key }
    requires called { IsKeyFor actor.sizes.callers (key_of called) }
    requires asks { Sits actor.sizes actor.number seat.old.me.0
        (Forgetting actor.place target (forget.FirstClear called)) }
    ensures own { (seat.new.table_id ≡ seat.old.table_id) × (seat.new.me.1 ≡ seat.old.me.1) }
    ensures won { IsTrue result
        → Goes actor.sizes actor.number seat.old.me.0 seat.new.me.0 Free
        (clears actor.number actor.place target called ∷ []) 0 }
    ensures lost { IsFalse result
        → Loses actor.sizes actor.number (key actor.place) (key_code (key_of called)) seat.old.me.0
        seat.new.me.0 (lost_forget actor.place target last) }
    ensures exchanged { HasExchanged actor.sizes actor.number 1 seat.old.me.0 seat.new.me.0 }
{
    let Some(old) = KeyWord::new(KeyState::Names {
        caller: called.caller,
        generation: called.generation,
        cleared: false,
    }) else {
        unreachable!()
    };
    let Some(new) = KeyWord::new(KeyState::Names {
        caller: called.caller,
        generation: called.generation,
        cleared: true,
    }) else {
        unreachable!()
    };
    let old = pack_key(old);
    let found = exchange_turns::<V, (u32, bool), Brand>(
        words,
        seat,
        key_index(actor.sizes, actor.place),
        old,
        pack_key(new),
        actor.number,
        &(actor.place, last),
    );
    found == old
}

// Clears the key word of the call that this Forget closed, where it still names that. Whether it does is nobody's
// matter: its leader clears it too, and an asking leads over it as it is.
fn last_clear<V: Fit>(
    words: &Words<V>,
    seat: &mut WordSeat<V>,
    actor: Actor,
    target: Option<CallId>,
    called: CallId,
)
    requires own { IsSeatOf seat.old.table_id words.now.table_id words.now.key }
    requires sizes { actor.sizes ≡ words.now.key }
    requires called { IsKeyFor actor.sizes.callers (key_of called) }
    requires asks { Sits actor.sizes actor.number seat.old.me.0
        (Forgetting actor.place target (forget.LastClear called)) }
    ensures own { (seat.new.table_id ≡ seat.old.table_id) × (seat.new.me.1 ≡ seat.old.me.1) }
    ensures told { Goes actor.sizes actor.number seat.old.me.0 seat.new.me.0 Free [] 0 }
    ensures exchanged { HasExchanged actor.sizes actor.number 0 seat.old.me.0 seat.new.me.0 }
{
    let Some(old) = KeyWord::new(KeyState::Names {
        caller: called.caller,
        generation: called.generation,
        cleared: false,
    }) else {
        unreachable!()
    };
    let Some(new) = KeyWord::new(KeyState::Names {
        caller: called.caller,
        generation: called.generation,
        cleared: true,
    }) else {
        unreachable!()
    };
    exchange_turns::<V, u32, Brand>(
        words,
        seat,
        key_index(actor.sizes, actor.place),
        pack_key(old),
        pack_key(new),
        actor.number,
        &actor.place,
    );
}

// Goes on with a call that was found not open.
fn clear_on<V: Fit>(
    words: &Words<V>,
    seat: &mut WordSeat<V>,
    actor: Actor,
    target: Option<CallId>,
    called: CallId,
    last: bool,
) -> ForgetAttempt
    requires own { IsSeatOf seat.old.table_id words.now.table_id words.now.key }
    requires sizes { actor.sizes ≡ words.now.key }
    requires called { IsKeyFor actor.sizes.callers (key_of called) }
    requires asks { Sits actor.sizes actor.number seat.old.me.0
        (Forgetting actor.place target (forget.FirstClear called)) }
    ensures own { (seat.new.table_id ≡ seat.old.table_id) × (seat.new.me.1 ≡ seat.old.me.1) }
    ensures cleared { HasCleared actor.sizes actor.number actor.place target called last
        seat.old.me.0 seat.new.me.0 result }
    ensures exchanged { HasExchanged actor.sizes actor.number 1 seat.old.me.0 seat.new.me.0 }
{
    if first_clear(words, seat, actor, target, called, last) {
        ForgetAttempt::Cleared(called)
    } else {
        ForgetAttempt::Lost
    }
}

// Goes on with a call that was found open.
fn close_on<V: Fit>(
    words: &Words<V>,
    seat: &mut WordSeat<V>,
    actor: Actor,
    target: Option<CallId>,
    called: CallId,
    seen: LeaderState,
    last: bool,
) -> ForgetAttempt
    requires own { IsSeatOf seat.old.table_id words.now.table_id words.now.key }
    requires sizes { actor.sizes ≡ words.now.key }
    requires called { IsKeyFor actor.sizes.callers (key_of called) }
    requires seen { IsCallFor actor.sizes.callers (Open seen) }
    requires asks { Sits actor.sizes actor.number seat.old.me.0
        (Forgetting actor.place target (forget.Close called seen)) }
    ensures own { (seat.new.table_id ≡ seat.old.table_id) × (seat.new.me.1 ≡ seat.old.me.1) }
    ensures closed { HasClosed actor.sizes actor.number actor.place target called last
        (Open seen) seat.old.me.0 seat.new.me.0 result }
    ensures exchanged { HasExchanged actor.sizes actor.number 1 seat.old.me.0 seat.new.me.0 }
{
    if close_forgotten(words, seat, actor, target, called, seen, last) {
        last_clear(words, seat, actor, target, called);
        ForgetAttempt::Closed(called)
    } else {
        ForgetAttempt::Lost
    }
}

// Peeks at the call that the key word named, and closes it where it is open, or clears the key word. A Forget of one
// call misses it where another has forgotten it.
fn forget_on<V: Fit>(
    words: &Words<V>,
    seat: &mut WordSeat<V>,
    actor: Actor,
    target: Option<CallId>,
    called: CallId,
    last: bool,
) -> ForgetAttempt
    requires own { IsSeatOf seat.old.table_id words.now.table_id words.now.key }
    requires sizes { actor.sizes ≡ words.now.key }
    requires called { IsKeyFor actor.sizes.callers (key_of called) }
    requires meant { IsMeant target called }
    requires shown { (world_of actor.sizes seat.old.me.0.known.turns).keys actor.place
        ≡ key_of called }
    requires asks { Sits actor.sizes actor.number seat.old.me.0
        (Forgetting actor.place target (forget.Peek called)) }
    ensures own { (seat.new.table_id ≡ seat.old.table_id) × (seat.new.me.1 ≡ seat.old.me.1) }
    ensures forgot { HasForgot actor.sizes actor.number actor.place target last seat.old.me.0
        seat.new.me.0 result }
    ensures exchanged { HasForgotBy actor.sizes actor.number seat.old.me.0 seat.new.me.0 result }
{
    let word = forget_peek(words, seat, actor, target, called);
    if misses(target, called, word) {
        return ForgetAttempt::Missed;
    }
    match opened(word, called.generation) {
        Some(leader) => close_on(words, seat, actor, target, called, leader, last),
        None => clear_on(words, seat, actor, target, called, last),
    }
}

// Looks, and forgets what it finds.
fn forget_once<V: Fit>(
    words: &Words<V>,
    seat: &mut WordSeat<V>,
    actor: Actor,
    target: Option<CallId>,
    last: bool,
) -> ForgetAttempt
    requires own { IsSeatOf seat.old.table_id words.now.table_id words.now.key }
    requires sizes { actor.sizes ≡ words.now.key }
    requires may { MayForget actor.sizes actor.number actor.place target seat.old.me.0 }
    ensures own { (seat.new.table_id ≡ seat.old.table_id) × (seat.new.me.1 ≡ seat.old.me.1) }
    ensures forgot { HasForgot actor.sizes actor.number actor.place target last seat.old.me.0
        seat.new.me.0 result }
    ensures exchanged { HasForgotBy actor.sizes actor.number seat.old.me.0 seat.new.me.0 result }
{
    let seen = forget_look(words, seat, actor, target);
    match called_by(seen, target) {
        Some(called) => forget_on(words, seat, actor, target, called, last),
        None => ForgetAttempt::Missed,
    }
}

/// Forgets the place's key, or the call `target` of it alone, with so many tries. After the last try that fails the caller
/// has left its Forget.
pub fn forget_often<V: Fit>(
    words: &Words<V>,
    seat: &mut WordSeat<V>,
    actor: Actor,
    target: Option<CallId>,
    tries: u32,
) -> ForgetAttempt
    requires own { IsSeatOf seat.old.table_id words.now.table_id words.now.key }
    requires sizes { actor.sizes ≡ words.now.key }
    requires free { Sits actor.sizes actor.number seat.old.me.0 Free }
    ensures own { (seat.new.table_id ≡ seat.old.table_id) × (seat.new.me.1 ≡ seat.old.me.1) }
    ensures forgot { HasForgottenOften actor.sizes actor.number actor.place target tries
        seat.old.me.0 seat.new.me.0 result }
    ensures exchanged { HasForgotSo actor.sizes actor.number tries seat.old.me.0 seat.new.me.0
        result }
{
    for failed in 0..tries {
        let attempt = forget_once(words, seat, actor, target, failed + 1 == tries);
        match attempt {
            ForgetAttempt::Lost => {}
            _ => return attempt,
        }
    }
    ForgetAttempt::Lost
}
