//! One attempt of an asking: from its look to its exchange.
ghost use Rattle.std.specs.Prelude.{◌≡◌, ◌≢◌, ℕ, ◌≤◌, None};
ghost use Rattle.sf_words.specs.declared.call_word.CallState.TheVariants.{Open};
ghost use Rattle.sf_steps_laws.specs.Afters.{after_of};
ghost use Rattle.sf_steps_laws.specs.World.{is_forgot_in, open_in, key_of};
ghost use Rattle.sf_steps_laws.specs.declared.operation.Stage.TheVariants.{Asking, Free};
ghost use Rattle.sf_steps_laws.specs.declared.operation.AskStep.TheVariants as ask;
ghost use Rattle.sf_group_steps.specs.Words.{IsKeyFor, IsCallFor};
ghost use Rattle.sf_group_steps.specs.View.{setting_of, world_of};
ghost use Rattle.sf_group_steps.specs.Stands.{IsSeatOf, Sits, next_in, MayLook};
ghost use Rattle.sf_group_steps.specs.Attempts.{HasAttempted, HasLed, HasJoined, HasTried};
ghost use Rattle.sf_group_steps.specs.Exchanges.{HasExchanged, HasTriedSo};

use crate::actor::Actor;
use crate::joining::{enter, link, ready_join};
use crate::leading::{lead, look, peek, ready};
use crate::rule::{WordSeat, Words};
use sf_group_rows::Fit;
use sf_history::CallId;
use sf_words::{CallState, KeyState, LeaderState};

/// How an attempt of an asking ended.
pub enum AskAttempt {
    /// The caller leads its new call, before which this one was the place's current call.
    Led(Option<CallId>),
    /// It joined this call.
    Joined(CallId),
    /// Its exchange failed.
    Lost,
}

/// What an open word of this generation says.
pub fn opened(word: CallState, generation: u32) -> Option<LeaderState>
    ensures { result ≡ open_in generation word }
{
    match word {
        CallState::Open(leader) if leader.generation == generation => Some(leader),
        _ => None,
    }
}

/// Whether a Forget closed the call of this generation.
pub fn is_forgot(word: CallState, generation: u32) -> bool
    ensures { result ≡ is_forgot_in generation word }
{
    match word {
        CallState::Forgot(leader) => leader.generation == generation,
        _ => false,
    }
}

/// The call that was current before a lead, by what its asking read.
pub fn current_before(seen: KeyState, forgot: bool) -> Option<CallId>
    ensures { result ≡ after_of seen forgot }
{
    match seen {
        KeyState::Names {
            caller,
            generation,
            cleared: false,
        } if !forgot => Some(CallId { caller, generation }),
        _ => None,
    }
}

// Makes the own word ready, and tries the key word that was seen.
fn lead_on<V: Fit>(
    words: &Words<V>,
    seat: &mut WordSeat<V>,
    actor: Actor,
    generation: u32,
    seen: KeyState,
    forgot: bool,
    last: bool,
) -> AskAttempt
    requires own { IsSeatOf seat.old.table_id words.now.table_id words.now.key }
    requires sizes { actor.sizes ≡ words.now.key }
    requires generation { (1 ≤ generation)
        × (next_in actor.sizes seat.old.me.0 actor.number ≡ generation) }
    requires seen { IsKeyFor actor.sizes.callers seen }
    requires asks { Sits actor.sizes actor.number seat.old.me.0
        (Asking actor.place None (ask.ReadyLead seen forgot)) }
    ensures own { (seat.new.table_id ≡ seat.old.table_id) × (seat.new.me.1 ≡ seat.old.me.1) }
    ensures led { HasLed actor.sizes actor.number generation actor.place last seen seat.old.me.0
        seat.new.me.0 result }
    ensures exchanged { HasExchanged actor.sizes actor.number 1 seat.old.me.0 seat.new.me.0 }
{
    ready(words, seat, actor, generation, seen, forgot);
    if lead(words, seat, actor, generation, seen, forgot, last) {
        AskAttempt::Led(current_before(seen, forgot))
    } else {
        AskAttempt::Lost
    }
}

// Makes the own words ready, and tries the leader's call word that was seen.
fn join_on<V: Fit>(
    words: &Words<V>,
    seat: &mut WordSeat<V>,
    actor: Actor,
    generation: u32,
    called: CallId,
    seen: LeaderState,
    last: bool,
) -> AskAttempt
    requires own { IsSeatOf seat.old.table_id words.now.table_id words.now.key }
    requires sizes { actor.sizes ≡ words.now.key }
    requires called { (1 ≤ called.caller) × (called.caller ≤ actor.sizes.callers)
        × (called.caller ≢ actor.number) }
    requires generation { (1 ≤ generation)
        × (next_in actor.sizes seat.old.me.0 actor.number ≡ generation) }
    requires seen { IsCallFor actor.sizes.callers (Open seen) }
    requires asks { Sits actor.sizes actor.number seat.old.me.0
        (Asking actor.place None (ask.ReadyJoin called seen)) }
    ensures own { (seat.new.table_id ≡ seat.old.table_id) × (seat.new.me.1 ≡ seat.old.me.1) }
    ensures joined { HasJoined actor.sizes actor.number generation actor.place called last
        (Open seen) seat.old.me.0 seat.new.me.0 result }
    ensures exchanged { HasExchanged actor.sizes actor.number 1 seat.old.me.0 seat.new.me.0 }
{
    ready_join(words, seat, actor, generation, called, seen);
    link(words, seat, actor, called, seen);
    if enter(words, seat, actor, generation, called, seen, last) {
        AskAttempt::Joined(called)
    } else {
        AskAttempt::Lost
    }
}

// Peeks at the call that the key word named, and joins it where it is open, or leads.
fn follow_on<V: Fit>(
    words: &Words<V>,
    seat: &mut WordSeat<V>,
    actor: Actor,
    generation: u32,
    seen: KeyState,
    called: CallId,
    last: bool,
) -> AskAttempt
    requires own { IsSeatOf seat.old.table_id words.now.table_id words.now.key }
    requires sizes { actor.sizes ≡ words.now.key }
    requires generation { (1 ≤ generation)
        × (next_in actor.sizes seat.old.me.0 actor.number ≡ generation) }
    requires seen { IsKeyFor actor.sizes.callers seen × (seen ≡ key_of called) }
    requires shown { (world_of actor.sizes seat.old.me.0.known.turns).keys actor.place ≡ seen }
    requires asks { Sits actor.sizes actor.number seat.old.me.0
        (Asking actor.place None (ask.Peek called)) }
    ensures own { (seat.new.table_id ≡ seat.old.table_id) × (seat.new.me.1 ≡ seat.old.me.1) }
    ensures attempted { HasAttempted actor.sizes actor.number generation actor.place last
        seat.old.me.0 seat.new.me.0 result }
    ensures exchanged { HasExchanged actor.sizes actor.number 1 seat.old.me.0 seat.new.me.0 }
{
    let word = peek(words, seat, actor, called);
    match opened(word, called.generation) {
        Some(leader) => join_on(words, seat, actor, generation, called, leader, last),
        None => lead_on(
            words,
            seat,
            actor,
            generation,
            seen,
            is_forgot(word, called.generation),
            last,
        ),
    }
}

/// Looks, and leads a new call or joins the open one.
pub(crate) fn ask_once<V: Fit>(
    words: &Words<V>,
    seat: &mut WordSeat<V>,
    actor: Actor,
    generation: u32,
    last: bool,
) -> AskAttempt
    requires own { IsSeatOf seat.old.table_id words.now.table_id words.now.key }
    requires sizes { actor.sizes ≡ words.now.key }
    requires generation { (1 ≤ generation)
        × (next_in actor.sizes seat.old.me.0 actor.number ≡ generation) }
    requires may { MayLook actor.sizes actor.number actor.place seat.old.me.0 }
    ensures own { (seat.new.table_id ≡ seat.old.table_id) × (seat.new.me.1 ≡ seat.old.me.1) }
    ensures attempted { HasAttempted actor.sizes actor.number generation actor.place last
        seat.old.me.0 seat.new.me.0 result }
    ensures exchanged { HasExchanged actor.sizes actor.number 1 seat.old.me.0 seat.new.me.0 }
{
    let seen = look(words, seat, actor);
    match seen {
        KeyState::Never => lead_on(words, seat, actor, generation, seen, false, last),
        KeyState::Names { cleared: true, .. } => lead_on(
            words, seat, actor, generation, seen, false, last,
        ),
        KeyState::Names {
            caller,
            generation: named,
            cleared: false,
        } => {
            let called = CallId {
                caller,
                generation: named,
            };
            follow_on(words, seat, actor, generation, seen, called, last)
        }
    }
}

/// Tries so often. After the last try that fails the caller has left its asking.
pub fn ask_often<V: Fit>(
    words: &Words<V>,
    seat: &mut WordSeat<V>,
    actor: Actor,
    generation: u32,
    tries: u32,
) -> AskAttempt
    requires own { IsSeatOf seat.old.table_id words.now.table_id words.now.key }
    requires sizes { actor.sizes ≡ words.now.key }
    requires generation { (1 ≤ generation)
        × (next_in actor.sizes seat.old.me.0 actor.number ≡ generation) }
    requires free { Sits actor.sizes actor.number seat.old.me.0 Free }
    ensures own { (seat.new.table_id ≡ seat.old.table_id) × (seat.new.me.1 ≡ seat.old.me.1) }
    ensures tried { HasTried actor.sizes actor.number generation actor.place tries seat.old.me.0
        seat.new.me.0 result }
    ensures exchanged { HasTriedSo actor.sizes actor.number tries seat.old.me.0 seat.new.me.0
        result }
{
    for failed in 0..tries {
        let attempt = ask_once(words, seat, actor, generation, failed + 1 == tries);
        match attempt {
            AskAttempt::Lost => {}
            _ => return attempt,
        }
    }
    AskAttempt::Lost
}
