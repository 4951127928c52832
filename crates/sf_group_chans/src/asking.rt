//! The attempts of an asking with a second: each from its look to its exchange.
ghost use Rattle.std.specs.Prelude.{◌≡◌, ◌≢◌, ◌≤◌};
ghost use Rattle.sf_words.specs.declared.call_word.CallState.TheVariants.{Open};
ghost use Rattle.sf_steps_laws.specs.World.{key_of};
ghost use Rattle.sf_steps_laws.specs.declared.operation.Stage.TheVariants.{Free};
ghost use Rattle.sf_steps_laws.specs.declared.operation.AskStep.TheVariants as ask;
ghost use Rattle.sf_group_steps.specs.Words.{IsKeyFor, IsCallFor};
ghost use Rattle.sf_group_steps.specs.View.{world_of};
ghost use Rattle.sf_group_steps.specs.Stands.{IsSeatOf};
ghost use Rattle.sf_group_chans.specs.Both.{AreAskers, Ask, AskAt, MayLook};
ghost use Rattle.sf_group_chans.specs.Attempts.{HasAttempted, HasLedOn, HasJoinedOn, HasTried};
ghost use Rattle.sf_group_chans.specs.Exchanges.{HaveExchanged, HaveTriedSo};

use crate::askers::Askers;
use crate::joining::{enter, link, ready_join};
use crate::leading::{lead, look, peek, ready, ready_own};
use sf_group_rows::Fit;
use sf_group_steps::{AskAttempt, WordSeat, Words, current_before, is_forgot, opened};
use sf_history::CallId;
use sf_words::{KeyState, LeaderState};

// Makes both words ready, and tries the key word that was seen.
fn lead_on<V: Fit>(
    words: &Words<V>,
    seat: &mut WordSeat<V>,
    askers: Askers,
    seen: KeyState,
    forgot: bool,
    last: bool,
) -> AskAttempt
    requires own { IsSeatOf seat.old.table_id words.now.table_id words.now.key }
    requires sizes { askers.sizes ≡ words.now.key }
    requires askers { AreAskers askers }
    requires seen { IsKeyFor askers.sizes.callers seen }
    requires asks { AskAt askers seat.old.me.0 (ask.ReadyOwn seen forgot) }
    ensures own { (seat.new.table_id ≡ seat.old.table_id) × (seat.new.me.1 ≡ seat.old.me.1) }
    ensures led { HasLedOn askers last seen seat.old.me.0 seat.new.me.0 result }
    ensures exchanged { HaveExchanged askers 1 seat.old.me.0 seat.new.me.0 }
{
    ready_own(words, seat, askers, seen, forgot);
    ready(words, seat, askers, seen, forgot);
    if lead(words, seat, askers, seen, forgot, last) {
        AskAttempt::Led(current_before(seen, forgot))
    } else {
        AskAttempt::Lost
    }
}

// Makes the second's words ready, and tries the leader's call word that was seen.
fn join_on<V: Fit>(
    words: &Words<V>,
    seat: &mut WordSeat<V>,
    askers: Askers,
    called: CallId,
    seen: LeaderState,
    last: bool,
) -> AskAttempt
    requires own { IsSeatOf seat.old.table_id words.now.table_id words.now.key }
    requires sizes { askers.sizes ≡ words.now.key }
    requires askers { AreAskers askers }
    requires called { (1 ≤ called.caller) × (called.caller ≤ askers.sizes.callers) }
    requires other { (called.caller ≢ askers.number) × (called.caller ≢ askers.second) }
    requires seen { IsCallFor askers.sizes.callers (Open seen) }
    requires asks { AskAt askers seat.old.me.0 (ask.ReadyJoin called seen) }
    ensures own { (seat.new.table_id ≡ seat.old.table_id) × (seat.new.me.1 ≡ seat.old.me.1) }
    ensures joined { HasJoinedOn askers called last (Open seen) seat.old.me.0 seat.new.me.0 result }
    ensures exchanged { HaveExchanged askers 1 seat.old.me.0 seat.new.me.0 }
{
    ready_join(words, seat, askers, called, seen);
    link(words, seat, askers, called, seen);
    if enter(words, seat, askers, called, seen, last) {
        AskAttempt::Joined(called)
    } else {
        AskAttempt::Lost
    }
}

// Peeks at the call that the key word named. The second joins it where it is open, and else the caller leads.
fn follow_on<V: Fit>(
    words: &Words<V>,
    seat: &mut WordSeat<V>,
    askers: Askers,
    seen: KeyState,
    called: CallId,
    last: bool,
) -> AskAttempt
    requires own { IsSeatOf seat.old.table_id words.now.table_id words.now.key }
    requires sizes { askers.sizes ≡ words.now.key }
    requires askers { AreAskers askers }
    requires seen { IsKeyFor askers.sizes.callers seen × (seen ≡ key_of called) }
    requires shown { (world_of askers.sizes seat.old.me.0.known.turns).keys askers.place ≡ seen }
    requires asks { AskAt askers seat.old.me.0 (ask.Peek called) }
    ensures own { (seat.new.table_id ≡ seat.old.table_id) × (seat.new.me.1 ≡ seat.old.me.1) }
    ensures attempted { HasAttempted askers last seat.old.me.0 seat.new.me.0 result }
    ensures exchanged { HaveExchanged askers 1 seat.old.me.0 seat.new.me.0 }
{
    let word = peek(words, seat, askers, called);
    match opened(word, called.generation) {
        Some(leader) => join_on(words, seat, askers, called, leader, last),
        None => lead_on(
            words,
            seat,
            askers,
            seen,
            is_forgot(word, called.generation),
            last,
        ),
    }
}

// Looks, and leads a new call or has the second join the open one.
fn ask_once<V: Fit>(
    words: &Words<V>,
    seat: &mut WordSeat<V>,
    askers: Askers,
    last: bool,
) -> AskAttempt
    requires own { IsSeatOf seat.old.table_id words.now.table_id words.now.key }
    requires sizes { askers.sizes ≡ words.now.key }
    requires askers { AreAskers askers }
    requires may { MayLook askers seat.old.me.0 }
    ensures own { (seat.new.table_id ≡ seat.old.table_id) × (seat.new.me.1 ≡ seat.old.me.1) }
    ensures attempted { HasAttempted askers last seat.old.me.0 seat.new.me.0 result }
    ensures exchanged { HaveExchanged askers 1 seat.old.me.0 seat.new.me.0 }
{
    let seen = look(words, seat, askers);
    match seen {
        KeyState::Never => lead_on(words, seat, askers, seen, false, last),
        KeyState::Names { cleared: true, .. } => lead_on(words, seat, askers, seen, false, last),
        KeyState::Names {
            caller,
            generation,
            cleared: false,
        } => {
            let called = CallId { caller, generation };
            follow_on(words, seat, askers, seen, called, last)
        }
    }
}

/// Tries so often. After the last try that fails the two have left their asking.
pub(crate) fn ask_both<V: Fit>(
    words: &Words<V>,
    seat: &mut WordSeat<V>,
    askers: Askers,
    tries: u32,
) -> AskAttempt
    requires own { IsSeatOf seat.old.table_id words.now.table_id words.now.key }
    requires sizes { askers.sizes ≡ words.now.key }
    requires askers { AreAskers askers }
    requires free { Ask askers seat.old.me.0 Free Free }
    ensures own { (seat.new.table_id ≡ seat.old.table_id) × (seat.new.me.1 ≡ seat.old.me.1) }
    ensures tried { HasTried askers tries seat.old.me.0 seat.new.me.0 result }
    ensures exchanged { HaveTriedSo askers tries seat.old.me.0 seat.new.me.0 result }
{
    for failed in 0..tries {
        let attempt = ask_once(words, seat, askers, failed + 1 == tries);
        match attempt {
            AskAttempt::Lost => {}
            _ => return attempt,
        }
    }
    AskAttempt::Lost
}
