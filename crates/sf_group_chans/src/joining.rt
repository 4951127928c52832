//! The kinds of step of an asking whose second joins: ready, link, enter.
ghost use Rattle.std.specs.Prelude.{◌≡◌, ◌≤◌, IsTrue, IsFalse};
ghost use Rattle.sf_words.specs.CallWord.{call_code};
ghost use Rattle.sf_words.specs.declared.call_word.CallState.TheVariants.{Open};
ghost use Rattle.sf_steps_laws.specs.declared.operation.AskStep.TheVariants as ask;
ghost use Rattle.sf_group_steps.specs.Words.{call, IsCallFor};
ghost use Rattle.sf_group_steps.specs.Stands.{IsSeatOf};
ghost use Rattle.sf_group_chans.specs.Both.{AreAskers, AskAt, lost_first, lost_second};
ghost use Rattle.sf_group_chans.specs.Changes.{StayAt, LoseBoth};
ghost use Rattle.sf_group_chans.specs.Exchanges.{HaveExchanged};
ghost use Rattle.sf_group_chans.specs.Attempts.{HasJoined};

use crate::askers::Askers;
use sf_group_rows::Fit;
use sf_group_steps::{WordSeat, Words, call_index, exchange_turns, next_index, store_turns};
use sf_history::CallId;
use sf_words::{CallState, CallWord, LeaderState, NextWord, pack_call, pack_next};
use std::marker::Brand;

/// Makes the second's word ready to join.
pub(crate) fn ready_join<V: Fit>(
    words: &Words<V>,
    seat: &mut WordSeat<V>,
    askers: Askers,
    called: CallId,
    seen: LeaderState,
)
    requires own { IsSeatOf seat.old.table_id words.now.table_id words.now.key }
    requires sizes { askers.sizes ≡ words.now.key }
    requires askers { AreAskers askers }
    requires asks { AskAt askers seat.old.me.0 (ask.ReadyJoin called seen) }
    ensures own { (seat.new.table_id ≡ seat.old.table_id) × (seat.new.me.1 ≡ seat.old.me.1) }
    ensures told { StayAt askers seat.old.me.0 seat.new.me.0 (ask.Link called seen) }
    ensures exchanged { HaveExchanged askers 0 seat.old.me.0 seat.new.me.0 }
{
    // The contract alone reads them.
    let _ = called;
    let _ = seen;
    let Some(word) = CallWord::new(CallState::Listed {
        generation: askers.second_generation,
    }) else {
        unreachable!()
    };
    store_turns::<V, Askers, Brand>(
        words,
        seat,
        call_index(askers.sizes, askers.second),
        pack_call(word),
        askers.number,
        &askers,
    );
}

/// Points the second's next word to the top of the list that was seen.
pub(crate) fn link<V: Fit>(
    words: &Words<V>,
    seat: &mut WordSeat<V>,
    askers: Askers,
    called: CallId,
    seen: LeaderState,
)
    requires own { IsSeatOf seat.old.table_id words.now.table_id words.now.key }
    requires sizes { askers.sizes ≡ words.now.key }
    requires askers { AreAskers askers }
    requires seen { IsCallFor askers.sizes.callers (Open seen) }
    requires asks { AskAt askers seat.old.me.0 (ask.Link called seen) }
    ensures own { (seat.new.table_id ≡ seat.old.table_id) × (seat.new.me.1 ≡ seat.old.me.1) }
    ensures told { StayAt askers seat.old.me.0 seat.new.me.0 (ask.Enter called seen) }
    ensures exchanged { HaveExchanged askers 0 seat.old.me.0 seat.new.me.0 }
{
    // The contract alone reads it.
    let _ = called;
    let Some(word) = NextWord::new(seen.top) else {
        unreachable!()
    };
    store_turns::<V, Askers, Brand>(
        words,
        seat,
        next_index(askers.sizes, askers.second),
        pack_next(word),
        askers.number,
        &askers,
    );
}

/// Exchanges the leader's call word that was seen for one with the second on top, and says whether it did. The last try
/// is followed by the drop.
pub(crate) fn enter<V: Fit>(
    words: &Words<V>,
    seat: &mut WordSeat<V>,
    askers: Askers,
    called: CallId,
    seen: LeaderState,
    last: bool,
) -> bool
    requires own { IsSeatOf seat.old.table_id words.now.table_id words.now.key }
    requires sizes { askers.sizes ≡ words.now.key }
    requires askers { AreAskers askers }
    requires called { (1 ≤ called.caller) × (called.caller ≤ askers.sizes.callers) }
    requires seen { IsCallFor askers.sizes.callers (Open seen) }
    requires asks { AskAt askers seat.old.me.0 (ask.Enter called seen) }
    ensures own { (seat.new.table_id ≡ seat.old.table_id) × (seat.new.me.1 ≡ seat.old.me.1) }
    ensures won { IsTrue result → HasJoined askers called seat.old.me.0 seat.new.me.0 }
    ensures lost { IsFalse result
        → LoseBoth askers (call called.caller) (call_code (Open seen)) seat.old.me.0 seat.new.me.0
        (lost_first askers last) (lost_second askers last) }
    ensures exchanged { HaveExchanged askers 1 seat.old.me.0 seat.new.me.0 }
{
    let Some(old) = CallWord::new(CallState::Open(seen)) else {
        unreachable!()
    };
    let Some(new) = CallWord::new(CallState::Open(LeaderState {
        generation: seen.generation,
        own: seen.own,
        top: Some(askers.second),
    })) else {
        unreachable!()
    };
    let old = pack_call(old);
    let found = exchange_turns::<V, (u32, bool), Brand>(
        words,
        seat,
        call_index(askers.sizes, called.caller),
        old,
        pack_call(new),
        askers.number,
        &(called.caller, last),
    );
    found == old
}
