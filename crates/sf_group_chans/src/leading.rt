//! The kinds of step of an asking with a second: look, peek, ready, lead. Each is one step on one word.
ghost use Rattle.std.specs.Prelude.{◌≡◌, ◌≢◌, ◌≤◌, Some, IsTrue, IsFalse};
ghost use Rattle.sf_words.specs.declared.call_word.LeaderState.{LeaderState};
ghost use Rattle.sf_words.specs.KeyWord.{key_code};
ghost use Rattle.sf_steps_laws.specs.declared.operation.AskStep.TheVariants as ask;
ghost use Rattle.sf_steps_laws.specs.Afters.{after_of};
ghost use Rattle.sf_steps_laws.specs.Askings.{looked, peeked};
ghost use Rattle.sf_steps_laws.specs.World.{is_forgot_in, open_in};
ghost use Rattle.sf_group_steps.specs.Words.{key, IsKeyFor, IsCallFor};
ghost use Rattle.sf_group_steps.specs.View.{world_of};
ghost use Rattle.sf_group_steps.specs.Stands.{IsSeatOf};
ghost use Rattle.sf_group_chans.specs.Both.{AreAskers, AskAt, MayLook, lost_first, lost_second};
ghost use Rattle.sf_group_chans.specs.Changes.{StayAt, LoseBoth};
ghost use Rattle.sf_group_chans.specs.Exchanges.{HaveExchanged};
ghost use Rattle.sf_group_chans.specs.Attempts.{HasLed};

use crate::askers::Askers;
use sf_group_rows::Fit;
use sf_group_steps::{
    WordSeat, Words, call_index, exchange_turns, key_index, load_turns, store_turns,
};
use sf_history::CallId;
use sf_words::{
    CallState, CallWord, KeyState, KeyWord, LeaderState, pack_call, pack_key, unpack_call,
    unpack_key,
};
use std::marker::Brand;

/// Loads the key word of the place.
pub(crate) fn look<V: Fit>(words: &Words<V>, seat: &mut WordSeat<V>, askers: Askers) -> KeyState
    requires own { IsSeatOf seat.old.table_id words.now.table_id words.now.key }
    requires sizes { askers.sizes ≡ words.now.key }
    requires askers { AreAskers askers }
    requires may { MayLook askers seat.old.me.0 }
    ensures own { (seat.new.table_id ≡ seat.old.table_id) × (seat.new.me.1 ≡ seat.old.me.1) }
    ensures told { StayAt askers seat.old.me.0 seat.new.me.0 (looked (Some askers.second) result) }
    ensures exchanged { HaveExchanged askers 0 seat.old.me.0 seat.new.me.0 }
    ensures shown { (world_of askers.sizes seat.new.me.0.known.turns).keys askers.place ≡ result }
    ensures range { IsKeyFor askers.sizes.callers result }
{
    let found = load_turns::<V, Askers, Brand>(
        words,
        seat,
        key_index(askers.sizes, askers.place),
        askers.number,
        &askers,
    );
    let Some(word) = unpack_key(found) else {
        unreachable!()
    };
    word.state()
}

/// Loads the call word of the call that the key word named.
pub(crate) fn peek<V: Fit>(
    words: &Words<V>,
    seat: &mut WordSeat<V>,
    askers: Askers,
    called: CallId,
) -> CallState
    requires own { IsSeatOf seat.old.table_id words.now.table_id words.now.key }
    requires sizes { askers.sizes ≡ words.now.key }
    requires askers { AreAskers askers }
    requires called { (1 ≤ called.caller) × (called.caller ≤ askers.sizes.callers) }
    requires asks { AskAt askers seat.old.me.0 (ask.Peek called) }
    ensures own { (seat.new.table_id ≡ seat.old.table_id) × (seat.new.me.1 ≡ seat.old.me.1) }
    ensures told { StayAt askers seat.old.me.0 seat.new.me.0
        (peeked (Some askers.second) called (is_forgot_in called.generation result)
        (open_in called.generation result)) }
    ensures exchanged { HaveExchanged askers 0 seat.old.me.0 seat.new.me.0 }
    ensures shown { (world_of askers.sizes seat.new.me.0.known.turns).calls called.caller ≡ result }
    ensures other { (seen : LeaderState) → open_in called.generation result ≡ Some seen
        → (called.caller ≢ askers.number) × (called.caller ≢ askers.second) }
    ensures range { IsCallFor askers.sizes.callers result }
{
    let found = load_turns::<V, CallId, Brand>(
        words,
        seat,
        call_index(askers.sizes, called.caller),
        askers.number,
        &called,
    );
    let Some(word) = unpack_call(found) else {
        unreachable!()
    };
    word.state()
}

/// Makes the second's word ready, as the own channel of the call to be led.
pub(crate) fn ready_own<V: Fit>(
    words: &Words<V>,
    seat: &mut WordSeat<V>,
    askers: Askers,
    seen: KeyState,
    forgot: bool,
)
    requires own { IsSeatOf seat.old.table_id words.now.table_id words.now.key }
    requires sizes { askers.sizes ≡ words.now.key }
    requires askers { AreAskers askers }
    requires asks { AskAt askers seat.old.me.0 (ask.ReadyOwn seen forgot) }
    ensures own { (seat.new.table_id ≡ seat.old.table_id) × (seat.new.me.1 ≡ seat.old.me.1) }
    ensures told { StayAt askers seat.old.me.0 seat.new.me.0 (ask.ReadyLead seen forgot) }
    ensures exchanged { HaveExchanged askers 0 seat.old.me.0 seat.new.me.0 }
{
    // The contract alone reads them.
    let _ = seen;
    let _ = forgot;
    let Some(word) = CallWord::new(CallState::Listed {
        generation: askers.second_generation,
    }) else {
        unreachable!()
    };
    store_turns::<V, Askers, Brand>(
        words,
        seat,
        call_index(askers.sizes, askers.second),
        pack_call(word),
        askers.number,
        &askers,
    );
}

/// Makes the caller's own word ready to lead a call that has an own channel.
pub(crate) fn ready<V: Fit>(
    words: &Words<V>,
    seat: &mut WordSeat<V>,
    askers: Askers,
    seen: KeyState,
    forgot: bool,
)
    requires own { IsSeatOf seat.old.table_id words.now.table_id words.now.key }
    requires sizes { askers.sizes ≡ words.now.key }
    requires askers { AreAskers askers }
    requires asks { AskAt askers seat.old.me.0 (ask.ReadyLead seen forgot) }
    ensures own { (seat.new.table_id ≡ seat.old.table_id) × (seat.new.me.1 ≡ seat.old.me.1) }
    ensures told { StayAt askers seat.old.me.0 seat.new.me.0 (ask.Lead seen forgot) }
    ensures exchanged { HaveExchanged askers 0 seat.old.me.0 seat.new.me.0 }
{
    // The contract alone reads them.
    let _ = seen;
    let _ = forgot;
    let Some(word) = CallWord::new(CallState::Open(LeaderState {
        generation: askers.generation,
        own: true,
        top: None,
    })) else {
        unreachable!()
    };
    store_turns::<V, Askers, Brand>(
        words,
        seat,
        call_index(askers.sizes, askers.number),
        pack_call(word),
        askers.number,
        &askers,
    );
}

/// Exchanges the key word that was seen, and says whether it did. The last try is followed by the drop.
pub(crate) fn lead<V: Fit>(
    words: &Words<V>,
    seat: &mut WordSeat<V>,
    askers: Askers,
    seen: KeyState,
    forgot: bool,
    last: bool,
) -> bool
    requires own { IsSeatOf seat.old.table_id words.now.table_id words.now.key }
    requires sizes { askers.sizes ≡ words.now.key }
    requires askers { AreAskers askers }
    requires seen { IsKeyFor askers.sizes.callers seen }
    requires asks { AskAt askers seat.old.me.0 (ask.Lead seen forgot) }
    ensures own { (seat.new.table_id ≡ seat.old.table_id) × (seat.new.me.1 ≡ seat.old.me.1) }
    ensures won { IsTrue result → HasLed askers (after_of seen forgot) seat.old.me.0 seat.new.me.0 }
    ensures lost { IsFalse result
        → LoseBoth askers (key askers.place) (key_code seen) seat.old.me.0 seat.new.me.0
        (lost_first askers last) (lost_second askers last) }
    ensures exchanged { HaveExchanged askers 1 seat.old.me.0 seat.new.me.0 }
{
    // The contract alone reads it.
    let _ = forgot;
    let Some(old) = KeyWord::new(seen) else {
        unreachable!()
    };
    let Some(new) = KeyWord::new(KeyState::Names {
        caller: askers.number,
        generation: askers.generation,
        cleared: false,
    }) else {
        unreachable!()
    };
    let old = pack_key(old);
    let found = exchange_turns::<V, (u32, bool), Brand>(
        words,
        seat,
        key_index(askers.sizes, askers.place),
        old,
        pack_key(new),
        askers.number,
        &(askers.place, last),
    );
    found == old
}
