//! The kinds of step of a question: whether a call is its place's current one, or which call the key word names.
ghost use Rattle.std.specs.Prelude.{◌≡◌, ◌≢◌, nat_eq, true, [], Some, IsTrue, IsFalse};
ghost use Rattle.sf_history.specs.History.{current_call};
ghost use Rattle.sf_steps_laws.specs.Schedules.{IsCaller, IsPlace, was_led_on};
ghost use Rattle.sf_steps_laws.specs.World.{key_of, same_key};
ghost use Rattle.sf_steps_laws.specs.Events as adds;
ghost use Rattle.sf_steps_laws.specs.Naming.{IsNamed};
ghost use Rattle.sf_steps_laws.specs.declared.operation.Stage.TheVariants.{Free, Questioning};
ghost use Rattle.sf_steps_laws.specs.declared.operation.CurrentStep.TheVariants as current;
ghost use Rattle.sf_group_steps.specs.View.{setting_of, history_of};
ghost use Rattle.sf_group_steps.specs.Stands.{IsSeatOf, Sits, Goes};
ghost use Rattle.sf_group_steps.specs.Questions.{HasPeeked, HasLooked, WasCurrent};

use crate::actor::Actor;
use crate::asking::is_forgot;
use crate::numbering::{call_index, key_index};
use crate::rule::{WordSeat, Words};
use crate::steps::load_turns;
use sf_group_rows::Fit;
use sf_history::CallId;
use sf_words::{KeyState, unpack_call, unpack_key};
use std::marker::Brand;

/// Whether a key word names the call, and is not cleared.
pub(crate) fn names(word: KeyState, called: CallId) -> bool
    ensures { result ≡ same_key word (key_of called) }
{
    match word {
        KeyState::Names {
            caller,
            generation,
            cleared: false,
        } => caller == called.caller && generation == called.generation,
        _ => false,
    }
}

/// The call that a key word names that is not cleared.
pub(crate) fn named_by(word: KeyState) -> Option<CallId>
    ensures { result ≡ adds.named_by word }
{
    match word {
        KeyState::Names {
            caller,
            generation,
            cleared: false,
        } => Some(CallId { caller, generation }),
        _ => None,
    }
}

// Loads the call word of the call's caller, and says whether a Forget closed the call: then it is not current, and the
// question is answered.
fn question_peek<V: Fit>(
    words: &Words<V>,
    seat: &mut WordSeat<V>,
    actor: Actor,
    called: CallId,
) -> bool
    requires own { IsSeatOf seat.old.table_id words.now.table_id words.now.key }
    requires sizes { actor.sizes ≡ words.now.key }
    requires called { IsCaller (setting_of actor.sizes) called.caller }
    requires led { was_led_on (history_of actor.sizes seat.old.me.0.known.turns) actor.place called
        ≡ true }
    requires free { Sits actor.sizes actor.number seat.old.me.0 Free }
    ensures own { (seat.new.table_id ≡ seat.old.table_id) × (seat.new.me.1 ≡ seat.old.me.1) }
    ensures peeked { HasPeeked actor.sizes actor.number actor.place called seat.old.me.0
        seat.new.me.0 result }
{
    let found = load_turns::<V, (u32, CallId), Brand>(
        words,
        seat,
        call_index(actor.sizes, called.caller),
        actor.number,
        &(actor.place, called),
    );
    let Some(word) = unpack_call(found) else {
        unreachable!()
    };
    is_forgot(word.state(), called.generation)
}

// Loads the key word of the place, and says whether it names the call. That answers the question.
fn question_look<V: Fit>(
    words: &Words<V>,
    seat: &mut WordSeat<V>,
    actor: Actor,
    called: CallId,
) -> bool
    requires own { IsSeatOf seat.old.table_id words.now.table_id words.now.key }
    requires sizes { actor.sizes ≡ words.now.key }
    requires asks { Sits actor.sizes actor.number seat.old.me.0
        (Questioning actor.place called current.Look) }
    ensures own { (seat.new.table_id ≡ seat.old.table_id) × (seat.new.me.1 ≡ seat.old.me.1) }
    ensures looked { HasLooked actor.sizes actor.number actor.place called seat.old.me.0
        seat.new.me.0 result }
{
    let found = load_turns::<V, u32, Brand>(
        words,
        seat,
        key_index(actor.sizes, actor.place),
        actor.number,
        &actor.place,
    );
    let Some(word) = unpack_key(found) else {
        unreachable!()
    };
    names(word.state(), called)
}

/// Whether the call, which was led on the place, is the place's current one. Where the answer is yes, the call was current at some
/// time since the question began; where it is no, it is not current when the question ends.
pub fn ask_current<V: Fit>(
    words: &Words<V>,
    seat: &mut WordSeat<V>,
    actor: Actor,
    called: CallId,
) -> bool
    requires own { IsSeatOf seat.old.table_id words.now.table_id words.now.key }
    requires sizes { actor.sizes ≡ words.now.key }
    requires led { was_led_on (history_of actor.sizes seat.old.me.0.known.turns) actor.place called
        ≡ true }
    requires free { Sits actor.sizes actor.number seat.old.me.0 Free }
    ensures own { (seat.new.table_id ≡ seat.old.table_id) × (seat.new.me.1 ≡ seat.old.me.1) }
    ensures free { Goes actor.sizes actor.number seat.old.me.0 seat.new.me.0 Free [] 0 }
    ensures right { IsTrue result
        → WasCurrent actor.sizes actor.place called seat.old.me.0 seat.new.me.0 }
    ensures outdated { IsFalse result
        → current_call nat_eq (history_of actor.sizes seat.new.me.0.known.turns) actor.place
        ≢ Some called }
{
    if question_peek(words, seat, actor, called) {
        return false;
    }
    question_look(words, seat, actor, called)
}

/// The call that the place's key word names, if it names one and is not cleared. One that it names was led last on the
/// place, and where it names none, the place has no current call.
pub fn ask_named<V: Fit>(words: &Words<V>, seat: &mut WordSeat<V>, actor: Actor) -> Option<CallId>
    requires own { IsSeatOf seat.old.table_id words.now.table_id words.now.key }
    requires sizes { actor.sizes ≡ words.now.key }
    requires free { Sits actor.sizes actor.number seat.old.me.0 Free }
    ensures own { (seat.new.table_id ≡ seat.old.table_id) × (seat.new.me.1 ≡ seat.old.me.1) }
    ensures free { Goes actor.sizes actor.number seat.old.me.0 seat.new.me.0 Free [] 0 }
    ensures named { IsNamed (history_of actor.sizes seat.new.me.0.known.turns) actor.place result }
{
    let found = load_turns::<V, u32, Brand>(
        words,
        seat,
        key_index(actor.sizes, actor.place),
        actor.number,
        &actor.place,
    );
    let Some(word) = unpack_key(found) else {
        unreachable!()
    };
    named_by(word.state())
}
