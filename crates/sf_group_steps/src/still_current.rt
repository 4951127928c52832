//! The question whether a call, whichever numbers it has, is its place's current one. Its two loads are no turns, so each seat
//! may ask, whatever its caller does.
ghost use Rattle.std.specs.Prelude.{◌≡◌, ◌≢◌, nat_eq, [], Some, IsTrue, IsFalse};
ghost use Rattle.sf_history.specs.History.{current_call};
ghost use Rattle.sf_steps_laws.specs.Schedules.{IsCaller, IsPlace, IsSchedule};
ghost use Rattle.sf_group_rows.specs.Currents.{WasCurrent};
ghost use Rattle.sf_group_steps.specs.View.{setting_of, history_of};
ghost use Rattle.sf_group_steps.specs.Stands.{IsSeatOf};
ghost use Rattle.sf_group_steps.specs.StillCurrents.{HasFoundForgot, HasFoundNamed, Stays};

use crate::asking::is_forgot;
use crate::numbering::{call_index, key_index};
use crate::questions::names;
use crate::rule::{WordSeat, Words};
use crate::steps::load_turns;
use sf_group_rows::{Fit, Sizes};
use sf_history::CallId;
use sf_words::{unpack_call, unpack_key};
use std::marker::Brand;

// Loads the call word of the call's caller, and says whether a Forget closed the call.
fn find_forgot<V: Fit>(
    words: &Words<V>,
    seat: &mut WordSeat<V>,
    sizes: Sizes,
    called: CallId,
) -> bool
    requires own { IsSeatOf seat.old.table_id words.now.table_id words.now.key }
    requires sizes { (sizes ≡ words.now.key) × (seat.old.me.0.sizes ≡ Some sizes) }
    requires cells { seat.old.me.0.cells ≡ [] }
    requires called { IsCaller (setting_of sizes) called.caller }
    ensures own { (seat.new.table_id ≡ seat.old.table_id) × (seat.new.me.1 ≡ seat.old.me.1) }
    ensures found { HasFoundForgot sizes called seat.old.me.0 seat.new.me.0 result }
{
    let found = load_turns::<V, CallId, Brand>(
        words,
        seat,
        call_index(sizes, called.caller),
        called.caller,
        &called,
    );
    let Some(word) = unpack_call(found) else {
        unreachable!()
    };
    is_forgot(word.state(), called.generation)
}

// Loads the key word of the place, and says whether it names the call.
fn find_named<V: Fit>(
    words: &Words<V>,
    seat: &mut WordSeat<V>,
    sizes: Sizes,
    place: u32,
    called: CallId,
) -> bool
    requires own { IsSeatOf seat.old.table_id words.now.table_id words.now.key }
    requires sizes { (sizes ≡ words.now.key) × (seat.old.me.0.sizes ≡ Some sizes) }
    requires cells { seat.old.me.0.cells ≡ [] }
    requires place { IsPlace (setting_of sizes) place }
    ensures own { (seat.new.table_id ≡ seat.old.table_id) × (seat.new.me.1 ≡ seat.old.me.1) }
    ensures found { HasFoundNamed sizes place called seat.old.me.0 seat.new.me.0 result }
{
    let found = load_turns::<V, u32, Brand>(words, seat, key_index(sizes, place), place, &place);
    let Some(word) = unpack_key(found) else {
        unreachable!()
    };
    names(word.state(), called)
}

/// Whether the call, whichever it is, is the place's current one. Where the answer is yes, the call was current at some time since
/// the question began; where it is no, it is not current when the question ends.
pub fn is_still_current<V: Fit>(
    words: &Words<V>,
    seat: &mut WordSeat<V>,
    sizes: Sizes,
    place: u32,
    called: CallId,
) -> bool
    requires own { IsSeatOf seat.old.table_id words.now.table_id words.now.key }
    requires sizes { (sizes ≡ words.now.key) × (seat.old.me.0.sizes ≡ Some sizes) }
    requires cells { seat.old.me.0.cells ≡ [] }
    requires schedule { IsSchedule (setting_of sizes) seat.old.me.0.known.turns }
    requires place { IsPlace (setting_of sizes) place }
    ensures own { (seat.new.table_id ≡ seat.old.table_id) × (seat.new.me.1 ≡ seat.old.me.1) }
    ensures stays { Stays sizes seat.old.me.0 seat.new.me.0 }
    ensures right { IsTrue result
        → WasCurrent place called (history_of sizes seat.old.me.0.known.turns)
        (history_of sizes seat.old.me.0.known.turns)
        (history_of sizes seat.new.me.0.known.turns) }
    ensures outdated { IsFalse result
        → current_call nat_eq (history_of sizes seat.new.me.0.known.turns) place ≢ Some called }
{
    // No caller of another number leads a call.
    if called.caller < 1 || called.caller > sizes.callers {
        return false;
    }
    if find_forgot(words, seat, sizes, called) {
        return false;
    }
    find_named(words, seat, sizes, place, called)
}
