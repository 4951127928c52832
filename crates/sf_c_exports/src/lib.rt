//! Singleflight with Forget for programs in other languages: a group by keys that grows. No call waits, takes a lock or starts a thread.
//!
//! A handle holds a session on the heap behind one pointer, or nothing, and so does a call. Each export takes what lies there out, makes its call, and puts
//! it back; one that is not open is answered by its code. What a call did is a row of `specs/Numbers`, between what was held before and after. A handle
//! and a call are told to be of one group by the seeds under which keys have names: no two groups have the same.
//!
//! A handle that a program in C gives twice to one call, against the duties of sflight.h, is refused.
#![tactic(auto)]

ghost use Rattle.std.specs.Prelude.{◌≡◌, ◌≢◌, ◌↔◌, ◌⊎◌, ◌+◌, ◌<◌, ◌≤◌, ℕ, true, false, length};
ghost use Rattle.std.specs.Bool.{OnTrue, OnFalse};
ghost use Rattle.sf_keyed_chain.specs.Chains.{AllHeard, IsGoneBefore};
ghost use Rattle.sf_keyed_chain.specs.Went.{IsCurrent, IsNotCurrent};
ghost use Rattle.sf_c_calls.specs.Rows.{HasMade, HasOpened, HasSplit, IsOne, IsSame, IsSameCall, is_idle};
ghost use Rattle.sf_c_exports.specs.Numbers.{HasAsked, HasForgot, HasForgotCall, HasLeft, HasLooked, HasSettled, IsSize};

mod call_handle;
mod call_slot;
mod codes;
mod handle;
mod loose;
mod slot;

pub use call_handle::CallHandle;
pub use call_slot::CallSlot;
pub use codes::{
    ALONE, BAD_NUMBER, BUSY, CLEARED, CROWDED, DONE, FULL, JOINED, LAST, LED, NO_MEMORY, NOT_OPEN,
    NOTHING, PENDING, TOLD, WRONG_STATE,
};
pub use handle::Handle;
use sf_c_calls::{Answered, Id, Leaving, Looking, Session, Settling, Size, id_of};
use sf_keyed::{Audience, Ended};
use sf_keyed_chain::{Forgotten, Stamp};
pub use slot::Slot;
use std::alloc::Global;

/// Opens a group whose first table has room for so many open calls, 1 to 1,048,576, with its first handle. Names of keys are under the two seeds.
#[unsafe(no_mangle)]
pub extern "C" fn sflight_open(
    slot: &mut Slot,
    alloc: Global,
    cells: u64,
    seed0: u64,
    seed1: u64,
) -> u32
    ensures opened { result ≡ DONE → (slot.old.live ≡ false) × (slot.new.live ≡ true)
        × HasOpened seed0 seed1 slot.new.handle.state }
    ensures refused { result ≢ DONE → slot.new ≡ slot.old }
    ensures sizes { result ≢ BAD_NUMBER ↔ IsSize cells }
    ensures twice { IsSize cells → (result ≡ WRONG_STATE ↔ slot.old.live ≡ true) }
    ensures codes { (result ≡ DONE) ⊎ (result ≡ BAD_NUMBER) ⊎ (result ≡ WRONG_STATE)
        ⊎ (result ≡ NO_MEMORY) }
{
    if cells < 1 || cells > 1_048_576 {
        return BAD_NUMBER;
    }
    if slot.live {
        return WRONG_STATE;
    }
    let Ok(session) = Session::open(alloc, cells, seed0, seed1) else {
        return NO_MEMORY;
    };
    let Ok(session) = Box::new(alloc, session) else {
        return NO_MEMORY;
    };
    slot.put(session);
    DONE
}

/// Another handle of the group, for another thread.
#[unsafe(no_mangle)]
pub extern "C" fn sflight_split(slot: &mut Slot, alloc: Global, other: &mut Slot) -> u32
    ensures kept { slot.new.live ≡ slot.old.live }
    ensures same { slot.old.live ≡ true → slot.new.handle.state ≡ slot.old.handle.state }
    ensures closed { result ≡ NOT_OPEN ↔ slot.old.live ≡ false }
    ensures made { result ≡ DONE → (other.old.live ≡ false) × (other.new.live ≡ true)
        × HasSplit slot.old.handle.state other.new.handle.state }
    ensures refused { result ≢ DONE → other.new ≡ other.old }
    ensures twice { slot.old.live ≡ true → (result ≡ WRONG_STATE ↔ other.old.live ≡ true) }
    ensures codes { (result ≡ DONE) ⊎ (result ≡ NOT_OPEN) ⊎ (result ≡ WRONG_STATE)
        ⊎ (result ≡ NO_MEMORY) }
{
    if slot.live && other.live {
        return WRONG_STATE;
    }
    let Some(mut session) = slot.take(alloc) else {
        return NOT_OPEN;
    };
    let made = session.split(alloc);
    slot.put(session);
    let Ok(made) = made else {
        return NO_MEMORY;
    };
    let Ok(made) = Box::new(alloc, made) else {
        return NO_MEMORY;
    };
    other.put(made);
    DONE
}

/// Closes the handle. The last handle or call of a group frees that.
#[unsafe(no_mangle)]
pub extern "C" fn sflight_close(slot: &mut Slot, alloc: Global)
    ensures { slot.new.live ≡ false }
{
    drop(slot.take(alloc));
}

/// A call of the handle's group, which is idle.
#[unsafe(no_mangle)]
pub extern "C" fn sflight_make(slot: &mut Slot, alloc: Global, call: &mut CallSlot) -> u32
    ensures kept { slot.new.live ≡ slot.old.live }
    ensures same { slot.old.live ≡ true → slot.new.handle.state ≡ slot.old.handle.state }
    ensures closed { result ≡ NOT_OPEN ↔ slot.old.live ≡ false }
    ensures made { result ≡ DONE → (call.old.live ≡ false) × (call.new.live ≡ true)
        × HasMade slot.old.handle.state call.new.handle.call }
    ensures refused { result ≢ DONE → call.new ≡ call.old }
    ensures twice { slot.old.live ≡ true → (result ≡ WRONG_STATE ↔ call.old.live ≡ true) }
    ensures codes { (result ≡ DONE) ⊎ (result ≡ NOT_OPEN) ⊎ (result ≡ WRONG_STATE)
        ⊎ (result ≡ NO_MEMORY) }
{
    if slot.live && call.live {
        return WRONG_STATE;
    }
    let Some(mut session) = slot.take(alloc) else {
        return NOT_OPEN;
    };
    let made = session.make();
    slot.put(session);
    let Ok(made) = made else {
        return NO_MEMORY;
    };
    let Ok(made) = Box::new(alloc, made) else {
        return NO_MEMORY;
    };
    call.put(made);
    DONE
}

/// Frees a call that is idle.
#[unsafe(no_mangle)]
pub extern "C" fn sflight_free(call: &mut CallSlot, alloc: Global) -> u32
    ensures closed { result ≡ NOT_OPEN ↔ call.old.live ≡ false }
    ensures wrong { call.old.live ≡ true → (result ≡ WRONG_STATE ↔ is_idle call.old.handle.call.token ≡ false) }
    ensures freed { result ≡ DONE → call.new.live ≡ false }
    ensures refused { result ≢ DONE → (call.new.live ≡ call.old.live) × (call.old.live ≡ true → call.new.handle.call ≡ call.old.handle.call) }
    ensures codes { (result ≡ DONE) ⊎ (result ≡ NOT_OPEN) ⊎ (result ≡ WRONG_STATE) }
{
    let Some(asking) = call.take(alloc) else {
        return NOT_OPEN;
    };
    if !asking.is_idle() {
        call.put(asking);
        return WRONG_STATE;
    }
    drop(asking);
    DONE
}

/// Asks for the key, by an idle call. Its name is written where the key's call is led or joined, and a leader's stamp too.
#[unsafe(no_mangle)]
pub extern "C" fn sflight_ask(
    slot: &mut Slot,
    alloc: Global,
    call: &mut CallSlot,
    key: &[u8],
    tries: u32,
    id: &mut Id,
    stamp: &mut Stamp,
) -> u32
    requires group { slot.old.live ≡ true → call.old.live ≡ true
        → IsOne slot.old.handle.state call.old.handle.call }
    ensures kept { (slot.new.live ≡ slot.old.live) × (call.new.live ≡ call.old.live) }
    ensures closed { result ≡ NOT_OPEN ↔ ((slot.old.live ≡ false) ⊎ (call.old.live ≡ false)) }
    ensures unchanged { result ≡ NOT_OPEN
        → (slot.old.live ≡ true → slot.new.handle.state ≡ slot.old.handle.state)
        × (call.old.live ≡ true → call.new.handle.call ≡ call.old.handle.call)
        × (id.new ≡ id.old) × (stamp.new ≡ stamp.old) }
    ensures same { slot.old.live ≡ true → call.old.live ≡ true
        → IsSame slot.old.handle.state slot.new.handle.state
        × IsSameCall call.old.handle.call call.new.handle.call }
    ensures row { slot.old.live ≡ true → call.old.live ≡ true
        → HasAsked slot.old.handle.state slot.new.handle.state call.old.handle.call
        call.new.handle.call key.now tries result id.old id.new stamp.old stamp.new }
{
    let Some(mut session) = slot.take(alloc) else {
        return NOT_OPEN;
    };
    let Some(mut asking) = call.take(alloc) else {
        slot.put(session);
        return NOT_OPEN;
    };
    let answered = session.ask(&mut asking, key, tries);
    slot.put(session);
    call.put(asking);
    match answered {
        Answered::Led(named, stamped) => {
            *id = named;
            *stamp = stamped;
            LED
        }
        Answered::Joined(named) => {
            *id = named;
            JOINED
        }
        Answered::Full => FULL,
        Answered::Crowded => CROWDED,
        Answered::Busy => BUSY,
        Answered::Wrong => WRONG_STATE,
    }
}

/// Settles the call that is led with the value, for good. Where the value is told, the audience is written, and the call is held.
#[unsafe(no_mangle)]
pub extern "C" fn sflight_settle(
    slot: &mut Slot,
    alloc: Global,
    call: &mut CallSlot,
    value: u64,
    audience: &mut Audience,
) -> u32
    requires group { slot.old.live ≡ true → call.old.live ≡ true
        → IsOne slot.old.handle.state call.old.handle.call }
    ensures kept { (slot.new.live ≡ slot.old.live) × (call.new.live ≡ call.old.live) }
    ensures closed { result ≡ NOT_OPEN ↔ ((slot.old.live ≡ false) ⊎ (call.old.live ≡ false)) }
    ensures unchanged { result ≡ NOT_OPEN
        → (slot.old.live ≡ true → slot.new.handle.state ≡ slot.old.handle.state)
        × (call.old.live ≡ true → call.new.handle.call ≡ call.old.handle.call)
        × (audience.new ≡ audience.old) }
    ensures same { slot.old.live ≡ true → call.old.live ≡ true
        → IsSame slot.old.handle.state slot.new.handle.state
        × IsSameCall call.old.handle.call call.new.handle.call }
    ensures row { slot.old.live ≡ true → call.old.live ≡ true
        → HasSettled slot.old.handle.state slot.new.handle.state call.old.handle.call
        call.new.handle.call value result audience.old audience.new }
{
    let Some(mut session) = slot.take(alloc) else {
        return NOT_OPEN;
    };
    let Some(mut asking) = call.take(alloc) else {
        slot.put(session);
        return NOT_OPEN;
    };
    let settled = session.settle(&mut asking, value);
    slot.put(session);
    call.put(asking);
    match settled {
        Settling::Alone => ALONE,
        Settling::Told(told) => {
            audience.holders = told.holders;
            audience.joined = told.joined;
            audience.forgotten = told.forgotten;
            TOLD
        }
        Settling::Wrong => WRONG_STATE,
    }
}

/// Looks whether the call that is held is settled. What with, is written then. The call is held still.
#[unsafe(no_mangle)]
pub extern "C" fn sflight_look(
    slot: &mut Slot,
    alloc: Global,
    call: &mut CallSlot,
    value: &mut u64,
) -> u32
    requires group { slot.old.live ≡ true → call.old.live ≡ true
        → IsOne slot.old.handle.state call.old.handle.call }
    ensures kept { (slot.new.live ≡ slot.old.live) × (call.new.live ≡ call.old.live) }
    ensures closed { result ≡ NOT_OPEN ↔ ((slot.old.live ≡ false) ⊎ (call.old.live ≡ false)) }
    ensures unchanged { result ≡ NOT_OPEN
        → (slot.old.live ≡ true → slot.new.handle.state ≡ slot.old.handle.state)
        × (value.new ≡ value.old) }
    ensures held { call.old.live ≡ true → call.new.handle.call ≡ call.old.handle.call }
    ensures same { slot.old.live ≡ true → IsSame slot.old.handle.state slot.new.handle.state }
    ensures row { slot.old.live ≡ true → call.old.live ≡ true
        → HasLooked slot.old.handle.state slot.new.handle.state call.old.handle.call result
        value.old value.new }
{
    let Some(mut session) = slot.take(alloc) else {
        return NOT_OPEN;
    };
    let Some(mut asking) = call.take(alloc) else {
        slot.put(session);
        return NOT_OPEN;
    };
    let looked = session.look(&mut asking);
    slot.put(session);
    call.put(asking);
    match looked {
        Looking::Settled(with) => {
            *value = with;
            DONE
        }
        Looking::Pending => PENDING,
        Looking::Wrong => WRONG_STATE,
    }
}

/// Leaves the call that is held, settled or not: it is idle then. Where it was the last holder of a settled call, what that was settled with is written.
#[unsafe(no_mangle)]
pub extern "C" fn sflight_leave(
    slot: &mut Slot,
    alloc: Global,
    call: &mut CallSlot,
    value: &mut u64,
) -> u32
    requires group { slot.old.live ≡ true → call.old.live ≡ true
        → IsOne slot.old.handle.state call.old.handle.call }
    ensures kept { (slot.new.live ≡ slot.old.live) × (call.new.live ≡ call.old.live) }
    ensures closed { result ≡ NOT_OPEN ↔ ((slot.old.live ≡ false) ⊎ (call.old.live ≡ false)) }
    ensures unchanged { result ≡ NOT_OPEN
        → (slot.old.live ≡ true → slot.new.handle.state ≡ slot.old.handle.state)
        × (call.old.live ≡ true → call.new.handle.call ≡ call.old.handle.call)
        × (value.new ≡ value.old) }
    ensures same { slot.old.live ≡ true → call.old.live ≡ true
        → IsSame slot.old.handle.state slot.new.handle.state
        × IsSameCall call.old.handle.call call.new.handle.call }
    ensures row { slot.old.live ≡ true → call.old.live ≡ true
        → HasLeft slot.old.handle.state slot.new.handle.state call.old.handle.call
        call.new.handle.call result value.old value.new }
{
    let Some(mut session) = slot.take(alloc) else {
        return NOT_OPEN;
    };
    let Some(mut asking) = call.take(alloc) else {
        slot.put(session);
        return NOT_OPEN;
    };
    let left = session.leave(&mut asking);
    slot.put(session);
    call.put(asking);
    match left {
        Leaving::Last(last) => {
            *value = last;
            LAST
        }
        Leaving::Left => DONE,
        Leaving::Wrong => WRONG_STATE,
    }
}

/// Forgets the key. The name of the call that this has closed is written.
#[unsafe(no_mangle)]
pub extern "C" fn sflight_forget(
    slot: &mut Slot,
    alloc: Global,
    key: &[u8],
    tries: u32,
    id: &mut Id,
) -> u32
    ensures kept { slot.new.live ≡ slot.old.live }
    ensures closed { result ≡ NOT_OPEN ↔ slot.old.live ≡ false }
    ensures unwritten { result ≡ NOT_OPEN → id.new ≡ id.old }
    ensures same { slot.old.live ≡ true → IsSame slot.old.handle.state slot.new.handle.state }
    ensures row { slot.old.live ≡ true
        → HasForgot slot.old.handle.state slot.new.handle.state key.now tries result id.old id.new }
{
    let Some(mut session) = slot.take(alloc) else {
        return NOT_OPEN;
    };
    let forgotten = session.forget(key, tries);
    slot.put(session);
    match forgotten {
        Forgotten::Closed(table, call) => {
            *id = id_of(table, call);
            DONE
        }
        Forgotten::Nothing(_) => NOTHING,
        Forgotten::Behind => BUSY,
        Forgotten::Busy => BUSY,
    }
}

/// Forgets one call of the key, and what it was settled with. Both are named as they were written when it was led.
#[unsafe(no_mangle)]
pub extern "C" fn sflight_forget_call(
    slot: &mut Slot,
    alloc: Global,
    key: &[u8],
    id: &Id,
    stamp: &Stamp,
    tries: u32,
) -> u32
    ensures kept { slot.new.live ≡ slot.old.live }
    ensures closed { result ≡ NOT_OPEN ↔ slot.old.live ≡ false }
    ensures same { slot.old.live ≡ true → IsSame slot.old.handle.state slot.new.handle.state }
    ensures row { slot.old.live ≡ true
        → HasForgotCall slot.old.handle.state slot.new.handle.state key.now id.now stamp.now
        tries result }
{
    let Some(mut session) = slot.take(alloc) else {
        return NOT_OPEN;
    };
    let ended = session.forget_call(key, *id, *stamp, tries);
    slot.put(session);
    match ended {
        Ended::Closed => DONE,
        Ended::Gone => CLEARED,
        Ended::Busy => BUSY,
    }
}

/// Whether no Forget has ended what has the stamp. The answer is no for a handle that is not open.
#[unsafe(no_mangle)]
pub extern "C" fn sflight_is_still(slot: &mut Slot, alloc: Global, stamp: &Stamp) -> bool
    ensures kept { slot.new.live ≡ slot.old.live }
    ensures closed { slot.old.live ≡ false → result ≡ false }
    ensures same { slot.old.live ≡ true → IsSame slot.old.handle.state slot.new.handle.state
        × AllHeard slot.old.handle.state.sights slot.new.handle.state.sights }
    ensures still { slot.old.live ≡ true
        → OnTrue result (IsCurrent stamp.now slot.new.handle.state.sights) }
    ensures over { slot.old.live ≡ true
        → OnFalse result (IsNotCurrent stamp.now slot.new.handle.state.sights) }
{
    let Some(mut session) = slot.take(alloc) else {
        return false;
    };
    let still = session.is_still(*stamp);
    slot.put(session);
    still
}

/// Makes room for more open calls, unless another handle has made it.
#[unsafe(no_mangle)]
pub extern "C" fn sflight_grow(slot: &mut Slot, alloc: Global) -> u32
    ensures kept { slot.new.live ≡ slot.old.live }
    ensures closed { result ≡ NOT_OPEN ↔ slot.old.live ≡ false }
    ensures same { slot.old.live ≡ true → IsSame slot.old.handle.state slot.new.handle.state
        × AllHeard slot.old.handle.state.sights slot.new.handle.state.sights }
    ensures grown { result ≡ DONE → length slot.new.handle.state.sights ≡ length slot.old.handle.state.sights + 1 }
    ensures refused { slot.old.live ≡ true → result ≢ DONE → slot.new.handle.state ≡ slot.old.handle.state }
    ensures full { result ≡ FULL → length slot.old.handle.state.sights ≡ length slot.old.handle.state.cells }
    ensures codes { (result ≡ DONE) ⊎ (result ≡ FULL) ⊎ (result ≡ NOT_OPEN) ⊎ (result ≡ NO_MEMORY) }
{
    let Some(mut session) = slot.take(alloc) else {
        return NOT_OPEN;
    };
    let grown = session.grow(alloc);
    slot.put(session);
    match grown {
        Ok(true) => DONE,
        Ok(false) => FULL,
        Err(_) => NO_MEMORY,
    }
}

/// How large the group is, as far as the handle knows.
#[unsafe(no_mangle)]
pub extern "C" fn sflight_measure(slot: &mut Slot, alloc: Global, size: &mut Size) -> u32
    ensures kept { slot.new.live ≡ slot.old.live }
    ensures closed { result ≡ NOT_OPEN ↔ slot.old.live ≡ false }
    ensures unwritten { result ≡ NOT_OPEN → size.new ≡ size.old }
    ensures same { slot.old.live ≡ true → slot.new.handle.state ≡ slot.old.handle.state }
    ensures tables { slot.old.live ≡ true
        → size.new.tables ≡ length slot.old.handle.state.sights }
    ensures passed { slot.old.live ≡ true
        → (k : ℕ) → IsGoneBefore k size.new.passed slot.old.handle.state.sights }
    ensures cells { slot.old.live ≡ true → IsSize size.new.cells }
    ensures codes { (result ≡ DONE) ⊎ (result ≡ NOT_OPEN) }
{
    let Some(session) = slot.take(alloc) else {
        return NOT_OPEN;
    };
    *size = session.size();
    slot.put(session);
    DONE
}
