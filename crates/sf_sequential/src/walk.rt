//! What a history says, found by walking its events: each answer is the definition's, in time linear in the history.

ghost use Rattle.std.specs.Prelude.{◌≡◌, ◌≢◌, ◌+◌, ◌^◌, ◌<◌, None, IfSome};
ghost use Rattle.sf_history.specs.Calls.{same_call};
ghost use Rattle.sf_history.specs.History.{holds_call, uses_member, opens, open_call, keeps_current, current_call, enters, joined};
ghost use Rattle.sf_history.specs.History.{hands, is_handed, uses, next_generation};
ghost use Rattle.sf_sequential.specs.Sequential.{hit_of};
ghost use Rattle.sf_sequential.specs.State.{own_ticket, has_taken, leaves_led, led_call, leaves_ticket, last_ticket};

use crate::ticket::Ticket;
use sf_history::{CallId, Event, Hit};

/// Whether the option is this call.
pub fn is_call(found: Option<CallId>, call: CallId) -> bool
    ensures { result ≡ holds_call found call }
{
    match found {
        Some(other) => other == call,
        None => false,
    }
}

fn opened<K: Eq, V>(found: Option<CallId>, event: &Event<K, V>, key: &K) -> Option<CallId>
    ensures { result ≡ opens K.eq key.now found event.now }
{
    match event {
        Event::Lead { key: led, call, .. } if led == key => Some(*call),
        Event::Forget { key: forgotten, .. } if forgotten == key => None,
        Event::ForgetCall {
            key: forgotten,
            hit: Hit::Closed,
            ..
        } if forgotten == key => None,
        Event::Settle { call, .. } if is_call(found, *call) => None,
        _ => found,
    }
}

/// The key's open call.
pub fn open_call<K: Eq, V>(events: &[Event<K, V>], key: &K) -> Option<CallId>
    ensures { result ≡ open_call K.eq events.now key.now }
{
    events
        .iter()
        .fold(None, |found, event| opened(found, event, key))
}

fn kept_current<K: Eq, V>(found: Option<CallId>, event: &Event<K, V>, key: &K) -> Option<CallId>
    ensures { result ≡ keeps_current K.eq key.now found event.now }
{
    match event {
        Event::Lead { key: led, call, .. } if led == key => Some(*call),
        Event::Forget { key: ended, .. } if ended == key => None,
        Event::ForgetCall {
            key: ended,
            hit: Hit::Closed | Hit::Cleared,
            ..
        } if ended == key => None,
        _ => found,
    }
}

/// The key's current call.
pub fn current_call<K: Eq, V>(events: &[Event<K, V>], key: &K) -> Option<CallId>
    ensures { result ≡ current_call K.eq events.now key.now }
{
    events
        .iter()
        .fold(None, |found, event| kept_current(found, event, key))
}

/// Whether the call is the key's current one.
pub(crate) fn is_current<K: Eq, V>(events: &[Event<K, V>], key: &K, call: CallId) -> bool
    ensures { result ≡ holds_call (current_call K.eq events.now key.now) call }
{
    is_call(current_call(events, key), call)
}

/// What a Forget of the call finds.
pub fn hit<K: Eq, V>(events: &[Event<K, V>], key: &K, call: CallId) -> Hit
    ensures { result ≡ hit_of (open_call K.eq events.now key.now)
        (current_call K.eq events.now key.now) call }
{
    if is_call(open_call(events, key), call) {
        Hit::Closed
    } else if is_current(events, key, call) {
        Hit::Cleared
    } else {
        Hit::Missed
    }
}

fn enters_call<K, V>(event: &Event<K, V>, entered: CallId) -> bool
    ensures { result ≡ enters entered event.now }
{
    match event {
        Event::Enter { call, .. } => *call == entered,
        _ => false,
    }
}

/// How many joined the call; its own channel does not count.
pub fn joined<K, V>(events: &[Event<K, V>], call: CallId) -> usize
    ensures { result ≡ joined events.now call }
{
    events
        .iter()
        .filter(|event| enters_call(event, call))
        .count()
}

fn hands_call<K, V>(event: &Event<K, V>, handed: CallId) -> bool
    ensures { result ≡ hands handed event.now }
{
    match event {
        Event::Handed { call, .. } => *call == handed,
        _ => false,
    }
}

/// Whether each letter that the call owed is in its owner's cell.
pub fn is_handed<K, V>(events: &[Event<K, V>], call: CallId) -> bool
    ensures { result ≡ is_handed events.now call }
{
    events.iter().any(|event| hands_call(event, call))
}

fn left_led<K, V>(found: Option<CallId>, event: &Event<K, V>, caller: u32) -> Option<CallId>
    ensures { result ≡ leaves_led caller found event.now }
{
    match event {
        Event::Lead { by, call, .. } if *by == caller => Some(*call),
        Event::Settle { call, .. } if is_call(found, *call) => None,
        _ => found,
    }
}

/// The call that the caller leads.
pub(crate) fn led_call<K, V>(events: &[Event<K, V>], caller: u32) -> Option<CallId>
    ensures { result ≡ led_call events.now caller }
{
    events
        .iter()
        .fold(None, |found, event| left_led(found, event, caller))
}

fn left_ticket<K, V>(found: Option<Ticket>, event: &Event<K, V>, caller: u32) -> Option<Ticket>
    ensures { result ≡ leaves_ticket caller found event.now }
{
    match event {
        Event::Lead {
            call,
            own: Some(member),
            ..
        }
        | Event::Enter { call, member, .. }
            if member.caller == caller => {
            Some(Ticket {
                call: *call,
                member: *member,
            })
        }
        _ => found,
    }
}

/// The ticket that the caller got last.
pub(crate) fn last_ticket<K, V>(events: &[Event<K, V>], caller: u32) -> Option<Ticket>
    ensures { result ≡ last_ticket events.now caller }
{
    events
        .iter()
        .fold(None, |found, event| left_ticket(found, event, caller))
}

/// Whether the member took its letter.
pub(crate) fn has_taken(taken: &[CallId], member: CallId) -> bool
    ensures { result ≡ has_taken taken.now member }
{
    taken.iter().any(|taken| *taken == member)
}

fn uses_one(member: &Option<CallId>, caller: u32) -> u64
    ensures { result ≡ uses_member caller member.now }
{
    match member {
        Some(member) if member.caller == caller => 1,
        _ => 0,
    }
}

fn used<K, V>(event: &Event<K, V>, caller: u32) -> u64
    ensures { result ≡ uses caller event.now }
{
    match event {
        Event::Lead { call, own, .. } => u64::from(call.caller == caller) + uses_one(own, caller),
        Event::Enter { member, .. } => u64::from(member.caller == caller),
        _ => 0,
    }
}

/// The generation that the caller uses next.
pub(crate) fn next_generation<K, V>(first: u32, events: &[Event<K, V>], caller: u32) -> u64
    requires { next_generation first events.now caller < 2 ^ 64 }
    ensures { result ≡ next_generation first events.now caller }
{
    u64::from(first) + events.iter().map(|event| used(event, caller)).sum::<u64>()
}
