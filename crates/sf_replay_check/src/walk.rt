//! Events that are asked by a walk over all of them, with no memory.

ghost use Rattle.std.specs.Prelude.{◌≡◌};
ghost use Rattle.sf_history.specs.Calls.{same_call};
ghost use Rattle.sf_history.specs.History.{holds_call, names, leads, was_led, settles, is_settled};
ghost use Rattle.sf_replay_check.specs.Checker.{is_named, begins, has_begun};

use crate::past::Past;
use sf_history::{CallId, Event};
use sf_sequential::walk::{self, is_call};

fn names_call<K, V>(event: &Event<K, V>, named: CallId) -> bool
    ensures { result ≡ names named event.now }
{
    match event {
        Event::Lead { call, own, .. } => *call == named || is_call(*own, named),
        Event::Enter { call, member, .. } => *call == named || *member == named,
        _ => false,
    }
}

// Whether some lead or enter names it.
fn is_named<K, V>(events: &[Event<K, V>], named: CallId) -> bool
    ensures { result ≡ is_named events.now named }
{
    events.iter().any(|event| names_call(event, named))
}

fn begins_call<K, V>(event: &Event<K, V>, begun: CallId) -> bool
    ensures { result ≡ begins begun event.now }
{
    match event {
        Event::Lead { call, .. } => *call == begun,
        _ => false,
    }
}

// Whether anyone led the call.
fn has_begun<K, V>(events: &[Event<K, V>], call: CallId) -> bool
    ensures { result ≡ has_begun events.now call }
{
    events.iter().any(|event| begins_call(event, call))
}

fn leads_call<K, V>(event: &Event<K, V>, caller: u32, led: CallId) -> bool
    ensures { result ≡ leads caller led event.now }
{
    match event {
        Event::Lead { by, call, .. } => *by == caller && *call == led,
        _ => false,
    }
}

// Whether the caller led the call.
fn was_led<K, V>(events: &[Event<K, V>], caller: u32, call: CallId) -> bool
    ensures { result ≡ was_led events.now caller call }
{
    events.iter().any(|event| leads_call(event, caller, call))
}

fn settles_call<K, V>(event: &Event<K, V>, settled: CallId) -> bool
    ensures { result ≡ settles settled event.now }
{
    match event {
        Event::Settle { call, .. } => *call == settled,
        _ => false,
    }
}

// Whether the call is settled.
fn is_settled<K, V>(events: &[Event<K, V>], call: CallId) -> bool
    ensures { result ≡ is_settled events.now call }
{
    events.iter().any(|event| settles_call(event, call))
}

impl<'a, K: Eq, V> Past<'a, K> for &'a [Event<K, V>] {
    ghost use Rattle.sf_replay_check.specs.Checker.{known_by};

    ghost known = { λ p. known_by K.eq p.now };

    fn is_named(&self, id: CallId) -> bool {
        is_named(*self, id)
    }

    fn has_begun(&self, call: CallId) -> bool {
        has_begun(*self, call)
    }

    fn was_led(&self, caller: u32, call: CallId) -> bool {
        was_led(*self, caller, call)
    }

    fn is_settled(&self, call: CallId) -> bool {
        is_settled(*self, call)
    }

    fn joined(&self, call: CallId) -> usize {
        walk::joined(*self, call)
    }

    fn is_handed(&self, call: CallId) -> bool {
        walk::is_handed(*self, call)
    }

    fn current_call(&self, key: &'a K) -> Option<CallId> {
        walk::current_call(*self, key)
    }

    fn open_call(&self, key: &'a K) -> Option<CallId> {
        walk::open_call(*self, key)
    }
}
