//! What an event says.

ghost use Rattle.std.specs.Prelude.{◌≡◌, option_map};
ghost use Rattle.sf_verdicts.specs.Says.{call_in, caller_in, key_in};

use sf_history::{CallId, Event};

/// The call that an event is of: that which it leads, enters, closes, ends or hands out.
pub fn call_of<K, V>(event: &Event<K, V>) -> Option<CallId>
    ensures { result ≡ call_in event.now }
{
    match event {
        Event::Forget { closed, .. } => *closed,
        Event::Lead { call, .. }
        | Event::Enter { call, .. }
        | Event::ForgetCall { call, .. }
        | Event::Settle { call, .. }
        | Event::Handed { call, .. } => Some(*call),
    }
}

/// The key of an event, if it says one.
pub fn key_of<K, V>(event: &Event<K, V>) -> Option<&K>
    ensures { option_map (λ key. key.now) result ≡ key_in event.now }
{
    match event {
        Event::Lead { key, .. }
        | Event::Enter { key, .. }
        | Event::Forget { key, .. }
        | Event::ForgetCall { key, .. } => Some(key),
        _ => None,
    }
}

/// The caller that made an event.
pub fn caller_of<K, V>(event: &Event<K, V>) -> u32
    ensures { result ≡ caller_in event.now }
{
    match event {
        Event::Lead { by, .. }
        | Event::Enter { by, .. }
        | Event::Forget { by, .. }
        | Event::ForgetCall { by, .. }
        | Event::Settle { by, .. }
        | Event::Handed { by, .. } => *by,
    }
}
