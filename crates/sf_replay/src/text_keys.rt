//! Histories over places, with texts as keys, as records have them.

ghost use Rattle.std.specs.Prelude.{◌≡◌, IfOk, decimal};
ghost use Rattle.sf_replay.specs.TextKeys as keyed;

use sf_history::{Event, History, Memory};
use sf_text::Text;
use sf_words::PlaceNo;
use std::alloc::Global;

// The key of a place in records: its number in decimals.
fn key_text(alloc: Global, place: PlaceNo) -> Result<Text, Memory>
    ensures { IfOk result (λ text. text ≡ decimal place) }
{
    Ok(Text::from_string(format!(in alloc; "{place}")?))
}

// The event, with a text as its key.
fn with_text_key<V: Drop>(alloc: Global, event: Event<PlaceNo, V>) -> Result<Event<Text, V>, Memory>
    ensures { IfOk result (λ same. same ≡ keyed.with_text_key event) }
{
    Ok(match event {
        Event::Lead { by, key, call, own } => Event::Lead {
            by,
            key: key_text(alloc, key)?,
            call,
            own,
        },
        Event::Enter {
            by,
            key,
            call,
            member,
        } => Event::Enter {
            by,
            key: key_text(alloc, key)?,
            call,
            member,
        },
        Event::Forget { by, key, closed } => Event::Forget {
            by,
            key: key_text(alloc, key)?,
            closed,
        },
        Event::ForgetCall { by, key, call, hit } => Event::ForgetCall {
            by,
            key: key_text(alloc, key)?,
            call,
            hit,
        },
        Event::Settle {
            by,
            call,
            result,
            joiners,
        } => Event::Settle {
            by,
            call,
            result,
            joiners,
        },
        Event::Handed { by, call } => Event::Handed { by, call },
    })
}

/// The history of these events, oldest first, where the key of a place is its number in decimals.
pub fn with_text_keys<V: Drop>(
    alloc: Global,
    events: Vec<Event<PlaceNo, V>>,
) -> Result<History<Text, V>, Memory>
    ensures { IfOk result (λ history. history ≡ keyed.with_text_keys events.items) }
{
    let mut keyed = Vec::new(alloc);
    for event in events {
        keyed.push(with_text_key(alloc, event)?)?;
    }
    Ok(History::from_vec(keyed))
}
