//! The events of one step.

ghost use Rattle.std.specs.Prelude.{◌≡◌, ◌≤◌, [], ◌∷◌, IfOk};
ghost use Rattle.std.specs.Vec.{vec_capacity};
ghost use Rattle.sf_words.specs.declared.limits.TheConstants.{LARGEST_PLACE};

use sf_history::{Event, Memory};
use sf_words::PlaceNo;
use std::alloc::Global;

// The most events that a step adds.
const MOST_EVENTS: usize = 2;

/// No event, and room for those of a step.
pub(crate) fn room_for_events<V: Drop>(alloc: Global) -> Result<Vec<Event<PlaceNo, V>>, Memory>
    ensures { IfOk result (λ room. (room.items ≡ []) × (2 ≤ vec_capacity room)) }
{
    let mut room = Vec::new(alloc);
    room.reserve(MOST_EVENTS)?;
    Ok(room)
}

/// The event, as the only one of its step.
pub(crate) fn one_event<V: Drop>(
    room: Vec<Event<PlaceNo, V>>,
    event: Event<PlaceNo, V>,
) -> Vec<Event<PlaceNo, V>>
    requires empty { room.items ≡ [] }
    requires room { 2 ≤ vec_capacity room }
    ensures { result.items ≡ event ∷ [] }
{
    let mut events = room;
    events.push(event).unwrap();
    events
}

/// The key of a place in events.
pub(crate) fn key_of(place: u32) -> PlaceNo
    requires { (1 ≤ place) × (place ≤ LARGEST_PLACE) }
    ensures { result ≡ place }
{
    PlaceNo::from_index(place as usize - 1)
}
