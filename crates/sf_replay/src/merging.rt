//! Logs of callers, merged into one history.
//!
//! Each log keeps the order of its own caller's events alone, so a merged history keeps no order in time. It goes by
//! keys in their order. Of each key come first the forgets that closed nothing, or missed their call, and then its calls,
//! by caller and generation: the lead, the enters by their members, the forgets that closed the call, the settle, the
//! handed, the forgets that cleared it. What is of a call that nobody led comes last.

ghost use Rattle.std.specs.Prelude.{◌≡◌, IfOk, IsPermutation, IsSortedByKey, map, filter_map};
ghost use Rattle.std.specs.Prelude.{length, option_map, vec_len};
ghost use Rattle.std.specs.BTreeMap.{get_by};
ghost use Rattle.std.specs.Option.{option_copied};
ghost use Rattle.sf_replay.specs.Entered.{compare_call};
ghost use Rattle.sf_replay.specs.Merged.{events_of_logs, key_of_call, own_key as key_held, place_among};
ghost use Rattle.sf_replay.specs.Merged.{idle_standing as idle_standing_by, part_standing as part_standing_by};
ghost use Rattle.sf_replay.specs.Merged.{standing_by, standing_cmp, standing_of as standing_in};

use sf_history::{CallId, Event, History, Hit, Memory};
use std::alloc::Global;
use std::collections::BTreeMap;

/// What an event is of its call, in the order in which they stand.
#[derive(Clone, Copy, PartialEq, Eq, PartialOrd, Ord)]
pub(crate) enum Part {
    Lead,
    Enter,
    Forget,
    Settle,
    Handed,
    Cleared,
}

/// Where an event stands in a merged history: its fields, compared in their order.
#[derive(Clone, Copy, PartialEq, Eq, PartialOrd, Ord)]
pub(crate) struct Standing {
    /// Whether it is of a call that nobody led.
    unled: bool,
    /// How many keys come before its key; 0 where nobody led the call.
    key: usize,
    /// Whether it is of a call, and no forget that closed nothing or missed its call.
    of_call: bool,
    /// The call's caller, or the one that made a forget that closed nothing or missed its call.
    caller: u32,
    generation: u32,
    part: Part,
    member_caller: u32,
    member_generation: u32,
}

// An event with where it stands.
#[derive(Drop)]
struct Placed<K, V> {
    standing: Standing,
    event: Event<K, V>,
}

// The events of all logs, one log after the other.
fn in_one<K: Drop, V: Drop>(
    alloc: Global,
    logs: Vec<Vec<Event<K, V>>>,
) -> Result<Vec<Event<K, V>>, Memory>
    ensures { IfOk result (λ events. events.items ≡ events_of_logs logs.items) }
{
    let mut events = Vec::new(alloc);
    for log in logs {
        let mut log = log;
        events.append(&mut log)?;
    }
    Ok(events)
}

// The key of a lead, or of a forget that closed nothing or missed its call.
fn own_key<K, V>(event: &Event<K, V>) -> Option<&K>
    ensures { option_copied result ≡ key_held event.now }
{
    match event {
        Event::Lead { key, .. } => Some(key),
        Event::Forget {
            key,
            closed: None,
            ..
        } => Some(key),
        Event::ForgetCall {
            key,
            hit: Hit::Missed,
            ..
        } => Some(key),
        _ => None,
    }
}

// The keys of the leads, and of the forgets that closed nothing or missed their calls, in their order.
fn keys_in_order<'a, K: Ord, V>(
    alloc: Global,
    events: &'a [Event<K, V>],
) -> Result<Vec<&'a K>, Memory>
    ensures sorted { IfOk result (λ keys. IsSortedByKey (λ k. k.now) K.cmp keys.items) }
    ensures all { IfOk result (λ keys.
        IsPermutation (filter_map key_held events.now) (map (λ k. k.now) keys.items)) }
{
    let mut keys = Vec::new(alloc);
    for event in events {
        if let Some(key) = own_key(event) {
            keys.push(key)?;
        }
    }
    keys.sort()?;
    Ok(keys)
}

// How many of the keys come before the key.
fn place_of<K: Ord>(keys: &[&K], key: &K) -> usize
    requires { IsSortedByKey (λ k. k.now) K.cmp keys.now }
    ensures { result ≡ place_among K.cmp (map (λ k. k.now) keys.now) key.now }
{
    keys.partition_point(|other| (*other).cmp(key).is_lt())
}

// For each call that was led the place of its key, which is that of its first lead.
fn places_of_calls<K: Ord, V>(
    alloc: Global,
    keys: &[&K],
    events: &[Event<K, V>],
) -> Result<BTreeMap<(u32, u32), usize>, Memory>
    requires { IsSortedByKey (λ k. k.now) K.cmp keys.now }
    ensures { IfOk result (λ calls. (c : CallId) → get_by (compare_call c) calls
        ≡ option_map (place_among K.cmp (map (λ k. k.now) keys.now)) (key_of_call events.now c)) }
{
    let mut calls = BTreeMap::new(alloc);
    for event in events {
        if let Event::Lead { key, call, .. } = event {
            let name = (call.caller, call.generation);
            if calls.get(&name).is_none() {
                calls.insert(name, place_of(keys, key))?;
            }
        }
    }
    Ok(calls)
}

// Where a part of a call stands, by the places of the calls' keys; `member` is that of an enter, and `by` who made it.
fn part_standing(
    calls: &BTreeMap<(u32, u32), usize>,
    by: u32,
    call: CallId,
    part: Part,
    member: CallId,
) -> Standing
    ensures { result ≡ part_standing_by (get_by (compare_call call) calls.now) by call part member }
{
    match calls.get(&(call.caller, call.generation)) {
        Some(key) => Standing {
            unled: false,
            key: *key,
            of_call: true,
            caller: call.caller,
            generation: call.generation,
            part,
            member_caller: member.caller,
            member_generation: member.generation,
        },
        None => idle_standing(true, 0, by),
    }
}

// Where an event stands that is of no call, or of one that nobody led.
fn idle_standing(unled: bool, key: usize, by: u32) -> Standing
    ensures { result ≡ idle_standing_by unled key by }
{
    Standing {
        unled,
        key,
        of_call: false,
        caller: by,
        generation: 0,
        part: Part::Lead,
        member_caller: 0,
        member_generation: 0,
    }
}

// Where an event stands, by the keys in their order and the places of the calls' keys.
fn standing_of<K: Ord, V>(
    keys: &[&K],
    calls: &BTreeMap<(u32, u32), usize>,
    event: &Event<K, V>,
) -> Standing
    requires { IsSortedByKey (λ k. k.now) K.cmp keys.now }
    ensures { result ≡ standing_by (place_among K.cmp (map (λ k. k.now) keys.now))
        (λ c. get_by (compare_call c) calls.now) event.now }
{
    match event {
        Event::Lead { by, call, .. } => part_standing(calls, *by, *call, Part::Lead, *call),
        Event::Enter {
            by,
            call,
            member,
            ..
        } => part_standing(calls, *by, *call, Part::Enter, *member),
        Event::Forget { by, key, closed } => match closed {
            Some(call) => part_standing(calls, *by, *call, Part::Forget, *call),
            None => idle_standing(false, place_of(keys, key), *by),
        },
        Event::ForgetCall { by, key, call, hit } => match hit {
            Hit::Closed => part_standing(calls, *by, *call, Part::Forget, *call),
            Hit::Cleared => part_standing(calls, *by, *call, Part::Cleared, *call),
            Hit::Missed => idle_standing(false, place_of(keys, key), *by),
        },
        Event::Settle { by, call, .. } => part_standing(calls, *by, *call, Part::Settle, *call),
        Event::Handed { by, call } => part_standing(calls, *by, *call, Part::Handed, *call),
    }
}

/// Where each event stands.
pub(crate) fn standings<K: Ord, V>(
    alloc: Global,
    events: &[Event<K, V>],
) -> Result<Vec<Standing>, Memory>
    ensures { IfOk result (λ standings.
        standings.items ≡ map (standing_in K.cmp events.now) events.now) }
{
    let keys = keys_in_order(alloc, events)?;
    let calls = places_of_calls(alloc, keys.as_slice(), events)?;
    let mut standings = Vec::with_capacity(alloc, events.len())?;
    for event in events {
        standings.push(standing_of(keys.as_slice(), &calls, event))?;
    }
    Ok(standings)
}

// The events, each with its standing.
fn with_standings<K: Drop, V: Drop>(
    alloc: Global,
    standings: &[Standing],
    events: Vec<Event<K, V>>,
) -> Result<Vec<Placed<K, V>>, Memory>
    requires { length standings.now ≡ vec_len events }
    ensures events { IfOk result (λ placed. map (λ p. p.event) placed.items ≡ events.items) }
    ensures standings { IfOk result (λ placed. map (λ p. p.standing) placed.items ≡ standings.now) }
{
    let mut placed = Vec::new(alloc);
    for event in events {
        let standing = standings[placed.len()];
        placed.push(Placed { standing, event })?;
    }
    Ok(placed)
}

// The events alone.
fn without_standings<K: Drop, V: Drop>(
    alloc: Global,
    placed: Vec<Placed<K, V>>,
) -> Result<Vec<Event<K, V>>, Memory>
    ensures { IfOk result (λ events. events.items ≡ map (λ p. p.event) placed.items) }
{
    let mut events = Vec::new(alloc);
    for Placed { event, .. } in placed {
        events.push(event)?;
    }
    Ok(events)
}

/// One history of the logs, one log a caller. It keeps no order in time; each event of each log stands in it once, and
/// nothing else does, in the order of their standings. The logs are taken by value. Its time is that of a sort.
pub fn merge<K: Ord + Drop, V: Drop>(
    alloc: Global,
    logs: Vec<Vec<Event<K, V>>>,
) -> Result<History<K, V>, Memory>
    ensures once { IfOk result (λ merged. IsPermutation (events_of_logs logs.items) merged) }
    ensures sorted { IfOk result (λ merged.
        IsSortedByKey (standing_in K.cmp (events_of_logs logs.items)) standing_cmp merged) }
{
    let events = in_one(alloc, logs)?;
    let standings = standings(alloc, events.as_slice())?;
    let mut placed = with_standings(alloc, standings.as_slice(), events)?;
    placed.sort_by_key(|one| one.standing)?;
    Ok(History::from_vec(without_standings(alloc, placed)?))
}
