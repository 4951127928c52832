//! One record: the event that a JSON object says, in its format.

ghost use Rattle.std.specs.Prelude.{◌≡◌, ◌≤◌, IfOk, option_map};
ghost use Rattle.serde_json.specs.Find.{as_str, as_bool};
ghost use Rattle.serde_json.specs.View.{view};
ghost use Rattle.sf_replay.specs.Record.{number_in, whole_in, interval_in, time_in, names_of_time, lost_in, timed_event_in, count_in, caller_in, call_in, option_in, key_in, hit_in, field, has_names, count_of_mark, joiners_in};
ghost use Rattle.sf_replay.specs.Entered.{entered_in};
ghost use Rattle.sf_replay.specs.Record.{lead_in, enter_in, forget_in, forget_call_in, forget_call_of, result_in, settle_in, handed_in, event_of_kind, plain_format_in, timed_format_in, format_in};

use crate::entered::Entered;
use serde_json::Value;
use sf_history::{CallId, Event, Hit, Memory};
use sf_text::{Outcome, Text};
use sf_words::{LARGEST_CALLER, LARGEST_GENERATION, LONGEST_KEY};
use std::alloc::Global;

/// An event whose key is a text, settled with a text or with an error's.
pub type TextEvent = Event<Text, Outcome>;

/// The first format of records, whose settles have a mark in place of how many joined.
pub(crate) const FIRST_FORMAT: u32 = 1;

// The first format of records that has Forgets of one call.
const FORGET_CALL_FORMAT: u32 = 3;

// The newest format of records that has no times, which is written where there are none.
const PLAIN_FORMAT: u32 = 3;

/// The first format of records that has times, and says how many events were lost.
pub(crate) const TIMED_FORMAT: u32 = 4;

/// When an event took effect: at a moment between two readings of one clock, in nanoseconds, with `from` at most `to`.
#[derive(Clone, Copy, Debug, PartialEq, Eq)]
pub struct Interval {
    /// The reading before the operation that made the event.
    pub from: u64,
    /// The reading after it.
    pub to: u64,
}

fn number(value: &Value, max: u32) -> Option<u32>
    ensures { result ≡ number_in max (view value.now) }
{
    match value.as_u64() {
        Some(n) if 0 < n && n <= u64::from(max) => Some(n as u32),
        _ => None,
    }
}

fn count(value: &Value) -> Option<u32>
    ensures { result ≡ count_in (view value.now) }
{
    match value.as_u64() {
        Some(n) if n <= u64::from(u32::MAX) => Some(n as u32),
        _ => None,
    }
}

fn whole(value: &Value) -> Option<u64>
    ensures { result ≡ whole_in (view value.now) }
{
    value.as_u64()
}

fn call(value: &Value) -> Option<CallId>
    ensures { result ≡ call_in (view value.now) }
{
    match value.as_array()?.as_slice() {
        [caller, generation] => {
            Some(CallId {
                caller: number(caller, LARGEST_CALLER)?,
                generation: number(generation, LARGEST_GENERATION)?,
            })
        }
        _ => None,
    }
}

fn interval_of(value: &Value) -> Option<Interval>
    ensures { result ≡ interval_in (view value.now) }
{
    match value.as_array()?.as_slice() {
        [from, to] => {
            let from = whole(from)?;
            let to = whole(to)?;
            if from <= to {
                Some(Interval { from, to })
            } else {
                None
            }
        }
        _ => None,
    }
}

/// `None` where something else stands there, `Some(None)` where the format or the record has no time.
pub(crate) fn time(value: &Value, format: u32) -> Option<Option<Interval>>
    ensures { result ≡ time_in format (view value.now) }
{
    if format < TIMED_FORMAT {
        return Some(None);
    }
    match value.get("at") {
        Some(found) => Some(Some(interval_of(found)?)),
        None => Some(None),
    }
}

// How many names the time of a record adds.
fn names_of(time: Option<Interval>) -> usize
    ensures { result ≡ names_of_time time }
{
    match time {
        Some(_) => 1,
        None => 0,
    }
}

fn has_names(value: &Value, n: usize) -> bool
    ensures { result ≡ has_names n (view value.now) }
{
    match value.as_object() {
        Some(names) => names.len() == n,
        None => false,
    }
}

fn caller_at(value: &Value, name: &str) -> Option<u32>
    ensures { result ≡ field name.now caller_in (view value.now) }
{
    number(value.get(name)?, LARGEST_CALLER)
}

fn call_at(value: &Value, name: &str) -> Option<CallId>
    ensures { result ≡ field name.now call_in (view value.now) }
{
    call(value.get(name)?)
}

// `None` where nothing or something else stands there, `Some(None)` for null.
fn option_at(value: &Value, name: &str) -> Option<Option<CallId>>
    ensures { result ≡ field name.now option_in (view value.now) }
{
    let found = value.get(name)?;
    if found.is_null() {
        Some(None)
    } else {
        Some(Some(call(found)?))
    }
}

fn key_at<'a>(value: &'a Value, name: &str) -> Option<&'a str>
    ensures { option_map (λ key. key.now) result ≡ field name.now key_in (view value.now) }
{
    let key = value.get(name)?.as_str()?;
    if key.len() <= LONGEST_KEY as usize {
        Some(key)
    } else {
        None
    }
}

fn text_at<'a>(value: &'a Value, name: &str) -> Option<&'a str>
    ensures { option_map (λ text. text.now) result ≡ field name.now as_str (view value.now) }
{
    value.get(name)?.as_str()
}

fn bool_at(value: &Value, name: &str) -> Option<bool>
    ensures { result ≡ field name.now as_bool (view value.now) }
{
    value.get(name)?.as_bool()
}

// How many a mark stands for, where so many entered the call before: none, or those who entered, and at least one.
fn count_of_mark(entered: u64, shared: bool) -> Option<u32>
    ensures { result ≡ count_of_mark entered shared }
{
    if !shared {
        return Some(0);
    }
    let joiners = entered.max(1);
    if joiners <= u64::from(u32::MAX) {
        Some(joiners as u32)
    } else {
        None
    }
}

// How many joined, where so many entered the call before.
fn joiners_at(value: &Value, format: u32, entered: u64) -> Option<u32>
    ensures { result ≡ joiners_in format entered (view value.now) }
{
    if format == FIRST_FORMAT {
        count_of_mark(entered, bool_at(value, "shared")?)
    } else {
        count(value.get("joiners")?)
    }
}

#[tactic(auto, unfolding(crate::specs::Record::lead_in))]
fn lead(alloc: Global, more: usize, value: &Value) -> Result<Option<TextEvent>, Memory>
    requires room { more ≤ 1 }
    ensures { IfOk result (λ found. found ≡ lead_in more (view value.now)) }
{
    if !has_names(value, 5 + more) {
        return Ok(None);
    }
    match (
        caller_at(value, "by"),
        key_at(value, "k"),
        call_at(value, "c"),
        option_at(value, "own"),
    ) {
        (Some(by), Some(key), Some(call), Some(own)) => {
            let key = Text::copied(alloc, key)?;
            Ok(Some(Event::Lead { by, key, call, own }))
        }
        _ => Ok(None),
    }
}

#[tactic(auto, unfolding(crate::specs::Record::enter_in))]
fn enter(alloc: Global, more: usize, value: &Value) -> Result<Option<TextEvent>, Memory>
    requires room { more ≤ 1 }
    ensures { IfOk result (λ found. found ≡ enter_in more (view value.now)) }
{
    if !has_names(value, 5 + more) {
        return Ok(None);
    }
    match (
        caller_at(value, "by"),
        key_at(value, "k"),
        call_at(value, "c"),
        call_at(value, "m"),
    ) {
        (Some(by), Some(key), Some(call), Some(member)) => {
            let key = Text::copied(alloc, key)?;
            Ok(Some(Event::Enter {
                by,
                key,
                call,
                member,
            }))
        }
        _ => Ok(None),
    }
}

#[tactic(auto, unfolding(crate::specs::Record::forget_in))]
fn forget(alloc: Global, more: usize, value: &Value) -> Result<Option<TextEvent>, Memory>
    requires room { more ≤ 1 }
    ensures { IfOk result (λ found. found ≡ forget_in more (view value.now)) }
{
    if !has_names(value, 4 + more) {
        return Ok(None);
    }
    match (
        caller_at(value, "by"),
        key_at(value, "k"),
        option_at(value, "closed"),
    ) {
        (Some(by), Some(key), Some(closed)) => {
            let key = Text::copied(alloc, key)?;
            Ok(Some(Event::Forget { by, key, closed }))
        }
        _ => Ok(None),
    }
}

fn hit_at(value: &Value, name: &str) -> Option<Hit>
    ensures { result ≡ field name.now hit_in (view value.now) }
{
    match value.get(name)?.as_str()? {
        "closed" => Some(Hit::Closed),
        "cleared" => Some(Hit::Cleared),
        "missed" => Some(Hit::Missed),
        _ => None,
    }
}

#[tactic(auto, unfolding(crate::specs::Record::forget_call_in))]
fn forget_call(alloc: Global, more: usize, value: &Value) -> Result<Option<TextEvent>, Memory>
    requires room { more ≤ 1 }
    ensures { IfOk result (λ found. found ≡ forget_call_in more (view value.now)) }
{
    if !has_names(value, 5 + more) {
        return Ok(None);
    }
    match (
        caller_at(value, "by"),
        key_at(value, "k"),
        call_at(value, "c"),
        hit_at(value, "hit"),
    ) {
        (Some(by), Some(key), Some(call), Some(hit)) => {
            let key = Text::copied(alloc, key)?;
            Ok(Some(Event::ForgetCall { by, key, call, hit }))
        }
        _ => Ok(None),
    }
}

// The Forget of one call that a JSON value says, which formats before the third do not have.
fn forget_call_of(
    alloc: Global,
    more: usize,
    format: u32,
    value: &Value,
) -> Result<Option<TextEvent>, Memory>
    requires room { more ≤ 1 }
    ensures { IfOk result (λ found. found ≡ forget_call_of more format (view value.now)) }
{
    if format < FORGET_CALL_FORMAT {
        return Ok(None);
    }
    forget_call(alloc, more, value)
}

// The text at the name `ok`, or else the one at the name `err`.
fn result(alloc: Global, value: &Value) -> Result<Option<Result<Text, Text>>, Memory>
    ensures { IfOk result (λ found. found ≡ result_in (view value.now)) }
{
    match (text_at(value, "ok"), text_at(value, "err")) {
        (Some(text), _) => Ok(Some(Ok(Text::copied(alloc, text)?))),
        (None, Some(text)) => Ok(Some(Err(Text::copied(alloc, text)?))),
        (None, None) => Ok(None),
    }
}

#[tactic(auto, unfolding(crate::specs::Record::settle_in))]
fn settle(
    alloc: Global,
    more: usize,
    format: u32,
    entered: &Entered,
    value: &Value,
) -> Result<Option<TextEvent>, Memory>
    requires room { more ≤ 1 }
    ensures { IfOk result (λ found.
        found ≡ settle_in more format (entered_in entered.now) (view value.now)) }
{
    if !has_names(value, 5 + more) {
        return Ok(None);
    }
    let (Some(by), Some(call), Some(result)) = (
        caller_at(value, "by"),
        call_at(value, "c"),
        result(alloc, value)?,
    ) else {
        return Ok(None);
    };
    match joiners_at(value, format, entered.count(call)) {
        Some(joiners) => Ok(Some(Event::Settle {
            by,
            call,
            result,
            joiners,
        })),
        None => Ok(None),
    }
}

#[tactic(auto, unfolding(crate::specs::Record::handed_in))]
fn handed(more: usize, value: &Value) -> Option<TextEvent>
    requires room { more ≤ 1 }
    ensures { result ≡ handed_in more (view value.now) }
{
    if !has_names(value, 3 + more) {
        return None;
    }
    let by = caller_at(value, "by")?;
    let call = call_at(value, "c")?;
    Some(Event::Handed { by, call })
}

#[tactic(auto, unfolding(crate::specs::Record::event_of_kind))]
fn event_of_kind(
    alloc: Global,
    more: usize,
    format: u32,
    entered: &Entered,
    kind: &str,
    value: &Value,
) -> Result<Option<TextEvent>, Memory>
    requires room { more ≤ 1 }
    ensures { IfOk result (λ found.
        found ≡ event_of_kind more format (entered_in entered.now) kind.now (view value.now)) }
{
    match kind {
        "lead" => lead(alloc, more, value),
        "enter" => enter(alloc, more, value),
        "forget" => forget(alloc, more, value),
        "forgetcall" => forget_call_of(alloc, more, format, value),
        "settle" => settle(alloc, more, format, entered, value),
        "handed" => Ok(handed(more, value)),
        _ => Ok(None),
    }
}

/// The event that a JSON value with this time says in the format, if it says one, where so many entered each call in the
/// lines before.
#[tactic(auto, unfolding(crate::specs::Record::timed_event_in))]
pub(crate) fn event(
    alloc: Global,
    format: u32,
    entered: &Entered,
    value: &Value,
    time: Option<Interval>,
) -> Result<Option<TextEvent>, Memory>
    ensures { IfOk result (λ found.
        found ≡ timed_event_in format (entered_in entered.now) (view value.now) time) }
{
    match text_at(value, "e") {
        Some(kind) => event_of_kind(alloc, names_of(time), format, entered, kind, value),
        None => Ok(None),
    }
}

/// How many events a first line says were lost.
pub(crate) fn lost(value: &Value) -> Option<u64>
    ensures { result ≡ lost_in (view value.now) }
{
    whole(value.get("lost")?)
}

fn plain_format(value: &Value) -> Option<u32>
    ensures { result ≡ plain_format_in (view value.now) }
{
    number(value.get("format")?, PLAIN_FORMAT)
}

fn timed_format(value: &Value) -> Option<u32>
    ensures { result ≡ timed_format_in (view value.now) }
{
    let _lost = lost(value)?;
    if whole(value.get("format")?)? == u64::from(TIMED_FORMAT) {
        Some(TIMED_FORMAT)
    } else {
        None
    }
}

/// The number of the format that a JSON value names, if it names one.
#[tactic(auto, unfolding(crate::specs::Record::format_in))]
pub(crate) fn format(value: &Value) -> Option<u32>
    ensures { result ≡ format_in (view value.now) }
{
    if has_names(value, 1) {
        plain_format(value)
    } else if has_names(value, 2) {
        timed_format(value)
    } else {
        None
    }
}
