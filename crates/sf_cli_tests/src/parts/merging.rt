//! Histories of numbers, as lines: what is merged of them, and whether it is legal.

use crate::parts::reading::{first_word, number};
use sf_history::{CallId, Event, History, Hit};
use sf_replay::merge;
use sf_replay_check::{Verdict, check};
use std::alloc::{AllocError, Global};
use std::process::Abort;
use std::test::Fail;

// An event of numbers as keys.
pub(crate) type NumberEvent = Event<u32, ()>;

const NO_CALL: CallId = CallId {
    caller: 0,
    generation: 0,
};

fn call(rt: &impl Abort, word: &str) -> CallId {
    match sf_text::call(word) {
        Some(call) => call,
        None => panic!(rt; "it is no call"),
    }
}

// What a Forget of the call of a key found: `closed`, `cleared` or `missed`.
fn forget_call(rt: &impl Abort, found: &str, by: u32, call: CallId, key: u32) -> NumberEvent {
    let hit = match found {
        "closed" => Hit::Closed,
        "cleared" => Hit::Cleared,
        "missed" => Hit::Missed,
        _ => panic!(rt; "it is no event"),
    };
    Event::ForgetCall { by, key, call, hit }
}

// What is done to the call of a key.
fn of_key(rt: &impl Abort, kind: &str, by: u32, call: CallId, key: u32) -> NumberEvent {
    match kind {
        "lead" => {
            let own = None;
            Event::Lead { by, key, call, own }
        }
        "forget" => {
            let closed = Some(call);
            Event::Forget { by, key, closed }
        }
        _ => forget_call(rt, kind, by, call, key),
    }
}

// The event that a line is: its kind and who made it, then its call, and its key or how many joined: `lead 1 1.1 7`,
// `enter 2 1.1 7 2.1`, `settle 1 1.1 1`, `handed 1 1.1`; `idle 1 7` is a Forget that closed nothing.
pub(crate) fn event(rt: &impl Abort, line: &str) -> NumberEvent {
    let (kind, rest) = first_word(line);
    let (by, rest) = first_word(rest);
    let by = number(rt, by);
    let (third, rest) = first_word(rest);
    let (fourth, fifth) = first_word(rest);
    match kind {
        "idle" => {
            let (key, closed) = (number(rt, third), None);
            Event::Forget { by, key, closed }
        }
        "handed" => Event::Handed {
            by,
            call: call(rt, third),
        },
        "settle" => Event::Settle {
            by,
            call: call(rt, third),
            result: (),
            joiners: number(rt, fourth),
        },
        "enter" => Event::Enter {
            by,
            key: number(rt, fourth),
            call: call(rt, third),
            member: call(rt, fifth),
        },
        _ => of_key(rt, kind, by, call(rt, third), number(rt, fourth)),
    }
}

// The events that lines are.
fn log(rt: &impl Abort, alloc: Global, lines: &str) -> Vec<NumberEvent> {
    let mut log = Vec::new(alloc);
    for line in lines.lines() {
        let pushed = log.push(event(rt, line));
        assert!(rt; pushed.is_ok(), "no memory");
    }
    log
}

// What is merged of logs, which an empty line parts.
fn merged(rt: &impl Abort, alloc: Global, logs: &str) -> History<u32, ()> {
    let mut all = Vec::new(alloc);
    for lines in logs.split("\n\n") {
        let pushed = all.push(log(rt, alloc, lines));
        assert!(rt; pushed.is_ok(), "no memory");
    }
    let Ok(history) = merge(alloc, all) else {
        panic!(rt; "no memory")
    };
    history
}

// What is compared of an event: its kind, who made it, and its call; `0.0` for a Forget that closed nothing.
fn said_of(event: &NumberEvent) -> (&'static str, u32, CallId) {
    match event {
        Event::Lead { by, call, .. } => ("lead", *by, *call),
        Event::Enter { by, call, .. } => ("enter", *by, *call),
        Event::Forget { by, closed, .. } => match closed {
            Some(call) => ("forget", *by, *call),
            None => ("idle", *by, NO_CALL),
        },
        Event::ForgetCall { by, call, hit, .. } => match hit {
            Hit::Closed => ("closed", *by, *call),
            Hit::Cleared => ("cleared", *by, *call),
            Hit::Missed => ("missed", *by, *call),
        },
        Event::Settle { by, call, .. } => ("settle", *by, *call),
        Event::Handed { by, call } => ("handed", *by, *call),
    }
}

fn text_of(alloc: Global, history: &History<u32, ()>) -> Result<String, AllocError> {
    let mut text = String::new(alloc);
    for event in history.events() {
        let (kind, by, call) = said_of(event);
        write!(text, "{kind} {by} {call}\n")?;
    }
    Ok(text)
}

// Merges logs, and compares the events of what comes of them.
fn are_merged(rt: &impl Abort, alloc: Global, logs: &str, due: &str) -> Result<(), Fail> {
    let text = text_of(alloc, &merged(rt, alloc, logs))?;
    assert!(rt; text.as_str() == due, "other events");
    Ok(())
}

const CALLS: &str = "handed 1 1.1
settle 1 1.1 1
lead 1 1.1 7
idle 1 5

lead 2 2.2 5
enter 2 1.1 7 2.1
handed 2 2.2

handed 3 9.9
forget 3 1.1 7
";

const CALLS_MERGED: &str = "idle 1 0.0
lead 2 2.2
handed 2 2.2
lead 1 1.1
enter 2 1.1
forget 3 1.1
settle 1 1.1
handed 1 1.1
handed 3 9.9
";

// By keys: forgets that closed nothing, then each call with its parts in order; what nobody led comes last.
#[test]
fn logs_merge_by_keys_and_calls(rt: HostRuntime) -> Result<(), Fail> {
    are_merged(&rt, rt.alloc(), CALLS, CALLS_MERGED)
}

const FORGETS: &str = "handed 1 1.1
settle 1 1.1 1
lead 1 1.1 7
missed 1 8.8 5
idle 1 5

cleared 2 1.1 7
lead 2 2.2 5
enter 2 1.1 7 2.1
cleared 2 2.2 5
settle 2 2.2 0

cleared 3 9.9 5
closed 3 1.1 7
missed 3 2.2 5
forget 3 1.1 7
";

const FORGETS_MERGED: &str = "missed 1 8.8
idle 1 0.0
missed 3 2.2
lead 2 2.2
settle 2 2.2
cleared 2 2.2
lead 1 1.1
enter 2 1.1
closed 3 1.1
forget 3 1.1
settle 1 1.1
handed 1 1.1
cleared 2 1.1
cleared 3 9.9
";

// Forgets of one call that missed it stand with those that closed nothing, those that closed it with its Forgets, and those
// that cleared it at its end, also where it was never handed out.
#[test]
fn forgets_of_one_call_are_merged(rt: HostRuntime) -> Result<(), Fail> {
    are_merged(&rt, rt.alloc(), FORGETS, FORGETS_MERGED)
}

fn assert_legal(rt: &impl Abort, history: &History<u32, ()>, due: usize) {
    let events = history.len();
    assert!(rt; check(history) == Verdict::Legal, "it is illegal");
    assert!(rt; events == due, "another number of events");
}

fn assert_illegal(rt: &impl Abort, history: &History<u32, ()>, due: u64) {
    match check(history) {
        Verdict::Legal => panic!(rt; "legal"),
        Verdict::Illegal { index, .. } => assert!(rt; index == due, "another event"),
    }
}

const A_GROUP: &str = "enter 2 1.1 7 2.1

lead 1 1.1 7
settle 1 1.1 1
handed 1 1.1
";

// A call is forgotten, and a newer one once it is settled.
const A_GROUP_WITH_FORGETS: &str = "lead 3 3.1 7
settle 3 3.1 0
handed 3 3.1

closed 2 1.1 7
missed 2 1.1 7
cleared 2 3.1 7

lead 1 1.1 7
settle 1 1.1 0
handed 1 1.1
";

// What a group did is legal once its logs are merged.
#[test]
fn merged_logs_of_a_group_are_legal(rt: HostRuntime) -> Result<(), Fail> {
    assert_legal(&rt, &merged(&rt, rt.alloc(), A_GROUP), 4);
    assert_legal(&rt, &merged(&rt, rt.alloc(), A_GROUP_WITH_FORGETS), 9);
    let no_logs: Vec<Vec<NumberEvent>> = Vec::new(rt.alloc());
    assert!(rt; merge(rt.alloc(), no_logs)?.is_empty());
    Ok(())
}

// Adds the event that a line is.
fn push(rt: &impl Abort, history: &mut History<u32, ()>, line: &str) {
    let pushed = history.push(event(rt, line));
    assert!(rt; pushed.is_ok(), "no memory");
}

// A history with two events in place of its last one.
fn with_others(
    rt: &impl Abort,
    history: History<u32, ()>,
    one: &str,
    two: &str,
) -> History<u32, ()> {
    let mut events = history.into_vec();
    drop(events.pop());
    let mut history = History::from_vec(events);
    push(rt, &mut history, one);
    push(rt, &mut history, two);
    history
}

// The checker at keys and values of other types.
#[test]
fn numbers_as_keys(rt: HostRuntime) {
    let mut history: History<u32, ()> = History::new(rt.alloc());
    assert_legal(&rt, &history, 0);
    push(&rt, &mut history, "lead 1 1.7 5");
    push(&rt, &mut history, "settle 1 1.7 0");
    assert_legal(&rt, &history, 2);
    push(&rt, &mut history, "forget 2 1.7 5");
    assert_illegal(&rt, &history, 3);
    let history = with_others(&rt, history, "cleared 2 1.7 5", "missed 2 1.7 5");
    assert_legal(&rt, &history, 4);
}
