//! The texts of traces.

ghost use Rattle.std.specs.Prelude.{◌≡◌, IfOk, string_bytes, true};
ghost use Rattle.sf_steps_text.specs.TraceText as texts;

use sf_history::{CallId, Event, Memory};
use sf_steps::{Act, Step};
use sf_text::Outcome;
use sf_words::{CallState, KeyState, LeaderState, PlaceNo};
use std::alloc::Global;

fn key(alloc: Global, found: KeyState) -> Result<String, Memory>
    ensures { IfOk result (λ s. string_bytes s ≡ texts.key_text found) }
{
    match found {
        KeyState::Never => String::from_str(alloc, "0"),
        KeyState::Names {
            caller,
            generation,
            cleared: false,
        } => {
            let call = CallId { caller, generation };
            format!(in alloc; "{call}")
        }
        KeyState::Names {
            caller,
            generation,
            cleared: true,
        } => {
            let call = CallId { caller, generation };
            format!(in alloc; "{call} cleared")
        }
    }
}

fn top(alloc: Global, top: Option<u32>) -> Result<String, Memory>
    ensures { IfOk result (λ s. string_bytes s ≡ texts.top_text top) }
{
    match top {
        Some(caller) => format!(in alloc; "{caller}"),
        None => String::from_str(alloc, "0"),
    }
}

fn leader(alloc: Global, caller: u32, tag: &str, state: LeaderState) -> Result<String, Memory>
    ensures { IfOk result (λ s. string_bytes s ≡ texts.leader_text caller tag.now state) }
{
    let call = CallId {
        caller,
        generation: state.generation,
    };
    let own = if state.own { " own" } else { "" };
    let top = top(alloc, state.top)?;
    format!(in alloc; "{call} {tag}{own} {top}")
}

fn word(alloc: Global, caller: u32, found: CallState) -> Result<String, Memory>
    ensures { IfOk result (λ s. string_bytes s ≡ texts.word_text caller found) }
{
    match found {
        CallState::Free => {
            let call = CallId {
                caller,
                generation: 0,
            };
            format!(in alloc; "{call} free 0")
        }
        CallState::Open(state) => leader(alloc, caller, "open", state),
        CallState::Forgot(state) => leader(alloc, caller, "forgot", state),
        CallState::Done(state) => leader(alloc, caller, "done", state),
        CallState::Listed { generation } => {
            let call = CallId { caller, generation };
            format!(in alloc; "{call} listed 0")
        }
        CallState::Full { generation } => {
            let call = CallId { caller, generation };
            format!(in alloc; "{call} full 0")
        }
    }
}

fn done(done: bool) -> &'static str
    ensures { result.now ≡ texts.done_text done }
{
    if done { "yes" } else { "no" }
}

// What a step's line says after its caller.
fn act(alloc: Global, act: Act) -> Result<String, Memory>
    ensures { IfOk result (λ s. string_bytes s ≡ texts.act_text act) }
{
    match act {
        Act::Look { place, found } => {
            let found = key(alloc, found)?;
            format!(in alloc; "look {place} {found}")
        }
        Act::Peek { caller, found } => {
            let found = word(alloc, caller, found)?;
            format!(in alloc; "peek {found}")
        }
        Act::Ready { call, listed } => {
            let tag = if listed { "listed" } else { "open" };
            format!(in alloc; "ready {call} {tag}")
        }
        Act::Link { top: found } => {
            let found = top(alloc, found)?;
            format!(in alloc; "link {found}")
        }
        Act::Follow { member, next } => {
            let next = top(alloc, next)?;
            format!(in alloc; "follow {member} {next}")
        }
        Act::Deliver { member } => format!(in alloc; "deliver {member}"),
        Act::Collect { member, full } => {
            let tag = if full { "full" } else { "listed" };
            format!(in alloc; "collect {member} {tag}")
        }
        Act::Lead { .. } | Act::Enter { .. } | Act::Close { .. } | Act::Clear { .. } => exchange(
            alloc, act,
        ),
    }
}

// What the line of an exchange says after its caller.
fn exchange(alloc: Global, act: Act) -> Result<String, Memory>
    requires { texts.is_exchange act ≡ true }
    ensures { IfOk result (λ s. string_bytes s ≡ texts.act_text act) }
{
    match act {
        Act::Lead {
            place,
            call,
            done: is_done,
        } => {
            let answer = done(is_done);
            format!(in alloc; "lead {place} {call} {answer}")
        }
        Act::Enter {
            call,
            done: is_done,
        } => {
            let answer = done(is_done);
            format!(in alloc; "enter {call} {answer}")
        }
        Act::Close {
            call,
            forgot,
            done: is_done,
        } => {
            let tag = if forgot { "forgot" } else { "done" };
            let answer = done(is_done);
            format!(in alloc; "close {call} {tag} {answer}")
        }
        Act::Clear {
            place,
            call,
            done: is_done,
        } => {
            let answer = done(is_done);
            format!(in alloc; "clear {place} {call} {answer}")
        }
        _ => unreachable!(),
    }
}

// The own channel of a call that is led.
fn own_member(alloc: Global, own: Option<CallId>) -> Result<String, Memory>
    ensures { IfOk result (λ s. string_bytes s ≡ texts.own_member_text own) }
{
    match own {
        Some(member) => format!(in alloc; " own={member}"),
        None => Ok(String::new(alloc)),
    }
}

// The line of an event.
fn event(alloc: Global, event: &Event<PlaceNo, Outcome>) -> Result<String, Memory>
    ensures { IfOk result (λ s. string_bytes s ≡ texts.event_text event.now) }
{
    match event {
        Event::Lead { key, call, own, .. } => {
            let own = own_member(alloc, *own)?;
            format!(in alloc; "= lead {key} {call}{own}\n")
        }
        Event::Enter {
            key,
            call,
            member,
            ..
        } => format!(in alloc; "= enter {key} {call} {member}\n"),
        Event::Forget {
            key,
            closed: Some(call),
            ..
        } => format!(in alloc; "= forget {key} closed {call}\n"),
        Event::Forget {
            key,
            closed: None,
            ..
        } => format!(in alloc; "= forget {key} idle\n"),
        Event::ForgetCall { key, call, hit, .. } => {
            format!(in alloc; "= forgetcall {key} {call} {hit}\n")
        }
        Event::Settle {
            call,
            result,
            joiners,
            ..
        } => match result {
            Ok(text) => format!(in alloc; "= settle {call} {text} joiners={joiners}\n"),
            Err(text) => format!(in alloc; "= settle {call} error {text} joiners={joiners}\n"),
        },
        Event::Handed { call, .. } => format!(in alloc; "= handed {call}\n"),
    }
}

// The lines of events.
fn events(alloc: Global, added: &[Event<PlaceNo, Outcome>]) -> Result<String, Memory>
    ensures { IfOk result (λ s. string_bytes s ≡ texts.events_text added.now) }
{
    let mut lines = String::new(alloc);
    for one in added {
        let line = event(alloc, one)?;
        lines.push_str(line.as_str())?;
    }
    Ok(lines)
}

// The line of an answer.
fn answer(answer: Option<bool>) -> &'static str
    ensures { result.now ≡ texts.answer_text answer }
{
    match answer {
        Some(true) => "> yes\n",
        Some(false) => "> no\n",
        None => "",
    }
}

/// What a step prints: its own line, a line for each event that it added, and a line for its answer.
pub fn step_text(alloc: Global, step: &Step<Outcome>) -> Result<String, Memory>
    ensures { IfOk result (λ s. string_bytes s ≡ texts.step_text step.now) }
{
    let act = act(alloc, step.act)?;
    let caller = step.caller;
    let events = events(alloc, step.events.as_slice())?;
    let answer = answer(step.answer);
    format!(in alloc; "{caller} {act}\n{events}{answer}")
}

/// What a trace prints: its steps, one after the other.
pub fn trace_text(alloc: Global, steps: &[Step<Outcome>]) -> Result<String, Memory>
    ensures { IfOk result (λ s. string_bytes s ≡ texts.trace_text steps.now) }
{
    let mut lines = String::new(alloc);
    for step in steps {
        let line = step_text(alloc, step)?;
        lines.push_str(line.as_str())?;
    }
    Ok(lines)
}
