//! Writing records.

ghost use Rattle.std.specs.Prelude.{◌≡◌, ◌++◌, Ok, IfOk, All, None, codes, string_bytes, get_or};
ghost use Rattle.json.specs.Print.{quoted};
ghost use Rattle.sf_history.specs.Limits.{IsWithinLimits};
ghost use Rattle.sf_replay.specs.RecordText.{history_of};
ghost use Rattle.sf_replay.specs.Written.{call_json, option_json, result_json, record_with, history_text, time_end, recording_text, HasCount, HasShortKey};

use crate::reading::Recording;
use crate::record::{Interval, TextEvent};
use serde_json::Value;
use sf_history::{CallId, Event, History, Memory};
use sf_text::Text;
use std::alloc::Global;
use std::fmt;

// The first line of records, in the newest format.
const FORMAT_LINE: &str = "{\"format\":3}\n";

// A call or a member, as in `[1,2]`.
#[derive(Clone, Copy)]
struct CallJson(CallId);

impl fmt::Display for CallJson {
    ghost use Rattle.std.specs.Prelude.{Some};
    ghost use Rattle.sf_replay.specs.Written.{call_json};

    ghost output = { λ c. Some (call_json c.0) };

    fn fmt<W: fmt::Write>(&self, f: &mut fmt::Formatter<W>) -> fmt::Result {
        let caller = self.0.caller;
        let generation = self.0.generation;
        write!(f, "[{caller},{generation}]")
    }
}

// A call or a member, or null.
#[derive(Clone, Copy)]
struct OptionJson(Option<CallId>);

impl fmt::Display for OptionJson {
    ghost use Rattle.std.specs.Prelude.{Some};
    ghost use Rattle.sf_replay.specs.Written.{option_json};

    ghost output = { λ o. Some (option_json o.0) };

    fn fmt<W: fmt::Write>(&self, f: &mut fmt::Formatter<W>) -> fmt::Result {
        match self.0 {
            Some(call) => write!(f, "{}", CallJson(call)),
            None => f.write_str("null"),
        }
    }
}

// A text as a JSON string.
fn quoted(alloc: Global, text: &Text) -> Result<String, Memory>
    ensures { IfOk result (λ string. string_bytes string ≡ quoted text.now) }
{
    let value = Value::String(String::from_str(alloc, text.as_str())?);
    value.to_string(alloc)
}

// What a call is settled with, after its name.
fn settled(alloc: Global, outcome: &Result<Text, Text>) -> Result<String, Memory>
    ensures { IfOk result (λ string. string_bytes string ≡ result_json outcome.now) }
{
    match outcome {
        Ok(value) => {
            let value = quoted(alloc, value)?;
            format!(in alloc; "\"ok\":{value}")
        }
        Err(error) => {
            let error = quoted(alloc, error)?;
            format!(in alloc; "\"err\":{error}")
        }
    }
}

// One record with what stands at its end, without the end of its line.
#[tactic(auto, unfolding(crate::specs::Written::record_with))]
fn record(alloc: Global, event: &TextEvent, end: &str) -> Result<String, Memory>
    ensures text { IfOk result (λ string. string_bytes string ≡ record_with end.now event.now) }
    ensures counted { IfOk result (λ string. HasCount event.now) }
{
    match event {
        Event::Lead { by, key, call, own } => {
            let (key, call, own) = (quoted(alloc, key)?, CallJson(*call), OptionJson(*own));
            format!(in alloc;
                "{{\"e\":\"lead\",\"by\":{by},\"k\":{key},\"c\":{call},\"own\":{own}{end}"
            )
        }
        Event::Enter {
            by,
            key,
            call,
            member,
        } => {
            let (key, call, member) = (quoted(alloc, key)?, CallJson(*call), CallJson(*member));
            format!(in alloc;
                "{{\"e\":\"enter\",\"by\":{by},\"k\":{key},\"c\":{call},\"m\":{member}{end}"
            )
        }
        Event::Forget { by, key, closed } => {
            let (key, closed) = (quoted(alloc, key)?, OptionJson(*closed));
            format!(in alloc; "{{\"e\":\"forget\",\"by\":{by},\"k\":{key},\"closed\":{closed}{end}")
        }
        Event::ForgetCall { by, key, call, hit } => {
            let (key, call, hit) = (quoted(alloc, key)?, CallJson(*call), *hit);
            format!(in alloc;
                "{{\"e\":\"forgetcall\",\"by\":{by},\"k\":{key},\"c\":{call},\"hit\":\"{hit}\"{end}"
            )
        }
        Event::Settle {
            by,
            call,
            result,
            joiners,
        } => {
            let (call, result, joiners) = (CallJson(*call), settled(alloc, result)?, *joiners);
            format!(in alloc;
                "{{\"e\":\"settle\",\"by\":{by},\"c\":{call},{result},\"joiners\":{joiners}{end}"
            )
        }
        Event::Handed { by, call } => {
            let call = CallJson(*call);
            format!(in alloc; "{{\"e\":\"handed\",\"by\":{by},\"c\":{call}{end}")
        }
    }
}

/// The records of a history: the format, then one record an event, each line ended. The history of callers 1 to 65,535,
/// generations 1 to 4,294,967,295 and keys of at most 250 bytes is read back from it. Its time is linear in the history.
#[tactic(auto, unfolding(crate::specs::Written::history_text))]
pub fn write(alloc: Global, history: &History<Text, Result<Text, Text>>) -> Result<String, Memory>
    ensures text { IfOk result (λ string. string_bytes string ≡ history_text history.now) }
    ensures reads_back { IfOk result (λ string. All IsWithinLimits history.now
        → All HasShortKey history.now → history_of (string_bytes string) ≡ Ok history.now) }
{
    let mut text = String::from_str(alloc, FORMAT_LINE)?;
    for event in history.events() {
        text.push_str(record(alloc, event, "}")?.as_str())?;
        text.push_str("\n")?;
    }
    Ok(text)
}

// The end of a record that may have a time.
fn end(alloc: Global, time: Option<Interval>) -> Result<String, Memory>
    ensures { IfOk result (λ string. string_bytes string ≡ time_end time) }
{
    match time {
        Some(Interval { from, to }) => format!(in alloc; ",\"at\":[{from},{to}]}}"),
        None => String::from_str(alloc, "}"),
    }
}

// The time of this number, where there is one.
fn time_at(times: &[Option<Interval>], i: usize) -> Option<Interval>
    ensures { result ≡ get_or times.now i None }
{
    match times.get(i) {
        Some(time) => *time,
        None => None,
    }
}

/// The records of a recording, with their times: the format and how many events were lost, then one record an event, each
/// line ended. An event for which no time is left has none. Its time is linear in the recording.
#[tactic(auto, unfolding(crate::specs::Written::recording_text))]
pub fn write_recording(alloc: Global, recording: &Recording) -> Result<String, Memory>
    ensures { IfOk result (λ string. string_bytes string
        ≡ recording_text recording.now.lost recording.now.history recording.now.times.items) }
{
    let lost = recording.lost;
    let mut text = format!(in alloc; "{{\"format\":4,\"lost\":{lost}}}\n")?;
    let times = recording.times.as_slice();
    for (i, event) in recording.history.events().iter().enumerate() {
        let end = end(alloc, time_at(times, i))?;
        text.push_str(record(alloc, event, end.as_str())?.as_str())?;
        text.push_str("\n")?;
    }
    Ok(text)
}
