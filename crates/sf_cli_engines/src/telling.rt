//! What explains a verdict: the events that it names, with their key, callers, times and records; or the keys that have a fault. It
//! goes to standard error, and no clause says how it is worded.

use crate::checking::{Checked, judge};
use crate::engine::Judged;
use crate::merging::merged;
use crate::sources::Sources;
use crate::timing::{Found, TimedChecked, judge_times};
use sf_history::Memory;
use sf_replay::{Interval, Recording, read_recording};
use sf_replay_timed::Witness;
use sf_text::Text;
use sf_verdicts::{
    Explained, Fault, KeyFaults, Unit, caller_of, explain_fault, explain_witness, faults_in_time,
    faults_of_keys, named, time_at, unit_of,
};
use std::alloc::Global;

// How many characters of a key are written.
const KEY: usize = 48;
// How many characters of a record are written.
const RECORD: usize = 240;

// A history, and where its events come from.
#[derive(Drop)]
struct Told<'a> {
    recording: Recording,
    sources: Sources<'a>,
}

// How times are written: in this unit, counted from this moment.
#[derive(Clone, Copy)]
struct Clock {
    unit: Unit,
    first: u64,
}

/// What explains the verdict on a log; nothing where there is nothing to explain, or memory is refused.
pub(crate) fn told_of_log(alloc: Global, judged: Judged, input: &[u8]) -> Option<String> {
    let sources = Sources::of_log(alloc, input).ok()?;
    tell(alloc, judged, input, sources)
}

/// What explains the verdict on logs that stand one after another, and are merged; nothing where there is nothing to explain, or memory is refused.
pub(crate) fn told_of_logs(alloc: Global, judged: Judged, input: &[u8]) -> Option<String> {
    let text = merged(alloc, input).ok()?;
    let sources = Sources::of_logs(alloc, input).ok()?;
    tell(alloc, judged, text.as_bytes(), sources)
}

// What explains the verdict on records, whose events come from these lines.
fn tell(alloc: Global, judged: Judged, input: &[u8], sources: Sources<'_>) -> Option<String> {
    let recording = read_recording(alloc, input).ok()?;
    let told = Told { recording, sources };
    let said = match judged {
        Judged::AsItStands => told.fault(alloc, input),
        Judged::InTime | Judged::Drawn => told.race(alloc, input),
        Judged::EachKey => told.keys(alloc),
        Judged::EachKeyInTime => told.keys_in_time(alloc),
    };
    match said {
        Ok(said) => if said.is_empty() { None } else { Some(said) },
        Err(_) => None,
    }
}

// Bounds of all these times and of those at the places.
fn widened(
    bounds: Option<Interval>,
    places: &[usize],
    times: &[Option<Interval>],
) -> Option<Interval> {
    let mut bounds = bounds;
    for place in places {
        if let Some(time) = time_at(times, *place) {
            let (from, to) = match bounds {
                Some(bounds) => (bounds.from.min(time.from), bounds.to.max(time.to)),
                None => (time.from, time.to),
            };
            bounds = Some(Interval { from, to });
        }
    }
    bounds
}

// The number of the first event that may not follow those before it.
fn fault_of(checked: Checked) -> Option<u64> {
    match checked {
        Checked::Illegal(index, _) | Checked::IncompleteIllegal(_, index, _) => Some(index),
        _ => None,
    }
}

// The events that have no order.
fn race_of(checked: TimedChecked) -> Option<Witness> {
    match checked {
        TimedChecked::Whole(Found::NoOrder(witness))
        | TimedChecked::Incomplete(_, Found::NoOrder(witness)) => Some(witness),
        _ => None,
    }
}

impl Told<'_> {
    // What explains the first fault of a history as it stands.
    fn fault(&self, alloc: Global, input: &[u8]) -> Result<String, Memory> {
        let Some(index) = fault_of(judge(alloc, input)) else {
            return Ok(String::new(alloc));
        };
        let explained = explain_fault(alloc, index, self.recording.history.events())?;
        self.explained(alloc, &explained)
    }

    // What explains that events have no order.
    fn race(&self, alloc: Global, input: &[u8]) -> Result<String, Memory> {
        let Some(witness) = race_of(judge_times(alloc, input)) else {
            return Ok(String::new(alloc));
        };
        let events = self.recording.history.events();
        let explained = explain_witness(alloc, witness, events, self.recording.times.as_slice())?;
        self.explained(alloc, &explained)
    }

    // The keys with a fault as their events stand.
    fn keys(&self, alloc: Global) -> Result<String, Memory> {
        let faults = faults_of_keys(alloc, self.recording.history.events())?;
        self.faults(alloc, &faults)
    }

    // The keys with a fault by times.
    fn keys_in_time(&self, alloc: Global) -> Result<String, Memory> {
        let events = self.recording.history.events();
        let faults = faults_in_time(alloc, events, self.recording.times.as_slice())?;
        self.faults(alloc, &faults)
    }

    // How the times of these events are written.
    fn clock(&self, explained: &Explained<'_>) -> Option<Clock> {
        let times = self.recording.times.as_slice();
        let named = widened(None, explained.named.as_slice(), times);
        let bounds = widened(named, explained.others.as_slice(), times)?;
        Some(Clock {
            unit: unit_of(bounds.to.saturating_sub(bounds.from)),
            first: bounds.from,
        })
    }

    // The events, a line each, below a line with their key.
    fn explained(&self, alloc: Global, explained: &Explained<'_>) -> Result<String, Memory> {
        let clock = self.clock(explained);
        let mut said = String::new(alloc);
        push_head(&mut said, explained.key, clock)?;
        for place in explained.named.iter() {
            self.push_event(alloc, &mut said, *place, clock)?;
        }
        if explained.others.len() > 0 {
            said.push_str("around:\n")?;
        }
        for place in explained.others.iter() {
            self.push_event(alloc, &mut said, *place, clock)?;
        }
        if explained.left_out > 0 {
            let left_out = explained.left_out;
            writeln!(said, "more events of the key: {left_out}")?;
        }
        Ok(said)
    }

    // The line of an event.
    fn push_event(
        &self,
        alloc: Global,
        said: &mut String,
        place: usize,
        clock: Option<Clock>,
    ) -> Result<(), Memory> {
        let Some(event) = self.recording.history.events().get(place) else {
            return Ok(());
        };
        let time = time_at(self.recording.times.as_slice(), place);
        let line = self.sources.line(place, event, time);
        if let Some(line) = line {
            let number = line.number;
            write!(said, "line {number}: ")?;
        }
        let (number, caller) = (place.saturating_add(1), caller_of(event));
        write!(said, "event {number}, caller {caller}")?;
        if let (Some(time), Some(clock)) = (time, clock) {
            push_time(alloc, said, time, clock)?;
        }
        if let Some(line) = line {
            said.push_str(": ")?;
            push_plain(said, str::from_utf8(line.text).unwrap_or_default(), RECORD)?;
        }
        said.push('\n')?;
        Ok(())
    }

    // The keys with a fault, a line each, below a line with their number.
    fn faults(&self, alloc: Global, found: &KeyFaults<'_>) -> Result<String, Memory> {
        let mut said = String::new(alloc);
        let (faults, keys) = (found.faults.len(), found.keys);
        writeln!(said, "keys with a fault: {faults} of {keys}")?;
        for one in found.faults.iter() {
            self.push_line_of(alloc, &mut said, one.fault)?;
            push_key(&mut said, one.key)?;
            let fault = one.fault;
            writeln!(said, "{fault}")?;
        }
        Ok(said)
    }

    // The line of the event that a fault is about.
    fn push_line_of(&self, alloc: Global, said: &mut String, fault: Fault) -> Result<(), Memory> {
        let Some(place) = place_of(alloc, fault)? else {
            return Ok(());
        };
        let Some(event) = self.recording.history.events().get(place) else {
            return Ok(());
        };
        let time = time_at(self.recording.times.as_slice(), place);
        if let Some(line) = self.sources.line(place, event, time) {
            let number = line.number;
            write!(said, "line {number}: ")?;
        }
        Ok(())
    }
}

// The place of the first event that a fault names.
fn place_of(alloc: Global, fault: Fault) -> Result<Option<usize>, Memory> {
    Ok(match fault {
        Fault::First { event, .. } | Fault::Undecided(Some(event)) => {
            Some(event.saturating_sub(1) as usize)
        }
        Fault::NoOrder(witness) => named(alloc, witness)?.first().copied(),
        Fault::Undecided(None) => None,
    })
}

// The key, if it is known, and a colon.
fn push_key(said: &mut String, key: Option<&Text>) -> Result<(), Memory> {
    if let Some(key) = key {
        said.push_str("key ")?;
        push_plain(said, key.as_str(), KEY)?;
        said.push_str(": ")?;
    }
    Ok(())
}

// The key of events, and how their times are written.
fn push_head(said: &mut String, key: Option<&Text>, clock: Option<Clock>) -> Result<(), Memory> {
    if let Some(key) = key {
        said.push_str("key ")?;
        push_plain(said, key.as_str(), KEY)?;
        said.push('\n')?;
    }
    if let Some(clock) = clock {
        let (unit, first) = (clock.unit.name(), clock.first);
        writeln!(said, "times in {unit}, counted from {first} ns")?;
    }
    Ok(())
}

// The time of an event.
fn push_time(alloc: Global, said: &mut String, time: Interval, clock: Clock) -> Result<(), Memory> {
    let from = clock
        .unit
        .text(alloc, time.from.saturating_sub(clock.first))?;
    let to = clock.unit.text(alloc, time.to.saturating_sub(clock.first))?;
    write!(said, ", {from} to {to}")?;
    Ok(())
}

// What a terminal is given for a character: itself, but for what it could take for a command or would turn round.
fn shown(character: char) -> char {
    match character {
        '\0'..='\u{1f}'
        | '\u{7f}'..='\u{9f}'
        | '\u{61c}'
        | '\u{200e}'
        | '\u{200f}'
        | '\u{2028}'..='\u{202e}'
        | '\u{2066}'..='\u{2069}'
        | '\u{feff}' => '\u{fffd}',
        _ => character,
    }
}

// Adds so many characters of a text of strangers, and a mark where there are more.
fn push_plain(said: &mut String, text: &str, most: usize) -> Result<(), Memory> {
    for (place, character) in text.chars().enumerate() {
        if place == most {
            said.push('\u{2026}')?;
            return Ok(());
        }
        said.push(shown(character))?;
    }
    Ok(())
}
