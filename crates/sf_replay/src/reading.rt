//! Reading records.

ghost use Rattle.std.specs.Prelude.{◌≡◌, ◌==◌, IfOk, IfErr, IfSome, Ok, [], map, option_map, option_and_then};
ghost use Rattle.std.specs.List.{slice_split};
ghost use Rattle.serde_json.specs.View.{view};
ghost use Rattle.sf_replay.specs.Record.{event_in};
ghost use Rattle.sf_replay.specs.Entered.{entered_in};
ghost use Rattle.sf_replay.specs.RecordText.{json_of, format_of, without_empty_last, record_lines, events_of, history_of_lines, history_of};
ghost use Rattle.sf_replay.specs.RecordText.{time_of, times_of_lines, times_of, lost_of_line, lost_of_lines, lost_of};
ghost use Rattle.sf_replay.specs.RecordText.{IsRecordRefusal, HistoryIsRecords, FailureIsLeastBad};

use crate::entered::Entered;
use crate::record::{Interval, TextEvent, event, format, lost, time};
use serde_json::Value;
use sf_history::{History, Memory};
use sf_text::Text;
use std::alloc::{AllocFailed, Global};
use std::error::Error;
use std::fmt;

/// Why records are not read.
#[derive(Clone, Copy, Debug)]
pub enum RecordRefusal {
    /// The line, counted from 1, is the first that is not what stands there: the format in line 1, and a record in each
    /// further line.
    BadRecord(u64),
    /// Memory was refused.
    Memory,
}

impl fmt::Display for RecordRefusal {
    ghost use Rattle.std.specs.Prelude.{Some};
    ghost use Rattle.sf_replay.specs.RecordText.{refusal_text};

    ghost output = { λ refusal. Some (refusal_text refusal) };

    fn fmt<W: fmt::Write>(&self, f: &mut fmt::Formatter<W>) -> fmt::Result {
        match self {
            RecordRefusal::BadRecord(line) => write!(f, "line {line}: not a record"),
            RecordRefusal::Memory => f.write_str("out of memory"),
        }
    }
}

impl Error for RecordRefusal {}

impl<T: Drop> From<AllocFailed<T>> for RecordRefusal {
    ghost use Rattle.std.specs.Prelude.{◌≡◌};
    ghost use Rattle.sf_replay.specs.declared.reading.RecordRefusal.TheVariants.{Memory};

    ghost from_gives = { λ _ e. e ≡ Memory };

    fn from(_failed: AllocFailed<T>) -> RecordRefusal {
        RecordRefusal::Memory
    }
}

impl From<Memory> for RecordRefusal {
    ghost use Rattle.std.specs.Prelude.{◌≡◌};
    ghost use Rattle.sf_replay.specs.declared.reading.RecordRefusal.TheVariants.{Memory};

    ghost from_gives = { λ _ e. e ≡ Memory };

    fn from(_error: Memory) -> RecordRefusal {
        RecordRefusal::Memory
    }
}

// The JSON value that a line is, if it is one.
#[tactic(auto, unfolding(crate::specs::RecordText::json_of))]
fn json(alloc: Global, line: &[u8]) -> Result<Option<Value>, Memory>
    ensures { IfOk result (λ found. option_map view found ≡ json_of line.now) }
{
    match Value::from_slice(alloc, line) {
        Ok(value) => Ok(Some(value)),
        Err(error) => {
            if error.is_memory() {
                Err(Memory)
            } else {
                Ok(None)
            }
        }
    }
}

/// The event that a line records in the format, where so many entered each call in the lines before; and its time, where
/// the line says one.
#[tactic(auto, unfolding(crate::specs::Record::event_in, crate::specs::RecordText::time_of))]
pub(crate) fn record(
    alloc: Global,
    format: u32,
    entered: &Entered,
    line: &[u8],
) -> Result<Option<(TextEvent, Option<Interval>)>, Memory>
    ensures event { IfOk result (λ found. option_map (λ r. r.0) found
        ≡ option_and_then (event_in format (entered_in entered.now)) (json_of line.now)) }
    ensures time { IfOk result (λ found. IfSome found (λ r. r.1 ≡ time_of format line.now)) }
{
    let Some(value) = json(alloc, line)? else {
        return Ok(None);
    };
    let Some(time) = time(&value, format) else {
        return Ok(None);
    };
    match event(alloc, format, entered, &value, time)? {
        Some(event) => Ok(Some((event, time))),
        None => Ok(None),
    }
}

/// The format that a first line names, if it names one, and how many events it says were lost.
#[tactic(auto, unfolding(crate::specs::RecordText::lost_of_line))]
pub(crate) fn heading(alloc: Global, line: &[u8]) -> Result<Option<(u32, u64)>, Memory>
    ensures format { IfOk result (λ found. option_map (λ h. h.0) found ≡ format_of line.now) }
    ensures lost { IfOk result (λ found. IfSome found (λ h. h.1 ≡ lost_of_line line.now)) }
{
    let Some(value) = json(alloc, line)? else {
        return Ok(None);
    };
    let lost = match lost(&value) {
        Some(lost) => lost,
        None => 0,
    };
    match format(&value) {
        Some(format) => Ok(Some((format, lost))),
        None => Ok(None),
    }
}

// What stands between the line feeds.
fn parts(alloc: Global, text: &[u8]) -> Result<Vec<&[u8]>, Memory>
    ensures { IfOk result (λ parts.
        map (λ part. part.now) parts.items ≡ slice_split (λ byte. byte == 10) text.now) }
{
    text.split(|byte| *byte == b'\n').collect(alloc)
}

// Takes off the last line where nothing stands in it.
fn drop_empty_last(lines: &mut Vec<&[u8]>)
    ensures { map (λ line. line.now) lines.new.items
        ≡ without_empty_last (map (λ line. line.now) lines.old.items) }
{
    let Some(last) = lines.last() else {
        return;
    };
    if last.is_empty() {
        lines.pop();
    }
}

pub(crate) fn lines(alloc: Global, text: &[u8]) -> Result<Vec<&[u8]>, Memory>
    ensures { IfOk result (λ lines. map (λ line. line.now) lines.items ≡ record_lines text.now) }
{
    let mut lines = parts(alloc, text)?;
    drop_empty_last(&mut lines);
    Ok(lines)
}

// The history that these lines record in the format, and the time of each event; the first of them is the text's second.
fn history(
    alloc: Global,
    format: u32,
    lines: &[&[u8]],
) -> Result<(History<Text, Result<Text, Text>>, Vec<Option<Interval>>), RecordRefusal>
    ensures ok { IfOk result (λ read.
        events_of format [] (map (λ line. line.now) lines.now) ≡ Ok read.0) }
    ensures times { IfOk result (λ read.
        read.1.items ≡ map (time_of format) (map (λ line. line.now) lines.now)) }
    ensures bad { IfErr result (λ refusal.
        IsRecordRefusal refusal (events_of format [] (map (λ line. line.now) lines.now))) }
{
    let mut events = Vec::new(alloc);
    let mut times = Vec::new(alloc);
    let mut entered = Entered::new(alloc);
    for (i, line) in lines.iter().enumerate() {
        let Some((event, time)) = record(alloc, format, &entered, line)? else {
            return Err(RecordRefusal::BadRecord(i as u64 + 2));
        };
        entered.note(format, &event)?;
        events.push(event)?;
        times.push(time)?;
    }
    Ok((History::from_vec(events), times))
}

/// A history that was read, with what its records say of times and of events that were lost.
#[derive(Drop)]
pub struct Recording {
    /// The events in the order of their records.
    pub history: History<Text, Result<Text, Text>>,
    /// For each event its time, if its record has one.
    pub times: Vec<Option<Interval>>,
    /// How many events were lost.
    pub lost: u64,
}

// The recording of these lines, of which the first is the text's first.
fn recording_of_lines(alloc: Global, lines: &[&[u8]]) -> Result<Recording, RecordRefusal>
    ensures ok { IfOk result (λ recording.
        history_of_lines (map (λ line. line.now) lines.now) ≡ Ok recording.history) }
    ensures times { IfOk result (λ recording.
        recording.times.items ≡ times_of_lines (map (λ line. line.now) lines.now)) }
    ensures lost { IfOk result (λ recording.
        recording.lost ≡ lost_of_lines (map (λ line. line.now) lines.now)) }
    ensures bad { IfErr result (λ refusal.
        IsRecordRefusal refusal (history_of_lines (map (λ line. line.now) lines.now))) }
{
    let [first, records @ ..] = lines else {
        return Err(RecordRefusal::BadRecord(1));
    };
    let Some((format, lost)) = heading(alloc, first)? else {
        return Err(RecordRefusal::BadRecord(1));
    };
    let (history, times) = history(alloc, format, records)?;
    Ok(Recording {
        history,
        times,
        lost,
    })
}

/// The history that a text holds: its first line is the format, and each further line is a record. Where it holds none,
/// the refusal has the first line that is not what stands there, or memory was refused. Its time is linear in the text, but
/// for the first format, whose marks want counts of those who entered: there it grows as n log n.
pub fn read(alloc: Global, text: &[u8]) -> Result<History<Text, Result<Text, Text>>, RecordRefusal>
    ensures ok { IfOk result (λ history. history_of text.now ≡ Ok history) }
    ensures bad { IfErr result (λ refusal. IsRecordRefusal refusal (history_of text.now)) }
{
    let Recording { history, .. } = read_recording(alloc, text)?;
    Ok(history)
}

/// What `read` reads, with the time of each event and the number of events that were lost. The formats before the fourth
/// have no times, and nothing is lost in them.
#[tactic(auto, unfolding(crate::specs::RecordText::history_of, crate::specs::RecordText::times_of, crate::specs::RecordText::lost_of))]
pub fn read_recording(alloc: Global, text: &[u8]) -> Result<Recording, RecordRefusal>
    ensures ok { IfOk result (λ recording. history_of text.now ≡ Ok recording.history) }
    ensures times { IfOk result (λ recording. recording.times.items ≡ times_of text.now) }
    ensures lost { IfOk result (λ recording. recording.lost ≡ lost_of text.now) }
    ensures bad { IfErr result (λ refusal. IsRecordRefusal refusal (history_of text.now)) }
{
    let lines = lines(alloc, text)?;
    recording_of_lines(alloc, lines.as_slice())
}

/// A text holds a history exactly where its first line is a format and its further lines are the records of the history's
/// events: a law of the definitions, with nothing to run.
pub fn history_is_records()
    ensures { HistoryIsRecords }
{}

/// The refused line is the least that is not what stands there: a law of the definitions, with nothing to run.
pub fn failure_is_least_bad()
    ensures { FailureIsLeastBad }
{}
