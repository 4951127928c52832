//! Where the events of a history come from: the lines of its records.

use serde_json::Value;
use sf_history::Memory;
use sf_replay::{Interval, Recording, TextEvent, read_logs};
use std::alloc::Global;

/// The line of a record.
#[derive(Clone, Copy)]
pub(crate) struct Line<'a> {
    /// Its number in the input, from 1.
    pub(crate) number: u64,
    /// What stands there.
    pub(crate) text: &'a [u8],
}

/// The records of an input, in their order.
#[derive(Drop)]
pub(crate) struct Sources<'a> {
    lines: Vec<Line<'a>>,
    /// The events of the lines, where those that are asked for stand in another order.
    logs: Option<Recording>,
}

// Whether a line begins a log: it names a format, which no record does.
fn begins_log(alloc: Global, line: &[u8]) -> bool {
    match Value::from_slice(alloc, line) {
        Ok(value) => value.get("format").is_some(),
        Err(_) => false,
    }
}

impl<'a> Sources<'a> {
    /// The records of one log, which are asked for in their order.
    pub(crate) fn of_log(alloc: Global, input: &'a [u8]) -> Result<Sources<'a>, Memory> {
        let mut lines = Vec::new(alloc);
        for (place, text) in input.split(|byte| *byte == b'\n').enumerate() {
            if place > 0 {
                let number = (place as u64).saturating_add(1);
                lines.push(Line { number, text })?;
            }
        }
        Ok(Sources { lines, logs: None })
    }

    /// The records of logs that stand one after another, which are asked for in the order of merged histories.
    pub(crate) fn of_logs(alloc: Global, input: &'a [u8]) -> Result<Sources<'a>, Memory> {
        let Ok(logs) = read_logs(alloc, input) else {
            return Err(Memory);
        };
        let mut lines = Vec::new(alloc);
        for (place, text) in input.split(|byte| *byte == b'\n').enumerate() {
            if !begins_log(alloc, text) {
                let number = (place as u64).saturating_add(1);
                lines.push(Line { number, text })?;
            }
        }
        Ok(Sources {
            lines,
            logs: Some(logs),
        })
    }

    /// The line of the event at this place, which has this time.
    pub(crate) fn line(
        &self,
        place: usize,
        event: &TextEvent,
        time: Option<Interval>,
    ) -> Option<Line<'a>> {
        match &self.logs {
            None => self.lines.get(place).copied(),
            Some(logs) => {
                let found = place_in(logs, event, time)?;
                self.lines.get(found).copied()
            }
        }
    }
}

// The place in the logs of an event with this time.
fn place_in(logs: &Recording, wanted: &TextEvent, time: Option<Interval>) -> Option<usize> {
    for (place, event) in logs.history.events().iter().enumerate() {
        if logs.times.get(place).copied() == Some(time) && *event == *wanted {
            return Some(place);
        }
    }
    None
}
