//! What helps with a line that is no record.

use crate::hints::{Hint, index};
use serde_json::Value;
use sf_replay::{RecordRefusal, read, read_logs};
use std::alloc::Global;

/// More about the first line that is no record.
pub(crate) fn record_hint(alloc: Global, input: &[u8]) -> Option<Hint> {
    let Err(RecordRefusal::BadRecord(line)) = read(alloc, input) else {
        return None;
    };
    if line > 1 && names_format(alloc, line_of(input, line)) {
        return Some(Hint {
            line,
            says: ANOTHER_LOG,
        });
    }
    line_hint(alloc, input, line, format_of(alloc, input))
}

// What is said of a line that names a format behind the first one. A recorder writes such a line where it loses events.
const ANOTHER_LOG: &str =
    "another log begins here, and `check` reads one; `sfctl merge < LOG | sfctl check` merges them first, and so does `sfctl check --merge < LOG`";

// Whether a line is an object that names a format.
fn names_format(alloc: Global, line: &[u8]) -> bool {
    match Value::from_slice(alloc, line) {
        Ok(value) => value.get("format").is_some(),
        Err(_) => false,
    }
}

/// More about the first line of logs that is no record.
pub(crate) fn log_hint(alloc: Global, input: &[u8]) -> Option<Hint> {
    let Err(RecordRefusal::BadRecord(line)) = read_logs(alloc, input) else {
        return None;
    };
    line_hint(alloc, input, line, format_before(alloc, input, line))
}

// More about a line that is no record, after a first line of this format.
fn line_hint(alloc: Global, input: &[u8], line: u64, format: u64) -> Option<Hint> {
    if line == 1 || names_format(alloc, line_of(input, line)) {
        return Some(Hint {
            line,
            says: "expected {\"format\":4,\"lost\":N}, {\"format\":3}, {\"format\":2} or {\"format\":1}",
        });
    }
    match Value::from_slice(alloc, line_of(input, line)) {
        Ok(record) => Some(Hint {
            line,
            says: record_says(&record, format),
        }),
        Err(error) if error.is_memory() => None,
        Err(_) => Some(Hint {
            line,
            says: "the line is not JSON; expected an object such as {\"e\":\"handed\",\"by\":1,\"c\":[1,1]}",
        }),
    }
}

// The line of this number, from 1.
fn line_of(input: &[u8], line: u64) -> &[u8] {
    input
        .split(|byte| *byte == b'\n')
        .nth(index(line))
        .unwrap_or_default()
}

// The format that the input's first line names.
fn format_of(alloc: Global, input: &[u8]) -> u64 {
    match Value::from_slice(alloc, line_of(input, 1)) {
        Ok(first) => first.get("format").and_then(Value::as_u64).unwrap_or(3),
        Err(_) => 3,
    }
}

// The format that the last first line of a log names before the line of this number.
fn format_before(alloc: Global, input: &[u8], line: u64) -> u64 {
    let mut format = 3;
    for first in input.split(|byte| *byte == b'\n').take(index(line)) {
        if let Ok(first) = Value::from_slice(alloc, first) {
            if let Some(named) = first.get("format").and_then(Value::as_u64) {
                format = named;
            }
        }
    }
    format
}

// Whether these names, `e` and no others stand in the record, but for the time that a record of format 4 may have.
fn has(record: &Value, names: &[&str], format: u64) -> bool {
    let time = usize::from(format == 4 && record.get("at").is_some());
    match record.as_object() {
        Some(members) => {
            members.len().saturating_sub(1) == names.len() + time
                && names.iter().all(|name| record.get(*name).is_some())
        }
        None => false,
    }
}

// Whether the time of a record of format 4 is no pair of readings.
fn has_bad_time(record: &Value, format: u64) -> bool {
    if format != 4 {
        return false;
    }
    let Some(time) = record.get("at") else {
        return false;
    };
    match time.as_array().map(|readings| readings.as_slice()) {
        Some([from, to]) => match (from.as_u64(), to.as_u64()) {
            (Some(from), Some(to)) => to < from,
            _ => true,
        },
        _ => true,
    }
}

// What is wrong with a value that is no record of this format.
fn record_says(record: &Value, format: u64) -> &'static str {
    if has_bad_time(record, format) {
        return "expected `at` to be [FROM,TO], two readings of one clock in nanoseconds, such as [1000,1180]";
    }
    match record.get("e").and_then(Value::as_str) {
        Some("lead") if !has(record, &["by", "k", "c", "own"], format) => {
            "expected the names e, by, k, c and own, such as {\"e\":\"lead\",\"by\":1,\"k\":\"k\",\"c\":[1,1],\"own\":null}"
        }
        Some("enter") if !has(record, &["by", "k", "c", "m"], format) => {
            "expected the names e, by, k, c and m, such as {\"e\":\"enter\",\"by\":2,\"k\":\"k\",\"c\":[1,1],\"m\":[2,1]}"
        }
        Some("forget") if !has(record, &["by", "k", "closed"], format) => {
            "expected the names e, by, k and closed, such as {\"e\":\"forget\",\"by\":3,\"k\":\"k\",\"closed\":[1,1]}"
        }
        Some("forgetcall") if format < 3 =>
            "forgetcall needs format 3 or 4; the first line is then {\"format\":3}",
        Some("forgetcall") if !has(record, &["by", "k", "c", "hit"], format) => {
            "expected the names e, by, k, c and hit, such as {\"e\":\"forgetcall\",\"by\":3,\"k\":\"k\",\"c\":[1,1],\"hit\":\"missed\"}"
        }
        Some("settle") => settle_says(record, format),
        Some("handed") if !has(record, &["by", "c"], format) =>
            "expected the names e, by and c, such as {\"e\":\"handed\",\"by\":1,\"c\":[1,1]}",
        Some("lead") | Some("enter") | Some("forget") | Some("forgetcall") | Some("handed") =>
            VALUES,
        _ if format < 3 => "expected an object in which e is lead, enter, forget, settle or handed",
        _ => "expected an object in which e is lead, enter, forget, forgetcall, settle or handed",
    }
}

// What is wrong with a settle that is no record of this format.
fn settle_says(record: &Value, format: u64) -> &'static str {
    let joiners = if format == 1 { "shared" } else { "joiners" };
    if has(record, &["by", "c", "ok", joiners], format)
        || has(record, &["by", "c", "err", joiners], format)
    {
        VALUES
    } else if format == 1 {
        "expected the names e, by, c, shared, and ok or err, such as {\"e\":\"settle\",\"by\":1,\"c\":[1,1],\"ok\":\"v\",\"shared\":true}"
    } else {
        "expected the names e, by, c, joiners, and ok or err, such as {\"e\":\"settle\",\"by\":1,\"c\":[1,1],\"ok\":\"v\",\"joiners\":1}"
    }
}

const VALUES: &str =
    "a value has the wrong type or is out of range; callers are 1 to 65535, generations 1 to 4294967295, joiners 0 to 4294967295, a hit is closed, cleared or missed, keys have at most 250 bytes";
