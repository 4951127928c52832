//! What helps with a line that is no turn of its schedule.

use crate::hints::{Hint, index};
use sf_history::Memory;
use sf_steps_text::{ScheduleRefusal, play};
use sf_text::{call, is_token, lines, number, words};
use std::alloc::{AllocError, Global};

/// More about the first line that is no turn.
pub(crate) fn turn_hint(alloc: Global, input: &[u8]) -> Option<Hint> {
    let Err(ScheduleRefusal::BadSchedule(line)) = play(alloc, input) else {
        return None;
    };
    let Ok(lines) = lines(alloc, input) else {
        return None;
    };
    let refused = str::from_utf8(lines.get(index(line))?).unwrap_or_default();
    let Ok(words) = words(alloc, refused) else {
        return None;
    };
    let before = lines.as_slice().get(..index(line))?;
    match turn_says(alloc, words.as_slice(), before) {
        Ok(says) => Some(Hint { line, says }),
        Err(_) => None,
    }
}

fn is_number(word: &str, greatest: u32) -> bool {
    number(word, greatest).is_some()
}

// Whether the words say an operation.
fn is_operation(words: &[&str]) -> bool {
    match *words {
        ["ask", place] | ["forget", place] | ["named", place] => is_number(place, 64),
        ["chan", second, place] => is_number(second, 64) && is_number(place, 64),
        ["settle", kind, text] => (kind == "ok" || kind == "err") && is_token(text),
        ["poll"] => true,
        ["current", place, named] | ["forgetcall", place, named] => {
            is_number(place, 64) && call(named).is_some()
        }
        _ => false,
    }
}

// What is wrong with the words after these lines.
fn turn_says(alloc: Global, words: &[&str], before: &[&[u8]]) -> Result<&'static str, AllocError> {
    match *words {
        ["do", caller, ref operation @ ..] => {
            if !is_number(caller, 64) || !is_operation(operation) {
                return Ok(
                    "expected `do CALLER`, then `ask PLACE`, `chan SECOND PLACE`, `settle ok TEXT`, `settle err TEXT`, `forget PLACE`, `forgetcall PLACE CALL`, `poll`, `current PLACE CALL` or `named PLACE`, such as `do 1 ask 1`; callers and places are 1 to 64",
                );
            }
            if may_step(alloc, before, caller)? {
                return Ok("this caller's last operation has not ended; `step CALLER` continues it");
            }
            Ok(condition(operation))
        }
        ["step", caller] if is_number(caller, 64) => Ok(NO_STEP),
        ["step", caller, count] if is_number(caller, 64) && is_number(count, 1_000) => Ok(NO_STEP),
        ["step", ..] => Ok(
            "expected `step CALLER` or `step CALLER COUNT`, such as `step 1 3`; callers are 1 to 64, counts 1 to 1000",
        ),
        ["drop", caller] if is_number(caller, 64) => {
            Ok("a caller can drop an operation only right after a failed exchange")
        }
        ["drop", ..] => Ok("expected `drop CALLER`, such as `drop 1`; callers are 1 to 64"),
        _ => Ok("expected do, step or drop, such as `do 1 ask 1`"),
    }
}

const NO_STEP: &str = "this caller has no operation that can make so many steps; `do` begins one";

// Whether an operation of the caller can make a step after these lines.
fn may_step(alloc: Global, before: &[&[u8]], caller: &str) -> Result<bool, AllocError> {
    let mut schedule: Vec<u8> = Vec::new(alloc);
    for line in before {
        schedule.extend_from_slice(line)?;
        schedule.extend_from_slice(b"\n")?;
    }
    schedule.extend_from_slice(b"step ")?;
    schedule.extend_from_slice(caller.as_bytes())?;
    Ok(play(alloc, schedule.as_slice()).is_ok())
}

// The condition of an operation.
fn condition(operation: &[&str]) -> &'static str {
    match *operation {
        ["settle", ..] => "`settle` needs a caller that leads a call",
        ["forget", ..] | ["forgetcall", ..] =>
            "`forget` and `forgetcall` need a free caller: it leads no call and waits for no result",
        ["poll"] => "`poll` needs a caller that waits for a result",
        ["current", ..] => "`current` needs a free caller, and a call that was led at this place",
        ["named", ..] => "`named` needs a free caller: it leads no call and waits for no result",
        _ =>
            "`ask` and `chan` need free callers with generations left; the two of a `chan` are different",
    }
}
