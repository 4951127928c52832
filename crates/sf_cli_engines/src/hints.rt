//! What is said below an answer, on standard error: what helps with a line that is refused, and what explains a verdict. No clause
//! says it.

use crate::ending::Ending;
use crate::engine::{Engine, Judged};
use crate::record_hints::{log_hint, record_hint};
use crate::telling::{told_of_log, told_of_logs};
use crate::turn_hints::turn_hint;
use sf_model::{ScriptRefusal, run_script};
use sf_text::lines;
use std::alloc::Global;
use std::fmt;

/// More about a line that is refused: its number, from 1, and what is wrong there or was expected.
#[derive(Clone, Copy)]
pub struct Hint {
    pub(crate) line: u64,
    pub(crate) says: &'static str,
}

impl fmt::Display for Hint {
    fn fmt<W: fmt::Write>(&self, f: &mut fmt::Formatter<W>) -> fmt::Result {
        let line = self.line;
        let says = self.says;
        write!(f, "hint: line {line}: {says}")
    }
}

/// What is said below an answer: whole lines.
#[derive(Drop)]
pub enum Said {
    /// More about a line that is refused.
    Hint(Hint),
    /// What explains a verdict.
    Lines(String),
}

impl fmt::Display for Said {
    fn fmt<W: fmt::Write>(&self, f: &mut fmt::Formatter<W>) -> fmt::Result {
        match self {
            Said::Hint(hint) => writeln!(f, "{hint}"),
            Said::Lines(lines) => f.write_str(lines.as_str()),
        }
    }
}

/// What is said below the answer of an engine that ended so.
pub fn said_below(alloc: Global, engine: Engine, ending: Ending, input: &[u8]) -> Option<Said> {
    match (ending, engine) {
        (Ending::Refused, _) => Some(Said::Hint(hint_for(alloc, engine, input)?)),
        (_, Engine::Check(judged)) if is_told(ending, judged) => {
            Some(Said::Lines(told_of_log(alloc, judged, input)?))
        }
        (_, Engine::CheckLogs(judged)) if is_told(ending, judged) => {
            Some(Said::Lines(told_of_logs(alloc, judged, input)?))
        }
        _ => None,
    }
}

// Whether a verdict is explained: one that is not good, and that on each key in any case.
fn is_told(ending: Ending, judged: Judged) -> bool {
    match judged {
        Judged::EachKey | Judged::EachKeyInTime => true,
        _ => ending == Ending::Illegal || ending == Ending::Incomplete,
    }
}

/// More about the line for which an engine refuses an input; none where no line's form is the cause, or memory is refused.
pub fn hint_for(alloc: Global, engine: Engine, input: &[u8]) -> Option<Hint> {
    match engine {
        Engine::Run { .. } => command_hint(alloc, input),
        Engine::Steps(_) => turn_hint(alloc, input),
        Engine::Check(_) => record_hint(alloc, input),
        Engine::CheckLogs(_) | Engine::Merge => log_hint(alloc, input),
    }
}

/// The place in a list of the line of this number.
pub(crate) fn index(line: u64) -> usize {
    line.saturating_sub(1) as usize
}

fn command_hint(alloc: Global, input: &[u8]) -> Option<Hint> {
    let mut written: Vec<u8> = Vec::new(alloc);
    let Ok(Err(ScriptRefusal::BadLine(line))) = run_script(alloc, input, &mut written) else {
        return None;
    };
    let Ok(lines) = lines(alloc, input) else {
        return None;
    };
    let refused = lines.get(index(line))?;
    let refused = str::from_utf8(refused).unwrap_or_default();
    let says = command_form(refused.split(' ').next().unwrap_or_default());
    Some(Hint { line, says })
}

// The form of the command that begins with this word.
fn command_form(word: &str) -> &'static str {
    match word {
        "ask" =>
            "expected `ask CALLER KEY`, such as `ask 1 k`; callers are 1 to 65535, keys have 1 to 250 bytes",
        "chan" =>
            "expected `chan CALLER SECOND KEY`, such as `chan 1 2 k`; callers are 1 to 65535, keys have 1 to 250 bytes",
        "settle" => {
            "expected `settle CALLER ok TEXT` or `settle CALLER err TEXT`, such as `settle 1 ok v`; callers are 1 to 65535, texts have 1 to 250 bytes"
        }
        "forget" =>
            "expected `forget CALLER KEY`, such as `forget 1 k`; callers are 1 to 65535, keys have 1 to 250 bytes",
        "forgetcall" => {
            "expected `forgetcall CALLER KEY CALL`, such as `forgetcall 2 k 1.1`; callers are 1 to 65535, generations 1 to 4294967295, keys have 1 to 250 bytes"
        }
        "take" => "expected `take CALLER`, such as `take 1`; callers are 1 to 65535",
        "current" => {
            "expected `current KEY CALL`, such as `current k 1.1`; callers are 1 to 65535, generations 1 to 4294967295, keys have 1 to 250 bytes"
        }
        _ => "expected ask, chan, settle, forget, forgetcall, take or current, such as `ask 1 k`",
    }
}
