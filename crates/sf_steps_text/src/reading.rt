//! The lines of schedules, read.

ghost use Rattle.std.specs.Prelude.{[], ◌∷◌, map, IfOk, codes};
ghost use Rattle.sf_text.specs.Words.{words};
ghost use Rattle.sf_steps_text.specs.ScheduleText.{IsOp, IsLine};

use crate::schedule_line::ScheduleLine;
use sf_history::Memory;
use sf_steps_laws::Op;
use sf_text::{Outcome, Text, call, is_token, number, words};
use std::alloc::Global;

// The largest number of a caller or a place in a schedule.
const LARGEST: u32 = 64;
// The largest number of steps in one line.
const STEPS: u32 = 1_000;

#[tactic(auto, unfolding(crate::specs::ScheduleText::IsLine))]
fn drops(caller: &str) -> Option<ScheduleLine>
    ensures { IsLine (codes "drop" ∷ caller.now ∷ []) result }
{
    let caller = number(caller, LARGEST)?;
    Some(ScheduleLine::Drop { caller })
}

#[tactic(auto, unfolding(crate::specs::ScheduleText::IsLine))]
fn one_step(caller: &str) -> Option<ScheduleLine>
    ensures { IsLine (codes "step" ∷ caller.now ∷ []) result }
{
    let caller = number(caller, LARGEST)?;
    Some(ScheduleLine::Steps { caller, count: 1 })
}

#[tactic(auto, unfolding(crate::specs::ScheduleText::IsLine))]
fn steps(caller: &str, count: &str) -> Option<ScheduleLine>
    ensures { IsLine (codes "step" ∷ caller.now ∷ count.now ∷ []) result }
{
    let caller = number(caller, LARGEST)?;
    let count = number(count, STEPS)?;
    Some(ScheduleLine::Steps { caller, count })
}

#[tactic(auto, unfolding(crate::specs::ScheduleText::IsOp))]
fn settle(alloc: Global, kind: &str, text: &str) -> Result<Option<Op<Outcome>>, Memory>
    ensures { IfOk result (IsOp (codes "settle" ∷ kind.now ∷ text.now ∷ [])) }
{
    if !is_token(text) {
        return Ok(None);
    }
    let result = match kind {
        "ok" => Ok(Text::copied(alloc, text)?),
        "err" => Err(Text::copied(alloc, text)?),
        _ => return Ok(None),
    };
    Ok(Some(Op::Settle { result }))
}

#[tactic(auto, unfolding(crate::specs::ScheduleText::IsOp))]
fn ask(place: &str) -> Option<Op<Outcome>>
    ensures { IsOp (codes "ask" ∷ place.now ∷ []) result }
{
    let place = number(place, LARGEST)?;
    Some(Op::Ask { place })
}

#[tactic(auto, unfolding(crate::specs::ScheduleText::IsOp))]
fn forget(place: &str) -> Option<Op<Outcome>>
    ensures { IsOp (codes "forget" ∷ place.now ∷ []) result }
{
    let place = number(place, LARGEST)?;
    Some(Op::Forget { place })
}

#[tactic(auto, unfolding(crate::specs::ScheduleText::IsOp))]
fn chan(second: &str, place: &str) -> Option<Op<Outcome>>
    ensures { IsOp (codes "chan" ∷ second.now ∷ place.now ∷ []) result }
{
    let second = number(second, LARGEST)?;
    let place = number(place, LARGEST)?;
    Some(Op::Chan { second, place })
}

#[tactic(auto, unfolding(crate::specs::ScheduleText::IsOp))]
fn current(place: &str, named: &str) -> Option<Op<Outcome>>
    ensures { IsOp (codes "current" ∷ place.now ∷ named.now ∷ []) result }
{
    let place = number(place, LARGEST)?;
    let call = call(named)?;
    Some(Op::Current { place, call })
}

#[tactic(auto, unfolding(crate::specs::ScheduleText::IsOp))]
fn forget_call(place: &str, named: &str) -> Option<Op<Outcome>>
    ensures { IsOp (codes "forgetcall" ∷ place.now ∷ named.now ∷ []) result }
{
    let place = number(place, LARGEST)?;
    let call = call(named)?;
    Some(Op::ForgetCall { place, call })
}

#[tactic(auto, unfolding(crate::specs::ScheduleText::IsOp))]
fn named(place: &str) -> Option<Op<Outcome>>
    ensures { IsOp (codes "named" ∷ place.now ∷ []) result }
{
    let place = number(place, LARGEST)?;
    Some(Op::Named { place })
}

// The operation that the words after `do` and a caller say.
#[tactic(auto, unfolding(crate::specs::ScheduleText::IsOp))]
fn op_of_words(alloc: Global, words: &[&str]) -> Result<Option<Op<Outcome>>, Memory>
    ensures { IfOk result (IsOp (map (λ w. w.now) words.now)) }
{
    match *words {
        ["ask", place] => Ok(ask(place)),
        ["chan", second, place] => Ok(chan(second, place)),
        ["settle", kind, text] => settle(alloc, kind, text),
        ["forget", place] => Ok(forget(place)),
        ["forgetcall", place, call] => Ok(forget_call(place, call)),
        ["named", place] => Ok(named(place)),
        ["poll"] => Ok(Some(Op::Poll)),
        ["current", place, named] => Ok(current(place, named)),
        _ => Ok(None),
    }
}

#[tactic(auto, unfolding(crate::specs::ScheduleText::IsLine, crate::specs::ScheduleText::IsOp))]
fn does(alloc: Global, caller: &str, words: &[&str]) -> Result<Option<ScheduleLine>, Memory>
    ensures { IfOk result (IsLine (codes "do" ∷ caller.now ∷ map (λ w. w.now) words.now)) }
{
    let Some(caller) = number(caller, LARGEST) else {
        return Ok(None);
    };
    match op_of_words(alloc, words)? {
        Some(op) => Ok(Some(ScheduleLine::Do { caller, op })),
        None => Ok(None),
    }
}

// What the words of a line say, if they say something.
#[tactic(auto, unfolding(crate::specs::ScheduleText::IsLine))]
fn line_of_words(alloc: Global, words: &[&str]) -> Result<Option<ScheduleLine>, Memory>
    ensures { IfOk result (IsLine (map (λ w. w.now) words.now)) }
{
    match *words {
        ["step", caller] => Ok(one_step(caller)),
        ["step", caller, count] => Ok(steps(caller, count)),
        ["drop", caller] => Ok(drops(caller)),
        ["do", caller, ref op @ ..] => does(alloc, caller, op),
        _ => Ok(None),
    }
}

// What a line of a schedule says, if it says something.
#[tactic(auto, unfolding(crate::specs::ScheduleText::IsLine))]
fn text_line(alloc: Global, line: &str) -> Result<Option<ScheduleLine>, Memory>
    ensures { IfOk result (IsLine (words line.now)) }
{
    let words = words(alloc, line)?;
    line_of_words(alloc, words.as_slice())
}

/// What a line of a schedule says, if it says something; a line may be any bytes.
#[tactic(auto, unfolding(crate::specs::ScheduleText::IsLine))]
pub(crate) fn line_of(alloc: Global, line: &[u8]) -> Result<Option<ScheduleLine>, Memory>
    ensures { IfOk result (IsLine (words line.now)) }
{
    match str::from_utf8(line) {
        Ok(line) => text_line(alloc, line),
        Err(_) => Ok(None),
    }
}
