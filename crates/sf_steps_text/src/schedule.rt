//! Schedules in text, played.

ghost use Rattle.std.specs.Prelude.{map, IfOk, IfErr, nat_eq};
ghost use Rattle.std.specs.Str.Lines.{lines};
ghost use Rattle.sf_history.specs.Legal.{IsLegal};
ghost use Rattle.sf_steps_text.specs.Played.{IsTraceOf, IsRefusalOf, events_in};

use crate::player::Player;
use crate::reading::line_of;
use crate::refusal::ScheduleRefusal;
use sf_steps::Step;
use sf_text::Outcome;
use std::alloc::Global;

/// What the steps of a schedule do, in their order.
#[derive(Drop)]
pub struct Trace {
    /// The steps.
    pub steps: Vec<Step<Outcome>>,
}

/// Plays the schedule that this text says, with 64 callers and 64 places. It is refused at the first line that says
/// no turn, or a turn that is not allowed there.
pub fn play(alloc: Global, text: &[u8]) -> Result<Trace, ScheduleRefusal>
    ensures ok { IfOk result (λ trace. IsTraceOf (lines text.now) trace.steps.items) }
    ensures legal { IfOk result (λ trace. IsLegal nat_eq (events_in trace.steps.items)) }
    ensures refused { IfErr result (λ e. IsRefusalOf (lines text.now) e) }
{
    let lines = sf_text::lines(alloc, text)?;
    play_lines(alloc, lines.as_slice())
}

fn play_lines(alloc: Global, lines: &[&[u8]]) -> Result<Trace, ScheduleRefusal>
    ensures ok { IfOk result (λ trace. IsTraceOf (map (λ l. l.now) lines.now) trace.steps.items) }
    ensures legal { IfOk result (λ trace. IsLegal nat_eq (events_in trace.steps.items)) }
    ensures refused { IfErr result (λ e. IsRefusalOf (map (λ l. l.now) lines.now) e) }
{
    let mut player = Player::new(alloc)?;
    for (i, line) in lines.iter().enumerate() {
        let Some(said) = line_of(alloc, line)? else {
            return Err(ScheduleRefusal::BadSchedule(i as u64 + 1));
        };
        if !player.obey(said)? {
            return Err(ScheduleRefusal::BadSchedule(i as u64 + 1));
        }
    }
    Ok(Trace {
        steps: player.steps,
    })
}
