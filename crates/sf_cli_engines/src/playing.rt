//! What `sfctl steps` prints of a schedule, and draws.

ghost use Rattle.std.specs.Prelude.{IfOk, IfErr, string_bytes};
ghost use Rattle.std.specs.Str.Lines.{lines};
ghost use Rattle.sf_steps_text.specs.Played.{IsRefusalOf};
ghost use Rattle.sf_cli_engines.specs.Playing.{IsTraceText, HasPicture};

use sf_pictures::draw_steps;
use sf_steps_text::{ScheduleRefusal, play, trace_text};
use std::alloc::Global;

/// What the steps of a schedule print.
pub(crate) fn traced(alloc: Global, schedule: &[u8]) -> Result<String, ScheduleRefusal>
    ensures played { IfOk result (λ text. IsTraceText schedule.now (string_bytes text)) }
    ensures refused { IfErr result (λ refusal. IsRefusalOf (lines schedule.now) refusal) }
{
    let trace = play(alloc, schedule)?;
    Ok(trace_text(alloc, trace.steps.as_slice())?)
}

/// The picture of what the steps of a schedule do.
pub(crate) fn drawn(alloc: Global, schedule: &[u8]) -> Result<String, ScheduleRefusal>
    ensures played { IfOk result (λ _. HasPicture schedule.now) }
    ensures refused { IfErr result (λ refusal. IsRefusalOf (lines schedule.now) refusal) }
{
    let trace = play(alloc, schedule)?;
    Ok(draw_steps(alloc, &trace)?)
}
