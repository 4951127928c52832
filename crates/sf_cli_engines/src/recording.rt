//! What `--history` prints in place of lines: the records of a history.

ghost use Rattle.std.specs.Prelude.{◌≡◌, IfOk, IfErr, string_bytes};
ghost use Rattle.std.specs.List.{flat_map};
ghost use Rattle.std.specs.Str.Lines.{lines};
ghost use Rattle.sf_model.specs.ScriptText.{IsDue};
ghost use Rattle.sf_steps_text.specs.Played.{IsRefusalOf};
ghost use Rattle.sf_cli_engines.specs.Recording.{IsScriptRecords, IsScheduleRecords};

use sf_history::{Event, Memory};
use sf_model::{ScriptRefusal, obey_script};
use sf_replay::{with_text_keys, write};
use sf_steps::Step;
use sf_steps_text::{ScheduleRefusal, play};
use sf_text::Outcome;
use sf_words::PlaceNo;
use std::alloc::Global;

/// The records of what happened in the group that a script leaves.
pub(crate) fn script_records(alloc: Global, input: &[u8]) -> Result<String, ScriptRefusal>
    ensures obeyed { IfOk result (λ text. IsScriptRecords input.now (string_bytes text)) }
    ensures refused { IfErr result (IsDue input.now) }
{
    let (_lines, group) = obey_script(alloc, input)?;
    Ok(write(alloc, group.history())?)
}

/// The records of the events that the steps of a schedule add.
#[tactic(auto, using(crate::proofs::Recorded::flat_events))]
pub(crate) fn schedule_records(alloc: Global, schedule: &[u8]) -> Result<String, ScheduleRefusal>
    ensures played { IfOk result (λ text. IsScheduleRecords schedule.now (string_bytes text)) }
    ensures refused { IfErr result (λ refusal. IsRefusalOf (lines schedule.now) refusal) }
{
    let trace = play(alloc, schedule)?;
    let history = with_text_keys(alloc, events(alloc, trace.steps)?)?;
    Ok(write(alloc, &history)?)
}

// The events that the steps added, in their order.
fn events(alloc: Global, steps: Vec<Step<Outcome>>) -> Result<Vec<Event<PlaceNo, Outcome>>, Memory>
    ensures { IfOk result (λ events. events.items ≡ flat_map (λ s. s.events.items) steps.items) }
{
    let mut all = Vec::new(alloc);
    for step in steps {
        let mut events = step.events;
        all.append(&mut events)?;
    }
    Ok(all)
}
