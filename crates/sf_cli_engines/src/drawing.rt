//! What `sfctl check --svg` draws of a history that is written as records.

ghost use Rattle.std.specs.Prelude.{ℕ, List, ◌++◌, IsSome, IsNone, IfSome, codes, string_bytes};
ghost use Rattle.sf_pictures.specs.Pictures.{IsPictureOf};
ghost use Rattle.sf_cli_engines.specs.Drawing.{IsDrawnFrom, IsShownAs};
ghost use Rattle.sf_cli_engines.specs.Timing.{timed_text};

use crate::timing::{Found, TimedChecked, judge_times};
use sf_pictures::draw_race;
use sf_replay::{Recording, read_recording};
use sf_replay_timed::Witness;
use std::alloc::Global;

/// What is said of an input, and a picture where events of it have no order.
#[derive(Drop)]
pub(crate) enum Drawn {
    /// This is said, and drawn.
    Picture(TimedChecked, String),
    /// This is said, and nothing is drawn.
    Line(TimedChecked),
}

// The events that are said to have no order.
fn witness_of(checked: TimedChecked) -> Option<Witness>
    ensures found { IsSome result → (text : List ℕ) → IsPictureOf (timed_text checked) text
        → IsShownAs checked text }
    ensures none { IsNone result → IsShownAs checked (timed_text checked ++ codes "\n") }
{
    match checked {
        TimedChecked::Whole(Found::NoOrder(witness))
        | TimedChecked::Incomplete(_, Found::NoOrder(witness)) => Some(witness),
        _ => None,
    }
}

// The picture of what is said of an input; none where memory is refused.
fn picture_of(
    alloc: Global,
    input: &[u8],
    checked: TimedChecked,
    witness: Witness,
) -> Option<String>
    ensures { IfSome result (λ picture. IsPictureOf (timed_text checked) (string_bytes picture)) }
{
    let Ok(verdict) = format!(in alloc; "{checked}") else {
        return None;
    };
    let Ok(Recording { history, times, .. }) = read_recording(alloc, input) else {
        return None;
    };
    match draw_race(
        alloc,
        verdict.as_str(),
        witness,
        history.events(),
        times.as_slice(),
    ) {
        Ok(picture) => Some(picture),
        Err(_) => None,
    }
}

/// Reads records, and looks for an order of their events by their times. Those that have none are drawn.
pub(crate) fn draw_times(alloc: Global, input: &[u8]) -> Drawn
    ensures { IsDrawnFrom input.now result }
{
    let checked = judge_times(alloc, input);
    let Some(witness) = witness_of(checked) else {
        return Drawn::Line(checked);
    };
    // The search has let the events go, so they are read once more.
    match picture_of(alloc, input, checked, witness) {
        Some(picture) => Drawn::Picture(checked, picture),
        None => Drawn::Line(TimedChecked::OutOfMemory),
    }
}
