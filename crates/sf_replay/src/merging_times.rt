//! Recordings, put into the order of merged histories with their times.

ghost use Rattle.std.specs.Prelude.{◌≡◌, IfOk, IsPermutation, IsSortedByKey, map, zip, length, vec_len};
ghost use Rattle.std.specs.Cmp.Lexicographic.{slice_cmp};
ghost use Rattle.std.specs.Ordering.{nat_cmp};
ghost use Rattle.sf_replay.specs.Merged.{standing_cmp, standing_of};

use crate::merging::{Standing, standings};
use crate::reading::Recording;
use crate::record::{Interval, TextEvent};
use sf_history::{History, Memory};
use std::alloc::Global;

// An event with its time, and where it stands.
#[derive(Drop)]
struct Timed {
    standing: Standing,
    event: TextEvent,
    time: Option<Interval>,
}

// The events, each with its standing and its time.
fn with_times(
    alloc: Global,
    standings: &[Standing],
    events: Vec<TextEvent>,
    times: &[Option<Interval>],
) -> Result<Vec<Timed>, Memory>
    requires standings { length standings.now ≡ vec_len events }
    requires times { length times.now ≡ vec_len events }
    ensures events { IfOk result (λ timed. map (λ t. t.event) timed.items ≡ events.items) }
    ensures standings { IfOk result (λ timed. map (λ t. t.standing) timed.items ≡ standings.now) }
    ensures times { IfOk result (λ timed. map (λ t. t.time) timed.items ≡ times.now) }
{
    let mut timed = Vec::new(alloc);
    for event in events {
        let standing = standings[timed.len()];
        let time = times[timed.len()];
        timed.push(Timed {
            standing,
            event,
            time,
        })?;
    }
    Ok(timed)
}

// The events, and their times.
fn apart(
    alloc: Global,
    timed: Vec<Timed>,
) -> Result<(Vec<TextEvent>, Vec<Option<Interval>>), Memory>
    ensures events { IfOk result (λ parts. parts.0.items ≡ map (λ t. t.event) timed.items) }
    ensures times { IfOk result (λ parts. parts.1.items ≡ map (λ t. t.time) timed.items) }
{
    let mut events = Vec::new(alloc);
    let mut times = Vec::new(alloc);
    for one in timed {
        let Timed { event, time, .. } = one;
        events.push(event)?;
        times.push(time)?;
    }
    Ok((events, times))
}

/// The recording in the order of `merge`: each event stands in it once with its time, and nothing else does, in the order of
/// their standings. As many events are lost as were. Its time is that of a sort.
pub fn merge_recording(alloc: Global, recording: Recording) -> Result<Recording, Memory>
    requires times { length recording.times.items ≡ length recording.history }
    ensures once { IfOk result (λ merged. IsPermutation
        (zip recording.history recording.times.items) (zip merged.history merged.times.items)) }
    ensures sorted { IfOk result (λ merged.
        IsSortedByKey (standing_of (slice_cmp nat_cmp) recording.history) standing_cmp
        merged.history) }
    ensures times { IfOk result (λ merged. length merged.times.items ≡ length merged.history) }
    ensures lost { IfOk result (λ merged. merged.lost ≡ recording.lost) }
{
    let Recording {
        history,
        times,
        lost,
    } = recording;
    let events = history.into_vec();
    let standings = standings(alloc, events.as_slice())?;
    let mut timed = with_times(alloc, standings.as_slice(), events, times.as_slice())?;
    timed.sort_by_key(|one| one.standing)?;
    let (events, times) = apart(alloc, timed)?;
    Ok(Recording {
        history: History::from_vec(events),
        times,
        lost,
    })
}
