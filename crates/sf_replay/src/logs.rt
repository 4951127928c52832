//! Reading logs that stand in a text one after another.

ghost use Rattle.std.specs.Prelude.{◌≡◌, Ok, IfOk, IfErr, map, length};
ghost use Rattle.sf_replay.specs.Logs.{nothing_read, with_lost, logs_of, logs_of_lines, logs_in, IsLogRefusal};

use crate::entered::Entered;
use crate::reading::{RecordRefusal, Recording, heading, lines, record};
use crate::record::FIRST_FORMAT;
use sf_history::History;
use std::alloc::Global;

// The logs of these lines, of which the first is the text's second. The first log has this format, and says that so many
// events were lost.
fn logs_after(
    alloc: Global,
    first: u32,
    said: u64,
    lines: &[&[u8]],
) -> Result<Recording, RecordRefusal>
    ensures ok { IfOk result (λ r. logs_of 2 first (with_lost nothing_read said)
        (map (λ line. line.now) lines.now)
        ≡ Ok (record { events = r.history; times = r.times.items; lost = r.lost })) }
    ensures times { IfOk result (λ r. length r.times.items ≡ length r.history) }
    ensures bad { IfErr result (λ refusal. IsLogRefusal refusal
        (logs_of 2 first (with_lost nothing_read said) (map (λ line. line.now) lines.now))) }
{
    let mut format = first;
    let mut lost = said;
    let mut events = Vec::new(alloc);
    let mut times = Vec::new(alloc);
    let mut entered = Entered::new(alloc);
    for (i, line) in lines.iter().enumerate() {
        if let Some((next, more)) = heading(alloc, line)? {
            format = next;
            lost = lost.saturating_add(more);
            continue;
        }
        let Some((event, time)) = record(alloc, format, &entered, line)? else {
            return Err(RecordRefusal::BadRecord(i as u64 + 2));
        };
        entered.note(FIRST_FORMAT, &event)?;
        events.push(event)?;
        times.push(time)?;
    }
    Ok(Recording {
        history: History::from_vec(events),
        times,
        lost,
    })
}

// The logs of these lines, of which the first is the text's first.
fn logs_of_lines(alloc: Global, lines: &[&[u8]]) -> Result<Recording, RecordRefusal>
    ensures ok { IfOk result (λ r. logs_of_lines (map (λ line. line.now) lines.now)
        ≡ Ok (record { events = r.history; times = r.times.items; lost = r.lost })) }
    ensures times { IfOk result (λ r. length r.times.items ≡ length r.history) }
    ensures bad { IfErr result (λ refusal.
        IsLogRefusal refusal (logs_of_lines (map (λ line. line.now) lines.now))) }
{
    let [first, records @ ..] = lines else {
        return Err(RecordRefusal::BadRecord(1));
    };
    match heading(alloc, first)? {
        Some((format, lost)) => logs_after(alloc, format, lost, records),
        None => Err(RecordRefusal::BadRecord(1)),
    }
}

/// The logs that stand in a text one after another, each with a format in its first line, as one recording of all their
/// events: with the time of each, and the sum of the events that were lost, which stays at 18,446,744,073,709,551,615 once it is
/// that much. A mark of the first format counts those who entered in all lines before.
#[tactic(auto, unfolding(crate::specs::Logs::logs_in))]
pub fn read_logs(alloc: Global, text: &[u8]) -> Result<Recording, RecordRefusal>
    ensures ok { IfOk result (λ r. logs_in text.now
        ≡ Ok (record { events = r.history; times = r.times.items; lost = r.lost })) }
    ensures times { IfOk result (λ r. length r.times.items ≡ length r.history) }
    ensures bad { IfErr result (λ refusal. IsLogRefusal refusal (logs_in text.now)) }
{
    let lines = lines(alloc, text)?;
    logs_of_lines(alloc, lines.as_slice())
}
