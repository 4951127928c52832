//! Events in the order of their ranks.

ghost use Rattle.std.specs.Prelude.{◌≡◌, IfOk, IsPermutation, map, zip, length, vec_len};

use crate::ranks::{Part, Rank};
use sf_history::{Event, History, Memory};
use sf_replay::Interval;
use std::alloc::Global;

// An event with its time, and where it stands.
#[derive(Drop)]
struct Ranked<K, V> {
    rank: Rank,
    event: Event<K, V>,
    time: Option<Interval>,
}

// The rank at this place, and the first of all where none is there.
fn rank_at(ranks: &[Rank], place: usize) -> Rank {
    match ranks.get(place) {
        Some(rank) => *rank,
        None => Rank {
            moment: 0,
            key: 0,
            zone: 0,
            part: Part::Before,
        },
    }
}

// The events, each with its rank and its time.
fn with_ranks<K: Drop, V: Drop>(
    alloc: Global,
    ranks: &[Rank],
    events: Vec<Event<K, V>>,
    times: &[Option<Interval>],
) -> Result<Vec<Ranked<K, V>>, Memory>
    requires times { length times.now ≡ vec_len events }
    ensures events { IfOk result (λ ranked. map (λ r. r.event) ranked.items ≡ events.items) }
    ensures times { IfOk result (λ ranked. map (λ r. r.time) ranked.items ≡ times.now) }
{
    let mut ranked = Vec::new(alloc);
    for event in events {
        let rank = rank_at(ranks, ranked.len());
        let time = times[ranked.len()];
        ranked.push(Ranked { rank, event, time })?;
    }
    Ok(ranked)
}

// The events, and their times.
fn apart<K: Drop, V: Drop>(
    alloc: Global,
    ranked: Vec<Ranked<K, V>>,
) -> Result<(Vec<Event<K, V>>, Vec<Option<Interval>>), Memory>
    ensures events { IfOk result (λ parts. parts.0.items ≡ map (λ r. r.event) ranked.items) }
    ensures times { IfOk result (λ parts. parts.1.items ≡ map (λ r. r.time) ranked.items) }
{
    let mut events = Vec::new(alloc);
    let mut times = Vec::new(alloc);
    for one in ranked {
        let Ranked { event, time, .. } = one;
        events.push(event)?;
        times.push(time)?;
    }
    Ok((events, times))
}

/// The events in the order of these ranks, each with its time.
pub(crate) fn in_order<K: Drop, V: Drop>(
    alloc: Global,
    ranks: &[Rank],
    history: History<K, V>,
    times: &[Option<Interval>],
) -> Result<(History<K, V>, Vec<Option<Interval>>), Memory>
    requires times { length times.now ≡ length history }
    ensures once { IfOk result (λ ordered.
        IsPermutation (zip history times.now) (zip ordered.0 ordered.1.items)) }
    ensures even { IfOk result (λ ordered. length ordered.0 ≡ length ordered.1.items) }
{
    let events = history.into_vec();
    let mut ranked = with_ranks(alloc, ranks, events, times)?;
    ranked.sort_by_key(|one| one.rank)?;
    let (events, times) = apart(alloc, ranked)?;
    Ok((History::from_vec(events), times))
}
