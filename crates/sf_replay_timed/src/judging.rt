//! Whether the events of a recording are legal in time.

ghost use Rattle.std.specs.Prelude.{◌≡◌, IfOk, length};
ghost use Rattle.sf_replay_timed.specs.InTime.{IsFoundIn};

use crate::ordering::in_order;
use crate::ranks::ranks;
use crate::respecting::respects_time;
use crate::witness::{Stop, Witness};
use sf_history::{History, Memory};
use sf_replay::Interval;
use sf_replay_check::{Verdict, verdict_on};
use std::alloc::Global;

/// What is found of events with their times.
#[derive(Drop)]
pub enum InTime<K, V> {
    /// They have an order that is legal and respects the times: this one.
    Legal {
        /// The events in that order.
        history: History<K, V>,
        /// The time of each of them.
        times: Vec<Option<Interval>>,
    },
    /// They have no such order, since some of them have none.
    NoOrder(Witness),
    /// No order was found, and no events that have none. Where it is a Forget that missed its call which found no place,
    /// this is its number, counted from 1.
    Undecided(Option<u64>),
}

/// Whether these events, each with its time if it has one, have an order that is a legal history and in which no event stands
/// before one that had ended when it began. Their own order says nothing. Its time is that of a sort.
///
/// That an order is one is proved; that a witness has none is tested against all orders of small histories.
pub fn judge_in_time<K: Ord + Drop, V: Drop>(
    alloc: Global,
    history: History<K, V>,
    times: &[Option<Interval>],
) -> Result<InTime<K, V>, Memory>
    requires times { length times.now ≡ length history }
    ensures { IfOk result (IsFoundIn K.eq history times.now) }
{
    let ranks = match ranks(alloc, history.events(), times) {
        Ok(ranks) => ranks,
        Err(Stop::No(witness)) => return Ok(InTime::NoOrder(witness)),
        Err(Stop::Undecided(event)) => return Ok(InTime::Undecided(Some(event))),
        Err(Stop::Memory) => return Err(Memory),
    };
    let (history, times) = in_order(alloc, ranks.as_slice(), history, times)?;
    if let Verdict::Legal = verdict_on(alloc, &history) {
        if respects_time(times.as_slice()) {
            return Ok(InTime::Legal { history, times });
        }
    }
    Ok(InTime::Undecided(None))
}
