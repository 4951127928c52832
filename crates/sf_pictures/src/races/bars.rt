//! The bars of a picture: one per event, in a lane per caller. A lane has as many rows as it needs for bars and labels that do not
//! touch.

use crate::races::axis::{Axis, LEFT};
use crate::races::labels::{label, time_text};
use crate::races::picture::EDGE_OF_TEXTS;
use crate::svg::text_width;
use sf_history::Memory;
use sf_replay::{Interval, TextEvent};
use sf_text::Text;
use sf_verdicts::{caller_of, key_of, time_at};
use std::alloc::Global;

// What lies between what stands in one row.
const BETWEEN: usize = 20;

/// The events that are drawn.
#[derive(Drop)]
pub(crate) struct Chosen<'a> {
    /// The key of the witness, if an event says it.
    pub(crate) key: Option<&'a Text>,
    /// The places of those that the witness names.
    pub(crate) named: Vec<usize>,
    /// The places of all, in the order of the record.
    pub(crate) places: Vec<usize>,
    /// How many more there are of the key.
    pub(crate) left_out: u64,
}

/// How a bar looks.
#[derive(Clone, Copy, PartialEq, Eq)]
pub(crate) struct Look {
    /// Whether the witness names the event.
    pub(crate) is_named: bool,
    /// Whether the event has a time.
    pub(crate) is_timed: bool,
}

/// A bar.
#[derive(Drop)]
pub(crate) struct Bar {
    /// The place of its event.
    pub(crate) place: usize,
    pub(crate) caller: u32,
    /// Where the event began, and where it ended.
    pub(crate) left: usize,
    pub(crate) right: usize,
    /// The row that it lies in, of all rows.
    pub(crate) row: usize,
    pub(crate) look: Look,
    /// What stands above it.
    pub(crate) label: String,
    /// What stands below it: its time.
    pub(crate) when: String,
}

impl Bar {
    // The width of its texts.
    fn width(&self) -> usize {
        text_width(self.label.as_str()).max(text_width(self.when.as_str()))
    }

    /// Where its texts begin: where the bar does, or left of it where they would not fit the page.
    pub(crate) fn texts(&self) -> usize {
        let last = EDGE_OF_TEXTS.saturating_sub(self.width()).max(LEFT);
        self.left.min(last)
    }

    /// Where the bar and its texts end.
    pub(crate) fn edge(&self) -> usize {
        self.texts().saturating_add(self.width()).max(self.right)
    }
}

// What events are sorted by: caller, those with a time first, and their times.
#[derive(Clone, Copy, PartialEq, Eq, PartialOrd, Ord)]
struct Order {
    caller: u32,
    is_untimed: bool,
    from: u64,
    to: u64,
    place: usize,
}

// The places of the events by their callers, and for each caller in the order of time.
fn orders(
    alloc: Global,
    chosen: &Chosen<'_>,
    events: &[TextEvent],
    times: &[Option<Interval>],
) -> Result<Vec<Order>, Memory> {
    let mut orders = Vec::new(alloc);
    for place in chosen.places.iter() {
        if let Some(event) = events.get(*place) {
            let time = time_at(times, *place);
            let (from, to) = match time {
                Some(time) => (time.from, time.to),
                None => (0, 0),
            };
            orders.push(Order {
                caller: caller_of(event),
                is_untimed: time.is_none(),
                from,
                to,
                place: *place,
            })?;
        }
    }
    orders.sort()?;
    Ok(orders)
}

// The first of these rows whose last bar ends left of `left`, or a new one.
fn free_row(edges: &mut Vec<usize>, left: usize, edge: usize) -> Result<usize, Memory> {
    for (row, last) in edges.iter_mut().enumerate() {
        if last.saturating_add(BETWEEN) <= left {
            *last = edge;
            return Ok(row);
        }
    }
    let row = edges.len();
    edges.push(edge)?;
    Ok(row)
}

// The bar of an event, in the first row.
fn bar_of_event(
    alloc: Global,
    axis: &Axis,
    chosen: &Chosen<'_>,
    order: Order,
    event: &TextEvent,
    time: Option<Interval>,
) -> Result<Bar, Memory> {
    let (left, right) = match time {
        Some(time) => (axis.at(time.from), axis.at(time.to)),
        None => (LEFT, axis.right()),
    };
    let other_key = match key_of(event) {
        Some(key) if chosen.key != Some(key) => Some(key),
        _ => None,
    };
    Ok(Bar {
        place: order.place,
        caller: order.caller,
        left,
        right,
        row: 0,
        look: Look {
            is_named: chosen.named.contains(&order.place),
            is_timed: time.is_some(),
        },
        label: label(alloc, order.place, event, other_key)?,
        when: time_text(alloc, time, axis)?,
    })
}

/// The bars of the events that are drawn, a lane after the other, each in its row.
pub(crate) fn bars(
    alloc: Global,
    axis: &Axis,
    chosen: &Chosen<'_>,
    events: &[TextEvent],
    times: &[Option<Interval>],
) -> Result<Vec<Bar>, Memory> {
    let mut bars: Vec<Bar> = Vec::new(alloc);
    let mut edges: Vec<usize> = Vec::new(alloc);
    let mut above = 0usize;
    let mut caller = 0;
    for order in orders(alloc, chosen, events, times)? {
        if order.caller != caller {
            above = above.saturating_add(edges.len());
            edges.clear();
            caller = order.caller;
        }
        if let Some(event) = events.get(order.place) {
            let time = time_at(times, order.place);
            let mut bar = bar_of_event(alloc, axis, chosen, order, event, time)?;
            let row = free_row(&mut edges, bar.texts(), bar.edge())?;
            bar.row = above.saturating_add(row);
            bars.push(bar)?;
        }
    }
    Ok(bars)
}
