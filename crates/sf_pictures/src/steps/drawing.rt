//! The picture of a trace.

use crate::steps::arrows::{Arrow, arrows, exchange};
use crate::steps::boxes::{Kind, step_box};
use crate::steps::layout::{Layout, middle};
use crate::svg::{begin, end, path, text};
use sf_history::Memory;
use sf_steps::{Act, Step};
use sf_steps_text::{Trace, step_text};
use sf_text::Outcome;
use std::alloc::Global;

// How the marks look; no colour says anything.
const STYLE: &str = "<style>
text { font: 13px monospace; }
.middle { text-anchor: middle; }
.end { text-anchor: end; fill: #666; }
.paper { fill: #fff; }
.load, .store, .exchange, .failed { fill: #fff; stroke: #000; }
.exchange, .failed { stroke-width: 3; }
.failed { stroke-dasharray: 7 4; }
.life { stroke: #bbb; }
.event { stroke: #888; stroke-dasharray: 1 4; }
.cross { fill: none; stroke: #000; stroke-width: 2; }
.arrow { fill: none; stroke: #000; stroke-width: 1.5; marker-end: url(#head); }
</style>
<defs><marker id=\"head\" viewBox=\"0 0 10 10\" refX=\"9\" refY=\"5\" markerWidth=\"8\" markerHeight=\"8\" orient=\"auto\"><path d=\"M0 0L10 5L0 10z\"/></marker></defs>
";

// The kinds of boxes, as the legend has them.
const LEGEND: [(Kind, &str, &str); 4] = [
    (
        Kind::Load,
        "load",
        "loads a word: look, peek, follow, collect",
    ),
    (Kind::Store, "store", "stores a word: ready, link, deliver"),
    (
        Kind::Exchange,
        "exchange",
        "exchanges a word: lead, enter, close, clear",
    ),
    (
        Kind::Failed,
        "failed",
        "fails: the exchange at the arrow's tail changed the word",
    ),
];

/// The trace as SVG: a column a caller, a row a step, time downwards. Each box says what its step loaded, stored or exchanged;
/// events and answers stand at the right edge; an arrow goes from an exchange to one that it made fail.
pub fn draw_steps(alloc: Global, trace: &Trace) -> Result<String, Memory> {
    let steps = trace.steps.as_slice();
    let texts = texts(alloc, steps)?;
    let layout = Layout::new(alloc, steps, texts.as_slice())?;
    let mut svg = String::new(alloc);
    let (width, height) = (layout.whole_width(), layout.whole_height());
    begin(&mut svg, width, height, STYLE)?;
    columns(alloc, &mut svg, &layout)?;
    for arrow in arrows(alloc, steps)?.as_slice() {
        draw_arrow(alloc, &mut svg, &layout, steps, *arrow)?;
    }
    for (row, step) in steps.iter().enumerate() {
        let says = texts.get(row).map(String::as_str).unwrap_or_default();
        draw_step(alloc, &mut svg, &layout, row, step, says)?;
    }
    legend(alloc, &mut svg, layout.bottom())?;
    end(&mut svg)?;
    Ok(svg)
}

// What each step prints.
fn texts(alloc: Global, steps: &[Step<Outcome>]) -> Result<Vec<String>, Memory> {
    let mut texts = Vec::new(alloc);
    for step in steps {
        texts.push(step_text(alloc, step)?)?;
    }
    Ok(texts)
}

// The callers, each above the line of its column.
fn columns(alloc: Global, svg: &mut String, layout: &Layout) -> Result<(), Memory> {
    let bottom = layout.bottom();
    for caller in layout.callers.as_slice() {
        let centre = layout.left(*caller).saturating_add(layout.width / 2);
        let says = format!(in alloc; "caller {caller}")?;
        text(svg, "middle", centre, 28, says.as_str())?;
        let way = format!(in alloc; "M{centre} 36V{bottom}")?;
        path(svg, "life", way.as_str())?;
    }
    Ok(())
}

// What a step does with its word.
fn kind(act: Act) -> Kind {
    match exchange(act) {
        Some(true) => Kind::Exchange,
        Some(false) => Kind::Failed,
        None => match act {
            Act::Ready { .. } | Act::Link { .. } | Act::Deliver { .. } => Kind::Store,
            _ => Kind::Load,
        },
    }
}

// The row of a step: its number, its box, and its events or its answer.
fn draw_step(
    alloc: Global,
    svg: &mut String,
    layout: &Layout,
    row: usize,
    step: &Step<Outcome>,
    says: &str,
) -> Result<(), Memory> {
    let at = middle(row);
    let number = format!(in alloc; "{}", row.saturating_add(1))?;
    text(svg, "end", 40, at.saturating_add(5), number.as_str())?;
    for (line, said) in says.split('\n').enumerate() {
        if line == 0 {
            let act = match said.split_once(' ') {
                Some((_, act)) => act,
                None => said,
            };
            let left = layout.left(step.caller);
            step_box(alloc, svg, kind(step.act), left, layout.width, at, act)?;
        } else if !said.is_empty() {
            draw_event(alloc, svg, layout, step.caller, at, line, said)?;
        }
    }
    Ok(())
}

// An event or an answer at the right edge, and the line to it.
fn draw_event(
    alloc: Global,
    svg: &mut String,
    layout: &Layout,
    caller: u32,
    at: usize,
    line: usize,
    says: &str,
) -> Result<(), Memory> {
    let edge = layout.events();
    if line == 1 {
        let (from, to) = (layout.right(caller), edge.saturating_sub(6));
        let way = format!(in alloc; "M{from} {at}H{to}")?;
        path(svg, "event", way.as_str())?;
    }
    let below = line.saturating_sub(1).saturating_mul(16);
    text(
        svg,
        "event-text",
        edge,
        at.saturating_add(5).saturating_add(below),
        says,
    )
}

// An arrow down a gutter beside the box that it ends at.
fn draw_arrow(
    alloc: Global,
    svg: &mut String,
    layout: &Layout,
    steps: &[Step<Outcome>],
    arrow: Arrow,
) -> Result<(), Memory> {
    let (Some(maker), Some(failed)) = (steps.get(arrow.from), steps.get(arrow.to)) else {
        return Ok(());
    };
    let (high, low) = (middle(arrow.from).saturating_add(8), middle(arrow.to));
    // Neighbouring arrows go down beside one another.
    let aside = (arrow.to % 4).saturating_mul(6).saturating_add(14);
    let way = if maker.caller < failed.caller {
        let (from, to) = (layout.right(maker.caller), layout.left(failed.caller));
        let gutter = to.saturating_sub(aside);
        format!(in alloc; "M{from} {high}H{gutter}V{low}H{to}")?
    } else {
        let to = layout.right(failed.caller);
        let from = if maker.caller == failed.caller {
            to
        } else {
            layout.left(maker.caller)
        };
        let gutter = to.saturating_add(aside);
        format!(in alloc; "M{from} {high}H{gutter}V{low}H{to}")?
    };
    path(svg, "arrow", way.as_str())
}

// What the boxes and the arrows mean.
fn legend(alloc: Global, svg: &mut String, top: usize) -> Result<(), Memory> {
    for (line, (kind, name, says)) in LEGEND.iter().enumerate() {
        let at = line
            .saturating_mul(40)
            .saturating_add(50)
            .saturating_add(top);
        step_box(alloc, svg, *kind, 16, 120, at, name)?;
        text(svg, "event-text", 152, at.saturating_add(5), says)?;
    }
    Ok(())
}
