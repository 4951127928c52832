//! The picture of a witness.

ghost use Rattle.std.specs.Prelude.{IfOk, string_bytes};
ghost use Rattle.sf_pictures.specs.Pictures.{IsPictureOf};

use crate::races::axis::{Axis, LEFT};
use crate::races::bars::{Bar, Chosen, Look, bars};
use crate::races::labels::key_text;
use crate::races::picture::{EDGE, EDGE_OF_TEXTS, PAGE};
use crate::races::stays::{Stay, stays};
use crate::svg::{begin, end, path, rect, text, text_width};
use sf_history::Memory;
use sf_replay::{Interval, TextEvent};
use sf_replay_timed::Witness;
use sf_verdicts::{explain_witness, place};
use std::alloc::Global;

// How the marks look; no colour says anything.
const STYLE: &str = "<style>
text { font: 13px monospace; paint-order: stroke; stroke: #fff; stroke-width: 3; }
.title, .strong { font-weight: bold; }
.note, .when { fill: #555; }
.paper { fill: #fff; }
.event { fill: #fff; stroke: #000; }
.named { fill: #000; stroke: #000; }
.any, .any-named { fill: none; stroke: #000; stroke-dasharray: 6 5; }
.any-named { stroke-width: 3; }
.lane { stroke: #ccc; }
.end { stroke: #999; stroke-dasharray: 2 4; }
.stay, .moment { fill: none; stroke: #000; stroke-width: 5; }
.moment { stroke-dasharray: 3 3; }
.fold { fill: none; stroke: #000; stroke-width: 1.5; }
.time, .arrow { fill: none; stroke: #000; marker-end: url(#head); }
.arrow { stroke-width: 2; }
</style>
<defs><marker id=\"head\" viewBox=\"0 0 10 10\" refX=\"9\" refY=\"5\" markerWidth=\"8\" markerHeight=\"8\" markerUnits=\"userSpaceOnUse\" orient=\"auto\"><path d=\"M0 0L10 5L0 10z\"/></marker></defs>
";

// The least width, for the legend.
const LEAST: usize = 620;
// The height of a line of text.
const LINE: usize = 20;
// The height of the line of a call that keeps others out.
const STAY: usize = 36;
// The height of a row of bars, with their labels and times.
const ROW: usize = 54;
// The height of a bar.
const BAR: usize = 12;
// The width of the bar of an event that began and ended at one moment.
const POINT: usize = 4;
// Where arrows go up and down: between the callers and the first moment.
const GUTTER: usize = 126;
// Where arrows go to the left and to the right in a row: below its times.
const BELOW: usize = 51;

// What a picture shows.
#[derive(Drop)]
struct Picture {
    /// What stands between the verdict and the marks, line by line.
    notes: Vec<String>,
    stays: Vec<Stay>,
    bars: Vec<Bar>,
    /// The bars of the event that has to come first, and of the one that has to follow it and ended before.
    reversed: Option<(usize, usize)>,
    axis: Axis,
    /// The upper edge of the stays.
    top: usize,
    /// The upper edge of the lanes.
    lanes: usize,
    /// The lower edge of the lanes.
    bottom: usize,
    width: usize,
}

/// The events that no order explains, as SVG: a lane per caller, time to the right, a bar per event from its beginning to its end.
/// Those that the witness names are filled. `verdict` stands above the picture.
///
/// Drawn are the events that explain the verdict (`explain_witness`), and a line says how many more the key has. The picture is at
/// most 900 wide. What stands below the verdict is tested, and no clause speaks of it.
pub fn draw_race(
    alloc: Global,
    verdict: &str,
    witness: Witness,
    events: &[TextEvent],
    times: &[Option<Interval>],
) -> Result<String, Memory>
    ensures { IfOk result (λ picture. IsPictureOf verdict.now (string_bytes picture)) }
{
    let picture = lay_out(alloc, verdict, witness, events, times)?;
    let marks = marks(alloc, &picture)?;
    let size = (picture.width, height(&picture));
    let style = style_of(alloc, verdict)?;
    put_together(alloc, size, style.as_str(), verdict, marks.as_str())
}

// How the marks look, where a verdict that is wider than the page stands in smaller letters. A letter is three fifths as wide as it is
// high.
fn style_of(alloc: Global, verdict: &str) -> Result<String, Memory> {
    let letters = text_width(verdict) / 8;
    let room = PAGE - 2 * EDGE;
    if letters <= room / 8 {
        return Ok(String::from_str(alloc, STYLE)?);
    }
    let high = (room * 5 / 3).checked_div(letters).unwrap_or(6).max(6);
    Ok(format!(in alloc; "<style>.title {{ font-size: {high}px; }}</style>\n{STYLE}")?)
}

// A picture of this size with these marks, and the verdict above them.
fn put_together(
    alloc: Global,
    size: (usize, usize),
    style: &str,
    verdict: &str,
    marks: &str,
) -> Result<String, Memory>
    ensures { IfOk result (λ picture. IsPictureOf verdict.now (string_bytes picture)) }
{
    let (width, height) = size;
    let mut svg = String::new(alloc);
    begin(&mut svg, width, height, style)?;
    text(&mut svg, "title", EDGE, 24, verdict)?;
    svg.push_str(marks)?;
    end(&mut svg)?;
    Ok(svg)
}

// All marks of a picture below its title.
fn marks(alloc: Global, picture: &Picture) -> Result<String, Memory> {
    let mut svg = String::new(alloc);
    for (line, says) in picture.notes.iter().enumerate() {
        let y = line.saturating_mul(LINE).saturating_add(24 + LINE);
        text(&mut svg, "note", EDGE, y, says.as_str())?;
    }
    draw_lanes(alloc, &mut svg, picture)?;
    draw_ends(alloc, &mut svg, picture)?;
    for (line, stay) in picture.stays.iter().enumerate() {
        let top = line.saturating_mul(STAY).saturating_add(picture.top);
        draw_stay(alloc, &mut svg, picture, stay, top)?;
    }
    draw_reversed(alloc, &mut svg, picture)?;
    for bar in picture.bars.iter() {
        draw_bar(&mut svg, picture, bar)?;
    }
    draw_legend(alloc, &mut svg, picture)?;
    Ok(svg)
}

// The events that are drawn.
fn choose<'a>(
    alloc: Global,
    witness: Witness,
    events: &'a [TextEvent],
    times: &[Option<Interval>],
) -> Result<Chosen<'a>, Memory> {
    let explained = explain_witness(alloc, witness, events, times)?;
    let mut places = explained.others;
    for place in explained.named.iter() {
        places.push(*place)?;
    }
    places.sort()?;
    places.dedup();
    Ok(Chosen {
        key: explained.key,
        named: explained.named,
        places,
        left_out: explained.left_out,
    })
}

// The picture of a witness, laid out.
fn lay_out(
    alloc: Global,
    verdict: &str,
    witness: Witness,
    events: &[TextEvent],
    times: &[Option<Interval>],
) -> Result<Picture, Memory> {
    let chosen = choose(alloc, witness, events, times)?;
    let axis = Axis::new(alloc, chosen.places.as_slice(), times)?;
    let notes = notes(alloc, &chosen, &axis)?;
    let stays = stays(alloc, witness, &axis, events, times)?;
    let bars = bars(alloc, &axis, &chosen, events, times)?;
    let reversed = reversed(witness, bars.as_slice());
    let top = notes.len().saturating_mul(LINE).saturating_add(LINE * 2);
    let lanes = stays.len().saturating_mul(STAY).saturating_add(top);
    let rows = match bars.last() {
        Some(last) => last.row.saturating_add(1),
        None => 0,
    };
    let bottom = rows.saturating_mul(ROW).saturating_add(lanes);
    let edge = edge_of_bars(stays.as_slice(), bars.as_slice(), &axis);
    let width = edge.max(edge_of_head(verdict, notes.as_slice())).min(PAGE);
    Ok(Picture {
        notes,
        stays,
        bars,
        reversed,
        axis,
        top,
        lanes,
        bottom,
        width,
    })
}

// The lines between the verdict and the marks.
fn notes(alloc: Global, chosen: &Chosen<'_>, axis: &Axis) -> Result<Vec<String>, Memory> {
    let mut notes = Vec::new(alloc);
    if let Some(key) = chosen.key {
        let key = key_text(alloc, key)?;
        notes.push(format!(in alloc; "key {key}")?)?;
    }
    if let Some(first) = axis.first() {
        let unit = axis.unit().name();
        notes.push(format!(in alloc;
            "times in {unit}, counted from {first} ns; distances are not to scale"
        )?)?;
    }
    if axis.folds.len() > 0 {
        notes.push(format!(in alloc; "// below: time in which nothing of this happens")?)?;
    }
    if chosen.left_out > 0 {
        let left_out = chosen.left_out;
        notes.push(format!(in alloc; "{left_out} more events are left out")?)?;
    }
    Ok(notes)
}

// The bar of the event of this number.
fn bar_of_number(bars: &[Bar], number: u64) -> Option<usize> {
    bars.iter().position(|bar| bar.place == place(number))
}

// The bars between which the arrow of a witness goes.
fn reversed(witness: Witness, bars: &[Bar]) -> Option<(usize, usize)> {
    match witness {
        Witness::Reversed { first, second } => {
            let first = bar_of_number(bars, first)?;
            let second = bar_of_number(bars, second)?;
            Some((first, second))
        }
        _ => None,
    }
}

// The right edge of a picture, for its verdict and the lines below it.
fn edge_of_head(verdict: &str, notes: &[String]) -> usize {
    let mut width = text_width(verdict);
    for line in notes {
        width = width.max(text_width(line.as_str()));
    }
    width.saturating_add(EDGE * 2)
}

// The right edge of a picture, for its marks.
fn edge_of_bars(stays: &[Stay], bars: &[Bar], axis: &Axis) -> usize {
    let mut edge = axis.right().saturating_add(EDGE).max(LEAST);
    for stay in stays {
        edge = edge.max(text_width(stay.says.as_str()).saturating_add(stay_text(stay)));
    }
    for bar in bars {
        edge = edge.max(bar.edge());
    }
    edge.saturating_add(EDGE)
}

// Where the text of a stay begins.
fn stay_text(stay: &Stay) -> usize {
    let last = EDGE_OF_TEXTS.saturating_sub(text_width(stay.says.as_str()));
    stay.left.min(last)
}

// The upper edge of the legend.
fn legend_top(picture: &Picture) -> usize {
    picture.bottom.saturating_add(44)
}

// The height of a picture. The legend has a line more where there is an arrow.
fn height(picture: &Picture) -> usize {
    let lines = if picture.reversed.is_some() { 5 } else { 4 };
    legend_top(picture).saturating_add(LINE.saturating_mul(lines))
}

// The upper edge of a row.
fn row_top(picture: &Picture, row: usize) -> usize {
    row.saturating_mul(ROW).saturating_add(picture.lanes)
}

// The caller of each lane, a line above each lane, and the line of time below them all.
fn draw_lanes(alloc: Global, svg: &mut String, picture: &Picture) -> Result<(), Memory> {
    let mut caller = 0;
    let edge = picture.width.saturating_sub(EDGE);
    for bar in picture.bars.iter() {
        if bar.caller != caller {
            caller = bar.caller;
            let top = row_top(picture, bar.row);
            let way = format!(in alloc; "M{EDGE} {top}H{edge}")?;
            path(svg, "lane", way.as_str())?;
            let says = format!(in alloc; "caller {caller}")?;
            text(svg, "caller", EDGE, top.saturating_add(31), says.as_str())?;
        }
    }
    let bottom = picture.bottom.saturating_add(8);
    let way = format!(in alloc; "M{LEFT} {bottom}H{edge}")?;
    path(svg, "time", way.as_str())?;
    draw_folds(alloc, svg, picture, bottom)?;
    text(svg, "note", EDGE, bottom.saturating_add(5), "time")
}

// Two strokes through the line of time where it is folded.
fn draw_folds(alloc: Global, svg: &mut String, picture: &Picture, y: usize) -> Result<(), Memory> {
    let (high, low) = (y.saturating_sub(6), y.saturating_add(6));
    for middle in picture.axis.folds.iter() {
        let (left, right) = (middle.saturating_sub(5), middle.saturating_add(5));
        let way = format!(in alloc; "M{left} {low}L{middle} {high}M{middle} {low}L{right} {high}")?;
        path(svg, "fold", way.as_str())?;
    }
    Ok(())
}

// A line down from where each event that the witness names begins and ends.
fn draw_ends(alloc: Global, svg: &mut String, picture: &Picture) -> Result<(), Memory> {
    let (top, bottom) = (picture.top, picture.bottom.saturating_add(8));
    for bar in picture.bars.iter() {
        if bar.look.is_named && bar.look.is_timed {
            let (left, right) = (bar.left, bar.right);
            let way = format!(in alloc; "M{left} {top}V{bottom}M{right} {top}V{bottom}")?;
            path(svg, "end", way.as_str())?;
        }
    }
    Ok(())
}

// The line of a call that keeps others out; one that nothing ended goes to the right edge.
fn draw_stay(
    alloc: Global,
    svg: &mut String,
    picture: &Picture,
    stay: &Stay,
    top: usize,
) -> Result<(), Memory> {
    let y = top.saturating_add(24);
    let left = stay.left;
    let right = if stay.is_endless {
        picture.width.saturating_sub(EDGE)
    } else {
        stay.right.max(left.saturating_add(POINT))
    };
    let class = if stay.lasts { "stay" } else { "moment" };
    text(
        svg,
        "note",
        stay_text(stay),
        top.saturating_add(14),
        stay.says.as_str(),
    )?;
    let way = format!(in alloc; "M{left} {y}H{right}")?;
    path(svg, class, way.as_str())
}

// The class of a bar.
fn bar_class(look: Look) -> &'static str {
    match (look.is_named, look.is_timed) {
        (true, true) => "named",
        (false, true) => "event",
        (true, false) => "any-named",
        (false, false) => "any",
    }
}

// The middle of a bar, from above.
fn middle(picture: &Picture, bar: &Bar) -> usize {
    row_top(picture, bar.row).saturating_add(20 + BAR / 2)
}

// Where a bar begins, and how wide it is. That of an event without a time goes to the right edge.
fn extent(picture: &Picture, bar: &Bar) -> (usize, usize) {
    if !bar.look.is_timed {
        let edge = picture.width.saturating_sub(EDGE);
        return (bar.left, edge.saturating_sub(bar.left));
    }
    if bar.left < bar.right {
        (bar.left, bar.right.saturating_sub(bar.left))
    } else {
        (bar.left.saturating_sub(POINT / 2), POINT)
    }
}

// A bar, with its label above and its time below it.
fn draw_bar(svg: &mut String, picture: &Picture, bar: &Bar) -> Result<(), Memory> {
    let top = row_top(picture, bar.row);
    let class = bar_class(bar.look);
    let (left, width) = extent(picture, bar);
    rect(svg, class, (left, top.saturating_add(20)), (width, BAR), 0)?;
    let says = if bar.look.is_named { "strong" } else { "label" };
    text(
        svg,
        says,
        bar.texts(),
        top.saturating_add(15),
        bar.label.as_str(),
    )?;
    text(
        svg,
        "when",
        bar.texts(),
        top.saturating_add(46),
        bar.when.as_str(),
    )
}

// Where an arrow goes up and down beside a bar: left of its texts, and right of those before it.
fn beside(bar: &Bar) -> usize {
    bar.texts().saturating_sub(8)
}

// Where an arrow goes to the left and to the right below a bar: between its time and the next row.
fn below(picture: &Picture, bar: &Bar) -> usize {
    row_top(picture, bar.row).saturating_add(BELOW)
}

// The arrow from the event that has to come first to the one that has to follow it. It goes where no labels are.
fn draw_reversed(alloc: Global, svg: &mut String, picture: &Picture) -> Result<(), Memory> {
    let Some((first, second)) = picture.reversed else {
        return Ok(());
    };
    let (Some(first), Some(second)) = (picture.bars.get(first), picture.bars.get(second)) else {
        return Ok(());
    };
    let way = way_between(alloc, picture, first, second)?;
    path(svg, "arrow", way.as_str())
}

// The way from the left edge of a bar to that of another one.
fn way_between(
    alloc: Global,
    picture: &Picture,
    first: &Bar,
    second: &Bar,
) -> Result<String, Memory> {
    let (from, to) = (first.left, second.left);
    let (out, into) = (beside(first), beside(second));
    let (begin, end) = (middle(picture, first), middle(picture, second));
    let (leaves, enters) = (below(picture, first), below(picture, second));
    if first.row == second.row {
        return Ok(format!(in alloc; "M{from} {begin}H{out}V{leaves}H{into}V{end}H{to}")?);
    }
    Ok(format!(in alloc; "M{from} {begin}H{out}V{leaves}H{GUTTER}V{enters}H{into}V{end}H{to}")?)
}

// A line of the legend.
fn draw_meaning(
    svg: &mut String,
    class: &str,
    line: usize,
    top: usize,
    says: &str,
) -> Result<(), Memory> {
    let y = line.saturating_mul(LINE).saturating_add(top);
    rect(svg, class, (EDGE, y), (30, BAR), 0)?;
    text(svg, "note", 60, y.saturating_add(11), says)
}

// What the bars and the arrow mean.
fn draw_legend(alloc: Global, svg: &mut String, picture: &Picture) -> Result<(), Memory> {
    let top = legend_top(picture);
    draw_meaning(svg, "named", 0, top, "an event that the verdict names")?;
    draw_meaning(svg, "event", 1, top, "another event of the key")?;
    draw_meaning(
        svg,
        "any",
        2,
        top,
        "an event without a time: it can be at any moment",
    )?;
    if picture.reversed.is_some() {
        let y = top.saturating_add(LINE.saturating_mul(3)).saturating_add(6);
        let way = format!(in alloc; "M46 {y}H{EDGE}")?;
        path(svg, "arrow", way.as_str())?;
        text(
            svg,
            "note",
            60,
            y.saturating_add(5),
            "from the event that has to come first to the one that has to follow it",
        )?;
    }
    Ok(())
}
