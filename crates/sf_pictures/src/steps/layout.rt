//! Where the parts of a picture lie, in pixels.

use crate::svg::text_width;
use sf_history::Memory;
use sf_steps::Step;
use sf_text::Outcome;
use std::alloc::Global;

// The height of a step's row.
const ROW: usize = 44;
// What lies between two columns; arrows go down there.
const GUTTER: usize = 40;
// Where the first gutter begins: the numbers of the steps stand left of it.
const LEFT: usize = 48;
// Where the first row begins: the callers stand above it.
const TOP: usize = 44;
// What a box has beside its text, for the mark of a failed exchange.
const MARGIN: usize = 48;
// The least width, for the legend.
const LEAST: usize = 620;
// The height of the legend.
const LEGEND: usize = 220;

/// The columns and the widths of a picture.
#[derive(Drop)]
pub(crate) struct Layout {
    /// The callers that have a column, in their order.
    pub(crate) callers: Vec<u32>,
    /// The width of a box.
    pub(crate) width: usize,
    /// The width of the events.
    side: usize,
    rows: usize,
}

impl Layout {
    /// The layout of steps that print these texts.
    pub(crate) fn new(
        alloc: Global,
        steps: &[Step<Outcome>],
        texts: &[String],
    ) -> Result<Layout, Memory> {
        let (width, side) = widths(texts);
        Ok(Layout {
            callers: callers(alloc, steps)?,
            width: width.saturating_add(MARGIN),
            side,
            rows: texts.len(),
        })
    }

    /// The left edge of a caller's boxes.
    pub(crate) fn left(&self, caller: u32) -> usize {
        let column = self
            .callers
            .iter()
            .position(|one| *one == caller)
            .unwrap_or(0);
        self.column(column)
    }

    // The left edge of the boxes in a column.
    fn column(&self, column: usize) -> usize {
        column
            .saturating_mul(self.width.saturating_add(GUTTER))
            .saturating_add(LEFT + GUTTER)
    }

    /// The right edge of a caller's boxes.
    pub(crate) fn right(&self, caller: u32) -> usize {
        self.left(caller).saturating_add(self.width)
    }

    /// The left edge of the events.
    pub(crate) fn events(&self) -> usize {
        self.column(self.callers.len())
    }

    /// The width of the picture.
    pub(crate) fn whole_width(&self) -> usize {
        self.events()
            .saturating_add(self.side)
            .saturating_add(16)
            .max(LEAST)
    }

    /// The lower edge of the steps; the legend is below it.
    pub(crate) fn bottom(&self) -> usize {
        row_top(self.rows)
    }

    /// The height of the picture.
    pub(crate) fn whole_height(&self) -> usize {
        self.bottom().saturating_add(LEGEND)
    }
}

// The upper edge of a row.
fn row_top(row: usize) -> usize {
    row.saturating_mul(ROW).saturating_add(TOP)
}

/// The middle of a row.
pub(crate) fn middle(row: usize) -> usize {
    row_top(row).saturating_add(ROW / 2)
}

// The callers that made a step, in their order.
fn callers(alloc: Global, steps: &[Step<Outcome>]) -> Result<Vec<u32>, Memory> {
    let mut callers = Vec::new(alloc);
    for step in steps {
        if !callers.contains(&step.caller) {
            callers.push(step.caller)?;
        }
    }
    callers.sort()?;
    Ok(callers)
}

// How wide the widest line of a step is, and the widest of an event or an answer.
fn widths(texts: &[String]) -> (usize, usize) {
    let mut width = 0;
    let mut side = 0;
    for text in texts {
        for (line, says) in text.as_str().split('\n').enumerate() {
            let wide = text_width(says);
            if line == 0 {
                width = wide.max(width);
            } else {
                side = wide.max(side);
            }
        }
    }
    (width, side)
}
