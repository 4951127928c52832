//! Pictures of events that no order explains: a lane per caller, time to the right.

mod axis;
mod bars;
mod drawing;
mod labels;
mod picture;
mod stays;

pub use drawing::draw_race;
