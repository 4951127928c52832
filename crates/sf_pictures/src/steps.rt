//! Pictures of schedules: a trace, with a column per caller and a row per step.

mod arrows;
mod boxes;
mod drawing;
mod layout;

pub use drawing::draw_steps;
