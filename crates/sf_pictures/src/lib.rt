//! Pictures as SVG: of schedules, with a column per caller and a row per step; and of events that no order explains, with a lane per caller and
//! time to the right.
#![tactic(auto)]

mod races;
mod steps;
mod svg;

pub use races::draw_race;
pub use steps::draw_steps;
