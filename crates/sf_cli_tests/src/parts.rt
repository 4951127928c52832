//! What the engines stand on: the sequential group, scripts, words, the machine of schedules, and records.

mod history;
pub(crate) mod merging;
mod reading;
mod replay;
mod scripts;
mod steps;
mod words;
