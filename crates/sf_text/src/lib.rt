//! Texts, and the tools that scripts, schedules and records are read and written with: lines, words, numbers, whole inputs
//! and whole answers.
#![tactic(auto)]

mod splitting;
mod stream;
mod text;
mod tokens;

pub use splitting::lines;
pub use stream::{READS, ReadFault, StreamFault, read_all, write_all, write_line};
pub use text::{Outcome, Text};
pub use tokens::{call, is_token, number, words};
