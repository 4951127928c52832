//! The waiting forms, jobs that workers do, and several threads that ask one group at once.

mod busy;
pub(crate) mod callers;
mod jobs;
mod reloading;
mod scenes;
mod seats;
mod sharing;
mod stage;
mod value;
mod waiting;
