//! Records of histories: what is written for a history, what a text of records says, and logs that are merged.
#![tactic(auto)]

mod entered;
mod logs;
mod merging;
mod merging_times;
mod reading;
mod record;
mod text_keys;
mod writing;

pub use logs::read_logs;
pub use merging::merge;
pub use merging_times::merge_recording;
pub use reading::{
    RecordRefusal, Recording, failure_is_least_bad, history_is_records, read, read_recording,
};
pub use record::{Interval, TextEvent};
pub use text_keys::with_text_keys;
pub use writing::{write, write_recording};
