//! What explains a verdict: the events that it names, those that it rests on, and the keys that have a fault.
#![tactic(auto)]

mod events;
mod explaining;
mod keys;
mod numbers;
mod subject;
mod times;

pub use events::{call_of, caller_of, key_of};
pub use explaining::{Explained, explain_fault, explain_witness};
pub use keys::{Fault, KeyFault, KeyFaults, faults_in_time, faults_of_keys};
pub use numbers::{named, place};
pub use times::{Unit, time_at, unit_of};
