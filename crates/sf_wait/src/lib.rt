//! The group's calls that may have to wait for others as forms that do, a do with a load, and workers that do jobs side by
//! side: what x/sync's `singleflight` has as `Do` and `DoChan`.
//!
//! The forms have the rows of the table of calls, if they return. To settle a call and to hand its letters out waits for
//! nobody: `finish_wait` and `go_on_wait` are the group's own `finish` and `go_on`. `begin_chan_wait` is `do_chan`.
//!
//! | To do as | Call |
//! | --- | --- |
//! | `Do` | `do_with`: it leads and calls the load, or waits for another's answer |
//! | `DoChan` | `do_chan` for the ticket; the leader's flight and its work make a `Job`, which a worker of `serve` does |
//! | `Forget` | `forget_wait` |
//! | a Forget of one call, which leaves a newer one | `forget_call_wait` |
#![tactic(auto)]

mod doing;
mod job;
mod serving;
mod waiting;
mod workers;

pub use doing::{DoFault, do_with};
pub use job::{Job, Work};
pub use serving::{MOST_JOBS, Unserved, serve};
pub use waiting::{
    begin_wait, do_chan, do_chan as begin_chan_wait, finish_wait, forget_call_wait, forget_wait,
    go_on_wait, wait,
};
pub use workers::{Gate, Served};
