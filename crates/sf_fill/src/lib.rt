//! Fills: what groupcache does for a missing key, over a group of callers.
//!
//! A getter gets a key: it looks in two caches, and else leads the key's call and loads, or waits for the one that leads it.
//! A reload forgets a key, so that the next get loads it again. Getters stand side by side, one a thread; a lock is held to
//! look, to put and to enter what was counted, and never while one loads or waits.
//!
//! | To | Call |
//! | --- | --- |
//! | make a fill and its getters | `Fill::new`, with all its parts; which directory, group and ledgers they are is named by `Naming` |
//! | have what is at hand, without a load | `get_bytes_if_present`, `get_if_present` |
//! | get, reload | `get`, `reload` |
//! | go on with a delivery that was refused memory | `owes`, `settle_up` |
//! | count | `Fill::book` while it runs, `enter` for the last hits of a getter's near letters, `gather` at the end |
//! | see what happened | `take_log` |
//! | spend a getter | `end`, or `gather` |
//! | add a getter, or go on with a spare caller | `with_loaders`, `renew` |
#![tactic(auto)]

mod chair;
mod fill;
mod get;
mod getter;
mod hit;
mod keeps;
mod parts;
mod put;
mod reload;
mod seat;

pub use fill::Fill;
pub use getter::Getter;
pub use keeps::Keeps;
pub use parts::{FillParts, RefusedParts};
pub use put::Put;
pub use sf_fill_caches::{CacheStats, Which};
pub use sf_fill_counters::{Accounts, AllParts, GetCounts, Ledgers, Naming, Tallies, Totals};
pub use sf_fill_store::Forgot;
pub use sf_fill_values::{FillValue, GetRefusal, LoadFault, View};
