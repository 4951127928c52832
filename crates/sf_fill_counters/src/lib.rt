//! The counters of a fill: what each getter counts, and what all of them count together; and the names of a fill, its ledgers' among
//! them.
//!
//! A getter counts alone, and enters what it counted in the accounts, under the lock. That no count is lost or entered twice
//! is shown by ledgers, one a counter.
#![tactic(auto)]

mod ledger;
mod naming;
mod totals;

pub use naming::Naming;
pub use totals::{Accounts, AllParts, GetCounts, Ledgers, NO_RUN, Tallies, Totals};
