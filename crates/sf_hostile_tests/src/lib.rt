//! Tests of refused memory.
//!
//! Those of `making`, `copies` and `pair` pass wherever one allocation is refused: what a constructor took is asked for once
//! more, and has to be there. `.ci/refused-memory` runs them so for each allocation.
#![tactic(auto)]

#[cfg(test)]
mod askings;
#[cfg(test)]
mod copies;
#[cfg(test)]
mod kept;
#[cfg(test)]
mod making;
#[cfg(test)]
mod meeting;
#[cfg(test)]
mod pair;
#[cfg(test)]
mod spare;
#[cfg(test)]
mod tried;
