//! Tests of the keyed group: each call once in each of its ways, with values that the group of calls by x/sync would have.
#![tactic(auto)]

#[cfg(test)]
mod ages;
#[cfg(test)]
mod chains;
#[cfg(test)]
mod passes;
#[cfg(test)]
mod schedules;
#[cfg(test)]
mod tests;
