//! Tests of fills by scripts: getters one after another, and side by side while one of them loads; of fills by bodies of their own
//! (`bodies`); and of the parts below a fill (`parts`).
//!
//! They stand apart from the crates that they test, since a crate with tests is proved twice.
#![tactic(auto)]

#[cfg(test)]
mod bodies;
#[cfg(test)]
mod calls;
#[cfg(test)]
mod failing;
#[cfg(test)]
mod getting;
#[cfg(test)]
mod keeps;
#[cfg(test)]
mod loaders;
#[cfg(test)]
mod near;
#[cfg(test)]
mod parts;
#[cfg(test)]
mod rows;
#[cfg(test)]
mod steps;
#[cfg(test)]
mod trial;
