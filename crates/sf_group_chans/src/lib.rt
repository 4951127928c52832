//! Askings with a second caller, over words.
//!
//! Two seats are joined into one, which makes the steps of a chan for both and is cut apart at the end. Where the caller
//! is to lead, the second's word is made ready as the own channel; where a call is open, the second's words are made ready
//! and linked, and the second is entered. The caller's own word is touched only to lead.
//!
//! The kinds of step are the functions of `leading` and `joining`. What the joined seat knows is said of each of the two
//! callers as of a seat of its own (`alone` in `specs/Both`), so the definitions for one caller serve here too. The one
//! public call, `ask_together`, is for the crate of the group alone.
#![tactic(auto)]

mod askers;
mod asking;
mod joining;
mod leading;
mod together;

pub use askers::Askers;
pub use together::ask_together;
