//! Fills by bodies of their own: drives, getters in threads, many keys, and what no script says.

mod drives;
mod leaders;
mod many;
mod missed;
mod own;
mod seats;
mod seeds;
mod spots;
mod stale;
