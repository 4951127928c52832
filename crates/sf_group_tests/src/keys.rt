//! Do, Forget and polls by key: keys that share a place, and threads that ask for them at once.

mod asking;
mod item;
mod one_place;
mod places;
mod sharing;
