//! Two caches of places that share a limit of bytes, as groupcache's main and hot cache do.
//!
//! An entry weighs the bytes of its key and its value. Where both caches together weigh more than the limit, the oldest
//! entries are dropped: of hot while it weighs more than an eighth of main, and else of main. What a put, a look and a
//! removal make of the caches is a definition (`specs/Trimming.antt`), and none of them walks over a cache.
#![tactic(auto)]

mod caches;
mod shelf;

pub use caches::{Caches, Which};
pub use shelf::{CacheEntry, CacheStats};
pub use std::alloc::AllocError as Memory;
