//! How large groups may be.

use sf_words::{LARGEST_CALLER, LARGEST_GENERATION};

/// The most places that a group may have: a gigabyte of key words. No word holds a place's number.
pub const MOST_PLACES: u32 = 134_217_728;

/// The most callers that a group may have.
pub const MOST_CALLERS: u32 = LARGEST_CALLER;

/// The last generation of a caller's calls. A caller that has used it is spent.
pub const GREATEST_GENERATION: u32 = LARGEST_GENERATION;
