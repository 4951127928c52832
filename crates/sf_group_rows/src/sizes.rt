//! How large a group is.

/// How many places and callers a group has, and its callers' first generation.
#[derive(Clone, Copy)]
pub struct Sizes {
    /// How many places, from 1 to 134,217,728. They are numbered from 1.
    pub places: u32,
    /// How many callers, from 1 to 65,535. They are numbered from 1.
    pub callers: u32,
    /// The generation of each caller's first call, at least 1.
    pub first: u32,
}
