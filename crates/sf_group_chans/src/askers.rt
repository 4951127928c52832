//! Who asks.

use sf_group_rows::Sizes;

/// A caller of a group of these sizes that asks for a place with a second.
#[derive(Clone, Copy)]
pub struct Askers {
    /// How large the group is.
    pub sizes: Sizes,
    /// The caller's number, from 1.
    pub number: u32,
    /// The second's number, from 1.
    pub second: u32,
    /// The place's number, from 1.
    pub place: u32,
    /// The generation of the call that the caller leads next.
    pub generation: u32,
    /// The generation of the member that the second is next.
    pub second_generation: u32,
}
