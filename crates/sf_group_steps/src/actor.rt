//! Who makes steps.
ghost use Rattle.std.specs.Prelude.{◌≤◌};
ghost use Rattle.sf_words.specs.declared.limits.TheConstants.{LARGEST_CALLER};

use sf_group_rows::Sizes;

/// A caller of a group of these sizes, and the place that its call is about.
#[derive(Clone, Copy)]
pub struct Actor {
    /// How large the group is.
    pub sizes: Sizes,
    /// The caller's number, from 1.
    pub number: u32,
    /// The place's number, from 1.
    pub place: u32,
    ghost few: { sizes.callers ≤ LARGEST_CALLER },
    ghost caller: { (1 ≤ number) × (number ≤ sizes.callers) },
    ghost placed: { (1 ≤ place) × (place ≤ sizes.places) },
}
