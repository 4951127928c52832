//! The size of a page.

/// The width of a picture, at most.
pub(crate) const PAGE: usize = 900;
/// Where texts begin that stand left of all bars, and how far all marks end from the right edge.
pub(crate) const EDGE: usize = 16;
/// Where texts end, at most.
pub(crate) const EDGE_OF_TEXTS: usize = PAGE - EDGE;
