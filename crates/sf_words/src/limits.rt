//! How large numbers and keys may be: what the layouts of words leave room for, and what every crate above keeps to.

/// The largest number of a place that a directory, a fill, a log or a schedule can name. A group may have more places, since
/// no word holds a place's number.
pub const LARGEST_PLACE: u32 = 1_048_576;

/// The largest number of a caller of a group, or of a desk of a directory.
pub const LARGEST_CALLER: u32 = 65_535;

/// The last generation of a caller: who used it is spent.
pub const LARGEST_GENERATION: u32 = 4_294_967_295;

/// The length of the longest key, and of the longest word of a script or a schedule, in bytes.
pub const LONGEST_KEY: u32 = 250;
