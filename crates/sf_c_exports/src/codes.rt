//! The numbers of codes, as sflight.h has them.

/// It is done.
pub const DONE: u32 = 0;

/// The call leads the key's new call.
pub const LED: u32 = 1;

/// The call has joined the key's open one.
pub const JOINED: u32 = 2;

/// It is settled, and nobody is told.
pub const ALONE: u32 = 3;

/// It is settled, and whoever holds it is told.
pub const TOLD: u32 = 4;

/// It is left by its last holder.
pub const LAST: u32 = 5;

/// It is not settled yet.
pub const PENDING: u32 = 6;

/// There was nothing to forget.
pub const NOTHING: u32 = 7;

/// The call was not open, and its stamp is ended.
pub const CLEARED: u32 = 8;

/// There is no room for a new call, or no larger table.
pub const FULL: u32 = 9;

/// The key's call has as many holders as can be counted.
pub const CROWDED: u32 = 10;

/// All tries failed, each since another had changed a word.
pub const BUSY: u32 = 11;

/// A call is not in a state for this, or of another group.
pub const WRONG_STATE: u32 = 12;

/// A handle or a call is not open.
pub const NOT_OPEN: u32 = 13;

/// A number is out of its range.
pub const BAD_NUMBER: u32 = 14;

/// There is no memory.
pub const NO_MEMORY: u32 = 15;
