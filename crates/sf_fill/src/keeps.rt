//! How much a fill and its getters keep.

ghost use Rattle.std.specs.Prelude.{◌≡◌};

/// How much a fill and its getters keep.
#[derive(Clone, Copy)]
pub struct Keeps {
    /// What the caches keep, in bytes of keys and values; nothing where it is 0 or less.
    pub limit: i64,
    /// How many events each getter logs.
    pub log: usize,
    /// How many letters each getter keeps near at most, rounded up to a power of two; none where it is 0.
    pub near: u32,
    /// What these keep, in bytes of keys and values, for each getter.
    pub near_limit: usize,
}

impl Keeps {
    /// Caches of so many bytes, getters that log so many events, and no letter near.
    pub fn new(limit: i64, log: usize) -> Keeps
        ensures { result ≡ record { limit = limit; log = log; near = 0; near_limit = 0 } }
    {
        Keeps {
            limit,
            log,
            near: 0,
            near_limit: 0,
        }
    }
}
