//! What one run of the load path counts, and where its value came from.

/// Where a value came from.
#[derive(Clone, Copy, PartialEq, Eq)]
pub enum Source {
    /// The peer that the picker named.
    Peer,
    /// The local getter.
    Local,
}

/// What one run of the load path adds to groupcache's counters of these names, each 0 or 1.
#[derive(Clone, Copy, Default, PartialEq, Eq)]
pub struct Counts {
    /// Loads that were not a duplicate of an open one: 1 in each run.
    pub loads_deduped: u64,
    /// Values that a peer gave.
    pub peer_loads: u64,
    /// Faults of a peer.
    pub peer_errors: u64,
    /// Values that the local getter gave.
    pub local_loads: u64,
    /// Faults of the local getter.
    pub local_load_errors: u64,
}
