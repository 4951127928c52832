//! How much a drive does.
ghost use Rattle.std.specs.Prelude.{◌≤◌};
ghost use Rattle.sf_cli_drive.specs.declared.line.TheConstants.{MOST_THREADS, MOST_KEYS, MOST_GETS};

/// The most threads of a drive.
pub const MOST_THREADS: u32 = 64;

/// The most keys of a drive.
pub const MOST_KEYS: u32 = 1_000;

/// The most gets of each of its threads.
pub const MOST_GETS: u32 = 100_000;

/// How much a drive does.
#[derive(Clone, Copy)]
pub struct DriveLine {
    /// Threads, each with a getter of its own: 1 to 64.
    pub threads: u32,
    /// Keys: 1 to 1,000.
    pub keys: u32,
    /// Gets of each thread: 1 to 100,000.
    pub gets: u32,
    /// Whether keys have their places by a hash, and not in a directory.
    pub open: bool,
    /// Whether the drive shows its history as records, in place of its four lines.
    pub history: bool,
    /// Whether the first thread says on standard error how far it is; no words ask for it.
    pub progress: bool,
    ghost threads_in_range: { (1 ≤ threads) × (threads ≤ MOST_THREADS) },
    ghost keys_in_range: { (1 ≤ keys) × (keys ≤ MOST_KEYS) },
    ghost gets_in_range: { (1 ≤ gets) × (gets ≤ MOST_GETS) },
}
