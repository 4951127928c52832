//! Places of keys.
ghost use Rattle.std.specs.Prelude.{◌≤◌};
ghost use Rattle.sf_group_rows.specs.declared.limits.TheConstants.{MOST_PLACES};

use sf_group_rows::MOST_PLACES;

/// Which place a key has, of so many. The two seeds are to be drawn at random and kept secret, so that nobody can choose
/// keys of one place.
#[derive(Clone, Copy)]
pub struct Places {
    /// How many places there are, 1 to 134,217,728.
    pub count: u32,
    /// The first half of the seed.
    pub seed0: u64,
    /// The other half.
    pub seed1: u64,
    ghost counted: { (1 ≤ count) × (count ≤ MOST_PLACES) },
}
