//! How large a fill is, and where its keys have their places.
ghost use Rattle.std.specs.Prelude.{◌≡◌, ◌≤◌, ◌<ℤ◌, ◌≤ℤ◌, pos};
ghost use Rattle.sf_words.specs.declared.limits.TheConstants.{LARGEST_PLACE, LONGEST_KEY};

use sf_fill::Keeps;
use sf_keys_places::Places;
use sf_words::{LARGEST_PLACE, LONGEST_KEY};

/// How many letters a getter keeps near itself, where nothing else is asked for.
pub const NEAR: u32 = 256;

/// How many bytes of keys and values these have together at most: 1 MiB for each getter.
pub const NEAR_BYTES: usize = 1_048_576;

/// Where the keys of a fill have their places.
#[derive(Clone, Copy)]
pub enum Keys {
    /// In a directory: each key has a place of its own for good, and is refused once each place has one.
    Directory(DirectoryKeys),
    /// By a seeded hash, 1 to 1,048,576 places: no key is refused, and keys share places.
    Hashed(Places),
}

/// How many keys a directory takes. Its seed is to be drawn at random and kept secret, where strangers choose the keys.
#[derive(Clone, Copy)]
pub struct DirectoryKeys {
    /// How many keys have a place, 1 to 1,048,576.
    pub keys: u32,
    /// The longest key, in bytes, 0 to 250.
    pub key_bytes: u32,
    /// The first half of the seed.
    pub seed0: u64,
    /// The other half.
    pub seed1: u64,
    ghost many: { (1 ≤ keys) × (keys ≤ LARGEST_PLACE) },
    ghost long: { key_bytes ≤ LONGEST_KEY },
}

/// How large a fill is.
#[derive(Clone, Copy)]
pub struct FillSizes {
    /// Where its keys have their places.
    pub keys: Keys,
    /// How much its caches and its getters keep.
    pub keeps: Keeps,
    /// The generation of each getter's first asking, from 1 on; a getter has those up to 4,294,967,295.
    pub first_generation: u32,
    ghost first: { 1 ≤ first_generation },
}

impl FillSizes {
    /// A fill of these keys, whose caches keep so many bytes of keys and values. Getters log nothing. Each keeps up to 256 letters of
    /// 1 MiB together near itself, beside the caches' limit; and none where that is 0 or less. `keeps.near` takes another number.
    pub fn new(keys: Keys, limit: i64) -> FillSizes
        ensures keys { result.keys ≡ keys }
        ensures limit { result.keeps.limit ≡ limit }
        ensures log { result.keeps.log ≡ 0 }
        ensures near { pos 0 <ℤ limit → (result.keeps.near ≡ NEAR) × (result.keeps.near_limit ≡ NEAR_BYTES) }
        ensures none { limit ≤ℤ pos 0 → (result.keeps.near ≡ 0) × (result.keeps.near_limit ≡ 0) }
        ensures first { result.first_generation ≡ 1 }
    {
        let mut keeps = Keeps::new(limit, 0);
        if limit > 0 {
            keeps.near = NEAR;
            keeps.near_limit = NEAR_BYTES;
        }
        FillSizes {
            keys,
            keeps,
            first_generation: 1,
        }
    }
}
