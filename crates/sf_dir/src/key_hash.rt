//! The hash of a key, which says where its walk begins.
ghost use Rattle.std.specs.Prelude.{◌≡◌};
ghost use Rattle.sf_dir.specs.KeyRow.{hash_of};

use crate::rule::DirectorySizes;
use core::hash::{Hasher, keyed_hasher};

/// The hash of a key by the directory's seed: SipHash-1-3.
pub(crate) fn hash(sizes: DirectorySizes, key: &[u8]) -> u64
    ensures { result ≡ hash_of sizes key.now }
{
    let mut hasher = keyed_hasher(sizes.seed0, sizes.seed1);
    hasher.write(key);
    hasher.finish()
}
