//! Names of keys: a short key is its own name, a longer one has a keyed digest.
ghost use Rattle.std.specs.Prelude.{◌≡◌, ◌+◌, ◌*◌, ◌≤◌, ◌<◌, length, drop};
ghost use Rattle.sf_keyed_words.specs.Rule.{number};
ghost use Rattle.sf_keyed.specs.Names.{packed, short_name as the_short_name};
ghost use Rattle.sf_keyed.specs.Names.{long_name as the_long_name};
ghost use Rattle.sf_keyed.specs.Names.{ShortKeysApart, ShortNamesBelowLongOnes};

use core::hash::{Hasher, keyed_hasher};
use sf_keyed_words::Name;
use std::io;
use std::random::RandomSource;

// How many bytes a key may have that is its own name.
const SHORT: usize = 15;

/// The seeds of the names of keys, which are to be drawn at random and kept secret, so that nobody can choose two keys of one name.
#[derive(Clone, Copy)]
pub struct Names {
    /// The first half of the seed.
    pub seed0: u64,
    /// The other half.
    pub seed1: u64,
}

impl Names {
    /// Names by seeds from the system.
    pub fn new(rt: &impl RandomSource) -> io::Result<Names> {
        let mut bytes = [0; 16];
        rt.fill_bytes(&mut bytes)?;
        let seed = u128::from_le_bytes(bytes);
        Ok(Names {
            seed0: (seed & 0xFFFF_FFFF_FFFF_FFFF) as u64,
            seed1: (seed >> 64) as u64,
        })
    }

    /// The key's name. A key of at most 15 bytes is its own name, so that different ones have different names. A longer key has a digest
    /// of 127 bits: SipHash-1-3 of the key, and of the key with one more byte behind it.
    #[inline(always)]
    pub fn of(&self, key: &[u8]) -> Name
        ensures short { length key.now ≤ 15 → number result ≡ the_short_name key.now }
        ensures long { 15 < length key.now → number result ≡ the_long_name self.now key.now }
    {
        if key.len() <= SHORT {
            short_name(key)
        } else {
            self.long_name(key)
        }
    }

    #[inline(never)]
    fn long_name(&self, key: &[u8]) -> Name
        ensures { number result ≡ the_long_name self.now key.now }
    {
        let mut hasher = keyed_hasher(self.seed0, self.seed1);
        hasher.write(key);
        let low = hasher.finish();
        hasher.write(&[1]);
        Name {
            low,
            high: hasher.finish() % 0x8000_0000_0000_0000 + 0x8000_0000_0000_0000,
        }
    }
}

// The number of the first eight bytes, which one load reads.
fn eight(key: &[u8]) -> u64
    requires { 8 ≤ length key.now }
    ensures { packed key.now ≡ result + 18446744073709551616 * packed (drop 8 key.now) }
{
    key[0] as u64
        + key[1] as u64 * 0x100
        + key[2] as u64 * 0x1_0000
        + key[3] as u64 * 0x100_0000
        + key[4] as u64 * 0x1_0000_0000
        + key[5] as u64 * 0x100_0000_0000
        + key[6] as u64 * 0x1_0000_0000_0000
        + key[7] as u64 * 0x100_0000_0000_0000
}

// The number of the four bytes from this one on, which one load reads.
fn four(key: &[u8], from: usize) -> u64
    requires { from + 4 ≤ length key.now }
    ensures { (packed (drop from key.now) ≡ result + 4294967296 * packed (drop (from + 4) key.now)) × (result < 4294967296) }
{
    key[from] as u64
        + key[from + 1] as u64 * 0x100
        + key[from + 2] as u64 * 0x1_0000
        + key[from + 3] as u64 * 0x100_0000
}

// The number of the two bytes from this one on, which one load reads.
fn two(key: &[u8], from: usize) -> u64
    requires { from + 2 ≤ length key.now }
    ensures { (packed (drop from key.now) ≡ result + 65536 * packed (drop (from + 2) key.now)) × (result < 65536) }
{
    key[from] as u64 + key[from + 1] as u64 * 0x100
}

// The number of the bytes from this one on, of which there are at most three.
fn last(key: &[u8], from: usize) -> u64
    requires { (from ≤ length key.now) × (length key.now ≤ from + 3) }
    ensures { (result ≡ packed (drop from key.now)) × (result < 16777216) }
{
    match key.len() - from {
        0 => 0,
        1 => key[from] as u64,
        2 => two(key, from),
        _ => two(key, from) + key[from + 2] as u64 * 0x1_0000,
    }
}

// The number of the bytes from this one on, of which there are at most seven.
fn few(key: &[u8], from: usize) -> u64
    requires { (from ≤ length key.now) × (length key.now ≤ from + 7) }
    ensures { (result ≡ packed (drop from key.now)) × (result < 72057594037927936) }
{
    if key.len() - from < 4 {
        last(key, from)
    } else {
        four(key, from) + last(key, from + 4) * 0x1_0000_0000
    }
}

// A key's bytes, and above them its length.
#[inline(always)]
fn short_name(key: &[u8]) -> Name
    requires { length key.now ≤ 15 }
    ensures { number result ≡ the_short_name key.now }
{
    let length = key.len() as u64 * 0x0100_0000_0000_0000;
    if key.len() < 8 {
        return Name {
            low: few(key, 0),
            high: length,
        };
    }
    Name {
        low: eight(key),
        high: few(key, 8) + length,
    }
}

/// Different keys of at most 15 bytes have different names.
pub fn short_keys_apart()
    ensures { ShortKeysApart }
{}

/// No key of at most 15 bytes has the name of a longer key.
pub fn short_names_below_long_ones()
    ensures { ShortNamesBelowLongOnes }
{}
