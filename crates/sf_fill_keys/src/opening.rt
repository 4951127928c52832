//! How key spaces are opened.
ghost use Rattle.std.specs.Prelude.{◌≡◌, ◌≤◌, IfOk, vec_len};
ghost use Rattle.std.proofs.Common.{inl, inr};
ghost use Rattle.sf_fill_keys.specs.Spaces.{AreDesksOf, by_directory};

use crate::key_space::KeyDesk;
use sf_dir::{Desk, Directory, LONGEST_KEY, MOST_DESKS, MOST_KEYS, Memory};
use sf_keys_places::Places;
use std::alloc::Global;

// The directory's desks, in their order.
fn of_directory(alloc: Global, desks: Vec<Desk>) -> Result<Vec<KeyDesk>, Memory>
    ensures { IfOk result (λ made. made.items ≡ by_directory desks.items) }
{
    let mut made = Vec::with_capacity(alloc, desks.len())?;
    for desk in desks {
        made.push(KeyDesk::Directory(desk))?;
    }
    Ok(made)
}

/// A directory for so many keys (1 to 1,048,576) of at most so many bytes (0 to 250), by a seed in two halves, and so many desks
/// of it (1 to 65,535). Refused where there is no memory.
pub fn open_directory(
    alloc: Global,
    keys: u32,
    key_bytes: u32,
    desks: u32,
    seed0: u64,
    seed1: u64,
) -> Result<(Directory, Vec<KeyDesk>), Memory>
    requires keys { (1 ≤ keys) × (keys ≤ MOST_KEYS) }
    requires key_bytes { key_bytes ≤ LONGEST_KEY }
    requires desks { (1 ≤ desks) × (desks ≤ MOST_DESKS) }
    ensures sizes { IfOk result (λ made. (made.0.keys ≡ keys) × (made.0.key_bytes ≡ key_bytes)) }
    ensures count { IfOk result (λ made. vec_len made.1 ≡ desks) }
    ensures desks { IfOk result (λ made. AreDesksOf (inl made.0) made.1.items) }
{
    let (directory, dealt) = Directory::new(alloc, keys, key_bytes, desks, seed0, seed1)?;
    Ok((directory, of_directory(alloc, dealt)?))
}

/// So many desks where a hash says the places. Refused where there is no memory.
pub fn hash_desks(alloc: Global, places: Places, count: u32) -> Result<Vec<KeyDesk>, Memory>
    ensures count { IfOk result (λ made. vec_len made ≡ count) }
    ensures desks { IfOk result (λ made. AreDesksOf (inr places) made.items) }
{
    // The contract alone reads it.
    let _ = places;
    let mut made = Vec::with_capacity(alloc, count as usize)?;
    for _ in 0..count {
        made.push(KeyDesk::Hashed)?;
    }
    Ok(made)
}
