//! A key's walk over the places, made by one desk: at each place it looks, and publishes the key where it finds none.
//! It goes round once, from the place that the key's hash says, in one order for all desks. So where a desk comes to
//! an empty place, no desk can have put the key at a later one.
ghost use Rattle.std.specs.Prelude.{◌≡◌, ◌≢◌, ℕ, ◌+◌, ◌%◌, ◌<◌, ◌≤◌, IfSome, IfNone, [], length, Some};
ghost use Rattle.std.specs.Bool.{OnTrue, OnFalse};
ghost use Rattle.sf_dir.specs.KeyRow.{hash_of, first_index};
ghost use Rattle.sf_dir.specs.Rule.{IsTaken, IsPlaceWord};
ghost use Rattle.sf_dir.specs.Plays.{Grows};
ghost use Rattle.sf_dir.specs.Walk.{IsOwnSeat, IsLaidOut, IsOneDesk, IsReached, HoldsSpare, Resolves, Passes};
ghost use Rattle.sf_words.specs.declared.limits.TheConstants.{LARGEST_PLACE};

use crate::key_hash::hash;
use crate::key_row::{has_key, write_key};
use crate::rule::DirectorySizes;
use crate::steps::{DeskSeat, Words, draw, look, publish};
use crate::word_index::{EMPTY, counter_of};

// The index of the place at which the key's walk begins: the hash's upper half, scaled down to the places.
fn start_of(sizes: DirectorySizes, key: &[u8]) -> u64
    requires { (1 ≤ sizes.keys) × (sizes.keys ≤ LARGEST_PLACE) }
    ensures is { result ≡ first_index (hash_of sizes key.now) sizes.keys }
    ensures within { result < sizes.keys }
{
    hash(sizes, key) / 0x1_0000_0000 * sizes.keys / 0x1_0000_0000
}

// The place that a walk comes to after this many.
fn place_of(start: u64, passed: u64, keys: u64) -> u64
    requires { (start < keys) × (passed < keys) × (keys ≤ LARGEST_PLACE) }
    ensures { result ≡ (start + passed) % keys + 1 }
{
    let index = start + passed;
    if index < keys {
        index + 1
    } else {
        index - keys + 1
    }
}

// The desk's spare row, drawn now if it has none.
fn spare_of(
    words: &Words,
    seat: &mut DeskSeat,
    sizes: DirectorySizes,
    spare: &mut Option<u64>,
) -> u64
    requires own { IsOwnSeat words.now seat.old }
    requires limits { IsLaidOut words.now.key words.now.table_id sizes }
    requires desk { IsOneDesk words.now.key seat.old.me.0 }
    requires spare { HoldsSpare words.now.key seat.old.me.0 spare.old }
    ensures own { seat.new.table_id ≡ seat.old.table_id }
    ensures grows { Grows seat.old.me.0 seat.new.me.0 [] }
    ensures spare { HoldsSpare words.now.key seat.new.me.0 spare.new × (spare.new ≡ Some result) }
{
    if let Some(row) = *spare {
        return row;
    }
    let row = draw(words, seat, counter_of(sizes));
    *spare = Some(row);
    row
}

// Puts the key at a place that was empty. Returns 0, or what stands there where another desk came first.
fn claim(
    words: &Words,
    seat: &mut DeskSeat,
    sizes: DirectorySizes,
    spare: &mut Option<u64>,
    place: u64,
    key: &[u8],
) -> u64
    requires own { IsOwnSeat words.now seat.old }
    requires limits { IsLaidOut words.now.key words.now.table_id sizes }
    requires desk { IsOneDesk words.now.key seat.old.me.0 }
    requires spare { HoldsSpare words.now.key seat.old.me.0 spare.old }
    requires key { length key.now ≤ words.now.key.key_bytes }
    requires reached { IsReached words.now.key seat.old.me.0 place key.now }
    ensures own { seat.new.table_id ≡ seat.old.table_id }
    ensures won { result ≡ 0 → Resolves seat.old.me.0 seat.new.me.0 place key.now }
    ensures lost { result ≢ 0 → Grows seat.old.me.0 seat.new.me.0 []
        × IsPlaceWord seat.new.me.0.seen place result }
    ensures spare { HoldsSpare words.now.key seat.new.me.0 spare.new }
{
    let row = spare_of(words, seat, sizes, spare);
    write_key(words, seat, sizes, row, key);
    let found = publish(words, seat, place, row);
    if found == EMPTY {
        *spare = None;
    }
    found
}

// Puts the key at a place if that is empty. Returns 0 if so, else what stands there.
fn occupant(
    words: &Words,
    seat: &mut DeskSeat,
    sizes: DirectorySizes,
    spare: &mut Option<u64>,
    place: u64,
    key: &[u8],
) -> u64
    requires own { IsOwnSeat words.now seat.old }
    requires limits { IsLaidOut words.now.key words.now.table_id sizes }
    requires desk { IsOneDesk words.now.key seat.old.me.0 }
    requires spare { HoldsSpare words.now.key seat.old.me.0 spare.old }
    requires key { length key.now ≤ words.now.key.key_bytes }
    requires reached { IsReached words.now.key seat.old.me.0 place key.now }
    ensures own { seat.new.table_id ≡ seat.old.table_id }
    ensures won { result ≡ 0 → Resolves seat.old.me.0 seat.new.me.0 place key.now }
    ensures lost { result ≢ 0 → Grows seat.old.me.0 seat.new.me.0 []
        × IsPlaceWord seat.new.me.0.seen place result }
    ensures spare { HoldsSpare words.now.key seat.new.me.0 spare.new }
{
    let found = look(words, seat, place);
    if found != EMPTY {
        return found;
    }
    claim(words, seat, sizes, spare, place, key)
}

// Whether a place is the key's. An empty one becomes the key's.
fn visit(
    words: &Words,
    seat: &mut DeskSeat,
    sizes: DirectorySizes,
    spare: &mut Option<u64>,
    place: u64,
    key: &[u8],
) -> bool
    requires own { IsOwnSeat words.now seat.old }
    requires limits { IsLaidOut words.now.key words.now.table_id sizes }
    requires desk { IsOneDesk words.now.key seat.old.me.0 }
    requires spare { HoldsSpare words.now.key seat.old.me.0 spare.old }
    requires key { length key.now ≤ words.now.key.key_bytes }
    requires reached { IsReached words.now.key seat.old.me.0 place key.now }
    ensures own { seat.new.table_id ≡ seat.old.table_id }
    ensures yes { OnTrue result (Resolves seat.old.me.0 seat.new.me.0 place key.now) }
    ensures no { OnFalse result (Passes seat.old.me.0 seat.new.me.0 place key.now) }
    ensures spare { HoldsSpare words.now.key seat.new.me.0 spare.new }
{
    let found = occupant(words, seat, sizes, spare, place, key);
    if found == EMPTY {
        return true;
    }
    has_key(words, seat, sizes, found - 1, key)
}

/// The key's place, or `None` where each place has another key.
pub(crate) fn find(
    words: &Words,
    seat: &mut DeskSeat,
    sizes: DirectorySizes,
    spare: &mut Option<u64>,
    key: &[u8],
) -> Option<u64>
    requires own { IsOwnSeat words.now seat.old }
    requires limits { IsLaidOut words.now.key words.now.table_id sizes }
    requires desk { IsOneDesk words.now.key seat.old.me.0 }
    requires spare { HoldsSpare words.now.key seat.old.me.0 spare.old }
    requires key { length key.now ≤ words.now.key.key_bytes }
    ensures own { seat.new.table_id ≡ seat.old.table_id }
    ensures found { IfSome result (λ place. (1 ≤ place) × (place ≤ words.now.key.keys)
        × Resolves seat.old.me.0 seat.new.me.0 place key.now) }
    ensures full { IfNone result (Grows seat.old.me.0 seat.new.me.0 []
        × ((place : ℕ) → 1 ≤ place → place ≤ words.now.key.keys
        → IsTaken seat.new.me.0.seen place key.now)) }
    ensures spare { HoldsSpare words.now.key seat.new.me.0 spare.new }
{
    let start = start_of(sizes, key);
    for passed in 0..sizes.keys {
        let place = place_of(start, passed, sizes.keys);
        if visit(words, seat, sizes, spare, place, key) {
            return Some(place);
        }
    }
    None
}
