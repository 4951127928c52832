//! How large the tables of a chain are.
ghost use Rattle.std.specs.Prelude.{◌≡◌, ◌+◌, ◌*◌, ◌/◌, ◌<◌, ◌≤◌};

use sf_keyed::KeyedSizes;

// How many calls can be open at a time in the largest table.
const MOST_CELLS: u64 = 1_048_576;

/// The sizes of a table for so many calls that are open at a time, from 1 to 1,048,576: four hash slots for each, rounded up to 64 of them,
/// which share 16 side words. The seeds are to be drawn at random and kept secret.
pub fn sizes_of(cells: u64, low_seed: u64, high_seed: u64) -> KeyedSizes
    requires cells { (0 < cells) × (cells ≤ 1048576) }
    ensures cells { result.cells ≡ cells }
    ensures slots { (result.tops ≡ (cells + 15) / 16 * 64) × (result.sides ≡ (cells + 15) / 16 * 16) }
    ensures seeds { (result.low_seed ≡ low_seed) × (result.high_seed ≡ high_seed) }
{
    let groups = (cells + 15) / 16;
    KeyedSizes {
        tops: groups * 64,
        sides: groups * 16,
        cells,
        low_seed,
        high_seed,
    }
}

/// How many calls can be open at a time in the table that follows one of so many: eight times as many, and 1,048,576 at most.
pub fn larger(cells: u64) -> u64
    requires cells { (0 < cells) × (cells ≤ 1048576) }
    ensures larger { (cells ≤ 131072 → result ≡ cells * 8) × (131072 < cells → result ≡ 1048576) }
{
    if cells <= MOST_CELLS / 8 {
        cells * 8
    } else {
        MOST_CELLS
    }
}
