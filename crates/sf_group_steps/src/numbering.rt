//! Where each word lies in the table. A caller's call word and next word have a line of 128 bytes for themselves, and
//! nobody has line 0, which splits and joins of seats load. The key words come after them, close together.
ghost use Rattle.std.specs.Prelude.{◌≡◌};
ghost use Rattle.sf_group_steps.specs.Words.{index, words_in, key, call, next};

use sf_group_rows::Sizes;

/// How many words there are.
pub fn word_count(sizes: Sizes) -> usize
    ensures { result ≡ words_in sizes }
{
    (sizes.callers as usize + 1) * 16 + sizes.places as usize + 1
}

/// The index of a place's key word.
pub fn key_index(sizes: Sizes, place: u32) -> usize
    ensures { result ≡ index sizes (key place) }
{
    (sizes.callers as usize + 1) * 16 + place as usize
}

/// The index of a caller's call word, in a group of any sizes.
pub fn call_index(sizes: Sizes, caller: u32) -> usize
    ensures { result ≡ index sizes (call caller) }
{
    // The contract alone reads it.
    let _ = sizes;
    caller as usize * 16
}

/// The index of a caller's next word, in a group of any sizes.
pub fn next_index(sizes: Sizes, caller: u32) -> usize
    ensures { result ≡ index sizes (next caller) }
{
    // The contract alone reads it.
    let _ = sizes;
    caller as usize * 16 + 1
}
