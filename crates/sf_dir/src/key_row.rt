//! A key's row: the key as words, and what a row of the table says of a key.
ghost use Rattle.std.specs.Prelude.{◌≡◌, ◌<◌, ◌≤◌, [], length, slice_index, Some};
ghost use Rattle.std.specs.Bool.{OnTrue, OnFalse};
ghost use Rattle.sf_dir.specs.KeyRow.{key_word, words_of};
ghost use Rattle.sf_dir.specs.WordIndex.{row_width, row_count};
ghost use Rattle.sf_dir.specs.Plays.{Grows};
ghost use Rattle.sf_dir.specs.Walk.{IsOwnSeat, IsLaidOut, IsRowOf, IsRowOfAnother, HoldsSpare, IsWritten};

use crate::rule::DirectorySizes;
use crate::steps::{DeskSeat, Words, look, write};
use crate::word_index::{start_of_row, width_of};

// The byte at an index, and zero past the key.
fn byte_at(key: &[u8], index: usize) -> u8
    ensures { result ≡ slice_index key.now index }
{
    if index < key.len() { key[index] } else { 0 }
}

/// The key's word of this index, eight bytes with the first lowest, zeros past the key.
#[tactic(auto, unfolding(crate::specs::KeyRow::key_word))]
pub(crate) fn word_at(key: &[u8], index: usize) -> u64
    requires { index < 64 }
    ensures { result ≡ key_word key.now index }
{
    let from = index * 8;
    if from + 8 <= key.len() {
        return u64::from_le_bytes([
            key[from],
            key[from + 1],
            key[from + 2],
            key[from + 3],
            key[from + 4],
            key[from + 5],
            key[from + 6],
            key[from + 7],
        ]);
    }
    u64::from_le_bytes([
        byte_at(key, from),
        byte_at(key, from + 1),
        byte_at(key, from + 2),
        byte_at(key, from + 3),
        byte_at(key, from + 4),
        byte_at(key, from + 5),
        byte_at(key, from + 6),
        byte_at(key, from + 7),
    ])
}

/// How many words a key of this length has.
pub(crate) fn word_count(len: usize) -> usize
    requires { len ≤ 250 }
    ensures { result ≡ words_of len }
{
    (len + 7) / 8
}

/// Whether a row holds this key. A row of another length is left at its first word.
pub(crate) fn has_key(
    words: &Words,
    seat: &mut DeskSeat,
    sizes: DirectorySizes,
    row: u64,
    key: &[u8],
) -> bool
    requires own { IsOwnSeat words.now seat.old }
    requires limits { IsLaidOut words.now.key words.now.table_id sizes }
    requires row { row < row_count words.now.key }
    requires key { length key.now ≤ words.now.key.key_bytes }
    ensures own { seat.new.table_id ≡ seat.old.table_id }
    ensures grows { Grows seat.old.me.0 seat.new.me.0 []
        × (seat.new.me.0.spare ≡ seat.old.me.0.spare) }
    ensures yes { OnTrue result (IsRowOf seat.old.me.0.seen row key.now) }
    ensures no { OnFalse result (IsRowOfAnother seat.old.me.0.seen row key.now) }
{
    let start = start_of_row(sizes, row);
    if look(words, seat, start) != key.len() as u64 {
        return false;
    }
    for index in 0..word_count(key.len()) {
        if look(words, seat, start + 1 + index as u64) != word_at(key, index) {
            return false;
        }
    }
    true
}

/// Writes a key into the desk's spare row, zeros behind it.
pub(crate) fn write_key(
    words: &Words,
    seat: &mut DeskSeat,
    sizes: DirectorySizes,
    row: u64,
    key: &[u8],
)
    requires own { IsOwnSeat words.now seat.old }
    requires limits { IsLaidOut words.now.key words.now.table_id sizes }
    requires spare { HoldsSpare words.now.key seat.old.me.0 (Some row) }
    requires key { length key.now ≤ words.now.key.key_bytes }
    ensures own { seat.new.table_id ≡ seat.old.table_id }
    ensures grows { Grows seat.old.me.0 seat.new.me.0 [] }
    ensures written { IsWritten seat.new.me.0 row key.now (row_width words.now.key) }
{
    let start = start_of_row(sizes, row);
    write(words, seat, start, key.len() as u64);
    for index in 0..width_of(sizes) - 1 {
        write(words, seat, start + 1 + index, word_at(key, index as usize));
    }
}
