//! Where the words lie, and who writes them. Word 0 is no place's, and stays 0. Word n is that of place n: 0 until one
//! exchange makes it the number of a row, counted from 1, for good. Then comes the counter that draws rows, which only
//! grows, and then the rows. A row is written by the desk that drew it alone, and never again once it is published.
ghost use Rattle.std.specs.Prelude.{◌≡◌, ◌<◌};
ghost use Rattle.sf_dir.specs.WordIndex.{IsWithinLimits, counter_at, row_at, row_width, row_count, word_total};

use crate::rule::DirectorySizes;

/// The word that is no place's: a load of it says nothing but what joined seats brought.
pub(crate) const NO_PLACE: u64 = 0;

/// What stands in the word of a place that no desk has published a row at.
pub(crate) const EMPTY: u64 = 0;

// How far the counter lies behind the last place, and the first row behind the counter: 128 bytes, so that whoever
// draws or writes a row takes no line of place words from those who look.
const GAP: u64 = 16;

/// How many words a row has: a length, and eight bytes a word.
pub(crate) fn width_of(sizes: DirectorySizes) -> u64
    requires { IsWithinLimits sizes }
    ensures { result ≡ row_width sizes }
{
    (sizes.key_bytes + 7) / 8 + 1
}

/// The word that draws rows.
pub(crate) fn counter_of(sizes: DirectorySizes) -> u64
    requires { IsWithinLimits sizes }
    ensures { result ≡ counter_at sizes }
{
    sizes.keys + GAP
}

/// A row's first word.
pub(crate) fn start_of_row(sizes: DirectorySizes, row: u64) -> u64
    requires { IsWithinLimits sizes × (row < row_count sizes) }
    ensures { result ≡ row_at sizes row }
{
    sizes.keys + 2 * GAP + row * width_of(sizes)
}

/// How many words the table has: as many rows as places and desks together.
pub(crate) fn word_total_of(sizes: DirectorySizes) -> usize
    requires { IsWithinLimits sizes }
    ensures { result ≡ word_total sizes }
{
    (sizes.keys + 2 * GAP + (sizes.keys + sizes.desks) * width_of(sizes)) as usize
}
