//! Words of a line: numbers, calls, and tokens.

ghost use Rattle.std.specs.Prelude.{◌≡◌, ℕ, ◌↔◌, map, IsTrue, IfOk, MatchOption, decimal};
ghost use Rattle.sf_text.specs.Words.{words, IsNumber, IsToken, IsCallWord};

use sf_history::{CallId, Memory};
use sf_words::{LARGEST_CALLER, LARGEST_GENERATION, LONGEST_KEY};
use std::alloc::Global;

fn is_decimal(word: &str, n: u32) -> bool
    ensures { IsTrue result ↔ (word.now ≡ decimal n) }
{
    let mut buffer = itoa::Buffer::new();
    word == buffer.format(n)
}

/// The number from 1 to a greatest one that the word is, in decimal with no sign and no leading zero.
pub fn number(word: &str, greatest: u32) -> Option<u32>
    ensures { MatchOption result ((n : ℕ) → IsNumber greatest word.now n → ⊥)
        (IsNumber greatest word.now) }
{
    let Ok(n) = word.parse::<u32>() else {
        return None;
    };
    if 0 < n && n <= greatest && is_decimal(word, n) {
        Some(n)
    } else {
        None
    }
}

/// Whether the word may be a key or a text: 1 to 250 bytes, each from 0x21 to 0x7E.
pub fn is_token(word: &str) -> bool
    ensures { IsTrue result ↔ IsToken word.now }
{
    !word.is_empty()
        && word.len() <= LONGEST_KEY as usize
        && word.as_bytes().iter().all(|b| 33 <= *b && *b <= 126)
}

/// The call that the word is: a caller from 1 to 65,535, a dot, and a generation from 1 to 4,294,967,295.
pub fn call(word: &str) -> Option<CallId>
    ensures { MatchOption result ((c : CallId) → IsCallWord word.now c → ⊥) (IsCallWord word.now) }
{
    let (caller, generation) = word.split_once('.')?;
    let caller = number(caller, LARGEST_CALLER)?;
    let generation = number(generation, LARGEST_GENERATION)?;
    Some(CallId { caller, generation })
}

/// The words of a line, which are parted by one space.
pub fn words(alloc: Global, line: &str) -> Result<Vec<&str>, Memory>
    ensures { IfOk result (λ parts. map (λ x. x.now) parts.items ≡ words line.now) }
{
    line.split(' ').collect(alloc)
}
