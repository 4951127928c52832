//! Next words: one a caller, with the member that comes after it in a joiner list.
//!
//! The whole word is the number of that member's caller, 1 to 65,535, or 0 at the end of the list.

ghost use Rattle.std.specs.Prelude.{◌≡◌, ℕ, ◌≤◌, ◌↔◌, IsTrue, IsSome, IfSome, Option, Some};
ghost use Rattle.std.specs.Option.{SomeIff};
ghost use Rattle.sf_words.specs.NextWord.{NextCodesDiffer, IsCallerNumber, IsCallerOrNone, IsNextWord, next_code};

use crate::limits::LARGEST_CALLER;
use std::marker::Model;

/// A lawful next word. Clauses see it as the caller that it names, 1 to 65,535, or `None`.
#[derive(Clone, Copy)]
pub struct NextWord {
    next: Option<u32>,
}

impl Model for NextWord {
    ghost use Rattle.std.specs.Prelude.{ℕ, Option};
    ghost use Rattle.sf_words.specs.NextWord.{IsCallerOrNone};

    ghost Value = { Option ℕ };

    ghost view = { λ w. w.next };

    ghost invariant = { λ w. IsCallerOrNone w.next };

    ghost inverse = { λ next. record { next = next } };
}

impl NextWord {
    /// The word that names this caller, 1 to 65,535, or none; `None` for any other number.
    pub fn new(next: Option<u32>) -> Option<NextWord>
        ensures { SomeIff result (IsCallerOrNone next) next }
    {
        if is_caller_or_none(next) {
            Some(NextWord { next })
        } else {
            None
        }
    }

    /// The caller that the word names, 1 to 65,535.
    pub fn next(self) -> Option<u32>
        ensures same { result ≡ self }
        ensures range { IsCallerOrNone self }
    {
        self.next
    }
}

/// The number of a next word.
pub fn pack_next(word: NextWord) -> u64
    ensures code { result ≡ next_code word }
    ensures lawful { IsNextWord result }
    ensures range { IsCallerOrNone word }
{
    match word.next {
        Some(caller) => u64::from(caller),
        None => 0,
    }
}

/// The next word that has this number. `None` exactly where none has.
pub fn unpack_next(word: u64) -> Option<NextWord>
    ensures lawful { IsSome result ↔ IsNextWord word }
    ensures code { IfSome result (λ found. next_code found ≡ word) }
    ensures range { IfSome result IsCallerOrNone }

    // What a word was packed from is what it is unpacked to.
    ensures inverse { (next : Option ℕ) → IsCallerOrNone next
        → next_code next ≡ word → result ≡ Some next }
{
    if word == 0 {
        return Some(NextWord { next: None });
    }
    NextWord::new(Some(u32::try_from(word).ok()?))
}

/// Two next words of different meaning have different numbers.
pub fn next_codes_differ()
    ensures { NextCodesDiffer }
{}

/// Whether this is the number of a caller, 1 to 65,535.
pub(crate) fn is_caller(number: u32) -> bool
    ensures { IsTrue result ↔ IsCallerNumber number }
{
    1 <= number && number <= LARGEST_CALLER
}

/// Whether this is the number of a caller, 1 to 65,535, or none.
pub(crate) fn is_caller_or_none(next: Option<u32>) -> bool
    ensures { IsTrue result ↔ IsCallerOrNone next }
{
    match next {
        Some(number) => is_caller(number),
        None => true,
    }
}
