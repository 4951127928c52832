//! What the words of scripts say.

use sf_text::Text;
use std::alloc::Global;
use std::process::Abort;

// The first of some words, and the others.
pub(crate) fn first_word(words: &str) -> (&str, &str) {
    words.split_once(' ').unwrap_or((words, ""))
}

// The number that a word is.
pub(crate) fn number(rt: &impl Abort, word: &str) -> u32 {
    match word.parse::<u32>() {
        Ok(number) => number,
        Err(_) => panic!(rt; "it is no number"),
    }
}

// A copy of a text, for which there is memory.
pub(crate) fn text(rt: &impl Abort, alloc: Global, text: &str) -> Text {
    let Ok(text) = Text::copied(alloc, text) else {
        panic!(rt; "no memory")
    };
    text
}
