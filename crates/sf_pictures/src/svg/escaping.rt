//! Texts of strangers as SVG has them.

ghost use Rattle.std.specs.Prelude.{◌≡◌, ◌++◌, ◌*◌, ◌-◌, ◌^◌, ◌<◌, OnOk, IfOk, length, chars, min, string_bytes};
ghost use Rattle.std.specs.Fmt.{take_chars};
ghost use Rattle.sf_pictures.specs.Escaped.{char_text, cut_text, drawn_of, escaped_text};

use sf_history::Memory;
use std::alloc::Global;

// The width of a character of a picture's text, in pixels.
const CHARACTER: usize = 8;

// What is drawn for a character: itself, but for those that XML 1.0 or the eye cannot take. Of a control character that is its
// symbol, and of any other one the replacement character.
fn drawn(character: char) -> char
    ensures { result ≡ drawn_of character }
{
    match character {
        '\0'..='\u{1f}' => {
            let symbol = u32::from(character).saturating_add(0x2400);
            char::from_u32(symbol).unwrap_or('\u{fffd}')
        }
        '\u{7f}' => '\u{2421}',
        // More controls, what turns the direction of a text, ends of lines, and numbers that are no characters.
        '\u{80}'..='\u{9f}'
        | '\u{61c}'
        | '\u{200e}'
        | '\u{200f}'
        | '\u{2028}'..='\u{202e}'
        | '\u{2066}'..='\u{2069}'
        | '\u{feff}'
        | '\u{fffe}'
        | '\u{ffff}' => '\u{fffd}',
        _ => character,
    }
}

// Adds a character: `&`, `<` and `>` as SVG has them, and each other one as it is drawn.
fn push_drawn(svg: &mut String, character: char) -> Result<(), Memory>
    ensures { OnOk result (string_bytes svg.new ≡ string_bytes svg.old ++ char_text character) }
{
    match character {
        '&' => svg.push_str("&amp;")?,
        '<' => svg.push_str("&lt;")?,
        '>' => svg.push_str("&gt;")?,
        _ => svg.push(drawn(character))?,
    }
    Ok(())
}

/// Adds the text, each character as SVG can have it.
pub(crate) fn escaped(svg: &mut String, text: &str) -> Result<(), Memory>
    ensures { OnOk result (string_bytes svg.new ≡ string_bytes svg.old ++ escaped_text text.now) }
{
    for character in text.chars() {
        push_drawn(svg, character)?;
    }
    Ok(())
}

// How many characters the text has.
fn char_count(text: &str) -> usize
    ensures { result ≡ length (chars text.now) }
{
    text.chars().count()
}

// Adds so many of the text's first characters.
fn push_first(cut: &mut String, text: &str, most: usize) -> Result<(), Memory>
    requires { most < 2 ^ 64 - 1 }
    ensures { OnOk result (string_bytes cut.new ≡ string_bytes cut.old ++ take_chars most text.now) }
{
    write!(cut, "{text:.most$}")
}

/// The text if it has at most so many characters, and else so many of them and a mark that it is cut.
pub(crate) fn cut(alloc: Global, text: &str, most: usize) -> Result<String, Memory>
    ensures { IfOk result (λ cut. string_bytes cut ≡ cut_text most text.now) }
{
    let mut cut = String::new(alloc);
    if most < char_count(text) {
        push_first(&mut cut, text, most)?;
        cut.push('\u{2026}')?;
    } else {
        cut.push_str(text)?;
    }
    Ok(cut)
}

/// How wide the text is, in pixels; `usize::MAX` if it is wider.
pub(crate) fn text_width(text: &str) -> usize
    ensures { result ≡ min (length (chars text.now) * 8) (2 ^ 64 - 1) }
{
    char_count(text).saturating_mul(CHARACTER)
}
