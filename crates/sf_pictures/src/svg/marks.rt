//! The marks that a picture is made of.

ghost use Rattle.std.specs.Prelude.{◌≡◌, ◌++◌, OnOk, codes, string_bytes};
ghost use Rattle.sf_pictures.specs.Marks.{head_text, opening_text, paper_text, before_text, text_text, path_text, rect_text};

use crate::svg::escaping::escaped;
use sf_history::Memory;

// The first line of a picture of this size.
fn opening(svg: &mut String, width: usize, height: usize) -> Result<(), Memory>
    ensures { OnOk result
        (string_bytes svg.new ≡ string_bytes svg.old ++ opening_text width height) }
{
    writeln!(
        svg,
        "<svg xmlns=\"http://www.w3.org/2000/svg\" width=\"{width}\" height=\"{height}\" viewBox=\"0 0 {width} {height}\">"
    )
}

// White paper of this size.
fn paper(svg: &mut String, width: usize, height: usize) -> Result<(), Memory>
    ensures { OnOk result
        (string_bytes svg.new ≡ string_bytes svg.old ++ paper_text width height) }
{
    writeln!(
        svg,
        "<rect class=\"paper\" width=\"{width}\" height=\"{height}\"/>"
    )
}

/// Begins a picture of this size, in pixels, whose marks look as the style says, on white paper.
pub(crate) fn begin(
    svg: &mut String,
    width: usize,
    height: usize,
    style: &str,
) -> Result<(), Memory>
    ensures { OnOk result
        (string_bytes svg.new ≡ string_bytes svg.old ++ head_text width height style.now) }
{
    opening(svg, width, height)?;
    svg.push_str(style)?;
    paper(svg, width, height)
}

/// Ends a picture.
pub(crate) fn end(svg: &mut String) -> Result<(), Memory>
    ensures { OnOk result (string_bytes svg.new ≡ string_bytes svg.old ++ codes "</svg>\n") }
{
    svg.push_str("</svg>\n")?;
    Ok(())
}

// What stands before the characters of a text.
fn begin_text(svg: &mut String, class: &str, x: usize, y: usize) -> Result<(), Memory>
    ensures { OnOk result
        (string_bytes svg.new ≡ string_bytes svg.old ++ before_text class.now x y) }
{
    write!(svg, "<text class=\"{class}\" x=\"{x}\" y=\"{y}\">")
}

/// A text that begins, has its middle or ends at `x`, as its class says. Its characters are escaped.
pub(crate) fn text(
    svg: &mut String,
    class: &str,
    x: usize,
    y: usize,
    says: &str,
) -> Result<(), Memory>
    ensures { OnOk result
        (string_bytes svg.new ≡ string_bytes svg.old ++ text_text class.now x y says.now) }
{
    begin_text(svg, class, x, y)?;
    escaped(svg, says)?;
    svg.push_str("</text>\n")?;
    Ok(())
}

/// A path of straight lines.
pub(crate) fn path(svg: &mut String, class: &str, way: &str) -> Result<(), Memory>
    ensures { OnOk result
        (string_bytes svg.new ≡ string_bytes svg.old ++ path_text class.now way.now) }
{
    writeln!(svg, "<path class=\"{class}\" d=\"{way}\"/>")
}

/// A box of this size, whose corners are so round.
pub(crate) fn rect(
    svg: &mut String,
    class: &str,
    corner: (usize, usize),
    size: (usize, usize),
    round: usize,
) -> Result<(), Memory>
    ensures { OnOk result (string_bytes svg.new
        ≡ string_bytes svg.old ++ rect_text class.now corner size round) }
{
    let (left, top) = corner;
    let (width, height) = size;
    writeln!(
        svg,
        "<rect class=\"{class}\" x=\"{left}\" y=\"{top}\" width=\"{width}\" height=\"{height}\" rx=\"{round}\"/>"
    )
}
