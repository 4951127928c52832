//! The lines of an input.

ghost use Rattle.std.specs.Prelude.{◌≡◌, ◌==◌, map, IfOk};
ghost use Rattle.std.specs.List.{slice_split};
ghost use Rattle.std.specs.Str.Lines.{lines, strip_carriage_return};

use sf_history::Memory;
use std::alloc::Global;

// A line without the carriage return at its end, if it has one.
fn without_return(line: &[u8]) -> &[u8]
    ensures { result.now ≡ strip_carriage_return line.now }
{
    match line {
        [rest @ .., b'\r'] => rest,
        _ => line,
    }
}

/// The lines of an input: they end at LF, a CR before it is taken off, and the last line may lack its LF.
pub fn lines(alloc: Global, input: &[u8]) -> Result<Vec<&[u8]>, Memory>
    ensures { IfOk result (λ parts. map (λ x. x.now) parts.items ≡ lines input.now) }
{
    let parts = parts(alloc, input)?;
    let mut lines = Vec::new(alloc);
    let Some((last, ended)) = parts.as_slice().split_last() else {
        return Ok(lines);
    };
    for part in ended {
        lines.push(without_return(part))?;
    }
    if !last.is_empty() {
        lines.push(*last)?;
    }
    Ok(lines)
}

fn parts(alloc: Global, input: &[u8]) -> Result<Vec<&[u8]>, Memory>
    ensures { IfOk result (λ parts.
        map (λ x. x.now) parts.items ≡ slice_split (λ b. b == 10) input.now) }
{
    input.split(|b| *b == b'\n').collect(alloc)
}
