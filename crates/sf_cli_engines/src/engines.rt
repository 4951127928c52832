//! What the engines of the subcommands write for an input.

ghost use Rattle.std.specs.Prelude.{◌≡◌, ◌++◌, List, ℕ, IfOk, IfErr, IfSome, codes, false, true};
ghost use Rattle.std.specs.Prelude.{string_bytes};
ghost use Rattle.std.specs.Io.KnownBytes.{Appends};
ghost use Rattle.sf_text.specs.StreamText.{AppendsPart};
ghost use Rattle.sf_cli_engines.specs.Engines.{IsWrittenBy, IsAnswerOf, IsCheckedAs, IsLogsCheckedAs};
ghost use Rattle.sf_cli_engines.specs.declared.ending.Ending as endings;

use crate::checking::{ending, judge};
use crate::drawing::{Drawn, draw_times};
use crate::ending::Ending;
use crate::engine::{Engine, Judged};
use crate::merging::merged;
use crate::timing::{ending_in_time, judge_times};
use sf_model::run_script;
use sf_text::{StreamFault, write_all, write_line};
use std::alloc::Global;
use std::fmt::Display;
use std::io::Write;

/// `sfctl run`: writes the lines that are replied to a script, or the one line of its refusal.
pub(crate) fn run<W: Write>(
    alloc: Global,
    input: &[u8],
    writer: &mut W,
) -> Result<Ending, StreamFault>
    ensures written { IfOk result (λ ending.
        (text : List ℕ) × IsWrittenBy (Engine.Run false) input.now ending text
        × Appends (W.contents writer.old) (W.contents writer.new) text) }
    ensures err { IfErr result (λ fault. fault ≡ StreamFault.CannotWrite) }
    ensures part { (text : List ℕ) × IsAnswerOf (Engine.Run false) input.now text
        × AppendsPart (W.contents writer.old) (W.contents writer.new) text }
{
    match run_script(alloc, input, writer)? {
        Ok(()) => Ok(Ending::Answered),
        Err(_) => Ok(Ending::Refused),
    }
}

/// Writes the text that answers an input, or the one line of its refusal.
pub(crate) fn write_answer<W: Write, E: Display + Drop>(
    writer: &mut W,
    answered: Result<String, E>,
) -> Result<Ending, StreamFault>
    ensures answered { IfOk answered (λ text. IfOk result (λ ending. (ending ≡ Ending.Answered)
        × Appends (W.contents writer.old) (W.contents writer.new) (string_bytes text))) }
    ensures refused { IfErr answered (λ refusal.
        IfSome (E.output refusal) (λ said. IfOk result (λ ending. (ending ≡ Ending.Refused)
        × Appends (W.contents writer.old) (W.contents writer.new) (said ++ codes "\n")))) }
    ensures err { IfErr result (λ fault. fault ≡ StreamFault.CannotWrite) }
    ensures answered_part { IfOk answered (λ text.
        AppendsPart (W.contents writer.old) (W.contents writer.new) (string_bytes text)) }
    ensures refused_part { IfErr answered (λ refusal. IfSome (E.output refusal) (λ said.
        AppendsPart (W.contents writer.old) (W.contents writer.new) (said ++ codes "\n"))) }
{
    match answered {
        Ok(text) => {
            write_all(writer, text.as_str())?;
            Ok(Ending::Answered)
        }
        Err(refusal) => {
            write_line(writer, refusal)?;
            Ok(Ending::Refused)
        }
    }
}

/// `sfctl check`: writes the one line that says whether the history of records is legal.
pub(crate) fn check<W: Write>(
    alloc: Global,
    input: &[u8],
    writer: &mut W,
) -> Result<Ending, StreamFault>
    ensures written { IfOk result (λ ending.
        (text : List ℕ) × IsWrittenBy (Engine.Check Judged.AsItStands) input.now ending text
        × Appends (W.contents writer.old) (W.contents writer.new) text) }
    ensures err { IfErr result (λ fault. fault ≡ StreamFault.CannotWrite) }
    ensures part { (text : List ℕ) × IsAnswerOf (Engine.Check Judged.AsItStands) input.now text
        × AppendsPart (W.contents writer.old) (W.contents writer.new) text }
{
    let checked = judge(alloc, input);
    write_line(writer, checked)?;
    Ok(ending(checked))
}

/// `sfctl check --timed`: writes the one line that says whether the history of records is legal in time.
pub(crate) fn check_in_time<W: Write>(
    alloc: Global,
    input: &[u8],
    writer: &mut W,
) -> Result<Ending, StreamFault>
    ensures written { IfOk result (λ ending.
        (text : List ℕ) × IsWrittenBy (Engine.Check Judged.InTime) input.now ending text
        × Appends (W.contents writer.old) (W.contents writer.new) text) }
    ensures err { IfErr result (λ fault. fault ≡ StreamFault.CannotWrite) }
    ensures part { (text : List ℕ) × IsAnswerOf (Engine.Check Judged.InTime) input.now text
        × AppendsPart (W.contents writer.old) (W.contents writer.new) text }
{
    let checked = judge_times(alloc, input);
    write_line(writer, checked)?;
    Ok(ending_in_time(checked))
}

/// `sfctl check --svg`: draws the events that have no order, and else writes the one line of `sfctl check --timed`.
pub(crate) fn draw_in_time<W: Write>(
    alloc: Global,
    input: &[u8],
    writer: &mut W,
) -> Result<Ending, StreamFault>
    ensures written { IfOk result (λ ending.
        (text : List ℕ) × IsWrittenBy (Engine.Check Judged.Drawn) input.now ending text
        × Appends (W.contents writer.old) (W.contents writer.new) text) }
    ensures err { IfErr result (λ fault. fault ≡ StreamFault.CannotWrite) }
    ensures part { (text : List ℕ) × IsAnswerOf (Engine.Check Judged.Drawn) input.now text
        × AppendsPart (W.contents writer.old) (W.contents writer.new) text }
{
    match draw_times(alloc, input) {
        Drawn::Picture(checked, picture) => {
            write_all(writer, picture.as_str())?;
            Ok(ending_in_time(checked))
        }
        Drawn::Line(checked) => {
            write_line(writer, checked)?;
            Ok(ending_in_time(checked))
        }
    }
}

/// `sfctl check`, judging records so: writes its one line, or a picture.
pub(crate) fn check_as<W: Write>(
    alloc: Global,
    judged: Judged,
    input: &[u8],
    writer: &mut W,
) -> Result<Ending, StreamFault>
    ensures written { IfOk result (λ ending.
        (text : List ℕ) × IsCheckedAs judged input.now ending text
        × Appends (W.contents writer.old) (W.contents writer.new) text) }
    ensures err { IfErr result (λ fault. fault ≡ StreamFault.CannotWrite) }
    ensures part { (text : List ℕ)
        × ((ending : endings.Ending) × IsCheckedAs judged input.now ending text)
        × AppendsPart (W.contents writer.old) (W.contents writer.new) text }
{
    match judged {
        Judged::AsItStands => check(alloc, input, writer),
        Judged::InTime => check_in_time(alloc, input, writer),
        Judged::Drawn => draw_in_time(alloc, input, writer),
        Judged::EachKey => check(alloc, input, writer),
        Judged::EachKeyInTime => check_in_time(alloc, input, writer),
    }
}

/// `sfctl check --merge`: merges logs, and judges the recording that `sfctl merge` would write; or writes the one line of their refusal.
pub(crate) fn check_logs<W: Write>(
    alloc: Global,
    judged: Judged,
    input: &[u8],
    writer: &mut W,
) -> Result<Ending, StreamFault>
    ensures written { IfOk result (λ ending.
        (text : List ℕ) × IsLogsCheckedAs judged input.now ending text
        × Appends (W.contents writer.old) (W.contents writer.new) text) }
    ensures err { IfErr result (λ fault. fault ≡ StreamFault.CannotWrite) }
    ensures part { (text : List ℕ)
        × ((ending : endings.Ending) × IsLogsCheckedAs judged input.now ending text)
        × AppendsPart (W.contents writer.old) (W.contents writer.new) text }
{
    match merged(alloc, input) {
        Ok(text) => check_as(alloc, judged, text.as_bytes(), writer),
        Err(refusal) => {
            write_line(writer, refusal)?;
            Ok(Ending::Refused)
        }
    }
}
