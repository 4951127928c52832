//! The engines by their names.

ghost use Rattle.std.specs.Prelude.{◌≡◌, ◌≢◌, List, ℕ, IfOk, IfErr, IfSome, None, codes};
ghost use Rattle.std.specs.Io.KnownBytes.{Appends};
ghost use Rattle.sf_text.specs.StreamText.{AppendsPart};
ghost use Rattle.sf_cli_engines.specs.Engines.{IsWrittenBy, IsAnswerOf, name_of, shown_by};

use crate::checking::Checked;
use crate::ending::Ending;
use crate::engines::{check_as, check_logs, run, write_answer};
use crate::hints::{Said, said_below};
use crate::merging::merged;
use crate::playing::{drawn, traced};
use crate::recording::{schedule_records, script_records};
use sf_text::{ReadFault, StreamFault, read_all, write_line};
use std::alloc::Global;
use std::io::{Read, Write};

/// The form in which an engine is to answer.
#[derive(Clone, Copy, PartialEq, Eq)]
pub enum Form {
    /// Lines of its own.
    Lines,
    /// The records of what happened.
    History,
    /// What can be said by the times of events.
    Timed,
    /// A picture.
    Picture,
    /// Lines of its own, and below them the keys with a fault.
    All,
    /// What can be said by the times of events, and below it the keys with a fault.
    TimedAll,
    /// How logs are judged that are merged first.
    Merged(Judged),
}

/// What a schedule shows of what it does.
#[derive(Clone, Copy, PartialEq, Eq)]
pub enum Shown {
    /// Lines of its own.
    Lines,
    /// The records of what happened.
    History,
    /// A picture.
    Picture,
}

/// How a history is judged, and what is shown of it.
#[derive(Clone, Copy, PartialEq, Eq)]
pub enum Judged {
    /// By the order that its events stand in.
    AsItStands,
    /// By the times of its events: an order that they allow is looked for.
    InTime,
    /// By the times of its events, and the events that have no order are drawn.
    Drawn,
    /// By the order that its events stand in, and then each key is judged by itself.
    EachKey,
    /// By the times of its events, and then each key is judged by itself.
    EachKeyInTime,
}

/// An engine of `sfctl`, and what it shows.
#[derive(Clone, Copy, PartialEq, Eq)]
pub enum Engine {
    /// Obeys a script of commands.
    Run {
        /// Whether it shows the records of what happened, in place of its lines.
        history: bool,
    },
    /// Plays a schedule of the step core, and shows this.
    Steps(Shown),
    /// Says whether a recorded history is legal, judged so.
    Check(Judged),
    /// Says the same of logs that stand one after another, and are merged.
    CheckLogs(Judged),
    /// Merges logs that stand one after another into one recording.
    Merge,
}

impl Engine {
    /// The name of the subcommand that starts it.
    pub fn name(self) -> &'static str
        ensures { result.now ≡ name_of self }
    {
        match self {
            Engine::Run { .. } => "run",
            Engine::Steps(_) => "steps",
            Engine::Check(_) | Engine::CheckLogs(_) => "check",
            Engine::Merge => "merge",
        }
    }

    /// The engine of the same subcommand that shows this, if there is one.
    pub fn showing(self, asked: Form) -> Option<Engine>
        ensures found { IfSome result (λ engine. (name_of engine ≡ name_of self)
            × (shown_by engine ≡ asked)) }
        ensures none { result ≡ None → (engine : Engine) → name_of engine ≡ name_of self
            → shown_by engine ≢ asked }
    {
        match (self, asked) {
            (Engine::Run { .. }, Form::Lines) => Some(Engine::Run { history: false }),
            (Engine::Run { .. }, Form::History) => Some(Engine::Run { history: true }),
            (Engine::Steps(_), Form::Lines) => Some(Engine::Steps(Shown::Lines)),
            (Engine::Steps(_), Form::History) => Some(Engine::Steps(Shown::History)),
            (Engine::Steps(_), Form::Picture) => Some(Engine::Steps(Shown::Picture)),
            (Engine::Check(_) | Engine::CheckLogs(_), asked) => checking(asked),
            (Engine::Merge, Form::Lines) => Some(Engine::Merge),
            _ => None,
        }
    }

    /// Reads its input to the end, and writes the answer. Where a write fails, a beginning of the answer is written.
    pub fn start<R: Read, W: Write>(
        self,
        alloc: Global,
        reader: &mut R,
        writer: &mut W,
    ) -> Result<Ending, StreamFault>
        ensures written { IfOk result (λ ending. IfSome (R.remaining reader.old) (λ input.
            (text : List ℕ) × IsWrittenBy self input ending text
            × Appends (W.contents writer.old) (W.contents writer.new) text)) }
        ensures unread { IfErr result (λ fault. fault ≡ StreamFault.CannotRead
            → W.contents writer.new ≡ W.contents writer.old) }
        ensures part { IfErr result (λ fault. fault ≡ StreamFault.CannotWrite
            → IfSome (R.remaining reader.old) (λ input.
            (text : List ℕ) × IsAnswerOf self input text
            × AppendsPart (W.contents writer.old) (W.contents writer.new) text)) }
    {
        let (ending, _input) = self.answer_reader(alloc, reader, writer)?;
        Ok(ending)
    }

    /// Starts it as `start` does, and leaves what is said below the answer: a hint where the input is refused, or what explains a
    /// verdict.
    pub fn start_with_hint<R: Read, W: Write>(
        self,
        alloc: Global,
        reader: &mut R,
        writer: &mut W,
        said: &mut Option<Said>,
    ) -> Result<Ending, StreamFault>
        ensures written { IfOk result (λ ending. IfSome (R.remaining reader.old) (λ input.
            (text : List ℕ) × IsWrittenBy self input ending text
            × Appends (W.contents writer.old) (W.contents writer.new) text)) }
        ensures unread { IfErr result (λ fault. fault ≡ StreamFault.CannotRead
            → W.contents writer.new ≡ W.contents writer.old) }
        ensures part { IfErr result (λ fault. fault ≡ StreamFault.CannotWrite
            → IfSome (R.remaining reader.old) (λ input.
            (text : List ℕ) × IsAnswerOf self input text
            × AppendsPart (W.contents writer.old) (W.contents writer.new) text)) }
    {
        let (ending, input) = self.answer_reader(alloc, reader, writer)?;
        if let Some(input) = input {
            *said = said_below(alloc, self, ending, input.as_slice());
        }
        Ok(ending)
    }

    // Reads its input to the end, and writes the answer. The input comes back, where there was memory for it.
    fn answer_reader<R: Read, W: Write>(
        self,
        alloc: Global,
        reader: &mut R,
        writer: &mut W,
    ) -> Result<(Ending, Option<Vec<u8>>), StreamFault>
        ensures written { IfOk result (λ answered. IfSome (R.remaining reader.old) (λ input.
            (text : List ℕ) × IsWrittenBy self input answered.0 text
            × Appends (W.contents writer.old) (W.contents writer.new) text)) }
        ensures unread { IfErr result (λ fault. fault ≡ StreamFault.CannotRead
            → W.contents writer.new ≡ W.contents writer.old) }
        ensures part { IfErr result (λ fault. fault ≡ StreamFault.CannotWrite
            → IfSome (R.remaining reader.old) (λ input.
            (text : List ℕ) × IsAnswerOf self input text
            × AppendsPart (W.contents writer.old) (W.contents writer.new) text)) }
    {
        match read_all(alloc, reader) {
            Ok(input) => {
                let ending = self.answer(alloc, input.as_slice(), writer)?;
                Ok((ending, Some(input)))
            }
            Err(ReadFault::OutOfMemory) => {
                write_line(writer, Checked::OutOfMemory)?;
                Ok((Ending::Refused, None))
            }
            Err(ReadFault::CannotRead) => Err(StreamFault::CannotRead),
        }
    }

    // Writes what it answers to an input.
    fn answer<W: Write>(
        self,
        alloc: Global,
        input: &[u8],
        writer: &mut W,
    ) -> Result<Ending, StreamFault>
        ensures written { IfOk result (λ ending.
            (text : List ℕ) × IsWrittenBy self input.now ending text
            × Appends (W.contents writer.old) (W.contents writer.new) text) }
        ensures err { IfErr result (λ fault. fault ≡ StreamFault.CannotWrite) }
        ensures part { (text : List ℕ) × IsAnswerOf self input.now text
            × AppendsPart (W.contents writer.old) (W.contents writer.new) text }
    {
        match self {
            Engine::Run { history: false } => run(alloc, input, writer),
            Engine::Run { history: true } => write_answer(writer, script_records(alloc, input)),
            Engine::Steps(shown) => match shown {
                Shown::Lines => write_answer(writer, traced(alloc, input)),
                Shown::History => write_answer(writer, schedule_records(alloc, input)),
                Shown::Picture => write_answer(writer, drawn(alloc, input)),
            },
            Engine::Check(judged) => check_as(alloc, judged, input, writer),
            Engine::CheckLogs(judged) => check_logs(alloc, judged, input, writer),
            Engine::Merge => write_answer(writer, merged(alloc, input)),
        }
    }
}

// The engine of `sfctl check` that shows this, if there is one.
fn checking(asked: Form) -> Option<Engine>
    ensures found { IfSome result (λ engine. (name_of engine ≡ codes "check")
        × (shown_by engine ≡ asked)) }
    ensures none { result ≡ None → (engine : Engine) → name_of engine ≡ codes "check"
        → shown_by engine ≢ asked }
{
    match asked {
        Form::Lines => Some(Engine::Check(Judged::AsItStands)),
        Form::Timed => Some(Engine::Check(Judged::InTime)),
        Form::Picture => Some(Engine::Check(Judged::Drawn)),
        Form::All => Some(Engine::Check(Judged::EachKey)),
        Form::TimedAll => Some(Engine::Check(Judged::EachKeyInTime)),
        Form::Merged(judged) => Some(Engine::CheckLogs(judged)),
        Form::History => None,
    }
}
