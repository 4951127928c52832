//! Reading a whole input, and writing a whole answer.

ghost use Rattle.std.specs.Prelude.{◌≡◌, ◌++◌, IfOk, IfErr, IfSome, OnOk, OnErr, codes};
ghost use Rattle.std.specs.Io.KnownBytes.{Appends};
ghost use Rattle.sf_text.specs.StreamText.{AppendsPart};

use std::alloc::{AllocError, Global};
use std::error::Error;
use std::fmt::{self, Display, InlineText, Write as _};
use std::io::{Read, Write};

/// How often a run may read; where its last read has not met the end, that is a failing read.
pub const READS: u32 = 16_777_216;

/// Why a run ends with no answer.
#[derive(Clone, Copy, Debug, PartialEq, Eq, Drop)]
pub enum StreamFault {
    /// A read failed, or the last read that is allowed has not met the end. Nothing was written.
    CannotRead,
    /// A write failed. A part of the answer may have been written.
    CannotWrite,
}

impl fmt::Display for StreamFault {
    ghost use Rattle.std.specs.Prelude.{Some};
    ghost use Rattle.sf_text.specs.StreamText.{fault_text};

    ghost output = { λ fault. Some (fault_text fault) };

    fn fmt<W: fmt::Write>(&self, f: &mut fmt::Formatter<W>) -> fmt::Result {
        f.write_str(match self {
            StreamFault::CannotRead => "cannot read",
            StreamFault::CannotWrite => "cannot write",
        })
    }
}

impl Error for StreamFault {}

/// Why an input could not be held.
#[derive(Clone, Copy, Debug, PartialEq, Eq)]
pub enum ReadFault {
    /// A read failed, or the last read that is allowed has not met the end.
    CannotRead,
    /// Memory was refused.
    OutOfMemory,
}

impl From<AllocError> for ReadFault {
    ghost use Rattle.sf_text.specs.declared.stream.ReadFault.TheVariants.{OutOfMemory};

    ghost from_gives = { λ _ e. e ≡ OutOfMemory };

    fn from(_error: AllocError) -> ReadFault {
        ReadFault::OutOfMemory
    }
}

/// All bytes that a reader has left, in at most `READS` reads. A failed read is not tried again.
pub fn read_all<R: Read>(alloc: Global, reader: &mut R) -> Result<Vec<u8>, ReadFault>
    ensures { IfOk result (λ input.
        IfSome (R.remaining reader.old) (λ bytes. input.items ≡ bytes)) }
{
    let mut input = Vec::new(alloc);
    let mut buffer = [0u8; 4096];
    'reads: for _ in 0..READS {
        let Ok(n) = reader.read(&mut buffer) else {
            return Err(ReadFault::CannotRead);
        };
        if n == 0 {
            return Ok(input);
        }
        input.extend_from_slice(&buffer[..n])?;
    }
    Err(ReadFault::CannotRead)
}

// Writes a whole answer. A write that fails, or that takes nothing, is not tried again.
fn write_bytes<W: Write>(writer: &mut W, answer: &[u8]) -> Result<(), StreamFault>
    ensures ok { OnOk result (Appends (W.contents writer.old) (W.contents writer.new) answer.now) }
    ensures err { IfErr result (λ fault. fault ≡ StreamFault.CannotWrite) }
    ensures part { AppendsPart (W.contents writer.old) (W.contents writer.new) answer.now }
{
    let mut at = 0;
    while at < answer.len() {
        match writer.write(&answer[at..]) {
            Ok(n) if 0 < n => at += n,
            _ => return Err(StreamFault::CannotWrite),
        }
    }
    Ok(())
}

/// Writes a whole answer, and hands it on. Where it fails, a beginning of the answer is written.
pub fn write_all<W: Write>(writer: &mut W, answer: &str) -> Result<(), StreamFault>
    ensures ok { OnOk result (Appends (W.contents writer.old) (W.contents writer.new) answer.now) }
    ensures err { IfErr result (λ fault. fault ≡ StreamFault.CannotWrite) }
    ensures part { AppendsPart (W.contents writer.old) (W.contents writer.new) answer.now }
{
    write_bytes(writer, answer.as_bytes())?;
    if writer.flush().is_err() {
        return Err(StreamFault::CannotWrite);
    }
    Ok(())
}

// The longest line that `write_line` writes, in bytes, with its LF. The text of a line is made before any of it is written.
const LONGEST_LINE: usize = 256;

/// Writes one line as the whole answer, and hands it on. Where it fails, a beginning of the line is written, and nothing of
/// one that is longer than 255 bytes.
pub fn write_line<W: Write, D: Display + Drop>(writer: &mut W, line: D) -> Result<(), StreamFault>
    ensures ok { OnOk result
        (IfSome (D.output line) (λ text.
        Appends (W.contents writer.old) (W.contents writer.new) (text ++ codes "\n"))) }
    ensures err { IfErr result (λ fault. fault ≡ StreamFault.CannotWrite) }
    ensures part { IfSome (D.output line) (λ text.
        AppendsPart (W.contents writer.old) (W.contents writer.new) (text ++ codes "\n")) }
{
    let mut text = InlineText::<LONGEST_LINE>::new();
    let Ok(()) = writeln!(text, "{line}") else {
        return Err(StreamFault::CannotWrite);
    };
    write_all(writer, text.as_str())
}
