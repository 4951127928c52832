//! Streams that fail at their n-th call, and an input that never ends.

use sf_cli_engines::{Ending, Engine, Judged, Shown};
use sf_text::{READS, StreamFault};
use std::alloc::Global;
use std::io::{Error, ErrorKind, Read, Result as IoResult, Write};
use std::process::Abort;
use std::test::Fail;

// A reader of a text that hands out so many bytes a call, and fails at its n-th read alone.
#[derive(Drop)]
struct FailingReader<'t> {
    text: &'t [u8],
    bytes_a_call: usize,
    reads: u32,
    fails_at: u32,
}

impl Read for FailingReader<'_> {
    fn read(&mut self, buf: &mut [u8]) -> IoResult<usize> {
        self.reads = self.reads.saturating_add(1);
        if self.reads == self.fails_at {
            return Err(Error::from(ErrorKind::Other));
        }
        let n = self.text.len().min(self.bytes_a_call).min(buf.len());
        buf[..n].copy_from_slice(&self.text[..n]);
        self.text = &self.text[n..];
        Ok(n)
    }
}

// Starts an engine on an input that three reads hand out, and a fourth meets its end. The read of this number fails: that is said, and
// nothing is written. Where no read fails all is answered.
fn is_read(
    rt: &impl Abort,
    alloc: Global,
    engine: Engine,
    input: &str,
    answer: &str,
    fails_at: u32,
) {
    let mut written: Vec<u8> = Vec::new(alloc);
    let mut reader = FailingReader {
        text: input.as_bytes(),
        bytes_a_call: input.len().div_ceil(3),
        reads: 0,
        fails_at,
    };
    let ended = engine.start(alloc, &mut reader, &mut written);
    assert!(rt; reader.reads == fails_at.min(4), "another number of reads");
    let (due, answer) = if fails_at <= 4 {
        (Err(StreamFault::CannotRead), "")
    } else {
        (Ok(Ending::Answered), answer)
    };
    assert!(rt; ended == due, "it ends otherwise");
    assert!(rt; written.as_slice() == answer.as_bytes(), "another answer");
}

fn reads_fail(rt: &impl Abort, alloc: Global, engine: Engine, input: &str, answer: &str) {
    for fails_at in 1..6 {
        is_read(rt, alloc, engine, input, answer, fails_at);
    }
}

const RUN: Engine = Engine::Run { history: false };

const STEPS: Engine = Engine::Steps(Shown::Lines);

const CHECK: Engine = Engine::Check(Judged::AsItStands);

#[test]
fn failing_reads(rt: HostRuntime) {
    reads_fail(&rt, rt.alloc(), RUN, "ask 1 key", "1 lead 1.1\n");
    reads_fail(&rt, rt.alloc(), STEPS, "do 1 ask 1\nstep 1", "1 look 1 0\n");
    reads_fail(
        &rt,
        rt.alloc(),
        CHECK,
        "{\"format\":1}",
        "legal: 0 events\n",
    );
}

// A writer that takes three bytes a call, and fails at its n-th call alone, a write or the flush that hands on what it has.
#[derive(Drop)]
struct FailingWriter {
    written: Vec<u8>,
    calls: u32,
    fails_at: u32,
    flushed: bool,
}

impl FailingWriter {
    // Counts a call, which may be the one that fails.
    fn call(&mut self) -> IoResult<()> {
        self.calls = self.calls.saturating_add(1);
        if self.calls == self.fails_at {
            return Err(Error::from(ErrorKind::Other));
        }
        Ok(())
    }
}

impl Write for FailingWriter {
    fn write(&mut self, buf: &[u8]) -> IoResult<usize> {
        self.call()?;
        let n = buf.len().min(3);
        self.written.extend_from_slice(&buf[..n])?;
        Ok(n)
    }

    fn flush(&mut self) -> IoResult<()> {
        self.call()?;
        self.flushed = true;
        Ok(())
    }
}

// All of the answer is written and handed on, which takes more than four calls.
fn is_handed_on(rt: &impl Abort, writer: &FailingWriter, answer: &str) {
    assert!(rt;
        writer.flushed && writer.fails_at > 4,
        "it is not handed on"
    );
    assert!(rt; writer.written.len() == answer.len(), "not all is written");
}

// Writes the answer to a writer that fails at this call: a beginning of it is written, and that is said. Where no call fails all is
// written and handed on.
fn is_written(
    rt: &impl Abort,
    alloc: Global,
    engine: Engine,
    input: &str,
    answer: &str,
    due: Ending,
    fails_at: u32,
) {
    let mut writer = FailingWriter {
        written: Vec::new(alloc),
        calls: 0,
        fails_at,
        flushed: false,
    };
    let ended = engine.start(alloc, &mut input.as_bytes(), &mut writer);
    assert!(rt;
        answer.as_bytes().starts_with(writer.written.as_slice()),
        "no beginning is written"
    );
    if writer.calls >= fails_at {
        let is_said = ended == Err(StreamFault::CannotWrite);
        assert!(rt;
            is_said && writer.calls == fails_at,
            "it is not said, or it goes on"
        );
    } else {
        assert!(rt; ended == Ok(due), "it ends otherwise");
        is_handed_on(rt, &writer, answer);
    }
}

fn writes_fail(
    rt: &impl Abort,
    alloc: Global,
    engine: Engine,
    input: &str,
    answer: &str,
    due: Ending,
) {
    for fails_at in 1..100 {
        is_written(rt, alloc, engine, input, answer, due, fails_at);
    }
}

// An answer that cannot be written, or handed on, is not said to be.
#[test]
fn failing_writes(rt: HostRuntime) {
    let (alloc, due) = (rt.alloc(), Ending::Answered);
    writes_fail(&rt, alloc, RUN, "ask 1 key", "1 lead 1.1\n", due);
    writes_fail(&rt, alloc, STEPS, "do 1 ask 1\nstep 1", "1 look 1 0\n", due);
    writes_fail(
        &rt,
        alloc,
        CHECK,
        "{\"format\":1}",
        "legal: 0 events\n",
        due,
    );
}

#[test]
fn failing_writes_of_a_refusal(rt: HostRuntime) {
    let (alloc, due) = (rt.alloc(), Ending::Refused);
    let nothing = "line 1: caller 1 has nothing to take\n";
    writes_fail(&rt, alloc, RUN, "take 1", nothing, due);
    let no_turn = "line 1: not a turn of this schedule\n";
    writes_fail(&rt, alloc, STEPS, "step 1", no_turn, due);
    writes_fail(&rt, alloc, CHECK, "", "line 1: not a record\n", due);
}

// A reader that hands out one byte a call and never ends, and counts its calls.
#[derive(Drop)]
struct EndlessReader {
    reads: u32,
}

impl Read for EndlessReader {
    fn read(&mut self, buf: &mut [u8]) -> IoResult<usize> {
        self.reads = self.reads.saturating_add(1);
        if buf.is_empty() {
            return Ok(0);
        }
        buf[0] = b'\n';
        Ok(1)
    }
}

#[test]
fn an_endless_input_is_a_failing_read(rt: HostRuntime) {
    let mut reader = EndlessReader { reads: 0 };
    let mut written: Vec<u8> = Vec::new(rt.alloc());
    let ended = RUN.start(rt.alloc(), &mut reader, &mut written);
    assert!(rt;
        matches!(ended, Err(StreamFault::CannotRead)),
        "it is read to an end"
    );
    assert!(rt; written.is_empty(), "something is written");
    assert!(rt;
        reader.reads == READS && READS == 16_777_216,
        "another number of reads"
    );
}

fn says(rt: &impl Abort, alloc: Global, fault: StreamFault, due: &str) -> Result<(), Fail> {
    let said = format!(in alloc; "{fault}")?;
    assert!(rt; said.as_str() == due, "another text");
    Ok(())
}

#[test]
fn faults_say_what_failed(rt: HostRuntime) -> Result<(), Fail> {
    says(&rt, rt.alloc(), StreamFault::CannotRead, "cannot read")?;
    says(&rt, rt.alloc(), StreamFault::CannotWrite, "cannot write")
}
