//! The rows of the load path, and scripted loaders.

ghost use Rattle.std.specs.Prelude.{◌≡◌, IfOk};

use bytes::{ByteStr, Bytes};
use sf_history::CallId;
use sf_loaders::scripted::{Answer, FixedPicker, RoundChance, Script};
use sf_loaders::{
    Chance, Counts, Loaders, Local, LocalFault, Origin, Peer, PeerFault, Source, load_once,
};
use std::alloc::{AllocError, Global};
use std::fmt::Display;
use std::process::Abort;

const CALL: CallId = CallId {
    caller: 1,
    generation: 1,
};

type ScriptLoaders = Loaders<FixedPicker, Script, Script, RoundChance>;

fn script(alloc: Global, answer: Answer) -> Result<Script, AllocError> {
    Ok(Script::new(vec![in alloc; answer]?))
}

fn write_result(
    text: &mut String,
    given: &Result<(Bytes, Source), LocalFault>,
) -> Result<(), AllocError> {
    match given {
        Ok((value, source)) => {
            let value = str::from_utf8(value.as_slice()).unwrap_or("no text");
            let source = match source {
                Source::Peer => "peer",
                Source::Local => "local getter",
            };
            write!(text, "{value} of the {source}")
        }
        Err(fault) => write!(text, "{fault}"),
    }
}

fn write_peer_fault(text: &mut String, fault: &Option<PeerFault>) -> Result<(), AllocError> {
    match fault {
        Some(fault) => write!(text, "; peer: {fault}"),
        None => Ok(()),
    }
}

// How often the loaders were asked; nothing is drawn.
fn write_asked(text: &mut String, loaders: &ScriptLoaders) -> Result<(), AllocError> {
    let (peer, local) = (loaders.peer.asked(), loaders.local.asked());
    write!(text, "; asked {} {peer} {local}", loaders.picker.asked)
}

// What is counted: loads deduped, peer loads, peer errors, local loads, local load errors.
fn write_counts(text: &mut String, counts: Counts) -> Result<(), AllocError> {
    let _ = text.push_str("; counts");
    for count in [
        counts.loads_deduped,
        counts.peer_loads,
        counts.peer_errors,
        counts.local_loads,
        counts.local_load_errors,
    ] {
        write!(text, " {count}")?;
    }
    Ok(())
}

// The only answer of a loader: `memory`, a value, or a fault.
fn answer(word: &str) -> Answer {
    match word {
        "p" => value("p"),
        "v" => value("v"),
        "away" => failed("away"),
        "down" => failed("down"),
        _ => Answer::Memory,
    }
}

fn value(text: &'static str) -> Answer {
    Answer::Value(Bytes::from(text))
}

fn failed(text: &'static str) -> Answer {
    Answer::Failed(ByteStr::from(text))
}

// A picker, a peer and a local getter of one answer each: the words are a peer that is picked or `none`, what it answers, and what
// the local getter answers.
fn loaders_of(alloc: Global, words: &str) -> Result<ScriptLoaders, AllocError> {
    let (picked, answers) = words.split_once(' ').unwrap_or((words, ""));
    let (fetched, loaded) = answers.split_once(' ').unwrap_or((answers, ""));
    let peer = script(alloc, answer(fetched))?;
    let local = script(alloc, answer(loaded))?;
    let picked = if picked == "none" { None } else { Some(0) };
    Ok(Loaders::new(
        FixedPicker::new(picked),
        peer,
        local,
        RoundChance::default(),
    ))
}

// Which loader answered, and how often each was asked.
fn write_run(
    text: &mut String,
    given: &Result<(Bytes, Source), LocalFault>,
    loaders: &ScriptLoaders,
) -> Result<(), AllocError> {
    write_result(text, given)?;
    write_peer_fault(text, &loaders.peer_fault)?;
    write_asked(text, loaders)
}

// One run of the load path over these loaders.
fn run(alloc: Global, words: &str) -> Result<String, AllocError> {
    let mut loaders = loaders_of(alloc, words)?;
    let (result, counts) = load_once(&mut loaders, b"k", CALL);
    let draw = loaders.chance.draw();
    let mut text = String::new(alloc);
    write_run(&mut text, &result, &loaders)?;
    write_counts(&mut text, counts)?;
    write!(text, "; draw {draw}")?;
    Ok(text)
}

// What is due of each run: its value and the loader that gave it, or why there is none, and the peer's fault; how often picker, peer and local
// getter are asked; what is counted; and that the next draw is the first one.
const RUNS: &str = "\
none p v: v of the local getter; asked 1 0 1; counts 1 0 0 1 0; draw 0
peer p v: p of the peer; asked 1 1 0; counts 1 1 0 0 0; draw 0
peer away down: down; peer: away; asked 1 1 1; counts 1 0 1 0 1; draw 0
peer memory v: v of the local getter; peer: out of memory; asked 1 1 1; counts 1 0 1 1 0; draw 0
none p memory: out of memory; asked 1 0 1; counts 1 0 0 0 1; draw 0
";

// Want of memory at the peer falls through to the local getter; at that one it is the result.
#[test]
fn rows_of_the_load_path(rt: HostRuntime) -> Result<(), AllocError> {
    for row in RUNS.lines() {
        let (words, due) = row.split_once(": ").unwrap_or((row, ""));
        assert!(rt;
            run(rt.alloc(), words)?.as_str() == due,
            "{words} comes out otherwise"
        );
    }
    Ok(())
}

// The origin at which each key is its own value.
struct OwnKey;

impl Origin for OwnKey {
    ghost loaded = { λ key call value. value ≡ key };
}

// A peer and a local getter of that origin.
#[derive(Drop)]
struct Echo {
    alloc: Global,
}

impl Peer for Echo {
    type Origin = OwnKey;

    ghost use Rattle.std.specs.Prelude.{⊤};

    ghost fetch_gives = { λ old peer key call answer new. ⊤ };

    fn fetch(&mut self, _peer: u32, key: &[u8], _call: CallId) -> Result<Bytes, PeerFault> {
        Bytes::copy_from_slice(self.alloc, key).map_err(|_| PeerFault::Memory)
    }
}

impl Local for Echo {
    type Origin = OwnKey;

    ghost use Rattle.std.specs.Prelude.{⊤};

    ghost load_gives = { λ old key call answer new. ⊤ };

    fn load(&mut self, key: &[u8], _call: CallId) -> Result<Bytes, LocalFault> {
        Bytes::copy_from_slice(self.alloc, key).map_err(|_| LocalFault::Memory)
    }
}

// A value is what its origin states, whichever loader gave it.
fn echoed(alloc: Global, picked: Option<u32>, key: &[u8]) -> Result<(Bytes, Source), LocalFault>
    ensures { IfOk result (λ found. found.0 ≡ key.now) }
{
    let mut loaders = Loaders::new(
        FixedPicker::new(picked),
        Echo { alloc },
        Echo { alloc },
        RoundChance::default(),
    );
    load_once(&mut loaders, key, CALL).0
}

fn assert_echoed(rt: &impl Abort, alloc: Global, picked: Option<u32>, due: Source) {
    let Ok((value, source)) = echoed(alloc, picked, b"key") else {
        panic!(rt; "no value")
    };
    assert!(rt; value.as_slice() == b"key".as_slice() && source == due);
}

#[test]
fn values_are_those_of_their_origin(rt: HostRuntime) {
    assert_echoed(&rt, rt.alloc(), Some(3), Source::Peer);
    assert_echoed(&rt, rt.alloc(), None, Source::Local);
}

// The script's next answer as a peer: the text of a value or of a fault.
fn assert_fetch(rt: &impl Abort, script: &mut Script, due: &str) {
    let said = match script.fetch(0, b"k", CALL) {
        Ok(value) => value.as_slice() == due.as_bytes(),
        Err(PeerFault::Failed(text)) => text.as_str() == due,
        Err(PeerFault::Memory) => due == "out of memory",
    };
    assert!(rt; said, "a peer's answer is not {due}");
}

// The script's next answer as a local getter.
fn assert_load(rt: &impl Abort, script: &mut Script, due: &str) {
    let said = match script.load(b"k", CALL) {
        Ok(value) => value.as_slice() == due.as_bytes(),
        Err(LocalFault::Failed(text)) => text.as_str() == due,
        Err(LocalFault::Memory) => due == "out of memory",
    };
    assert!(rt; said, "a local answer is not {due}");
}

// The script's next answer to whom the row names.
fn assert_next(rt: &impl Abort, script: &mut Script, row: &str) {
    let (whom, due) = row.split_once(": ").unwrap_or((row, ""));
    if whom == "peer" {
        assert_fetch(rt, script, due);
    } else {
        assert_load(rt, script, due);
    }
}

const ROUND: &str = "peer: first
local: second
local: third
peer: out of memory
local: first
peer: second
peer: third
local: out of memory
";

fn scripted(alloc: Global) -> Result<Script, AllocError> {
    let (first, second) = (value("first"), value("second"));
    let answers = vec![in alloc; first, second, failed("third"), Answer::Memory]?;
    Ok(Script::new(answers))
}

#[test]
fn scripts_go_round(rt: HostRuntime) -> Result<(), AllocError> {
    let mut script = scripted(rt.alloc())?;
    for row in ROUND.lines() {
        assert_next(&rt, &mut script, row);
    }
    assert!(rt; script.asked() == 8);
    Ok(())
}

#[test]
fn draws_go_round(rt: HostRuntime) {
    let mut chance = RoundChance::default();
    for draw in [0, 1, 2, 3, 4, 5, 6, 7, 8, 9, 0, 1] {
        assert!(rt; chance.draw() == draw, "another draw than {draw}");
    }
}

fn assert_text<D: Display + Drop>(
    rt: &impl Abort,
    alloc: Global,
    shown: D,
    due: &str,
) -> Result<(), AllocError> {
    let text = format!(in alloc; "{shown}")?;
    assert!(rt; text.as_str() == due, "{text}");
    Ok(())
}

#[test]
fn fault_texts(rt: HostRuntime) -> Result<(), AllocError> {
    let alloc = rt.alloc();
    let away = PeerFault::Failed(ByteStr::from("away"));
    let down = LocalFault::Failed(ByteStr::from("down"));
    assert_text(&rt, alloc, away, "away")?;
    assert_text(&rt, alloc, down, "down")?;
    assert_text(&rt, alloc, PeerFault::Memory, "out of memory")?;
    assert_text(&rt, alloc, LocalFault::Memory, "out of memory")
}
