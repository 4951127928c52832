//! Trials: a fill with three getters, made from a script, and what comes of it.
//!
//! A trial is a text of a script, a line `=` and what comes of the script. A line of the script begins with the number of a getter
//! that makes the step, or it says something of the fill; or it names the trials from here on (`trial NAME`), or is a comment (`# ..`):
//!
//!     limit 2
//!     1 get a
//!     1 take-log
//!     =
//!     1 a v=true 1.1 root=1.1 joiners=0
//!     1 lead 1 1.1
//!     1 settle 1 1.1 0
//!     1 handed 1 1.1
//!     1 log
//!     counted 1 0 1 1 0 0 1 0
//!
//! First comes what the getters say, all of the first getter's before the second's. Then the counters stand in their order: gets,
//! cache hits, loads, loads deduped, peer loads, peer errors, local loads, local load errors.
//!
//! Of the fill a script may say:
//!
//!     places 8          how many places keys have
//!     keys hashed       a hash says them, and no directory gives them
//!     longest 4         the longest key of a directory, in bytes
//!     seed0 0           the first half of the seed that keys have their places by
//!     seed1 0           its second half
//!     first 1           the generation of the getters' first askings
//!     limit 100         how many bytes of keys and values main and hot keep
//!     near 0            how many letters each getter keeps near
//!     near-bytes 100    how many bytes of keys and values these have at most
//!     log 64            how many events each getter can log
//!     peer value        a peer gives the value `v`, a `large` one, or a `fault`; else there is no peer. Of `fault 2` and a value `p` in
//!                       turn it gives the fault at its second fetch alone
//!     local value       the local getter gives these, and `v` beside `fault 2`; or the `version` of the key's source; a `large` value has 70,000 bytes
//!     getters beside    each getter makes its steps on a thread of its own, and not one getter after another
//!     getters end       the getters end one by one, and are not gathered
//!     getters leave     so do they, and leave their callers
//!
//! These numbers hold, and `local value`, where the script says nothing.
ghost use Rattle.std.specs.Prelude.{◌≡◌, ◌<◌, ◌≤◌, IfOk, vec_len};
ghost use Rattle.sf_words.specs.declared.limits.TheConstants.{LARGEST_PLACE};
ghost use Rattle.sf_fill_open.specs.Opened.{places_for};
ghost use Rattle.sf_fill_tests.specs.Origins.{IsOpenOrigin};

use crate::loaders::{Flags, TestLoaders, TestLocal};
use crate::steps::{Steps, run};
use bytes::{ByteStr, Bytes};
use sf_fill::{Fill, Getter, Naming, Totals};
use sf_fill_open::{DirectoryKeys, FillSizes, Keeps, Keys, Places, Team, with_team};
use sf_group::Memory;
use sf_loaders::scripted::{Answer, FixedPicker, RoundChance, Script};
use sf_loaders::{LoadPath, Loaders, Origin};
use std::alloc::Global;
use std::fmt::Write;
use std::process::Abort;
use std::sync::Wait;
use std::sync::atomic::Ordering;
use std::test::Fail;
use std::thread::Threads;

/// What the getters said, and what was counted.
#[derive(Drop)]
pub struct Tried {
    pub said: String,
    pub book: Totals,
    pub gathered: Totals,
}

// What the script says of the fill under this name, if it does.
fn setting<'t>(script: &'t str, name: &str) -> Option<&'t str> {
    for line in script.lines() {
        if let Some((first, value)) = line.split_once(' ') {
            if first == name {
                return Some(value);
            }
        }
    }
    None
}

// Whether the script says this of the fill.
fn says(script: &str, name: &str, value: &str) -> bool {
    match setting(script, name) {
        Some(said) => said == value,
        None => false,
    }
}

// The number that the script says under this name, of 65,536 at most.
fn number(rt: &impl Abort, script: &str, name: &str, otherwise: u32) -> u32
    ensures { result ≤ 65_536 }
{
    let number = match setting(script, name) {
        Some(value) => value.parse::<u32>().unwrap_or(u32::MAX),
        None => otherwise,
    };
    assert!(rt; number <= 65_536, "no number of {name}");
    number
}

// The generation of the getters' first askings.
fn first(rt: &impl Abort, script: &str) -> u32
    ensures { 1 ≤ result }
{
    let first = setting(script, "first").unwrap_or("1");
    let first = first.parse::<u32>().unwrap_or(0);
    assert!(rt; first > 0, "no generation");
    first
}

// How many bytes of keys and values main and hot keep.
fn limit(rt: &impl Abort, script: &str) -> i64 {
    let Some(value) = setting(script, "limit") else {
        return 100;
    };
    let Ok(limit) = value.parse::<i64>() else {
        panic!(rt; "no limit")
    };
    limit
}

// How many bytes of keys and values a getter keeps near.
fn near_bytes(rt: &impl Abort, script: &str) -> usize {
    let Some(value) = setting(script, "near-bytes") else {
        return 100;
    };
    let Ok(bytes) = value.parse::<usize>() else {
        panic!(rt; "no bytes of near letters")
    };
    bytes
}

// A half of the seed.
fn seed(rt: &impl Abort, script: &str, name: &str) -> u64 {
    let Some(value) = setting(script, name) else {
        return 0;
    };
    let Ok(half) = value.parse::<u64>() else {
        panic!(rt; "no {name}")
    };
    half
}

// Where keys have their places.
fn keys(rt: &impl Abort, script: &str) -> Keys
    ensures { places_for result ≤ LARGEST_PLACE }
{
    let count = number(rt, script, "places", 8);
    let key_bytes = number(rt, script, "longest", 4);
    let seed0 = seed(rt, script, "seed0");
    let seed1 = seed(rt, script, "seed1");
    assert!(rt; count > 0 && key_bytes <= 250, "no places");
    if says(script, "keys", "hashed") {
        return Keys::Hashed(Places {
            count,
            seed0,
            seed1,
        });
    }
    Keys::Directory(DirectoryKeys {
        keys: count,
        key_bytes,
        seed0,
        seed1,
    })
}

// Each line after the getter's number.
fn numbered(alloc: Global, number: &str, part: String) -> String {
    let mut said = String::new(alloc);
    for line in part.as_str().lines() {
        let _ = write!(&mut said, "{number} {line}\n");
    }
    said
}

// The parts, one after another.
fn joined(alloc: Global, parts: Vec<String>) -> String {
    let mut said = String::new(alloc);
    for part in parts {
        let _ = said.push_str(part.as_str());
    }
    said
}

// What getters do by a script.
#[derive(Drop)]
struct Play<'a, R> {
    rt: &'a R,
    alloc: Global,
    script: &'a str,
    flags: &'a Flags,
    log: usize,
}

impl<'a, R: Wait> Play<'a, R> {
    // Whether the getters make their steps beside each other, and not one getter after another.
    fn is_beside(&self) -> bool {
        says(self.script, "getters", "beside")
    }

    // Whether the getters end one by one.
    fn is_ended(&self) -> bool {
        says(self.script, "getters", "end") || says(self.script, "getters", "leave")
    }

    // Whether the last hits of near letters are entered by the ends of getters alone.
    fn is_left_to_end(&self) -> bool {
        self.is_ended() && setting(self.script, "near").is_some()
    }

    // What the getter of this number does, and says. All that it counted is in the book then, but for the last hits of near letters,
    // which it enters here, where its end does not.
    fn turns<'d, D: Naming, N: Naming, O: Origin, L: LoadPath<Origin = O> + Drop>(
        &self,
        fill: &Fill<'d, D, N, O>,
        getter: &mut Getter<'d, D, N, O, L>,
        number: &str,
    ) -> String
        requires { IsOpenOrigin O.loaded }
    {
        let mut part = String::new(self.alloc);
        let steps = Steps {
            number,
            script: self.script,
            flags: self.flags,
        };
        run(self.rt, fill, getter, steps, &mut part);
        if setting(self.script, "near").is_some() && !self.is_left_to_end() {
            getter.enter(self.rt, fill);
        }
        numbered(self.alloc, number, part)
    }

    // The getters after the turns of the first of them, which is the last one then.
    fn next_turns<'d, D: Naming, N: Naming, O: Origin, L: LoadPath<Origin = O> + Drop>(
        &self,
        fill: &Fill<'d, D, N, O>,
        getters: Vec<Getter<'d, D, N, O, L>>,
        number: &str,
        said: &mut String,
    ) -> Vec<Getter<'d, D, N, O, L>>
        requires origin { IsOpenOrigin O.loaded }
        requires getters { vec_len getters ≡ 3 }
        ensures { vec_len result ≡ 3 }
    {
        let mut getters = getters;
        let mut getter = getters.remove(0);
        let part = self.turns(fill, &mut getter, number);
        getters.push_reserved(getter);
        let _ = said.push_str(part.as_str());
        getters
    }

    // The getters after the turns of all: those that had none beside each other have them here.
    fn all_turns<'d, D: Naming, N: Naming, O: Origin, L: LoadPath<Origin = O> + Drop>(
        &self,
        fill: &Fill<'d, D, N, O>,
        getters: Vec<Getter<'d, D, N, O, L>>,
        said: &mut String,
    ) -> Vec<Getter<'d, D, N, O, L>>
        requires origin { IsOpenOrigin O.loaded }
        requires getters { vec_len getters ≡ 3 }
        ensures { vec_len result ≡ 3 }
    {
        if self.is_beside() {
            return getters;
        }
        let getters = self.next_turns(fill, getters, "1", said);
        let getters = self.next_turns(fill, getters, "2", said);
        self.next_turns(fill, getters, "3", said)
    }

    // What the book says once the getters are spent: they end one by one, or are gathered.
    fn spent<'d, D: Naming, N: Naming, O: Origin, L: Drop>(
        &self,
        fill: &Fill<'d, D, N, O>,
        getters: Vec<Getter<'d, D, N, O, L>>,
    ) -> Totals
        requires all { vec_len getters ≡ N.getters }
        requires some { 0 < vec_len getters }
    {
        if !self.is_ended() {
            return fill.gather(self.rt, getters);
        }
        let leaves = says(self.script, "getters", "leave");
        let mut getters = getters;
        'rest: while let Some(getter) = getters.pop() {
            spend(self.rt, fill, getter, leaves);
        }
        getters.destroy_empty();
        fill.book(self.rt)
    }
}

impl<'a, R: Wait> Team for Play<'a, R> {
    type Part = String;

    type Answer = Tried;

    ghost use Rattle.std.specs.Prelude.{◌≡◌, ⊤};
    ghost use Rattle.sf_fill_tests.specs.Origins.{IsOpenOrigin};

    ghost wants = { λ play getters loaded. (getters ≡ 3) × IsOpenOrigin loaded };

    ghost room = { λ play. play.log };

    ghost gives = { λ play space group index getter part. ⊤ };

    ghost ends = { λ play parts outcome. ⊤ };

    fn work<'d, D: Naming, N: Naming, O: Origin, L: LoadPath<Origin = O> + Drop>(
        &self,
        fill: &Fill<'d, D, N, O>,
        getter: &mut Getter<'d, D, N, O, L>,
        index: u32,
    ) -> String
        requires wants { (N.getters ≡ 3) × IsOpenOrigin O.loaded }
    {
        if self.is_beside() {
            self.turns(fill, getter, number_of(index))
        } else {
            String::new(self.alloc)
        }
    }

    fn finish<'d, D: Naming, N: Naming, O: Origin, L: LoadPath<Origin = O> + Drop>(
        &self,
        fill: &Fill<'d, D, N, O>,
        getters: Vec<Getter<'d, D, N, O, L>>,
        parts: Vec<String>,
    ) -> Tried
        requires wants { (N.getters ≡ 3) × IsOpenOrigin O.loaded }
        requires getters { vec_len getters ≡ N.getters }
        requires parts { vec_len parts ≡ N.getters }
    {
        let mut said = joined(self.alloc, parts);
        let getters = self.all_turns(fill, getters, &mut said);
        let book = fill.book(self.rt);
        let gathered = self.spent(fill, getters);
        let book = if self.is_left_to_end() {
            gathered
        } else {
            book
        };
        Tried {
            said,
            book,
            gathered,
        }
    }
}

// Ends the getter, or makes a caller of it.
fn spend<'d, D: Naming, N: Naming, O: Origin, L: Drop>(
    rt: &impl Wait,
    fill: &Fill<'d, D, N, O>,
    getter: Getter<'d, D, N, O, L>,
    leaves: bool,
) {
    if leaves {
        let _caller = getter.into_caller(rt, fill);
    } else {
        getter.end(rt, fill);
    }
}

// The number that the script has for the getter of this index.
fn number_of(index: u32) -> &'static str {
    match index {
        0 => "1",
        1 => "2",
        _ => "3",
    }
}

// What a loader answers: this value, or a fault.
fn answer(fails: bool, value: &'static str) -> Answer {
    if fails {
        Answer::Failed(ByteStr::from("down"))
    } else {
        Answer::Value(Bytes::from(value))
    }
}

// Four answers of a loader: this value, but for a fault in this turn.
fn with_one_fault(alloc: Global, turn: &str, value: &'static str) -> Result<Script, Memory> {
    let first = answer(turn == "1", value);
    let second = answer(turn == "2", value);
    let third = answer(turn == "3", value);
    let fourth = answer(turn == "4", value);
    Ok(Script::new(vec![in alloc; first, second, third, fourth]?))
}

// The answers of a loader that gives a value, and else a fault; or this value but for one fault.
fn answers(alloc: Global, gives: &str, value: &'static str) -> Result<Script, Memory> {
    if let Some(turn) = gives.strip_prefix("fault ") {
        return with_one_fault(alloc, turn, value);
    }
    let answer = match gives {
        "value" => Answer::Value(Bytes::from("v")),
        "large" => Answer::Value(large(alloc)?),
        _ => Answer::Failed(ByteStr::from("down")),
    };
    Ok(Script::new(vec![in alloc; answer]?))
}

// A value of 70,000 bytes, each of which is `v`.
fn large(alloc: Global) -> Result<Bytes, Memory> {
    let mut bytes = Vec::with_capacity(alloc, 70_000)?;
    for _ in 0..70_000 {
        bytes.push(b'v')?;
    }
    Ok(Bytes::from_vec(bytes)?)
}

// The local getter that the script asks for; it waits until the second getter was answered, or not.
fn local<'f>(
    alloc: Global,
    script: &str,
    flags: &'f Flags,
    waits: bool,
) -> Result<TestLocal<'f>, Memory> {
    let gives = setting(script, "local").unwrap_or("value");
    if gives == "version" {
        return Ok(TestLocal::Reads(alloc, flags));
    }
    let answers = answers(alloc, gives, "v")?;
    Ok(if waits {
        TestLocal::Waits(answers, flags)
    } else {
        TestLocal::Plays(answers)
    })
}

fn loaders<'f>(
    alloc: Global,
    script: &str,
    flags: &'f Flags,
    waits: bool,
) -> Result<TestLoaders<'f>, Memory> {
    let peer = setting(script, "peer").unwrap_or("absent");
    let picked = if peer == "absent" { None } else { Some(0) };
    Ok(Loaders::new(
        FixedPicker::new(picked),
        answers(alloc, peer, "p")?,
        local(alloc, script, flags, waits)?,
        RoundChance::default(),
    ))
}

// The loaders of the three getters, of which the first one waits where they are beside each other.
fn all_loaders<'f>(
    alloc: Global,
    script: &str,
    flags: &'f Flags,
    waits: bool,
) -> Result<Vec<TestLoaders<'f>>, Memory>
    ensures { IfOk result (λ sets. vec_len sets ≡ 3) }
{
    let mut sets = Vec::with_capacity(alloc, 3)?;
    sets.push_reserved(loaders(alloc, script, flags, waits)?);
    sets.push_reserved(loaders(alloc, script, flags, false)?);
    sets.push_reserved(loaders(alloc, script, flags, false)?);
    Ok(sets)
}

// How large the fill is.
fn sizes_of(rt: &impl Abort, script: &str) -> FillSizes
    ensures { places_for result.keys ≤ LARGEST_PLACE }
{
    FillSizes {
        keys: keys(rt, script),
        keeps: Keeps {
            limit: limit(rt, script),
            log: number(rt, script, "log", 64) as usize,
            near: number(rt, script, "near", 0),
            near_limit: near_bytes(rt, script),
        },
        first_generation: first(rt, script),
    }
}

// What comes of the script, but for waits that were given up.
fn play_out<R: Wait + Threads + Abort + Sync>(
    rt: &R,
    alloc: Global,
    script: &str,
    flags: &Flags,
) -> Result<Tried, Memory> {
    let sizes = sizes_of(rt, script);
    let play = Play {
        rt,
        alloc,
        script,
        flags,
        log: sizes.keeps.log,
    };
    let sets = all_loaders(alloc, script, flags, play.is_beside())?;
    with_team(rt, alloc, sizes, sets, &play)
}

/// What comes of the script.
pub fn try_out<R: Wait + Threads + Abort + Sync>(
    rt: &R,
    alloc: Global,
    script: &str,
) -> Result<Tried, Memory> {
    check_words(rt, script);
    let flags = Flags::new();
    let outcome = play_out(rt, alloc, script, &flags)?;
    assert!(rt; !flags.failed.load(Ordering::SeqCst), "a wait was given up");
    Ok(outcome)
}

// The counters in their order.
fn counters(totals: Totals) -> [u128; 8] {
    [
        totals.gets,
        totals.cache_hits,
        totals.loads,
        totals.loads_deduped,
        totals.peer_loads,
        totals.peer_errors,
        totals.local_loads,
        totals.local_load_errors,
    ]
}

fn add_counters(said: &mut String, totals: Totals) {
    let _ = said.push_str("counted");
    for count in counters(totals) {
        let _ = write!(said, " {count}");
    }
}

// Whether a line of a script begins with a word of scripts.
fn is_known(line: &str) -> bool {
    let (word, _) = line.split_once(' ').unwrap_or((line, ""));
    matches!(
        word,
        "1" | "2"
            | "3"
            | "trial"
            | "#"
            | "places"
            | "keys"
            | "longest"
            | "seed0"
            | "seed1"
            | "first"
            | "limit"
            | "near"
            | "near-bytes"
            | "log"
            | "peer"
            | "local"
            | "getters"
    )
}

fn check_words(rt: &impl Abort, script: &str) {
    for line in script.lines() {
        assert!(rt; is_known(line), "{line}");
    }
}

fn check(rt: &impl Abort, script: &str, outcome: Tried, wanted: &str) {
    let counted = counters(outcome.book);
    assert!(rt; counters(outcome.gathered) == counted, "what is gathered");
    let mut said = outcome.said;
    add_counters(&mut said, outcome.book);
    assert!(rt; said.as_str() == wanted, "{script}=\n{said}");
}

fn trial<R: Wait + Threads + Abort + Sync>(rt: &R, alloc: Global, text: &str) -> Result<(), Fail> {
    let (script, wanted) = text.split_once("=\n").unwrap_or((text, ""));
    let outcome = try_out(rt, alloc, script)?;
    check(rt, script, outcome, wanted);
    Ok(())
}

/// What comes of each of these trials is what stands there. An empty line stands between two of them.
pub fn trials<R: Wait + Threads + Abort + Sync>(
    rt: &R,
    alloc: Global,
    text: &str,
) -> Result<(), Fail> {
    for one in text.split("\n\n") {
        trial(rt, alloc, one)?;
    }
    Ok(())
}
