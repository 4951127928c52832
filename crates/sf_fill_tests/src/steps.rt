//! What getters do in a test, and what they say of it.

ghost use Rattle.sf_fill_tests.specs.Origins.{IsOpenOrigin};

use crate::getting;
use crate::loaders::Flags;
use bytes::Bytes;
use sf_fill::{Fill, Forgot, Getter, LoadFault, Naming, Put, View, Which};
use sf_group::Event;
use sf_loaders::{LoadPath, Origin};
use sf_words::PlaceNo;
use std::fmt::Write;
use std::sync::Wait;
use std::sync::atomic::Ordering;
use std::thread::yield_now;

/// What a getter does in a step.
#[derive(Clone, Copy)]
pub enum Verb {
    /// Gets the key.
    Get,
    /// Gets the key's bytes alone if a letter of it is at hand.
    GetBytes,
    /// Gets the key, and says the key of what is answered.
    GetKey,
    /// Gets a key so often, as `3 a`, and says nothing.
    Repeat,
    /// Reloads the key.
    Reload,
    /// Puts the value `w` under the key.
    Put,
    /// Takes the key out of the caches.
    Remove,
    /// Forgets all places.
    ForgetAll,
    /// Says what the caches hold, main before hot.
    Stats,
    /// Settles up.
    SettleUp,
    /// Hands out its log.
    TakeLog,
    /// Waits until another getter has told this.
    Await,
    /// Tells the others this.
    Tell,
    /// Gets the keys `a` and `b` in turn, often, and says how many of its answers were old: of a version before one whose
    /// reload had returned when the get began.
    Read,
    /// Gets the keys `a` and `b` in turn, often, and says how many gets the book lacks at most where one has ended; with `refused`
    /// some keys are too long, or have no place.
    Behind,
    /// Changes the sources of `a` and `b` in turn, often, and reloads the key each time.
    Change,
    /// There is no such step.
    Unknown,
}

/// A step of a getter.
#[derive(Clone, Copy)]
pub struct Step<'t> {
    pub does: Verb,
    /// The key that it is about, or what else stands after its verb.
    pub key: &'t str,
}

// The keys whose sources change.
const KEYS: [&str; 2] = ["a", "b"];

// How often a getter reads them, each.
const READS: u32 = 1_000;

// How often their sources change, each.
const CHANGES: u8 = 250;

fn verb_of(word: &str) -> Verb {
    match word {
        "get" => Verb::Get,
        "get-bytes" => Verb::GetBytes,
        "get-key" => Verb::GetKey,
        "repeat" => Verb::Repeat,
        "reload" => Verb::Reload,
        "put" => Verb::Put,
        "remove" => Verb::Remove,
        "forget-all" => Verb::ForgetAll,
        "stats" => Verb::Stats,
        "settle-up" => Verb::SettleUp,
        "take-log" => Verb::TakeLog,
        "await" => Verb::Await,
        "tell" => Verb::Tell,
        "read" => Verb::Read,
        "behind" => Verb::Behind,
        "change" => Verb::Change,
        _ => Verb::Unknown,
    }
}

/// The script of a getter of this number, and what getters tell each other.
#[derive(Clone, Copy)]
pub struct Steps<'t> {
    pub number: &'t str,
    pub script: &'t str,
    pub flags: &'t Flags,
}

// The step of a script's line, if it is one of this getter.
fn step_of<'t>(line: &'t str, getter: &str) -> Option<Step<'t>> {
    let (number, step) = line.split_once(' ')?;
    if number != getter {
        return None;
    }
    let (verb, key) = step.split_once(' ').unwrap_or((step, ""));
    Some(Step {
        does: verb_of(verb),
        key,
    })
}

// What a get answers: the bytes, the call and how many joined it. Where memory is refused, the text is short.
fn say_view<'d, D: Naming, O: Origin>(
    said: &mut String,
    key: &str,
    answer: &Result<View<'d, D, O>, LoadFault>,
) {
    let _ = match answer {
        Ok(view) => {
            let call = view.call();
            let root = view.root();
            let joiners = view.joiners();
            let shared = if view.shared() { " shared" } else { "" };
            let bytes: &Bytes = view.bytes();
            let is_v = bytes.as_slice() == b"v".as_slice();
            write!(
                said,
                "{key} v={is_v} {call} root={root} joiners={joiners}{shared}\n"
            )
        }
        Err(fault) => write!(said, "{key} {fault}\n"),
    };
}

// What bytes are answered.
fn say_bytes(said: &mut String, key: &str, answer: Option<Result<Bytes, LoadFault>>) {
    let _ = match answer {
        Some(Ok(bytes)) => {
            let is_v = bytes.as_slice() == b"v".as_slice();
            write!(said, "{key} bytes v={is_v}\n")
        }
        Some(Err(fault)) => write!(said, "{key} bytes {fault}\n"),
        None => write!(said, "{key} no bytes\n"),
    };
}

// Gets the key, and says the key of what is answered, where its place is hashed.
fn get_key<'d, D: Naming, N: Naming, O: Origin, L: LoadPath<Origin = O>>(
    rt: &impl Wait,
    fill: &Fill<'d, D, N, O>,
    getter: &mut Getter<'d, D, N, O, L>,
    key: &str,
    said: &mut String,
) {
    let answer = fill.get(rt, getter, key.as_bytes());
    let _ = match &answer {
        Ok(view) => match view.key() {
            Some(own) => {
                let is_own = own.as_slice() == key.as_bytes();
                write!(said, "{key} own={is_own}\n")
            }
            None => write!(said, "{key} by its place\n"),
        },
        Err(fault) => write!(said, "{key} {fault}\n"),
    };
}

// What a put of `w` came to, with the bytes of its view.
fn say_put<'d, D: Naming, O: Origin>(
    said: &mut String,
    key: &str,
    answer: Result<Put<View<'d, D, O>>, LoadFault>,
) {
    let _ = match answer {
        Ok(Put::Settled(view)) => {
            let call = view.call();
            let place = view.place();
            let is_w = view.into_bytes().as_slice() == b"w".as_slice();
            write!(said, "put {key} settled {call} of {place} w={is_w}\n")
        }
        Ok(Put::Met(view)) => {
            let call = view.call();
            let (bytes, _note) = view.into_parts();
            let len = bytes.len();
            write!(said, "put {key} met {call} of {len} bytes\n")
        }
        Err(fault) => write!(said, "put {key} {fault}\n"),
    };
}

// Puts `w`, and says what that came to.
fn put<'d, D: Naming, N: Naming, O: Origin, L: LoadPath<Origin = O>>(
    rt: &impl Wait,
    fill: &Fill<'d, D, N, O>,
    getter: &mut Getter<'d, D, N, O, L>,
    key: &str,
    said: &mut String,
)
    requires { IsOpenOrigin O.loaded }
{
    let answer = fill.put(rt, getter, key.as_bytes(), Bytes::from("w"));
    say_put(said, key, answer);
}

// What a cache holds.
fn say_stats<'d, D: Naming, N: Naming, O: Origin>(
    rt: &impl Wait,
    fill: &Fill<'d, D, N, O>,
    which: Which,
    name: &str,
    said: &mut String,
) {
    let stats = fill.cache_stats(rt, which);
    let (bytes, items, evictions) = (stats.bytes, stats.items, stats.evictions);
    let _ = write!(
        said,
        "{name} {bytes} bytes, {items} items, {evictions} evictions\n"
    );
}

// What main and hot hold.
fn say_caches<'d, D: Naming, N: Naming, O: Origin>(
    rt: &impl Wait,
    fill: &Fill<'d, D, N, O>,
    said: &mut String,
) {
    say_stats(rt, fill, Which::Main, "main", said);
    say_stats(rt, fill, Which::Hot, "hot", said);
}

// Reloads the key, and says what that forgot.
fn reload<'d, D: Naming, N: Naming, O: Origin, L>(
    rt: &impl Wait,
    fill: &Fill<'d, D, N, O>,
    getter: &mut Getter<'d, D, N, O, L>,
    key: &str,
    said: &mut String,
) {
    let answer = fill.reload(rt, getter, key.as_bytes());
    let _ = match &answer {
        Ok(Forgot::Closed(call)) => write!(said, "reload {key} closed {call}\n"),
        Ok(Forgot::Cleared(call)) => write!(said, "reload {key} cleared {call}\n"),
        Ok(Forgot::Missed(call)) => write!(said, "reload {key} missed {call}\n"),
        Ok(Forgot::Idle) => write!(said, "reload {key} idle\n"),
        Err(fault) => write!(said, "reload {key} {fault}\n"),
    };
}

// Forgets all places, and says whether that was done.
fn forget_all<'d, D: Naming, N: Naming, O: Origin, L>(
    rt: &impl Wait,
    fill: &Fill<'d, D, N, O>,
    getter: &mut Getter<'d, D, N, O, L>,
    said: &mut String,
) {
    let outcome = fill.forget_all(rt, getter);
    let forgotten = outcome.is_ok();
    let _ = write!(said, "forget all {forgotten}\n");
}

// Settles up, and says whether letters were owed, and whether they are delivered.
fn settle_up<'d, D: Naming, N: Naming, O: Origin, L>(
    fill: &Fill<'d, D, N, O>,
    getter: &mut Getter<'d, D, N, O, L>,
    said: &mut String,
) {
    let owed = getter.owes();
    let outcome = getter.settle_up(fill);
    let settled = outcome.is_ok();
    let _ = write!(said, "owes={owed} settled={settled}\n");
}

fn say_events(said: &mut String, log: &[Event<PlaceNo, ()>]) {
    for event in log {
        let _ = match event {
            Event::Lead { by, call, .. } => write!(said, "lead {by} {call}\n"),
            Event::Enter { by, member, .. } => write!(said, "enter {by} {member}\n"),
            Event::Forget { by, .. } => write!(said, "forget {by}\n"),
            Event::ForgetCall { by, call, hit, .. } => {
                write!(said, "forgetcall {by} {call} {hit}\n")
            }
            Event::Settle {
                by,
                call,
                joiners,
                ..
            } => write!(said, "settle {by} {call} {joiners}\n"),
            Event::Handed { by, call } => write!(said, "handed {by} {call}\n"),
        };
    }
    let _ = said.push_str("log\n");
}

// Whether the answer is of a version before this one.
fn is_old(answer: &Result<Bytes, LoadFault>, version: u8) -> bool {
    match answer {
        Ok(bytes) => match bytes.as_slice() {
            [first] => *first < version,
            _ => true,
        },
        Err(_) => true,
    }
}

// Gets the key's bytes: for one of the keys those of a letter at hand first, and else by a get.
fn read_bytes<'d, D: Naming, N: Naming, O: Origin, L: LoadPath<Origin = O>>(
    rt: &impl Wait,
    fill: &Fill<'d, D, N, O>,
    getter: &mut Getter<'d, D, N, O, L>,
    key: &str,
) -> Result<Bytes, LoadFault> {
    if key == KEYS[0] {
        if let Some(answer) = fill.get_bytes_if_present(rt, getter, key.as_bytes()) {
            return answer;
        }
    }
    getting::get_bytes(rt, fill, getter, key.as_bytes())
}

// Gets often, and says how many answers were old.
fn read<'d, D: Naming, N: Naming, O: Origin, L: LoadPath<Origin = O>>(
    rt: &impl Wait,
    fill: &Fill<'d, D, N, O>,
    getter: &mut Getter<'d, D, N, O, L>,
    flags: &Flags,
    said: &mut String,
) {
    let mut old = 0_u64;
    for _ in 0..READS {
        for key in KEYS {
            let version = flags
                .versions(key.as_bytes())
                .reloaded
                .load(Ordering::SeqCst);
            let answer = read_bytes(rt, fill, getter, key);
            if is_old(&answer, version) {
                old = old.saturating_add(1);
            }
        }
    }
    let _ = write!(said, "old={old}\n");
}

// Changes the sources often, and reloads.
fn change<'d, D: Naming, N: Naming, O: Origin, L>(
    rt: &impl Wait,
    fill: &Fill<'d, D, N, O>,
    getter: &mut Getter<'d, D, N, O, L>,
    flags: &Flags,
) {
    for version in 0..CHANGES {
        for key in KEYS {
            let versions = flags.versions(key.as_bytes());
            versions.source.store(version, Ordering::SeqCst);
            if fill.reload(rt, getter, key.as_bytes()).is_ok() {
                versions.reloaded.store(version, Ordering::SeqCst);
            }
            yield_now();
        }
    }
}

// A key of 251 bytes, which scripts name `LONG`.
const LONG: &str = "kkkkkkkkkkkkkkkkkkkkkkkkkkkkkkkkkkkkkkkkkkkkkkkkkk\
    kkkkkkkkkkkkkkkkkkkkkkkkkkkkkkkkkkkkkkkkkkkkkkkkkk\
    kkkkkkkkkkkkkkkkkkkkkkkkkkkkkkkkkkkkkkkkkkkkkkkkkk\
    kkkkkkkkkkkkkkkkkkkkkkkkkkkkkkkkkkkkkkkkkkkkkkkkkk\
    kkkkkkkkkkkkkkkkkkkkkkkkkkkkkkkkkkkkkkkkkkkkkkkkkkk";

// The bytes of a script's key.
fn key_bytes(key: &str) -> &[u8] {
    if key == "LONG" {
        LONG.as_bytes()
    } else {
        key.as_bytes()
    }
}

// Gets the key, and says what is answered.
fn get<'d, D: Naming, N: Naming, O: Origin, L: LoadPath<Origin = O>>(
    rt: &impl Wait,
    fill: &Fill<'d, D, N, O>,
    getter: &mut Getter<'d, D, N, O, L>,
    key: &str,
    said: &mut String,
) {
    let answer = fill.get(rt, getter, key_bytes(key));
    say_view(said, key, &answer);
}

// How often a key is to be got, and which one.
fn times(key: &str) -> (u32, &str) {
    let (gets, key) = key.split_once(' ').unwrap_or(("0", key));
    (gets.parse::<u32>().unwrap_or(0), key)
}

// Gets the key so often, and says nothing.
fn repeat<'d, D: Naming, N: Naming, O: Origin, L: LoadPath<Origin = O>>(
    rt: &impl Wait,
    fill: &Fill<'d, D, N, O>,
    getter: &mut Getter<'d, D, N, O, L>,
    key: &str,
) {
    let (gets, key) = times(key);
    for _ in 0..gets {
        getting::get(rt, fill, getter, key.as_bytes());
    }
}

// The key of a get, of those that the book is looked at after.
fn key_of(turn: u32, refused: bool) -> &'static [u8] {
    match turn % 50 {
        7 if refused => b"long",
        8 if refused => b"c",
        _ if turn % 2 == 0 => b"a",
        _ => b"b",
    }
}

// Gets often, and says how many gets the book lacks at most when one has ended.
fn behind<'d, D: Naming, N: Naming, O: Origin, L: LoadPath<Origin = O>>(
    rt: &impl Wait,
    fill: &Fill<'d, D, N, O>,
    getter: &mut Getter<'d, D, N, O, L>,
    refused: bool,
    said: &mut String,
) {
    let mut most: u128 = 0;
    for turn in 0..400u32 {
        getting::get(rt, fill, getter, key_of(turn, refused));
        let behind = (turn as u128 + 1).saturating_sub(fill.book(rt).gets);
        most = most.max(behind);
    }
    let _ = write!(said, "behind {most}\n");
}

// Takes the key out of the caches, and says whether it has a place.
fn remove<'d, D: Naming, N: Naming, O: Origin, L>(
    rt: &impl Wait,
    fill: &Fill<'d, D, N, O>,
    getter: &mut Getter<'d, D, N, O, L>,
    key: &str,
    said: &mut String,
) {
    let removed = fill.remove(rt, getter, key.as_bytes()).is_ok();
    let _ = write!(said, "remove {key} {removed}\n");
}

// Gets the key's bytes if a letter of it is at hand, and says what is answered.
fn get_present_bytes<'d, D: Naming, N: Naming, O: Origin, L: LoadPath<Origin = O>>(
    rt: &impl Wait,
    fill: &Fill<'d, D, N, O>,
    getter: &mut Getter<'d, D, N, O, L>,
    key: &str,
    said: &mut String,
) {
    let answer = fill.get_bytes_if_present(rt, getter, key.as_bytes());
    say_bytes(said, key, answer);
}

// What the getter does and says in a step that asks and forgets nothing.
fn look<'d, D: Naming, N: Naming, O: Origin, L: LoadPath<Origin = O>>(
    rt: &impl Wait,
    fill: &Fill<'d, D, N, O>,
    getter: &mut Getter<'d, D, N, O, L>,
    step: Step<'_>,
    flags: &Flags,
    said: &mut String,
) {
    let key = step.key;
    match step.does {
        Verb::GetBytes => get_present_bytes(rt, fill, getter, key, said),
        Verb::Remove => remove(rt, fill, getter, key, said),
        Verb::Stats => say_caches(rt, fill, said),
        Verb::Behind => behind(rt, fill, getter, key == "refused", said),
        Verb::TakeLog => say_events(said, getter.take_log().as_slice()),
        Verb::Await => flags.wait_for(flags.named(key)),
        Verb::Tell => flags.named(key).store(true, Ordering::SeqCst),
        _ => {
            let _ = said.push_str("no such step\n");
        }
    }
}

// What the getter does and says in a step.
fn make<'d, D: Naming, N: Naming, O: Origin, L: LoadPath<Origin = O>>(
    rt: &impl Wait,
    fill: &Fill<'d, D, N, O>,
    getter: &mut Getter<'d, D, N, O, L>,
    step: Step<'_>,
    flags: &Flags,
    said: &mut String,
)
    requires { IsOpenOrigin O.loaded }
{
    let key = step.key;
    match step.does {
        Verb::Get => get(rt, fill, getter, key, said),
        Verb::GetKey => get_key(rt, fill, getter, key, said),
        Verb::Repeat => repeat(rt, fill, getter, key),
        Verb::Reload => reload(rt, fill, getter, key, said),
        Verb::Put => put(rt, fill, getter, key, said),
        Verb::ForgetAll => forget_all(rt, fill, getter, said),
        Verb::SettleUp => settle_up(fill, getter, said),
        Verb::Read => read(rt, fill, getter, flags, said),
        Verb::Change => change(rt, fill, getter, flags),
        _ => look(rt, fill, getter, step, flags, said),
    }
}

/// The getter makes its steps, and this is what it says of them.
pub fn run<'d, D: Naming, N: Naming, O: Origin, L: LoadPath<Origin = O>>(
    rt: &impl Wait,
    fill: &Fill<'d, D, N, O>,
    getter: &mut Getter<'d, D, N, O, L>,
    steps: Steps<'_>,
    said: &mut String,
)
    requires { IsOpenOrigin O.loaded }
{
    for line in steps.script.lines() {
        if let Some(step) = step_of(line, steps.number) {
            make(rt, fill, getter, step, steps.flags, said);
        }
    }
}
