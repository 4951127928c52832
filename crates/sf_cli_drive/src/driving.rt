//! A drive: its fill, its threads, and what comes of them.
ghost use Rattle.std.specs.Prelude.{◌≡◌, ◌≢◌, ◌↔◌, ◌*◌, ◌<◌, ◌≤◌, ℕ, List, IfOk, IfErr, IsTrue, codes, string_bytes, vec_len};
ghost use Rattle.std.specs.Io.KnownBytes.{Appends};
ghost use Rattle.sf_cli_drive.specs.declared.report.DriveEnding.{DriveEnding};
ghost use Rattle.sf_cli_drive.specs.declared.report.Report.{Report};
ghost use Rattle.sf_cli_drive.specs.Found.{DriveEvent, IsFound, IsFoundBy, IsSaid, said_text};
ghost use Rattle.sf_cli_drive.specs.Jobs.{AreEntries, IsJobOf};
ghost use Rattle.sf_cli_drive.specs.Reports.{ending_of};
ghost use Rattle.sf_text.specs.StreamText.{AppendsPart};
ghost use Rattle.sf_words.specs.declared.limits.TheConstants.{LARGEST_PLACE};
ghost use Rattle.sf_fill_open.specs.Opened.{EachThread, IsNewGetter, places_for, without_loaders};
ghost use Rattle.sf_cli_drive.specs.Values.{StatesValues};

use crate::found::{Found, said};
use crate::jobs::{Crew, Entry, ThreadEnd};
use crate::line::DriveLine;
use crate::loaders::{AnyKey, OddPicker, ThirdFails};
use crate::report::{DriveEnding, Report};
use sf_dir::LONGEST_KEY;
use sf_fill::{Fill, Getter, Naming, Totals};
use sf_fill_open::{DirectoryKeys, FillSizes, Keeps, Keys, Places, Team, with_team};
use sf_group::Memory;
use sf_loaders::scripted::RoundChance;
use sf_loaders::{LoadPath, Loaders, Origin};
use sf_replay::merge;
use sf_replay_check::verdict_on;
use sf_text::{StreamFault, write_all};
use std::alloc::Global;
use std::fmt::Write as _;
use std::io::Write;
use std::sync::Wait;
use std::thread::Threads;
use std::time::Clock;

// What the caches of a drive keep, in bytes.
const LIMIT: i64 = 1_000;

// How many places an open drive has a key. Its seed is fixed, so that it can be made again.
const PLACES_A_KEY: u32 = 16;

// The keys `k0`, `k1` and so on, with their values.
fn entries(alloc: Global, keys: u32) -> Result<Vec<Entry>, Memory>
    ensures { IfOk result (λ entries. AreEntries keys entries.items) }
{
    let mut entries = Vec::new(alloc);
    for number in 0..keys {
        let mut key = String::new(alloc);
        let mut value = String::new(alloc);
        if write!(key, "k{number}").is_err() || write!(value, "v:k{number}").is_err() {
            return Err(Memory);
        }
        entries.push(Entry { key, value })?;
    }
    Ok(entries)
}

impl<'a, R: Wait + Clock + Eprint> Team for Crew<'a, R> {
    type Part = ThreadEnd;

    type Answer = Result<Found, Memory>;

    ghost use Rattle.std.specs.Prelude.{◌≡◌, ◌*◌, IfOk};
    ghost use Rattle.sf_cli_drive.specs.Found.{IsFoundBy};
    ghost use Rattle.sf_cli_drive.specs.Jobs.{AreEntries, IsJobOf};
    ghost use Rattle.sf_cli_drive.specs.Values.{StatesValues};

    ghost wants = { λ crew getters loaded. (getters ≡ crew.line.threads)
        × AreEntries crew.line.keys crew.entries.now × StatesValues loaded };

    ghost room = { λ crew. 8 * crew.line.gets };

    ghost gives = { λ crew space group. IsJobOf space group crew.line.keys crew.line.gets };

    ghost ends = { λ crew parts answer. IfOk answer (λ found.
        IsFoundBy crew.line.threads crew.line.gets parts found.report found.history) };

    fn work<'d, D: Naming, N: Naming, O: Origin, L: LoadPath<Origin = O> + Drop>(
        &self,
        fill: &Fill<'d, D, N, O>,
        getter: &mut Getter<'d, D, N, O, L>,
        index: u32,
    ) -> ThreadEnd
        requires wants { (N.getters ≡ self.now.line.threads)
            × AreEntries self.now.line.keys self.now.entries.now × StatesValues O.loaded }
        requires new { IsNewGetter N.group (8 * self.now.line.gets) getter.old }
        ensures { IsJobOf N.space N.group self.now.line.keys self.now.line.gets index
            (without_loaders getter.new) result }
    {
        self.get_all(fill, getter, index)
    }

    fn finish<'d, D: Naming, N: Naming, O: Origin, L: LoadPath<Origin = O> + Drop>(
        &self,
        fill: &Fill<'d, D, N, O>,
        getters: Vec<Getter<'d, D, N, O, L>>,
        parts: Vec<ThreadEnd>,
    ) -> Result<Found, Memory>
        requires wants { (N.getters ≡ self.now.line.threads)
            × AreEntries self.now.line.keys self.now.entries.now × StatesValues O.loaded }
        requires getters { vec_len getters ≡ N.getters }
        requires parts { vec_len parts ≡ N.getters }
        requires given { EachThread (IsJobOf N.space N.group self.now.line.keys self.now.line.gets)
            getters.items parts.items }
        ensures { IfOk result (λ found. IsFoundBy self.now.line.threads self.now.line.gets
            parts.items found.report found.history) }
    {
        let book = fill.book(self.rt);
        let gathered = fill.gather(self.rt, getters);
        found(self.alloc, parts, book, gathered, self.line)
    }
}

// What the threads found: the book's numbers were these before, and those that were gathered.
fn found(
    alloc: Global,
    parts: Vec<ThreadEnd>,
    book: Totals,
    gathered: Totals,
    line: DriveLine,
) -> Result<Found, Memory>
    requires { vec_len parts ≡ line.threads }
    ensures by_parts { IfOk result (λ found.
        IsFoundBy line.threads line.gets parts.items found.report found.history) }
    ensures totals { IfOk result (λ found.
        IsTrue found.report.totals_equal ↔ (book ≡ gathered)) }
{
    let mut logs = Vec::with_capacity(alloc, parts.len())?;
    let mut answers: u64 = 0;
    for part in parts {
        let ThreadEnd {
            answers: right,
            settled,
            log,
        } = part;
        if !settled {
            return Err(Memory);
        }
        answers += right as u64;
        logs.push(log)?;
    }
    let history = merge(alloc, logs)?;
    let report = Report {
        gets: line.threads as u64 * line.gets as u64,
        answers,
        totals_equal: gathered == book,
        verdict: verdict_on(alloc, &history),
    };
    Ok(Found { report, history })
}

// The loaders of so many getters.
fn loaders(
    alloc: Global,
    getters: u32,
) -> Result<Vec<Loaders<OddPicker, ThirdFails, AnyKey, RoundChance>>, Memory>
    ensures { IfOk result (λ sets. vec_len sets ≡ getters) }
{
    let mut sets = Vec::new(alloc);
    for getter in 0..getters {
        // Named for the loop's invariant alone.
        let _ = getter;
        sets.push(Loaders::new(
            OddPicker,
            ThirdFails { alloc, fetched: 0 },
            AnyKey { alloc },
            RoundChance::default(),
        ))?;
    }
    Ok(sets)
}

// Where the keys of a drive have their places.
fn keys_of(line: DriveLine) -> Keys
    ensures { places_for result ≤ LARGEST_PLACE }
{
    if line.open {
        Keys::Hashed(Places {
            count: PLACES_A_KEY * line.keys,
            seed0: 0,
            seed1: 0,
        })
    } else {
        Keys::Directory(DirectoryKeys {
            keys: line.keys,
            key_bytes: LONGEST_KEY,
            seed0: 0,
            seed1: 0,
        })
    }
}

// What a drive finds.
fn report<R: Wait + Threads + Clock + Eprint + Sync>(
    rt: &R,
    alloc: Global,
    line: DriveLine,
) -> Result<Found, Memory>
    ensures { IfOk result (λ found. IsFound line found.report found.history) }
{
    let entries = entries(alloc, line.keys)?;
    let sizes = FillSizes {
        keys: keys_of(line),
        // A get adds three events at most, and one for each call of another key that it met; a reload adds one.
        keeps: Keeps {
            limit: LIMIT,
            log: 8 * line.gets as usize,
            near: 0,
            near_limit: 0,
        },
        first_generation: 1,
    };
    let crew = Crew {
        rt,
        alloc,
        entries: entries.as_slice(),
        line,
    };
    with_team(rt, alloc, sizes, loaders(alloc, line.threads)?, &crew)?
}

/// `sfctl drive`: one getter a thread gets keys of one fill, and reloads some. Writes four lines: how many gets there were,
/// how many answered the key's value, whether what the getters counted is what the book says, and whether the merged logs
/// are a legal history; or the records of that history, where the line asks for them; or one line where memory is refused,
/// in anything but a get or a reload.
pub fn drive<R: Wait + Threads + Clock + Eprint + Sync, W: Write>(
    rt: &R,
    alloc: Global,
    writer: &mut W,
    line: DriveLine,
) -> Result<DriveEnding, StreamFault>
    // What is written is the report's text, or the records of the history on which its verdict is.
    ensures reported { IfOk result (λ ending. ending ≢ DriveEnding.OutOfMemory → (report : Report)
        × (history : List DriveEvent)
        × IsFound line report history × (ending ≡ ending_of report)
        × Appends (W.contents writer.old) (W.contents writer.new)
        (said_text line.history report history)) }
    ensures refused { IfOk result (λ ending. ending ≡ DriveEnding.OutOfMemory
        → Appends (W.contents writer.old) (W.contents writer.new) (codes "out of memory\n")) }
    ensures failed { IfErr result (λ fault. fault ≡ StreamFault.CannotWrite) }
    // Where that fails, a beginning of such a text is written.
    ensures part { (text : List ℕ) × IsSaid line text
        × AppendsPart (W.contents writer.old) (W.contents writer.new) text }
{
    match answer(rt, alloc, line) {
        Ok((ending, text)) => {
            write_all(writer, text.as_str())?;
            Ok(ending)
        }
        Err(Memory) => {
            write_all(writer, "out of memory\n")?;
            Ok(DriveEnding::OutOfMemory)
        }
    }
}

// How a drive ends, and what it says.
fn answer<R: Wait + Threads + Clock + Eprint + Sync>(
    rt: &R,
    alloc: Global,
    line: DriveLine,
) -> Result<(DriveEnding, String), Memory>
    ensures { IfOk result (λ answered. (report : Report) × (history : List DriveEvent)
        × IsFound line report history
        × (answered.0 ≡ ending_of report)
        × (string_bytes answered.1 ≡ said_text line.history report history)) }
{
    let found = report(rt, alloc, line)?;
    let ending = found.report.ending();
    Ok((ending, said(alloc, line.history, found)?))
}
