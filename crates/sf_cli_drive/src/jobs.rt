//! What each thread of a drive does.
ghost use Rattle.std.specs.Prelude.{◌≡◌, ◌+◌, ◌-◌, ◌^◌, ◌<◌, ◌≤◌, IfOk, is_ok, string_bytes};
ghost use Rattle.sf_cli_drive.specs.Jobs.{AreEntries, HasSettled, IsGetOf, IsJob, IsLogOf, IsTurn};
ghost use Rattle.sf_cli_drive.specs.Jobs.{reloads_at, turn_key, turn_number};
ghost use Rattle.sf_cli_drive.specs.Values.{StatesValues, value_of};

use crate::line::DriveLine;
use crate::progress::Progress;
use sf_fill::{Fill, Getter, LoadFault, Naming, View};
use sf_group::Event;
use sf_loaders::{LoadPath, Origin};
use sf_words::PlaceNo;
use std::alloc::Global;
use std::sync::Wait;
use std::thread::yield_now;
use std::time::Clock;

/// A key of a drive, and its value.
#[derive(Drop)]
pub(crate) struct Entry {
    pub(crate) key: String,
    pub(crate) value: String,
}

/// What one thread did.
#[derive(Drop)]
pub(crate) struct ThreadEnd {
    /// How many of its gets answered the key's value.
    pub(crate) answers: u32,
    /// Whether it owes nothing.
    pub(crate) settled: bool,
    /// What its calls added.
    pub(crate) log: Vec<Event<PlaceNo, ()>>,
}

/// The threads of a drive.
#[derive(Drop)]
pub(crate) struct Crew<'a, R> {
    pub(crate) rt: &'a R,
    pub(crate) alloc: Global,
    pub(crate) entries: &'a [Entry],
    pub(crate) line: DriveLine,
}

// The number of the key that the thread gets at this turn.
fn turn_number(line: DriveLine, thread: u32, turn: u32) -> usize
    ensures value { result ≡ turn_number line.keys thread turn }
    ensures within { result < line.keys }
{
    let next = 7 * turn as u64 + thread as u64;
    (next % line.keys as u64) as usize
}

// Whether the answer is this value, as each answer is that is no fault.
fn is_value<'d, D: Naming, O: Origin>(
    answer: &Result<View<'d, D, O>, LoadFault>,
    value: &[u8],
) -> bool
    requires { IfOk answer.now (λ letter. IfOk letter.value.result (λ bytes. bytes ≡ value.now)) }
    ensures { result ≡ is_ok answer.now }
{
    match answer {
        Ok(view) => view.bytes().as_slice() == value,
        Err(_) => false,
    }
}

// A get of the key; whether it was answered the key's value.
fn get_entry<'d, D: Naming, N: Naming, O: Origin, L: LoadPath<Origin = O>>(
    rt: &impl Wait,
    fill: &Fill<'d, D, N, O>,
    getter: &mut Getter<'d, D, N, O, L>,
    entry: &Entry,
) -> bool
    requires values { StatesValues O.loaded }
    requires entry { string_bytes entry.now.value ≡ value_of (string_bytes entry.now.key) }
    ensures { getter.old.counted.gets < 2 ^ 64 - 1
        → IsGetOf N.space (string_bytes entry.now.key) getter.old getter.new result }
{
    let key = entry.key.as_bytes();
    let value = entry.value.as_bytes();
    let answer = fill.get(rt, getter, key);
    is_value(&answer, value)
}

impl<'a, R: Wait + Clock + Eprint> Crew<'a, R> {
    // A get of the turn's key, and at each tenth turn a reload of it; whether the get answered the key's value.
    fn take_turn<'d, D: Naming, N: Naming, O: Origin, L: LoadPath<Origin = O>>(
        &self,
        fill: &Fill<'d, D, N, O>,
        getter: &mut Getter<'d, D, N, O, L>,
        thread: u32,
        turn: u32,
    ) -> bool
        requires entries { AreEntries self.now.line.keys self.now.entries.now }
        requires values { StatesValues O.loaded }
        ensures { getter.old.counted.gets < 2 ^ 64 - 1
            → IsTurn N.space (turn_key self.now.line.keys thread turn) (reloads_at turn)
            getter.old getter.new result }
    {
        let number = turn_number(self.line, thread, turn);
        let entry = &self.entries[number];
        let is_right = get_entry(self.rt, fill, getter, entry);
        if turn % 10 != 9 {
            return is_right;
        }
        let key = entry.key.as_bytes();
        let _forgot = fill.reload(self.rt, getter, key);
        is_right
    }

    // Makes the gets and the reloads, and delivers what is owed then, so that no other thread waits for it.
    pub(crate) fn get_all<'d, D: Naming, N: Naming, O: Origin, L: LoadPath<Origin = O>>(
        &self,
        fill: &Fill<'d, D, N, O>,
        getter: &mut Getter<'d, D, N, O, L>,
        thread: u32,
    ) -> ThreadEnd
        requires entries { AreEntries self.now.line.keys self.now.entries.now }
        requires values { StatesValues O.loaded }
        ensures job { getter.old.counted.gets + self.now.line.gets < 2 ^ 64
            → IsJob N.space self.now.line.keys self.now.line.gets thread
            getter.old getter.new result }
        ensures counted { getter.old.counted.gets + self.now.line.gets < 2 ^ 64
            → getter.new.counted.gets ≡ getter.old.counted.gets + self.now.line.gets }
        ensures logged { getter.old.counted.gets + self.now.line.gets < 2 ^ 64
            → IsLogOf getter.old getter.new result.log.items }
        ensures answers { result.answers ≤ self.now.line.gets }
    {
        let (rt, line) = (self.rt, self.line);
        let mut answers: u32 = 0;
        let mut progress = if line.progress && thread == 0 {
            Progress::new(rt)
        } else {
            None
        };
        for turn in 0..line.gets {
            if let Some(progress) = &mut progress {
                progress.say(rt, turn, line.gets);
            }
            let is_right = self.take_turn(fill, getter, thread, turn);
            answers += is_right as u32;
        }
        let settled = settle_up_often(fill, getter);
        let log = getter.take_log();
        ThreadEnd {
            answers,
            settled,
            log,
        }
    }
}

// Delivers what is owed, in 1,000 tries at most; whether it is done.
fn settle_up_often<'d, D: Naming, N: Naming, O: Origin, L>(
    fill: &Fill<'d, D, N, O>,
    getter: &mut Getter<'d, D, N, O, L>,
) -> bool
    ensures { HasSettled getter.old getter.new result }
{
    for _ in 0..1_000 {
        if getter.settle_up(fill).is_ok() {
            return true;
        }
        yield_now();
    }
    !getter.owes()
}
