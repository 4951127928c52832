//! Keys that have their places by a hash.
ghost use Rattle.std.specs.Prelude.{◌≡◌, ◌+◌, ◌≤◌, All, vec_len};

use crate::benchmark::Benchmark;
use crate::fault::Fault;
use crate::rounds::{Operation, Worker, measure, measure_one};
use crate::table::{Case, Table};
use sf_group::{Caller, Fit, Group, Memory, Share};
use sf_keys::{KeyAnswer, OfKey, Places, do_key};
use sf_wait::DoFault;
use std::alloc::Global;
use std::sync::Wait;
use std::thread::Threads;
use std::time::Clock;

// How many places there are.
const PLACES: u32 = 65_536;

// How often one asks again that met another key's call.
const ROUNDS: u32 = 3;

// The longest key that is measured, in bytes.
const LONGEST: usize = 64;

// A key, which is all of the value too.
#[derive(Clone, Copy)]
struct Inline {
    bytes: [u8; 64],
    length: usize,
    ghost short: { length ≤ 64 },
}

impl Share for Inline {
    fn share(&mut self) -> Result<Self, Memory> {
        Ok(*self)
    }
}

impl Fit for Inline {
    ghost lasts = { λ _ _ _ _ _ f. f };
}

impl OfKey for Inline {
    ghost use Rattle.std.specs.Prelude.{take};

    ghost key_of = { λ v. take v.length v.bytes };

    fn key(&self) -> &[u8] {
        &self.bytes[..self.length]
    }
}

// The key of so many bytes, of which the first is this one.
fn key_of(first: u8, length: usize) -> Inline
    requires { length ≤ 64 }
{
    let mut bytes = [b'k'; 64];
    bytes[0] = first;
    Inline { bytes, length }
}

// A key whose place is looked for.
#[derive(Drop)]
struct Hash {
    places: Places,
    key: Inline,
}

impl Operation for Hash {
    fn once<R: Wait>(self, _rt: &R) -> Result<Self, Fault> {
        let Hash { places, mut key } = self;
        // The next key hangs on this one's place, so that none is left out.
        key.bytes[0] = (places.of(key.key()) % 256) as u8;
        Ok(Hash { places, key })
    }
}

// A caller with a key of its own.
#[derive(Drop)]
struct DoKey<'a> {
    group: &'a Group<Inline>,
    places: Places,
    caller: Caller<Inline>,
    key: Inline,
    ghost own: { caller.group ≡ group.now },
    ghost sizes: { places.count ≡ group.now.sizes.places },
}

impl<'a> Operation for DoKey<'a> {
    fn once<R: Wait>(self, rt: &R) -> Result<Self, Fault> {
        let DoKey {
            group,
            places,
            caller,
            key,
        } = self;
        let caller = match do_key(rt, group, places, caller, key.key(), ROUNDS, || key) {
            Ok(KeyAnswer::Letter(caller, letter, _)) => {
                drop(letter);
                caller
            }
            Ok(KeyAnswer::Alone(caller, _)) => caller,
            Err(DoFault::Held(settled)) => {
                settled.abandon();
                return Err(Fault::Memory);
            }
            Err(DoFault::Spent(caller, _)) => {
                drop(caller);
                return Err(Fault::Refused);
            }
        };
        Ok(DoKey {
            group,
            places,
            caller,
            key,
        })
    }
}

// So many places, with a seed that is the same in each run.
fn places() -> Places
    ensures { result.count ≡ 65536 }
{
    Places {
        count: PLACES,
        seed0: 7,
        seed1: 11,
    }
}

// A worker for each caller.
fn doers<'a>(
    alloc: Global,
    group: &'a Group<Inline>,
    callers: Vec<Caller<Inline>>,
    length: usize,
) -> Result<Vec<Worker<DoKey<'a>>>, Fault>
    requires own { All (λ c. c.group ≡ group.now) callers.items }
    requires places { group.now.sizes.places ≡ 65536 }
    requires length { length ≤ 64 }
{
    let mut callers = callers;
    let mut workers = Vec::with_capacity(alloc, callers.len())?;
    'hand: while let Some(caller) = callers.pop() {
        let first = (callers.len() % 256) as u8;
        workers.push_reserved(Ok(DoKey {
            group,
            places: places(),
            caller,
            key: key_of(first, length),
        }));
    }
    Ok(workers)
}

// Measures dos by keys of so many bytes.
fn at_length<R>(rt: &R, table: &Table, length: usize, case: Case) -> Result<(), Fault>
where
    R: AllocGlobal + Print + Wait + Threads + Clock + Sync,
    requires { (length ≤ 64) × (1 ≤ case.threads) × (case.threads ≤ 4) }
{
    let alloc = rt.alloc();
    let (group, callers) = Group::<Inline>::new(alloc, PLACES, case.threads, 1)?;
    let times = measure(rt, doers(alloc, &group, callers, length)?)?;
    table.row(rt, case, times)
}

// What a do by a key of one's own costs, on one and four threads.
pub(crate) fn measure_key<R>(rt: &R, table: &Table) -> Result<(), Fault>
where
    R: AllocGlobal + Print + Wait + Threads + Clock + Sync,
{
    let short = Case {
        benchmark: Benchmark::Key,
        detail: "do_key, 16 bytes, a key a thread",
        threads: 1,
    };
    let long = Case {
        detail: "do_key, 64 bytes, a key a thread",
        ..short
    };
    at_length(rt, table, 16, short)?;
    at_length(
        rt,
        table,
        16,
        Case {
            threads: 4,
            ..short
        },
    )?;
    at_length(rt, table, LONGEST, long)?;
    at_length(rt, table, LONGEST, Case { threads: 4, ..long })
}

// Measures the place of a key of so many bytes.
fn place_of<R>(rt: &R, table: &Table, length: usize, detail: &'static str) -> Result<(), Fault>
where
    R: AllocGlobal + Print + Wait + Threads + Clock + Sync,
    requires { length ≤ 64 }
{
    let hash = Hash {
        places: places(),
        key: key_of(0, length),
    };
    let times = measure_one(rt, rt.alloc(), hash)?;
    let case = Case {
        benchmark: Benchmark::Place,
        detail,
        threads: 1,
    };
    table.row(rt, case, times)
}

// What the place of a key costs.
pub(crate) fn measure_place<R>(rt: &R, table: &Table) -> Result<(), Fault>
where
    R: AllocGlobal + Print + Wait + Threads + Clock + Sync,
{
    place_of(rt, table, 16, "place of a key, 16 bytes")?;
    place_of(rt, table, LONGEST, "place of a key, 64 bytes")
}
