//! Getters of a fill, each on a thread of its own, that get a key which a cache has.
ghost use Rattle.std.specs.Prelude.{◌≡◌, ◌≤◌, IfOk, vec_len};
ghost use Rattle.sf_words.specs.declared.limits.TheConstants.{LARGEST_PLACE};
ghost use Rattle.sf_fill_open.specs.Opened.{places_for};

use crate::benchmark::Benchmark;
use crate::fault::Fault;
use crate::order::{Order, TURNS};
use crate::rounds::{OPERATIONS, of_one};
use crate::table::{Case, Table};
use crate::times::{ROUNDS, Times};
use bytes::Bytes;
use sf_fill::{Fill, Getter, Naming};
use sf_fill_open::{DirectoryKeys, FillSizes, Keys, Places, Team, with_team};
use sf_group::{CallId, Memory};
use sf_loaders::scripted::{AnyValue, FixedPicker, RoundChance};
use sf_loaders::{LoadPath, Loaders, Local, LocalFault, Origin, Peer, PeerFault};
use std::alloc::Global;
use std::sync::Wait;
use std::thread::Threads;
use std::time::{Clock, Instant};

// What the caches keep, and what each getter keeps near, in bytes.
const LIMIT: u32 = 1_048_576;

// How many letters a getter keeps near, where it keeps any.
const NEAR: u32 = 2_048;

// Loads the same bytes for each key.
#[derive(Clone, Copy)]
struct OnePage {
    alloc: Global,
}

impl OnePage {
    // The bytes, in memory of their own.
    fn page(&self) -> Result<Bytes, Memory> {
        let page = Vec::from_slice(self.alloc, b"<html></html>")?;
        Ok(Bytes::from_vec(page)?)
    }
}

impl Local for OnePage {
    type Origin = AnyValue;

    ghost use Rattle.std.specs.Prelude.{⊤};

    ghost load_gives = { λ old key call answer new. ⊤ };

    fn load(&mut self, _key: &[u8], _call: CallId) -> Result<Bytes, LocalFault> {
        match self.page() {
            Ok(page) => Ok(page),
            Err(Memory) => Err(LocalFault::Memory),
        }
    }
}

impl Peer for OnePage {
    type Origin = AnyValue;

    ghost use Rattle.std.specs.Prelude.{⊤};

    ghost fetch_gives = { λ old peer key call answer new. ⊤ };

    fn fetch(&mut self, _peer: u32, _key: &[u8], _call: CallId) -> Result<Bytes, PeerFault> {
        match self.page() {
            Ok(page) => Ok(page),
            Err(Memory) => Err(PeerFault::Memory),
        }
    }
}

// Getters that get keys in an order.
#[derive(Drop)]
struct Gets<'a, R> {
    rt: &'a R,
    order: &'a Order,
    /// From when on the times count.
    origin: Instant,
}

// When a getter's gets began and ended, in nanoseconds.
#[derive(Clone, Copy)]
struct Span {
    began: u64,
    ended: u64,
}

impl<'a, R: Wait + Clock> Gets<'a, R> {
    // The nanoseconds that have passed.
    fn passed(&self) -> Result<u64, Fault> {
        match self.origin.elapsed(self.rt) {
            Ok(passed) => Ok(u64::try_from(passed.as_nanos()).unwrap_or(u64::MAX)),
            Err(_) => Err(Fault::Clock),
        }
    }

    // Gets keys in their order, so many from this turn on, as a server does: the bytes of a letter at hand first, and else a get that
    // loads. Whether each was answered.
    fn get_in_order<'d, D: Naming, N: Naming, O: Origin, L: LoadPath<Origin = O>>(
        &self,
        fill: &Fill<'d, D, N, O>,
        getter: &mut Getter<'d, D, N, O, L>,
        first: usize,
        count: u32,
    ) -> bool {
        let mut answered = true;
        let mut turn = first;
        for _ in 0..count {
            let key = self.order.key(turn);
            turn = turn.wrapping_add(1);
            if let Some(answer) = fill.get_bytes_if_present(self.rt, getter, key) {
                answered = answered && answer.is_ok();
                continue;
            }
            answered = fill.get(self.rt, getter, key).is_ok() && answered;
        }
        answered
    }
}

impl<'a, R: Wait + Clock> Team for Gets<'a, R> {
    /// When the thread's gets ran, or why there is no such time.
    type Part = Result<Span, Fault>;

    /// How long they took, from the first one's begin to the last one's end, in nanoseconds.
    type Answer = Result<u64, Fault>;

    ghost use Rattle.std.specs.Prelude.{⊤};

    ghost wants = { λ gets getters loaded. ⊤ };

    ghost room = { λ gets. 0 };

    ghost gives = { λ gets space group index getter part. ⊤ };

    ghost ends = { λ gets parts took. ⊤ };

    fn work<'d, D: Naming, N: Naming, O: Origin, L: LoadPath<Origin = O> + Drop>(
        &self,
        fill: &Fill<'d, D, N, O>,
        getter: &mut Getter<'d, D, N, O, L>,
        index: u32,
    ) -> Result<Span, Fault> {
        // Each key is loaded and is near, if it is to be, before the times count.
        let first = (index as usize).wrapping_mul(TURNS / 4);
        let warm = self.get_in_order(fill, getter, first, self.order.to_warm());
        let began = self.passed();
        let answered = self.get_in_order(fill, getter, first, OPERATIONS);
        let ended = self.passed();
        if !(warm && answered) {
            return Err(Fault::Refused);
        }
        match (began, ended) {
            (Ok(began), Ok(ended)) => Ok(Span { began, ended }),
            _ => Err(Fault::Clock),
        }
    }

    fn finish<'d, D: Naming, N: Naming, O: Origin, L: LoadPath<Origin = O> + Drop>(
        &self,
        _fill: &Fill<'d, D, N, O>,
        getters: Vec<Getter<'d, D, N, O, L>>,
        parts: Vec<Result<Span, Fault>>,
    ) -> Result<u64, Fault>
        requires getters { vec_len getters ≡ N.getters }
        requires parts { vec_len parts ≡ N.getters }
    {
        let mut getters = getters;
        'rest: while let Some(getter) = getters.pop() {
            getter.abandon();
        }
        getters.destroy_empty();
        let mut whole = Span {
            began: u64::MAX,
            ended: 0,
        };
        for part in parts.iter() {
            let span = (*part)?;
            whole.began = whole.began.min(span.began);
            whole.ended = whole.ended.max(span.ended);
        }
        Ok(whole.ended.saturating_sub(whole.began))
    }
}

// Times a round: the fill is made, and each getter gets keys so often.
fn round<R>(rt: &R, sizes: FillSizes, order: &Order, threads: u32) -> Result<u64, Fault>
where
    R: AllocGlobal + Wait + Threads + Clock + Sync,
    requires threads { (1 ≤ threads) × (threads ≤ 64) }
    requires places { places_for sizes.keys ≤ LARGEST_PLACE }
    requires log { sizes.keeps.log ≡ 0 }
{
    let alloc = rt.alloc();
    let loaders = loaders(alloc, threads)?;
    let Ok(origin) = Instant::now(rt) else {
        return Err(Fault::Clock);
    };
    let gets = Gets { rt, order, origin };
    let took = with_team(rt, alloc, sizes, loaders, &gets)??;
    Ok(of_one(took, threads as usize))
}

// The loaders of so many getters.
fn loaders(
    alloc: Global,
    getters: u32,
) -> Result<Vec<Loaders<FixedPicker, OnePage, OnePage, RoundChance>>, Fault>
    ensures { IfOk result (λ sets. vec_len sets ≡ getters) }
{
    let mut sets = Vec::with_capacity(alloc, getters as usize)?;
    for getter in 0..getters {
        // Named for the loop's invariant alone.
        let _ = getter;
        sets.push_reserved(Loaders::new(
            FixedPicker::new(None),
            OnePage { alloc },
            OnePage { alloc },
            RoundChance::default(),
        ));
    }
    Ok(sets)
}

// A fill that is measured, and in which order its keys are got.
#[derive(Clone, Copy)]
struct Setup<'a> {
    keys: Keys,
    /// How many letters a getter keeps near.
    near: u32,
    order: &'a Order,
}

// Measures gets.
fn measure_case<R>(rt: &R, table: &Table, setup: Setup, case: Case) -> Result<(), Fault>
where
    R: AllocGlobal + Print + Wait + Threads + Clock + Sync,
    requires threads { (1 ≤ case.threads) × (case.threads ≤ 64) }
    requires places { places_for setup.keys ≤ LARGEST_PLACE }
{
    let mut sizes = FillSizes::new(setup.keys, LIMIT as i64);
    sizes.keeps.near = setup.near;
    sizes.keeps.near_limit = LIMIT as usize;
    let mut times = [0; ROUNDS];
    for index in 0..ROUNDS {
        times[index] = round(rt, sizes, setup.order, case.threads)?;
    }
    table.row(rt, case, Times::of(times))
}

// Measures gets by one thread and by four.
fn measure_both<R>(rt: &R, table: &Table, setup: Setup, detail: &'static str) -> Result<(), Fault>
where
    R: AllocGlobal + Print + Wait + Threads + Clock + Sync,
    requires places { places_for setup.keys ≤ LARGEST_PLACE }
{
    let one = Case {
        benchmark: Benchmark::Fill,
        detail,
        threads: 1,
    };
    measure_case(rt, table, setup, one)?;
    measure_case(rt, table, setup, Case { threads: 4, ..one })
}

// Measures gets of one key and of many by zipf, of caches alone and of letters near, too.
fn measure_keys<R>(
    rt: &R,
    table: &Table,
    keys: Keys,
    details: [&'static str; 4],
) -> Result<(), Fault>
where
    R: AllocGlobal + Print + Wait + Threads + Clock + Sync,
    requires places { places_for keys ≤ LARGEST_PLACE }
{
    let one = Order::of_one(rt.alloc())?;
    let zipf = Order::by_zipf(rt.alloc())?;
    let cached = Setup {
        keys,
        near: 0,
        order: &one,
    };
    let near = Setup {
        near: NEAR,
        ..cached
    };
    measure_both(rt, table, cached, details[0])?;
    measure_both(rt, table, near, details[1])?;
    let order = &zipf;
    measure_both(rt, table, Setup { order, ..cached }, details[2])?;
    measure_both(rt, table, Setup { order, ..near }, details[3])
}

// What a get costs of keys that caches have, and of those whose letters are near, too.
pub(crate) fn measure_fill<R>(rt: &R, table: &Table) -> Result<(), Fault>
where
    R: AllocGlobal + Print + Wait + Threads + Clock + Sync,
{
    let directory = Keys::Directory(DirectoryKeys {
        keys: 2_048,
        key_bytes: 16,
        seed0: 7,
        seed1: 11,
    });
    let hashed = Keys::Hashed(Places {
        count: 65_536,
        seed0: 7,
        seed1: 11,
    });
    measure_keys(
        rt,
        table,
        directory,
        ["one key", "one key, near", "by zipf", "by zipf, near"],
    )?;
    measure_keys(
        rt,
        table,
        hashed,
        [
            "one key, hashed",
            "one key, hashed, near",
            "by zipf, hashed",
            "by zipf, hashed, near",
        ],
    )
}
