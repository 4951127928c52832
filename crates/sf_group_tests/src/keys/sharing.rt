//! Threads that ask for four keys of one place, and of eight places, at once.
ghost use Rattle.std.specs.Prelude.{◌≤◌};

use crate::keys::asking::Asker;
use crate::keys::item::Item;
use sf_group::Group;
use sf_keys::Places;
use std::process::Abort;
use std::sync::Wait;
use std::sync::atomic::{AtomicU32, Ordering};
use std::test::Fail;
use std::thread::{Threads, join};

const DOS: u32 = 1_000;

const ROUNDS: u32 = 2;

fn key_of(number: u32) -> &'static [u8] {
    match number % 4 {
        0 => b"",
        1 => b"a",
        2 => b"bb",
        _ => b"ccc",
    }
}

// Asks 1,000 times, for one key after another, and forgets one of seven. Each do has an answer of its key. How many were alone.
fn work(rt: &(impl Abort + Wait), asker: Asker<'_>) -> u32 {
    let mut asker = asker;
    let mut all_alone: u32 = 0;
    for done in 0..DOS {
        let key = key_of(done);
        if done % 7 == 0 {
            asker.forget(rt, key);
        }
        let (back, alone, size) = asker.ask(rt, key, ROUNDS);
        assert!(rt; size == key.len(), "{size} for {done}");
        all_alone = all_alone.wrapping_add(alone as u32);
        asker = back;
    }
    all_alone
}

// How many dos of the two were alone.
fn work_at_once(
    rt: &(impl Abort + Threads + Wait + Sync),
    one: Asker<'_>,
    other: Asker<'_>,
) -> u32 {
    let (one, other) = join(rt, || work(rt, one), || work(rt, other));
    one.wrapping_add(other)
}

// A load is a led call's or one alone.
fn check_loads(rt: &impl Abort, loads: u32, alone: u32) {
    assert!(rt;
        alone <= loads && loads <= 4 * DOS,
        "{loads} loads, {alone} alone"
    );
}

// Four threads share so many places.
fn four_threads(
    rt: &(impl Abort + Wait + Threads + AllocGlobal + Sync),
    count: u32,
) -> Result<(), Fail>
    requires { (1 ≤ count) × (count ≤ 8) }
{
    let places = Places {
        count,
        seed0: 1,
        seed1: 2,
    };
    let (group, mut list) = Group::<Item>::new(rt.alloc(), count, 4, 1)?;
    let loads = AtomicU32::new(0);
    let four = Asker::next(rt, &group, places, &mut list, &loads);
    let three = Asker::next(rt, &group, places, &mut list, &loads);
    let two = Asker::next(rt, &group, places, &mut list, &loads);
    let one = Asker::next(rt, &group, places, &mut list, &loads);
    let (half, other) = join(
        rt,
        || work_at_once(rt, one, two),
        || work_at_once(rt, three, four),
    );
    let alone = half.wrapping_add(other);
    check_loads(rt, loads.load(Ordering::SeqCst), alone);
    Ok(())
}

#[test]
fn four_threads_over_one_place(rt: HostRuntime) -> Result<(), Fail> {
    four_threads(&rt, 1)
}

#[test]
fn four_threads_over_eight_places(rt: HostRuntime) -> Result<(), Fail> {
    four_threads(&rt, 8)
}
