//! Lookups of known keys in directories.
ghost use Rattle.std.specs.Prelude.{◌≡◌, ◌≤◌};

use crate::benchmark::Benchmark;
use crate::fault::Fault;
use crate::rounds::{Operation, measure_one};
use crate::table::{Case, Table};
use sf_dir::{Desk, Directory};
use std::sync::Wait;
use std::thread::Threads;
use std::time::Clock;

// From one key to the next, modulo their number: a prime, so each key has its turn, in scattered order.
const STRIDE: u64 = 7_919;

// How many bytes a key has.
const KEY_BYTES: u32 = 8;

// A desk that looks keys up which its directory knows.
#[derive(Drop)]
struct Lookup<'a> {
    directory: &'a Directory,
    desk: Desk,
    /// The number of the key that it looks up as the next.
    number: u64,
    /// How many keys the directory knows.
    known: u64,
    /// From one key to the next.
    stride: u64,
    ghost own: { desk.directory ≡ directory.now },
}

impl<'a> Operation for Lookup<'a> {
    fn once<R: Wait>(self, _rt: &R) -> Result<Self, Fault> {
        let Lookup {
            directory,
            mut desk,
            number,
            known,
            stride,
        } = self;
        if directory.resolve(&mut desk, &number.to_le_bytes()).is_err() {
            return Err(Fault::Refused);
        }
        let later = number.wrapping_add(stride);
        Ok(Lookup {
            directory,
            desk,
            number: if later < known {
                later
            } else {
                later.wrapping_sub(known)
            },
            known,
            stride,
        })
    }
}

// Lets the directory know the keys of the first numbers.
fn learn_keys<'a>(directory: &'a Directory, desk: Desk, known: u64) -> Result<Lookup<'a>, Fault>
    requires { desk.directory ≡ directory.now }
{
    let mut desk = desk;
    for number in 0..known {
        if directory.resolve(&mut desk, &number.to_le_bytes()).is_err() {
            return Err(Fault::Refused);
        }
    }
    Ok(Lookup {
        directory,
        desk,
        number: 0,
        known,
        stride: STRIDE.checked_rem(known).unwrap_or(0),
    })
}

// Measures lookups in a directory of so many places that knows so many keys.
fn case<R>(
    rt: &R,
    table: &Table,
    places: u32,
    known: u64,
    detail: &'static str,
) -> Result<(), Fault>
where
    R: AllocGlobal + Print + Wait + Threads + Clock + Sync,
    requires { (1 ≤ places) × (places ≤ 100000) }
{
    let alloc = rt.alloc();
    let (directory, mut desks) = Directory::new(alloc, places, KEY_BYTES, 1, 7, 11)?;
    let Some(desk) = desks.pop() else {
        return Err(Fault::Refused);
    };
    let lookup = learn_keys(&directory, desk, known)?;
    let times = measure_one(rt, alloc, lookup)?;
    let case = Case {
        benchmark: Benchmark::Lookup,
        detail,
        threads: 1,
    };
    table.row(rt, case, times)
}

// Lookups in directories of two sizes, each half full, 90 % full and full.
pub(crate) fn measure_lookup<R>(rt: &R, table: &Table) -> Result<(), Fault>
where
    R: AllocGlobal + Print + Wait + Threads + Clock + Sync,
{
    case(rt, table, 1_000, 500, "1,000 places, half full")?;
    case(rt, table, 1_000, 900, "1,000 places, 90 % full")?;
    case(rt, table, 1_000, 1_000, "1,000 places, full")?;
    case(rt, table, 100_000, 50_000, "100,000 places, half full")?;
    case(rt, table, 100_000, 90_000, "100,000 places, 90 % full")?;
    case(rt, table, 100_000, 100_000, "100,000 places, full")
}
