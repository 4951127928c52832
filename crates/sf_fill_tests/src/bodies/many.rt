//! Fills of more than 1,000 getters, with places by a hash and in a directory, and keys of thousands of bytes.
ghost use Rattle.std.specs.Prelude.{◌≡◌, ◌≤◌, All, IfOk, vec_len};
ghost use Rattle.sf_words.specs.declared.limits.TheConstants.{LARGEST_CALLER, LARGEST_PLACE};
ghost use Rattle.sf_fill_open.specs.Opened.{IsNewGetter, places_for};

use crate::bodies::leaders::loaders;
use crate::getting::get_bytes;
use bytes::Bytes;
use sf_fill::{Fill, Getter, LoadFault, Naming};
use sf_fill_open::{Body, DirectoryKeys, FillSizes, Keys, Places, with_fill};
use sf_group::Memory;
use sf_loaders::scripted::{FixedPicker, RoundChance, Script};
use sf_loaders::{LoadPath, Loaders, Origin};
use std::alloc::Global;
use std::process::Abort;
use std::sync::Wait;
use std::test::Fail;

// Gets of the key, one by each getter.
#[derive(Drop)]
struct Many<'a, R> {
    rt: &'a R,
    key: &'a [u8],
}

// What came of them.
#[derive(Clone, Copy, PartialEq, Eq)]
struct Came {
    getters: u32,
    answers: u32,
    loads: u128,
}

impl<'a, R: Wait> Body for Many<'a, R> {
    type Answer = Came;

    ghost use Rattle.std.specs.Prelude.{⊤};

    ghost wants = { λ many getters loaded. ⊤ };

    ghost room = { λ many. 0 };

    ghost ends = { λ many came. ⊤ };

    fn run<
        'd,
        D: Naming + Send + Sync,
        N: Naming + Send + Sync,
        O: Origin + Send + Sync,
        L: LoadPath<Origin = O> + Send + Drop,
    >(self, fill: &Fill<'d, D, N, O>, getters: Vec<Getter<'d, D, N, O, L>>) -> Came
        requires getters { vec_len getters ≡ N.getters }
        requires new { All (IsNewGetter N.group 0) getters.items }
    {
        let Many { rt, key } = self;
        get_each(rt, fill, getters, key)
    }
}

// Each getter gets the key, and ends.
fn get_each<'d, D: Naming, N: Naming, O: Origin, L: LoadPath<Origin = O> + Drop, R: Wait>(
    rt: &R,
    fill: &Fill<'d, D, N, O>,
    getters: Vec<Getter<'d, D, N, O, L>>,
    key: &[u8],
) -> Came {
    let mut getters = getters;
    let mut count: u32 = 0;
    let mut answers: u32 = 0;
    'each: while let Some(mut getter) = getters.pop() {
        count = count.saturating_add(1);
        if is_v(get_bytes(rt, fill, &mut getter, key)) {
            answers = answers.saturating_add(1);
        }
        getter.end(rt, fill);
    }
    getters.destroy_empty();
    Came {
        getters: count,
        answers,
        loads: fill.book(rt).loads,
    }
}

// Whether the answer is the value `v`.
fn is_v(answer: Result<Bytes, LoadFault>) -> bool {
    match answer {
        Ok(bytes) => bytes.as_slice() == b"v".as_slice(),
        Err(_) => false,
    }
}

type OneLoaders = Loaders<FixedPicker, Script, Script, RoundChance>;

// Loaders for so many getters.
fn all_loaders(alloc: Global, count: u32) -> Result<Vec<OneLoaders>, Memory>
    ensures { IfOk result (λ sets. vec_len sets ≡ count) }
{
    let mut sets = Vec::new(alloc);
    for index in 0..count {
        // Named for the loop's invariant alone.
        let _ = index;
        sets.push(loaders(alloc)?)?;
    }
    Ok(sets)
}

// The key is loaded once for so many getters, each of which is answered.
fn check<R: Wait + Abort>(
    rt: &R,
    alloc: Global,
    keys: Keys,
    count: u32,
    key: &[u8],
) -> Result<(), Memory>
    requires places { places_for keys ≤ LARGEST_PLACE }
    requires count { (1 ≤ count) × (count ≤ LARGEST_CALLER) }
{
    // Nothing is kept near, since each getter would make room for 256 letters.
    let mut sizes = FillSizes::new(keys, 100_000);
    sizes.keeps.near = 0;
    let sets = all_loaders(alloc, count)?;
    let came = with_fill(alloc, sizes, sets, Many { rt, key })?;
    let due = Came {
        getters: count,
        answers: count,
        loads: 1,
    };
    assert!(rt;
        came == due,
        "{count} getters and a key of {} bytes",
        key.len()
    );
    Ok(())
}

// A key of so many bytes.
fn key_of(alloc: Global, count: u32) -> Result<Vec<u8>, Memory> {
    let mut key = Vec::new(alloc);
    for _ in 0..count {
        key.push(b'k')?;
    }
    Ok(key)
}

// Of 1,001 getters one loads, and the others find its letter in main.
#[test]
fn many_getters_share_a_load(rt: HostRuntime) -> Result<(), Fail> {
    let alloc = rt.alloc();
    let places = Places {
        count: 8,
        seed0: 0,
        seed1: 0,
    };
    check(&rt, alloc, Keys::Hashed(places), 1_001, b"a")?;
    let keys = DirectoryKeys {
        keys: 8,
        key_bytes: 4,
        seed0: 0,
        seed1: 0,
    };
    check(&rt, alloc, Keys::Directory(keys), 1_001, b"a")?;
    Ok(())
}

// A key by a hash may have any number of bytes.
#[test]
fn key_of_thousands_of_bytes_is_shared(rt: HostRuntime) -> Result<(), Fail> {
    let alloc = rt.alloc();
    let places = Places {
        count: 8,
        seed0: 0,
        seed1: 0,
    };
    for count in [0, 251, 5_000, 70_000] {
        let key = key_of(alloc, count)?;
        check(&rt, alloc, Keys::Hashed(places), 2, key.as_slice())?;
    }
    Ok(())
}
