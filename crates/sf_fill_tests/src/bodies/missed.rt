//! A reload that misses its call, since a caller that is no getter's leads the next one meanwhile.
ghost use Rattle.std.specs.Prelude.{◌≡◌, ◌≤◌, vec_len, pos};
ghost use Rattle.sf_group_rows.specs.Same.{IsPlaceOf};
ghost use Rattle.sf_words.specs.declared.limits.TheConstants.{LARGEST_PLACE};
ghost use Rattle.sf_fill_keys.specs.Spaces.{AreDesksOf, places_in, space_of};
ghost use Rattle.sf_fill.specs.Made.{AreParts};

use crate::bodies::leaders::{both, loaders};
use crate::getting::get;
use sf_fill::{Fill, FillParts, FillValue, Forgot, Getter, Keeps, Naming};
use sf_fill_keys::{KeyDesk, KeySpace, open_directory};
use sf_group::{Begun, Caller, Memory};
use sf_loaders::Loaders;
use sf_loaders::scripted::{AnyValue, FixedPicker, RoundChance, Script};
use sf_wait::begin_wait;
use std::alloc::Global;
use std::marker::{Brand, Model};
use std::sync::Wait;
use std::sync::atomic::{AtomicBool, Ordering};
use std::test::Fail;
use std::thread::{Threads, join};

const SIZES: Keeps = Keeps {
    limit: 100,
    log: 0,
    near: 0,
    near_limit: 0,
};

type OneLoaders = Loaders<FixedPicker, Script, Script, RoundChance>;

type OneGetter<'d, D, N> = Getter<'d, D, N, AnyValue, OneLoaders>;

// The getter, which reloads once it has said so.
struct Reloader<'a, 'd, 'f, D: Naming, N: Naming> {
    fill: &'a Fill<'d, D, N, AnyValue>,
    getter: OneGetter<'d, D, N>,
    begins: &'f AtomicBool,
}

impl<'a, 'd, 'f, D: Naming, N: Naming> Drop for Reloader<'a, 'd, 'f, D, N> {
    fn drop(self) {
        let Reloader {
            fill: _,
            getter,
            begins: _,
        } = self;
        getter.abandon();
    }
}

impl<'a, 'd, 'f, D: Naming, N: Naming> Reloader<'a, 'd, 'f, D, N> {
    // Whether the reload missed its call.
    fn misses<R: Wait>(self, rt: &R) -> bool {
        let Reloader {
            fill,
            getter,
            begins,
        } = self;
        begins.store(true, Ordering::SeqCst);
        let mut getter = getter;
        let answer = fill.reload(rt, &mut getter, b"a");
        getter.abandon();
        matches!(answer, Ok(Forgot::Missed(_)))
    }
}

// Looks until the reload was said to begin, 10,000,000 times at most, and then so often more.
fn wait(begins: &AtomicBool, looks: u32) {
    for _ in 0..10_000_000 {
        if begins.load(Ordering::SeqCst) {
            break;
        }
    }
    for _ in 0..looks {
        // Each look takes its time, and what it says does not matter.
        let _ = begins.load(Ordering::SeqCst);
    }
}

// A caller that is no getter's, which leads once the reload was said to begin, and it has looked so often more.
#[derive(Drop)]
struct Leader<'a, 'd, 'f, D: Naming, N: Naming> {
    fill: &'a Fill<'d, D, N, AnyValue>,
    caller: Caller<FillValue<'d, D, AnyValue>>,
    begins: &'f AtomicBool,
    looks: u32,
}

impl<'a, 'd, 'f, D: Naming, N: Naming> Model for Leader<'a, 'd, 'f, D, N> {
    ghost use Rattle.std.specs.Prelude.{◌≡◌};
    ghost use Rattle.sf_group_rows.specs.Same.{IsPlaceOf};

    ghost Value = { Unit {0} };

    ghost view = { λ _. tt };

    ghost invariant = { λ l. (l.caller.group ≡ N.group) × IsPlaceOf N.group 1 };
}

impl<'a, 'd, 'f, D: Naming, N: Naming> Leader<'a, 'd, 'f, D, N> {
    // Whether its second look finds a letter of the key.
    fn finds<R: Wait>(self, rt: &R) -> bool {
        let Leader {
            fill,
            caller,
            begins,
            looks,
        } = self;
        wait(begins, looks);
        match begin_wait(rt, fill.group(), caller, 1) {
            Ok(Begun::Lead(flight)) => {
                let found = fill.followed(rt, &flight, b"a");
                flight.abandon();
                found.is_some()
            }
            Ok(Begun::Join(ticket)) => {
                ticket.abandon();
                false
            }
            Err(_) => false,
        }
    }
}

// Whether the getter's reload missed its call, and whether the caller, which leads beside it, found that call's letter.
fn play_beside<'d, D: Naming + Send + Sync, N: Naming + Send + Sync, R: Wait + Threads + Sync>(
    rt: &R,
    fill: &Fill<'d, D, N, AnyValue>,
    getter: OneGetter<'d, D, N>,
    caller: Caller<FillValue<'d, D, AnyValue>>,
    looks: u32,
) -> (bool, bool)
    requires own { caller.group ≡ N.group }
    requires place { IsPlaceOf N.group 1 }
{
    let begins = AtomicBool::new(false);
    let reloader = Reloader {
        fill,
        getter,
        begins: &begins,
    };
    let leader = Leader {
        fill,
        caller,
        begins: &begins,
        looks,
    };
    join(rt, || reloader.misses(rt), || leader.finds(rt))
}

// The first getter reloads what it got, beside the caller of the second one, if there is one.
fn play<'d, D: Naming + Send + Sync, N: Naming + Send + Sync, R: Wait + Threads + Sync>(
    rt: &R,
    fill: &Fill<'d, D, N, AnyValue>,
    getters: Vec<OneGetter<'d, D, N>>,
    looks: u32,
) -> Option<(bool, bool)>
    requires { vec_len getters ≡ 2 }
{
    let (mut one, two) = both(getters);
    get(rt, fill, &mut one, b"a");
    match two.into_caller(rt, fill) {
        Some(caller) if fill.group().has(1) => Some(play_beside(rt, fill, one, caller, looks)),
        _ => {
            one.abandon();
            None
        }
    }
}

// All is named here.
fn with_all<'d, D: Naming + Send + Sync, N: Naming + Send + Sync, R: Wait + Threads + Sync>(
    rt: &R,
    alloc: Global,
    space: KeySpace<'d>,
    parts: FillParts<'d, D, AnyValue, OneLoaders>,
    looks: u32,
) -> Result<Option<(bool, bool)>, Memory>
    requires space { (space_of space ≡ N.space) × (D.space ≡ N.space) }
    requires parts { AreParts N.space N.group N.getters N.ledgers parts }
    requires getters { N.getters ≡ 2 }
    requires limit { N.limit ≡ pos 100 }
{
    let Ok((fill, getters)) = Fill::<'d, D, N, AnyValue>::new(alloc, space, parts, SIZES) else {
        return Err(Memory);
    };
    Ok(play(rt, &fill, getters, looks))
}

// The key space is named here.
fn with_space<'d, D: Naming + Send + Sync, R: Wait + Threads + Sync>(
    rt: &R,
    alloc: Global,
    space: KeySpace<'d>,
    desks: Vec<KeyDesk>,
    looks: u32,
) -> Result<Option<(bool, bool)>, Memory>
    requires space { (space_of space ≡ D.space) × (places_in D.space ≤ LARGEST_PLACE) }
    requires desks { (vec_len desks ≡ 2) × AreDesksOf D.space desks.items }
{
    let sets = vec![in alloc; loaders(alloc)?, loaders(alloc)?]?;
    let Ok(parts) = FillParts::new(alloc, space, desks, sets, 1) else {
        return Err(Memory);
    };
    with_all::<D, Brand, R>(rt, alloc, space, parts, looks)
}

// What comes of it over a directory of one place, which is the key's.
fn try_out<R: Wait + Threads + Sync>(
    rt: &R,
    alloc: Global,
    looks: u32,
) -> Result<Option<(bool, bool)>, Memory> {
    let (directory, desks) = open_directory(alloc, 1, 4, 2, 0, 0)?;
    with_space::<Brand, R>(rt, alloc, KeySpace::Directory(&directory), desks, looks)
}

// A reload that missed its call leaves no letter of it to who led the next call meanwhile: that one's load begins after the reload
// did, and gives what is new.
#[test]
fn missed_call_is_not_taken_over(rt: HostRuntime) -> Result<(), Fail> {
    for round in 0..300 {
        let Some((missed, found)) = try_out(&rt, rt.alloc(), round * 4)? else {
            panic!(rt; "no caller leads")
        };
        assert!(rt; !missed || !found, "an old letter is found");
    }
    Ok(())
}
