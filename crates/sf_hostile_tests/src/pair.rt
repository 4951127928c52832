//! Fills of two getters, and a spare caller that joins the first one's load. Wherever one allocation is refused, each get
//! answers the value, and one at most the fault for want of memory; what is owed is delivered then.
ghost use Rattle.std.proofs.Common.{inl};
ghost use Rattle.std.specs.Prelude.{◌≡◌, ◌≤◌, IfOk, vec_len, pos};
ghost use Rattle.sf_words.specs.declared.limits.TheConstants.{LARGEST_PLACE};
ghost use Rattle.sf_fill_keys.specs.Spaces.{AreDesksOf, places_in, space_of};
ghost use Rattle.sf_fill_counters.specs.Totals.{names_of};
ghost use Rattle.sf_fill.specs.Made.{AreParts};

use crate::meeting::{Flags, PairLoaders, loaders};
use crate::spare::{Spare, take_letter};
use crate::tried::{PairGetter, Tried};
use sf_dir::Directory;
use sf_fill::{Fill, FillParts, Keeps, Naming, RefusedParts};
use sf_fill_keys::{KeyDesk, KeySpace, open_directory};
use sf_group::Memory;
use sf_loaders::scripted::AnyValue;
use std::alloc::Global;
use std::marker::Brand;
use std::process::Abort;
use std::sync::Wait;
use std::test::Fail;
use std::thread::{Threads, join};

const SIZES: Keeps = Keeps {
    limit: 100,
    log: 64,
    near: 0,
    near_limit: 0,
};

// What the two getters do.
#[derive(Clone, Copy, PartialEq, Eq)]
enum Scene {
    /// The first gets twice, reloads, and gets again.
    Reload,
    /// Each gets, and the peer fails.
    FailedPeer,
    /// The first gets, and the spare caller joins its load.
    Joined,
}

/// How many gets and reloads were refused memory, and whether the load was met that was to be, and then how many loads there were.
#[derive(Clone, Copy)]
pub(crate) struct Played {
    refused: u32,
    pub(crate) met: bool,
    pub(crate) loads: u64,
}

// What the two getters do, one after the other.
fn play_in_turn<D: Naming, N: Naming, R: Wait + Abort>(
    rt: &R,
    one: Tried<'_, '_, '_, D, N>,
    two: Tried<'_, '_, '_, D, N>,
    scene: Scene,
) -> Played {
    let one = one.get(rt);
    let (one, two) = match scene {
        Scene::Reload => (one.get(rt).reload(rt).get(rt), two),
        Scene::FailedPeer | Scene::Joined => (one, two.get(rt)),
    };
    let (refused, _) = one.end(rt);
    Played {
        refused: refused.wrapping_add(two.end(rt).0),
        met: true,
        loads: 0,
    }
}

// The first getter gets beside the spare caller.
fn play_beside<
    'd,
    D: Naming + Send + Sync,
    N: Naming + Send + Sync,
    R: Wait + Threads + Abort + Sync,
>(rt: &R, tried: Tried<'_, 'd, '_, D, N>, spare: Spare<'_, 'd, '_, D, N>, flags: &Flags) -> Played {
    let fill = tried.fill;
    let (tried, waiting) = join(rt, || tried.get_beside(rt, flags), || spare.ask(rt));
    let met = flags.met();
    // Where letters are owed, this get delivers them, and is answered.
    let (refused, loads) = tried.get(rt).end(rt);
    assert!(rt;
        waiting.is_some() || !met || refused == 1,
        "nobody joined a load that was met, and no memory was refused"
    );
    if let Some(waiting) = waiting {
        take_letter(rt, fill, waiting, refused);
    }
    Played {
        refused,
        met,
        loads,
    }
}

// The first getter gets beside the caller of the last one.
fn play_joined<
    'd,
    'f,
    D: Naming + Send + Sync,
    N: Naming + Send + Sync,
    R: Wait + Threads + Abort + Sync,
>(rt: &R, one: Tried<'_, 'd, 'f, D, N>, last: PairGetter<'d, 'f, D, N>, flags: &Flags) -> Played {
    let fill = one.fill;
    let Some(caller) = last.into_caller(rt, fill) else {
        panic!(rt; "no spare caller")
    };
    if !fill.group().has(1) {
        panic!(rt; "the group has no place")
    }
    let spare = Spare {
        fill,
        caller,
        flags,
    };
    play_beside(rt, one, spare, flags)
}

// What the getters of the fill do, of which the last is spare.
fn play<'d, 'f, D: Naming + Send + Sync, N: Naming + Send + Sync, R: Wait + Threads + Abort + Sync>(
    rt: &R,
    fill: &Fill<'d, D, N, AnyValue>,
    getters: Vec<PairGetter<'d, 'f, D, N>>,
    scene: Scene,
    flags: &Flags,
) -> Played
    requires { vec_len getters ≡ 3 }
{
    let (one, two, last) = three(fill, getters);
    if scene == Scene::Joined {
        return play_joined(rt, one, last, flags);
    }
    last.abandon();
    play_in_turn(rt, one, two, scene)
}

// The first two getters, and the last one.
fn three<'a, 'd, 'f, D: Naming, N: Naming>(
    fill: &'a Fill<'d, D, N, AnyValue>,
    getters: Vec<PairGetter<'d, 'f, D, N>>,
) -> (
    Tried<'a, 'd, 'f, D, N>,
    Tried<'a, 'd, 'f, D, N>,
    PairGetter<'d, 'f, D, N>,
)
    requires { vec_len getters ≡ 3 }
{
    let mut getters = getters;
    let Some(last) = getters.pop() else {
        unreachable!()
    };
    let Some(two) = getters.pop() else {
        unreachable!()
    };
    let Some(one) = getters.pop() else {
        unreachable!()
    };
    getters.destroy_empty();
    (Tried::new(fill, one), Tried::new(fill, two), last)
}

// A fill and its getters.
type Made<'d, 'f, D, N> = (Fill<'d, D, N, AnyValue>, Vec<PairGetter<'d, 'f, D, N>>);

// The parts come back where memory is refused, and make the fill then.
fn make<'d, 'f, D: Naming, N: Naming>(
    alloc: Global,
    space: KeySpace<'d>,
    parts: FillParts<'d, D, AnyValue, PairLoaders<'f>>,
) -> Result<Made<'d, 'f, D, N>, Memory>
    requires space { (space_of space ≡ N.space) × (D.space ≡ N.space) }
    requires parts { AreParts N.space N.group N.getters N.ledgers parts }
    requires limit { N.limit ≡ pos 100 }
    ensures { IfOk result (λ made. vec_len made.1 ≡ N.getters) }
{
    match Fill::<'d, D, N, AnyValue>::new(alloc, space, parts, SIZES) {
        Ok(made) => Ok(made),
        Err(parts) => match Fill::<'d, D, N, AnyValue>::new(alloc, space, parts, SIZES) {
            Ok(made) => Ok(made),
            Err(_) => Err(Memory),
        },
    }
}

// All is named here.
fn with_all<
    'd,
    'f,
    D: Naming + Send + Sync,
    N: Naming + Send + Sync,
    R: Wait + Threads + Abort + Sync,
>(
    rt: &R,
    alloc: Global,
    space: KeySpace<'d>,
    parts: FillParts<'d, D, AnyValue, PairLoaders<'f>>,
    scene: Scene,
    flags: &Flags,
) -> Result<Played, Memory>
    requires space { (space_of space ≡ N.space) × (D.space ≡ N.space) }
    requires parts { AreParts N.space N.group N.getters N.ledgers parts }
    requires getters { N.getters ≡ 3 }
    requires limit { N.limit ≡ pos 100 }
{
    let (fill, getters) = make::<D, N>(alloc, space, parts)?;
    Ok(play(rt, &fill, getters, scene, flags))
}

// Those of the three getters: the first one's wait for what the scene has beside them.
fn all_loaders<'f>(
    alloc: Global,
    scene: Scene,
    flags: &'f Flags,
) -> Result<Vec<PairLoaders<'f>>, Memory>
    ensures { IfOk result (λ sets. vec_len sets ≡ 3) }
{
    let peer = (scene == Scene::FailedPeer).then_some(0);
    let met = (scene == Scene::Joined).then_some(flags);
    let mut sets = Vec::with_capacity(alloc, 3)?;
    sets.push_reserved(loaders(alloc, peer, met)?);
    sets.push_reserved(loaders(alloc, peer, None)?);
    sets.push_reserved(loaders(alloc, peer, None)?);
    Ok(sets)
}

// The desks and the loaders come back where memory is refused, and make the parts then.
fn make_parts<'d, 'f, D: Naming>(
    alloc: Global,
    space: KeySpace<'d>,
    desks: Vec<KeyDesk>,
    sets: Vec<PairLoaders<'f>>,
) -> Result<FillParts<'d, D, AnyValue, PairLoaders<'f>>, Memory>
    requires space { (space_of space ≡ D.space) × (places_in D.space ≤ LARGEST_PLACE) }
    requires sets { vec_len sets ≡ 3 }
    requires desks { (vec_len desks ≡ 3) × AreDesksOf D.space desks.items }
    ensures { IfOk result (λ parts.
        AreParts D.space parts.group 3 (names_of parts.ledgers) parts) }
{
    match FillParts::new(alloc, space, desks, sets, 1) {
        Ok(parts) => Ok(parts),
        Err(RefusedParts { desks, loaders }) => match FillParts::new(
            alloc, space, desks, loaders, 1,
        ) {
            Ok(parts) => Ok(parts),
            Err(_) => Err(Memory),
        },
    }
}

// The key space is named here.
fn with_space<'d, D: Naming + Send + Sync, R: Wait + Threads + Abort + Sync>(
    rt: &R,
    alloc: Global,
    space: KeySpace<'d>,
    desks: Vec<KeyDesk>,
    scene: Scene,
) -> Result<Played, Memory>
    requires space { (space_of space ≡ D.space) × (places_in D.space ≤ LARGEST_PLACE) }
    requires desks { (vec_len desks ≡ 3) × AreDesksOf D.space desks.items }
{
    let flags = Flags::new();
    let sets = all_loaders(alloc, scene, &flags)?;
    let parts = make_parts(alloc, space, desks, sets)?;
    with_all::<D, Brand, R>(rt, alloc, space, parts, scene, &flags)
}

// What the getters of a fill do, from nothing. Its directory has one place, which is the key's.
fn try_out<R: Wait + Threads + Abort + Sync>(
    rt: &R,
    alloc: Global,
    scene: Scene,
) -> Result<Played, Memory> {
    let (directory, desks) = open_directory(alloc, 1, 4, 3, 0, 0)?;
    with_space::<Brand, R>(rt, alloc, KeySpace::Directory(&directory), desks, scene)
}

// A get whose load is joined, and another get of the key then.
pub(crate) fn gets_beside_a_joiner<R: Wait + Threads + Abort + Sync>(
    rt: &R,
    alloc: Global,
) -> Result<Played, Memory> {
    try_out(rt, alloc, Scene::Joined)
}

// Where memory is refused before the fill stands, or for a thread, whose load nobody meets then, the scene is tried out once
// more. It meets no refusal then, and its load is met.
fn check<R: Wait + Threads + Abort + Sync>(
    rt: &R,
    alloc: Global,
    scene: Scene,
) -> Result<(), Fail> {
    if let Ok(
        Played {
            refused,
            met: true,
            ..
        },
    ) = try_out(rt, alloc, scene)
    {
        assert!(rt; refused <= 1, "{refused} are refused memory");
        return Ok(());
    }
    let Played { refused, met, .. } = try_out(rt, alloc, scene)?;
    assert!(rt; refused == 0, "it is refused memory again");
    assert!(rt; met, "the load is not met");
    Ok(())
}

#[test]
fn gets_and_a_reload(rt: HostRuntime) -> Result<(), Fail> {
    check(&rt, rt.alloc(), Scene::Reload)
}

#[test]
fn gets_after_a_failed_peer(rt: HostRuntime) -> Result<(), Fail> {
    check(&rt, rt.alloc(), Scene::FailedPeer)
}

#[test]
fn get_whose_load_is_joined(rt: HostRuntime) -> Result<(), Fail> {
    check(&rt, rt.alloc(), Scene::Joined)
}

// A directory of one place with its desks. Where memory is refused it is asked for once more.
fn open(alloc: Global) -> Result<(Directory, Vec<KeyDesk>), Memory>
    ensures count { IfOk result (λ opened. vec_len opened.1 ≡ 3) }
    ensures desks { IfOk result (λ opened. AreDesksOf (inl opened.0) opened.1.items) }
{
    if let Ok(opened) = open_directory(alloc, 1, 4, 3, 0, 0) {
        return Ok(opened);
    }
    open_directory(alloc, 1, 4, 3, 0, 0)
}

// The loaders of the three getters. Where memory is refused it is asked for once more.
fn sets<'f>(alloc: Global, flags: &'f Flags) -> Result<Vec<PairLoaders<'f>>, Memory>
    ensures { IfOk result (λ sets. vec_len sets ≡ 3) }
{
    if let Ok(sets) = all_loaders(alloc, Scene::Reload, flags) {
        return Ok(sets);
    }
    all_loaders(alloc, Scene::Reload, flags)
}

// The parts of a fill, which are made although memory is refused once.
fn check_parts<'d, D: Naming>(
    rt: &impl Abort,
    alloc: Global,
    space: KeySpace<'d>,
    desks: Vec<KeyDesk>,
) -> Result<(), Memory>
    requires space { (space_of space ≡ D.space) × (places_in D.space ≤ LARGEST_PLACE) }
    requires desks { (vec_len desks ≡ 3) × AreDesksOf D.space desks.items }
{
    let flags = Flags::new();
    let sets = sets(alloc, &flags)?;
    let parts = make_parts::<D>(alloc, space, desks, sets)?;
    let (desks, callers) = (parts.desks.len(), parts.callers.len());
    assert!(rt;
        desks == 3 && callers == 3,
        "{desks} desks, {callers} callers"
    );
    Ok(())
}

// No desk and no set of loaders is lost where memory for the group is refused: the parts are made of them then.
#[test]
fn refused_parts_come_back(rt: HostRuntime) -> Result<(), Fail> {
    let alloc = rt.alloc();
    let (directory, desks) = open(alloc)?;
    check_parts::<Brand>(&rt, alloc, KeySpace::Directory(&directory), desks)?;
    Ok(())
}
