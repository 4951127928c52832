//! What the threads of a fill do, each with a getter of its own.
ghost use Rattle.std.specs.Prelude.{◌≡◌, ◌<◌, ◌≤◌, ℕ, List, All, IfOk, map, reverse};
ghost use Rattle.std.specs.Prelude.{vec_len, vec_capacity};
ghost use Rattle.std.specs.List.{enumerate_from};
ghost use Rattle.sf_history.specs.declared.call.CallId.{CallId};
ghost use Rattle.sf_words.specs.declared.limits.TheConstants.{LARGEST_PLACE, LARGEST_CALLER};
ghost use Rattle.sf_group_rows.specs.Making.{IsNewCaller};
ghost use Rattle.sf_group_rows.specs.Tokens.{GroupValue};
ghost use Rattle.sf_fill_keys.specs.Spaces.{SpaceId, AreDesksOf, places_in, space_of};
ghost use Rattle.sf_fill.specs.GetterValue.{GetterValue};
ghost use Rattle.sf_fill.specs.Made.{AreParts};
ghost use Rattle.sf_fill_open.specs.Opened.{EachThread, IsNewGetter, IsOfThreads};
ghost use Rattle.sf_fill_open.specs.Opened.{places_for, without_loaders};

use crate::sizes::{FillSizes, Keys};
use sf_fill::{Fill, FillParts, Getter, Keeps, Naming};
use sf_fill_keys::{KeyDesk, KeySpace, hash_desks, open_directory};
use sf_group::Memory;
use sf_loaders::{LoadPath, Origin};
use std::alloc::Global;
use std::marker::Brand;
use std::sync::Wait;
use std::thread::{Threads, map_vec};

/// What threads do with a fill, one getter each, and what comes of it. Where no thread can be made the getters work one after
/// another.
pub trait Team {
    /// What comes of one thread.
    type Part: Drop + Send;

    /// What comes of it all.
    type Answer;

    /// What it needs of the number of getters, and of what the origin states of a key, a run and the bytes that this loaded.
    ghost wants: { Self → ℕ → (List ℕ → CallId → List ℕ → Type 0) → Type 0 };

    /// How many events each getter has room to log.
    ghost room: { Self → ℕ };

    /// What it says of the getter that the thread of this index was lent, as it leaves it, and of its part; the getter is of this group
    /// over this key space.
    ghost gives: { Self → SpaceId → GroupValue → ℕ → GetterValue (Unit {0}) → Self.Part → Type 0 };

    /// What it says of the parts, in the order of the loaders, and of its answer.
    ghost ends: { Self → List Self.Part → Self.Answer → Type 0 };

    /// What the thread of this index does, from 0, with its getter, which it is lent.
    fn work<'d, D: Naming, N: Naming, O: Origin, L: LoadPath<Origin = O> + Drop>(
        &self,
        fill: &Fill<'d, D, N, O>,
        getter: &mut Getter<'d, D, N, O, L>,
        index: u32,
    ) -> Self::Part
        requires wants { wants self.now N.getters O.loaded }
        requires new { IsNewGetter N.group (room self.now) getter.old }
        requires index { index < N.getters }
        ensures { gives self.now N.space N.group index (without_loaders getter.new) result };

    /// What comes of the threads, once all have ended. The getters and the parts stand in the order of the loaders.
    fn finish<'d, D: Naming, N: Naming, O: Origin, L: LoadPath<Origin = O> + Drop>(
        &self,
        fill: &Fill<'d, D, N, O>,
        getters: Vec<Getter<'d, D, N, O, L>>,
        parts: Vec<Self::Part>,
    ) -> Self::Answer
        requires wants { wants self.now N.getters O.loaded }
        requires getters { vec_len getters ≡ N.getters }
        requires parts { vec_len parts ≡ N.getters }
        requires given { EachThread (gives self.now N.space N.group) getters.items parts.items }
        ensures { ends self.now parts.items result };
}

/// Makes a fill with a getter for each set of loaders, 1 to 65,535, lets a thread work with each, and the team finish. Refused
/// where there is no memory for it; then the team does not finish, and what the getters owe is abandoned.
pub fn with_team<
    O: Origin + Send + Sync,
    L: LoadPath<Origin = O> + Send + Drop,
    R: Wait + Threads + Sync,
    T: Team + Sync,
>(rt: &R, alloc: Global, sizes: FillSizes, loaders: Vec<L>, team: &T) -> Result<T::Answer, Memory>
    requires places { places_for sizes.keys ≤ LARGEST_PLACE }
    requires getters { (1 ≤ vec_len loaders) × (vec_len loaders ≤ LARGEST_CALLER) }
    requires wants { T.wants team.now (vec_len loaders) O.loaded }
    requires room { sizes.keeps.log ≡ T.room team.now }
    ensures { IfOk result
        (IsOfThreads (T.gives team.now) (T.ends team.now) (vec_len loaders)) }
{
    let getters = loaders.len() as u32;
    match sizes.keys {
        Keys::Directory(of) => {
            let (directory, desks) = open_directory(
                alloc,
                of.keys,
                of.key_bytes,
                getters,
                of.seed0,
                of.seed1,
            )?;
            let space = KeySpace::Directory(&directory);
            with_space::<Brand, O, L, R, T>(rt, alloc, space, desks, sizes, loaders, team)
        }
        Keys::Hashed(places) => {
            let desks = hash_desks(alloc, places, getters)?;
            let space = KeySpace::Hashed(places);
            with_space::<Brand, O, L, R, T>(rt, alloc, space, desks, sizes, loaders, team)
        }
    }
}

// The key space is named here, and the group made.
fn with_space<
    'd,
    D: Naming + Send + Sync,
    O: Origin + Send + Sync,
    L: LoadPath<Origin = O> + Send + Drop,
    R: Wait + Threads + Sync,
    T: Team + Sync,
>(
    rt: &R,
    alloc: Global,
    space: KeySpace<'d>,
    desks: Vec<KeyDesk>,
    sizes: FillSizes,
    loaders: Vec<L>,
    team: &T,
) -> Result<T::Answer, Memory>
    requires space { (space_of space ≡ D.space) × (places_in D.space ≤ LARGEST_PLACE) }
    requires getters { (1 ≤ vec_len loaders) × (vec_len loaders ≤ LARGEST_CALLER) }
    requires desks { (vec_len desks ≡ vec_len loaders) × AreDesksOf D.space desks.items }
    requires wants { T.wants team.now (vec_len loaders) O.loaded }
    requires room { sizes.keeps.log ≡ T.room team.now }
    ensures { IfOk result
        (IsOfThreads (T.gives team.now) (T.ends team.now) (vec_len loaders)) }
{
    let Ok(parts) = FillParts::new(alloc, space, desks, loaders, sizes.first_generation) else {
        return Err(Memory);
    };
    with_all::<D, Brand, O, L, R, T>(rt, alloc, space, parts, sizes.keeps, team)
}

// All is named here.
fn with_all<
    'd,
    D: Naming + Send + Sync,
    N: Naming + Send + Sync,
    O: Origin + Send + Sync,
    L: LoadPath<Origin = O> + Send + Drop,
    R: Wait + Threads + Sync,
    T: Team + Sync,
>(
    rt: &R,
    alloc: Global,
    space: KeySpace<'d>,
    parts: FillParts<'d, D, O, L>,
    keeps: Keeps,
    team: &T,
) -> Result<T::Answer, Memory>
    requires space { (space_of space ≡ N.space) × (D.space ≡ N.space) }
    requires parts { AreParts N.space N.group N.getters N.ledgers parts }
    requires limit { keeps.limit ≡ N.limit }
    requires callers { All (IsNewCaller N.group) parts.callers.items }
    requires wants { T.wants team.now N.getters O.loaded }
    requires room { keeps.log ≡ T.room team.now }
    ensures { IfOk result (IsOfThreads (T.gives team.now) (T.ends team.now) N.getters) }
{
    let Ok((fill, getters)) = Fill::<'d, D, N, O>::new(alloc, space, parts, keeps) else {
        return Err(Memory);
    };
    work_and_finish(rt, alloc, &fill, getters, team)
}

// A getter whose thread is to work.
struct GetterJob<'a, 'd, D: Naming, N: Naming, O: Origin, L, T: Team> {
    fill: &'a Fill<'d, D, N, O>,
    team: &'a T,
    getter: Getter<'d, D, N, O, L>,
    /// Which thread it is, from 0.
    index: u32,
}

impl<'a, 'd, D: Naming, N: Naming, O: Origin, L: Drop, T: Team> Drop
    for GetterJob<'a, 'd, D, N, O, L, T> {
    fn drop(self) {
        let GetterJob {
            fill: _,
            team: _,
            getter,
            index: _,
        } = self;
        getter.abandon();
    }
}

// A getter whose thread has worked, and what came of that.
struct WorkedGetter<'d, D: Naming, N: Naming, O: Origin, L, P> {
    getter: Getter<'d, D, N, O, L>,
    part: P,
}

impl<'d, D: Naming, N: Naming, O: Origin, L: Drop, P: Drop> Drop
    for WorkedGetter<'d, D, N, O, L, P> {
    fn drop(self) {
        let WorkedGetter { getter, part: _ } = self;
        getter.abandon();
    }
}

impl<'d, D: Naming, N: Naming, O: Origin, L, P> WorkedGetter<'d, D, N, O, L, P> {
    fn into_parts(self) -> (Getter<'d, D, N, O, L>, P)
        ensures { (result.0 ≡ self.entry.getter) × (result.1 ≡ self.entry.part) }
    {
        let WorkedGetter { getter, part } = self;
        (getter, part)
    }
}

impl<'a, 'd, D: Naming, N: Naming, O: Origin, L: LoadPath<Origin = O> + Drop, T: Team> GetterJob<
    'a,
    'd,
    D,
    N,
    O,
    L,
    T,
> {
    // Works, in its thread.
    fn run(self) -> WorkedGetter<'d, D, N, O, L, T::Part>
        requires wants { T.wants self.team.now N.getters O.loaded }
        requires new { IsNewGetter N.group (T.room self.team.now) self.getter }
        requires index { self.index < N.getters }
        ensures { T.gives self.entry.team.now N.space N.group self.entry.index
            (without_loaders result.getter) result.part }
    {
        let GetterJob {
            fill,
            team,
            mut getter,
            index,
        } = self;
        let part = team.work(fill, &mut getter, index);
        WorkedGetter { getter, part }
    }
}

// Spends all getters.
fn abandon_all<'d, D: Naming, N: Naming, O: Origin, L: Drop>(getters: Vec<Getter<'d, D, N, O, L>>) {
    let mut getters = getters;
    'rest: while let Some(getter) = getters.pop() {
        getter.abandon();
    }
    getters.destroy_empty();
}

// The jobs of the threads, and the list in which their getters were, which has room for them still.
type HandedOut<'a, 'd, D, N, O, L, T> = (
    Vec<GetterJob<'a, 'd, D, N, O, L, T>>,
    Vec<Getter<'d, D, N, O, L>>,
);

// A job for each getter, the last one first.
fn hand_out<'a, 'd, D: Naming, N: Naming, O: Origin, L: Drop, T: Team>(
    alloc: Global,
    fill: &'a Fill<'d, D, N, O>,
    team: &'a T,
    getters: Vec<Getter<'d, D, N, O, L>>,
) -> Result<HandedOut<'a, 'd, D, N, O, L, T>, Memory>
    requires { vec_len getters ≤ LARGEST_CALLER }
    ensures jobs { IfOk result (λ out. map (λ job. (job.index, job.getter)) out.0.items
        ≡ reverse (enumerate_from 0 getters.entry.items)) }
    ensures team { IfOk result (λ out. All (λ job. job.team.now ≡ team.now) out.0.items) }
    ensures getters { IfOk result (λ out.
        (vec_len out.1 ≡ 0) × (vec_len getters.entry ≤ vec_capacity out.1)) }
{
    let mut getters = getters;
    let Ok(mut jobs) = Vec::with_capacity(alloc, getters.len()) else {
        abandon_all(getters);
        return Err(Memory);
    };
    'hand: while let Some(getter) = getters.pop() {
        jobs.push_reserved(GetterJob {
            fill,
            team,
            getter,
            index: getters.len() as u32,
        });
    }
    Ok((jobs, getters))
}

// Takes the getters and the parts back, in the order of the loaders.
fn take_back<'d, D: Naming, N: Naming, O: Origin, L: Drop, P: Drop>(
    ended: Vec<WorkedGetter<'d, D, N, O, L, P>>,
    getters: Vec<Getter<'d, D, N, O, L>>,
    parts: Vec<P>,
) -> (Vec<Getter<'d, D, N, O, L>>, Vec<P>)
    requires getters { (vec_len getters ≡ 0) × (vec_len ended ≤ vec_capacity getters) }
    requires parts { (vec_len parts ≡ 0) × (vec_len ended ≤ vec_capacity parts) }
    ensures getters { result.0.items ≡ reverse (map (λ end. end.getter) ended.entry.items) }
    ensures parts { result.1.items ≡ reverse (map (λ end. end.part) ended.entry.items) }
{
    let mut ended = ended;
    let mut getters = getters;
    let mut parts = parts;
    'back: while let Some(end) = ended.pop() {
        let (getter, part) = end.into_parts();
        getters.push_reserved(getter);
        parts.push_reserved(part);
    }
    (getters, parts)
}

// Lets each getter's thread work, and then the team finish.
fn work_and_finish<
    'd,
    D: Naming + Send + Sync,
    N: Naming + Send + Sync,
    O: Origin + Send + Sync,
    L: LoadPath<Origin = O> + Send + Drop,
    R: Wait + Threads + Sync,
    T: Team + Sync,
>(
    rt: &R,
    alloc: Global,
    fill: &Fill<'d, D, N, O>,
    getters: Vec<Getter<'d, D, N, O, L>>,
    team: &T,
) -> Result<T::Answer, Memory>
    requires getters { (vec_len getters ≡ N.getters) × (N.getters ≤ LARGEST_CALLER) }
    requires new { All (IsNewGetter N.group (T.room team.now)) getters.items }
    requires wants { T.wants team.now N.getters O.loaded }
    ensures { IfOk result (IsOfThreads (T.gives team.now) (T.ends team.now) N.getters) }
{
    let Ok(parts) = Vec::with_capacity(alloc, getters.len()) else {
        abandon_all(getters);
        return Err(Memory);
    };
    let (jobs, getters) = hand_out(alloc, fill, team, getters)?;
    let Ok(ended) = map_vec(
        rt,
        jobs,
        &|job: GetterJob<D, N, O, L, T>|
            requires { T.wants job.team.now N.getters O.loaded
                × IsNewGetter N.group (T.room job.team.now) job.getter × (job.index < N.getters) }
            ensures { T.gives job.entry.team.now N.space N.group job.entry.index
                (without_loaders result.getter) result.part }
        { job.run() },
    ) else {
        getters.destroy_empty();
        return Err(Memory);
    };
    let (getters, parts) = take_back(ended, getters, parts);
    Ok(team.finish(fill, getters, parts))
}
