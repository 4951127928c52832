//! The load layer of a caching server, by the waiting forms: two threads get one page, which is loaded once for all that ask
//! while it loads; then the page is purged, and nobody who has heard of the purge gets the old one.
#![tactic(auto)]

ghost use Rattle.std.specs.Prelude.{◌≡◌, All, IfSome};
ghost use Rattle.sf_group_rows.specs.Same.{IsPlaceOf};

use sf_dir::Directory;
use sf_group::{Caller, Fit, Group, Memory, Note, Share};
use sf_wait::{DoFault, do_with, forget_wait};
use std::io;
use std::process::ExitCode;
use std::sync::Wait;
use std::sync::atomic::{AtomicU32, Ordering};
use std::thread::{Threads, join, yield_now};

// A page, by its version. Each reader gets a copy of what was loaded.
#[derive(Clone, Copy)]
struct Page(u32);

impl Share for Page {
    fn share(&mut self) -> Result<Self, Memory> {
        Ok(*self)
    }
}

impl Fit for Page {
    ghost lasts = { λ _ _ _ _ _ f. f };
}

// Where pages come from: slow, and it counts its loads.
#[derive(Drop)]
struct Origin {
    version: AtomicU32,
    loads: AtomicU32,
}

impl Origin {
    fn load(&self) -> Page {
        let page = Page(self.version.load(Ordering::SeqCst));
        for _ in 0..100 {
            yield_now();
        }
        self.loads.fetch_add(1, Ordering::SeqCst);
        page
    }
}

// Gets the page a hundred times, and counts the answers of the version. None where the caller has asked too often, or there is
// no memory for the copy of one that joined.
fn read(
    rt: &impl Wait,
    group: &Group<Page>,
    origin: &Origin,
    caller: Caller<Page>,
    place: u32,
    version: u32,
) -> Option<u32>
    requires own { caller.group ≡ group.now }
    requires place { IsPlaceOf group.now place }
{
    let mut caller = caller;
    let mut right = 0u32;
    for _asking in 0..100 {
        // The one load that serves this asking is this caller's own, or another's.
        match do_with(rt, group, caller, place, || origin.load()) {
            Ok((free, letter, _load)) => {
                caller = free;
                right = right.wrapping_add((letter.value().0 == version) as u32);
            }
            Err(DoFault::Spent(_caller, _load)) => return None,
            Err(DoFault::Held(settled)) => {
                settled.abandon();
                return None;
            }
        }
    }
    Some(right)
}

// Forgets the page, and tells of that.
fn purge(rt: &impl Wait, group: &Group<Page>, purger: Caller<Page>, place: u32) -> Note<Page>
    requires own { purger.group ≡ group.now }
    requires place { IsPlaceOf group.now place }
    ensures { result.group ≡ group.now }
{
    let mut purger = purger;
    forget_wait(rt, group, &mut purger, place);
    group.tell(&mut purger)
}

// What two threads count that get the page side by side.
fn read_both<R: Threads + Wait + Sync>(
    rt: &R,
    group: &Group<Page>,
    origin: &Origin,
    one: Caller<Page>,
    other: Caller<Page>,
    place: u32,
    version: u32,
) -> Option<u32>
    requires own { (one.group ≡ group.now) × (other.group ≡ group.now) }
    requires place { IsPlaceOf group.now place }
{
    let (one, other) = join(
        rt,
        || read(rt, group, origin, one, place, version),
        || read(rt, group, origin, other, place, version),
    );
    Some(one?.wrapping_add(other?))
}

// Two of the callers, if there are so many.
fn two_of(
    group: &Group<Page>,
    callers: &mut Vec<Caller<Page>>,
) -> Option<(Caller<Page>, Caller<Page>)>
    requires own { All (λ caller. caller.group ≡ group.now) callers.old.items }
    ensures left { All (λ caller. caller.group ≡ group.now) callers.new.items }
    ensures two { IfSome result (λ two. (two.0.group ≡ group.now) × (two.1.group ≡ group.now)) }
{
    let one = callers.pop()?;
    Some((one, callers.pop()?))
}

// What the readers count of the first version, and, once the page was purged, of the second; and whether no answer took two loads.
fn serve<R: Threads + Wait + Sync>(
    rt: &R,
    group: &Group<Page>,
    mut callers: Vec<Caller<Page>>,
    place: u32,
) -> Option<(u32, u32, bool)>
    requires own { All (λ caller. caller.group ≡ group.now) callers.items }
    requires place { IsPlaceOf group.now place }
{
    let origin = Origin {
        version: AtomicU32::new(1),
        loads: AtomicU32::new(0),
    };
    let purger = callers.pop()?;
    let (one, other) = two_of(group, &mut callers)?;
    let first = read_both(rt, group, &origin, one, other, place, 1)?;

    // The origin changes, the page is purged, and who reads next has heard of that.
    origin.version.store(2, Ordering::SeqCst);
    let mut note = purge(rt, group, purger, place);
    let (mut one, mut other) = two_of(group, &mut callers)?;
    group.learn(&mut one, &mut note);
    group.learn(&mut other, &mut note);
    let second = read_both(rt, group, &origin, one, other, place, 2)?;
    Some((first, second, origin.loads.load(Ordering::SeqCst) <= 400))
}

fn main(rt: HostRuntime) -> io::Result<ExitCode> {
    let alloc = rt.alloc();
    let (directory, mut desks) = Directory::new(alloc, 16, 250, 1, 0, 0)?;
    let (group, callers) = Group::<Page>::new(alloc, directory.place_count(), 5, 1)?;
    let Some(mut desk) = desks.pop() else {
        unreachable!()
    };
    let Ok(place) = directory.resolve(&mut desk, b"/index.html") else {
        return Ok(ExitCode::FAILURE);
    };
    let place = place.number().number();
    if !group.has(place) {
        return Ok(ExitCode::FAILURE);
    }
    let Some((first, second, few)) = serve(&rt, &group, callers, place) else {
        return Ok(ExitCode::FAILURE);
    };
    println!(rt; "first version: {first} of 200 answers")?;
    println!(rt; "second version: {second} of 200 answers")?;
    println!(rt; "at most one load an answer: {few}")?;
    Ok(ExitCode::SUCCESS)
}
