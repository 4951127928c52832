//! Keys of all lengths, a full directory, and two desks on two threads.

ghost use Rattle.std.specs.Prelude.{◌≡◌};

use sf_dir::{Desk, Directory, Memory, Place, Refusal};
use std::alloc::Global;
use std::process::Abort;
use std::thread::{Threads, join};

fn assert_refused(rt: &impl Abort, directory: &Directory, desk: &mut Desk, key: &[u8], due: Refusal)
    requires { desk.old.directory ≡ directory.now }
    ensures { desk.new.directory ≡ directory.now }
{
    let refusal = directory.resolve(desk, key).err();
    assert!(rt; refusal == Some(due), "a key of {} bytes", key.len());
}

fn place_of<'d>(
    rt: &impl Abort,
    directory: &'d Directory,
    desk: &mut Desk,
    key: &[u8],
    otherwise: &str,
) -> Place<'d>
    requires { desk.old.directory ≡ directory.now }
    ensures desk { desk.new.directory ≡ directory.now }
    ensures place { result.directory ≡ directory.now }
{
    let Ok(place) = directory.resolve(desk, key) else {
        panic!(rt; "{otherwise}")
    };
    place
}

// Both are the only place of their directory.
fn assert_same(rt: &impl Abort, mut place: Place<'_>, mut same: Place<'_>)
    requires { place.directory ≡ same.directory }
{
    assert!(rt; place.number().number() == 1 && same.number() == place.number());
    same.agree(&mut place);
    let again = place.again();
    assert!(rt; again.number() == same.number());
}

// A key gets the only place, another does not, one too long is refused as such, and the first key keeps it.
fn fill_up(rt: &impl Abort, directory: &Directory, mut desk: Desk, key: &[u8], other: &[u8])
    requires { desk.directory ≡ directory.now }
{
    let place = place_of(rt, directory, &mut desk, key, "no place");
    assert_refused(rt, directory, &mut desk, other, Refusal::Full);
    assert_refused(rt, directory, &mut desk, &[7; 251], Refusal::KeyTooLong);
    let same = place_of(rt, directory, &mut desk, key, "place lost");
    assert_same(rt, place, same);
}

// The directory of one place and one desk is filled up.
fn fill_one_place(rt: &impl Abort, alloc: Global, key: &[u8], other: &[u8]) -> Result<(), Memory> {
    let (directory, mut desks) = Directory::new(alloc, 1, 250, 1, 0, 0)?;
    let Some(desk) = desks.pop() else {
        panic!(rt; "no desk")
    };
    assert!(rt; directory.place_count() == 1 && desk.number() == 1 && desks.is_empty());
    fill_up(rt, &directory, desk, key, other);
    Ok(())
}

#[test]
fn key_lengths_and_a_full_directory(rt: HostRuntime) -> Result<(), Memory> {
    let long = [7u8; 250];
    fill_one_place(&rt, rt.alloc(), b"", &long)?;
    fill_one_place(&rt, rt.alloc(), &long, b"")
}

const KEYS: usize = 100;

// A desk after its round over the keys of 1 to 100 bytes, and the place of each; 0 for a refusal.
struct Round {
    desk: Desk,
    numbers: [u32; KEYS],
}

fn resolve_all(directory: &Directory, mut desk: Desk, backwards: bool) -> Round
    requires { desk.directory ≡ directory.now }
    ensures { result.desk.directory ≡ directory.now }
{
    let bytes = [b'k'; KEYS];
    let mut numbers = [0; KEYS];
    for step in 0..KEYS {
        let index = if backwards { KEYS - 1 - step } else { step };
        if let Ok(place) = directory.resolve(&mut desk, &bytes[..index + 1]) {
            numbers[index] = place.number().number();
        }
    }
    Round { desk, numbers }
}

// One desk goes forwards over the keys and the other backwards, each on a thread.
fn resolve_on_two<R: Threads + Sync>(
    rt: &R,
    directory: &Directory,
    one: Desk,
    two: Desk,
) -> (Round, Round)
    requires one { one.directory ≡ directory.now }
    requires two { two.directory ≡ directory.now }
    ensures one { result.0.desk.directory ≡ directory.now }
    ensures two { result.1.desk.directory ≡ directory.now }
{
    join(
        rt,
        move || resolve_all(directory, one, false),
        move || resolve_all(directory, two, true),
    )
}

fn assert_agree(rt: &impl Abort, first: &[u32; KEYS], second: &[u32; KEYS]) {
    let mut taken = [false; KEYS + 1];
    for index in 0..KEYS {
        let number = first[index] as usize;
        assert!(rt;
            1 <= number && number <= KEYS && !taken[number],
            "key {index}"
        );
        taken[number] = true;
        assert!(rt; first[index] == second[index], "key {index}");
    }
}

// Both found the same places, and no room for another key.
fn check_rounds(rt: &impl Abort, directory: &Directory, forwards: Round, backwards: Round)
    requires forwards { forwards.desk.directory ≡ directory.now }
    requires backwards { backwards.desk.directory ≡ directory.now }
{
    let Round {
        desk: mut one,
        numbers: first,
    } = forwards;
    let Round {
        desk: mut two,
        numbers: second,
    } = backwards;
    directory.meet(&mut one, &mut two);
    assert_agree(rt, &first, &second);
    assert_refused(rt, directory, &mut one, b"another", Refusal::Full);
    assert_refused(rt, directory, &mut two, b"another", Refusal::Full);
}

#[test]
fn desks_agree(rt: HostRuntime) -> Result<(), Memory> {
    let (directory, mut desks) = Directory::new(rt.alloc(), 100, 100, 2, 7, 11)?;
    let (Some(two), Some(one)) = (desks.pop(), desks.pop()) else {
        panic!(rt; "no two desks")
    };
    let (forwards, backwards) = resolve_on_two(&rt, &directory, one, two);
    check_rounds(&rt, &directory, forwards, backwards);
    Ok(())
}

fn assert_place(rt: &impl Abort, directory: &Directory, desk: &mut Desk, key: &[u8], due: u32)
    requires { desk.old.directory ≡ directory.now }
    ensures { desk.new.directory ≡ directory.now }
{
    let place = place_of(rt, directory, desk, key, "no place");
    let found = place.number().number();
    assert!(rt; found == due, "place {found} in place of {due}");
}

// In an empty directory a key's place is where its walk begins: its SipHash-1-3 by both halves of the seed, scaled down.
fn assert_begins(
    rt: &impl Abort,
    alloc: Global,
    seeds: (u64, u64),
    first: u32,
    second: u32,
) -> Result<(), Memory> {
    let (directory, mut desks) = Directory::new(alloc, 65_536, 8, 1, seeds.0, seeds.1)?;
    let Some(mut desk) = desks.pop() else {
        panic!(rt; "no desk")
    };
    assert_place(rt, &directory, &mut desk, b"a", first);
    assert_place(rt, &directory, &mut desk, b"user-7", second);
    Ok(())
}

#[test]
fn places_by_two_seeds(rt: HostRuntime) -> Result<(), Memory> {
    let (low, high) = (0x0706_0504_0302_0100, 0x0f0e_0d0c_0b0a_0908);
    assert_begins(&rt, rt.alloc(), (low, high), 7207, 39_403)?;
    assert_begins(&rt, rt.alloc(), (low, 0), 16_309, 3218)?;
    assert_begins(&rt, rt.alloc(), (0, high), 32_905, 39_709)?;
    assert_begins(&rt, rt.alloc(), (high, low), 46_885, 16_012)
}
