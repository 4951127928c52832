//! Where keys have their places, by a directory and by a hash.
ghost use Rattle.std.specs.Prelude.{◌≤◌, IfOk};
ghost use Rattle.std.proofs.Common.{inr};
ghost use Rattle.sf_words.specs.declared.limits.TheConstants.{LARGEST_PLACE};
ghost use Rattle.sf_fill_keys.specs.Spaces.{IsDeskOf, places_in, space_of};

use sf_dir::Refusal;
use sf_fill_keys::{KeyDesk, KeySpace, Spot, hash_desks, open_directory};
use sf_keys_places::Places;
use std::alloc::Global;
use std::process::Abort;
use std::test::Fail;

// The spot's place, and whether it may be of the key.
fn assert_spot(rt: &impl Abort, spot: &Spot<'_>, number: u32, key: &[u8], may_be: bool) {
    let is = spot.number().number();
    assert!(rt; is == number, "the place is {is}");
    assert!(rt; spot.is_of(key) == may_be, "of another key: {may_be}");
}

fn assert_refused(
    rt: &impl Abort,
    space: &KeySpace<'_>,
    desk: &mut KeyDesk,
    key: &[u8],
    due: Refusal,
)
    requires desk { IsDeskOf (space_of space.now) desk.old }
    requires few { places_in (space_of space.now) ≤ LARGEST_PLACE }
    ensures { IsDeskOf (space_of space.now) desk.new }
{
    let refusal = space.find(desk, key).err();
    assert!(rt; refusal == Some(due), "a key of {} bytes", key.len());
}

// A place of a directory is one key's, so nothing is compared.
#[test]
fn spots_of_a_directory(rt: HostRuntime) -> Result<(), Fail> {
    let alloc = rt.alloc();
    let (directory, mut desks) = open_directory(alloc, 1, 4, 1, 7, 11)?;
    let mut desk = desks.pop().ok_or("no desk")?;
    let space = KeySpace::Directory(&directory);
    assert!(rt; space.place_count() == 1, "the places");
    assert!(rt; desks.is_empty(), "the desks");
    let mut at = space.find(&mut desk, b"a").map_err(|_| "refused")?;
    let mut spot = at.spot(alloc, b"a")?;
    let again = spot.again()?;
    assert!(rt; at.number().number() == 1, "the place");
    assert_spot(&rt, &spot, 1, b"a", true);
    assert_spot(&rt, &spot, 1, b"b", true);
    assert_spot(&rt, &again, 1, b"a", true);
    spot.agree(&mut at, b"a");
    assert_refused(&rt, &space, &mut desk, b"b", Refusal::Full);
    assert_refused(&rt, &space, &mut desk, b"12345", Refusal::KeyTooLong);
    Ok(())
}

// One of two desks of hashed places.
fn hashed_desk(rt: &impl Abort, alloc: Global, places: Places) -> Result<KeyDesk, Fail>
    ensures { IfOk result (IsDeskOf (inr places)) }
{
    let mut desks = hash_desks(alloc, places, 2)?;
    assert!(rt; desks.len() == 2, "the desks");
    let desk = desks.pop().ok_or("no desk")?;
    assert!(rt; matches!(desk, KeyDesk::Hashed), "a desk of a directory");
    Ok(desk)
}

// Keys share hashed places, none is refused, and a spot is told by its key's bytes.
#[test]
fn spots_by_a_hash(rt: HostRuntime) -> Result<(), Fail> {
    let alloc = rt.alloc();
    let places = Places {
        count: 1_000,
        seed0: 7,
        seed1: 11,
    };
    let mut desk = hashed_desk(&rt, alloc, places)?;
    let space = KeySpace::Hashed(places);
    assert!(rt; space.place_count() == 1_000, "the places");
    let key = b"a key of more bytes than a directory's keys may have, if that has four";
    let mut at = space.find(&mut desk, key).map_err(|_| "refused")?;
    let mut spot = at.spot(alloc, key)?;
    let again = spot.again()?;
    let number = places.of(key);
    assert!(rt; at.number().number() == number, "the place");
    assert_spot(&rt, &spot, number, key, true);
    assert_spot(&rt, &again, number, key, true);
    assert_spot(&rt, &spot, number, b"b", false);
    spot.agree(&mut at, key);
    Ok(())
}
