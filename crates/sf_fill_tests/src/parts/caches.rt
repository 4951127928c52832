//! What the caches keep within their limit.

ghost use Rattle.std.specs.Prelude.{◌≡◌, ◌≤◌};

use sf_fill_caches::{Caches, Which};
use std::alloc::{AllocError, Global};
use std::process::Abort;

// The item is put at a place of a cache, with a key of one byte and a value of so many.
fn put(rt: &impl Abort, caches: &mut Caches<u8>, which: Which, place: u32, bytes: usize, item: u8)
    requires { (1 ≤ place) × (place ≤ caches.old.places) }
    ensures { caches.new.places ≡ caches.old.places }
{
    let put = caches.put(which, place, 1, bytes, item);
    assert!(rt; put.is_ok(), "no memory");
}

fn assert_bytes(rt: &impl Abort, caches: &Caches<u8>, main: u128, hot: u128) {
    let (main_bytes, hot_bytes) = (caches.main_bytes(), caches.hot_bytes());
    assert!(rt; main_bytes == main, "main weighs {main_bytes}");
    assert!(rt; hot_bytes == hot, "hot weighs {hot_bytes}");
    assert!(rt;
        caches.stats(Which::Main).bytes == main && caches.stats(Which::Hot).bytes == hot,
        "other stats"
    );
}

// What a cache has by now, and how many it had to drop.
fn assert_items(rt: &impl Abort, caches: &Caches<u8>, which: Which, items: usize, evictions: u64) {
    let stats = caches.stats(which);
    let (is, dropped) = (stats.items, stats.evictions);
    assert!(rt; is == items, "{is} items");
    assert!(rt; dropped == evictions, "{dropped} evictions");
}

// Whether a look finds the place.
fn assert_looked_up(rt: &impl Abort, caches: &mut Caches<u8>, which: Which, place: u32, due: bool)
    ensures { caches.new.places ≡ caches.old.places }
{
    let is_there = caches.look(which, place).is_some();
    assert!(rt; is_there == due, "it is there: {is_there}");
}

#[test]
fn caches_trim_hot_then_main(rt: HostRuntime) -> Result<(), AllocError> {
    let mut caches: Caches<u8> = Caches::new(rt.alloc(), 10, 3)?;
    put(&rt, &mut caches, Which::Main, 1, 4, 0);
    put(&rt, &mut caches, Which::Main, 2, 4, 0);
    assert_bytes(&rt, &caches, 10, 0);
    // Hot weighs 4: both weigh 14, more than 10, and 4 is more than an eighth of 10.
    put(&rt, &mut caches, Which::Hot, 3, 3, 0);
    assert_bytes(&rt, &caches, 10, 0);
    assert_looked_up(&rt, &mut caches, Which::Hot, 3, false);
    assert_looked_up(&rt, &mut caches, Which::Main, 1, true);
    assert_items(&rt, &caches, Which::Main, 2, 0);
    assert_items(&rt, &caches, Which::Hot, 0, 1);
    caches.remove(Which::Main, 1);
    assert_items(&rt, &caches, Which::Main, 1, 0);
    Ok(())
}

#[test]
fn main_is_trimmed_where_hot_is_empty(rt: HostRuntime) -> Result<(), AllocError> {
    let mut caches: Caches<u8> = Caches::new(rt.alloc(), 4, 1)?;
    put(&rt, &mut caches, Which::Main, 1, 4, 0);
    assert_bytes(&rt, &caches, 0, 0);
    Ok(())
}

// An entry of no bytes is not kept within this limit.
fn assert_not_kept(rt: &impl Abort, alloc: Global, limit: i64) -> Result<(), AllocError> {
    let mut caches: Caches<u8> = Caches::new(alloc, limit, 1)?;
    let put = caches.put(Which::Main, 1, 0, 0, 0);
    let kept = caches.look(Which::Main, 1).is_some();
    assert!(rt; put.is_ok() && !kept, "kept at {limit}");
    Ok(())
}

#[test]
fn nothing_is_kept_without_a_limit(rt: HostRuntime) -> Result<(), AllocError> {
    assert_not_kept(&rt, rt.alloc(), 0)?;
    assert_not_kept(&rt, rt.alloc(), -1)?;
    assert_not_kept(&rt, rt.alloc(), i64::MIN)
}

// Whether a peek finds the place.
fn assert_peeked(
    rt: &impl Abort,
    caches: &Caches<u8>,
    which: Which,
    place: u32,
    due: bool,
    otherwise: &str,
) {
    let is_there = caches.peek(which, place).is_some();
    assert!(rt; is_there == due, "{otherwise}");
}

// The item of this place in main.
fn assert_item(rt: &impl Abort, caches: &Caches<u8>, place: u32, due: u8) {
    let peeked = caches.peek(Which::Main, place).copied();
    assert!(rt; peeked == Some(due), "another item");
}

// Of two entries the first is peeked at, and looked at or not; a third drops the older one.
fn drop_the_oldest(rt: &impl Abort, alloc: Global, is_looked_at: bool) -> Result<(), AllocError> {
    let mut caches: Caches<u8> = Caches::new(alloc, 8, 3)?;
    put(rt, &mut caches, Which::Main, 1, 3, 7);
    put(rt, &mut caches, Which::Main, 2, 3, 8);
    assert_item(rt, &caches, 1, 7);
    assert_peeked(rt, &caches, Which::Hot, 1, false, "it is hot");
    if is_looked_at {
        assert_looked_up(rt, &mut caches, Which::Main, 1, true);
    }
    put(rt, &mut caches, Which::Main, 3, 3, 9);
    let otherwise = "the first is kept otherwise";
    assert_peeked(rt, &caches, Which::Main, 1, is_looked_at, otherwise);
    let otherwise = "the second is kept otherwise";
    assert_peeked(rt, &caches, Which::Main, 2, !is_looked_at, otherwise);
    Ok(())
}

// A peek reads an entry and leaves it the oldest, where a look makes it the newest.
#[test]
fn peeked_entry_stays_the_oldest(rt: HostRuntime) -> Result<(), AllocError> {
    drop_the_oldest(&rt, rt.alloc(), false)?;
    drop_the_oldest(&rt, rt.alloc(), true)
}

// Looks at place 1 of main, where this item is, and writes another over it.
fn write_over(rt: &impl Abort, caches: &mut Caches<u8>, due: u8, other: u8)
    ensures { caches.new.places ≡ caches.old.places }
{
    let Some(item) = caches.look(Which::Main, 1) else {
        panic!(rt; "it is not there")
    };
    assert!(rt; *item == due, "another item");
    *item = other;
}

#[test]
fn replaced_entry_weighs_no_more(rt: HostRuntime) -> Result<(), AllocError> {
    let mut caches: Caches<u8> = Caches::new(rt.alloc(), 10, 2)?;
    put(&rt, &mut caches, Which::Main, 1, 4, 7);
    put(&rt, &mut caches, Which::Main, 1, 2, 8);
    assert_bytes(&rt, &caches, 3, 0);
    write_over(&rt, &mut caches, 8, 9);
    write_over(&rt, &mut caches, 9, 9);
    caches.remove(Which::Main, 1);
    assert_bytes(&rt, &caches, 0, 0);
    Ok(())
}
