//! The two caches: what is kept of places, and the limit that both share.
ghost use Rattle.std.specs.Prelude.{◌≡◌, ◌<◌, ◌≤◌, ◌+◌, ◌^◌, OnOk, OnErr, IfOk, length};
ghost use Rattle.std.specs.Borrow.{sem};
ghost use Rattle.std.specs.Option.{option_copied, option_copied_mut};
ghost use Rattle.sf_fill_caches.specs.Trimming.{CachesValue, no_entries, removed, after_put, room_of, trimmed, entries_of};
ghost use Rattle.sf_fill_caches.specs.LendingBoth.{LendsFrom};
ghost use Rattle.sf_fill_caches.specs.Looks.{item_at};
ghost use Rattle.sf_fill_caches.specs.Weights.{weight_of};

use crate::shelf::{CacheEntry, CacheStats, Shelf};
use std::alloc::{AllocError, Global};
use std::marker::Model;
use std::num::NonZeroUsize;

/// Which of the two caches.
#[derive(Clone, Copy)]
pub enum Which {
    /// The values of this process's own keys.
    Main,
    /// Values of other peers' keys that are asked for often.
    Hot,
}

/// Two caches of places. What their entries weigh together is within a limit.
#[derive(Drop)]
pub struct Caches<T> {
    main: Shelf<T>,
    hot: Shelf<T>,
    limit: u64,
}

impl<T> Model for Caches<T> {
    ghost use Rattle.std.specs.Prelude.{◌≡◌, ◌+◌, ◌≤◌};
    ghost use Rattle.sf_fill_caches.specs.Weights.{weight_of};
    ghost use Rattle.sf_fill_caches.specs.Trimming.{CachesValue};

    ghost Value = { CachesValue T };

    ghost view = { λ c.
        record {
          limit = c.limit;
          places = c.main.cap;
          main = c.main.entries;
          hot = c.hot.entries;
        } };

    ghost invariant = { λ c. (weight_of c.main.entries + weight_of c.hot.entries ≤ c.limit)
        × (c.hot.cap ≡ c.main.cap) };
}

impl<T: Drop> Caches<T> {
    /// Empty caches of this many places, from 1, within a limit in bytes; nothing is kept where that is 0 or less.
    /// Refused where there is no memory.
    pub fn new(alloc: Global, limit: i64, places: u32) -> Result<Self, AllocError>
        requires { 1 ≤ places }
        ensures { IfOk result (λ c. c ≡ no_entries (room_of limit) places) }
    {
        let room = if limit > 0 { limit as u64 } else { 0 };
        let Some(places) = NonZeroUsize::new(places as usize) else {
            return Err(AllocError);
        };
        Ok(Caches {
            main: Shelf::new(alloc, places)?,
            hot: Shelf::new(alloc, places)?,
            limit: room,
        })
    }

    /// What main's entries weigh together, in bytes of keys and values.
    pub fn main_bytes(&self) -> u128
        ensures bytes { result ≡ weight_of self.now.main }
        ensures within { result + weight_of self.now.hot ≤ self.now.limit }
    {
        self.main.bytes()
    }

    /// What hot's entries weigh together, in bytes of keys and values.
    pub fn hot_bytes(&self) -> u128
        ensures bytes { result ≡ weight_of self.now.hot }
        ensures within { weight_of self.now.main + result ≤ self.now.limit }
    {
        self.hot.bytes()
    }

    /// What the cache holds, within the limit.
    pub fn stats(&self, which: Which) -> CacheStats
        ensures bytes { result.bytes ≡ weight_of (entries_of which self.now) }
        ensures items { result.items ≡ length (entries_of which self.now) }
        ensures within { result.bytes ≤ self.now.limit }
    {
        match which {
            Which::Main => self.main.stats(),
            Which::Hot => self.hot.stats(),
        }
    }

    /// The item of the place, to read or to write, whose entry becomes the cache's most recent. It takes no memory.
    pub fn look(&mut self, which: Which, place: u32) -> Option<&mut T>
        ensures* writes_back { sem 𝓛 (LendsFrom T.row self.entry which place result) }
        ensures value { option_copied_mut result ≡ item_at place (entries_of which self.old) }
    {
        match which {
            Which::Main => self.main.look(place),
            Which::Hot => self.hot.look(place),
        }
    }

    /// The item of the place, to read; the order of the entries stays. It takes no memory.
    pub fn peek(&self, which: Which, place: u32) -> Option<&T>
        ensures { option_copied result ≡ item_at place (entries_of which self.now) }
    {
        match which {
            Which::Main => self.main.peek(place),
            Which::Hot => self.hot.peek(place),
        }
    }

    /// Takes the entry of the place out of the cache, if it has one. It takes no memory.
    pub fn remove(&mut self, which: Which, place: u32)
        ensures { self.new ≡ removed which place self.old }
    {
        match which {
            Which::Main => self.main.remove(place),
            Which::Hot => self.hot.remove(place),
        }
    }

    /// Puts an entry in front, in the place of the one that was there, and drops the oldest ones while the limit is
    /// exceeded. The lengths are those of its key and value, in bytes. Where memory is refused, nothing changes.
    pub fn put(
        &mut self,
        which: Which,
        place: u32,
        key_len: usize,
        value_len: usize,
        item: T,
    ) -> Result<(), AllocError>
        requires { (1 ≤ place) × (place ≤ self.old.places) }
        ensures put { OnOk result
            (self.new ≡ after_put which place
            (record { key_len = key_len; value_len = value_len; item = item }) self.old) }
        ensures refused { OnErr result (self.new ≡ self.old) }
    {
        if self.limit == 0 {
            return Ok(());
        }
        let kept = CacheEntry {
            key_len,
            value_len,
            item,
        };
        let Caches { main, hot, limit } = self;
        match which {
            Which::Main => main.put(place, kept)?,
            Which::Hot => hot.put(place, kept)?,
        }
        trim(main, hot, *limit);
        Ok(())
    }
}

// Drops the oldest entries while the limit is exceeded: of hot where it weighs more than an eighth of main, else of main.
fn trim<T: Drop>(main: &mut Shelf<T>, hot: &mut Shelf<T>, limit: u64)
    requires { weight_of main.old.entries + weight_of hot.old.entries < 2 ^ 127 }
    ensures trimmed { (main.new.entries, hot.new.entries)
        ≡ trimmed limit (main.old.entries, hot.old.entries) }
    ensures within { weight_of main.new.entries + weight_of hot.new.entries ≤ limit }
    ensures caps { (main.new.cap ≡ main.old.cap) × (hot.new.cap ≡ hot.old.cap) }
{
    'over: while main.bytes() + hot.bytes() > limit as u128 {
        if hot.bytes() > main.bytes() / 8 {
            hot.drop_last();
        } else {
            main.drop_last();
        }
    }
}
