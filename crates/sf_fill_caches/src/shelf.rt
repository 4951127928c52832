//! One cache, most recent first, with the bytes that its entries weigh.
ghost use Rattle.std.specs.Prelude.{◌≡◌, ◌+◌, ◌-◌, ◌^◌, ◌<◌, ◌≤◌, nat_eq, [], ◌∷◌, IfOk, OnErr, OnOk, length};
ghost use Rattle.std.specs.Map.{remove_entry};
ghost use Rattle.std.specs.NonZero.{non_zero_usize_get};
ghost use Rattle.lru.specs.LruCache.{lru_cache};
ghost use Rattle.std.specs.Borrow.{sem};
ghost use Rattle.std.specs.Option.{option_copied, option_copied_mut};
ghost use Rattle.sf_fill_caches.specs.Lending.{LendsItem};
ghost use Rattle.sf_fill_caches.specs.LendingItem.{LendsItsItem};
ghost use Rattle.sf_fill_caches.specs.Looks.{item_at};
ghost use Rattle.sf_fill_caches.specs.Weights.{weight_of, but_last, FitsIn};

use lru::LruCache;
use std::alloc::{AllocError, Global};
use std::marker::Model;
use std::num::NonZeroUsize;

/// What is kept of a place.
#[derive(Drop)]
pub struct CacheEntry<T> {
    /// The length of its key, in bytes.
    pub key_len: usize,
    /// The length of its value, in bytes.
    pub value_len: usize,
    /// What a look lends.
    pub item: T,
}

impl<T> CacheEntry<T> {
    // The item, to write to.
    fn item_mut(&mut self) -> &mut T
        ensures* writes_back { sem 𝓛 (LendsItsItem T.row self.entry result) }
        ensures value { result.now ≡ self.old.item }
    {
        &mut self.item
    }
}

/// What one cache holds, as groupcache's `CacheStats` has it.
#[derive(Clone, Copy, PartialEq, Eq)]
pub struct CacheStats {
    /// What its entries weigh, in bytes of keys and values.
    pub bytes: u128,
    /// How many entries it has.
    pub items: usize,
    /// How many it has dropped since the limit was exceeded; the greatest `u64` stays.
    pub evictions: u64,
}

// One cache, what its entries weigh together, and how many were dropped by the limit.
#[derive(Drop)]
pub(crate) struct Shelf<T> {
    entries: LruCache<u32, CacheEntry<T>>,
    bytes: u128,
    evictions: u64,
}

impl<T> Model for Shelf<T> {
    ghost use Rattle.std.specs.Prelude.{◌≡◌};
    ghost use Rattle.lru.specs.LruCache.{LruCache as Entries};
    ghost use Rattle.sf_fill_caches.specs.declared.shelf.CacheEntry.{CacheEntry};
    ghost use Rattle.sf_fill_caches.specs.Weights.{weight_of, FitsIn};
    ghost use Rattle.std.specs.Prelude.{ℕ};

    ghost Value = { Entries ℕ (CacheEntry T) };

    ghost view = { λ s. s.entries };

    ghost invariant = { λ s. (s.bytes ≡ weight_of s.entries.entries)
        × FitsIn s.entries.cap s.entries.entries };
}

impl<T: Drop> Shelf<T> {
    pub(crate) fn new(alloc: Global, places: NonZeroUsize) -> Result<Self, AllocError>
        ensures { IfOk result (λ s. s ≡ lru_cache [] (non_zero_usize_get places)) }
    {
        Ok(Shelf {
            entries: LruCache::new(alloc, places)?,
            bytes: 0,
            evictions: 0,
        })
    }

    // What the entries weigh together.
    pub(crate) fn bytes(&self) -> u128
        ensures { result ≡ weight_of self.now.entries }
    {
        self.bytes
    }

    // What it holds.
    pub(crate) fn stats(&self) -> CacheStats
        ensures bytes { result.bytes ≡ weight_of self.now.entries }
        ensures items { result.items ≡ length self.now.entries }
    {
        CacheStats {
            bytes: self.bytes,
            items: self.entries.len(),
            evictions: self.evictions,
        }
    }

    // The place's item, which becomes the most recent.
    pub(crate) fn look(&mut self, place: u32) -> Option<&mut T>
        ensures* writes_back { sem 𝓛 (LendsItem T.row self.entry place result) }
        ensures value { option_copied_mut result ≡ item_at place self.old.entries }
    {
        let kept = self.entries.get_mut(&place)?;
        Some(kept.item_mut())
    }

    // The place's item; the order stays.
    pub(crate) fn peek(&self, place: u32) -> Option<&T>
        ensures { option_copied result ≡ item_at place self.now.entries }
    {
        let kept = self.entries.peek(&place)?;
        Some(&kept.item)
    }

    pub(crate) fn remove(&mut self, place: u32)
        ensures { self.new ≡ lru_cache (remove_entry (nat_eq place) self.old.entries) self.old.cap }
    {
        if let Some(kept) = self.entries.pop(&place) {
            self.bytes -= kept.key_len as u128 + kept.value_len as u128;
        }
    }

    pub(crate) fn drop_last(&mut self)
        ensures { self.new ≡ lru_cache (but_last self.old.entries) self.old.cap }
    {
        if let Some((_, kept)) = self.entries.pop_lru() {
            self.bytes -= kept.key_len as u128 + kept.value_len as u128;
            self.evictions = self.evictions.saturating_add(1);
        }
    }

    pub(crate) fn put(&mut self, place: u32, kept: CacheEntry<T>) -> Result<(), AllocError>
        requires place { (1 ≤ place) × (place ≤ self.old.cap) }
        requires room { weight_of self.old.entries < 2 ^ 64 }
        ensures put { OnOk result
            (self.new ≡ lru_cache ((place, kept) ∷ remove_entry (nat_eq place) self.old.entries)
            self.old.cap) }
        ensures refused { OnErr result (self.new ≡ self.old) }
    {
        let added = kept.key_len as u128 + kept.value_len as u128;
        // Read for what it says of the entries alone.
        let _ = self.entries.len();
        match self.entries.put(place, kept) {
            Ok(old) => {
                self.bytes += added;
                if let Some(old) = old {
                    self.bytes -= old.key_len as u128 + old.value_len as u128;
                }
                Ok(())
            }
            Err(_) => Err(AllocError),
        }
    }
}
