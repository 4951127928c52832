//! The directory.
ghost use Rattle.std.specs.Prelude.{◌≡◌, ◌<◌, ◌≤◌, ◌↔◌, length, IfOk, OnErr, Err, Some, None, [], All};
ghost use Rattle.std.specs.List.{range_with_len};
ghost use Rattle.sf_dir.specs.Rule.{without_first};
ghost use Rattle.sf_dir.specs.Walk.{IsOwnSeat};
ghost use Rattle.sf_dir.specs.Names.{IsNameList, AddsNone, Finds, IsFullFor};
ghost use Rattle.sf_dir.specs.Known.{IsNewDesk, numbers_of, IsSameDesk, Learns, directory_of, new_desk};

use crate::desk::Desk;
use crate::place::Place;
use crate::refusal::Refusal;
use crate::rule::{Deals, DirectorySizes, Law, Shows, View};
use crate::steps::{DeskSeat, Words, look};
use crate::walk::find;
use crate::word_index::{NO_PLACE, word_total_of};
use atomic_table::Table;
use sf_words::{LARGEST_CALLER, LARGEST_PLACE, LONGEST_KEY, PlaceNo};
use std::alloc::{AllocError as Memory, Global};
use std::marker::Model;

/// The most places that a directory may have.
pub const MOST_KEYS: u32 = LARGEST_PLACE;

/// The most desks that a directory may have.
pub const MOST_DESKS: u32 = LARGEST_CALLER;

/// Places for keys: each key that is resolved gets one for good. Clauses see which directory it is, and its sizes.
#[derive(Drop)]
pub struct Directory {
    pub(crate) table: Table<u8, View, DirectorySizes, Law, Global>,
    pub(crate) sizes: DirectorySizes,
}

impl Model for Directory {
    ghost use Rattle.sf_dir.specs.Walk.{IsLaidOut};
    ghost use Rattle.sf_dir.specs.Known.{DirectoryId, directory_of};

    ghost Value = { DirectoryId };

    ghost view = { λ d. directory_of d.table.shared.table_id d.sizes };

    ghost invariant = { λ d. IsLaidOut d.table.shared.key d.table.shared.table_id d.sizes };
}

// The next desk, from the seat that stands for those that are not dealt yet.
fn deal(words: &Words, first: &mut DeskSeat, number: u32) -> Desk
    requires own { IsOwnSeat words.now first.old }
    requires words { 0 < words.now.table_id.words }
    requires next { (first.old.me.0.from ≡ number) × (number < first.old.me.0.to) }
    requires unused { (first.old.me.0.spare ≡ None) × (first.old.me.0.seen ≡ []) }
    ensures own { first.new.table_id ≡ first.old.table_id }
    ensures first { first.new.me.0 ≡ without_first first.old.me.0 }
    ensures desk { result ≡ new_desk (directory_of words.now.table_id words.now.key) number }
{
    let seat = words.split_seat::<Deals>(first);
    Desk {
        seat,
        number,
        spare: None,
    }
}

impl Directory {
    /// A directory of `keys` places (1 to 1,048,576), for keys of at most `key_bytes` bytes (0 to 250), and its desks
    /// (1 to 65,535), numbered from 1. The two halves of the seed are to be drawn at random and kept secret, where strangers choose
    /// keys. Refused where there is no memory.
    pub fn new(
        alloc: Global,
        keys: u32,
        key_bytes: u32,
        desks: u32,
        seed0: u64,
        seed1: u64,
    ) -> Result<(Directory, Vec<Desk>), Memory>
        requires keys { (1 ≤ keys) × (keys ≤ MOST_KEYS) }
        requires key_bytes { key_bytes ≤ LONGEST_KEY }
        requires desks { (1 ≤ desks) × (desks ≤ MOST_DESKS) }
        ensures sizes { IfOk result (λ made. (made.0.keys ≡ keys) × (made.0.key_bytes ≡ key_bytes)
            × (made.0.desks ≡ desks)) }
        ensures desks { IfOk result (λ made. All (IsNewDesk made.0) made.1.items) }
        ensures numbers { IfOk result (λ made. numbers_of made.1.items ≡ range_with_len 1 desks) }
    {
        let sizes = DirectorySizes {
            keys: keys as u64,
            key_bytes: key_bytes as u64,
            desks: desks as u64,
            seed0,
            seed1,
        };
        let words = Vec::from_elem(alloc, 0u64, word_total_of(sizes))?;
        let mut list = Vec::with_capacity(alloc, desks as usize)?;
        let (table, mut first) = Table::<u8, View, DirectorySizes, Law, Global>::of_words(
            alloc,
            words.as_slice(),
            &sizes,
        )?;
        for index in 0..desks {
            list.push(deal(&table.shared, &mut first, index + 1))?;
        }
        Ok((Directory { table, sizes }, list))
    }

    /// The key's place, which the key gets now if it has none. Refused as too long where the key is longer than the
    /// directory's keys may be, which is looked at first, and as full where each place has another key. It takes no
    /// memory and does not wait: it looks at each place once at most.
    pub fn resolve<'d>(&'d self, desk: &mut Desk, key: &[u8]) -> Result<Place<'d>, Refusal>
        requires { desk.old.directory ≡ self.now }
        ensures desk { IsSameDesk desk.old desk.new }
        ensures names { IsNameList self.now.keys self.now.desks desk.new.seen }

        ensures place { IfOk result (λ place. (place.directory ≡ self.now)
            × (place.key ≡ key.now)) }
        ensures found { IfOk result (λ place.
            Finds desk.old.number desk.old.seen desk.new.seen place.number key.now) }

        ensures too_long { (result ≡ Err Refusal.KeyTooLong)
            ↔ (self.now.key_bytes < length key.now) }
        ensures unchanged { result ≡ Err Refusal.KeyTooLong → desk.new ≡ desk.old }
        ensures full { result ≡ Err Refusal.Full → IsFullFor self.now.keys key.now desk.new.seen }
        ensures refused { OnErr result (AddsNone desk.old.number desk.old.seen desk.new.seen) }
    {
        let words = &self.table.shared;
        let seat = &mut desk.seat;
        if key.len() as u64 > self.sizes.key_bytes {
            return Err(Refusal::KeyTooLong);
        }
        let Some(place) = find(words, seat, self.sizes, &mut desk.spare, key) else {
            return Err(Refusal::Full);
        };
        let seat = words.split_seat::<Shows>(seat);
        Ok(Place {
            directory: self,
            seat,
            number: PlaceNo::from_index(place as usize - 1),
        })
    }

    /// How many places it has, 1 to 1,048,576.
    pub fn place_count(&self) -> u32
        ensures count { result ≡ self.now.keys }
        ensures range { (1 ≤ result) × (result ≤ MOST_KEYS) }
    {
        self.sizes.keys as u32
    }

    /// Each of the two desks has then seen what either had. It takes no memory and does not wait.
    pub fn meet(&self, one: &mut Desk, other: &mut Desk)
        requires one { one.old.directory ≡ self.now }
        requires other { other.old.directory ≡ self.now }
        ensures desks { IsSameDesk one.old one.new × IsSameDesk other.old other.new }
        ensures one { Learns one.old one.new other.old.seen }
        ensures other { Learns other.old other.new one.old.seen }
    {
        self.tell(one, other);
        self.tell(other, one);
    }

    // What the first desk has seen, the second has then seen too.
    fn tell(&self, from: &mut Desk, to: &mut Desk)
        requires from { from.old.directory ≡ self.now }
        requires to { to.old.directory ≡ self.now }
        ensures from { from.new ≡ from.old }
        ensures desk { IsSameDesk to.old to.new }
        ensures to { Learns to.old to.new from.old.seen }
    {
        let words = &self.table.shared;
        let note = words.split_seat::<Shows>(&mut from.seat);
        words.join_seat::<Shows>(&mut to.seat, note);
        look(words, &mut to.seat, NO_PLACE);
    }
}
