//! The group: how it is made, and how large it is.
ghost use Rattle.std.specs.Prelude.{◌≡◌, ◌+◌, ◌≤◌, ◌↔◌, [], IfOk, IfErr, IsTrue};
ghost use Rattle.std.specs.List.{All, range_with_len};
ghost use Rattle.sf_group_rows.specs.Same.{IsPlaceOf};
ghost use Rattle.sf_group_rows.specs.Making.{IsNewCaller, new_caller, numbers_of};
ghost use Rattle.sf_group_steps.specs.Stands.{IsSeatOf};
ghost use Rattle.sf_group.specs.Dealing.{IsDealing};

use crate::tokens::{Caller, Seated};
use atomic_table::Table;
use sf_group_rows::{Fit, MOST_CALLERS, MOST_PLACES, Sizes};
use sf_group_steps::{Deals, Law, Resting, View, WordSeat, Words, word_count};
use sf_steps_laws::Letter as Cell;
use std::alloc::{AllocError, Global};
use std::marker::Model;

/// The most tries of a bounded call.
pub const MOST_TRIES: u32 = 65_536;

/// Callers that ask for places, over words and without a lock.
///
/// The words lie in one table. Its rule, which holds between any two steps of any callers, says that some schedule of
/// turns shows the words, and that each token knows a beginning of it, with all turns of its own caller.
#[derive(Drop)]
pub struct Group<V: Fit> {
    pub(crate) table: Table<Option<Cell<V>>, View<V>, Sizes, Law, Global>,
    pub(crate) sizes: Sizes,
    pub(crate) resting: Resting,
}

impl<V: Fit> Model for Group<V> {
    ghost use Rattle.sf_group_rows.specs.declared.limits.TheConstants.{MOST_CALLERS};
    ghost use Rattle.std.specs.Prelude.{◌≡◌, ◌+◌, ◌≤◌};
    ghost use Rattle.sf_group_steps.specs.Words.{words_in};
    ghost use Rattle.sf_group_rows.specs.Tokens.{GroupValue};

    ghost Value = { GroupValue };

    ghost view = { λ g. record { table = g.table.shared.table_id; sizes = g.sizes } };

    ghost invariant = { λ g. (g.sizes ≡ g.table.shared.key)
        × (g.table.shared.table_id.words ≡ words_in g.table.shared.key)
        × (g.sizes.callers ≤ MOST_CALLERS)
        × (1 ≤ g.sizes.first) × (g.table.shared.table_id.slots ≡ g.table.shared.key.callers + 1) };
}

// The next caller, from the seat that stands for those that are not dealt out yet.
fn deal<V: Fit>(words: &Words<V>, first: &mut WordSeat<V>, number: u32, next: u64) -> Caller<V>
    requires own { IsSeatOf first.old.table_id words.now.table_id words.now.key }
    requires first { IsDealing number words.now.key first.old.me.0 × (first.old.me.1 ≡ []) }
    requires number { (1 ≤ number) × (number ≤ words.now.key.callers) }
    requires next { next ≡ words.now.key.first }
    ensures own { first.new.table_id ≡ first.old.table_id }
    ensures first { IsDealing (number + 1) words.now.key first.new.me.0 × (first.new.me.1 ≡ []) }
    ensures caller { result
        ≡ new_caller (record { table = words.now.table_id; sizes = words.now.key }) number }
{
    let seat = words.split_seat::<Deals>(first);
    let seated = Seated {
        seat,
        number: number as u64,
        next,
    };
    Caller { seated }
}

impl<V: Fit> Group<V> {
    /// A group of this many places (1 to 134,217,728), and its callers (1 to 65,535), numbered from 1, with this first
    /// generation. All room that its calls need is taken here. Refused where there is no memory.
    pub fn new(
        alloc: Global,
        places: u32,
        callers: u32,
        first_generation: u32,
    ) -> Result<(Group<V>, Vec<Caller<V>>), AllocError>
        requires places { (1 ≤ places) × (places ≤ MOST_PLACES) }
        requires callers { (1 ≤ callers) × (callers ≤ MOST_CALLERS) }
        requires first_generation { 1 ≤ first_generation }
        ensures sizes { IfOk result (λ made.
            made.0.sizes ≡ record {
              places = places;
              callers = callers;
              first = first_generation;
            }) }
        ensures callers { IfOk result (λ made. All (IsNewCaller made.0) made.1.items) }
        ensures numbers { IfOk result (λ made. numbers_of made.1.items ≡ range_with_len 1 callers) }
    {
        let sizes = Sizes {
            places,
            callers,
            first: first_generation,
        };
        let mut list = Vec::with_capacity(alloc, callers as usize)?;
        let zeros = Vec::from_elem(alloc, 0u64, word_count(sizes))?;
        let (table, mut first) = Table::<Option<Cell<V>>, View<V>, Sizes, Law, Global>::vacant(
            alloc,
            zeros.as_slice(),
            callers as usize + 1,
            &sizes,
        )?;
        for index in 0..callers {
            list.push(deal(
                &table.shared,
                &mut first,
                index + 1,
                first_generation as u64,
            ))?;
        }
        Ok((
            Group {
                table,
                sizes,
                resting: Resting::new(),
            },
            list,
        ))
    }

    /// Whether the group has a place of this number.
    pub fn has(&self, place: u32) -> bool
        ensures { IsTrue result ↔ IsPlaceOf self.now place }
    {
        1 <= place && place <= self.sizes.places
    }

    /// How many places it has, from 1 to 134,217,728.
    pub fn places(&self) -> u32
        ensures { result ≡ self.now.sizes.places }
    {
        self.sizes.places
    }
}
