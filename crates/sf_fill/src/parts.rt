//! What a fill is made of, and how it is made.
ghost use Rattle.std.specs.Prelude.{◌≡◌, ◌≤◌, [], All, IfOk, IfErr, vec_len, vec_capacity};
ghost use Rattle.sf_group_rows.specs.Making.{IsNewCaller};
ghost use Rattle.sf_fill_caches.specs.Trimming.{no_entries, room_of};
ghost use Rattle.sf_words.specs.declared.limits.TheConstants.{LARGEST_PLACE, LARGEST_CALLER};
ghost use Rattle.sf_fill_keys.specs.Spaces.{AreDesksOf, places_in, space_of};
ghost use Rattle.sf_fill_counters.specs.Ledgers.{nothing_counted};
ghost use Rattle.sf_fill_store.specs.Logs.{empty_log};
ghost use Rattle.sf_fill.specs.Made.{AreOfGroup, AreParts, new_getters};
ghost use Rattle.sf_fill_counters.specs.Totals.{names_of};

use crate::chair::Chair;
use crate::fill::Fill;
use crate::getter::Getter;
use crate::keeps::Keeps;
use crate::seat::Seat;
use sf_fill_counters::{Accounts, AllParts, Ledgers, Naming};
use sf_fill_keys::{KeyDesk, KeySpace};
use sf_fill_near::Near;
use sf_fill_store::{Log, Store};
use sf_fill_values::{CachedLetters, FillValue};
use sf_group::{Caller, Group, Memory};
use sf_loaders::Origin;
use std::alloc::Global;

/// What a fill is made of, which comes back where memory is refused.
#[derive(Drop)]
pub struct FillParts<'d, D: Naming, O: Origin, L> {
    /// Look keys up, one a getter.
    pub desks: Vec<KeyDesk>,
    /// The group whose letters are kept.
    pub group: Group<FillValue<'d, D, O>>,
    /// Ask the group, one a getter.
    pub callers: Vec<Caller<FillValue<'d, D, O>>>,
    /// What getters ask for values, a set a getter.
    pub loaders: Vec<L>,
    /// One a counter.
    pub ledgers: Ledgers,
}

/// What a fill was to be made of, which comes back where memory for the rest of its parts is refused.
#[derive(Drop)]
pub struct RefusedParts<L> {
    /// Look keys up, one a getter.
    pub desks: Vec<KeyDesk>,
    /// What getters ask for values, a set a getter.
    pub loaders: Vec<L>,
}

// All memory that a fill takes when it is made.
struct Rooms<'d, D: Naming, N: Naming, O: Origin, L> {
    kept: CachedLetters<'d, D, N, O>,
    getters: Vec<Getter<'d, D, N, O, L>>,
    logs: Vec<Log>,
}

// Empty logs, each with room for so many events.
fn logs_with_room(alloc: Global, count: usize, room: usize) -> Result<Vec<Log>, Memory>
    ensures count { IfOk result (λ logs. vec_len logs ≡ count) }
    ensures empty { IfOk result (λ logs. All (λ log. log ≡ empty_log room) logs.items) }
{
    let mut logs = Vec::with_capacity(alloc, count)?;
    for index in 0..count {
        // Named for the loop's invariant alone.
        let _ = index;
        logs.push(Log::with_room(alloc, room)?)?;
    }
    Ok(logs)
}

// Takes all memory that a fill needs.
fn reserve<'d, D: Naming, N: Naming, O: Origin, L>(
    alloc: Global,
    limit: i64,
    places: u32,
    getters: usize,
    log: usize,
) -> Result<Rooms<'d, D, N, O, L>, Memory>
    requires limit { limit ≡ N.limit }
    requires places { (1 ≤ places) × (places ≡ N.group.sizes.places) }
    ensures getters { IfOk result (λ r.
        (r.getters.items ≡ []) × (getters ≤ vec_capacity r.getters)) }
    ensures kept { IfOk result (λ r. r.kept ≡ no_entries (room_of limit) places) }
    ensures logs { IfOk result (λ r. (vec_len r.logs ≡ getters)
        × All (λ empty. empty ≡ empty_log log) r.logs.items) }
{
    let kept = CachedLetters::new(alloc, limit, places)?;
    let logs = logs_with_room(alloc, getters, log)?;
    let Ok(list) = Vec::with_capacity(alloc, getters) else {
        return Err(Memory);
    };
    Ok(Rooms {
        kept,
        getters: list,
        logs,
    })
}

// The getters of these desks, callers and loaders, in their order, each with a log, with near letters within the sizes, and with its
// part of what all count. They are put into the list, which has room for them.
fn getters_of<'d, D: Naming, N: Naming, O: Origin, L: Drop>(
    alloc: Global,
    sizes: Keeps,
    desks: Vec<KeyDesk>,
    callers: Vec<Caller<FillValue<'d, D, O>>>,
    loaders: Vec<L>,
    logs: Vec<Log>,
    all: AllParts<N>,
    list: Vec<Getter<'d, D, N, O, L>>,
) -> Vec<Getter<'d, D, N, O, L>>
    requires desks { (vec_len desks ≡ N.getters) × AreDesksOf N.space desks.items }
    requires callers { (vec_len callers ≡ N.getters) × AreOfGroup N.group callers.items }
    requires loaders { vec_len loaders ≡ N.getters }
    requires logs { (vec_len logs ≡ N.getters)
        × All (λ log. log ≡ empty_log sizes.log) logs.items }
    requires all { (all.parts ≡ N.getters) × (all.counted ≡ nothing_counted) }
    requires list { (list.items ≡ []) × (N.getters ≤ vec_capacity list) }
    ensures made { result.items
        ≡ new_getters sizes.log desks.items callers.entry.items loaders.items }
    ensures count { vec_len result ≡ N.getters }
{
    let mut desks = desks;
    let mut callers = callers;
    let mut loaders = loaders;
    let mut logs = logs;
    let mut all = all;
    let mut getters = list;
    'deal: while let Some(desk) = desks.pop() {
        let Some(caller) = callers.pop() else {
            unreachable!()
        };
        let Some(loaders) = loaders.pop() else {
            unreachable!()
        };
        let Some(log) = logs.pop() else {
            unreachable!()
        };
        let seat = Seat {
            desk,
            chair: Chair::Free(caller),
            tallies: all.deal(),
            log,
            near: Near::new(alloc, sizes.near, sizes.near_limit),
        };
        getters.push_reserved(Getter { seat, loaders });
    }
    getters.reverse();
    getters
}

impl<'d, D: Naming, O: Origin, L: Drop> FillParts<'d, D, O, L> {
    /// The parts of a fill over the key space, which has at most 1,048,576 places, with a getter for each set of loaders, 1 to
    /// 65,535: a group whose callers' first generation is this one, from 1 on, and its ledgers. Where memory is refused, desks and
    /// loaders come back.
    pub fn new(
        alloc: Global,
        space: KeySpace<'d>,
        desks: Vec<KeyDesk>,
        loaders: Vec<L>,
        first_generation: u32,
    ) -> Result<Self, RefusedParts<L>>
        requires space { space_of space ≡ D.space }
        requires places { places_in D.space ≤ LARGEST_PLACE }
        requires getters { (1 ≤ vec_len loaders) × (vec_len loaders ≤ LARGEST_CALLER) }
        requires desks { (vec_len desks ≡ vec_len loaders) × AreDesksOf D.space desks.items }
        requires first_generation { 1 ≤ first_generation }
        ensures parts { IfOk result (λ parts.
            AreParts D.space parts.group (vec_len loaders) (names_of parts.ledgers) parts) }
        ensures callers { IfOk result (λ parts. All (IsNewCaller parts.group) parts.callers.items) }
        ensures given { IfOk result (λ parts. (parts.desks ≡ desks) × (parts.loaders ≡ loaders)) }
        ensures refused { IfErr result (λ back. (back.desks ≡ desks) × (back.loaders ≡ loaders)) }
    {
        let getters = loaders.len() as u32;
        let places = space.place_count();
        let made = Group::<FillValue<'d, D, O>>::new(alloc, places, getters, first_generation);
        let Ok((group, callers)) = made else {
            return Err(RefusedParts { desks, loaders });
        };
        Ok(FillParts {
            desks,
            group,
            callers,
            loaders,
            ledgers: Ledgers::new(getters as u64),
        })
    }
}

impl<'d, D: Naming, N: Naming, O: Origin> Fill<'d, D, N, O> {
    /// A fill of the key space and the group, which have as many places, at most 1,048,576, and its getters, one for each desk, caller and set
    /// of loaders, 1 to 65,535. Caches, logs and the letters that getters keep near are within the sizes. Where memory is refused,
    /// all comes back.
    pub fn new<L: Drop>(
        alloc: Global,
        space: KeySpace<'d>,
        parts: FillParts<'d, D, O, L>,
        sizes: Keeps,
    ) -> Result<(Fill<'d, D, N, O>, Vec<Getter<'d, D, N, O, L>>), FillParts<'d, D, O, L>>
        requires space { (space_of space ≡ N.space) × (D.space ≡ N.space) }
        requires parts { AreParts N.space N.group N.getters N.ledgers parts }
        requires limit { sizes.limit ≡ N.limit }
        ensures made { IfOk result (λ made.
            (made.0 ≡ N.group) × (made.1.items
            ≡ new_getters sizes.log parts.entry.desks.items parts.entry.callers.items
            parts.entry.loaders.items)) }
        ensures count { IfOk result (λ made. vec_len made.1 ≡ N.getters) }
        ensures refused { IfErr result (λ back. back ≡ parts.entry) }
    {
        let FillParts {
            desks,
            group,
            callers,
            loaders,
            ledgers,
        } = parts;
        let count = desks.len();
        let Ok(rooms) = reserve(alloc, sizes.limit, space.place_count(), count, sizes.log) else {
            return Err(FillParts {
                desks,
                group,
                callers,
                loaders,
                ledgers,
            });
        };
        let Rooms {
            kept,
            getters: list,
            logs,
        } = rooms;
        let (accounts, all) = Accounts::open(ledgers, count as u64);
        let getters = getters_of(alloc, sizes, desks, callers, loaders, logs, all, list);
        let fill = Fill {
            space,
            store: Store::new(group, kept, sizes.limit, accounts),
            alloc,
        };
        Ok((fill, getters))
    }
}
