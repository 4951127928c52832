//! A handle of a program, and what it does with calls.
ghost use Rattle.std.specs.Prelude.{◌≡◌, ◌≢◌, ◌↔◌, ◌⊎◌, ◌%◌, ◌/◌, ◌<◌, ◌≤◌, ℕ, true, false, length, IfOk};
ghost use Rattle.std.specs.Prelude.{OnErr, ◌+◌};
ghost use Rattle.std.specs.Bool.{OnTrue, OnFalse};
ghost use Rattle.sf_c_calls.specs.declared.session.Answered.TheVariants.{Wrong};
ghost use Rattle.sf_keyed.specs.declared.group.Refusal.TheVariants.{NoCell};
ghost use Rattle.sf_c_calls.specs.declared.session.Settling.TheVariants as settling;
ghost use Rattle.sf_c_calls.specs.declared.session.Looking.TheVariants as looking;
ghost use Rattle.sf_c_calls.specs.declared.session.Leaving.TheVariants as leaving;
ghost use Rattle.sf_keyed_chain.specs.Went.{HasForgotten, HasForgottenCall, IsCurrent, IsNotCurrent};
ghost use Rattle.sf_keyed_words.specs.Rule.{number};
ghost use Rattle.sf_keyed_chain.specs.Chains.{AllGoOn, AllHeard, IsGoneBefore, IsOf};
ghost use Rattle.sf_c_calls.specs.Rows.{HasAnswered, HasFound, HasLeftCall, HasLookedAt, HasMade, HasOpened, HasSearched, HasSettledCall, HasSpare, HasSplit, IsNameOf, IsOne, IsSame, IsSameCall, call_of, is_holder, is_idle, is_leader};

use crate::asking::{Asking, Token};
use crate::shared::Shared;
use sf_keyed::{Audience, Claim, Ended, Name, Names, Refusal};
use sf_keyed_chain::{ChainFront, Flight, Forgotten, KeyedChain, Reply, Settled, Stamp, Ticket};
use std::alloc::{AllocError, Global};
use std::marker::Model;
use std::mem::replace;
use std::sync::Arc;
use std::sync::atomic::AtomicU64;
use std::sync::atomic::Ordering::Relaxed;

// How many cells a handle looks at for a free one, before it says that there is none.
const CLAIMS: u32 = 64;

// How far apart the cells are where handles begin to look for free ones, so that threads do not share a line of memory.
const APART: u64 = 4;

/// Which call of the group: the number of its table, and its cell and generation there.
#[repr(C)]
#[derive(Clone, Copy)]
pub struct Id {
    /// The number of the table, from 0.
    pub table: u32,
    /// The cell, from 0.
    pub cell: u32,
    /// How many calls the cell has had with this one.
    pub generation: u64,
}

/// How an asking ended.
#[derive(Clone, Copy)]
pub enum Answered {
    /// The call leads the key's new call, whose value has this stamp unless a Forget closes it.
    Led(Id, Stamp),
    /// The call has joined the key's open one.
    Joined(Id),
    /// There is no room for a new call.
    Full,
    /// The key's open call has as many holders as can be counted.
    Crowded,
    /// In each try others were first.
    Busy,
    /// The call is not idle, or of another group.
    Wrong,
}

/// How a Settle ended.
#[derive(Clone, Copy)]
pub enum Settling {
    /// Nobody has joined the call, and no Forget has closed it: it is idle again.
    Alone,
    /// The value is told to whoever holds the call.
    Told(Audience),
    /// The call does not lead, or it is of another group.
    Wrong,
}

/// How a look at a call ended.
#[derive(Clone, Copy)]
pub enum Looking {
    /// It is settled with this.
    Settled(u64),
    /// It is not settled yet.
    Pending,
    /// The call holds none, or it is of another group.
    Wrong,
}

/// How a call was left.
#[derive(Clone, Copy)]
pub enum Leaving {
    /// It was settled with this, and has no holder any more.
    Last(u64),
    /// It is not settled, or it has other holders.
    Left,
    /// The call holds none, or it is of another group.
    Wrong,
}

/// How large a group is.
#[repr(C)]
#[derive(Clone, Copy)]
pub struct Size {
    /// How many tables the handle knows.
    pub tables: u64,
    /// How many of the first are passed over.
    pub passed: u64,
    /// How many calls can be open at a time in the last one.
    pub cells: u64,
}

/// A handle, with a share of its group.
#[derive(Drop)]
pub struct Session {
    pub(crate) group: Arc<Shared>,
    pub(crate) names: Names,
    pub(crate) front: ChainFront,
    cell: u64,
}

impl Model for Session {
    ghost use Rattle.sf_keyed_chain.specs.Chains.{IsOf};
    ghost use Rattle.sf_c_calls.specs.Rows.{SessionState};

    ghost Value = { SessionState };

    ghost view = { λ s. record { cells = s.group.value; names = s.names; sights = s.front } };

    ghost invariant = { λ s. IsOf s.group.value s.front };
}

// A check of the tests makes the proof that a handle may go to another thread only where something asks for it.
fn sendable<T: Send>(value: T) -> T
    ensures { result ≡ value }
{
    value
}

// Whether names have the same seeds.
fn are_same(left: Names, right: Names) -> bool
    ensures { result ≡ true ↔ left ≡ right }
{
    left.seed0 == right.seed0 && left.seed1 == right.seed1
}

// The key's name, as a number.
#[inline(always)]
fn name_of(names: Names, key: &[u8]) -> Name
    ensures { IsNameOf names key.now (number result) }
{
    names.of(key)
}

/// What the call of this number in this table is named by.
pub fn id_of(table: usize, call: u64) -> Id
    ensures table { result.table ≡ table % 4294967296 }
    ensures cell { result.cell ≡ call % 1048576 }
    ensures generation { result.generation ≡ call / 1048576 }
{
    Id {
        table: (table % 0x1_0000_0000) as u32,
        cell: (call % 0x10_0000) as u32,
        generation: call / 0x10_0000,
    }
}

// Takes a free cell of the last table that is known, among the next ones.
fn claim(chain: &KeyedChain, me: &mut ChainFront, cell: &mut u64) -> bool
    requires of { IsOf chain.now me.old }
    requires fits { cell.old < 18446744073709551616 }
    ensures of { IsOf chain.now me.new }
    ensures fits { cell.new < 18446744073709551616 }
    ensures on { AllGoOn me.old me.new }
    ensures ready { OnTrue result (HasSpare me.new) }
    ensures searched { OnFalse result (HasSearched 64 cell.old me.old me.new) }
{
    for _ in 0..CLAIMS {
        if chain.claim(me, *cell) == Claim::Ready {
            return true;
        }
        *cell = cell.wrapping_add(1);
    }
    false
}

// Whether there may be room now, where an asking was refused for this cause: a cell is claimed, or the next table is there, and known now.
#[inline(never)]
fn makes_room(chain: &KeyedChain, me: &mut ChainFront, cell: &mut u64, why: Refusal) -> bool
    requires of { IsOf chain.now me.old }
    requires fits { cell.old < 18446744073709551616 }
    ensures of { IsOf chain.now me.new }
    ensures fits { cell.new < 18446744073709551616 }
    ensures on { AllGoOn me.old me.new }
    ensures more { OnTrue result (((why ≡ NoCell) × HasSpare me.new) ⊎ (length me.old < length me.new)) }
    ensures none { OnFalse result (why ≡ NoCell → HasSearched 64 cell.old me.old me.new) }
{
    if why == Refusal::NoCell && claim(chain, me, cell) {
        return true;
    }
    if why == Refusal::NoCell || why == Refusal::Full {
        return chain.learn(me);
    }
    false
}

// Asks, and claims a cell first where the caller has none to spare. Where there is no room, it asks again in the next table, if that is there.
fn ask(chain: &KeyedChain, me: &mut ChainFront, cell: &mut u64, name: Name, tries: u32) -> Reply
    requires of { IsOf chain.now me.old }
    requires fits { cell.old < 18446744073709551616 }
    ensures of { IsOf chain.now me.new }
    ensures found { HasFound chain.now (number name) tries me.old me.new result }
{
    // In each table it may claim a cell, and then find that the slot has no room: so it ends.
    loop {
        match chain.ask(me, name, tries) {
            Reply::Led(flight, stamp) => return Reply::Led(flight, stamp),
            Reply::Joined(ticket) => return Reply::Joined(ticket),
            Reply::Refused(why) => {
                if !makes_room(chain, me, cell, why) {
                    return Reply::Refused(why);
                }
            }
        }
    }
}

// The number of the call that is named so, in its table.
fn call_in(id: Id) -> u64
    ensures { result ≡ call_of id }
{
    id.generation
        .wrapping_mul(0x10_0000)
        .wrapping_add(id.cell as u64)
}

impl Session {
    /// The first handle of a new group, for so many open calls, from 1 to 1,048,576, under seeds that are to be drawn at random and kept secret. Refused where
    /// there is no memory.
    pub fn open(alloc: Global, cells: u64, seed0: u64, seed1: u64) -> Result<Session, AllocError>
        requires cells { (0 < cells) × (cells ≤ 1048576) }
        ensures { IfOk result (HasOpened seed0 seed1) }
    {
        let chain = KeyedChain::new(alloc, cells, seed0, seed1)?;
        let group = Arc::new(
            alloc,
            Shared {
                chain,
                dealt: AtomicU64::new(1),
            },
        )?;
        let front = group.chain.caller(alloc, 0)?;
        Ok(sendable(Session {
            group,
            names: Names { seed0, seed1 },
            front,
            cell: 0,
        }))
    }

    /// Another handle of the group, which has seen nothing yet. Refused where there is no memory.
    pub fn split(&mut self, alloc: Global) -> Result<Session, AllocError>
        ensures same { self.new ≡ self.old }
        ensures made { IfOk result (HasSplit self.old) }
    {
        let group = Arc::try_clone(&self.group)?;
        let number = group.dealt.fetch_add(1, Relaxed);
        let front = group.chain.caller(alloc, number)?;
        Ok(Session {
            group,
            names: self.names,
            front,
            cell: number.wrapping_mul(APART),
        })
    }

    /// A call of the group, which is idle. Refused where there is no memory.
    pub fn make(&mut self) -> Result<Asking, AllocError>
        ensures same { self.new ≡ self.old }
        ensures made { IfOk result (HasMade self.old) }
    {
        let group = Arc::try_clone(&self.group)?;
        Ok(sendable(Asking {
            group,
            names: self.names,
            token: Token::Idle,
        }))
    }

    /// Asks for the key, by an idle call of the group. Each table is tried so often.
    pub fn ask(&mut self, asking: &mut Asking, key: &[u8], tries: u32) -> Answered
        requires group { IsOne self.old asking.old }
        ensures same { IsSame self.old self.new × IsSameCall asking.old asking.new }
        ensures answered { (k : ℕ) × IsNameOf self.old.names key.now k × HasAnswered self.old self.new k tries asking.old.token asking.new.token result }
        ensures wrong { result ≡ Wrong ↔ ((self.old.names ≢ asking.old.names) ⊎ (is_idle asking.old.token ≡ false)) }
    {
        let name = name_of(self.names, key);
        if !are_same(self.names, asking.names) || !asking.is_idle() {
            return Answered::Wrong;
        }
        match ask(
            &self.group.chain,
            &mut self.front,
            &mut self.cell,
            name,
            tries,
        ) {
            Reply::Led(flight, stamp) => {
                let id = id_of(flight.table(), flight.call());
                asking.token = Token::Leads(flight);
                Answered::Led(id, stamp)
            }
            Reply::Joined(ticket) => {
                let id = id_of(ticket.table(), ticket.call());
                asking.token = Token::Holds(ticket);
                Answered::Joined(id)
            }
            Reply::Refused(Refusal::Full) => Answered::Full,
            Reply::Refused(Refusal::NoCell) => Answered::Full,
            Reply::Refused(Refusal::Crowded) => Answered::Crowded,
            Reply::Refused(Refusal::Busy) => Answered::Busy,
            Reply::Refused(Refusal::Sealed) => Answered::Busy,
        }
    }

    /// Settles the call that is led with the value, for good.
    pub fn settle(&mut self, asking: &mut Asking, value: u64) -> Settling
        requires group { IsOne self.old asking.old }
        ensures same { IsSame self.old self.new × IsSameCall asking.old asking.new }
        ensures settled { HasSettledCall self.old self.new value asking.old.token asking.new.token result }
        ensures wrong { result ≡ settling.Wrong ↔ ((self.old.names ≢ asking.old.names) ⊎ (is_leader asking.old.token ≡ false)) }
    {
        if !are_same(self.names, asking.names) {
            return Settling::Wrong;
        }
        match replace(&mut asking.token, Token::Idle) {
            Token::Idle => Settling::Wrong,
            Token::Leads(flight) => match self.group.chain.settle(&mut self.front, flight, value) {
                Settled::Alone => Settling::Alone,
                Settled::Told(ticket, audience) => {
                    // A handle that has a cell to spare already settles so where nobody has joined.
                    if !audience.joined && !audience.forgotten {
                        self.group.chain.leave(&mut self.front, ticket);
                        return Settling::Alone;
                    }
                    asking.token = Token::Holds(ticket);
                    Settling::Told(Audience {
                        holders: audience.holders,
                        joined: audience.joined,
                        forgotten: audience.forgotten,
                    })
                }
            },
            Token::Holds(ticket) => {
                asking.token = Token::Holds(ticket);
                Settling::Wrong
            }
        }
    }

    /// What the call that is held is settled with. It is held still.
    pub fn look(&mut self, asking: &mut Asking) -> Looking
        requires group { IsOne self.old asking.old }
        ensures same { IsSame self.old self.new × (asking.new ≡ asking.old) }
        ensures looked { HasLookedAt self.old self.new asking.old.token result }
        ensures wrong { result ≡ looking.Wrong ↔ ((self.old.names ≢ asking.old.names) ⊎ (is_holder asking.old.token ≡ false)) }
    {
        if !are_same(self.names, asking.names) {
            return Looking::Wrong;
        }
        match replace(&mut asking.token, Token::Idle) {
            Token::Idle => Looking::Wrong,
            Token::Leads(flight) => {
                asking.token = Token::Leads(flight);
                Looking::Wrong
            }
            Token::Holds(ticket) => {
                let (value, ticket) = self.group.chain.look(&mut self.front, ticket);
                asking.token = Token::Holds(ticket);
                match value {
                    Some(value) => Looking::Settled(value),
                    None => Looking::Pending,
                }
            }
        }
    }

    /// Leaves the call that is held, settled or not: the call is idle then.
    pub fn leave(&mut self, asking: &mut Asking) -> Leaving
        requires group { IsOne self.old asking.old }
        ensures same { IsSame self.old self.new × IsSameCall asking.old asking.new }
        ensures left { HasLeftCall self.old self.new asking.old.token asking.new.token result }
        ensures wrong { result ≡ leaving.Wrong ↔ ((self.old.names ≢ asking.old.names) ⊎ (is_holder asking.old.token ≡ false)) }
    {
        if !are_same(self.names, asking.names) {
            return Leaving::Wrong;
        }
        match replace(&mut asking.token, Token::Idle) {
            Token::Idle => Leaving::Wrong,
            Token::Leads(flight) => {
                asking.token = Token::Leads(flight);
                Leaving::Wrong
            }
            Token::Holds(ticket) => match self.group.chain.leave(&mut self.front, ticket) {
                Some(value) => Leaving::Last(value),
                None => Leaving::Left,
            },
        }
    }

    /// Forgets the key. Each table is tried so often.
    pub fn forget(&mut self, key: &[u8], tries: u32) -> Forgotten
        ensures same { IsSame self.old self.new }
        ensures forgotten { (k : ℕ) × IsNameOf self.old.names key.now k × HasForgotten k tries self.old.sights self.new.sights result }
    {
        let name = name_of(self.names, key);
        self.group.chain.forget(&mut self.front, name, tries)
    }

    /// Forgets one call of the key, and the value with this stamp. Each table is tried so often.
    pub fn forget_call(&mut self, key: &[u8], id: Id, stamp: Stamp, tries: u32) -> Ended
        ensures same { IsSame self.old self.new }
        ensures ended { (k : ℕ) × IsNameOf self.old.names key.now k × HasForgottenCall k (call_of id) stamp tries self.old.sights self.new.sights result }
    {
        let name = name_of(self.names, key);
        self.group
            .chain
            .forget_call(&mut self.front, name, call_in(id), stamp, tries)
    }

    /// Whether no Forget has ended what has the stamp.
    pub fn is_still(&mut self, stamp: Stamp) -> bool
        ensures same { IsSame self.old self.new × AllHeard self.old.sights self.new.sights }
        ensures still { OnTrue result (IsCurrent stamp self.new.sights) }
        ensures over { OnFalse result (IsNotCurrent stamp self.new.sights) }
    {
        self.group.chain.is_still(&mut self.front, stamp)
    }

    /// Makes the table behind the last one that the handle knows, if nobody has, and knows it then. None is made where there are 24. Refused where there is
    /// no memory.
    pub fn grow(&mut self, alloc: Global) -> Result<bool, AllocError>
        ensures same { IsSame self.old self.new × AllHeard self.old.sights self.new.sights }
        ensures more { IfOk result (λ made. OnTrue made (length self.new.sights ≡ length self.old.sights + 1) × OnFalse made ((self.new ≡ self.old) × (length self.old.sights ≡ length self.old.cells))) }
        ensures refused { OnErr result (self.new ≡ self.old) }
    {
        self.group.chain.grow(alloc, &mut self.front)
    }

    /// How large the group is, as far as the handle knows.
    pub fn size(&self) -> Size
        ensures tables { result.tables ≡ length self.now.sights }
        ensures passed { (k : ℕ) → IsGoneBefore k result.passed self.now.sights }
        ensures cells { (0 < result.cells) × (result.cells ≤ 1048576) }
    {
        let tables = self.front.tables();
        Size {
            tables: tables as u64,
            passed: self.front.passed() as u64,
            cells: self.group.chain.cells_at(tables - 1),
        }
    }
}
