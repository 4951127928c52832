//! The chain, and calls on it.
//!
//! A caller that leads in a table has first looked at the name's hash slot in each older one: it joins the open call that it finds there, or seals the
//! slot, after which the name has no call there any more. An exchange that leads fails at a sealed slot. So no name has open calls in two tables,
//! and no call is given up while a chain grows. A caller goes by the last table that it knows, and looks for the next one where its slot there is
//! sealed. Each asking sweeps some slots of the first older table too: a table whose slots are all sealed, with no open call, is passed over.
//! A Forget goes the same way, up to the first slot that is not sealed, and ends in each of those tables what was stamped there.
ghost use Rattle.std.specs.Prelude.{◌≡◌, ◌≢◌, ◌+◌, ◌%◌, ◌/◌, ◌<◌, ◌≤◌, ℕ, length, ◌++◌, ◌∷◌, [], Some, true, IsSome, IsSomeAnd, IfOk, IfErr, OnErr};
ghost use Rattle.std.specs.Bool.{OnTrue, OnFalse};
ghost use Rattle.std.specs.List.{slice_get};
ghost use Rattle.sf_keyed_words.specs.Rule.{number};
ghost use Rattle.sf_keyed.specs.declared.group.Forgotten.TheVariants.{Busy};
ghost use Rattle.sf_keyed.specs.Calls.{IsAsked, IsClaimed, IsForgotten, IsLooked, IsPassed, IsSettled};
ghost use Rattle.sf_keyed_chain.specs.Chains.{Sight, IsOf, AllHeard, Called, CalledBy, IsEndedIn, IsGoneBefore, IsStampOf, IsTokenOf};
ghost use Rattle.sf_keyed_chain.specs.Notes.{HasHeard, HasLearned, IsNoteOf, IsToldOf, told_of};
ghost use Rattle.sf_keyed_chain.specs.Went.{HasClaimed, HasEnded, HasForgotten, HasForgottenCall, HasLeft, HasLooked, HasReplied, HasSettled, HasShut, HasStepped, IsCurrent, IsNotCurrent};

use crate::front::{ChainFront, ChainNote, Part, Told};
use crate::level::Level;
use crate::sizes::{larger, sizes_of};
use once_cell::race::{Note, OnceBox};
use sf_keyed::{Asked, Audience, Claim, Ended, Name, Passed, Refusal};
use std::alloc::{AllocError, Global};
use std::marker::Model;

/// How many tables a chain may have.
pub const LEVELS: usize = 24;

// How many hash slots of an older table each asking sweeps.
const SWEEP: u32 = 16;

/// A call that is led, in the table of this number. Where it is dropped, the call stays open until a Forget.
#[derive(Drop)]
pub struct Flight {
    table: usize,
    note: Note<Level>,
    flight: sf_keyed::Flight,
}

impl Model for Flight {
    ghost use Rattle.std.specs.Prelude.{◌≡◌, IsSomeAnd};
    ghost use Rattle.sf_keyed_chain.specs.Chains.{TokenState};

    ghost Value = { TokenState };

    ghost view = { λ f. record { table = f.table; cell = f.note.cell; call = f.flight } };

    ghost invariant = { λ f. IsSomeAnd f.note.known (λ l. l.group ≡ f.flight.group) };
}

/// A call that is held, in the table of this number. Where it is dropped, the call's cell is lost.
#[derive(Drop)]
pub struct Ticket {
    table: usize,
    note: Note<Level>,
    ticket: sf_keyed::Ticket,
}

impl Model for Ticket {
    ghost use Rattle.std.specs.Prelude.{◌≡◌, IsSomeAnd};
    ghost use Rattle.sf_keyed_chain.specs.Chains.{TokenState};

    ghost Value = { TokenState };

    ghost view = { λ t. record { table = t.table; cell = t.note.cell; call = t.ticket } };

    ghost invariant = { λ t. IsSomeAnd t.note.known (λ l. l.group ≡ t.ticket.group) };
}

impl Flight {
    /// The number of the call's table, from 0.
    pub fn table(&self) -> usize
        ensures { result ≡ self.now.table }
    {
        self.table
    }

    /// The call's number in its table: its cell in the lower 20 bits, and above it the cell's generation.
    pub fn call(&self) -> u64
        ensures { result ≡ self.now.call.call }
    {
        self.flight.call()
    }
}

impl Ticket {
    /// The number of the call's table, from 0.
    pub fn table(&self) -> usize
        ensures { result ≡ self.now.table }
    {
        self.table
    }

    /// The call's number in its table: its cell in the lower 20 bits, and above it the cell's generation.
    pub fn call(&self) -> u64
        ensures { result ≡ self.now.call.call }
    {
        self.ticket.call()
    }
}

/// Says of a value whether a Forget of its key has ended it since: the table where its call was led, the hash slot of its name there, and the age
/// that the slot had before. Each Forget of a name of that slot makes the slot older.
#[repr(C)]
#[derive(Clone, Copy, Debug, PartialEq, Eq)]
pub struct Stamp {
    /// The number of the table, from 0.
    pub table: usize,
    /// The hash slot, from 0.
    pub slot: u64,
    /// How many Forgets had ended at the slot.
    pub age: u64,
}

/// How an asking ended.
#[derive(Drop)]
pub enum Reply {
    /// A new call of the name is led. Its value has the stamp, unless a Forget closes the call.
    Led(Flight, Stamp),
    /// The name's open call is joined.
    Joined(Ticket),
    /// Neither, and no call was changed. `Sealed` means that the chain has grown, and that its next table is not there yet: it never is so,
    /// since a caller that seals a slot knows the next table.
    Refused(Refusal),
}

/// How a Settle ended.
#[derive(Drop)]
pub enum Settled {
    /// Nobody has joined the call, and no Forget has closed it: nobody is told the value, and the caller has the cell to spare.
    Alone,
    /// The value is told to whoever holds the call.
    Told(Ticket, Audience),
}

/// How a Forget ended.
#[derive(Clone, Copy, Debug, PartialEq, Eq)]
pub enum Forgotten {
    /// It closed the name's open call: the number of its table, and its number there.
    Closed(usize, u64),
    /// At a moment during the call the name had no open call in the table of this number, where its slot was not sealed, and never has one
    /// again in those before it.
    Nothing(usize),
    /// The name has no open call in any table that is there, and never has one again there, and the next table is not there yet. It never is
    /// so, since a caller that seals a slot knows the next table.
    Behind,
    /// In each try at one table others changed a word between its load and the exchange, and no call was changed.
    Busy,
}

// What became of a Forget at one table.
#[derive(Clone, Copy)]
enum Shut {
    Closed(u64),
    Nothing,
    On,
    Behind,
    Busy,
}

// What became of an asking at one table.
#[derive(Drop)]
enum Step {
    Led(Flight, Stamp),
    Joined(Ticket),
    On(usize),
    Refused(Refusal),
}

/// A chain of tables, each of which is made at most once. Contracts see it as the names of the cells where they are published.
#[derive(Drop)]
pub struct KeyedChain {
    links: Vec<OnceBox<Level>>,
    cells: u64,
    low_seed: u64,
    high_seed: u64,
}

impl Model for KeyedChain {
    ghost use Rattle.std.specs.Prelude.{◌≡◌, ◌<◌, ◌≤◌, List, ℕ, map, length};
    ghost use Rattle.once_cell.specs.Once.{cell_name};

    ghost Value = { List ℕ };

    ghost view = { λ c. map cell_name c.links.items };

    ghost invariant = { λ c. (length c.links.items ≡ 24) × (0 < c.cells) × (c.cells ≤ 1048576) };
}

impl KeyedChain {
    // Whether the table behind the last one that the caller knows is there, of which this is a note. Then the caller knows it.
    fn know(&self, me: &mut ChainFront, note: Note<Level>) -> bool
        requires of { IsOf self.now me.old }
        requires room { length me.old < length self.now }
        requires note { slice_get self.now (length me.old) ≡ Some note.cell }
        ensures of { IsOf self.now me.new }
        ensures heard { AllHeard me.old me.new }
        ensures there { OnTrue result (length me.new ≡ length me.old + 1) }
        ensures none { OnFalse result ((me.new ≡ me.old) × (note.known ≡ None)) }
    {
        let mut note = note;
        let Some(level) = self.links[me.parts.len()].get_as(&mut note) else {
            return false;
        };
        let front = level.group.enter(me.number);
        match me.parts.push(Part::new(note, front, level.enter())) {
            Ok(()) => true,
            Err(_) => unreachable!(),
        }
    }

    /// Whether the table behind the last one that the caller knows is there. Then the caller knows it, and leads its calls there.
    #[inline(never)]
    pub fn learn(&self, me: &mut ChainFront) -> bool
        requires of { IsOf self.now me.old }
        ensures of { IsOf self.now me.new }
        ensures heard { AllHeard me.old me.new }
        ensures there { OnTrue result (length me.new ≡ length me.old + 1) }
        ensures none { OnFalse result (me.new ≡ me.old) }
    {
        let at = me.parts.len();
        if at >= self.links.len() {
            return false;
        }
        self.know(me, self.links[at].note())
    }

    // What the caller has seen of the table of this number, for another caller.
    fn tell_at(&self, me: &mut ChainFront, at: usize) -> Told
        requires of { IsOf self.now me.old }
        requires at { at < length me.old }
        ensures same { me.new ≡ me.old }
        ensures told { (s : Sight) → slice_get me.old at ≡ Some s → result ≡ told_of s }
    {
        me.parts[at].tell(&self.links[at])
    }

    /// What the caller has seen of the chain, for another caller: whatever happened before it was told, the other has seen once it has heard
    /// it. Refused where there is no memory.
    pub fn tell(&self, alloc: Global, me: &mut ChainFront) -> Result<ChainNote, AllocError>
        requires of { IsOf self.now me.old }
        ensures same { me.new ≡ me.old }
        ensures note { IfOk result (λ note. IsNoteOf me.old note) }
        ensures of { IfOk result (λ note. IsToldOf self.now note) }
    {
        let mut parts: Vec<Told> = Vec::with_capacity(alloc, LEVELS)?;
        for at in 0..me.parts.len() {
            parts.push(self.tell_at(me, at))?;
        }
        Ok(ChainNote { parts })
    }

    // Gets to know the table of this number, of which this is a note that knows it. The caller knows those before it.
    fn meet(&self, me: &mut ChainFront, at: usize, note: Note<Level>)
        requires of { IsOf self.now me.old }
        requires at { at ≤ length me.old }
        requires cell { slice_get self.now at ≡ Some note.cell }
        requires known { IsSome note.known }
        ensures of { IsOf self.now me.new }
        ensures heard { AllHeard me.old me.new }
        ensures known { at < length me.new }
    {
        if at >= me.parts.len() {
            self.know(me, note);
        }
    }

    // Hears what another caller had seen of the table of this number. The caller knows those before it.
    fn hear_at(&self, me: &mut ChainFront, at: usize, told: Told)
        requires of { IsOf self.now me.old }
        requires at { at ≤ length me.old }
        requires cell { slice_get self.now at ≡ Some told.cell }
        ensures of { IsOf self.now me.new }
        ensures heard { AllHeard me.old me.new }
        ensures known { at < length me.new }
        ensures told { (s : Sight) → slice_get me.new at ≡ Some s → HasHeard told s }
    {
        let mut told = told;
        let note = told.table_note();
        self.meet(me, at, note);
        me.parts[at].hear(&self.links[at], told);
    }

    /// Hears what another caller had seen, and has seen that too then: both are beginnings of one history of each table.
    pub fn hear(&self, me: &mut ChainFront, note: ChainNote)
        requires of { IsOf self.now me.old }
        requires note { IsToldOf self.now note }
        ensures of { IsOf self.now me.new }
        ensures heard { AllHeard me.old me.new }
        ensures learned { HasLearned note me.new }
    {
        let mut at: usize = 0;
        for told in note.parts {
            self.hear_at(me, at, told);
            at += 1;
        }
    }

    // Gets to know the table of this number, and those before it. It cannot fail for the table of a call, since tables are made one behind the
    // other.
    fn reach(&self, me: &mut ChainFront, table: usize)
        requires of { IsOf self.now me.old }
        ensures of { IsOf self.now me.new }
        ensures heard { AllHeard me.old me.new }
    {
        if me.parts.len() <= table {
            self.reach_on(me, table);
        }
    }

    // Gets to know tables that the caller has not looked at yet.
    #[inline(never)]
    fn reach_on(&self, me: &mut ChainFront, table: usize)
        requires of { IsOf self.now me.old }
        ensures of { IsOf self.now me.new }
        ensures heard { AllHeard me.old me.new }
    {
        for _ in 0..LEVELS {
            if me.parts.len() > table || !self.learn(me) {
                return;
            }
        }
    }

    /// A chain of one table, for so many calls that are open at a time, from 1 to 1,048,576, with seeds that are to be drawn at random and kept
    /// secret. Refused where there is no memory.
    pub fn new(
        alloc: Global,
        cells: u64,
        low_seed: u64,
        high_seed: u64,
    ) -> Result<KeyedChain, AllocError>
        requires cells { (0 < cells) × (cells ≤ 1048576) }
        ensures { IfOk result (λ chain. length chain ≡ 24) }
    {
        let mut links: Vec<OnceBox<Level>> = Vec::with_capacity(alloc, LEVELS)?;
        for _ in 0..LEVELS {
            links.push(OnceBox::new(alloc))?;
        }
        let first = Level::new(alloc, sizes_of(cells, low_seed, high_seed))?;
        // The cell is empty, so this cannot fail; and where it did, no caller could be made.
        let _set = links[0].set(Box::new(alloc, first)?);
        Ok(KeyedChain {
            links,
            cells,
            low_seed,
            high_seed,
        })
    }

    /// A caller that has seen nothing of the chain and knows its first table, whose Forgets are by this number. Refused where there is no
    /// memory: no other call of a caller takes any, but `grow` and `tell`.
    pub fn caller(&self, alloc: Global, number: u64) -> Result<ChainFront, AllocError>
        ensures { IfOk result (λ me. IsOf self.now me × (length me ≡ 1)) }
    {
        let parts: Vec<Part> = Vec::with_capacity(alloc, LEVELS)?;
        let mut note = self.links[0].note();
        let Some(level) = self.links[0].get_as(&mut note) else {
            // It is there since `new`.
            return Err(AllocError);
        };
        let front = level.group.enter(number);
        let mut me = ChainFront { number, parts };
        match me.parts.push(Part::new(note, front, level.enter())) {
            Ok(()) => Ok(me),
            Err(_) => unreachable!(),
        }
    }

    /// How many calls can be open at a time in the table of this number: in each table eight times as many as in the one before, and 1,048,576 at most.
    pub fn cells_at(&self, at: usize) -> u64
        ensures { (0 < result) × (result ≤ 1048576) }
    {
        let mut cells = self.cells;
        for _ in 0..at {
            cells = larger(cells);
        }
        cells
    }

    /// Makes the table behind the last one that the caller knows, if nobody has, and knows it then. Where two make it at once, one of the two
    /// is dropped. None is made where the caller knows 24, which is as many as a chain has. Refused where there is no memory; then nothing was
    /// changed.
    pub fn grow(&self, alloc: Global, me: &mut ChainFront) -> Result<bool, AllocError>
        requires of { IsOf self.now me.old }
        ensures of { IsOf self.now me.new }
        ensures heard { AllHeard me.old me.new }
        ensures more { IfOk result (λ made. OnTrue made (length me.new ≡ length me.old + 1) × OnFalse made ((me.new ≡ me.old) × (length me.old ≡ length self.now))) }
        ensures refused { OnErr result (me.new ≡ me.old) }
    {
        if self.learn(me) {
            return Ok(true);
        }
        let at = me.parts.len();
        if at >= self.links.len() {
            return Ok(false);
        }
        let sizes = sizes_of(self.cells_at(at), self.low_seed, self.high_seed);
        let next = Level::new(alloc, sizes)?;
        let mut note = self.links[at].note();
        let _set = self.links[at].set_as(Box::new(alloc, next)?, &mut note);
        Ok(self.know(me, note))
    }

    // Sweeps where there are older tables. Most groups have one table.
    fn sweep(&self, me: &mut ChainFront)
        requires of { IsOf self.now me.old }
        ensures of { IsOf self.now me.new }
        ensures heard { AllHeard me.old me.new }
        ensures known { length me.new ≡ length me.old }
    {
        if me.parts.len() > 1 {
            self.sweep_older(me);
        }
    }

    // Sweeps some slots of the first table that is not the last one and not swept whole.
    #[inline(never)]
    fn sweep_older(&self, me: &mut ChainFront)
        requires of { IsOf self.now me.old }
        ensures of { IsOf self.now me.new }
        ensures heard { AllHeard me.old me.new }
        ensures known { length me.new ≡ length me.old }
    {
        let at = me.passed();
        if at < me.parts.len() - 1 {
            me.parts[at].sweep(&self.links[at], SWEEP);
        }
    }

    // Passes the name by in the table of this number.
    fn pass_at(&self, me: &mut ChainFront, at: usize, name: Name, tries: u32) -> Passed
        requires of { IsOf self.now me.old }
        requires at { at < length me.old }
        ensures of { IsOf self.now me.new }
        ensures known { length me.new ≡ length me.old }
        ensures passed { Called (λ b a. IsPassed b a (number name) tries result) at me.old me.new }
    {
        me.parts[at].pass(&self.links[at], name, tries)
    }

    // Asks the table of this number.
    fn ask_at(&self, me: &mut ChainFront, at: usize, name: Name, tries: u32) -> (Asked, Stamp)
        requires of { IsOf self.now me.old }
        requires at { at < length me.old }
        ensures of { IsOf self.now me.new }
        ensures known { length me.new ≡ length me.old }
        ensures asked { Called (λ b a. IsAsked b a (number name) tries result.0) at me.old me.new }
        ensures table { result.1.table ≡ at }
        ensures stamped { IsStampOf (number name) at result.1.slot result.1.age me.old me.new }
    {
        let (asked, slot, age) = me.parts[at].ask(&self.links[at], name, tries);
        (
            asked,
            Stamp {
                table: at,
                slot,
                age,
            },
        )
    }

    // A call that is led in the table of this number.
    fn flight_at(&self, me: &mut ChainFront, at: usize, flight: sf_keyed::Flight) -> Flight
        requires of { IsOf self.now me.old }
        requires at { at < length me.old }
        requires own { (s : Sight) → slice_get me.old at ≡ Some s → flight.group ≡ s.front.group }
        ensures same { me.new ≡ me.old }
        ensures flight { (result.table ≡ at) × (result.call ≡ flight) × IsTokenOf self.now result }
    {
        let note = me.parts[at].table_note();
        Flight {
            table: at,
            note,
            flight,
        }
    }

    // A call that is held in the table of this number.
    fn ticket_at(&self, me: &mut ChainFront, at: usize, ticket: sf_keyed::Ticket) -> Ticket
        requires of { IsOf self.now me.old }
        requires at { at < length me.old }
        requires own { (s : Sight) → slice_get me.old at ≡ Some s → ticket.group ≡ s.front.group }
        ensures same { me.new ≡ me.old }
        ensures ticket { (result.table ≡ at) × (result.call ≡ ticket) × IsTokenOf self.now result }
    {
        let note = me.parts[at].table_note();
        Ticket {
            table: at,
            note,
            ticket,
        }
    }

    // Asks the table of this number, or passes it, and says where to go on.
    fn step(&self, me: &mut ChainFront, at: usize, name: Name, tries: u32) -> Step
        requires of { IsOf self.now me.old }
        requires at { at < length me.old }
        requires gone { IsGoneBefore (number name) at me.old }
        ensures of { IsOf self.now me.new }
        ensures stepped { HasStepped self.now (number name) at tries me.old me.new result }
    {
        if at < me.parts.len() - 1 {
            return self.step_on(me, at, name, tries);
        }
        let (asked, stamp) = self.ask_at(me, at, name, tries);
        match asked {
            Asked::Led(flight) => Step::Led(self.flight_at(me, at, flight), stamp),
            Asked::Joined(ticket) => Step::Joined(self.ticket_at(me, at, ticket)),
            Asked::Refused(Refusal::Sealed) => {
                if self.learn(me) {
                    Step::On(at)
                } else {
                    Step::Refused(Refusal::Sealed)
                }
            }
            Asked::Refused(why) => Step::Refused(why),
        }
    }

    // Passes the table of this number, and says where to go on.
    fn step_on(&self, me: &mut ChainFront, at: usize, name: Name, tries: u32) -> Step
        requires of { IsOf self.now me.old }
        requires at { at + 1 < length me.old }
        requires gone { IsGoneBefore (number name) at me.old }
        ensures of { IsOf self.now me.new }
        ensures stepped { HasStepped self.now (number name) at tries me.old me.new result }
    {
        if me.parts[at].is_done() {
            return Step::On(at + 1);
        }
        match self.pass_at(me, at, name, tries) {
            Passed::Joined(ticket) => Step::Joined(self.ticket_at(me, at, ticket)),
            Passed::Gone => Step::On(at + 1),
            Passed::Busy => Step::Refused(Refusal::Busy),
            Passed::Crowded => Step::Refused(Refusal::Crowded),
        }
    }

    /// Asks for the name: leads its new call in the last table that the caller knows, or joins its open call in any. In each table before that
    /// one the name's slot is sealed first, and the name has no open call there, and never has one again. Each table is tried so often.
    pub fn ask(&self, me: &mut ChainFront, name: Name, tries: u32) -> Reply
        requires of { IsOf self.now me.old }
        ensures of { IsOf self.now me.new }
        ensures replied { HasReplied self.now (number name) tries me.old me.new result }
    {
        self.sweep(me);
        let mut at: usize = 0;
        for _ in 0..2 * self.links.len() {
            match self.step(me, at, name, tries) {
                Step::Led(flight, stamp) => return Reply::Led(flight, stamp),
                Step::Joined(ticket) => return Reply::Joined(ticket),
                Step::On(to) => at = to,
                Step::Refused(why) => return Reply::Refused(why),
            }
        }
        unreachable!()
    }

    /// Takes a free cell for the next call that the caller leads in the last table that it knows, unless it has one to spare there: the cell of
    /// this number, counted from 0 and on from the last to the first.
    pub fn claim(&self, me: &mut ChainFront, cell: u64) -> Claim
        requires of { IsOf self.now me.old }
        ensures of { IsOf self.now me.new }
        ensures claimed { HasClaimed cell me.old me.new result }
    {
        let at = me.parts.len() - 1;
        me.parts[at].claim(&self.links[at], cell)
    }

    // Closes the name's open call in the table of this number, or finds that it has none there.
    fn forget_at(
        &self,
        me: &mut ChainFront,
        at: usize,
        name: Name,
        tries: u32,
    ) -> sf_keyed::Forgotten
        requires of { IsOf self.now me.old }
        requires at { at < length me.old }
        ensures of { IsOf self.now me.new }
        ensures known { length me.new ≡ length me.old }
        ensures forgotten { Called (λ b a. IsForgotten b a (number name) tries result) at me.old me.new }
        ensures ended { result ≢ Busy → IsEndedIn (number name) at me.old me.new }
    {
        me.parts[at].forget(&self.links[at], name, tries)
    }

    // Closes the name's open call in the table of this number, and says whether that was all.
    fn shut(&self, me: &mut ChainFront, at: usize, name: Name, tries: u32) -> Shut
        requires of { IsOf self.now me.old }
        requires at { at < length me.old }
        requires gone { IsGoneBefore (number name) at me.old }
        ensures of { IsOf self.now me.new }
        ensures shut { HasShut (number name) at tries me.old me.new result }
        ensures ended { HasEnded (number name) at me.old me.new result }
    {
        match self.forget_at(me, at, name, tries) {
            sf_keyed::Forgotten::Closed(call) => Shut::Closed(call),
            sf_keyed::Forgotten::Nothing => Shut::Nothing,
            sf_keyed::Forgotten::Gone => {
                if at < me.parts.len() - 1 {
                    return Shut::On;
                }
                if self.learn(me) {
                    Shut::On
                } else {
                    Shut::Behind
                }
            }
            sf_keyed::Forgotten::Busy => Shut::Busy,
        }
    }

    /// Forgets the name: closes its open call, in whichever table it is, or finds that it has none. It ends at the first table where the name's
    /// slot is not sealed: a caller that leads in a later table has sealed it first. Each table is tried so often.
    pub fn forget(&self, me: &mut ChainFront, name: Name, tries: u32) -> Forgotten
        requires of { IsOf self.now me.old }
        ensures of { IsOf self.now me.new }
        ensures forgotten { HasForgotten (number name) tries me.old me.new result }
    {
        for at in 0..self.links.len() {
            match self.shut(me, at, name, tries) {
                Shut::Closed(call) => return Forgotten::Closed(at, call),
                Shut::Nothing => return Forgotten::Nothing(at),
                Shut::On => {}
                Shut::Behind => return Forgotten::Behind,
                Shut::Busy => return Forgotten::Busy,
            }
        }
        unreachable!()
    }

    /// Forgets one call of the name, and the value that it was settled with: closes the call of this number in the stamp's table if it is open, and
    /// no other call; and where it is not, ends what has the stamp, and whatever else was stamped at its slot and age. A call that the caller
    /// finds no table of is gone. It tries so often.
    pub fn forget_call(
        &self,
        me: &mut ChainFront,
        name: Name,
        call: u64,
        stamp: Stamp,
        tries: u32,
    ) -> Ended
        requires of { IsOf self.now me.old }
        ensures of { IsOf self.now me.new }
        ensures ended { HasForgottenCall (number name) call stamp tries me.old me.new result }
    {
        self.reach(me, stamp.table);
        if stamp.table >= me.parts.len() {
            return Ended::Gone;
        }
        me.parts[stamp.table].forget_call(
            &self.links[stamp.table],
            name,
            call,
            stamp.slot,
            stamp.age,
            tries,
        )
    }

    /// Whether what has the stamp is current: no Forget of its key that the caller knows of has ended it. Nothing but a Forget at its hash slot ends
    /// a stamp: neither other calls nor growth do. It is no stamp of the chain where the caller finds no such table, or no such slot.
    pub fn is_still(&self, me: &mut ChainFront, stamp: Stamp) -> bool
        requires of { IsOf self.now me.old }
        ensures of { IsOf self.now me.new }
        ensures heard { AllHeard me.old me.new }
        ensures still { OnTrue result (IsCurrent stamp me.new) }
        ensures over { OnFalse result (IsNotCurrent stamp me.new) }
    {
        self.reach(me, stamp.table);
        if stamp.table >= me.parts.len() {
            return false;
        }
        me.parts[stamp.table].is_still(&self.links[stamp.table], stamp.slot, stamp.age)
    }

    // The table of this number, of which this is a note that knows it.
    fn level_of(&self, table: usize, note: &mut Note<Level>) -> &Level
        requires own { slice_get self.now table ≡ Some note.old.cell }
        requires known { IsSome note.old.known }
        ensures level { note.old.known ≡ Some result.now }
        ensures note { (note.new.cell ≡ note.old.cell) × (note.new.known ≡ note.old.known) }
    {
        match self.links[table].get_as(note) {
            Some(level) => level,
            None => unreachable!(),
        }
    }

    // Settles a call of the table of this number.
    fn settle_at(
        &self,
        me: &mut ChainFront,
        table: usize,
        note: &mut Note<Level>,
        flight: sf_keyed::Flight,
        value: u64,
    ) -> sf_keyed::Settled
        requires of { IsOf self.now me.old }
        requires own { slice_get self.now table ≡ Some note.old.cell }
        requires known { IsSomeAnd note.old.known (λ l. l.group ≡ flight.group) }
        ensures of { IsOf self.now me.new }
        ensures note { (note.new.cell ≡ note.old.cell) × (note.new.known ≡ note.old.known) }
        ensures settled { CalledBy (λ b a. IsSettled b a flight value result) table flight.group me.old me.new }
    {
        self.reach(me, table);
        if table < me.parts.len() {
            return me.parts[table].settle(&self.links[table], note, flight, value);
        }
        let group = &self.level_of(table, note).group;
        group.settle(&mut group.enter(me.number), flight, value)
    }

    /// Settles the call with the value, for good. It cannot fail. The caller that settles holds the call too where its value is told, since
    /// it has to wake those who wait: it leaves by the ticket.
    pub fn settle(&self, me: &mut ChainFront, flight: Flight, value: u64) -> Settled
        requires of { IsOf self.now me.old }
        requires own { IsTokenOf self.now flight }
        ensures of { IsOf self.now me.new }
        ensures settled { HasSettled me.old me.new flight value result }
    {
        let Flight {
            table,
            mut note,
            flight,
        } = flight;
        match self.settle_at(me, table, &mut note, flight, value) {
            sf_keyed::Settled::Alone => Settled::Alone,
            sf_keyed::Settled::Told(ticket, audience) => Settled::Told(
                Ticket {
                    table,
                    note,
                    ticket,
                },
                // Field by field, so that no call copies the bytes between them.
                Audience {
                    holders: audience.holders,
                    joined: audience.joined,
                    forgotten: audience.forgotten,
                },
            ),
        }
    }

    // What a call of the table of this number was settled with.
    fn look_at(
        &self,
        me: &mut ChainFront,
        table: usize,
        note: &mut Note<Level>,
        ticket: sf_keyed::Ticket,
    ) -> (Option<u64>, sf_keyed::Ticket)
        requires of { IsOf self.now me.old }
        requires own { slice_get self.now table ≡ Some note.old.cell }
        requires known { IsSomeAnd note.old.known (λ l. l.group ≡ ticket.group) }
        ensures of { IsOf self.now me.new }
        ensures note { (note.new.cell ≡ note.old.cell) × (note.new.known ≡ note.old.known) }
        ensures held { result.1 ≡ ticket }
        ensures looked { CalledBy (λ b a. IsLooked b a ticket result.0) table ticket.group me.old me.new }
    {
        self.reach(me, table);
        if table < me.parts.len() {
            return me.parts[table].look(&self.links[table], note, ticket);
        }
        let group = &self.level_of(table, note).group;
        group.look(&mut group.enter(me.number), ticket)
    }

    /// What the ticket's call was settled with, and the ticket, by which the caller holds the call still; none where it is not settled yet.
    pub fn look(&self, me: &mut ChainFront, ticket: Ticket) -> (Option<u64>, Ticket)
        requires of { IsOf self.now me.old }
        requires own { IsTokenOf self.now ticket }
        ensures of { IsOf self.now me.new }
        ensures held { result.1 ≡ ticket }
        ensures looked { HasLooked me.old me.new ticket result.0 }
    {
        let Ticket {
            table,
            mut note,
            ticket,
        } = ticket;
        let (value, ticket) = self.look_at(me, table, &mut note, ticket);
        (
            value,
            Ticket {
                table,
                note,
                ticket,
            },
        )
    }

    /// Gives up the ticket, whether the call is settled or not. The last holder of a settled call is told what that was settled with, and nobody else
    /// is told so: what the value names can be given up with it.
    pub fn leave(&self, me: &mut ChainFront, ticket: Ticket) -> Option<u64>
        requires of { IsOf self.now me.old }
        requires own { IsTokenOf self.now ticket }
        ensures of { IsOf self.now me.new }
        ensures left { HasLeft me.old me.new ticket result }
    {
        let Ticket {
            table,
            mut note,
            ticket,
        } = ticket;
        self.reach(me, table);
        if table < me.parts.len() {
            return me.parts[table].leave(&self.links[table], &mut note, ticket);
        }
        let group = &self.level_of(table, &mut note).group;
        group.leave(&mut group.enter(me.number), ticket)
    }
}
