//! The group, the tokens of its callers, and its calls. None of them waits, and none takes memory but `new`.
ghost use Rattle.std.specs.Prelude.{◌≡◌, ◌≢◌, ℕ, nat_eq, ◌≤◌, ◌<◌, ◌*◌, ◌/◌, ◌%◌, ◌^◌, true, false, IfErr, IfOk};
ghost use Rattle.sf_history.specs.Legal.{IsLegal};
ghost use Rattle.sf_keyed_words.specs.Rule.{number, slot_of, word_total, joined_bit, is_forgotten, IsPrefix};
ghost use Rattle.sf_keyed_walks.specs.Walk.{IsLaid};
ghost use Rattle.sf_keyed.specs.Calls.{IsAsked, IsClaimed, IsEnded, IsForgotten, IsLeft, IsLooked, IsPassed, IsSettled, IsSwept, IsTaken, Sees};

use atomic_table::Table;
use sf_keyed_walks::answer::{leave_call, look, settle_call, take};
use sf_keyed_walks::often;
use sf_keyed_walks::walk::{slot_of as the_slot_of, sweep_once};
use sf_keyed_words::moving::{join_flight, join_note, join_ticket, split_flight, split_ticket};
use sf_keyed_words::opening::{enter, number_as, open, share};
use sf_keyed_words::steps::{KeyedSeat, claim, look_cell};
use sf_keyed_words::{KeyedSizes, Law, Name, View};
use std::alloc::{AllocError, Global};
use std::marker::Model;

/// A group. Clauses see its table, and its sizes.
#[derive(Drop)]
pub struct KeyedGroup {
    table: Table<u8, View, KeyedSizes, Law, Global>,
    sizes: KeyedSizes,
}

impl Model for KeyedGroup {
    ghost use Rattle.sf_keyed_walks.specs.Walk.{IsLaid};
    ghost use Rattle.sf_keyed.specs.Known.{GroupId};

    ghost Value = { GroupId };

    ghost view = { λ g. record { table = g.table.shared.table_id; sizes = g.sizes } };

    ghost invariant = { λ g. IsLaid g.table.shared.key g.table.shared.table_id.words g.sizes };
}

/// A caller, which has seen a beginning of what has happened, and may have a spare cell for the next call that it leads. Clauses see that.
#[derive(Drop)]
pub struct Front {
    seat: KeyedSeat,
    spare: u64,
}

impl Model for Front {
    ghost use Rattle.std.specs.Prelude.{◌≡◌, ◌≢◌, ◌<◌, ◌%◌, ◌^◌};
    ghost use Rattle.sf_keyed.specs.Known.{FrontState};

    ghost Value = { FrontState };

    ghost view = { λ f. record { group = record { table = f.seat.table_id; sizes = f.seat.me.0.sizes }; number = f.seat.me.0.number; seen = f.seat.me.0.seen; gone = f.seat.me.0.gone; spare = f.spare; met = record { lost = f.seat.me.0.lost; top = f.seat.me.0.found; opened = f.seat.me.0.opened; state = f.seat.me.0.state; place = f.seat.me.0.place } } };

    ghost invariant = { λ f. (f.seat.me.0.own ≡ f.spare) × (f.seat.me.0.leads ≡ 0) × (f.seat.me.0.ticket ≡ 0) × (f.spare < 2 ^ 61) × (f.spare ≢ 0 → f.spare % 1048576 < f.seat.me.0.sizes.cells) };
}

/// A call that is led, until it is settled. Where it is dropped, the call stays open until a Forget. Clauses see which call it is.
#[derive(Drop)]
pub struct Flight {
    seat: KeyedSeat,
    call: u64,
}

impl Model for Flight {
    ghost use Rattle.std.specs.Prelude.{◌≡◌, ◌≢◌, ◌<◌, ◌%◌, ◌^◌, []};
    ghost use Rattle.sf_keyed.specs.Known.{FlightState};

    ghost Value = { FlightState };

    ghost view = { λ f. record { group = record { table = f.seat.table_id; sizes = f.seat.me.0.sizes }; call = f.call } };

    ghost invariant = { λ f. (f.seat.me.0.leads ≡ f.call) × (f.call ≢ 0) × (f.call < 2 ^ 61) × (f.call % 1048576 < f.seat.me.0.sizes.cells) × (f.seat.me.0.own ≡ 0) × (f.seat.me.0.ticket ≡ 0) × (f.seat.me.1 ≡ []) };
}

/// A call that is held, until its value is taken or its holder leaves. Where it is dropped, the call's cell is lost. Clauses see which
/// call it is.
#[derive(Drop)]
pub struct Ticket {
    seat: KeyedSeat,
    call: u64,
}

impl Model for Ticket {
    ghost use Rattle.std.specs.Prelude.{◌≡◌, ◌≢◌, ◌<◌, ◌%◌, ◌^◌, []};
    ghost use Rattle.sf_keyed.specs.Known.{FlightState};

    ghost Value = { FlightState };

    ghost view = { λ f. record { group = record { table = f.seat.table_id; sizes = f.seat.me.0.sizes }; call = f.call } };

    ghost invariant = { λ f. (f.seat.me.0.ticket ≡ f.call) × (f.call ≢ 0) × (f.call < 2 ^ 61) × (f.call % 1048576 < f.seat.me.0.sizes.cells) × (f.seat.me.0.own ≡ 0) × (f.seat.me.0.leads ≡ 0) × (f.seat.me.1 ≡ []) };
}

/// What a caller has seen, for another caller.
#[derive(Drop)]
pub struct Note {
    seat: KeyedSeat,
}

impl Model for Note {
    ghost use Rattle.std.specs.Prelude.{◌≡◌, []};
    ghost use Rattle.sf_keyed.specs.Known.{NoteState};

    ghost Value = { NoteState };

    ghost view = { λ n. record { group = record { table = n.seat.table_id; sizes = n.seat.me.0.sizes }; seen = n.seat.me.0.seen } };

    ghost invariant = { λ n. (n.seat.me.0.own ≡ 0) × (n.seat.me.0.leads ≡ 0) × (n.seat.me.0.ticket ≡ 0) × (n.seat.me.1 ≡ []) };
}

impl Flight {
    /// The call's number: its cell in the lower 20 bits, and above it the cell's generation.
    pub fn call(&self) -> u64
        ensures { result ≡ self.now.call }
    {
        self.call
    }
}

impl Ticket {
    /// The call's number: its cell in the lower 20 bits, and above it the cell's generation.
    pub fn call(&self) -> u64
        ensures { result ≡ self.now.call }
    {
        self.call
    }
}

/// How an asking ended.
#[derive(Drop)]
pub enum Asked {
    /// A new call of the name is led.
    Led(Flight),
    /// The name's open call is joined.
    Joined(Ticket),
    /// Neither, and nothing was done.
    Refused(Refusal),
}

/// Why nothing was done.
#[derive(Clone, Copy, Debug, PartialEq, Eq)]
pub enum Refusal {
    /// In each try others changed a word between its load and the exchange.
    Busy,
    /// The name's slot and all its side words had open calls.
    Full,
    /// The slot is sealed: the group has grown.
    Sealed,
    /// The name has no open call, and the caller no spare cell.
    NoCell,
    /// The name's open call has 1,048,575 holders, which is as many as can be counted.
    Crowded,
}

/// How an asking of a group that has grown ended.
#[derive(Drop)]
pub enum Passed {
    /// The name's open call is joined.
    Joined(Ticket),
    /// The name has no open call, and never has one again in this group.
    Gone,
    /// In each try others changed a word between its load and the exchange, and nothing was done.
    Busy,
    /// The name's open call has 1,048,575 holders, which is as many as can be counted, and nothing was done.
    Crowded,
}

/// How a sweep of a hash slot ended, in a group that has grown.
#[derive(Clone, Copy, Debug, PartialEq, Eq)]
pub enum Swept {
    /// No name of the slot has an open call, and none ever has one again in this group.
    Quiet,
    /// A name of the slot may have an open call, and nothing was done.
    Open,
    /// Others changed a word between its load and the exchange, and nothing was done.
    Busy,
}

/// How a claim of a cell ended.
#[derive(Clone, Copy, Debug, PartialEq, Eq)]
pub enum Claim {
    /// The caller has a spare cell.
    Ready,
    /// The cell has a call, or a holder.
    InUse,
    /// The cell has had its last call, the 2,199,023,255,550th: it is passed over for good.
    Worn,
    /// Others claimed the cell first.
    Busy,
}

/// The callers that are told of a Settle.
#[repr(C)]
#[derive(Clone, Copy, Debug, PartialEq, Eq)]
pub struct Audience {
    /// How many callers hold the call: its leader, and all that have joined and not left.
    pub holders: u64,
    /// Whether somebody joined the call, also one who has left since.
    pub joined: bool,
    /// Whether a Forget had closed the call.
    pub forgotten: bool,
}

/// How a Settle ended.
#[derive(Drop)]
pub enum Settled {
    /// Nobody has joined the call, and no Forget has closed it: nobody is told the value, and the caller has the cell to spare.
    Alone,
    /// The value is told to whoever holds the call.
    Told(Ticket, Audience),
}

/// How a Forget of a name ended.
#[derive(Clone, Copy, Debug, PartialEq, Eq)]
pub enum Forgotten {
    /// It closed the name's open call, which has this number.
    Closed(u64),
    /// At a moment during the call the name had no open call.
    Nothing,
    /// It had none, and never has one again in this group, which has grown.
    Gone,
    /// In each try others changed a word between its load and the exchange, and nothing was done.
    Busy,
}

/// How a Forget of one call ended.
#[derive(Clone, Copy, Debug, PartialEq, Eq)]
pub enum Ended {
    /// It closed the call.
    Closed,
    /// At a moment during the Forget the call was not the name's open call, and never will be again.
    Gone,
    /// In each try others changed a word between its load and the exchange, and nothing was done.
    Busy,
}

// The state of a cell that has had its last call but one: 2 ^ 41 - 2 of them.
const LAST_STATE: u64 = 18_446_744_073_692_774_400;

// What a state word says of those who are told of a Settle.
fn told_by(state: u64) -> Audience
    ensures holders { result.holders ≡ state % 1048576 }
    ensures joined { (result.joined ≡ true → joined_bit state ≡ 1) × (result.joined ≡ false → joined_bit state ≡ 0) }
    ensures forgotten { result.forgotten ≡ is_forgotten state }
{
    Audience {
        holders: state % 1_048_576,
        joined: state / 1_048_576 % 2 == 1,
        forgotten: state / 2_097_152 % 4 != 2,
    }
}

impl KeyedGroup {
    /// How many hash slots it has.
    pub fn slots(&self) -> u64
        ensures slots { result ≡ self.now.sizes.tops }
        ensures within { (k : ℕ) → slot_of self.now.sizes k < result }
    {
        self.sizes.tops
    }

    /// The hash slot of a name, counted from 0.
    pub fn slot(&self, name: Name) -> u64
        ensures { (result ≡ slot_of self.now.sizes (number name)) × (result < self.now.sizes.tops) }
    {
        the_slot_of(self.sizes, name)
    }

    /// A group of these sizes, and its first caller, whose number is 0. Refused where there is no memory.
    pub fn new(alloc: Global, sizes: KeyedSizes) -> Result<(KeyedGroup, Front), AllocError>
        requires tops { (0 < sizes.tops) × (sizes.tops ≤ 4294967296) × (sizes.tops ≤ sizes.sides * 4) }
        requires sides { sizes.sides % 16 ≡ 0 }
        requires cells { (0 < sizes.cells) × (sizes.cells ≤ 1048576) }
        requires total { word_total sizes < 2 ^ 60 }
        ensures group { IfOk result (λ made. made.0.sizes ≡ sizes) }
        ensures front { IfOk result (λ made. (made.1.group ≡ made.0) × (made.1.number ≡ 0) × (made.1.spare ≡ 0)) }
    {
        let (table, seat) = open(alloc, sizes)?;
        Ok((KeyedGroup { table, sizes }, Front { seat, spare: 0 }))
    }

    /// Asks for the name: joins its open call, or else leads a new one in the caller's spare cell. It tries so often, since others may lead
    /// at the name's slot meanwhile.
    pub fn ask(&self, me: &mut Front, name: Name, tries: u32) -> Asked
        requires own { me.old.group ≡ self.now }
        ensures { IsAsked me.old me.new (number name) tries result }
    {
        self.ask_at(me, self.slot(name), name, tries)
    }

    /// `ask` by a caller that knows the name's hash slot.
    pub fn ask_at(&self, me: &mut Front, slot: u64, name: Name, tries: u32) -> Asked
        requires own { me.old.group ≡ self.now }
        requires slot { (slot ≡ slot_of self.now.sizes (number name)) × (slot < self.now.sizes.tops) }
        ensures { IsAsked me.old me.new (number name) tries result }
    {
        let words = &self.table.shared;
        match often::ask_often(words, &mut me.seat, self.sizes, slot, me.spare, name, tries) {
            sf_keyed_walks::walk::Asked::Led => {
                let call = me.spare;
                me.spare = 0;
                let seat = split_flight(words, &mut me.seat);
                Asked::Led(Flight { seat, call })
            }
            sf_keyed_walks::walk::Asked::Joined(call) => {
                let seat = split_ticket(words, &mut me.seat);
                Asked::Joined(Ticket { seat, call })
            }
            sf_keyed_walks::walk::Asked::Busy => Asked::Refused(Refusal::Busy),
            sf_keyed_walks::walk::Asked::Full => Asked::Refused(Refusal::Full),
            sf_keyed_walks::walk::Asked::Sealed => Asked::Refused(Refusal::Sealed),
            sf_keyed_walks::walk::Asked::NoCell => Asked::Refused(Refusal::NoCell),
            sf_keyed_walks::walk::Asked::Crowded => Asked::Refused(Refusal::Crowded),
        }
    }

    /// Asks for the name in a group that has grown, whose callers lead in a larger one: joins the name's open call, or else seals its slot, so
    /// that no call of it is led here any more. It tries so often, since others may lead at the name's slot meanwhile, or join the call.
    pub fn pass(&self, me: &mut Front, name: Name, tries: u32) -> Passed
        requires own { me.old.group ≡ self.now }
        ensures { IsPassed me.old me.new (number name) tries result }
    {
        let words = &self.table.shared;
        match often::pass_often(words, &mut me.seat, self.sizes, name, tries) {
            sf_keyed_walks::walk::Passed::Joined(call) => {
                let seat = split_ticket(words, &mut me.seat);
                Passed::Joined(Ticket { seat, call })
            }
            sf_keyed_walks::walk::Passed::Gone => Passed::Gone,
            sf_keyed_walks::walk::Passed::Busy => Passed::Busy,
            sf_keyed_walks::walk::Passed::Crowded => Passed::Crowded,
        }
    }

    /// Seals a hash slot of a group that has grown, where none of its names has an open call: none ever has one again in this group. Slots are
    /// counted from 0.
    pub fn sweep(&self, me: &mut Front, slot: u64) -> Swept
        requires own { me.old.group ≡ self.now }
        requires slot { slot < self.now.sizes.tops }
        ensures { IsSwept me.old me.new slot result }
    {
        match sweep_once(&self.table.shared, &mut me.seat, self.sizes, slot) {
            sf_keyed_walks::walk::Swept::Quiet => Swept::Quiet,
            sf_keyed_walks::walk::Swept::Open => Swept::Open,
            sf_keyed_walks::walk::Swept::Busy => Swept::Busy,
        }
    }

    /// Forgets the name: closes its open call, or finds that it has none. It tries so often, since others may lead at the name's slot
    /// meanwhile, or join the call.
    pub fn forget(&self, me: &mut Front, name: Name, tries: u32) -> Forgotten
        requires own { me.old.group ≡ self.now }
        ensures { IsForgotten me.old me.new (number name) tries result }
    {
        self.forget_at(me, self.slot(name), name, tries)
    }

    /// `forget` by a caller that knows the name's hash slot.
    pub fn forget_at(&self, me: &mut Front, slot: u64, name: Name, tries: u32) -> Forgotten
        requires own { me.old.group ≡ self.now }
        requires slot { (slot ≡ slot_of self.now.sizes (number name)) × (slot < self.now.sizes.tops) }
        ensures { IsForgotten me.old me.new (number name) tries result }
    {
        match often::forget_often(
            &self.table.shared,
            &mut me.seat,
            self.sizes,
            slot,
            name,
            None,
            tries,
        ) {
            sf_keyed_walks::walk::Closing::Closed(call) => Forgotten::Closed(call),
            sf_keyed_walks::walk::Closing::Nothing => Forgotten::Nothing,
            sf_keyed_walks::walk::Closing::Gone => Forgotten::Gone,
            sf_keyed_walks::walk::Closing::Other(_) => Forgotten::Busy,
            sf_keyed_walks::walk::Closing::Busy => Forgotten::Busy,
        }
    }

    /// Forgets one call of the name: closes it if it is the name's open call, and no other call. It tries so often.
    pub fn forget_call(&self, me: &mut Front, name: Name, call: u64, tries: u32) -> Ended
        requires own { me.old.group ≡ self.now }
        ensures { IsEnded me.old me.new (number name) call tries result }
    {
        match often::forget_often(
            &self.table.shared,
            &mut me.seat,
            self.sizes,
            the_slot_of(self.sizes, name),
            name,
            Some(call),
            tries,
        ) {
            sf_keyed_walks::walk::Closing::Closed(_) => Ended::Closed,
            sf_keyed_walks::walk::Closing::Nothing => Ended::Gone,
            sf_keyed_walks::walk::Closing::Gone => Ended::Gone,
            sf_keyed_walks::walk::Closing::Other(_) => Ended::Gone,
            sf_keyed_walks::walk::Closing::Busy => Ended::Busy,
        }
    }

    /// Takes a free cell for the next call that the caller leads, unless it has one to spare: the cell of this number, counted from 0 and
    /// on from the last to the first.
    pub fn claim(&self, me: &mut Front, cell: u64) -> Claim
        requires own { me.old.group ≡ self.now }
        ensures stays { (me.new.group ≡ me.old.group) × (me.new.number ≡ me.old.number) × (me.new.seen ≡ me.old.seen) × (me.new.gone ≡ me.old.gone) }
        ensures claimed { IsClaimed me.old me.new cell result }
    {
        if me.spare != 0 {
            return Claim::Ready;
        }
        let words = &self.table.shared;
        let cell = cell % self.sizes.cells;
        let at = self.sizes.tops + self.sizes.sides + 8 * cell;
        let old = look_cell(words, &mut me.seat, at);
        if old % 8_388_608 != 0 {
            return Claim::InUse;
        }
        if old >= LAST_STATE {
            return Claim::Worn;
        }
        if claim(words, &mut me.seat, at, cell, old) != old {
            return Claim::Busy;
        }
        me.spare = (old / 8_388_608 + 1) * 1_048_576 + cell;
        Claim::Ready
    }

    /// Settles the call with the value, for good. It cannot fail. The caller that settles holds the call too where its value is told, since
    /// it has to wake those who wait: it leaves by the ticket.
    pub fn settle(&self, me: &mut Front, flight: Flight, value: u64) -> Settled
        requires own { (me.old.group ≡ self.now) × (flight.group ≡ self.now) }
        ensures { IsSettled me.old me.new flight value result }
    {
        let words = &self.table.shared;
        let Flight { seat, call } = flight;
        join_flight(words, &mut me.seat, seat);
        match settle_call(words, &mut me.seat, self.sizes, me.spare, call, value) {
            None => {
                me.spare = call + 1_048_576;
                Settled::Alone
            }
            Some(state) => {
                let seat = split_ticket(words, &mut me.seat);
                let ticket = Ticket { seat, call };
                Settled::Told(ticket, told_by(state))
            }
        }
    }

    /// What the ticket's call was settled with, and the ticket, by which the caller holds the call still; none where it is not settled yet.
    pub fn look(&self, me: &mut Front, ticket: Ticket) -> (Option<u64>, Ticket)
        requires own { (me.old.group ≡ self.now) × (ticket.group ≡ self.now) }
        ensures held { result.1 ≡ ticket }
        ensures looked { IsLooked me.old me.new ticket result.0 }
    {
        let words = &self.table.shared;
        let Ticket { seat, call } = ticket;
        join_ticket(words, &mut me.seat, seat);
        match look(words, &mut me.seat, self.sizes, call) {
            Some(value) => {
                let seat = split_ticket(words, &mut me.seat);
                (Some(value), Ticket { seat, call })
            }
            None => {
                let seat = split_ticket(words, &mut me.seat);
                (None, Ticket { seat, call })
            }
        }
    }

    /// What the ticket's call was settled with. The ticket comes back where the call is not settled yet.
    pub fn take(&self, me: &mut Front, ticket: Ticket) -> Result<u64, Ticket>
        requires own { (me.old.group ≡ self.now) × (ticket.group ≡ self.now) }
        ensures taken { IfOk result (λ value. IsTaken me.old me.new ticket value) }
        ensures pending { IfErr result (λ back. (back ≡ ticket) × Sees me.old me.new × (me.new.spare ≡ me.old.spare) × (me.new.met.state / 2097152 % 2 ≡ 0)) }
    {
        let words = &self.table.shared;
        let Ticket { seat, call } = ticket;
        join_ticket(words, &mut me.seat, seat);
        match take(words, &mut me.seat, self.sizes, call) {
            Some(value) => Ok(value),
            None => {
                let seat = split_ticket(words, &mut me.seat);
                Err(Ticket { seat, call })
            }
        }
    }

    /// Gives up the ticket, whether the call is settled or not. The last holder of a settled call is told what that was settled with, and nobody else
    /// is told so: what the value names can be given up with it.
    pub fn leave(&self, me: &mut Front, ticket: Ticket) -> Option<u64>
        requires own { (me.old.group ≡ self.now) × (ticket.group ≡ self.now) }
        ensures { IsLeft me.old me.new ticket result }
    {
        let words = &self.table.shared;
        let Ticket { seat, call } = ticket;
        join_ticket(words, &mut me.seat, seat);
        match leave_call(words, &mut me.seat, self.sizes, call) {
            Some(value) => Some(value),
            None => None,
        }
    }

    /// Another caller, which has seen what this one has, and has no cell to spare. Its Forgets are by this number, by which they are told
    /// from those of callers with other numbers.
    pub fn another(&self, me: &mut Front, number: u64) -> Front
        requires own { me.old.group ≡ self.now }
        ensures same { me.new ≡ me.old }
        ensures other { (result.group ≡ self.now) × (result.number ≡ number) × (result.seen ≡ me.old.seen) × (result.spare ≡ 0) }
    {
        let words = &self.table.shared;
        let mut seat = share(words, &mut me.seat);
        number_as(words, &mut seat, number);
        Front { seat, spare: 0 }
    }

    /// A caller with no other's help, which has seen all that has happened, and has no cell to spare. Its Forgets are by this number.
    pub fn enter(&self, number: u64) -> Front
        ensures caller { (result.group ≡ self.now) × (result.number ≡ number) × (result.spare ≡ 0) }
        ensures legal { IsLegal nat_eq result.seen }
    {
        let words = &self.table.shared;
        let mut seat = enter(words);
        number_as(words, &mut seat, number);
        Front { seat, spare: 0 }
    }

    /// What this caller has seen, for another caller: whatever happened before it was told, the other has seen once it has learned it.
    pub fn tell(&self, me: &mut Front) -> Note
        requires own { me.old.group ≡ self.now }
        ensures same { me.new ≡ me.old }
        ensures note { (result.group ≡ self.now) × (result.seen ≡ me.old.seen) }
    {
        Note {
            seat: share(&self.table.shared, &mut me.seat),
        }
    }

    /// Learns what another caller had seen. Both are beginnings of one history.
    pub fn learn(&self, me: &mut Front, note: Note)
        requires own { (me.old.group ≡ self.now) × (note.group ≡ self.now) }
        ensures sees { Sees me.old me.new × (me.new.spare ≡ me.old.spare) }
        ensures learned { IsPrefix note.seen me.new.seen }
    {
        let Note { seat } = note;
        join_note(&self.table.shared, &mut me.seat, seat);
    }
}
