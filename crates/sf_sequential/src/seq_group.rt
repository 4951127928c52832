//! The sequential group: the one-thread singleflight with Forget that every other layer is compared with.

ghost use Rattle.std.specs.Prelude.{◌≡◌, ℕ, ◌<◌, ◌≤◌, ◌↔◌, true, false, IsTrue, [], Ok, Err, Some, IfOk, IfErr, OnOk, OnErr, MatchResult, All, length, get_or, ◌∷◌};
ghost use Rattle.sf_history.specs.declared.call.CallId.{CallId};
ghost use Rattle.sf_sequential.specs.declared.ticket.Ticket.{Ticket};
ghost use Rattle.sf_history.specs.declared.event.Event.{Event};
ghost use Rattle.sf_history.specs.declared.event.Event.TheVariants.{Settle, Handed, Forget, ForgetCall};
ghost use Rattle.sf_history.specs.History.{maker, joined, is_handed, open_call, current_call, next_generation, result_in};
ghost use Rattle.sf_history.specs.Legal.{IsLegal};
ghost use Rattle.sf_sequential.specs.State.{GroupState, IsKept, IsCaller, IsBounded, Leads, Holds, led_call, held_ticket, is_free, is_spent, next_id, with_events, with_taken};
ghost use Rattle.sf_sequential.specs.Sequential.{ask_of, ask_chan_of, settle_of, forget_of, forget_call_of, take_of, is_current_of, hit_of, forgotten_as, asks, asks_chan, IsRefusal, MayAskChan};
ghost use Rattle.sf_words.specs.declared.limits.TheConstants.{LARGEST_CALLER};

use crate::command::{Asked, ChanAsked, Taken};
use crate::refusal::ModelRefusal;
use crate::ticket::Ticket;
use crate::walk;
use sf_history::{CallId, Event, Forgotten, History, Hit, Memory, Share};
use std::alloc::Global;
use std::marker::Model;
use std::mem;

// Another value equal to the one that the event settles its call with, if it settles one.
fn share_result<K, V: Share>(event: &mut Event<K, V>) -> Result<Option<V>, Memory>
    ensures shared { IfOk result (λ found. found ≡ result_in event.old) }
    ensures same { event.new ≡ event.old }
{
    match event {
        Event::Settle { result, .. } => Ok(Some(result.share()?)),
        _ => Ok(None),
    }
}

/// Singleflight with Forget for one thread, as plain as can be: what happened, and who took a letter.
///
/// Its rules are those of x/sync's `singleflight` (Do, DoChan, Forget), with one command for each step of a caller. Its
/// calls walk its history, but those whose names end in `_by`, which find by an index what the history says.
#[derive(Drop)]
pub struct SeqGroup<K: Eq, V> {
    callers: u32,
    first_generation: u32,
    history: History<K, V>,
    taken: Vec<CallId>,
}

impl<K: Eq, V> Model for SeqGroup<K, V> {
    ghost use Rattle.sf_sequential.specs.State.{GroupState, IsKept};

    ghost Value = { GroupState K V };

    ghost view = { λ g.
        record {
          callers = g.callers;
          first = g.first_generation;
          history = g.history;
          taken = g.taken.items;
        } };

    ghost invariant = { λ g.
        IsKept K.eq (record {
          callers = g.callers;
          first = g.first_generation;
          history = g.history;
          taken = g.taken.items;
        }) };
}

impl<K: Eq, V> SeqGroup<K, V> {
    /// A group of this many callers, 1 to 65,535, numbered from 1, whose first generation is 1 to 4,294,967,295.
    pub fn new(alloc: Global, callers: u32, first_generation: u32) -> Self
        requires callers { (0 < callers) × (callers ≤ LARGEST_CALLER) }
        requires first_generation { 0 < first_generation }
        ensures { result ≡ record {
          callers = callers;
          first = first_generation;
          history = [];
          taken = [];
        } }
    {
        SeqGroup {
            callers,
            first_generation,
            history: History::new(alloc),
            taken: Vec::new(alloc),
        }
    }

    /// Whether the group has a caller of this number.
    pub fn has_caller(&self, caller: u32) -> bool
        ensures { IsTrue result ↔ IsCaller self.now caller }
    {
        0 < caller && caller <= self.callers
    }

    /// The caller asks for the key: it leads a new call where the key has no open one, and else joins the open one.
    ///
    /// Refused are a caller that is not free, and then one that is spent; Memory comes last.
    pub fn ask(&mut self, caller: u32, key: K) -> Result<Asked, ModelRefusal>
    where
        K: Drop,
        V: Drop,
        requires { IsCaller self.old caller }
        ensures callers { self.new.callers ≡ self.old.callers }
        ensures ok { IfOk result (λ asked. ask_of K.eq self.old caller key ≡ Ok (asked, self.new)) }
        ensures refused { IfErr result (IsRefusal (ask_of K.eq self.old caller key)) }
        ensures unchanged { OnErr result (self.new ≡ self.old) }
    {
        self.check_free(caller)?;
        let id = self.next_id(caller)?;
        let opened = walk::open_call(self.history.events(), &key);
        self.asks(caller, key, id, opened)
    }

    /// What an asking adds that is not refused, where the caller's next call or member and the key's open call are known.
    pub(crate) fn asks(
        &mut self,
        caller: u32,
        key: K,
        id: CallId,
        opened: Option<CallId>,
    ) -> Result<Asked, ModelRefusal>
    where
        K: Drop,
        V: Drop,
        requires caller { IsCaller self.old caller }
        requires free { is_free self.old caller ≡ true }
        requires unspent { is_spent self.old caller ≡ false }
        requires id { id ≡ next_id self.old caller }
        requires opened { opened ≡ open_call K.eq self.old.history key }
        ensures ok { IfOk result (λ asked. asks self.old caller key opened ≡ (asked, self.new)) }
        ensures refused { IfErr result (λ e. e ≡ ModelRefusal.Memory) }
        ensures unchanged { OnErr result (self.new ≡ self.old) }
    {
        match opened {
            None => {
                self.history.push(Event::Lead {
                    by: caller,
                    key,
                    call: id,
                    own: None,
                })?;
                Ok(Asked::Lead(id))
            }
            Some(call) => {
                self.history.push(Event::Enter {
                    by: caller,
                    key,
                    call,
                    member: id,
                })?;
                Ok(Asked::Join(call))
            }
        }
    }

    /// The caller asks for the key with a channel, on which its second waits: where the key has no open call, the caller
    /// leads with its second as own channel, which counts as no duplicate; else its second joins the open call, and the
    /// caller stays free.
    ///
    /// Refused are a caller that is not free, a second that is not free or is the caller itself, a caller that is spent,
    /// and a second that is spent, in this order; Memory comes last.
    pub fn ask_chan(&mut self, caller: u32, second: u32, key: K) -> Result<ChanAsked, ModelRefusal>
    where
        K: Drop,
        V: Drop,
        requires caller { IsCaller self.old caller }
        requires second { IsCaller self.old second }
        ensures callers { self.new.callers ≡ self.old.callers }
        ensures ok { IfOk result (λ asked.
            ask_chan_of K.eq self.old caller second key ≡ Ok (asked, self.new)) }
        ensures refused { IfErr result (IsRefusal (ask_chan_of K.eq self.old caller second key)) }
        ensures unchanged { OnErr result (self.new ≡ self.old) }
    {
        let (id, member) = self.next_ids(caller, second)?;
        let opened = walk::open_call(self.history.events(), &key);
        self.asks_chan(caller, second, key, id, member, opened)
    }

    /// What such an asking adds that is not refused, where the next call, the next member and the key's open call are known.
    pub(crate) fn asks_chan(
        &mut self,
        caller: u32,
        second: u32,
        key: K,
        id: CallId,
        member: CallId,
        opened: Option<CallId>,
    ) -> Result<ChanAsked, ModelRefusal>
    where
        K: Drop,
        V: Drop,
        requires caller { IsCaller self.old caller }
        requires second { IsCaller self.old second }
        requires may { MayAskChan self.old caller second }
        requires id { id ≡ next_id self.old caller }
        requires member { member ≡ next_id self.old second }
        requires opened { opened ≡ open_call K.eq self.old.history key }
        ensures ok { IfOk result (λ asked.
            asks_chan self.old caller second key opened ≡ (asked, self.new)) }
        ensures refused { IfErr result (λ e. e ≡ ModelRefusal.Memory) }
        ensures unchanged { OnErr result (self.new ≡ self.old) }
    {
        match opened {
            None => {
                self.history.push(Event::Lead {
                    by: caller,
                    key,
                    call: id,
                    own: Some(member),
                })?;
                Ok(ChanAsked::Led(id, member))
            }
            Some(call) => {
                self.history.push(Event::Enter {
                    by: second,
                    key,
                    call,
                    member,
                })?;
                Ok(ChanAsked::Joined(call))
            }
        }
    }

    /// The caller settles the call that it leads, and each letter of it is handed out. It answers the call, and how
    /// many joined it.
    ///
    /// Refused is a caller that leads none; Memory comes last. A refused value comes back.
    pub fn settle(&mut self, caller: u32, value: V) -> Result<(CallId, u32), (ModelRefusal, V)>
        requires { IsCaller self.old caller }
        ensures callers { self.new.callers ≡ self.old.callers }
        ensures ok { IfOk result (λ settled.
            settle_of self.old caller value ≡ Ok (settled, self.new)) }
        ensures refused { IfErr result (λ refused.
            IsRefusal (settle_of self.old caller value) refused.0) }
        ensures unchanged { IfErr result (λ refused. (refused.1 ≡ value) × (self.new ≡ self.old)) }
    {
        let Some(call) = walk::led_call(self.history.events(), caller) else {
            return Err((ModelRefusal::NotLeading(caller), value));
        };
        let joiners = self.joined(call);
        match self.settles(caller, call, joiners, value) {
            Ok(()) => Ok((call, joiners)),
            Err(value) => Err((ModelRefusal::Memory, value)),
        }
    }

    /// What settling adds, where the call that the caller leads and its number of joiners are known. Where memory is refused,
    /// the value comes back.
    pub(crate) fn settles(
        &mut self,
        caller: u32,
        call: CallId,
        joiners: u32,
        value: V,
    ) -> Result<(), V>
        requires caller { IsCaller self.old caller }
        requires led { led_call self.old.history caller ≡ Some call }
        requires joiners { joiners ≡ joined self.old.history call }
        ensures ok { OnOk result (self.new
            ≡ with_events self.old (Settle caller call value joiners ∷ Handed caller call ∷ [])) }
        ensures refused { IfErr result (λ back. back ≡ value) }
        ensures unchanged { OnErr result (self.new ≡ self.old) }
    {
        if let Err(value) = self.history.push_settled(caller, call, value, joiners) {
            return Err(value);
        }
        Ok(())
    }

    /// The caller forgets the key, which closes its open call, if it has one. Those who joined that call still get its answer.
    ///
    /// Refused is a caller that is not free; Memory comes last.
    pub fn forget(&mut self, caller: u32, key: K) -> Result<Forgotten, ModelRefusal>
    where
        K: Drop,
        V: Drop,
        requires { IsCaller self.old caller }
        ensures callers { self.new.callers ≡ self.old.callers }
        ensures ok { IfOk result (λ forgotten.
            forget_of K.eq self.old caller key ≡ Ok (forgotten, self.new)) }
        ensures refused { IfErr result (IsRefusal (forget_of K.eq self.old caller key)) }
        ensures unchanged { OnErr result (self.new ≡ self.old) }
    {
        self.check_free(caller)?;
        let closed = walk::open_call(self.history.events(), &key);
        self.forgets(caller, key, closed)
    }

    /// What a Forget adds that is not refused, where the key's open call is known.
    pub(crate) fn forgets(
        &mut self,
        caller: u32,
        key: K,
        closed: Option<CallId>,
    ) -> Result<Forgotten, ModelRefusal>
    where
        K: Drop,
        V: Drop,
        requires caller { IsCaller self.old caller }
        requires closed { closed ≡ open_call K.eq self.old.history key }
        ensures added { OnOk result (self.new
            ≡ with_events self.old (Forget caller key closed ∷ [])) }
        ensures ok { IfOk result (λ forgotten. forgotten ≡ forgotten_as closed) }
        ensures refused { IfErr result (λ e. e ≡ ModelRefusal.Memory) }
        ensures unchanged { OnErr result (self.new ≡ self.old) }
    {
        self.history.push(Event::Forget {
            by: caller,
            key,
            closed,
        })?;
        match closed {
            Some(call) => Ok(Forgotten::Closed(call)),
            None => Ok(Forgotten::Idle),
        }
    }

    /// The caller forgets one call of the key, whichever it is: it closes that call where it is the key's open one, and ends
    /// it where it is the current one. Another call of the key stays as it is. Any two numbers may be named.
    ///
    /// Refused is a caller that is not free; Memory comes last.
    pub fn forget_call(&mut self, caller: u32, key: K, call: CallId) -> Result<Hit, ModelRefusal>
    where
        K: Drop,
        V: Drop,
        requires { IsCaller self.old caller }
        ensures callers { self.new.callers ≡ self.old.callers }
        ensures ok { IfOk result (λ hit.
            forget_call_of K.eq self.old caller key call ≡ Ok (hit, self.new)) }
        ensures refused { IfErr result (IsRefusal (forget_call_of K.eq self.old caller key call)) }
        ensures unchanged { OnErr result (self.new ≡ self.old) }
    {
        self.check_free(caller)?;
        let hit = walk::hit(self.history.events(), &key, call);
        self.forgets_call(caller, key, call, hit)?;
        Ok(hit)
    }

    /// What a Forget of one call adds that is not refused, where it is known what it finds.
    pub(crate) fn forgets_call(
        &mut self,
        caller: u32,
        key: K,
        call: CallId,
        hit: Hit,
    ) -> Result<(), ModelRefusal>
    where
        K: Drop,
        V: Drop,
        requires caller { IsCaller self.old caller }
        requires hit { hit ≡ hit_of (open_call K.eq self.old.history key)
            (current_call K.eq self.old.history key) call }
        ensures added { OnOk result (self.new
            ≡ with_events self.old (ForgetCall caller key call hit ∷ [])) }
        ensures refused { IfErr result (λ e. e ≡ ModelRefusal.Memory) }
        ensures unchanged { OnErr result (self.new ≡ self.old) }
    {
        self.history.push(Event::ForgetCall {
            by: caller,
            key,
            call,
            hit,
        })?;
        Ok(())
    }

    /// The caller takes the letter that it holds a ticket for, and is then free. The letter is pending until the call's
    /// letters are handed out.
    ///
    /// Refused is a caller that holds no ticket; Memory comes last, and the letter may then be taken again.
    pub fn take(&mut self, caller: u32) -> Result<Taken<V>, ModelRefusal>
    where
        V: Share,
        requires { IsCaller self.old caller }
        ensures callers { self.new.callers ≡ self.old.callers }
        ensures ok { IfOk result (λ taken. take_of self.old caller ≡ Ok (taken, self.new)) }
        ensures refused { IfErr result (IsRefusal (take_of self.old caller)) }
        ensures unchanged { OnErr result (self.new ≡ self.old) }
    {
        let Some(ticket) = self.held_ticket(caller) else {
            return Err(ModelRefusal::NothingAsked(caller));
        };
        if !walk::is_handed(self.history.events(), ticket.call) {
            return Ok(Taken::Pending(ticket.call));
        }
        let joiners = self.joined(ticket.call);
        self.taken.reserve(1)?;
        let letter = match self.history.share_result(ticket.call)? {
            Some(value) => Taken::Got(ticket.call, value, joiners),
            None => Taken::Pending(ticket.call),
        };
        self.taken.push(ticket.member).unwrap();
        Ok(letter)
    }

    /// That the caller took the letter of the ticket that it holds.
    pub(crate) fn takes(&mut self, caller: u32, ticket: Ticket) -> Result<(), ModelRefusal>
        requires held { held_ticket self.old caller ≡ Some ticket }
        requires handed { is_handed self.old.history ticket.call ≡ true }
        ensures took { OnOk result (self.new ≡ with_taken self.old ticket.member) }
        ensures refused { IfErr result (λ e. e ≡ ModelRefusal.Memory) }
        ensures unchanged { OnErr result (self.new ≡ self.old) }
    {
        self.taken.push(ticket.member)?;
        Ok(())
    }

    /// Another value equal to the one that the event at this place of the history settles its call with, if it settles one.
    pub(crate) fn share_at(&mut self, alloc: Global, place: usize) -> Result<Option<V>, Memory>
    where
        K: Drop,
        V: Share,
        requires { place < length self.old.history }
        ensures shared { IfOk result (λ found.
            (e : Event K V) → found ≡ result_in (get_or self.old.history place e)) }
        ensures same { self.new ≡ self.old }
    {
        let mut events = mem::replace(&mut self.history, History::new(alloc)).into_vec();
        let shared = share_result(&mut events[place]);
        self.history = History::from_vec(events);
        shared
    }

    /// Whether the call is the key's current one: the call that was led last on the key, with no Forget of the key since.
    pub fn is_current(&self, key: &K, call: CallId) -> bool
        ensures { result ≡ is_current_of K.eq self.now key.now call }
    {
        walk::is_current(self.history.events(), key, call)
    }

    /// What happened so far, oldest first.
    pub fn history(&self) -> &History<K, V>
        ensures history { result.now ≡ self.now.history }

        // It is legal, and says of each caller which call it leads and which ticket it holds: there is one at most.
        ensures legal { IsLegal K.eq self.now.history }
        ensures leads { (a : ℕ) (c : CallId) → (led_call self.now.history a ≡ Some c)
            ↔ Leads self.now a c }
        ensures holds { (a : ℕ) (t : Ticket) → (held_ticket self.now a ≡ Some t)
            ↔ Holds self.now a t }

        // Its events are made by the group's callers, and are within the limits of records, but that a call which a Forget of it
        // missed may be any: so where that and the keys are within them too, what is written of it reads back.
        ensures made { All (λ e. IsCaller self.now (maker e)) self.now.history }
        ensures within { All IsBounded self.now.history }
    {
        &self.history
    }

    /// The ticket that the caller holds.
    pub(crate) fn held_ticket(&self, caller: u32) -> Option<Ticket>
        ensures { result ≡ held_ticket self.now caller }
    {
        let ticket = walk::last_ticket(self.history.events(), caller)?;
        if walk::has_taken(self.taken.as_slice(), ticket.member) {
            None
        } else {
            Some(ticket)
        }
    }

    /// How many joined the call.
    pub(crate) fn joined(&self, call: CallId) -> u32
        ensures { result ≡ joined self.now.history call }
    {
        walk::joined(self.history.events(), call) as u32
    }

    // Refuses a caller that leads or holds a ticket.
    fn check_free(&self, caller: u32) -> Result<(), ModelRefusal>
        ensures { MatchResult result (λ _. is_free self.now caller ≡ true) (λ e.
            (is_free self.now caller ≡ false) × (e ≡ ModelRefusal.NotFree caller)) }
    {
        if walk::led_call(self.history.events(), caller).is_some()
            || self.held_ticket(caller).is_some()
        {
            return Err(ModelRefusal::NotFree(caller));
        }
        Ok(())
    }

    /// What every group keeps, for the proofs of calls that do not look into it: nothing to run.
    pub(crate) fn kept(&self)
        ensures { IsKept K.eq self.now }
    {
        let _callers = self.callers;
    }

    /// The generation that the caller uses next.
    pub(crate) fn next_generation(&self, caller: u32) -> u64
        ensures { result ≡ next_generation self.now.first self.now.history caller }
    {
        walk::next_generation(self.first_generation, self.history.events(), caller)
    }

    pub(crate) fn first_generation(&self) -> u32
        ensures { result ≡ self.now.first }
    {
        self.first_generation
    }

    // The caller's next call or member. Refuses a caller that is spent.
    fn next_id(&self, caller: u32) -> Result<CallId, ModelRefusal>
        ensures { MatchResult result (λ id. (is_spent self.now caller ≡ false)
            × (id ≡ next_id self.now caller)) (λ e. (is_spent self.now caller ≡ true)
            × (e ≡ ModelRefusal.Spent caller)) }
    {
        match u32::try_from(self.next_generation(caller)) {
            Ok(generation) => Ok(CallId { caller, generation }),
            Err(_) => Err(ModelRefusal::Spent(caller)),
        }
    }

    // The next call of the caller and the next member of its second. Refuses as an asking with a channel does.
    fn next_ids(&self, caller: u32, second: u32) -> Result<(CallId, CallId), ModelRefusal>
        ensures ok { IfOk result (λ ids. MayAskChan self.now caller second
            × (ids ≡ (next_id self.now caller, next_id self.now second))) }
        ensures refused { IfErr result (λ e.
            (key : K) → ask_chan_of K.eq self.now caller second key ≡ Err e) }
    {
        self.check_free(caller)?;
        if second == caller {
            return Err(ModelRefusal::NotFree(second));
        }
        self.check_free(second)?;
        let id = self.next_id(caller)?;
        let member = self.next_id(second)?;
        Ok((id, member))
    }
}
