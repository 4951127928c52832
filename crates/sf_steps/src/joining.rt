//! The steps of an asking that joins: ready, link, enter.

ghost use Rattle.std.specs.Prelude.{◌≡◌, ◌≤◌, ℕ, None, [], IfOk, OnOk, OnErr, true};
ghost use Rattle.sf_steps_laws.specs.World.{with_stage, with_used, next_id, is_open_with};
ghost use Rattle.sf_steps_laws.specs.Askings as askings;
ghost use Rattle.sf_steps_laws.specs.Events.{enter_events};
ghost use Rattle.sf_steps_laws.specs.Stages.{is_asking};
ghost use Rattle.sf_steps_laws.specs.declared.operation.AskStep.{AskStep as AnyStep};
ghost use Rattle.sf_steps_laws.specs.declared.operation.Stage.TheVariants.{Free, Asking, Holding};
ghost use Rattle.sf_steps_laws.specs.declared.operation.AskStep.TheVariants as step_of;
ghost use Rattle.sf_steps.specs.declared.trace.Act.TheVariants as act_of;

use crate::events::{key_of, one_event, room_for_events};
use crate::trace::{Act, Step};
use crate::world::World;
use sf_history::{CallId, Event, Memory};
use sf_steps_laws::{AskStep, Stage};
use sf_words::{CallState, LeaderState};

impl<V: Drop> World<V> {
    ghost use Rattle.sf_steps.specs.Running.{SameSizes, world_of};

    /// The caller that joins: the second of a chan, or the caller itself.
    pub(crate) fn joiner(&self, caller: u32, second: Option<u32>) -> u32
        requires caller { caller ≤ self.now.callers }
        requires asks { (place : ℕ) × (before : AnyStep)
            × ((world_of self.now).stages caller ≡ Asking place second before) }
        ensures who { result ≡ askings.joiner caller second }
        ensures within { result ≤ self.now.callers }
        ensures asks { is_asking ((world_of self.now).stages result) ≡ true }
    {
        second.unwrap_or(caller)
    }

    /// The joiner's call word is made ready.
    pub(crate) fn ready_to_join(
        &mut self,
        caller: u32,
        place: u32,
        second: Option<u32>,
        call: CallId,
        seen: LeaderState,
    ) -> Step<V>
        requires caller { caller ≤ self.old.callers }
        requires asks { (world_of self.old).stages caller
            ≡ Asking place second (step_of.ReadyJoin call seen) }
        ensures world { world_of self.new ≡ askings.ask_stepped (world_of self.old) caller place
            second (step_of.ReadyJoin call seen) }
        ensures act { (result.caller ≡ askings.joiner caller second)
            × (result.act ≡ act_of.Ready
            (next_id (world_of self.old) (askings.joiner caller second)) true) }
        ensures quiet { (result.events.items ≡ []) × (result.answer ≡ None) }
        ensures sizes { SameSizes self.old self.new }
    {
        let by = self.joiner(caller, second);
        let member = self.next_call(by);
        let generation = member.generation;
        self.set_call(by, CallState::Listed { generation });
        self.asks_on(caller, place, second, AskStep::Link { call, seen });
        let listed = true;
        let act = Act::Ready {
            call: member,
            listed,
        };
        Step::quiet(self.alloc(), by, act)
    }

    /// The joiner's next word is pointed to the top that was seen.
    pub(crate) fn link(
        &mut self,
        caller: u32,
        place: u32,
        second: Option<u32>,
        call: CallId,
        seen: LeaderState,
    ) -> Step<V>
        requires caller { caller ≤ self.old.callers }
        requires asks { (world_of self.old).stages caller
            ≡ Asking place second (step_of.Link call seen) }
        ensures world { world_of self.new ≡ askings.ask_stepped (world_of self.old) caller place
            second (step_of.Link call seen) }
        ensures act { (result.caller ≡ askings.joiner caller second)
            × (result.act ≡ act_of.Link seen.top) }
        ensures quiet { (result.events.items ≡ []) × (result.answer ≡ None) }
        ensures sizes { SameSizes self.old self.new }
    {
        let by = self.joiner(caller, second);
        self.set_next(by, seen.top);
        self.asks_on(caller, place, second, AskStep::Enter { call, seen });
        Step::quiet(self.alloc(), by, Act::Link { top: seen.top })
    }

    /// The joiner tries to enter: it exchanges the leader's call word that was seen for one with itself on top.
    pub(crate) fn enter(
        &mut self,
        caller: u32,
        place: u32,
        second: Option<u32>,
        call: CallId,
        seen: LeaderState,
    ) -> Result<Step<V>, Memory>
        requires caller { caller ≤ self.old.callers }
        requires asks { (before : AnyStep)
            × ((world_of self.old).stages caller ≡ Asking place second before) }
        ensures world { OnOk result
            (world_of self.new ≡ askings.after_enter (world_of self.old) caller place second
            call seen (is_open_with seen ((world_of self.old).calls call.caller))) }
        ensures caller { IfOk result (λ done. (done.caller ≡ askings.joiner caller second)
            × (done.answer ≡ None)) }
        ensures act { IfOk result (λ done.
            done.act ≡ act_of.Enter call
            (is_open_with seen ((world_of self.old).calls call.caller))) }
        ensures events { IfOk result (λ done.
            done.events.items ≡ enter_events (world_of self.old) place call
            (askings.joiner caller second)
            (is_open_with seen ((world_of self.old).calls call.caller))) }
        ensures unchanged { OnErr result (world_of self.new ≡ world_of self.old) }
        ensures sizes { SameSizes self.old self.new }
    {
        let room = room_for_events(self.alloc())?;
        let by = self.joiner(caller, second);
        let member = self.next_call(by);
        let entered = LeaderState {
            top: Some(by),
            ..seen
        };
        let done = self.exchange_call(call.caller, seen, CallState::Open(entered));
        let act = Act::Enter { call, done };
        if !done {
            self.asks_on(caller, place, second, AskStep::Look { failed: true });
            return Ok(Step::quiet(self.alloc(), by, act));
        }
        self.take_ticket(caller, place, second, call);
        let key = key_of(place);
        let events = one_event(
            room,
            Event::Enter {
                by,
                key,
                call,
                member,
            },
        );
        Ok(Step {
            caller: by,
            act,
            events,
            answer: None,
        })
    }

    // The joiner holds a ticket of the call; where that is the second of a chan, the caller is free.
    fn take_ticket(&mut self, caller: u32, place: u32, second: Option<u32>, call: CallId)
        requires caller { caller ≤ self.old.callers }
        requires asks { (before : AnyStep)
            × ((world_of self.old).stages caller ≡ Asking place second before) }
        ensures world { let j = askings.joiner caller second in
            world_of self.new
            ≡ with_used (with_stage (with_stage (world_of self.old) caller Free) j
            (Holding place ((world_of self.old).generations j) call)) j }
        ensures sizes { SameSizes self.old self.new }
    {
        let by = self.joiner(caller, second);
        let generation = self.next_call(by).generation;
        let ticket = Stage::Holding {
            place,
            generation,
            call,
        };
        match second {
            None => {
                self.set_stage(caller, ticket);
                self.use_generation(caller);
            }
            Some(second) => {
                self.set_stages(second, ticket, caller, Stage::Free);
                self.use_generation(second);
            }
        }
    }
}
