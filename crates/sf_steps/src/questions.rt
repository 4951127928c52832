//! The step of a poll, which collects, those of the question whether a call is current, peek and look, and the look that
//! asks which call is named.

ghost use Rattle.std.specs.Prelude.{◌≡◌, ◌≤◌, None, []};
ghost use Rattle.sf_steps_laws.specs.World.{with_stage, is_full};
ghost use Rattle.sf_steps_laws.specs.Turns.{polled, current_stepped};
ghost use Rattle.sf_steps_laws.specs.Events.{current_answer};
ghost use Rattle.sf_steps.specs.Acts.{current_act};
ghost use Rattle.sf_steps_laws.specs.declared.operation.Stage.TheVariants.{Free, Naming, Polling, Questioning};
ghost use Rattle.sf_steps.specs.declared.trace.Act.TheVariants as act_of;

use crate::asking::is_forgot;
use crate::trace::{Act, Step};
use crate::world::{World, is_same_key, named};
use sf_history::CallId;
use sf_steps_laws::{CurrentStep, Stage};
use sf_words::CallState;

impl<V: Drop> World<V> {
    ghost use Rattle.sf_steps.specs.Running.{SameSizes, world_of};

    /// The step of a poll: it loads the own call word, and where that is full the letter is taken from the cell.
    pub(crate) fn step_polling(
        &mut self,
        caller: u32,
        place: u32,
        generation: u32,
        call: CallId,
    ) -> Step<V>
        requires caller { caller ≤ self.old.callers }
        requires polls { (world_of self.old).stages caller ≡ Polling place generation call }
        ensures world { world_of self.new ≡ polled (world_of self.old) caller place generation call
            (is_full ((world_of self.old).calls caller)) }
        ensures act { (result.caller ≡ caller)
            × (result.act ≡ act_of.Collect (record { caller = caller; generation = generation })
            (is_full ((world_of self.old).calls caller))) }
        ensures quiet { (result.events.items ≡ []) × (result.answer ≡ None) }
        ensures sizes { SameSizes self.old self.new }
    {
        let full = matches!(self.call(caller), CallState::Full { .. });
        if full {
            self.set_cell(caller, None);
            self.set_stage(caller, Stage::Free);
        } else {
            self.set_stage(
                caller,
                Stage::Holding {
                    place,
                    generation,
                    call,
                },
            );
        }
        let member = CallId { caller, generation };
        Step::quiet(self.alloc(), caller, Act::Collect { member, full })
    }

    /// The step of the question which call the key word names: its answer is what it loads.
    pub(crate) fn step_naming(&mut self, caller: u32, place: u32) -> Step<V>
        requires caller { caller ≤ self.old.callers }
        requires asks { (world_of self.old).stages caller ≡ Naming place }
        ensures world { world_of self.new ≡ with_stage (world_of self.old) caller Free }
        ensures act { (result.caller ≡ caller)
            × (result.act ≡ act_of.Look place ((world_of self.old).keys place)) }
        ensures quiet { (result.events.items ≡ []) × (result.answer ≡ None) }
        ensures sizes { SameSizes self.old self.new }
    {
        let found = self.key(place);
        self.set_stage(caller, Stage::Free);
        Step::quiet(self.alloc(), caller, Act::Look { place, found })
    }

    /// The next step of a question.
    pub(crate) fn step_questioning(
        &mut self,
        caller: u32,
        place: u32,
        call: CallId,
        step: CurrentStep,
    ) -> Step<V>
        requires caller { caller ≤ self.old.callers }
        requires asks { (world_of self.old).stages caller ≡ Questioning place call step }
        ensures world { world_of self.new ≡ current_stepped (world_of self.old) caller place call
            step }
        ensures caller { result.caller ≡ caller }
        ensures act { result.act ≡ current_act (world_of self.old) place call step }
        ensures events { result.events.items ≡ [] }
        ensures answer { result.answer ≡ current_answer (world_of self.old) place call step }
        ensures sizes { SameSizes self.old self.new }
    {
        let events = Vec::new(self.alloc());
        match step {
            CurrentStep::Peek => {
                let found = self.call(call.caller);
                let act = Act::Peek {
                    caller: call.caller,
                    found,
                };
                let forgot = is_forgot(call, found);
                let stage = if forgot {
                    Stage::Free
                } else {
                    let step = CurrentStep::Look;
                    Stage::Questioning { place, call, step }
                };
                self.set_stage(caller, stage);
                let answer = if forgot { Some(false) } else { None };
                Step {
                    caller,
                    act,
                    events,
                    answer,
                }
            }
            CurrentStep::Look => {
                let found = self.key(place);
                self.set_stage(caller, Stage::Free);
                Step {
                    caller,
                    act: Act::Look { place, found },
                    events,
                    answer: Some(is_same_key(found, named(call, false))),
                }
            }
        }
    }
}
