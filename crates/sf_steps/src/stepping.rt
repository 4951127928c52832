//! Turns on the world: `start`, `step` and `leave`.

ghost use Rattle.std.specs.Prelude.{◌≡◌, ◌≤◌, ℕ, false, Option, IfOk, OnOk, OnErr};
ghost use Rattle.sf_history.specs.declared.call.CallId.{CallId};
ghost use Rattle.sf_steps_laws.specs.declared.operation.Op.TheVariants as op_of;
ghost use Rattle.sf_steps_laws.specs.declared.operation.AskStep.{AskStep as AnyStep};
ghost use Rattle.sf_steps_laws.specs.declared.operation.ForgetStep.TheVariants as forget;
ghost use Rattle.sf_steps_laws.specs.declared.operation.Stage.TheVariants.{Free, Leading, Holding, Asking, Forgetting};
ghost use Rattle.sf_steps_laws.specs.World.{with_stage};
ghost use Rattle.sf_steps_laws.specs.Turns as turns;
ghost use Rattle.sf_steps_laws.specs.Events.{step_events, answer_at};
ghost use Rattle.sf_steps.specs.Acts.{act_at, stepper};
ghost use Rattle.sf_steps_laws.specs.Schedules.{MayStart, HasOperation, MayLeave};

use crate::settling::LedCall;
use crate::trace::Step;
use crate::world::World;
use sf_history::{CallId, Memory, Share};
use sf_steps_laws::{AskStep, CurrentStep, ForgetStep, Op, SettleStep, Stage};

impl<V: Share> World<V> {
    ghost use Rattle.sf_steps.specs.Running.{SameSizes, setting_of, world_of};

    /// Starts an operation of a caller. It takes no memory.
    ///
    /// That a call of which a question is asked was led on its place is for the schedule to see to.
    pub fn start(&mut self, caller: u32, op: Op<V>)
        requires caller { (1 ≤ caller) × (caller ≤ self.old.callers) }
        requires may_start { MayStart (setting_of self.old) (world_of self.old) caller op }
        ensures world { world_of self.new ≡ turns.started (world_of self.old) caller op
            ((world_of self.old).stages caller) }
        ensures sizes { SameSizes self.old self.new }
    {
        match op {
            Op::Ask { place } => {
                let (second, step) = (None, AskStep::Look { failed: false });
                let asking = Stage::Asking {
                    place,
                    second,
                    step,
                };
                self.set_stage(caller, asking);
            }
            Op::Chan { second, place } => self.start_chan(caller, second, place),
            Op::Settle { result } => self.start_settle(caller, result),
            Op::Forget { place } => self.start_forget(caller, place, None),
            Op::ForgetCall { place, call } => self.start_forget(caller, place, Some(call)),
            Op::Named { place } => self.set_stage(caller, Stage::Naming { place }),
            Op::Poll => self.start_poll(caller),
            Op::Current { place, call } => {
                let step = CurrentStep::Peek;
                self.set_stage(caller, Stage::Questioning { place, call, step });
            }
        }
    }

    fn start_forget(&mut self, caller: u32, place: u32, target: Option<CallId>)
        requires caller { (1 ≤ caller) × (caller ≤ self.old.callers) }
        requires free { (world_of self.old).stages caller ≡ Free }
        requires place { (1 ≤ place) × (place ≤ self.old.places) }
        ensures world { world_of self.new ≡ with_stage (world_of self.old) caller
            (Forgetting place target (forget.Look false)) }
        ensures sizes { SameSizes self.old self.new }
    {
        let step = ForgetStep::Look { failed: false };
        let forgetting = Stage::Forgetting {
            place,
            target,
            step,
        };
        self.set_stage(caller, forgetting);
    }

    fn start_chan(&mut self, caller: u32, second: u32, place: u32)
        requires caller { (1 ≤ caller) × (caller ≤ self.old.callers) }
        requires may_start { MayStart (setting_of self.old) (world_of self.old) caller
            (op_of.Chan second place) }
        ensures world { world_of self.new ≡ turns.started (world_of self.old) caller
            (op_of.Chan second place) ((world_of self.old).stages caller) }
        ensures sizes { SameSizes self.old self.new }
    {
        let step = AskStep::Look { failed: false };
        self.set_stages(
            second,
            Stage::Seconding { first: caller },
            caller,
            Stage::Asking {
                place,
                second: Some(second),
                step,
            },
        );
    }

    fn start_settle(&mut self, caller: u32, value: V)
        requires caller { caller ≤ self.old.callers }
        requires leads { (k g : ℕ) × (own : Option CallId)
            × ((world_of self.old).stages caller ≡ Leading k g own) }
        ensures world { world_of self.new ≡ turns.started (world_of self.old) caller
            (op_of.Settle value) ((world_of self.old).stages caller) }
        ensures sizes { SameSizes self.old self.new }
    {
        let Stage::Leading {
            place,
            generation,
            own,
        } = self.stage(caller)
        else {
            unreachable!();
        };
        let stage = Stage::Settling {
            place: *place,
            generation: *generation,
            own: *own,
            result: value,
            step: SettleStep::Peek,
        };
        self.set_stage(caller, stage);
    }

    fn start_poll(&mut self, caller: u32)
        requires caller { caller ≤ self.old.callers }
        requires holds { (k g : ℕ) × (c : CallId)
            × ((world_of self.old).stages caller ≡ Holding k g c) }
        ensures world { world_of self.new ≡ turns.started (world_of self.old) caller op_of.Poll
            ((world_of self.old).stages caller) }
        ensures sizes { SameSizes self.old self.new }
    {
        let Stage::Holding {
            place,
            generation,
            call,
        } = self.stage(caller)
        else {
            unreachable!();
        };
        let stage = Stage::Polling {
            place: *place,
            generation: *generation,
            call: *call,
        };
        self.set_stage(caller, stage);
    }

    /// Leaves a caller's operation, right after a failed exchange that went back to its look. The second of a chan is
    /// free again with its first. It takes no memory.
    pub fn leave(&mut self, caller: u32)
        requires caller { (1 ≤ caller) × (caller ≤ self.old.callers) }
        requires may_leave { MayLeave ((world_of self.old).stages caller) }
        ensures world { world_of self.new ≡ turns.left (world_of self.old) caller
            ((world_of self.old).stages caller) }
        ensures sizes { SameSizes self.old self.new }
    {
        match self.stage(caller) {
            Stage::Asking { second, .. } => {
                let second = *second;
                self.leave_asking(caller, second);
            }
            _ => self.set_stage(caller, Stage::Free),
        }
    }

    fn leave_asking(&mut self, caller: u32, second: Option<u32>)
        requires caller { caller ≤ self.old.callers }
        requires asks { (place : ℕ) × (before : AnyStep)
            × ((world_of self.old).stages caller ≡ Asking place second before) }
        ensures world { world_of self.new ≡ turns.freed (world_of self.old) caller second }
        ensures sizes { SameSizes self.old self.new }
    {
        match second {
            None => self.set_stage(caller, Stage::Free),
            Some(second) => self.set_stages(second, Stage::Free, caller, Stage::Free),
        }
    }

    /// The next step of a caller's operation. Where memory is refused, nothing changes.
    pub fn step(&mut self, caller: u32) -> Result<Step<V>, Memory>
        requires caller { (1 ≤ caller) × (caller ≤ self.old.callers) }
        requires operation { HasOperation ((world_of self.old).stages caller) }
        ensures world { OnOk result
            (world_of self.new ≡ turns.stepped (world_of self.old) caller
            ((world_of self.old).stages caller)) }
        ensures caller { IfOk result (λ step.
            step.caller ≡ stepper caller ((world_of self.old).stages caller)) }
        ensures act { IfOk result (λ step.
            step.act ≡ act_at (world_of self.old) caller ((world_of self.old).stages caller)) }
        ensures events { IfOk result (λ step.
            step.events.items ≡ step_events (world_of self.old) caller
            ((world_of self.old).stages caller)) }
        ensures answer { IfOk result (λ step.
            step.answer ≡ answer_at (world_of self.old) ((world_of self.old).stages caller)) }
        ensures unchanged { OnErr result (world_of self.new ≡ world_of self.old) }
        ensures sizes { SameSizes self.old self.new }
    {
        match self.stage(caller) {
            &Stage::Asking {
                place,
                second,
                step,
            } => self.step_asking(caller, place, second, step),
            &Stage::Settling {
                place,
                generation,
                own,
                step,
                ..
            } => {
                let call = CallId { caller, generation };
                self.step_settling(LedCall { place, call, own }, step)
            }
            &Stage::Forgetting {
                place,
                target,
                step,
            } => self.step_forgetting(caller, place, target, step),
            &Stage::Naming { place } => Ok(self.step_naming(caller, place)),
            &Stage::Polling {
                place,
                generation,
                call,
            } => Ok(self.step_polling(caller, place, generation, call)),
            &Stage::Questioning { place, call, step } => {
                Ok(self.step_questioning(caller, place, call, step))
            }
            _ => unreachable!(),
        }
    }
}
