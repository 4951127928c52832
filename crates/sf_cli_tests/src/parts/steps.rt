//! The world step by step. What schedules print, and which turns they refuse, is tested by `.ci/cases`.

use sf_steps::{Op, World, laws};
use sf_steps_text::step_text;
use sf_text::Outcome;
use std::alloc::Global;
use std::process::Abort;

// The caller asks for place 1.
fn asks(rt: &impl Abort, world: &mut World<Outcome>, caller: u32) {
    let op = Op::Ask { place: 1 };
    assert!(rt; world.may_start(caller, &op), "it may not ask");
    world.start(caller, op);
}

// The caller makes its next step, which prints this.
fn prints(rt: &impl Abort, alloc: Global, world: &mut World<Outcome>, caller: u32, due: &str) {
    assert!(rt; world.may_step(caller), "it has no operation");
    let Ok(step) = world.step(caller) else {
        panic!(rt; "no memory")
    };
    let Ok(text) = step_text(alloc, &step) else {
        panic!(rt; "no memory")
    };
    assert!(rt; text.as_str() == due, "another step");
}

// The caller leaves its asking, whose exchange failed, and begins a Forget.
fn leaves(rt: &impl Abort, world: &mut World<Outcome>, caller: u32) {
    assert!(rt; world.may_leave(caller), "it may not leave");
    world.leave(caller);
    let op = Op::Forget { place: 1 };
    assert!(rt; world.may_start(caller, &op), "it may not forget");
    world.start(caller, op);
}

// A world of two callers and one place.
fn new_world(rt: &impl Abort, alloc: Global) -> World<Outcome> {
    let Ok(world) = World::new(alloc, 2, 1) else {
        panic!(rt; "no memory")
    };
    assert!(rt; world.callers() == 2 && world.places() == 1);
    let beyond = world.may_start(1, &Op::Ask { place: 2 })
        || world.may_start(2, &Op::Named { place: 2 });
    assert!(rt; !beyond, "it has another place");
    world
}

// The first leads. It has no step left then.
fn leads(rt: &impl Abort, alloc: Global, world: &mut World<Outcome>) {
    prints(rt, alloc, world, 1, "1 ready 1.1 open\n");
    prints(rt, alloc, world, 1, "1 lead 1 1.1 yes\n= lead 1 1.1\n");
    assert!(rt; !world.may_step(1), "it has a step left");
}

// The second comes too late, and may leave then alone.
fn comes_late(rt: &impl Abort, alloc: Global, world: &mut World<Outcome>) {
    prints(rt, alloc, world, 2, "2 ready 2.1 open\n");
    assert!(rt; !world.may_leave(2), "it may leave before");
    prints(rt, alloc, world, 2, "2 lead 1 2.1 no\n");
    leaves(rt, world, 2);
}

// Both look at the only place, and the first leads; the second comes too late, and leaves.
#[test]
fn worlds_step(rt: HostRuntime) {
    let mut world = new_world(&rt, rt.alloc());
    asks(&rt, &mut world, 1);
    asks(&rt, &mut world, 2);
    prints(&rt, rt.alloc(), &mut world, 1, "1 look 1 0\n");
    prints(&rt, rt.alloc(), &mut world, 2, "2 look 1 0\n");
    leads(&rt, rt.alloc(), &mut world);
    comes_late(&rt, rt.alloc(), &mut world);
}

#[test]
fn laws_of_schedules(_rt: HostRuntime) {
    laws::schedules_are_legal::<Outcome>();
    laws::letters_are_answers::<Outcome>();
    laws::tickets_are_served::<Outcome>();
    laws::cells_are_collected::<Outcome>();
    laws::questions_are_answered_rightly::<Outcome>();
    laws::others_are_left::<Outcome>();
    laws::events_have_makers::<Outcome>();
    laws::looks_are_of_one_question::<Outcome>();
    laws::leads_know_the_call_before::<Outcome>();
    laws::leaders_have_lists::<Outcome>();
    laws::leaders_count_rightly::<Outcome>();
    laws::words_are_in_range::<Outcome>();
    laws::words_change_by_turns::<Outcome>();
    laws::closes_fail_seldom::<Outcome>();
    laws::key_words_name_the_last_lead::<Outcome>();
    laws::hits_are_right::<Outcome>();
    laws::past_calls_stay_past::<Outcome>();
}
