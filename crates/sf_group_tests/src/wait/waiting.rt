//! The waiting forms, and do. Who rests is woken: by the delivery to its own channel, and by one that goes on after memory was
//! refused.

use crate::wait::callers::lead_chan;
use crate::wait::scenes::{play, play_chan, play_new};
use crate::wait::seats::Seat;
use crate::wait::stage::Stage;
use crate::wait::value::Value;
use sf_group::Group;
use std::process::Abort;
use std::sync::Wait;
use std::test::Fail;

// Caller 1 pauses for so long that caller 2 rests before its letter is delivered.
const REST: &str = "\
a pause
a settle 7: 1 settled 1.1 with 7 joiners=0 shared=false
b wait: 2 got 1.1 with 7 joiners=0 shared=false";

const ALONE: &str = "\
a ask: leads 1.1
a settle 7: 1 settled 1.1 with 7 joiners=0 shared=false
a forget: forgot nothing";

const CHANNEL: &str = "\
a settle 7: 1 settled 1.1 with 7 joiners=0 shared=false
b wait: 2 got 1.1 with 7 joiners=0 shared=false";

// A copy is owed to caller 2, which never takes it.
const HELD_DELIVERY: &str = "\
a ask: leads 1.1
a await done
a settle 100 refused 9: owes letters
a go: owes letters still
b await led
b ask: joins 1.1
b leave
b tell done";

// After its last generation the caller comes back, and its load.
const LONE_DO: &str = "\
a do 7: 1 loaded 1.4294967295 with 7 joiners=0 shared=false
a loads: 1
a do 8: 1 is spent, and its load answers 8";

const HELD_DO: &str = "\
a do 100 refused 9 once done: owes letters
b await led
b ask: joins 1.1
b leave
b tell done";

// Caller 2 rests until the delivery goes on.
const DELIVERY_GOES_ON: &str = "\
a ask: leads 1.1
a await joined
a pause
a settle 7 refused 1: owes letters
a pause
a go: 1 delivered 1.1 with 7 joiners=1 shared=true
b await led
b ask: joins 1.1
b wait: 2 got 1.1 with 7 joiners=1 shared=true";

#[test]
fn forms_of_one_caller(rt: HostRuntime) -> Result<(), Fail> {
    play_new(&rt, rt.alloc(), 1, 1, ALONE)?;
    play_new(&rt, rt.alloc(), 1, 4_294_967_295, LONE_DO)?;
    play_chan(&rt, rt.alloc(), CHANNEL)
}

#[test]
fn forms_of_two_callers(rt: HostRuntime) -> Result<(), Fail> {
    for scene in [HELD_DELIVERY, HELD_DO, DELIVERY_GOES_ON] {
        play_new(&rt, rt.alloc(), 2, 1, scene)?;
    }
    Ok(())
}

#[test]
fn own_channel_that_rests_is_woken(rt: HostRuntime) -> Result<(), Fail> {
    play_chan(&rt, rt.alloc(), REST)
}

// The leader delivers 101 letters. The joiner looks for each once it is there, so it never rests.
fn deliver_often<R: Abort + Wait>(stage: &Stage<R>, one: Seat<'_>, other: Seat<'_>) {
    let mut leader = one;
    let mut joiner = other;
    for _ in 0..100 {
        leader = leader.make(stage, "ask");
        joiner = joiner.make(stage, "ask");
        leader = leader.make(stage, "settle 7");
        joiner = joiner.make(stage, "wait");
    }
    leader = leader.obey(stage, "ask: leads 4.101");
    joiner = joiner.obey(stage, "ask: joins 4.101");
    leader.obey(
        stage,
        "settle 7: 4 settled 4.101 with 7 joiners=1 shared=true",
    );
    joiner.obey(stage, "wait: 3 got 4.101 with 7 joiners=1 shared=true");
}

// Caller 2 rests and is woken. Then callers 3 and 4 use the same group, and neither rests. The test
// checks the letters alone. A delivery that wakes nobody makes no system call: `.ci/refused-memory`
// counts them.
#[test]
fn letters_after_a_rest_wake_nobody(rt: HostRuntime) -> Result<(), Fail> {
    let (group, mut list) = Group::<Value>::new(rt.alloc(), 1, 4, 1)?;
    let stage = Stage::new(&rt, rt.alloc());
    let leader = Seat::next(&group, &mut list, 1);
    let joiner = Seat::next(&group, &mut list, 1);
    let (flight, second) = lead_chan(&rt, &group, &mut list, 1);
    play(&stage, Seat::leading(&group, flight, 1), second, REST);
    deliver_often(&stage, leader, joiner);
    Ok(())
}
