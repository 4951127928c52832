//! Scenes: what two callers, `a` and `b`, do side by side, and what comes of each step.
//!
//! Each makes the steps of its own lines, on a thread of its own. Behind a colon stands what is said of a step, or one thing `or`
//! another:
//!
//!     a ask: leads 1.1
//!     a await joined
//!     a settle 7: 1 settled 1.1 with 7 joiners=1 shared=true
//!     b await led
//!     b ask: joins 1.1
//!     b wait: 2 got 1.1 with 7 joiners=1 shared=true
//!
//! The steps:
//!
//!     ask            asks for the caller's place, and tells that it `led` or `joined`
//!     settle 7       settles its call with what a load answers; one that joined waits
//!     go             goes on with its delivery
//!     wait           waits for its letter
//!     leave          gives up what it has
//!     forget         forgets its place
//!     forget 1.1     forgets a call of its place
//!     do 7           a do, with a load
//!     tell done      tells something
//!     await led      waits until it is told; each load tells `led` too
//!     pause          so long that another rests by then
//!     loads          how many loads were called
//!
//! A load may answer `7`, `7 refused 1` where memory for the first copy is refused, or `7 once joined` when that is told.
ghost use Rattle.std.specs.Prelude.{◌≤◌};

use crate::wait::callers::lead_chan;
use crate::wait::seats::Seat;
use crate::wait::stage::Stage;
use crate::wait::value::Value;
use sf_group::Group;
use std::alloc::Global;
use std::process::Abort;
use std::sync::Wait;
use std::test::Fail;
use std::thread::{Threads, join};

// Each line is one of the callers'.
fn check_lines(rt: &impl Abort, scene: &str) {
    for line in scene.lines() {
        let known = line.starts_with("a ") || line.starts_with("b ");
        assert!(rt; known, "{line}");
    }
}

/// The two play the scene.
pub fn play<R: Abort + Threads + Wait + Sync>(
    stage: &Stage<R>,
    one: Seat<'_>,
    other: Seat<'_>,
    scene: &str,
) {
    check_lines(stage.rt, scene);
    join(
        stage.rt,
        || one.play(stage, "a ", scene),
        || other.play(stage, "b ", scene),
    );
}

/// So many callers of a new group, one or two, play the scene, from this generation on.
pub fn play_new<R: Abort + Threads + Wait + Sync>(
    rt: &R,
    alloc: Global,
    callers: u32,
    generation: u32,
    scene: &str,
) -> Result<(), Fail>
    requires callers { (1 ≤ callers) × (callers ≤ 2) }
    requires generation { 1 ≤ generation }
{
    let (group, mut list) = Group::<Value>::new(alloc, 1, callers, generation)?;
    let stage = Stage::new(rt, alloc);
    let last = Seat::next(&group, &mut list, 1);
    let other = Seat::next(&group, &mut list, 1);
    if callers == 1 {
        play(&stage, last, other, scene);
    } else {
        play(&stage, other, last, scene);
    }
    Ok(())
}

/// Two callers of a new group play the scene, of which the first leads a call, and the second holds its channel.
pub fn play_chan<R: Abort + Threads + Wait + Sync>(
    rt: &R,
    alloc: Global,
    scene: &str,
) -> Result<(), Fail> {
    let (group, mut list) = Group::<Value>::new(alloc, 1, 2, 1)?;
    let stage = Stage::new(rt, alloc);
    let (flight, second) = lead_chan(rt, &group, &mut list, 1);
    play(&stage, Seat::leading(&group, flight, 1), second, scene);
    Ok(())
}
