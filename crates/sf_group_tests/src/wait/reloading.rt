//! Two threads that reload one stale letter.

use crate::wait::scenes::play;
use crate::wait::seats::Seat;
use crate::wait::stage::Stage;
use crate::wait::value::Value;
use sf_group::Group;
use std::process::Abort;
use std::sync::Wait;
use std::test::Fail;
use std::thread::Threads;

// Caller 1 has loaded the letter, which the callers 2 and 3 reload: the one leads, and the other joins while that loads.
const RELOADS: &str = "\
a forget 1.1: cleared 1.1 or missed 1.1
a ask: leads 2.1 or joins 3.1
a settle 8 once joined: 2 settled 2.1 with 8 joiners=1 shared=true or 2 got 3.1 with 8 joiners=1 shared=true
b forget 1.1: cleared 1.1 or missed 1.1
b ask: leads 3.1 or joins 2.1
b settle 8 once joined: 3 settled 3.1 with 8 joiners=1 shared=true or 3 got 2.1 with 8 joiners=1 shared=true";

fn reload<R: Abort + Threads + Wait + Sync>(
    stage: &Stage<R>,
    one: Seat<'_>,
    two: Seat<'_>,
    three: Seat<'_>,
) {
    one.obey(stage, "do 1: 1 loaded 1.1 with 1 joiners=0 shared=false");
    play(stage, two, three, RELOADS);
    let (loads, cleared) = (stage.loads(), stage.cleared());
    assert!(stage.rt;
        loads == 2,
        "{loads} loads, of which one is the first letter's"
    );
    assert!(stage.rt; cleared == 1, "{cleared} have cleared the call");
}

// By the key in place of the call, the second would close the call that the first leads, and both would load.
#[test]
fn two_reloaders_make_one_run(rt: HostRuntime) -> Result<(), Fail> {
    let (group, mut list) = Group::<Value>::new(rt.alloc(), 1, 3, 1)?;
    let three = Seat::next(&group, &mut list, 1);
    let two = Seat::next(&group, &mut list, 1);
    let one = Seat::next(&group, &mut list, 1);
    reload(&Stage::new(&rt, rt.alloc()), one, two, three);
    Ok(())
}
