//! A leader and joiners on threads of their own.

use crate::player::{Player, check_line, seat};
use crate::replies::Reply;
use crate::value::Value;
use sf_group::Group;
use std::test::Fail;
use std::thread::{Threads, join};

// The caller of each player does what its line says, on a thread of its own.
fn beside(
    rt: &(impl Threads + Sync),
    one: Player,
    line: &str,
    other: Player,
    other_line: &str,
) -> (Reply, Reply) {
    join(rt, || one.obey_often(line), || other.obey_often(other_line))
}

#[test]
fn row_three_two_threads(rt: HostRuntime) -> Result<(), Fail> {
    let alloc = rt.alloc();
    let (group, mut list) = Group::<Value>::new(alloc, 1, 2, 1)?;
    let mut two = seat(&rt, alloc, &group, &mut list, 1);
    let mut one = seat(&rt, alloc, &group, &mut list, 1);
    one.play(&rt, alloc, "ask 1 on 1: 1 leads 1.1 on 1");
    two.play(&rt, alloc, "ask 2 on 1: 2 joins 1.1 as 2.1");
    let (led, joined) = beside(&rt, one, "settle 1 with 7", two, "poll 2");
    check_line(
        &rt,
        alloc,
        led,
        "settle 1: 1 settled 1.1 on 1 with 7 joiners=1",
    );
    check_line(
        &rt,
        alloc,
        joined,
        "poll 2: 2 got 1.1 on 1 with 7 joiners=1",
    );
    Ok(())
}

#[test]
fn three_joiners_on_threads(rt: HostRuntime) -> Result<(), Fail> {
    let alloc = rt.alloc();
    let (group, mut list) = Group::<Value>::new(alloc, 1, 4, 1)?;
    let mut four = seat(&rt, alloc, &group, &mut list, 1);
    let mut three = seat(&rt, alloc, &group, &mut list, 1);
    let mut two = seat(&rt, alloc, &group, &mut list, 1);
    let mut one = seat(&rt, alloc, &group, &mut list, 1);
    one.play(&rt, alloc, "ask 1 on 1: 1 leads 1.1 on 1");
    two.play(&rt, alloc, "ask 2 on 1: 2 joins 1.1 as 2.1");
    three.play(&rt, alloc, "ask 3 on 1: 3 joins 1.1 as 3.1");
    four.play(&rt, alloc, "ask 4 on 1: 4 joins 1.1 as 4.1");
    let ((led, second), (third, fourth)) = join(
        &rt,
        || beside(&rt, one, "settle 1 with 7", two, "poll 2"),
        || beside(&rt, three, "poll 3", four, "poll 4"),
    );
    check_line(
        &rt,
        alloc,
        led,
        "settle 1: 1 settled 1.1 on 1 with 7 joiners=3",
    );
    check_line(
        &rt,
        alloc,
        second,
        "poll 2: 2 got 1.1 on 1 with 7 joiners=3",
    );
    check_line(&rt, alloc, third, "poll 3: 3 got 1.1 on 1 with 7 joiners=3");
    check_line(
        &rt,
        alloc,
        fourth,
        "poll 4: 4 got 1.1 on 1 with 7 joiners=3",
    );
    Ok(())
}
