//! Notes and letters that are passed on.

use crate::commands::{Command, id};
use crate::player::{Player, plays, seat};
use crate::value::Value;
use sf_group::Group;
use std::process::Abort;
use std::test::Fail;

const SCRIPTS: &str = "\
group 1 3 1 notes_are_told_and_learnt
ask 1 on 1: 1 leads 1.1 on 1
tell 2 and 3: 3 learns
tell 2 and 1: 1 learns and leads 1.1 on 1
meet 2 and 3: 2 met with 3
settle 1 with 7: 1 settled 1.1 on 1 with 7 joiners=0
ask 2 on 1: 2 leads 2.1 on 1

group 1 2 1 letter_is_copied
ask 1 on 1: 1 leads 1.1 on 1
settle 1 with 7: 1 settled 1.1 on 1 with 7 joiners=0
copy 1: 1 copied 1.1 on 1 with 7 joiners=0
show 1 and 2: 2 learns with 7

group 1 2 1 shared_letters_are_copied
# Letters of a joined call are copied as others are: the leader's, and the joiner's.
ask 1 on 1: 1 leads 1.1 on 1
ask 2 on 1: 2 joins 1.1 as 2.1
settle 1 with 7: 1 settled 1.1 on 1 with 7 joiners=1
copy 1: 1 copied 1.1 on 1 with 7 joiners=1
poll 2: 2 got 1.1 on 1 with 7 joiners=1
copy 2: 2 copied 1.1 on 1 with 7 joiners=1";

#[test]
fn notes_and_letters(rt: HostRuntime) -> Result<(), Fail> {
    plays(&rt, rt.alloc(), SCRIPTS)
}

// The callers of the numbers 65,534 down to 1 join the call of the caller 65,535.
fn join_all(rt: &impl Abort, player: &mut Player) {
    for joined in 0..65_534 {
        let number = 65_534 - joined;
        let reply = player.obey(Command::new("ask", number));
        let (call, member) = (Some(id(65_535, 1)), Some(id(number, 1)));
        assert!(rt;
            reply.did == "joins" && reply.call == call && reply.member == member,
            "{number} {}",
            reply.did
        );
    }
}

// No more can join a call.
#[test]
fn letter_of_most_joiners_is_copied(rt: HostRuntime) -> Result<(), Fail> {
    let (group, mut list) = Group::<Value>::new(rt.alloc(), 1, 65_535, 1)?;
    let mut player = seat(&rt, rt.alloc(), &group, &mut list, 65_535);
    let script = "ask 65535 on 1: 65535 leads 65535.1 on 1";
    player.play(&rt, rt.alloc(), script);
    join_all(&rt, &mut player);
    let script = "settle 65535 with 7: 65535 settled 65535.1 on 1 with 7 joiners=65534
copy 65535: 65535 copied 65535.1 on 1 with 7 joiners=65534
";
    player.play(&rt, rt.alloc(), script);
    Ok(())
}
