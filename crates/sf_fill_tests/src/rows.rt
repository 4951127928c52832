//! Gets, reloads and what is counted, of getters one after another and side by side.

use crate::trial::{Tried, trials, try_out};
use std::alloc::Global;
use std::process::Abort;
use std::sync::Wait;
use std::test::Fail;
use std::thread::Threads;

const TRIALS: &str = "\
trial reload_makes_a_third_get_load_again
1 get a
1 get a
1 reload a
1 get a
1 take-log
=
1 a v=true 1.1 root=1.1 joiners=0
1 a v=true 1.1 root=1.1 joiners=0
1 reload a cleared 1.1
1 a v=true 1.2 root=1.2 joiners=0
1 lead 1 1.1
1 settle 1 1.1 0
1 handed 1 1.1
1 forgetcall 1 1.1 cleared
1 lead 1 1.2
1 settle 1 1.2 0
1 handed 1 1.2
1 log
counted 3 1 2 2 0 0 2 0

trial logs_have_room_for_three_events
# There is room for three events. What is taken is gone, and the room with it.
log 3
1 get a
1 reload a
1 take-log
1 get a
1 take-log
=
1 a v=true 1.1 root=1.1 joiners=0
1 reload a cleared 1.1
1 lead 1 1.1
1 settle 1 1.1 0
1 handed 1 1.1
1 log
1 a v=true 1.2 root=1.2 joiners=0
1 log
counted 2 0 2 2 0 0 2 0

trial failed_peer_then_a_hit_for_the_second_getter
peer fault
1 get a
2 get a
2 settle-up
=
1 a v=true 1.1 root=1.1 joiners=0
2 a v=true 1.1 root=1.1 joiners=0
2 owes=false settled=true
counted 2 1 1 1 0 1 1 0

trial local_fault_is_answered_and_not_kept
local fault
getters end
1 get a
2 get a
=
1 a down
2 a down
counted 2 0 2 2 0 0 0 2

trial one_in_ten_of_the_peers_values
# The first draw is 0, so the peer's first value is kept; its second is not.
peer value
1 get a
1 get a
1 get b
1 get b
=
1 a v=true 1.1 root=1.1 joiners=0
1 a v=true 1.1 root=1.1 joiners=0
1 b v=true 1.2 root=1.2 joiners=0
1 b v=true 1.3 root=1.3 joiners=0
counted 4 1 3 3 3 0 0 0

trial refused_keys_and_no_room
places 1
limit 0
1 get a
1 get b
1 get long!
1 get a
1 reload b
=
1 a v=true 1.1 root=1.1 joiners=0
1 b directory full
1 long! key too long
1 a v=true 1.2 root=1.2 joiners=0
1 reload b directory full
counted 4 0 2 2 0 0 2 0

trial load_holds_no_lock
# The load of `a` waits until a get of `b` was answered.
getters beside
1 get a
2 await loading
2 get b
2 tell answered
=
1 a v=true 1.1 root=1.1 joiners=0
2 b v=true 2.1 root=2.1 joiners=0
counted 2 0 2 2 0 0 2 0

trial reload_during_load
# The load of `a` waits until a reload of `a` has closed its call. What it gives isn't kept.
getters beside
1 get a
1 tell got
2 await loading
2 reload a
2 tell answered
2 await got
2 get a
=
1 a v=true 1.1 root=1.1 joiners=0
2 reload a closed 1.1
2 a v=true 2.1 root=2.1 joiners=0
counted 2 0 2 2 0 0 2 0

trial old_answer_leaves_the_newer_letter
# What a closed call gives does not take the place of a newer letter in the cache.
getters beside
1 get a
1 tell got
2 await loading
2 reload a
2 get a
2 tell answered
2 await got
2 get a
=
1 a v=true 1.1 root=1.1 joiners=0
2 reload a closed 1.1
2 a v=true 2.1 root=2.1 joiners=0
2 a v=true 2.1 root=2.1 joiners=0
counted 3 1 2 2 0 0 2 0

trial two_keys_on_one_place
# Two keys share the only place of an open fill, and any key has one. Each get answers of its own key: what the other has left in
# the cache is neither answered, nor taken over by the second look of a leader.
places 1
keys hashed
1 get a
1 get a
1 get b
1 get long!
1 reload long!
1 reload b
1 take-log
=
1 a v=true 1.1 root=1.1 joiners=0
1 a v=true 1.1 root=1.1 joiners=0
1 b v=true 1.2 root=1.2 joiners=0
1 long! v=true 1.3 root=1.3 joiners=0
1 reload long! cleared 1.3
1 reload b idle
1 lead 1 1.1
1 settle 1 1.1 0
1 handed 1 1.1
1 lead 1 1.2
1 settle 1 1.2 0
1 handed 1 1.2
1 lead 1 1.3
1 settle 1 1.3 0
1 handed 1 1.3
1 forgetcall 1 1.3 cleared
1 log
counted 4 1 3 3 0 0 3 0

trial book_has_each_get_as_it_ends
# Each get is in the book when it ends, also one that is refused. Where letters are kept near, the last 63 that these answered are
# missing at most; and none once the getter was spent, in either way, or told to enter them.
places 2
longest 3
getters end
1 behind refused
=
1 behind 0
counted 400 382 2 2 0 0 2 0

places 2
longest 3
near 2
getters end
1 behind
=
1 behind 63
counted 400 398 2 2 0 0 2 0

places 2
longest 3
near 2
getters leave
1 behind
=
1 behind 63
counted 400 398 2 2 0 0 2 0

places 2
longest 3
near 2
1 behind
=
1 behind 63
counted 400 398 2 2 0 0 2 0";

#[test]
fn gets_and_reloads(rt: HostRuntime) -> Result<(), Fail> {
    trials(&rt, rt.alloc(), TRIALS)
}

// The second time getters keep letters near. The third time both keys have one place, so getters of the one join calls of the other, and
// ask again.
const CHANGES: &str = "\
local version
getters beside
1 read
2 read
3 change

near 8
local version
getters beside
1 read
2 read
3 change

places 1
keys hashed
local version
getters beside
1 read
2 read
3 change";

#[test]
fn no_old_answers_after_a_reload(rt: HostRuntime) -> Result<(), Fail> {
    for script in CHANGES.split("\n\n") {
        read_beside_changes(&rt, rt.alloc(), script)?;
    }
    Ok(())
}

// Two getters read while a third changes what loads give, and reloads.
fn read_beside_changes<R: Wait + Threads + Abort + Sync>(
    rt: &R,
    alloc: Global,
    script: &str,
) -> Result<(), Fail> {
    let Tried { said, book, .. } = try_out(rt, alloc, script)?;
    assert!(rt; said.as_str() == "1 old=0\n2 old=0\n", "{said}");
    assert!(rt; book.gets == 4_000, "the gets");
    assert!(rt; book.cache_hits < 4_000 && book.loads > 1, "the hits");
    Ok(())
}
