//! Gets that are refused, or whose loaders fail.

use crate::trial::trials;
use std::test::Fail;

const TRIALS: &str = "\
trial one_place_and_a_key_too_long
# A key of 251 bytes, which is one too long, and the same in an answer.
places 1
longest 250
1 get a
1 get b
1 get LONG
1 get a
=
1 a v=true 1.1 root=1.1 joiners=0
1 b directory full
1 LONG key too long
1 a v=true 1.1 root=1.1 joiners=0
counted 4 1 1 1 0 0 1 0

trial last_generation_of_a_getter
first 4294967295
limit 0
1 get a
1 get a
=
1 a v=true 1.4294967295 root=1.4294967295 joiners=0
1 a spent
counted 2 0 2 1 0 0 1 0

trial peer_fails_its_nth_fetch
# The local getter is asked in place of the peer.
peer fault 1
1 get a
1 get b
1 get c
1 get d
=
1 a v=true 1.1 root=1.1 joiners=0
1 b v=false 1.2 root=1.2 joiners=0
1 c v=false 1.3 root=1.3 joiners=0
1 d v=false 1.4 root=1.4 joiners=0
counted 4 0 4 4 3 1 1 0

peer fault 2
1 get a
1 get b
1 get c
1 get d
=
1 a v=false 1.1 root=1.1 joiners=0
1 b v=true 1.2 root=1.2 joiners=0
1 c v=false 1.3 root=1.3 joiners=0
1 d v=false 1.4 root=1.4 joiners=0
counted 4 0 4 4 3 1 1 0

peer fault 3
1 get a
1 get b
1 get c
1 get d
=
1 a v=false 1.1 root=1.1 joiners=0
1 b v=false 1.2 root=1.2 joiners=0
1 c v=true 1.3 root=1.3 joiners=0
1 d v=false 1.4 root=1.4 joiners=0
counted 4 0 4 4 3 1 1 0

peer fault 4
1 get a
1 get b
1 get c
1 get d
=
1 a v=false 1.1 root=1.1 joiners=0
1 b v=false 1.2 root=1.2 joiners=0
1 c v=false 1.3 root=1.3 joiners=0
1 d v=true 1.4 root=1.4 joiners=0
counted 4 0 4 4 3 1 1 0

trial local_getter_fails_its_nth_load
local fault 1
1 get a
1 get b
1 get c
1 get d
=
1 a down
1 b v=true 1.2 root=1.2 joiners=0
1 c v=true 1.3 root=1.3 joiners=0
1 d v=true 1.4 root=1.4 joiners=0
counted 4 0 4 4 0 0 3 1

local fault 2
1 get a
1 get b
1 get c
1 get d
=
1 a v=true 1.1 root=1.1 joiners=0
1 b down
1 c v=true 1.3 root=1.3 joiners=0
1 d v=true 1.4 root=1.4 joiners=0
counted 4 0 4 4 0 0 3 1

local fault 3
1 get a
1 get b
1 get c
1 get d
=
1 a v=true 1.1 root=1.1 joiners=0
1 b v=true 1.2 root=1.2 joiners=0
1 c down
1 d v=true 1.4 root=1.4 joiners=0
counted 4 0 4 4 0 0 3 1

local fault 4
1 get a
1 get b
1 get c
1 get d
=
1 a v=true 1.1 root=1.1 joiners=0
1 b v=true 1.2 root=1.2 joiners=0
1 c v=true 1.3 root=1.3 joiners=0
1 d down
counted 4 0 4 4 0 0 3 1

trial both_fail
# The peer's fault is followed by the local getter's, which is the answer.
peer fault 3
local fault 1
1 get a
1 get b
1 get c
1 get d
=
1 a v=false 1.1 root=1.1 joiners=0
1 b v=false 1.2 root=1.2 joiners=0
1 c down
1 d v=false 1.4 root=1.4 joiners=0
counted 4 0 4 4 3 1 0 1";

#[test]
fn refused_and_failing_gets(rt: HostRuntime) -> Result<(), Fail> {
    trials(&rt, rt.alloc(), TRIALS)
}
