//! Which calls are current, which one a place names, and which one was before.

use crate::player::plays;
use std::test::Fail;

const SCRIPTS: &str = "\
group 1 3 1 calls_of_current
ask 1 on 1: 1 leads 1.1 on 1
settle 1 with 7: 1 settled 1.1 on 1 with 7 joiners=0
current 1: 1 finds current 1.1 on 1
give 1 and 2: 1 gave its letter with 2
current 2: 2 finds current 1.1 on 1
forget 2 on 1: 2 forgot nothing
give 2 and 1: 2 gave its letter with 1
current 1: 1 finds outdated 1.1 on 1
give 1 and 2: 1 gave its letter with 2
current 2: 2 finds outdated 1.1 on 1
ask 3 on 1: 3 leads 3.1 on 1
settle 3 with 8: 3 settled 3.1 on 1 with 8 joiners=0
give 2 and 1: 2 gave its letter with 1
current 1: 1 finds outdated 1.1 on 1
give 3 and 1: 3 gave its letter with 1
current 1: 1 finds current 3.1 on 1

group 2 3 1 forgotten_call_is_not_current
# A call that a Forget closed is not current, by its leader's letter and by a joiner's.
ask 1 on 2: 1 leads 1.1 on 2
ask 2 on 2: 2 joins 1.1 as 2.1
forget 3 on 2: 3 forgot 1.1
settle 1 with 7: 1 settled 1.1 on 2 with 7 joiners=1
current 1: 1 finds outdated 1.1 on 2
poll 2: 2 got 1.1 on 2 with 7 joiners=1
give 2 and 1: 2 gave its letter with 1
current 1: 1 finds outdated 1.1 on 2
ask 2 on 2: 2 leads 2.2 on 2
settle 2 with 8: 2 settled 2.2 on 2 with 8 joiners=0
current 2: 2 finds current 2.2 on 2

group 2 3 1 calls_of_any_numbers
# A call before it is led, while it is open, once it is settled, and once it is forgotten.
still 3 on 1 of 1.1: 3 finds outdated 1.1 on 1
ask 1 on 1: 1 leads 1.1 on 1
ask 2 on 1: 2 joins 1.1 as 2.1
still 3 on 1 of 1.1: 3 finds current 1.1 on 1
still 1 on 1 of 1.1: 1 finds current 1.1 on 1
still 2 on 1 of 1.1: 2 finds current 1.1 on 1
still 1 on 2 of 1.1: 1 finds outdated 1.1 on 2
still 1 on 1 of 1.2: 1 finds outdated 1.2 on 1
still 2 on 1 of 2.1: 2 finds outdated 2.1 on 1
still 2 on 1 of 0.1: 2 finds outdated 0.1 on 1
still 2 on 1 of 4.1: 2 finds outdated 4.1 on 1
settle 1 with 7: 1 settled 1.1 on 1 with 7 joiners=1
poll 2: 2 got 1.1 on 1 with 7 joiners=1
still 2 on 1 of 1.1: 2 finds current 1.1 on 1
forget 3 on 1: 3 forgot nothing
still 1 on 1 of 1.1: 1 finds outdated 1.1 on 1
ask 2 on 1: 2 leads 2.2 on 1
still 1 on 1 of 2.2: 1 finds current 2.2 on 1
still 1 on 1 of 1.1: 1 finds outdated 1.1 on 1

group 1 4 1 forgotten_call_by_name
name 2 on 1: 2 finds nothing named
ask 1 on 1: 1 leads 1.1 on 1
name 2 on 1: 2 finds named 1.1
forgetcall 2 on 1 of 1.1: 2 closed 1.1
ask 3 on 1: 3 leads 3.1 on 1
name 2 on 1: 2 finds named 3.1
forgetcall 2 on 1 of 1.1: 2 missed 1.1
ask 4 on 1: 4 joins 3.1 as 4.1
settle 3 with 8: 3 settled 3.1 on 1 with 8 joiners=1
poll 4: 4 got 3.1 on 1 with 8 joiners=1
name 2 on 1: 2 finds named 3.1
forgetcall 2 on 1 of 3.1: 2 cleared 3.1
name 2 on 1: 2 finds nothing named
forgetcall 2 on 1 of 3.1: 2 missed 3.1
settle 1 with 7: 1 settled 1.1 on 1 with 7 joiners=0

group 1 2 1 missed_call_stays_new
# Neither a caller that has not asked yet nor one that the group does not have.
forgetcall 1 on 1 of 2.1: 1 missed 2.1
forgetcall 1 on 1 of 65535.4294967295: 1 missed 65535.4294967295
forgetcall 1 on 1 of 0.0: 1 missed 0.0
ask 2 on 1: 2 leads 2.1 on 1
forgetcall 1 on 1 of 2.2: 1 missed 2.2
forgetcall 1 on 1 of 1.1: 1 missed 1.1
ask 1 on 1: 1 joins 2.1 as 1.1
settle 2 with 7: 2 settled 2.1 on 1 with 7 joiners=1
poll 1: 1 got 2.1 on 1 with 7 joiners=1

group 1 3 1 flights_know_the_call_before
ask 1 on 1: 1 leads 1.1 on 1
after 1: 1 follows nothing
settle 1 with 7: 1 settled 1.1 on 1 with 7 joiners=0
chan 1 and 2 on 1: 1 leads with a channel 1.2 as 2.1 on 1
after 1: 1 follows 1.1
forget 3 on 1: 3 forgot 1.2
ask 3 on 1: 3 leads 3.1 on 1
after 3: 3 follows nothing";

#[test]
fn questions(rt: HostRuntime) -> Result<(), Fail> {
    plays(&rt, rt.alloc(), SCRIPTS)
}
