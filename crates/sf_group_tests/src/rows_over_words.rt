//! The worked scripts of askings, settles and takings, over words.

use crate::player::plays;
use std::test::Fail;

const SCRIPTS: &str = "\
group 1 1 1 lone_lead_is_not_shared
ask 1 on 1: 1 leads 1.1 on 1
settle 1 with 7: 1 settled 1.1 on 1 with 7 joiners=0

group 1 2 1 joiner_gets_the_shared_value
# The cells are used again.
ask 1 on 1: 1 leads 1.1 on 1
ask 2 on 1: 2 joins 1.1 as 2.1
poll 2: 2 waits for 1.1 as 2.1
settle 1 with 7: 1 settled 1.1 on 1 with 7 joiners=1
poll 2: 2 got 1.1 on 1 with 7 joiners=1
ask 2 on 1: 2 leads 2.2 on 1
ask 1 on 1: 1 joins 2.2 as 1.2
settle 2 with 8: 2 settled 2.2 on 1 with 8 joiners=1
poll 1: 1 got 2.2 on 1 with 8 joiners=1
ask 1 on 1: 1 leads 1.3 on 1
ask 2 on 1: 2 joins 1.3 as 2.3
settle 1 with 9: 1 settled 1.3 on 1 with 9 joiners=1
poll 2: 2 got 1.3 on 1 with 9 joiners=1

group 2 5 1 each_joiner_gets_the_value
# The last to join is the first whose letter is there.
ask 5 on 2: 5 leads 5.1 on 2
ask 1 on 1: 1 leads 1.1 on 1
ask 2 on 1: 2 joins 1.1 as 2.1
ask 3 on 1: 3 joins 1.1 as 3.1
ask 4 on 1: 4 joins 1.1 as 4.1
settle 1 with 13: 1 settled 1.1 on 1 with 13 joiners=3
poll 2: 2 got 1.1 on 1 with 13 joiners=3
ask 2 on 1: 2 leads 2.2 on 1
poll 4: 4 got 1.1 on 1 with 13 joiners=3
poll 3: 3 got 1.1 on 1 with 13 joiners=3
ask 1 on 2: 1 joins 5.1 as 1.2
settle 5 with 14: 5 settled 5.1 on 2 with 14 joiners=1
poll 1: 1 got 5.1 on 2 with 14 joiners=1

group 1 4 1 forget_parts_old_and_new_callers
ask 1 on 1: 1 leads 1.1 on 1
ask 2 on 1: 2 joins 1.1 as 2.1
forget 3 on 1: 3 forgot 1.1
ask 4 on 1: 4 leads 4.1 on 1
settle 1 with 7: 1 settled 1.1 on 1 with 7 joiners=1
poll 2: 2 got 1.1 on 1 with 7 joiners=1
settle 4 with 8: 4 settled 4.1 on 1 with 8 joiners=0

group 1 4 1 late_settle_leaves_the_newer_call
ask 1 on 1: 1 leads 1.1 on 1
forget 2 on 1: 2 forgot 1.1
ask 3 on 1: 3 leads 3.1 on 1
settle 1 with 7: 1 settled 1.1 on 1 with 7 joiners=0
ask 4 on 1: 4 joins 3.1 as 4.1
settle 3 with 8: 3 settled 3.1 on 1 with 8 joiners=1
poll 4: 4 got 3.1 on 1 with 8 joiners=1

group 1 2 1 own_channel_is_not_shared
chan 1 and 2 on 1: 1 leads with a channel 1.1 as 2.1 on 1
settle 1 with 7: 1 settled 1.1 on 1 with 7 joiners=0
poll 2: 2 got 1.1 on 1 with 7 joiners=0

group 1 4 1 later_channel_is_shared
chan 1 and 2 on 1: 1 leads with a channel 1.1 as 2.1 on 1
chan 3 and 4 on 1: 3 sends a channel to 1.1 as 4.1
settle 1 with 7: 1 settled 1.1 on 1 with 7 joiners=1
poll 4: 4 got 1.1 on 1 with 7 joiners=1
poll 2: 2 got 1.1 on 1 with 7 joiners=1

group 1 4 1 own_and_later_channel
chan 1 and 2 on 1: 1 leads with a channel 1.1 as 2.1 on 1
chan 3 and 4 on 1: 3 sends a channel to 1.1 as 4.1
forget 3 on 1: 3 forgot 1.1
ask 3 on 1: 3 leads 3.1 on 1

group 2 2 4294967295 second_caller_spent
ask 2 on 2: 2 leads 2.4294967295 on 2
settle 2 with 7: 2 settled 2.4294967295 on 2 with 7 joiners=0
chan 1 and 2 on 1: 1 is spent with 2
ask 1 on 1: 1 leads 1.4294967295 on 1";

#[test]
fn rows_over_words(rt: HostRuntime) -> Result<(), Fail> {
    plays(&rt, rt.alloc(), SCRIPTS)
}
