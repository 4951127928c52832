//! Worked rows: Forgets, generations that end, and letters that are owed.

use crate::player::plays;
use std::test::Fail;

const SCRIPTS: &str = "\
group 1 3 1 forget_then_lead_again
ask 1 on 1: 1 leads 1.1 on 1
forget 2 on 1: 2 forgot 1.1
ask 3 on 1: 3 leads 3.1 on 1
settle 1 with 7: 1 settled 1.1 on 1 with 7 joiners=0
settle 3 with 8: 3 settled 3.1 on 1 with 8 joiners=0
ask 1 on 1: 1 leads 1.2 on 1

group 2 1 1 idle_key_forgotten_twice
forget 1 on 2: 1 forgot nothing
forget 1 on 2: 1 forgot nothing
name 1 on 1: 1 finds nothing named
name 1 on 2: 1 finds nothing named
name 1 on 0: 1 finds no place on 0
name 1 on 3: 1 finds no place on 3

group 1 1 4294967295 last_generation_is_spent
ask 1 on 1: 1 leads 1.4294967295 on 1
settle 1 with 7: 1 settled 1.4294967295 on 1 with 7 joiners=0
ask 1 on 1: 1 is spent
forget 1 on 1: 1 forgot nothing

group 1 4 1 refused_copies_hold_the_delivery
ask 1 on 1: 1 leads 1.1 on 1
ask 2 on 1: 2 joins 1.1 as 2.1
ask 3 on 1: 3 joins 1.1 as 3.1
settle 1 with 100 refused 3: 1 owes letters 1.1 on 1 joiners=2
go 1: 1 owes letters joiners=2
poll 2: 2 waits for 1.1 as 2.1
poll 3: 3 waits for 1.1 as 3.1
forget 4 on 1: 4 forgot nothing
ask 4 on 1: 4 leads 4.1 on 1

group 1 3 1 forgotten_call_is_delivered
# The leader of a forgotten call that somebody joined hands a letter out too.
ask 1 on 1: 1 leads 1.1 on 1
ask 2 on 1: 2 joins 1.1 as 2.1
forget 3 on 1: 3 forgot 1.1
ask 3 on 1: 3 leads 3.1 on 1
settle 1 with 7: 1 settled 1.1 on 1 with 7 joiners=1
poll 2: 2 got 1.1 on 1 with 7 joiners=1
ask 2 on 1: 2 joins 3.1 as 2.2

group 1 3 1 delivery_goes_on_where_it_stood
# One copy is there, for the last that joined; the other is refused, and is there when the delivery goes on.
ask 3 on 1: 3 leads 3.1 on 1
ask 2 on 1: 2 joins 3.1 as 2.1
ask 1 on 1: 1 joins 3.1 as 1.1
settle 3 with 7 refused 2: 3 owes letters 3.1 on 1 joiners=2
poll 1: 1 got 3.1 on 1 with 7 joiners=2
poll 2: 2 waits for 3.1 as 2.1
go 3: 3 settled 3.1 on 1 with 7 joiners=2
poll 2: 2 got 3.1 on 1 with 7 joiners=2

group 1 2 1 error_is_shared_and_not_kept
ask 1 on 1: 1 leads 1.1 on 1
ask 2 on 1: 2 joins 1.1 as 2.1
settle 1 fault 5: 1 settled 1.1 on 1 fault 5 joiners=1
poll 2: 2 got 1.1 on 1 fault 5 joiners=1
ask 1 on 1: 1 leads 1.2 on 1
settle 1 with 7: 1 settled 1.2 on 1 with 7 joiners=0";

#[test]
fn rows_of_calls(rt: HostRuntime) -> Result<(), Fail> {
    plays(&rt, rt.alloc(), SCRIPTS)
}
