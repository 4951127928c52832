//! Calls of a fill beside gets and reloads, and letters that getters keep near.

use crate::trial::trials;
use std::test::Fail;

const TRIALS: &str = "\
trial put_is_got
# The put forgets what was loaded; the next get answers what was put, from the cache. The only key has the only place.
places 1
1 get a
1 put a
1 get a
2 get a
=
1 a v=true 1.1 root=1.1 joiners=0
1 put a settled 1.2 of 1 w=true
1 a v=false 1.2 root=1.2 joiners=0
2 a v=false 1.2 root=1.2 joiners=0
counted 4 2 2 2 0 0 2 0

trial removed_key_is_loaded_again
1 get a
1 get b
1 stats
1 remove a
1 get a
1 get b
1 remove abcde
=
1 a v=true 1.1 root=1.1 joiners=0
1 b v=true 1.2 root=1.2 joiners=0
1 main 4 bytes, 2 items, 0 evictions
1 hot 0 bytes, 0 items, 0 evictions
1 remove a true
1 a v=true 1.3 root=1.3 joiners=0
1 b v=true 1.2 root=1.2 joiners=0
1 remove abcde false
counted 4 1 3 3 0 0 3 0

trial all_is_forgotten
1 get a
1 get b
1 forget-all
1 stats
1 get a
1 get b
=
1 a v=true 1.1 root=1.1 joiners=0
1 b v=true 1.2 root=1.2 joiners=0
1 forget all true
1 main 0 bytes, 0 items, 0 evictions
1 hot 0 bytes, 0 items, 0 evictions
1 a v=true 1.3 root=1.3 joiners=0
1 b v=true 1.4 root=1.4 joiners=0
counted 4 0 4 4 0 0 4 0

trial near_letter_answers_what_was_dropped
# Main has room for one key, so the second one takes the first out of it. Its letter is near by then, and answers.
limit 2
near 8
1 get a
1 get a
1 get b
1 stats
1 get a
=
1 a v=true 1.1 root=1.1 joiners=0
1 a v=true 1.1 root=1.1 joiners=0
1 b v=true 1.2 root=1.2 joiners=0
1 main 2 bytes, 1 items, 1 evictions
1 hot 0 bytes, 0 items, 0 evictions
1 a v=true 1.1 root=1.1 joiners=0
counted 4 2 2 2 0 0 2 0

limit 2
1 get a
1 get a
1 get b
1 stats
1 get a
=
1 a v=true 1.1 root=1.1 joiners=0
1 a v=true 1.1 root=1.1 joiners=0
1 b v=true 1.2 root=1.2 joiners=0
1 main 2 bytes, 1 items, 1 evictions
1 hot 0 bytes, 0 items, 0 evictions
1 a v=true 1.3 root=1.3 joiners=0
counted 4 1 3 3 0 0 3 0

trial near_letter_goes_the_long_way
# After 63 hits of a near letter the caches are asked, which have dropped it by then.
limit 2
near 8
1 repeat 1 a
1 repeat 1 a
1 repeat 1 b
1 repeat 64 a
=
counted 67 64 3 3 0 0 3 0

trial near_letters_have_two_slots
# Of three places two have odd numbers, or two have even ones: letters of these would share a slot, if each had but one.
places 4
limit 2
near 2
1 repeat 1 a
1 repeat 1 b
1 repeat 1 c
1 repeat 1 a
1 repeat 1 a
1 repeat 1 b
1 repeat 1 b
1 repeat 1 a
=
counted 8 3 5 5 0 0 5 0

places 4
limit 2
near 2
1 repeat 1 a
1 repeat 1 b
1 repeat 1 c
1 repeat 1 a
1 repeat 1 a
1 repeat 1 c
1 repeat 1 c
1 repeat 1 a
=
counted 8 3 5 5 0 0 5 0

places 4
limit 2
near 2
1 repeat 1 a
1 repeat 1 b
1 repeat 1 c
1 repeat 1 b
1 repeat 1 b
1 repeat 1 c
1 repeat 1 c
1 repeat 1 b
=
counted 8 3 5 5 0 0 5 0

trial near_letter_answered_often_stays
# Of two letters near a third one takes the place of the one that was answered less often; and one that was answered stays, until
# others have asked for its slot as often.
places 4
limit 2
near 2
1 repeat 1 a
1 repeat 1 a
1 repeat 1 b
1 repeat 1 b
1 repeat 5 a
1 repeat 1 c
1 repeat 1 c
1 repeat 1 a
=
counted 12 9 3 3 0 0 3 0

places 4
limit 2
near 2
1 repeat 1 a
1 repeat 1 a
1 repeat 1 b
1 repeat 1 b
1 repeat 5 b
1 repeat 1 c
1 repeat 1 c
1 repeat 1 b
=
counted 12 9 3 3 0 0 3 0

places 4
limit 2
near 1
1 repeat 1 a
1 repeat 1 a
1 repeat 5 a
1 repeat 1 b
1 repeat 1 b
1 repeat 1 a
=
counted 10 8 2 2 0 0 2 0

places 4
limit 2
near 1
1 repeat 1 a
1 repeat 1 a
1 repeat 2 a
1 repeat 1 b
1 repeat 3 b
1 repeat 1 c
1 repeat 1 b
=
counted 10 7 3 3 0 0 3 0

trial reload_and_forget_all_reach_near_letters
near 8
1 get a
1 get a
1 reload a
1 get a
1 get a
1 forget-all
1 get a
1 remove a
=
1 a v=true 1.1 root=1.1 joiners=0
1 a v=true 1.1 root=1.1 joiners=0
1 reload a cleared 1.1
1 a v=true 1.2 root=1.2 joiners=0
1 a v=true 1.2 root=1.2 joiners=0
1 forget all true
1 a v=true 1.3 root=1.3 joiners=0
1 remove a true
counted 5 2 3 3 0 0 3 0

trial only_what_is_present_is_answered
# Only a letter at hand is answered in bytes, from a cache or from those near, and nothing is counted but that hit.
1 get-bytes a
1 get a
1 get-bytes a
1 reload a
1 get-bytes a
1 get-bytes abcde
=
1 a no bytes
1 a v=true 1.1 root=1.1 joiners=0
1 a bytes v=true
1 reload a cleared 1.1
1 a no bytes
1 abcde no bytes
counted 2 1 1 1 0 0 1 0

near 4
1 get-bytes a
1 get a
1 get-bytes a
1 reload a
1 get-bytes a
1 get-bytes abcde
=
1 a no bytes
1 a v=true 1.1 root=1.1 joiners=0
1 a bytes v=true
1 reload a cleared 1.1
1 a no bytes
1 abcde no bytes
counted 2 1 1 1 0 0 1 0

trial views_have_their_keys
# The two keys share the only place, so what is answered has its own key. A directory's place is of one key.
places 1
keys hashed
1 get-key a
1 get-key b
1 get-key b
=
1 a own=true
1 b own=true
1 b own=true
counted 3 1 2 2 0 0 2 0

places 2
1 get-key a
1 get-key b
1 get-key b
=
1 a by its place
1 b by its place
1 b by its place
counted 3 1 2 2 0 0 2 0";

#[test]
fn calls_beside_gets(rt: HostRuntime) -> Result<(), Fail> {
    trials(&rt, rt.alloc(), TRIALS)
}

// A key of 250 bytes.
const LONG: &str = "kkkkkkkkkkkkkkkkkkkkkkkkkkkkkkkkkkkkkkkkkkkkkkkkkk\
    kkkkkkkkkkkkkkkkkkkkkkkkkkkkkkkkkkkkkkkkkkkkkkkkkk\
    kkkkkkkkkkkkkkkkkkkkkkkkkkkkkkkkkkkkkkkkkkkkkkkkkk\
    kkkkkkkkkkkkkkkkkkkkkkkkkkkkkkkkkkkkkkkkkkkkkkkkkk\
    kkkkkkkkkkkkkkkkkkkkkkkkkkkkkkkkkkkkkkkkkkkkkkkkkk";

// A key of many bytes is loaded once, and is had from the cache then, whether its place is a directory's or a hash says it.
#[test]
fn long_key_is_kept(rt: HostRuntime) -> Result<(), Fail> {
    let alloc = rt.alloc();
    assert!(rt; LONG.len() == 250, "the long key has another length");
    let said = "v=true 1.1 root=1.1 joiners=0";
    for keys in ["directory", "hashed"] {
        let text = format!(in alloc;
            "keys {keys}\nlongest 250\nlimit 1000\n1 get {LONG}\n1 get {LONG}\n=\n\
            1 {LONG} {said}\n1 {LONG} {said}\ncounted 2 1 1 1 0 0 1 0"
        )?;
        trials(&rt, alloc, text.as_str())?;
    }
    Ok(())
}
