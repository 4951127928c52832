//! The letters that getters keep near: how many bytes they have together, which of them leave, and when the caches are asked.
//!
//! In these trials main has room for the last key alone. So a get of a key that was answered before is a hit only where its letter
//! is near, and else a load: the first get of a key loads it, the second one finds it in main, which puts its letter near.

use crate::trial::trials;
use std::test::Fail;

const TRIALS: &str = "\
trial near_letters_keep_within_their_bytes
# A letter weighs its key's bytes and its value's, which has one.
# - Of two letters of 4 bytes one is near within 4 bytes: the newer one, once the slots were emptied in turn.
# - Of two letters of 3 bytes one is near within 5 bytes.
# - Both are within 6 bytes.
limit 4
longest 8
near 8
near-bytes 4
1 repeat 2 aaa
1 repeat 9 bbb
1 repeat 1 ccc
1 get bbb
1 get aaa
=
1 bbb v=true 1.2 root=1.2 joiners=0
1 aaa v=true 1.4 root=1.4 joiners=0
counted 14 10 4 4 0 0 4 0

limit 3
longest 8
near 8
near-bytes 5
1 repeat 2 aa
1 repeat 10 bb
1 repeat 1 cc
1 get bb
1 get aa
=
1 bb v=true 1.2 root=1.2 joiners=0
1 aa v=true 1.4 root=1.4 joiners=0
counted 15 11 4 4 0 0 4 0

limit 3
longest 8
near 8
near-bytes 6
1 repeat 2 aa
1 repeat 10 bb
1 repeat 1 cc
1 get bb
1 get aa
=
1 bb v=true 1.2 root=1.2 joiners=0
1 aa v=true 1.1 root=1.1 joiners=0
counted 15 12 3 3 0 0 3 0

trial near_slots_are_emptied_in_turn
# A third letter has no room beside two others of 3 bytes. Each get of it in main empties one more of the eight slots, so it is near
# after eight of them, whichever slots the others have. A letter that takes another's slot gives that one's bytes back: there is room
# for one of 5 bytes then.
limit 3
longest 8
near 8
near-bytes 6
1 repeat 2 aa
1 repeat 2 bb
1 repeat 9 cc
1 repeat 1 dd
1 get cc
=
1 cc v=true 1.3 root=1.3 joiners=0
counted 15 11 4 4 0 0 4 0

limit 3
longest 8
near 8
near-bytes 6
1 repeat 2 cc
1 repeat 2 aa
1 repeat 9 bb
1 repeat 1 dd
1 get bb
=
1 bb v=true 1.3 root=1.3 joiners=0
counted 15 11 4 4 0 0 4 0

limit 3
longest 8
near 8
near-bytes 6
1 repeat 2 bb
1 repeat 2 cc
1 repeat 9 aa
1 repeat 1 dd
1 get aa
=
1 aa v=true 1.3 root=1.3 joiners=0
counted 15 11 4 4 0 0 4 0

limit 5
longest 8
near 1
near-bytes 6
1 repeat 2 aa
1 repeat 2 bb
1 repeat 2 cccc
1 repeat 1 aa
1 get cccc
=
1 cccc v=true 1.3 root=1.3 joiners=0
counted 8 4 4 4 0 0 4 0

trial near_letters_of_both_slots_answer
# Two letters are near at once, also where they share their first slot, as two of three places do.
places 4
limit 2
near 2
1 repeat 2 a
1 repeat 2 b
1 repeat 1 c
1 repeat 1 a
1 repeat 1 b
=
counted 7 4 3 3 0 0 3 0

places 4
limit 2
near 2
1 repeat 2 b
1 repeat 2 c
1 repeat 1 a
1 repeat 1 b
1 repeat 1 c
=
counted 7 4 3 3 0 0 3 0

places 4
limit 2
near 2
1 repeat 2 c
1 repeat 2 a
1 repeat 1 b
1 repeat 1 c
1 repeat 1 a
=
counted 7 4 3 3 0 0 3 0

trial near_letter_that_is_too_large_empties_nothing
# A letter that has more bytes than all may have together empties no slot, neither its own nor another: it is looked for in main
# each time, and the other letter is still near.
limit 6
longest 8
near 1
near-bytes 4
1 repeat 2 aaa
1 repeat 9 bbbbb
1 repeat 1 aaa
=
counted 12 10 2 2 0 0 2 0

limit 6
longest 8
near 8
near-bytes 4
1 repeat 2 aaa
1 repeat 20 bbbbb
1 repeat 1 aaa
=
counted 23 21 2 2 0 0 2 0

trial near_letters_give_their_bytes_back
# There is room for one letter. A reload, a remove and a `forget_all` take it out, and give its bytes back at once: the next key's
# letter is near as soon as main has answered it. So does a get that finds it forgotten by another getter.
limit 3
longest 8
near 8
near-bytes 3
1 repeat 2 aa
1 reload aa
1 repeat 2 bb
1 repeat 1 cc
1 repeat 1 bb
1 remove bb
1 repeat 2 aa
1 repeat 1 cc
1 repeat 1 aa
1 forget-all
1 repeat 2 cc
1 repeat 1 bb
1 repeat 1 cc
=
1 reload aa cleared 1.1
1 remove bb true
1 forget all true
counted 14 7 7 7 0 0 7 0

limit 3
longest 8
near 8
near-bytes 3
1 repeat 2 bb
1 reload bb
1 repeat 2 cc
1 repeat 1 aa
1 repeat 1 cc
1 remove cc
1 repeat 2 bb
1 repeat 1 aa
1 repeat 1 bb
1 forget-all
1 repeat 2 aa
1 repeat 1 cc
1 repeat 1 aa
=
1 reload bb cleared 1.1
1 remove cc true
1 forget all true
counted 14 7 7 7 0 0 7 0

limit 3
longest 8
near 8
near-bytes 3
getters beside
1 repeat 2 aa
1 tell answered
2 await answered
2 reload aa
2 tell got
1 await got
1 repeat 1 aa
1 repeat 2 bb
1 repeat 1 cc
1 repeat 1 bb
=
2 reload aa cleared 1.1
counted 7 3 4 4 0 0 4 0

limit 3
longest 8
near 8
near-bytes 3
getters beside
1 repeat 2 bb
1 tell answered
2 await answered
2 reload bb
2 tell got
1 await got
1 repeat 1 bb
1 repeat 2 aa
1 repeat 1 cc
1 repeat 1 aa
=
2 reload bb cleared 1.1
counted 7 3 4 4 0 0 4 0

trial removed_letter_is_near_in_neither_slot
# A get after a remove asks the group, also where the letter lay in the second of its two slots: of three places two share their
# first slot, and each two of the keys have their letters near in one of these trials.
places 4
near 2
1 repeat 2 a
1 repeat 2 b
1 remove a
1 remove b
1 repeat 1 a
1 repeat 1 b
=
1 remove a true
1 remove b true
counted 6 2 4 4 0 0 4 0

places 4
near 2
1 repeat 2 a
1 repeat 2 b
1 repeat 1 c
1 remove a
1 remove b
1 remove c
1 repeat 2 c
1 repeat 2 a
1 remove c
1 remove a
1 repeat 1 c
1 repeat 1 a
=
1 remove a true
1 remove b true
1 remove c true
1 remove c true
1 remove a true
counted 11 4 7 7 0 0 7 0

places 4
near 2
1 repeat 1 a
1 repeat 2 b
1 repeat 2 c
1 remove b
1 remove c
1 repeat 1 b
1 repeat 1 c
=
1 remove b true
1 remove c true
counted 7 2 5 5 0 0 5 0

trial near_letter_answers_63_gets
# A near letter answers 63 gets, and the next one goes to the caches.
# - The 63rd get is still answered, though main has dropped the letter.
# - The 64th one finds nothing in main, and loads.
# - The 64th one finds the letter in main, and the next get is answered near again: it makes the letter no more recent in main,
#   which drops it for a third key. So the second getter finds the other key there.
limit 2
near 8
1 repeat 2 a
1 repeat 1 b
1 repeat 63 a
=
counted 66 64 2 2 0 0 2 0

limit 2
near 8
1 repeat 2 a
1 repeat 1 b
1 repeat 64 a
=
counted 67 64 3 3 0 0 3 0

limit 4
near 8
1 repeat 2 a
1 repeat 64 a
1 repeat 2 b
1 repeat 1 a
1 repeat 1 c
2 repeat 1 b
=
counted 71 68 3 3 0 0 3 0

trial newer_letter_replaces_an_older_near_one
# After 63 answers the letter of the first call is not asked any more, so its key is loaded by a second call. Main answers that one's
# letter, which is near from then on, in the first one's place: it answers once main has dropped it.
limit 2
near 8
1 repeat 2 a
1 repeat 1 b
1 repeat 63 a
1 get a
1 get a
1 repeat 1 b
1 get a
=
1 a v=true 1.3 root=1.3 joiners=0
1 a v=true 1.3 root=1.3 joiners=0
1 a v=true 1.3 root=1.3 joiners=0
counted 70 66 4 4 0 0 4 0";

#[test]
fn near_letters(rt: HostRuntime) -> Result<(), Fail> {
    trials(&rt, rt.alloc(), TRIALS)
}
