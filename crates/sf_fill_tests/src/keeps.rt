//! What the caches keep, within which limit, and what leaves them.

use crate::trial::trials;
use std::test::Fail;

const TRIALS: &str = "\
trial caches_keep_within_their_limit
# A key and a value of one byte each weigh 2.
# - One entry serves many gets.
# - There is room for two keys, and the third takes the first one's.
# - A hit makes `a` the most recent, so `b` leaves.
# - A reload takes its own key out, and no other.
# - The draws are 0 to 9 in turn. Just those of 0 put a peer's value into hot: the first, and the eleventh.
# - A limit of nothing, and one below it.
1 repeat 3 a
1 stats
=
1 main 2 bytes, 1 items, 0 evictions
1 hot 0 bytes, 0 items, 0 evictions
counted 3 2 1 1 0 0 1 0

limit 4
1 repeat 1 a
1 repeat 1 b
1 repeat 1 c
1 repeat 1 a
1 stats
=
1 main 4 bytes, 2 items, 2 evictions
1 hot 0 bytes, 0 items, 0 evictions
counted 4 0 4 4 0 0 4 0

limit 4
1 repeat 1 a
1 repeat 1 b
1 repeat 1 a
1 repeat 1 c
1 repeat 1 a
1 repeat 1 b
=
counted 6 2 4 4 0 0 4 0

1 repeat 1 a
1 repeat 1 b
1 reload b
1 stats
1 repeat 1 a
=
1 reload b cleared 1.2
1 main 2 bytes, 1 items, 0 evictions
1 hot 0 bytes, 0 items, 0 evictions
counted 3 1 2 2 0 0 2 0

peer value
1 repeat 2 a
1 repeat 9 b
1 stats
1 repeat 1 b
1 stats
1 repeat 1 b
=
1 main 0 bytes, 0 items, 0 evictions
1 hot 2 bytes, 1 items, 0 evictions
1 main 0 bytes, 0 items, 0 evictions
1 hot 4 bytes, 2 items, 0 evictions
counted 13 2 11 11 11 0 0 0

limit 0
peer value
1 repeat 2 a
1 stats
=
1 main 0 bytes, 0 items, 0 evictions
1 hot 0 bytes, 0 items, 0 evictions
counted 2 0 2 2 2 0 0 0

limit -1
1 repeat 2 a
1 stats
=
1 main 0 bytes, 0 items, 0 evictions
1 hot 0 bytes, 0 items, 0 evictions
counted 2 0 2 2 0 0 2 0

trial keys_weigh_their_bytes
# An entry weighs its key's bytes and its value's, which has one: in main, after a put, and in hot.
longest 8
limit 9
1 repeat 1 aaa
1 repeat 1 bbbb
1 stats
1 repeat 1 c
1 stats
=
1 main 9 bytes, 2 items, 0 evictions
1 hot 0 bytes, 0 items, 0 evictions
1 main 7 bytes, 2 items, 1 evictions
1 hot 0 bytes, 0 items, 0 evictions
counted 3 0 3 3 0 0 3 0

places 1
longest 8
1 repeat 1 aaa
1 put aaa
1 stats
=
1 put aaa settled 1.2 of 1 w=true
1 main 4 bytes, 1 items, 0 evictions
1 hot 0 bytes, 0 items, 0 evictions
counted 2 0 2 2 0 0 2 0

longest 8
peer value
1 repeat 2 aaa
1 stats
=
1 main 0 bytes, 0 items, 0 evictions
1 hot 4 bytes, 1 items, 0 evictions
counted 2 1 1 1 1 0 0 0

trial entry_in_hot_alone_leaves
# The only entry is in hot. It leaves at a remove, a reload and a `forget_all`, and stays where another key of its place is removed.
peer value
1 repeat 2 a
1 remove a
1 stats
1 repeat 1 a
=
1 remove a true
1 main 0 bytes, 0 items, 0 evictions
1 hot 0 bytes, 0 items, 0 evictions
counted 3 1 2 2 2 0 0 0

peer value
1 repeat 2 a
1 reload a
1 stats
1 repeat 1 a
=
1 reload a cleared 1.1
1 main 0 bytes, 0 items, 0 evictions
1 hot 0 bytes, 0 items, 0 evictions
counted 3 1 2 2 2 0 0 0

peer value
1 repeat 2 a
1 forget-all
1 stats
1 repeat 1 a
=
1 forget all true
1 main 0 bytes, 0 items, 0 evictions
1 hot 0 bytes, 0 items, 0 evictions
counted 3 1 2 2 2 0 0 0

keys hashed
places 1
peer value
1 repeat 2 a
1 remove b
1 stats
1 repeat 1 a
=
1 remove b true
1 main 0 bytes, 0 items, 0 evictions
1 hot 2 bytes, 1 items, 0 evictions
counted 3 2 1 1 1 0 0 0

trial large_value_is_kept
# A value of 70,000 bytes is kept in main, in hot and near the getter, if there is just room for it.
limit 70001
local large
1 repeat 2 a
1 stats
=
1 main 70001 bytes, 1 items, 0 evictions
1 hot 0 bytes, 0 items, 0 evictions
counted 2 1 1 1 0 0 1 0

limit 70001
peer large
1 repeat 2 a
1 stats
=
1 main 0 bytes, 0 items, 0 evictions
1 hot 70001 bytes, 1 items, 0 evictions
counted 2 1 1 1 1 0 0 0

limit 70001
local large
near 2
near-bytes 70001
1 repeat 2 a
1 repeat 1 b
1 repeat 1 a
=
counted 4 2 2 2 0 0 2 0

trial keys_have_their_places_by_the_seed
# A key's place is its SipHash-1-3 by the seed, scaled down, where no other key is there.
places 65536
seed0 506097522914230528
seed1 1084818905618843912
1 put a
=
1 put a settled 1.1 of 7207 w=true
counted 1 0 1 1 0 0 1 0

places 65536
keys hashed
seed0 1084818905618843912
seed1 506097522914230528
1 put a
=
1 put a settled 1.1 of 46885 w=true
counted 1 0 1 1 0 0 1 0";

#[test]
fn what_caches_keep(rt: HostRuntime) -> Result<(), Fail> {
    trials(&rt, rt.alloc(), TRIALS)
}
