//! What a leader and a holder do when the run is over.
ghost use Rattle.std.specs.Prelude.{◌≡◌, ◌≢◌, ◌+◌, ◌/◌, ◌%◌, ◌<◌, ◌^◌, ℕ, true, false, Some, None};
ghost use Rattle.sf_history.specs.History.{result_of};
ghost use Rattle.sf_keyed_tells.specs.Tells.{call_of};
ghost use Rattle.sf_keyed_words.specs.Rule.{joined_bit, is_forgotten};
ghost use Rattle.sf_keyed_walks.specs.Walk.{IsLaid, Stays, HasSettled, HasRead, HasTaken, HasLeft, IsLastOf};

use sf_keyed_words::KeyedSizes;
use sf_keyed_words::steps::{
    KeyedSeat, Words, give_back, last_value_of, leave, settle, settle_alone, store_value, value_of,
    wait,
};

// The generation that a cell's last call but one has.
const LAST_GENERATION: u64 = 2_199_023_255_551;

/// Settles the call that the seat leads with the value. Returns the call's state as it was; or none where nobody has joined the call and no
/// Forget has closed it: then nobody is told the value, and the cell is ready for its next call. A seat that has a spare cell already,
/// whose own call is `spare`, leaves the cell to the call's last holder.
pub fn settle_call(
    words: &Words,
    seat: &mut KeyedSeat,
    sizes: KeyedSizes,
    spare: u64,
    call: u64,
    value: u64,
) -> Option<u64>
    requires own { seat.old.table_id ≡ words.now.table_id }
    requires laid { IsLaid words.now.key words.now.table_id.words sizes }
    requires leads { (seat.old.me.0.leads ≡ call) × (call ≢ 0) × (call % 1048576 < sizes.cells) }
    requires idle { (seat.old.me.0.own ≡ spare) × (seat.old.me.0.ticket ≡ 0) }
    ensures own { seat.new.table_id ≡ seat.old.table_id }
    ensures ready { result ≡ None → (spare ≡ 0) × (call + 1048576 < 2 ^ 61) }
    ensures alone { result ≡ None → (seat.new.me.0.own ≡ call + 1048576) × (seat.new.me.0.ticket ≡ 0) × HasSettled seat.old.me.0 seat.new.me.0 call None 0 false }
    ensures shared { (state : ℕ) → result ≡ Some state → (seat.new.me.0.ticket ≡ call) × (seat.new.me.0.own ≡ spare) × (seat.new.me.0.state ≡ state) × HasSettled seat.old.me.0 seat.new.me.0 call (Some value) (joined_bit state) (is_forgotten state) }
{
    if spare == 0 && call / 1_048_576 < LAST_GENERATION {
        let at = sizes.tops + sizes.sides + 8 * (call % 1_048_576);
        let ready = call / 1_048_576 * 8_388_608 + 4_194_305;
        if settle_alone(words, seat, at, ready) == ready {
            return None;
        }
    }
    Some(settle_shared(words, seat, sizes, call, value))
}

/// Settles the call that the seat leads with the value, which its holders are told. Returns the call's state as it was.
pub fn settle_shared(
    words: &Words,
    seat: &mut KeyedSeat,
    sizes: KeyedSizes,
    call: u64,
    value: u64,
) -> u64
    requires own { seat.old.table_id ≡ words.now.table_id }
    requires laid { IsLaid words.now.key words.now.table_id.words sizes }
    requires leads { (seat.old.me.0.leads ≡ call) × (call ≢ 0) × (call % 1048576 < sizes.cells) }
    requires idle { seat.old.me.0.ticket ≡ 0 }
    ensures own { seat.new.table_id ≡ seat.old.table_id }
    ensures settled { (seat.new.me.0.ticket ≡ call) × (seat.new.me.0.own ≡ seat.old.me.0.own) × (seat.new.me.0.state ≡ result) × HasSettled seat.old.me.0 seat.new.me.0 call (Some value) (joined_bit result) (is_forgotten result) }
{
    let cell = sizes.tops + sizes.sides + 8 * (call % 1_048_576);
    store_value(words, seat, cell + 3, value);
    settle(words, seat, cell)
}

/// What the call was settled with; none where it is not settled yet. The seat is its holder still.
pub fn look(words: &Words, seat: &mut KeyedSeat, sizes: KeyedSizes, call: u64) -> Option<u64>
    requires own { seat.old.table_id ≡ words.now.table_id }
    requires laid { IsLaid words.now.key words.now.table_id.words sizes }
    requires ticket { (seat.old.me.0.ticket ≡ call) × (call ≢ 0) × (call < 2 ^ 61) × (call % 1048576 < sizes.cells) }
    ensures own { seat.new.table_id ≡ seat.old.table_id }
    ensures held { seat.new.me.0.ticket ≡ call }
    ensures looked { (value : ℕ) → result ≡ Some value → HasRead seat.old.me.0 seat.new.me.0 call value }
    ensures pending { result ≡ None → Stays seat.old.me.0 seat.new.me.0 × (seat.new.me.0.state / 2097152 % 2 ≡ 0) }
{
    let at = sizes.tops + sizes.sides + 8 * (call % 1_048_576);
    if wait(words, seat, at) / 2_097_152 % 2 != 1 {
        return None;
    }
    Some(value_of(words, seat, at + 3))
}

/// What the call was settled with; none where it is not settled yet. Where it is, the seat is its holder no more.
pub fn take(words: &Words, seat: &mut KeyedSeat, sizes: KeyedSizes, call: u64) -> Option<u64>
    requires own { seat.old.table_id ≡ words.now.table_id }
    requires laid { IsLaid words.now.key words.now.table_id.words sizes }
    requires ticket { (seat.old.me.0.ticket ≡ call) × (call ≢ 0) × (call < 2 ^ 61) × (call % 1048576 < sizes.cells) }
    ensures own { seat.new.table_id ≡ seat.old.table_id }
    ensures taken { (value : ℕ) → result ≡ Some value → HasTaken seat.old.me.0 seat.new.me.0 call value }
    ensures pending { result ≡ None → Stays seat.old.me.0 seat.new.me.0 × (seat.new.me.0.state / 2097152 % 2 ≡ 0) }
{
    let value = look(words, seat, sizes, call)?;
    leave_call(words, seat, sizes, call);
    Some(value)
}

/// Is a holder of the call no more, settled or not. Where the seat was the last holder of a settled call, it returns what that was settled with, and the
/// cell is free again.
pub fn leave_call(words: &Words, seat: &mut KeyedSeat, sizes: KeyedSizes, call: u64) -> Option<u64>
    requires own { seat.old.table_id ≡ words.now.table_id }
    requires laid { IsLaid words.now.key words.now.table_id.words sizes }
    requires ticket { (seat.old.me.0.ticket ≡ call) × (call ≢ 0) × (call < 2 ^ 61) × (call % 1048576 < sizes.cells) }
    ensures own { seat.new.table_id ≡ seat.old.table_id }
    ensures left { HasLeft seat.old.me.0 seat.new.me.0 }
    ensures last { (value : ℕ) → result ≡ Some value → IsLastOf seat.new.me.0.state × (result_of seat.new.me.0.seen (call_of call) ≡ Some (Some value)) }
    ensures others { result ≡ None → IsLastOf seat.new.me.0.state → ⊥ }
{
    let at = sizes.tops + sizes.sides + 8 * (call % 1_048_576);
    let state = leave(words, seat, at);
    if state % 1_048_576 != 1 || state / 2_097_152 % 2 != 1 {
        return None;
    }
    let value = last_value_of(words, seat, at + 3);
    give_back(words, seat, at, call / 1_048_576 * 8_388_608);
    Some(value)
}
