//! Rows of the layout both ways, and the numbers of places.

use sf_words::{
    CallState, CallWord, KeyState, KeyWord, LARGEST_CALLER, LARGEST_PLACE, LeaderState, NextWord,
    PlaceNo, pack_call, pack_key, pack_next, unpack_call, unpack_key, unpack_next,
};
use std::alloc::AllocError;
use std::process::Abort;

fn reads_call(number: u64, says: CallState) -> bool {
    match unpack_call(number) {
        Some(word) => word.state() == says,
        None => false,
    }
}

fn writes_call(number: u64, says: CallState) -> bool {
    match CallWord::new(says) {
        Some(word) => pack_call(word) == number,
        None => false,
    }
}

// The number is that of the word that says this.
fn assert_call(rt: &impl Abort, number: u64, says: CallState) {
    assert!(rt; reads_call(number, says), "it is read otherwise");
    assert!(rt; writes_call(number, says), "it is written otherwise");
}

fn assert_no_call(rt: &impl Abort, number: u64) {
    assert!(rt; unpack_call(number).is_none(), "it is read");
}

#[test]
fn words_of_the_layout(rt: HostRuntime) {
    let leader = LeaderState {
        generation: 1,
        own: false,
        top: Some(2),
    };
    let with_own = LeaderState {
        own: true,
        ..leader
    };
    assert_call(&rt, 0x0000_0001_1000_0002, CallState::Open(leader));
    assert_call(&rt, 0x0000_0001_1800_0002, CallState::Open(with_own));
    assert_call(&rt, 0x0000_0001_2000_0002, CallState::Forgot(leader));
    assert_call(&rt, 0x0000_0001_3000_0002, CallState::Done(leader));
    assert_call(
        &rt,
        0x0000_0001_4000_0000,
        CallState::Listed { generation: 1 },
    );
    assert_call(
        &rt,
        0x0000_0001_5000_0000,
        CallState::Full { generation: 1 },
    );
    assert_call(&rt, 0, CallState::Free);
}

// Tags 6 and 0, generation 0, bit 20, caller 65,536; tags 4 and 5 with an own channel or a top.
#[test]
fn numbers_of_no_call_word(rt: HostRuntime) {
    assert_no_call(&rt, 0x0000_0001_6000_0000);
    assert_no_call(&rt, 0x0000_0001_0000_0000);
    assert_no_call(&rt, 0x0000_0000_1000_0000);
    assert_no_call(&rt, 0x0000_0001_1010_0000);
    assert_no_call(&rt, 0x0000_0001_1001_0000);
    assert_no_call(&rt, 0x0000_0001_4800_0000);
    assert_no_call(&rt, 0x0000_0001_5000_0002);
}

fn reads_key(number: u64, says: KeyState) -> bool {
    match unpack_key(number) {
        Some(word) => word.state() == says,
        None => false,
    }
}

fn writes_key(number: u64, says: KeyState) -> bool {
    match KeyWord::new(says) {
        Some(word) => pack_key(word) == number,
        None => false,
    }
}

// The number is that of the word that says this.
fn assert_key(rt: &impl Abort, number: u64, says: KeyState) {
    assert!(rt; reads_key(number, says), "it is read otherwise");
    assert!(rt; writes_key(number, says), "it is written otherwise");
}

fn assert_no_key(rt: &impl Abort, number: u64) {
    assert!(rt; unpack_key(number).is_none(), "it is read");
}

#[test]
fn key_words_of_the_layout(rt: HostRuntime) {
    let called = KeyState::Names {
        caller: 1,
        generation: 1,
        cleared: false,
    };
    let cleared = KeyState::Names {
        caller: 1,
        generation: 1,
        cleared: true,
    };
    assert_key(&rt, 0x0000_0001_0000_0001, called);
    assert_key(&rt, 0x0000_0001_8000_0001, cleared);
    assert_key(&rt, 0, KeyState::Never);
}

// Caller 0, generation 0, bit 20, caller 65,536.
#[test]
fn numbers_of_no_key_word(rt: HostRuntime) {
    assert_no_key(&rt, 0x0000_0001_0000_0000);
    assert_no_key(&rt, 0x0000_0000_0000_0001);
    assert_no_key(&rt, 0x0000_0001_0010_0001);
    assert_no_key(&rt, 0x0000_0001_0001_0000);
}

fn reads_next(number: u64, says: Option<u32>) -> bool {
    match unpack_next(number) {
        Some(word) => word.next() == says,
        None => false,
    }
}

fn writes_next(number: u64, says: Option<u32>) -> bool {
    match NextWord::new(says) {
        Some(word) => pack_next(word) == number,
        None => false,
    }
}

// The number is that of the word that says this.
fn assert_next(rt: &impl Abort, number: u64, says: Option<u32>) {
    assert!(rt; reads_next(number, says), "it is read otherwise");
    assert!(rt; writes_next(number, says), "it is written otherwise");
}

fn assert_no_next(rt: &impl Abort, number: u64) {
    assert!(rt; unpack_next(number).is_none(), "it is read");
}

// Beside them, as no next words: caller 65,536, bit 20, bit 32.
#[test]
fn next_words_of_the_layout(rt: HostRuntime) {
    assert_next(&rt, 0, None);
    assert_next(&rt, 2, Some(2));
    assert_next(&rt, 0xffff, Some(LARGEST_CALLER));
    assert_no_next(&rt, 0x1_0000);
    assert_no_next(&rt, 0x10_0000);
    assert_no_next(&rt, 0x1_0000_0000);
}

#[test]
fn no_word_says_what_is_out_of_range(rt: HostRuntime) {
    let zero_top = LeaderState {
        generation: 1,
        own: false,
        top: Some(0),
    };
    let nobody = KeyState::Names {
        caller: 0,
        generation: 1,
        cleared: false,
    };
    assert!(rt; CallWord::new(CallState::Forgot(zero_top)).is_none());
    assert!(rt; CallWord::new(CallState::Listed { generation: 0 }).is_none());
    assert!(rt; KeyWord::new(nobody).is_none());
    assert!(rt; NextWord::new(Some(LARGEST_CALLER + 1)).is_none());
}

// Whether the place of this number has this index, or whether there is none.
fn has_index(number: u32, due: Option<usize>) -> bool {
    PlaceNo::new(number).map(PlaceNo::index) == due
}

#[test]
fn places_are_numbered_from_one(rt: HostRuntime) -> Result<(), AllocError> {
    assert!(rt; LARGEST_PLACE == 1_048_576);
    assert!(rt; has_index(0, None) && has_index(LARGEST_PLACE + 1, None));
    assert!(rt; has_index(1, Some(0)) && has_index(LARGEST_PLACE, Some(1_048_575)));
    let first = PlaceNo::from_index(0);
    assert!(rt; PlaceNo::new(1) == Some(first) && first.number() == 1);
    let last = PlaceNo::from_index(1_048_575);
    assert!(rt; format!(in rt.alloc(); "{last}")?.as_str() == "1048576");
    Ok(())
}
