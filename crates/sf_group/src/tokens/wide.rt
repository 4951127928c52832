//! What tokens keep, each in whole words of eight bytes: also a number of four stands in a `u64` there. Tokens are moved a word at a
//! time: a gap between two fields, or a tag of one byte, would be moved by bytes, and who reads it back as a word waits until they
//! are all written.
ghost use Rattle.std.specs.Prelude.{◌≡◌, ◌≤◌, IfSome};

use sf_history::CallId;
use std::marker::Model;

// From a caller's number to the generation beside it.
const SHIFT: u64 = 0x1_0000_0000;

/// A call whose caller has a number from 1, or none.
#[derive(Drop)]
pub(crate) struct MaybeCall {
    // 0 where there is none.
    word: u64,
}

impl Model for MaybeCall {
    ghost use Rattle.std.specs.Prelude.{Option};
    ghost use Rattle.sf_history.specs.declared.call.CallId.{CallId};
    ghost use Rattle.sf_group.specs.Wide.{call_if_any};

    ghost Value = { Option CallId };

    ghost view = { λ m. call_if_any m.word };
}

impl MaybeCall {
    pub(crate) fn of(call: Option<CallId>) -> MaybeCall
        requires { IfSome call (λ c. 1 ≤ c.caller) }
        ensures { result ≡ call }
    {
        match call {
            None => MaybeCall { word: 0 },
            Some(call) => MaybeCall {
                word: call.generation as u64 * SHIFT + call.caller as u64,
            },
        }
    }

    pub(crate) fn get(&self) -> Option<CallId>
        ensures { result ≡ self.now }
    {
        if self.word == 0 {
            None
        } else {
            Some(CallId {
                caller: (self.word % SHIFT) as u32,
                generation: (self.word / SHIFT) as u32,
            })
        }
    }
}

/// A number of four bytes, or none.
#[derive(Drop)]
pub(crate) struct MaybeNumber {
    // One more than the number, or 0.
    word: u64,
}

impl Model for MaybeNumber {
    ghost use Rattle.std.specs.Prelude.{ℕ, Option, ◌≤◌};
    ghost use Rattle.sf_group.specs.Wide.{below};

    ghost Value = { Option ℕ };

    ghost view = { λ m. below m.word };

    ghost invariant = { λ m. m.word ≤ 0x1_0000_0000 };
}

impl MaybeNumber {
    pub(crate) fn of(number: Option<u32>) -> MaybeNumber
        ensures { result ≡ number }
    {
        match number {
            None => MaybeNumber { word: 0 },
            Some(number) => MaybeNumber {
                word: number as u64 + 1,
            },
        }
    }

    pub(crate) fn get(&self) -> Option<u32>
        ensures { result ≡ self.now }
    {
        if self.word == 0 {
            None
        } else {
            Some((self.word - 1) as u32)
        }
    }
}
