//! Call words: one a caller, with what its last asking came to.
//!
//! Bits 63 to 32 are the generation, 31 to 28 the tag (0 free, 1 open, 2 forgot, 3 done, 4 listed, 5 full), 27 the own
//! channel, 26 to 20 zero, and 19 to 0 the top of the joiner list, 0 for none. The whole word 0 is free; every other
//! has a generation of at least 1 and a tag of 1 to 5, and with tags 4 and 5 neither own channel nor top.

ghost use Rattle.std.specs.Prelude.{◌≡◌, ◌≤◌, ◌↔◌, IsTrue, IsSome, IfSome, Some};
ghost use Rattle.std.specs.Option.{SomeIff};
ghost use Rattle.sf_words.specs.CallWord.{CallCodesDiffer, IsCallState, IsCallWord, IsLeaderState, call_code, call_fields, code_of, fields_of, leader_fields};
ghost use Rattle.sf_words.specs.declared.call_word.CallState.{CallState};

use crate::next_word::{is_caller_or_none, unpack_next};
use std::marker::Model;

// The least bit of the generation.
const GENERATION: u64 = 1 << 32;
// The least bit of the tag.
const TAG: u64 = 1 << 28;
// The bit that says whether the leader has a channel of its own.
const OWN: u64 = 1 << 27;

/// What the call word of a caller that leads says beside its tag.
#[derive(Clone, Copy, Debug, PartialEq, Eq)]
pub struct LeaderState {
    /// Which of the caller's askings the call is, 1 to 4,294,967,295.
    pub generation: u32,
    /// Whether the leader has a channel of its own.
    pub own: bool,
    /// The top of the joiner list: the caller that joined last, 1 to 65,535.
    pub top: Option<u32>,
}

/// What a call word says of its caller; it stays so until the caller makes its word ready again.
#[derive(Clone, Copy, Debug, PartialEq, Eq)]
pub enum CallState {
    /// The caller has never asked.
    Free,
    /// The caller prepares to lead, or leads.
    Open(LeaderState),
    /// A Forget closed the call.
    Forgot(LeaderState),
    /// The leader closed the call.
    Done(LeaderState),
    /// The caller prepares to join, has joined, or serves as a leader's own channel.
    Listed {
        /// Which of the caller's askings this is, 1 to 4,294,967,295.
        generation: u32,
    },
    /// The caller's letter is in its cell.
    Full {
        /// Which of the caller's askings the letter answers, 1 to 4,294,967,295.
        generation: u32,
    },
}

/// A lawful call word. Clauses see it as what it says, which is a `CallState` whose numbers are in their ranges.
#[derive(Clone, Copy)]
pub struct CallWord {
    state: CallState,
}

impl Model for CallWord {
    ghost use Rattle.sf_words.specs.CallWord.{IsCallState};
    ghost use Rattle.sf_words.specs.declared.call_word.CallState.{CallState};

    ghost Value = { CallState };

    ghost view = { λ w. w.state };

    ghost invariant = { λ w. IsCallState w.state };

    ghost inverse = { λ state. record { state = state } };
}

impl CallWord {
    /// The word that says this; `None` where the generation or the top is out of its range.
    pub fn new(state: CallState) -> Option<CallWord>
        ensures { SomeIff result (IsCallState state) state }
    {
        let lawful = match state {
            CallState::Free => true,
            CallState::Open(leader) | CallState::Forgot(leader) | CallState::Done(leader) =>
                is_leader(leader),
            CallState::Listed { generation } | CallState::Full { generation } => generation != 0,
        };
        if lawful {
            Some(CallWord { state })
        } else {
            None
        }
    }

    /// What the word says.
    pub fn state(self) -> CallState
        ensures same { result ≡ self }
        ensures range { IsCallState self }
    {
        self.state
    }
}

/// The number of a call word.
pub fn pack_call(word: CallWord) -> u64
    ensures code { result ≡ call_code word }
    ensures fields { fields_of result ≡ call_fields word }
    ensures lawful { IsCallWord result }
    ensures range { IsCallState word }
{
    match word.state {
        CallState::Free => 0,
        CallState::Open(leader) => pack_leader(1, leader),
        CallState::Forgot(leader) => pack_leader(2, leader),
        CallState::Done(leader) => pack_leader(3, leader),
        CallState::Listed { generation } => u64::from(generation) * GENERATION + 4 * TAG,
        CallState::Full { generation } => u64::from(generation) * GENERATION + 5 * TAG,
    }
}

/// The call word that has this number. `None` exactly where none has.
pub fn unpack_call(word: u64) -> Option<CallWord>
    ensures lawful { IsSome result ↔ IsCallWord word }
    ensures fields { IfSome result (λ found. call_fields found ≡ fields_of word) }
    ensures code { IfSome result (λ found. call_code found ≡ word) }
    ensures range { IfSome result IsCallState }

    // What a word was packed from is what it is unpacked to.
    ensures inverse { (state : CallState) → IsCallState state
        → call_code state ≡ word → result ≡ Some state }
{
    let generation = (word / GENERATION) as u32;
    let own = word / OWN % 2 == 1;
    let top = unpack_next(word % OWN)?.next();
    let leader = LeaderState {
        generation,
        own,
        top,
    };
    let state = match word / TAG % 16 {
        0 if word == 0 => CallState::Free,
        1 => CallState::Open(leader),
        2 => CallState::Forgot(leader),
        3 => CallState::Done(leader),
        4 if word % TAG == 0 => CallState::Listed { generation },
        5 if word % TAG == 0 => CallState::Full { generation },
        _ => return None,
    };
    CallWord::new(state)
}

/// Two call words of different meaning have different numbers.
pub fn call_codes_differ()
    ensures { CallCodesDiffer }
{}

// Whether generation and top are in their ranges.
fn is_leader(leader: LeaderState) -> bool
    ensures { IsTrue result ↔ IsLeaderState leader }
{
    leader.generation != 0 && is_caller_or_none(leader.top)
}

// The number of a leader's call word with this tag, 1 to 3.
fn pack_leader(tag: u64, leader: LeaderState) -> u64
    requires tag { tag ≤ 3 }
    requires range { IsLeaderState leader }
    ensures { result ≡ code_of (leader_fields tag leader) }
{
    let own = if leader.own { OWN } else { 0 };
    let top = leader.top.map_or(0, u64::from);
    u64::from(leader.generation) * GENERATION + tag * TAG + own + top
}
