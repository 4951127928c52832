//! Key words: one a place, with the call that was led last on the place's key.
//!
//! Bits 63 to 32 are the generation, 31 cleared, 30 to 20 zero, and 19 to 0 the caller. The whole word 0 names no call;
//! every other has a generation of at least 1 and a caller of 1 to 65,535.

ghost use Rattle.std.specs.Prelude.{◌≡◌, ◌↔◌, IsSome, IfSome, Some};
ghost use Rattle.std.specs.Option.{SomeIff};
ghost use Rattle.sf_words.specs.KeyWord.{KeyCodesDiffer, IsKeyState, IsKeyWord, fields_of, key_code, key_fields};
ghost use Rattle.sf_words.specs.declared.key_word.KeyState.{KeyState};

use crate::next_word::is_caller;
use std::marker::Model;

// The least bit of the generation.
const GENERATION: u64 = 1 << 32;
// The bit that says whether the call is cleared.
const CLEARED: u64 = 1 << 31;

/// What a key word says of its key.
#[derive(Clone, Copy, Debug, PartialEq, Eq)]
pub enum KeyState {
    /// No call was led on the key.
    Never,
    /// The call that was led last on the key.
    Names {
        /// The number of the caller that leads or led it, 1 to 65,535.
        caller: u32,
        /// Which of that caller's askings the call is, 1 to 4,294,967,295.
        generation: u32,
        /// Whether the call was cleared off its key after a Forget, so that the next asking leads.
        cleared: bool,
    },
}

/// A lawful key word. Clauses see it as what it says, which is a `KeyState` whose numbers are in their ranges.
#[derive(Clone, Copy)]
pub struct KeyWord {
    state: KeyState,
}

impl Model for KeyWord {
    ghost use Rattle.sf_words.specs.KeyWord.{IsKeyState};
    ghost use Rattle.sf_words.specs.declared.key_word.KeyState.{KeyState};

    ghost Value = { KeyState };

    ghost view = { λ w. w.state };

    ghost invariant = { λ w. IsKeyState w.state };

    ghost inverse = { λ state. record { state = state } };
}

impl KeyWord {
    /// The word that says this; `None` where the caller or the generation is out of its range.
    pub fn new(state: KeyState) -> Option<KeyWord>
        ensures { SomeIff result (IsKeyState state) state }
    {
        let lawful = match state {
            KeyState::Never => true,
            KeyState::Names {
                caller,
                generation,
                ..
            } => is_caller(caller) && generation != 0,
        };
        if lawful {
            Some(KeyWord { state })
        } else {
            None
        }
    }

    /// What the word says.
    pub fn state(self) -> KeyState
        ensures same { result ≡ self }
        ensures range { IsKeyState self }
    {
        self.state
    }
}

/// The number of a key word.
pub fn pack_key(word: KeyWord) -> u64
    ensures code { result ≡ key_code word }
    ensures fields { fields_of result ≡ key_fields word }
    ensures lawful { IsKeyWord result }
    ensures range { IsKeyState word }
{
    match word.state {
        KeyState::Never => 0,
        KeyState::Names {
            caller,
            generation,
            cleared,
        } => {
            let flag = if cleared { CLEARED } else { 0 };
            u64::from(generation) * GENERATION + flag + u64::from(caller)
        }
    }
}

/// The key word that has this number. `None` exactly where none has.
pub fn unpack_key(word: u64) -> Option<KeyWord>
    ensures lawful { IsSome result ↔ IsKeyWord word }
    ensures fields { IfSome result (λ found. key_fields found ≡ fields_of word) }
    ensures code { IfSome result (λ found. key_code found ≡ word) }
    ensures range { IfSome result IsKeyState }

    // What a word was packed from is what it is unpacked to.
    ensures inverse { (state : KeyState) → IsKeyState state
        → key_code state ≡ word → result ≡ Some state }
{
    let state = if word == 0 {
        KeyState::Never
    } else {
        KeyState::Names {
            caller: (word % CLEARED) as u32,
            generation: (word / GENERATION) as u32,
            cleared: word / CLEARED % 2 == 1,
        }
    };
    KeyWord::new(state)
}

/// Two key words of different meaning have different numbers.
pub fn key_codes_differ()
    ensures { KeyCodesDiffer }
{}
