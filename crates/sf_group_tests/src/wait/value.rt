//! What calls are settled with here.

use sf_group::{CallId, Fit, Memory, Share};
use std::alloc::AllocError;
use std::sync::atomic::{AtomicU32, Ordering};

/// A number of which so many first copies are refused.
#[derive(Drop)]
pub struct Value {
    pub number: u32,
    refused: AtomicU32,
}

fn number(text: &str) -> u32 {
    text.parse::<u32>().unwrap_or(0)
}

/// The call of the text, as `1.1`.
pub fn call(text: &str) -> CallId {
    let (caller, generation) = text.split_once('.').unwrap_or((text, ""));
    CallId {
        caller: number(caller),
        generation: number(generation),
    }
}

impl Value {
    /// The number, of which so many copies are refused.
    pub fn new(number: u32, refused: u32) -> Value {
        Value {
            number,
            refused: AtomicU32::new(refused),
        }
    }

    /// The value of a number alone, or of one and how many copies are `refused`.
    pub fn read(text: &str) -> Value {
        let (value, refused) = text.split_once(" refused ").unwrap_or((text, "0"));
        Value::new(number(value), number(refused))
    }
}

impl Share for Value {
    fn share(&mut self) -> Result<Self, Memory> {
        let refused = self.refused.load(Ordering::SeqCst);
        if refused != 0 {
            self.refused
                .store(refused.wrapping_sub(1), Ordering::SeqCst);
            return Err(AllocError);
        }
        Ok(Value {
            number: self.number,
            refused: AtomicU32::new(0),
        })
    }
}

impl Fit for Value {
    ghost lasts = { λ _ _ _ _ _ f. f };
}
