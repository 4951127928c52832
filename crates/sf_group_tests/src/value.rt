//! What calls are settled with.

use sf_group::{Fit, Memory, Share};
use std::alloc::AllocError;
use std::sync::atomic::{AtomicU32, Ordering};

/// A number, or the number of a fault. Where the lowest of its bits is 1, the next copy is refused; each copy takes a bit.
#[derive(Drop)]
pub(crate) struct Value {
    pub(crate) number: u32,
    pub(crate) is_fault: bool,
    pub(crate) refused: AtomicU32,
}

impl Value {
    pub(crate) fn new(number: u32, is_fault: bool, refused: u32) -> Value {
        Value {
            number,
            is_fault,
            refused: AtomicU32::new(refused),
        }
    }
}

impl Share for Value {
    fn share(&mut self) -> Result<Self, Memory> {
        let refused = self.refused.load(Ordering::SeqCst);
        self.refused.store(refused >> 1, Ordering::SeqCst);
        if refused & 1 == 1 {
            return Err(AllocError);
        }
        Ok(Value {
            number: self.number,
            is_fault: self.is_fault,
            refused: AtomicU32::new(0),
        })
    }
}

impl Fit for Value {
    ghost lasts = { λ _ _ _ _ _ f. f };
}
