//! Values of which each joiner gets one.

ghost use Rattle.std.specs.Prelude.{◌≡◌, IfOk};

pub use std::alloc::AllocError as Memory;

/// A value of which another one can be made, as each further letter of a call needs one.
pub trait Share: Drop {
    /// Another one, equal to this. This one stays as it was, also where memory is refused.
    fn share(&mut self) -> Result<Self, Memory>
        ensures equal { IfOk result (λ other. other ≡ self.old) }
        ensures same { self.new ≡ self.old };
}

impl Share for () {
    fn share(&mut self) -> Result<Self, Memory> {
        Ok(())
    }
}

impl<T: Share, E: Share> Share for Result<T, E> {
    fn share(&mut self) -> Result<Self, Memory> {
        match self {
            Ok(value) => Ok(Ok(value.share()?)),
            Err(error) => Ok(Err(error.share()?)),
        }
    }
}
