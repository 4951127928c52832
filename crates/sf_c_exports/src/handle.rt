// What crosses to C.
ghost use Rattle.std.specs.Prelude.{◌≡◌, Bool, true, false};
ghost use Rattle.sf_c_exports.specs.Owned.{Held, state_coded};

use crate::loose::Loose;
use sf_c_calls::Session;
use std::alloc::Global;
use std::marker::Model;
use std::mem::replace;
use std::ptr::null_mut;

/// A state on the heap, or nothing.
#[repr(C)]
#[derive(Drop)]
pub struct Handle {
    pub(crate) at: *mut u8,
    pub(crate) alloc: Global,
    pub ghost full: { Bool },
    pub ghost state: { Held } by { state_coded },
}

impl Model for Handle {
    ghost use Rattle.sf_c_exports.specs.Owned.{state_owns};

    ghost also_owns = { λ h. state_owns h.full h.alloc h.at h.state };
}

impl Handle {
    pub(crate) fn of_loose(loose: Loose<Session, Global>) -> Handle
        ensures { (result.full ≡ true) × (result.state ≡ loose.value) }
    {
        let Loose { at, alloc } = loose;
        Handle {
            at: at as *mut u8,
            alloc,
        }
    }

    pub(crate) fn into_loose(self) -> Loose<Session, Global>
        requires { self.full ≡ true }
        ensures { result.value ≡ self.state }
    {
        let Handle { at, alloc } = self;
        Loose {
            at: at as *mut Session,
            alloc,
        }
    }

    pub(crate) fn empty(alloc: Global) -> Handle
        ensures { result.full ≡ false }
    {
        let at = null_mut::<u8>();
        Handle { at, alloc }
    }

    // The state, and nothing is left.
    pub(crate) fn take(&mut self, alloc: Global) -> Box<Session, Global>
        requires { self.old.full ≡ true }
        ensures { (result.value ≡ self.old.state) × (self.new.full ≡ false) }
    {
        let taken = replace(self, Handle::empty(alloc));
        taken.into_loose().into_box()
    }

    pub(crate) fn put(&mut self, state: Box<Session, Global>)
        requires { self.old.full ≡ false }
        ensures { (self.new.full ≡ true) × (self.new.state ≡ state.value) }
    {
        *self = Handle::of_loose(Loose::of(state));
    }
}

// One thread at a time uses a handle, and any thread may.
unsafe impl Send for Handle {}
