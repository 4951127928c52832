// What crosses to C.
ghost use Rattle.std.specs.Prelude.{◌≡◌, Bool, true, false};
ghost use Rattle.sf_c_exports.specs.Owned.{HeldCall, call_coded};

use crate::loose::Loose;
use sf_c_calls::Asking;
use std::alloc::Global;
use std::marker::Model;
use std::mem::replace;
use std::ptr::null_mut;

/// A call on the heap, or nothing.
#[repr(C)]
#[derive(Drop)]
pub struct CallHandle {
    pub(crate) at: *mut u8,
    pub(crate) alloc: Global,
    pub ghost full: { Bool },
    pub ghost call: { HeldCall } by { call_coded },
}

impl Model for CallHandle {
    ghost use Rattle.sf_c_exports.specs.Owned.{call_owns};

    ghost also_owns = { λ h. call_owns h.full h.alloc h.at h.call };
}

impl CallHandle {
    pub(crate) fn of_loose(loose: Loose<Asking, Global>) -> CallHandle
        ensures { (result.full ≡ true) × (result.call ≡ loose.value) }
    {
        let Loose { at, alloc } = loose;
        CallHandle {
            at: at as *mut u8,
            alloc,
        }
    }

    pub(crate) fn into_loose(self) -> Loose<Asking, Global>
        requires { self.full ≡ true }
        ensures { result.value ≡ self.call }
    {
        let CallHandle { at, alloc } = self;
        Loose {
            at: at as *mut Asking,
            alloc,
        }
    }

    pub(crate) fn empty(alloc: Global) -> CallHandle
        ensures { result.full ≡ false }
    {
        let at = null_mut::<u8>();
        CallHandle { at, alloc }
    }

    // The call, and nothing is left.
    pub(crate) fn take(&mut self, alloc: Global) -> Box<Asking, Global>
        requires { self.old.full ≡ true }
        ensures { (result.value ≡ self.old.call) × (self.new.full ≡ false) }
    {
        let taken = replace(self, CallHandle::empty(alloc));
        taken.into_loose().into_box()
    }

    pub(crate) fn put(&mut self, call: Box<Asking, Global>)
        requires { self.old.full ≡ false }
        ensures { (self.new.full ≡ true) × (self.new.call ≡ call.value) }
    {
        *self = CallHandle::of_loose(Loose::of(call));
    }
}

// One thread at a time uses a handle, and any thread may.
unsafe impl Send for CallHandle {}
