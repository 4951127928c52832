// What crosses to C: a handle, and whether it holds anything. All zeros is a slot that is not open.
ghost use Rattle.std.specs.Prelude.{◌≡◌, true, false, IfSome};
ghost use Rattle.std.specs.Option.{IfNone};

use crate::call_handle::CallHandle;
use sf_c_calls::Asking;
use std::alloc::Global;

#[repr(C)]
#[derive(Drop)]
pub struct CallSlot {
    pub(crate) handle: CallHandle,
    pub(crate) live: bool,
    pub ghost matches: { handle.full ≡ live },
}

impl CallSlot {
    // The call, where the slot is open. It is open no more.
    pub(crate) fn take(&mut self, alloc: Global) -> Option<Box<Asking, Global>>
        ensures call { IfSome result (λ call.
            (self.old.live ≡ true) × (call.value ≡ self.old.handle.call)) }
        ensures none { IfNone result (self.new ≡ self.old) }
        ensures closed { self.new.live ≡ false }
    {
        if self.live {
            let call = self.handle.take(alloc);
            self.live = false;
            Some(call)
        } else {
            None
        }
    }

    pub(crate) fn put(&mut self, call: Box<Asking, Global>)
        requires { self.old.live ≡ false }
        ensures { (self.new.live ≡ true) × (self.new.handle.call ≡ call.value) }
    {
        self.handle.put(call);
        self.live = true;
    }
}
