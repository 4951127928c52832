// What crosses to C: a handle, and whether it holds anything. All zeros is a slot that is not open.
ghost use Rattle.std.specs.Prelude.{◌≡◌, true, false, IfSome};
ghost use Rattle.std.specs.Option.{IfNone};

use crate::handle::Handle;
use sf_c_calls::Session;
use std::alloc::Global;

#[repr(C)]
#[derive(Drop)]
pub struct Slot {
    pub(crate) handle: Handle,
    pub(crate) live: bool,
    pub ghost matches: { handle.full ≡ live },
}

impl Slot {
    // The state, where the slot is open. It is open no more.
    pub(crate) fn take(&mut self, alloc: Global) -> Option<Box<Session, Global>>
        ensures state { IfSome result (λ state.
            (self.old.live ≡ true) × (state.value ≡ self.old.handle.state)) }
        ensures none { IfNone result (self.new ≡ self.old) }
        ensures closed { self.new.live ≡ false }
    {
        if self.live {
            let state = self.handle.take(alloc);
            self.live = false;
            Some(state)
        } else {
            None
        }
    }

    pub(crate) fn put(&mut self, state: Box<Session, Global>)
        requires { self.old.live ≡ false }
        ensures { (self.new.live ≡ true) × (self.new.handle.state ≡ state.value) }
    {
        self.handle.put(state);
        self.live = true;
    }
}
