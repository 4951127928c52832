//! Puts of known bytes.
ghost use Rattle.std.specs.Prelude.{◌<◌, ◌-◌, ◌^◌};
ghost use Rattle.sf_history.specs.declared.call.CallId.{CallId};
ghost use Rattle.sf_fill.specs.Puts.{GetsGiven, HasPut};

use crate::fill::Fill;
use crate::getter::Getter;
use bytes::Bytes;
use sf_fill_counters::Naming;
use sf_fill_values::{GetRefusal, LoadFault, View};
use sf_loaders::{Given, Origin};
use std::sync::Wait;

/// What a put came to.
#[derive(Drop)]
pub enum Put<V> {
    /// A call of the key was led and settled with the bytes.
    Settled(V),
    /// Another call of the key was met, which was current after the Forget of the put; the bytes were not needed.
    Met(V),
}

impl<'d, D: Naming, N: Naming, O: Origin> Fill<'d, D, N, O> {
    /// Forgets the key's call, and settles a new one with the bytes: a write-through. Write the origin first: who leads between
    /// the Forget and the put has loaded since, and that answer is met. It is counted as a get whose local getter has the bytes.
    /// A reload that is refused refuses the put.
    pub fn put<R: Wait, L>(
        &self,
        rt: &R,
        getter: &mut Getter<'d, D, N, O, L>,
        key: &[u8],
        bytes: Bytes,
    ) -> Result<Put<View<'d, D, O>>, LoadFault>
        requires stated { (call : CallId) → O.loaded key.now call bytes }
        ensures { HasPut N.space key.now bytes getter.old getter.new result }
    {
        if getter.is_full() {
            return Err(LoadFault::Refused(GetRefusal::Spent));
        }
        if let Err(fault) = self.reload(rt, getter, key) {
            return Err(fault);
        }
        self.put_new(rt, getter, key, bytes)
    }

    // Settles a new call with the bytes, or meets another's.
    fn put_new<R: Wait, L>(
        &self,
        rt: &R,
        getter: &mut Getter<'d, D, N, O, L>,
        key: &[u8],
        bytes: Bytes,
    ) -> Result<Put<View<'d, D, O>>, LoadFault>
        requires room { getter.old.counted.gets < 2 ^ 64 - 1 }
        requires stated { (call : CallId) → O.loaded key.now call bytes }
        ensures { GetsGiven N.space key.now bytes getter.old getter.new result }
    {
        let mut given = Given::new(key, bytes);
        let answer = self.get_with(rt, &mut getter.seat, key, &mut given);
        let put = match answer {
            Ok(view) if given.is_left() => Ok(Put::Met(view)),
            Ok(view) => Ok(Put::Settled(view)),
            Err(fault) => Err(fault),
        };
        put
    }
}
