//! Gets for tests that use no promise of `Fill::get`. The prover checks each caller of that beside all its clauses, which takes a minute
//! or more. These two functions have no clauses, so their callers are checked in seconds.

use bytes::Bytes;
use sf_fill::{Fill, Getter, LoadFault, Naming};
use sf_loaders::{LoadPath, Origin};
use std::sync::Wait;

/// Gets the key's bytes.
pub(crate) fn get_bytes<'d, D: Naming, N: Naming, O: Origin, L: LoadPath<Origin = O>>(
    rt: &impl Wait,
    fill: &Fill<'d, D, N, O>,
    getter: &mut Getter<'d, D, N, O, L>,
    key: &[u8],
) -> Result<Bytes, LoadFault> {
    match fill.get(rt, getter, key) {
        Ok(view) => Ok(view.into_bytes()),
        Err(fault) => Err(fault),
    }
}

/// Gets the key, whatever is answered.
pub(crate) fn get<'d, D: Naming, N: Naming, O: Origin, L: LoadPath<Origin = O>>(
    rt: &impl Wait,
    fill: &Fill<'d, D, N, O>,
    getter: &mut Getter<'d, D, N, O, L>,
    key: &[u8],
) {
    let _answer = get_bytes(rt, fill, getter, key);
}
