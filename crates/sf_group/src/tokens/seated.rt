//! What tokens are made of.
ghost use Rattle.std.specs.Prelude.{◌≡◌, ◌≤◌};
ghost use Rattle.sf_group.specs.Known.{call_before};

use crate::tokens::wide::MaybeCall;
use sf_group_steps::WordSeat;
use sf_history::CallId;

/// What a caller has at the table: a seat, its caller's number, and the generation that the caller's next asking uses.
#[derive(Drop)]
pub(crate) struct Seated<V> {
    pub(crate) seat: WordSeat<V>,
    pub(crate) number: u64,
    pub(crate) next: u64,
}

/// The caller that leads a call of a place, or has settled it, and the member that has its own channel.
#[derive(Drop)]
pub(crate) struct Leader<V> {
    pub(crate) seated: Seated<V>,
    pub(crate) place: u64,
    pub(crate) own: MaybeCall,
}

impl<V> Leader<V> {
    /// The call that it leads, or has settled: its last asking used the generation before the next one.
    pub(crate) fn call(&self) -> CallId
        requires { let s = self.now.seated in
            (s.number ≤ 4294967295) × (1 ≤ s.next) × (s.next ≤ 4294967296) }
        ensures { result ≡ call_before self.now.seated.number self.now.seated.next }
    {
        CallId {
            caller: self.seated.number as u32,
            generation: (self.seated.next - 1) as u32,
        }
    }
}
