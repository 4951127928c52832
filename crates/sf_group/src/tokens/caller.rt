//! Callers that are free to ask and to forget.
ghost use Rattle.std.specs.Prelude.{◌≡◌};

use crate::tokens::seated::Seated;
use std::marker::Model;

/// One who asks for places, in one thread at a time. It leads no call, owes no letter and holds no ticket. What it has
/// seen only grows.
#[derive(Drop)]
pub struct Caller<V> {
    pub(crate) seated: Seated<V>,
}

impl<V> Model for Caller<V> {
    ghost use Rattle.std.specs.Prelude.{◌≡◌, ◌≤◌, []};
    ghost use Rattle.sf_steps_laws.specs.declared.operation.Stage.TheVariants.{Free};
    ghost use Rattle.sf_group_steps.specs.View.{sizes_of};
    ghost use Rattle.sf_group_steps.specs.Stands.{Sits, next_in};
    ghost use Rattle.sf_group.specs.Known.{caller_of};
    ghost use Rattle.sf_group_rows.specs.Tokens.{CallerValue};

    ghost Value = { CallerValue V };

    ghost view = { λ c. let s = c.seated in caller_of s.seat.table_id s.seat.me.0 s.number };

    ghost invariant = { λ c. let s = c.seated in let v = s.seat.me.0 in
        Sits (sizes_of v) s.number v Free × (s.next ≡ next_in (sizes_of v) v s.number)
        × (s.seat.me.1 ≡ []) × (s.number ≤ 4294967295) };
}

impl<V> Caller<V> {
    /// The caller's number, from 1.
    pub fn number(&self) -> u32
        ensures { result ≡ self.now.number }
    {
        self.seated.number as u32
    }
}
