//! A call of a program.
ghost use Rattle.std.specs.Prelude.{◌≡◌};
ghost use Rattle.sf_c_calls.specs.Rows.{is_idle};

use crate::shared::Shared;
use sf_keyed::Names;
use sf_keyed_chain::{Flight, Ticket};
use std::marker::Model;
use std::sync::Arc;

/// What a call does.
#[derive(Drop)]
pub enum Token {
    /// It may ask.
    Idle,
    /// It leads a call of its key.
    Leads(Flight),
    /// It holds one.
    Holds(Ticket),
}

/// A call, with a share of its group. Where it is dropped while it leads, the group's call stays open until a Forget.
#[derive(Drop)]
pub struct Asking {
    pub(crate) group: Arc<Shared>,
    pub(crate) names: Names,
    pub(crate) token: Token,
}

impl Model for Asking {
    ghost use Rattle.sf_c_calls.specs.Rows.{AskingState, IsTokenFor};

    ghost Value = { AskingState };

    ghost view = { λ a. record { cells = a.group.value; names = a.names; token = a.token } };

    ghost invariant = { λ a. IsTokenFor a.group.value a.token };
}

impl Asking {
    /// Whether the call may ask.
    pub fn is_idle(&self) -> bool
        ensures { result ≡ is_idle self.now.token }
    {
        match &self.token {
            Token::Idle => true,
            Token::Leads(_) => false,
            Token::Holds(_) => false,
        }
    }
}
