//! Flights with the work that settles them.
ghost use Rattle.std.specs.Prelude.{◌≡◌};
ghost use Rattle.sf_wait.specs.Jobs.{IsRunnable};

use sf_group::Flight;
use sf_group_rows::Fit;
use std::marker::Model;

/// Work that is done once, and answers a value. Clauses see when it may be done, and what it may answer.
pub trait Work<V>: Drop {
    ghost may_run: { Self → Type 0 };

    ghost answers: { Self → V → Type 0 };

    /// Does the work.
    fn run(self) -> V
        requires { may_run self }
        ensures { answers self result };
}

/// A flight, and the work that answers the value that it is settled with. It has to be spent.
pub struct Job<V: Fit, W: Work<V>> {
    pub(crate) flight: Flight<V>,
    pub(crate) work: W,
}

impl<V: Fit, W: Work<V>> Model for Job<V, W> {
    ghost use Rattle.sf_wait.specs.Jobs.{JobValue, IsRunnable};

    ghost Value = { JobValue V W };

    ghost view = { λ j. record { flight = j.flight; work = j.work } };

    ghost invariant = { λ j.
        IsRunnable V.fits W.may_run W.answers (record { flight = j.flight; work = j.work }) };
}

impl<V: Fit, W: Work<V>> Job<V, W> {
    /// The job of the flight: what the work answers has to fit its call.
    pub fn new(flight: Flight<V>, work: W) -> Self
        requires { IsRunnable V.fits W.may_run W.answers (record { flight = flight; work = work }) }
        ensures { result ≡ record { flight = flight; work = work } }
    {
        Job { flight, work }
    }

    /// The flight and its work, which is not done yet.
    pub fn into_parts(self) -> (Flight<V>, W)
        ensures { (result.0 ≡ self.flight) × (result.1 ≡ self.work) }
    {
        let Job { flight, work } = self;
        (flight, work)
    }

    /// Gives the flight up, and its work undone.
    pub fn abandon(self) {
        let Job { flight, work } = self;
        flight.abandon();
        drop(work);
    }
}
