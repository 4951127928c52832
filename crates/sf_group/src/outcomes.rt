//! How this group's calls end.
use crate::tokens::{Caller, Flight, Letter, Settled, Ticket};

/// How an asking ended, over this group's tokens.
pub type Begun<V> = sf_group_rows::Begun<Flight<V>, Ticket<V>>;

/// How an asking with a second caller ended, over this group's tokens.
pub type ChanBegun<V> = sf_group_rows::ChanBegun<Flight<V>, Ticket<V>, Caller<V>>;

/// How settling, or going on with a delivery, ended, over this group's tokens.
pub type Finished<V> = sf_group_rows::Finished<Caller<V>, Letter<V>, Settled<V>>;

/// How a poll ended, over this group's tokens.
pub type Polled<V> = sf_group_rows::Polled<Caller<V>, Letter<V>, Ticket<V>>;
