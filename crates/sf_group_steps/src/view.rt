//! What a seat at the table of words knows. No value of these types is made.
use sf_group_rows::Sizes;
use sf_steps_laws::Turn;
use std::collections::LinkedList;

/// Callers, with a beginning of the schedule that has all their turns.
pub struct Claim<V> {
    /// Their numbers.
    pub callers: LinkedList<u32>,
    /// The turns.
    pub turns: LinkedList<Turn<V>>,
}

/// What a seat knows.
pub struct View<V> {
    /// How large the group is; nothing for a seat that was taken in by another.
    pub sizes: Option<Sizes>,
    /// The callers that it stands for, and what it knows of the schedule.
    pub known: Claim<V>,
    /// What joined seats brought, until the next step.
    pub told: LinkedList<Claim<V>>,
    /// The callers whose cells it has taken out of the table, until it gives them back.
    pub cells: LinkedList<u32>,
}
