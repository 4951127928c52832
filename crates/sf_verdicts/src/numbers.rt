//! What a witness names.

ghost use Rattle.std.specs.Prelude.{◌≡◌, ◌-◌, IfOk};
ghost use Rattle.sf_verdicts.specs.Numbers.{numbers_in, places_of};

use sf_history::Memory;
use sf_replay_timed::Witness;
use std::alloc::Global;

/// The place, counted from 0, of the event of a number that is counted from 1.
pub fn place(number: u64) -> usize
    ensures { result ≡ number - 1 }
{
    number.saturating_sub(1) as usize
}

/// The places of the events that a witness names, in the order in which it names them.
pub fn named(alloc: Global, witness: Witness) -> Result<Vec<usize>, Memory>
    ensures { IfOk result (λ places. places.items ≡ places_of (numbers_in witness)) }
{
    Ok(match witness {
        Witness::Wrong { event, .. } => vec![in alloc; place(event)]?,
        Witness::Reversed { first, second } | Witness::BothUnclosed { first, second } => {
            vec![in alloc; place(first), place(second)]?
        }
        Witness::Crossed {
            early,
            late,
            sooner,
            last,
        } => vec![in alloc; place(early), place(late), place(sooner), place(last)]?,
        Witness::Within {
            forget,
            early,
            late,
        }
        | Witness::Missed {
            forget,
            early,
            late,
        } => vec![in alloc; place(forget), place(early), place(late)]?,
        Witness::Unclosed { early, late } => vec![in alloc; place(early), place(late)]?,
        Witness::StillCurrent { forget, early } => vec![in alloc; place(forget), place(early)]?,
    })
}
