//! What a drive found, and what it says of it.

ghost use Rattle.std.specs.Prelude.{◌≡◌, IfOk, string_bytes};
ghost use Rattle.sf_cli_drive.specs.Found.{empty_settled, drive_records, said_text};

use crate::report::Report;
use sf_history::{Event, History, Memory};
use sf_replay::{TextEvent, with_text_keys, write};
use sf_text::Text;
use sf_words::PlaceNo;
use std::alloc::Global;

/// What a drive found.
#[derive(Drop)]
pub(crate) struct Found {
    pub(crate) report: Report,
    /// The merged logs.
    pub(crate) history: History<PlaceNo, ()>,
}

// The event as records have it. A log keeps no values, so a call is settled with the empty text.
fn empty_settled(alloc: Global, event: Event<Text, ()>) -> TextEvent
    ensures { result ≡ empty_settled event }
{
    match event {
        Event::Lead { by, key, call, own } => Event::Lead { by, key, call, own },
        Event::Enter {
            by,
            key,
            call,
            member,
        } => Event::Enter {
            by,
            key,
            call,
            member,
        },
        Event::Forget { by, key, closed } => Event::Forget { by, key, closed },
        Event::ForgetCall { by, key, call, hit } => Event::ForgetCall { by, key, call, hit },
        Event::Settle {
            by,
            call,
            joiners,
            ..
        } => Event::Settle {
            by,
            call,
            result: Ok(Text::from_string(String::new(alloc))),
            joiners,
        },
        Event::Handed { by, call } => Event::Handed { by, call },
    }
}

// The records of a drive's history, where the key of a place is its number.
fn records(alloc: Global, history: History<PlaceNo, ()>) -> Result<String, Memory>
    ensures { IfOk result (λ text. string_bytes text ≡ drive_records history) }
{
    let keyed = with_text_keys(alloc, history.into_vec())?;
    let mut settled = Vec::new(alloc);
    for event in keyed.into_vec() {
        settled.push(empty_settled(alloc, event))?;
    }
    write(alloc, &History::from_vec(settled))
}

// What a drive says that found this: the records of its history, or its report.
pub(crate) fn said(alloc: Global, shows_history: bool, found: Found) -> Result<String, Memory>
    ensures { IfOk result (λ text.
        string_bytes text ≡ said_text shows_history found.report found.history) }
{
    let Found { report, history } = found;
    if shows_history {
        records(alloc, history)
    } else {
        format!(in alloc; "{report}\n")
    }
}
