//! What an index keeps of a call, a member or an own channel that some lead or enter named.

ghost use Rattle.std.specs.Prelude.{◌≡◌, ◌+◌, ◌^◌, ◌<◌};
ghost use Rattle.sf_replay_check.specs.Index.{marked};

/// What is known of a name.
#[derive(Clone, Copy)]
pub(crate) struct Row {
    /// Whether it is a call that was led.
    pub led: bool,
    /// How many entered it.
    pub joiners: usize,
    pub settled: bool,
    pub handed: bool,
}

/// What an event says of its call.
#[derive(Clone, Copy)]
pub(crate) enum Mark {
    /// One more entered it.
    Joined,
    /// It is settled.
    Settled,
    /// Its letters are handed out.
    Handing,
}

pub(crate) fn marked(mark: Mark, row: Row) -> Row
    requires room { row.joiners + 1 < 2 ^ 64 }
    ensures { result ≡ marked mark row }
{
    match mark {
        Mark::Joined => Row {
            joiners: row.joiners + 1,
            ..row
        },
        Mark::Settled => Row {
            settled: true,
            ..row
        },
        Mark::Handing => Row {
            handed: true,
            ..row
        },
    }
}
