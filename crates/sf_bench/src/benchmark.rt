//! What can be measured, by name.
ghost use Rattle.std.specs.Prelude.{◌≡◌, ◌↔◌, OnOk};
ghost use Rattle.std.specs.Io.KnownBytes.{Appends};
ghost use Rattle.sf_bench.specs.declared.benchmark.Benchmark.{Benchmark};
ghost use Rattle.sf_bench.specs.Names.{all, name_of, names_text};

use sf_text::{StreamFault, write_all};
use std::io::Write;

/// What can be measured.
#[derive(Clone, Copy, PartialEq, Eq)]
pub enum Benchmark {
    /// The lookup of a key that a directory knows.
    Lookup,
    /// To lead a call and settle it.
    Lead,
    /// To lead a call, join it, settle it and collect the joiner's letter.
    Join,
    /// To forget a key.
    Forget,
    /// To ask whether a letter's call is current.
    Current,
    /// To do with a load, each thread on a key of its own.
    Distinct,
    /// To do with a load, all threads on one key.
    Hot,
    /// The place of a key by a hash.
    Place,
    /// To do by key, each thread with a key of its own.
    Key,
    /// To get a key that a fill's cache has.
    Fill,
}

/// All of them, in the order in which they run.
pub const ALL: [Benchmark; 10] = [
    Benchmark::Lookup,
    Benchmark::Lead,
    Benchmark::Join,
    Benchmark::Forget,
    Benchmark::Current,
    Benchmark::Distinct,
    Benchmark::Hot,
    Benchmark::Place,
    Benchmark::Key,
    Benchmark::Fill,
];

impl Benchmark {
    /// Its name.
    pub fn name(self) -> &'static str
        ensures { result.now ≡ name_of self }
    {
        match self {
            Benchmark::Lookup => "lookup",
            Benchmark::Lead => "lead",
            Benchmark::Join => "join",
            Benchmark::Forget => "forget",
            Benchmark::Current => "current",
            Benchmark::Distinct => "distinct",
            Benchmark::Hot => "hot",
            Benchmark::Place => "place",
            Benchmark::Key => "key",
            Benchmark::Fill => "fill",
        }
    }

    /// The one of this name.
    pub fn named(word: &str) -> Option<Benchmark>
        ensures { (b : Benchmark) → (result ≡ Some b) ↔ (word.now ≡ name_of b) }
    {
        match word {
            "lookup" => Some(Benchmark::Lookup),
            "lead" => Some(Benchmark::Lead),
            "join" => Some(Benchmark::Join),
            "forget" => Some(Benchmark::Forget),
            "current" => Some(Benchmark::Current),
            "distinct" => Some(Benchmark::Distinct),
            "hot" => Some(Benchmark::Hot),
            "place" => Some(Benchmark::Place),
            "key" => Some(Benchmark::Key),
            "fill" => Some(Benchmark::Fill),
            _ => None,
        }
    }
}

/// Writes the names of all, one a line.
pub fn write_names<W: Write>(writer: &mut W) -> Result<(), StreamFault>
    ensures { OnOk result
        (Appends (W.contents writer.old) (W.contents writer.new) (names_text all)) }
{
    write_all(
        writer,
        "lookup\nlead\njoin\nforget\ncurrent\ndistinct\nhot\nplace\nkey\nfill\n",
    )
}
