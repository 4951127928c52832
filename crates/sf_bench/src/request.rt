//! The words of the command line.
ghost use Rattle.std.specs.Prelude.{IfOk, IfErr, map, string_bytes};
ghost use Rattle.sf_bench.specs.Asking.{AsksFor, IsUnknown};

use crate::benchmark::{ALL, Benchmark};
use std::alloc::{AllocError, Global};
use std::fmt;

/// What the words ask for.
#[derive(Drop)]
pub enum Request {
    /// The names of all benchmarks.
    Names,
    /// These benchmarks.
    Benchmarks(Vec<Benchmark>),
}

/// A word that is no name of a benchmark.
#[derive(Clone, Copy)]
pub struct Unknown<'a> {
    /// The word.
    pub word: &'a str,
}

impl<'a> fmt::Display for Unknown<'a> {
    fn fmt<W: fmt::Write>(&self, f: &mut fmt::Formatter<W>) -> fmt::Result {
        let word = self.word;
        write!(f, "no benchmark is named '{word}'; --list prints the names")
    }
}

/// Reads the words: names of benchmarks, none for all of them, or `--list` alone for their names.
pub fn parse<'a>(
    alloc: Global,
    words: &'a [String],
) -> Result<Result<Request, Unknown<'a>>, AllocError>
    ensures asked { IfOk result (λ r. IfOk r (AsksFor (map string_bytes words.now))) }
    ensures unknown { IfOk result (λ r.
        IfErr r (λ u. IsUnknown (map string_bytes words.now) u.word.now)) }
{
    if let [word] = words {
        if word.as_str() == "--list" {
            return Ok(Ok(Request::Names));
        }
    }
    if words.is_empty() {
        return Ok(Ok(Request::Benchmarks(Vec::from_slice(alloc, &ALL)?)));
    }
    let mut chosen = Vec::with_capacity(alloc, words.len())?;
    for word in words {
        let word = word.as_str();
        match Benchmark::named(word) {
            Some(benchmark) => chosen.push(benchmark)?,
            None => return Ok(Err(Unknown { word })),
        }
    }
    Ok(Ok(Request::Benchmarks(chosen)))
}
