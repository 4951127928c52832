//! What `sfctl merge` prints: one recording of several logs.

ghost use Rattle.std.specs.Prelude.{IfOk, IfErr, string_bytes};
ghost use Rattle.sf_replay.specs.Logs.{logs_in, IsLogRefusal};
ghost use Rattle.sf_cli_engines.specs.Merging.{IsMergedText};

use sf_replay::{RecordRefusal, merge_recording, read_logs, write_recording};
use std::alloc::Global;

/// The recording that the logs of a text are merged into.
pub(crate) fn merged(alloc: Global, input: &[u8]) -> Result<String, RecordRefusal>
    ensures merged { IfOk result (λ text. IsMergedText input.now (string_bytes text)) }
    ensures refused { IfErr result (λ refusal. IsLogRefusal refusal (logs_in input.now)) }
{
    let read = read_logs(alloc, input)?;
    let merged = merge_recording(alloc, read)?;
    Ok(write_recording(alloc, &merged)?)
}
