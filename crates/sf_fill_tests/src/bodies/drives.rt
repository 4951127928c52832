//! What a drive says that failed, and how far one is. What a drive prints is tested by `.ci/examples`, which starts the program.

use sf_cli_drive::{ProgressLine, Report, status};
use sf_replay_check::{Cause, Verdict};
use std::test::Fail;

#[test]
fn failed_drives_say_what_failed(rt: HostRuntime) -> Result<(), Fail> {
    let report = Report {
        gets: 3,
        answers: 2,
        totals_equal: false,
        verdict: Verdict::Illegal {
            index: 5,
            cause: Cause::NumberOfJoinersIsWrong,
        },
    };
    let text = format!(in rt.alloc(); "{report}")?;
    let wanted = "gets 3\nanswers 2\ntotals differ\nevent 5: number of joiners is wrong";
    assert!(rt; text.as_str() == wanted, "another text");
    assert!(rt; status(report.ending()) == 1, "the status");
    Ok(())
}

#[test]
fn progress_says_how_far_a_drive_is(rt: HostRuntime) -> Result<(), Fail> {
    let line = ProgressLine {
        seconds: 3,
        made: 512,
        gets: 100_000,
    };
    let text = format!(in rt.alloc(); "{line}")?;
    let wanted = "3 s: 512 of 100000 gets on the first thread";
    assert!(rt; text.as_str() == wanted, "another text");
    Ok(())
}
