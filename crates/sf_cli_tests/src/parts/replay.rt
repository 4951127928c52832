//! The rows of the records, and what is written for a history.

use sf_replay::{read, write};
use sf_replay_check::{Verdict, check, check_indexed};
use std::alloc::{AllocError, Global};
use std::process::Abort;
use std::test::Fail;

// The records that rows call by name.
const RECORDS: &str = r#"lead {"e":"lead","by":1,"k":"k","c":[1,1],"own":null}
newer {"e":"lead","by":4,"k":"k","c":[4,1],"own":null}
enter {"e":"enter","by":2,"k":"k","c":[1,1],"m":[2,1]}
enter_too {"e":"enter","by":3,"k":"k","c":[1,1],"m":[3,1]}
enter_aside {"e":"enter","by":2,"k":"k","c":[1,2],"m":[2,1]}
settle_none {"e":"settle","by":1,"c":[1,1],"ok":"v","joiners":0}
settle_two {"e":"settle","by":1,"c":[1,1],"ok":"v","joiners":2}
unmarked {"e":"settle","by":1,"c":[1,1],"ok":"v","shared":false}
marked {"e":"settle","by":1,"c":[1,1],"ok":"v","shared":true}
foreign {"e":"settle","by":2,"c":[1,1],"ok":"v","shared":false}
error {"e":"settle","by":1,"c":[1,1],"err":"down","joiners":1}
error_two {"e":"settle","by":1,"c":[1,1],"err":"down","joiners":2}
marked_error {"e":"settle","by":1,"c":[1,1],"err":"down","shared":true}
handed {"e":"handed","by":1,"c":[1,1]}
idle {"e":"forget","by":3,"k":"k","closed":null}
closed {"e":"forgetcall","by":3,"k":"k","c":[1,1],"hit":"closed"}
cleared {"e":"forgetcall","by":3,"k":"k","c":[1,1],"hit":"cleared"}
missed {"e":"forgetcall","by":3,"k":"k","c":[1,1],"hit":"missed"}
"#;

// The record of this name.
fn record(rt: &impl Abort, name: &str) -> &'static str {
    for row in RECORDS.lines() {
        let (called, record) = row.split_once(' ').unwrap_or((row, ""));
        if called == name {
            return record;
        }
    }
    panic!(rt; "there is no such record")
}

// What is said of these records after the format, by both checkers.
fn answer(alloc: Global, text: &str) -> Result<String, AllocError> {
    match read(alloc, text.as_bytes()) {
        Ok(history) => match (check(&history), check_indexed(alloc, &history)) {
            (verdict, Ok(indexed)) if verdict != indexed => {
                format!(in alloc; "{verdict}, but with an index: {indexed}")
            }
            (_, Err(_)) => format!(in alloc; "no index"),
            (Verdict::Legal, _) => {
                let events = history.len();
                format!(in alloc; "legal: {events} events")
            }
            (illegal, _) => format!(in alloc; "{illegal}"),
        },
        Err(refusal) => format!(in alloc; "{refusal}"),
    }
}

// The records of these names, after the format.
fn after_format(
    rt: &impl Abort,
    alloc: Global,
    format: u32,
    names: &str,
) -> Result<String, AllocError> {
    let mut text = format!(in alloc; "{{\"format\":{format}}}\n")?;
    for name in names.split(' ') {
        text.push_str(record(rt, name))?;
        text.push_str("\n")?;
    }
    Ok(text)
}

// The records that a row names, after the format, are answered as it says: `lead closed: legal: 2 events`.
fn assert_answer(rt: &impl Abort, alloc: Global, format: u32, row: &str) -> Result<(), AllocError> {
    let (names, due) = row.split_once(": ").unwrap_or((row, ""));
    let said = answer(alloc, after_format(rt, alloc, format, names)?.as_str())?;
    assert!(rt; said.as_str() == due, "{said} where {due} is due");
    Ok(())
}

// The worked histories, in the first format.
const WORKED: &str = "lead foreign: event 2: settled by a caller that did not lead
lead marked: event 2: number of joiners is wrong
lead enter idle: event 3: forget names another call
lead enter marked_error handed: legal: 4 events
";

const COUNTS: &str = "lead enter error: legal: 3 events
lead enter settle_two: event 3: number of joiners is wrong
lead enter enter_too settle_two: legal: 4 events
lead enter enter_too error: event 4: number of joiners is wrong
";

const HITS: &str = "missed lead enter: legal: 3 events
cleared: event 1: hit is wrong
lead enter closed error handed: legal: 5 events
lead enter cleared: event 3: hit is wrong
lead enter missed: event 3: hit is wrong
lead closed newer missed: legal: 4 events
lead closed newer closed: event 4: hit is wrong
lead closed newer cleared: event 4: hit is wrong
lead enter error cleared newer: legal: 5 events
lead enter error closed: event 4: hit is wrong
lead enter error newer cleared: event 5: hit is wrong
lead enter error cleared cleared: event 5: hit is wrong
";

// The rows of this table are answered as they say.
fn assert_answers(
    rt: &impl Abort,
    alloc: Global,
    format: u32,
    rows: &str,
) -> Result<(), AllocError> {
    for row in rows.lines() {
        assert_answer(rt, alloc, format, row)?;
    }
    Ok(())
}

// The checker that makes an index and the one that makes none name the same event and cause. The engines' tests have more histories, for the
// first of them.
#[test]
fn both_checkers_say_the_same(rt: HostRuntime) -> Result<(), Fail> {
    assert_answers(&rt, rt.alloc(), 1, WORKED)?;
    assert_answers(&rt, rt.alloc(), 2, COUNTS)?;
    assert_answers(&rt, rt.alloc(), 3, HITS)?;
    Ok(())
}

// The text that is written for a text of records.
fn rewritten(alloc: Global, text: &str) -> Result<String, Fail> {
    let history = read(alloc, text.as_bytes())?;
    Ok(write(alloc, &history)?)
}

// A text of records is written so.
fn assert_rewritten(rt: &impl Abort, alloc: Global, text: &str, due: &str) -> Result<(), Fail> {
    let written = rewritten(alloc, text)?;
    assert!(rt; written.as_str() == due, "it is written otherwise");
    Ok(())
}

// Records of the first format are written so in the newest one.
fn assert_written(rt: &impl Abort, alloc: Global, names: &str, due: &str) -> Result<(), Fail> {
    let text = after_format(rt, alloc, 1, names)?;
    let due = after_format(rt, alloc, 3, due)?;
    assert_rewritten(rt, alloc, text.as_str(), due.as_str())
}

// What a mark of the first format stands for is written in the newest one.
#[test]
fn first_format_is_still_read(rt: HostRuntime) -> Result<(), Fail> {
    let alloc = rt.alloc();
    assert_written(&rt, alloc, "lead enter unmarked", "lead enter settle_none")?;
    assert_written(&rt, alloc, "lead marked_error", "lead error")?;
    // Enters are counted also where they may not follow; those on other calls, or after the settle, are not.
    let marked = "enter enter_aside marked_error";
    assert_written(&rt, alloc, marked, "enter enter_aside error")?;
    let marked = "marked_error enter enter marked_error";
    assert_written(&rt, alloc, marked, "error enter enter error_two")
}

#[test]
fn written_records_read_back(rt: HostRuntime) -> Result<(), Fail> {
    let alloc = rt.alloc();
    let names = "missed lead enter closed error handed cleared";
    let text = after_format(&rt, alloc, 3, names)?;
    let written = rewritten(alloc, text.as_str())?;
    assert!(rt;
        written.as_str() == text.as_str(),
        "it is written otherwise"
    );
    let again = read(alloc, written.as_bytes())?;
    assert!(rt; again.len() == 7);
    assert_rewritten(&rt, alloc, written.as_str(), text.as_str())
}

// Names in any order, white space, escapes, a name written twice, and the greatest numbers.
#[test]
fn other_spellings_of_records(rt: HostRuntime) -> Result<(), Fail> {
    let text =
        " {\t\"format\" : 1 } \r\n{\"own\":[65535,4294967295],\"k\":\"\\u00e9\\n\",\"by\":9,\"c\":[1,1],\"by\":1,\"e\":\"lead\"}";
    let line =
        "{\"format\":3}\n{\"e\":\"lead\",\"by\":1,\"k\":\"é\\n\",\"c\":[1,1],\"own\":[65535,4294967295]}\n";
    assert_rewritten(&rt, rt.alloc(), text, line)?;
    let text =
        "{\"format\":3}\n{\"hit\":\"lost\", \"c\":[65535,4294967295],\"k\":\"\",\"by\":65535,\"e\":\"forgetcall\",\"hit\":\"\\u006dissed\"}";
    let line =
        "{\"format\":3}\n{\"e\":\"forgetcall\",\"by\":65535,\"k\":\"\",\"c\":[65535,4294967295],\"hit\":\"missed\"}\n";
    assert_rewritten(&rt, rt.alloc(), text, line)
}
