//! Whole inputs and answers.

use sf_text::{read_all, write_all};
use std::test::Fail;

#[test]
fn streams_are_read_and_written_whole(rt: HostRuntime) -> Result<(), Fail> {
    let input = read_all(rt.alloc(), &mut b"bytes".as_slice())?;
    assert!(rt;
        input.as_slice() == b"bytes".as_slice(),
        "other bytes are read"
    );
    let mut written: Vec<u8> = Vec::new(rt.alloc());
    write_all(&mut written, "text")?;
    assert!(rt;
        written.as_slice() == b"text".as_slice(),
        "other bytes are written"
    );
    Ok(())
}
