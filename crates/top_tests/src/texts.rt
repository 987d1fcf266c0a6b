//! What no clause says: that memory is there where there is plenty, for the longest script that is refused.
use crate::fixtures::run_script;
use script_text::Why;
use std::alloc::{AllocError, Global};
use std::process::Abort;
use std::test::Fail;
use test_streams::Drain;
use yard_top::Status;

/// Whether a form refuses a script for its length, and writes nothing.
fn is_too_long(
    alloc: Global,
    word: &str,
    script: &[u8],
    sink: &mut Drain,
) -> Result<bool, AllocError> {
    let end = run_script(alloc, &[word], script, sink)?;
    let long = Status::Refused {
        line: 0,
        why: Why::TooLong,
    };
    Ok(end == long && sink.bytes().is_empty())
}

/// Whether two forms refuse the shortest script that is too long.
fn are_too_long(alloc: Global, sink: &mut Drain) -> Result<bool, AllocError> {
    let bytes = vec![in alloc; b'\n'; 4_194_305]?;
    Ok(
        is_too_long(alloc, "solo", bytes.as_slice(), sink)?
            && is_too_long(alloc, "replay", bytes.as_slice(), sink)?,
    )
}

#[test]
fn too_much(rt: HostRuntime) -> Result<(), Fail> {
    let mut sink = Drain::new(rt.alloc());
    assert!(rt; are_too_long(rt.alloc(), &mut sink)?);
    Ok(())
}
