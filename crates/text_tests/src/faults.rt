//! What a full wire says of itself.
use std::alloc::{AllocError, Global};
use std::process::Abort;
use std::test::Fail;
use wire_packet::WireFault;

/// Whether a fault says this.
fn says(alloc: Global, fault: WireFault, text: &str) -> Result<bool, AllocError> {
    let said = fault.to_string(alloc)?;
    Ok(said.as_str() == text)
}

/// Whether each fault says what it is.
fn are_said(alloc: Global) -> Result<bool, AllocError> {
    let full = says(alloc, WireFault::Full, "the wire is full")?;
    Ok(full && says(alloc, WireFault::OutOfMemory, "out of memory")?)
}

#[test]
fn faults_say_what_they_are(rt: HostRuntime) -> Result<(), Fail> {
    assert!(rt; are_said(rt.alloc())?);
    Ok(())
}
