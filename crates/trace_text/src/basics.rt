//! Bytes at the end of a text that is given room as it grows.
ghost use Rattle.std.specs.Prelude.{◌≡◌, if◌then◌else◌, is_ok, take};
ghost use Rattle.trace_text.specs.Grown.{Appends};

use std::alloc::AllocError;

/// Appends these bytes.
pub(crate) fn push(text: &mut Vec<u8>, bytes: &[u8]) -> Result<(), AllocError>
    ensures { Appends result text.old.items text.new.items bytes.now }
{
    text.extend_from_slice(bytes)
}

/// What came of pushing several pieces. Where memory was missing, the text is cut to this length, which
/// it had before.
pub(crate) fn all_or_none(
    text: &mut Vec<u8>,
    length: usize,
    pushed: Result<(), AllocError>,
) -> Result<(), AllocError>
    ensures result { result ≡ pushed }
    ensures items { text.new.items ≡ (if is_ok pushed then text.old.items else take length text.old.items) }
{
    if pushed.is_err() {
        text.truncate(length);
    }
    pushed
}
