//! What is printed is read, and what is read is printed so: laws over the definitions alone.
ghost use Rattle.fact_lines.specs.Laws.{EntriesAreReadable, PrintedIsRead, ReadIsPrinted, TextsTell};

/// A line that is printed is read as its fact.
pub fn printed_is_read()
    ensures { PrintedIsRead }
{}

/// What is read as a fact is that fact's line.
pub fn read_is_printed()
    ensures { ReadIsPrinted }
{}

/// Different lists of facts have different texts.
pub fn texts_tell()
    ensures { TextsTell }
{}

/// An entry is among the facts that are read.
pub fn entries_are_readable()
    ensures { EntriesAreReadable }
{}
