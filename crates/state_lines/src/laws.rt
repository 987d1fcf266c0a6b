//! What is printed is read, and only such facts are read: laws over the definitions alone.
ghost use Rattle.state_lines.specs.Laws.{LinesTell, ReadIsTold, ToldIsRead};

/// A line that is printed is read as its fact.
pub fn told_is_read()
    ensures { ToldIsRead }
{}

/// What is read is a fact whose line is read so.
pub fn read_is_told()
    ensures { ReadIsTold }
{}

/// Different facts have different lines.
pub fn lines_tell()
    ensures { LinesTell }
{}
