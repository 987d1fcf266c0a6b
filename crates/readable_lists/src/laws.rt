//! What a text of lists tells: laws over the definitions alone.
ghost use Rattle.readable_lists.specs.Tells.{TextsTellLists};

/// Lists of a charter's slots that a reader can read off their text are the same where the text is: different
/// lists have different texts.
pub fn texts_tell_lists()
    ensures { TextsTellLists }
{}
