//! Lines by their first word.
ghost use Rattle.std.specs.Prelude.{◌≡◌, ◌<◌, ◌||◌, ◌==◌, IfSome, length};
ghost use Rattle.std.specs.List.{position};
ghost use Rattle.yard_model.specs.Script.{is_name};
ghost use Rattle.verdict_laws.specs.Lines.{first_word, is_end, is_quiet, is_quiet_word, is_remark};

/// Where the first space or LF stands.
fn word_end(line: &[u8]) -> Option<usize>
    ensures place { result ≡ position (λ b. (b == 32) || (b == 10)) line.now }
    ensures within { IfSome result (λ i. i < length line.now) }
{
    line.iter().position(|b| *b == b' ' || *b == b'\n')
}

/// The bytes up to the first space or LF.
fn first_word(line: &[u8]) -> &[u8]
    ensures { result.now ≡ first_word line.now }
{
    match word_end(line) {
        Some(end) => &line[..end],
        None => line,
    }
}

/// Whether two texts are the same.
pub(crate) fn is(one: &[u8], other: &[u8]) -> bool
    ensures { result ≡ is_name one.now other.now }
{
    one == other
}

/// Whether it is the first word of facts of which safety says nothing.
fn is_quiet_word(word: &[u8]) -> bool
    ensures { result ≡ is_quiet_word word.now }
{
    is(word, b"sent")
        || is(word, b"got")
        || is(word, b"at")
        || is(word, b"kept")
        || is(word, b"stashed")
        || is(word, b"home")
        || is(word, b"forget")
        || is(word, b"held")
        || is(word, b"view")
        || is(word, b"up")
        || is(word, b"moving")
        || is(word, b"dropped")
        || is(word, b"waits")
        || is(word, b"armed")
        || is(word, b"nothing")
        || is(word, b"settled")
        || is(word, b"wirefull")
}

/// Whether it is a remark.
fn is_remark(line: &[u8]) -> bool
    ensures { result ≡ is_remark line.now }
{
    match line.first() {
        Some(b) => *b == b'#',
        None => false,
    }
}

/// Whether a line is passed over: a remark, or a fact of which safety says nothing.
pub(crate) fn is_quiet(line: &[u8]) -> bool
    ensures { result ≡ is_quiet line.now }
{
    is_remark(line) || is_quiet_word(first_word(line))
}

/// Whether a line ends the trace.
pub(crate) fn is_end(line: &[u8]) -> bool
    ensures { result ≡ is_end line.now }
{
    is(line, b"report\n")
}
