//! The words behind the program's name.
ghost use Rattle.std.specs.Prelude.{◌≡◌};
ghost use Rattle.serve_run.specs.Words.{asked_by, asked_in};

/// What the words ask for.
#[derive(Clone, Copy, Debug, PartialEq, Eq)]
pub enum Asked {
    /// No words: lines are to be served.
    Serve,
    /// `--help`
    Help,
    /// `--version`
    Version,
    /// Something else, which the program doesn't know.
    Usage,
}

/// What all arguments of the program ask for, of which the first is its name.
pub fn asked_for(arguments: &[String]) -> Asked
    ensures { result ≡ asked_in arguments.now }
{
    match arguments {
        [] | [_] => Asked::Serve,
        [_, word] => asked_by(word.as_str()),
        _ => Asked::Usage,
    }
}

/// What one word behind the name asks for.
fn asked_by(word: &str) -> Asked
    ensures { result ≡ asked_by word.now }
{
    if word == "--help" {
        Asked::Help
    } else if word == "--version" {
        Asked::Version
    } else {
        Asked::Usage
    }
}
