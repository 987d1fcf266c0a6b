//! The words of the command line.
ghost use Rattle.std.specs.Prelude.{◌≡◌, ◌↔◌, drop, ◌⊎◌, IfOk, IfErr, IsOkAnd, IsErrAnd};
ghost use Rattle.std.specs.IoError.{error_kind};
ghost use Rattle.std.specs.declared.io.ErrorKind.TheVariants as kind;
ghost use Rattle.program_words.specs.declared.status.Status.TheVariants as status;

use crate::status::Status;
use std::io::{self, ErrorKind};

/// The words after the program's name, of what came of asking for all of its arguments; how the run
/// ends where they couldn't be had.
pub fn words_of(arguments: io::Result<Vec<String>>) -> Result<Vec<String>, Status>
    ensures words { IfOk arguments (λ all. IsOkAnd result (λ words. words.items ≡ drop 1 all.items)) }
    ensures memory { IfErr arguments (λ e. IsErrAnd result (λ s. (s ≡ status.OutOfMemory) ↔ (error_kind e ≡ kind.OutOfMemory))) }
    ensures either { IfErr arguments (λ e. IsErrAnd result (λ s. (s ≡ status.OutOfMemory) ⊎ (s ≡ status.Usage))) }
{
    match arguments {
        Ok(arguments) => Ok(without_name(arguments)),
        Err(e) => Err(status_without_words(e.kind())),
    }
}

/// The words after the program's name, of all of its arguments, whose first is its name.
pub fn without_name(mut arguments: Vec<String>) -> Vec<String>
    ensures { result.items ≡ drop 1 arguments.items }
{
    if arguments.is_empty() {
        return arguments;
    }
    arguments.remove(0);
    arguments
}

/// How a run ends whose arguments couldn't be had, for this reason: there was no memory for them, or one
/// of them isn't text.
pub fn status_without_words(reason: ErrorKind) -> Status
    ensures memory { (result ≡ status.OutOfMemory) ↔ (reason ≡ kind.OutOfMemory) }
    ensures either { (result ≡ status.OutOfMemory) ⊎ (result ≡ status.Usage) }
{
    match reason {
        ErrorKind::OutOfMemory => Status::OutOfMemory,
        _ => Status::Usage,
    }
}
