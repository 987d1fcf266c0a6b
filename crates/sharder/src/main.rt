//! The program: words from the command line, a script from standard input, a log in the current folder, a
//! text to standard output, and lines on standard error where it could not be had: which status that is,
//! what it is in words, and what the system said.
#![tactic(auto)]

use disk_log::StdDisk;
use program_words::{Status, reads_script};
use std::env::{self, Env};
use std::io::{self, IsTerminal};
use std::process::ExitCode;
use yard_io::{FreeGate, StdSink, StdSource};
use yard_top::run;

/// All arguments of the program, of which the first is its name.
fn arguments(rt: &(impl Env + AllocGlobal)) -> io::Result<Vec<String>> {
    let arguments = env::args(rt)?.collect(rt.alloc())?;
    Ok(arguments)
}

/// Whether these arguments ask for a form that reads a script.
fn awaits(arguments: &io::Result<Vec<String>>) -> bool {
    match arguments {
        Ok(all) => match all.as_slice() {
            [_, words @ ..] => reads_script(words),
            [] => false,
        },
        Err(_) => false,
    }
}

/// Says to who sits at a terminal that a script is awaited from there.
fn invite(rt: &impl Eprint) {
    let _ = eprintln!(rt;
        "sharder: a script is awaited from the terminal; Ctrl-D on a line of its own ends it"
    );
}

/// What stands on standard error beside the status, if anything.
fn complain(rt: &impl Eprint, status: Status) {
    if status != Status::Ok {
        let (explanation, place) = (status.explanation(), status.place());
        let _ = eprintln!(rt; "{status}");
        let _ = eprintln!(rt; "  {explanation} ({place})");
    }
}

/// What the system said of what failed last, if anything failed.
fn tell_cause(rt: &impl Eprint, what: &str, error: Option<io::Error>) {
    if let Some(error) = error {
        let _ = eprintln!(rt; "  {what}: {error}");
    }
}

fn main(rt: HostRuntime) -> ExitCode {
    let mut source = StdSource::new(rt.stdin());
    let mut disk = StdDisk::new(&rt);
    let status = match StdSink::new(rt.alloc(), rt.stdout()) {
        Ok(mut sink) => {
            let arguments = arguments(&rt);
            if awaits(&arguments) && rt.stdin().is_terminal() {
                invite(&rt);
            }
            let status = run(
                &rt,
                rt.alloc(),
                arguments,
                &mut source,
                &mut sink,
                &FreeGate,
                &mut disk,
            );
            complain(&rt, status);
            if status == Status::WriteFault {
                tell_cause(&rt, "standard output", sink.last_error());
            }
            status
        }
        Err(_) => {
            complain(&rt, Status::OutOfMemory);
            Status::OutOfMemory
        }
    };
    match status {
        Status::ReadFault => tell_cause(&rt, "standard input", source.last_error()),
        Status::DiskFault => tell_cause(&rt, "sharder.log", disk.last_error()),
        _ => {}
    }
    ExitCode::from(status.code())
}
