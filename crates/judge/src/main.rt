//! The judge of traces: a script, a line `trace` and a trace from standard input; to standard output a line that
//! says that the trace is safe, or which line ends its safety and why.
#![tactic(auto)]

use judge_run::{Asked, Status, asked_for, judge};
use std::env::{self, Env};
use std::io::{self, ErrorKind, IsTerminal};
use std::process::ExitCode;
use yard_io::{StdSink, StdSource};

/// What it prints of itself.
const HELP: &str = "judge: whether a trace of a cluster of event-sourced entities is safe

  judge            reads a script, a line `trace` and a trace, and writes whether the
                   trace is safe, or which line ends its safety and why
  judge --help     prints this
  judge --version  prints the name and the version

Status: 0 the trace is safe, 1 it is not, 2 usage, 3 the script or a line of the trace
is refused, 4 a read failed, 5 a write failed, 6 there was no memory.

Examples, in a clone, with ./run.sh judge in the place of judge:

  judge < examples/unsafe_two_incarnations.trace
  (cat SCRIPT; echo trace; ./run.sh replay < SCRIPT) | judge

Read on in docs/JUDGE.md.";

/// The name and the version.
const VERSION: &str = "judge 0.1.0";

/// All arguments of the program, of which the first is its name.
fn arguments(rt: &(impl Env + AllocGlobal)) -> io::Result<Vec<String>> {
    let arguments = env::args(rt)?.collect(rt.alloc())?;
    Ok(arguments)
}

/// How the run ends where its arguments couldn't be had: there was no memory for them, or one is no text.
fn status_without_arguments(error: &io::Error) -> Status {
    match error.kind() {
        ErrorKind::OutOfMemory => Status::OutOfMemory,
        _ => Status::Usage,
    }
}

/// Says to who sits at a terminal what is awaited from there.
fn invite(rt: &impl Eprint) {
    let _ = eprintln!(rt;
        "judge: a script, a line `trace` and a trace are awaited from the terminal; Ctrl-D on a line of its own ends them"
    );
}

/// What stands on standard error beside the status, if anything.
fn complain(rt: &impl Eprint, status: Status) {
    if status.complains() {
        let (explanation, place) = (status.explanation(), status.place());
        let _ = eprintln!(rt; "{status}");
        let _ = eprintln!(rt; "  {explanation} ({place})");
    }
}

/// What the system said of what failed last, if anything failed.
fn tell_cause(rt: &impl Eprint, what: &str, error: Option<io::Error>) {
    if let Some(error) = error {
        let _ = eprintln!(rt; "  {what}: {error}");
    }
}

/// Judges what comes from standard input.
fn judge_input(rt: &HostRuntime) -> Status {
    let mut sink = match StdSink::new(rt.alloc(), rt.stdout()) {
        Ok(sink) => sink,
        Err(_) => {
            complain(rt, Status::OutOfMemory);
            return Status::OutOfMemory;
        }
    };
    if rt.stdin().is_terminal() {
        invite(rt);
    }
    let mut source = StdSource::new(rt.stdin());
    let status = judge(rt.alloc(), &mut source, &mut sink);
    complain(rt, status);
    match status {
        Status::ReadFault => tell_cause(rt, "standard input", source.last_error()),
        Status::WriteFault => tell_cause(rt, "standard output", sink.last_error()),
        _ => {}
    }
    status
}

/// Writes a text of the program's own; how the run ends.
fn tell(rt: &HostRuntime, text: &str) -> Status {
    match println!(rt; "{text}") {
        Ok(()) => Status::Safe,
        Err(error) => {
            complain(rt, Status::WriteFault);
            tell_cause(rt, "standard output", Some(error));
            Status::WriteFault
        }
    }
}

/// Does what these arguments ask for.
fn run(rt: &HostRuntime, arguments: &[String]) -> Status {
    match asked_for(arguments) {
        Asked::Judge => judge_input(rt),
        Asked::Help => tell(rt, HELP),
        Asked::Version => tell(rt, VERSION),
        Asked::Usage => {
            complain(rt, Status::Usage);
            Status::Usage
        }
    }
}

fn main(rt: HostRuntime) -> ExitCode {
    let status = match arguments(&rt) {
        Ok(arguments) => run(&rt, arguments.as_slice()),
        Err(error) => {
            let status = status_without_arguments(&error);
            complain(&rt, status);
            status
        }
    };
    ExitCode::from(status.code())
}
