//! The program that serves lines: from standard input, with a log in the current folder, answers to standard output as
//! soon as what they say is on the disk; on standard error a line where the input wasn't served to its end.
#![tactic(auto)]

use disk_log::StdDisk;
use serve_run::{Asked, Status, asked_for, serve};
use std::env::{self, Env};
use std::io::{self, ErrorKind, IsTerminal};
use std::process::ExitCode;
use yard_io::{StdSink, StdSource};

/// What it prints of itself.
const HELP: &str = "serve: event-sourced entities whose every answer is on the disk first

  serve            reads lines as they come, carries each out once, and answers it
                   when it is on disk, in sharder.log; started again it goes on
  serve --help     prints this
  serve --version  prints the name and the version

A line is `config KEY=VALUE ..`, `send PRODUCER ENTITY NUMBER COMMAND`, `show ENTITY` or
`report`. Numbers of a producer and an entity go 1, 2, 3, ..: one that was recorded is
answered again and not done again.

Status: 0 the input ended, 2 usage, 4 a read failed, 5 a write failed, 6 there was no
memory or the log is full, 8 the disk failed, 10 the log is damaged, 11 it is none of
serve's.

Example, in a clone, with ./run.sh serve in the place of serve:

  printf 'config nodes=1 shards=1 producers=1\\nsend 1 c1 1 add 5\\n' | serve

Read on in docs/SERVE.md.";

/// The name and the version.
const VERSION: &str = "serve 0.1.0";

/// All arguments of the program, of which the first is its name.
fn arguments(rt: &(impl Env + AllocGlobal)) -> io::Result<Vec<String>> {
    let arguments = env::args(rt)?.collect(rt.alloc())?;
    Ok(arguments)
}

/// How the run ends where its arguments couldn't be had: there was no memory for them, or one is no text.
fn status_without_arguments(error: &io::Error) -> Status {
    match error.kind() {
        ErrorKind::OutOfMemory => Status::OutOfMemory,
        _ => Status::Usage,
    }
}

/// Says to who sits at a terminal what is awaited from there.
fn invite(rt: &impl Eprint) {
    let _ = eprintln!(rt;
        "serve: lines are awaited from the terminal, such as `send 1 c1 1 add 5`; Ctrl-D on a line of its own ends them"
    );
}

/// What stands on standard error beside the status, if anything.
fn complain(rt: &impl Eprint, status: Status) {
    if status.complains() {
        let (explanation, place) = (status.explanation(), status.place());
        let _ = eprintln!(rt; "{status}");
        let _ = eprintln!(rt; "  {explanation} ({place})");
    }
}

/// What the system said of what failed last, if anything failed.
fn tell_cause(rt: &impl Eprint, what: &str, error: Option<io::Error>) {
    if let Some(error) = error {
        let _ = eprintln!(rt; "  {what}: {error}");
    }
}

/// Serves what comes from standard input.
fn serve_input(rt: &HostRuntime) -> Status {
    let mut sink = match StdSink::new(rt.alloc(), rt.stdout()) {
        Ok(sink) => sink,
        Err(_) => {
            complain(rt, Status::OutOfMemory);
            return Status::OutOfMemory;
        }
    };
    if rt.stdin().is_terminal() {
        invite(rt);
    }
    let mut source = StdSource::new(rt.stdin());
    let mut disk = StdDisk::new(rt);
    let status = serve(rt.alloc(), &mut source, &mut sink, &mut disk);
    complain(rt, status);
    match status {
        Status::ReadFault => tell_cause(rt, "standard input", source.last_error()),
        Status::WriteFault => tell_cause(rt, "standard output", sink.last_error()),
        Status::DiskFault => tell_cause(rt, "sharder.log", disk.last_error()),
        _ => {}
    }
    status
}

/// Writes a text of the program's own; how the run ends.
fn tell(rt: &HostRuntime, text: &str) -> Status {
    match println!(rt; "{text}") {
        Ok(()) => Status::Served,
        Err(error) => {
            complain(rt, Status::WriteFault);
            tell_cause(rt, "standard output", Some(error));
            Status::WriteFault
        }
    }
}

/// Does what these arguments ask for.
fn run(rt: &HostRuntime, arguments: &[String]) -> Status {
    match asked_for(arguments) {
        Asked::Serve => serve_input(rt),
        Asked::Help => tell(rt, HELP),
        Asked::Version => tell(rt, VERSION),
        Asked::Usage => {
            complain(rt, Status::Usage);
            Status::Usage
        }
    }
}

fn main(rt: HostRuntime) -> ExitCode {
    let status = match arguments(&rt) {
        Ok(arguments) => run(&rt, arguments.as_slice()),
        Err(error) => {
            let status = status_without_arguments(&error);
            complain(&rt, status);
            status
        }
    };
    ExitCode::from(status.code())
}
