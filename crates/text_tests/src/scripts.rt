//! Scripts, and what they are refused for.
use script_text::{Mode, ScriptFault, Why, read_script};
use std::alloc::Global;
use std::process::Abort;

/// What a script is refused for.
fn fault_of(alloc: Global, text: &[u8], mode: Mode) -> Option<ScriptFault> {
    read_script(alloc, text, mode).err()
}

/// What scripts of the commands are refused for that `known_replays`, which runs on one thread, can't ask.
const REFUSED: [(&str, Mode, u32, Why); 10] = [
    ("config\ndeliver 1", Mode::Live, 2, Why::WrongMode),
    ("config\nreshard 129", Mode::Live, 2, Why::OutOfRange),
    ("config\nupgrade", Mode::Live, 2, Why::WrongMode),
    (
        "\nconfig kind=cart\nfailwrite a kept",
        Mode::Live,
        3,
        Why::WrongMode,
    ),
    ("config\nleave 1", Mode::Pull, 2, Why::WrongMode),
    ("config\nproduce 2 1", Mode::Pull, 2, Why::OutOfRange),
    ("config\nrest 2", Mode::Pull, 2, Why::OutOfRange),
    ("config\nsend 2 a.b read", Mode::Pull, 2, Why::OutOfRange),
    ("config\nping 2", Mode::Pull, 2, Why::WrongMode),
    (
        "config\nsend 1 a read\nsend 1 a add 1",
        Mode::Pull,
        3,
        Why::SecondJob,
    ),
];

/// The first script that is refused for something else, or isn't.
fn first_other(alloc: Global) -> Option<&'static str> {
    for (text, mode, line, why) in &REFUSED {
        let wanted = ScriptFault::At {
            line: *line,
            why: *why,
        };
        if fault_of(alloc, text.as_bytes(), *mode) != Some(wanted) {
            return Some(text);
        }
    }
    None
}

#[test]
fn the_first_fault_is_told(rt: HostRuntime) {
    assert!(rt; first_other(rt.alloc()).is_none());
}
