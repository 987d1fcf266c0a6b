//! A script that is cut off after each of its bytes.
use crate::fixtures::run_script;
use crate::stored::{FIRST_COMMAND, FIRST_TEXT};
use script_text::Why;
use std::alloc::{AllocError, Global};
use std::process::Abort;
use std::test::Fail;
use test_streams::{Drain, WHOLE};
use yard_top::Status;

/// What comes of the front of a script.
#[derive(Clone, Copy)]
enum Outcome {
    /// It is a script: so many bytes of the whole script's text are its trace, and this is its report.
    Played(usize, &'static str),
    /// It is none: the first fault.
    Refused(u32, Why),
}

const NOTHING: &str = "report\nend\n";

const QUEUED: &str = "report\nqueue 1 c1 queued 1 confirmed 0\nend\n";

const CONFIRMED: &str = "report
entity c1 shard 0 records 1 state 5
record 1 epoch 1 by 1:1 add 5 / added 5 / ok 5
queue 1 c1 queued 1 confirmed 1
end
";

/// Each outcome with the last cut that has it, in order: a cut is the number of bytes that are left.
const OUTCOMES: [(usize, Outcome); 25] = [
    (5, Outcome::Refused(1, Why::NoConfig)),
    (7, Outcome::Played(0, NOTHING)),
    // A setting without its sign, without its value, and with it.
    (13, Outcome::Refused(1, Why::UnknownWord)),
    (14, Outcome::Refused(1, Why::BadNumber)),
    (16, Outcome::Played(0, NOTHING)),
    (22, Outcome::Refused(1, Why::UnknownWord)),
    (23, Outcome::Refused(1, Why::BadNumber)),
    (25, Outcome::Played(0, NOTHING)),
    // `up 1`
    (26, Outcome::Refused(2, Why::UnknownWord)),
    (28, Outcome::Refused(2, Why::MissingWord)),
    (30, Outcome::Played(38, NOTHING)),
    // `pump 9`
    (33, Outcome::Refused(3, Why::UnknownWord)),
    (35, Outcome::Refused(3, Why::MissingWord)),
    (37, Outcome::Played(164, NOTHING)),
    // `produce 1 1`
    (43, Outcome::Refused(4, Why::UnknownWord)),
    (47, Outcome::Refused(4, Why::MissingWord)),
    (49, Outcome::Played(191, NOTHING)),
    // `send 1 c1 add 5`: the order's word, what it wants, the command's word, and its number.
    (52, Outcome::Refused(5, Why::UnknownWord)),
    (59, Outcome::Refused(5, Why::MissingWord)),
    (61, Outcome::Refused(5, Why::UnknownWord)),
    (63, Outcome::Refused(5, Why::MissingWord)),
    (65, Outcome::Played(262, QUEUED)),
    // `pump 9`
    (68, Outcome::Refused(6, Why::UnknownWord)),
    (70, Outcome::Refused(6, Why::MissingWord)),
    (72, Outcome::Played(662, CONFIRMED)),
];

/// What is to come of the front of so many bytes.
fn outcome_of(cut: usize) -> Option<Outcome> {
    for (last, outcome) in &OUTCOMES {
        if cut <= *last {
            return Some(*outcome);
        }
    }
    None
}

/// The front of so many bytes, as far as there are so many.
fn front_of(cut: usize) -> &'static [u8] {
    match FIRST_COMMAND.get(..cut) {
        Some(front) => front,
        None => FIRST_COMMAND,
    }
}

/// Whether a text is a front of the trace, so many bytes long, and this report.
fn is_played(text: &[u8], trace: usize, report: &[u8]) -> bool {
    let Some(front) = FIRST_TEXT.get(..trace) else {
        return false;
    };
    text.starts_with(front)
        && text.ends_with(report)
        && text.len() == trace.saturating_add(report.len())
}

/// Whether this is what comes of the front of so many bytes.
fn is_outcome(end: Status, text: &[u8], cut: usize) -> bool {
    match outcome_of(cut) {
        Some(Outcome::Played(trace, report)) => {
            end == Status::Ok && is_played(text, trace, report.as_bytes())
        }
        Some(Outcome::Refused(line, why)) => {
            end == Status::Refused { line, why } && text.is_empty()
        }
        None => false,
    }
}

/// Replays the front of a script of so many bytes: whether what is to come of it does.
fn comes_out(alloc: Global, sink: &mut Drain, cut: usize) -> Result<bool, AllocError> {
    sink.restart(WHOLE, 0);
    let end = run_script(alloc, &["replay"], front_of(cut), sink)?;
    Ok(is_outcome(end, sink.bytes(), cut))
}

/// Replays the front of each length: whether what is to come of each does.
fn all_come_out(alloc: Global, sink: &mut Drain) -> Result<bool, AllocError> {
    for cut in 0..=FIRST_COMMAND.len() {
        if !comes_out(alloc, sink, cut)? {
            return Ok(false);
        }
    }
    Ok(true)
}

#[test]
fn each_front_of_a_script(rt: HostRuntime) -> Result<(), Fail> {
    let mut sink = Drain::new(rt.alloc());
    assert!(rt; all_come_out(rt.alloc(), &mut sink)?);
    Ok(())
}
