//! Requests, one after the other.
use crate::desk::{Desk, Heard};
use std::alloc::{AllocError, Global};
use std::process::Abort;
use std::test::Fail;
use yard_model::{Command, Config, EntityName, Kind, ProducerNo};

const CONFIG: Config = Config {
    nodes: 1,
    shards: 1,
    producers: 2,
    buffer: 100,
    window: 50,
    snapshot: 100,
    keep: 2,
    remember: false,
    kind: Kind::Counter,
};

/// A request: a producer, an entity, a number, a command.
type Request = (u8, &'static str, u32, Command);

/// What is asked in turn, and what is answered.
const HEARD: [(Request, Heard); 10] = [
    ((1, "c1", 1, Command::Add(5)), Heard::Done),
    (
        (1, "c1", 1, Command::Add(500)),
        Heard::Conflict(Command::Add(5)),
    ),
    ((1, "c1", 1, Command::Add(5)), Heard::Done),
    ((1, "c1", 2, Command::Add(6)), Heard::Done),
    ((1, "c1", 4, Command::Read), Heard::Gap(3)),
    (
        (1, "c1", 2, Command::Add(7)),
        Heard::Conflict(Command::Add(6)),
    ),
    ((1, "c1", 2, Command::Add(6)), Heard::Done),
    ((1, "c1", 3, Command::Read), Heard::Done),
    ((2, "c1", 1, Command::Add(500)), Heard::Done),
    ((1, "c2", u32::MAX, Command::Read), Heard::Gap(1)),
];

/// What a desk answers; nothing where the request isn't one of its settings, or there is no memory.
fn answer(desk: &mut Desk, request: &Request) -> Option<Heard> {
    let producer = ProducerNo::new(request.0)?;
    let entity = EntityName::new(request.1.as_bytes())?;
    if request.2 == 0 || !desk.is_order(producer, &request.3) {
        return None;
    }
    desk.hear(producer, &entity, request.2, &request.3).ok()
}

/// Whether all are answered so.
fn are_heard(alloc: Global) -> Result<bool, AllocError> {
    let mut desk = Desk::new(alloc, CONFIG)?;
    for (request, wanted) in &HEARD {
        if answer(&mut desk, request) != Some(*wanted) {
            return Ok(false);
        }
    }
    Ok(true)
}

#[test]
fn a_command_has_its_number(rt: HostRuntime) -> Result<(), Fail> {
    assert!(rt; are_heard(rt.alloc())?);
    Ok(())
}

/// How many commands a desk has that enters those of a log, the second of which isn't of its settings.
fn entered(alloc: Global) -> Result<usize, AllocError> {
    let mut desk = Desk::new(alloc, CONFIG)?;
    let Some(producer) = ProducerNo::new(2) else {
        return Ok(0);
    };
    let Some(entity) = EntityName::new(b"c1") else {
        return Ok(0);
    };
    for command in [Command::Add(5), Command::Create, Command::Read] {
        desk.enter(7, producer, &entity, &command)?;
    }
    Ok(desk.charter(alloc)?.orders().len())
}

#[test]
fn a_log_is_entered(rt: HostRuntime) -> Result<(), Fail> {
    assert!(rt; entered(rt.alloc())? == 2);
    Ok(())
}
