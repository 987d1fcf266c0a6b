//! Answers, and their lines.
use script_text::Why;
use serve_lines::{
    head_text, push_conflict, push_done, push_entity, push_gap, push_other_settings, push_refused,
    push_settings, read_head,
};
use std::alloc::{AllocError, Global};
use std::process::Abort;
use yard_model::{Command, Config, EntityName, Kind, ProducerNo, Reply, ShardNo, State};

/// `config nodes=1 shards=4 producers=1 kind=account`
const SETTINGS: Config = Config {
    nodes: 1,
    shards: 4,
    producers: 1,
    buffer: 100,
    window: 50,
    snapshot: 100,
    keep: 2,
    remember: false,
    kind: Kind::Account,
};

const HEAD: &str =
    "config nodes=1 shards=4 producers=1 buffer=100 window=50 snapshot=100 keep=2 remember=off kind=account\n";

const TEXT: &str = "refused 9
done 1 alice 2 ok 100
done 1 alice 3 no 2
gap 1 alice 9 next 4
conflict 1 alice 2 deposit 100 7
entity alice shard 0 records 2 state open 100
config nodes=1 shards=4 producers=1 buffer=100 window=50 snapshot=100 keep=2 remember=off kind=account
conflict config nodes=1 shards=4 producers=1 buffer=100 window=50 snapshot=100 keep=2 remember=off kind=account
";

/// What is a log's head, and what isn't quite.
const HEADS: [(&str, bool); 4] = [
    (HEAD, true),
    ("config nodes=1 shards=4 producers=1 kind=account\n", false),
    (
        "config nodes=1 shards=4 producers=1 buffer=100 window=50 snapshot=100 keep=2 remember=off kind=account",
        false,
    ),
    (
        "config nodes=01 shards=4 producers=1 buffer=100 window=50 snapshot=100 keep=2 remember=off kind=account\n",
        false,
    ),
];

#[derive(Debug, Drop)]
enum Fail {
    Memory,
    Sample,
}

impl From<AllocError> for Fail {
    fn from(_error: AllocError) -> Fail {
        Fail::Memory
    }
}

/// The answers about `alice`.
fn push_own(text: &mut Vec<u8>) -> Result<(), Fail> {
    let producer = ProducerNo::new(1).ok_or(Fail::Sample)?;
    let alice = EntityName::new(b"alice").ok_or(Fail::Sample)?;
    push_done(text, producer, &alice, 2, &Reply::Value(100))?;
    push_done(text, producer, &alice, 3, &Reply::Rejected(2))?;
    push_gap(text, producer, &alice, 9, 4)?;
    let command = Command::DepositWithMemo(7, 100);
    push_conflict(text, producer, &alice, 2, &command)?;
    Ok(())
}

/// The line of `alice`, who has 100.
fn push_shown(text: &mut Vec<u8>) -> Result<(), Fail> {
    let shard = ShardNo::new(0, 8).ok_or(Fail::Sample)?;
    let alice = EntityName::new(b"alice").ok_or(Fail::Sample)?;
    let open = State::Open {
        balance: 100,
        memo: 0,
    };
    push_entity(text, shard, &alice, 2, &open)?;
    Ok(())
}

/// A line of each kind.
fn each_line(alloc: Global) -> Result<Vec<u8>, Fail> {
    let mut text = Vec::new(alloc);
    push_refused(&mut text, Why::OutOfRange)?;
    push_own(&mut text)?;
    push_shown(&mut text)?;
    push_settings(&mut text, &SETTINGS)?;
    push_other_settings(&mut text, &SETTINGS)?;
    Ok(text)
}

/// Whether this is the line of the settings, and read as that.
fn is_head(alloc: Global, text: &str) -> Result<bool, AllocError> {
    let head = head_text(alloc, &SETTINGS)?;
    let read = read_head(alloc, text.as_bytes())?;
    Ok(head.as_slice() == text.as_bytes() && read == Some(SETTINGS))
}

/// The first that is a head where it isn't to be, or the other way round.
fn first_other(alloc: Global) -> Result<Option<&'static str>, AllocError> {
    for (text, is) in &HEADS {
        if is_head(alloc, text)? != *is {
            return Ok(Some(text));
        }
    }
    Ok(None)
}

#[test]
fn answers_are_written(rt: HostRuntime) -> Result<(), Fail> {
    let text = each_line(rt.alloc())?;
    assert!(rt; text.as_slice() == TEXT.as_bytes());
    Ok(())
}

#[test]
fn a_head_is_read(rt: HostRuntime) -> Result<(), Fail> {
    assert!(rt; first_other(rt.alloc())?.is_none());
    Ok(())
}
