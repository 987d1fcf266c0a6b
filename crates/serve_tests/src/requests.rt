//! Lines, and what they ask.
ghost use Rattle.std.specs.Prelude.{IfSome, IsTrue};
ghost use Rattle.yard_model.specs.Script.{is_config};

use script_text::Why;
use serve_lines::{Request, read_request};
use std::process::Abort;
use yard_model::{Command, Config, EntityName, Kind, ProducerNo};

/// `config nodes=1 shards=1 producers=1`
const SETTINGS: Config = Config {
    nodes: 1,
    shards: 1,
    producers: 1,
    buffer: 100,
    window: 50,
    snapshot: 100,
    keep: 2,
    remember: false,
    kind: Kind::Counter,
};

/// Lines that are refused, with the number of the reason.
const REFUSED: [(&str, u8); 17] = [
    ("send 2 c1 1 add 5", 9),
    ("send 1 c1 0 add 5", 9),
    ("send 1 c1 4294967296 add 5", 9),
    ("send 1 c.1 1 add 5", 10),
    ("send 1 c1 one add 5", 8),
    ("send 1 c1 1 fly", 5),
    ("send 1 c1 1 add", 6),
    ("send 1 c1", 6),
    ("send 1 c1 1 add 5 6", 7),
    ("add 5", 5),
    ("report 1", 7),
    ("show", 6),
    ("show a b", 7),
    ("show c.1", 10),
    ("config nodes=0", 9),
    ("config nodes=1 nodes=1", 7),
    ("send 1 c1 1 add 5\r", 1),
];

/// The number of the reason for which a line is refused; 0 where it isn't.
fn reason_of(line: &[u8], settings: Option<Config>) -> u8
    requires { IfSome settings (λ c. IsTrue (is_config c)) }
{
    match read_request(line, settings) {
        Request::Refused(why) => why.number(),
        _ => 0,
    }
}

/// The first line that is refused for something else, or isn't.
fn first_other() -> Option<&'static str> {
    for (line, reason) in &REFUSED {
        if reason_of(line.as_bytes(), Some(SETTINGS)) != *reason {
            return Some(line);
        }
    }
    None
}

/// Whether a line of so many bytes is too long.
fn is_long(count: usize) -> bool {
    let line = [b'#'; 300];
    count <= 300 && reason_of(&line[..count], None) == 2
}

/// What `send 1 c1 1 add 500` asks.
fn sample_send() -> Option<Request> {
    let producer = ProducerNo::new(1)?;
    let entity = EntityName::new(b"c1")?;
    Some(Request::Send {
        producer,
        entity,
        number: 1,
        command: Command::Add(500),
    })
}

#[test]
fn a_line_is_refused_for_its_reason(rt: HostRuntime) {
    assert!(rt; first_other().is_none());
    assert!(rt; reason_of(b"send 1 c1 1 add 5", None) == 3);
    assert!(rt; reason_of(b"x\xc8", None) == 1);
    assert!(rt; is_long(257) && !is_long(256));
}

#[test]
fn a_line_asks(rt: HostRuntime) {
    let config = read_request(b"config shards=1 producers=1 nodes=1", None);
    assert!(rt; config == Request::Settings(SETTINGS));
    let send = read_request(b" send\t1 c1 1 add 500 ", Some(SETTINGS));
    assert!(rt; Some(send) == sample_send());
    assert!(rt; read_request(b"report", Some(SETTINGS)) == Request::Report);
    assert!(rt; read_request(b"# nothing", None) == Request::Nothing);
    assert!(rt; read_request(b"", None) == Request::Nothing);
}
