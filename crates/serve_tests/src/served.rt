//! Known lines, and what is served of them.

use serve_run::Status;

/// Settings and a command, from an empty disk on.
pub(crate) const FIRST: &[u8] = b"config nodes=1 shards=1 producers=1\nsend 1 c1 1 add 5\n";

pub(crate) const FIRST_ANSWERS: &[u8] =
    b"config nodes=1 shards=1 producers=1 buffer=100 window=50 snapshot=100 keep=2 remember=off kind=counter
done 1 c1 1 ok 5
";

pub(crate) const FIRST_LOG: &[u8] =
    b"\x01\x00\x00\x00gconfig nodes=1 shards=1 producers=1 buffer=100 window=50 snapshot=100 keep=2 remember=off kind=counter
\x01\x00\x00\x01\x07granted coordinator 1 1.1
registered 1.1
granted queue:1 1 1.1
queued 1 c1 1 add 5
allocated 0 1.1
granted shard:0 1 1.1
wrote c1 1 epoch 1 by 1:1 add 5 / added 5 / ok 5
confirmed 1 c1 1
freed shard:0 1 stopped
freed coordinator 1 stopped
freed queue:1 1 stopped
\x00";

/// On that log: the command again, the next, one past the next, another under its number, and the same again.
const NEXT: &[u8] = b"send 1 c1 1 add 5
send 1 c1 2 add 6
send 1 c1 4 read
send 1 c1 2 add 7
send 1 c1 2 add 6
";

const NEXT_ANSWERS: &[u8] = b"done 1 c1 1 ok 5
done 1 c1 2 ok 11
gap 1 c1 4 next 3
conflict 1 c1 2 add 6
done 1 c1 2 ok 11
";

pub(crate) const NEXT_LOG: &[u8] =
    b"\x01\x00\x00\x00gconfig nodes=1 shards=1 producers=1 buffer=100 window=50 snapshot=100 keep=2 remember=off kind=counter
\x01\x00\x00\x01\x07granted coordinator 1 1.1
registered 1.1
granted queue:1 1 1.1
queued 1 c1 1 add 5
allocated 0 1.1
granted shard:0 1 1.1
wrote c1 1 epoch 1 by 1:1 add 5 / added 5 / ok 5
confirmed 1 c1 1
freed shard:0 1 stopped
freed coordinator 1 stopped
freed queue:1 1 stopped
\x01\x00\x00\x01\x17granted coordinator 2 1.2
terminated 1.1
registered 1.2
granted queue:1 2 1.2
queued 1 c1 2 add 6
allocated 0 1.2
granted shard:0 2 1.2
wrote c1 2 epoch 2 by 1:2 add 6 / added 6 / ok 11
confirmed 1 c1 2
freed shard:0 2 stopped
freed coordinator 2 stopped
freed queue:1 2 stopped
\x00";

/// On the first log, a byte a read.
const SLOW: &[u8] = b"send 1 c1 1 add 5
send 1 c1 2 add 6
send 1 c1 4 read
send 1 c1 3 read
";

const SLOW_ANSWERS: &[u8] = b"done 1 c1 1 ok 5
done 1 c1 2 ok 11
gap 1 c1 4 next 3
done 1 c1 3 ok 11
";

const SLOW_LOG: &[u8] =
    b"\x01\x00\x00\x00gconfig nodes=1 shards=1 producers=1 buffer=100 window=50 snapshot=100 keep=2 remember=off kind=counter
\x01\x00\x00\x01\x07granted coordinator 1 1.1
registered 1.1
granted queue:1 1 1.1
queued 1 c1 1 add 5
allocated 0 1.1
granted shard:0 1 1.1
wrote c1 1 epoch 1 by 1:1 add 5 / added 5 / ok 5
confirmed 1 c1 1
freed shard:0 1 stopped
freed coordinator 1 stopped
freed queue:1 1 stopped
\x01\x00\x00\x01\x17granted coordinator 2 1.2
terminated 1.1
registered 1.2
granted queue:1 2 1.2
queued 1 c1 2 add 6
allocated 0 1.2
granted shard:0 2 1.2
wrote c1 2 epoch 2 by 1:2 add 6 / added 6 / ok 11
confirmed 1 c1 2
freed shard:0 2 stopped
freed coordinator 2 stopped
freed queue:1 2 stopped
\x01\x00\x00\x01\x0fgranted coordinator 3 1.3
terminated 1.2
registered 1.3
granted queue:1 3 1.3
queued 1 c1 3 read
allocated 0 1.3
granted shard:0 3 1.3
wrote c1 3 epoch 3 by 1:3 read / - / ok 11
confirmed 1 c1 3
freed shard:0 3 stopped
freed coordinator 3 stopped
freed queue:1 3 stopped
\x00";

/// Lines before the settings, lines that are none, and one that has no end.
const ODD: &[u8] = b"send 1 c1 1 add 5
# nothing

config shards=1 producers=1 nodes=1
config shards=1 producers=1 nodes=1
config shards=2 producers=1 nodes=1
send 2 c1 1 add 5
send 1 c.1 1 add 5
send 1 c1 one add 5
send 1 c1 1 fly
send 1 c1 1 add
send 1 c1 1 add 5 6
add 5
send 1 c1 1 add 500
send 1 c1 2 add 50";

const ODD_ANSWERS: &[u8] = b"refused 3
config nodes=1 shards=1 producers=1 buffer=100 window=50 snapshot=100 keep=2 remember=off kind=counter
config nodes=1 shards=1 producers=1 buffer=100 window=50 snapshot=100 keep=2 remember=off kind=counter
conflict config nodes=1 shards=1 producers=1 buffer=100 window=50 snapshot=100 keep=2 remember=off kind=counter
refused 9
refused 10
refused 8
refused 5
refused 6
refused 7
refused 5
done 1 c1 1 ok 500
";

const ODD_LOG: &[u8] =
    b"\x01\x00\x00\x00gconfig nodes=1 shards=1 producers=1 buffer=100 window=50 snapshot=100 keep=2 remember=off kind=counter
\x01\x00\x00\x01\x0fgranted coordinator 1 1.1
registered 1.1
granted queue:1 1 1.1
queued 1 c1 1 add 500
allocated 0 1.1
granted shard:0 1 1.1
wrote c1 1 epoch 1 by 1:1 add 500 / added 500 / ok 500
confirmed 1 c1 1
freed shard:0 1 stopped
freed coordinator 1 stopped
freed queue:1 1 stopped
\x00";

/// One command more on the first log; and with another behind it.
const MORE: &[u8] = b"send 1 c1 2 add 6\n";

const MORE_AGAIN: &[u8] = b"send 1 c1 2 add 6\nsend 1 c1 3 read\n";

const MORE_ANSWERS: &[u8] = b"done 1 c1 2 ok 11\n";

const MORE_AGAIN_ANSWERS: &[u8] = b"done 1 c1 2 ok 11\ndone 1 c1 3 ok 11\n";

const MORE_AGAIN_LOG: &[u8] =
    b"\x01\x00\x00\x00gconfig nodes=1 shards=1 producers=1 buffer=100 window=50 snapshot=100 keep=2 remember=off kind=counter
\x01\x00\x00\x01\x07granted coordinator 1 1.1
registered 1.1
granted queue:1 1 1.1
queued 1 c1 1 add 5
allocated 0 1.1
granted shard:0 1 1.1
wrote c1 1 epoch 1 by 1:1 add 5 / added 5 / ok 5
confirmed 1 c1 1
freed shard:0 1 stopped
freed coordinator 1 stopped
freed queue:1 1 stopped
\x01\x00\x00\x01\x17granted coordinator 2 1.2
terminated 1.1
registered 1.2
granted queue:1 2 1.2
queued 1 c1 2 add 6
allocated 0 1.2
granted shard:0 2 1.2
wrote c1 2 epoch 2 by 1:2 add 6 / added 6 / ok 11
confirmed 1 c1 2
freed shard:0 2 stopped
freed coordinator 2 stopped
freed queue:1 2 stopped
\x01\x00\x00\x01\x0fgranted coordinator 3 1.3
terminated 1.2
registered 1.3
granted queue:1 3 1.3
queued 1 c1 3 read
allocated 0 1.3
granted shard:0 3 1.3
wrote c1 3 epoch 3 by 1:3 read / - / ok 11
confirmed 1 c1 3
freed shard:0 3 stopped
freed coordinator 3 stopped
freed queue:1 3 stopped
\x00";

/// Two producers with an account each.
const ACCOUNTS: &[u8] = b"config nodes=2 shards=4 producers=2 kind=account
send 1 alice 1 create
send 2 bob 1 withdraw 5
send 1 alice 2 deposit 100
send 2 bob 2 create
send 1 alice 3 withdraw 40
send 2 bob 3 close
show alice
";

const ACCOUNTS_ANSWERS: &[u8] =
    b"config nodes=2 shards=4 producers=2 buffer=100 window=50 snapshot=100 keep=2 remember=off kind=account
done 1 alice 1 ok 0
done 2 bob 1 no 1
done 1 alice 2 ok 100
done 2 bob 2 ok 0
done 1 alice 3 ok 60
done 2 bob 3 ok 0
entity alice shard 0 records 3 state open 60
";

const ACCOUNTS_LOG: &[u8] =
    b"\x01\x00\x00\x00gconfig nodes=2 shards=4 producers=2 buffer=100 window=50 snapshot=100 keep=2 remember=off kind=account
\x01\x00\x00\x01@granted coordinator 1 1.1
registered 1.1
granted queue:1 1 1.1
queued 1 alice 1 create
granted queue:2 1 1.1
allocated 0 1.1
granted shard:0 1 1.1
wrote alice 1 epoch 1 by 1:1 create / created / ok 0
confirmed 1 alice 1
freed shard:0 1 stopped
freed coordinator 1 stopped
freed queue:1 1 stopped
freed queue:2 1 stopped
\x01\x00\x00\x01Kgranted coordinator 2 1.2
terminated 1.1
registered 1.2
granted queue:1 2 1.2
granted queue:2 2 1.2
queued 2 bob 1 withdraw 5
allocated 1 1.2
granted shard:1 1 1.2
wrote bob 1 epoch 1 by 2:1 withdraw 5 / - / no 1
confirmed 2 bob 1
freed shard:1 1 stopped
freed coordinator 2 stopped
freed queue:1 2 stopped
freed queue:2 2 stopped
\x01\x00\x00\x01agranted coordinator 3 1.3
terminated 1.2
registered 1.3
granted queue:1 3 1.3
queued 1 alice 2 deposit 100
granted queue:2 3 1.3
allocated 0 1.3
granted shard:0 2 1.3
wrote alice 2 epoch 2 by 1:2 deposit 100 / deposited 100 / ok 100
confirmed 1 alice 2
freed shard:0 2 stopped
freed coordinator 3 stopped
freed queue:1 3 stopped
freed queue:2 3 stopped
\x01\x00\x00\x01Igranted coordinator 4 1.4
terminated 1.3
registered 1.4
granted queue:1 4 1.4
granted queue:2 4 1.4
queued 2 bob 2 create
allocated 1 1.4
granted shard:1 2 1.4
wrote bob 2 epoch 2 by 2:2 create / created / ok 0
confirmed 2 bob 2
freed shard:1 2 stopped
freed coordinator 4 stopped
freed queue:1 4 stopped
freed queue:2 4 stopped
\x01\x00\x00\x01_granted coordinator 5 1.5
terminated 1.4
registered 1.5
granted queue:1 5 1.5
queued 1 alice 3 withdraw 40
granted queue:2 5 1.5
allocated 0 1.5
granted shard:0 3 1.5
wrote alice 3 epoch 3 by 1:3 withdraw 40 / withdrawn 40 / ok 60
confirmed 1 alice 3
freed shard:0 3 stopped
freed coordinator 5 stopped
freed queue:1 5 stopped
freed queue:2 5 stopped
\x01\x00\x00\x01Fgranted coordinator 6 1.6
terminated 1.5
registered 1.6
granted queue:1 6 1.6
granted queue:2 6 1.6
queued 2 bob 3 close
allocated 1 1.6
granted shard:1 3 1.6
wrote bob 3 epoch 3 by 2:3 close / closed / ok 0
confirmed 2 bob 3
freed shard:1 3 stopped
freed coordinator 6 stopped
freed queue:1 6 stopped
freed queue:2 6 stopped
\x00";

/// The report of the second log.
const REPORT: &[u8] = b"report
entity c1 shard 0 records 2 state 11
record 1 epoch 1 by 1:1 add 5 / added 5 / ok 5
record 2 epoch 2 by 1:2 add 6 / added 6 / ok 11
queue 1 c1 queued 2 confirmed 2
end
";

/// A log of `apply`, and a line that is no settings in the place of theirs.
const APPLIED_LOG: &[u8] = b"\x01\x00\x00\x01\x07granted coordinator 1 1.1
registered 1.1
granted queue:1 1 1.1
queued 1 c1 1 add 5
allocated 0 1.1
granted shard:0 1 1.1
wrote c1 1 epoch 1 by 1:1 add 5 / added 5 / ok 5
confirmed 1 c1 1
freed shard:0 1 stopped
freed coordinator 1 stopped
freed queue:1 1 stopped
\x00";

const NO_HEAD: &[u8] = b"\x01\x00\x00\x00\x18granted coordinator 1 1.\x00";

/// The second log without its first batch.
const NO_FIRST_LOG: &[u8] =
    b"\x01\x00\x00\x00gconfig nodes=1 shards=1 producers=1 buffer=100 window=50 snapshot=100 keep=2 remember=off kind=counter
\x01\x00\x00\x01\x17granted coordinator 2 1.2
terminated 1.1
registered 1.2
granted queue:1 2 1.2
queued 1 c1 2 add 6
allocated 0 1.2
granted shard:0 2 1.2
wrote c1 2 epoch 2 by 1:2 add 6 / added 6 / ok 11
confirmed 1 c1 2
freed shard:0 2 stopped
freed coordinator 2 stopped
freed queue:1 2 stopped
\x00";

/// What stands on the disk, what comes, whether a byte a read, how the run ends, what is answered, and what stands on the
/// disk then.
pub(crate) struct Row<'a> {
    pub(crate) log: &'a [u8],
    pub(crate) lines: &'a [u8],
    pub(crate) is_slow: bool,
    pub(crate) end: Status,
    pub(crate) answers: &'a [u8],
    pub(crate) left: &'a [u8],
}

pub(crate) const ROWS: [Row<'static>; 7] = [
    Row {
        log: b"",
        lines: FIRST,
        is_slow: false,
        end: Status::Served,
        answers: FIRST_ANSWERS,
        left: FIRST_LOG,
    },
    Row {
        log: b"\x07",
        lines: FIRST,
        is_slow: false,
        end: Status::Served,
        answers: FIRST_ANSWERS,
        left: FIRST_LOG,
    },
    Row {
        log: FIRST_LOG,
        lines: NEXT,
        is_slow: false,
        end: Status::Served,
        answers: NEXT_ANSWERS,
        left: NEXT_LOG,
    },
    Row {
        log: FIRST_LOG,
        lines: SLOW,
        is_slow: true,
        end: Status::Served,
        answers: SLOW_ANSWERS,
        left: SLOW_LOG,
    },
    Row {
        log: b"",
        lines: ODD,
        is_slow: false,
        end: Status::Served,
        answers: ODD_ANSWERS,
        left: ODD_LOG,
    },
    Row {
        log: b"",
        lines: ODD,
        is_slow: true,
        end: Status::Served,
        answers: ODD_ANSWERS,
        left: ODD_LOG,
    },
    Row {
        log: NEXT_LOG,
        lines: b"report\n",
        is_slow: false,
        end: Status::Served,
        answers: REPORT,
        left: NEXT_LOG,
    },
];

/// Logs that are none of `serve`, and the frame that shows it.
pub(crate) const FOREIGN: [(&[u8], u32); 3] = [(APPLIED_LOG, 1), (NO_HEAD, 1), (NO_FIRST_LOG, 2)];

/// What stands on the disk, what comes, and what comes behind a run that was stopped; whether a byte a read; in how many
/// groups the lines are answered, and how many calls of the disk there are; what is answered each time, and what stands
/// on the disk at last.
pub(crate) struct Case<'a> {
    pub(crate) log: &'a [u8],
    pub(crate) lines: &'a [u8],
    pub(crate) again: &'a [u8],
    pub(crate) is_slow: bool,
    pub(crate) groups: usize,
    pub(crate) calls: usize,
    pub(crate) answers: &'a [u8],
    pub(crate) answers_again: &'a [u8],
    pub(crate) left: &'a [u8],
}

pub(crate) const CASES: [Case<'static>; 3] = [
    Case {
        log: b"",
        lines: FIRST,
        again: FIRST,
        is_slow: true,
        groups: 2,
        calls: 12,
        answers: FIRST_ANSWERS,
        answers_again: FIRST_ANSWERS,
        left: FIRST_LOG,
    },
    Case {
        log: FIRST_LOG,
        lines: NEXT,
        again: NEXT,
        is_slow: false,
        groups: 1,
        calls: 7,
        answers: NEXT_ANSWERS,
        answers_again: NEXT_ANSWERS,
        left: NEXT_LOG,
    },
    Case {
        log: FIRST_LOG,
        lines: MORE,
        again: MORE_AGAIN,
        is_slow: true,
        groups: 1,
        calls: 7,
        answers: MORE_ANSWERS,
        answers_again: MORE_AGAIN_ANSWERS,
        left: MORE_AGAIN_LOG,
    },
];

/// A longer one.
pub(crate) const LONGER: Case<'static> = Case {
    log: b"",
    lines: ACCOUNTS,
    again: ACCOUNTS,
    is_slow: true,
    groups: 8,
    calls: 32,
    answers: ACCOUNTS_ANSWERS,
    answers_again: ACCOUNTS_ANSWERS,
    left: ACCOUNTS_LOG,
};

/// Behind a line of many bytes: nothing, its end, or its end with a CR; and two lines.
const BEHIND: &[u8] = b"\nconfig nodes=1 shards=1 producers=1\nsend 1 c1 1 add 5\n";

const BEHIND_CR: &[u8] = b"\r\nconfig nodes=1 shards=1 producers=1\nsend 1 c1 1 add 5\n";

const TOO_LONG: &[u8] = b"refused 2
config nodes=1 shards=1 producers=1 buffer=100 window=50 snapshot=100 keep=2 remember=off kind=counter
done 1 c1 1 ok 5
";

const TOO_EARLY: &[u8] = b"refused 3
config nodes=1 shards=1 producers=1 buffer=100 window=50 snapshot=100 keep=2 remember=off kind=counter
done 1 c1 1 ok 5
";

/// So many bytes, what comes behind them, what is answered, and what stands on the disk then.
pub(crate) type Long<'a> = (usize, &'a [u8], &'a [u8], &'a [u8]);

pub(crate) const LONG: [Long<'static>; 11] = [
    (256, BEHIND, TOO_EARLY, FIRST_LOG),
    (257, BEHIND, TOO_LONG, FIRST_LOG),
    (256, BEHIND_CR, TOO_EARLY, FIRST_LOG),
    (257, BEHIND_CR, TOO_LONG, FIRST_LOG),
    (65_534, BEHIND_CR, TOO_LONG, FIRST_LOG),
    (65_535, BEHIND, TOO_LONG, FIRST_LOG),
    (65_535, BEHIND_CR, TOO_LONG, FIRST_LOG),
    (65_536, b"", b"", b"\0"),
    (65_536, BEHIND, TOO_LONG, FIRST_LOG),
    (4_194_304, b"", b"", b"\0"),
    (4_194_304, BEHIND, TOO_LONG, FIRST_LOG),
];

/// Lines of bytes, digits and words that nobody would send, on the first log, and what is answered to each.
pub(crate) const HOSTILE: [(&[u8], &[u8]); 28] = [
    (b"send 1 c1 1 add 5\x00", b"refused 1\n"),
    (b"\x00", b"refused 1\n"),
    (b"\xff", b"refused 1\n"),
    (b"send 1 c\xc3\xa9 1 add 5", b"refused 1\n"),
    (b"send 1 c1 1 add 99999999999999999999", b"refused 8\n"),
    (b"send 1 c1 18446744073709551617 add 5", b"refused 8\n"),
    (b"send 99999999999999999999 c1 1 add 5", b"refused 8\n"),
    (b"send 1 c1 4294967296 read", b"refused 9\n"),
    (
        b"send 1 c1 4294967295 read",
        b"gap 1 c1 4294967295 next 2\n",
    ),
    (b"send 1 c1 -1 read", b"refused 8\n"),
    (b"send 1 c1 +1 read", b"refused 8\n"),
    (b"send 1 c1 01 add 5", b"done 1 c1 1 ok 5\n"),
    (b"send\t1\tc1  1\tadd 5 ", b"done 1 c1 1 ok 5\n"),
    (b"send 1 c1 1 add 5\r", b"done 1 c1 1 ok 5\n"),
    (b"send 1 c1 1 add 5\r\r", b"refused 1\n"),
    (b"\r", b""),
    (b" # \xff\x00", b""),
    (b"report now", b"refused 7\n"),
    (b"show", b"refused 6\n"),
    (b"show c1 c2", b"refused 7\n"),
    (b"show c.1", b"refused 10\n"),
    (b"show c2", b"entity c2 shard 0 records 0 state 0\n"),
    (b"SEND 1 c1 1 add 5", b"refused 5\n"),
    (
        b"config",
        b"conflict config nodes=1 shards=1 producers=1 buffer=100 window=50 snapshot=100 keep=2 remember=off kind=counter\n",
    ),
    (b"config nodes=1 nodes=1", b"refused 7\n"),
    (b"show nnnnnnnnnnnnnnnnnnnnnnnnnnnnnnnnn", b"refused 10\n"),
    (
        b"send 1 nnnnnnnnnnnnnnnnnnnnnnnnnnnnnnnnn 1 read",
        b"refused 10\n",
    ),
    (
        b"config nodes=1 shards=1 producers=1 kind=cart",
        b"conflict config nodes=1 shards=1 producers=1 buffer=100 window=50 snapshot=100 keep=2 remember=off kind=counter\n",
    ),
];

/// Where the second log is damaged that is cut to a length from the first number on, and below the second.
pub(crate) const CUTS: [(usize, usize, u64); 3] = [(2, 109, 0), (109, 377, 108), (377, 661, 376)];
