//! Scripts of one command, one ping or one job, and their whole texts.

/// A command that is delivered once.
pub(crate) const ONE_COMMAND: &[u8] = b"config shards=1\nsend 1 c1 add 5\ndeliver 1\n";

/// What `solo` writes of it.
pub(crate) const ONE_RECORD: &[u8] = b"report
entity c1 shard 0 records 1 state 5
record 1 epoch 1 by 1:1 add 5 / added 5 / ok 5
end
";

/// The first command of one node.
pub(crate) const FIRST_COMMAND: &[u8] = b"config shards=1 window=2
up 1
pump 9
produce 1 1
send 1 c1 add 5
pump 9
";

/// What `replay` writes of it.
pub(crate) const FIRST_TEXT: &[u8] = b"at 2
up 1.1
sent 1 1.1 1.1 view 1 1.1
at 3
got 1
view 1.1 1
granted coordinator 1 1.1
sent 2 1.1 1.1 register
got 2
registered 1.1
sent 3 1.1 1.1 registerack
got 3
at 4
granted queue:1 1 1.1
at 5
queued 1 c1 1 add 5
kept 1.1 1 c1 1
sent 4 1.1 1.1 getshardhome 0
at 6
got 4
allocated 0 1.1
sent 5 1.1 1.1 hostshard 0 1/0
sent 6 1.1 1.1 shardhome 0 1.1 1/0
got 5
home 1.1 0 1.1
granted shard:0 1 1.1
sent 7 1.1 1.1 shardstarted 0
start 1.1 c1
sent 8 1.1 1.1 recovered c1
stashed 1.1 1 c1 1
got 6
got 7
got 8
active 1.1 c1 0 0
wrote c1 1 epoch 1 by 1:1 add 5 / added 5 / ok 5
sent 9 1.1 1.1 ack 1 c1 1
sent 10 1.1 1.1 request 1 c1 1 3
got 9
confirmed 1 c1 1
got 10
report
entity c1 shard 0 records 1 state 5
record 1 epoch 1 by 1:1 add 5 / added 5 / ok 5
queue 1 c1 queued 1 confirmed 1
end
";

/// A ping of a daemon's instances.
pub(crate) const ONE_PING: &[u8] = b"config shards=1
up 1
pump 9
produce 1 1
ping 1
pump 9
";

/// What `daemon 1` writes of it.
pub(crate) const ONE_INSTANCE: &[u8] = b"at 2
at 3
at 4
at 5
at 6
instance 0 1.1
instance 0 1.1
end
";

/// A job that one worker does.
pub(crate) const ONE_JOB: &[u8] = b"config window=1
up 1
produce 1 1
pump 9
send 1 a add 1
pump 9
";

/// What `pull` writes of it.
pub(crate) const ONE_DONE: &[u8] = b"at 2
up 1.1
sent 1 ask 1.1
at 3
granted queue:1 1 1.1
at 4
got 1
at 5
queued 1 a 1 add 1
given a 1.1
sent 2 job 1.1 a
at 6
got 2
did 1.1 a
sent 3 done 1.1 a
got 3
confirmed 1 a 1
report
job a add 1 confirmed dids 1
end
";

/// What `log` leaves of it on the disk.
pub(crate) const FIRST_LOG: &[u8] = b"\x01\x00\x00\x00)granted coordinator 1 1.1
registered 1.1
\x01\x00\x00\x00\x16granted queue:1 1 1.1
\x01\x00\x00\x00\x14queued 1 c1 1 add 5
\x01\x00\x00\x00hallocated 0 1.1
granted shard:0 1 1.1
wrote c1 1 epoch 1 by 1:1 add 5 / added 5 / ok 5
confirmed 1 c1 1
\x00";

/// Another command of the same node.
pub(crate) const OTHER_COMMAND: &[u8] = b"config shards=1 window=2
up 1
pump 9
produce 1 1
send 1 c1 add 6
pump 9
";

/// Two commands, the second of which is on its way when the node of their entity crashes.
pub(crate) const MOVED_COMMAND: &[u8] = b"config nodes=2 shards=1 window=4
up 1
up 2
pump 20
produce 1 2
send 1 c1 add 5
pump 20
send 1 c1 add 1
crash 1
pump 9
tick 2
pump 20
";

/// What `resume` writes of the first command where the log has it as queued.
pub(crate) const RESUMED_QUEUED: &[u8] = b"report
queue 1 c1 queued 1 confirmed 0
end
slot shard:0 3
granted shard:0 1 1.2
wrote c1 1 epoch 1 by 1:1 add 5 / added 5 / ok 5
freed shard:0 1 stopped
slot coordinator 8
granted coordinator 1 1.1
registered 1.1
freed coordinator 1 stopped
granted coordinator 2 1.2
terminated 1.1
registered 1.2
allocated 0 1.2
freed coordinator 2 stopped
slot queue:1 6
granted queue:1 1 1.1
queued 1 c1 1 add 5
freed queue:1 1 stopped
granted queue:1 2 1.2
confirmed 1 c1 1
freed queue:1 2 stopped
slot queue:2 2
granted queue:2 1 1.2
freed queue:2 1 stopped
report
entity c1 shard 0 records 1 state 5
record 1 epoch 1 by 1:1 add 5 / added 5 / ok 5
queue 1 c1 queued 1 confirmed 1
end
";

/// The same of a log of a grant to another node's producer.
pub(crate) const RESUMED_GRANT: &[u8] = b"report
end
slot shard:0 3
granted shard:0 1 1.1
wrote c1 1 epoch 1 by 1:1 add 5 / added 5 / ok 5
freed shard:0 1 stopped
slot coordinator 4
granted coordinator 1 1.1
registered 1.1
allocated 0 1.1
freed coordinator 1 stopped
slot queue:1 4
granted queue:1 1 1.1
queued 1 c1 1 add 5
confirmed 1 c1 1
freed queue:1 1 stopped
slot queue:2 4
granted queue:2 1 3.4
freed queue:2 1 stopped
granted queue:2 2 1.1
freed queue:2 2 stopped
report
entity c1 shard 0 records 1 state 5
record 1 epoch 1 by 1:1 add 5 / added 5 / ok 5
queue 1 c1 queued 1 confirmed 1
end
";

/// The same of an empty log.
pub(crate) const RESUMED_EMPTY: &[u8] = b"report
end
slot shard:0 3
granted shard:0 1 1.1
wrote c1 1 epoch 1 by 1:1 add 5 / added 5 / ok 5
freed shard:0 1 stopped
slot coordinator 4
granted coordinator 1 1.1
registered 1.1
allocated 0 1.1
freed coordinator 1 stopped
slot queue:1 4
granted queue:1 1 1.1
queued 1 c1 1 add 5
confirmed 1 c1 1
freed queue:1 1 stopped
slot queue:2 2
granted queue:2 1 1.1
freed queue:2 1 stopped
report
entity c1 shard 0 records 1 state 5
record 1 epoch 1 by 1:1 add 5 / added 5 / ok 5
queue 1 c1 queued 1 confirmed 1
end
";
