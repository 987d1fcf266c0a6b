//! What safety says of instances. Each law is a function that does nothing, whose contract is the law.
ghost use Rattle.daemon_process.specs.Daemon.{ExpandedIsScript};
ghost use Rattle.daemon_process.specs.Lines.{DrawnIsText};
ghost use Rattle.daemon_process.specs.Single.{SafeIsSingle, InstancesAreSingle, SafeIsAlwaysSingle, WrittenIsLive};

/// A script whose pings are sends to at most 100 counters is one that a charter may be made of.
pub fn expanded_is_script()
    ensures { ExpandedIsScript }
{}

/// In a safe trace an entity is live at one incarnation at most at any moment, and that one holds the lease
/// of its shard.
pub fn safe_is_single()
    ensures { SafeIsSingle }
{}

/// So is each instance of a daemon.
pub fn instances_are_single()
    ensures { InstancesAreSingle }
{}

/// So what is kept of a safe trace is what its facts say (`Watch`).
pub fn safe_is_always_single()
    ensures { SafeIsAlwaysSingle }
{}

/// And the text that was written of a safe trace is the text of its facts (`DaemonLines`).
pub fn drawn_is_text()
    ensures { DrawnIsText }
{}

/// In a safe trace an entity is live where a record of it is written.
pub fn written_is_live()
    ensures { WrittenIsLive }
{}
