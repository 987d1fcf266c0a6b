//! Worked scripts: what the definitions compute is what is printed.
#![tactic(auto)]

ghost use Rattle.std.specs.Prelude.{◌≡◌, true, false, [], ◌∷◌};
ghost use Rattle.worked_scripts.specs.Lines.{printed, facts_of_nodes, lines_of_nodes, facts_of_shards, lines_of_shards, facts_of_queues, lines_of_queues, facts_of_packets, lines_of_packets, facts_of_records, lines_of_records, facts_of_states, lines_of_states};
ghost use Rattle.worked_scripts.specs.Worked.{text_of, Agrees, HasJournals, IsGenuine, IsGuarded, IsSafe, IsSettled, IsUnsafeWithout, Prints, PrintsAlone, PrintsWithin, SettlesFrom};
ghost use Rattle.worked_scripts.specs.Tables.{hashes, shards, first_picks, no_picks, smallest_shares, account_replies, account_state};
ghost use Rattle.worked_scripts.specs.Steady.{counts, steady, worked_where, settled_where};
ghost use Rattle.worked_scripts.specs.FirstDelivery as first_delivery_lines;
ghost use Rattle.worked_scripts.specs.RemoteDelivery as remote_delivery_lines;
ghost use Rattle.worked_scripts.specs.ReorderedDelivery as reordered_delivery_lines;
ghost use Rattle.worked_scripts.specs.RepeatedDelivery as repeated_delivery_lines;
ghost use Rattle.worked_scripts.specs.PacketNeverPosted as packet_never_posted_lines;
ghost use Rattle.worked_scripts.specs.SnapshotCrashRepeat as snapshot_crash_repeat_lines;
ghost use Rattle.worked_scripts.specs.FullBuffer as full_buffer_lines;
ghost use Rattle.worked_scripts.specs.HandoffUnderTraffic as handoff_under_traffic_lines;
ghost use Rattle.worked_scripts.specs.HandoffOfRemembered as handoff_of_remembered_lines;
ghost use Rattle.worked_scripts.specs.WordAfterTheRound as word_after_the_round_lines;
ghost use Rattle.worked_scripts.specs.FailedWriteKept as failed_write_kept_lines;
ghost use Rattle.worked_scripts.specs.FailedWriteLost as failed_write_lost_lines;
ghost use Rattle.worked_scripts.specs.CoordinatorLostInRound as coordinator_lost_in_round_lines;
ghost use Rattle.worked_scripts.specs.PacketToGoneNode as packet_to_gone_node_lines;
ghost use Rattle.worked_scripts.specs.Passivation as passivation_lines;
ghost use Rattle.worked_scripts.specs.PassivationRemembered as passivation_remembered_lines;
ghost use Rattle.worked_scripts.specs.CartsAndLeaving as carts_and_leaving_lines;
ghost use Rattle.worked_scripts.specs.SettleAlone as settle_alone_lines;
ghost use Rattle.worked_scripts.specs.QueueHeld as queue_held_lines;
ghost use Rattle.worked_scripts.specs.QueueTakenAgain as queue_taken_again_lines;
ghost use Rattle.worked_scripts.specs.OldestCrashes as oldest_crashes_lines;
ghost use Rattle.worked_scripts.specs.Rebalancing as rebalancing_lines;
ghost use Rattle.worked_scripts.specs.LastRegionLeaves as last_region_leaves_lines;
ghost use Rattle.worked_scripts.specs.CrashBeforeASend as crash_before_a_send_lines;
ghost use Rattle.worked_scripts.specs.CrashInAHandoff as crash_in_a_handoff_lines;
ghost use Rattle.worked_scripts.specs.SettleInThreeTicks as settle_in_three_ticks_lines;
ghost use Rattle.worked_scripts.specs.SettleAfterASendInFlight as settle_after_a_send_in_flight_lines;
ghost use Rattle.worked_scripts.specs.TickSendsAgain as tick_sends_again_lines;
ghost use Rattle.worked_scripts.specs.OriginOfReleased as origin_of_released_lines;
ghost use Rattle.worked_scripts.specs.StashOfStopped as stash_of_stopped_lines;
ghost use Rattle.worked_scripts.specs.TickInARound as tick_in_a_round_lines;
ghost use Rattle.worked_scripts.specs.AwaitedRegionIsLost as awaited_region_is_lost_lines;
ghost use Rattle.worked_scripts.specs.WireFull as wire_full_lines;
ghost use Rattle.worked_scripts.specs.SecondHandoff as second_handoff_lines;
ghost use Rattle.worked_scripts.specs.HandoffWhilePassivating as handoff_while_passivating_lines;
ghost use Rattle.worked_scripts.specs.AskedAgainInARound as asked_again_in_a_round_lines;
ghost use Rattle.worked_scripts.specs.AcknowledgedByALostCoordinator as acknowledged_by_a_lost_coordinator_lines;
ghost use Rattle.worked_scripts.specs.HostedAlready as hosted_already_lines;
ghost use Rattle.worked_scripts.specs.DroppedAndAsked as dropped_and_asked_lines;
ghost use Rattle.worked_scripts.specs.GivenLists as given_lists_lines;
ghost use Rattle.worked_scripts.specs.OtherShards as other_shards_lines;
ghost use Rattle.worked_scripts.specs.UpgradedAccount as upgraded_account_lines;
ghost use Rattle.worked_scripts.specs.AloneFirst as alone_first_lines;
ghost use Rattle.worked_scripts.specs.AloneCollisionGapRepeat as alone_collision_gap_repeat_lines;
ghost use Rattle.worked_scripts.specs.AloneAccount as alone_account_lines;

use yard_model::{Reply, State};

/// A node comes up and takes a queue; a command is kept until its shard has a home, is recorded and is confirmed.
pub fn first_delivery()
    ensures { Prints first_delivery_lines.script first_delivery_lines.printed }
{}

/// The shard lives at one node and the queue at another.
pub fn remote_delivery()
    ensures prints { Prints remote_delivery_lines.script remote_delivery_lines.printed }
    ensures settled { IsSettled remote_delivery_lines.script }
{}

/// Two commands overtake one another: the later is sent again from the first that is missing.
pub fn reordered_delivery()
    ensures { Prints reordered_delivery_lines.script reordered_delivery_lines.printed }
{}

/// A packet that is delivered again is acknowledged again, and nothing more.
pub fn repeated_delivery()
    ensures { Prints repeated_delivery_lines.script repeated_delivery_lines.printed }
{}

/// A packet that was never posted cannot be delivered.
pub fn packet_never_posted()
    ensures { Prints packet_never_posted_lines.script packet_never_posted_lines.printed }
{}

/// A snapshot is taken, the node crashes, and the entity recovers elsewhere from snapshot and journal; the repeat is recognised.
pub fn snapshot_crash_repeat()
    ensures prints { Prints snapshot_crash_repeat_lines.script snapshot_crash_repeat_lines.printed }
    ensures agrees { Agrees snapshot_crash_repeat_lines.script }
    ensures genuine { IsGenuine snapshot_crash_repeat_lines.script }
    ensures journals { HasJournals snapshot_crash_repeat_lines.script }
    ensures safe { IsSafe snapshot_crash_repeat_lines.script }
    ensures guarded { IsGuarded snapshot_crash_repeat_lines.script }
{}

/// A buffer of one message: the second is dropped, and sent again by a tick.
pub fn full_buffer()
    ensures { Prints full_buffer_lines.script full_buffer_lines.printed }
{}

/// A region leaves while a command is on its way: the shard is handed off, and the command reaches its new home.
pub fn handoff_under_traffic()
    ensures prints { Prints handoff_under_traffic_lines.script handoff_under_traffic_lines.printed }
    ensures agrees { Agrees handoff_under_traffic_lines.script }
    ensures genuine { IsGenuine handoff_under_traffic_lines.script }
    ensures journals { HasJournals handoff_under_traffic_lines.script }
    ensures safe { IsSafe handoff_under_traffic_lines.script }
    ensures guarded { IsGuarded handoff_under_traffic_lines.script }
    ensures needs_each { IsUnsafeWithout handoff_under_traffic_lines.script (6 ∷ 9 ∷ 23 ∷ 27 ∷ 29 ∷ 34 ∷ 39 ∷ 46 ∷ 51 ∷ 65 ∷ 87 ∷ 88 ∷ 91 ∷ 96 ∷ 108 ∷ 113 ∷ []) }
{}

/// The same, where entities are remembered.
pub fn handoff_of_remembered()
    ensures { Prints handoff_of_remembered_lines.script handoff_of_remembered_lines.printed }
{}

/// A word of a round that is closed is ignored.
pub fn word_after_the_round()
    ensures { Prints word_after_the_round_lines.script word_after_the_round_lines.printed }
{}

/// A write is reported as failed, and its record stands: after recovery the command is a repeat.
pub fn failed_write_kept()
    ensures { Prints failed_write_kept_lines.script failed_write_kept_lines.printed }
{}

/// A write fails and leaves no record: after recovery the command is written.
pub fn failed_write_lost()
    ensures { Prints failed_write_lost_lines.script failed_write_lost_lines.printed }
{}

/// The coordinator crashes in the middle of a round: the next one allocates what the lost one left, and old words are ignored.
pub fn coordinator_lost_in_round()
    ensures { Prints coordinator_lost_in_round_lines.script coordinator_lost_in_round_lines.printed }
{}

/// A packet to an incarnation that is gone is lost.
pub fn packet_to_gone_node()
    ensures { Prints packet_to_gone_node_lines.script packet_to_gone_node_lines.printed }
{}

/// A command that comes while an entity passivates is stashed, and the entity starts again.
pub fn passivation()
    ensures { Prints passivation_lines.script passivation_lines.printed }
{}

/// The same, where entities are remembered: it is forgotten, and remembered anew.
pub fn passivation_remembered()
    ensures { Prints passivation_remembered_lines.script passivation_remembered_lines.printed }
{}

/// Five carts of two producers over three nodes, of which one leaves.
pub fn carts_and_leaving()
    ensures prints { Prints carts_and_leaving_lines.script carts_and_leaving_lines.printed }
    ensures settled { IsSettled carts_and_leaving_lines.script }
{}

/// Nothing but a send that waits, and a settle.
pub fn settle_alone()
    ensures prints { Prints settle_alone_lines.script settle_alone_lines.printed }
    ensures settled { IsSettled settle_alone_lines.script }
{}

/// A queue that is held is not granted; one that is given back is.
pub fn queue_held()
    ensures { Prints queue_held_lines.script queue_held_lines.printed }
{}

/// A producer takes its queue again: what is confirmed is not sent again.
pub fn queue_taken_again()
    ensures { Prints queue_taken_again_lines.script queue_taken_again_lines.printed }
{}

/// The oldest node crashes, and the next one leads.
pub fn oldest_crashes()
    ensures { Prints oldest_crashes_lines.script oldest_crashes_lines.printed }
{}

/// A new region gets a shard, and then all is even.
pub fn rebalancing()
    ensures { Prints rebalancing_lines.script rebalancing_lines.printed }
{}

/// The only region leaves: there is nowhere to move its shards.
pub fn last_region_leaves()
    ensures { Prints last_region_leaves_lines.script last_region_leaves_lines.printed }
{}

/// A crash before anything is sent; the settle completes all.
pub fn crash_before_a_send()
    ensures prints { Prints crash_before_a_send_lines.script crash_before_a_send_lines.printed }
    ensures settled { IsSettled crash_before_a_send_lines.script }
{}

/// A crash in the middle of a handoff; the settle completes all.
pub fn crash_in_a_handoff()
    ensures prints { Prints crash_in_a_handoff_lines.script crash_in_a_handoff_lines.printed }
    ensures settled { IsSettled crash_in_a_handoff_lines.script }
{}

/// With room for one message, a settle needs three ticks.
pub fn settle_in_three_ticks()
    ensures prints { Prints settle_in_three_ticks_lines.script settle_in_three_ticks_lines.printed }
    ensures agrees { Agrees settle_in_three_ticks_lines.script }
    ensures genuine { IsGenuine settle_in_three_ticks_lines.script }
    ensures journals { HasJournals settle_in_three_ticks_lines.script }
    ensures safe { IsSafe settle_in_three_ticks_lines.script }
    ensures guarded { IsGuarded settle_in_three_ticks_lines.script }
    ensures settled { IsSettled settle_in_three_ticks_lines.script }
{}

/// A settle of a command that was queued and never delivered.
pub fn settle_after_a_send_in_flight()
    ensures prints { Prints settle_after_a_send_in_flight_lines.script settle_after_a_send_in_flight_lines.printed }
    ensures settled { IsSettled settle_after_a_send_in_flight_lines.script }
{}

/// A tick sends the first number again that isn't confirmed.
pub fn tick_sends_again()
    ensures { Prints tick_sends_again_lines.script tick_sends_again_lines.printed }
{}

/// A kept message keeps the origin that it came with.
pub fn origin_of_released()
    ensures { Prints origin_of_released_lines.script origin_of_released_lines.printed }
{}

/// The stash of an entity that stops with its shard is dropped.
pub fn stash_of_stopped()
    ensures { Prints stash_of_stopped_lines.script stash_of_stopped_lines.printed }
{}

/// While a round is open, a tick tells the other shards' homes again.
pub fn tick_in_a_round()
    ensures { Prints tick_in_a_round_lines.script tick_in_a_round_lines.printed }
{}

/// A region that is awaited is terminated in the middle of a round.
pub fn awaited_region_is_lost()
    ensures { Prints awaited_region_is_lost_lines.script awaited_region_is_lost_lines.printed }
{}

/// Room for seven packets: the trace stops within an input, after all other facts of it.
pub fn wire_full()
    ensures { PrintsWithin 7 wire_full_lines.script wire_full_lines.printed }
{}

/// A shard that is stopping is handed off again, by the next coordinator: stamp and addressee are the new ones.
pub fn second_handoff()
    ensures { Prints second_handoff_lines.script second_handoff_lines.printed }
{}

/// An entity that passivates when its shard is handed off is forgotten all the same.
pub fn handoff_while_passivating()
    ensures { Prints handoff_while_passivating_lines.script handoff_while_passivating_lines.printed }
{}

/// A handoff that begins lets a region ask again for the home.
pub fn asked_again_in_a_round()
    ensures { Prints asked_again_in_a_round_lines.script asked_again_in_a_round_lines.printed }
{}

/// An acknowledgement is taken from any sender, and a tick registers with the oldest.
pub fn acknowledged_by_a_lost_coordinator()
    ensures { Prints acknowledged_by_a_lost_coordinator_lines.script acknowledged_by_a_lost_coordinator_lines.printed }
{}

/// A home that hosts its shard already says so again.
pub fn hosted_already()
    ensures { Prints hosted_already_lines.script hosted_already_lines.printed }
{}

/// A message that is dropped asks for its shard's home.
pub fn dropped_and_asked()
    ensures { Prints dropped_and_asked_lines.script dropped_and_asked_lines.printed }
{}

/// Both nodes crash in a handoff; a world that is given the lists they leave settles.
pub fn given_lists()
    ensures prints { Prints given_lists_lines.script given_lists_lines.printed }
    ensures settles { SettlesFrom given_lists_lines.script given_lists_lines.settled }
{}

/// While no node is up, the number of shards changes: the entity goes to another shard with its journal, and the epochs go on.
pub fn other_shards()
    ensures prints { Prints other_shards_lines.script other_shards_lines.printed }
    ensures agrees { Agrees other_shards_lines.script }
    ensures safe { IsSafe other_shards_lines.script }
{}

/// A deposit with a memo is refused; while no node is up, behaviours are upgraded, and after that a withdrawal with a memo is taken.
pub fn upgraded_account()
    ensures prints { Prints upgraded_account_lines.script upgraded_account_lines.printed }
    ensures agrees { Agrees upgraded_account_lines.script }
    ensures safe { IsSafe upgraded_account_lines.script }
{}

/// Alone, one send that is delivered is recorded.
pub fn alone_first()
    ensures { PrintsAlone alone_first_lines.script alone_first_lines.printed }
{}

/// Alone, with two names of one hash: a gap and a repeat are not recorded.
pub fn alone_collision_gap_repeat()
    ensures { PrintsAlone alone_collision_gap_repeat_lines.script alone_collision_gap_repeat_lines.printed }
{}

/// Alone, nine commands to an account.
pub fn alone_account()
    ensures { PrintsAlone alone_account_lines.script alone_account_lines.printed }
{}

/// Each form of a fact, a slot, a packet, a command, an event, a reply and a state prints its line.
pub fn lines_of_facts()
    ensures nodes { printed facts_of_nodes ≡ text_of lines_of_nodes }
    ensures shards { printed facts_of_shards ≡ text_of lines_of_shards }
    ensures queues { printed facts_of_queues ≡ text_of lines_of_queues }
    ensures packets { printed facts_of_packets ≡ text_of lines_of_packets }
    ensures records { printed facts_of_records ≡ text_of lines_of_records }
    ensures states { printed facts_of_states ≡ text_of lines_of_states }
{}

/// Hashes of five names, and their shards of ten. The fourth and fifth hash are negative in Java: -1367590710 and -2147483648.
pub fn hashes_of_names()
    ensures hashes { hashes ≡ 3046176 ∷ 2112 ∷ 2112 ∷ 2927376586 ∷ 2147483648 ∷ [] }
    ensures shards { shards ≡ 6 ∷ 2 ∷ 2 ∷ 0 ∷ 8 ∷ [] }
{}

/// Three regions with shards 0 to 2, 3 and 4: one pick. With shards 0 and 1, 2 and 3: none. The second of three is the first with the fewest.
pub fn picks_of_a_round()
    ensures even { no_picks ≡ [] }
    ensures uneven { first_picks ≡ 0 ∷ [] }
    ensures smallest { smallest_shares ≡ Some 2 ∷ None ∷ [] }
{}

/// Nine commands to an account.
pub fn an_account()
    ensures replies { account_replies ≡ Reply.Rejected 1 ∷ Reply.Value 0 ∷ Reply.Value 100 ∷ Reply.Rejected 3 ∷ Reply.Rejected 4 ∷ Reply.Value 0 ∷ Reply.Value 0 ∷ Reply.Rejected 1 ∷ Reply.Rejected 2 ∷ [] }
    ensures state { account_state ≡ State.Closed }
{}

/// Two nodes with a producer each, of which one gives its queue back. The first node's worker has three orders, the second's four; the first producer is steady in a run of twelve turns and not of eleven, the second in none. The lists of the replay are worked and not settled; empty lists are worked only where no producer is steady.
pub fn steady_producers()
    ensures orders { counts ≡ 3 ∷ 4 ∷ [] }
    ensures steady { steady ≡ true ∷ false ∷ false ∷ false ∷ [] }
    ensures worked { worked_where ≡ true ∷ false ∷ true ∷ [] }
    ensures settled { settled_where ≡ false ∷ false ∷ [] }
{}
