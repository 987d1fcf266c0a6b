//! Numbers of packets, one after the other, that were all delivered.
ghost use Rattle.std.specs.Prelude.{ℕ, ◌≡◌, ◌-◌, ◌<◌, ◌≤◌, true, false, length, slice_index_or};
ghost use Rattle.world_sim.specs.Mail.{AreMarked, run_end};

use wire_packet::Wire;

/// Where a search for a number above `from` may begin, where those above `base` up to `reached` were
/// delivered.
pub(crate) fn after_run(base: u32, reached: u32, from: u32) -> u32
    ensures { result ≡ run_end base reached from }
{
    if from < base { from } else { from.max(reached) }
}

/// How far the numbers that were delivered reach, once this one was, where searches begin above `from`. It
/// isn't followed where they begin at the front: there the wire passes over what was delivered by itself.
pub(crate) fn reach(wire: &Wire, count: u32, from: u32, reached: u32, number: u32) -> u32
    requires same { length wire.now.marked ≡ count }
    requires few { count ≤ 1000000 }
    requires within { reached ≤ count }
    requires number { number ≤ count }
    requires marked { slice_index_or wire.now.marked (number - 1) false ≡ true }
    ensures within { result ≤ count }
    ensures marked { (base : ℕ) → AreMarked wire.now.marked base reached → AreMarked wire.now.marked base result }
{
    if from == 0 {
        return reached;
    }
    if number == reached + 1 {
        end_of_run(wire, count, number)
    } else {
        reached
    }
}

/// The last number before the next above `from` that wasn't delivered.
fn end_of_run(wire: &Wire, count: u32, from: u32) -> u32
    requires same { length wire.now.marked ≡ count }
    requires few { count ≤ 1000000 }
    requires within { from ≤ count }
    ensures within { result ≤ count }
    ensures marked { AreMarked wire.now.marked from result }
{
    match wire.next_fresh(from + 1) {
        Some(number) => number - 1,
        None => count,
    }
}
