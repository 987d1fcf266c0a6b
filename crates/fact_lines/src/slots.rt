//! Slots, and why their leases were freed.
ghost use Rattle.std.specs.Prelude.{◌≡◌, None, Some, MatchOption};
ghost use Rattle.fact_lines.specs.Reads.{cause_at, queue_slot, shard_slot, slot_at, slot_behind};

use crate::basics::{producer, shard_behind, text};
use yard_model::{Cause, Slot};

fn shard_slot(line: &[u8]) -> Option<(Slot, &[u8])>
    ensures { MatchOption result (shard_slot line.now ≡ None) (λ x. shard_slot line.now ≡ Some (x.0, x.1.now)) }
{
    let Some((shard, rest)) = shard_behind(line, b"shard:") else {
        return None;
    };
    Some((Slot::Shard(shard), rest))
}

fn queue_slot(line: &[u8]) -> Option<(Slot, &[u8])>
    ensures { MatchOption result (queue_slot line.now ≡ None) (λ x. queue_slot line.now ≡ Some (x.0, x.1.now)) }
{
    let Some(behind) = text(line, b"queue:") else {
        return None;
    };
    let Some((producer, rest)) = producer(behind) else {
        return None;
    };
    Some((Slot::Queue(producer), rest))
}

/// A slot, and the bytes behind it.
fn slot(line: &[u8]) -> Option<(Slot, &[u8])>
    ensures { MatchOption result (slot_at line.now ≡ None) (λ x. slot_at line.now ≡ Some (x.0, x.1.now)) }
{
    if let Some(found) = shard_slot(line) {
        return Some(found);
    }
    if let Some(found) = queue_slot(line) {
        return Some(found);
    }
    let Some(rest) = text(line, b"coordinator") else {
        return None;
    };
    Some((Slot::Coordinator, rest))
}

/// A slot behind this text, and the bytes behind it.
pub(crate) fn slot_behind<'a>(line: &'a [u8], word: &[u8]) -> Option<(Slot, &'a [u8])>
    ensures { MatchOption result (slot_behind word.now line.now ≡ None) (λ x. slot_behind word.now line.now ≡ Some (x.0, x.1.now)) }
{
    let Some(behind) = text(line, word) else {
        return None;
    };
    slot(behind)
}

/// Why a lease was freed, and the bytes behind it.
pub(crate) fn cause(line: &[u8]) -> Option<(Cause, &[u8])>
    ensures { MatchOption result (cause_at line.now ≡ None) (λ x. cause_at line.now ≡ Some (x.0, x.1.now)) }
{
    if let Some(rest) = text(line, b"released") {
        return Some((Cause::Released, rest));
    }
    let Some(rest) = text(line, b"stopped") else {
        return None;
    };
    Some((Cause::Stopped, rest))
}
