//! The order in which slots are out with a seat, and how one is brought to the front.
ghost use Rattle.std.specs.Prelude.{◌≡◌, ◌<◌, ℕ, true, map, length, slice_index, vec_len, vec_capacity, take, drop, ◌++◌, ◌+◌, ◌∷◌, eqb};
ghost use Rattle.std.specs.List.{list_any};
ghost use Rattle.lease_table.specs.Leasing.{empty};
ghost use Rattle.lease_table.specs.Fronts.{Brought};

use crate::View;
use atomic_table::Seat;
use shard_store::Store;

/// Where the slot stands in the order.
fn place_of(order: &[usize], slot: usize) -> usize
    requires { list_any (eqb slot) order.now ≡ true }
    ensures { (result < length order.now) × (slice_index order.now result ≡ slot) }
{
    let mut at = 0;
    while at < order.len() && order[at] != slot {
        at += 1;
    }
    at
}

/// The slot comes to the front, and the others keep their order behind it.
pub(crate) fn bring(seat: &mut Seat<Option<Store>, View>, order: &mut Vec<usize>, slot: usize)
    requires carried { seat.old.me.1 ≡ map empty order.old.items }
    requires there { list_any (eqb slot) order.old.items ≡ true }
    ensures seat { (seat.new.table_id ≡ seat.old.table_id) × (seat.new.id ≡ seat.old.id) × (seat.new.me.0 ≡ seat.old.me.0) }
    ensures order { Brought slot order.old.items order.new.items seat.new.me.1 }
    ensures room { vec_capacity order.new ≡ vec_capacity order.old }
{
    let at = place_of(order.as_slice(), slot);
    for _ in 0..at {
        seat.turn();
    }
    order.rotate_left(at);
}
