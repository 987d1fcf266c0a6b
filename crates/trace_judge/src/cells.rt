//! Where each entity is live.
ghost use Rattle.std.specs.Prelude.{◌≡◌, ◌<◌, ◌≤◌, None, is_some, length, map, slice_index_or, slice_set, IfOk};
ghost use Rattle.std.specs.List.{list_all};
ghost use Rattle.yard_model.specs.Script.{names_in};
ghost use Rattle.trace_judge.specs.Judging.{is_idle_cell, new_cell, no_cell, started, stopped, without_it};

use shard_extract::shard_of;
use std::alloc::{AllocError, Global};
use yard_model::{Charter, EntityName, Incarnation, ShardNo};

/// An entity's shard, and where the entity is live.
#[derive(Clone, Copy, Debug)]
pub(crate) struct Cell {
    pub(crate) shard: ShardNo,
    pub(crate) live: Option<Incarnation>,
}

/// A cell for each name of a charter; none is live. The only error is want of memory.
pub(crate) fn new_cells(alloc: Global, charter: &Charter) -> Result<Vec<Cell>, AllocError>
    ensures { IfOk result (λ cells. cells.items ≡ map (new_cell charter.now) (names_in charter.now.orders)) }
{
    let names = charter.names();
    let shards = charter.config().shards;
    let mut cells = Vec::with_capacity(alloc, names.len())?;
    for name in names {
        cells.push(Cell {
            shard: shard_of(name, shards),
            live: None,
        })?;
    }
    Ok(cells)
}

/// Where it is live, if it isn't at this incarnation.
fn without_it(who: &Incarnation, live: &Option<Incarnation>) -> Option<Incarnation>
    ensures { result ≡ without_it who.now live.now }
{
    match live {
        Some(other) => { if *who == *other { None } else { *live } }
        None => None,
    }
}

/// Whether it is live at another incarnation.
pub(crate) fn is_elsewhere(who: &Incarnation, cell: &Cell) -> bool
    ensures { result ≡ is_some (without_it who.now cell.now.live) }
{
    without_it(who, &cell.live).is_some()
}

/// The entity at this place is live at this incarnation.
pub(crate) fn start(cells: &mut Vec<Cell>, place: usize, who: &Incarnation)
    requires { place < length cells.old.items }
    ensures { cells.new.items ≡ slice_set cells.old.items place (started who.now (slice_index_or cells.old.items place no_cell)) }
{
    let shard = cells[place].shard;
    cells[place] = Cell {
        shard,
        live: Some(*who),
    };
}

/// The entity at this place isn't live any more at this incarnation.
pub(crate) fn stop(cells: &mut Vec<Cell>, place: usize, who: &Incarnation)
    requires { place < length cells.old.items }
    ensures { cells.new.items ≡ slice_set cells.old.items place (stopped who.now (slice_index_or cells.old.items place no_cell)) }
{
    let old = cells[place];
    cells[place] = stopped(who, &old);
}

fn stopped(who: &Incarnation, old: &Cell) -> Cell
    ensures { result ≡ stopped who.now old.now }
{
    Cell {
        shard: old.shard,
        live: without_it(who, &old.live),
    }
}

/// No entity is live any more at this incarnation.
pub(crate) fn stop_all(cells: &mut [Cell], who: &Incarnation)
    ensures { cells.new ≡ map (stopped who.now) cells.old }
{
    for cell in cells.iter_mut() {
        *cell = stopped(who, cell);
    }
}

/// Whether no entity of this shard is live.
pub(crate) fn are_idle(cells: &[Cell], shard: ShardNo) -> bool
    ensures { result ≡ list_all (is_idle_cell shard) cells.now }
{
    cells.iter().all(|cell| is_idle(cell, shard))
}

fn is_idle(cell: &Cell, shard: ShardNo) -> bool
    ensures { result ≡ is_idle_cell shard cell.now }
{
    cell.shard.get() != shard.get() || cell.live.is_none()
}
