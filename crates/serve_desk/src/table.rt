//! The commands that were accepted, by name.
ghost use Rattle.std.specs.Prelude.{◌≡◌, ◌≤◌, length, OnOk, OnErr};
ghost use Rattle.std.specs.Ordering.{nat_cmp};
ghost use Rattle.std.specs.Cmp.Lexicographic.{slice_cmp};
ghost use Rattle.std.specs.BTreeSet.{insert_key};
ghost use Rattle.std.specs.Map.{keys_of};
ghost use Rattle.serve_desk.specs.Rows.{kept_of, HasOneMore};

use crate::plans::Plans;
use std::alloc::{AllocError, Global};
use std::collections::BTreeMap;
use yard_model::{Command, EntityName, ProducerNo};

/// The commands of a producer to an entity.
pub fn commands_in<'l>(
    table: &'l BTreeMap<EntityName, Plans>,
    producer: ProducerNo,
    entity: &EntityName,
) -> &'l [Command]
    ensures { result.now ≡ kept_of table.now.entries producer entity.now }
{
    match table.get(entity) {
        Some(plans) => plans.of(producer),
        None => &[],
    }
}

/// How many names there are with this one.
pub fn names_with(table: &BTreeMap<EntityName, Plans>, entity: &EntityName) -> usize
    requires { length (keys_of table.now.entries) ≤ 1000 }
    ensures { result ≡ length (insert_key (slice_cmp nat_cmp) (keys_of table.now.entries) entity.now) }
{
    match table.get(entity) {
        Some(_) => table.len(),
        None => table.len() + 1,
    }
}

/// One command more of a producer to an entity. The only error is want of memory, and then nothing changed.
pub fn put(
    table: &mut BTreeMap<EntityName, Plans>,
    alloc: Global,
    producer: ProducerNo,
    entity: &EntityName,
    command: &Command,
) -> Result<(), AllocError>
    ensures more { OnOk result (HasOneMore table.old.entries table.new.entries producer entity.now command.now) }
    ensures kept { OnErr result (table.new.entries ≡ table.old.entries) }
{
    if let Some(plans) = table.get_mut(entity) {
        return plans.push(producer, command);
    }
    let plans = Plans::first(alloc, producer, command)?;
    table.insert(*entity, plans)?;
    Ok(())
}
