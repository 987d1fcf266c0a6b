//! The commands of a producer to each name.
ghost use Rattle.std.specs.Prelude.{◌≡◌, ◌<◌, ◌∷◌, ◌++◌, [], true, false, length, map, replicate, slice_get, slice_set, slice_index_or, IfOk, OnOk};
ghost use Rattle.std.specs.List.{list_any};
ghost use Rattle.yard_model.specs.Genuine.{is_planned};
ghost use Rattle.yard_model.specs.Script.{is_name, names_in};
ghost use Rattle.durable_queue.specs.Kept.{planned, place_of, ArePlans, AreNamed};
ghost use Rattle.entry_slots.specs.Kept.{IsPlaced, is_command_at};

use crate::names::place_in;
use name_index::NameIndex;
use std::alloc::{AllocError, Global};
use std::marker::{Model, PhantomData};
use std::snapshot::Snapshot as Ghost;
use yard_model::laws::command_law;
use yard_model::{Charter, Command, EntityName, ProducerNo, Sending};

/// The commands of one producer to each name of a script, in the order of its sends; seen as the script and the
/// producer.
#[derive(Drop)]
pub(crate) struct Plan {
    script: Ghost<Charter>,
    producer: ProducerNo,
    commands: Vec<Vec<Command>>,
    holds: PhantomData<Command>,
}

impl Model for Plan {
    ghost use Rattle.std.specs.Prelude.{map};
    ghost use Rattle.entry_slots.specs.Kept.{PlanOf, IsPlan};

    ghost Value = { PlanOf };

    ghost view = { λ x. record { script = x.script.value; producer = x.producer } };

    ghost invariant = { λ x. IsPlan x.script.value x.producer (map (λ v. v.items) x.commands.items) };
}

impl Plan {
    /// That of a producer of this charter. The only error is want of memory.
    pub(crate) fn new(
        alloc: Global,
        charter: &Charter,
        names: &NameIndex,
        producer: ProducerNo,
    ) -> Result<Plan, AllocError>
        requires { names.now ≡ names_in charter.now.orders }
        ensures { IfOk result (λ x. x ≡ record { script = charter.now; producer = producer }) }
    {
        let commands = commands_of(alloc, names, charter.sends(producer))?;
        Ok(Plan {
            script: Ghost::of(charter),
            producer,
            commands,
            holds: PhantomData,
        })
    }

    /// Whether a command is that of this number, from 1, of those to the name at this place.
    pub(crate) fn has(
        &self,
        place: usize,
        entity: &EntityName,
        number: u32,
        command: &Command,
    ) -> bool
        requires { IsPlaced (names_in self.now.script.orders) place entity.now }
        ensures { result ≡ is_planned self.now.script self.now.producer entity.now number command.now }
    {
        let _entity = *entity;
        command_law();
        number > 0
            && is_at(
                self.commands.as_slice(),
                place,
                number as usize - 1,
                command,
            )
    }
}

/// Whether a command is that of this number, from 0, of those at this place.
fn is_at(commands: &[Vec<Command>], place: usize, number: usize, command: &Command) -> bool
    requires { place < length commands.now }
    ensures { result ≡ is_command_at (slice_index_or (map (λ v. v.items) commands.now) place []) number command.now }
{
    command_law();
    match commands[place].as_slice().get(number) {
        Some(other) => *command == *other,
        None => false,
    }
}

/// The commands of these sends to each name. The only error is want of memory.
fn commands_of(
    alloc: Global,
    names: &NameIndex,
    sends: &[Sending],
) -> Result<Vec<Vec<Command>>, AllocError>
    requires { AreNamed names.now sends.now }
    ensures sized { IfOk result (λ all. length all.items ≡ length names.now) }
    ensures plans { IfOk result (λ all. ArePlans names.now (map (λ v. v.items) all.items) sends.now) }
{
    let mut all = no_commands(alloc, names.len())?;
    for sending in sends {
        add(&mut all, names, sending)?;
    }
    Ok(all)
}

/// So many empty lists. The only error is want of memory.
fn no_commands(alloc: Global, count: usize) -> Result<Vec<Vec<Command>>, AllocError>
    ensures { IfOk result (λ all. map (λ v. v.items) all.items ≡ replicate count []) }
{
    let mut all = Vec::with_capacity(alloc, count)?;
    for _ in 0..count {
        all.push(Vec::new(alloc))?;
    }
    Ok(all)
}

/// The command of a send, behind the others to its name. The only error is want of memory.
fn add(all: &mut Vec<Vec<Command>>, names: &NameIndex, sending: &Sending) -> Result<(), AllocError>
    requires sized { length all.old.items ≡ length names.now }
    requires named { list_any (is_name sending.now.entity) names.now ≡ true }
    ensures sized { length all.new.items ≡ length all.old.items }
    ensures plan { OnOk result (map (λ v. v.items) all.new.items ≡ slice_set (map (λ v. v.items) all.old.items) (place_of names.now sending.now.entity) (planned names.now (map (λ v. v.items) all.old.items) sending.now.entity ++ sending.now.command ∷ [])) }
{
    let Some(place) = place_in(names, &sending.entity) else {
        unreachable!()
    };
    all[place].push(sending.command)?;
    Ok(())
}
