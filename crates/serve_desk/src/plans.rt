//! The commands of each producer to one entity.
ghost use Rattle.std.specs.Prelude.{◌≡◌, [], map, replicate, slice_index_or, IfOk, OnOk, OnErr};
ghost use Rattle.serve_desk.specs.Rows.{RowHasOneMore};

use std::alloc::{AllocError, Global};
use std::marker::Model;
use yard_model::{Command, ProducerNo};

/// The commands of each producer to one entity, in order; seen as a list for each number of a producer, from 0.
#[derive(Drop)]
pub struct Plans {
    lists: Vec<Vec<Command>>,
}

impl Model for Plans {
    ghost use Rattle.std.specs.Prelude.{◌≡◌, List, length, map};
    ghost use Rattle.yard_model.specs.declared.event.Command.{Command};

    ghost Value = { List (List Command) };

    ghost view = { λ p. map (λ v. v.items) p.lists.items };

    ghost invariant = { λ p. length p.lists.items ≡ 33 };
}

impl Plans {
    /// This command of this producer alone. The only error is want of memory.
    pub fn first(
        alloc: Global,
        producer: ProducerNo,
        command: &Command,
    ) -> Result<Plans, AllocError>
        ensures { IfOk result (λ plans. RowHasOneMore [] plans producer command.now) }
    {
        let mut plans = Plans {
            lists: no_lists(alloc)?,
        };
        plans.push(producer, command)?;
        Ok(plans)
    }

    /// The commands of a producer.
    pub fn of(&self, producer: ProducerNo) -> &[Command]
        ensures { result.now ≡ slice_index_or self.now producer [] }
    {
        let place = producer.get() as usize;
        self.lists[place].as_slice()
    }

    /// One command more of a producer. The only error is want of memory, and then nothing changed.
    pub fn push(&mut self, producer: ProducerNo, command: &Command) -> Result<(), AllocError>
        ensures more { OnOk result (RowHasOneMore self.old self.new producer command.now) }
        ensures kept { OnErr result (self.new ≡ self.old) }
    {
        let place = producer.get() as usize;
        self.lists[place].push(*command)?;
        Ok(())
    }
}

/// No commands of any producer. The only error is want of memory.
fn no_lists(alloc: Global) -> Result<Vec<Vec<Command>>, AllocError>
    ensures { IfOk result (λ lists. map (λ v. v.items) lists.items ≡ replicate 33 []) }
{
    let mut lists = Vec::with_capacity(alloc, 33)?;
    for _ in 0..33usize {
        lists.push(Vec::new(alloc))?;
    }
    Ok(lists)
}
