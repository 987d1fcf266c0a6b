//! What a report is made of: entities with their records, and pairs of producer and entity.
ghost use Rattle.trace_text.specs.Places.{lent};
ghost use Rattle.std.specs.Prelude.{◌≡◌, ℕ, ◌++◌, List, [], OnOk, IsTrue};
ghost use Rattle.yard_model.specs.declared.packet.Record.{Record};
ghost use Rattle.yard_model.specs.Behaviour.{empty_state};
ghost use Rattle.yard_model.specs.Script.{Setting, setting};
ghost use Rattle.yard_model.specs.Setting.{shard_of};
ghost use Rattle.trace_text.specs.declared.queues.Tally.{Tally};
ghost use Rattle.trace_text.specs.Foldable.{are_foldable};

use crate::queues::Tally;
use std::alloc::AllocError;
use yard_model::{Charter, EntityName, ProducerNo, Record, ShardNo};

/// What a report is appended to: a text, or a list of JSON values.
pub(crate) trait ReportRows {
    ghost Part: { Type 0 };

    ghost parts: { Self → List Part };

    ghost entity_parts: { Setting → List ℕ → List Record → List Part };

    ghost pair_parts: { ℕ → List ℕ → Tally → List Part };

    /// Appends an entity of this shard, with its records.
    fn push_entity(
        &mut self,
        charter: &Charter,
        s: ShardNo,
        name: &EntityName,
        records: &[&Record],
    ) -> Result<(), AllocError>
        requires shard { shard_of (setting charter.now) name.now ≡ s }
        requires foldable { IsTrue (are_foldable (empty_state charter.now.config.kind) (lent records.now)) }
        ensures { OnOk result (parts self.new ≡ parts self.old ++ entity_parts (setting charter.now) name.now (lent records.now)) };

    /// Appends a pair with its counts.
    fn push_pair(
        &mut self,
        p: ProducerNo,
        name: &EntityName,
        tally: &Tally,
    ) -> Result<(), AllocError>
        ensures { OnOk result (parts self.new ≡ parts self.old ++ pair_parts p name.now tally.now) };
}
