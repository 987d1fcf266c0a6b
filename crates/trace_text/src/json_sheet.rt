//! The report as JSON, as bytes: each entity and each pair with a comma before it.
ghost use Rattle.std.specs.Prelude.{◌≡◌, ◌+◌, ◌<◌, ◌≤◌, ◌^◌, ◌++◌, ◌∷◌, OnOk, IsTrue, false, length, take};
ghost use Rattle.serde_json.specs.View.{view};
ghost use Rattle.serde_json.specs.Written.{compact_text, has_float};
ghost use Rattle.yard_model.specs.Behaviour.{empty_state};
ghost use Rattle.yard_model.specs.Script.{setting};
ghost use Rattle.yard_model.specs.Setting.{shard_of};
ghost use Rattle.trace_text.specs.Foldable.{are_foldable};
ghost use Rattle.trace_text.specs.JsonText.{entity_values};
ghost use Rattle.trace_text.specs.Places.{lent};

use crate::json_rows::pair_value;
use crate::json_text::put_entity_value;
use crate::queues::Tally;
use crate::report_rows::ReportRows;
use crate::room::put_bytes;
use crate::sheet::Sheet;
use serde_json::Value;
use std::alloc::{AllocError, Global};
use yard_model::{Charter, EntityName, ProducerNo, Record, ShardNo};

/// Rows of the report as JSON values, one behind the other, each with a comma before it.
#[derive(Drop)]
pub(crate) struct JsonRows {
    pub(crate) sheet: Sheet,
}

impl Sheet {
    /// Appends an entity, where it has a record.
    pub(crate) fn push_entity_value(
        &mut self,
        charter: &Charter,
        s: ShardNo,
        name: &EntityName,
        records: &[&Record],
    ) -> Result<(), AllocError>
        requires shard { shard_of (setting charter.now) name.now ≡ s }
        requires foldable { IsTrue (are_foldable (empty_state charter.now.config.kind) (lent records.now)) }
        ensures { OnOk result (self.new ≡ self.old ++ entity_values (setting charter.now) name.now (lent records.now)) }
    {
        self.len = put_entity_value(&mut self.cells, self.len, charter, s, name, records)?;
        Ok(())
    }

    /// Appends a value, as it is spelled by its own crate.
    fn push_value(&mut self, alloc: Global, value: &Value) -> Result<(), AllocError>
        requires { has_float (view value.now) ≡ false }
        ensures { OnOk result (self.new ≡ self.old ++ 44 ∷ compact_text (view value.now)) }
    {
        let json = value.to_vec(alloc)?;
        self.push_word(b",")?;
        self.push_bytes(json.as_slice())
    }

    /// Appends these bytes.
    fn push_bytes(&mut self, bytes: &[u8]) -> Result<(), AllocError>
        ensures { OnOk result (self.new ≡ self.old ++ bytes.now) }
    {
        make_room_for(&mut self.cells, self.len, bytes.len())?;
        self.len = put_bytes(self.cells.as_mut_slice(), self.len, bytes);
        Ok(())
    }
}

/// Room for so many bytes behind these cells.
fn make_room_for(cells: &mut Vec<u8>, at: usize, count: usize) -> Result<(), AllocError>
    requires within { at ≤ length cells.old.items }
    requires fits { count < 2 ^ 63 }
    ensures items { take at cells.new.items ≡ take at cells.old.items }
    ensures length { length cells.old.items ≤ length cells.new.items }
    ensures room { OnOk result (at + count ≤ length cells.new.items) }
{
    if cells.len() - at >= count {
        return Ok(());
    }
    cells.resize(at + count, 0)
}

impl ReportRows for JsonRows {
    ghost use Rattle.std.specs.Prelude.{ℕ, refl};
    ghost use Rattle.trace_text.specs.JsonText.{entity_values, pair_values};

    ghost Part = { ℕ };

    ghost parts = { λ r. r.sheet };

    ghost entity_parts = { entity_values };

    ghost pair_parts = { pair_values };

    fn push_entity(
        &mut self,
        charter: &Charter,
        s: ShardNo,
        name: &EntityName,
        records: &[&Record],
    ) -> Result<(), AllocError> {
        self.sheet.push_entity_value(charter, s, name, records)
    }

    #[tactic(auto, using(crate::proofs::JsonLaws::pair_told, crate::proofs::JsonLaws::pair_untold))]
    fn push_pair(
        &mut self,
        p: ProducerNo,
        name: &EntityName,
        tally: &Tally,
    ) -> Result<(), AllocError> {
        if tally.queued == 0 {
            return Ok(());
        }
        let alloc = *self.sheet.cells.allocator();
        let value = pair_value(alloc, p, name, tally)?;
        self.sheet.push_value(alloc, &value)
    }
}
