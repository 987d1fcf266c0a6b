//! The report in parts.
ghost use Rattle.std.specs.Prelude.{◌≡◌, ◌<◌, ◌++◌, IfOk, OnOk, IsTrue, length};
ghost use Rattle.std.specs.List.{flat_map};
ghost use Rattle.yard_model.specs.Script.{Setting, setting};
ghost use Rattle.yard_model.specs.SlotLists.{SlotLists};
ghost use Rattle.yard_model.specs.Text.{report};
ghost use Rattle.trace_text.specs.Foldable.{is_foldable_in_all};
ghost use Rattle.trace_text.specs.Parts.{AreNames, report_part, report_parts};

use crate::queues::push_queue;
use crate::report::push_shard;
use crate::shards::names_by_shard;
use crate::sheet::Sheet;
use name_index::NameIndex;
use std::alloc::{AllocError, Global};
use yard_model::{Charter, EntityName, Lists};

/// The names of a script, as the parts of its report want them.
#[derive(Drop)]
pub struct ReportNames {
    by_shard: Vec<Vec<EntityName>>,
    all: NameIndex,
}

impl ReportNames {
    /// The names of this script. The only error is want of memory.
    pub fn new(alloc: Global, charter: &Charter) -> Result<ReportNames, AllocError>
        ensures { IfOk result (λ names. AreNames (setting charter.now) names) }
    {
        let by_shard = names_by_shard(alloc, charter)?;
        let all = NameIndex::new(charter)?;
        Ok(ReportNames { by_shard, all })
    }
}

/// How many parts the report has.
pub fn count_of_parts(charter: &Charter) -> usize
    ensures { (lists : SlotLists) → result ≡ length (report_parts (setting charter.now) lists) }
{
    let config = charter.config();
    config.shards as usize + config.producers as usize + 2
}

/// The parts, one behind the other, are the report.
pub fn parts_law()
    ensures { (set : Setting) (lists : SlotLists) → report set lists ≡ flat_map (λ part. part) (report_parts set lists) }
{}

impl Sheet {
    /// Appends part `k` of the report: its first line, the entities of a shard, the pairs of a queue or
    /// its last line. The only error is want of memory; what the text then is stays open.
    pub fn push_report_part<T: Lists>(
        &mut self,
        charter: &Charter,
        names: &ReportNames,
        stores: &T,
        k: usize,
    ) -> Result<(), AllocError>
        requires foldable { IsTrue (is_foldable_in_all (setting charter.now) (T.lists stores.now)) }
        requires names { AreNames (setting charter.now) names.now }
        requires within { k < length (report_parts (setting charter.now) (T.lists stores.now)) }
        ensures { OnOk result (self.new ≡ self.old ++ report_part (setting charter.now) (T.lists stores.now) k) }
    {
        let alloc = *self.cells.allocator();
        let shards = charter.config().shards as usize;
        if k == 0 {
            return self.push_word(b"report\n");
        }
        if k <= shards {
            let place = k - 1;
            let own = names.by_shard[place].as_slice();
            return push_shard(self, alloc, charter, stores, place as u8, own);
        }
        if k - shards <= charter.config().producers as usize {
            return push_queue(self, alloc, &names.all, stores, (k - shards) as u8);
        }
        self.push_word(b"end\n")
    }
}
