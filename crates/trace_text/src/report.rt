//! The report: what the lists of all slots come to, as a text and as JSON.
ghost use Rattle.trace_text.specs.Places.{lent_all};
ghost use Rattle.std.specs.Prelude.{◌≡◌, ℕ, ◌++◌, ◌<◌, [], IfOk, OnOk, IsTrue, codes, drop, length, map, slice_index_or};
ghost use Rattle.std.specs.List.{flat_map, list_all};
ghost use Rattle.std.specs.List.Sorted.{IsStrictlySortedBy};
ghost use Rattle.std.specs.Ordering.{nat_cmp};
ghost use Rattle.std.specs.Cmp.Lexicographic.{slice_cmp};
ghost use Rattle.serde_json.specs.View.{view};
ghost use Rattle.yard_model.specs.Behaviour.{empty_state};
ghost use Rattle.yard_model.specs.Entry.{shard_fact};
ghost use Rattle.yard_model.specs.Script.{setting};
ghost use Rattle.yard_model.specs.Setting.{shards, shard_of, names_of};
ghost use Rattle.yard_model.specs.SlotLists.{shard_list};
ghost use Rattle.yard_model.specs.Text.{report};
ghost use Rattle.trace_text.specs.Foldable.{are_foldable, is_foldable, is_foldable_shard, is_foldable_in_all};
ghost use Rattle.trace_text.specs.Grown.{Appends, Grows};
ghost use Rattle.trace_text.specs.Json.{entities_json, json_report, json_text, queues_json};
ghost use Rattle.trace_text.specs.JsonText.{values_text};
ghost use Rattle.trace_text.specs.Parts.{AreNames, report_part, report_parts};
ghost use Rattle.trace_text.specs.Rows.{rows, shard_rows};

use crate::basics::{all_or_none, push};
use crate::journals::journals_of_list;
use crate::json_rows::whole_value;
use crate::json_sheet::JsonRows;
use crate::parts::{ReportNames, count_of_parts, parts_law};
use crate::queues::push_queues;
use crate::report_rows::ReportRows;
use crate::shards::names_by_shard;
use crate::sheet::Sheet;
use name_index::NameIndex;
use serde_json::Value;
use std::alloc::{AllocError, Global};
use yard_model::{Charter, EntityName, Lists, Record, ShardEntry, ShardNo};

/// Appends the report: by shard and name each entity that has a record, with its records; by
/// producer and name each queue that has a command; nothing of names that aren't the charter's. The
/// only error is want of memory, and then the text stays as it was.
pub fn push_report<T: Lists>(
    text: &mut Vec<u8>,
    charter: &Charter,
    stores: &T,
) -> Result<(), AllocError>
    requires { IsTrue (is_foldable_in_all (setting charter.now) (T.lists stores.now)) }
    ensures { Appends result text.old.items text.new.items (report (setting charter.now) (T.lists stores.now)) }
{
    let names = ReportNames::new(*text.allocator(), charter)?;
    let length = text.len();
    let pushed = push_parts(text, charter, &names, stores);
    all_or_none(text, length, pushed)
}

/// Appends the parts of the report, or some of them.
fn push_parts<T: Lists>(
    text: &mut Vec<u8>,
    charter: &Charter,
    names: &ReportNames,
    stores: &T,
) -> Result<(), AllocError>
    requires foldable { IsTrue (is_foldable_in_all (setting charter.now) (T.lists stores.now)) }
    requires names { AreNames (setting charter.now) names.now }
    ensures { Grows result text.old.items text.new.items (report (setting charter.now) (T.lists stores.now)) }
{
    parts_law();
    let mut sheet = Sheet::new(*text.allocator());
    for k in 0..count_of_parts(charter) {
        push_part(text, &mut sheet, charter, names, stores, k)?;
    }
    Ok(())
}

/// Appends a part of the report, which is spelled in a sheet.
fn push_part<T: Lists>(
    text: &mut Vec<u8>,
    sheet: &mut Sheet,
    charter: &Charter,
    names: &ReportNames,
    stores: &T,
    k: usize,
) -> Result<(), AllocError>
    requires foldable { IsTrue (is_foldable_in_all (setting charter.now) (T.lists stores.now)) }
    requires names { AreNames (setting charter.now) names.now }
    requires within { k < length (report_parts (setting charter.now) (T.lists stores.now)) }
    ensures { Appends result text.old.items text.new.items (report_part (setting charter.now) (T.lists stores.now) k) }
{
    sheet.clear();
    sheet.push_report_part(charter, names, stores, k)?;
    push(text, sheet.as_slice())
}

/// The report as JSON: an object of the entities and the queues, in the report's order. The only
/// error is want of memory.
pub fn report_value<T: Lists>(
    alloc: Global,
    charter: &Charter,
    stores: &T,
) -> Result<Value, AllocError>
    requires { IsTrue (is_foldable_in_all (setting charter.now) (T.lists stores.now)) }
    ensures { IfOk result (λ v. view v ≡ json_report (setting charter.now) (T.lists stores.now)) }
{
    let mut entities: Vec<Value> = Vec::new(alloc);
    push_entities(&mut entities, alloc, charter, stores)?;
    let mut queues: Vec<Value> = Vec::new(alloc);
    push_queues(&mut queues, alloc, charter, stores)?;
    whole_value(alloc, entities, queues)
}

/// Appends the report as JSON: its compact text, and LF. The only error is want of memory, and then the
/// text stays as it was.
pub fn push_json<T: Lists>(
    text: &mut Vec<u8>,
    charter: &Charter,
    stores: &T,
) -> Result<(), AllocError>
    requires { IsTrue (is_foldable_in_all (setting charter.now) (T.lists stores.now)) }
    ensures { Appends result text.old.items text.new.items (json_text (setting charter.now) (T.lists stores.now)) }
{
    let alloc = *text.allocator();
    let entities = entities_sheet(alloc, charter, stores)?;
    let queues = queues_sheet(alloc, charter, stores)?;
    let length = text.len();
    let pushed = push_object(text, entities.as_slice(), queues.as_slice());
    all_or_none(text, length, pushed)
}

/// The entities of all shards as JSON, each with a comma before it.
fn entities_sheet<T: Lists>(
    alloc: Global,
    charter: &Charter,
    stores: &T,
) -> Result<Sheet, AllocError>
    requires { IsTrue (is_foldable_in_all (setting charter.now) (T.lists stores.now)) }
    ensures { IfOk result (λ sheet. sheet ≡ values_text (entities_json (setting charter.now) (T.lists stores.now))) }
{
    let mut rows = JsonRows {
        sheet: Sheet::new(alloc),
    };
    push_entities(&mut rows, alloc, charter, stores)?;
    let JsonRows { sheet } = rows;
    Ok(sheet)
}

/// The pairs of all queues as JSON, each with a comma before it.
fn queues_sheet<T: Lists>(alloc: Global, charter: &Charter, stores: &T) -> Result<Sheet, AllocError>
    ensures { IfOk result (λ sheet. sheet ≡ values_text (queues_json (setting charter.now) (T.lists stores.now))) }
{
    let mut rows = JsonRows {
        sheet: Sheet::new(alloc),
    };
    push_queues(&mut rows, alloc, charter, stores)?;
    let JsonRows { sheet } = rows;
    Ok(sheet)
}

/// Appends the object of these values, without the comma before the first of each, or some of it.
fn push_object(text: &mut Vec<u8>, entities: &[u8], queues: &[u8]) -> Result<(), AllocError>
    ensures { Grows result text.old.items text.new.items ((codes "{\"entities\":[" ++ drop 1 entities.now) ++ (codes "],\"queues\":[" ++ drop 1 queues.now) ++ codes "]}\n") }
{
    push_values(text, b"{\"entities\":[", entities)?;
    push_values(text, b"],\"queues\":[", queues)?;
    push(text, b"]}\n")
}

/// Appends this word and these values, without the comma before the first, or some of it.
fn push_values(text: &mut Vec<u8>, word: &[u8], values: &[u8]) -> Result<(), AllocError>
    ensures { Grows result text.old.items text.new.items (word.now ++ drop 1 values.now) }
{
    push(text, word)?;
    match values.split_first() {
        Some((_, rest)) => push(text, rest),
        None => Ok(()),
    }
}

/// The entities of all shards.
fn push_entities<R: ReportRows, T: Lists>(
    out: &mut R,
    alloc: Global,
    charter: &Charter,
    stores: &T,
) -> Result<(), AllocError>
    requires { IsTrue (is_foldable_in_all (setting charter.now) (T.lists stores.now)) }
    ensures { OnOk result (R.parts out.new ≡ R.parts out.old ++ flat_map (λ s. shard_rows R.entity_parts (setting charter.now) s (shard_list (T.lists stores.now) s)) (shards (setting charter.now))) }
{
    let names = names_by_shard(alloc, charter)?;
    for i in 0..charter.config().shards {
        push_shard(out, alloc, charter, stores, i, names[i as usize].as_slice())?;
    }
    Ok(())
}

/// The entities of the shard of this number, which has these names.
pub(crate) fn push_shard<R: ReportRows, T: Lists>(
    out: &mut R,
    alloc: Global,
    charter: &Charter,
    stores: &T,
    i: u8,
    names: &[EntityName],
) -> Result<(), AllocError>
    requires shard { i < charter.now.config.shards }
    requires names { names.now ≡ names_of (setting charter.now) i }
    requires sorted { IsStrictlySortedBy (slice_cmp nat_cmp) names.now }
    requires foldable { IsTrue (is_foldable_shard (setting charter.now) (T.lists stores.now) i) }
    ensures { OnOk result (R.parts out.new ≡ R.parts out.old ++ shard_rows R.entity_parts (setting charter.now) i (shard_list (T.lists stores.now) i)) }
{
    match ShardNo::new(i, charter.config().shards) {
        Some(s) => push_shard_list(out, alloc, charter, s, names, stores.shard(s)),
        None => unreachable!(),
    }
}

/// The entities of a shard that has these names and this list.
fn push_shard_list<R: ReportRows>(
    out: &mut R,
    alloc: Global,
    charter: &Charter,
    s: ShardNo,
    names: &[EntityName],
    list: &[ShardEntry],
) -> Result<(), AllocError>
    requires names { names.now ≡ names_of (setting charter.now) s }
    requires sorted { IsStrictlySortedBy (slice_cmp nat_cmp) names.now }
    requires foldable { IsTrue (list_all (is_foldable charter.now.config.kind (map (shard_fact s) list.now)) names.now) }
    ensures { OnOk result (R.parts out.new ≡ R.parts out.old ++ shard_rows R.entity_parts (setting charter.now) s (map (shard_fact s) list.now)) }
{
    let index = NameIndex::of_names(alloc, names)?;
    let journals = journals_of_list(alloc, &index, list)?;
    push_journals(out, charter, s, names, journals.as_slice())
}

/// These journals of a shard, each at the place of its name.
fn push_journals<R: ReportRows>(
    out: &mut R,
    charter: &Charter,
    s: ShardNo,
    names: &[EntityName],
    journals: &[Vec<&Record>],
) -> Result<(), AllocError>
    requires places { length journals.now ≡ length names.now }
    requires shard { (k : ℕ) → k < length names.now → shard_of (setting charter.now) (slice_index_or names.now k []) ≡ s }
    requires foldable { (k : ℕ) → k < length names.now → IsTrue (are_foldable (empty_state charter.now.config.kind) (slice_index_or (map lent_all journals.now) k [])) }
    ensures { OnOk result (R.parts out.new ≡ R.parts out.old ++ rows (R.entity_parts (setting charter.now)) names.now (map lent_all journals.now)) }
{
    for i in 0..names.len() {
        out.push_entity(charter, s, &names[i], journals[i].as_slice())?;
    }
    Ok(())
}
