//! The journals of a shard, each by the place of its name.
ghost use Rattle.std.specs.Prelude.{◌≡◌, ℕ, ◌++◌, ◌∷◌, ◌<◌, [], List, OnOk, IfOk, IfSome, IfNone, length, map, replicate, slice_set, slice_index_or};
ghost use Rattle.std.specs.List.{HoldsAt};
ghost use Rattle.std.specs.List.Sorted.{IsStrictlySortedBy};
ghost use Rattle.std.specs.Ordering.{nat_cmp};
ghost use Rattle.std.specs.Cmp.Lexicographic.{slice_cmp};
ghost use Rattle.yard_model.specs.declared.fact.Fact.{Fact};
ghost use Rattle.yard_model.specs.Entry.{shard_fact};
ghost use Rattle.trace_text.specs.Places.{journals_of, lent_all};

use name_index::NameIndex;
use std::alloc::{AllocError, Global};
use yard_model::{EntityName, Record, ShardEntry};

/// The journals of these names, each at the place of its name.
pub(crate) fn journals_of_list<'l>(
    alloc: Global,
    names: &NameIndex,
    list: &'l [ShardEntry],
) -> Result<Vec<Vec<&'l Record>>, AllocError>
    ensures { IfOk result (λ all. (s : ℕ) → map lent_all all.items ≡ journals_of names.now (map (shard_fact s) list.now)) }
{
    let mut journals = no_journals(alloc, names.as_slice())?;
    for entry in list {
        add_entry(&mut journals, names, entry)?;
    }
    Ok(journals)
}

/// Of each name a journal without a record.
fn no_journals<'l>(alloc: Global, names: &[EntityName]) -> Result<Vec<Vec<&'l Record>>, AllocError>
    ensures { IfOk result (λ all. map lent_all all.items ≡ journals_of names.now []) }
{
    let mut journals = Vec::with_capacity(alloc, names.len())?;
    for _ in names {
        journals.push(Vec::new(alloc))?;
    }
    Ok(journals)
}

/// Where the entry is a record, it is the last of its name's journal from now on.
fn add_entry<'l>(
    journals: &mut Vec<Vec<&'l Record>>,
    names: &NameIndex,
    entry: &'l ShardEntry,
) -> Result<(), AllocError>
    requires sorted { IsStrictlySortedBy (slice_cmp nat_cmp) names.now }
    requires length { length journals.old.items ≡ length names.now }
    ensures length { OnOk result (length journals.new.items ≡ length names.now) }
    ensures journals { OnOk result ((s : ℕ) (list : List Fact) → map lent_all journals.old.items ≡ journals_of names.now list → map lent_all journals.new.items ≡ journals_of names.now (list ++ shard_fact s entry.now ∷ [])) }
{
    if let ShardEntry::Wrote(name, written) = entry {
        if let Some(place) = names.find(name) {
            add_record(journals, place, written)?;
        }
    }
    Ok(())
}

/// One record more in the journal at this place.
fn add_record<'l>(
    journals: &mut Vec<Vec<&'l Record>>,
    place: usize,
    written: &'l Record,
) -> Result<(), AllocError>
    requires { place < length journals.old.items }
    ensures length { OnOk result (length journals.new.items ≡ length journals.old.items) }
    ensures journals { OnOk result (map lent_all journals.new.items ≡ slice_set (map lent_all journals.old.items) place (slice_index_or (map lent_all journals.old.items) place [] ++ written.now ∷ [])) }
{
    journals[place].push(written)?;
    Ok(())
}
