//! Entries of a shard's list that wrote a record.
ghost use Rattle.std.specs.Prelude.{◌≡◌, true};
ghost use Rattle.shard_store.specs.Written.{is_wrote, is_record_of, wrote_in};

use yard_model::{EntityName, Record, ShardEntry};

/// The record that this entry wrote, which did write one.
pub(crate) fn record_in(entry: &ShardEntry) -> &Record
    requires { is_wrote entry.now ≡ true }
    ensures { result.now ≡ wrote_in entry.now result.now }
{
    match entry {
        ShardEntry::Wrote(_, written) => written,
        _ => unreachable!(),
    }
}

/// Whether this entry wrote a record of that name.
pub(crate) fn has_record_of(entry: &ShardEntry, name: &EntityName) -> bool
    ensures { result ≡ is_record_of name.now entry.now }
{
    match entry {
        ShardEntry::Wrote(other, _) => *other == *name,
        _ => false,
    }
}
