//! The report of stores, written in pieces: the journal of each entity and the counts of each pair are at hand in
//! them, so no memory is wanted. The only error is a failed write, and nothing is flushed.
ghost use Rattle.std.specs.Prelude.{◌≡◌, ℕ, ◌+◌, ◌<◌, ◌≤◌, ◌∷◌, [], IsTrue, Some, codes, decimal, drop, length, map, slice_index_or, take};
ghost use Rattle.std.specs.List.{flat_map};
ghost use Rattle.yard_model.specs.Behaviour.{empty_state, folded};
ghost use Rattle.yard_model.specs.Lawful.{is_of_shard};
ghost use Rattle.yard_model.specs.Script.{Script, names_in, setting};
ghost use Rattle.yard_model.specs.Setting.{names_of, producers, shard_of, shards};
ghost use Rattle.yard_model.specs.SlotReads.{journal};
ghost use Rattle.yard_model.specs.Text.{entity_lines, line, record_words, report, state_text};
ghost use Rattle.shard_store.specs.Shelved.{IsThere};
ghost use Rattle.shard_store.specs.declared.store.Store.TheVariants as store;
ghost use Rattle.shard_store.specs.Stores.{AreHomes, lists_at};
ghost use Rattle.trace_text.specs.Foldable.{are_foldable, is_foldable, is_foldable_in_all, is_foldable_shard};
ghost use Rattle.trace_text.specs.Parts.{queue_part, shard_part};
ghost use Rattle.trace_text.specs.Rows.{queue_rows, tally_text};
ghost use Rattle.yard_model.specs.Words.{at};
ghost use Rattle.live_run.specs.Owned.{AreOwned};
ghost use Rattle.live_run.specs.Written.{Puts};

use crate::writing::write_piece;
use durable_queue::QueueStore;
use shard_store::{ShardStore, Store};
use trace_text::{CELLS, Piece, RECORD_CELLS, apply_events, put_entity, put_pair, put_record_line};
use yard_io::{Failed, Sink};
use yard_model::{Charter, EntityName, Kind, ProducerNo, ShardNo, State};

/// Writes the report of the stores at these places. These are the names of each shard.
pub(crate) fn write_report<K: Sink>(
    charter: &Charter,
    names: &[Vec<EntityName>],
    places: &[Option<Store>],
    sink: &mut K,
) -> Result<(), Failed>
    requires homes { AreHomes charter.now places.now }
    requires names { AreOwned charter.now (map (λ v. v.items) names.now) }
    requires foldable { IsTrue (is_foldable_in_all (setting charter.now) (lists_at charter.now.config places.now)) }
    ensures { Puts (report (setting charter.now) (lists_at charter.now.config places.now)) result
        (record { taken = K.taken sink.old; flushed = K.flushed sink.old; faults = K.faults sink.old })
        (record { taken = K.taken sink.new; flushed = K.flushed sink.new; faults = K.faults sink.new }) }
{
    write_piece(sink, b"report\n")?;
    write_entities(charter, names, places, sink)?;
    write_pairs(charter, places, sink)?;
    write_piece(sink, b"end\n")
}

/// The entities of all shards.
fn write_entities<K: Sink>(
    charter: &Charter,
    names: &[Vec<EntityName>],
    places: &[Option<Store>],
    sink: &mut K,
) -> Result<(), Failed>
    requires homes { AreHomes charter.now places.now }
    requires names { AreOwned charter.now (map (λ v. v.items) names.now) }
    requires foldable { IsTrue (is_foldable_in_all (setting charter.now) (lists_at charter.now.config places.now)) }
    ensures { Puts (flat_map (shard_part (setting charter.now) (lists_at charter.now.config places.now)) (shards (setting charter.now))) result
        (record { taken = K.taken sink.old; flushed = K.flushed sink.old; faults = K.faults sink.old })
        (record { taken = K.taken sink.new; flushed = K.flushed sink.new; faults = K.faults sink.new }) }
{
    for i in 0..charter.config().shards {
        write_shard_entities(charter, names[i as usize].as_slice(), places, i, sink)?;
    }
    Ok(())
}

/// The entities of the shard of this number, which has these names.
fn write_shard_entities<K: Sink>(
    charter: &Charter,
    names: &[EntityName],
    places: &[Option<Store>],
    i: u8,
    sink: &mut K,
) -> Result<(), Failed>
    requires homes { AreHomes charter.now places.now }
    requires shard { i < charter.now.config.shards }
    requires names { names.now ≡ names_of (setting charter.now) i }
    requires foldable { IsTrue (is_foldable_shard (setting charter.now) (lists_at charter.now.config places.now) i) }
    ensures { Puts (shard_part (setting charter.now) (lists_at charter.now.config places.now) i) result
        (record { taken = K.taken sink.old; flushed = K.flushed sink.old; faults = K.faults sink.old })
        (record { taken = K.taken sink.new; flushed = K.flushed sink.new; faults = K.faults sink.new }) }
{
    match ShardNo::new(i, charter.config().shards) {
        Some(s) => write_each_entity(charter, s, names, shard_at(places, s), sink),
        None => unreachable!(),
    }
}

/// The store of a shard.
fn shard_at(places: &[Option<Store>], s: ShardNo) -> &ShardStore
    requires { (c : Script) × AreHomes c places.now × (s < c.config.shards) }
    ensures { at places.now s ≡ Some (store.Shard result.now) }
{
    match &places[s.get() as usize] {
        Some(Store::Shard(store)) => store,
        _ => unreachable!(),
    }
}

/// The entities of these names, which are of the shard of this store.
fn write_each_entity<K: Sink>(
    charter: &Charter,
    s: ShardNo,
    names: &[EntityName],
    store: &ShardStore,
    sink: &mut K,
) -> Result<(), Failed>
    requires script { store.now.script ≡ charter.now }
    requires shard { store.now.shard ≡ s }
    requires own { (k : ℕ) → k < length names.now → IsTrue (is_of_shard charter.now s (slice_index_or names.now k [])) }
    requires foldable { (k : ℕ) → k < length names.now → IsTrue (is_foldable charter.now.config.kind store.now.entries (slice_index_or names.now k [])) }
    ensures { Puts (flat_map (λ e. entity_lines (setting charter.now) e (journal e store.now.entries)) names.now) result
        (record { taken = K.taken sink.old; flushed = K.flushed sink.old; faults = K.faults sink.old })
        (record { taken = K.taken sink.new; flushed = K.flushed sink.new; faults = K.faults sink.new }) }
{
    for i in 0..names.len() {
        write_kept_entity(charter, s, &names[i], store, sink)?;
    }
    Ok(())
}

/// The entity of this name, whose records the store has at hand; nothing where it has none.
fn write_kept_entity<K: Sink>(
    charter: &Charter,
    s: ShardNo,
    name: &EntityName,
    store: &ShardStore,
    sink: &mut K,
) -> Result<(), Failed>
    requires script { store.now.script ≡ charter.now }
    requires shard { store.now.shard ≡ s }
    requires own { IsTrue (is_of_shard charter.now s name.now) }
    requires foldable { IsTrue (is_foldable charter.now.config.kind store.now.entries name.now) }
    ensures { Puts (entity_lines (setting charter.now) name.now (journal name.now store.now.entries)) result
        (record { taken = K.taken sink.old; flushed = K.flushed sink.old; faults = K.faults sink.old })
        (record { taken = K.taken sink.new; flushed = K.flushed sink.new; faults = K.faults sink.new }) }
{
    write_entity(charter, s, name, store, store.place(name), sink)
}

/// The same, of the name at this place.
fn write_entity<K: Sink>(
    charter: &Charter,
    s: ShardNo,
    name: &EntityName,
    store: &ShardStore,
    place: usize,
    sink: &mut K,
) -> Result<(), Failed>
    requires shard { shard_of (setting charter.now) name.now ≡ s }
    requires place { IsThere store.now place name.now }
    requires foldable { IsTrue (are_foldable (empty_state charter.now.config.kind) (journal name.now store.now.entries)) }
    ensures { Puts (entity_lines (setting charter.now) name.now (journal name.now store.now.entries)) result
        (record { taken = K.taken sink.old; flushed = K.flushed sink.old; faults = K.faults sink.old })
        (record { taken = K.taken sink.new; flushed = K.flushed sink.new; faults = K.faults sink.new }) }
{
    let count = store.journal_at(place, name).len();
    if count == 0 {
        return Ok(());
    }
    let state = state_of(charter.config().kind, store, place, name, count);
    write_entity_head(s, name, count, &state, sink)?;
    write_records(store, place, name, count, sink)
}

/// The state that the records of an entity lead to, of which there are so many.
fn state_of(kind: Kind, store: &ShardStore, place: usize, name: &EntityName, count: u32) -> State
    requires place { IsThere store.now place name.now }
    requires count { count ≡ length (journal name.now store.now.entries) }
    requires foldable { IsTrue (are_foldable (empty_state kind) (journal name.now store.now.entries)) }
    ensures { result ≡ folded kind (journal name.now store.now.entries) }
{
    let mut state = State::empty(kind);
    for k in 0..count {
        let written = store.record_at(place, name, k);
        apply_events(&mut state, written.events.as_slice());
    }
    state
}

fn write_entity_head<K: Sink>(
    s: ShardNo,
    name: &EntityName,
    count: u32,
    state: &State,
    sink: &mut K,
) -> Result<(), Failed>
    ensures { Puts (line (codes "entity" ∷ name.now ∷ codes "shard" ∷ decimal s ∷ codes "records" ∷ decimal count ∷ codes "state" ∷ state_text state.now ∷ [])) result
        (record { taken = K.taken sink.old; flushed = K.flushed sink.old; faults = K.faults sink.old })
        (record { taken = K.taken sink.new; flushed = K.flushed sink.new; faults = K.faults sink.new }) }
{
    let mut cells = [0; CELLS];
    let end = put_entity(&mut cells, s, name, count, state);
    write_piece(sink, &cells[..end])
}

/// The records of an entity, of which there are so many.
fn write_records<K: Sink>(
    store: &ShardStore,
    place: usize,
    name: &EntityName,
    count: u32,
    sink: &mut K,
) -> Result<(), Failed>
    requires place { IsThere store.now place name.now }
    requires count { count ≡ length (journal name.now store.now.entries) }
    ensures { Puts (flat_map (λ x. line (codes "record" ∷ record_words x)) (journal name.now store.now.entries)) result
        (record { taken = K.taken sink.old; flushed = K.flushed sink.old; faults = K.faults sink.old })
        (record { taken = K.taken sink.new; flushed = K.flushed sink.new; faults = K.faults sink.new }) }
{
    let mut cells = [0; CELLS];
    let mut done = 0;
    for _ in 0..count {
        if done >= count {
            return Ok(());
        }
        let piece = put_records(&mut cells, store, place, name, done, count);
        write_piece(sink, &cells[..piece.end])?;
        done += piece.count as u32;
    }
    Ok(())
}

/// Spells the lines of the records of an entity but the first `from`, as many as there is room for;
/// there are `count` records in all.
fn put_records(
    cells: &mut [u8],
    store: &ShardStore,
    place: usize,
    name: &EntityName,
    from: u32,
    count: u32,
) -> Piece
    requires room { 2048 ≤ length cells.old }
    requires place { IsThere store.now place name.now }
    requires count { count ≡ length (journal name.now store.now.entries) }
    requires from { from ≤ count }
    ensures items { take result.end cells.new ≡ flat_map (λ x. line (codes "record" ∷ record_words x)) (take result.count (drop from (journal name.now store.now.entries))) }
    ensures end { result.end ≤ length cells.new }
    ensures count { from + result.count ≤ count }
    ensures some { from < count → 0 < result.count }
{
    let mut end = 0;
    for i in 0..count - from {
        if cells.len() - end < RECORD_CELLS {
            return Piece {
                count: i as usize,
                end,
            };
        }
        let written = store.record_at(place, name, from + i);
        end = put_record_line(cells, end, written);
    }
    Piece {
        count: (count - from) as usize,
        end,
    }
}

/// The pairs of all queues.
fn write_pairs<K: Sink>(
    charter: &Charter,
    places: &[Option<Store>],
    sink: &mut K,
) -> Result<(), Failed>
    requires { AreHomes charter.now places.now }
    ensures { Puts (flat_map (queue_part (setting charter.now) (lists_at charter.now.config places.now)) (producers (setting charter.now))) result
        (record { taken = K.taken sink.old; flushed = K.flushed sink.old; faults = K.faults sink.old })
        (record { taken = K.taken sink.new; flushed = K.flushed sink.new; faults = K.faults sink.new }) }
{
    for i in 0..charter.config().producers {
        write_queue_pairs(charter, places, i + 1, sink)?;
    }
    Ok(())
}

/// The pairs of the queue of this number.
fn write_queue_pairs<K: Sink>(
    charter: &Charter,
    places: &[Option<Store>],
    i: u8,
    sink: &mut K,
) -> Result<(), Failed>
    requires homes { AreHomes charter.now places.now }
    requires low { 0 < i }
    requires high { i ≤ charter.now.config.producers }
    ensures { Puts (queue_part (setting charter.now) (lists_at charter.now.config places.now) i) result
        (record { taken = K.taken sink.old; flushed = K.flushed sink.old; faults = K.faults sink.old })
        (record { taken = K.taken sink.new; flushed = K.flushed sink.new; faults = K.faults sink.new }) }
{
    let shards = charter.config().shards;
    match ProducerNo::new(i) {
        Some(p) => write_each_pair(p, charter.names(), queue_at(places, shards, p), sink),
        None => unreachable!(),
    }
}

/// The store of a queue.
fn queue_at(places: &[Option<Store>], shards: u8, p: ProducerNo) -> &QueueStore
    requires { (c : Script) × AreHomes c places.now × (shards ≡ c.config.shards) × (p ≤ c.config.producers) }
    ensures { at places.now (shards + p) ≡ Some (store.Queue result.now) }
{
    match &places[shards as usize + p.get() as usize] {
        Some(Store::Queue(store)) => store,
        _ => unreachable!(),
    }
}

/// The pairs of a queue with each of these names, which are the script's.
fn write_each_pair<K: Sink>(
    p: ProducerNo,
    names: &[EntityName],
    store: &QueueStore,
    sink: &mut K,
) -> Result<(), Failed>
    requires { names.now ≡ names_in store.now.script.orders }
    ensures { Puts (queue_rows tally_text p store.now.entries names.now) result
        (record { taken = K.taken sink.old; flushed = K.flushed sink.old; faults = K.faults sink.old })
        (record { taken = K.taken sink.new; flushed = K.flushed sink.new; faults = K.faults sink.new }) }
{
    for i in 0..names.len() {
        write_pair(
            p,
            &names[i],
            store.queued_at(i),
            store.confirmed_at(i),
            sink,
        )?;
    }
    Ok(())
}

/// A pair with these counts; nothing where no command is queued.
fn write_pair<K: Sink>(
    p: ProducerNo,
    name: &EntityName,
    queued: u32,
    confirmed: u32,
    sink: &mut K,
) -> Result<(), Failed>
    ensures { Puts (tally_text p name.now (record { queued = queued; confirmed = confirmed })) result
        (record { taken = K.taken sink.old; flushed = K.flushed sink.old; faults = K.faults sink.old })
        (record { taken = K.taken sink.new; flushed = K.flushed sink.new; faults = K.faults sink.new }) }
{
    let mut cells = [0; CELLS];
    let end = put_pair(&mut cells, p, name, queued, confirmed);
    write_piece(sink, &cells[..end])
}
