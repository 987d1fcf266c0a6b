//! What a script sends is carried out behind a log's batches.
ghost use Rattle.std.specs.Prelude.{◌≡◌, ◌≤◌, ℕ, true, [], ◌++◌, Err, IfOk, OnOk, fold, length, if◌then◌else◌};
ghost use Rattle.yard_model.specs.Era.{opening_of};
ghost use Rattle.yard_model.specs.Lawful.{lawful};
ghost use Rattle.yard_model.specs.World.{given_world, number_step, settled_from, wire_limit};
ghost use Rattle.settle_laws.specs.Settles.{most_deliveries};
ghost use Rattle.shard_store.specs.Stores.{lists_at};
ghost use Rattle.log_resume.specs.Restored.{IsForeign, MayGoOn, are_taken, entries, restored};
ghost use Rattle.apply_run.specs.Applying.{lists_behind, told_behind};

use apply_laws::applying::{confirmed_is_done, restored_is_done};
use behaviour_by_kind::ByKind;
use behaviour_core::Behaviour;
use disk_log::Batches;
use log_resume::{Restored, ResumeFault, restore};
use settle_laws::worlds::few_orders_fit;
use shard_store::Stores;
use std::alloc::{AllocError, Global};
use trace_notes::{Notes, Told};
use world_sim::{World, greatest_number};
use yard_model::{Charter, Fact, Facts};

/// Carries out what the script, which has at most 20,000 orders, sends and the batches don't have recorded and confirmed:
/// what they leave held is freed, all starts anew on node 1, and settles. Tells all that happens; nothing, where nothing
/// is left to do. Gives the stores then, of which no slot is held.
///
/// `Foreign` comes exactly where an entry isn't one that may stand behind those before it; else the only error is want
/// of memory, and then a beginning of what happens was told.
pub fn carry_out<N: Notes>(
    alloc: Global,
    charter: &Charter,
    batches: &Batches,
    out: &mut Told<N>,
) -> Result<Stores, ResumeFault>
    requires few { length charter.now.orders ≤ 20000 }
    ensures script { IfOk result (λ stores. stores.script ≡ charter.now) }
    ensures lists { IfOk result (λ stores. lists_at charter.now.config stores.places ≡ lists_behind charter.now batches.now) }
    ensures lawful { IfOk result (λ stores. lawful charter.now (lists_at charter.now.config stores.places) ≡ true) }
    ensures taken { OnOk result (are_taken charter.now (entries batches.now) ≡ true) }
    ensures told { OnOk result (out.new ≡ out.old ++ told_behind charter.now batches.now) }
    ensures foreign { (k : ℕ) → result ≡ Err (ResumeFault.Foreign k) → IsForeign charter.now batches.now k }
{
    charter.config();
    few_orders_fit();
    carry_within(alloc, charter, batches, out)
}

/// The same of any script, where the wire has room for the packets of the settling.
pub fn carry_within<N: Notes>(
    alloc: Global,
    charter: &Charter,
    batches: &Batches,
    out: &mut Told<N>,
) -> Result<Stores, ResumeFault>
    requires { most_deliveries (given_world charter.now 1 (restored charter.now batches.now)) ≤ wire_limit }
    ensures script { IfOk result (λ stores. stores.script ≡ charter.now) }
    ensures lists { IfOk result (λ stores. lists_at charter.now.config stores.places ≡ lists_behind charter.now batches.now) }
    ensures lawful { IfOk result (λ stores. lawful charter.now (lists_at charter.now.config stores.places) ≡ true) }
    ensures taken { OnOk result (are_taken charter.now (entries batches.now) ≡ true) }
    ensures told { OnOk result (out.new ≡ out.old ++ told_behind charter.now batches.now) }
    ensures foreign { (k : ℕ) → result ≡ Err (ResumeFault.Foreign k) → IsForeign charter.now batches.now k }
{
    confirmed_is_done();
    restored_is_done();
    let mut freed = Facts::new(alloc);
    let restored = restore(alloc, charter, batches, &mut freed)?;
    let stores = finish(alloc, charter, restored, freed.as_slice(), out)?;
    Ok(stores)
}

/// Settles what is restored, where something is left to do; these entries free what was held before.
fn finish<N: Notes>(
    alloc: Global,
    charter: &Charter,
    restored: Restored,
    freed: &[Fact],
    out: &mut Told<N>,
) -> Result<Stores, AllocError>
    requires fits { most_deliveries (given_world charter.now 1 (lists_at charter.now.config restored.stores.places)) ≤ wire_limit }
    requires script { restored.stores.script ≡ charter.now }
    requires go_on { MayGoOn charter.now (lists_at charter.now.config restored.stores.places) }
    ensures script { IfOk result (λ stores. stores.script ≡ charter.now) }
    ensures lists { IfOk result (λ stores. lists_at charter.now.config stores.places ≡
        (if restored.is_done then lists_at charter.now.config restored.stores.places
        else (settled_from charter.now 1 (lists_at charter.now.config restored.stores.places)).world.lists)) }
    ensures lawful { IfOk result (λ stores. lawful charter.now (lists_at charter.now.config stores.places) ≡ true) }
    ensures told { OnOk result (out.new ≡ out.old ++
        (if restored.is_done then [] else freed.now ++ (settled_from charter.now 1 (lists_at charter.now.config restored.stores.places)).facts)) }
{
    if restored.is_done {
        return Ok(restored.stores);
    }
    tell_all(freed, out)?;
    settle_anew(alloc, charter, restored.stores, out)
}

/// Tells these facts. The only error is want of memory.
fn tell_all<N: Notes>(facts: &[Fact], out: &mut Told<N>) -> Result<(), AllocError>
    ensures { OnOk result (out.new ≡ out.old ++ facts.now) }
{
    for fact in facts {
        out.push_copy(fact)?;
    }
    Ok(())
}

/// The stores that these settle to; tells all that happens.
fn settle_anew<N: Notes>(
    alloc: Global,
    charter: &Charter,
    stores: Stores,
    out: &mut Told<N>,
) -> Result<Stores, AllocError>
    requires fits { most_deliveries (given_world charter.now 1 (lists_at charter.now.config stores.places)) ≤ wire_limit }
    requires script { stores.script ≡ charter.now }
    requires go_on { MayGoOn charter.now (lists_at charter.now.config stores.places) }
    ensures script { IfOk result (λ s. s.script ≡ charter.now) }
    ensures lists { IfOk result (λ s. lists_at charter.now.config s.places ≡
        (settled_from charter.now 1 (lists_at charter.now.config stores.places)).world.lists) }
    ensures lawful { IfOk result (λ s. lawful charter.now (lists_at charter.now.config s.places) ≡ true) }
    ensures told { OnOk result (out.new ≡ out.old ++ (settled_from charter.now 1 (lists_at charter.now.config stores.places)).facts) }
{
    let own = charter.copy()?;
    let number = greatest_number(&stores, charter.config().shards, charter.config().producers);
    let (last, settled) = carry_on(alloc, own, stores, number, out)?;
    drop(last);
    Ok(settled)
}

/// The stores that these settle to, whose script goes on where it stands, on node 1 past the greatest number of its
/// incarnations in them (`world_sim: greatest_number`); tells all that happens, and gives the charter back. No list is
/// read, and the charter isn't copied. The only error is want of memory: then a beginning of what happens was told, and
/// charter and stores are gone.
pub fn carry_on<N: Notes>(
    alloc: Global,
    charter: Charter,
    stores: Stores,
    number: u32,
    out: &mut Told<N>,
) -> Result<(Charter, Stores), AllocError>
    requires fits { most_deliveries (given_world charter 1 (lists_at charter.config stores.places)) ≤ wire_limit }
    requires script { stores.script ≡ charter }
    requires go_on { MayGoOn charter (lists_at charter.config stores.places) }
    requires number { (v : ℕ) → number ≡ fold number_step 0 (opening_of v (lists_at charter.config stores.places)) }
    ensures charter { IfOk result (λ r. r.0 ≡ charter) }
    ensures script { IfOk result (λ r. r.1.script ≡ charter) }
    ensures lists { IfOk result (λ r. lists_at charter.config r.1.places ≡
        (settled_from charter 1 (lists_at charter.config stores.places)).world.lists) }
    ensures lawful { IfOk result (λ r. lawful charter (lists_at charter.config r.1.places) ≡ true) }
    ensures told { OnOk result (out.new ≡ out.old ++ (settled_from charter 1 (lists_at charter.config stores.places)).facts) }
{
    let behaviour = ByKind::new(charter.config().kind);
    settle(alloc, charter, behaviour, stores, number, out)
}

/// The same, of entities that behave so.
#[tactic(auto, using(crate::proofs::CarryLaws::may_settle))]
fn settle<B: Behaviour + Copy + Drop, N: Notes>(
    alloc: Global,
    charter: Charter,
    behaviour: B,
    stores: Stores,
    number: u32,
    out: &mut Told<N>,
) -> Result<(Charter, Stores), AllocError>
    requires kind { B.kind_of behaviour ≡ charter.config.kind }
    requires version { B.version_of behaviour ≡ 1 }
    requires fits { most_deliveries (given_world charter 1 (lists_at charter.config stores.places)) ≤ wire_limit }
    requires script { stores.script ≡ charter }
    requires go_on { MayGoOn charter (lists_at charter.config stores.places) }
    requires number { (v : ℕ) → number ≡ fold number_step 0 (opening_of v (lists_at charter.config stores.places)) }
    ensures charter { IfOk result (λ r. r.0 ≡ charter) }
    ensures script { IfOk result (λ r. r.1.script ≡ charter) }
    ensures lists { IfOk result (λ r. lists_at charter.config r.1.places ≡
        (settled_from charter 1 (lists_at charter.config stores.places)).world.lists) }
    ensures lawful { IfOk result (λ r. lawful charter (lists_at charter.config r.1.places) ≡ true) }
    ensures told { OnOk result (out.new ≡ out.old ++ (settled_from charter 1 (lists_at charter.config stores.places)).facts) }
{
    let mut world = World::from_given(alloc, charter, behaviour, stores, number)?;
    match world.settle(out) {
        Ok(()) => {
            let (last, settled) = world.into_stores()?;
            Ok((last, settled))
        }
        Err(error) => {
            drop(world);
            Err(error)
        }
    }
}
