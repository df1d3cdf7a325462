//! The making of a pool: its slots are placed, then their shards are made, and the map last.
ghost use Rattle.std.specs.Prelude.{◌≡◌, ◌⊎◌, ◌≤◌, ◌<◌, ℕ, List, Some, Err, OnOk};
ghost use Rattle.slot_journal.specs.Limits.{make_reads, make_syncs};
ghost use Rattle.shard_store.specs.Limits.{store_bytes};
ghost use Rattle.rig_disk.specs.Disk.{Image};
ghost use Rattle.rig_disk.specs.During.{During};
ghost use Rattle.ec_code.specs.Refusals.{IsAccepted, IsCodeOf};
ghost use Rattle.plugin_reg.specs.Canonical.{IsWritable};
ghost use Rattle.slot_journal.specs.InUse.{text_in_use};
ghost use Rattle.pool_map.specs.Calls.{MayBeMade};
ghost use Rattle.pool_map.specs.Maps.{IsNoPool};
ghost use Rattle.pool_moves.specs.Contents.{layout_of};
ghost use Rattle.pool_moves.specs.Creating.{HasNoneOrFirst, IsCreated};
ghost use Rattle.pool_moves.specs.Making.{ArePlaced, AreMade, AllAreTold, HaveNoPool};
ghost use Rattle.pool_making.specs.Faults.{HasMakeCause, ExistsExactly, HasSome, LeavesNoPool};
ghost use Rattle.pool_making.specs.Frames.{Costs, CostsOfPool, IsOfPool, KeepsOutside, SpendsBelow};

use crate::fault::MakeFault;
use ec_code::{Code, Profile, Shape};
use ec_words::Geometry;
use pool_map::{MAP_SLOT, MapFault, PoolMap};
use rig_disk::Rig;
use shard_store::{Store, StoreFault};
use std::alloc::Global;

/// Places the slots below n.
fn place_slots<R: Rig>(rig: &mut R, n: u8) -> Result<(), MakeFault>
    requires few { n ≤ 16 }
    ensures placed { OnOk result (ArePlaced R.is_here R.reads R.clock R.images R.faults rig.old rig.new n) }
    ensures cause { HasMakeCause n (R.faults rig.old) (R.faults rig.new) result }
    ensures kept { KeepsOutside (λ s. s < n) R.is_here R.reads R.said R.syncs R.bytes_written R.bytes_read rig.old rig.new }
    ensures costs { SpendsBelow R.syncs R.bytes_written R.bytes_read n 0 0 0 rig.old rig.new }
    ensures other { (result ≡ Err MakeFault.MapFailed → ⊥) × (result ≡ Err MakeFault.Exists → ⊥) }
    ensures any_moment { During R.clock R.images rig.old rig.new (λ image said. R.images rig.old (R.clock rig.old) image said) }
{
    for p in 0..n {
        match rig.place(p) {
            Ok(()) => {}
            Err(_) => return Err(MakeFault::SlotFailed { slot: p }),
        }
    }
    Ok(())
}

/// Places the map's slot, and if there is no pool the n others.
fn place_all<R: Rig>(rig: &mut R, n: u8) -> Result<(), MakeFault>
    requires few { n ≤ 16 }
    ensures placed { OnOk result (ArePlaced R.is_here R.reads R.clock R.images R.faults rig.old rig.new n) }
    ensures here { OnOk result (R.is_here rig.new 16) }
    ensures exists { ExistsExactly (R.reads rig.old 16) result }
    ensures cause { HasMakeCause n (R.faults rig.old) (R.faults rig.new) result }
    ensures kept { KeepsOutside (IsOfPool n) R.is_here R.reads R.said R.syncs R.bytes_written R.bytes_read rig.old rig.new }
    ensures costs { Costs R.syncs R.bytes_written R.bytes_read n 0 0 0 1 0 rig.old rig.new }
    ensures any_moment { During R.clock R.images rig.old rig.new (λ image said. R.images rig.old (R.clock rig.old) image said) }
{
    match rig.place(MAP_SLOT) {
        Ok(()) => {}
        Err(_) => return Err(MakeFault::MapFailed),
    }
    match PoolMap::there(rig) {
        Ok(false) => {}
        Ok(true) => return Err(MakeFault::Exists),
        Err(_) => return Err(MakeFault::MapFailed),
    }
    place_slots(rig, n)
}

/// Makes a shard without entries in each slot below n. Each has started epoch 1.
fn make_shards<R: Rig>(alloc: Global, rig: &mut R, g: Geometry, n: u8) -> Result<(), MakeFault>
    requires few { n ≤ 16 }
    requires here { (q : ℕ) → q < n → R.is_here rig.old q }
    ensures made { OnOk result (AreMade (record { geometry = record { k = g.k; unit = g.unit }; n = n })
        R.is_here R.reads R.clock R.images R.faults rig.old rig.new n) }
    ensures cause { HasMakeCause n (R.faults rig.old) (R.faults rig.new) result }
    ensures kept { KeepsOutside (λ s. s < n) R.is_here R.reads R.said R.syncs R.bytes_written R.bytes_read rig.old rig.new }
    ensures costs { SpendsBelow R.syncs R.bytes_written R.bytes_read n make_syncs store_bytes make_reads rig.old rig.new }
    ensures other { (result ≡ Err MakeFault.MapFailed → ⊥) × (result ≡ Err MakeFault.Exists → ⊥) }
    ensures any_moment { HaveNoPool (R.images rig.old (R.clock rig.old))
        → During R.clock R.images rig.old rig.new (λ image said. IsNoPool (text_in_use 16 (image 16))) }
{
    for p in 0..n {
        match Store::make(alloc, rig, p, g, n, false) {
            Ok(_) => {}
            Err(StoreFault::Failed) => return Err(MakeFault::SlotFailed { slot: p }),
            Err(_) => return Err(MakeFault::NoMemory),
        }
    }
    Ok(())
}

/// Why the map is not made.
fn fault_of(fault: MapFault) -> MakeFault
    requires { (fault ≡ MapFault.Failed) ⊎ (fault ≡ MapFault.NoMemory) }
    ensures { ((fault ≡ MapFault.Failed) × (result ≡ MakeFault.MapFailed)) ⊎ ((fault ≡ MapFault.NoMemory) × (result ≡ MakeFault.NoMemory)) }
{
    if fault == MapFault::Failed {
        MakeFault::MapFailed
    } else {
        MakeFault::NoMemory
    }
}

/// Makes the shards, and the map last.
fn fill_all<R: Rig>(
    alloc: Global,
    rig: &mut R,
    profile: &Profile,
    shape: Shape,
    g: Geometry,
) -> Result<(), MakeFault>
    requires few { shape.n ≤ 16 }
    requires here { (q : ℕ) → q < shape.n → R.is_here rig.old q }
    requires map_here { R.is_here rig.old 16 }
    requires profile { MayBeMade profile.now shape.k shape.n shape.lead }
    ensures made { OnOk result (AllAreTold (R.reads rig.old)
        → (image : Image) (said : List ℕ) → R.images rig.new (R.clock rig.new) image said
        → IsCreated (record { geometry = record { k = g.k; unit = g.unit }; n = shape.n }) profile.now shape.k image) }
    ensures cause { HasMakeCause shape.n (R.faults rig.old) (R.faults rig.new) result }
    ensures kept { KeepsOutside (IsOfPool shape.n) R.is_here R.reads R.said R.syncs R.bytes_written R.bytes_read rig.old rig.new }
    ensures costs { Costs R.syncs R.bytes_written R.bytes_read shape.n make_syncs store_bytes make_reads make_syncs 4062 rig.old rig.new }
    ensures refused { LeavesNoPool (R.images rig.old (R.clock rig.old)) (R.images rig.new (R.clock rig.new)) result }
    ensures other { result ≡ Err MakeFault.Exists → ⊥ }
    ensures any_moment { AllAreTold (R.reads rig.old)
        → HaveNoPool (R.images rig.old (R.clock rig.old))
        → During R.clock R.images rig.old rig.new (λ image said.
        HasNoneOrFirst (record { geometry = record { k = g.k; unit = g.unit }; n = shape.n }) profile.now shape.k image) }
{
    match make_shards(alloc, rig, g, shape.n) {
        Ok(()) => {}
        Err(fault) => return Err(fault),
    }
    match PoolMap::make(alloc, rig, profile, shape) {
        Ok(_) => {}
        Err(fault) => return Err(fault_of(fault)),
    }
    Ok(())
}

/// Places the slots if there is no pool, and fills them.
fn make_slots<R: Rig>(
    alloc: Global,
    rig: &mut R,
    profile: &Profile,
    shape: Shape,
    g: Geometry,
) -> Result<(), MakeFault>
    requires few { shape.n ≤ 16 }
    requires profile { MayBeMade profile.now shape.k shape.n shape.lead }
    ensures made { OnOk result (AllAreTold (R.reads rig.old)
        → (image : Image) (said : List ℕ) → R.images rig.new (R.clock rig.new) image said
        → IsCreated (record { geometry = record { k = g.k; unit = g.unit }; n = shape.n }) profile.now shape.k image) }
    ensures exists { ExistsExactly (R.reads rig.old 16) result }
    ensures cause { HasMakeCause shape.n (R.faults rig.old) (R.faults rig.new) result }
    ensures kept { KeepsOutside (IsOfPool shape.n) R.is_here R.reads R.said R.syncs R.bytes_written R.bytes_read rig.old rig.new }
    ensures costs { CostsOfPool R.syncs R.bytes_written R.bytes_read shape.n rig.old rig.new }
    ensures refused { LeavesNoPool (R.images rig.old (R.clock rig.old)) (R.images rig.new (R.clock rig.new)) result }
    ensures untouched { HasSome (R.reads rig.old 16)
        → During R.clock R.images rig.old rig.new (λ image said. R.images rig.old (R.clock rig.old) image said) }
    ensures any_moment { AllAreTold (R.reads rig.old)
        → HaveNoPool (R.images rig.old (R.clock rig.old))
        → During R.clock R.images rig.old rig.new (λ image said.
        HasNoneOrFirst (record { geometry = record { k = g.k; unit = g.unit }; n = shape.n }) profile.now shape.k image) }
{
    match place_all(rig, shape.n) {
        Ok(()) => {}
        Err(fault) => return Err(fault),
    }
    fill_all(alloc, rig, profile, shape, g)
}

/// How the shards of a new pool lie, by its profile and its code's shape.
fn geometry_of(profile: &Profile, shape: Shape) -> Geometry
    requires accepted { IsAccepted profile.now }
    requires some { 1 ≤ shape.k }
    ensures k { result.k ≡ shape.k }
    ensures unit { result.unit ≡ profile.now.stripe_unit }
{
    Geometry {
        k: shape.k,
        unit: profile.stripe_unit,
    }
}

/// Makes a pool with a profile and its code, if there is none: the slots of its n positions and that of the map are placed, and
/// then filled. A crash at any instant leaves no pool, or the new one whole; after `Ok` it leaves the new one.
pub fn make_pool<R: Rig>(
    alloc: Global,
    rig: &mut R,
    code: &dyn Code,
    profile: &Profile,
) -> Result<(), MakeFault>
    requires code { IsCodeOf profile.now (meaning code.now) }
    requires accepted { IsAccepted profile.now }
    requires writable { IsWritable profile.now }
    ensures made { OnOk result (AllAreTold (R.reads rig.old)
        → (image : Image) (said : List ℕ) → R.images rig.new (R.clock rig.new) image said
        → IsCreated (layout_of profile.now (meaning code.now)) profile.now (meaning code.now).k image) }
    ensures exists { ExistsExactly (R.reads rig.old 16) result }
    ensures cause { HasMakeCause (meaning code.now).n (R.faults rig.old) (R.faults rig.new) result }
    ensures kept { KeepsOutside (IsOfPool (meaning code.now).n) R.is_here R.reads R.said R.syncs R.bytes_written R.bytes_read rig.old rig.new }
    ensures costs { CostsOfPool R.syncs R.bytes_written R.bytes_read (meaning code.now).n rig.old rig.new }
    ensures refused { LeavesNoPool (R.images rig.old (R.clock rig.old)) (R.images rig.new (R.clock rig.new)) result }
    ensures untouched { HasSome (R.reads rig.old 16)
        → During R.clock R.images rig.old rig.new (λ image said. R.images rig.old (R.clock rig.old) image said) }
    ensures any_moment { AllAreTold (R.reads rig.old) → HaveNoPool (R.images rig.old (R.clock rig.old))
        → During R.clock R.images rig.old rig.new (λ image said.
        HasNoneOrFirst (layout_of profile.now (meaning code.now)) profile.now (meaning code.now).k image) }
{
    let shape = code.shape();
    let g = geometry_of(profile, shape);
    make_slots(alloc, rig, profile, shape, g)
}
