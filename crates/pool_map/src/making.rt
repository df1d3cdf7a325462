//! The map of a new pool.
ghost use Rattle.std.specs.Prelude.{◌≡◌, ◌⊎◌, ◌≤◌, ◌∷◌, [], ℕ, List, Some, IfOk, IfErr, Err};
ghost use Rattle.rig_disk.specs.During.{During};
ghost use Rattle.slot_journal.specs.Journal.{InSlot};
ghost use Rattle.slot_journal.specs.Limits.{make_syncs, make_reads};
ghost use Rattle.slot_journal.specs.Working.{WorksOnJournal};
ghost use Rattle.pool_map.specs.Calls.{MayBeMade, IsMade};
ghost use Rattle.pool_map.specs.Faults.{HasMapCause};
ghost use Rattle.pool_map.specs.Pool.{MakesMap};

use crate::MapFault;
use crate::first::{all_of, first_body};
use crate::limits::MAP_SLOT;
use crate::map::PoolMap;
use crate::state::State;
use crate::text::{Numbers, map_head};
use ec_code::{Profile, Shape};
use ec_words::{Interval, Intervals, Mask, NoMemory, Version};
use rig_disk::Rig;
use slot_journal::Journal;
use std::alloc::Global;

/// The intervals of a new pool: the first one, in which all slots are up and joined.
fn first_intervals(alloc: Global, all: Mask) -> Result<Intervals, NoMemory>
    ensures { IfOk result (λ intervals. intervals ≡ record {
      epoch = 1;
      up = all.0;
      alive = Some (all.0, record { epoch = 0; seq = 0 });
    } ∷ []) }
{
    let mut intervals = Intervals::new(alloc);
    intervals.push(Interval {
        epoch: 1,
        up: all,
        alive: Some((all, Version { epoch: 0, seq: 0 })),
    })?;
    Ok(intervals)
}

impl PoolMap {
    /// Makes the map of a new pool with an accepted profile and its code's shape, in the place of what the slot holds: interval 1 is
    /// alive, and all slots are up in it and joined. A crash at any instant leaves in use the text of before, no text, or the new map's.
    pub fn make<R: Rig>(
        alloc: Global,
        rig: &mut R,
        profile: &Profile,
        shape: Shape,
    ) -> Result<PoolMap, MapFault>
        requires here { R.is_here rig.old 16 }
        requires profile { MayBeMade profile.now shape.k shape.n shape.lead }

        ensures made { IfOk result (IsMade R.reads R.clock R.images profile.now shape.k shape.n rig.old rig.new) }
        ensures faults { IfErr result (λ fault. (fault ≡ MapFault.Failed) ⊎ (fault ≡ MapFault.NoMemory)) }
        ensures refused { result ≡ Err MapFault.NoMemory → rig.new ≡ rig.old }
        ensures only_if_fault { HasMapCause (R.faults rig.old 16) (R.faults rig.new 16) result }
        ensures any_moment { During R.clock R.images rig.old rig.new (InSlot (R.images rig.old (R.clock rig.old)) 16
            (MakesMap (R.reads rig.old 16) profile.now shape.k shape.n)) }
        ensures kept { WorksOnJournal R.is_here R.reads R.said R.faults R.syncs R.bytes_written R.bytes_read
            16 0 make_syncs 4062 make_reads rig.old rig.new }
    {
        let first = first_body(alloc, profile, shape)?;
        let intervals = first_intervals(alloc, all_of(shape.n))?;
        let head = map_head(Numbers {
            k: shape.k,
            n: shape.n,
            unit: first.profile.stripe_unit,
        });
        let journal = Journal::make(rig, MAP_SLOT, &head, first.body.as_slice())?;
        Ok(PoolMap {
            journal,
            profile: first.profile,
            state: State {
                n: shape.n,
                intervals,
                marked: Mask(0),
            },
            began: false,
        })
    }
}
