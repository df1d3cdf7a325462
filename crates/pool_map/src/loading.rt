//! A pool's map from its slot.
ghost use Rattle.std.specs.Prelude.{◌≡◌, ◌≤◌, ℕ, List, length, Some, IfOk, IfErr, OnOk, Ok, Err, IsTrue, false};
ghost use Rattle.rig_disk.specs.During.{Only};
ghost use Rattle.slot_journal.specs.InUse.{told_text};
ghost use Rattle.slot_journal.specs.Reading.{SyncsAndReadsArea};
ghost use Rattle.plugin_reg.specs.Boxes.{HaveEachPlugin, KeepNames};
ghost use Rattle.pool_map.specs.Boxes.{IsOpened};
ghost use Rattle.pool_map.specs.Calls.{IsLoaded, IsNotLoaded};
ghost use Rattle.pool_map.specs.Faults.{HasMapCause};
ghost use Rattle.pool_map.specs.Maps.{IsNoPool};
ghost use Rattle.pool_map.specs.Pool.{map_of};

use crate::MapFault;
use crate::bodies::read_map;
use crate::front::read_front;
use crate::limits::MAP_SLOT;
use crate::map::PoolMap;
use crate::text::load_text;
use ec_code::Code;
use rig_disk::Rig;
use slot_journal::{HEADER_LEN, texts_have_one_reading};
use std::alloc::Global;

impl PoolMap {
    /// Reads the map from its slot, and makes the first box of its profile's plugin the code of the profile; the box's number is
    /// answered too. `codes` has a box of each plugin. After a refusal a box may be another code than before.
    pub fn load<R: Rig>(
        alloc: Global,
        rig: &mut R,
        codes: &mut [Box<dyn Code>],
    ) -> Result<(PoolMap, usize), MapFault>
        requires { HaveEachPlugin (λ box. plugin_name box) codes.old }
        ensures ok { IfOk result (λ read. IsLoaded R.reads R.clock R.images rig.old rig.new read.0) }
        // The box is the one that `pick` gives for the map's profile.
        ensures opened { IfOk result (λ read. IsOpened (λ box. plugin_name box) (λ box. meaning box)
            (map_of read.0).profile (map_of read.0).n codes.old codes.new read.1) }
        ensures refused { IsNotLoaded R.is_here R.reads R.clock R.images rig.old rig.new result }
        ensures only_if_fault { HasMapCause (R.faults rig.old 16) (R.faults rig.new 16) result }
        ensures boxes { KeepNames (λ box. plugin_name box) codes.old codes.new }
        ensures kept { SyncsAndReadsArea R.is_here R.reads R.said R.clock R.images R.faults R.syncs R.bytes_written R.bytes_read
            16 0 2 (result ≡ Err MapFault.Failed) rig.old rig.new }
    {
        texts_have_one_reading();
        if !rig.here(MAP_SLOT) {
            return Err(MapFault::NoPool);
        }
        let text = load_text(alloc, rig)?;
        let numbers = text.numbers;
        let (state, opened) = read_map(
            alloc,
            numbers.k,
            numbers.n,
            numbers.unit,
            text.bodies.as_slice(),
            codes,
        )?;
        let map = PoolMap {
            journal: text.journal,
            profile: opened.profile,
            state,
            began: false,
        };
        Ok((map, opened.index))
    }

    /// Whether there is a pool. All of the map's text is on the disk then.
    pub fn there<R: Rig>(rig: &mut R) -> Result<bool, MapFault>
        ensures yes { IfOk result (λ is. IsTrue is → (text : List ℕ) → told_text 16 (R.reads rig.old 16) ≡ Some text → 24 ≤ length text) }
        ensures no_pool { IfOk result (λ is. is ≡ false → R.is_here rig.old 16 → (text : List ℕ)
            → told_text 16 (R.reads rig.old 16) ≡ Some text → IsNoPool text) }
        ensures nowhere { (R.is_here rig.old 16 → ⊥) → result ≡ Ok false }
        ensures durable { OnOk result (R.is_here rig.old 16 → (there : List ℕ) → R.reads rig.new 16 0 ≡ Some there
            → Only R.clock R.images rig.new 16 0 there) }
        ensures faults { IfErr result (λ fault. fault ≡ MapFault.Failed) }
        ensures only_if_fault { HasMapCause (R.faults rig.old 16) (R.faults rig.new 16) result }
        ensures kept { SyncsAndReadsArea R.is_here R.reads R.said R.clock R.images R.faults R.syncs R.bytes_written R.bytes_read
            16 0 1 (result ≡ Err MapFault.Failed) rig.old rig.new }
    {
        if !rig.here(MAP_SLOT) {
            return Ok(false);
        }
        let mut front = [0; HEADER_LEN];
        Ok(read_front(rig, &mut front)?)
    }
}
