//! A pool that is made: what its slots hold, and that it is made once.
ghost use Rattle.plugin_reg.specs.Boxes.{HaveEachPlugin};

use crate::maps::{FIRST_TEXT, boxes};
use ec_code::Code;
use plugin_reg::{has_each_plugin, open_profile, read_profiles_are_writable};
use pool_making::{MakeFault, make_pool};
use pool_map::{MAP_SLOT, MapFault};
use rig_disk::MemRig;
use std::alloc::Global;
use std::test::Fail;

/// A pool of k=2, m=1 with chunks of 32 bytes.
pub(crate) const PROFILE: &[u8] = b"k=2,m=1,stripe_unit=32";

// The text of slot 1 of such a pool, by the tables of docs/FORMAT.md: the header, the record of the step Started 1 and a closed
// gate.
const FIRST_SHARD: &[u8; 35] =
    b"OECSHARD\x01\x01\x02\x03\0\0\0\x20\0\0\0\0\0\0\0\0O\0\0\0\x05\x07\0\0\0\x01\0";

/// Makes a pool by these boxes.
fn made_with(
    alloc: Global,
    rig: &mut MemRig,
    profile: &[u8],
    codes: &mut [Box<dyn Code>],
) -> Result<(), MakeFault>
    requires { HaveEachPlugin (λ box. plugin_name box) codes.old }
{
    read_profiles_are_writable();
    match open_profile(alloc, profile, codes) {
        Ok(opened) => make_pool(alloc, rig, codes[opened.index].as_ref(), &opened.profile),
        Err(_) => Err(MakeFault::NoMemory),
    }
}

/// Makes a pool.
pub(crate) fn made(
    alloc: Global,
    rig: &mut MemRig,
    profile: &[u8],
) -> Result<Result<(), MakeFault>, Fail> {
    let mut codes = boxes(alloc)?;
    if !has_each_plugin(&codes) {
        return Err(Fail::from(MapFault::BadMap));
    }
    Ok(made_with(alloc, rig, profile, &mut codes))
}

#[test]
fn a_pool_is_made_once(rt: HostRuntime) -> Result<(), Fail> {
    let mut rig = MemRig::new(rt.alloc())?;
    let first = made(rt.alloc(), &mut rig, PROFILE)?;
    let second = made(rt.alloc(), &mut rig, PROFILE)?;
    assert!(rt; first == Ok(()) && second == Err(MakeFault::Exists));
    assert!(rt;
        rig.bytes(MAP_SLOT, 0) == FIRST_TEXT.as_slice() && rig.bytes(1, 0) == FIRST_SHARD.as_slice()
    );
    Ok(())
}

#[test]
fn a_failed_slot_is_named_and_the_pool_can_be_made_again(rt: HostRuntime) -> Result<(), Fail> {
    let mut rig = MemRig::new(rt.alloc())?;
    rig.fail_at(1, 3)?;
    let first = made(rt.alloc(), &mut rig, PROFILE)?;
    assert!(rt;
        first == Err(MakeFault::SlotFailed { slot: 1 }) && rig.bytes(MAP_SLOT, 0).is_empty()
    );
    let second = made(rt.alloc(), &mut rig, PROFILE)?;
    assert!(rt; second == Ok(()) && rig.bytes(MAP_SLOT, 0) == FIRST_TEXT.as_slice());
    Ok(())
}
