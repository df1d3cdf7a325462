//! The profile that a map begins with.
ghost use Rattle.std.specs.Prelude.{◌≡◌, ◌⊎◌, ◌≤◌, ℕ, List, IfOk, IfErr, Ok, Err, IsTrue, ◌↔◌};
ghost use Rattle.ec_code.specs.JsonProfiles.{profile_of_bytes};
ghost use Rattle.ec_code.specs.declared.profile.Profile.{Profile as Meant};
ghost use Rattle.ec_code.specs.Shapes.{HasShape};
ghost use Rattle.plugin_reg.specs.Boxes.{HaveEachPlugin, KeepNames};
ghost use Rattle.pool_map.specs.Boxes.{IsOpened};
ghost use Rattle.pool_map.specs.Maps.{IsCanonical, HasNumbers};

use crate::MapFault;
use ec_code::{Code, Profile, Shape};
use plugin_reg::{Opened, RegFault, pick, print_profile, read_any};
use std::alloc::Global;

/// The profile whose canonical lines these are, and the first box of its plugin. That box becomes its code, which must have
/// these numbers.
pub(crate) fn open_lines(
    alloc: Global,
    lines: &[u8],
    k: u8,
    n: u8,
    unit: u32,
    codes: &mut [Box<dyn Code>],
) -> Result<Opened, MapFault>
    requires { HaveEachPlugin (λ box. plugin_name box) codes.old }
    ensures ok { IfOk result (λ opened. IsCanonical lines.now opened.profile k n unit) }
    ensures few { IfOk result (λ opened. n ≤ 16) }
    ensures opened { IfOk result (λ opened. IsOpened (λ box. plugin_name box) (λ box. meaning box)
        opened.profile n codes.old codes.new opened.index) }
    ensures bad { result ≡ Err MapFault.BadMap → (p : Meant) → IsCanonical lines.now p k n unit → ⊥ }
    ensures plain { IfErr result (λ fault. (fault ≡ MapFault.BadMap) ⊎ (fault ≡ MapFault.NoMemory)) }
    ensures boxes { KeepNames (λ box. plugin_name box) codes.old codes.new }
{
    match read_any(alloc, lines) {
        Ok(profile) => open_read(alloc, profile, lines, k, n, unit, codes),
        Err(RegFault::Profile(_)) => Err(MapFault::BadMap),
        Err(RegFault::NoMemory) => Err(MapFault::NoMemory),
    }
}

/// The same for the profile that the lines are read as.
fn open_read(
    alloc: Global,
    profile: Profile,
    lines: &[u8],
    k: u8,
    n: u8,
    unit: u32,
    codes: &mut [Box<dyn Code>],
) -> Result<Opened, MapFault>
    requires read { profile_of_bytes lines.now ≡ Ok profile }
    requires boxes { HaveEachPlugin (λ box. plugin_name box) codes.old }
    ensures ok { IfOk result (λ opened. IsCanonical lines.now opened.profile k n unit) }
    ensures few { IfOk result (λ opened. n ≤ 16) }
    ensures opened { IfOk result (λ opened. IsOpened (λ box. plugin_name box) (λ box. meaning box)
        opened.profile n codes.old codes.new opened.index) }
    ensures bad { result ≡ Err MapFault.BadMap → (p : Meant) → IsCanonical lines.now p k n unit → ⊥ }
    ensures plain { IfErr result (λ fault. (fault ≡ MapFault.BadMap) ⊎ (fault ≡ MapFault.NoMemory)) }
    ensures boxes { KeepNames (λ box. plugin_name box) codes.old codes.new }
{
    match pick(codes, &profile) {
        Ok(index) => {
            let shape = codes[index].shape();
            let printed = print_profile(alloc, &profile, shape)?;
            if is_same(&profile, shape, printed.as_slice(), lines, k, n, unit) {
                Ok(Opened { index, profile })
            } else {
                Err(MapFault::BadMap)
            }
        }
        Err(_) => Err(MapFault::BadMap),
    }
}

/// Whether a profile has these lines and numbers.
fn is_same(
    profile: &Profile,
    shape: Shape,
    printed: &[u8],
    lines: &[u8],
    k: u8,
    n: u8,
    unit: u32,
) -> bool
    ensures { IsTrue result ↔ HasNumbers profile.now shape.k shape.n printed.now lines.now k n unit }
{
    shape.k == k && shape.n == n && profile.stripe_unit == unit && printed == lines
}
