//! The first record of a new pool's map.
ghost use Rattle.std.specs.Prelude.{◌≡◌, ◌⊎◌, ◌≤◌, ◌+◌, ◌++◌, ◌∷◌, [], ℕ, List, length, IfOk, IfErr, Ok};
ghost use Rattle.ec_model.specs.Versions.{zero_version};
ghost use Rattle.ec_code.specs.JsonProfiles.{profile_of_bytes};
ghost use Rattle.plugin_reg.specs.Canonical.{canonical_lines};
ghost use Rattle.pool_map.specs.Calls.{MayBeMade};
ghost use Rattle.pool_map.specs.Maps.{IsMapOf, map_format};
ghost use Rattle.pool_map.specs.Pool.{all_of, new_map, IsNewMap};
ghost use Rattle.pool_map.specs.Steps.{step_bytes};
ghost use Rattle.map_model.specs.Steps as steps;

use crate::MapFault;
use crate::steps::{alive_bytes, begin_bytes};
use ec_code::{Profile, Shape};
use ec_words::{Bytes, Mask, NoMemory, Version, put_bytes, put_u32};
use plugin_reg::{RegFault, print_profile, read_any};
use std::alloc::Global;

/// A new pool's profile, as its lines are read, and the body of its map's first record.
#[derive(Drop)]
pub(crate) struct FirstBody {
    pub profile: Profile,
    pub body: Bytes,
}

/// The set of all of `n` positions.
pub(crate) fn all_of(n: u8) -> Mask
    requires { n ≤ 16 }
    ensures { result.0 ≡ all_of n }
{
    Mask(((1u32 << n) - 1) as u16)
}

/// The bytes of the profile's step, and of those of the first interval.
fn body_of(alloc: Global, lines: &[u8], n: u8) -> Result<Bytes, NoMemory>
    requires few { n ≤ 16 }
    requires short { length lines.now ≤ 4000 }
    ensures { IfOk result (λ body. body ≡ step_bytes (steps.Profile lines.now)
        ++ (step_bytes (steps.Begin 1 (all_of n)) ++ step_bytes (steps.Alive 1 (all_of n) zero_version))) }
{
    let all = all_of(n);
    let mut body = Bytes::new(alloc);
    put_bytes(&mut body, &[1])?;
    put_u32(&mut body, lines.len() as u32)?;
    put_bytes(&mut body, lines)?;
    put_bytes(&mut body, &begin_bytes(1, all))?;
    put_bytes(
        &mut body,
        &alive_bytes(1, all, &Version { epoch: 0, seq: 0 }),
    )?;
    Ok(body)
}

/// The first record of a new pool's map. The lines of an accepted profile are short and are read back.
pub(crate) fn first_body(
    alloc: Global,
    profile: &Profile,
    shape: Shape,
) -> Result<FirstBody, MapFault>
    requires { MayBeMade profile.now shape.k shape.n shape.lead }
    ensures ok { IfOk result (λ first. IsMapOf shape.k first.profile.stripe_unit map_format (first.body ∷ []) (new_map first.profile shape.n)) }
    ensures new { IfOk result (λ first. profile_of_bytes (canonical_lines profile.now shape.k shape.n) ≡ Ok first.profile) }
    ensures some { IfOk result (λ first. 1 ≤ length first.body) }
    ensures short { IfOk result (λ first. length first.body ≤ 4031) }
    ensures few { IfOk result (λ first. shape.n ≤ 16) }
    ensures plain { IfErr result (λ fault. fault ≡ MapFault.NoMemory) }
{
    let lines = print_profile(alloc, profile, shape)?;
    match read_any(alloc, lines.as_slice()) {
        Ok(own) => {
            let body = body_of(alloc, lines.as_slice(), shape.n)?;
            Ok(FirstBody { profile: own, body })
        }
        Err(RegFault::Profile(_)) => unreachable!(),
        Err(RegFault::NoMemory) => Err(MapFault::NoMemory),
    }
}
