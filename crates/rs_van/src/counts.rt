//! The numbers that a profile of the plugin jerasure gives, and why it may be refused.
ghost use Rattle.std.specs.Prelude.{◌≡◌, ◌≢◌, ◌↔◌, ◌⊎◌, ◌+◌, ◌<◌, ◌≤◌, IsTrue, IsNone, IsOk, IfSome, IfOk, IfErr, Some};
ghost use Rattle.ec_code.specs.Refusals.{Given, IsRefusedBy, IsAccepted};

use ec_code::{
    Key, Plugin, Profile, ProfileFault, Technique, is_other_width, is_out_of_range, is_unit,
};

/// The numbers of data and of coding chunks.
#[derive(Clone, Copy)]
pub struct Counts {
    pub k: u8,
    pub m: u8,
    ghost some_data: { 2 ≤ k },
    ghost some_coding: { 1 ≤ m },
    ghost few: { k + m ≤ 16 },
}

fn is_other_technique(technique: Option<Technique>) -> bool
    ensures { IsTrue result ↔ Given technique (λ t. t ≢ Technique.ReedSolVan) }
{
    match technique {
        Some(technique) => technique != Technique::ReedSolVan,
        None => false,
    }
}

/// The first fault in the order, where k and m are given.
fn fault_of(profile: &Profile, k: u32, m: u32) -> Option<ProfileFault>
    requires plugin { profile.now.plugin ≡ Plugin.Jerasure }
    requires k { profile.now.k ≡ Some k }
    requires m { profile.now.m ≡ Some m }
    ensures refused { IfSome result (IsRefusedBy profile.now) }
    ensures accepted { IsNone result → IsAccepted profile.now }
    ensures bounds { IsNone result → (2 ≤ k) × (1 ≤ m) × (k + m ≤ 16) }
{
    if is_other_technique(profile.technique) {
        Some(ProfileFault::Technique)
    } else if is_other_width(profile.w) {
        Some(ProfileFault::Width)
    } else if k < 2 {
        Some(ProfileFault::SmallK)
    } else if m < 1 {
        Some(ProfileFault::SmallM)
    } else if 16 < u64::from(k) + u64::from(m) {
        Some(ProfileFault::TooMany)
    } else if !is_unit(profile.stripe_unit) {
        Some(ProfileFault::Unit)
    } else if is_out_of_range(profile.min_size, k, k + m) {
        Some(ProfileFault::MinSize)
    } else {
        None
    }
}

/// The numbers of a profile, or the first fault that it has.
pub fn counts_of(profile: &Profile) -> Result<Counts, ProfileFault>
    requires { profile.now.plugin ≡ Plugin.Jerasure }
    ensures refused { IfErr result (IsRefusedBy profile.now) }
    ensures accepted { IsOk result → IsAccepted profile.now }
    ensures numbers { IfOk result (λ counts. (profile.now.k ≡ Some counts.k) × (profile.now.m ≡ Some counts.m)) }
{
    let Some(k) = profile.k else {
        return Err(ProfileFault::Missing(Key::K));
    };
    let Some(m) = profile.m else {
        return Err(ProfileFault::Missing(Key::M));
    };
    match fault_of(profile, k, m) {
        Some(fault) => Err(fault),
        None => Ok(Counts {
            k: k as u8,
            m: m as u8,
        }),
    }
}
