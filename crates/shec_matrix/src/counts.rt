//! The numbers that a profile of the plugin shec gives, and why it may be refused.
ghost use Rattle.std.specs.Prelude.{◌≡◌, ◌≢◌, ◌↔◌, ◌+◌, ◌<◌, ◌≤◌, IsTrue, IsSome, IsNone, IsOk, IfSome, IfOk, IfErr, Some};
ghost use Rattle.ec_code.specs.Refusals.{Given, IsRefusedBy, IsAccepted};
ghost use Rattle.ec_code.specs.ShecFaults.{AreMany, AreUnordered};

use ec_code::{
    Key, Plugin, Profile, ProfileFault, Technique, is_other_width, is_out_of_range, is_unit,
};

/// The number of data chunks, the number of coding chunks, and the number of coding chunks that each data chunk is in.
#[derive(Clone, Copy)]
pub struct Counts {
    pub k: u8,
    pub m: u8,
    pub c: u8,
    ghost some_data: { 1 ≤ k },
    ghost some_coding: { 1 ≤ m },
    ghost few: { k + m ≤ 16 },
}

fn is_other_technique(technique: Option<Technique>) -> bool
    ensures { IsTrue result ↔ Given technique (λ t. t ≢ Technique.Single) }
{
    match technique {
        Some(technique) => technique != Technique::Single,
        None => false,
    }
}

fn are_many(k: u32, m: u32) -> bool
    ensures { IsTrue result ↔ AreMany k m }
{
    16 < u64::from(k) + u64::from(m) || 12 < k
}

fn are_unordered(k: u32, m: u32, c: u32) -> bool
    ensures { IsTrue result ↔ AreUnordered k m c }
{
    m < c || k < m
}

/// The first fault in the order, if k, m, c and the technique are given.
fn fault_of(profile: &Profile, k: u32, m: u32, c: u32) -> Option<ProfileFault>
    requires plugin { profile.now.plugin ≡ Plugin.Shec }
    requires k { profile.now.k ≡ Some k }
    requires m { profile.now.m ≡ Some m }
    requires c { profile.now.c ≡ Some c }
    requires technique { IsSome profile.now.technique }
    ensures refused { IfSome result (IsRefusedBy profile.now) }
    ensures accepted { IsNone result → IsAccepted profile.now }
    ensures bounds { IsNone result → (1 ≤ k) × (1 ≤ m) × (k + m ≤ 16) × (c ≤ m) }
{
    if is_other_technique(profile.technique) {
        Some(ProfileFault::Technique)
    } else if is_other_width(profile.w) {
        Some(ProfileFault::Width)
    } else if k < 1 {
        Some(ProfileFault::SmallK)
    } else if m < 1 || c < 1 {
        Some(ProfileFault::SmallM)
    } else if are_many(k, m) {
        Some(ProfileFault::TooMany)
    } else if !is_unit(profile.stripe_unit) {
        Some(ProfileFault::Unit)
    } else if is_out_of_range(profile.min_size, k, k + m) {
        Some(ProfileFault::MinSize)
    } else if are_unordered(k, m, c) {
        Some(ProfileFault::Order)
    } else {
        None
    }
}

/// The numbers of a profile, or the first fault that it has.
pub fn counts_of(profile: &Profile) -> Result<Counts, ProfileFault>
    requires { profile.now.plugin ≡ Plugin.Shec }
    ensures refused { IfErr result (IsRefusedBy profile.now) }
    ensures accepted { IsOk result → IsAccepted profile.now }
    ensures numbers { IfOk result (λ counts. (profile.now.k ≡ Some counts.k)
        × (profile.now.m ≡ Some counts.m) × (profile.now.c ≡ Some counts.c)) }
{
    let Some(c) = profile.c else {
        return Err(ProfileFault::Missing(Key::C));
    };
    let Some(k) = profile.k else {
        return Err(ProfileFault::Missing(Key::K));
    };
    let Some(m) = profile.m else {
        return Err(ProfileFault::Missing(Key::M));
    };
    if profile.technique.is_none() {
        return Err(ProfileFault::Missing(Key::Technique));
    }
    match fault_of(profile, k, m, c) {
        Some(fault) => Err(fault),
        None => Ok(Counts {
            k: k as u8,
            m: m as u8,
            c: c as u8,
        }),
    }
}
