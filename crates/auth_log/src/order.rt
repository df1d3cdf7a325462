//! The greatest epoch that some slots started, and the least head.
ghost use Rattle.std.specs.Prelude.{◌≡◌};
ghost use Rattle.auth_log.specs.Choice.{IsGreatestEpoch, IsLeastHead, said_in};
ghost use Rattle.auth_log.specs.Inner.{IsSaid, lesser};

use crate::Info;
use crate::eligible::said;
use ec_words::{Mask, Version};

/// The greatest epoch that a slot of a set started.
pub fn greatest_epoch(infos: &[Option<Info>; 16], set: Mask) -> u32
    ensures { IsGreatestEpoch (IsSaid (said_in infos.now) set.0) result }
{
    let mut epoch = 0;
    for p in 0..16u8 {
        match said(infos, set, p) {
            Some(info) => epoch = u32::max(epoch, info.les),
            None => {}
        }
    }
    epoch
}

/// The least head of the slots of a set that started this epoch last.
pub fn least_head(infos: &[Option<Info>; 16], set: Mask, epoch: u32) -> Version
    ensures { IsLeastHead (IsSaid (said_in infos.now) set.0) epoch result }
{
    let mut least = None;
    for p in 0..16u8 {
        match said(infos, set, p) {
            Some(info) => least = lesser(least, &info, epoch),
            None => {}
        }
    }
    least.unwrap_or(Version { epoch: 0, seq: 0 })
}

/// The lesser of two heads, if the shard started this epoch last.
fn lesser(least: Option<Version>, info: &Info, epoch: u32) -> Option<Version>
    ensures { result ≡ lesser epoch least info.now }
{
    if info.les != epoch {
        return least;
    }
    match least {
        Some(version) if version.is_up_to(&info.head) => Some(version),
        _ => Some(info.head),
    }
}
