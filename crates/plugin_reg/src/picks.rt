//! The choice of the box that serves a profile.
ghost use Rattle.std.specs.Prelude.{◌≡◌, ◌≢◌, ◌↔◌, ◌<◌, ℕ, IsTrue, IfSome, IsNone, IfOk, IfErr, IsErr, Err, length, slice_index_or};
ghost use Rattle.ec_code.specs.Profiles.{name_of};
ghost use Rattle.ec_code.specs.Refusals.{IsAccepted, IsRefusedBy};
ghost use Rattle.plugin_reg.specs.Boxes.{HaveBox, HaveNoBox, HaveEachPlugin, KeepNames, KeepCodes};
ghost use Rattle.plugin_reg.specs.Picks.{IsPicked};

use ec_code::{Code, Plugin, Profile, ProfileFault};

/// The first box that goes by a name.
fn first_named(codes: &[Box<dyn Code>], name: &str) -> Option<usize>
    ensures some { IfSome result (λ i. (i < length codes.now) × ((d : _) → plugin_name (slice_index_or codes.now i d) ≡ name.now)) }
    ensures first { IfSome result (λ i. (j : ℕ) (d : _) → j < i → plugin_name (slice_index_or codes.now j d) ≢ name.now) }
    ensures none { IsNone result → HaveNoBox (λ box. plugin_name box) codes.now name.now }
{
    for i in 0..codes.len() {
        if codes[i].named(name) {
            return Some(i);
        }
    }
    None
}

/// Whether some box goes by a name.
pub fn has_box(codes: &[Box<dyn Code>], name: &str) -> bool
    ensures { IsTrue result ↔ HaveBox (λ box. plugin_name box) codes.now name.now }
{
    match first_named(codes, name) {
        Some(_) => true,
        None => false,
    }
}

// Whether a plugin has a box.
fn has_plugin(codes: &[Box<dyn Code>], plugin: Plugin) -> bool
    ensures { IsTrue result ↔ HaveBox (λ box. plugin_name box) codes.now (name_of plugin) }
{
    has_box(codes, plugin.name())
}

/// Whether each plugin has a box.
pub fn has_each_plugin(codes: &[Box<dyn Code>]) -> bool
    ensures { IsTrue result ↔ HaveEachPlugin (λ box. plugin_name box) codes.now }
{
    let jerasure = has_plugin(codes, Plugin::Jerasure);
    let lrc = has_plugin(codes, Plugin::Lrc);
    let shec = has_plugin(codes, Plugin::Shec);
    if jerasure && lrc { shec } else { false }
}

/// Makes the first box that goes by the profile's plugin the code of the profile, and answers its number. After a refusal no
/// code has changed.
pub fn pick(codes: &mut [Box<dyn Code>], profile: &Profile) -> Result<usize, ProfileFault>
    ensures picked { IfOk result (IsPicked (λ box. plugin_name box) (λ box. meaning box) profile.now codes.old codes.new) }
    ensures accepted { IfOk result (λ _. IsAccepted profile.now) }
    ensures unknown { HaveNoBox (λ box. plugin_name box) codes.old (name_of profile.now.plugin) → result ≡ Err ProfileFault.UnknownPlugin }
    ensures refused { HaveBox (λ box. plugin_name box) codes.old (name_of profile.now.plugin) → IfErr result (IsRefusedBy profile.now) }
    ensures unchanged { IsErr result → KeepCodes (λ box. meaning box) codes.old codes.new }
    ensures boxes { KeepNames (λ box. plugin_name box) codes.old codes.new }
{
    match first_named(codes, profile.plugin.name()) {
        Some(i) => {
            let code = &mut codes[i];
            code.init(profile)?;
            Ok(i)
        }
        None => Err(ProfileFault::UnknownPlugin),
    }
}
