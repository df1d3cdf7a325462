//! The mapping and the layers that a profile gives, and why it may be refused.
ghost use Rattle.std.specs.Prelude.{◌≡◌, ◌≤◌, IsOk, IsNone, IfSome, IfOk, IfErr, Some, true, false};
ghost use Rattle.ec_model.specs.Lrc.{MakesGroups};
ghost use Rattle.ec_code.specs.LrcFaults.{mapping_text, text_of_layer, layer_texts, data_chunks_of, HasLayoutFault, has_number};
ghost use Rattle.ec_code.specs.Refusals.{fault_order, IsFirst, IsRefusedBy, IsAccepted};
ghost use Rattle.lrc_layers.specs.Layouts.{IsSound, IsMapping, IsLayoutOf};

use crate::checks::{has_input_fault, has_length_fault, has_output_fault, is_out_of_range};
use crate::marks::{DATA, count_of};
use crate::numbers::{has_many_positions, has_uneven_groups, made_by};
use ec_code::{Key, Layer, Layers, Mapping, Plugin, Profile, ProfileFault, is_unit};

/// A mapping, and layers that make a code with it.
#[derive(Clone, Copy)]
pub struct Layout {
    pub mapping: Layer,
    pub layers: Layers,
    ghost sound: { IsSound (text_of_layer mapping) (layer_texts layers) },
}

/// The characters of a mapping.
fn text_of(mapping: &Mapping) -> Layer
    ensures text { text_of_layer result ≡ mapping_text mapping.now }
    ensures len { result.len ≡ mapping.now.len }
{
    Layer {
        first: mapping.first,
        len: mapping.len,
    }
}

/// The number of data chunks of a mapping.
fn data_chunks_of(mapping: &Mapping) -> usize
    ensures { result ≡ data_chunks_of mapping.now }
{
    if mapping.len <= 16 {
        count_of(&text_of(mapping), DATA) as usize
    } else {
        mapping.data_chunks
    }
}

/// The first fault of a mapping with its layers, and of the settings that come after them in the order.
fn layout_fault(
    mapping: &Layer,
    layers: &Layers,
    unit: u32,
    least: Option<u32>,
) -> Option<ProfileFault>
    requires { mapping.now.len ≤ 16 }
    ensures refused { IfSome result
        (IsFirst (HasLayoutFault (text_of_layer mapping.now) (layer_texts layers.now) unit least) fault_order) }
    ensures accepted { IsNone result → (f : ProfileFault)
        → HasLayoutFault (text_of_layer mapping.now) (layer_texts layers.now) unit least f → ⊥ }
{
    if has_length_fault(mapping, layers) {
        Some(ProfileFault::LayerLength)
    } else if has_input_fault(mapping, layers) {
        Some(ProfileFault::LayerInput)
    } else if has_output_fault(mapping, layers) {
        Some(ProfileFault::LayerOutput)
    } else if !is_unit(unit) {
        Some(ProfileFault::Unit)
    } else if is_out_of_range(least, mapping) {
        Some(ProfileFault::MinSize)
    } else {
        None
    }
}

/// The first fault of three numbers by themselves.
fn numbers_fault(profile: &Profile, k: u32, m: u32, l: u32) -> Option<ProfileFault>
    requires plugin { profile.now.plugin ≡ Plugin.Lrc }
    requires k { profile.now.k ≡ Some k }
    requires m { profile.now.m ≡ Some m }
    requires l { profile.now.l ≡ Some l }
    ensures refused { IfSome result (IsRefusedBy profile.now) }
    ensures groups { IsNone result → MakesGroups k m l }
{
    if k < 1 {
        Some(ProfileFault::SmallK)
    } else if m < 1 {
        Some(ProfileFault::SmallM)
    } else if has_many_positions(k, m, l) {
        Some(ProfileFault::TooMany)
    } else if has_uneven_groups(k, m, l) {
        Some(ProfileFault::Divides)
    } else {
        None
    }
}

/// The first fault of a mapping by itself.
fn mapping_fault(profile: &Profile, mapping: &Mapping, layers: &Layers) -> Option<ProfileFault>
    requires plugin { profile.now.plugin ≡ Plugin.Lrc }
    requires written { has_number profile.now ≡ false }
    requires mapping { profile.now.mapping ≡ Some mapping.now }
    requires layers { profile.now.layers ≡ Some layers.now }
    ensures refused { IfSome result (IsRefusedBy profile.now) }
    ensures passes { IsNone result → IsMapping (mapping_text mapping.now) }
{
    let data_chunks = data_chunks_of(mapping);
    if data_chunks < 1 {
        Some(ProfileFault::SmallK)
    } else if data_chunks == mapping.len {
        Some(ProfileFault::SmallM)
    } else if 16 < mapping.len {
        Some(ProfileFault::TooMany)
    } else {
        None
    }
}

/// The layout that k, m and l make, or the first fault.
fn made_layout(profile: &Profile, k: u32, m: u32, l: u32) -> Result<Layout, ProfileFault>
    requires plugin { profile.now.plugin ≡ Plugin.Lrc }
    requires k { profile.now.k ≡ Some k }
    requires m { profile.now.m ≡ Some m }
    requires l { profile.now.l ≡ Some l }
    ensures refused { IfErr result (IsRefusedBy profile.now) }
    ensures accepted { IsOk result → IsAccepted profile.now }
    ensures made { IfOk result (λ layout.
        IsLayoutOf profile.now (text_of_layer layout.mapping) (layer_texts layout.layers)) }
{
    if let Some(fault) = numbers_fault(profile, k, m, l) {
        return Err(fault);
    }
    let (mapping, layers) = made_by(k as u8, m as u8, l as u8);
    let mapping = text_of(&mapping);
    match layout_fault(&mapping, &layers, profile.stripe_unit, profile.min_size) {
        Some(fault) => Err(fault),
        None => Ok(Layout { mapping, layers }),
    }
}

/// The layout of a profile with one of k, m and l, or the first fault.
fn numbers_layout(profile: &Profile) -> Result<Layout, ProfileFault>
    requires plugin { profile.now.plugin ≡ Plugin.Lrc }
    requires numbers { has_number profile.now ≡ true }
    ensures refused { IfErr result (IsRefusedBy profile.now) }
    ensures accepted { IsOk result → IsAccepted profile.now }
    ensures made { IfOk result (λ layout.
        IsLayoutOf profile.now (text_of_layer layout.mapping) (layer_texts layout.layers)) }
{
    let Some(k) = profile.k else {
        return Err(ProfileFault::Missing(Key::K));
    };
    let Some(l) = profile.l else {
        return Err(ProfileFault::Missing(Key::L));
    };
    let Some(m) = profile.m else {
        return Err(ProfileFault::Missing(Key::M));
    };
    made_layout(profile, k, m, l)
}

/// The layout of a mapping and layers that a profile gives, or the first fault.
fn text_layout(
    profile: &Profile,
    mapping: &Mapping,
    layers: &Layers,
) -> Result<Layout, ProfileFault>
    requires plugin { profile.now.plugin ≡ Plugin.Lrc }
    requires written { has_number profile.now ≡ false }
    requires mapping { profile.now.mapping ≡ Some mapping.now }
    requires layers { profile.now.layers ≡ Some layers.now }
    ensures refused { IfErr result (IsRefusedBy profile.now) }
    ensures accepted { IsOk result → IsAccepted profile.now }
    ensures made { IfOk result (λ layout.
        IsLayoutOf profile.now (text_of_layer layout.mapping) (layer_texts layout.layers)) }
{
    if let Some(fault) = mapping_fault(profile, mapping, layers) {
        return Err(fault);
    }
    let text = text_of(mapping);
    match layout_fault(&text, layers, profile.stripe_unit, profile.min_size) {
        Some(fault) => Err(fault),
        None => Ok(Layout {
            mapping: text,
            layers: *layers,
        }),
    }
}

/// The layout of a profile with none of k, m and l, or the first fault.
fn written_layout(profile: &Profile) -> Result<Layout, ProfileFault>
    requires plugin { profile.now.plugin ≡ Plugin.Lrc }
    requires written { has_number profile.now ≡ false }
    ensures refused { IfErr result (IsRefusedBy profile.now) }
    ensures accepted { IsOk result → IsAccepted profile.now }
    ensures made { IfOk result (λ layout.
        IsLayoutOf profile.now (text_of_layer layout.mapping) (layer_texts layout.layers)) }
{
    let Some(layers) = profile.layers else {
        return Err(ProfileFault::Missing(Key::Layers));
    };
    let Some(mapping) = profile.mapping else {
        return Err(ProfileFault::Missing(Key::Mapping));
    };
    text_layout(profile, &mapping, &layers)
}

/// The layout of a profile, or the first fault that it has.
pub fn layout_of(profile: &Profile) -> Result<Layout, ProfileFault>
    requires { profile.now.plugin ≡ Plugin.Lrc }
    ensures refused { IfErr result (IsRefusedBy profile.now) }
    ensures accepted { IsOk result → IsAccepted profile.now }
    ensures made { IfOk result (λ layout.
        IsLayoutOf profile.now (text_of_layer layout.mapping) (layer_texts layout.layers)) }
{
    if profile.k.is_some() || profile.m.is_some() || profile.l.is_some() {
        numbers_layout(profile)
    } else {
        written_layout(profile)
    }
}
