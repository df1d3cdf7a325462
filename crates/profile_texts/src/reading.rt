//! What the text of a profile means.
ghost use Rattle.std.specs.Prelude.{◌≡◌, ℕ, IfOk, Ok, Err, is_some, codes};
ghost use Rattle.std.specs.Option.{option_map};
ghost use Rattle.ec_code.specs.LayerValues.{mapping_value, layers_value};
ghost use Rattle.ec_code.specs.Settings.{Setting, value_of};
ghost use Rattle.ec_code.specs.Readings.{GivenLayers, profile_of, profile_of_settings, layers_at, plugin_of, unknown_key, bad_key, is_bad, have_number, has_shec_number, profile_with, number_at, shec_number, unit_at, technique_at, technique_named};
ghost use Rattle.profile_texts.specs.SettingTexts.{shown};
ghost use Rattle.profile_texts.specs.declared.reading.RegFault.TheVariants.{NoMemory as OutOfMemory};

use crate::forms::{
    has_form, is_layout_key, is_number_key, is_shec_number_key, is_unknown, number, unit,
};
use crate::layers::layers_of_text;
use crate::settings::{SettingText, SettingsFault, read_settings, value_of};
use ec_code::{Layers, Mapping, Plugin, Profile, ProfileFault, Technique};
use ec_words::{Bytes, NoMemory};
use std::alloc::Global;
use thiserror::Error;

/// Why a text gives no profile.
#[derive(Debug, Drop, Error)]
pub enum RegFault {
    /// The text has this fault: Json, Setting, UnknownPlugin, UnknownKey or BadValue.
    #[error("{0}")]
    Profile(ProfileFault),
    /// Memory ran out.
    #[error("out of memory")]
    NoMemory,
}

impl From<NoMemory> for RegFault {
    ghost from_gives = { λ _ fault. fault ≡ OutOfMemory };

    fn from(_: NoMemory) -> RegFault {
        RegFault::NoMemory
    }
}

/// Bytes of a chunk in one stripe if the profile does not say.
const DEFAULT_UNIT: u32 = 4096;

/// The bits of a symbol if the profile does not say.
const DEFAULT_WIDTH: u32 = 8;

/// The profile that a text gives: settings `KEY=VALUE` separated by commas or line feeds outside square brackets.
pub fn read_profile(alloc: Global, text: &str) -> Result<Profile, RegFault>
    ensures value { IfOk result (λ profile. profile_of text.now ≡ Ok profile) }
    ensures refused { (fault : _) → result ≡ Err (RegFault.Profile fault) → profile_of text.now ≡ Err fault }
{
    match read_settings(alloc, text.as_bytes()) {
        Ok(settings) => {
            let layers = layers_at(alloc, &settings)?;
            profile_of_settings(alloc, layers, &settings)
        }
        Err(SettingsFault::Setting) => Err(RegFault::Profile(ProfileFault::Setting)),
        Err(SettingsFault::NoMemory) => Err(RegFault::NoMemory),
    }
}

// The layers that the value of the key `layers` gives.
fn layers_at(alloc: Global, settings: &[SettingText<'_>]) -> Result<Option<Layers>, NoMemory>
    ensures { IfOk result (λ layers. layers ≡ option_map layers_value (layers_at (shown settings.now))) }
{
    match value_of(settings, b"layers") {
        Some(text) => layers_of_text(alloc, text),
        None => Ok(None),
    }
}

/// The profile of some settings; the setting of the key `layers` gives these layers.
pub fn profile_of_settings(
    alloc: Global,
    layers: Option<Layers>,
    settings: &[SettingText<'_>],
) -> Result<Profile, RegFault>
    ensures value { IfOk result (λ profile. (given : GivenLayers) → layers ≡ option_map layers_value given
        → profile_of_settings given (shown settings.now) ≡ Ok profile) }
    ensures refused { (fault : _) (given : GivenLayers) → result ≡ Err (RegFault.Profile fault)
        → layers ≡ option_map layers_value given → profile_of_settings given (shown settings.now) ≡ Err fault }
{
    let Some(plugin) = plugin_of(settings) else {
        return Err(RegFault::Profile(ProfileFault::UnknownPlugin));
    };
    match unknown_key(plugin, settings) {
        Some(key) => {
            let key = carried(alloc, key)?;
            return Err(RegFault::Profile(ProfileFault::UnknownKey(key)));
        }
        None => {}
    }
    match bad_key(layers.is_some(), settings) {
        Some(key) => {
            let key = carried(alloc, key)?;
            Err(RegFault::Profile(ProfileFault::BadValue(key)))
        }
        None => Ok(profile_with(plugin, layers, settings)),
    }
}

// A key, as a fault carries it.
fn carried(alloc: Global, key: &[u8]) -> Result<Bytes, RegFault>
    ensures value { IfOk result (λ bytes. bytes ≡ key.now) }
    ensures only { (fault : _) → result ≡ Err (RegFault.Profile fault) → ⊥ }
{
    match Bytes::from_slice(alloc, key) {
        Ok(bytes) => Ok(bytes),
        Err(NoMemory) => Err(RegFault::NoMemory),
    }
}

fn plugin_of(settings: &[SettingText<'_>]) -> Option<Plugin>
    ensures { result ≡ plugin_of (shown settings.now) }
{
    let name = value_of(settings, b"plugin").unwrap_or(b"jerasure".as_slice());
    if name == b"jerasure".as_slice() {
        Some(Plugin::Jerasure)
    } else if name == b"lrc".as_slice() {
        Some(Plugin::Lrc)
    } else if name == b"shec".as_slice() {
        Some(Plugin::Shec)
    } else {
        None
    }
}

// The least key that the plugin does not have.
fn unknown_key<'a>(plugin: Plugin, settings: &[SettingText<'a>]) -> Option<&'a [u8]>
    ensures { option_map (λ key. key.now) result ≡ unknown_key plugin (shown settings.now) }
{
    settings
        .iter()
        .map(|s| s.key)
        .filter(|key| is_unknown(plugin, key))
        .min()
}

// The least key whose value does not have its form.
fn bad_key<'a>(has_layers: bool, settings: &[SettingText<'a>]) -> Option<&'a [u8]>
    ensures { (layers : GivenLayers) → has_layers ≡ is_some layers
        → option_map (λ key. key.now) result ≡ bad_key layers (shown settings.now) }
{
    let has_number = have_number(settings);
    settings
        .iter()
        .map(|s| s.key)
        .filter(|key| is_bad(has_layers, has_number, settings, key))
        .min()
}

// Beside one of k, m and l, a mapping and layers do not have their form.
fn is_bad(has_layers: bool, has_number: bool, settings: &[SettingText<'_>], key: &[u8]) -> bool
    ensures { (layers : GivenLayers) → has_layers ≡ is_some layers → has_number ≡ have_number (shown settings.now)
        → result ≡ is_bad layers (shown settings.now) key.now }
{
    let value = value_of(settings, key).unwrap_or(b"".as_slice());
    !has_form(has_layers, key, value) || is_layout_key(key) && has_number
}

fn have_number(settings: &[SettingText<'_>]) -> bool
    ensures { result ≡ have_number (shown settings.now) }
{
    settings.iter().any(|s| is_number_key(s.key))
}

fn has_shec_number(settings: &[SettingText<'_>]) -> bool
    ensures { result ≡ has_shec_number (shown settings.now) }
{
    settings.iter().any(|s| is_shec_number_key(s.key))
}

// The profile that the settings of a plugin give, with its defaults.
fn profile_with(plugin: Plugin, layers: Option<Layers>, settings: &[SettingText<'_>]) -> Profile
    ensures { (given : GivenLayers) → layers ≡ option_map layers_value given
        → result ≡ profile_with plugin given (shown settings.now) }
{
    match plugin {
        Plugin::Jerasure => jerasure_profile(settings),
        Plugin::Lrc => lrc_profile(layers, settings),
        Plugin::Shec => shec_profile(settings),
    }
}

fn jerasure_profile(settings: &[SettingText<'_>]) -> Profile
    ensures { (given : GivenLayers) → result ≡ profile_with Plugin.Jerasure given (shown settings.now) }
{
    Profile {
        plugin: Plugin::Jerasure,
        k: number_at(settings, b"k"),
        m: number_at(settings, b"m"),
        c: None,
        l: None,
        w: Some(number_at(settings, b"w").unwrap_or(DEFAULT_WIDTH)),
        technique: Some(technique_at(settings).unwrap_or(Technique::ReedSolVan)),
        mapping: None,
        layers: None,
        stripe_unit: unit_at(settings),
        min_size: number_at(settings, b"min_size"),
    }
}

fn lrc_profile(layers: Option<Layers>, settings: &[SettingText<'_>]) -> Profile
    ensures { (given : GivenLayers) → layers ≡ option_map layers_value given
        → result ≡ profile_with Plugin.Lrc given (shown settings.now) }
{
    Profile {
        plugin: Plugin::Lrc,
        k: number_at(settings, b"k"),
        m: number_at(settings, b"m"),
        c: None,
        l: number_at(settings, b"l"),
        w: None,
        technique: None,
        mapping: mapping_at(settings),
        layers,
        stripe_unit: unit_at(settings),
        min_size: number_at(settings, b"min_size"),
    }
}

fn shec_profile(settings: &[SettingText<'_>]) -> Profile
    ensures { (given : GivenLayers) → result ≡ profile_with Plugin.Shec given (shown settings.now) }
{
    Profile {
        plugin: Plugin::Shec,
        k: shec_number(4, settings, b"k"),
        m: shec_number(3, settings, b"m"),
        c: shec_number(2, settings, b"c"),
        l: None,
        w: Some(number_at(settings, b"w").unwrap_or(DEFAULT_WIDTH)),
        technique: technique_at(settings),
        mapping: None,
        layers: None,
        stripe_unit: unit_at(settings),
        min_size: number_at(settings, b"min_size"),
    }
}

fn number_at(settings: &[SettingText<'_>], key: &[u8]) -> Option<u32>
    ensures { result ≡ number_at (shown settings.now) key.now }
{
    match value_of(settings, key) {
        Some(value) => number(value),
        None => None,
    }
}

// A number of the plugin shec: the default if none of k, m and c is given.
fn shec_number(default: u32, settings: &[SettingText<'_>], key: &[u8]) -> Option<u32>
    ensures { result ≡ shec_number default (shown settings.now) key.now }
{
    if has_shec_number(settings) {
        number_at(settings, key)
    } else {
        Some(default)
    }
}

fn unit_at(settings: &[SettingText<'_>]) -> u32
    ensures { result ≡ unit_at (shown settings.now) }
{
    match value_of(settings, b"stripe_unit") {
        Some(value) => unit(value).unwrap_or(DEFAULT_UNIT),
        None => DEFAULT_UNIT,
    }
}

fn mapping_at(settings: &[SettingText<'_>]) -> Option<Mapping>
    ensures { result ≡ option_map mapping_value (value_of (shown settings.now) (codes "mapping")) }
{
    match value_of(settings, b"mapping") {
        Some(value) => Some(Mapping::of(value)),
        None => None,
    }
}

fn technique_at(settings: &[SettingText<'_>]) -> Option<Technique>
    ensures { result ≡ technique_at (shown settings.now) }
{
    match value_of(settings, b"technique") {
        Some(value) => Some(technique_named(value)),
        None => None,
    }
}

fn technique_named(name: &[u8]) -> Technique
    ensures { result ≡ technique_named name.now }
{
    if name == b"reed_sol_van".as_slice() {
        Technique::ReedSolVan
    } else if name == b"single".as_slice() {
        Technique::Single
    } else {
        Technique::Other
    }
}
