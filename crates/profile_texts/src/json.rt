//! Profiles in JSON: an object whose members are the settings.
ghost use Rattle.std.specs.Prelude.{◌≡◌, ℕ, IfOk, Ok, Err, Some, codes};
ghost use Rattle.std.specs.Fmt.{decimal};
ghost use Rattle.std.specs.Option.{option_map, option_and_then};
ghost use Rattle.serde_json.specs.Find.{get};
ghost use Rattle.serde_json.specs.View.{view, members_view};
ghost use Rattle.ec_code.specs.LayerValues.{layers_value};
ghost use Rattle.ec_code.specs.LayerTexts.{layers_of_value};
ghost use Rattle.ec_code.specs.JsonProfiles.{text_of_value, settings_of_members, layers_of_members, profile_of_value, profile_of_json, profile_of_settings_text, begins_object, profile_of_bytes};
ghost use Rattle.profile_texts.specs.SettingTexts.{shown, shown_members};

use crate::layers::layers_of_value;
use crate::reading::{RegFault, profile_of_settings, read_profile};
use crate::settings::{SettingText, unled};
use ec_code::{Layers, Profile, ProfileFault};
use ec_words::{Bytes, NoMemory};
use serde_json::{Map, Value};
use std::alloc::Global;

// A member as a setting.
#[derive(Drop)]
pub struct MemberText<'a> {
    pub key: &'a [u8],
    pub value: Bytes,
}

/// The profile that some bytes give: in JSON if they begin with `{` past blanks and line feeds, and else as settings. Bytes that
/// are not UTF-8 have the fault of the form that they begin like, Json or Setting.
pub fn read_any(alloc: Global, text: &[u8]) -> Result<Profile, RegFault>
    ensures value { IfOk result (λ profile. profile_of_bytes text.now ≡ Ok profile) }
    ensures refused { (fault : _) → result ≡ Err (RegFault.Profile fault) → profile_of_bytes text.now ≡ Err fault }
{
    if begins_object(text) {
        read_profile_json(alloc, text)
    } else {
        read_settings_text(alloc, text)
    }
}

// Whether bytes are meant as JSON.
fn begins_object(text: &[u8]) -> bool
    ensures { result ≡ begins_object text.now }
{
    unled(text).starts_with(b"{")
}

fn read_settings_text(alloc: Global, text: &[u8]) -> Result<Profile, RegFault>
    ensures value { IfOk result (λ profile. profile_of_settings_text text.now ≡ Ok profile) }
    ensures refused { (fault : _) → result ≡ Err (RegFault.Profile fault) → profile_of_settings_text text.now ≡ Err fault }
{
    match str::from_utf8(text) {
        Ok(text) => read_profile(alloc, text),
        Err(_) => Err(RegFault::Profile(ProfileFault::Setting)),
    }
}

/// The profile that some bytes of JSON give: an object whose members are the settings, with texts or whole numbers without a
/// sign as values. If a key is repeated its last member counts.
pub fn read_profile_json(alloc: Global, text: &[u8]) -> Result<Profile, RegFault>
    ensures value { IfOk result (λ profile. profile_of_json text.now ≡ Ok profile) }
    ensures refused { (fault : _) → result ≡ Err (RegFault.Profile fault) → profile_of_json text.now ≡ Err fault }
{
    match Value::from_slice(alloc, text) {
        Ok(value) => profile_of_value(alloc, &value),
        Err(fault) if fault.is_memory() => Err(RegFault::NoMemory),
        Err(_) => Err(RegFault::Profile(ProfileFault::Json)),
    }
}

fn profile_of_value(alloc: Global, value: &Value) -> Result<Profile, RegFault>
    ensures value { IfOk result (λ profile. profile_of_value (Some (view value.now)) ≡ Ok profile) }
    ensures refused { (fault : _) → result ≡ Err (RegFault.Profile fault)
        → profile_of_value (Some (view value.now)) ≡ Err fault }
{
    match value.as_object() {
        Some(members) => {
            let layers = layers_of_member(alloc, value)?;
            let members = member_texts(alloc, members)?;
            let settings = settings(alloc, &members)?;
            profile_of_settings(alloc, layers, &settings)
        }
        None => Err(RegFault::Profile(ProfileFault::Json)),
    }
}

// The layers that the member of the key `layers` gives.
fn layers_of_member(alloc: Global, value: &Value) -> Result<Option<Layers>, NoMemory>
    ensures { IfOk result (λ layers. layers ≡ option_map layers_value (option_and_then layers_of_value (get (codes "layers") (view value.now)))) }
{
    match value.get("layers") {
        Some(layers) => layers_of_value(alloc, layers),
        None => Ok(None),
    }
}

fn member_texts<'a>(
    alloc: Global,
    members: &'a Map<String, Value>,
) -> Result<Vec<MemberText<'a>>, NoMemory>
    ensures { IfOk result (λ list. shown_members list.items ≡ settings_of_members (members_view members.now.entries)) }
{
    let mut list = Vec::new(alloc);
    for (key, value) in members.iter() {
        let value = text_of_value(alloc, value)?;
        list.push(MemberText {
            key: key.as_bytes(),
            value,
        })?;
    }
    Ok(list)
}

// The text of a value, or the digits of a whole number. Any other value stands for the empty text; only an ignored key takes that.
fn text_of_value(alloc: Global, value: &Value) -> Result<Bytes, NoMemory>
    ensures { IfOk result (λ text. text ≡ text_of_value (view value.now)) }
{
    match value.as_str() {
        Some(text) => Bytes::from_slice(alloc, text.as_bytes()),
        None => match value.as_u64() {
            Some(number) => digits(alloc, number),
            None => Ok(Bytes::new(alloc)),
        },
    }
}

fn digits(alloc: Global, number: u64) -> Result<Bytes, NoMemory>
    ensures { IfOk result (λ text. text ≡ decimal number) }
{
    let text = format!(in alloc; "{number}")?;
    Bytes::from_slice(alloc, text.as_bytes())
}

fn settings<'a>(
    alloc: Global,
    members: &'a [MemberText<'_>],
) -> Result<Vec<SettingText<'a>>, NoMemory>
    ensures { IfOk result (λ list. shown list.items ≡ shown_members members.now) }
{
    let mut list = Vec::new(alloc);
    for member in members {
        list.push(SettingText {
            key: member.key,
            value: member.value.as_slice(),
        })?;
    }
    Ok(list)
}
