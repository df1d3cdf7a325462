//! The text of a profile.
ghost use Rattle.std.specs.Prelude.{◌≡◌, ◌-◌, ◌<◌, ◌++◌, ℕ, List, IfOk, OnOk, true};
ghost use Rattle.std.specs.Fmt.{decimal};
ghost use Rattle.ec_model.specs.Codes.{CodeRows};
ghost use Rattle.ec_code.specs.LrcFaults.{text_of, text_of_layer, layer_texts, has_number};
ghost use Rattle.ec_code.specs.Refusals.{IsCodeOf, IsAccepted};
ghost use Rattle.ec_code.specs.Shapes.{HasShape};
ghost use Rattle.plugin_reg.specs.Canonical.{line_of, lines_of, least_of, jerasure_settings, shec_settings, number_settings, layout_settings, lrc_settings, layer_item, layer_items, layers_text, mapping_in, layers_in, canonical_lines, IsWritable, KeepsCodes, PrintsAgain};

use ec_code::{Layer, Layers, Mapping, Plugin, Profile, Shape, default_min};
use ec_words::{Bytes, NoMemory};
use std::alloc::Global;

/// Adds a setting.
fn push_setting(list: &mut Vec<u8>, key: &str, value: &[u8]) -> Result<(), NoMemory>
    ensures { OnOk result (list.new.items ≡ list.old.items ++ line_of (record { key = key.now; value = value.now })) }
{
    list.extend_from_slice(key.as_bytes())?;
    list.push(b'=')?;
    list.extend_from_slice(value)?;
    list.push(b'\n')?;
    Ok(())
}

/// Adds a setting whose value is a text.
fn push_text(list: &mut Vec<u8>, key: &str, value: &str) -> Result<(), NoMemory>
    ensures { OnOk result (list.new.items ≡ list.old.items ++ line_of (record { key = key.now; value = value.now })) }
{
    push_setting(list, key, value.as_bytes())
}

/// Adds a setting whose value is a number.
fn push_number(alloc: Global, list: &mut Vec<u8>, key: &str, value: u32) -> Result<(), NoMemory>
    ensures { OnOk result (list.new.items ≡ list.old.items ++ line_of (record { key = key.now; value = decimal value })) }
{
    let digits = format!(in alloc; "{value}")?;
    push_setting(list, key, digits.as_bytes())
}

/// The canonical lines of an accepted profile, with the shape of its code: `KEY=VALUE` and a line feed for each setting that has
/// a value, and for min_size, by the bytes of the keys. Those of a profile whose mapping and layers have their marks alone, as each
/// that is read has, are read as a profile that has each code of this one and is printed so again.
pub fn print_profile(alloc: Global, profile: &Profile, shape: Shape) -> Result<Bytes, NoMemory>
    requires accepted { IsAccepted profile.now }
    requires shape { (code : CodeRows) × IsCodeOf profile.now code × HasShape code shape.k shape.n shape.lead }
    ensures value { IfOk result (λ text. text ≡ canonical_lines profile.now shape.k shape.n) }
    ensures again { IsWritable profile.now → IfOk result (λ text. PrintsAgain text shape.k shape.n shape.lead) }
    ensures codes { IsWritable profile.now → IfOk result (λ text. KeepsCodes profile.now text) }
{
    let least = least_of(profile, shape);
    let text = profile_lines(alloc, profile, shape, least)?;
    Ok(text)
}

// The least number of positions that a pool works with.
fn least_of(profile: &Profile, shape: Shape) -> u32
    requires { shape.k < shape.n }
    ensures { result ≡ least_of profile.now.min_size shape.k shape.n }
{
    match profile.min_size {
        Some(least) => least,
        None => u32::from(default_min(shape)),
    }
}

fn profile_lines(
    alloc: Global,
    profile: &Profile,
    shape: Shape,
    least: u32,
) -> Result<Bytes, NoMemory>
    requires { shape.k < shape.n }
    ensures { least ≡ least_of profile.now.min_size shape.k shape.n
        → IfOk result (λ text. text ≡ canonical_lines profile.now shape.k shape.n) }
{
    let k = u32::from(shape.k);
    let m = u32::from(shape.n - shape.k);
    match profile.plugin {
        Plugin::Jerasure => jerasure_lines(alloc, k, m, least, profile.stripe_unit),
        Plugin::Lrc => lrc_lines(alloc, profile, least),
        Plugin::Shec => {
            let c = profile.c.unwrap_or(0);
            shec_lines(alloc, c, k, m, least, profile.stripe_unit)
        }
    }
}

fn jerasure_lines(alloc: Global, k: u32, m: u32, least: u32, unit: u32) -> Result<Bytes, NoMemory>
    ensures { IfOk result (λ text. text ≡ lines_of (jerasure_settings k m least unit)) }
{
    let mut list = Vec::new(alloc);
    push_number(alloc, &mut list, "k", k)?;
    push_number(alloc, &mut list, "m", m)?;
    push_number(alloc, &mut list, "min_size", least)?;
    push_text(&mut list, "plugin", "jerasure")?;
    push_number(alloc, &mut list, "stripe_unit", unit)?;
    push_text(&mut list, "technique", "reed_sol_van")?;
    push_text(&mut list, "w", "8")?;
    Ok(Bytes::of(list))
}

fn shec_lines(
    alloc: Global,
    c: u32,
    k: u32,
    m: u32,
    least: u32,
    unit: u32,
) -> Result<Bytes, NoMemory>
    ensures { IfOk result (λ text. text ≡ lines_of (shec_settings c k m least unit)) }
{
    let mut list = Vec::new(alloc);
    push_number(alloc, &mut list, "c", c)?;
    push_number(alloc, &mut list, "k", k)?;
    push_number(alloc, &mut list, "m", m)?;
    push_number(alloc, &mut list, "min_size", least)?;
    push_text(&mut list, "plugin", "shec")?;
    push_number(alloc, &mut list, "stripe_unit", unit)?;
    push_text(&mut list, "technique", "single")?;
    push_text(&mut list, "w", "8")?;
    Ok(Bytes::of(list))
}

fn lrc_lines(alloc: Global, profile: &Profile, least: u32) -> Result<Bytes, NoMemory>
    ensures { IfOk result (λ text. text ≡ lines_of (lrc_settings (has_number profile.now) profile.now least)) }
{
    if profile.k.is_some() || profile.m.is_some() || profile.l.is_some() {
        number_lines(alloc, profile, least)
    } else {
        let layers = layers_text(alloc, &profile.layers)?;
        let mapping = mapping_text(alloc, &profile.mapping)?;
        layout_lines(
            alloc,
            layers.as_slice(),
            mapping.as_slice(),
            least,
            profile.stripe_unit,
        )
    }
}

fn number_lines(alloc: Global, profile: &Profile, least: u32) -> Result<Bytes, NoMemory>
    ensures { IfOk result (λ text. text ≡ lines_of (lrc_settings true profile.now least)) }
{
    let k = profile.k.unwrap_or(0);
    let l = profile.l.unwrap_or(0);
    let m = profile.m.unwrap_or(0);
    made_lines(alloc, k, l, m, least, profile.stripe_unit)
}

fn made_lines(
    alloc: Global,
    k: u32,
    l: u32,
    m: u32,
    least: u32,
    unit: u32,
) -> Result<Bytes, NoMemory>
    ensures { IfOk result (λ text. text ≡ lines_of (number_settings k l m least unit)) }
{
    let mut list = Vec::new(alloc);
    push_number(alloc, &mut list, "k", k)?;
    push_number(alloc, &mut list, "l", l)?;
    push_number(alloc, &mut list, "m", m)?;
    push_number(alloc, &mut list, "min_size", least)?;
    push_text(&mut list, "plugin", "lrc")?;
    push_number(alloc, &mut list, "stripe_unit", unit)?;
    Ok(Bytes::of(list))
}

fn layout_lines(
    alloc: Global,
    layers: &[u8],
    mapping: &[u8],
    least: u32,
    unit: u32,
) -> Result<Bytes, NoMemory>
    ensures { (texts : List (List ℕ)) → layers.now ≡ layers_text texts
        → IfOk result (λ text. text ≡ lines_of (layout_settings mapping.now texts least unit)) }
{
    let mut list = Vec::new(alloc);
    push_setting(&mut list, "layers", layers)?;
    push_setting(&mut list, "mapping", mapping)?;
    push_number(alloc, &mut list, "min_size", least)?;
    push_text(&mut list, "plugin", "lrc")?;
    push_number(alloc, &mut list, "stripe_unit", unit)?;
    Ok(Bytes::of(list))
}

fn mapping_text(alloc: Global, mapping: &Option<Mapping>) -> Result<Bytes, NoMemory>
    ensures { IfOk result (λ text. text ≡ mapping_in mapping.now) }
{
    let mut text = Vec::new(alloc);
    match mapping {
        Some(mapping) => push_marks(&mut text, &mapping.first, mapping.len)?,
        None => {}
    }
    Ok(Bytes::of(text))
}

fn layers_text(alloc: Global, layers: &Option<Layers>) -> Result<Bytes, NoMemory>
    ensures { IfOk result (λ text. text ≡ layers_text (layers_in layers.now)) }
{
    let mut text = Vec::new(alloc);
    text.push(b'[')?;
    match layers {
        Some(layers) => push_layers(&mut text, layers)?,
        None => {}
    }
    text.push(b']')?;
    Ok(Bytes::of(text))
}

// The layers as the items of an array.
fn push_layers(list: &mut Vec<u8>, layers: &Layers) -> Result<(), NoMemory>
    ensures { OnOk result (list.new.items ≡ list.old.items ++ layer_items (layer_texts layers.now)) }
{
    for i in 0..layers.count {
        if i > 0 {
            list.push(b',')?;
        }
        push_layer(list, &layers.each[i as usize])?;
    }
    Ok(())
}

// A layer with settings that have no word.
fn push_layer(list: &mut Vec<u8>, layer: &Layer) -> Result<(), NoMemory>
    ensures { OnOk result (list.new.items ≡ list.old.items ++ layer_item (text_of_layer layer.now)) }
{
    list.extend_from_slice(b"[\"")?;
    push_marks(list, &layer.first, layer.len)?;
    list.extend_from_slice(b"\",\"\"]")?;
    Ok(())
}

// The characters of a text of which the first 16 are kept, with 0 for each further one.
fn push_marks(list: &mut Vec<u8>, first: &[u8; 16], len: usize) -> Result<(), NoMemory>
    ensures { OnOk result (list.new.items ≡ list.old.items ++ text_of first.now len) }
{
    for i in 0..len {
        let mark = if i < 16 { first[i] } else { 0 };
        list.push(mark)?;
    }
    Ok(())
}
