//! The layers that a text or a value of JSON gives.
ghost use Rattle.std.specs.Prelude.{◌≡◌, ◌==◌, ◌&&◌, not, IfOk, false};
ghost use Rattle.std.specs.List.{list_all, slice_split};
ghost use Rattle.std.specs.Option.{option_map, option_and_then};
ghost use Rattle.serde_json.specs.Find.{as_array};
ghost use Rattle.serde_json.specs.View.{view, items_view};
ghost use Rattle.ec_code.specs.LayerTexts.{is_closed, quoted_after, escaped_after, uncommaed, is_mark, is_space, is_layer_word, are_layer_settings, layer_marks, layer_of_items, layer_of_value, layers_of_items, layers_of_json, layers_of_text, layers_of_value};
ghost use Rattle.ec_code.specs.LayerValues.{layers_value};

use crate::settings::unled;
use ec_code::Layers;
use ec_words::NoMemory;
use serde_json::Value;
use std::alloc::Global;

/// The most layers of a profile.
const MOST: usize = 16;

/// The layers of a setting's value: JSON, but a comma before a `]` is dropped. `None` if the text does not have that form.
pub fn layers_of_text(alloc: Global, text: &[u8]) -> Result<Option<Layers>, NoMemory>
    ensures { IfOk result (λ layers. layers ≡ option_map layers_value (layers_of_text text.now)) }
{
    let kept = uncommaed(alloc, text)?;
    layers_of_json(alloc, &kept)
}

/// The layers of a member of a profile in JSON: such a text, or an array itself.
pub fn layers_of_value(alloc: Global, value: &Value) -> Result<Option<Layers>, NoMemory>
    ensures { IfOk result (λ layers. layers ≡ option_map layers_value (layers_of_value (view value.now))) }
{
    match value.as_str() {
        Some(text) => layers_of_text(alloc, text.as_bytes()),
        None => Ok(layers_of_array(value)),
    }
}

fn layers_of_json(alloc: Global, text: &[u8]) -> Result<Option<Layers>, NoMemory>
    ensures { IfOk result (λ layers. layers ≡ option_map layers_value (layers_of_json text.now)) }
{
    match Value::from_slice(alloc, text) {
        Ok(value) => Ok(layers_of_array(&value)),
        Err(fault) if fault.is_memory() => Err(NoMemory),
        Err(_) => Ok(None),
    }
}

fn layers_of_array(value: &Value) -> Option<Layers>
    ensures { result ≡ option_map layers_value (option_and_then layers_of_items (as_array (view value.now))) }
{
    match value.as_array() {
        Some(items) => layers_of_items(items),
        None => None,
    }
}

fn layers_of_items(items: &[Value]) -> Option<Layers>
    ensures { result ≡ option_map layers_value (layers_of_items (items_view items.now)) }
{
    if items.len() > MOST {
        return None;
    }
    let mut layers = Layers::new();
    for item in items {
        match layer_of_value(item) {
            Some(text) => layers.add(text),
            None => return None,
        }
    }
    Some(layers)
}

// A layer's characters: those of an item that is one.
fn layer_of_value(value: &Value) -> Option<&[u8]>
    ensures { option_map (λ text. text.now) result ≡ layer_of_value (view value.now) }
{
    match value.as_array() {
        Some(items) => layer_of_items(items),
        None => None,
    }
}

fn layer_of_items(items: &[Value]) -> Option<&[u8]>
    ensures { option_map (λ text. text.now) result ≡ layer_of_items (items_view items.now) }
{
    match items {
        [] => None,
        [marks] => layer_marks(marks),
        [marks, settings] => {
            if are_layer_settings(settings) {
                layer_marks(marks)
            } else {
                None
            }
        }
        [_, _, _, ..] => None,
    }
}

fn layer_marks(value: &Value) -> Option<&[u8]>
    ensures { option_map (λ text. text.now) result ≡ layer_marks (view value.now) }
{
    let text = value.as_str()?.as_bytes();
    if text.iter().all(|b| is_mark(*b)) {
        Some(text)
    } else {
        None
    }
}

fn is_mark(b: u8) -> bool
    ensures { result ≡ is_mark b }
{
    b == b'D' || b == b'c' || b == b'_'
}

// Whether a layer has no settings but those that its code always has.
fn are_layer_settings(value: &Value) -> bool
    ensures { result ≡ are_layer_settings (view value.now) }
{
    match value.as_str() {
        Some(text) => are_layer_words(text.as_bytes()),
        None => match value.as_object() {
            Some(members) => members.is_empty(),
            None => false,
        },
    }
}

fn are_layer_words(text: &[u8]) -> bool
    ensures { result ≡ list_all is_layer_word (slice_split is_space text.now) }
{
    text.split(|b| is_space(*b)).all(is_layer_word)
}

fn is_space(b: u8) -> bool
    ensures { result ≡ is_space b }
{
    b == b' ' || b == b'\t'
}

fn is_layer_word(word: &[u8]) -> bool
    ensures { result ≡ is_layer_word word.now }
{
    word.is_empty()
        || word == b"plugin=jerasure".as_slice()
        || word == b"technique=reed_sol_van".as_slice()
}

// A text without each comma that stands outside quotes before a `]`.
fn uncommaed(alloc: Global, text: &[u8]) -> Result<Vec<u8>, NoMemory>
    ensures { IfOk result (λ kept. kept.items ≡ uncommaed false false text.now) }
{
    let mut kept = Vec::new(alloc);
    let mut quoted = false;
    let mut escaped = false;
    for i in 0..text.len() {
        let b = text[i];
        if !is_dropped(quoted, b, &text[i + 1..]) {
            kept.push(b)?;
        }
        let is_quoted = quoted_after(quoted, escaped, b);
        escaped = escaped_after(quoted, escaped, b);
        quoted = is_quoted;
    }
    Ok(kept)
}

// Whether a byte is a comma outside quotes, before a `]`.
fn is_dropped(quoted: bool, b: u8, rest: &[u8]) -> bool
    ensures { result ≡ not quoted && ((b == 44) && is_closed rest.now) }
{
    !quoted && b == b',' && is_closed(rest)
}

// Whether a `]` is the first byte past blanks and line feeds.
fn is_closed(text: &[u8]) -> bool
    ensures { result ≡ is_closed text.now }
{
    unled(text).starts_with(b"]")
}

fn quoted_after(quoted: bool, escaped: bool, b: u8) -> bool
    ensures { result ≡ quoted_after quoted escaped b }
{
    if quoted {
        escaped || b != b'"'
    } else {
        b == b'"'
    }
}

fn escaped_after(quoted: bool, escaped: bool, b: u8) -> bool
    ensures { result ≡ escaped_after quoted escaped b }
{
    quoted && !escaped && b == b'\\'
}
