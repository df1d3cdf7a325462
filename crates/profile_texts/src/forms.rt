//! The keys of a profile, and the forms of their values.
ghost use Rattle.std.specs.Prelude.{◌≡◌, is_some};
ghost use Rattle.ec_code.specs.Readings.{GivenLayers, number_of_text, unit_of_text, is_ignored, is_common_key, is_number_key, is_layout_key, is_shec_number_key, is_key_of, is_unknown, is_place, is_mapping, has_form};

use ec_code::Plugin;
use ec_words::read_u64;

/// The factor that a `K` behind a number stands for.
const KIBIBYTE: u32 = 1024;

/// The number below 2^32 whose digits a text is.
#[tactic(auto, using(crate::proofs::FormLemmas::small_number, crate::proofs::FormLemmas::large_number, crate::proofs::FormLemmas::no_number))]
pub fn number(text: &[u8]) -> Option<u32>
    ensures { result ≡ number_of_text text.now }
{
    match read_u64(text) {
        Ok(n) => match u32::try_from(n) {
            Ok(n) => Some(n),
            Err(_) => None,
        },
        Err(_) => None,
    }
}

/// A number of bytes below 2^32: digits, or digits and a `K` for times 1024.
pub fn unit(text: &[u8]) -> Option<u32>
    ensures { result ≡ unit_of_text text.now }
{
    match text.strip_suffix(b"K") {
        Some(digits) => match number(digits) {
            Some(n) => n.checked_mul(KIBIBYTE),
            None => None,
        },
        None => number(text),
    }
}

/// Whether a key belongs neither to the plugin nor to those that are ignored.
pub fn is_unknown(plugin: Plugin, key: &[u8]) -> bool
    ensures { result ≡ is_unknown plugin key.now }
{
    !(is_ignored(key) || is_key_of(plugin, key))
}

// Ceph's keys that choose devices, and the folder of plugins.
fn is_ignored(key: &[u8]) -> bool
    ensures { result ≡ is_ignored key.now }
{
    key.starts_with(b"crush-") || key == b"directory".as_slice()
}

fn is_key_of(plugin: Plugin, key: &[u8]) -> bool
    ensures { result ≡ is_key_of plugin key.now }
{
    match plugin {
        Plugin::Jerasure => is_jerasure_key(key),
        Plugin::Lrc => is_common_key(key) || is_number_key(key) || is_layout_key(key),
        Plugin::Shec => is_shec_key(key),
    }
}

fn is_common_key(key: &[u8]) -> bool
    ensures { result ≡ is_common_key key.now }
{
    key == b"plugin".as_slice() || key == b"stripe_unit".as_slice() || key == b"min_size".as_slice()
}

/// The keys of the plugin lrc by which its layers are made from numbers.
pub fn is_number_key(key: &[u8]) -> bool
    ensures { result ≡ is_number_key key.now }
{
    key == b"k".as_slice() || key == b"m".as_slice() || key == b"l".as_slice()
}

/// The keys of the plugin lrc by which its layers are written.
pub fn is_layout_key(key: &[u8]) -> bool
    ensures { result ≡ is_layout_key key.now }
{
    key == b"mapping".as_slice() || key == b"layers".as_slice()
}

fn is_jerasure_key(key: &[u8]) -> bool
    ensures { result ≡ is_key_of Plugin.Jerasure key.now }
{
    is_common_key(key)
        || key == b"k".as_slice()
        || key == b"m".as_slice()
        || key == b"technique".as_slice()
        || key == b"w".as_slice()
        || key == b"packetsize".as_slice()
        || key == b"jerasure-per-chunk-alignment".as_slice()
}

fn is_shec_key(key: &[u8]) -> bool
    ensures { result ≡ is_key_of Plugin.Shec key.now }
{
    is_common_key(key)
        || is_shec_number_key(key)
        || key == b"technique".as_slice()
        || key == b"w".as_slice()
}

/// The numbers of the plugin shec that have a default if none of them is given.
pub fn is_shec_number_key(key: &[u8]) -> bool
    ensures { result ≡ is_shec_number_key key.now }
{
    key == b"k".as_slice() || key == b"m".as_slice() || key == b"c".as_slice()
}

/// Whether a value has the form that its key asks for. The value of the key `layers` was read already, and has its
/// form if it gave layers.
pub fn has_form(has_layers: bool, key: &[u8], value: &[u8]) -> bool
    ensures { (layers : GivenLayers) → has_layers ≡ is_some layers → result ≡ has_form layers key.now value.now }
{
    if is_ignored(key) {
        true
    } else if key == b"plugin".as_slice() || key == b"technique".as_slice() {
        !value.is_empty()
    } else if key == b"jerasure-per-chunk-alignment".as_slice() {
        value == b"false".as_slice()
    } else if key == b"stripe_unit".as_slice() {
        unit(value).is_some()
    } else if key == b"mapping".as_slice() {
        is_mapping(value)
    } else if key == b"layers".as_slice() {
        has_layers
    } else {
        number(value).is_some()
    }
}

// Some characters, each `D` or `_`.
fn is_mapping(text: &[u8]) -> bool
    ensures { result ≡ is_mapping text.now }
{
    !text.is_empty() && text.iter().all(|b| is_place(*b))
}

fn is_place(b: u8) -> bool
    ensures { result ≡ is_place b }
{
    b == b'D' || b == b'_'
}
