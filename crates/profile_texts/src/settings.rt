//! The settings of a profile's text: `KEY=VALUE` pieces between the commas and line feeds that stand outside brackets,
//! without the blanks and line feeds at their ends. Empty pieces are left out.
ghost use Rattle.std.specs.Prelude.{◌≡◌, ◌==◌, ◌&&◌, ◌<◌, ◌≤◌, ◌+◌, ◌^◌, length, map, IfOk, IsOk, IfSome, IsSome, IsNone, Err, true, false};
ghost use Rattle.std.specs.List.{position_or_len, list_all};
ghost use Rattle.std.specs.Option.{option_map};
ghost use Rattle.ec_code.specs.Settings.{is_blank, is_parting, level_after, pieces_from, untrailed, trimmed, is_equals, is_setting, setting_of, has_settings, settings_of, value_of};
ghost use Rattle.profile_texts.specs.SettingTexts.{unled, bytes_of, texts_in, shown_setting, shown};
ghost use Rattle.profile_texts.specs.declared.settings.SettingsFault.TheVariants.{NoMemory as OutOfMemory};

use ec_words::NoMemory;
use std::alloc::{AllocFailed, Global};

/// A setting of a profile's text.
#[derive(Clone, Copy)]
pub struct SettingText<'a> {
    pub key: &'a [u8],
    pub value: &'a [u8],
}

/// Why a text could not be read as settings.
#[derive(Clone, Copy)]
pub enum SettingsFault {
    /// A piece has no `=`, or nothing before it.
    Setting,
    NoMemory,
}

impl From<NoMemory> for SettingsFault {
    ghost from_gives = { λ _ fault. fault ≡ OutOfMemory };

    fn from(_: NoMemory) -> SettingsFault {
        SettingsFault::NoMemory
    }
}

impl<T: Drop> From<AllocFailed<T>> for SettingsFault {
    ghost from_gives = { λ _ fault. fault ≡ OutOfMemory };

    fn from(_: AllocFailed<T>) -> SettingsFault {
        SettingsFault::NoMemory
    }
}

/// The settings of a text, in its order.
pub fn read_settings<'a>(
    alloc: Global,
    text: &'a [u8],
) -> Result<Vec<SettingText<'a>>, SettingsFault>
    ensures value { IfOk result (λ list. shown list.items ≡ settings_of text.now) }
    ensures whole { IsOk result → has_settings text.now ≡ true }
    ensures setting { result ≡ Err SettingsFault.Setting → has_settings text.now ≡ false }
{
    let pieces = pieces(alloc, text)?;
    settings_in(alloc, &pieces)
}

/// The value of a key: that of the last setting with this key.
pub fn value_of<'a>(settings: &[SettingText<'a>], key: &[u8]) -> Option<&'a [u8]>
    ensures { option_map (λ v. v.now) result ≡ value_of (shown settings.now) key.now }
{
    let mut value = None;
    for setting in settings {
        if setting.key == key {
            value = Some(setting.value);
        }
    }
    value
}

// The settings that some pieces spell.
fn settings_in<'a>(
    alloc: Global,
    pieces: &[&'a [u8]],
) -> Result<Vec<SettingText<'a>>, SettingsFault>
    ensures value { IfOk result (λ list. shown list.items ≡ map setting_of (texts_in (bytes_of pieces.now))) }
    ensures whole { IsOk result → list_all is_setting (texts_in (bytes_of pieces.now)) ≡ true }
    ensures setting { result ≡ Err SettingsFault.Setting → list_all is_setting (texts_in (bytes_of pieces.now)) ≡ false }
{
    let mut list = Vec::new(alloc);
    for piece in pieces {
        let text = trimmed(piece);
        if !text.is_empty() {
            let Some(setting) = setting(text) else {
                return Err(SettingsFault::Setting);
            };
            list.push(setting)?;
        }
    }
    Ok(list)
}

// The pieces between the commas and line feeds outside brackets.
#[tactic(auto, using(crate::proofs::SettingLemmas::pieces_left_begun))]
fn pieces(alloc: Global, text: &[u8]) -> Result<Vec<&[u8]>, NoMemory>
    ensures { IfOk result (λ pieces. bytes_of pieces.items ≡ pieces_from 0 text.now) }
{
    let mut list = Vec::new(alloc);
    let mut start = 0;
    let mut level: usize = 0;
    for i in 0..text.len() {
        let b = text[i];
        if is_parted(level, b) {
            list.push(&text[start..i])?;
            start = i + 1;
        } else {
            level = level_after(level, b);
        }
    }
    list.push(&text[start..])?;
    Ok(list)
}

fn is_parted(level: usize, b: u8) -> bool
    ensures { result ≡ (level == 0) && is_parting b }
{
    level == 0 && (b == b',' || b == b'\n')
}

fn level_after(level: usize, b: u8) -> usize
    requires { level < 2 ^ 63 }
    ensures value { result ≡ level_after level b }
    ensures within { result ≤ level + 1 }
{
    match b {
        b'[' => level + 1,
        b']' => level.saturating_sub(1),
        _ => level,
    }
}

fn is_blank(b: u8) -> bool
    ensures { result ≡ is_blank b }
{
    b == b' ' || b == b'\t' || b == b'\n'
}

// A text without the blanks and line feeds at its ends.
fn trimmed(text: &[u8]) -> &[u8]
    ensures { result.now ≡ trimmed text.now }
{
    untrailed(unled(text))
}

pub fn unled(text: &[u8]) -> &[u8]
    ensures { result.now ≡ unled text.now }
{
    let mut start = 0;
    while start < text.len() && is_blank(text[start]) {
        start += 1;
    }
    &text[start..]
}

fn untrailed(text: &[u8]) -> &[u8]
    ensures { result.now ≡ untrailed text.now }
{
    let mut end = text.len();
    while end > 0 && is_blank(text[end - 1]) {
        end -= 1;
    }
    &text[..end]
}

// The place of the first `=`, or the length.
fn equals_at(text: &[u8]) -> usize
    ensures place { result ≡ position_or_len is_equals text.now }
    ensures within { result ≤ length text.now }
{
    let mut i = 0;
    while i < text.len() && text[i] != b'=' {
        i += 1;
    }
    i
}

// The setting that a text spells. `None` if it spells none.
fn setting(text: &[u8]) -> Option<SettingText>
    ensures some { IfSome result (λ s. shown_setting s ≡ setting_of text.now) }
    ensures whole { IsSome result → is_setting text.now ≡ true }
    ensures none { IsNone result → is_setting text.now ≡ false }
{
    let at = equals_at(text);
    if at == 0 || at == text.len() {
        return None;
    }
    Some(SettingText {
        key: &text[..at],
        value: &text[at + 1..],
    })
}
