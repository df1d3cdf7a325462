//! Codes of profiles of lrc, and profiles that are refused.
ghost use Rattle.std.specs.Prelude.{◌≡◌};

use crate::settings::{NONE, given};
use ec_code::{Code, Key, Layers, Mapping, Plugin, Profile, ProfileFault, Shape, row_of};
use lrc_layers::{Lrc, layers_of_kml};

/// A profile of a mapping and layers, and of k, m, l, stripe unit and min_size.
fn profile(mapping: Option<Mapping>, layers: Option<Layers>, numbers: [u32; 5]) -> Profile
    ensures { result.plugin ≡ Plugin.Lrc }
{
    let [k, m, l, stripe_unit, least] = numbers;
    Profile {
        plugin: Plugin::Lrc,
        k: given(k),
        m: given(m),
        c: None,
        l: given(l),
        w: None,
        technique: None,
        mapping,
        layers,
        stripe_unit,
        min_size: given(least),
    }
}

fn kml(k: u32, m: u32, l: u32) -> Profile
    ensures { result.plugin ≡ Plugin.Lrc }
{
    profile(None, None, [k, m, l, 4096, NONE])
}

/// Up to three layers; an empty text is no layer.
fn layers_of(texts: [&str; 3]) -> Layers {
    let mut layers = Layers::new();
    for text in texts {
        if !text.is_empty() && layers.count < 16 {
            layers.add(text.as_bytes());
        }
    }
    layers
}

fn written(mapping: &str, texts: [&str; 3]) -> Profile
    ensures { result.plugin ≡ Plugin.Lrc }
{
    let layers = layers_of(texts);
    let mapping = Mapping::of(mapping.as_bytes());
    profile(Some(mapping), Some(layers), [NONE, NONE, NONE, 4096, NONE])
}

/// What a code answers to a profile, as a fault's number, or 0.
fn answer(profile: &Profile) -> u8
    requires { profile.now.plugin ≡ Plugin.Lrc }
{
    match Lrc::new().init(profile) {
        Ok(()) => 0,
        Err(fault) => fault.number(),
    }
}

fn answer_to_numbers(numbers: [u32; 5]) -> u8 {
    answer(&profile(None, None, numbers))
}

fn answer_to_layers(mapping: &str, one: &str, other: &str) -> u8 {
    answer(&written(mapping, [one, other, ""]))
}

// By the table of faults: 7 SmallK, 8 SmallM, 9 TooMany, 10 Divides, 12 LayerInput, 14 Unit, 15 MinSize.
#[test]
fn numbers_are_refused_by_their_first_fault(rt: HostRuntime) {
    let rows: [([u32; 5], u8); 14] = [
        ([4, 2, 3, 4096, NONE], 0),
        ([0, 0, 0, 4096, NONE], 7),
        ([4, 0, 0, 4096, NONE], 8),
        ([10, 5, 3, 4096, NONE], 9),
        ([u32::MAX, u32::MAX, 1, 4096, NONE], 9),
        ([u32::MAX, u32::MAX, 0, 4096, NONE], 10),
        ([4, 2, 4, 4096, NONE], 10),
        ([4, 2, 262, 4096, NONE], 10),
        ([1, 1, 2, 4096, NONE], 12),
        ([4, 2, 3, 33, 3], 14),
        ([4, 2, 3, 4096, 3], 15),
        ([4, 2, 3, 4096, 4], 0),
        ([4, 2, 3, 4096, 8], 0),
        ([4, 2, 3, 4096, 9], 15),
    ];
    for (numbers, number) in rows {
        assert!(rt; answer_to_numbers(numbers) == number, "at {numbers:?}");
    }
}

// By the table of faults: 7 SmallK, 8 SmallM, 9 TooMany, 11 LayerLength, 12 LayerInput, 13 LayerOutput.
#[test]
fn layers_are_refused_by_their_first_fault(rt: HostRuntime) {
    let rows: [(&str, &str, &str, u8); 16] = [
        ("DD_", "DDc", "", 0),
        ("", "", "", 7),
        ("___", "Dc", "", 7),
        ("________________D", "", "", 9),
        ("DD", "D", "", 8),
        ("DDDDDDDDDDDDDDDDD", "", "", 8),
        ("DDDDDDDDDDDDDDDD_", "D", "", 9),
        ("DD__", "DDc", "", 11),
        ("DD__", "DDDc", "DDc__", 11),
        ("DD__", "D_c_", "DD_c", 12),
        ("DD__", "DDDc", "DDc_", 12),
        ("DD__", "", "", 13),
        ("DD__", "DDc_", "", 13),
        ("DD__", "DDcc", "DD_c", 13),
        ("DDD_", "DDc_", "DDDc", 13),
        ("DD__", "DDcc", "DD__", 13),
    ];
    for (mapping, one, other, number) in rows {
        assert!(rt;
            answer_to_layers(mapping, one, other) == number,
            "at {mapping} {one} {other}"
        );
    }
}

/// Whether a profile is refused for want of a key.
fn misses(mapping: Option<Mapping>, layers: Option<Layers>, numbers: [u32; 3], key: Key) -> bool {
    let [k, m, l] = numbers;
    let profile = profile(mapping, layers, [k, m, l, 4096, NONE]);
    Lrc::new().init(&profile) == Err(ProfileFault::Missing(key))
}

#[test]
fn the_missing_key_is_the_first(rt: HostRuntime) {
    let mapping = Some(Mapping::of(b"DD_"));
    let layers = Some(Layers::new());
    assert!(rt; misses(mapping, layers, [NONE, 2, NONE], Key::K));
    assert!(rt; misses(None, None, [4, NONE, NONE], Key::L));
    assert!(rt; misses(None, None, [4, NONE, 3], Key::M));
    assert!(rt; misses(None, None, [NONE, NONE, NONE], Key::Layers));
    assert!(rt; misses(mapping, None, [NONE, NONE, NONE], Key::Layers));
    assert!(rt; misses(None, layers, [NONE, NONE, NONE], Key::Mapping));
}

/// Whether the kept part of a text is this text.
fn is_text(first: &[u8; 16], len: usize, text: &str) -> bool {
    len == text.len() && len <= 16 && &first[..len] == text.as_bytes()
}

fn are_texts(layers: &Layers, texts: &[&str]) -> bool {
    if layers.count as usize != texts.len() {
        return false;
    }
    for i in 0..usize::min(16, texts.len()) {
        let layer = layers.each[i];
        if !is_text(&layer.first, layer.len, texts[i]) {
            return false;
        }
    }
    true
}

/// Whether three numbers make this mapping and these layers.
fn makes(k: u8, m: u8, l: u8, mapping: &str, texts: &[&str]) -> bool {
    if k == 0 || m == 0 {
        return false;
    }
    match layers_of_kml(k, m, l) {
        Ok((made, layers)) => {
            is_text(&made.first, made.len, mapping)
                && made.data_chunks == k as usize
                && are_texts(&layers, texts)
        }
        Err(_) => false,
    }
}

// By the rule, with g = (k + m) / l groups of l + 1.
#[test]
fn numbers_make_a_global_layer_and_a_local_one_a_group(rt: HostRuntime) {
    assert!(rt; makes(4, 2, 3, "DD__DD__", &["DDc_DDc_", "DDDc____", "____DDDc"]));
    assert!(rt; makes(2, 1, 3, "DD__", &["DDc_", "DDDc"]));
    let texts = [
        "Dc_Dc_Dc_Dc_",
        "DDc_________",
        "___DDc______",
        "______DDc___",
        "_________DDc",
    ];
    assert!(rt; makes(4, 4, 2, "D__D__D__D__", &texts));
}

/// Why three numbers are refused, as a fault's number, or 0.
fn refusal(k: u8, m: u8, l: u8) -> u8 {
    if k == 0 || m == 0 {
        return 255;
    }
    match layers_of_kml(k, m, l) {
        Ok(_) => 0,
        Err(fault) => fault.number(),
    }
}

// By the rule: 9 is TooMany, 10 is Divides.
#[test]
fn uneven_groups_and_many_positions_are_refused(rt: HostRuntime) {
    let rows = [
        ((4, 2, 4), 10),
        ((4, 2, 0), 10),
        ((4, 2, 7), 10),
        ((5, 1, 3), 10),
        ((4, 2, 6), 0),
        ((8, 4, 3), 0),
        ((8, 4, 2), 9),
        ((10, 5, 3), 9),
        ((255, 255, 255), 9),
        ((255, 255, 0), 10),
        ((1, 1, 2), 0),
    ];
    for ((k, m, l), number) in rows {
        assert!(rt; refusal(k, m, l) == number, "at {k} {m} {l}");
    }
}

/// Whether the row of a position begins with these entries.
fn has_row(code: &dyn Code, p: u8, entries: [u8; 4]) -> bool {
    if code.shape().n <= p {
        return false;
    }
    let row = row_of(code, p);
    &row[..4] == entries.as_slice()
}

/// Whether data chunk `j` stands at a position.
fn stands_at(code: &dyn Code, j: u8, place: u8) -> bool {
    j < code.shape().k && code.place(j) == place
}

// The known rows; the row of a local layer is the sum of its inputs' rows. A refused profile leaves the code.
#[test]
fn the_rows_are_made_layer_by_layer(rt: HostRuntime) {
    let mut code = Lrc::new();
    assert!(rt; code.named("lrc") && !code.named("jerasure"));
    let profile = written("__DD__DD", ["_cDD_cDD", "cDDD____", "____cDDD"]);
    assert!(rt; code.init(&profile).is_ok());
    assert!(rt; code.init(&kml(4, 2, 4)).is_err());
    let (k, n, lead) = (4, 8, 4);
    assert!(rt; code.shape() == Shape { k, n, lead });
    assert!(rt; stands_at(&code, 0, 2) && stands_at(&code, 1, 3));
    assert!(rt; stands_at(&code, 2, 6) && stands_at(&code, 3, 7));
    let rows: [[u8; 4]; 8] = [
        [0, 0, 1, 1],
        [1, 1, 1, 1],
        [1, 0, 0, 0],
        [0, 1, 0, 0],
        [1, 0x46, 0x8e, 0xc9],
        [1, 0x46, 0x8f, 0xc8],
        [0, 0, 1, 0],
        [0, 0, 0, 1],
    ];
    for p in 0..8u8 {
        assert!(rt; has_row(&code, p, rows[p as usize]), "row {p}");
    }
}

// The inputs of a layer are numbered in the layer: the first layer has the data chunks 1 and 2 as its inputs 0 and 1. By hand,
// row 4 is the second row for two inputs and two outputs, 1 and 0x8f; row 5 is the sum of the three data rows.
#[test]
fn inputs_are_numbered_in_their_layer(rt: HostRuntime) {
    let mut code = Lrc::new();
    assert!(rt;
        code.init(&written("DDD___", ["_DDcc_", "DDD__c", ""]))
            .is_ok()
    );
    assert!(rt; has_row(&code, 3, [0, 1, 1, 0]));
    assert!(rt; has_row(&code, 4, [0, 1, 0x8f, 0]));
    assert!(rt; has_row(&code, 5, [1, 1, 1, 0]));
}

/// The chunks of one stripe of two bytes, if the code has two data chunks and four positions.
fn chunks(code: &dyn Code, stripe: [u8; 2]) -> [u8; 4] {
    let mut out = [0u8; 4];
    let shape = code.shape();
    if shape.k == 2 && shape.n == 4 {
        code.encode_unit(&stripe, 1, &mut out);
    }
    out
}

// By hand: the global output is 5 + 9 = 12, and the local one 5 + 9 + 12 = 0.
#[test]
fn a_stripe_is_encoded_by_hand(rt: HostRuntime) {
    let mut code = Lrc::new();
    assert!(rt; code.init(&kml(2, 1, 3)).is_ok());
    assert!(rt; chunks(&code, [5, 9]) == [5, 9, 12, 0]);
}
