//! The mapping and the layers that three numbers make.
ghost use Rattle.std.specs.Prelude.{◌≡◌, ◌↔◌, ◌+◌, ◌<◌, ◌≤◌, ℕ, IsTrue, IsOk, IfOk, Err, length, map, slice_index};
ghost use Rattle.std.specs.List.{range_with_len};
ghost use Rattle.ec_model.specs.Lrc.{data_count, HasManyPositions, HasUnevenGroups, MakesGroups, mapping_of, layers_of, mapping_mark, global_mark, local_mark};
ghost use Rattle.ec_code.specs.Mappings.{layer_at};
ghost use Rattle.ec_code.specs.LrcFaults.{mapping_text, text_of_layer, layer_texts};

use ec_code::{Layers, Mapping, ProfileFault};

/// Whether three numbers make more than 16 positions.
pub fn has_many_positions(k: u32, m: u32, l: u32) -> bool
    ensures { IsTrue result ↔ HasManyPositions k m l }
{
    let chunks = u64::from(k) + u64::from(m);
    0 < l && 16 < chunks + chunks / u64::from(l)
}

/// Whether groups of `l` do not share k and m evenly.
pub fn has_uneven_groups(k: u32, m: u32, l: u32) -> bool
    requires { 1 ≤ k }
    ensures { IsTrue result ↔ HasUnevenGroups k m l }
{
    let (k, m, l) = (u64::from(k), u64::from(m), u64::from(l));
    if l == 0 || (k + m) % l != 0 {
        return true;
    }
    let groups = (k + m) / l;
    k % groups != 0 || m % groups != 0
}

/// The marks of a mapping of `n` positions, in groups of `l` + 1 positions with `d` data chunks each.
fn mapping_marks(d: u8, l: u8, n: u8) -> [u8; 16]
    requires n { n ≤ 16 }
    requires l { l ≤ 16 }
    ensures value { (p : ℕ) → p < n → slice_index result p ≡ mapping_mark d l p }
    ensures long { length result ≡ 16 }
{
    let mut marks = [0u8; 16];
    for p in 0..n {
        marks[p as usize] = if p % (l + 1) < d { b'D' } else { b'_' };
    }
    marks
}

/// The marks of the global layer.
fn global_marks(d: u8, l: u8, n: u8) -> [u8; 16]
    requires n { n ≤ 16 }
    requires l { l ≤ 16 }
    ensures value { (p : ℕ) → p < n → slice_index result p ≡ global_mark d l p }
    ensures long { length result ≡ 16 }
{
    let mut marks = [0u8; 16];
    for p in 0..n {
        let place = p % (l + 1);
        marks[p as usize] = if place < d {
            b'D'
        } else if place < l {
            b'c'
        } else {
            b'_'
        };
    }
    marks
}

/// The marks of the local layer of group `h`.
fn local_marks(h: u8, l: u8, n: u8) -> [u8; 16]
    requires n { n ≤ 16 }
    requires l { l ≤ 16 }
    ensures value { (p : ℕ) → p < n → slice_index result p ≡ local_mark h l p }
    ensures long { length result ≡ 16 }
{
    let mut marks = [0u8; 16];
    for p in 0..n {
        marks[p as usize] = if p / (l + 1) != h {
            b'_'
        } else if p % (l + 1) < l {
            b'D'
        } else {
            b'c'
        };
    }
    marks
}

/// The global layer, and a local layer for each group.
fn layers_with(d: u8, l: u8, n: u8, groups: u8) -> Layers
    requires n { n ≤ 16 }
    requires l { l ≤ 16 }
    requires groups { groups < 16 }
    ensures count { result.count ≡ groups + 1 }
    ensures global { text_of_layer (layer_at result.each 0) ≡ map (global_mark d l) (range_with_len 0 n) }
    ensures locals { (h : ℕ) → h < groups
        → text_of_layer (layer_at result.each (h + 1)) ≡ map (local_mark h l) (range_with_len 0 n) }
{
    let mut layers = Layers::new();
    layers.add(&global_marks(d, l, n)[..n as usize]);
    for h in 0..groups {
        layers.add(&local_marks(h, l, n)[..n as usize]);
    }
    layers
}

/// The mapping and the layers of three numbers that make groups.
pub fn made_by(k: u8, m: u8, l: u8) -> (Mapping, Layers)
    requires { MakesGroups k m l }
    ensures mapping { mapping_text result.0 ≡ mapping_of k m l }
    ensures data_chunks { result.0.data_chunks ≡ k }
    ensures marks { data_count (mapping_text result.0) ≡ k }
    ensures layers { layer_texts result.1 ≡ layers_of k m l }
{
    let groups = (k + m) / l;
    let n = k + m + groups;
    let d = k / groups;
    let mapping = Mapping::of(&mapping_marks(d, l, n)[..n as usize]);
    (mapping, layers_with(d, l, n, groups))
}

/// The mapping and the layers of k data chunks and m coding chunks: a global layer, and a local one for each l positions.
pub fn layers_of_kml(k: u8, m: u8, l: u8) -> Result<(Mapping, Layers), ProfileFault>
    requires k { 1 ≤ k }
    requires m { 1 ≤ m }
    ensures mapping { IfOk result (λ made. mapping_text made.0 ≡ mapping_of k m l) }
    ensures data_chunks { IfOk result (λ made. made.0.data_chunks ≡ k) }
    ensures marks { IfOk result (λ made. data_count (mapping_text made.0) ≡ k) }
    ensures layers { IfOk result (λ made. layer_texts made.1 ≡ layers_of k m l) }
    ensures groups { IsOk result ↔ MakesGroups k m l }
    ensures too_many { (result ≡ Err ProfileFault.TooMany) ↔ HasManyPositions k m l }
    ensures divides { (result ≡ Err ProfileFault.Divides)
        ↔ ((HasManyPositions k m l → ⊥) × HasUnevenGroups k m l) }
{
    if has_many_positions(u32::from(k), u32::from(m), u32::from(l)) {
        Err(ProfileFault::TooMany)
    } else if has_uneven_groups(u32::from(k), u32::from(m), u32::from(l)) {
        Err(ProfileFault::Divides)
    } else {
        Ok(made_by(k, m, l))
    }
}
