//! The map that the bodies of a text's records are.
ghost use Rattle.std.specs.Prelude.{◌≡◌, ◌⊎◌, ◌≤◌, ◌++◌, ◌∷◌, ℕ, List, IfOk, IfErr, Err};
ghost use Rattle.ec_words.specs.Readers.{IsCounted};
ghost use Rattle.map_model.specs.States.{MapState, new_state};
ghost use Rattle.plugin_reg.specs.Boxes.{HaveEachPlugin, KeepNames};
ghost use Rattle.pool_map.specs.Boxes.{IsOpened};
ghost use Rattle.pool_map.specs.Maps.{PoolImage, LeadAll, IsMapOf, map_format};
ghost use Rattle.pool_map.specs.Meanings.{state_of, image_of};
ghost use Rattle.pool_map.specs.Steps.{step_bytes};
ghost use Rattle.map_model.specs.Steps as steps;

use crate::MapFault;
use crate::profiles::open_lines;
use crate::reading::StepReader;
use crate::state::State;
use crate::step::Step;
use ec_code::Code;
use ec_words::Bytes;
use plugin_reg::Opened;
use std::alloc::Global;

/// The lines of a map's first step, and the bytes behind it.
#[derive(Drop)]
pub(crate) struct First<'a> {
    pub lines: Bytes,
    pub rest: &'a [u8],
}

/// The map's first step: its profile.
fn read_first<'a>(alloc: Global, body: &'a [u8]) -> Result<First<'a>, MapFault>
    ensures counted { IfOk result (λ first. IsCounted first.lines) }
    ensures bytes { IfOk result (λ first. body.now ≡ step_bytes (steps.Profile first.lines) ++ first.rest.now) }
    ensures only { IfOk result (λ first. (lines rest : List ℕ) → IsCounted lines → body.now ≡ step_bytes (steps.Profile lines) ++ rest
        → (lines ≡ first.lines) × (rest ≡ first.rest.now)) }
    ensures bad { result ≡ Err MapFault.BadMap → (lines rest : List ℕ) → IsCounted lines → body.now ≡ step_bytes (steps.Profile lines) ++ rest → ⊥ }
    ensures plain { IfErr result (λ fault. (fault ≡ MapFault.BadMap) ⊎ (fault ≡ MapFault.NoMemory)) }
{
    let mut reader = StepReader::new(alloc, body);
    match reader.step()? {
        Step::Profile(lines) => Ok(First {
            lines,
            rest: reader.rest(),
        }),
        _ => Err(MapFault::BadMap),
    }
}

/// The intervals and marks that the steps behind the profile make.
fn read_state(alloc: Global, n: u8, rest: &[u8], more: &[Bytes]) -> Result<State, MapFault>
    requires { n ≤ 16 }
    ensures n { IfOk result (λ state. state.n ≡ n) }
    ensures ok { IfOk result (λ state. LeadAll n (new_state map_format) (rest.now ∷ more.now) (state_of state)) }
    ensures bad { result ≡ Err MapFault.BadMap → (other : MapState) → LeadAll n (new_state map_format) (rest.now ∷ more.now) other → ⊥ }
    ensures plain { IfErr result (λ fault. (fault ≡ MapFault.BadMap) ⊎ (fault ≡ MapFault.NoMemory)) }
{
    let mut state = State::new(alloc, n);
    state.add_body(alloc, rest)?;
    state.add_bodies(alloc, more)?;
    Ok(state)
}

/// The map that some bodies are, and the box that is the code of its profile.
pub(crate) fn read_map(
    alloc: Global,
    k: u8,
    n: u8,
    unit: u32,
    bodies: &[Bytes],
    codes: &mut [Box<dyn Code>],
) -> Result<(State, Opened), MapFault>
    requires { HaveEachPlugin (λ box. plugin_name box) codes.old }
    ensures ok { IfOk result (λ read. IsMapOf k unit map_format bodies.now (image_of read.1.profile read.0)) }
    ensures n { IfOk result (λ read. read.0.n ≡ n) }
    ensures opened { IfOk result (λ read. IsOpened (λ box. plugin_name box) (λ box. meaning box)
        read.1.profile n codes.old codes.new read.1.index) }
    ensures bad { result ≡ Err MapFault.BadMap → (m : PoolImage) → m.n ≡ n → IsMapOf k unit map_format bodies.now m → ⊥ }
    ensures plain { IfErr result (λ fault. (fault ≡ MapFault.BadMap) ⊎ (fault ≡ MapFault.NoMemory)) }
    ensures boxes { KeepNames (λ box. plugin_name box) codes.old codes.new }
{
    if bodies.is_empty() {
        return Err(MapFault::BadMap);
    }
    let first = read_first(alloc, bodies[0].as_slice())?;
    let opened = open_lines(alloc, first.lines.as_slice(), k, n, unit, codes)?;
    let state = read_state(alloc, n, first.rest, &bodies[1..])?;
    Ok((state, opened))
}
