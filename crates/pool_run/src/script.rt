//! A script is read whole, and answered line by line.
ghost use Rattle.std.specs.Prelude.{◌≡◌, ◌≢◌, ◌≤◌, ℕ, [], ◌∷◌, length, map, IfOk, OnOk, Err};
ghost use Rattle.rig_disk.specs.Faults.{Rose};
ghost use Rattle.pool_run.specs.Lines.{is_kept, kept_lines};
ghost use Rattle.pool_run.specs.Script.{IsRun, ReadsAll, HadMore};
ghost use Rattle.pool_run.specs.Texts.{OneOf, max_input};

use crate::limits::MAX_INPUT;
use crate::session::{Session, Stop};
use crate::status::Status;
use ec_code::Code;
use ec_words::NoMemory;
use rig_disk::{Rig, Source, VOICE};
use std::alloc::Global;

/// The bytes that are taken from the input at once.
const PIECE: usize = 4096;

/// Why the input could not be read.
#[derive(Clone, Copy)]
pub enum InputFault {
    TooLong,
    Failed,
    NoMemory,
}

/// Reads the input to its end, of at most 65,536 bytes.
pub fn read_input<S: Source>(alloc: Global, source: &mut S) -> Result<Vec<u8>, InputFault>
    ensures whole { IfOk result (λ input. ReadsAll (S.left source.old) (S.left source.new) input.items) }
    ensures within { IfOk result (λ input. length input.items ≤ max_input) }
    ensures quiet { OnOk result (S.faults source.new ≡ S.faults source.old) }
    ensures too_long { result ≡ Err InputFault.TooLong → HadMore (S.left source.old) (S.left source.new) }
    ensures failed { result ≡ Err InputFault.Failed → Rose (S.faults source.old) (S.faults source.new) }
{
    let mut input: Vec<u8> = Vec::new(alloc);
    while input.len() <= MAX_INPUT {
        let mut piece = [0u8; PIECE];
        let Ok(count) = source.take(&mut piece) else {
            return Err(InputFault::Failed);
        };
        if count == 0 {
            return Ok(input);
        }
        if input.extend_from_slice(&piece[..count]).is_err() {
            return Err(InputFault::NoMemory);
        }
    }
    Err(InputFault::TooLong)
}

/// Answers each line of a script, from no objects. Objects are kept by this code with chunks of `unit` bytes.
pub fn run_script<R: Rig>(
    alloc: Global,
    script: &[u8],
    code: &dyn Code,
    unit: u32,
    rig: &mut R,
) -> Status
    requires some { 1 ≤ unit }
    requires few { unit ≤ 65536 }
    requires within { length script.now ≤ max_input }
    ensures statuses { OneOf result.0 (0 ∷ 1 ∷ 9 ∷ 13 ∷ []) }
    ensures run { IsRun script.now result.0 (R.said rig.old) (R.said rig.new) }
    ensures quiet { OneOf result.0 (0 ∷ 1 ∷ []) → R.faults rig.new VOICE ≡ R.faults rig.old VOICE }
    ensures voice { result.0 ≡ 9 → Rose (R.faults rig.old VOICE) (R.faults rig.new VOICE) }
    ensures slots { (slot : ℕ) → slot ≢ VOICE → R.faults rig.new slot ≡ R.faults rig.old slot }
{
    let Ok(lines) = kept_lines(alloc, script) else {
        return Status(13);
    };
    let mut session = Session::new(alloc);
    for line in &lines {
        match session.serve(line, code, unit, rig) {
            Ok(()) => {}
            Err(Stop::Voice) => return Status(9),
            Err(Stop::NoMemory) => return Status(13),
        }
    }
    session.status()
}

// The lines that count, without their line feeds.
fn kept_lines(alloc: Global, script: &[u8]) -> Result<Vec<&[u8]>, NoMemory>
    ensures { IfOk result (λ lines. map (λ line. line.now) lines.items ≡ kept_lines script.now) }
{
    let lines = script
        .split(|b| *b == b'\n')
        .filter(|line| is_kept(line))
        .collect(alloc)?;
    Ok(lines)
}

fn is_kept(line: &[u8]) -> bool
    ensures { result ≡ is_kept line.now }
{
    match line {
        [] => false,
        [first, ..] => *first != b'#',
    }
}
