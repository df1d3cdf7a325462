//! The wanted positions, after the code is known.
ghost use Rattle.std.specs.Prelude.{◌≡◌, ◌≤◌, ◌⊎◌, ℕ, IfOk, IfErr, length};
ghost use Rattle.ec_files.specs.Chunks.{AreBelow, IsSetOf};
ghost use Rattle.ec_files.specs.declared.stop.Stop.TheVariants.{Usage, NoMemory as OutOfMemory};

use crate::stop::Stop;
use ec_words::Mask;
use std::alloc::Global;

/// The wanted numbers as positions below `n`.
pub fn positions(alloc: Global, wanted: &[u64], n: u8) -> Result<Vec<u8>, Stop>
    ensures same { IfOk result (λ list. list.items ≡ wanted.now) }
    ensures below { IfOk result (λ list. AreBelow n wanted.now) }
    ensures outside { IfErr result (λ stop. (stop ≡ OutOfMemory) ⊎ ((stop ≡ Usage) × (AreBelow n wanted.now → ⊥))) }
{
    let mut list = Vec::new(alloc);
    for p in wanted {
        if *p >= u64::from(n) {
            return Err(Stop::Usage);
        }
        list.push(*p as u8)?;
    }
    Ok(list)
}

/// The set of some positions.
pub fn set_of(positions: &[u8]) -> Mask
    requires { AreBelow 16 positions.now }
    ensures { IsSetOf positions.now result.0 }
{
    let mut bits = 0u16;
    for p in positions {
        bits |= 1u16 << *p;
    }
    Mask(bits)
}
