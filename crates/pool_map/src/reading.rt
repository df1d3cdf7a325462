//! Reading a step off the front of a text.
ghost use Rattle.std.specs.Prelude.{◌≡◌, ◌⊎◌, IfOk, IfErr, Some, None, Err};
ghost use Rattle.ec_words.specs.Readers.{read_counted};
ghost use Rattle.pool_map.specs.StepReading.{read_mask, read_lines, read_begin, read_alive, read_mark, read_kind, read_step};
ghost use Rattle.pool_map.specs.Meanings.{step_of};

use crate::MapFault;
use crate::step::Step;
use ec_words::{Bytes, Mask, Reader};
use std::alloc::Global;
use std::marker::Model;

/// What is left of a text. A contract sees these bytes. After an `Err` nothing is said of them.
#[derive(Drop)]
pub(crate) struct StepReader<'a> {
    alloc: Global,
    front: Reader<'a>,
}

impl<'a> Model for StepReader<'a> {
    ghost use Rattle.std.specs.Prelude.{List, ℕ};

    ghost Value = { List ℕ };

    ghost view = { λ r. r.front };
}

impl<'a> StepReader<'a> {
    pub fn new(alloc: Global, text: &'a [u8]) -> StepReader<'a>
        ensures { result ≡ text.now }
    {
        StepReader {
            alloc,
            front: Reader::new(text),
        }
    }

    /// The bytes that are left.
    pub fn rest(&self) -> &'a [u8]
        ensures { result.now ≡ self.now }
    {
        self.front.rest()
    }

    /// A set of positions in two bytes.
    fn mask(&mut self) -> Result<Mask, MapFault>
        ensures value { IfOk result (λ mask. read_mask self.old ≡ Some (mask.0, self.new)) }
        ensures no_step { result ≡ Err MapFault.BadMap → read_mask self.old ≡ None }
        ensures plain { IfErr result (λ fault. (fault ≡ MapFault.BadMap) ⊎ (fault ≡ MapFault.NoMemory)) }
    {
        let high = self.front.byte()?;
        let low = self.front.byte()?;
        Ok(Mask(u16::from(high) * 256 + u16::from(low)))
    }

    /// A number in four bytes, and as many bytes.
    fn counted(&mut self) -> Result<Bytes, MapFault>
        ensures value { IfOk result (λ bytes. read_counted self.old ≡ Some (bytes, self.new)) }
        ensures no_step { result ≡ Err MapFault.BadMap → read_counted self.old ≡ None }
        ensures plain { IfErr result (λ fault. (fault ≡ MapFault.BadMap) ⊎ (fault ≡ MapFault.NoMemory)) }
    {
        let len = self.front.number()?;
        let bytes = self.front.list(len as usize)?;
        Ok(Bytes::from_slice(self.alloc, bytes)?)
    }

    fn lines(&mut self) -> Result<Step, MapFault>
        ensures value { IfOk result (λ step. read_lines self.old ≡ Some (step_of step, self.new)) }
        ensures no_step { result ≡ Err MapFault.BadMap → read_lines self.old ≡ None }
        ensures plain { IfErr result (λ fault. (fault ≡ MapFault.BadMap) ⊎ (fault ≡ MapFault.NoMemory)) }
    {
        Ok(Step::Profile(self.counted()?))
    }

    fn begin(&mut self) -> Result<Step, MapFault>
        ensures value { IfOk result (λ step. read_begin self.old ≡ Some (step_of step, self.new)) }
        ensures no_step { result ≡ Err MapFault.BadMap → read_begin self.old ≡ None }
        ensures plain { IfErr result (λ fault. (fault ≡ MapFault.BadMap) ⊎ (fault ≡ MapFault.NoMemory)) }
    {
        let epoch = self.front.number()?;
        let up = self.mask()?;
        Ok(Step::Begin { epoch, up })
    }

    fn alive(&mut self) -> Result<Step, MapFault>
        ensures value { IfOk result (λ step. read_alive self.old ≡ Some (step_of step, self.new)) }
        ensures no_step { result ≡ Err MapFault.BadMap → read_alive self.old ≡ None }
        ensures plain { IfErr result (λ fault. (fault ≡ MapFault.BadMap) ⊎ (fault ≡ MapFault.NoMemory)) }
    {
        let epoch = self.front.number()?;
        let joined = self.mask()?;
        let base = self.front.version()?;
        Ok(Step::Alive {
            epoch,
            joined,
            base,
        })
    }

    fn mark(&mut self) -> Result<Step, MapFault>
        ensures value { IfOk result (λ step. read_mark self.old ≡ Some (step_of step, self.new)) }
        ensures no_step { result ≡ Err MapFault.BadMap → read_mark self.old ≡ None }
        ensures plain { IfErr result (λ fault. (fault ≡ MapFault.BadMap) ⊎ (fault ≡ MapFault.NoMemory)) }
    {
        let slot = self.front.byte()?;
        let down = self.front.byte()?;
        Ok(Step::Mark { slot, down })
    }

    /// A step of this kind.
    fn of_kind(&mut self, kind: u8) -> Result<Step, MapFault>
        ensures value { IfOk result (λ step. read_kind kind self.old ≡ Some (step_of step, self.new)) }
        ensures no_step { result ≡ Err MapFault.BadMap → read_kind kind self.old ≡ None }
        ensures plain { IfErr result (λ fault. (fault ≡ MapFault.BadMap) ⊎ (fault ≡ MapFault.NoMemory)) }
    {
        match kind {
            1 => self.lines(),
            2 => self.begin(),
            3 => self.alive(),
            4 => self.mark(),
            _ => Err(MapFault::BadMap),
        }
    }

    /// The step that the text begins with.
    pub fn step(&mut self) -> Result<Step, MapFault>
        ensures value { IfOk result (λ step. read_step self.old ≡ Some (step_of step, self.new)) }
        ensures no_step { result ≡ Err MapFault.BadMap → read_step self.old ≡ None }
        ensures plain { IfErr result (λ fault. (fault ≡ MapFault.BadMap) ⊎ (fault ≡ MapFault.NoMemory)) }
    {
        let kind = self.front.byte()?;
        self.of_kind(kind)
    }
}
