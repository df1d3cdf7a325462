//! Input in memory for tests. It tells what is left, and fails when a test plans it.
ghost use Rattle.std.specs.Prelude.{◌≡◌, ◌≢◌, ◌<◌, ◌≤◌, ◌↔◌, ◌+◌, ◌-◌, ◌^◌, ℕ, List, Option, Some, min, drop, length, IfOk, IsErr};

use crate::{Failed, Source};
use ec_words::Bytes;

/// Input in memory. It takes no memory.
#[derive(Drop)]
pub struct MemSource {
    bytes: Bytes,
    at: usize,
    calls: u64,
    fail: Option<u64>,
    faults: u64,
}

impl MemSource {
    ghost use Rattle.rig_disk.specs.MemSource.{left_of, faults_of, calls_of, planned_of};

    /// Input of these bytes. The take with the number `fail`, from 1, fails once.
    pub fn new(bytes: Bytes, fail: Option<u64>) -> MemSource
        ensures left { left_of result ≡ bytes }
        ensures planned { planned_of result ≡ fail }
        ensures no_call { calls_of result ≡ 0 }
        ensures no_fault { faults_of result ≡ 0 }
    {
        MemSource {
            bytes,
            at: 0,
            calls: 0,
            fail,
            faults: 0,
        }
    }
}

impl Source for MemSource {
    ghost use Rattle.std.specs.Io.KnownBytes.{ReadConsumes};
    ghost use Rattle.rig_disk.specs.Faults.{HasCause};
    ghost use Rattle.rig_disk.specs.MemSource.{left_of, faults_of, calls_of, planned_of};

    ghost left = { λ source. Some (left_of source) };

    ghost faults = { faults_of };

    fn take(&mut self, into: &mut [u8]) -> Result<usize, Failed>
        requires { 0 < length into.old }
        ensures bound { IfOk result (λ count. count ≤ length into.new) }
        ensures bytes { ReadConsumes (Some (left_of self.old)) (Some (left_of self.new)) result into.new }
        ensures cause { HasCause (faults_of self.old) (faults_of self.new) result }
        ensures planned { IsErr result
            ↔ (planned_of self.old ≡ Some (min (calls_of self.old + 1) (2 ^ 64 - 1))) }
    {
        self.calls = self.calls.saturating_add(1);
        if self.fail == Some(self.calls) {
            self.fail = None;
            self.faults = self.faults.saturating_add(1);
            return Err(Failed);
        }
        let bytes = self.bytes.as_slice();
        if self.at >= bytes.len() {
            return Ok(0);
        }
        let rest = &bytes[self.at..];
        let count = rest.len().min(into.len());
        into[..count].copy_from_slice(&rest[..count]);
        self.at += count;
        Ok(count)
    }
}
