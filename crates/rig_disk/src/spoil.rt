//! A byte of slots in memory that differs from what was written, as if it had been so from the first.
ghost use Rattle.std.specs.Prelude.{◌≡◌, map};
ghost use Rattle.rig_disk.specs.Spoil.{spoiled_call};

use crate::call::Call;
use crate::slot_areas::with_byte;
use std::mem;

/// Changes the byte in each call that wrote it.
pub fn spoil_calls(calls: &mut Vec<Call>, slot: u8, area: u8, at: u64, byte: u8)
    ensures { calls.new.items ≡ map (spoiled_call slot area at byte) calls.old.items }
{
    for index in 0..calls.len() {
        let call = mem::replace(&mut calls[index], Call::Sync { slot, area });
        calls[index] = spoil_call(call, slot, area, at, byte);
    }
}

fn spoil_call(call: Call, slot: u8, area: u8, at: u64, byte: u8) -> Call
    ensures { result ≡ spoiled_call slot area at byte call }
{
    match call {
        Call::Write {
            slot: its_slot,
            area: its_area,
            at: from,
            bytes,
        } => {
            let wrote = its_slot == slot && its_area == area && from <= at;
            let bytes = if wrote {
                with_byte(bytes, at - from, byte)
            } else {
                bytes
            };
            Call::Write {
                slot: its_slot,
                area: its_area,
                at: from,
                bytes,
            }
        }
        other => other,
    }
}
