//! When an update is refused, by what one shard tells.
ghost use Rattle.std.specs.Prelude.{◌≡◌, ◌≤◌, ◌-◌, None, is_none, length};
ghost use Rattle.std.specs.Option.{option_copied};
ghost use Rattle.shard_model.specs.Limits.{max_size, max_value};
ghost use Rattle.ec_positions.specs.Updates.{Delete, SetAttr, RemoveAttr};
ghost use Rattle.ec_pipeline.specs.Refusals.{IsRefusalFor, IsRefusalOfPut, IsRefusalOfValue, size_in};

use crate::Refusal;
use crate::limits::{MAX_ATTRS, MAX_OBJECTS, MAX_SIZE, MAX_USAGE, MAX_VALUE};
use ec_words::Name;
use shard_state::{Held, ShardState};

/// The refusal of bytes that are put into an object, which has `size` bytes then.
pub(crate) fn put_refusal(state: &ShardState, name: &Name, size: u64) -> Option<Refusal>
    ensures meant { IsRefusalOfPut state.now.state.objects name.now size result }
    ensures small { result ≡ None → size ≤ max_size }
{
    let held = state.object(name);
    if size > MAX_SIZE {
        return Some(Refusal::TooLarge);
    }
    if is_absent(held) && state.count() >= MAX_OBJECTS {
        return Some(Refusal::Objects);
    }
    if state.usage().saturating_add(size) > MAX_USAGE + u64::from(size_of(held)) {
        return Some(Refusal::Full);
    }
    None
}

/// The size of an object in bytes, and 0 if there is none.
fn size_of(held: Option<&Held>) -> u32
    ensures { result ≡ size_in (option_copied held.entry) }
{
    match held {
        Some(held) => held.size,
        None => 0,
    }
}

fn is_absent(held: Option<&Held>) -> bool
    ensures { result ≡ is_none (option_copied held.entry) }
{
    match held {
        Some(_) => false,
        None => true,
    }
}

/// The refusal of an object's removal.
pub(crate) fn delete_refusal(state: &ShardState, name: &Name) -> Option<Refusal>
    ensures { IsRefusalFor state.now.state.objects (Delete name.now) result }
{
    match state.object(name) {
        None => Some(Refusal::Absent),
        Some(_) => None,
    }
}

/// The refusal of an attribute's removal.
pub(crate) fn remove_refusal(state: &ShardState, name: &Name, attr: &Name) -> Option<Refusal>
    ensures { IsRefusalFor state.now.state.objects (RemoveAttr name.now attr.now) result }
{
    match state.object(name) {
        None => Some(Refusal::Absent),
        Some(held) => match held.attrs.get(attr) {
            None => Some(Refusal::NoAttr),
            Some(_) => {
                if u64::from(held.size) > MAX_SIZE {
                    return Some(Refusal::TooLarge);
                }
                None
            }
        },
    }
}

/// The refusal of a value that an attribute is to have.
pub(crate) fn set_refusal(
    state: &ShardState,
    name: &Name,
    attr: &Name,
    value: &[u8],
) -> Option<Refusal>
    ensures meant { IsRefusalFor state.now.state.objects (SetAttr name.now attr.now value.now) result }
    ensures small { result ≡ None → length value.now ≤ max_value }
{
    match state.object(name) {
        None => Some(Refusal::Absent),
        Some(held) => value_refusal(state.usage(), held, attr, value),
    }
}

// The same by what the shard holds of the object; all objects take `taken` bytes.
fn value_refusal(taken: u64, held: &Held, attr: &Name, value: &[u8]) -> Option<Refusal>
    ensures meant { IsRefusalOfValue taken held.now attr.now value.now result }
    ensures small { result ≡ None → length value.now ≤ max_value }
{
    if value.len() > MAX_VALUE {
        return Some(Refusal::TooLarge);
    }
    let taken = taken.saturating_add(value.len() as u64);
    match held.attrs.get(attr) {
        Some(old) => {
            if taken > MAX_USAGE.saturating_add(old.as_slice().len() as u64) {
                return Some(Refusal::Full);
            }
            None
        }
        None => {
            if taken.saturating_add(attr.as_slice().len() as u64) > MAX_USAGE {
                return Some(Refusal::Full);
            }
            if held.attrs.len() >= MAX_ATTRS {
                return Some(Refusal::Attrs);
            }
            None
        }
    }
}
