//! The log as a list of records.
ghost use Rattle.std.specs.Prelude.{◌≡◌, ◌≤◌, bytes_eq, length, map, take, drop};
ghost use Rattle.std.specs.List.{list_any};
ghost use Rattle.ec_model.specs.Versions.{is_same};
ghost use Rattle.shard_model.specs.Fronts.{up_to, after as later};
ghost use Rattle.shard_model.specs.States.{version_of};
ghost use Rattle.shard_state.specs.Records.{log_of, recorded};
ghost use Rattle.shard_state.specs.Sound.{settled_in};

use crate::entry::Undo;
use crate::record::Record;
use ec_words::{Name, Version};

/// Whether an entry has this version.
pub(crate) fn is_logged(log: &Vec<Record>, version: &Version) -> bool
    ensures { result ≡ list_any (λ n. is_same n.version version.now) (log_of log.now.items) }
{
    for i in 0..log.len() {
        let record = &log[i];
        if record.entry.what.version.is_same(version) {
            return true;
        }
    }
    false
}

/// How many entries at the front are not above a version.
pub(crate) fn front_len(log: &Vec<Record>, version: &Version) -> usize
    ensures front { take result (log_of log.now.items) ≡ up_to version_of version.now (log_of log.now.items) }
    ensures low { result ≤ length log.now.items }
    ensures rest { drop result (log_of log.now.items) ≡ later version_of version.now (log_of log.now.items) }
{
    for i in 0..log.len() {
        let record = &log[i];
        if !record.entry.what.version.is_up_to(version) {
            return i;
        }
    }
    log.len()
}

/// From now on nothing takes the entries up to a version back.
pub(crate) fn settle_to(log: &mut Vec<Record>, version: &Version)
    ensures { map recorded log.new.items ≡ map (settled_in version.now) (map recorded log.old.items) }
{
    for i in 0..log.len() {
        settle_one(&mut log[i], version);
    }
}

fn settle_one(record: &mut Record, version: &Version)
    ensures { recorded record.new ≡ settled_in version.now (recorded record.old) }
{
    if record.entry.what.version.is_up_to(version) {
        record.entry.undo = Undo::Firm;
    }
}

/// Whether one of the entries from an index on has this name.
pub(crate) fn is_named(log: &Vec<Record>, from: usize, name: &Name) -> bool
    ensures { result ≡ list_any (λ r. bytes_eq r.logged.name name.now) (map recorded (drop from log.now.items)) }
{
    for i in from..log.len() {
        let record = &log[i];
        if record.entry.what.name == *name {
            return true;
        }
    }
    false
}

/// Takes entries off the front.
pub(crate) fn take_off(log: &mut Vec<Record>, cut: usize)
    requires { cut ≤ length log.old.items }
    ensures { log.new.items ≡ drop cut log.old.items }
{
    log.rotate_left(cut);
    log.truncate(log.len() - cut);
}
