//! A session answers lines one by one, over objects in memory.
ghost use Rattle.std.specs.Prelude.{◌≡◌, ◌≢◌, ◌≤◌, ◌&&◌, if◌then◌else◌, ℕ, true, IfOk, OnOk, OnErr, Err};
ghost use Rattle.std.specs.Io.KnownBytes.{Appends};
ghost use Rattle.ec_positions.specs.Objects.{Objects as ObjectMap};
ghost use Rattle.rig_disk.specs.Faults.{Rose};
ghost use Rattle.rig_disk.specs.Said.{SaysFront};
ghost use Rattle.pool_run.specs.Replies.{shown, reply_of, objects_after, reply_text, is_done};
ghost use Rattle.pool_run.specs.Lines.{command_of};
ghost use Rattle.pool_run.specs.Served.{Serves};
ghost use Rattle.pool_run.specs.Stored.{AreStored, OfKept, nothing};

use crate::line::{LineFault, read_line};
use crate::objects::Objects;
use crate::reply::{Reply, print_reply};
use crate::status::Status;
use ec_code::Code;
use ec_words::NoMemory;
use rig_disk::{Rig, VOICE};
use std::alloc::Global;

/// Why a line was not answered.
#[derive(Clone, Copy)]
pub enum Stop {
    Voice,
    NoMemory,
}

/// The objects from which lines are answered, and whether each reply so far began with `ok`.
#[derive(Drop)]
pub struct Session {
    alloc: Global,
    objects: Objects,
    all_done: bool,
}

impl Session {
    /// A session without objects, in which no line was answered yet.
    pub fn new(alloc: Global) -> Session
        ensures objects { result.objects ≡ nothing }
        ensures all_done { result.all_done ≡ true }
    {
        Session {
            alloc,
            objects: Objects::new(alloc),
            all_done: true,
        }
    }

    /// Answers a line by objects that are kept by this code with chunks of `unit` bytes, and says the reply.
    pub fn serve<R: Rig>(
        &mut self,
        text: &[u8],
        code: &dyn Code,
        unit: u32,
        rig: &mut R,
    ) -> Result<(), Stop>
        requires some { 1 ≤ unit }
        requires few { unit ≤ 65536 }
        requires stored { (all : ObjectMap) × AreStored (meaning code.now) unit all self.old.objects }
        ensures done { OnOk result (OfKept (meaning code.now) unit self.old.objects (λ all.
            self.new.all_done ≡ (self.old.all_done && is_done (reply_of all text.now)))) }
        ensures after { OnOk result (OfKept (meaning code.now) unit self.old.objects (λ all.
            AreStored (meaning code.now) unit (objects_after all text.now) self.new.objects)) }
        ensures said { OnOk result (OfKept (meaning code.now) unit self.old.objects (λ all.
            Appends (R.said rig.old) (R.said rig.new) (reply_text (reply_of all text.now)))) }
        ensures quiet { OnOk result (R.faults rig.new VOICE ≡ R.faults rig.old VOICE) }
        ensures front { OnErr result (OfKept (meaning code.now) unit self.old.objects (λ all.
            SaysFront (R.said rig.old) (R.said rig.new) (reply_text (reply_of all text.now)))) }
        ensures voice { result ≡ Err Stop.Voice → Rose (R.faults rig.old VOICE) (R.faults rig.new VOICE) }
        ensures slots { (slot : ℕ) → slot ≢ VOICE → R.faults rig.new slot ≡ R.faults rig.old slot }
    {
        let Ok(reply) = answer(self.alloc, text, code, unit, &mut self.objects) else {
            return Err(Stop::NoMemory);
        };
        let Ok(line) = print_reply(self.alloc, &reply) else {
            return Err(Stop::NoMemory);
        };
        match rig.say(line.as_slice()) {
            Ok(()) => {
                self.all_done = both(self.all_done, reply.is_done());
                Ok(())
            }
            Err(_) => Err(Stop::Voice),
        }
    }

    /// The status of a session that has answered its last line.
    pub fn status(&self) -> Status
        ensures { result.0 ≡ (if self.now.all_done then 0 else 1) }
    {
        Status(if self.all_done { 0 } else { 1 })
    }
}

fn both(one: bool, other: bool) -> bool
    ensures { result ≡ (one && other) }
{
    one && other
}

// The reply to one line, whose effect is done. After an `Err` nothing has changed.
fn answer(
    alloc: Global,
    text: &[u8],
    code: &dyn Code,
    unit: u32,
    objects: &mut Objects,
) -> Result<Reply, NoMemory>
    requires some { 1 ≤ unit }
    requires few { unit ≤ 65536 }
    requires stored { (all : ObjectMap) × AreStored (meaning code.now) unit all objects.old }
    ensures done { IfOk result (Serves (meaning code.now) unit (command_of text.now) objects.old objects.new) }
    ensures unchanged { OnErr result (objects.new ≡ objects.old) }
{
    match read_line(alloc, text) {
        Ok(line) => objects.apply(line, code, unit),
        Err(LineFault::Bad) => Ok(Reply::Bad),
        Err(LineFault::NoMemory) => Err(NoMemory),
    }
}
