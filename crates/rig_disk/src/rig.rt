//! The storage devices of a pool, in numbered slots of two areas each, and the output ("voice") beside them. One
//! clock runs over all of them. docs/CRASH-MODEL.md says what a crash may leave at each of its numbers.
ghost use Rattle.std.specs.Prelude.{◌≡◌, ◌≢◌, ◌≤◌, ◌+◌, ◌-◌, ◌^◌, ◌↔◌, ℕ, List, length, take, min, Option, Some, IsTrue, IsSome, IfOk, OnOk, OnErr};
ghost use Rattle.rig_disk.specs.Disk.{Image, Torn, Cut, From, Saying, on_told, written, read_part};
ghost use Rattle.rig_disk.specs.During.{During, Only};
ghost use Rattle.rig_disk.specs.Faults.{HasCause};
ghost use Rattle.rig_disk.specs.Frame.{KeepsCounts, KeepsOthers, Spends, more};
ghost use Rattle.rig_disk.specs.Said.{Says};

use crate::VOICE;
use thiserror::Error;

/// A call of a rig or a source failed, and its count of faults rose.
#[derive(Clone, Copy, Debug, PartialEq, Eq, Error)]
#[error("failed")]
pub struct Failed;

/// The outside of a pool: slots 0 to 16 with areas 0 and 1, and the output. All calls but `here`, `place` and `say` are
/// for slots that are here.
pub trait Rig {
    /// Whether a slot is here.
    ghost is_here: { Self → ℕ → Type 0 };

    /// What a read of an area gives, if the rig tells it.
    ghost reads: { Self → ℕ → ℕ → Option (List ℕ) };

    /// What was said, if the rig tells it.
    ghost said: { Self → Option (List ℕ) };

    /// The number of the present instant. It never falls, and each instant inside a call has one of its own.
    ghost clock: { Self → ℕ };

    /// What a crash at an instant may leave, with what was said by then.
    ghost images: { Self → ℕ → Image → List ℕ → Type 0 };

    /// How often each slot has failed, and under `VOICE` how often the output has. It is always told.
    ghost faults: { Self → ℕ → ℕ };

    /// How often the areas of each slot were synced, if the rig tells it.
    ghost syncs: { Self → ℕ → Option ℕ };

    /// How many bytes were written to each slot, if the rig tells it.
    ghost bytes_written: { Self → ℕ → Option ℕ };

    /// How many bytes of each slot were read, if the rig tells it.
    ghost bytes_read: { Self → ℕ → Option ℕ };

    fn here(&self, slot: u8) -> bool
        requires { slot ≤ 16 }
        ensures { IsTrue result ↔ is_here self.now slot };

    /// Makes a slot here, and leaves all bytes as they are.
    fn place(&mut self, slot: u8) -> Result<(), Failed>
        requires { slot ≤ 16 }
        ensures placed { OnOk result (is_here self.new slot) }
        ensures cause { HasCause (faults self.old slot) (faults self.new slot) result }
        ensures any_moment { During clock images self.old self.new
            (λ image text. images self.old (clock self.old) image text) }
        ensures counts { Spends syncs bytes_written bytes_read slot 0 0 0 self.old self.new }
        ensures here { (s : ℕ) → is_here self.old s → is_here self.new s }
        ensures only_here { (s : ℕ) → s ≢ slot → is_here self.new s → is_here self.old s }
        ensures reads { (s a : ℕ) → reads self.new s a ≡ reads self.old s a }
        ensures said { said self.new ≡ said self.old }
        ensures kept { KeepsCounts faults syncs bytes_written bytes_read slot self.old self.new };

    /// The number of an area's bytes.
    fn length(&mut self, slot: u8, area: u8) -> Result<u64, Failed>
        requires slot { slot ≤ 16 }
        requires area { area ≤ 1 }
        requires here { is_here self.old slot }
        ensures value { IfOk result (λ len. (there : List ℕ) → reads self.old slot area ≡ Some there
            → len ≡ length there) }
        ensures cause { HasCause (faults self.old slot) (faults self.new slot) result }
        ensures any_moment { During clock images self.old self.new
            (λ image text. images self.old (clock self.old) image text) }
        ensures counts { Spends syncs bytes_written bytes_read slot 0 0 0 self.old self.new }
        ensures reads { reads self.new slot area ≡ reads self.old slot area }
        ensures kept { KeepsOthers is_here reads said faults syncs bytes_written bytes_read
            slot area self.old self.new };

    /// Fills the front of `into` with the area's bytes from `at` on, and answers how many: as many as fit and are there.
    fn read_at(&mut self, slot: u8, area: u8, at: u64, into: &mut [u8]) -> Result<usize, Failed>
        requires slot { slot ≤ 16 }
        requires area { area ≤ 1 }
        requires here { is_here self.old slot }
        ensures within { IfOk result (λ n. n ≤ length into.old) }
        ensures count { IfOk result (λ n. (there : List ℕ) → reads self.old slot area ≡ Some there
            → n ≡ min (length into.old) (length there - at)) }
        ensures bytes { IfOk result (λ n. (there : List ℕ) → reads self.old slot area ≡ Some there
            → into.new ≡ read_part there at n into.old) }
        ensures cause { HasCause (faults self.old slot) (faults self.new slot) result }
        ensures any_moment { During clock images self.old self.new
            (λ image text. images self.old (clock self.old) image text) }
        ensures counts { Spends syncs bytes_written bytes_read
            slot 0 0 (length into.old) self.old self.new }
        ensures counted { IfOk result (λ n. bytes_read self.new slot
            ≡ more n (bytes_read self.old slot)) }
        ensures reads { reads self.new slot area ≡ reads self.old slot area }
        ensures kept { KeepsOthers is_here reads said faults syncs bytes_written bytes_read
            slot area self.old self.new };

    /// Writes bytes from `at` on, over what is there and behind it. After `Failed` the write counts as one in flight.
    fn write_at(&mut self, slot: u8, area: u8, at: u64, bytes: &[u8]) -> Result<(), Failed>
        requires slot { slot ≤ 16 }
        requires area { area ≤ 1 }
        requires here { is_here self.old slot }
        requires at { (there : List ℕ) → reads self.old slot area ≡ Some there → at ≤ length there }
        requires end { at + length bytes.now ≤ 2 ^ 40 }
        ensures written { OnOk result (reads self.new slot area
            ≡ on_told (written at bytes.now) (reads self.old slot area)) }
        ensures told { OnErr result (IsSome (reads self.old slot area) ↔ IsSome (reads self.new slot area)) }
        ensures cause { HasCause (faults self.old slot) (faults self.new slot) result }
        ensures any_moment { During clock images self.old self.new
            (From (images self.old (clock self.old)) slot area (Torn at (length bytes.now))) }
        ensures counts { Spends syncs bytes_written bytes_read
            slot 0 (length bytes.now) 0 self.old self.new }
        ensures counted { OnOk result (bytes_written self.new slot
            ≡ more (length bytes.now) (bytes_written self.old slot)) }
        ensures kept { KeepsOthers is_here reads said faults syncs bytes_written bytes_read
            slot area self.old self.new };

    /// Leaves the first `len` bytes of an area. After `Failed` the cut counts as one in flight.
    fn cut(&mut self, slot: u8, area: u8, len: u64) -> Result<(), Failed>
        requires slot { slot ≤ 16 }
        requires area { area ≤ 1 }
        requires here { is_here self.old slot }
        requires len { (there : List ℕ) → reads self.old slot area ≡ Some there → len ≤ length there }
        ensures cut { OnOk result (reads self.new slot area
            ≡ on_told (take len) (reads self.old slot area)) }
        ensures told { OnErr result (IsSome (reads self.old slot area) ↔ IsSome (reads self.new slot area)) }
        ensures cause { HasCause (faults self.old slot) (faults self.new slot) result }
        ensures any_moment { During clock images self.old self.new
            (From (images self.old (clock self.old)) slot area (Cut len)) }
        ensures counts { Spends syncs bytes_written bytes_read slot 0 0 0 self.old self.new }
        ensures kept { KeepsOthers is_here reads said faults syncs bytes_written bytes_read
            slot area self.old self.new };

    /// After it a crash leaves in the area what a read gives. After `Failed` reads may give less: a device may drop what it
    /// could not write.
    fn sync(&mut self, slot: u8, area: u8) -> Result<(), Failed>
        requires slot { slot ≤ 16 }
        requires area { area ≤ 1 }
        requires here { is_here self.old slot }
        ensures durable { OnOk result ((there : List ℕ) → reads self.new slot area ≡ Some there
            → Only clock images self.new slot area there) }
        ensures cause { HasCause (faults self.old slot) (faults self.new slot) result }
        ensures any_moment { During clock images self.old self.new
            (λ image text. images self.old (clock self.old) image text) }
        ensures counts { Spends syncs bytes_written bytes_read slot 1 0 0 self.old self.new }
        ensures counted { OnOk result (syncs self.new slot ≡ more 1 (syncs self.old slot)) }
        ensures reads { OnOk result (reads self.new slot area ≡ reads self.old slot area) }
        ensures told { OnErr result (IsSome (reads self.old slot area) ↔ IsSome (reads self.new slot area)) }
        ensures kept { KeepsOthers is_here reads said faults syncs bytes_written bytes_read
            slot area self.old self.new };

    /// Appends to what was said. After `Failed` some first bytes were said.
    fn say(&mut self, bytes: &[u8]) -> Result<(), Failed>
        ensures said { Says (said self.old) (said self.new) bytes.now result }
        ensures cause { HasCause (faults self.old VOICE) (faults self.new VOICE) result }
        ensures any_moment { During clock images self.old self.new
            (Saying (images self.old (clock self.old)) bytes.now) }
        ensures here { (s : ℕ) → is_here self.old s ↔ is_here self.new s }
        ensures reads { (s a : ℕ) → reads self.new s a ≡ reads self.old s a }
        ensures kept { KeepsCounts faults syncs bytes_written bytes_read VOICE self.old self.new };

    /// If an area is told, the slots as they read are one of the images of now.
    ghost as_read: { (rig : Self) (slot_no area_no : ℕ) (there : List ℕ) → reads rig slot_no area_no ≡ Some there
        → (image : Image) × (text : List ℕ) × images rig (clock rig) image text
        × ((s a : ℕ) (bytes_there : List ℕ) → reads rig s a ≡ Some bytes_there → image s a ≡ bytes_there) };

    /// An image of now has what was said.
    ghost said_now: { (rig : Self) (image : Image) (text : List ℕ) → images rig (clock rig) image text → said rig ≡ Some text };
}
