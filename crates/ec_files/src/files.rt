//! Files that are read whole, and written whole or piece after piece.
ghost use Rattle.std.specs.Prelude.{◌≡◌, ◌≤◌, ℕ, List, Option, length, IfOk};
ghost use Rattle.rig_disk.specs.Faults.{HasCause};
ghost use Rattle.ec_files.specs.Files.{Appends, FileMap, HasReadCause, Reads, Writes};

use crate::{FileFault, MAX_FILE};
use ec_words::Bytes;
use rig_disk::Failed;
use std::alloc::Global;

/// Files by their names. They are read whole, and written whole or piece after piece.
pub trait Files {
    /// The files with their bytes, if the implementor tells them.
    ghost files: { Self → Option FileMap };

    /// How often a call has failed. It is always told.
    ghost faults: { Self → ℕ };

    /// All bytes of a file, in memory that has room for `spare` bytes more, so that they can be added without a second copy. It
    /// changes no file.
    fn read_file(&mut self, alloc: Global, name: &str, spare: usize) -> Result<Bytes, FileFault>
        ensures value { Reads (files self.old) name.now result }
        ensures bound { IfOk result (λ bytes. length bytes ≤ MAX_FILE) }
        ensures kept { files self.new ≡ files self.old }
        ensures cause { HasReadCause (faults self.old) (faults self.new) result };

    /// Makes these the bytes of a file; the file need not be there. After `Failed` that file may have any bytes or may not
    /// be there; all others stay.
    fn write_file(&mut self, name: &str, bytes: &[u8]) -> Result<(), Failed>
        ensures written { Writes (files self.old) (files self.new) name.now bytes.now result }
        ensures cause { HasCause (faults self.old) (faults self.new) result };

    /// Adds bytes at the end of a file. A file that is not there counts as empty. After `Failed` that file may have any bytes or
    /// may not be there; all others stay.
    fn append_file(&mut self, name: &str, bytes: &[u8]) -> Result<(), Failed>
        ensures written { Appends (files self.old) (files self.new) name.now bytes.now result }
        ensures cause { HasCause (faults self.old) (faults self.new) result };
}
