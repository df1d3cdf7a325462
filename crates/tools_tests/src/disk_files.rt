//! Real files: they are written, read and refused as docs/TOOL.md says.

use ec_files::{DiskFiles, FileFault, Files, MAX_FILE, read_pieces};
use std::alloc::Global;
use std::fs::{self, File};
use std::io::{self, ErrorKind, Read};
use std::test::Fail;

// Whether a file is written, and then read as it was written.
fn comes_back(alloc: Global, disk: &mut impl Files, name: &str, bytes: &[u8]) -> bool {
    disk.write_file(name, bytes).is_ok() && is_read(alloc, disk, name, bytes)
}

// Whether a file is read as these bytes.
fn is_read(alloc: Global, disk: &mut impl Files, name: &str, bytes: &[u8]) -> bool {
    match disk.read_file(alloc, name, 3) {
        Ok(read) => read.as_slice() == bytes,
        Err(_) => false,
    }
}

// Whether a file is refused in this way.
fn is_refused(alloc: Global, disk: &mut impl Files, name: &str, why: FileFault) -> bool {
    match disk.read_file(alloc, name, 3) {
        Ok(_) => false,
        Err(fault) => fault == why,
    }
}

// The long one is read in several reads.
#[test]
fn a_real_file_is_read_as_it_was_written_last(rt: HostRuntime) -> Result<(), Fail> {
    let alloc = rt.alloc();
    fs::create_dir_all(&rt, "files_test")?;
    let mut long = vec![in alloc; 1u8; 524291]?;
    long[262144] = 2;
    let mut disk = DiskFiles::new(rt);
    assert!(rt;
        comes_back(alloc, &mut disk, "files_test/a", b"one")
            && comes_back(alloc, &mut disk, "files_test/b", b"")
            && comes_back(alloc, &mut disk, "files_test/a", &long)
            && comes_back(alloc, &mut disk, "files_test/a", b"1")
            && is_read(alloc, &mut disk, "files_test/b", b"")
    );
    fs::remove_dir_all(&rt, "files_test")?;
    Ok(())
}

// Whether a piece is added, so that the file is this.
fn grows(alloc: Global, disk: &mut impl Files, name: &str, piece: &[u8], whole: &[u8]) -> bool {
    disk.append_file(name, piece).is_ok() && is_read(alloc, disk, name, whole)
}

#[test]
fn a_real_file_grows_by_what_is_appended(rt: HostRuntime) -> Result<(), Fail> {
    let alloc = rt.alloc();
    fs::create_dir_all(&rt, "grown_test")?;
    let mut disk = DiskFiles::new(rt);
    assert!(rt;
        grows(alloc, &mut disk, "grown_test/a", b"one", b"one")
            && grows(alloc, &mut disk, "grown_test/a", b"", b"one")
            && grows(alloc, &mut disk, "grown_test/a", b"two", b"onetwo")
    );
    fs::remove_dir_all(&rt, "grown_test")?;
    Ok(())
}

// Whether neither a write nor an addition succeeds.
fn is_not_written(disk: &mut impl Files, name: &str) -> bool {
    disk.write_file(name, b"x").is_err() && disk.append_file(name, b"x").is_err()
}

// The file /proc/self/mem can be opened, and reading it at its beginning fails.
#[test]
fn a_real_fault_has_its_kind(rt: HostRuntime) -> Result<(), Fail> {
    let alloc = rt.alloc();
    fs::create_dir_all(&rt, "faults_test/folder")?;
    let mut disk = DiskFiles::new(rt);
    for name in ["faults_test/none", "faults_test/none/a", ""] {
        assert!(rt;
            is_refused(alloc, &mut disk, name, FileFault::Missing),
            "at {name}"
        );
    }
    for name in ["faults_test/folder", "faults_test/a\0", "/proc/self/mem"] {
        assert!(rt;
            is_refused(alloc, &mut disk, name, FileFault::Failed),
            "at {name}"
        );
    }
    for name in ["faults_test/folder", "faults_test/none/a", ""] {
        assert!(rt; is_not_written(&mut disk, name), "at {name}");
    }
    fs::remove_dir_all(&rt, "faults_test")?;
    Ok(())
}

// The file /dev/zero says that it has no bytes and never ends, as a file that grows while it is read.
#[test]
fn a_real_file_of_more_than_64_mib_is_too_long(rt: HostRuntime) -> Result<(), Fail> {
    let alloc = rt.alloc();
    fs::create_dir_all(&rt, "long_test")?;
    let file = File::create(&rt, "long_test/a")?;
    let zeros = vec![in alloc; 0u8; MAX_FILE]?;
    let mut disk = DiskFiles::new(rt);
    file.set_len(MAX_FILE as u64)?;
    assert!(rt; is_read(alloc, &mut disk, "long_test/a", &zeros));
    file.set_len(MAX_FILE as u64 + 1)?;
    assert!(rt;
        is_refused(alloc, &mut disk, "long_test/a", FileFault::TooLong)
            && is_refused(alloc, &mut disk, "/dev/zero", FileFault::TooLong)
    );
    fs::remove_dir_all(&rt, "long_test")?;
    Ok(())
}

// Gives one byte at each read, is interrupted at the second read, and fails at the last.
#[derive(Drop)]
struct Broken {
    reads: u8,
    last: u8,
}

impl Read for Broken {
    fn read(&mut self, into: &mut [u8]) -> io::Result<usize> {
        self.reads = self.reads.saturating_add(1);
        if self.reads == 2 {
            return Err(io::Error::from(ErrorKind::Interrupted));
        }
        if self.reads == self.last {
            return Err(io::Error::from(ErrorKind::TimedOut));
        }
        if self.reads > 5 || into.is_empty() {
            return Ok(0);
        }
        into[0] = self.reads;
        Ok(1)
    }
}

#[test]
fn a_read_goes_on_where_it_is_interrupted_and_fails_midway(rt: HostRuntime) -> Result<(), Fail> {
    let alloc = rt.alloc();
    let whole = read_pieces(Broken { reads: 0, last: 0 }, alloc, 4)?;
    assert_eq!(rt; whole.as_slice(), [1u8, 3, 4, 5].as_slice());
    for last in [1, 3, 6] {
        let answer = read_pieces(Broken { reads: 0, last }, alloc, 4);
        assert!(rt; answer == Err(FileFault::Failed), "at {last}");
    }
    Ok(())
}
