//! The words that a program was called with.

use ec_words::NoMemory;
use std::env;
use std::io::ErrorKind;

/// The words behind the program's name. If one of them is no text the list is empty, so that the usage line is said.
pub fn words(rt: &HostRuntime) -> Result<Vec<String>, NoMemory> {
    let mut words = Vec::new(rt.alloc());
    match env::args(rt) {
        Ok(all) => {
            for word in all.skip(1) {
                words.push(word)?;
            }
        }
        Err(fault) if fault.kind() == ErrorKind::OutOfMemory => return Err(NoMemory),
        Err(_) => {}
    }
    Ok(words)
}
