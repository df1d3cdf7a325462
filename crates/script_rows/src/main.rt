//! The program `script_rows`: runs of `ecpool` in memory, one for each line of its input, and what each of them says. The rows are
//! the examples of docs/SCRIPT.md.
//!
//! A row is `WORD.. <INPUT`. A word `take=N` or `say=N` stands for the call of the input or of the output that fails. [`texts`] has
//! the escapes. An empty line and a line that begins with `#` are said again. The answer to a row is what was said ([`shown`])
//! and a line `= STATUS`.
#![tactic(auto)]

mod row;
mod run;
mod shown;
mod texts;

use crate::row::push_line;
use ec_words::NoMemory;
use std::alloc::Global;
use std::io::{self, ErrorKind, Write};

fn answer_to(alloc: Global, line: &str) -> Result<Vec<u8>, NoMemory> {
    let mut text = Vec::new(alloc);
    push_line(alloc, line, &mut text)?;
    Ok(text)
}

fn tell<R: Print>(rt: &R, alloc: Global, line: &str) -> io::Result<()> {
    let Ok(text) = answer_to(alloc, line) else {
        return Err(io::Error::from(ErrorKind::OutOfMemory));
    };
    io::writer(rt).write_all(&text)
}

fn main(rt: HostRuntime) -> io::Result<()> {
    let alloc = rt.alloc();
    for line in rt.lines(alloc) {
        tell(&rt, alloc, line?.as_str())?;
    }
    Ok(())
}
