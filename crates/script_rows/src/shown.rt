//! How the output of a run is shown: as it is, except for a line of more than 140 bytes. That line is shown by its length, and then
//! in pieces of 70 bytes, each on a line. A piece that is equal to the one before it is only counted.

use ec_words::NoMemory;
use std::alloc::Global;

/// The number of bytes of the longest line that is shown as it is.
const LONG: usize = 140;

/// The number of bytes of a piece.
const PIECE: usize = 70;

/// What was said, line by line.
pub fn push_said(alloc: Global, said: &[u8], to: &mut Vec<u8>) -> Result<(), NoMemory> {
    let mut is_first = true;
    for line in said.split(|b| *b == b'\n') {
        if !is_first {
            to.push(b'\n')?;
        }
        is_first = false;
        push_line(alloc, line, to)?;
    }
    Ok(())
}

fn push_line(alloc: Global, line: &[u8], to: &mut Vec<u8>) -> Result<(), NoMemory> {
    if line.len() <= LONG {
        to.extend_from_slice(line)?;
        return Ok(());
    }
    let length = line.len();
    let head = format!(in alloc; "{length} bytes:")?;
    to.extend_from_slice(head.as_bytes())?;
    push_pieces(alloc, line, to)
}

fn push_pieces(alloc: Global, line: &[u8], to: &mut Vec<u8>) -> Result<(), NoMemory> {
    let mut last: &[u8] = &[];
    let mut again = 0u64;
    for piece in line.chunks(PIECE) {
        if piece == last {
            again = again.saturating_add(1);
        } else {
            push_again(alloc, again, to)?;
            to.push(b'\n')?;
            to.extend_from_slice(piece)?;
            again = 0;
            last = piece;
        }
    }
    push_again(alloc, again, to)
}

// A line for pieces that are left out.
fn push_again(alloc: Global, again: u64, to: &mut Vec<u8>) -> Result<(), NoMemory> {
    if again > 0 {
        let line = format!(in alloc; "\n({again} times more)")?;
        to.extend_from_slice(line.as_bytes())?;
    }
    Ok(())
}
