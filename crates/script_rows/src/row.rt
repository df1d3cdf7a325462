//! A row of the input, and its answer.

use crate::run::status_of;
use crate::shown::push_said;
use crate::texts::{push_text, text_of};
use ec_words::NoMemory;
use rig_disk::{MemRig, VOICE};
use std::alloc::Global;

/// The answer to a line of the input.
pub fn push_line(alloc: Global, line: &str, to: &mut Vec<u8>) -> Result<(), NoMemory> {
    if line.is_empty() || line.starts_with('#') {
        to.extend_from_slice(line.as_bytes())?;
        to.push(b'\n')?;
        return Ok(());
    }
    let (head, input) = match line.split_once('<') {
        Some(parts) => parts,
        None => (line, ""),
    };
    let mut words = Vec::new(alloc);
    push_words(alloc, head, &mut words)?;
    answer(alloc, head, &words, input, to)
}

// Runs these words over this input, and pushes what is said and the status.
fn answer(
    alloc: Global,
    head: &str,
    words: &[String],
    input: &str,
    to: &mut Vec<u8>,
) -> Result<(), NoMemory> {
    let mut rig = MemRig::new(alloc)?;
    if let Some(call) = number_behind(head, "say=") {
        rig.fail_at(VOICE, call)?;
    }
    let bytes = text_of(alloc, input)?;
    let status = status_of(alloc, words, bytes, number_behind(head, "take="), &mut rig)?;
    push_said(alloc, rig.said(), to)?;
    push_status(alloc, status, to)
}

fn push_status(alloc: Global, status: u8, to: &mut Vec<u8>) -> Result<(), NoMemory> {
    let line = format!(in alloc; "= {status}\n")?;
    to.extend_from_slice(line.as_bytes())?;
    Ok(())
}

// The number behind this front of a word.
fn number_behind(head: &str, front: &str) -> Option<u64> {
    for word in head.split(' ') {
        if let Some(digits) = word.strip_prefix(front) {
            return digits.parse::<u64>().ok();
        }
    }
    None
}

fn push_words(alloc: Global, head: &str, words: &mut Vec<String>) -> Result<(), NoMemory> {
    for word in head.split(' ') {
        if is_word(word) {
            push_word(alloc, word, words)?;
        }
    }
    Ok(())
}

fn is_word(text: &str) -> bool {
    !text.is_empty() && !text.starts_with("take=") && !text.starts_with("say=")
}

fn push_word(alloc: Global, text: &str, words: &mut Vec<String>) -> Result<(), NoMemory> {
    let mut bytes = Vec::new(alloc);
    push_text(text, &mut bytes)?;
    if let Ok(word) = std::str::from_utf8(&bytes) {
        words.push(String::from_str(alloc, word)?)?;
    }
    Ok(())
}
