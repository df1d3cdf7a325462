//! The lines of the input, and the files and faults of the next run.

use crate::filling::filled;
use crate::serving::served;
use crate::showing::show_files;
use anyhow::{Result, bail};
use ec_files::MemFiles;
use ec_words::read_u64;
use rig_disk::{MemRig, VOICE};
use std::alloc::Global;

/// The files, and which saying of the next run fails; 0 for none.
#[derive(Drop)]
pub struct Rows {
    files: MemFiles,
    mute: u64,
}

impl Rows {
    /// It has no files and no fault.
    pub fn new(alloc: Global) -> Result<Rows> {
        Ok(Rows {
            files: MemFiles::new(alloc)?,
            mute: 0,
        })
    }

    /// Does what one line says.
    pub fn take(&mut self, rt: &impl Print, alloc: Global, line: &str) -> Result<()> {
        let (what, rest) = match line.split_once(' ') {
            Some(parts) => parts,
            None => (line, ""),
        };
        match what {
            "file" => self.put(alloc, rest),
            "fail" => {
                self.files.fail_at(number(rest)?);
                Ok(())
            }
            "mute" => {
                self.mute = number(rest)?;
                Ok(())
            }
            "keep" => self.run(rt, alloc, rest),
            "run" => {
                self.run(rt, alloc, rest)?;
                self.files = MemFiles::new(alloc)?;
                Ok(())
            }
            _ => bail!("an unknown line"),
        }
    }

    // Makes a file of runs of bytes.
    fn put(&mut self, alloc: Global, text: &str) -> Result<()> {
        let (name, runs) = match text.split_once(' ') {
            Some(parts) => parts,
            None => (text, ""),
        };
        let bytes = filled(alloc, runs)?;
        self.files.put(name, bytes)?;
        Ok(())
    }

    // Runs the tool on these words, and prints what that came to.
    fn run(&mut self, rt: &impl Print, alloc: Global, words: &str) -> Result<()> {
        let mut rig = MemRig::new(alloc)?;
        if self.mute > 0 {
            rig.fail_at(VOICE, self.mute)?;
            self.mute = 0;
        }
        let list = words_of(alloc, words)?;
        let status = served(alloc, &list, &mut self.files, &mut rig)?;
        self.files.fail_at(0);
        println!(rt; "{words}: {}", status.0)?;
        print!(rt; "{}", str::from_utf8(rig.said())?)?;
        show_files(rt, alloc, &self.files)
    }
}

// A number in decimal digits.
fn number(text: &str) -> Result<u64> {
    match read_u64(text.as_bytes()) {
        Ok(number) => Ok(number),
        Err(_) => bail!("no number"),
    }
}

// The words of a run.
fn words_of(alloc: Global, text: &str) -> Result<Vec<String>> {
    let mut list = Vec::new(alloc);
    if text.is_empty() {
        return Ok(list);
    }
    for word in text.split(' ') {
        list.push(word_of(alloc, word)?)?;
    }
    Ok(list)
}

// One word: `~` stands for a blank, and `""` for the empty word.
fn word_of(alloc: Global, text: &str) -> Result<String> {
    let mut word = String::new(alloc);
    if text == "\"\"" {
        return Ok(word);
    }
    for letter in text.chars() {
        word.push(if letter == '~' { ' ' } else { letter })?;
    }
    Ok(word)
}
