//! Values off the front of a text, one after another. A number stands with its most significant byte first.
ghost use Rattle.std.specs.Prelude.{◌≡◌, IfOk, OnErr, Some, None};
ghost use Rattle.ec_words.specs.Readers.{read_byte, read_u32, read_u64, read_list, read_version};

use crate::{Version, take_bytes, take_u32, take_u64};
use std::marker::Model;
use thiserror::Error;

/// The text ends before the value that was to be read.
#[derive(Clone, Copy, Debug, PartialEq, Eq, Error)]
#[error("the text ends in a value")]
pub struct Ended;

/// What is left of a text. A contract sees these bytes. A call that refuses leaves them.
#[derive(Drop)]
pub struct Reader<'a> {
    rest: &'a [u8],
}

impl<'a> Model for Reader<'a> {
    ghost use Rattle.std.specs.Prelude.{List, ℕ};

    ghost Value = { List ℕ };

    ghost view = { λ r. r.rest.now };
}

impl<'a> Reader<'a> {
    /// All of a text.
    pub fn new(text: &'a [u8]) -> Reader<'a>
        ensures { result ≡ text.now }
    {
        Reader { rest: text }
    }

    /// The bytes that are left.
    pub fn rest(&self) -> &'a [u8]
        ensures { result.now ≡ self.now }
    {
        self.rest
    }

    /// One byte.
    pub fn byte(&mut self) -> Result<u8, Ended>
        ensures value { IfOk result (λ b. read_byte self.old ≡ Some (b, self.new)) }
        ensures ended { OnErr result (read_byte self.old ≡ None) }
        ensures unchanged { OnErr result (self.new ≡ self.old) }
    {
        match self.rest.split_first() {
            Some((first, rest)) => {
                self.rest = rest;
                Ok(*first)
            }
            None => Err(Ended),
        }
    }

    /// A number in four bytes.
    pub fn number(&mut self) -> Result<u32, Ended>
        ensures value { IfOk result (λ n. read_u32 self.old ≡ Some (n, self.new)) }
        ensures ended { OnErr result (read_u32 self.old ≡ None) }
        ensures unchanged { OnErr result (self.new ≡ self.old) }
    {
        match take_u32(self.rest, 0) {
            Ok(n) => {
                self.rest = &self.rest[4..];
                Ok(n)
            }
            Err(_) => Err(Ended),
        }
    }

    /// A number in eight bytes.
    pub fn long_number(&mut self) -> Result<u64, Ended>
        ensures value { IfOk result (λ n. read_u64 self.old ≡ Some (n, self.new)) }
        ensures ended { OnErr result (read_u64 self.old ≡ None) }
        ensures unchanged { OnErr result (self.new ≡ self.old) }
    {
        match take_u64(self.rest, 0) {
            Ok(n) => {
                self.rest = &self.rest[8..];
                Ok(n)
            }
            Err(_) => Err(Ended),
        }
    }

    /// This many bytes.
    pub fn list(&mut self, n: usize) -> Result<&'a [u8], Ended>
        ensures value { IfOk result (λ bytes. read_list n self.old ≡ Some (bytes.now, self.new)) }
        ensures ended { OnErr result (read_list n self.old ≡ None) }
        ensures unchanged { OnErr result (self.new ≡ self.old) }
    {
        match take_bytes(self.rest, 0, n) {
            Ok(bytes) => {
                self.rest = &self.rest[n..];
                Ok(bytes)
            }
            Err(_) => Err(Ended),
        }
    }

    /// A version: its epoch in four bytes, and its number in eight.
    pub fn version(&mut self) -> Result<Version, Ended>
        ensures value { IfOk result (λ v. read_version self.old ≡ Some (v, self.new)) }
        ensures ended { OnErr result (read_version self.old ≡ None) }
        ensures unchanged { OnErr result (self.new ≡ self.old) }
    {
        let mut ahead = Reader { rest: self.rest };
        let epoch = ahead.number()?;
        let seq = ahead.long_number()?;
        self.rest = ahead.rest;
        Ok(Version { epoch, seq })
    }
}
