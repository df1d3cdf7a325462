//! Reading a step off the front of a text.
ghost use Rattle.std.specs.Prelude.{◌≡◌, ◌++◌, ◌∷◌, [], IfOk, IfErr, OnOk, Some, None, Err};
ghost use Rattle.shard_model.specs.StepReading.{read_name, read_counted, read_head, read_pair, read_attrs};

use crate::fault::Unread;
use crate::pairs::Pairs;
use ec_words::{Bytes, Name, Reader, Version, WordFault};
use std::alloc::Global;
use std::marker::Model;

/// What is left of a text. A contract sees these bytes. After an `Err` nothing is said of them.
#[derive(Drop)]
pub(crate) struct StepReader<'a> {
    alloc: Global,
    pub front: Reader<'a>,
}

impl<'a> Model for StepReader<'a> {
    ghost use Rattle.std.specs.Prelude.{List, ℕ};

    ghost Value = { List ℕ };

    ghost view = { λ r. r.front };
}

/// What every entry begins with.
#[derive(Drop)]
pub(crate) struct Head {
    pub version: Version,
    pub prior: Version,
    pub name: Name,
}

impl<'a> StepReader<'a> {
    pub fn new(alloc: Global, text: &'a [u8]) -> StepReader<'a>
        ensures { result ≡ text.now }
    {
        StepReader {
            alloc,
            front: Reader::new(text),
        }
    }

    /// The bytes that are left.
    pub fn rest(&self) -> &'a [u8]
        ensures { result.now ≡ self.now }
    {
        self.front.rest()
    }

    pub fn name(&mut self) -> Result<Name, Unread>
        ensures value { IfOk result (λ name. read_name self.old ≡ Some (name, self.new)) }
        ensures no_step { result ≡ Err Unread.NoStep → read_name self.old ≡ None }
    {
        let len = self.front.byte()?;
        let text = self.front.list(len as usize)?;
        match Name::read(self.alloc, text) {
            Ok(name) => Ok(name),
            Err(WordFault::BadName) => Err(Unread::NoStep),
            Err(_) => Err(Unread::NoMemory),
        }
    }

    /// A number in four bytes, and as many bytes.
    pub fn counted(&mut self) -> Result<Bytes, Unread>
        ensures value { IfOk result (λ bytes. read_counted self.old ≡ Some (bytes, self.new)) }
        ensures no_step { result ≡ Err Unread.NoStep → read_counted self.old ≡ None }
    {
        let len = self.front.number()?;
        let bytes = self.front.list(len as usize)?;
        Ok(Bytes::from_slice(self.alloc, bytes)?)
    }

    pub fn head(&mut self) -> Result<Head, Unread>
        ensures value { IfOk result (λ h. read_head self.old ≡ Some ((h.version, (h.prior, h.name)), self.new)) }
        ensures no_step { result ≡ Err Unread.NoStep → read_head self.old ≡ None }
    {
        let version = self.front.version()?;
        let prior = self.front.version()?;
        let name = self.name()?;
        Ok(Head {
            version,
            prior,
            name,
        })
    }

    fn pair(&mut self) -> Result<(Name, Bytes), Unread>
        ensures value { IfOk result (λ attr. read_pair self.old ≡ Some (attr, self.new)) }
        ensures no_step { result ≡ Err Unread.NoStep → read_pair self.old ≡ None }
    {
        let name = self.name()?;
        let value = self.counted()?;
        Ok((name, value))
    }

    /// A number in a byte, and as many attributes.
    pub fn attrs(&mut self) -> Result<Pairs, Unread>
        ensures value { IfOk result (λ attrs. read_attrs self.old ≡ Some (attrs, self.new)) }
        ensures no_step { result ≡ Err Unread.NoStep → read_attrs self.old ≡ None }
    {
        let count = self.front.byte()?;
        let mut list = Vec::new(self.alloc);
        for _ in 0..count {
            let attr = self.pair()?;
            push_pair(&mut list, attr)?;
        }
        Ok(Pairs::of(list))
    }
}

fn push_pair(list: &mut Vec<(Name, Bytes)>, attr: (Name, Bytes)) -> Result<(), Unread>
    ensures ok { OnOk result (list.new.items ≡ list.old.items ++ attr ∷ []) }
    ensures memory { IfErr result (λ fault. fault ≡ Unread.NoMemory) }
{
    match list.push(attr) {
        Ok(()) => Ok(()),
        Err(_) => Err(Unread::NoMemory),
    }
}
