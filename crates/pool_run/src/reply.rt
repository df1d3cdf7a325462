//! The replies to the lines of a script.
ghost use Rattle.std.specs.Prelude.{◌≡◌, ◌++◌, ◌∷◌, [], length, IfOk, OnOk};
ghost use Rattle.std.specs.Fmt.{decimal};
ghost use Rattle.hex.specs.Hex.{encode_lower};
ghost use Rattle.ec_positions.specs.Commands.{Done};
ghost use Rattle.std.specs.List.{flat_map};
ghost use Rattle.ec_words.specs.Fields.{optional_field};
ghost use Rattle.run_model.specs.Replies.{listed_text};
ghost use Rattle.pool_run.specs.Replies.{shown, reply_text, is_done};

use ec_words::{Bytes, Name, NoMemory};
use std::alloc::Global;

/// The answer to a line.
#[derive(Drop)]
pub enum Reply {
    /// `ok`, with the text of its second field. The text is empty if there is no such field.
    Done(Bytes),
    /// `ok` with the number of objects, and under it their names with their sizes, a line for each.
    Listing(Vec<(Name, u32)>),
    /// `absent`: there is no such object.
    Absent,
    /// `toolarge`: the object would be longer than an object may be.
    TooLarge,
    /// `objects`: there are as many objects as there may be, and this would be one more.
    TooManyObjects,
    /// `full`: the objects would take more bytes in all than they may.
    TooFull,
    /// `bad`: the line has none of the forms.
    Bad,
}

impl Reply {
    /// `ok` alone. It takes no memory.
    pub fn done(alloc: Global) -> Reply
        ensures { shown result ≡ Done [] [] }
    {
        Reply::Done(Bytes::new(alloc))
    }

    /// `ok` with a number in decimal digits.
    pub fn of_number(alloc: Global, number: u32) -> Result<Reply, NoMemory>
        ensures { IfOk result (λ reply. shown reply ≡ Done (decimal number) []) }
    {
        let digits = format!(in alloc; "{number}")?;
        Ok(Reply::Done(Bytes::from_slice(alloc, digits.as_bytes())?))
    }

    /// `ok` with these bytes in hexadecimal digits, in lower case.
    pub fn of_bytes(alloc: Global, bytes: &[u8]) -> Result<Reply, NoMemory>
        ensures { IfOk result (λ reply. shown reply ≡ Done (encode_lower bytes.now) []) }
    {
        let digits = hex::encode(alloc, bytes)?;
        Ok(Reply::Done(Bytes::from_slice(alloc, digits.as_bytes())?))
    }

    /// Whether the reply begins with `ok`.
    pub fn is_done(&self) -> bool
        ensures { result ≡ is_done (shown self.now) }
    {
        match self {
            Reply::Done(_) | Reply::Listing(_) => true,
            Reply::Absent | Reply::TooLarge | Reply::TooManyObjects | Reply::TooFull => false,
            Reply::Bad => false,
        }
    }
}

/// The line of a reply, with its line feed, and the lines under it.
pub fn print_reply(alloc: Global, reply: &Reply) -> Result<Bytes, NoMemory>
    ensures { IfOk result (λ text. text ≡ reply_text (shown reply.now)) }
{
    let mut list = Vec::new(alloc);
    push_reply(alloc, &mut list, reply)?;
    Ok(Bytes::of(list))
}

fn push_reply(alloc: Global, list: &mut Vec<u8>, reply: &Reply) -> Result<(), NoMemory>
    ensures { OnOk result (list.new.items ≡ list.old.items ++ reply_text (shown reply.now)) }
{
    match reply {
        Reply::Done(text) => push_done(list, text.as_slice()),
        Reply::Listing(entries) => push_listing(alloc, list, entries),
        Reply::Absent => push_word(list, b"absent"),
        Reply::TooLarge => push_word(list, b"toolarge"),
        Reply::TooManyObjects => push_word(list, b"objects"),
        Reply::TooFull => push_word(list, b"full"),
        Reply::Bad => push_word(list, b"bad"),
    }
}

fn push_word(list: &mut Vec<u8>, word: &[u8]) -> Result<(), NoMemory>
    ensures { OnOk result (list.new.items ≡ list.old.items ++ (word.now ++ 10 ∷ [])) }
{
    list.extend_from_slice(word)?;
    list.push(b'\n')?;
    Ok(())
}

// `ok`, and the text as a further field if there is one.
fn push_done(list: &mut Vec<u8>, text: &[u8]) -> Result<(), NoMemory>
    ensures { OnOk result (list.new.items ≡ list.old.items ++ reply_text (Done text.now [])) }
{
    list.extend_from_slice(b"ok")?;
    push_field(list, text)?;
    list.push(b'\n')?;
    Ok(())
}

fn push_field(list: &mut Vec<u8>, text: &[u8]) -> Result<(), NoMemory>
    ensures { OnOk result (list.new.items ≡ list.old.items ++ optional_field text.now) }
{
    if !text.is_empty() {
        list.push(b' ')?;
        list.extend_from_slice(text)?;
    }
    Ok(())
}

// `ok` with how many they are, and a line for each.
fn push_listing(alloc: Global, list: &mut Vec<u8>, entries: &[(Name, u32)]) -> Result<(), NoMemory>
    ensures { OnOk result (list.new.items ≡ list.old.items ++ reply_text (Done (decimal (length entries.now)) entries.now)) }
{
    let digits = format!(in alloc; "{}", entries.len())?;
    push_done(list, digits.as_bytes())?;
    push_entries(alloc, list, entries)
}

fn push_entries(alloc: Global, list: &mut Vec<u8>, entries: &[(Name, u32)]) -> Result<(), NoMemory>
    ensures { OnOk result (list.new.items ≡ list.old.items ++ flat_map listed_text entries.now) }
{
    for entry in entries {
        push_entry(alloc, list, &entry.0, entry.1)?;
    }
    Ok(())
}

// A name with its object's size.
fn push_entry(alloc: Global, list: &mut Vec<u8>, name: &Name, size: u32) -> Result<(), NoMemory>
    ensures { OnOk result (list.new.items ≡ list.old.items ++ listed_text (name.now, size)) }
{
    let digits = format!(in alloc; "{size}")?;
    list.extend_from_slice(b"  ")?;
    list.extend_from_slice(name.as_slice())?;
    list.push(b' ')?;
    list.extend_from_slice(digits.as_bytes())?;
    list.push(b'\n')?;
    Ok(())
}
