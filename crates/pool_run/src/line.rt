//! The lines of a script.
//!
//! A line is read by the number of its fields. All forms are read; a line that is not served yet is then refused as one of no form.
ghost use Rattle.std.specs.Prelude.{◌≡◌, IfOk, IsOk, Err, Some, None, IsTrue, true, false, length, slice_get};
ghost use Rattle.ec_words.specs.Fields.{fields};
ghost use Rattle.ec_words.specs.HexText.{SpellsBytes, is_hex_text};
ghost use Rattle.ec_words.specs.Names.{is_name};
ghost use Rattle.run_model.specs.Scripts.{BadLine, bytes_in, four_fields, line_of_fields, number_in, one_field, three_fields, two_fields, word_and_name, word_and_names};
ghost use Rattle.pool_run.specs.Lines.{is_served, line_shown, script_line};

use ec_words::{Bytes, Name, WordFault, field, field_count, read_hex, read_u64};
use std::alloc::Global;
use thiserror::Error;

/// A line of a script. A slot is the number that is written: whether the pool has it is not looked at.
#[derive(Drop)]
pub enum Line {
    /// `append NAME HEX`: the bytes are put behind those of the object.
    Append {
        name: Name,
        bytes: Bytes,
    },
    /// `write NAME OFF HEX`: the bytes are put from byte OFF of the object on.
    Write {
        name: Name,
        off: u64,
        bytes: Bytes,
    },
    /// `full NAME HEX`: the object's bytes become these.
    Full {
        name: Name,
        bytes: Bytes,
    },
    /// `delete NAME`: takes the object away.
    Delete {
        name: Name,
    },
    /// `setattr NAME ATTR HEX`: sets an attribute of the object.
    SetAttr {
        name: Name,
        attr: Name,
        value: Bytes,
    },
    /// `rmattr NAME ATTR`: takes an attribute away.
    RemoveAttr {
        name: Name,
        attr: Name,
    },
    /// `get NAME`: shows the object's bytes.
    Get {
        name: Name,
    },
    /// `getattr NAME ATTR`: shows an attribute's value.
    GetAttr {
        name: Name,
        attr: Name,
    },
    /// `stat NAME`: shows the object's size.
    Stat {
        name: Name,
    },
    /// `list`: shows all names with their sizes.
    ListObjects,
    /// `flush`: what was acknowledged is to be kept.
    Flush,
    /// `scrub NAME`: asks whether the positions of the object agree.
    Scrub {
        name: Name,
    },
    /// `up SLOT`: takes the mark off a slot.
    Up {
        slot: u64,
    },
    /// `down SLOT`: marks a slot as down.
    Down {
        slot: u64,
    },
    /// `recover`: fills the slots that lag behind.
    Recover,
    /// `rebuild SLOT`: empties a slot and fills it.
    Rebuild {
        slot: u64,
    },
    /// `status`: asks for the pool's state.
    Status,
}

/// Why a text is no line.
#[derive(Clone, Copy, Debug, Error)]
pub enum LineFault {
    /// The text has none of the forms that are served.
    #[error("no line of the script language")]
    Bad,
    /// Memory ran out.
    #[error("out of memory")]
    NoMemory,
}

/// Reads a line, given without its line feed.
#[tactic(auto, using(crate::proofs::LineLemmas::served_is, crate::proofs::LineLemmas::unserved_is, crate::proofs::LineLemmas::bad_is))]
pub fn read_line(alloc: Global, text: &[u8]) -> Result<Line, LineFault>
    ensures value { IfOk result (λ line. script_line text.now ≡ line_shown line) }
    ensures served { IfOk result (λ line. is_served (line_shown line) ≡ true) }
    ensures bad { result ≡ Err LineFault.Bad → script_line text.now ≡ BadLine }
{
    let line = parse_line(alloc, text)?;
    if is_served(&line) {
        Ok(line)
    } else {
        Err(LineFault::Bad)
    }
}

// Whether a line is served so far.
fn is_served(line: &Line) -> bool
    ensures { result ≡ is_served (line_shown line.now) }
{
    match line {
        Line::Append { .. } | Line::Write { .. } | Line::Full { .. } | Line::Delete { .. } => true,
        Line::Get { .. } | Line::Stat { .. } | Line::ListObjects | Line::Flush => true,
        _ => false,
    }
}

// The line that a text is, by the number of its fields.
fn parse_line(alloc: Global, text: &[u8]) -> Result<Line, LineFault>
    ensures value { IfOk result (λ line. line_of_fields (fields text.now) ≡ line_shown line) }
    ensures bad { result ≡ Err LineFault.Bad → line_of_fields (fields text.now) ≡ BadLine }
{
    let Some(word) = field(text, 0) else {
        return Err(LineFault::Bad);
    };
    match field_count(text) {
        1 => read_one_field(word),
        2 => {
            let Some(second) = field(text, 1) else {
                return Err(LineFault::Bad);
            };
            read_two_fields(alloc, word, second)
        }
        3 => parse_three_fields(alloc, text, word),
        4 => parse_four_fields(alloc, text, word),
        _ => Err(LineFault::Bad),
    }
}

fn parse_three_fields(alloc: Global, text: &[u8], word: &[u8]) -> Result<Line, LineFault>
    requires count { length (fields text.now) ≡ 3 }
    requires first { slice_get (fields text.now) 0 ≡ Some word.now }
    ensures value { IfOk result (λ line. line_of_fields (fields text.now) ≡ line_shown line) }
    ensures bad { result ≡ Err LineFault.Bad → line_of_fields (fields text.now) ≡ BadLine }
{
    let (Some(name), Some(third)) = (field(text, 1), field(text, 2)) else {
        return Err(LineFault::Bad);
    };
    read_three_fields(alloc, word, name, third)
}

fn parse_four_fields(alloc: Global, text: &[u8], word: &[u8]) -> Result<Line, LineFault>
    requires count { length (fields text.now) ≡ 4 }
    requires first { slice_get (fields text.now) 0 ≡ Some word.now }
    ensures value { IfOk result (λ line. line_of_fields (fields text.now) ≡ line_shown line) }
    ensures bad { result ≡ Err LineFault.Bad → line_of_fields (fields text.now) ≡ BadLine }
{
    let (Some(name), Some(third)) = (field(text, 1), field(text, 2)) else {
        return Err(LineFault::Bad);
    };
    let Some(digits) = field(text, 3) else {
        return Err(LineFault::Bad);
    };
    read_four_fields(alloc, word, name, third, digits)
}

fn read_one_field(word: &[u8]) -> Result<Line, LineFault>
    ensures value { IfOk result (λ line. one_field word.now ≡ line_shown line) }
    ensures bad { result ≡ Err LineFault.Bad → one_field word.now ≡ BadLine }
{
    if word == b"flush".as_slice() {
        Ok(Line::Flush)
    } else if word == b"list".as_slice() {
        Ok(Line::ListObjects)
    } else if word == b"recover".as_slice() {
        Ok(Line::Recover)
    } else if word == b"status".as_slice() {
        Ok(Line::Status)
    } else {
        Err(LineFault::Bad)
    }
}

fn read_two_fields(alloc: Global, word: &[u8], second: &[u8]) -> Result<Line, LineFault>
    ensures value { IfOk result (λ line. two_fields word.now second.now ≡ line_shown line) }
    ensures bad { result ≡ Err LineFault.Bad → two_fields word.now second.now ≡ BadLine }
{
    if word == b"up".as_slice() {
        let slot = read_number(second)?;
        Ok(Line::Up { slot })
    } else if word == b"down".as_slice() {
        let slot = read_number(second)?;
        Ok(Line::Down { slot })
    } else if word == b"rebuild".as_slice() {
        let slot = read_number(second)?;
        Ok(Line::Rebuild { slot })
    } else {
        let name = read_name(alloc, second)?;
        read_word_and_name(alloc, word, name)
    }
}

fn read_word_and_name(alloc: Global, word: &[u8], name: Name) -> Result<Line, LineFault>
    ensures value { IfOk result (λ line. word_and_name word.now name ≡ line_shown line) }
    ensures bad { result ≡ Err LineFault.Bad → word_and_name word.now name ≡ BadLine }
{
    if word == b"get".as_slice() {
        Ok(Line::Get { name })
    } else if word == b"stat".as_slice() {
        Ok(Line::Stat { name })
    } else if word == b"scrub".as_slice() {
        Ok(Line::Scrub { name })
    } else if word == b"delete".as_slice() {
        Ok(Line::Delete { name })
    } else if word == b"append".as_slice() {
        Ok(Line::Append {
            name,
            bytes: Bytes::new(alloc),
        })
    } else if word == b"full".as_slice() {
        Ok(Line::Full {
            name,
            bytes: Bytes::new(alloc),
        })
    } else {
        Err(LineFault::Bad)
    }
}

fn read_three_fields(
    alloc: Global,
    word: &[u8],
    name: &[u8],
    third: &[u8],
) -> Result<Line, LineFault>
    ensures value { IfOk result (λ line. three_fields word.now name.now third.now ≡ line_shown line) }
    ensures bad { result ≡ Err LineFault.Bad → three_fields word.now name.now third.now ≡ BadLine }
{
    let name = read_name(alloc, name)?;
    if word == b"append".as_slice() {
        let bytes = read_bytes(alloc, third)?;
        Ok(Line::Append { name, bytes })
    } else if word == b"full".as_slice() {
        let bytes = read_bytes(alloc, third)?;
        Ok(Line::Full { name, bytes })
    } else if word == b"write".as_slice() {
        let off = read_number(third)?;
        Ok(Line::Write {
            name,
            off,
            bytes: Bytes::new(alloc),
        })
    } else {
        let attr = read_name(alloc, third)?;
        read_word_and_names(alloc, word, name, attr)
    }
}

fn read_word_and_names(
    alloc: Global,
    word: &[u8],
    name: Name,
    attr: Name,
) -> Result<Line, LineFault>
    ensures value { IfOk result (λ line. word_and_names word.now name attr ≡ line_shown line) }
    ensures bad { result ≡ Err LineFault.Bad → word_and_names word.now name attr ≡ BadLine }
{
    if word == b"getattr".as_slice() {
        Ok(Line::GetAttr { name, attr })
    } else if word == b"rmattr".as_slice() {
        Ok(Line::RemoveAttr { name, attr })
    } else if word == b"setattr".as_slice() {
        Ok(Line::SetAttr {
            name,
            attr,
            value: Bytes::new(alloc),
        })
    } else {
        Err(LineFault::Bad)
    }
}

fn read_four_fields(
    alloc: Global,
    word: &[u8],
    name: &[u8],
    third: &[u8],
    digits: &[u8],
) -> Result<Line, LineFault>
    ensures value { IfOk result (λ line.
        four_fields word.now name.now third.now digits.now ≡ line_shown line) }
    ensures bad { result ≡ Err LineFault.Bad
        → four_fields word.now name.now third.now digits.now ≡ BadLine }
{
    let name = read_name(alloc, name)?;
    if word == b"write".as_slice() {
        let off = read_number(third)?;
        let bytes = read_bytes(alloc, digits)?;
        Ok(Line::Write { name, off, bytes })
    } else if word == b"setattr".as_slice() {
        let attr = read_name(alloc, third)?;
        let value = read_bytes(alloc, digits)?;
        Ok(Line::SetAttr { name, attr, value })
    } else {
        Err(LineFault::Bad)
    }
}

fn read_name(alloc: Global, text: &[u8]) -> Result<Name, LineFault>
    ensures value { IfOk result (λ name. name ≡ text.now) }
    ensures is_name { IsOk result → IsTrue (is_name text.now) }
    ensures bad { result ≡ Err LineFault.Bad → is_name text.now ≡ false }
{
    match Name::read(alloc, text) {
        Ok(name) => Ok(name),
        Err(WordFault::NoMemory) => Err(LineFault::NoMemory),
        Err(_) => Err(LineFault::Bad),
    }
}

// The number that a field prints.
#[tactic(auto, using(crate::proofs::LineLemmas::number_found, crate::proofs::LineLemmas::no_number))]
fn read_number(text: &[u8]) -> Result<u64, LineFault>
    ensures value { IfOk result (λ n. number_in text.now ≡ Some n) }
    ensures bad { result ≡ Err LineFault.Bad → number_in text.now ≡ None }
{
    match read_u64(text) {
        Ok(n) => Ok(n),
        Err(_) => Err(LineFault::Bad),
    }
}

// The bytes that a field of digits spells. There is at least one digit.
#[tactic(auto, using(crate::proofs::LineLemmas::bytes_spelled, crate::proofs::LineLemmas::bytes_bad))]
fn read_bytes(alloc: Global, text: &[u8]) -> Result<Bytes, LineFault>
    ensures value { IfOk result (λ bytes. bytes_in text.now ≡ Some bytes) }
    ensures bad { result ≡ Err LineFault.Bad → bytes_in text.now ≡ None }
{
    if text.is_empty() {
        return Err(LineFault::Bad);
    }
    let bytes = read_digits(alloc, text)?;
    Ok(bytes)
}

fn read_digits(alloc: Global, text: &[u8]) -> Result<Bytes, LineFault>
    ensures value { IfOk result (λ bytes. SpellsBytes text.now bytes) }
    ensures bad { result ≡ Err LineFault.Bad → is_hex_text text.now ≡ false }
{
    match read_hex(alloc, text) {
        Ok(bytes) => Ok(bytes),
        Err(WordFault::NoMemory) => Err(LineFault::NoMemory),
        Err(_) => Err(LineFault::Bad),
    }
}
