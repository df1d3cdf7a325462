//! Hexadecimal texts: two digits for each byte, the high four bits first, in either case.
ghost use Rattle.std.specs.Prelude.{◌≡◌, ◌↔◌, ◌⊎◌, IfOk, IfErr, Err, false};
ghost use Rattle.ec_words.specs.HexText.{SpellsBytes, is_digit, is_hex_text};

use crate::{Bytes, WordFault};
use std::alloc::Global;

/// The bytes that a hexadecimal text spells.
pub fn read_hex(alloc: Global, text: &[u8]) -> Result<Bytes, WordFault>
    ensures value { IfOk result (λ bytes. SpellsBytes text.now bytes) }
    ensures bad_hex { (result ≡ Err WordFault.BadHex) ↔ (is_hex_text text.now ≡ false) }
    ensures faults { IfErr result (λ fault. (fault ≡ WordFault.BadHex) ⊎ (fault ≡ WordFault.NoMemory)) }
{
    if !is_hex_text(text) {
        return Err(WordFault::BadHex);
    }
    match hex::decode(alloc, text) {
        Ok(list) => Ok(Bytes::of(list)),
        Err(_) => Err(WordFault::NoMemory),
    }
}

fn is_hex_text(text: &[u8]) -> bool
    ensures { result ≡ is_hex_text text.now }
{
    text.len() % 2 == 0 && text.iter().all(|b| is_digit(*b))
}

fn is_digit(b: u8) -> bool
    ensures { result ≡ is_digit b }
{
    match b {
        b'0'..=b'9' | b'a'..=b'f' | b'A'..=b'F' => true,
        _ => false,
    }
}
