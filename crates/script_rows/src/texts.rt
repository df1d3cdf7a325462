//! The texts of rows. `\n`, `\t` and `\r` stand for the bytes 10, 9 and 13, `\xHH` for the byte with these digits, and `\(N TEXT)`
//! for N bytes that repeat TEXT. In TEXT a `/` stands for the byte 10.

use ec_words::NoMemory;
use std::alloc::Global;

/// The bytes that a text stands for.
pub fn text_of(alloc: Global, text: &str) -> Result<Vec<u8>, NoMemory> {
    let mut bytes = Vec::new(alloc);
    push_text(text, &mut bytes)?;
    Ok(bytes)
}

/// The same behind other bytes.
pub fn push_text(text: &str, to: &mut Vec<u8>) -> Result<(), NoMemory> {
    let mut is_first = true;
    for piece in text.split('\\') {
        if is_first {
            to.extend_from_slice(piece.as_bytes())?;
        } else {
            push_escaped(piece.as_bytes(), to)?;
        }
        is_first = false;
    }
    Ok(())
}

// A piece that stood behind a backslash.
fn push_escaped(piece: &[u8], to: &mut Vec<u8>) -> Result<(), NoMemory> {
    match piece {
        [b'n', rest @ ..] => push_byte(b'\n', rest, to),
        [b't', rest @ ..] => push_byte(b'\t', rest, to),
        [b'r', rest @ ..] => push_byte(b'\r', rest, to),
        [b'x', high, low, rest @ ..] => {
            push_byte(
                digit(*high).wrapping_mul(16).wrapping_add(digit(*low)),
                rest,
                to,
            )
        }
        [b'(', rest @ ..] => push_repeated(rest, to),
        _ => push_byte(b'?', piece, to),
    }
}

fn push_byte(byte: u8, rest: &[u8], to: &mut Vec<u8>) -> Result<(), NoMemory> {
    to.push(byte)?;
    to.extend_from_slice(rest)?;
    Ok(())
}

// The value of a hexadecimal digit.
fn digit(byte: u8) -> u8 {
    match byte {
        b'0'..=b'9' => byte - b'0',
        b'a'..=b'f' => byte - b'a' + 10,
        _ => 0,
    }
}

// `N TEXT)` and the text behind it.
fn push_repeated(piece: &[u8], to: &mut Vec<u8>) -> Result<(), NoMemory> {
    let Ok(text) = std::str::from_utf8(piece) else {
        return Ok(());
    };
    let Some((number, more)) = text.split_once(' ') else {
        return Ok(());
    };
    let Some((unit, rest)) = more.split_once(')') else {
        return Ok(());
    };
    if let Ok(count) = number.parse::<u32>() {
        push_over_and_over(count, unit.as_bytes(), to)?;
    }
    to.extend_from_slice(rest.as_bytes())?;
    Ok(())
}

fn push_over_and_over(count: u32, unit: &[u8], to: &mut Vec<u8>) -> Result<(), NoMemory> {
    for i in 0..count as usize {
        if !unit.is_empty() {
            let byte = unit[i % unit.len()];
            to.push(if byte == b'/' { b'\n' } else { byte })?;
        }
    }
    Ok(())
}
