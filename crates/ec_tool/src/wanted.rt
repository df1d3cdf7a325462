//! The list of positions that a command asks for: numbers with a comma between each two, none of them twice.
ghost use Rattle.std.specs.Prelude.{◌≡◌, ◌↔◌, ℕ, List, IfOk, IfSome, IfNone, IsTrue, map};
ghost use Rattle.ec_tool.specs.Wanted.{AreNumbers};
ghost use Rattle.ec_tool.specs.Words.{AreDistinct, IsList, comma_pieces};

use ec_words::{NoMemory, read_u64};
use std::alloc::Global;

/// The positions that a text lists, in its order. `None` if it is no such list.
pub fn read_wanted(alloc: Global, text: &[u8]) -> Result<Option<Vec<u64>>, NoMemory>
    ensures some { IfOk result (λ answer. IfSome answer (λ wanted. IsList text.now wanted.items)) }
    ensures none { IfOk result (λ answer. IfNone answer ((wanted : List ℕ) → IsList text.now wanted → ⊥)) }
{
    let pieces = comma_pieces(alloc, text)?;
    let Some(numbers) = read_numbers(alloc, &pieces)? else {
        return Ok(None);
    };
    if are_distinct(&numbers) {
        Ok(Some(numbers))
    } else {
        Ok(None)
    }
}

fn comma_pieces(alloc: Global, text: &[u8]) -> Result<Vec<&[u8]>, NoMemory>
    ensures { IfOk result (λ pieces. map (λ piece. piece.now) pieces.items ≡ comma_pieces text.now) }
{
    let pieces = text.split(|b| *b == b',').collect(alloc)?;
    Ok(pieces)
}

// The numbers that some texts are; none if one of them is no number.
fn read_numbers(alloc: Global, texts: &[&[u8]]) -> Result<Option<Vec<u64>>, NoMemory>
    ensures some { IfOk result (λ answer. IfSome answer (λ numbers.
        AreNumbers (map (λ text. text.now) texts.now) numbers.items)) }
    ensures none { IfOk result (λ answer. IfNone answer ((numbers : List ℕ)
        → AreNumbers (map (λ text. text.now) texts.now) numbers → ⊥)) }
{
    let mut numbers = Vec::new(alloc);
    for text in texts {
        match read_u64(text) {
            Ok(number) => numbers.push(number)?,
            Err(_) => return Ok(None),
        }
    }
    Ok(Some(numbers))
}

fn are_distinct(list: &[u64]) -> bool
    ensures { IsTrue result ↔ AreDistinct list.now }
{
    for i in 0..list.len() {
        if list[..i].contains(&list[i]) {
            return false;
        }
    }
    true
}
