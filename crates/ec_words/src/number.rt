//! Decimal numbers below 2^64.
ghost use Rattle.std.specs.Prelude.{◌≡◌, ◌↔◌, ℕ, IfErr, IfSome, IfNone, IsTrue, Ok, Err};
ghost use Rattle.ec_words.specs.Numbers.{IsNumberText, StartsAsNumber};

use crate::WordFault;

/// The number whose decimal digits a text is.
pub fn read_u64(text: &[u8]) -> Result<u64, WordFault>
    ensures value { (n : ℕ) → (result ≡ Ok n) ↔ IsNumberText text.now n }
    ensures bad_number { (result ≡ Err WordFault.BadNumber) ↔ ((n : ℕ) → IsNumberText text.now n → ⊥) }
    ensures faults { IfErr result (λ fault. fault ≡ WordFault.BadNumber) }
{
    match number_of(text) {
        Some(n) => Ok(n),
        None => Err(WordFault::BadNumber),
    }
}

fn number_of(text: &[u8]) -> Option<u64>
    ensures some { IfSome result (IsNumberText text.now) }
    ensures none { IfNone result ((n : ℕ) → IsNumberText text.now n → ⊥) }
{
    if !starts_as_number(text) {
        return None;
    }
    match str::from_utf8(text) {
        Ok(digits) => match digits.parse::<u64>() {
            Ok(n) => Some(n),
            Err(_) => None,
        },
        Err(_) => None,
    }
}

/// Whether a text is `0` or begins with another digit.
fn starts_as_number(text: &[u8]) -> bool
    ensures { IsTrue result ↔ StartsAsNumber text.now }
{
    match text.first() {
        Some(b'0') => text.len() == 1,
        Some(first) => b'1' <= *first && *first <= b'9',
        None => false,
    }
}
