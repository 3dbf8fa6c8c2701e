//! Numbers in a text.
ghost use Rattle.std.specs.Prelude.{◌≡◌, ◌<◌, ◌^◌, ℕ, IfSome, IfNone, IsSomeAnd, decimal};
ghost use Rattle.text_lines.specs.Decimals.{IsDecimal};

use itoa::Buffer;

// The number that a text reads as.
fn parsed(text: &str) -> Option<u32>
    ensures { (n : ℕ) → n < 2 ^ 32 → text.now ≡ decimal n → IsSomeAnd result (λ k. k ≡ n) }
{
    match text.parse::<u32>() {
        Ok(number) => Some(number),
        Err(_) => None,
    }
}

/// The number from 0 to 4,294,967,295 that the word is in decimal, without sign or leading zeros; none where it
/// is no such word. Time: the length of the word. Takes no memory.
pub fn decimal_number(word: &[u8]) -> Option<u32>
    ensures some { IfSome result (IsDecimal word.now) }
    ensures none { IfNone result ((n : ℕ) → ¬ IsDecimal word.now n) }
{
    let Ok(text) = str::from_utf8(word) else {
        return None;
    };
    let Some(number) = parsed(text) else {
        return None;
    };
    let mut digits = Buffer::new();
    if digits.format(number).as_bytes() == word {
        Some(number)
    } else {
        None
    }
}
