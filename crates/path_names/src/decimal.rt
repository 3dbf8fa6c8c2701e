//! Numbers in a text that goes out in pieces.
ghost use Rattle.std.specs.Prelude.{◌≡◌, ◌<◌, ◌+◌, ◌++◌, ◌∷◌, [], decimal, OnOk};

use ilk_base::Memory;
use piece_writer::NamedText;

// The byte of a digit.
fn digit_word(digit: u8) -> &'static [u8]
    requires { digit < 10 }
    ensures { result.now ≡ (48 + digit) ∷ [] }
{
    match digit {
        0 => b"0",
        1 => b"1",
        2 => b"2",
        3 => b"3",
        4 => b"4",
        5 => b"5",
        6 => b"6",
        7 => b"7",
        8 => b"8",
        _ => b"9",
    }
}

/// Appends the number in decimal, without leading zeros. Time and memory: its digits.
#[tactic(auto, using(std::proofs::lemmas::Fmt::decimal_step, std::proofs::lemmas::Fmt::decimal_digit))]
pub fn push_decimal(text: &mut NamedText, number: usize) -> Result<(), Memory>
    ensures ok { OnOk result (text.new.text ≡ text.old.text ++ decimal number) }
    ensures names { text.new.names ≡ text.old.names }
{
    if number < 10 {
        return text.word(digit_word(number as u8));
    }
    push_decimal(text, number / 10)?;
    text.word(digit_word((number % 10) as u8))
}
