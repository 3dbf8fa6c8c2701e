//! What texts call a rule, a direction, a position and a word.
ghost use Rattle.std.specs.Prelude.{◌≡◌, Some};
ghost use Rattle.double_points.specs.Words.{word_of};
ghost use Rattle.central_rules.specs.Names.{rule_name, direction_name, position_name, word_name, is_uncertain};

use ilk_base::{Dbpos, Direction, Rule};

/// `R1`, `R2` or `R3`. At once, as the others.
pub fn rule_name(rule: Rule) -> &'static [u8]
    ensures { result.now ≡ rule_name rule }
{
    match rule {
        Rule::R1 => b"R1",
        Rule::R2 => b"R2",
        Rule::R3 => b"R3",
    }
}

/// `open` or `close`.
pub fn direction_name(direction: Direction) -> &'static [u8]
    ensures { result.now ≡ direction_name direction }
{
    match direction {
        Direction::ToOff => b"open",
        Direction::ToOn => b"close",
    }
}

/// `on` for a closed switch, `off` for an open one.
pub fn position_name(closed: bool) -> &'static [u8]
    ensures { result.now ≡ position_name closed }
{
    match closed {
        false => b"off",
        true => b"on",
    }
}

/// The text that spells the word: `intermediate`, `off`, `on`, `bad` or `lost`. `word_from` reads it
/// back.
pub fn word_name(word: Dbpos) -> &'static [u8]
    ensures name { result.now ≡ word_name word }
    ensures read_back { word_of result.now ≡ Some word }
{
    match word {
        Dbpos::Intermediate => b"intermediate",
        Dbpos::Off => b"off",
        Dbpos::On => b"on",
        Dbpos::Bad => b"bad",
        Dbpos::Lost => b"lost",
    }
}

/// Whether the word is neither off nor on, so that it leaves the position open.
pub fn is_uncertain(word: Dbpos) -> bool
    ensures { result ≡ is_uncertain word }
{
    match word {
        Dbpos::Off | Dbpos::On => false,
        Dbpos::Intermediate | Dbpos::Bad | Dbpos::Lost => true,
    }
}
