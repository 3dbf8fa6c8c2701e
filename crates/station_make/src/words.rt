//! What words name: a number of feeders, and a text.
ghost use Rattle.std.specs.Prelude.{◌≡◌, ℕ, option_map, IfOk, IfSome, IfNone};
ghost use Rattle.station_make.specs.Words.{NamesFeeders, feeders_of, made_text, text_named};

use crate::feeders::Feeders;
use crate::limits::{LEAST_FEEDERS, MOST_FEEDERS};
use crate::making::{Made, make};
use ilk_base::{Memory, Text};
use std::alloc::Global;
use text_lines::decimal_number;

/// A text of the station.
#[derive(Clone, Copy, PartialEq, Eq)]
pub enum MadeText {
    Station,
    Positions,
    Log,
}

// The number of feeders that a word names, if it names one.
#[tactic(auto, using(crate::proofs::NumberLemmas::is_decimal, crate::proofs::NumberLemmas::out_of_range))]
fn number_of(word: &str) -> Option<u8>
    ensures some { IfSome result (NamesFeeders word.now) }
    ensures none { IfNone result ((n : ℕ) → ¬ NamesFeeders word.now n) }
{
    let Some(number) = decimal_number(word.as_bytes()) else {
        return None;
    };
    if number < u32::from(LEAST_FEEDERS) || number > u32::from(MOST_FEEDERS) {
        return None;
    }
    Some(number as u8)
}

/// The number of feeders that a word names: decimal, without sign or leading zeros, from `LEAST_FEEDERS`
/// to `MOST_FEEDERS`; none where it is no such word. Time: the word. Takes no memory.
pub fn feeders_named(word: &str) -> Option<Feeders>
    ensures some { IfSome result (λ f. NamesFeeders word.now f.number) }
    ensures none { IfNone result ((n : ℕ) → ¬ NamesFeeders word.now n) }
    ensures value { option_map (λ f. f.number) result ≡ feeders_of word.now }
{
    match number_of(word) {
        Some(number) => Some(Feeders { number }),
        None => None,
    }
}

/// The text that a word names: `station`, `positions` or `log`; none where it is another. At once.
pub fn text_named(word: &str) -> Option<MadeText>
    ensures { result ≡ text_named word.now }
{
    match word {
        "station" => Some(MadeText::Station),
        "positions" => Some(MadeText::Positions),
        "log" => Some(MadeText::Log),
        _ => None,
    }
}

/// Makes this text of the station with so many feeders. Time and memory: those of `make`.
pub fn make_text(alloc: Global, text: MadeText, feeders: Feeders) -> Result<Text, Memory>
    ensures { IfOk result (λ t. t ≡ made_text text feeders.number) }
{
    let Made {
        station,
        positions,
        events,
    } = make(alloc, feeders.number)?;
    Ok(match text {
        MadeText::Station => station,
        MadeText::Positions => positions,
        MadeText::Log => events,
    })
}
