//! Numbers in records.
ghost use Rattle.std.specs.Prelude.{ℕ, IfSome, IfNone};
ghost use Rattle.log_replay.specs.RecordFaults.{IsNumber};

use text_lines::decimal_number;

/// The greatest number of a message that a log may name.
pub const LAST_MESSAGE: u32 = 4_294_967_295;

/// The most bytes to which a log may cut a message.
pub const MOST_CUT_BYTES: u32 = 64;

// The number of the text, in decimal without sign or leading zeros, where it is in this range. Time: the
// length of the text. Takes no memory.
pub(crate) fn number_from(text: &str, least: u32, most: u32) -> Option<u32>
    ensures some { IfSome result (IsNumber least most text.now) }
    ensures none { IfNone result ((n : ℕ) → ¬ IsNumber least most text.now n) }
{
    let Some(number) = decimal_number(text.as_bytes()) else {
        return None;
    };
    if number < least || most < number {
        return None;
    }
    Some(number)
}
