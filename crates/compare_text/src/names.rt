//! What the text calls things.
ghost use Rattle.std.specs.Prelude.{◌≡◌, ◌++◌, codes};
ghost use Rattle.compare_text.specs.CompareText.{change_name, judged_name, side_name};

use station_changes::Change;
use station_compare::{Found, Word};

// What the text calls a change.
pub(crate) fn change_name(change: Change) -> &'static [u8]
    ensures { result.now ≡ change_name change }
{
    match change {
        Change::Stricter => b"stricter",
        Change::Looser => b"looser",
    }
}

// What it calls an operation that is judged so.
pub(crate) fn judged_name(word: Word) -> &'static [u8]
    ensures { result.now ≡ judged_name word }
{
    match word {
        Word::Same => b"same",
        Word::Kept => b"kept",
        Word::Changed => b"changed",
    }
}

// The front of the line of a switch of the new station that is closed: which stations have it.
pub(crate) fn with_word(found: &Found) -> &'static [u8]
    ensures { result.now ≡ codes "with " ++ side_name found.now ++ codes " " }
{
    match found {
        Found::OnlyNew => b"with new ",
        Found::InBoth(_) => b"with both ",
    }
}
