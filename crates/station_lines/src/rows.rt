//! Lines as a text, field by field.
ghost use Rattle.std.specs.Prelude.{◌≡◌, ◌++◌, [], ◌∷◌, OnOk};
ghost use Rattle.station_lines.specs.Rows.{row_text};

use ilk_base::{Memory, Text};

// Appends a field that another one follows.
fn push_field(text: &mut Text, field: &[u8]) -> Result<(), Memory>
    ensures { OnOk result (text.new ≡ text.old ++ (field.now ++ 9 ∷ [])) }
{
    text.push(field)?;
    text.push(b"\t")
}

// Appends the last field.
fn push_last(text: &mut Text, field: &[u8]) -> Result<(), Memory>
    ensures { OnOk result (text.new ≡ text.old ++ row_text (field.now ∷ [])) }
{
    text.push(field)?;
    text.push(b"\n")
}

/// Appends the line of two fields. Time: its length.
pub fn push_two(text: &mut Text, first: &[u8], second: &[u8]) -> Result<(), Memory>
    ensures { OnOk result (text.new ≡ text.old ++ row_text (first.now ∷ second.now ∷ [])) }
{
    push_field(text, first)?;
    push_last(text, second)
}

/// Appends the line of three fields. Time: its length.
pub fn push_three(text: &mut Text, first: &[u8], second: &[u8], third: &[u8]) -> Result<(), Memory>
    ensures { OnOk result (text.new ≡ text.old ++ row_text (first.now ∷ second.now ∷ third.now ∷ [])) }
{
    push_field(text, first)?;
    push_two(text, second, third)
}

// Appends the line of four fields.
pub(crate) fn push_four(
    text: &mut Text,
    first: &[u8],
    second: &[u8],
    third: &[u8],
    fourth: &[u8],
) -> Result<(), Memory>
    ensures { OnOk result (text.new ≡ text.old ++ row_text (first.now ∷ second.now ∷ third.now ∷ fourth.now ∷ [])) }
{
    push_field(text, first)?;
    push_three(text, second, third, fourth)
}

// Appends the line of five fields.
pub(crate) fn push_five(
    text: &mut Text,
    first: &[u8],
    second: &[u8],
    third: &[u8],
    fourth: &[u8],
    fifth: &[u8],
) -> Result<(), Memory>
    ensures { OnOk result (text.new ≡ text.old ++ row_text (first.now ∷ second.now ∷ third.now ∷ fourth.now
        ∷ fifth.now ∷ [])) }
{
    push_field(text, first)?;
    push_four(text, second, third, fourth, fifth)
}
