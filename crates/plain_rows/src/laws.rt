//! What a table says that has no quotes. This call does nothing and costs nothing: a caller cites its contract.
ghost use Rattle.std.specs.Prelude.{◌≡◌, ℕ, List};
ghost use Rattle.csv.specs.Reading.{strip_bom};
ghost use Rattle.double_points.specs.Rows.{rows_of};
ghost use Rattle.plain_rows.specs.PlainRows.{AreLinesOf};

/// A text whose lines are these records, each the fields that one reads between its commas, has these rows, behind a
/// byte order mark or without one; so positions and logs that are written without quotes (RFC 4180, section 2, rules 1,
/// 2 and 4) mean what a reader sees in them.
pub fn plain_lines_are_rows()
    ensures { (text : List ℕ) (rows : List (List (List ℕ))) → AreLinesOf rows (strip_bom text) → rows_of text ≡ rows }
{}
