//! The records of a CSV text, one at a time: no header, any number of fields, blank lines skipped.
ghost use Rattle.std.specs.Prelude.{◌≡◌, ◌∷◌, ◌≤◌, [], length, IfOk, IfErr, OnErr, Ok, MatchBool, true, false};
ghost use Rattle.csv.specs.Reading.{error_kind, stops_reader};
ghost use Rattle.csv.specs.Records.{fields_of};
ghost use Rattle.double_points.specs.Rows.{rows_of};

use csv::{ByteRecord, Reader, ReaderBuilder};
use ilk_base::Memory;
use std::alloc::Global;
use std::marker::Model;

// An error of memory, or of the reader underneath, which here cannot fail.
fn without_cause(read: Result<bool, csv::Error>) -> Result<bool, Memory>
    requires { IfErr read (λ e. stops_reader (error_kind e) ≡ true) }
    ensures { IfOk result (λ found. read ≡ Ok found) }
{
    match read {
        Ok(found) => Ok(found),
        Err(_) => Err(Memory),
    }
}

/// What is left of a CSV text (RFC 4180), seen as the list of its records, each the list of its
/// fields. There is no header; a record has any number of fields; blank lines are no records; a
/// leading byte order mark is passed over; doubled quotes in a quoted field are one.
#[derive(Drop)]
pub struct Rows<'a> {
    reader: Reader<&'a [u8]>,
    ended: bool,
}

impl<'a> Model for Rows<'a> {
    ghost use Rattle.std.specs.Prelude.{List, ℕ, ◌≡◌, false, [], if◌then◌else◌};
    ghost use Rattle.double_points.specs.Left.{left_of, ReaderStands};

    ghost Value = { List (List (List ℕ)) };

    ghost view = { λ a. if a.ended then [] else left_of a.reader };

    ghost invariant = { λ a. a.ended ≡ false → ReaderStands a.reader };
}

impl<'a> Rows<'a> {
    /// All records of the text. Nothing is read yet.
    pub fn new(alloc: Global, text: &'a [u8]) -> Rows<'a>
        ensures rows { result ≡ rows_of text.entry.now }
        ensures few { length result ≤ length text.entry.now }
    {
        let reader = ReaderBuilder::new()
            .has_headers(false)
            .flexible(true)
            .from_reader(alloc, text);
        Rows {
            reader,
            ended: false,
        }
    }

    /// Takes the next record, if there is one, in time of its bytes. At the end and after want of
    /// memory nothing is left.
    pub fn next(&mut self, row: &mut ByteRecord) -> Result<bool, Memory>
        ensures next { IfOk result (λ found. MatchBool found (self.old ≡ fields_of row.new ∷ self.new)
            (self.old ≡ [])) }
        ensures end { IfOk result (λ found. found ≡ false → self.new ≡ []) }
        ensures memory { OnErr result (self.new ≡ []) }
    {
        if self.ended {
            return Ok(false);
        }
        self.ended = true;
        let found = without_cause(self.reader.read_byte_record(row))?;
        if found {
            self.ended = false;
            return Ok(true);
        }
        Ok(false)
    }
}
