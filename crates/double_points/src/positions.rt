//! The file of positions.
ghost use Rattle.std.specs.Prelude.{◌≡◌, ◌≢◌, ◌<◌, ◌≤◌, ℕ, List, [], ◌∷◌, length, map, Some, None, IfOk, IfErr};
ghost use Rattle.std.specs.Prelude.{OnOk, IfSome, IfNone, unwrap_or, slice_index_or, true, false};
ghost use Rattle.std.specs.Str.{is_utf8};
ghost use Rattle.csv.specs.Records.{fields_of};
ghost use Rattle.double_points.specs.Words.{word_of, AreWords};
ghost use Rattle.double_points.specs.Paths.{place_of};
ghost use Rattle.double_points.specs.Positions.{form_fault, given, IsAccepted, IsRefusedWith};
ghost use Rattle.ilk_base.specs.Inputs.{ForRefused};
ghost use Rattle.ilk_base.specs.declared.words.Dbpos.TheVariants as word;

use crate::readings::{Readings, readings_of, word_from};
use crate::rows::Rows;
use csv::ByteRecord;
use ilk_base::{Dbpos, FILE_BYTES, Memory, SwitchId};
use station_graph::Station;
use std::alloc::Global;

/// Why a positions file gave no readings.
pub use ilk_base::InputFault as PositionsFault;

/// The bytes as text, where they are UTF-8. Time: their length.
pub fn text_of(bytes: &[u8]) -> Option<&str>
    ensures text { IfSome result (λ s. s.now ≡ bytes.entry.now) }
    ensures some { IfSome result (λ s. is_utf8 bytes.entry.now ≡ true) }
    ensures none { IfNone result (is_utf8 bytes.entry.now ≡ false) }
{
    match str::from_utf8(bytes) {
        Ok(text) => Some(text),
        Err(_) => None,
    }
}

// The two fields of a record that has two.
fn two_fields(row: &ByteRecord) -> Option<(&[u8], &[u8])>
    ensures two { IfSome result (λ p. fields_of row.entry.now ≡ p.0.now ∷ p.1.now ∷ []) }
    ensures other { IfNone result (length (fields_of row.entry.now) ≢ 2) }
{
    let Some(path) = row.get(0) else {
        return None;
    };
    let Some(word) = row.get(1) else {
        return None;
    };
    if row.len() != 2 {
        return None;
    }
    Some((path, word))
}

/// The switch that a text names by its path, if there is one: its number is the place of the path among
/// those of the switches. Time: the length of the path, by a hash.
pub fn switch_named(station: &Station, path: &str) -> Option<SwitchId>
    ensures place { IfSome result (λ id. place_of path.now station.now.switch_paths ≡ Some id.0) }
    ensures listed { IfSome result (λ id. id.0 < length station.now.switch_paths) }
    ensures within { IfSome result (λ id. id.0 < length station.now.switches) }
    ensures none { IfNone result (place_of path.now station.now.switch_paths ≡ None) }
{
    station.find_switch(path)
}

// The place of the switch and the word of two fields, or the number of the fault.
fn parsed_fields(station: &Station, path: &[u8], word: &[u8]) -> Result<(usize, Dbpos), u8>
    ensures fault { IfErr result (λ n. form_fault station.now.switch_paths (path.now ∷ word.now ∷ []) ≡ Some n) }
    ensures form { OnOk result (form_fault station.now.switch_paths (path.now ∷ word.now ∷ []) ≡ None) }
    ensures place { IfOk result (λ p. place_of path.now station.now.switch_paths ≡ Some p.0) }
    ensures word { IfOk result (λ p. word_of word.now ≡ Some p.1) }
    ensures within { IfOk result (λ p. p.0 < length station.now.switch_paths) }
{
    let Some(path) = text_of(path) else {
        return Err(1);
    };
    let Some(_) = text_of(word) else {
        return Err(1);
    };
    let Some(id) = switch_named(station, path) else {
        return Err(2);
    };
    let Some(word) = word_from(word) else {
        return Err(3);
    };
    Ok((usize::from(id.0), word))
}

// The place of the switch and the word of a record, or the number of its fault, but for a switch that was named
// before.
fn parsed(station: &Station, row: &ByteRecord) -> Result<(usize, Dbpos), u8>
    ensures fault { IfErr result (λ n. form_fault station.now.switch_paths (fields_of row.now) ≡ Some n) }
    ensures form { OnOk result (form_fault station.now.switch_paths (fields_of row.now) ≡ None) }
    ensures place { IfOk result (λ p. place_of (slice_index_or (fields_of row.now) 0 []) station.now.switch_paths
        ≡ Some p.0) }
    ensures word { IfOk result (λ p. word_of (slice_index_or (fields_of row.now) 1 []) ≡ Some p.1) }
    ensures within { IfOk result (λ p. p.0 < length station.now.switch_paths) }
{
    match two_fields(row) {
        None => Err(1),
        Some((path, word)) => parsed_fields(station, path, word),
    }
}

// No word for each switch.
fn no_words(alloc: Global, station: &Station) -> Result<Vec<Option<Dbpos>>, Memory>
    ensures { IfOk result (λ v. v.items ≡ map (given []) station.now.switch_paths) }
{
    let mut words = Vec::new(alloc);
    for _i in 0..usize::from(station.switch_count()) {
        words.push(None)?;
    }
    Ok(words)
}

// Lost where there is no word.
fn filled(alloc: Global, found: &[Option<Dbpos>]) -> Result<Vec<Dbpos>, Memory>
    ensures { IfOk result (λ v. v.items ≡ map (λ o. unwrap_or o word.Lost) found.now) }
{
    let mut words = Vec::new(alloc);
    for o in found {
        words.push(o.unwrap_or(Dbpos::Lost))?;
    }
    Ok(words)
}

/// Reads a positions file: records `PATH,WORD` (docs/FORMATS.md). A switch that no record names is
/// lost. A file is refused at its first record with a fault, with the fault's number and the
/// record's, from 1; blank lines are no records. In one record the faults come in this order: 1 not
/// two fields, or one that is not UTF-8; 2 no switch has the path; 3 no word; 4 the switch was named
/// before. 5, with line 0 and before all others: more than 8,388,608 bytes.
///
/// Time: the bytes, and one look-up by hash for each record. Memory: the switches and one record.
pub fn read_positions(
    alloc: Global,
    station: &Station,
    bytes: &[u8],
) -> Result<Readings, PositionsFault>
    ensures ok { IfOk result (λ r. IsAccepted station.now.switch_paths bytes.now r) }
    ensures err { IfErr result (λ e. ForRefused e (IsRefusedWith station.now.switch_paths bytes.now)) }
    ensures count { IfOk result (λ r. AreWords station.now r) }
{
    if bytes.len() > FILE_BYTES {
        return Err(PositionsFault::refused(5, 0));
    }
    station.is_station();
    let mut rows = Rows::new(alloc, bytes);
    let mut row = ByteRecord::new(alloc);
    let mut found = no_words(alloc, station)?;
    let mut line = 0u32;
    while rows.next(&mut row)? {
        line += 1;
        let (place, word) = match parsed(station, &row) {
            Ok(p) => p,
            Err(number) => return Err(PositionsFault::refused(number, line)),
        };
        if found[place].is_some() {
            return Err(PositionsFault::refused(4, line));
        }
        found[place] = Some(word);
    }
    Ok(readings_of(filled(alloc, &found)?))
}
