//! Positions files and what they give; the expected words and refusals are those of the format.
ghost use Rattle.std.specs.Prelude.{◌≡◌, length};
ghost use Rattle.station_graph.specs.Diagram.{part_count};

use double_points::{PositionsFault, Readings, agrees, read_positions};
use ilk_base::{BayId, Dbpos, InputRefusal, SwitchId};
use station_graph::Station;
use std::alloc::Global;
use test_stations::{Example, StationRow, row_holds, rows_hold};

// The one word that a file gives, or its refusal.
fn word_given(alloc: Global, station: &Station, bytes: &[u8]) -> Result<Dbpos, PositionsFault>
    requires { length station.now.switches ≡ 1 }
{
    let readings = read_positions(alloc, station, bytes)?;
    Ok(readings.word(SwitchId(0)))
}

// Files on a station with one switch, `S/V1/Q1/QC9`, and the word that each gives.
const WORDS: &[(&[u8], Dbpos)] = &[
    (b"", Dbpos::Lost),
    (b"S/V1/Q1/QC9,intermediate\n", Dbpos::Intermediate),
    (b"S/V1/Q1/QC9,off", Dbpos::Off),
    (b"\r\n\"S/V1/Q1/QC9\",on\r\n\r\n", Dbpos::On),
    (b"\xEF\xBB\xBFS/V1/Q1/QC9,bad\n", Dbpos::Bad),
    (b"S/V1/Q1/QC9,lost\n", Dbpos::Lost),
];

// Files, and the number and the line with which each is refused.
const REFUSED: &[(&[u8], u8, u32)] = &[
    (b"S/V1/Q1/QX,on", 2, 1),
    (b"S/V1/Q1/QC9,on\nS/V1/Q1/QC9,on\n", 4, 2),
    (b"S/V1/Q1/QC9,up", 3, 1),
    (b"S/V1/Q1/QC9", 1, 1),
    (b"S/V1/Q1/QC9,on,off", 1, 1),
    (b"S/V1/Q1/QC9\xFF,on", 1, 1),
    (b"S/V1/Q1/QX,up", 2, 1),
    (b"\n\nS/V1/Q1/QC9,on\n\nS/V1/Q1/QC9,up\n", 3, 2),
    (b"S/V1/Q1/QC9, on", 3, 1),
];

// Whether each file gives its word.
fn give_words(alloc: Global, station: &Station, rows: &[(&[u8], Dbpos)]) -> bool
    requires { length station.now.switches ≡ 1 }
{
    for (bytes, word) in rows {
        if word_given(alloc, station, bytes) != Ok(*word) {
            return false;
        }
    }
    true
}

// Whether the file is refused so.
fn is_refused(alloc: Global, station: &Station, bytes: &[u8], number: u8, line: u32) -> bool
    requires { length station.now.switches ≡ 1 }
{
    let want = PositionsFault::Refused(InputRefusal { number, line });
    word_given(alloc, station, bytes) == Err(want)
}

// Whether each file is refused so.
fn are_refused(alloc: Global, station: &Station, rows: &[(&[u8], u8, u32)]) -> bool
    requires { length station.now.switches ≡ 1 }
{
    for (bytes, number, line) in rows {
        if !is_refused(alloc, station, bytes, *number, *line) {
            return false;
        }
    }
    true
}

// Whether a file of one byte too many is refused.
fn is_too_large(alloc: Global, station: &Station) -> bool
    requires { length station.now.switches ≡ 1 }
{
    match vec![in alloc; b'x'; 8_388_609] {
        Ok(large) => is_refused(alloc, station, &large, 5, 0),
        Err(_) => false,
    }
}

// Whether the word of the switch is this.
fn is_word(readings: &Readings, word: Dbpos) -> bool
    requires { length readings.now ≡ 1 }
{
    readings.word(SwitchId(0)) == word
}

// Whether the word is lost at first, then the one that is sensed, and lost once its bay is forgotten.
fn senses(station: &Station, readings: &mut Readings) -> bool
    requires switch { length station.now.switches ≡ 1 }
    requires part { part_count station.now ≡ 1 }
    requires words { length readings.old ≡ 1 }
{
    let at_first = is_word(readings, Dbpos::Lost);
    readings.sense(SwitchId(0), Dbpos::On);
    let sensed = is_word(readings, Dbpos::On) && agrees(readings.word(SwitchId(0)), true);
    readings.forget(station, BayId(0));
    at_first && sensed && is_word(readings, Dbpos::Lost)
}

// Whether the words of the switches of a station are sensed and forgotten so.
fn are_sensed(alloc: Global, station: &Station) -> bool
    requires switch { length station.now.switches ≡ 1 }
    requires part { part_count station.now ≡ 1 }
{
    let Ok(mut readings) = Readings::lost(alloc, station) else {
        return false;
    };
    senses(station, &mut readings)
}

// What is asked of the words of the one switch.
enum Asked {
    // whether these files give them
    Given(&'static [(&'static [u8], Dbpos)]),
    // whether these files are refused
    Refused(&'static [(&'static [u8], u8, u32)]),
    // whether a file that is too large is refused
    TooLarge,
    // whether they are sensed and forgotten
    Sensed,
}

impl StationRow for Asked {
    fn example(&self) -> Example {
        Example::OneEarthed
    }

    fn holds(&self, alloc: Global, station: &Station) -> bool {
        if station.switch_count() != 1 || station.part_count() != 1 {
            return false;
        }
        match self {
            Asked::Given(rows) => give_words(alloc, station, rows),
            Asked::Refused(rows) => are_refused(alloc, station, rows),
            Asked::TooLarge => is_too_large(alloc, station),
            Asked::Sensed => are_sensed(alloc, station),
        }
    }
}

const FILES: &[Asked] = &[
    Asked::Given(WORDS),
    Asked::Refused(REFUSED),
    Asked::TooLarge,
];

#[test]
fn reads_positions(rt: HostRuntime) {
    assert!(rt; rows_hold(rt.alloc(), FILES));
}

#[test]
fn senses_and_forgets(rt: HostRuntime) {
    assert!(rt; row_holds(rt.alloc(), &Asked::Sensed));
}
