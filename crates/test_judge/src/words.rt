//! What the words of a bay leave open of its alphabet.
ghost use Rattle.std.specs.Prelude.{◌≡◌, ◌<◌, length, IfOk};
ghost use Rattle.part_alphabets.specs.PartAlphabets.{size_of};

use bay_contract::{IndexSet, Parts};
use double_points::Readings;
use ilk_base::{BayId, Dbpos, Memory, SwitchId};
use station_graph::Station;
use std::alloc::Global;

// The words of a feeder, which indices they leave open, and the positions of those where each has only one.
pub(crate) struct WordsRow {
    words: [Dbpos; 5],
    open: &'static [u8],
    only: &'static [u32],
}

// The busbar disconnector is lost, so the feeder may be away; the breaker is between its ends or bad; the
// feeder is away whatever its other words are; nothing is known; all is known.
pub(crate) const WORDS: &[WordsRow] = &[
    WordsRow {
        words: [Dbpos::Lost, Dbpos::Off, Dbpos::On, Dbpos::Off, Dbpos::On],
        open: &[0, 1],
        only: &[0b10100, 0b10101],
    },
    WordsRow {
        words: [
            Dbpos::On,
            Dbpos::Intermediate,
            Dbpos::On,
            Dbpos::Off,
            Dbpos::On,
        ],
        open: &[1, 5],
        only: &[0b10101, 0b10111],
    },
    WordsRow {
        words: [Dbpos::On, Dbpos::Bad, Dbpos::On, Dbpos::On, Dbpos::Lost],
        open: &[2, 3, 6, 7],
        only: &[0b01101, 0b11101, 0b01111, 0b11111],
    },
    WordsRow {
        words: [Dbpos::Off, Dbpos::Lost, Dbpos::On, Dbpos::Bad, Dbpos::Lost],
        open: &[0],
        only: &[],
    },
    WordsRow {
        words: [
            Dbpos::Lost,
            Dbpos::Lost,
            Dbpos::Lost,
            Dbpos::Lost,
            Dbpos::Lost,
        ],
        open: &[0, 1, 2, 3, 4, 5, 6, 7],
        only: &[],
    },
    WordsRow {
        words: [Dbpos::On, Dbpos::On, Dbpos::On, Dbpos::Off, Dbpos::Off],
        open: &[4],
        only: &[0b00111],
    },
];

// The words of the first feeder, and lost ones for the other.
fn readings_of(alloc: Global, station: &Station, words: &[Dbpos; 5]) -> Result<Readings, Memory>
    requires { length station.now.switches ≡ 10 }
    ensures { IfOk result (λ r. length r ≡ 10) }
{
    let mut readings = Readings::lost(alloc, station)?;
    for i in 0..5u16 {
        readings.sense(SwitchId(i), words[i as usize]);
    }
    Ok(readings)
}

// Whether each open index has this position, where it has only one.
fn has_only(open: &IndexSet, row: &WordsRow) -> bool {
    for (index, position) in row.open.iter().zip(row.only) {
        if open.position(*index) != Some(*position) {
            return false;
        }
    }
    true
}

// Whether an index agrees with the words; none where memory is wanted.
fn agrees(alloc: Global, parts: &Parts, readings: &Readings, index: u8) -> Option<bool>
    requires part { 1 < length parts.now.parts }
    requires readings { length readings.now ≡ parts.now.switches }
    requires index { index < size_of parts.now 1 }
{
    match parts.agreeing(alloc, BayId(1), readings, index) {
        Ok(position) => Some(position.is_some()),
        Err(_) => None,
    }
}

// Whether the open indices are those of the row.
fn are_open(
    alloc: Global,
    parts: &Parts,
    readings: &Readings,
    open: &IndexSet,
    row: &WordsRow,
) -> bool
    requires part { 1 < length parts.now.parts }
    requires readings { length readings.now ≡ parts.now.switches }
{
    for index in 0..parts.size(BayId(1)) {
        let wanted = row.open.contains(&index);
        if open.holds(index) != wanted || agrees(alloc, parts, readings, index) != Some(wanted) {
            return false;
        }
    }
    true
}

// Whether the words leave open what the row says.
fn leave_open(alloc: Global, parts: &Parts, readings: &Readings, row: &WordsRow) -> bool
    requires part { 1 < length parts.now.parts }
    requires readings { length readings.now ≡ parts.now.switches }
{
    match parts.possible(alloc, BayId(1), readings) {
        Ok(open) => has_only(&open, row) && are_open(alloc, parts, readings, &open, row),
        Err(_) => false,
    }
}

fn leaves_row(alloc: Global, station: &Station, parts: &Parts, row: &WordsRow) -> bool
    requires part { 1 < length parts.now.parts }
    requires switches { length station.now.switches ≡ 10 }
    requires ten { parts.now.switches ≡ 10 }
{
    match readings_of(alloc, station, &row.words) {
        Ok(readings) => leave_open(alloc, parts, &readings, row),
        Err(_) => false,
    }
}

pub(crate) fn are_words(alloc: Global, station: &Station, parts: &Parts, rows: &[WordsRow]) -> bool
    requires part { 1 < length parts.now.parts }
    requires switches { length station.now.switches ≡ 10 }
    requires ten { parts.now.switches ≡ 10 }
{
    for row in rows {
        if !leaves_row(alloc, station, parts, row) {
            return false;
        }
    }
    true
}
