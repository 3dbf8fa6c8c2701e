//! The judge of small stations: a summary is a row of words, and every reading is tried.
ghost use Rattle.std.specs.Prelude.{◌≡◌, ◌<◌, ◌≤◌, ◌↔◌, ℕ, length, Some, IfOk, IsTrue, EachIndex, slice_get};
ghost use Rattle.std.specs.Prelude.{slice_index, slice_index_or};
ghost use Rattle.station_graph.specs.Diagram.{part_count, place_in};
ghost use Rattle.station_graph.specs.Connection.{a_switch};
ghost use Rattle.station_graph.specs.Sharing.{OfPart};
ghost use Rattle.central_rules.specs.declared.plain.TheConstants.{PLAIN_SWITCHES};
ghost use Rattle.central_rules.specs.WordRows.{code_of_word, word_of_code, heard_word, known_word, FirstAre, IsRow};
ghost use Rattle.central_rules.specs.WordRows.{IsRowOf};
ghost use Rattle.double_points.specs.Words.{AreWords};

use crate::judge::Judge;
use crate::trying::trial;
use crate::verdict::Verdict;
use double_points::Readings;
use ilk_base::{BayId, Dbpos, HeardList, Memory, Op, Summary, SwitchId};
use station_graph::Station;
use std::alloc::Global;
use std::marker::Model;

/// The most switches of a station that the plain judge takes.
pub const PLAIN_SWITCHES: u16 = 20;

/// Whether the plain judge takes the station: it has at most `PLAIN_SWITCHES` switches. At once.
pub fn fits_plain(station: &Station) -> bool
    ensures { IsTrue result ↔ (length station.now.switches ≤ PLAIN_SWITCHES) }
{
    station.switch_count() <= PLAIN_SWITCHES
}

// The code of a word in a row.
fn code_of(word: Dbpos) -> u8
    ensures { result ≡ code_of_word word }
{
    match word {
        Dbpos::Intermediate => 0,
        Dbpos::Off => 1,
        Dbpos::On => 2,
        Dbpos::Bad => 3,
        Dbpos::Lost => 4,
    }
}

// The word of a code.
fn word_from_code(code: u8) -> Dbpos
    ensures { result ≡ word_of_code code }
{
    match code {
        0 => Dbpos::Intermediate,
        1 => Dbpos::Off,
        2 => Dbpos::On,
        3 => Dbpos::Bad,
        _ => Dbpos::Lost,
    }
}

// The word in a place of a row; lost where it has no such place.
fn word_in(row: &[u8], k: usize) -> Dbpos
    ensures { result ≡ word_of_code (slice_index_or row.now k 4) }
{
    match row.get(k) {
        Some(code) => word_from_code(*code),
        None => Dbpos::Lost,
    }
}

// Whether each byte is the code of a word.
fn are_codes(row: &[u8]) -> bool
    ensures { IsTrue result ↔ EachIndex row.now (λ k. slice_index row.now k ≤ 4) }
{
    row.iter().all(|code| *code <= 4)
}

// The row of the bay's words.
fn row_of(station: &Station, bay: BayId, readings: &Readings) -> Summary
    requires { AreWords station.now readings.now }
    ensures { IsRowOf station.now bay.0 readings.now result }
{
    station.is_station();
    let (first, count) = station.switches_of(bay);
    let mut row = [0; 32];
    for k in 0..count {
        row[usize::from(k)] = code_of(readings.word(SwitchId(first.0 + k)));
    }
    Summary::new(&row[..usize::from(count)]).unwrap()
}

// Whether the bytes are a row of words of the bay.
fn is_row(station: &Station, bay: BayId, row: &[u8]) -> bool
    ensures { IsTrue result ↔ IsRow station.now bay.0 row.now }
{
    let (_, count) = station.switches_of(bay);
    row.len() == usize::from(count) && are_codes(row)
}

// The word that was heard of a switch of the bay.
fn word_heard(station: &Station, heard: &HeardList, bay: BayId, id: SwitchId) -> Dbpos
    requires part { bay.0 < length heard.now }
    requires switch { OfPart station.now bay.0 (a_switch id.0) }
    ensures { result ≡ heard_word (slice_get heard.now bay.0) (place_in station.now bay.0 id.0) }
{
    let (first, _) = station.switches_of(bay);
    match heard.get(bay) {
        Some(summary) => word_in(summary.bytes(), usize::from(id.0 - first.0)),
        None => Dbpos::Lost,
    }
}

// The word that the bay knows of a switch.
fn word_known(
    station: &Station,
    bay: BayId,
    own: &Readings,
    heard: &HeardList,
    id: SwitchId,
) -> Dbpos
    requires switch { id.0 < length station.now.switches }
    requires own { AreWords station.now own.now }
    requires heard { length heard.now ≡ part_count station.now }
    ensures { result ≡ known_word station.now bay.0 own.now heard.now id.0 }
{
    let switch = station.switch(id);
    if switch.bay.0 == bay.0 {
        return own.word(id);
    }
    word_heard(station, heard, switch.bay, id)
}

// The word that the bay knows of each switch.
fn words_known(
    alloc: Global,
    station: &Station,
    bay: BayId,
    own: &Readings,
    heard: &HeardList,
) -> Result<Readings, Memory>
    requires own { AreWords station.now own.now }
    requires heard { length heard.now ≡ part_count station.now }
    ensures count { IfOk result (λ words. AreWords station.now words) }
    ensures each { IfOk result (λ words. FirstAre (known_word station.now bay.0 own.now heard.now)
        (length words) words) }
{
    let mut words = Readings::lost(alloc, station)?;
    for i in 0..station.switch_count() {
        words.sense(
            SwitchId(i),
            word_known(station, bay, own, heard, SwitchId(i)),
        );
    }
    Ok(words)
}

/// The judge of a station of at most `PLAIN_SWITCHES` switches, seen as its diagram. Every bay tells every
/// other. A summary is one byte for each switch of the bay in order: 0 intermediate, 1 off, 2 on, 3 bad, 4
/// lost. A verdict is found by trial of each reading; the time is that of `breaks` for each, of which there
/// are two for each switch whose word is neither off nor on, multiplied. Memory: the nodes and the switches.
/// No other call takes memory.
#[derive(Drop)]
pub struct PlainJudge<'a> {
    station: &'a Station,
}

impl<'a> Model for PlainJudge<'a> {
    ghost use Rattle.station_graph.specs.Diagram.{Diagram};

    ghost Value = { Diagram };

    ghost view = { λ j. j.station.now };
}

impl<'a> PlainJudge<'a> {
    /// The plain judge of the station. At once; takes no memory.
    pub fn new(station: &'a Station) -> PlainJudge<'a>
        requires { length station.now.switches ≤ PLAIN_SWITCHES }
        ensures { result ≡ station.now }
    {
        PlainJudge { station }
    }
}

impl<'a> Judge for PlainJudge<'a> {
    ghost use Rattle.central_rules.specs.WordRows.{by_rows, by_rows_lawful};

    ghost meaning = { by_rows };

    ghost lawful = { by_rows_lawful };

    fn tells(&self, _bay: BayId, _to: BayId) -> bool {
        true
    }

    fn summarise(
        &self,
        _alloc: Global,
        bay: BayId,
        _to: BayId,
        readings: &Readings,
    ) -> Result<Summary, Memory> {
        Ok(row_of(self.station, bay, readings))
    }

    fn fits(&self, bay: BayId, _to: BayId, summary: &Summary) -> bool {
        is_row(self.station, bay, summary.bytes())
    }

    fn judge(
        &self,
        alloc: Global,
        op: Op,
        own: &Readings,
        heard: &HeardList,
    ) -> Result<Verdict, Memory> {
        let bay = self.station.switch(op.switch).bay;
        let words = words_known(alloc, self.station, bay, own, heard)?;
        trial(alloc, self.station, &words, op)
    }

    fn judge_all(&self, alloc: Global, op: Op, readings: &Readings) -> Result<Verdict, Memory> {
        trial(alloc, self.station, readings, op)
    }

    fn diagram_is_station(&self) {
        self.station.is_station();
    }
}
