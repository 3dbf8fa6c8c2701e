//! What the plain judge tells and hears. The words, rows and counts are worked by hand.
ghost use Rattle.std.specs.Prelude.{◌≡◌, ◌≢◌, ◌<◌, length, IfOk, IsTrue};
ghost use Rattle.station_graph.specs.Diagram.{part_count};
ghost use Rattle.central_rules.specs.Meaning.{HeardFit, IsBay, bay_of};
ghost use Rattle.central_rules.specs.WordRows.{by_rows};
ghost use Rattle.double_points.specs.Words.{AreWords};
ghost use Rattle.station_graph.specs.CentralRules.{IsOperation};

use central_rules::{Judge, PlainJudge, Verdict, fits_plain};
use double_points::Readings;
use ilk_base::{BayId, Dbpos, Direction, HeardList, Memory, Op, Summary, SwitchId};
use station_graph::Station;
use std::alloc::Global;
use test_stations::{Example, StationRow, rows_hold};

// What a sign of a row of words stands for.
fn word_of(sign: u8) -> Dbpos {
    match sign {
        b'0' => Dbpos::Off,
        b'1' => Dbpos::On,
        b'i' => Dbpos::Intermediate,
        b'b' => Dbpos::Bad,
        _ => Dbpos::Lost,
    }
}

// The words of all switches, a sign for each.
fn words(alloc: Global, station: &Station, signs: &[u8]) -> Result<Readings, Memory>
    requires { length signs.now ≡ length station.now.switches }
    ensures { IfOk result (λ r. AreWords station.now r) }
{
    let mut readings = Readings::lost(alloc, station)?;
    for i in 0..station.switch_count() {
        readings.sense(SwitchId(i), word_of(signs[i as usize]));
    }
    Ok(readings)
}

// Whether the part has switches.
fn is_bay(station: &Station, part: BayId) -> bool
    ensures { IsTrue result → IsBay station.now part.0 }
{
    let (_, count) = station.switches_of(part);
    u16::from(part.0) < station.part_count() && count > 0
}

// Whether the part is another bay than this one.
fn is_other(station: &Station, part: BayId, bay: BayId) -> bool
    ensures bay { IsTrue result → IsBay station.now part.0 }
    ensures other { IsTrue result → part.0 ≢ bay.0 }
{
    part.0 != bay.0 && is_bay(station, part)
}

// What the bay of a switch hears where each bay tells it of its words, or where none does.
fn hear(
    alloc: Global,
    judge: &PlainJudge<'_>,
    station: &Station,
    id: SwitchId,
    readings: &Readings,
    tell: bool,
) -> Result<HeardList, Memory>
    requires station { judge.now ≡ station.now }
    requires switch { id.0 < length station.now.switches }
    requires bay { IsBay station.now (bay_of station.now id.0) }
    requires all { AreWords station.now readings.now }
    ensures count { IfOk result (λ h. length h ≡ part_count station.now) }
    ensures fits { IfOk result (HeardFit (by_rows station.now) (bay_of station.now id.0)) }
{
    let to = station.switch(id).bay;
    let mut heard = HeardList::none(alloc, station.part_count() as u8)?;
    for i in 0..station.part_count() as u8 {
        if tell && is_other(station, BayId(i), to) {
            heard.set(BayId(i), judge.summarise(alloc, BayId(i), to, readings)?);
        }
    }
    Ok(heard)
}

// Whether an operation is released by what its bay knows: 1 or 0.
fn releases(
    alloc: Global,
    judge: &PlainJudge<'_>,
    station: &Station,
    op: Op,
    readings: &Readings,
    heard: &HeardList,
) -> u32
    requires station { judge.now ≡ station.now }
    requires op { IsOperation station.now op }
    requires all { AreWords station.now readings.now }
    requires count { length heard.now ≡ part_count station.now }
    requires fits { HeardFit (by_rows station.now) (bay_of station.now op.switch.0) heard.now }
{
    match judge.judge(alloc, op, readings, heard) {
        Ok(Verdict::Release) => 1,
        _ => 0,
    }
}

// How many of the two operations of a switch are released by what its bay knows.
fn releases_both(
    alloc: Global,
    judge: &PlainJudge<'_>,
    station: &Station,
    switch: SwitchId,
    readings: &Readings,
    heard: &HeardList,
) -> u32
    requires station { judge.now ≡ station.now }
    requires switch { switch.0 < length station.now.switches }
    requires all { AreWords station.now readings.now }
    requires count { length heard.now ≡ part_count station.now }
    requires fits { HeardFit (by_rows station.now) (bay_of station.now switch.0) heard.now }
{
    let open = Op {
        switch,
        direction: Direction::ToOff,
    };
    let close = Op {
        switch,
        direction: Direction::ToOn,
    };
    let opened = releases(alloc, judge, station, open, readings, heard);
    opened.saturating_add(releases(alloc, judge, station, close, readings, heard))
}

fn releases_of(
    alloc: Global,
    judge: &PlainJudge<'_>,
    station: &Station,
    switch: SwitchId,
    readings: &Readings,
    tell: bool,
) -> u32
    requires station { judge.now ≡ station.now }
    requires switch { switch.0 < length station.now.switches }
    requires all { AreWords station.now readings.now }
{
    if !is_bay(station, station.switch(switch).bay) {
        return 0;
    }
    match hear(alloc, judge, station, switch, readings, tell) {
        Ok(heard) => releases_both(alloc, judge, station, switch, readings, &heard),
        Err(_) => 0,
    }
}

// How many operations are released by what each bay knows.
fn released(alloc: Global, station: &Station, readings: &Readings, tell: bool) -> u32
    requires all { AreWords station.now readings.now }
{
    if !fits_plain(station) {
        return 0;
    }
    let judge = PlainJudge::new(station);
    let mut count = 0u32;
    for i in 0..station.switch_count() {
        let more = releases_of(alloc, &judge, station, SwitchId(i), readings, tell);
        count = count.saturating_add(more);
    }
    count
}

// Whether the row fits from the bay to another; none where the one tells the other no such row.
fn row_fits(judge: &PlainJudge<'_>, station: &Station, bay: u8, to: u8, row: &[u8]) -> Option<bool>
    requires { judge.now ≡ station.now }
{
    let (bay, to) = (BayId(bay), BayId(to));
    if !is_other(station, bay, to) || !is_bay(station, to) || !judge.tells(bay, to) {
        return None;
    }
    let summary = Summary::new(row)?;
    Some(judge.fits(bay, to, &summary))
}

// Whether the row is that of the words of bay 3, and which rows fit.
fn are_fitting(judge: &PlainJudge<'_>, station: &Station, row: &[u8]) -> bool
    requires { judge.now ≡ station.now }
{
    row == b"\x02\x01\x00\x04\x03\x02".as_slice()
        && row_fits(judge, station, 3, 2, row) == Some(true)
        && row_fits(judge, station, 2, 3, row) == Some(false)
        && row_fits(judge, station, 2, 3, b"\x02\x01\x04") == Some(true)
        && row_fits(judge, station, 2, 3, b"\x02\x01\x05") == Some(false)
}

// The row of a bay's words, and which rows fit.
fn tells_rows(alloc: Global, station: &Station, readings: &Readings) -> bool
    requires { AreWords station.now readings.now }
{
    let (bay, to) = (BayId(3), BayId(2));
    if !fits_plain(station) || !is_other(station, bay, to) || !is_bay(station, to) {
        return false;
    }
    let judge = PlainJudge::new(station);
    match judge.summarise(alloc, bay, to, readings) {
        Ok(summary) => are_fitting(&judge, station, summary.bytes()),
        Err(_) => false,
    }
}

// What is asked of the bays of the two busbars.
#[derive(Clone, Copy)]
enum Asked {
    // what a bay tells another
    Rows,
    // how many operations are released where they tell each other, and where they do not
    Released(u32, u32),
}

fn is_answered(alloc: Global, station: &Station, readings: &Readings, asked: Asked) -> bool
    requires { AreWords station.now readings.now }
{
    match asked {
        Asked::Rows => tells_rows(alloc, station, readings),
        Asked::Released(told, alone) => {
            released(alloc, station, readings, true) == told
                && released(alloc, station, readings, false) == alone
        }
    }
}

// A sign for the word of each switch, and what is asked.
struct Row {
    signs: &'static [u8],
    asked: Asked,
}

impl StationRow for Row {
    fn example(&self) -> Example {
        Example::TwoBusbars
    }

    fn holds(&self, alloc: Global, station: &Station) -> bool {
        if self.signs.len() != usize::from(station.switch_count()) {
            return false;
        }
        match words(alloc, station, self.signs) {
            Ok(readings) => is_answered(alloc, station, &readings, self.asked),
            Err(_) => false,
        }
    }
}

// By what the bays tell each other as much is released as by the words of all switches, and by their own
// words alone little is.
const ROWS: &[Row] = &[
    Row {
        signs: b"11110ilb1011101",
        asked: Asked::Rows,
    },
    Row {
        signs: b"111101101011101",
        asked: Asked::Released(16, 7),
    },
];

#[test]
fn what_is_heard(rt: HostRuntime) {
    assert!(rt; rows_hold(rt.alloc(), ROWS));
}
