//! Each operation of small stations by both judges, over tables of words.
ghost use Rattle.std.specs.Prelude.{◌≡◌, ◌<◌, ◌≤◌, length, IfOk};
ghost use Rattle.station_graph.specs.CentralRules.{IsOperation};
ghost use Rattle.double_points.specs.Words.{AreWords};

use central_rules::{Judge, PLAIN_SWITCHES, PlainJudge, Verdict};
use double_points::Readings;
use ilk_base::{Dbpos, Direction, Memory, Op, SwitchId};
use release_compile::{GraphJudge, SwitchVerdicts};
use station_graph::Station;
use std::alloc::Global;
use test_stations::{Example, StationRow, rows_hold};

// Rows of words, each repeated over the switches in document order: a sign for each.
const ROWS: &[&[u8]] = &[
    b"1", b"0", b"10", b"01", b"110", b"1110", b"?0", b"1?1", b"0?1b", b"11?0i1", b"b10?1", b"?",
];

// What a sign of a row stands for.
fn word_of(sign: u8) -> Dbpos {
    match sign {
        b'0' => Dbpos::Off,
        b'1' => Dbpos::On,
        b'i' => Dbpos::Intermediate,
        b'b' => Dbpos::Bad,
        _ => Dbpos::Lost,
    }
}

// The sign of a switch in a row that is repeated.
fn sign_at(row: &[u8], i: u16) -> u8 {
    if row.is_empty() {
        return b'?';
    }
    row[usize::from(i) % row.len()]
}

// The words of all switches by a row.
fn words(alloc: Global, station: &Station, row: &[u8]) -> Result<Readings, Memory>
    ensures { IfOk result (λ r. AreWords station.now r) }
{
    let mut readings = Readings::lost(alloc, station)?;
    for i in 0..station.switch_count() {
        readings.sense(SwitchId(i), word_of(sign_at(row, i)));
    }
    Ok(readings)
}

fn is_release(verdict: &Verdict) -> bool {
    match verdict {
        Verdict::Release => true,
        Verdict::Denied { .. } => false,
    }
}

// Whether a judge releases the operation; none where memory is wanted.
fn releases<J: Judge>(alloc: Global, judge: &J, op: Op, readings: &Readings) -> Option<bool>
    requires op { IsOperation (J.meaning judge.now).diagram op }
    requires words { AreWords (J.meaning judge.now).diagram readings.now }
{
    match judge.judge_all(alloc, op, readings) {
        Ok(verdict) => Some(is_release(&verdict)),
        Err(_) => None,
    }
}

// Whether both judges rule on the operation as was found. Where several readings break a rule, each may show another,
// and so another rule.
fn rule_operation(
    alloc: Global,
    station: &Station,
    graphs: &GraphJudge,
    plain: &PlainJudge,
    op: Op,
    readings: &Readings,
    found: &Verdict,
) -> bool
    requires graphs { graphs.now.diagram ≡ station.now }
    requires plain { plain.now ≡ station.now }
    requires op { IsOperation station.now op }
    requires words { AreWords station.now readings.now }
{
    let want = Some(is_release(found));
    releases(alloc, plain, op, readings) == want && releases(alloc, graphs, op, readings) == want
}

// Whether they rule so on both operations of a switch.
fn rule_switch(
    alloc: Global,
    station: &Station,
    graphs: &GraphJudge,
    plain: &PlainJudge,
    switch: SwitchId,
    readings: &Readings,
    found: &SwitchVerdicts,
) -> bool
    requires graphs { graphs.now.diagram ≡ station.now }
    requires plain { plain.now ≡ station.now }
    requires switch { switch.0 < length station.now.switches }
    requires words { AreWords station.now readings.now }
{
    let open = Op {
        switch,
        direction: Direction::ToOff,
    };
    let close = Op {
        switch,
        direction: Direction::ToOn,
    };
    rule_operation(
        alloc,
        station,
        graphs,
        plain,
        open,
        readings,
        &found.opening,
    ) && rule_operation(
        alloc,
        station,
        graphs,
        plain,
        close,
        readings,
        &found.closing,
    )
}

// Whether they rule so on each switch.
fn rule_switches(
    alloc: Global,
    station: &Station,
    graphs: &GraphJudge,
    plain: &PlainJudge,
    readings: &Readings,
    all: &[SwitchVerdicts],
) -> bool
    requires graphs { graphs.now.diagram ≡ station.now }
    requires plain { plain.now ≡ station.now }
    requires words { AreWords station.now readings.now }
{
    if all.len() != usize::from(station.switch_count()) {
        return false;
    }
    for i in 0..station.switch_count() {
        let found = &all[usize::from(i)];
        if !rule_switch(alloc, station, graphs, plain, SwitchId(i), readings, found) {
            return false;
        }
    }
    true
}

// Whether both judges rule alike on these words, one by one and at once.
fn rule_alike(
    alloc: Global,
    station: &Station,
    graphs: &GraphJudge,
    plain: &PlainJudge,
    readings: &Readings,
) -> bool
    requires graphs { graphs.now.diagram ≡ station.now }
    requires plain { plain.now ≡ station.now }
    requires words { AreWords station.now readings.now }
{
    match graphs.judge_station(alloc, readings) {
        Ok(all) => rule_switches(alloc, station, graphs, plain, readings, &all),
        Err(_) => false,
    }
}

// The same, on the words of a row.
fn rule_row(
    alloc: Global,
    station: &Station,
    graphs: &GraphJudge,
    plain: &PlainJudge,
    row: &[u8],
) -> bool
    requires graphs { graphs.now.diagram ≡ station.now }
    requires plain { plain.now ≡ station.now }
{
    match words(alloc, station, row) {
        Ok(readings) => rule_alike(alloc, station, graphs, plain, &readings),
        Err(_) => false,
    }
}

// The same, on the words of each row.
fn rule_rows(
    alloc: Global,
    station: &Station,
    graphs: &GraphJudge,
    plain: &PlainJudge,
    rows: &[&[u8]],
) -> bool
    requires graphs { graphs.now.diagram ≡ station.now }
    requires plain { plain.now ≡ station.now }
{
    for row in rows {
        if !rule_row(alloc, station, graphs, plain, row) {
            return false;
        }
    }
    true
}

// Both judges rule alike on the station, whatever the words.
struct Agrees {
    drawing: Example,
    rows: &'static [&'static [u8]],
}

impl StationRow for Agrees {
    fn example(&self) -> Example {
        self.drawing
    }

    fn holds(&self, alloc: Global, station: &Station) -> bool {
        if station.switch_count() > PLAIN_SWITCHES {
            return false;
        }
        let plain = PlainJudge::new(station);
        match GraphJudge::build(alloc, station) {
            Ok(graphs) => rule_rows(alloc, station, &graphs, &plain, self.rows),
            Err(_) => false,
        }
    }
}

const STATIONS: &[Agrees] = &[
    Agrees {
        drawing: Example::BareStub,
        rows: ROWS,
    },
    Agrees {
        drawing: Example::TwoTransformers,
        rows: ROWS,
    },
    Agrees {
        drawing: Example::TwoFeeders,
        rows: ROWS,
    },
    Agrees {
        drawing: Example::TwoBusbars,
        rows: ROWS,
    },
];

#[test]
fn small_stations(rt: HostRuntime) {
    assert!(rt; rows_hold(rt.alloc(), STATIONS));
}
