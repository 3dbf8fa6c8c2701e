//! Logs with trips, and their reports.
ghost use Rattle.std.specs.Prelude.{◌<◌, length};
ghost use Rattle.std.specs.List.{All};
ghost use Rattle.station_graph.specs.Alike.{IsVector};
ghost use Rattle.log_replay.specs.Replay.{ReportFits};
ghost use Rattle.trip_replay.specs.TripRecords.{TripMayBeTold};

use crate::events::start_of;
use central_rules::{PlainJudge, breaks, fits_plain};
use ilk_base::{Direction, Memory, Op, Rule, SwitchId, Text};
use reservation_core::Which;
use station_graph::{Station, Vector};
use std::alloc::Global;
use test_stations::{Example, StationRow, row_holds, rows_hold};
use trip_replay::{TripLog, TripReport, read_trip_log, replay_trips};

// Where the switches of the two feeders stand at first, and the words that are read of them.
pub(crate) const STANDS: &[&[u8]] = &[
    b"at,S/V1/Q1/QB1,off\nat,S/V1/Q1/QA1,off\nat,S/V1/Q1/QB9,on\nat,S/V1/Q1/QC9,off\n",
    b"at,S/V1/Q1/E1,off\nat,S/V1/Q2/QB1,on\nat,S/V1/Q2/QA1,on\nat,S/V1/Q2/QB9,on\n",
    b"at,S/V1/Q2/QC9,off\nat,S/V1/Q2/E1,on\n",
];

const READ: &[&[u8]] = &[
    b"sense,S/V1/Q1/QB1,off\nsense,S/V1/Q1/QA1,off\nsense,S/V1/Q1/QB9,on\n",
    b"sense,S/V1/Q1/QC9,off\nsense,S/V1/Q1/E1,off\nsense,S/V1/Q2/QB1,on\n",
    b"sense,S/V1/Q2/QA1,on\nsense,S/V1/Q2/QB9,on\nsense,S/V1/Q2/QC9,off\nsense,S/V1/Q2/E1,on\n",
];

const BAYS: &[u8] = b"bay 1 S/V1/Q1\nbay 2 S/V1/Q2\n";

// What a log says, and what its report says.
struct Story {
    drawing: Example,
    parts: &'static [&'static [&'static [u8]]],
    report: &'static [&'static [u8]],
    premise: Option<(u32, Which)>,
}

const STORIES: &[Story] = &[
    // a trip during an operation: the other feeder is switched off, and the operation goes on
    Story {
        drawing: Example::TwoFeeders,
        parts: &[
            STANDS,
            READ,
            &[
                b"command,S/V1/Q1/QB1,close\ndeliver,1\ndeliver,2\ntrip,S/V1/Q2/QA1\nbegin,S/V1/Q1/QB1\n",
                b"end,S/V1/Q1/QB1\nsense,S/V1/Q1/QB1,on\ndeliver,3\n",
            ],
        ],
        report: &[
            BAYS,
            b"21 1 collecting 1\n21 1 send 1 reserve 2 1\n22 2 send 2 answer 1 1\n",
            b"23 1 granted 1 close S/V1/Q1/QB1\n27 1 finished 1\n27 1 send 3 over 2 1\ndone 28\n",
        ],
        premise: None,
    },
    // a word against a trip: what has tripped is read as on
    Story {
        drawing: Example::TwoFeeders,
        parts: &[STANDS, &[b"trip,S/V1/Q2/QA1\nsense,S/V1/Q2/QA1,on\n"]],
        report: &[BAYS],
        premise: Some((12, Which::Sensed)),
    },
    // a trip while the drive of the breaker runs stops it, so that it has no end
    Story {
        drawing: Example::TwoFeeders,
        parts: &[
            STANDS,
            READ,
            &[
                b"command,S/V1/Q1/QA1,close\ndeliver,1\ndeliver,2\nbegin,S/V1/Q1/QA1\ntrip,S/V1/Q1/QA1\n",
                b"end,S/V1/Q1/QA1\n",
            ],
        ],
        report: &[
            BAYS,
            b"21 1 collecting 1\n21 1 send 1 reserve 2 1\n22 2 send 2 answer 1 1\n",
            b"23 1 granted 1 close S/V1/Q1/QA1\n",
        ],
        premise: Some((26, Which::Ended)),
    },
    // an open breaker that trips stays open, and nothing is shown
    Story {
        drawing: Example::TwoFeeders,
        parts: &[STANDS, &[b"trip,S/V1/Q1/QA1\nsense,S/V1/Q1/QA1,off\n"]],
        report: &[BAYS, b"done 12\n"],
        premise: None,
    },
];

pub(crate) fn push_lines(text: &mut Text, lines: &[&[u8]]) -> Result<(), Memory> {
    for line in lines {
        text.push(line)?;
    }
    Ok(())
}

// Adds the parts one after the other.
fn push_parts(text: &mut Text, parts: &[&[&[u8]]]) -> Result<(), Memory> {
    for part in parts {
        push_lines(text, part)?;
    }
    Ok(())
}

// What comes after a front of the text, where it begins so.
fn behind<'a>(text: &'a [u8], front: &[u8]) -> Option<&'a [u8]> {
    if text.len() < front.len() {
        return None;
    }
    let (begin, rest) = text.split_at(front.len());
    if begin == front { Some(rest) } else { None }
}

// Whether the text is these pieces.
fn is_joined(text: &[u8], pieces: &[&[u8]]) -> bool {
    let mut rest = text;
    for piece in pieces {
        let Some(after) = behind(rest, piece) else {
            return false;
        };
        rest = after;
    }
    rest.is_empty()
}

// Whether this is the text of the report.
fn has_text(alloc: Global, station: &Station, report: &TripReport, pieces: &[&[u8]]) -> bool
    requires { ReportFits station.now report.now }
{
    match report.text(alloc, station) {
        Ok(text) => is_joined(text.bytes(), pieces),
        Err(_) => false,
    }
}

// Whether the report of a log of so many records is that of the story.
fn is_report(
    alloc: Global,
    station: &Station,
    report: &TripReport,
    story: &Story,
    records: u32,
) -> bool
    requires { ReportFits station.now report.now }
{
    has_text(alloc, station, report, story.report)
        && report.premise() == story.premise
        && report.count() == records
}

// Whether the log is replayed as the story says.
fn is_replayed(alloc: Global, station: &Station, log: &TripLog, story: &Story) -> bool
    requires { All (TripMayBeTold station.now) log.now }
{
    if !fits_plain(station) {
        return false;
    }
    match replay_trips(alloc, station, log, &PlainJudge::new(station)) {
        Ok(report) => is_report(alloc, station, &report, story, log.count()),
        Err(_) => false,
    }
}

// Whether the bytes are a log that is replayed as the story says.
fn is_log(alloc: Global, station: &Station, bytes: &[u8], story: &Story) -> bool {
    match read_trip_log(alloc, station, bytes) {
        Ok(log) => is_replayed(alloc, station, &log, story),
        Err(_) => false,
    }
}

impl StationRow for Story {
    fn example(&self) -> Example {
        self.drawing
    }

    fn holds(&self, alloc: Global, station: &Station) -> bool {
        let mut bytes = Text::new(alloc);
        push_parts(&mut bytes, self.parts).is_ok() && is_log(alloc, station, bytes.bytes(), self)
    }
}

#[test]
fn replays_trips(rt: HostRuntime) {
    assert!(rt; rows_hold(rt.alloc(), STORIES));
}

// A disconnector is closed in parallel to another while the coupler bonds their busbars. The coupler trips before the
// drive begins: nobody is told, and the drive closes the gap under load.
const AFTER_A_TRIP: Story = Story {
    drawing: Example::TwoBusbars,
    parts: &[
        &[
            b"at,S/V1/K0/QB1,on\nat,S/V1/K0/QA1,on\nat,S/V1/K0/QB2,on\nat,S/V1/Q1/QB1,on\n",
            b"at,S/V1/Q1/QB2,off\nat,S/V1/Q1/QA1,on\nat,S/V1/Q1/QB9,on\nat,S/V1/Q1/QC9,off\n",
            b"at,S/V1/Q1/E1,on\nat,S/V1/Q2/QB1,off\nat,S/V1/Q2/QB2,on\nat,S/V1/Q2/QA1,on\n",
            b"at,S/V1/Q2/QB9,on\nat,S/V1/Q2/QC9,off\nat,S/V1/Q2/E1,on\n",
        ],
        &[
            b"sense,S/V1/K0/QB1,on\nsense,S/V1/K0/QA1,on\nsense,S/V1/K0/QB2,on\nsense,S/V1/Q1/QB1,on\n",
            b"sense,S/V1/Q1/QB2,off\nsense,S/V1/Q1/QA1,on\nsense,S/V1/Q1/QB9,on\n",
            b"sense,S/V1/Q1/QC9,off\nsense,S/V1/Q1/E1,on\nsense,S/V1/Q2/QB1,off\n",
            b"sense,S/V1/Q2/QB2,on\nsense,S/V1/Q2/QA1,on\nsense,S/V1/Q2/QB9,on\n",
            b"sense,S/V1/Q2/QC9,off\nsense,S/V1/Q2/E1,on\n",
        ],
        &[
            b"command,S/V1/Q1/QB2,close\ndeliver,1\ndeliver,2\ndeliver,3\ndeliver,4\n",
            b"trip,S/V1/K0/QA1\nbegin,S/V1/Q1/QB2\nend,S/V1/Q1/QB2\nsense,S/V1/Q1/QB2,on\n",
        ],
    ],
    report: &[
        COUPLED,
        b"31 3 collecting 1\n31 3 send 1 reserve 2 1\n31 3 send 2 reserve 4 1\n",
        b"32 2 send 3 answer 3 1\n33 4 send 4 answer 3 1\n35 3 granted 1 close S/V1/Q1/QB2\n",
        b"39 3 finished 1\n39 3 send 5 over 2 1\n39 3 send 6 over 4 1\ndone 39\n",
    ],
    premise: None,
};

const COUPLED: &[u8] = b"bay 2 S/V1/K0\nbay 3 S/V1/Q1\nbay 4 S/V1/Q2\n";

// The switches that are closed before the trip.
struct BeforeATrip {
    closed: &'static [u16],
}

const BEFORE_A_TRIP: BeforeATrip = BeforeATrip {
    closed: &[0, 1, 2, 3, 5, 6, 8, 10, 11, 12, 14],
};

// Whether closing the disconnector breaks this rule.
fn closing_breaks(alloc: Global, station: &Station, truth: &Vector, rule: Option<Rule>) -> bool
    requires truth { IsVector station.now truth.now }
    requires switch { 4 < length station.now.switches }
{
    let op = Op {
        switch: SwitchId(4),
        direction: Direction::ToOn,
    };
    match breaks(alloc, station, truth, op) {
        Ok(found) => found == rule,
        Err(_) => false,
    }
}

// Whether it breaks no rule before the coupler's breaker trips, and the third after it.
fn breaks_the_third(alloc: Global, station: &Station, truth: &mut Vector) -> bool
    requires truth { IsVector station.now truth.old }
    requires switch { 4 < length station.now.switches }
{
    let before = closing_breaks(alloc, station, truth, None);
    truth.set(SwitchId(1), false);
    before && closing_breaks(alloc, station, truth, Some(Rule::R3))
}

impl StationRow for BeforeATrip {
    fn example(&self) -> Example {
        Example::TwoBusbars
    }

    fn holds(&self, alloc: Global, station: &Station) -> bool {
        if station.switch_count() <= 4 {
            return false;
        }
        let Some(mut truth) = start_of(alloc, station, self.closed) else {
            return false;
        };
        breaks_the_third(alloc, station, &mut truth)
    }
}

// The third rule is promised no longer where a breaker has tripped that the grant used: on the true positions of
// that log it is broken.
#[test]
fn third_rule_after_a_trip(rt: HostRuntime) {
    assert!(rt; row_holds(rt.alloc(), &AFTER_A_TRIP));
    assert!(rt; row_holds(rt.alloc(), &BEFORE_A_TRIP));
}
