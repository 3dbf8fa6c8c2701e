//! Replays of logs of two feeders; the expected reports are those of the worked rows.
ghost use Rattle.std.specs.List.{All};
ghost use Rattle.log_replay.specs.Records.{MayBeTold};
ghost use Rattle.log_replay.specs.Replay.{ReportFits};

use central_rules::{PlainJudge, fits_plain};
use ilk_base::{Memory, Text};
use log_replay::{Log, Report, read_log, replay};
use reservation_core::Which;
use station_graph::Station;
use std::alloc::Global;
use test_stations::{Example, StationRow, rows_hold};

// Where the switches stand at first, and the words that are read of them.
const STANDS: &[u8] =
    b"at,S/V1/Q1/QB1,off\nat,S/V1/Q1/QA1,off\nat,S/V1/Q1/QB9,on\nat,S/V1/Q1/QC9,off\nat,S/V1/Q1/E1,off\n\
        at,S/V1/Q2/QB1,on\nat,S/V1/Q2/QA1,on\nat,S/V1/Q2/QB9,on\nat,S/V1/Q2/QC9,off\nat,S/V1/Q2/E1,on\n";

const READ: &[u8] =
    b"sense,S/V1/Q1/QB1,off\nsense,S/V1/Q1/QA1,off\nsense,S/V1/Q1/QB9,on\nsense,S/V1/Q1/QC9,off\nsense,S/V1/Q1/E1,off\n\
        sense,S/V1/Q2/QB1,on\nsense,S/V1/Q2/QA1,on\nsense,S/V1/Q2/QB9,on\nsense,S/V1/Q2/QC9,off\nsense,S/V1/Q2/E1,on\n";

// What follows, and what a report says after the lines of the bays.
struct Row {
    stands: bool,
    read: bool,
    rest: &'static [u8],
    report: &'static [u8],
    premise: Option<(u32, Which)>,
    outcomes: (u32, u32, u32),
}

const ROWS: &[Row] = &[
    // one whole operation
    Row {
        stands: true,
        read: true,
        rest: b"command,S/V1/Q1/QB1,close\ndeliver,1\ndeliver,2\nbegin,S/V1/Q1/QB1\nend,S/V1/Q1/QB1\n\
            sense,S/V1/Q1/QB1,on\ndeliver,3\n",
        report: b"21 1 collecting 1\n21 1 send 1 reserve 2 1\n22 2 send 2 answer 1 1\n\
            23 1 granted 1 close S/V1/Q1/QB1\n26 1 finished 1\n26 1 send 3 over 2 1\ndone 27\n",
        premise: None,
        outcomes: (1, 0, 1),
    },
    // two rounds at once
    Row {
        stands: true,
        read: true,
        rest: b"command,S/V1/Q1/QB1,close\ncommand,S/V1/Q2/QB1,open\ndeliver,1\ndeliver,2\ndeliver,3\ndeliver,4\n\
            deliver,5\n",
        report: b"21 1 collecting 1\n21 1 send 1 reserve 2 1\n22 2 collecting 1\n22 2 send 2 reserve 1 1\n\
            23 2 send 3 busy 1 1\n24 1 send 4 busy 2 1\n25 1 busy 1 from 2 holder 2 round 1\n25 1 send 5 over 2 1\n\
            26 2 busy 1 from 1 holder 1 round 1\n26 2 send 6 over 1 1\ndone 27\n",
        premise: None,
        outcomes: (0, 0, 0),
    },
    // restarts, repeats and a query
    Row {
        stands: true,
        read: true,
        rest: b"command,S/V1/Q1/QB1,close\ndeliver,1\ndeliver,2\nrestart,S/V1/Q1\ncommand,S/V1/Q1/QA1,close\n\
            restart,S/V1/Q2\ncommand,S/V1/Q2/QA1,open\nbegin,S/V1/Q1/QB1\nend,S/V1/Q1/QB1\nsense,S/V1/Q1/QB1,on\n\
            deliver,3\ndeliver,1\ndeliver,2\ntick,S/V1/Q2\ndeliver,5\ndeliver,6\ncommand,S/V1/Q2/QA1,open\n",
        report: b"21 1 collecting 1\n21 1 send 1 reserve 2 1\n22 2 send 2 answer 1 1\n\
            23 1 granted 1 close S/V1/Q1/QB1\n25 1 underway 1\n27 2 held 1 round 1\n30 1 finished 1\n\
            30 1 send 3 over 2 1\n32 2 send 4 answer 1 1\n34 2 send 5 query 1 1\n35 1 send 6 over 2 1\n\
            37 2 collecting 1\n37 2 send 7 reserve 1 1\ndone 37\n",
        premise: None,
        outcomes: (1, 0, 1),
    },
    // a drive that stops
    Row {
        stands: true,
        read: true,
        rest: b"command,S/V1/Q1/QB1,close\ndeliver,1\ndeliver,2\nbegin,S/V1/Q1/QB1\ncut,S/V1/Q1/QB1\n\
            command,S/V1/Q1/QB1,open\ndeliver,3\ndeliver,4\ndeliver,5\nbegin,S/V1/Q1/QB1\nend,S/V1/Q1/QB1\n\
            sense,S/V1/Q1/QB1,off\ndeliver,6\n",
        report: b"21 1 collecting 1\n21 1 send 1 reserve 2 1\n22 2 send 2 answer 1 1\n\
            23 1 granted 1 close S/V1/Q1/QB1\n25 1 stopped 1\n25 1 send 3 over 2 1\n26 1 collecting 2\n\
            26 1 send 4 reserve 2 2\n28 2 send 5 answer 1 2\n29 1 granted 2 open S/V1/Q1/QB1\n32 1 finished 2\n\
            32 1 send 6 over 2 2\ndone 33\n",
        premise: None,
        outcomes: (2, 0, 1),
    },
    // repeats after the end
    Row {
        stands: true,
        read: true,
        rest: b"command,S/V1/Q1/QB1,close\ndeliver,1\ndeliver,2\nbegin,S/V1/Q1/QB1\nend,S/V1/Q1/QB1\n\
            sense,S/V1/Q1/QB1,on\ndeliver,3\ndeliver,1\ndeliver,2\ndeliver,3\n",
        report: b"21 1 collecting 1\n21 1 send 1 reserve 2 1\n22 2 send 2 answer 1 1\n\
            23 1 granted 1 close S/V1/Q1/QB1\n26 1 finished 1\n26 1 send 3 over 2 1\n28 2 send 4 answer 1 1\ndone 30\n",
        premise: None,
        outcomes: (1, 0, 1),
    },
    // nothing happens, and premises that are broken
    Row {
        stands: true,
        read: false,
        rest: b"",
        report: b"done 10\n",
        premise: None,
        outcomes: (0, 0, 0),
    },
    Row {
        stands: false,
        read: false,
        rest: b"",
        report: b"",
        premise: Some((1, Which::Start)),
        outcomes: (0, 0, 0),
    },
    Row {
        stands: true,
        read: false,
        rest: b"begin,S/V1/Q1/QB1\n",
        report: b"",
        premise: Some((11, Which::Begun)),
        outcomes: (0, 0, 0),
    },
    Row {
        stands: true,
        read: false,
        rest: b"sense,S/V1/Q1/QB1,on\n",
        report: b"",
        premise: Some((11, Which::Sensed)),
        outcomes: (0, 0, 0),
    },
    Row {
        stands: true,
        read: false,
        rest: b"deliver,1\ndeliver,2\n",
        report: b"",
        premise: Some((11, Which::Unsent)),
        outcomes: (0, 0, 0),
    },
    Row {
        stands: true,
        read: true,
        rest: b"command,S/V1/Q1/QB1,close\ndeliver,1\ndeliver,2\nbegin,S/V1/Q1/QB1\nwithdraw,S/V1/Q1\n",
        report: b"21 1 collecting 1\n21 1 send 1 reserve 2 1\n22 2 send 2 answer 1 1\n\
            23 1 granted 1 close S/V1/Q1/QB1\n",
        premise: Some((25, Which::Withdrawn)),
        outcomes: (1, 0, 0),
    },
    Row {
        stands: true,
        read: false,
        rest: b"cut,S/V1/Q1/QB1\n",
        report: b"",
        premise: Some((11, Which::Cut)),
        outcomes: (0, 0, 0),
    },
];

// Adds the log of the row.
fn push_log(bytes: &mut Text, row: &Row) -> Result<(), Memory> {
    if row.stands {
        bytes.push(STANDS)?;
    }
    if row.read {
        bytes.push(READ)?;
    }
    bytes.push(row.rest)
}

// Whether the text is the lines of the bays and then the report.
fn is_text(text: &[u8], report: &[u8]) -> bool {
    let bays = b"bay 1 S/V1/Q1\nbay 2 S/V1/Q2\n".as_slice();
    if text.len() < bays.len() {
        return false;
    }
    let (front, rest) = text.split_at(bays.len());
    front == bays && rest == report
}

// Whether this is the text of the report.
fn has_text(alloc: Global, station: &Station, report: &Report, row: &Row) -> bool
    requires { ReportFits station.now report.now }
{
    match report.text(alloc, station) {
        Ok(text) => is_text(text.bytes(), row.report),
        Err(_) => false,
    }
}

// Whether the report of a log of so many records is that of the row.
fn is_report(alloc: Global, station: &Station, report: &Report, row: &Row, records: u32) -> bool
    requires { ReportFits station.now report.now }
{
    has_text(alloc, station, report, row)
        && report.premise() == row.premise
        && report.outcomes() == row.outcomes
        && report.count() == records
}

// Whether the log is replayed as the row says.
fn is_replayed(alloc: Global, station: &Station, log: &Log, row: &Row) -> bool
    requires { All (MayBeTold station.now) log.now }
{
    if !fits_plain(station) {
        return false;
    }
    match replay(alloc, station, log, &PlainJudge::new(station)) {
        Ok(report) => is_report(alloc, station, &report, row, log.count()),
        Err(_) => false,
    }
}

// Whether the bytes are a log that is replayed as the row says.
fn is_log(alloc: Global, station: &Station, bytes: &[u8], row: &Row) -> bool {
    match read_log(alloc, station, bytes) {
        Ok(log) => is_replayed(alloc, station, &log, row),
        Err(_) => false,
    }
}

impl StationRow for Row {
    fn example(&self) -> Example {
        Example::TwoFeeders
    }

    fn holds(&self, alloc: Global, station: &Station) -> bool {
        let mut bytes = Text::new(alloc);
        push_log(&mut bytes, self).is_ok() && is_log(alloc, station, bytes.bytes(), self)
    }
}

#[test]
fn replays_rows(rt: HostRuntime) {
    assert!(rt; rows_hold(rt.alloc(), ROWS));
}
