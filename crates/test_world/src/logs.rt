//! Log files and what they give; the expected events and refusals are those of the format.
use ilk_base::{BayId, Dbpos, Direction, InputRefusal, Memory, Op, SwitchId, Text};
use log_replay::{LogFault, read_log};
use reservation_core::{LogEvent, WorldEvent};
use station_graph::Station;
use std::alloc::Global;
use test_stations::{Example, StationRow, row_holds, rows_hold};

// The last event of a log, if it has one, or why the bytes are none.
fn last_event(
    alloc: Global,
    station: &Station,
    bytes: &[u8],
) -> Result<Option<LogEvent>, LogFault> {
    let log = read_log(alloc, station, bytes)?;
    if log.count() == 0 {
        return Ok(None);
    }
    Ok(Some(log.event(log.count() - 1)))
}

const SWITCH: SwitchId = SwitchId(0);

// Logs on a station with one switch, `S/V1/Q1/QC9`, and the last event of each.
const EVENTS: &[(&[u8], LogEvent)] = &[
    (
        b"command,S/V1/Q1/QC9,close\n",
        LogEvent::Step(WorldEvent::Command(Op {
            switch: SWITCH,
            direction: Direction::ToOn,
        })),
    ),
    (
        b"sense,S/V1/Q1/QC9,lost",
        LogEvent::Step(WorldEvent::Sense {
            switch: SWITCH,
            word: Dbpos::Lost,
        }),
    ),
    (
        b"begin,S/V1/Q1/QC9",
        LogEvent::Step(WorldEvent::Begin(SWITCH)),
    ),
    (
        b"end,S/V1/Q1/QC9\r\n",
        LogEvent::Step(WorldEvent::End(SWITCH)),
    ),
    (
        b"cut,\"S/V1/Q1/QC9\"",
        LogEvent::Step(WorldEvent::Cut(SWITCH)),
    ),
    (
        b"deliver,4294967295",
        LogEvent::Step(WorldEvent::Deliver {
            message: 4_294_967_295,
        }),
    ),
    (
        b"part,1,64",
        LogEvent::Step(WorldEvent::Part {
            message: 1,
            bytes: 64,
        }),
    ),
    (
        b"\n\ntick,S/V1/Q1\n\n",
        LogEvent::Step(WorldEvent::Tick(BayId(0))),
    ),
    (
        b"withdraw,S/V1/Q1",
        LogEvent::Step(WorldEvent::Withdraw(BayId(0))),
    ),
    (
        b"restart,S/V1/Q1",
        LogEvent::Step(WorldEvent::Restart(BayId(0))),
    ),
    (
        b"at,S/V1/Q1/QC9,off",
        LogEvent::At {
            switch: SWITCH,
            closed: false,
        },
    ),
    (
        b"\xEF\xBB\xBFat,S/V1/Q1/QC9,on\n",
        LogEvent::At {
            switch: SWITCH,
            closed: true,
        },
    ),
];

// Logs, and the number and the line with which each is refused.
const REFUSED: &[(&[u8], u8, u32)] = &[
    (b"tick", 1, 1),
    (b"tick,S/V1/Q1,", 1, 1),
    (b"tick,S/V1/Q1\xFF", 1, 1),
    (b"tick,S/V1/Q2", 2, 1),
    (b"tick,S/V1/Q1\n\nbegin,S/V1/Q1", 2, 2),
    (b"command,S/V1/Q1/QC9,on", 3, 1),
    (b"sense,S/V1/Q1/QX,up", 2, 1),
    (b"sense,S/V1/Q1/QC9,up", 3, 1),
    (b"at,S/V1/Q1/QC9,lost", 3, 1),
    (b"at,S/V1/Q1/QC9,on\nat,S/V1/Q1/QC9,off", 4, 2),
    (b"tack,S/V1/Q1", 6, 1),
    (b",S/V1/Q1", 6, 1),
    (b"sense,S/V1/Q1/QC9,lost\nat,S/V1/Q1/QX,up", 7, 2),
    (b"deliver,0", 8, 1),
    (b"deliver,01", 8, 1),
    (b"deliver,+1", 8, 1),
    (b"deliver,4294967296", 8, 1),
    (b"part,1,65", 8, 1),
    (b"part,0,x", 8, 1),
    (b"deliver,1\ntack\ndeliver,0", 6, 2),
];

// Whether this is the last event of each log.
fn are_events(alloc: Global, station: &Station, rows: &[(&[u8], LogEvent)]) -> bool {
    for (bytes, want) in rows {
        if last_event(alloc, station, bytes) != Ok(Some(*want)) {
            return false;
        }
    }
    true
}

// Whether the log is refused so.
fn is_refused(alloc: Global, station: &Station, bytes: &[u8], number: u8, line: u32) -> bool {
    let want = LogFault::Refused(InputRefusal { number, line });
    last_event(alloc, station, bytes) == Err(want)
}

// Whether each log is refused so.
fn are_refused(alloc: Global, station: &Station, rows: &[(&[u8], u8, u32)]) -> bool {
    for (bytes, number, line) in rows {
        if !is_refused(alloc, station, bytes, *number, *line) {
            return false;
        }
    }
    true
}

// Adds the most records.
fn push_records(text: &mut Text) -> Result<(), Memory> {
    for _ in 0..20_000 {
        text.push(b"tick,S/V1/Q1\n")?;
    }
    Ok(())
}

// Whether a log of the most records is read, and refused with one record more.
fn has_most(alloc: Global, station: &Station) -> bool {
    let tick = LogEvent::Step(WorldEvent::Tick(BayId(0)));
    let mut text = Text::new(alloc);
    push_records(&mut text).is_ok()
        && last_event(alloc, station, text.bytes()) == Ok(Some(tick))
        && text.push(b"tack\n").is_ok()
        && is_refused(alloc, station, text.bytes(), 9, 20_001)
}

// Whether a log of one byte too many is refused.
fn is_too_large(alloc: Global, station: &Station) -> bool {
    match vec![in alloc; b'x'; 8_388_609] {
        Ok(large) => is_refused(alloc, station, &large, 5, 0),
        Err(_) => false,
    }
}

// What is asked of logs on the one switch.
enum Asked {
    // whether each is read to this last event
    Events(&'static [(&'static [u8], LogEvent)]),
    // whether one of empty lines has no event
    NoEvent,
    // whether each is refused so
    Refused(&'static [(&'static [u8], u8, u32)]),
    // whether one may have so many records
    Records,
    // whether one may have so many bytes
    Bytes,
}

impl StationRow for Asked {
    fn example(&self) -> Example {
        Example::OneEarthed
    }

    fn holds(&self, alloc: Global, station: &Station) -> bool {
        match self {
            Asked::Events(rows) => are_events(alloc, station, rows),
            Asked::NoEvent => last_event(alloc, station, b"\n\r\n") == Ok(None),
            Asked::Refused(rows) => are_refused(alloc, station, rows),
            Asked::Records => has_most(alloc, station),
            Asked::Bytes => is_too_large(alloc, station),
        }
    }
}

#[test]
fn reads_each_kind(rt: HostRuntime) {
    assert!(rt; rows_hold(rt.alloc(), &[Asked::Events(EVENTS), Asked::NoEvent]));
}

#[test]
fn refuses_at_the_first_fault(rt: HostRuntime) {
    assert!(rt; row_holds(rt.alloc(), &Asked::Refused(REFUSED)));
}

#[test]
fn keeps_the_limits(rt: HostRuntime) {
    assert!(rt; rows_hold(rt.alloc(), &[Asked::Records, Asked::Bytes]));
}
