//! Logs with trips that are refused.
use crate::trips::{STANDS, push_lines};
use ilk_base::Text;
use station_graph::Station;
use std::alloc::Global;
use test_stations::{Example, StationRow, rows_hold};
use trip_replay::{TripLogFault, read_trip_log};

// What follows the ten lines of the start, and the number of the refusal and its line.
struct Refused {
    rest: &'static [u8],
    number: u8,
    line: u32,
}

const REFUSED: &[Refused] = &[
    // a trip of no breaker, and of no switch
    Refused {
        rest: b"trip,S/V1/Q1/QB1\n",
        number: 2,
        line: 11,
    },
    Refused {
        rest: b"trip,S/V1/Q3/QA1\n",
        number: 2,
        line: 11,
    },
    // one field too many
    Refused {
        rest: b"trip,S/V1/Q1/QA1,off\n",
        number: 1,
        line: 11,
    },
    // it is too late to tell where a switch stands, and other kinds are refused as ever
    Refused {
        rest: b"trip,S/V1/Q1/QA1\nat,S/V1/Q1/QA1,off\n",
        number: 7,
        line: 12,
    },
    Refused {
        rest: b"trips,S/V1/Q1/QA1\n",
        number: 6,
        line: 11,
    },
];

// Whether the log is refused so.
fn is_refused(alloc: Global, station: &Station, bytes: &[u8], number: u8, line: u32) -> bool {
    match read_trip_log(alloc, station, bytes) {
        Err(TripLogFault::Refused(refusal)) => (refusal.number, refusal.line) == (number, line),
        _ => false,
    }
}

impl StationRow for Refused {
    fn example(&self) -> Example {
        Example::TwoFeeders
    }

    fn holds(&self, alloc: Global, station: &Station) -> bool {
        let mut bytes = Text::new(alloc);
        push_lines(&mut bytes, STANDS).is_ok()
            && bytes.push(self.rest).is_ok()
            && is_refused(alloc, station, bytes.bytes(), self.number, self.line)
    }
}

#[test]
fn refuses_trips(rt: HostRuntime) {
    assert!(rt; rows_hold(rt.alloc(), REFUSED));
}
