//! The commands that words may name.
use ilk_base::Direction;
use station_make::{Feeders, MadeText};

// An operation that is asked about, in positions.
#[derive(Clone, Copy)]
pub struct AskedOperation<'a> {
    // the file of the positions
    pub positions: &'a str,
    pub direction: Direction,
    // the path of the switch
    pub switch: &'a str,
}

// A command, with its words.
#[derive(Clone, Copy)]
pub enum Command<'a> {
    Check {
        station: &'a str,
        positions: &'a str,
    },
    Explain {
        station: &'a str,
        asked: AskedOperation<'a>,
    },
    Denials {
        station: &'a str,
        positions: &'a str,
    },
    State {
        station: &'a str,
        positions: &'a str,
    },
    Order {
        station: &'a str,
        positions: &'a str,
        order: &'a str,
    },
    Replay {
        station: &'a str,
        log: &'a str,
    },
    Audit {
        station: &'a str,
        equations: &'a str,
    },
    Node {
        station: &'a str,
        bay: &'a str,
    },
    Compile {
        station: &'a str,
    },
    Trips {
        station: &'a str,
        log: &'a str,
    },
    Plan {
        station: &'a str,
    },
    Program {
        station: &'a str,
    },
    BayProgram {
        station: &'a str,
        bay: &'a str,
    },
    Make {
        feeders: Feeders,
        text: MadeText,
    },
    Work {
        feeders: Feeders,
    },
    Station {
        station: &'a str,
    },
    Compare {
        old: &'a str,
        new: &'a str,
    },
    Tests {
        station: &'a str,
        bay: &'a str,
    },
    Why {
        station: &'a str,
        asked: AskedOperation<'a>,
    },
    StationTests {
        station: &'a str,
    },
}
