//! The form of a row of the tests, and what several rows share. The node is that of the part 1, S/V1/Q1; a
//! summary is a row of words, one byte for each switch of the bay: 1 off, 2 on, 4 lost. All rows of bytes are
//! worked by hand.
use ilk_base::Dbpos;
use test_stations::Example;

// What happens in a row.
#[derive(Clone, Copy)]
pub(crate) enum Happens {
    Open(u16),
    Close(u16),
    Sense(u16, Dbpos),
    Bytes(&'static [u8]),
    Tick,
    Withdraw,
    Restart,
    Cut(u16),
}

// A row: the station, the record from which the node is resumed, what happens first; then the event, the lines
// that are shown, the frames that are sent, the record after it, and the word of the first switch.
pub(crate) struct Row {
    pub(crate) station: Example,
    pub(crate) start: &'static [u8; 18],
    pub(crate) first: &'static [Happens],
    pub(crate) event: Happens,
    pub(crate) shown: &'static [u8],
    pub(crate) sent: &'static [&'static [u8]],
    pub(crate) kept: &'static [u8; 18],
    pub(crate) word: Dbpos,
}

// A record of a highest round, with no lock and no grant.
pub(crate) const HIGHEST_0: &[u8; 18] = &[0, 0, 0, 0, 0, 0, 0, 0, 0, 0, 0, 0, 0, 0, 0, 0, 0, 0];

pub(crate) const HIGHEST_1: &[u8; 18] = &[0, 0, 0, 1, 0, 0, 0, 0, 0, 0, 0, 0, 0, 0, 0, 0, 0, 0];

pub(crate) const HIGHEST_3: &[u8; 18] = &[0, 0, 0, 3, 0, 0, 0, 0, 0, 0, 0, 0, 0, 0, 0, 0, 0, 0];

pub(crate) const LAST: &[u8; 18] = &[255, 255, 255, 255, 0, 0, 0, 0, 0, 0, 0, 0, 0, 0, 0, 0, 0, 0];
// Locked for round 5 of bay 2, and for its round 6.
pub(crate) const LOCKED_5: &[u8; 18] = &[0, 0, 0, 0, 1, 2, 0, 0, 0, 5, 0, 0, 0, 0, 0, 0, 0, 0];

pub(crate) const LOCKED_6: &[u8; 18] = &[0, 0, 0, 0, 1, 2, 0, 0, 0, 6, 0, 0, 0, 0, 0, 0, 0, 0];
// Granted in round 1 to close switch 0.
pub(crate) const GRANTED: &[u8; 18] = &[0, 0, 0, 1, 0, 0, 0, 0, 0, 0, 1, 0, 0, 0, 1, 0, 0, 1];

// The words of the bay: QB1, QA1, QC9 and E1 off, QB9 on; then the command to close QB1.
pub(crate) const COMMANDED: &[Happens] = &[
    Happens::Sense(0, Dbpos::Off),
    Happens::Sense(1, Dbpos::Off),
    Happens::Sense(2, Dbpos::On),
    Happens::Sense(3, Dbpos::Off),
    Happens::Sense(4, Dbpos::Off),
    Happens::Close(0),
];

// The same, and the Answer of bay 2, which stands closed and live: this is released.
pub(crate) const RELEASED: &[Happens] = &[
    Happens::Sense(0, Dbpos::Off),
    Happens::Sense(1, Dbpos::Off),
    Happens::Sense(2, Dbpos::On),
    Happens::Sense(3, Dbpos::Off),
    Happens::Sense(4, Dbpos::Off),
    Happens::Close(0),
    Happens::Bytes(ANSWER),
];

pub(crate) const ANSWER: &[u8] = &[2, 2, 1, 0, 0, 0, 1, 0, 5, 2, 2, 2, 1, 2];

pub(crate) const RESERVE_5: &[u8] = &[1, 2, 1, 0, 0, 0, 5, 0, 0];

pub(crate) const OVER_TO_2: &[u8] = &[5, 1, 2, 0, 0, 0, 1, 0, 0];
