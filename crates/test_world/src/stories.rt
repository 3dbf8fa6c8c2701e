//! The form of a story, and what several stories share. The bays are the parts 1 and 2, with the switches 0 to 4
//! and 5 to 9; a summary is a row of words, one byte for each switch of the bay: 1 off, 2 on, 4 lost. All rows
//! of bytes are worked by hand.
use ilk_base::Dbpos;

// What happens.
#[derive(Clone, Copy)]
pub(crate) enum Happens {
    Open(u16),
    Close(u16),
    Sense(u16, Dbpos),
    Deliver(u32),
    Part(u32, u8),
    Tick(u8),
    Withdraw(u8),
    Restart(u8),
    Begin(u16),
    End(u16),
    Cut(u16),
}

// What comes of it: a premise of this number is broken, a drive has moved, or this bay took a step; then the
// number of the next message, the lines that are shown, and the frames that are sent.
#[derive(Clone, Copy)]
pub(crate) enum Says {
    Premise(u8),
    Drive,
    Quiet(u8, u32),
    Shows(u8, u32, &'static [u8], &'static [&'static [u8]]),
}

#[derive(Clone, Copy)]
pub(crate) struct Line(pub(crate) Happens, pub(crate) Says);

// The switches that are closed at first, and what happens then, in parts. Before it each switch is read as it
// stands.
pub(crate) struct Story {
    pub(crate) closed: &'static [u16],
    pub(crate) parts: &'static [&'static [Line]],
}

// Bay 1 is open, and not supplied; bay 2 is closed and live.
pub(crate) const CLOSED: &[u16] = &[2, 5, 6, 7, 9];

pub(crate) const RESERVE: &[u8] = &[1, 1, 2, 0, 0, 0, 1, 0, 0];

pub(crate) const RESERVE_2: &[u8] = &[1, 1, 2, 0, 0, 0, 2, 0, 0];

pub(crate) const ANSWER: &[u8] = &[2, 2, 1, 0, 0, 0, 1, 0, 5, 2, 2, 2, 1, 2];

pub(crate) const ANSWER_2: &[u8] = &[2, 2, 1, 0, 0, 0, 2, 0, 5, 2, 2, 2, 1, 2];

pub(crate) const ANSWER_LOST: &[u8] = &[2, 2, 1, 0, 0, 0, 1, 0, 5, 4, 4, 4, 4, 4];

pub(crate) const OVER: &[u8] = &[5, 1, 2, 0, 0, 0, 1, 0, 0];

pub(crate) const OVER_2: &[u8] = &[5, 1, 2, 0, 0, 0, 2, 0, 0];

pub(crate) const RESERVE_BACK: &[u8] = &[1, 2, 1, 0, 0, 0, 1, 0, 0];

pub(crate) const COLLECTING: Says = Says::Shows(1, 1, b"collecting 1\n", &[RESERVE]);

pub(crate) const GRANTED: Says = Says::Shows(1, 3, b"granted 1 close S/V1/Q1/QB1\n", &[]);

pub(crate) const FINISHED: Says = Says::Shows(1, 3, b"finished 1\n", &[OVER]);

// A command of bay 1 is reserved, answered and granted.
pub(crate) const TO_GRANT: &[Line] = &[
    Line(Happens::Close(0), COLLECTING),
    Line(Happens::Deliver(1), Says::Shows(2, 2, b"", &[ANSWER])),
    Line(Happens::Deliver(2), GRANTED),
];

// The switch moves, its end is read, and the other bay is freed.
pub(crate) const TO_END: &[Line] = &[
    Line(Happens::Begin(0), Says::Drive),
    Line(Happens::End(0), Says::Drive),
    Line(Happens::Sense(0, Dbpos::On), FINISHED),
    Line(Happens::Deliver(3), Says::Quiet(2, 4)),
];
