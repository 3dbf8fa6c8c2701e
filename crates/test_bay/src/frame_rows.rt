//! The rules of the other frames, and of what is no frame for the bay.
use crate::node_rows::{
    COMMANDED, GRANTED, HIGHEST_0, HIGHEST_1, HIGHEST_3, Happens, LOCKED_5, OVER_TO_2, Row,
};
use ilk_base::Dbpos;
use test_stations::Example;

pub(crate) const FRAMES: &[Row] = &[
    // Busy: the round ends.
    Row {
        station: Example::TwoFeeders,
        start: HIGHEST_0,
        first: COMMANDED,
        event: Happens::Bytes(&[3, 2, 1, 0, 0, 0, 1, 0, 5, 2, 0, 0, 0, 10]),
        shown: b"busy 1 from 2 holder 2 round 10\n",
        sent: &[OVER_TO_2],
        kept: HIGHEST_1,
        word: Dbpos::Off,
    },
    // Busy: of another round.
    Row {
        station: Example::TwoFeeders,
        start: HIGHEST_0,
        first: COMMANDED,
        event: Happens::Bytes(&[3, 2, 1, 0, 0, 0, 2, 0, 5, 2, 0, 0, 0, 10]),
        shown: b"",
        sent: &[],
        kept: HIGHEST_1,
        word: Dbpos::Off,
    },
    // Query: the round is over.
    Row {
        station: Example::TwoFeeders,
        start: HIGHEST_3,
        first: &[],
        event: Happens::Bytes(&[4, 2, 1, 0, 0, 0, 2, 0, 0]),
        shown: b"",
        sent: &[&[5, 1, 2, 0, 0, 0, 2, 0, 0]],
        kept: HIGHEST_3,
        word: Dbpos::Lost,
    },
    // Query: the round was never opened.
    Row {
        station: Example::TwoFeeders,
        start: HIGHEST_3,
        first: &[],
        event: Happens::Bytes(&[4, 2, 1, 0, 0, 0, 4, 0, 0]),
        shown: b"",
        sent: &[],
        kept: HIGHEST_3,
        word: Dbpos::Lost,
    },
    // Query: the round is under way.
    Row {
        station: Example::TwoFeeders,
        start: GRANTED,
        first: &[],
        event: Happens::Bytes(&[4, 2, 1, 0, 0, 0, 1, 0, 0]),
        shown: b"",
        sent: &[],
        kept: GRANTED,
        word: Dbpos::Lost,
    },
    // Over: of the round of the lock.
    Row {
        station: Example::TwoFeeders,
        start: LOCKED_5,
        first: &[],
        event: Happens::Bytes(&[5, 2, 1, 0, 0, 0, 5, 0, 0]),
        shown: b"",
        sent: &[],
        kept: HIGHEST_0,
        word: Dbpos::Lost,
    },
    // Over: of a later round.
    Row {
        station: Example::TwoFeeders,
        start: LOCKED_5,
        first: &[],
        event: Happens::Bytes(&[5, 2, 1, 0, 0, 0, 6, 0, 0]),
        shown: b"",
        sent: &[],
        kept: HIGHEST_0,
        word: Dbpos::Lost,
    },
    // Over: of an earlier round.
    Row {
        station: Example::TwoFeeders,
        start: LOCKED_5,
        first: &[],
        event: Happens::Bytes(&[5, 2, 1, 0, 0, 0, 4, 0, 0]),
        shown: b"",
        sent: &[],
        kept: LOCKED_5,
        word: Dbpos::Lost,
    },
    // Over: of another bay than the holder.
    Row {
        station: Example::ThreeBays,
        start: LOCKED_5,
        first: &[],
        event: Happens::Bytes(&[5, 3, 1, 0, 0, 0, 5, 0, 0]),
        shown: b"",
        sent: &[],
        kept: LOCKED_5,
        word: Dbpos::Lost,
    },
    // A frame to another bay.
    Row {
        station: Example::TwoFeeders,
        start: HIGHEST_0,
        first: &[],
        event: Happens::Bytes(&[1, 1, 2, 0, 0, 0, 5, 0, 0]),
        shown: b"",
        sent: &[],
        kept: HIGHEST_0,
        word: Dbpos::Lost,
    },
    // A frame from a part without switches.
    Row {
        station: Example::TwoFeeders,
        start: HIGHEST_0,
        first: &[],
        event: Happens::Bytes(&[1, 0, 1, 0, 0, 0, 5, 0, 0]),
        shown: b"",
        sent: &[],
        kept: HIGHEST_0,
        word: Dbpos::Lost,
    },
    // Bytes that are no frame: a Reserve without its last byte.
    Row {
        station: Example::TwoFeeders,
        start: HIGHEST_0,
        first: &[],
        event: Happens::Bytes(&[1, 2, 1, 0, 0, 0, 5, 0]),
        shown: b"",
        sent: &[],
        kept: HIGHEST_0,
        word: Dbpos::Lost,
    },
];
