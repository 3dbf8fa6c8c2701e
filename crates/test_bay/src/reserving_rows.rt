//! The rules of an Answer and of a Reserve.
use crate::node_rows::{
    ANSWER, COMMANDED, GRANTED, HIGHEST_0, HIGHEST_1, Happens, LOCKED_5, LOCKED_6, OVER_TO_2,
    RESERVE_5, Row,
};
use ilk_base::Dbpos;
use test_stations::Example;

pub(crate) const RESERVING: &[Row] = &[
    // Answer: it is the last, and no rule is broken; the word of the switch is lost.
    Row {
        station: Example::TwoFeeders,
        start: HIGHEST_0,
        first: COMMANDED,
        event: Happens::Bytes(ANSWER),
        shown: b"granted 1 close S/V1/Q1/QB1\n",
        sent: &[],
        kept: GRANTED,
        word: Dbpos::Lost,
    },
    // Answer: it is the last, and bay 2 is earthed and live.
    Row {
        station: Example::TwoFeeders,
        start: HIGHEST_0,
        first: COMMANDED,
        event: Happens::Bytes(&[2, 2, 1, 0, 0, 0, 1, 0, 5, 2, 2, 2, 2, 2]),
        shown: b"denied 1 R2 close S/V1/Q1/QB1\nwith S/V1/Q1/QB9\nwith S/V1/Q2/QB1\nwith S/V1/Q2/QA1\n\
            with S/V1/Q2/QB9\nwith S/V1/Q2/QC9\nwith S/V1/Q2/E1\n",
        sent: &[OVER_TO_2],
        kept: HIGHEST_1,
        word: Dbpos::Off,
    },
    // Answer: bay 3 is not heard yet.
    Row {
        station: Example::ThreeBays,
        start: HIGHEST_0,
        first: COMMANDED,
        event: Happens::Bytes(ANSWER),
        shown: b"",
        sent: &[],
        kept: HIGHEST_1,
        word: Dbpos::Off,
    },
    // Answer: of another round.
    Row {
        station: Example::TwoFeeders,
        start: HIGHEST_0,
        first: COMMANDED,
        event: Happens::Bytes(&[2, 2, 1, 0, 0, 0, 2, 0, 5, 2, 2, 2, 1, 2]),
        shown: b"",
        sent: &[],
        kept: HIGHEST_1,
        word: Dbpos::Off,
    },
    // Answer: a summary that does not fit.
    Row {
        station: Example::TwoFeeders,
        start: HIGHEST_0,
        first: COMMANDED,
        event: Happens::Bytes(&[2, 2, 1, 0, 0, 0, 1, 0, 4, 2, 2, 2, 1]),
        shown: b"",
        sent: &[],
        kept: HIGHEST_1,
        word: Dbpos::Off,
    },
    // Answer: no round is collected.
    Row {
        station: Example::TwoFeeders,
        start: HIGHEST_1,
        first: &[],
        event: Happens::Bytes(ANSWER),
        shown: b"",
        sent: &[],
        kept: HIGHEST_1,
        word: Dbpos::Lost,
    },
    // Reserve: the own round 1 is under way.
    Row {
        station: Example::TwoFeeders,
        start: HIGHEST_0,
        first: COMMANDED,
        event: Happens::Bytes(&[1, 2, 1, 0, 0, 0, 7, 0, 0]),
        shown: b"",
        sent: &[&[3, 1, 2, 0, 0, 0, 7, 0, 5, 1, 0, 0, 0, 1]],
        kept: HIGHEST_1,
        word: Dbpos::Off,
    },
    // Reserve: bay 2 holds the lock, and bay 3 asks.
    Row {
        station: Example::ThreeBays,
        start: LOCKED_5,
        first: &[],
        event: Happens::Bytes(&[1, 3, 1, 0, 0, 0, 7, 0, 0]),
        shown: b"",
        sent: &[&[3, 1, 3, 0, 0, 0, 7, 0, 5, 2, 0, 0, 0, 5]],
        kept: LOCKED_5,
        word: Dbpos::Lost,
    },
    // Reserve: of an earlier round than that of the lock.
    Row {
        station: Example::TwoFeeders,
        start: LOCKED_5,
        first: &[],
        event: Happens::Bytes(&[1, 2, 1, 0, 0, 0, 4, 0, 0]),
        shown: b"",
        sent: &[],
        kept: LOCKED_5,
        word: Dbpos::Lost,
    },
    // Reserve: the lock is given, and the own words are told.
    Row {
        station: Example::TwoFeeders,
        start: HIGHEST_0,
        first: &[Happens::Sense(0, Dbpos::Off), Happens::Sense(2, Dbpos::On)],
        event: Happens::Bytes(RESERVE_5),
        shown: b"",
        sent: &[&[2, 1, 2, 0, 0, 0, 5, 0, 5, 1, 4, 2, 4, 4]],
        kept: LOCKED_5,
        word: Dbpos::Off,
    },
    // Reserve: of a later round of the holder.
    Row {
        station: Example::TwoFeeders,
        start: LOCKED_5,
        first: &[],
        event: Happens::Bytes(&[1, 2, 1, 0, 0, 0, 6, 0, 0]),
        shown: b"",
        sent: &[&[2, 1, 2, 0, 0, 0, 6, 0, 5, 4, 4, 4, 4, 4]],
        kept: LOCKED_6,
        word: Dbpos::Lost,
    },
];
