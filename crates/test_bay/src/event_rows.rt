//! The rules of the other events.
use crate::node_rows::{
    COMMANDED, GRANTED, HIGHEST_0, HIGHEST_1, Happens, LOCKED_5, OVER_TO_2, RELEASED, Row,
};
use ilk_base::Dbpos;
use test_stations::Example;

pub(crate) const EVENTS: &[Row] = &[
    // Tick: a collected round is decided. The bay that was not heard is not looked at: opening a breaker
    // breaks no rule.
    Row {
        station: Example::TwoFeeders,
        start: HIGHEST_0,
        first: &[Happens::Sense(0, Dbpos::On), Happens::Open(1)],
        event: Happens::Tick,
        shown: b"granted 1 open S/V1/Q1/QA1\n",
        sent: &[],
        kept: &[0, 0, 0, 1, 0, 0, 0, 0, 0, 0, 1, 0, 0, 0, 1, 0, 1, 0],
        word: Dbpos::On,
    },
    // Tick: the holder of the lock is asked.
    Row {
        station: Example::TwoFeeders,
        start: LOCKED_5,
        first: &[],
        event: Happens::Tick,
        shown: b"",
        sent: &[&[4, 1, 2, 0, 0, 0, 5, 0, 0]],
        kept: LOCKED_5,
        word: Dbpos::Lost,
    },
    // Tick: nothing is open.
    Row {
        station: Example::TwoFeeders,
        start: HIGHEST_0,
        first: &[],
        event: Happens::Tick,
        shown: b"",
        sent: &[],
        kept: HIGHEST_0,
        word: Dbpos::Lost,
    },
    // Sense: the wanted end.
    Row {
        station: Example::TwoFeeders,
        start: HIGHEST_0,
        first: RELEASED,
        event: Happens::Sense(0, Dbpos::On),
        shown: b"finished 1\n",
        sent: &[OVER_TO_2],
        kept: HIGHEST_1,
        word: Dbpos::On,
    },
    // Sense: not the wanted end.
    Row {
        station: Example::TwoFeeders,
        start: HIGHEST_0,
        first: RELEASED,
        event: Happens::Sense(0, Dbpos::Off),
        shown: b"",
        sent: &[],
        kept: GRANTED,
        word: Dbpos::Off,
    },
    // Sense: another switch.
    Row {
        station: Example::TwoFeeders,
        start: HIGHEST_0,
        first: RELEASED,
        event: Happens::Sense(1, Dbpos::On),
        shown: b"",
        sent: &[],
        kept: GRANTED,
        word: Dbpos::Lost,
    },
    // Withdraw: a round is collected.
    Row {
        station: Example::TwoFeeders,
        start: HIGHEST_0,
        first: COMMANDED,
        event: Happens::Withdraw,
        shown: b"withdrawn 1\n",
        sent: &[OVER_TO_2],
        kept: HIGHEST_1,
        word: Dbpos::Off,
    },
    // Withdraw: an operation is granted; the word of its switch is lost.
    Row {
        station: Example::TwoFeeders,
        start: GRANTED,
        first: &[Happens::Sense(0, Dbpos::Off)],
        event: Happens::Withdraw,
        shown: b"withdrawn 1\n",
        sent: &[OVER_TO_2],
        kept: HIGHEST_1,
        word: Dbpos::Lost,
    },
    // Withdraw: no round is under way.
    Row {
        station: Example::TwoFeeders,
        start: LOCKED_5,
        first: &[],
        event: Happens::Withdraw,
        shown: b"",
        sent: &[],
        kept: LOCKED_5,
        word: Dbpos::Lost,
    },
    // Cut: the switch of the granted operation; its word is lost.
    Row {
        station: Example::TwoFeeders,
        start: GRANTED,
        first: &[Happens::Sense(0, Dbpos::Intermediate)],
        event: Happens::Cut(0),
        shown: b"stopped 1\n",
        sent: &[OVER_TO_2],
        kept: HIGHEST_1,
        word: Dbpos::Lost,
    },
    // Cut: another switch.
    Row {
        station: Example::TwoFeeders,
        start: GRANTED,
        first: &[],
        event: Happens::Cut(1),
        shown: b"",
        sent: &[],
        kept: GRANTED,
        word: Dbpos::Lost,
    },
    // Restart: words and the collected round are lost.
    Row {
        station: Example::TwoFeeders,
        start: HIGHEST_0,
        first: COMMANDED,
        event: Happens::Restart,
        shown: b"",
        sent: &[],
        kept: HIGHEST_1,
        word: Dbpos::Lost,
    },
    // Restart: a lock stays.
    Row {
        station: Example::TwoFeeders,
        start: LOCKED_5,
        first: &[Happens::Sense(0, Dbpos::On)],
        event: Happens::Restart,
        shown: b"",
        sent: &[],
        kept: LOCKED_5,
        word: Dbpos::Lost,
    },
];
