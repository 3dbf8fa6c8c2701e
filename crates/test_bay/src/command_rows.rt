//! The rules of a command.
use crate::node_rows::{COMMANDED, GRANTED, HIGHEST_0, HIGHEST_1, Happens, LAST, LOCKED_5, Row};
use ilk_base::Dbpos;
use test_stations::Example;

pub(crate) const COMMANDS: &[Row] = &[
    // Command: a round is under way.
    Row {
        station: Example::TwoFeeders,
        start: HIGHEST_0,
        first: COMMANDED,
        event: Happens::Close(0),
        shown: b"underway 1\n",
        sent: &[],
        kept: HIGHEST_1,
        word: Dbpos::Off,
    },
    // Command: the granted operation has not ended.
    Row {
        station: Example::TwoFeeders,
        start: GRANTED,
        first: &[],
        event: Happens::Open(1),
        shown: b"underway 1\n",
        sent: &[],
        kept: GRANTED,
        word: Dbpos::Lost,
    },
    // Command: another bay holds the lock.
    Row {
        station: Example::TwoFeeders,
        start: LOCKED_5,
        first: &[],
        event: Happens::Close(0),
        shown: b"held 2 round 5\n",
        sent: &[],
        kept: LOCKED_5,
        word: Dbpos::Lost,
    },
    // Command: by the own word the switch is there; an open one can be closed.
    Row {
        station: Example::TwoFeeders,
        start: HIGHEST_0,
        first: &[Happens::Sense(0, Dbpos::On)],
        event: Happens::Close(0),
        shown: b"there\n",
        sent: &[],
        kept: HIGHEST_0,
        word: Dbpos::On,
    },
    // Command: the last round is used.
    Row {
        station: Example::TwoFeeders,
        start: LAST,
        first: &[],
        event: Happens::Close(0),
        shown: b"spent\n",
        sent: &[],
        kept: LAST,
        word: Dbpos::Lost,
    },
    // Command: a round opens, and the other bay is asked.
    Row {
        station: Example::TwoFeeders,
        start: HIGHEST_0,
        first: &[],
        event: Happens::Close(0),
        shown: b"collecting 1\n",
        sent: &[&[1, 1, 2, 0, 0, 0, 1, 0, 0]],
        kept: HIGHEST_1,
        word: Dbpos::Lost,
    },
    // Command: with no others the node decides at once; the disconnectors bond each other's ends.
    Row {
        station: Example::BareStub,
        start: HIGHEST_0,
        first: &[Happens::Sense(1, Dbpos::On)],
        event: Happens::Close(0),
        shown: b"granted 1 close S/V1/Q1/QB1\n",
        sent: &[],
        kept: GRANTED,
        word: Dbpos::Lost,
    },
];
