//! Records written out by hand, by the table of the format.
use bay_protocol::{Grant, Kept, Lock};
use ilk_base::{BayId, Direction, Op, SwitchId};

// What is kept before anything happens.
const NOTHING: Kept = Kept {
    highest: 0,
    lock: None,
    granted: None,
};

// Records in bytes, and what each says.
const RECORDS: &[([u8; 18], Kept)] = &[
    ([0; 18], NOTHING),
    (
        [0, 0, 0, 0, 1, 1, 0, 0, 0, 1, 0, 0, 0, 0, 0, 0, 0, 0],
        Kept {
            highest: 0,
            lock: Some(Lock {
                holder: BayId(1),
                round: 1,
            }),
            granted: None,
        },
    ),
    (
        [0, 0, 0, 1, 0, 0, 0, 0, 0, 0, 1, 0, 0, 0, 1, 0, 3, 0],
        Kept {
            highest: 1,
            lock: None,
            granted: Some(Grant {
                round: 1,
                op: Op {
                    switch: SwitchId(3),
                    direction: Direction::ToOff,
                },
            }),
        },
    ),
    (
        [1, 2, 3, 4, 1, 255, 5, 6, 7, 8, 1, 9, 10, 11, 12, 1, 2, 1],
        Kept {
            highest: 0x0102_0304,
            lock: Some(Lock {
                holder: BayId(255),
                round: 0x0506_0708,
            }),
            granted: Some(Grant {
                round: 0x090a_0b0c,
                op: Op {
                    switch: SwitchId(258),
                    direction: Direction::ToOn,
                },
            }),
        },
    ),
];

// Whether each record is written so, and read again.
fn are_records(rows: &[([u8; 18], Kept)]) -> bool {
    for (bytes, kept) in rows {
        if kept.to_bytes() != *bytes || Kept::from_bytes(bytes) != Some(*kept) {
            return false;
        }
    }
    true
}

#[test]
fn records_both_ways(rt: HostRuntime) {
    assert!(rt; are_records(RECORDS));
}

// A second mark of a lock, a holder without a lock, a second mark of a grant, a switch without a grant, and a
// third direction.
const NO_RECORDS: &[[u8; 18]] = &[
    [0, 0, 0, 0, 2, 1, 0, 0, 0, 1, 0, 0, 0, 0, 0, 0, 0, 0],
    [0, 0, 0, 0, 0, 1, 0, 0, 0, 0, 0, 0, 0, 0, 0, 0, 0, 0],
    [0, 0, 0, 1, 0, 0, 0, 0, 0, 0, 2, 0, 0, 0, 1, 0, 3, 0],
    [0, 0, 0, 1, 0, 0, 0, 0, 0, 0, 0, 0, 0, 0, 0, 0, 3, 0],
    [0, 0, 0, 1, 0, 0, 0, 0, 0, 0, 1, 0, 0, 0, 1, 0, 3, 2],
];

// Whether none of these is a record.
fn are_none(rows: &[[u8; 18]]) -> bool {
    for bytes in rows {
        if Kept::from_bytes(bytes).is_some() {
            return false;
        }
    }
    true
}

#[test]
fn no_records(rt: HostRuntime) {
    assert!(rt; are_none(NO_RECORDS));
}
