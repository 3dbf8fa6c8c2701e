//! Operations from the command to the end.
use crate::stories::{
    ANSWER, ANSWER_2, CLOSED, COLLECTING, Happens, Line, OVER, OVER_2, RESERVE, RESERVE_2,
    RESERVE_BACK, Says, Story, TO_END, TO_GRANT,
};
use ilk_base::Dbpos;

pub(crate) const OPERATIONS: &[Story] = &[
    // A switch is closed.
    Story {
        closed: CLOSED,
        parts: &[TO_GRANT, TO_END],
    },
    // The answer is late: the bay decides without it, and the other may stand anyhow.
    Story {
        closed: CLOSED,
        parts: &[&[
            Line(Happens::Close(0), COLLECTING),
            Line(Happens::Deliver(1), Says::Shows(2, 2, b"", &[ANSWER])),
            Line(
                Happens::Tick(1),
                Says::Shows(
                    1,
                    3,
                    b"denied 1 R2 close S/V1/Q1/QB1\nwith S/V1/Q1/QB9\nwith S/V1/Q2/QB1\nwith S/V1/Q2/QB9\n\
                        with S/V1/Q2/QC9\nwith S/V1/Q2/E1\n",
                    &[OVER],
                ),
            ),
            Line(Happens::Deliver(3), Says::Quiet(2, 4)),
        ]],
    },
    // The same for an operation that breaks no rule however the other bay stands.
    Story {
        closed: &[0, 2, 5, 6, 7, 9],
        parts: &[&[
            Line(
                Happens::Open(0),
                Says::Shows(1, 1, b"collecting 1\n", &[RESERVE]),
            ),
            Line(Happens::Deliver(1), Says::Shows(2, 2, b"", &[ANSWER])),
            Line(
                Happens::Tick(1),
                Says::Shows(1, 3, b"granted 1 open S/V1/Q1/QB1\n", &[]),
            ),
        ]],
    },
    // Two bays begin a round each, and each finds the other busy.
    Story {
        closed: CLOSED,
        parts: &[&[
            Line(Happens::Close(0), COLLECTING),
            Line(
                Happens::Open(5),
                Says::Shows(2, 2, b"collecting 1\n", &[RESERVE_BACK]),
            ),
            Line(
                Happens::Deliver(1),
                Says::Shows(2, 3, b"", &[&[3, 2, 1, 0, 0, 0, 1, 0, 5, 2, 0, 0, 0, 1]]),
            ),
            Line(
                Happens::Deliver(2),
                Says::Shows(1, 4, b"", &[&[3, 1, 2, 0, 0, 0, 1, 0, 5, 1, 0, 0, 0, 1]]),
            ),
            Line(
                Happens::Deliver(3),
                Says::Shows(1, 5, b"busy 1 from 2 holder 2 round 1\n", &[OVER]),
            ),
            Line(
                Happens::Deliver(4),
                Says::Shows(
                    2,
                    6,
                    b"busy 1 from 1 holder 1 round 1\n",
                    &[&[5, 2, 1, 0, 0, 0, 1, 0, 0]],
                ),
            ),
            Line(Happens::Deliver(5), Says::Quiet(2, 7)),
        ]],
    },
    // The drive stops on its way, and the switch is moved back by a new command.
    Story {
        closed: CLOSED,
        parts: &[
            TO_GRANT,
            &[
                Line(Happens::Begin(0), Says::Drive),
                Line(Happens::Cut(0), Says::Shows(1, 3, b"stopped 1\n", &[OVER])),
                Line(
                    Happens::Open(0),
                    Says::Shows(1, 4, b"collecting 2\n", &[RESERVE_2]),
                ),
                Line(Happens::Deliver(3), Says::Quiet(2, 5)),
                Line(Happens::Deliver(4), Says::Shows(2, 5, b"", &[ANSWER_2])),
                Line(
                    Happens::Deliver(5),
                    Says::Shows(1, 6, b"granted 2 open S/V1/Q1/QB1\n", &[]),
                ),
                Line(Happens::Begin(0), Says::Drive),
                Line(Happens::End(0), Says::Drive),
                Line(
                    Happens::Sense(0, Dbpos::Off),
                    Says::Shows(1, 6, b"finished 2\n", &[OVER_2]),
                ),
                Line(Happens::Deliver(6), Says::Quiet(2, 7)),
            ],
        ],
    },
];
