//! Messages that come again or cut short, and bays that start again.
use crate::stories::{
    ANSWER, ANSWER_LOST, CLOSED, COLLECTING, FINISHED, GRANTED, Happens, Line, OVER, RESERVE_2,
    RESERVE_BACK, Says, Story, TO_END, TO_GRANT,
};
use ilk_base::Dbpos;

pub(crate) const INTERRUPTIONS: &[Story] = &[
    // Both bays start again during an operation. Then the Reserve comes once more, finds the other bay free and
    // without words, and the lock that it leaves is given up after a question.
    Story {
        closed: CLOSED,
        parts: &[
            TO_GRANT,
            &[
                Line(Happens::Restart(1), Says::Quiet(1, 3)),
                Line(Happens::Close(1), Says::Shows(1, 3, b"underway 1\n", &[])),
                Line(Happens::Restart(2), Says::Quiet(2, 3)),
                Line(
                    Happens::Open(6),
                    Says::Shows(2, 3, b"held 1 round 1\n", &[]),
                ),
                Line(Happens::Begin(0), Says::Drive),
                Line(Happens::End(0), Says::Drive),
                Line(Happens::Sense(0, Dbpos::On), FINISHED),
                Line(Happens::Deliver(3), Says::Quiet(2, 4)),
                Line(Happens::Deliver(1), Says::Shows(2, 4, b"", &[ANSWER_LOST])),
                Line(Happens::Deliver(2), Says::Quiet(1, 5)),
                Line(
                    Happens::Tick(2),
                    Says::Shows(2, 5, b"", &[&[4, 2, 1, 0, 0, 0, 1, 0, 0]]),
                ),
                Line(Happens::Deliver(5), Says::Shows(1, 6, b"", &[OVER])),
                Line(Happens::Deliver(6), Says::Quiet(2, 7)),
                Line(
                    Happens::Open(6),
                    Says::Shows(2, 7, b"collecting 1\n", &[RESERVE_BACK]),
                ),
            ],
        ],
    },
    // The bay starts again before its answer comes: the round is forgotten.
    Story {
        closed: CLOSED,
        parts: &[&[
            Line(Happens::Close(0), COLLECTING),
            Line(Happens::Restart(1), Says::Quiet(1, 2)),
            Line(Happens::Deliver(1), Says::Shows(2, 2, b"", &[ANSWER])),
            Line(Happens::Deliver(2), Says::Quiet(1, 3)),
            Line(Happens::Begin(0), Says::Premise(3)),
        ]],
    },
    // The other bay starts again before it answers, and tells nothing.
    Story {
        closed: CLOSED,
        parts: &[&[
            Line(Happens::Close(0), COLLECTING),
            Line(Happens::Restart(2), Says::Quiet(2, 2)),
            Line(Happens::Deliver(1), Says::Shows(2, 2, b"", &[ANSWER_LOST])),
            Line(
                Happens::Deliver(2),
                Says::Shows(
                    1,
                    3,
                    b"denied 1 R2 close S/V1/Q1/QB1\nwith S/V1/Q1/QB9\nwith S/V1/Q2/QB1\nwith S/V1/Q2/QB9\n\
                        with S/V1/Q2/QC9\nwith S/V1/Q2/E1\n",
                    &[OVER],
                ),
            ),
            Line(Happens::Begin(0), Says::Premise(3)),
        ]],
    },
    // It starts again after its answer, and fronts of frames come: nothing is lost.
    Story {
        closed: CLOSED,
        parts: &[
            &[
                Line(Happens::Close(0), COLLECTING),
                Line(Happens::Part(1, 8), Says::Quiet(2, 2)),
                Line(Happens::Deliver(1), Says::Shows(2, 2, b"", &[ANSWER])),
                Line(Happens::Restart(2), Says::Quiet(2, 3)),
                Line(Happens::Part(2, 64), Says::Quiet(1, 3)),
                Line(Happens::Deliver(2), GRANTED),
            ],
            TO_END,
        ],
    },
    // All messages come once more after the end.
    Story {
        closed: CLOSED,
        parts: &[
            TO_GRANT,
            TO_END,
            &[
                Line(Happens::Deliver(1), Says::Shows(2, 4, b"", &[ANSWER])),
                Line(Happens::Deliver(2), Says::Quiet(1, 5)),
                Line(Happens::Deliver(3), Says::Quiet(2, 5)),
            ],
        ],
    },
    // The answer of an earlier round does not count in the next.
    Story {
        closed: CLOSED,
        parts: &[
            TO_GRANT,
            TO_END,
            &[
                Line(
                    Happens::Close(1),
                    Says::Shows(1, 4, b"collecting 2\n", &[RESERVE_2]),
                ),
                Line(Happens::Deliver(2), Says::Quiet(1, 5)),
                Line(
                    Happens::Tick(1),
                    Says::Shows(
                        1,
                        5,
                        b"denied 2 R2 close S/V1/Q1/QA1\nwith S/V1/Q1/QB1\nwith S/V1/Q1/QB9\nwith S/V1/Q2/QB1\n\
                            with S/V1/Q2/QB9\nwith S/V1/Q2/QC9\nwith S/V1/Q2/E1\n",
                        &[&[5, 1, 2, 0, 0, 0, 2, 0, 0]],
                    ),
                ),
            ],
        ],
    },
];
