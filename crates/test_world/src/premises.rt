//! Events that break a premise. Each changes nothing: what comes later is as if it had not happened.
use crate::stories::{CLOSED, Happens, Line, OVER, Says, Story, TO_GRANT};
use ilk_base::Dbpos;

pub(crate) const PREMISES: &[Story] = &[
    // At first no message was sent, no drive runs, and no operation is open; and during an operation its drive
    // runs but once, and is not taken back.
    Story {
        closed: CLOSED,
        parts: &[
            &[
                Line(Happens::Begin(0), Says::Premise(3)),
                Line(Happens::Sense(0, Dbpos::On), Says::Premise(2)),
                Line(Happens::End(0), Says::Premise(4)),
                Line(Happens::Deliver(0), Says::Premise(6)),
                Line(Happens::Deliver(1), Says::Premise(6)),
                Line(Happens::Part(1, 64), Says::Premise(6)),
                Line(Happens::Cut(0), Says::Premise(7)),
            ],
            TO_GRANT,
            &[
                Line(Happens::Begin(1), Says::Premise(3)),
                Line(Happens::Begin(0), Says::Drive),
                Line(Happens::Begin(0), Says::Premise(3)),
                Line(Happens::Withdraw(1), Says::Premise(5)),
                Line(Happens::Sense(0, Dbpos::Off), Says::Premise(2)),
                Line(Happens::Sense(0, Dbpos::Intermediate), Says::Quiet(1, 3)),
                Line(Happens::End(0), Says::Drive),
                Line(Happens::Begin(0), Says::Premise(3)),
                Line(
                    Happens::Withdraw(1),
                    Says::Shows(1, 3, b"withdrawn 1\n", &[OVER]),
                ),
            ],
        ],
    },
    // A switch that has stopped is at neither end, and its drive does not run.
    Story {
        closed: CLOSED,
        parts: &[
            TO_GRANT,
            &[
                Line(Happens::Begin(0), Says::Drive),
                Line(Happens::Cut(0), Says::Shows(1, 3, b"stopped 1\n", &[OVER])),
                Line(Happens::Sense(0, Dbpos::On), Says::Premise(2)),
                Line(Happens::End(0), Says::Premise(4)),
                Line(Happens::Cut(0), Says::Premise(7)),
            ],
        ],
    },
];
