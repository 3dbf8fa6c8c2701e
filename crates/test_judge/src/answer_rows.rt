//! What contractions of small stations answer, worked by hand.
use crate::composed::Items;
use contraction::Supply;
use test_stations::Example;

// Two kept nodes, and whether they are coupled, joined and bonded.
pub(crate) type Pair = (u16, u16, bool, bool, bool);

// A kept node, whether it is energisable and earthable, and its supply.
pub(crate) type Single = (u16, bool, bool, Supply);

// What the contraction of these items in these positions answers on these nodes.
pub(crate) struct AnswerRow {
    pub(crate) drawing: Example,
    pub(crate) items: Items,
    pub(crate) closed: &'static [u8],
    pub(crate) kept: &'static [u16],
    pub(crate) pairs: &'static [Pair],
    pub(crate) singles: &'static [Single],
}

// The feeders have on the busbar: the infeed behind an open breaker, the earthing switch behind it, both;
// through, with neither, with each and with both; nothing where the busbar disconnector or the line
// disconnector is open. Then the busbar and the end of the line together.
pub(crate) const FEEDERS: &[AnswerRow] = &[
    AnswerRow {
        drawing: Example::TwoFeeders,
        items: Items::Part(1),
        closed: b"1010100000",
        kept: &[0],
        pairs: &[(0, 0, true, true, true)],
        singles: &[(0, true, false, Supply::Bare)],
    },
    AnswerRow {
        drawing: Example::TwoFeeders,
        items: Items::Part(1),
        closed: b"1011000000",
        kept: &[0],
        pairs: &[],
        singles: &[(0, false, true, Supply::Bare)],
    },
    AnswerRow {
        drawing: Example::TwoFeeders,
        items: Items::Part(1),
        closed: b"1011100000",
        kept: &[0],
        pairs: &[],
        singles: &[(0, true, true, Supply::Bare)],
    },
    AnswerRow {
        drawing: Example::TwoFeeders,
        items: Items::Part(1),
        closed: b"1110000000",
        kept: &[0],
        pairs: &[],
        singles: &[(0, false, false, Supply::Tapped)],
    },
    AnswerRow {
        drawing: Example::TwoFeeders,
        items: Items::Part(2),
        closed: b"0000011101",
        kept: &[0],
        pairs: &[],
        singles: &[(0, true, false, Supply::Fed)],
    },
    AnswerRow {
        drawing: Example::TwoFeeders,
        items: Items::Part(2),
        closed: b"1111111110",
        kept: &[0],
        pairs: &[],
        singles: &[(0, false, true, Supply::Tapped)],
    },
    AnswerRow {
        drawing: Example::TwoFeeders,
        items: Items::Part(2),
        closed: b"0000011111",
        kept: &[0],
        pairs: &[],
        singles: &[(0, true, true, Supply::Fed)],
    },
    AnswerRow {
        drawing: Example::TwoFeeders,
        items: Items::Part(1),
        closed: b"0111111111",
        kept: &[0],
        pairs: &[],
        singles: &[(0, false, false, Supply::Bare)],
    },
    AnswerRow {
        drawing: Example::TwoFeeders,
        items: Items::Part(1),
        closed: b"1101111111",
        kept: &[0],
        pairs: &[],
        singles: &[(0, false, false, Supply::Bare)],
    },
    AnswerRow {
        drawing: Example::TwoFeeders,
        items: Items::Part(1),
        closed: b"1010100000",
        kept: &[0, 3],
        pairs: &[(0, 3, true, false, false), (3, 0, true, false, false)],
        singles: &[
            (0, true, false, Supply::Bare),
            (3, true, false, Supply::Fed),
        ],
    },
    AnswerRow {
        drawing: Example::TwoFeeders,
        items: Items::Part(1),
        closed: b"1111000000",
        kept: &[3, 0],
        pairs: &[(0, 3, true, true, true)],
        singles: &[
            (0, false, true, Supply::Tapped),
            (3, false, true, Supply::Tapped),
        ],
    },
    AnswerRow {
        drawing: Example::TwoFeeders,
        items: Items::Part(1),
        closed: b"0111100000",
        kept: &[0, 3],
        pairs: &[(0, 3, false, false, false)],
        singles: &[
            (0, false, false, Supply::Bare),
            (3, true, true, Supply::Fed),
        ],
    },
];

// The fed busbar and the stub: both disconnectors open, one of them closed, and one closed with the infeed
// off.
pub(crate) const STUB: &[AnswerRow] = &[
    AnswerRow {
        drawing: Example::BareStub,
        items: Items::Part(1),
        closed: b"001",
        kept: &[0, 1],
        pairs: &[(0, 1, false, false, false)],
        singles: &[
            (0, true, false, Supply::Fed),
            (1, false, false, Supply::Bare),
        ],
    },
    AnswerRow {
        drawing: Example::BareStub,
        items: Items::Part(1),
        closed: b"011",
        kept: &[0, 1],
        pairs: &[(0, 1, true, true, true)],
        singles: &[(0, true, false, Supply::Fed), (1, true, false, Supply::Fed)],
    },
    AnswerRow {
        drawing: Example::BareStub,
        items: Items::Part(1),
        closed: b"100",
        kept: &[0, 1],
        pairs: &[(0, 1, true, true, true)],
        singles: &[
            (0, false, false, Supply::Tapped),
            (1, false, false, Supply::Tapped),
        ],
    },
];

// The bay between the two busbars: the infeed on, the disconnector closed too, and it alone. A transformer
// joins its nodes without bonding them. All items together: the busbars are joined by way of the
// transformers, and bonded only where the disconnector is closed.
pub(crate) const TRANSFORMERS: &[AnswerRow] = &[
    AnswerRow {
        drawing: Example::TwoTransformers,
        items: Items::Part(4),
        closed: b"01",
        kept: &[0, 1],
        pairs: &[(0, 1, false, false, false)],
        singles: &[
            (0, true, false, Supply::Fed),
            (1, false, false, Supply::Bare),
        ],
    },
    AnswerRow {
        drawing: Example::TwoTransformers,
        items: Items::Part(4),
        closed: b"11",
        kept: &[0, 1],
        pairs: &[(0, 1, true, true, true)],
        singles: &[(0, true, false, Supply::Fed), (1, true, false, Supply::Fed)],
    },
    AnswerRow {
        drawing: Example::TwoTransformers,
        items: Items::Part(4),
        closed: b"10",
        kept: &[0, 1],
        pairs: &[(0, 1, true, true, true)],
        singles: &[
            (0, false, false, Supply::Tapped),
            (1, false, false, Supply::Tapped),
        ],
    },
    AnswerRow {
        drawing: Example::TwoTransformers,
        items: Items::Part(1),
        closed: b"11",
        kept: &[1, 2],
        pairs: &[(1, 2, true, true, false)],
        singles: &[
            (1, false, false, Supply::Tapped),
            (2, false, false, Supply::Tapped),
        ],
    },
    AnswerRow {
        drawing: Example::TwoTransformers,
        items: Items::All,
        closed: b"01",
        kept: &[0, 1],
        pairs: &[(0, 1, true, true, false)],
        singles: &[(0, true, false, Supply::Fed), (1, true, false, Supply::Fed)],
    },
    AnswerRow {
        drawing: Example::TwoTransformers,
        items: Items::All,
        closed: b"11",
        kept: &[0, 1, 2],
        pairs: &[
            (0, 1, true, true, true),
            (0, 2, true, true, false),
            (1, 2, true, true, false),
        ],
        singles: &[(2, true, false, Supply::Fed)],
    },
];
