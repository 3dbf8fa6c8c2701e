//! Pairs of small stations that are compared.
use ilk_base::Kind;
use test_stations::Drawing;

// A bay with an earthing switch and an infeed at one node.
pub(crate) static JOINED: Drawing = Drawing {
    parts: &["S/V1/Q1"],
    nodes: &["S/V1/Q1/a"],
    switches: &[
        ("QC9", Kind::Earthing, 0, 0, None),
        ("E1", Kind::Infeed, 0, 0, None),
    ],
    links: &[],
    taps: &[(0, 0)],
};

// The same with a disconnector between them.
pub(crate) static PARTED: Drawing = Drawing {
    parts: &["S/V1/Q1"],
    nodes: &["S/V1/Q1/a", "S/V1/Q1/b"],
    switches: &[
        ("QC9", Kind::Earthing, 0, 0, None),
        ("E1", Kind::Infeed, 0, 1, None),
        ("QB1", Kind::Disconnector, 0, 0, Some(1)),
    ],
    links: &[],
    taps: &[(0, 1)],
};

// An earthing switch alone in its bay, and a second bay that feeds its node over a disconnector.
pub(crate) static FED: Drawing = Drawing {
    parts: &["S/V1/Q1", "S/V1/Q2"],
    nodes: &["S/V1/Q1/n1", "S/V1/Q2/b"],
    switches: &[
        ("QC9", Kind::Earthing, 0, 0, None),
        ("QB1", Kind::Disconnector, 1, 0, Some(1)),
        ("E1", Kind::Infeed, 1, 1, None),
    ],
    links: &[],
    taps: &[(1, 1)],
};

// The two feeders, a second busbar behind a disconnector, and a third feeder on it.
pub(crate) static LENGTHENED: Drawing = Drawing {
    parts: &[
        "S/V1/W1", "S/V1/W2", "S/V1/KS", "S/V1/Q1", "S/V1/Q2", "S/V1/Q3",
    ],
    nodes: &[
        "S/V1/W1/B",
        "S/V1/W2/B",
        "S/V1/Q1/n1",
        "S/V1/Q1/n2",
        "S/V1/Q1/n3",
        "S/V1/Q2/n1",
        "S/V1/Q2/n2",
        "S/V1/Q2/n3",
        "S/V1/Q3/n1",
        "S/V1/Q3/n2",
        "S/V1/Q3/n3",
    ],
    switches: &[
        ("QB1", Kind::Disconnector, 2, 0, Some(1)),
        ("QB1", Kind::Disconnector, 3, 0, Some(2)),
        ("QA1", Kind::Breaker, 3, 2, Some(3)),
        ("QB9", Kind::Disconnector, 3, 3, Some(4)),
        ("QC9", Kind::Earthing, 3, 4, None),
        ("E1", Kind::Infeed, 3, 4, None),
        ("QB1", Kind::Disconnector, 4, 0, Some(5)),
        ("QA1", Kind::Breaker, 4, 5, Some(6)),
        ("QB9", Kind::Disconnector, 4, 6, Some(7)),
        ("QC9", Kind::Earthing, 4, 7, None),
        ("E1", Kind::Infeed, 4, 7, None),
        ("QB1", Kind::Disconnector, 5, 1, Some(8)),
        ("QA1", Kind::Breaker, 5, 8, Some(9)),
        ("QB9", Kind::Disconnector, 5, 9, Some(10)),
        ("QC9", Kind::Earthing, 5, 10, None),
        ("E1", Kind::Infeed, 5, 10, None),
    ],
    links: &[],
    taps: &[(3, 4), (4, 7), (5, 10)],
};

// A busbar with three feeders of four switches each.
pub(crate) static WHOLE: Drawing = Drawing {
    parts: &["S/V1/W1", "S/V1/Q1", "S/V1/Q2", "S/V1/Q3"],
    nodes: &[
        "S/V1/W1/B",
        "S/V1/Q1/n1",
        "S/V1/Q1/n3",
        "S/V1/Q2/n1",
        "S/V1/Q2/n3",
        "S/V1/Q3/n1",
        "S/V1/Q3/n3",
    ],
    switches: &[
        ("QB1", Kind::Disconnector, 1, 0, Some(1)),
        ("QA1", Kind::Breaker, 1, 1, Some(2)),
        ("QC9", Kind::Earthing, 1, 2, None),
        ("E1", Kind::Infeed, 1, 2, None),
        ("QB1", Kind::Disconnector, 2, 0, Some(3)),
        ("QA1", Kind::Breaker, 2, 3, Some(4)),
        ("QC9", Kind::Earthing, 2, 4, None),
        ("E1", Kind::Infeed, 2, 4, None),
        ("QB1", Kind::Disconnector, 3, 0, Some(5)),
        ("QA1", Kind::Breaker, 3, 5, Some(6)),
        ("QC9", Kind::Earthing, 3, 6, None),
        ("E1", Kind::Infeed, 3, 6, None),
    ],
    links: &[],
    taps: &[(1, 2), (2, 4), (3, 6)],
};

// The same with the busbar cut by a disconnector behind the first feeder.
pub(crate) static CUT: Drawing = Drawing {
    parts: &[
        "S/V1/W1", "S/V1/W2", "S/V1/KS", "S/V1/Q1", "S/V1/Q2", "S/V1/Q3",
    ],
    nodes: &[
        "S/V1/W1/B",
        "S/V1/W2/B",
        "S/V1/Q1/n1",
        "S/V1/Q1/n3",
        "S/V1/Q2/n1",
        "S/V1/Q2/n3",
        "S/V1/Q3/n1",
        "S/V1/Q3/n3",
    ],
    switches: &[
        ("QB1", Kind::Disconnector, 2, 0, Some(1)),
        ("QB1", Kind::Disconnector, 3, 0, Some(2)),
        ("QA1", Kind::Breaker, 3, 2, Some(3)),
        ("QC9", Kind::Earthing, 3, 3, None),
        ("E1", Kind::Infeed, 3, 3, None),
        ("QB1", Kind::Disconnector, 4, 1, Some(4)),
        ("QA1", Kind::Breaker, 4, 4, Some(5)),
        ("QC9", Kind::Earthing, 4, 5, None),
        ("E1", Kind::Infeed, 4, 5, None),
        ("QB1", Kind::Disconnector, 5, 1, Some(6)),
        ("QA1", Kind::Breaker, 5, 6, Some(7)),
        ("QC9", Kind::Earthing, 5, 7, None),
        ("E1", Kind::Infeed, 5, 7, None),
    ],
    links: &[],
    taps: &[(3, 3), (4, 5), (5, 7)],
};
