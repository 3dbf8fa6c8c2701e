//! The worked stations as tables.
use crate::drawing::Drawing;
use ilk_base::Kind;

pub(crate) static NOTHING: Drawing = Drawing {
    parts: &[],
    nodes: &[],
    switches: &[],
    links: &[],
    taps: &[],
};

// A bay with one earthing switch.
pub(crate) static ONE_EARTHED: Drawing = Drawing {
    parts: &["S/V1/Q1"],
    nodes: &["S/V1/Q1/n1"],
    switches: &[("QC9", Kind::Earthing, 0, 0, None)],
    links: &[],
    taps: &[],
};

// A bay with an earthing switch and an infeed at one node.
pub(crate) static EARTHED_LINE: Drawing = Drawing {
    parts: &["S/V1/Q1"],
    nodes: &["S/V1/Q1/a"],
    switches: &[
        ("QC9", Kind::Earthing, 0, 0, None),
        ("E1", Kind::Infeed, 0, 0, None),
    ],
    links: &[],
    taps: &[(0, 0)],
};

// A bay with thirteen infeeds at one node.
pub(crate) static THIRTEEN_LINES: Drawing = Drawing {
    parts: &["S/V1/Q1"],
    nodes: &["S/V1/Q1/a"],
    switches: &[
        ("E1", Kind::Infeed, 0, 0, None),
        ("E2", Kind::Infeed, 0, 0, None),
        ("E3", Kind::Infeed, 0, 0, None),
        ("E4", Kind::Infeed, 0, 0, None),
        ("E5", Kind::Infeed, 0, 0, None),
        ("E6", Kind::Infeed, 0, 0, None),
        ("E7", Kind::Infeed, 0, 0, None),
        ("E8", Kind::Infeed, 0, 0, None),
        ("E9", Kind::Infeed, 0, 0, None),
        ("E10", Kind::Infeed, 0, 0, None),
        ("E11", Kind::Infeed, 0, 0, None),
        ("E12", Kind::Infeed, 0, 0, None),
        ("E13", Kind::Infeed, 0, 0, None),
    ],
    links: &[],
    taps: &[(0, 0)],
};

// A busbar and two feeders: of each the busbar disconnector, the breaker, the line disconnector, the
// earthing switch and the infeed, at three nodes in a row.
pub(crate) static TWO_FEEDERS: Drawing = Drawing {
    parts: &["S/V1/W1", "S/V1/Q1", "S/V1/Q2"],
    nodes: &[
        "S/V1/W1/B",
        "S/V1/Q1/n1",
        "S/V1/Q1/n2",
        "S/V1/Q1/n3",
        "S/V1/Q2/n1",
        "S/V1/Q2/n2",
        "S/V1/Q2/n3",
    ],
    switches: &[
        ("QB1", Kind::Disconnector, 1, 0, Some(1)),
        ("QA1", Kind::Breaker, 1, 1, Some(2)),
        ("QB9", Kind::Disconnector, 1, 2, Some(3)),
        ("QC9", Kind::Earthing, 1, 3, None),
        ("E1", Kind::Infeed, 1, 3, None),
        ("QB1", Kind::Disconnector, 2, 0, Some(4)),
        ("QA1", Kind::Breaker, 2, 4, Some(5)),
        ("QB9", Kind::Disconnector, 2, 5, Some(6)),
        ("QC9", Kind::Earthing, 2, 6, None),
        ("E1", Kind::Infeed, 2, 6, None),
    ],
    links: &[],
    taps: &[(1, 3), (2, 6)],
};

// The two feeders, and a third bay of one disconnector at the busbar.
pub(crate) static THREE_BAYS: Drawing = Drawing {
    parts: &["S/V1/W1", "S/V1/Q1", "S/V1/Q2", "S/V1/Q3"],
    nodes: &[
        "S/V1/W1/B",
        "S/V1/Q1/n1",
        "S/V1/Q1/n2",
        "S/V1/Q1/n3",
        "S/V1/Q2/n1",
        "S/V1/Q2/n2",
        "S/V1/Q2/n3",
        "S/V1/Q3/n1",
    ],
    switches: &[
        ("QB1", Kind::Disconnector, 1, 0, Some(1)),
        ("QA1", Kind::Breaker, 1, 1, Some(2)),
        ("QB9", Kind::Disconnector, 1, 2, Some(3)),
        ("QC9", Kind::Earthing, 1, 3, None),
        ("E1", Kind::Infeed, 1, 3, None),
        ("QB1", Kind::Disconnector, 2, 0, Some(4)),
        ("QA1", Kind::Breaker, 2, 4, Some(5)),
        ("QB9", Kind::Disconnector, 2, 5, Some(6)),
        ("QC9", Kind::Earthing, 2, 6, None),
        ("E1", Kind::Infeed, 2, 6, None),
        ("QB1", Kind::Disconnector, 3, 0, Some(7)),
    ],
    links: &[],
    taps: &[(1, 3), (2, 6)],
};

// Two feeders, each on a busbar of its own.
pub(crate) static FEEDERS_APART: Drawing = Drawing {
    parts: &["S/V1/W1", "S/V1/W2", "S/V1/Q1", "S/V1/Q2"],
    nodes: &[
        "S/V1/W1/B",
        "S/V1/W2/B",
        "S/V1/Q1/n1",
        "S/V1/Q1/n2",
        "S/V1/Q1/n3",
        "S/V1/Q2/n1",
        "S/V1/Q2/n2",
        "S/V1/Q2/n3",
    ],
    switches: &[
        ("QB1", Kind::Disconnector, 2, 0, Some(2)),
        ("QA1", Kind::Breaker, 2, 2, Some(3)),
        ("QB9", Kind::Disconnector, 2, 3, Some(4)),
        ("QC9", Kind::Earthing, 2, 4, None),
        ("E1", Kind::Infeed, 2, 4, None),
        ("QB1", Kind::Disconnector, 3, 1, Some(5)),
        ("QA1", Kind::Breaker, 3, 5, Some(6)),
        ("QB9", Kind::Disconnector, 3, 6, Some(7)),
        ("QC9", Kind::Earthing, 3, 7, None),
        ("E1", Kind::Infeed, 3, 7, None),
    ],
    links: &[],
    taps: &[(2, 4), (3, 7)],
};

// A fed busbar and a stub on it by two disconnectors in parallel.
pub(crate) static BARE_STUB: Drawing = Drawing {
    parts: &["S/V1/W1", "S/V1/Q1"],
    nodes: &["S/V1/W1/B", "S/V1/Q1/s"],
    switches: &[
        ("QB1", Kind::Disconnector, 1, 0, Some(1)),
        ("QB2", Kind::Disconnector, 1, 0, Some(1)),
        ("E1", Kind::Infeed, 1, 0, None),
    ],
    links: &[],
    taps: &[(1, 0)],
};

// Two busbars of one voltage with a disconnector between them, each with a transformer to the same
// busbar of another voltage.
pub(crate) static TWO_TRANSFORMERS: Drawing = Drawing {
    parts: &["S/T1", "S/T2", "S/V1/W1", "S/V1/W2", "S/V1/Q1", "S/V2/W1"],
    nodes: &["S/V1/W1/H", "S/V1/W2/H", "S/V2/W1/L"],
    switches: &[
        ("QB1", Kind::Disconnector, 4, 0, Some(1)),
        ("E1", Kind::Infeed, 4, 0, None),
    ],
    links: &[(0, 0, 2), (1, 1, 2)],
    taps: &[(0, 0), (0, 2), (1, 1), (1, 2), (4, 0)],
};

// Two busbars, a coupler between them, and two feeders with a disconnector to each busbar.
pub(crate) static TWO_BUSBARS: Drawing = Drawing {
    parts: &["S/V1/W1", "S/V1/W2", "S/V1/K0", "S/V1/Q1", "S/V1/Q2"],
    nodes: &[
        "S/V1/W1/B",
        "S/V1/W2/B",
        "S/V1/K0/k1",
        "S/V1/K0/k2",
        "S/V1/Q1/n1",
        "S/V1/Q1/n2",
        "S/V1/Q1/n3",
        "S/V1/Q2/n1",
        "S/V1/Q2/n2",
        "S/V1/Q2/n3",
    ],
    switches: &[
        ("QB1", Kind::Disconnector, 2, 0, Some(2)),
        ("QA1", Kind::Breaker, 2, 2, Some(3)),
        ("QB2", Kind::Disconnector, 2, 3, Some(1)),
        ("QB1", Kind::Disconnector, 3, 0, Some(4)),
        ("QB2", Kind::Disconnector, 3, 1, Some(4)),
        ("QA1", Kind::Breaker, 3, 4, Some(5)),
        ("QB9", Kind::Disconnector, 3, 5, Some(6)),
        ("QC9", Kind::Earthing, 3, 6, None),
        ("E1", Kind::Infeed, 3, 6, None),
        ("QB1", Kind::Disconnector, 4, 0, Some(7)),
        ("QB2", Kind::Disconnector, 4, 1, Some(7)),
        ("QA1", Kind::Breaker, 4, 7, Some(8)),
        ("QB9", Kind::Disconnector, 4, 8, Some(9)),
        ("QC9", Kind::Earthing, 4, 9, None),
        ("E1", Kind::Infeed, 4, 9, None),
    ],
    links: &[],
    taps: &[(3, 6), (4, 9)],
};

// Two bays, each with an earthing switch at each of the same eight nodes.
pub(crate) static EIGHT_EARTHED: Drawing = Drawing {
    parts: &["S/V1/Q1", "S/V1/Q2"],
    nodes: &[
        "S/V1/Q1/a1",
        "S/V1/Q1/a2",
        "S/V1/Q1/a3",
        "S/V1/Q1/a4",
        "S/V1/Q1/a5",
        "S/V1/Q1/a6",
        "S/V1/Q1/a7",
        "S/V1/Q1/a8",
    ],
    switches: &[
        ("QC1", Kind::Earthing, 0, 0, None),
        ("QC2", Kind::Earthing, 0, 1, None),
        ("QC3", Kind::Earthing, 0, 2, None),
        ("QC4", Kind::Earthing, 0, 3, None),
        ("QC5", Kind::Earthing, 0, 4, None),
        ("QC6", Kind::Earthing, 0, 5, None),
        ("QC7", Kind::Earthing, 0, 6, None),
        ("QC8", Kind::Earthing, 0, 7, None),
        ("QC1", Kind::Earthing, 1, 0, None),
        ("QC2", Kind::Earthing, 1, 1, None),
        ("QC3", Kind::Earthing, 1, 2, None),
        ("QC4", Kind::Earthing, 1, 3, None),
        ("QC5", Kind::Earthing, 1, 4, None),
        ("QC6", Kind::Earthing, 1, 5, None),
        ("QC7", Kind::Earthing, 1, 6, None),
        ("QC8", Kind::Earthing, 1, 7, None),
    ],
    links: &[],
    taps: &[],
};
