//! What the readers of a station answer.
use ilk_base::{BayId, Kind, NodeId, SwitchId};
use station_graph::{Classes, Link, Station, Switch, Tap};
use std::alloc::Global;
use test_stations::{Example, StationRow, rows_hold};

// A part, its first switch and how many it has, and the nodes that it shares.
struct PartRow {
    drawing: Example,
    part: u8,
    switches: (u16, u16),
    shared: &'static [u16],
}

// The busbar of the two feeders has no item, and so none of its own to share; the feeders share its node.
// On the bare stub no other part has an item. The transformers share a busbar of each voltage.
const PARTS: &[PartRow] = &[
    PartRow {
        drawing: Example::TwoFeeders,
        part: 0,
        switches: (0, 0),
        shared: &[],
    },
    PartRow {
        drawing: Example::TwoFeeders,
        part: 1,
        switches: (0, 5),
        shared: &[0],
    },
    PartRow {
        drawing: Example::TwoFeeders,
        part: 2,
        switches: (5, 5),
        shared: &[0],
    },
    PartRow {
        drawing: Example::BareStub,
        part: 0,
        switches: (0, 0),
        shared: &[],
    },
    PartRow {
        drawing: Example::BareStub,
        part: 1,
        switches: (0, 3),
        shared: &[],
    },
    PartRow {
        drawing: Example::TwoTransformers,
        part: 0,
        switches: (0, 0),
        shared: &[0, 2],
    },
    PartRow {
        drawing: Example::TwoTransformers,
        part: 1,
        switches: (0, 0),
        shared: &[1, 2],
    },
    PartRow {
        drawing: Example::TwoTransformers,
        part: 2,
        switches: (0, 0),
        shared: &[],
    },
    PartRow {
        drawing: Example::TwoTransformers,
        part: 4,
        switches: (0, 2),
        shared: &[0, 1],
    },
    PartRow {
        drawing: Example::TwoTransformers,
        part: 5,
        switches: (2, 0),
        shared: &[],
    },
];

// Whether the part shares these nodes.
fn shares(alloc: Global, station: &Station, part: u8, numbers: &[u16]) -> bool {
    match station.shared_nodes(alloc, BayId(part)) {
        Ok(nodes) => nodes.numbers() == numbers && nodes.is_empty() == numbers.is_empty(),
        Err(_) => false,
    }
}

impl StationRow for PartRow {
    fn example(&self) -> Example {
        self.drawing
    }

    fn holds(&self, alloc: Global, station: &Station) -> bool {
        let (first, count) = station.switches_of(BayId(self.part));
        (first.0, count) == self.switches && shares(alloc, station, self.part, self.shared)
    }
}

#[test]
fn parts_have_their_switches_and_nodes(rt: HostRuntime) {
    assert!(rt; rows_hold(rt.alloc(), PARTS));
}

// The first switch, and the last link and tap, of the two transformers.
enum Item {
    FirstSwitch(Switch),
    LastLink(Link),
    LastTap(Tap),
}

impl StationRow for Item {
    fn example(&self) -> Example {
        Example::TwoTransformers
    }

    fn holds(&self, _alloc: Global, station: &Station) -> bool {
        match self {
            Item::FirstSwitch(item) => {
                station.switch_count() == 2 && station.switch(SwitchId(0)) == *item
            }
            Item::LastLink(item) => station.link_count() == 2 && station.link(1) == *item,
            Item::LastTap(item) => station.tap_count() == 5 && station.tap(4) == *item,
        }
    }
}

const ITEMS: &[Item] = &[
    Item::FirstSwitch(Switch {
        kind: Kind::Disconnector,
        first: NodeId(0),
        second: Some(NodeId(1)),
        bay: BayId(4),
    }),
    Item::LastLink(Link {
        first: NodeId(1),
        second: NodeId(2),
        bond: false,
        part: BayId(1),
    }),
    Item::LastTap(Tap {
        node: NodeId(0),
        part: BayId(4),
    }),
];

#[test]
fn items_are_given_back(rt: HostRuntime) {
    assert!(rt; rows_hold(rt.alloc(), ITEMS));
}

// Whether a class is labelled by its least number.
fn are_labelled(alloc: Global) -> bool {
    let Ok(mut classes) = Classes::alone(alloc, 3) else {
        return false;
    };
    let alone = classes.label(2);
    classes.merge(2, 1);
    classes.into_labels().numbers() == [0, 1, 1].as_slice() && alone == 2
}

#[test]
fn classes_are_labelled(rt: HostRuntime) {
    assert!(rt; are_labelled(rt.alloc()));
}
