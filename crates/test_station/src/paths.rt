//! The paths of a station: given back, and found.
use ilk_base::{BayId, NodeId, SwitchId};
use station_graph::Station;
use std::alloc::Global;
use test_stations::{Example, StationRow, drawing_of, rows_hold};

// The paths of the switches of a drawing, in order.
struct SwitchPaths {
    drawing: Example,
    paths: &'static [&'static str],
}

const SWITCH_PATHS: &[SwitchPaths] = &[
    SwitchPaths {
        drawing: Example::TwoFeeders,
        paths: &[
            "S/V1/Q1/QB1",
            "S/V1/Q1/QA1",
            "S/V1/Q1/QB9",
            "S/V1/Q1/QC9",
            "S/V1/Q1/E1",
            "S/V1/Q2/QB1",
            "S/V1/Q2/QA1",
            "S/V1/Q2/QB9",
            "S/V1/Q2/QC9",
            "S/V1/Q2/E1",
        ],
    },
    SwitchPaths {
        drawing: Example::BareStub,
        paths: &["S/V1/Q1/QB1", "S/V1/Q1/QB2", "S/V1/Q1/E1"],
    },
    SwitchPaths {
        drawing: Example::TwoTransformers,
        paths: &["S/V1/Q1/QB1", "S/V1/Q1/E1"],
    },
];

// Whether each switch has its path and is found by it.
fn has_switches(station: &Station, paths: &[&str]) -> bool {
    if paths.len() != usize::from(station.switch_count()) {
        return false;
    }
    for i in 0..station.switch_count() {
        let path = paths[i as usize];
        if station.switch_path(SwitchId(i)) != path
            || station.find_switch(path) != Some(SwitchId(i))
        {
            return false;
        }
    }
    true
}

// Whether each node has the path with which it was added.
fn has_nodes(station: &Station, paths: &[&str]) -> bool {
    if paths.len() != usize::from(station.node_count()) {
        return false;
    }
    for i in 0..station.node_count() {
        if station.node_path(NodeId(i)) != paths[i as usize] {
            return false;
        }
    }
    true
}

// Whether each part has the path with which it was added.
fn has_parts(station: &Station, paths: &[&str]) -> bool {
    if paths.len() != usize::from(station.part_count()) {
        return false;
    }
    for i in 0..station.part_count() {
        if station.part_path(BayId(i as u8)) != paths[i as usize] {
            return false;
        }
    }
    true
}

impl StationRow for SwitchPaths {
    fn example(&self) -> Example {
        self.drawing
    }

    fn holds(&self, _alloc: Global, station: &Station) -> bool {
        let drawing = drawing_of(self.drawing);
        has_switches(station, self.paths)
            && has_nodes(station, drawing.nodes)
            && has_parts(station, drawing.parts)
    }
}

#[test]
fn paths_are_given_back(rt: HostRuntime) {
    assert!(rt; rows_hold(rt.alloc(), SWITCH_PATHS));
}

// A path on a drawing, and the switch and the bay that have it.
struct PathRow {
    drawing: Example,
    path: &'static str,
    switch: Option<u16>,
    bay: Option<u8>,
}

// On the two feeders: both bays, the busbar, which is a part without switches, a switch, and paths of
// nothing, of a node, of a front of a part and of a switch without its part. On the bare stub: the busbar, and the bay.
const PATHS: &[PathRow] = &[
    PathRow {
        drawing: Example::TwoFeeders,
        path: "S/V1/Q1",
        switch: None,
        bay: Some(1),
    },
    PathRow {
        drawing: Example::TwoFeeders,
        path: "S/V1/Q2",
        switch: None,
        bay: Some(2),
    },
    PathRow {
        drawing: Example::TwoFeeders,
        path: "S/V1/W1",
        switch: None,
        bay: None,
    },
    PathRow {
        drawing: Example::TwoFeeders,
        path: "S/V1/Q2/QC9",
        switch: Some(8),
        bay: None,
    },
    PathRow {
        drawing: Example::TwoFeeders,
        path: "S/V1/Q3",
        switch: None,
        bay: None,
    },
    PathRow {
        drawing: Example::TwoFeeders,
        path: "S/V1/Q1/n1",
        switch: None,
        bay: None,
    },
    PathRow {
        drawing: Example::TwoFeeders,
        path: "S/V1/Q",
        switch: None,
        bay: None,
    },
    PathRow {
        drawing: Example::TwoFeeders,
        path: "QB1",
        switch: None,
        bay: None,
    },
    PathRow {
        drawing: Example::TwoFeeders,
        path: "",
        switch: None,
        bay: None,
    },
    PathRow {
        drawing: Example::BareStub,
        path: "S/V1/W1",
        switch: None,
        bay: None,
    },
    PathRow {
        drawing: Example::BareStub,
        path: "S/V1/Q1",
        switch: None,
        bay: Some(1),
    },
];

impl StationRow for PathRow {
    fn example(&self) -> Example {
        self.drawing
    }

    fn holds(&self, _alloc: Global, station: &Station) -> bool {
        station.find_switch(self.path) == self.switch.map(SwitchId)
            && station.find_bay(self.path) == self.bay.map(BayId)
    }
}

#[test]
fn paths_are_found(rt: HostRuntime) {
    assert!(rt; rows_hold(rt.alloc(), PATHS));
}
