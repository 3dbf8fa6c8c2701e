//! The stations for which drawings stand.
use crate::drawings::{
    Drawn, LINE_BAY, LinkRow, ONE_BUSBAR, STUB, SwitchRow, TRANSFORMERS, TWO_BUSBARS,
};
use crate::exported::EXPORTED;
use ilk_base::{BayId, NodeId, SwitchId};
use ssd_read::read_ssd;
use station_graph::{Link, Station, Switch, Tap};
use std::alloc::Global;
use std::test::Fail;

fn has_switches(station: &Station, rows: &[SwitchRow]) -> bool {
    if station.switch_count() as usize != rows.len() {
        return false;
    }
    for i in 0..station.switch_count() {
        let (kind, first, second, part, path) = rows[i as usize];
        let item = Switch {
            kind,
            first: NodeId(first),
            second: second.map(NodeId),
            bay: BayId(part),
        };
        if station.switch(SwitchId(i)) != item || station.switch_path(SwitchId(i)) != path {
            return false;
        }
    }
    true
}

fn has_links(station: &Station, rows: &[LinkRow]) -> bool {
    if station.link_count() as usize != rows.len() {
        return false;
    }
    for i in 0..station.link_count() {
        let (first, second, bond, part) = rows[i as usize];
        let item = Link {
            first: NodeId(first),
            second: NodeId(second),
            bond,
            part: BayId(part),
        };
        if station.link(i) != item {
            return false;
        }
    }
    true
}

fn has_taps(station: &Station, rows: &[(u16, u8)]) -> bool {
    if station.tap_count() as usize != rows.len() {
        return false;
    }
    for i in 0..station.tap_count() {
        let (node, part) = rows[i as usize];
        let item = Tap {
            node: NodeId(node),
            part: BayId(part),
        };
        if station.tap(i) != item {
            return false;
        }
    }
    true
}

// Whether a text stands for a station with these switches, links and taps.
fn is_drawn(alloc: Global, text: &str, drawn: &Drawn) -> bool {
    match read_ssd(alloc, text.as_bytes()) {
        Ok(station) => {
            has_switches(&station, drawn.switches)
                && has_links(&station, drawn.links)
                && has_taps(&station, drawn.taps)
        }
        Err(_) => false,
    }
}

// Which of the drawings. Tests name them so, and do not hold them whole.
#[derive(Clone, Copy)]
enum Example {
    OneBusbar,
    TwoBusbars,
    Stub,
    Transformers,
    LineBay,
    Exported,
}

// What is drawn.
fn drawn_of(example: Example) -> &'static Drawn {
    match example {
        Example::OneBusbar => &ONE_BUSBAR,
        Example::TwoBusbars => &TWO_BUSBARS,
        Example::Stub => &STUB,
        Example::Transformers => &TRANSFORMERS,
        Example::LineBay => &LINE_BAY,
        Example::Exported => &EXPORTED,
    }
}

// All of them.
const EXAMPLES: &[Example] = &[
    Example::OneBusbar,
    Example::TwoBusbars,
    Example::Stub,
    Example::Transformers,
    Example::LineBay,
    Example::Exported,
];

// Whether each text stands for its station.
fn are_drawn(alloc: Global, examples: &[Example]) -> bool {
    for example in examples {
        let drawn = drawn_of(*example);
        if !is_drawn(alloc, drawn.text, drawn) {
            return false;
        }
    }
    true
}

#[test]
fn stations(rt: HostRuntime) {
    assert!(rt; are_drawn(rt.alloc(), EXAMPLES));
}

// The same file with the line ends of another system.
#[test]
fn line_ends(rt: HostRuntime) -> Result<(), Fail> {
    let text = LINE_BAY.text.replace(rt.alloc(), "\n", "\r\n")?;
    assert!(rt; is_drawn(rt.alloc(), text.as_str(), &LINE_BAY));
    Ok(())
}

const KEYED: &str = r#"<SCL><Substation name="S"><VoltageLevel name="V"><Bay name="Q">
<ConnectivityNode name="a" pathName="k"/><PowerTransformer name="T"/>
</Bay></VoltageLevel></Substation></SCL>"#;

// The path of the only part and that of the only node, where there is one of each.
fn paths_of(station: &Station) -> Option<(&str, &str)> {
    if station.part_count() != 1 || station.node_count() != 1 {
        return None;
    }
    Some((station.part_path(BayId(0)), station.node_path(NodeId(0))))
}

// Whether the only part and the only node of a drawing have these paths.
fn has_paths(alloc: Global, text: &str, part: &str, node: &str) -> bool {
    match read_ssd(alloc, text.as_bytes()) {
        Ok(station) => paths_of(&station) == Some((part, node)),
        Err(_) => false,
    }
}

// The paths of parts and nodes are those of their elements, and not their keys.
#[test]
fn paths(rt: HostRuntime) {
    assert!(rt; has_paths(rt.alloc(), KEYED, "S/V/Q", "S/V/Q/a"));
}
