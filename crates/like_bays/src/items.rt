//! Whether tables lead from one item to another that is the same at other nodes.
ghost use Rattle.std.specs.Prelude.{◌≡◌, ◌<◌, IsTrue, length};
ghost use Rattle.station_graph.specs.Diagram.{HasTap};
ghost use Rattle.release_dependence.specs.Exchange.{SecondAs, SwitchAs};
ghost use Rattle.like_bays.specs.Like.{led_by};
ghost use Rattle.like_bays.specs.Kept.{KeepsSwitch, KeepsLink, KeepsTap};

use crate::tables::Tables;
use ilk_base::{NodeId, SwitchId};
use station_graph::{Link, Station, Switch};

/// Where a table leads from a number: past its end every number stays. At once.
pub fn led_to(table: &[u16], n: u16) -> u16
    ensures { result ≡ led_by table.now n }
{
    if usize::from(n) < table.len() {
        table[usize::from(n)]
    } else {
        n
    }
}

// Whether the second end y is x, at another node.
fn is_second(nodes: &[u16], x: Option<NodeId>, y: Option<NodeId>) -> bool
    ensures { IsTrue result → SecondAs (led_by nodes.now) x y }
{
    match x {
        Some(from) => match y {
            Some(to) => to.0 == led_to(nodes, from.0),
            None => false,
        },
        None => match y {
            Some(_) => false,
            None => true,
        },
    }
}

// Whether the switch y is x, at other nodes.
fn is_switch(nodes: &[u16], x: Switch, y: Switch) -> bool
    ensures { IsTrue result → SwitchAs (led_by nodes.now) x y }
{
    y.kind == x.kind
        && y.first.0 == led_to(nodes, x.first.0)
        && is_second(nodes, x.second, y.second)
}

// Whether the tables keep a switch.
pub(crate) fn keeps_switch(station: &Station, tables: &Tables, i: u16) -> bool
    requires { i < length station.now.switches }
    ensures { IsTrue result → KeepsSwitch station.now tables.now.switches.items tables.now.nodes.items i }
{
    let to = led_to(&tables.switches, i);
    if to >= station.switch_count() {
        return false;
    }
    let x = station.switch(SwitchId(i));
    let y = station.switch(SwitchId(to));
    is_switch(&tables.nodes, x, y)
}

// Whether the link y is x, at other nodes.
fn is_link(nodes: &[u16], x: Link, y: Link) -> bool
    ensures { IsTrue result → (y.bond ≡ x.bond) × (y.first.0 ≡ led_by nodes.now x.first.0)
        × (y.second.0 ≡ led_by nodes.now x.second.0) }
{
    y.bond == x.bond
        && y.first.0 == led_to(nodes, x.first.0)
        && y.second.0 == led_to(nodes, x.second.0)
}

// Whether the tables keep a link.
pub(crate) fn keeps_link(station: &Station, tables: &Tables, i: u16) -> bool
    requires { i < length station.now.links }
    ensures { IsTrue result → KeepsLink station.now tables.now.nodes.items i }
{
    let to = led_to(&tables.links, i);
    if to >= station.link_count() {
        return false;
    }
    is_link(&tables.nodes, station.link(i), station.link(to))
}

// Whether the tables keep a tap.
pub(crate) fn keeps_tap(station: &Station, tables: &Tables, i: u16) -> bool
    requires { i < length station.now.taps }
    ensures { IsTrue result → KeepsTap station.now tables.now.nodes.items i }
{
    let to = led_to(&tables.taps, i);
    if to >= station.tap_count() {
        return false;
    }
    station.tap(to).node.0 == led_to(&tables.nodes, station.tap(i).node.0)
}
