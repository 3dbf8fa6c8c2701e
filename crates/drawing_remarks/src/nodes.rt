//! Remarks on the station that is read: tests of its items at a node.
ghost use Rattle.std.specs.Prelude.{◌≡◌, ◌==◌, ◌≤◌, ◌||◌, count_by, if◌then◌else◌};
ghost use Rattle.std.specs.List.{list_any};
ghost use Rattle.drawing_remarks.specs.Station.{same_kind, is_of_kind, has_no_switch, has_no_infeed, gap_ends, link_ends};
ghost use Rattle.drawing_remarks.specs.Station.{items_ending, is_earthed_by, is_tap_at, is_end};
ghost use Rattle.drawing_remarks.specs.StationText.{of_kind, bonds_in, links_in};

use ilk_base::{Kind, SwitchId};
use station_graph::{Link, Station, Switch, Tap};

// One where the test passes, and else none.
pub(crate) fn one_if(test: bool) -> u32
    ensures value { result ≡ (if test then 1 else 0) }
    ensures few { result ≤ 1 }
{
    if test { 1 } else { 0 }
}

// Whether one of the two tests passes.
pub(crate) fn either(first: bool, second: bool) -> bool
    ensures { result ≡ (first || second) }
{
    first || second
}

// Whether two kinds are the same.
fn same_kind(a: Kind, b: Kind) -> bool
    ensures { result ≡ same_kind a b }
{
    match a {
        Kind::Breaker => matches!(b, Kind::Breaker),
        Kind::Disconnector => matches!(b, Kind::Disconnector),
        Kind::Earthing => matches!(b, Kind::Earthing),
        Kind::Infeed => matches!(b, Kind::Infeed),
    }
}

// Whether a switch is of a kind.
fn is_of_kind(kind: Kind, x: Switch) -> bool
    ensures { result ≡ is_of_kind kind x }
{
    same_kind(kind, x.kind)
}

// How many switches are of a kind.
pub(crate) fn of_kind(station: &Station, kind: Kind) -> u32
    ensures { result ≡ of_kind kind station.now }
{
    let mut count = 0;
    for i in 0..station.switch_count() {
        count += one_if(is_of_kind(kind, station.switch(SwitchId(i))));
    }
    count
}

// How many links are bonds.
pub(crate) fn bonds_in(station: &Station) -> u32
    ensures { result ≡ bonds_in station.now }
{
    let mut count = 0;
    for i in 0..station.link_count() {
        count += one_if(station.link(i).bond);
    }
    count
}

// How many links are none.
pub(crate) fn links_in(station: &Station) -> u32
    ensures { result ≡ links_in station.now }
{
    let mut count = 0;
    for i in 0..station.link_count() {
        count += one_if(!station.link(i).bond);
    }
    count
}

// Whether the station has no switch.
pub(crate) fn has_no_switch(station: &Station) -> bool
    ensures { result ≡ has_no_switch station.now }
{
    station.switch_count() == 0
}

// Whether the station has no infeed.
pub(crate) fn has_no_infeed(station: &Station) -> bool
    ensures { result ≡ has_no_infeed station.now }
{
    let mut found = false;
    for i in 0..station.switch_count() {
        found = either(found, is_of_kind(Kind::Infeed, station.switch(SwitchId(i))));
    }
    !found
}

// Whether a breaker or a disconnector ends at a node.
fn gap_ends(node: u32, x: Switch) -> bool
    ensures { result ≡ gap_ends node x }
{
    match x.second {
        Some(second) => u32::from(x.first.0) == node || u32::from(second.0) == node,
        None => false,
    }
}

// Whether a link ends at a node.
fn link_ends(node: u32, x: Link) -> bool
    ensures { result ≡ link_ends node x }
{
    u32::from(x.first.0) == node || u32::from(x.second.0) == node
}

// How many breakers and disconnectors end at a node.
fn gaps_ending(station: &Station, node: u32) -> u32
    ensures value { result ≡ count_by (gap_ends node) station.now.switches }
    ensures few { result ≤ 65535 }
{
    let mut count = 0;
    for i in 0..station.switch_count() {
        count += one_if(gap_ends(node, station.switch(SwitchId(i))));
    }
    count
}

// How many links end at a node.
fn links_ending(station: &Station, node: u32) -> u32
    ensures value { result ≡ count_by (link_ends node) station.now.links }
    ensures few { result ≤ 65535 }
{
    let mut count = 0;
    for i in 0..station.link_count() {
        count += one_if(link_ends(node, station.link(i)));
    }
    count
}

// Whether a switch is an earthing switch at a node.
fn is_earthed_by(node: u32, x: Switch) -> bool
    ensures { result ≡ is_earthed_by node x }
{
    is_of_kind(Kind::Earthing, x) && u32::from(x.first.0) == node
}

// Whether a tap stands at a node.
fn is_tap_at(node: u32, x: Tap) -> bool
    ensures { result ≡ is_tap_at node x }
{
    u32::from(x.node.0) == node
}

// Whether some earthing switch stands at a node.
fn is_earthed(station: &Station, node: u32) -> bool
    ensures { result ≡ list_any (is_earthed_by node) station.now.switches }
{
    let mut found = false;
    for i in 0..station.switch_count() {
        found = either(found, is_earthed_by(node, station.switch(SwitchId(i))));
    }
    found
}

// Whether some tap stands at a node.
fn has_tap(station: &Station, node: u32) -> bool
    ensures { result ≡ list_any (is_tap_at node) station.now.taps }
{
    let mut found = false;
    for i in 0..station.tap_count() {
        found = either(found, is_tap_at(node, station.tap(i)));
    }
    found
}

// Whether one item ends at a node, with neither tap nor earthing switch there.
pub(crate) fn is_end(station: &Station, node: u32) -> bool
    ensures { result ≡ is_end station.now node }
{
    let ending = gaps_ending(station, node) + links_ending(station, node);
    ending == 1 && !is_earthed(station, node) && !has_tap(station, node)
}
