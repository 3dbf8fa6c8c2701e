//! The device between two neighbouring nodes of a way.
ghost use Rattle.std.specs.Prelude.{◌≡◌, ◌<◌, ◌↔◌, false, length, IsTrue, IfSome, IfNone, Some};
ghost use Rattle.ilk_base.specs.declared.words.NodeId.{NodeId as Node};
ghost use Rattle.station_graph.specs.Alike.{IsVector};
ghost use Rattle.station_graph.specs.Connection.{AreEnds, ClosedBetween, LinkBetween, Touching};
ghost use Rattle.why_text.specs.Devices.{DeviceFits, IsDevice, IsFirstClosed, IsFirstLink, NoLink, NoneClosed};

use crate::device::Device;
use ilk_base::{NodeId, SwitchId};
use station_graph::{Station, Vector};

// Whether a and b are these two ends, in either order.
fn are_ends(first: NodeId, second: NodeId, a: NodeId, b: NodeId) -> bool
    ensures { IsTrue result ↔ AreEnds first.0 second.0 a.0 b.0 }
{
    (a == first && b == second) || (a == second && b == first)
}

// Whether a and b are these two ends, where there is a second.
fn has_ends(first: NodeId, second: Option<NodeId>, a: NodeId, b: NodeId) -> bool
    ensures { IsTrue result ↔ ((other : Node) × (second ≡ Some other) × AreEnds first.0 other.0 a.0 b.0) }
{
    match second {
        Some(other) => are_ends(first, other, a, b),
        None => false,
    }
}

// Whether the switch is a breaker or disconnector with these ends that is closed.
fn is_closed_between(station: &Station, vector: &Vector, id: SwitchId, a: NodeId, b: NodeId) -> bool
    requires vector { IsVector station.now vector.now }
    requires id { id.0 < length station.now.switches }
    ensures { IsTrue result ↔ ClosedBetween station.now vector.now id.0 a.0 b.0 }
{
    let switch = station.switch(id);
    let closed = vector.closed(id);
    closed && has_ends(switch.first, switch.second, a, b)
}

// Whether the link has these ends.
fn is_link_between(station: &Station, i: u16, a: NodeId, b: NodeId) -> bool
    requires { i < length station.now.links }
    ensures { IsTrue result ↔ LinkBetween station.now false i a.0 b.0 }
{
    let link = station.link(i);
    are_ends(link.first, link.second, a, b)
}

// The first breaker or disconnector with these ends that is closed.
fn first_closed(station: &Station, vector: &Vector, a: NodeId, b: NodeId) -> Option<SwitchId>
    requires { IsVector station.now vector.now }
    ensures first { IfSome result (λ id. IsFirstClosed station.now vector.now a.0 b.0 id.0) }
    ensures within { IfSome result (λ id. id.0 < length station.now.switches) }
    ensures none { IfNone result (NoneClosed station.now vector.now a.0 b.0) }
{
    for i in 0..station.switch_count() {
        if is_closed_between(station, vector, SwitchId(i), a, b) {
            return Some(SwitchId(i));
        }
    }
    None
}

// The first link with these ends.
fn first_link(station: &Station, a: NodeId, b: NodeId) -> Option<u16>
    ensures first { IfSome result (IsFirstLink station.now a.0 b.0) }
    ensures within { IfSome result (λ i. i < length station.now.links) }
    ensures none { IfNone result (NoLink station.now a.0 b.0) }
{
    for i in 0..station.link_count() {
        if is_link_between(station, i, a, b) {
            return Some(i);
        }
    }
    None
}

// What joins two nodes where these positions count, of which each closed switch is closed in `vector` or a breaker. Time:
// the switches and the links.
pub(crate) fn device_between(
    station: &Station,
    vector: &Vector,
    counted: &Vector,
    a: NodeId,
    b: NodeId,
) -> Device
    requires vector { IsVector station.now vector.now }
    requires counted { IsVector station.now counted.now }
    requires joined { Touching false station.now counted.now a.0 b.0 }
    ensures device { IsDevice station.now vector.now counted.now a.0 b.0 result }
    ensures fits { DeviceFits station.now result }
{
    if let Some(id) = first_closed(station, vector, a, b) {
        return Device::Closed(id);
    }
    if let Some(i) = first_link(station, a, b) {
        return Device::Link(i);
    }
    if let Some(id) = first_closed(station, counted, a, b) {
        return Device::Open(id);
    }
    unreachable!()
}
