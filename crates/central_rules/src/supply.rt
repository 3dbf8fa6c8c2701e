//! What is live, loaded, energisable and earthable, by labels.
ghost use Rattle.std.specs.Prelude.{◌≡◌, ◌<◌, ◌↔◌, false, length, IsTrue, IfOk};
ghost use Rattle.std.specs.Bool.{OnTrue, OnFalse};
ghost use Rattle.station_graph.specs.Connection.{Touching, with_breakers_closed};
ghost use Rattle.station_graph.specs.Supply.{Live, Quiet, Energisable, Earthable};
ghost use Rattle.station_graph.specs.Classes.{LabelsLeast};
ghost use Rattle.station_graph.specs.Diagram.{node_count, IsStation};
ghost use Rattle.central_rules.specs.InClass.{ClosedInClass, TapInClass};
ghost use Rattle.station_graph.specs.Alike.{IsVector};

use crate::labelling::labels;
use ilk_base::{Kind, Memory, NodeId, SwitchId};
use station_graph::{NodeList, Station, Vector};
use std::alloc::Global;

// Whether a closed switch of this kind stands in the class of the node.
pub(crate) fn closed_in_class(
    station: &Station,
    vector: &Vector,
    kind: Kind,
    labels: &NodeList,
    node: NodeId,
) -> bool
    requires vector { IsVector station.now vector.now }
    requires labels { length labels.now ≡ node_count station.now }
    requires node { node.0 < node_count station.now }
    ensures answer { IsTrue result
        ↔ ClosedInClass station.now vector.now kind labels.now node.0 }
    ensures station { IsStation station.now }
{
    let class = labels.get(node.0 as usize);
    for i in 0..station.switch_count() {
        let switch = station.switch(SwitchId(i));
        if switch.kind == kind
            && vector.closed(SwitchId(i))
            && labels.get(switch.first.0 as usize) == class
        {
            return true;
        }
    }
    false
}

// Whether a tap stands in the class of the node.
pub(crate) fn tap_in_class(station: &Station, labels: &NodeList, node: NodeId) -> bool
    requires labels { length labels.now ≡ node_count station.now }
    requires node { node.0 < node_count station.now }
    ensures answer { IsTrue result ↔ TapInClass station.now labels.now node.0 }
    ensures station { IsStation station.now }
{
    let class = labels.get(node.0 as usize);
    for i in 0..station.tap_count() {
        if labels.get(station.tap(i).node.0 as usize) == class {
            return true;
        }
    }
    false
}

// The labels of what is coupled: each breaker counts as closed.
pub(crate) fn coupled(alloc: Global, station: &Station, vector: &Vector) -> Result<NodeList, Memory>
    requires { IsVector station.now vector.now }
    ensures { IfOk result (LabelsLeast
        (Touching false station.now (with_breakers_closed station.now vector.now)) (node_count station.now)) }
{
    let coupling = vector.with_breakers_closed(alloc, station)?;
    labels(alloc, station, &coupling, false)
}

// Whether the node is energisable, by the labels of what is coupled.
pub(crate) fn is_energisable(
    station: &Station,
    vector: &Vector,
    coupled: &NodeList,
    node: NodeId,
) -> bool
    requires vector { IsVector station.now vector.now }
    requires node { node.0 < node_count station.now }
    requires coupled { LabelsLeast
        (Touching false station.now (with_breakers_closed station.now vector.now))
        (node_count station.now) coupled.now }
    ensures { IsTrue result ↔ Energisable station.now vector.now node.0 }
{
    closed_in_class(station, vector, Kind::Infeed, coupled, node)
}

// Whether the node is earthable, by the labels of what is coupled.
pub(crate) fn is_earthable(
    station: &Station,
    vector: &Vector,
    coupled: &NodeList,
    node: NodeId,
) -> bool
    requires vector { IsVector station.now vector.now }
    requires node { node.0 < node_count station.now }
    requires coupled { LabelsLeast
        (Touching false station.now (with_breakers_closed station.now vector.now))
        (node_count station.now) coupled.now }
    ensures { IsTrue result ↔ Earthable station.now vector.now node.0 }
{
    closed_in_class(station, vector, Kind::Earthing, coupled, node)
}

/// Whether the node is live: joined to the node of a closed infeed. `joined` are the labels of what is
/// joined in this vector. Time: the switches. Takes no memory.
pub fn is_live(station: &Station, vector: &Vector, joined: &NodeList, node: NodeId) -> bool
    requires vector { IsVector station.now vector.now }
    requires node { node.0 < node_count station.now }
    requires joined { LabelsLeast (Touching false station.now vector.now) (node_count station.now) joined.now }
    ensures { IsTrue result ↔ Live station.now vector.now node.0 }
{
    closed_in_class(station, vector, Kind::Infeed, joined, node)
}

// Whether the node is not quiet, by the labels of what is joined.
pub(crate) fn is_loaded(station: &Station, vector: &Vector, joined: &NodeList, node: NodeId) -> bool
    requires node { node.0 < node_count station.now }
    requires joined { LabelsLeast (Touching false station.now vector.now) (node_count station.now) joined.now }
    ensures loaded { OnTrue result (¬ Quiet station.now vector.now node.0) }
    ensures quiet { OnFalse result (Quiet station.now vector.now node.0) }
{
    tap_in_class(station, joined, node)
}
