//! What is live and what is earthed in one vector, by the classes of what is joined.
ghost use Rattle.std.specs.Prelude.{◌≡◌, ◌<◌, ◌↔◌, ℕ, true, false, Some, length, replicate, slice_get, slice_index};
ghost use Rattle.std.specs.Prelude.{IfOk, IsTrue};
ghost use Rattle.station_graph.specs.Alike.{IsVector};
ghost use Rattle.station_graph.specs.Diagram.{node_count, IsStation};
ghost use Rattle.station_graph.specs.Connection.{Touching};
ghost use Rattle.station_graph.specs.Classes.{LabelsLeast};
ghost use Rattle.station_graph.specs.Marking.{Marks};
ghost use Rattle.station_graph.specs.Supply.{Live};
ghost use Rattle.central_rules.specs.InClass.{ClosedInClass};
ghost use Rattle.station_state.specs.State.{Earthed};
ghost use Rattle.station_state.specs.Marked.{ClosedUnder, IsMarked, IsSupply};

use central_rules::labels;
use ilk_base::{Kind, Memory, NodeId, SwitchId};
use station_graph::{NodeList, Station, Vector};
use std::alloc::Global;

// Of one vector: a label for each node, the same at two nodes exactly where they are joined, and which
// labels have a closed infeed, and which a closed earthing switch.
#[derive(Drop)]
pub(crate) struct Supply<'a> {
    station: &'a Station,
    vector: Vector,
    labels: NodeList,
    fed: Vec<bool>,
    earthed: Vec<bool>,
}

fn mark(label: NodeId, marks: &mut [bool])
    requires { label.0 < length marks.old }
    ensures { Marks (λ l. label.0 ≡ l) marks.old marks.new }
{
    marks[usize::from(label.0)] = true;
}

// Marks the labels of the nodes at which a closed switch of this kind stands.
fn mark_classes(
    station: &Station,
    vector: &Vector,
    kind: Kind,
    labels: &NodeList,
    marks: &mut [bool],
)
    requires vector { IsVector station.now vector.now }
    requires labels { LabelsLeast (Touching false station.now vector.now) (node_count station.now) labels.now }
    requires marks { length marks.old ≡ node_count station.now }
    ensures { Marks (ClosedUnder station.now vector.now kind labels.now (length station.now.switches))
        marks.old marks.new }
{
    for i in 0..station.switch_count() {
        let switch = station.switch(SwitchId(i));
        let closed = vector.closed(SwitchId(i));
        if switch.kind == kind && closed {
            mark(labels.get(usize::from(switch.first.0)), marks);
        }
    }
}

fn unmarked(alloc: Global, count: u16) -> Result<Vec<bool>, Memory>
    ensures { IfOk result (λ m. m.items ≡ replicate count false) }
{
    Ok(vec![in alloc; false; usize::from(count)]?)
}

// Which labels have a closed switch of this kind.
fn classes_with(
    alloc: Global,
    station: &Station,
    vector: &Vector,
    kind: Kind,
    labels: &NodeList,
) -> Result<Vec<bool>, Memory>
    requires vector { IsVector station.now vector.now }
    requires labels { LabelsLeast (Touching false station.now vector.now) (node_count station.now) labels.now }
    ensures { IfOk result (λ marks. IsMarked station.now vector.now kind labels.now marks.items) }
{
    let mut marks = unmarked(alloc, station.node_count())?;
    mark_classes(station, vector, kind, labels, &mut marks);
    Ok(marks)
}

// Whether the label of the node is marked.
fn is_marked(labels: &NodeList, marks: &[bool], node: NodeId) -> bool
    requires node { node.0 < length labels.now }
    requires label { slice_index labels.now node.0 < length marks.now }
    ensures { IsTrue result ↔ (slice_get marks.now (slice_index labels.now node.0) ≡ Some true) }
{
    marks[usize::from(labels.get(usize::from(node.0)).0)]
}

impl<'a> Supply<'a> {
    // The supply in this vector. Time: that of `labels`, and twice the switches. Memory: the nodes.
    pub(crate) fn new(
        alloc: Global,
        station: &'a Station,
        vector: Vector,
    ) -> Result<Supply<'a>, Memory>
        requires { IsVector station.now vector }
        ensures is { IfOk result IsSupply }
        ensures of { IfOk result (λ s. (s.station.now ≡ station.now) × (s.vector ≡ vector)) }
    {
        let labels = labels(alloc, station, &vector, false)?;
        let fed = classes_with(alloc, station, &vector, Kind::Infeed, &labels)?;
        let earthed = classes_with(alloc, station, &vector, Kind::Earthing, &labels)?;
        Ok(Supply {
            station,
            vector,
            labels,
            fed,
            earthed,
        })
    }

    // Whether the node is live, at once.
    pub(crate) fn is_live(&self, node: NodeId) -> bool
        requires supply { IsSupply self.now }
        requires node { node.0 < node_count self.now.station.now }
        ensures { IsTrue result ↔ Live self.now.station.now self.now.vector node.0 }
    {
        let _nodes = self.station.node_count();
        is_marked(&self.labels, &self.fed, node)
    }

    // Whether the node is earthed, at once.
    pub(crate) fn is_earthed(&self, node: NodeId) -> bool
        requires supply { IsSupply self.now }
        requires node { node.0 < node_count self.now.station.now }
        ensures { IsTrue result ↔ Earthed self.now.station.now self.now.vector node.0 }
    {
        let _nodes = self.station.node_count();
        is_marked(&self.labels, &self.earthed, node)
    }
}
