//! What remarks on the station ask of its nodes: which are joined by links alone, and which by all items.
ghost use Rattle.std.specs.Prelude.{◌≡◌, ◌<◌, length, IfOk, replicate, true, false};
ghost use Rattle.std.specs.List.{list_any};
ghost use Rattle.station_graph.specs.Diagram.{node_count, SwitchFits};
ghost use Rattle.station_graph.specs.Classes.{LabelsLeast};
ghost use Rattle.station_graph.specs.Connection.{Touching};
ghost use Rattle.drawing_remarks.specs.Station.{all_in};
ghost use Rattle.drawing_remarks.specs.Labels.{AreFacts, gap_labelled, lone_by, apart_by};

use crate::nodes::either;
use central_rules::labels;
use ilk_base::{Memory, SwitchId};
use ssd_read::WholeDrawing;
use station_graph::{NodeList, Station, Switch, Vector};
use std::alloc::Global;

// A drawing with its station, and for each node the least node to which links alone lead, and to which all items
// lead, in whatever position they are.
#[derive(Drop)]
pub(crate) struct Facts<'a> {
    pub(crate) whole: &'a WholeDrawing<'a>,
    pub(crate) station: &'a Station,
    pub(crate) linked: NodeList,
    pub(crate) joined: NodeList,
}

// The vector in which each switch is closed.
fn all_closed(alloc: Global, station: &Station) -> Result<Vector, Memory>
    ensures { IfOk result (λ v. v ≡ replicate (length station.now.switches) true) }
{
    let mut vector = Vector::all_open(alloc, station)?;
    for i in 0..station.switch_count() {
        vector.set(SwitchId(i), true);
    }
    Ok(vector)
}

impl<'a> Facts<'a> {
    pub(crate) fn new(alloc: Global, whole: &'a WholeDrawing<'a>) -> Result<Facts<'a>, Memory>
        ensures whole { IfOk result (λ f. f.whole.now ≡ whole.now) }
        ensures facts { IfOk result AreFacts }
        ensures linked { IfOk result (λ f. LabelsLeast (Touching false f.station.now (all_in false f.station.now))
            (node_count f.station.now) f.linked) }
        ensures joined { IfOk result (λ f. LabelsLeast (Touching false f.station.now (all_in true f.station.now))
            (node_count f.station.now) f.joined) }
    {
        let station = whole.station();
        let open = Vector::all_open(alloc, station)?;
        let linked = labels(alloc, station, &open, false)?;
        let closed = all_closed(alloc, station)?;
        let joined = labels(alloc, station, &closed, false)?;
        Ok(Facts {
            whole,
            station,
            linked,
            joined,
        })
    }

    // Whether a switch with two ends has one with this label.
    fn gap_labelled(&self, label: u16, x: Switch) -> bool
        requires facts { AreFacts self.now }
        requires fits { SwitchFits self.now.station.now x }
        ensures { result ≡ gap_labelled self.now.linked label x }
    {
        let Some(second) = x.second else {
            return false;
        };
        self.linked.get(usize::from(x.first.0)).0 == label
            || self.linked.get(usize::from(second.0)).0 == label
    }

    // Whether no switch with two ends has one with a node's label.
    pub(crate) fn is_lone(&self, node: u32) -> bool
        requires facts { AreFacts self.now }
        requires node { node < node_count self.now.station.now }
        ensures { result ≡ lone_by self.now.linked self.now.station.now node }
    {
        let label = self.linked.get(node as usize).0;
        let mut found = false;
        for i in 0..self.station.switch_count() {
            found = either(
                found,
                self.gap_labelled(label, self.station.switch(SwitchId(i))),
            );
        }
        !found
    }

    // Whether a node is not the first, and is its own label.
    pub(crate) fn is_apart(&self, node: u32) -> bool
        requires facts { AreFacts self.now }
        requires node { node < node_count self.now.station.now }
        ensures { result ≡ apart_by self.now.joined node }
    {
        node > 0 && u32::from(self.joined.get(node as usize).0) == node
    }
}
