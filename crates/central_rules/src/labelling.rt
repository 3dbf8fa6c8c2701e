//! Labels of nodes.
ghost use Rattle.std.specs.Prelude.{◌≡◌, ◌↔◌, true, length, IfOk, IsTrue};
ghost use Rattle.station_graph.specs.Diagram.{node_count};
ghost use Rattle.station_graph.specs.Connection.{Touching};
ghost use Rattle.station_graph.specs.Classes.{LabelsLeast};
ghost use Rattle.station_graph.specs.Alike.{IsVector};

use ilk_base::{Memory, SwitchId};
use station_graph::{Classes, Link, NodeList, Station, Vector};
use std::alloc::Global;

/// For each node the least node that is joined to it: to which closed breakers, closed disconnectors
/// and links lead. With `bonds_only` those links alone count that are bonds. Time: the nodes, the
/// switches and the links, and the nodes once more for each two classes that become one. Memory: the
/// nodes.
pub fn labels(
    alloc: Global,
    station: &Station,
    vector: &Vector,
    bonds_only: bool,
) -> Result<NodeList, Memory>
    requires { IsVector station.now vector.now }
    ensures { IfOk result
        (LabelsLeast (Touching bonds_only station.now vector.now) (node_count station.now)) }
{
    let mut classes = Classes::alone(alloc, station.node_count())?;
    'switches: for i in 0..station.switch_count() {
        if vector.closed(SwitchId(i)) {
            let switch = station.switch(SwitchId(i));
            if let Some(second) = switch.second {
                classes.merge(switch.first.0, second.0);
            }
        }
    }
    'links: for i in 0..station.link_count() {
        let link = station.link(i);
        if counts(link, bonds_only) {
            classes.merge(link.first.0, link.second.0);
        }
    }
    Ok(classes.into_labels())
}

// Whether a link counts, where bonds alone may count.
fn counts(link: Link, bonds_only: bool) -> bool
    ensures { IsTrue result ↔ (bonds_only ≡ true → link.bond ≡ true) }
{
    link.bond || !bonds_only
}
