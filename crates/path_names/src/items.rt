//! The table of the switches and nodes of a station, and the numbers of their paths in it.
ghost use Rattle.std.specs.Prelude.{◌≡◌, ◌<◌, ◌++◌, [], length, slice_get, slice_index_or, Some, IfOk, OnOk};
ghost use Rattle.station_graph.specs.Diagram.{node_count, node_path, switch_path};
ghost use Rattle.path_names.specs.Tables.{paths_of_items};

use ilk_base::{Memory, NodeId, SwitchId, Text};
use station_graph::Station;
use station_names::switch_names;
use std::alloc::Global;

// The path of a node as a text.
fn path_text(alloc: Global, station: &Station, node: NodeId) -> Result<Text, Memory>
    requires { node.0 < node_count station.now }
    ensures { IfOk result (λ t. slice_get station.now.node_paths node.0 ≡ Some t) }
{
    let mut text = Text::new(alloc);
    text.push(station.node_path(node).as_bytes())?;
    Ok(text)
}

// Appends the paths of the nodes.
#[tactic(auto, using(crate::proofs::Taking::one_more))]
fn append_nodes(alloc: Global, names: &mut Vec<Text>, station: &Station) -> Result<(), Memory>
    ensures { OnOk result (names.new.items ≡ names.old.items ++ station.now.node_paths) }
{
    for n in 0..station.node_count() {
        let path = path_text(alloc, station, NodeId(n))?;
        names.push(path)?;
    }
    Ok(())
}

/// The paths of the switches of a station in document order, and behind them those of its nodes, as the names of a text.
/// Time and memory: the paths, at most 64 MiB.
pub fn item_paths(alloc: Global, station: &Station) -> Result<Vec<Text>, Memory>
    ensures { IfOk result (λ v. v.items ≡ paths_of_items station.now) }
{
    let mut names = switch_names(alloc, station)?;
    append_nodes(alloc, &mut names, station)?;
    Ok(names)
}

/// The number of the path of a switch among those of `item_paths`. At once, as that of a node.
#[tactic(auto, using(crate::proofs::Places::item_switch_place))]
pub fn item_switch_name(station: &Station, id: SwitchId) -> u16
    requires { id.0 < length station.now.switches }
    ensures { slice_index_or (paths_of_items station.now) result [] ≡ switch_path station.now id.0 }
{
    station.is_station();
    id.0
}

/// That of the path of a node.
pub fn item_node_name(station: &Station, node: NodeId) -> u16
    requires { node.0 < node_count station.now }
    ensures { slice_index_or (paths_of_items station.now) result [] ≡ node_path station.now node.0 }
{
    station.switch_count() + node.0
}
