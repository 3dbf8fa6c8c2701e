//! The state of each node.
ghost use Rattle.std.specs.Prelude.{◌≡◌, ◌<◌, ℕ, length, slice_get, Some, IfOk};
ghost use Rattle.station_graph.specs.Diagram.{node_count};
ghost use Rattle.station_graph.specs.Supply.{Live};
ghost use Rattle.double_points.specs.Words.{AreWords};
ghost use Rattle.station_state.specs.State.{AreStates, Earthed, Between, AreBetween};
ghost use Rattle.station_state.specs.Marked.{IsSupply};

use crate::certainty::{NodeState, certainty_of};
use crate::extremes::extreme;
use crate::supply::Supply;
use double_points::Readings;
use ilk_base::{Memory, NodeId};
use station_graph::Station;
use std::alloc::Global;
use std::marker::Model;

/// The states of all nodes of a station, seen as the list of them.
#[derive(Drop)]
pub struct NodeStates {
    states: Vec<NodeState>,
}

impl Model for NodeStates {
    ghost use Rattle.std.specs.Prelude.{List};
    ghost use Rattle.station_state.specs.declared.certainty.NodeState.{NodeState};

    ghost Value = { List NodeState };

    ghost view = { λ s. s.states.items };
}

impl NodeStates {
    /// The state of the node, at once.
    pub fn state(&self, node: NodeId) -> NodeState
        requires { node.0 < length self.now }
        ensures { slice_get self.now node.0 ≡ Some result }
    {
        self.states[usize::from(node.0)]
    }
}

// The state of a node, by the least and the greatest reading.
fn state_of(least: &Supply<'_>, greatest: &Supply<'_>, node: NodeId) -> NodeState
    requires least { IsSupply least.now }
    requires greatest { IsSupply greatest.now }
    requires in_least { node.0 < node_count least.now.station.now }
    requires in_greatest { node.0 < node_count greatest.now.station.now }
    ensures live { Between (Live least.now.station.now least.now.vector node.0)
        (Live greatest.now.station.now greatest.now.vector node.0) result.live }
    ensures earthed { Between (Earthed least.now.station.now least.now.vector node.0)
        (Earthed greatest.now.station.now greatest.now.vector node.0) result.earthed }
{
    NodeState {
        live: certainty_of(least.is_live(node), greatest.is_live(node)),
        earthed: certainty_of(least.is_earthed(node), greatest.is_earthed(node)),
    }
}

// The states of all nodes, by the least and the greatest reading.
fn states_between(
    alloc: Global,
    station: &Station,
    least: &Supply<'_>,
    greatest: &Supply<'_>,
) -> Result<NodeStates, Memory>
    requires least { IsSupply least.now }
    requires greatest { IsSupply greatest.now }
    requires of_least { least.now.station.now ≡ station.now }
    requires of_greatest { greatest.now.station.now ≡ station.now }
    ensures { IfOk result (AreBetween (node_count station.now) station.now least.now.vector greatest.now.vector) }
{
    let mut states = Vec::with_capacity(alloc, usize::from(station.node_count()))?;
    for i in 0..station.node_count() {
        states.push(state_of(least, greatest, NodeId(i)))?;
    }
    Ok(NodeStates { states })
}

/// The state of each node over every reading of the positions: whether it is live, and whether it is
/// earthed, in every reading, in none, or in one and not in another. What is joined only grows as switches
/// close, so two readings decide: that in which each switch that may be both is open, and that in which it
/// is closed. There is a word for each switch of the station. Time: twice that of `labels`, four times the
/// switches, and the nodes. Memory: the nodes and the switches.
pub fn node_states(
    alloc: Global,
    station: &Station,
    readings: &Readings,
) -> Result<NodeStates, Memory>
    requires { AreWords station.now readings.now }
    ensures { IfOk result (AreStates station.now readings.now) }
{
    let least = Supply::new(alloc, station, extreme(alloc, station, readings, false)?)?;
    let greatest = Supply::new(alloc, station, extreme(alloc, station, readings, true)?)?;
    states_between(alloc, station, &least, &greatest)
}
