//! The text of `state`.
ghost use Rattle.std.specs.Prelude.{◌≡◌, ◌++◌, ◌<◌, length, codes, slice_index_or, [], IfOk, OnOk};
ghost use Rattle.station_graph.specs.Diagram.{node_count};
ghost use Rattle.double_points.specs.Words.{AreWords};
ghost use Rattle.station_state.specs.StateText.{voltage_name, earth_name, state_line, state_lines, IsStateText};

use crate::certainty::{Certainty, NodeState};
use crate::states::{NodeStates, node_states};
use double_points::Readings;
use ilk_base::{Memory, NodeId, Text};
use station_graph::Station;
use std::alloc::Global;

// What the text calls a node that is live so.
fn voltage_name(live: Certainty) -> &'static [u8]
    ensures { result.now ≡ voltage_name live }
{
    match live {
        Certainty::Always => b"live",
        Certainty::Never => b"dead",
        Certainty::Unknown => b"unknown",
    }
}

// What the text calls a node that is earthed so.
fn earth_name(earthed: Certainty) -> &'static [u8]
    ensures { result.now ≡ earth_name earthed }
{
    match earthed {
        Certainty::Always => b"earthed",
        Certainty::Never => b"free",
        Certainty::Unknown => b"unknown",
    }
}

// Appends the line of a node.
fn push_state(text: &mut Text, state: NodeState, path: &str) -> Result<(), Memory>
    ensures { OnOk result (text.new ≡ text.old ++ state_line state path.now) }
{
    text.push(voltage_name(state.live))?;
    text.push(b" ")?;
    text.push(earth_name(state.earthed))?;
    text.push(b" ")?;
    text.push(path.as_bytes())?;
    text.push(b"\n")
}

// The lines of these states.
fn lines_of(alloc: Global, station: &Station, states: &NodeStates) -> Result<Text, Memory>
    requires { length states.now ≡ node_count station.now }
    ensures { IfOk result (λ text. text ≡ state_lines states.now station.now.node_paths) }
{
    let mut text = Text::new(alloc);
    for i in 0..station.node_count() {
        push_state(
            &mut text,
            states.state(NodeId(i)),
            station.node_path(NodeId(i)),
        )?;
    }
    Ok(text)
}

/// The text of `state`: a line `VOLTAGE EARTH PATH` for each node in document order. VOLTAGE is `live`
/// where the node is live in every reading of the positions, `dead` where in none, else `unknown`; EARTH
/// is `earthed` where it is earthed in every reading, `free` where in none, else `unknown`. There is a word
/// for each switch of the station. Time: that of `node_states`, and the text's. Memory: the text's, and
/// that of `node_states`.
pub fn state_text(alloc: Global, station: &Station, readings: &Readings) -> Result<Text, Memory>
    requires { AreWords station.now readings.now }
    ensures { IfOk result (IsStateText station.now readings.now) }
{
    let states = node_states(alloc, station, readings)?;
    lines_of(alloc, station, &states)
}
