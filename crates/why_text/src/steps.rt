//! The nodes of a way, one after another, with what joins them.
ghost use Rattle.std.specs.Prelude.{◌<◌, ℕ, false, length, slice_index, IfOk};
ghost use Rattle.station_graph.specs.Alike.{IsVector};
ghost use Rattle.station_graph.specs.Connection.{Touching};
ghost use Rattle.station_graph.specs.Diagram.{node_count};
ghost use Rattle.denial_explain.specs.ExplanationText.{ChainFits};
ghost use Rattle.why_text.specs.Devices.{IsWalk};
ghost use Rattle.why_text.specs.WhyLines.{AreWayLines, IsChainText, IsStepText};

use crate::between::device_between;
use crate::lines::{push_by, push_device, push_node};
use denial_explain::Chain;
use ilk_base::{Memory, Text};
use station_graph::{NodeList, Station, Vector};
use std::alloc::Global;

// The lines of the node at a place of the way.
fn step_text(
    alloc: Global,
    station: &Station,
    vector: &Vector,
    counted: &Vector,
    nodes: &NodeList,
    i: usize,
) -> Result<Text, Memory>
    requires vector { IsVector station.now vector.now }
    requires counted { IsVector station.now counted.now }
    requires walk { IsWalk (Touching false station.now counted.now) nodes.now }
    requires within { i < length nodes.now }
    requires node { slice_index nodes.now i < node_count station.now }
    ensures { IfOk result (IsStepText station.now vector.now counted.now nodes.now i) }
{
    let mut text = Text::new(alloc);
    if i > 0 {
        let device = device_between(station, vector, counted, nodes.get(i - 1), nodes.get(i));
        push_device(&mut text, station, device)?;
    }
    push_node(&mut text, station, nodes.get(i))?;
    Ok(text)
}

// The lines of all nodes of the way.
fn way_text(
    alloc: Global,
    station: &Station,
    vector: &Vector,
    counted: &Vector,
    nodes: &NodeList,
) -> Result<Text, Memory>
    requires vector { IsVector station.now vector.now }
    requires counted { IsVector station.now counted.now }
    requires walk { IsWalk (Touching false station.now counted.now) nodes.now }
    requires nodes { (i : ℕ) → i < length nodes.now → slice_index nodes.now i < node_count station.now }
    ensures { IfOk result (AreWayLines station.now vector.now counted.now nodes.now) }
{
    let mut text = Text::new(alloc);
    for i in 0..nodes.len() {
        let next = step_text(alloc, station, vector, counted, nodes, i)?;
        text.push(next.bytes())?;
    }
    Ok(text)
}

/// A head, the lines of a chain's nodes, each but the first with what joins it to the one before, and the line of its
/// switch. Time: for each node the switches and the links.
pub(crate) fn chain_text(
    alloc: Global,
    station: &Station,
    vector: &Vector,
    counted: &Vector,
    head: &[u8],
    chain: &Chain,
) -> Result<Text, Memory>
    requires vector { IsVector station.now vector.now }
    requires counted { IsVector station.now counted.now }
    requires walk { IsWalk (Touching false station.now counted.now) chain.now.nodes }
    requires fits { ChainFits station.now chain.now }
    ensures { IfOk result (IsChainText station.now vector.now counted.now head.now chain.now) }
{
    let mut text = Text::new(alloc);
    text.push(head)?;
    let way = way_text(alloc, station, vector, counted, &chain.nodes)?;
    text.push(way.bytes())?;
    push_by(&mut text, station, chain.by)?;
    Ok(text)
}
