//! The ways of an explanation.
ghost use Rattle.std.specs.Prelude.{◌≡◌, ◌<◌, ◌++◌, ℕ, List, false, length, codes, IfOk, OnOk};
ghost use Rattle.station_graph.specs.Alike.{IsVector};
ghost use Rattle.station_graph.specs.Connection.{Touching};
ghost use Rattle.station_graph.specs.Diagram.{node_count};
ghost use Rattle.denial_explain.specs.Ways.{AllBelow};
ghost use Rattle.denial_explain.specs.ExplanationText.{node_lines, ChainFits, ExplanationFits};
ghost use Rattle.why_text.specs.Devices.{IsWalk};
ghost use Rattle.why_text.specs.WhyLines.{IsChainText};
ghost use Rattle.why_text.specs.WhyText.{counted_in, shown_in, AreWaysOf, IsEarthedText, IsLoadText, TellsWays};
ghost use Rattle.why_text.specs.WhyText.{WalksIn};

use crate::lines::push_node;
use crate::steps::chain_text;
use crate::vectors::{counted_vector, shown_vector};
use denial_explain::{Chain, Explanation};
use ilk_base::{Memory, NodeId, Text};
use station_graph::{NodeList, Station, Vector};
use std::alloc::Global;

// How the first node is earthed, where that is told.
fn earthed_text(
    alloc: Global,
    station: &Station,
    vector: &Vector,
    counted: &Vector,
    e: &Explanation,
) -> Result<Text, Memory>
    requires vector { IsVector station.now vector.now }
    requires counted { IsVector station.now counted.now }
    requires walks { WalksIn station.now counted.now e.now }
    requires fits { ExplanationFits station.now e.now }
    ensures { IfOk result (IsEarthedText station.now vector.now counted.now e.now.earthed) }
{
    match &e.earthed {
        Some(chain) => chain_text(alloc, station, vector, counted, b"earthed\n", chain),
        None => Ok(Text::new(alloc)),
    }
}

// Appends a line for each node.
fn push_nodes(text: &mut Text, station: &Station, nodes: &NodeList) -> Result<(), Memory>
    requires { AllBelow (node_count station.now) nodes.now }
    ensures { OnOk result (text.new ≡ text.old ++ node_lines station.now nodes.now) }
{
    for number in nodes.numbers() {
        push_node(text, station, NodeId(*number))?;
    }
    Ok(())
}

// Appends the lines of a chain to a tap.
fn push_tap(
    text: &mut Text,
    alloc: Global,
    station: &Station,
    vector: &Vector,
    counted: &Vector,
    chain: &Chain,
) -> Result<(), Memory>
    requires vector { IsVector station.now vector.now }
    requires counted { IsVector station.now counted.now }
    requires walk { IsWalk (Touching false station.now counted.now) chain.now.nodes }
    requires fits { ChainFits station.now chain.now }
    ensures { OnOk result ((lines : List ℕ) × IsChainText station.now vector.now counted.now (codes "tap\n") chain.now lines
        × (text.new ≡ text.old ++ lines)) }
{
    text.push(chain_text(alloc, station, vector, counted, b"tap\n", chain)?.bytes())?;
    Ok(())
}

// The load on both sides and what is bonded, where that is told.
fn load_text(
    alloc: Global,
    station: &Station,
    vector: &Vector,
    counted: &Vector,
    e: &Explanation,
) -> Result<Text, Memory>
    requires vector { IsVector station.now vector.now }
    requires counted { IsVector station.now counted.now }
    requires walks { WalksIn station.now counted.now e.now }
    requires fits { ExplanationFits station.now e.now }
    ensures { IfOk result (IsLoadText station.now vector.now counted.now e.now.taps e.now.bonded) }
{
    let mut text = Text::new(alloc);
    let Some((first, second)) = &e.taps else {
        return Ok(text);
    };
    push_tap(&mut text, alloc, station, vector, counted, first)?;
    push_tap(&mut text, alloc, station, vector, counted, second)?;
    text.push(b"bonded\n")?;
    push_nodes(&mut text, station, &e.bonded)?;
    Ok(text)
}

// Appends how the first node is earthed, where that is told.
fn push_earthed(
    text: &mut Text,
    alloc: Global,
    station: &Station,
    vector: &Vector,
    counted: &Vector,
    e: &Explanation,
) -> Result<(), Memory>
    requires vector { IsVector station.now vector.now }
    requires counted { IsVector station.now counted.now }
    requires walks { WalksIn station.now counted.now e.now }
    requires fits { ExplanationFits station.now e.now }
    ensures { OnOk result ((lines : List ℕ) × IsEarthedText station.now vector.now counted.now e.now.earthed lines
        × (text.new ≡ text.old ++ lines)) }
{
    text.push(earthed_text(alloc, station, vector, counted, e)?.bytes())?;
    Ok(())
}

// Appends the load on both sides and what is bonded, where that is told.
fn push_load(
    text: &mut Text,
    alloc: Global,
    station: &Station,
    vector: &Vector,
    counted: &Vector,
    e: &Explanation,
) -> Result<(), Memory>
    requires vector { IsVector station.now vector.now }
    requires counted { IsVector station.now counted.now }
    requires walks { WalksIn station.now counted.now e.now }
    requires fits { ExplanationFits station.now e.now }
    ensures { OnOk result ((lines : List ℕ) × IsLoadText station.now vector.now counted.now e.now.taps e.now.bonded lines
        × (text.new ≡ text.old ++ lines)) }
{
    text.push(load_text(alloc, station, vector, counted, e)?.bytes())?;
    Ok(())
}

// All ways, in these positions, of which these count.
fn told_ways(
    alloc: Global,
    station: &Station,
    vector: &Vector,
    counted: &Vector,
    e: &Explanation,
) -> Result<Text, Memory>
    requires vector { IsVector station.now vector.now }
    requires counted { IsVector station.now counted.now }
    requires walks { WalksIn station.now counted.now e.now }
    requires fits { ExplanationFits station.now e.now }
    ensures { IfOk result (TellsWays station.now vector.now counted.now e.now) }
{
    let mut text = chain_text(alloc, station, vector, counted, b"live\n", &e.live)?;
    push_earthed(&mut text, alloc, station, vector, counted, e)?;
    push_load(&mut text, alloc, station, vector, counted, e)?;
    Ok(text)
}

// The ways of an explanation of a denial in this reading.
pub(crate) fn ways_text(
    alloc: Global,
    station: &Station,
    reading: &Vector,
    e: &Explanation,
) -> Result<Text, Memory>
    requires reading { IsVector station.now reading.now }
    requires walks { WalksIn station.now
        (counted_in e.now.rule station.now (shown_in e.now.rule reading.now e.now.op)) e.now }
    requires fits { ExplanationFits station.now e.now }
    ensures { IfOk result (AreWaysOf station.now reading.now e.now) }
{
    let vector = shown_vector(alloc, station, e.rule, e.op, reading)?;
    let counted = counted_vector(alloc, station, e.rule, &vector)?;
    told_ways(alloc, station, &vector, &counted, e)
}
