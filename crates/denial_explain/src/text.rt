//! The text of an explanation.
ghost use Rattle.std.specs.Prelude.{◌≡◌, ◌<◌, ◌++◌, length, codes, IfOk, OnOk};
ghost use Rattle.station_graph.specs.Diagram.{node_count, switch_path, node_path};
ghost use Rattle.central_rules.specs.Names.{texts_below};
ghost use Rattle.denial_explain.specs.Ways.{AllBelow};
ghost use Rattle.denial_explain.specs.ExplanationText.{operation, denied_line, position_at, position_lines, node_lines};
ghost use Rattle.denial_explain.specs.ExplanationText.{by_line, chain_lines, earthed_lines, load_lines};
ghost use Rattle.denial_explain.specs.ExplanationText.{explanation_text, ChainFits, ExplanationFits};
ghost use Rattle.station_graph.specs.CentralRules.{IsOperation};
ghost use Rattle.double_points.specs.Words.{AreWords};
ghost use Rattle.station_graph.specs.Alike.{IsVector};

use crate::chain::Chain;
use crate::explanation::Explanation;
use central_rules::{direction_name, is_uncertain, position_name, rule_name};
use double_points::Readings;
use ilk_base::{Memory, NodeId, Op, Rule, SwitchId, Text};
use station_graph::{NodeList, Station, Vector};
use std::alloc::Global;

// The path of a switch, in bytes.
#[tactic(auto, using(std::proofs::lemmas::Option::get_or_from_slice_get))]
fn path_of_switch(station: &Station, id: SwitchId) -> &[u8]
    requires { id.0 < length station.now.switches }
    ensures { result.now ≡ switch_path station.now id.0 }
{
    station.switch_path(id).as_bytes()
}

// The path of a node, in bytes.
#[tactic(auto, using(std::proofs::lemmas::Option::get_or_from_slice_get))]
fn path_of_node(station: &Station, node: NodeId) -> &[u8]
    requires { node.0 < node_count station.now }
    ensures { result.now ≡ node_path station.now node.0 }
{
    station.node_path(node).as_bytes()
}

// Appends `open PATH` or `close PATH` and the end of the line: an operation.
fn push_operation(text: &mut Text, station: &Station, op: Op) -> Result<(), Memory>
    requires { IsOperation station.now op }
    ensures { OnOk result (text.new ≡ text.old ++ operation station.now op) }
{
    text.push(direction_name(op.direction))?;
    text.push(b" ")?;
    text.push(path_of_switch(station, op.switch))?;
    text.push(b"\n")
}

// Appends the line with the rule.
fn push_denied(text: &mut Text, station: &Station, rule: Rule, op: Op) -> Result<(), Memory>
    requires { IsOperation station.now op }
    ensures { OnOk result (text.new ≡ text.old ++ denied_line station.now rule op) }
{
    text.push(b"denied ")?;
    text.push(rule_name(rule))?;
    text.push(b" ")?;
    push_operation(text, station, op)
}

// Appends the line of one switch's position, where it has one.
fn push_position(
    text: &mut Text,
    head: &[u8],
    station: &Station,
    readings: &Readings,
    reading: &Vector,
    moved: SwitchId,
    id: SwitchId,
) -> Result<(), Memory>
    requires words { AreWords station.now readings.now }
    requires reading { IsVector station.now reading.now }
    requires id { id.0 < length station.now.switches }
    ensures { OnOk result (text.new ≡ text.old ++ position_at head.now moved.0 readings.now reading.now
        station.now id.0) }
{
    if id.0 == moved.0 {
        return Ok(());
    }
    let word = readings.word(id);
    let closed = reading.closed(id);
    let path = path_of_switch(station, id);
    if !is_uncertain(word) {
        return Ok(());
    }
    text.push(head)?;
    text.push(position_name(closed))?;
    text.push(b" ")?;
    text.push(path)?;
    text.push(b"\n")
}

// Appends, for each switch but the moved one whose word is neither off nor on, the line of its position in
// the reading, behind the head.
fn push_positions(
    text: &mut Text,
    head: &[u8],
    station: &Station,
    readings: &Readings,
    reading: &Vector,
    moved: SwitchId,
) -> Result<(), Memory>
    requires words { AreWords station.now readings.now }
    requires reading { IsVector station.now reading.now }
    ensures { OnOk result (text.new ≡ text.old ++ position_lines head.now moved.0 readings.now reading.now
        station.now) }
{
    for i in 0..station.switch_count() {
        push_position(text, head, station, readings, reading, moved, SwitchId(i))?;
    }
    Ok(())
}

/// The line `open PATH` or `close PATH` of an operation of the station. Time and memory: the line's.
pub fn operation_text(alloc: Global, station: &Station, op: Op) -> Result<Text, Memory>
    requires { IsOperation station.now op }
    ensures { IfOk result (λ t. t ≡ operation station.now op) }
{
    let mut text = Text::new(alloc);
    push_operation(&mut text, station, op)?;
    Ok(text)
}

/// For each switch but the moved one whose word is neither off nor on, in document order, the line `off PATH`
/// or `on PATH` of its position in the reading, behind the head. There is a word and a position for each
/// switch of the station. Time: the switches, and the text. Memory: the text's.
pub fn positions_text(
    alloc: Global,
    head: &[u8],
    station: &Station,
    readings: &Readings,
    reading: &Vector,
    moved: SwitchId,
) -> Result<Text, Memory>
    requires words { AreWords station.now readings.now }
    requires reading { IsVector station.now reading.now }
    ensures { IfOk result (λ t. t ≡ position_lines head.now moved.0 readings.now reading.now station.now) }
{
    let mut text = Text::new(alloc);
    push_positions(&mut text, head, station, readings, reading, moved)?;
    Ok(text)
}

// Appends the line of a node.
fn push_node(text: &mut Text, station: &Station, node: NodeId) -> Result<(), Memory>
    requires { node.0 < node_count station.now }
    ensures { OnOk result (text.new ≡ text.old ++ codes "node " ++ node_path station.now node.0 ++ codes "\n") }
{
    text.push(b"node ")?;
    text.push(path_of_node(station, node))?;
    text.push(b"\n")
}

// Appends a line for each node.
fn push_nodes(text: &mut Text, station: &Station, nodes: &NodeList) -> Result<(), Memory>
    requires { AllBelow (node_count station.now) nodes.now }
    ensures { OnOk result (text.new ≡ text.old ++ node_lines station.now nodes.now) }
{
    for number in nodes.numbers() {
        push_node(text, station, NodeId(*number))?;
    }
    Ok(())
}

// Appends the line of a chain's switch, where it has one.
fn push_by(text: &mut Text, station: &Station, by: Option<SwitchId>) -> Result<(), Memory>
    requires { (id : SwitchId) → by ≡ Some id → id.0 < length station.now.switches }
    ensures { OnOk result (text.new ≡ text.old ++ by_line station.now by) }
{
    let Some(id) = by else {
        return Ok(());
    };
    text.push(b"by ")?;
    text.push(path_of_switch(station, id))?;
    text.push(b"\n")
}

// Appends a head and the lines of a chain.
fn push_chain(text: &mut Text, station: &Station, head: &[u8], chain: &Chain) -> Result<(), Memory>
    requires { ChainFits station.now chain.now }
    ensures { OnOk result (text.new ≡ text.old ++ chain_lines station.now head.now chain.now) }
{
    text.push(head)?;
    push_nodes(text, station, &chain.nodes)?;
    push_by(text, station, chain.by)
}

// Appends how the first node is earthed, where that is told.
fn push_earthed(text: &mut Text, station: &Station, explanation: &Explanation) -> Result<(), Memory>
    requires { ExplanationFits station.now explanation.now }
    ensures { OnOk result (text.new ≡ text.old ++ earthed_lines station.now explanation.now.earthed) }
{
    match &explanation.earthed {
        None => Ok(()),
        Some(chain) => push_chain(text, station, b"earthed\n", chain),
    }
}

// Appends the load on both sides and what is bonded, where that is told.
fn push_load(text: &mut Text, station: &Station, explanation: &Explanation) -> Result<(), Memory>
    requires { ExplanationFits station.now explanation.now }
    ensures { OnOk result (text.new ≡ text.old ++ load_lines station.now explanation.now.taps explanation.now.bonded) }
{
    let Some((first, second)) = &explanation.taps else {
        return Ok(());
    };
    push_chain(text, station, b"tap\n", first)?;
    push_chain(text, station, b"tap\n", second)?;
    text.push(b"bonded\n")?;
    push_nodes(text, station, &explanation.bonded)
}

impl Explanation {
    /// The explanation in lines: `denied RULE open PATH` (or `close`); `with off PATH` or `with on PATH`
    /// for each other switch whose word is neither off nor on, its position in the reading; `live`, a line
    /// `node PATH` for each node of the chain, and `by PATH`; for R2 `earthed` and its chain; for R3 `tap`
    /// and its chain for each end, then `bonded` and its nodes. `readings` has a word and `reading` a
    /// position for each switch of the station. Time and memory: the text's, and the switches.
    pub fn text(
        &self,
        alloc: Global,
        station: &Station,
        readings: &Readings,
        reading: &Vector,
    ) -> Result<Text, Memory>
        requires words { AreWords station.now readings.now }
        requires reading { IsVector station.now reading.now }
        requires fits { ExplanationFits station.now self.now }
        ensures { IfOk result (λ t. t ≡ explanation_text station.now readings.now reading.now self.now) }
    {
        let mut text = Text::new(alloc);
        push_denied(&mut text, station, self.rule, self.op)?;
        push_positions(
            &mut text,
            b"with ",
            station,
            readings,
            reading,
            self.op.switch,
        )?;
        push_chain(&mut text, station, b"live\n", &self.live)?;
        push_earthed(&mut text, station, self)?;
        push_load(&mut text, station, self)?;
        Ok(text)
    }
}
