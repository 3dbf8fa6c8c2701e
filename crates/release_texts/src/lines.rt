//! The lines of an explanation, in a text in which each path is held once.
ghost use Rattle.std.specs.Prelude.{◌≡◌, ◌<◌, ◌++◌, [], length, codes, slice_index_or, OnOk};
ghost use Rattle.station_graph.specs.Alike.{IsVector};
ghost use Rattle.station_graph.specs.CentralRules.{IsOperation};
ghost use Rattle.station_graph.specs.Diagram.{node_count, node_path, switch_path};
ghost use Rattle.double_points.specs.Words.{AreWords};
ghost use Rattle.central_rules.specs.Names.{position_name};
ghost use Rattle.denial_explain.specs.Ways.{AllBelow};
ghost use Rattle.denial_explain.specs.ExplanationText.{denied_line, position_at, position_lines, node_lines, by_line};
ghost use Rattle.denial_explain.specs.ExplanationText.{chain_lines, earthed_lines, load_lines, explanation_text};
ghost use Rattle.denial_explain.specs.ExplanationText.{ChainFits, ExplanationFits};
ghost use Rattle.path_names.specs.Tables.{paths_of_items};

use central_rules::{direction_name, is_uncertain, rule_name};
use denial_explain::{Chain, Explanation};
use double_points::Readings;
use ilk_base::{Memory, NodeId, Op, Rule, SwitchId};
use path_names::{item_node_name, item_switch_name};
use piece_writer::NamedText;
use station_graph::{NodeList, Station, Vector};

// Appends the word, the path of a switch and the end of the line.
fn push_switch(
    text: &mut NamedText,
    word: &'static [u8],
    station: &Station,
    id: SwitchId,
) -> Result<(), Memory>
    requires names { text.old.names ≡ paths_of_items station.now }
    requires within { id.0 < length station.now.switches }
    ensures ok { OnOk result (text.new.text
        ≡ text.old.text ++ (word.now ++ switch_path station.now id.0 ++ codes "\n")) }
    ensures names { text.new.names ≡ text.old.names }
{
    text.word(word)?;
    text.name(item_switch_name(station, id))?;
    text.word(b"\n")
}

// Appends the line of a node.
fn push_node(text: &mut NamedText, station: &Station, node: NodeId) -> Result<(), Memory>
    requires names { text.old.names ≡ paths_of_items station.now }
    requires within { node.0 < node_count station.now }
    ensures ok { OnOk result (text.new.text
        ≡ text.old.text ++ (codes "node " ++ node_path station.now node.0 ++ codes "\n")) }
    ensures names { text.new.names ≡ text.old.names }
{
    text.word(b"node ")?;
    text.name(item_node_name(station, node))?;
    text.word(b"\n")
}

// Appends the line with the rule and the operation.
fn push_denied(text: &mut NamedText, station: &Station, rule: Rule, op: Op) -> Result<(), Memory>
    requires names { text.old.names ≡ paths_of_items station.now }
    requires op { IsOperation station.now op }
    ensures ok { OnOk result (text.new.text ≡ text.old.text ++ denied_line station.now rule op) }
    ensures names { text.new.names ≡ text.old.names }
{
    text.word(b"denied ")?;
    text.word(rule_name(rule))?;
    text.word(b" ")?;
    text.word(direction_name(op.direction))?;
    push_switch(text, b" ", station, op.switch)
}

// What begins the line of a position of the reading.
fn position_head(closed: bool) -> &'static [u8]
    ensures { result.now ≡ codes "with " ++ position_name closed ++ codes " " }
{
    match closed {
        false => b"with off ",
        true => b"with on ",
    }
}

// Appends the line of one switch's position in the reading, where it has one.
fn push_position(
    text: &mut NamedText,
    station: &Station,
    readings: &Readings,
    reading: &Vector,
    moved: SwitchId,
    id: SwitchId,
) -> Result<(), Memory>
    requires names { text.old.names ≡ paths_of_items station.now }
    requires words { AreWords station.now readings.now }
    requires reading { IsVector station.now reading.now }
    requires id { id.0 < length station.now.switches }
    ensures ok { OnOk result (text.new.text ≡ text.old.text ++ position_at (codes "with ") moved.0 readings.now
        reading.now station.now id.0) }
    ensures names { text.new.names ≡ text.old.names }
{
    if id.0 == moved.0 {
        return Ok(());
    }
    let word = readings.word(id);
    let closed = reading.closed(id);
    if !is_uncertain(word) {
        return Ok(());
    }
    push_switch(text, position_head(closed), station, id)
}

// Appends the lines of the reading.
fn push_positions(
    text: &mut NamedText,
    station: &Station,
    readings: &Readings,
    reading: &Vector,
    moved: SwitchId,
) -> Result<(), Memory>
    requires names { text.old.names ≡ paths_of_items station.now }
    requires words { AreWords station.now readings.now }
    requires reading { IsVector station.now reading.now }
    ensures ok { OnOk result (text.new.text ≡ text.old.text ++ position_lines (codes "with ") moved.0 readings.now
        reading.now station.now) }
    ensures names { text.new.names ≡ text.old.names }
{
    for i in 0..station.switch_count() {
        push_position(text, station, readings, reading, moved, SwitchId(i))?;
    }
    Ok(())
}

// Appends a line for each node.
fn push_nodes(text: &mut NamedText, station: &Station, nodes: &NodeList) -> Result<(), Memory>
    requires names { text.old.names ≡ paths_of_items station.now }
    requires nodes { AllBelow (node_count station.now) nodes.now }
    ensures ok { OnOk result (text.new.text ≡ text.old.text ++ node_lines station.now nodes.now) }
    ensures names { text.new.names ≡ text.old.names }
{
    for number in nodes.numbers() {
        push_node(text, station, NodeId(*number))?;
    }
    Ok(())
}

// Appends the line of a chain's switch, where it has one.
fn push_by(text: &mut NamedText, station: &Station, by: Option<SwitchId>) -> Result<(), Memory>
    requires names { text.old.names ≡ paths_of_items station.now }
    requires by { (id : SwitchId) → by ≡ Some id → id.0 < length station.now.switches }
    ensures ok { OnOk result (text.new.text ≡ text.old.text ++ by_line station.now by) }
    ensures names { text.new.names ≡ text.old.names }
{
    let Some(id) = by else {
        return Ok(());
    };
    push_switch(text, b"by ", station, id)
}

// Appends a head and the lines of a chain.
fn push_chain(
    text: &mut NamedText,
    station: &Station,
    head: &'static [u8],
    chain: &Chain,
) -> Result<(), Memory>
    requires names { text.old.names ≡ paths_of_items station.now }
    requires fits { ChainFits station.now chain.now }
    ensures ok { OnOk result (text.new.text ≡ text.old.text ++ chain_lines station.now head.now chain.now) }
    ensures names { text.new.names ≡ text.old.names }
{
    text.word(head)?;
    push_nodes(text, station, &chain.nodes)?;
    push_by(text, station, chain.by)
}

// Appends how the first node is earthed, where that is told.
fn push_earthed(
    text: &mut NamedText,
    station: &Station,
    explanation: &Explanation,
) -> Result<(), Memory>
    requires names { text.old.names ≡ paths_of_items station.now }
    requires fits { ExplanationFits station.now explanation.now }
    ensures ok { OnOk result (text.new.text ≡ text.old.text ++ earthed_lines station.now explanation.now.earthed) }
    ensures names { text.new.names ≡ text.old.names }
{
    match &explanation.earthed {
        None => Ok(()),
        Some(chain) => push_chain(text, station, b"earthed\n", chain),
    }
}

// Appends the load on both sides and what is bonded, where that is told.
fn push_load(
    text: &mut NamedText,
    station: &Station,
    explanation: &Explanation,
) -> Result<(), Memory>
    requires names { text.old.names ≡ paths_of_items station.now }
    requires fits { ExplanationFits station.now explanation.now }
    ensures ok { OnOk result (text.new.text ≡ text.old.text
        ++ load_lines station.now explanation.now.taps explanation.now.bonded) }
    ensures names { text.new.names ≡ text.old.names }
{
    let Some((first, second)) = &explanation.taps else {
        return Ok(());
    };
    push_chain(text, station, b"tap\n", first)?;
    push_chain(text, station, b"tap\n", second)?;
    text.word(b"bonded\n")?;
    push_nodes(text, station, &explanation.bonded)
}

// Appends the lines of an explanation, by these words and this reading of them.
pub(crate) fn push_explanation(
    text: &mut NamedText,
    station: &Station,
    readings: &Readings,
    reading: &Vector,
    explanation: &Explanation,
) -> Result<(), Memory>
    requires names { text.old.names ≡ paths_of_items station.now }
    requires words { AreWords station.now readings.now }
    requires reading { IsVector station.now reading.now }
    requires fits { ExplanationFits station.now explanation.now }
    ensures ok { OnOk result (text.new.text ≡ text.old.text
        ++ explanation_text station.now readings.now reading.now explanation.now) }
    ensures names { text.new.names ≡ text.old.names }
{
    push_denied(text, station, explanation.rule, explanation.op)?;
    push_positions(text, station, readings, reading, explanation.op.switch)?;
    push_chain(text, station, b"live\n", &explanation.live)?;
    push_earthed(text, station, explanation)?;
    push_load(text, station, explanation)
}
