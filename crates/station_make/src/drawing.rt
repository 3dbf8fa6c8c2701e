//! The drawing of the station.
ghost use Rattle.std.specs.Prelude.{◌≡◌, ◌++◌, OnOk, IfOk};
ghost use Rattle.std.specs.List.{flat_map};
ghost use Rattle.station_make.specs.DrawingText.{bay_text, drawing_of, node_line, second_text, switch_line};
ghost use Rattle.station_make.specs.DrawingText.{switch_start, terminal_text};

use crate::equipment::{Bay, Designation, Node, Switch, Terminal, node_at, nodes_of, switches_of};
use crate::names::{node_name, push_bay_name, push_node_key, switch_name, switch_type};
use ilk_base::{Memory, Text};
use std::alloc::Global;

// Appends the line of a node.
fn push_node(text: &mut Text, bay: Bay, node: Node) -> Result<(), Memory>
    ensures { OnOk result (text.new ≡ text.old ++ node_line bay node) }
{
    text.push(b"<ConnectivityNode name=\"")?;
    text.push(node_name(node))?;
    text.push(b"\" pathName=\"")?;
    push_node_key(text, node_at(bay, node))?;
    text.push(b"\"/>\n")
}

// Appends the lines of these nodes of the bay.
fn push_nodes(text: &mut Text, bay: Bay, nodes: &[Node]) -> Result<(), Memory>
    ensures { OnOk result (text.new ≡ text.old ++ flat_map (node_line bay) nodes.now) }
{
    for node in nodes {
        push_node(text, bay, *node)?;
    }
    Ok(())
}

// Appends a terminal.
fn push_terminal(text: &mut Text, terminal: Terminal) -> Result<(), Memory>
    ensures { OnOk result (text.new ≡ text.old ++ terminal_text terminal) }
{
    text.push(b"<Terminal connectivityNode=\"")?;
    push_node_key(text, terminal)?;
    text.push(b"\" cNodeName=\"")?;
    text.push(node_name(terminal.node))?;
    text.push(b"\"/>")
}

// Appends the second terminal, if there is one.
fn push_second(text: &mut Text, terminal: Option<Terminal>) -> Result<(), Memory>
    ensures { OnOk result (text.new ≡ text.old ++ second_text terminal) }
{
    match terminal {
        Some(terminal) => push_terminal(text, terminal),
        None => Ok(()),
    }
}

// Appends the start of a switch of this name.
fn push_switch_start(text: &mut Text, designation: Designation) -> Result<(), Memory>
    ensures { OnOk result (text.new ≡ text.old ++ switch_start designation) }
{
    text.push(b"<ConductingEquipment name=\"")?;
    text.push(switch_name(designation))?;
    text.push(b"\" type=\"")?;
    text.push(switch_type(designation))?;
    text.push(b"\">")
}

// Appends the line of a switch.
fn push_switch(text: &mut Text, switch: Switch) -> Result<(), Memory>
    ensures { OnOk result (text.new ≡ text.old ++ switch_line switch) }
{
    push_switch_start(text, switch.designation)?;
    push_terminal(text, switch.first)?;
    push_second(text, switch.second)?;
    text.push(b"</ConductingEquipment>\n")
}

// Appends the lines of these switches.
fn push_switches(text: &mut Text, switches: &[Switch]) -> Result<(), Memory>
    ensures { OnOk result (text.new ≡ text.old ++ flat_map switch_line switches.now) }
{
    for switch in switches {
        push_switch(text, *switch)?;
    }
    Ok(())
}

// Appends the lines of a bay.
fn push_bay(alloc: Global, text: &mut Text, bay: Bay) -> Result<(), Memory>
    ensures { OnOk result (text.new ≡ text.old ++ bay_text bay) }
{
    text.push(b"<Bay name=\"")?;
    push_bay_name(text, bay)?;
    text.push(b"\">\n")?;
    push_nodes(text, bay, nodes_of(bay))?;
    push_switches(text, &switches_of(alloc, bay)?)?;
    text.push(b"</Bay>\n")
}

// Appends the lines of these bays.
fn push_bays(alloc: Global, text: &mut Text, bays: &[Bay]) -> Result<(), Memory>
    ensures { OnOk result (text.new ≡ text.old ++ flat_map bay_text bays.now) }
{
    for bay in bays {
        push_bay(alloc, text, *bay)?;
    }
    Ok(())
}

// The drawing of the station with these bays.
pub(crate) fn drawing(alloc: Global, bays: &[Bay]) -> Result<Text, Memory>
    ensures { IfOk result (λ t. t ≡ drawing_of bays.now) }
{
    let mut text = Text::new(alloc);
    text.push(b"<SCL>\n<Substation name=\"S\">\n<VoltageLevel name=\"V1\">\n")?;
    push_bays(alloc, &mut text, bays)?;
    text.push(b"</VoltageLevel>\n</Substation>\n</SCL>\n")?;
    Ok(text)
}
