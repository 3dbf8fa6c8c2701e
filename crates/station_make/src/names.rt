//! What the texts call the bays, nodes and switches.
ghost use Rattle.std.specs.Prelude.{◌≡◌, ◌++◌, decimal, OnOk};
ghost use Rattle.station_make.specs.Names.{bay_name, bay_path, node_key, node_name, path_in, position_word};
ghost use Rattle.station_make.specs.Names.{switch_name, switch_type};

use crate::equipment::{Bay, Designation, Node, Terminal};
use ilk_base::{Memory, Text};

// The name of a node.
pub(crate) fn node_name(node: Node) -> &'static [u8]
    ensures { result.now ≡ node_name node }
{
    match node {
        Node::Busbar => b"B",
        Node::CouplerFirst => b"k1",
        Node::CouplerSecond => b"k2",
        Node::FeederFirst => b"n1",
        Node::FeederSecond => b"n2",
        Node::FeederThird => b"n3",
        Node::Grounded => b"grounded",
    }
}

// The name of a switch.
pub(crate) fn switch_name(designation: Designation) -> &'static [u8]
    ensures { result.now ≡ switch_name designation }
{
    match designation {
        Designation::Qb1 => b"QB1",
        Designation::Qb2 => b"QB2",
        Designation::Qa1 => b"QA1",
        Designation::Qb9 => b"QB9",
        Designation::Qc9 => b"QC9",
        Designation::E1 => b"E1",
    }
}

// The type of a switch of this name (IEC 61850-6).
pub(crate) fn switch_type(designation: Designation) -> &'static [u8]
    ensures { result.now ≡ switch_type designation }
{
    match designation {
        Designation::Qb1 | Designation::Qb2 | Designation::Qb9 | Designation::Qc9 => b"DIS",
        Designation::Qa1 => b"CBR",
        Designation::E1 => b"IFL",
    }
}

// The word for a position.
pub(crate) fn position_word(is_on: bool) -> &'static [u8]
    ensures { result.now ≡ position_word is_on }
{
    if is_on { b"on" } else { b"off" }
}

// Appends the name of a bay.
pub(crate) fn push_bay_name(text: &mut Text, bay: Bay) -> Result<(), Memory>
    ensures { OnOk result (text.new ≡ text.old ++ bay_name bay) }
{
    match bay {
        Bay::FirstBusbar => text.push(b"W1"),
        Bay::SecondBusbar => text.push(b"W2"),
        Bay::Coupler => text.push(b"K0"),
        Bay::Feeder(number) => {
            text.push(b"Q")?;
            text.push_decimal(usize::from(number))
        }
    }
}

// Appends the path of a bay.
fn push_bay_path(text: &mut Text, bay: Bay) -> Result<(), Memory>
    ensures { OnOk result (text.new ≡ text.old ++ bay_path bay) }
{
    text.push(b"S/V1/")?;
    push_bay_name(text, bay)
}

// Appends the key of a node, which is its path.
pub(crate) fn push_node_key(text: &mut Text, terminal: Terminal) -> Result<(), Memory>
    ensures { OnOk result (text.new ≡ text.old ++ node_key terminal) }
{
    push_bay_path(text, terminal.bay)?;
    text.push(b"/")?;
    text.push(node_name(terminal.node))
}

// Appends the path of the switch of this name in a bay.
pub(crate) fn push_path_in(
    text: &mut Text,
    bay: Bay,
    designation: Designation,
) -> Result<(), Memory>
    ensures { OnOk result (text.new ≡ text.old ++ path_in bay designation) }
{
    push_bay_path(text, bay)?;
    text.push(b"/")?;
    text.push(switch_name(designation))
}
