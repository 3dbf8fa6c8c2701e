//! The line of a node, of a device, and of the switch at the end of a chain.
ghost use Rattle.std.specs.Prelude.{◌≡◌, ◌<◌, ◌++◌, [], length, slice_get, slice_index_or, codes, OnOk, Some};
ghost use Rattle.ilk_base.specs.declared.words.SwitchId.{SwitchId as Switch};
ghost use Rattle.station_graph.specs.Diagram.{node_count, part_count, switch_path};
ghost use Rattle.denial_explain.specs.ExplanationText.{by_line};
ghost use Rattle.why_text.specs.Devices.{DeviceFits};
ghost use Rattle.why_text.specs.WhyLines.{device_line, node_line, part_path};

use crate::device::Device;
use ilk_base::{BayId, Memory, NodeId, SwitchId, Text};
use station_graph::Station;

// Appends a head, the path of a switch, and the end of the line.
#[tactic(auto, using(std::proofs::lemmas::Option::get_or_from_slice_get))]
fn push_switch(text: &mut Text, station: &Station, head: &[u8], id: SwitchId) -> Result<(), Memory>
    requires { id.0 < length station.now.switches }
    ensures { OnOk result (text.new ≡ text.old ++ head.now ++ switch_path station.now id.0 ++ codes "\n") }
{
    text.push(head)?;
    text.push(station.switch_path(id).as_bytes())?;
    text.push(b"\n")
}

// The path of a part, in bytes.
#[tactic(auto, using(std::proofs::lemmas::Option::get_or_from_slice_get))]
fn path_of_part(station: &Station, part: BayId) -> &[u8]
    requires { part.0 < part_count station.now }
    ensures { result.now ≡ slice_index_or station.now.part_paths part.0 [] }
{
    station.part_path(part).as_bytes()
}

// The path of the part of a link, in bytes.
fn path_of_link(station: &Station, i: u16) -> &[u8]
    requires { i < length station.now.links }
    ensures { result.now ≡ part_path station.now (slice_get station.now.links i) }
{
    let link = station.link(i);
    path_of_part(station, link.part)
}

// Appends the line of a link.
fn push_link(text: &mut Text, station: &Station, i: u16) -> Result<(), Memory>
    requires { i < length station.now.links }
    ensures { OnOk result (text.new ≡ text.old ++ device_line station.now (Device.Link i)) }
{
    text.push(b"over link ")?;
    text.push(path_of_link(station, i))?;
    text.push(b"\n")
}

// Appends the line of a device.
pub(crate) fn push_device(text: &mut Text, station: &Station, device: Device) -> Result<(), Memory>
    requires { DeviceFits station.now device }
    ensures { OnOk result (text.new ≡ text.old ++ device_line station.now device) }
{
    match device {
        Device::Closed(id) => push_switch(text, station, b"over ", id),
        Device::Link(i) => push_link(text, station, i),
        Device::Open(id) => push_switch(text, station, b"over open ", id),
    }
}

// Appends the line of a node.
#[tactic(auto, using(std::proofs::lemmas::Option::get_or_from_slice_get))]
pub(crate) fn push_node(text: &mut Text, station: &Station, node: NodeId) -> Result<(), Memory>
    requires { node.0 < node_count station.now }
    ensures { OnOk result (text.new ≡ text.old ++ node_line station.now node.0) }
{
    text.push(b"node ")?;
    text.push(station.node_path(node).as_bytes())?;
    text.push(b"\n")
}

// Appends the line of a chain's switch, where it has one.
pub(crate) fn push_by(
    text: &mut Text,
    station: &Station,
    by: Option<SwitchId>,
) -> Result<(), Memory>
    requires { (id : Switch) → by ≡ Some id → id.0 < length station.now.switches }
    ensures { OnOk result (text.new ≡ text.old ++ by_line station.now by) }
{
    match by {
        Some(id) => push_switch(text, station, b"by ", id),
        None => Ok(()),
    }
}
