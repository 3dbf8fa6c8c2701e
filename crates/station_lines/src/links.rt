//! The lines of the links and taps that equipment gives.
ghost use Rattle.std.specs.Prelude.{◌≡◌, ◌<◌, ℕ, [], ◌∷◌, length, OnOk};
ghost use Rattle.station_graph.specs.Diagram.{node_count};
ghost use Rattle.ssd_text.specs.Nesting.{Entry};
ghost use Rattle.ssd_read.specs.Types.{type_of};
ghost use Rattle.ssd_read.specs.Seen.{AreNodes};
ghost use Rattle.ssd_read.specs.Steps.{tap_step, tap_steps, link_step, links_after, links_along, lone_tap};
ghost use Rattle.station_lines.specs.Lines.{AddsSteps, node_in, link_word};

use crate::rows::{push_five, push_four};
use ilk_base::{Memory, NodeId, Text};
use ssd_read::{EquipmentType, is_tapless};
use station_graph::Station;

// The path of a node.
pub(crate) fn node_path(station: &Station, node: u32) -> &[u8]
    requires { node < node_count station.now }
    ensures { result.now ≡ node_in station.now.node_paths node }
{
    let _count = station.node_count();
    station.node_path(NodeId(node as u16)).as_bytes()
}

// What the text calls a link.
fn link_word(bond: bool) -> &'static [u8]
    ensures { result.now ≡ link_word bond }
{
    if bond { b"bond" } else { b"link" }
}

// Appends the line of a tap.
pub(crate) fn push_tap(
    text: &mut Text,
    station: &Station,
    word: &[u8],
    path: &[u8],
    node: u32,
) -> Result<(), Memory>
    requires { node < node_count station.now }
    ensures { (part : ℕ) → OnOk result (AddsSteps station.now.node_paths word.now path.now (tap_step part node ∷ [])
        text.old text.new) }
{
    push_four(text, b"tap", word, path, node_path(station, node))
}

// Appends the line of a tap at each node.
pub(crate) fn push_taps(
    text: &mut Text,
    station: &Station,
    word: &[u8],
    path: &[u8],
    nodes: &[u32],
) -> Result<(), Memory>
    requires { AreNodes station.now nodes.now }
    ensures { (part : ℕ) → OnOk result (AddsSteps station.now.node_paths word.now path.now (tap_steps part nodes.now)
        text.old text.new) }
{
    for node in nodes {
        push_tap(text, station, word, path, *node)?;
    }
    Ok(())
}

// Appends the line of a link, where its nodes differ.
fn push_link(
    text: &mut Text,
    station: &Station,
    bond: bool,
    word: &[u8],
    path: &[u8],
    ends: (u32, u32),
) -> Result<(), Memory>
    requires first { ends.0 < node_count station.now }
    requires second { ends.1 < node_count station.now }
    ensures { (part : ℕ) → OnOk result (AddsSteps station.now.node_paths word.now path.now
        (link_step bond part ends.0 ends.1) text.old text.new) }
{
    if ends.0 == ends.1 {
        return Ok(());
    }
    let first = node_path(station, ends.0);
    let second = node_path(station, ends.1);
    push_five(text, link_word(bond), word, path, first, second)
}

// Appends the lines of the links between a node and those after it.
fn push_links_after(
    text: &mut Text,
    station: &Station,
    bond: bool,
    word: &[u8],
    path: &[u8],
    first: u32,
    nodes: &[u32],
) -> Result<(), Memory>
    requires first { first < node_count station.now }
    requires nodes { AreNodes station.now nodes.now }
    ensures { (part : ℕ) → OnOk result (AddsSteps station.now.node_paths word.now path.now
        (links_after bond part first nodes.now) text.old text.new) }
{
    let mut last = first;
    for node in nodes {
        push_link(text, station, bond, word, path, (last, *node))?;
        last = *node;
    }
    Ok(())
}

// Appends the lines of the links between neighbours.
pub(crate) fn push_links(
    text: &mut Text,
    station: &Station,
    bond: bool,
    word: &[u8],
    path: &[u8],
    nodes: &[u32],
) -> Result<(), Memory>
    requires { AreNodes station.now nodes.now }
    ensures { (part : ℕ) → OnOk result (AddsSteps station.now.node_paths word.now path.now
        (links_along bond part nodes.now) text.old text.new) }
{
    match nodes {
        [] => Ok(()),
        [first, rest @ ..] => push_links_after(text, station, bond, word, path, *first, rest),
    }
}

// Appends the line of a tap where there is one node alone.
pub(crate) fn push_lone_tap(
    text: &mut Text,
    station: &Station,
    kind: Option<EquipmentType>,
    word: &[u8],
    path: &[u8],
    nodes: &[u32],
) -> Result<(), Memory>
    requires { AreNodes station.now nodes.now }
    ensures { (e : Entry) (part : ℕ) → kind ≡ type_of e → OnOk result (AddsSteps station.now.node_paths word.now path.now
        (lone_tap e part nodes.now) text.old text.new) }
{
    if nodes.len() != 1 {
        return Ok(());
    }
    if is_tapless(kind) {
        return Ok(());
    }
    push_tap(text, station, word, path, nodes[0])
}
