//! The lines of what an element gives.
ghost use Rattle.std.specs.Prelude.{◌≡◌, ◌<◌, ◌++◌, ℕ, [], ◌∷◌, length, OnOk, IfOk, List, if◌then◌else◌};
ghost use Rattle.std.specs.String.{string_bytes};
ghost use Rattle.ssd_text.specs.Nesting.{Entry};
ghost use Rattle.ssd_read.specs.Elements.{element_at};
ghost use Rattle.ssd_read.specs.Names.{is_good_name};
ghost use Rattle.ssd_read.specs.Types.{type_of, use_of_type};
ghost use Rattle.ssd_read.specs.Seen.{AreNodes};
ghost use Rattle.ssd_read.specs.Ends.{use_of};
ghost use Rattle.ssd_read.specs.Steps.{breaker_steps, disconnector_steps, infeed_steps, use_steps, transformer_steps};
ghost use Rattle.ssd_read.specs.Steps.{naming_step, item_steps_at, links_along, lone_tap, is_bond};
ghost use Rattle.station_lines.specs.Lines.{AddsSteps, nodes_of, type_word, shown_word};

use crate::links::{node_path, push_links, push_lone_tap, push_tap, push_taps};
use crate::rows::{push_four, push_three, push_two};
use ilk_base::{Memory, Text};
use ssd_read::{
    EquipmentType, Role, Use, WholeDrawing, is_bond, is_good_name, is_part, nodes_at, use_of,
};
use station_graph::Station;
use std::alloc::Global;

// Appends the line of a breaker.
fn push_breaker(
    text: &mut Text,
    station: &Station,
    word: &[u8],
    path: &[u8],
    nodes: &[u32],
) -> Result<(), Memory>
    requires { AreNodes station.now nodes.now }
    ensures { (part : ℕ) (name : List ℕ) → OnOk result (AddsSteps station.now.node_paths word.now path.now
        (breaker_steps part name nodes.now) text.old text.new) }
{
    let _ = word;
    match nodes {
        [first, second, ..] => push_four(
            text,
            b"breaker",
            path,
            node_path(station, *first),
            node_path(station, *second),
        ),
        _ => Ok(()),
    }
}

// Appends the line of a disconnector, or of an earthing switch where there is one node alone.
fn push_disconnector(
    text: &mut Text,
    station: &Station,
    word: &[u8],
    path: &[u8],
    nodes: &[u32],
) -> Result<(), Memory>
    requires { AreNodes station.now nodes.now }
    ensures { (part : ℕ) (name : List ℕ) → OnOk result (AddsSteps station.now.node_paths word.now path.now
        (disconnector_steps part name nodes.now) text.old text.new) }
{
    let _ = word;
    match nodes {
        [node] => push_three(text, b"earthing", path, node_path(station, *node)),
        [first, second, ..] => push_four(
            text,
            b"disconnector",
            path,
            node_path(station, *first),
            node_path(station, *second),
        ),
        [] => Ok(()),
    }
}

// Appends the lines of an infeed and its tap.
fn push_infeed(
    text: &mut Text,
    station: &Station,
    word: &[u8],
    path: &[u8],
    nodes: &[u32],
) -> Result<(), Memory>
    requires { AreNodes station.now nodes.now }
    ensures { (part : ℕ) (name : List ℕ) → OnOk result (AddsSteps station.now.node_paths word.now path.now
        (infeed_steps part name nodes.now) text.old text.new) }
{
    match nodes {
        [] => Ok(()),
        [node, ..] => {
            push_three(text, b"infeed", path, node_path(station, *node))?;
            push_tap(text, station, word, path, *node)
        }
    }
}

// Appends the lines of what equipment gives that is no switch.
fn push_other(
    text: &mut Text,
    station: &Station,
    kind: Option<EquipmentType>,
    word: &[u8],
    path: &[u8],
    nodes: &[u32],
) -> Result<(), Memory>
    requires { AreNodes station.now nodes.now }
    ensures { (e : Entry) (part : ℕ) → kind ≡ type_of e → OnOk result (AddsSteps station.now.node_paths word.now path.now
        (links_along (is_bond e) part nodes.now ++ lone_tap e part nodes.now) text.old text.new) }
{
    push_links(text, station, is_bond(kind), word, path, nodes)?;
    push_lone_tap(text, station, kind, word, path, nodes)
}

// Appends the lines of what equipment gives.
fn push_use(
    text: &mut Text,
    station: &Station,
    kind: Option<EquipmentType>,
    word: &[u8],
    path: &[u8],
    nodes: &[u32],
) -> Result<(), Memory>
    requires { AreNodes station.now nodes.now }
    ensures { (e : Entry) (part : ℕ) → kind ≡ type_of e → OnOk result (AddsSteps station.now.node_paths word.now path.now
        (use_steps (use_of e) e part nodes.now) text.old text.new) }
{
    match use_of(kind) {
        Use::Breaker => push_breaker(text, station, word, path, nodes),
        Use::Disconnector => push_disconnector(text, station, word, path, nodes),
        Use::Infeed => push_infeed(text, station, word, path, nodes),
        Use::Other => push_other(text, station, kind, word, path, nodes),
    }
}

// Appends the lines of what a transformer gives.
fn push_transformer(
    text: &mut Text,
    station: &Station,
    word: &[u8],
    path: &[u8],
    nodes: &[u32],
) -> Result<(), Memory>
    requires { AreNodes station.now nodes.now }
    ensures { (part : ℕ) → OnOk result (AddsSteps station.now.node_paths word.now path.now
        (transformer_steps part nodes.now) text.old text.new) }
{
    push_links(text, station, false, word, path, nodes)?;
    push_taps(text, station, word, path, nodes)
}

/// A word as it is shown: itself, or a dash where it is empty or holds a control character.
pub fn shown_word(word: &[u8]) -> &[u8]
    ensures { result.now ≡ shown_word word.now }
{
    if is_good_name(word) { word } else { b"-" }
}

// Appends the lines of what equipment at a place gives.
fn push_equipment(
    alloc: Global,
    text: &mut Text,
    whole: &WholeDrawing<'_>,
    i: u32,
) -> Result<(), Memory>
    requires within { i < length whole.now }
    requires role { (element_at whole.now i).role ≡ Role.ConductingEquipment }
    ensures { OnOk result (AddsSteps (nodes_of whole.now) (type_word (element_at whole.now i))
        (element_at whole.now i).path (item_steps_at whole.now i) text.old text.new) }
{
    let drawing = whole.drawing();
    let station = whole.station();
    let nodes = nodes_at(alloc, whole.ends(i))?;
    let path = drawing.path(i).as_bytes();
    let kind = drawing.kind(i);
    match drawing.attribute(alloc, i, "type")? {
        Some(word) => {
            let word = shown_word(word.as_str().as_bytes());
            push_use(text, station, kind, word, path, &nodes)
        }
        None => push_use(text, station, kind, b"-", path, &nodes),
    }
}

// Appends the lines of what an element at a place gives.
fn push_items(
    alloc: Global,
    text: &mut Text,
    whole: &WholeDrawing<'_>,
    i: u32,
) -> Result<(), Memory>
    requires { i < length whole.now }
    ensures { OnOk result (AddsSteps (nodes_of whole.now) (type_word (element_at whole.now i))
        (element_at whole.now i).path (item_steps_at whole.now i) text.old text.new) }
{
    let drawing = whole.drawing();
    match drawing.role(i) {
        Role::ConductingEquipment => push_equipment(alloc, text, whole, i),
        Role::PowerTransformer => {
            let nodes = nodes_at(alloc, whole.winding_ends(i))?;
            let path = drawing.path(i).as_bytes();
            push_transformer(text, whole.station(), b"PTR", path, &nodes)
        }
        _ => Ok(()),
    }
}

// Appends the line of the part or the node that an element is.
fn push_naming(text: &mut Text, whole: &WholeDrawing<'_>, i: u32) -> Result<(), Memory>
    requires { i < length whole.now }
    ensures { OnOk result (AddsSteps (nodes_of whole.now) (type_word (element_at whole.now i))
        (element_at whole.now i).path (naming_step (element_at whole.now i)) text.old text.new) }
{
    let drawing = whole.drawing();
    if is_part(drawing, i) {
        return push_two(text, b"part", drawing.path(i).as_bytes());
    }
    if drawing.role(i) == Role::ConnectivityNode {
        return push_two(text, b"node", drawing.path(i).as_bytes());
    }
    Ok(())
}

// Appends the lines of an element.
pub(crate) fn push_element(
    alloc: Global,
    text: &mut Text,
    whole: &WholeDrawing<'_>,
    i: u32,
) -> Result<(), Memory>
    requires { i < length whole.now }
    ensures { OnOk result (AddsSteps (nodes_of whole.now) (type_word (element_at whole.now i))
        (element_at whole.now i).path (naming_step (element_at whole.now i) ++ item_steps_at whole.now i)
        text.old text.new) }
{
    push_naming(text, whole, i)?;
    push_items(alloc, text, whole, i)
}
