//! The remarks on each element.
ghost use Rattle.std.specs.Prelude.{◌≡◌, ◌==◌, ◌&&◌, ◌<◌, ◌++◌, ℕ, [], ◌∷◌, length, map, filter, take, IfOk, slice_get};
ghost use Rattle.std.specs.Prelude.{false, true, if◌then◌else◌, ◌≤◌};
ghost use Rattle.std.specs.List.{list_any};
ghost use Rattle.std.specs.Option.{option_map_or};
ghost use Rattle.ssd_read.specs.Elements.{element_at};
ghost use Rattle.ssd_read.specs.Names.{is_node};
ghost use Rattle.ssd_read.specs.Ends.{ends_of, nodes_at};
ghost use Rattle.station_lines.specs.Rows.{text_of};
ghost use Rattle.drawing_remarks.specs.Drawn.{equipment_use, is_infeed_use, is_equipment};
ghost use Rattle.drawing_remarks.specs.Station.{node_number, is_loose_end, is_equipment_in, has_equipment_beside};
ghost use Rattle.drawing_remarks.specs.Labels.{AreFacts, is_said, lone_by, apart_by};
ghost use Rattle.drawing_remarks.specs.StationText.{remark_row, remark_rows_at, remark_rows};
ghost use Rattle.drawing_remarks.specs.Places.{remark_path};

use crate::drawn::{
    equipment_use, has_type_in_case, has_unknown_type, is_joining_winding, is_named_as_earth,
    is_no_bond, is_oddly_grounded, is_passed_over, names_two_nodes,
};
use crate::facts::Facts;
use crate::kinds::{KINDS, RemarkKind, kind_word};
use crate::nodes::{either, has_no_infeed, has_no_switch, is_end, one_if};
use crate::places::remark_path;
use ilk_base::{Memory, Text};
use ssd_read::{Drawing, Role, Use, nodes_at};
use station_lines::push_three;
use std::alloc::Global;

// The first of these nodes.
fn first_of(nodes: &[u32]) -> Option<u32>
    ensures { result ≡ slice_get nodes.now 0 }
{
    match nodes {
        [first, ..] => Some(*first),
        [] => None,
    }
}

// Whether an element is an infeed from whose node no links lead to a breaker or a disconnector.
fn is_lone_infeed(alloc: Global, facts: &Facts<'_>, i: u32) -> Result<bool, Memory>
    requires facts { AreFacts facts.now }
    requires within { i < length facts.now.whole.now }
    ensures { IfOk result (λ b. b ≡ (is_infeed_use (equipment_use (element_at facts.now.whole.now i))
        && option_map_or (lone_by facts.now.linked facts.now.station.now)
        (slice_get (nodes_at (ends_of facts.now.whole.now i)) 0) false)) }
{
    let Some(Use::Infeed) = equipment_use(facts.whole.drawing(), i) else {
        return Ok(false);
    };
    let nodes = nodes_at(alloc, facts.whole.ends(i))?;
    match first_of(&nodes) {
        Some(node) => Ok(facts.is_lone(node)),
        None => Ok(false),
    }
}

// Whether an element is a node, not the first, that no items join to a node before it.
fn is_apart(facts: &Facts<'_>, i: u32, node: u32) -> bool
    requires facts { AreFacts facts.now }
    requires within { i < length facts.now.whole.now }
    requires node { node ≡ node_number facts.now.whole.now i }
    ensures { result ≡ (is_node (element_at facts.now.whole.now i)
        && apart_by facts.now.joined (node_number facts.now.whole.now i)) }
{
    match facts.whole.drawing().role(i) {
        Role::ConnectivityNode => facts.is_apart(node),
        _ => false,
    }
}

// Whether an element is equipment that stands in another.
fn is_equipment_in(drawing: &Drawing<'_>, parent: u32, i: u32) -> bool
    requires { i < length drawing.now }
    ensures { result ≡ is_equipment_in parent (element_at drawing.now i) }
{
    if drawing.role(i) != Role::ConductingEquipment {
        return false;
    }
    match drawing.parent(i) {
        Some(own) => parent == own,
        None => false,
    }
}

// Whether equipment stands in an element.
fn has_equipment(drawing: &Drawing<'_>, parent: u32) -> bool
    ensures { result ≡ list_any (is_equipment_in parent) drawing.now }
{
    let mut found = false;
    for i in 0..drawing.count() {
        found = either(found, is_equipment_in(drawing, parent, i));
    }
    found
}

// Whether equipment stands beside an element.
fn has_equipment_beside(drawing: &Drawing<'_>, i: u32) -> bool
    requires { i < length drawing.now }
    ensures { result ≡ has_equipment_beside drawing.now (element_at drawing.now i) }
{
    match drawing.parent(i) {
        Some(parent) => has_equipment(drawing, parent),
        None => false,
    }
}

// Whether an element is a node of a bay with equipment, at which one item ends that goes nowhere from there.
fn is_loose_end(facts: &Facts<'_>, i: u32, node: u32) -> bool
    requires facts { AreFacts facts.now }
    requires within { i < length facts.now.whole.now }
    requires node { node ≡ node_number facts.now.whole.now i }
    ensures { result ≡ is_loose_end facts.now.whole.now facts.now.station.now i }
{
    let drawing = facts.whole.drawing();
    drawing.role(i) == Role::ConnectivityNode
        && is_end(facts.station, node)
        && has_equipment_beside(drawing, i)
}

// Whether a remark of a kind is said of an element, before which so many nodes stand.
fn is_said(
    alloc: Global,
    facts: &Facts<'_>,
    kind: RemarkKind,
    i: u32,
    node: u32,
) -> Result<bool, Memory>
    requires facts { AreFacts facts.now }
    requires within { i < length facts.now.whole.now }
    requires node { node ≡ node_number facts.now.whole.now i }
    ensures { IfOk result (λ b. b ≡ is_said facts.now.whole.now facts.now.station.now facts.now.linked
        facts.now.joined kind i) }
{
    let whole = facts.whole;
    let drawing = whole.drawing();
    match kind {
        RemarkKind::NoSwitch => Ok(i == 0 && has_no_switch(facts.station)),
        RemarkKind::NoInfeed => Ok(i == 0 && has_no_infeed(facts.station)),
        RemarkKind::PassedOver => Ok(is_passed_over(drawing, i)),
        RemarkKind::UnknownType => has_unknown_type(alloc, drawing, i),
        RemarkKind::TypeCase => has_type_in_case(alloc, drawing, i),
        RemarkKind::Grounded => is_oddly_grounded(alloc, whole, i),
        RemarkKind::NoBond => is_no_bond(alloc, whole, i),
        RemarkKind::LoneInfeed => is_lone_infeed(alloc, facts, i),
        RemarkKind::Winding => is_joining_winding(alloc, whole, i),
        RemarkKind::EarthName => Ok(is_named_as_earth(drawing, i)),
        RemarkKind::LooseEnd => Ok(is_loose_end(facts, i, node)),
        RemarkKind::Apart => Ok(is_apart(facts, i, node)),
        RemarkKind::TwoNodes => names_two_nodes(alloc, drawing, i),
    }
}

// Appends the line of a remark of a kind, where it is said of an element, and says whether it is.
fn push_remark(
    alloc: Global,
    text: &mut Text,
    facts: &Facts<'_>,
    kind: RemarkKind,
    i: u32,
    node: u32,
) -> Result<bool, Memory>
    requires facts { AreFacts facts.now }
    requires within { i < length facts.now.whole.now }
    requires node { node ≡ node_number facts.now.whole.now i }
    ensures said { IfOk result (λ b. b ≡ is_said facts.now.whole.now facts.now.station.now facts.now.linked
        facts.now.joined kind i) }
    ensures text { IfOk result (λ b. text.new ≡ text.old ++ text_of (if b then remark_row
        (remark_path facts.now.whole.now i) kind ∷ [] else [])) }
{
    if !is_said(alloc, facts, kind, i, node)? {
        return Ok(false);
    }
    let path = remark_path(alloc, facts.whole.drawing(), i)?;
    push_three(text, b"remark", kind_word(kind), path.bytes())?;
    Ok(true)
}

// Appends the lines of the remarks on an element, before which so many nodes stand, and gives how many they are.
fn push_remarks_at(
    alloc: Global,
    text: &mut Text,
    facts: &Facts<'_>,
    i: u32,
    node: u32,
) -> Result<u32, Memory>
    requires facts { AreFacts facts.now }
    requires within { i < length facts.now.whole.now }
    requires node { node ≡ node_number facts.now.whole.now i }
    ensures few { IfOk result (λ n. n ≤ 13) }
    ensures count { IfOk result (λ n. n ≡ length (remark_rows_at facts.now.whole.now (is_said facts.now.whole.now
        facts.now.station.now facts.now.linked facts.now.joined) i)) }
    ensures text { IfOk result (λ n. text.new ≡ text.old ++ text_of (remark_rows_at facts.now.whole.now
        (is_said facts.now.whole.now facts.now.station.now facts.now.linked facts.now.joined) i)) }
{
    let mut count = 0;
    for kind in KINDS {
        let said = push_remark(alloc, text, facts, kind, i, node)?;
        count += one_if(said);
    }
    Ok(count)
}

// Whether an element is a node.
fn is_node(drawing: &Drawing<'_>, i: u32) -> bool
    requires { i < length drawing.now }
    ensures { result ≡ is_node (element_at drawing.now i) }
{
    drawing.role(i) == Role::ConnectivityNode
}

// Appends the lines of all remarks, in document order, and gives how many they are.
pub(crate) fn push_remarks(alloc: Global, text: &mut Text, facts: &Facts<'_>) -> Result<u32, Memory>
    requires { AreFacts facts.now }
    ensures count { IfOk result (λ n. n ≡ length (remark_rows facts.now.whole.now (is_said facts.now.whole.now
        facts.now.station.now facts.now.linked facts.now.joined))) }
    ensures text { IfOk result (λ n. text.new ≡ text.old ++ text_of (remark_rows facts.now.whole.now
        (is_said facts.now.whole.now facts.now.station.now facts.now.linked facts.now.joined))) }
{
    let drawing = facts.whole.drawing();
    let mut count = 0;
    let mut node = 0;
    for i in 0..drawing.count() {
        count += push_remarks_at(alloc, text, facts, i, node)?;
        node += one_if(is_node(drawing, i));
    }
    Ok(count)
}
