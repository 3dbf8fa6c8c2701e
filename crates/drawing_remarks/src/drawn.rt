//! Remarks on what is drawn: each a test of an element.
ghost use Rattle.std.specs.Prelude.{◌≡◌, ◌<◌, ◌==◌, ◌&&◌, length, IfOk, List, ℕ, Option, true, string_bytes, position, IfSome, not, ◌+◌};
ghost use Rattle.std.specs.List.{list_any};
ghost use Rattle.std.specs.Option.{option_map};
ghost use Rattle.ssd_read.specs.Elements.{element_at, attribute_value};
ghost use Rattle.drawing_remarks.specs.Drawn.{is_equipment, local_name, is_read_tag, stands_in_read_tag, is_passed_over};
ghost use Rattle.drawing_remarks.specs.Drawn.{has_unknown_type, has_type_in_case, is_earth, is_oddly_grounded};
ghost use Rattle.drawing_remarks.specs.Drawn.{two_differ, is_no_bond, is_joining_winding, is_named_as_earth};
ghost use Rattle.drawing_remarks.specs.Drawn.{names_differ, names_two_nodes, has_unearthed_type, has_known_type};
ghost use Rattle.drawing_remarks.specs.Drawn.{written_type, equipment_use};

use crate::types::{EARTHED_TYPES, READ_TAGS, TYPES, is_among, is_spelled, same_letters};
use ilk_base::Memory;
use ssd_read::{
    Drawing, Role, TerminalPlace, Use, WholeDrawing, after_slash, is_bond, nodes_at, use_of,
};
use std::alloc::Global;

// Where the first colon is.
fn colon(name: &[u8]) -> Option<usize>
    ensures place { result ≡ position (λ b. b == 58) name.now }
    ensures within { IfSome result (λ i. i < length name.now) }
{
    name.iter().position(|b| *b == b':')
}

// A tag's name without its prefix.
fn local_name(name: &str) -> &[u8]
    ensures { result.now ≡ local_name name.now }
{
    let name = name.as_bytes();
    match colon(name) {
        Some(i) => {
            let (_, local) = name.split_at(i + 1);
            local
        }
        None => name,
    }
}

// Whether a tag is named as those that are read.
fn is_read_tag(name: &str) -> bool
    ensures { result ≡ is_read_tag name.now }
{
    is_among(&READ_TAGS, local_name(name))
}

// Whether the element in which one stands is named as those that are read.
#[tactic(auto, using(crate::proofs::Parents::parent_in))]
fn stands_in_read_tag(drawing: &Drawing<'_>, i: u32) -> bool
    requires { i < length drawing.now }
    ensures { result ≡ stands_in_read_tag drawing.now (element_at drawing.now i) }
{
    // Its clause says that they are those of a tree.
    let _count = drawing.count();
    match drawing.parent(i) {
        Some(parent) => is_read_tag(drawing.tag(parent)),
        None => false,
    }
}

// Whether an element is passed over, though it is named as those that are read.
pub(crate) fn is_passed_over(drawing: &Drawing<'_>, i: u32) -> bool
    requires { i < length drawing.now }
    ensures { result ≡ is_passed_over drawing.now (element_at drawing.now i) }
{
    if drawing.role(i) != Role::Skipped || !is_read_tag(drawing.tag(i)) {
        return false;
    }
    !(drawing.within(i) == Role::Skipped && stands_in_read_tag(drawing, i))
}

// The type of conducting equipment, as it is written.
fn written_type(alloc: Global, drawing: &Drawing<'_>, i: u32) -> Result<Option<String>, Memory>
    requires { i < length drawing.now }
    ensures { IfOk result (λ word. option_map string_bytes word ≡ written_type (element_at drawing.now i)) }
{
    if drawing.role(i) != Role::ConductingEquipment {
        return Ok(None);
    }
    drawing.attribute(alloc, i, "type")
}

// Whether equipment has a type that is none of the standard's.
pub(crate) fn has_unknown_type(alloc: Global, drawing: &Drawing<'_>, i: u32) -> Result<bool, Memory>
    requires { i < length drawing.now }
    ensures { IfOk result (λ b. b ≡ has_unknown_type (element_at drawing.now i)) }
{
    match written_type(alloc, drawing, i)? {
        Some(word) => Ok(!is_spelled(&TYPES, word.as_str())),
        None => Ok(false),
    }
}

// Whether equipment has a type that differs from one of the standard's in case alone.
pub(crate) fn has_type_in_case(alloc: Global, drawing: &Drawing<'_>, i: u32) -> Result<bool, Memory>
    requires { i < length drawing.now }
    ensures { IfOk result (λ b. b ≡ has_type_in_case (element_at drawing.now i)) }
{
    match written_type(alloc, drawing, i)? {
        Some(word) => {
            let word = word.as_str();
            Ok(is_spelled(&TYPES, word) && !is_among(&TYPES, word.as_bytes()))
        }
        None => Ok(false),
    }
}

// Whether an end stands on earth.
fn is_earth(end: TerminalPlace) -> bool
    ensures { result ≡ is_earth end }
{
    match end {
        TerminalPlace::Earth => true,
        TerminalPlace::Node(_) | TerminalPlace::Missing(_) => false,
    }
}

// Whether one of these ends stands on earth.
fn some_earth(ends: &[TerminalPlace]) -> bool
    ensures { result ≡ list_any is_earth ends.now }
{
    ends.iter().any(|end| is_earth(*end))
}

// Whether equipment has a type that is none of those that stand between a node and earth by their nature.
fn has_unearthed_type(alloc: Global, drawing: &Drawing<'_>, i: u32) -> Result<bool, Memory>
    requires { i < length drawing.now }
    ensures { IfOk result (λ b. b ≡ has_unearthed_type (element_at drawing.now i)) }
{
    match written_type(alloc, drawing, i)? {
        Some(word) => Ok(!is_among(&EARTHED_TYPES, word.as_str().as_bytes())),
        None => Ok(false),
    }
}

// Whether equipment has a type that is one of the standard's.
fn has_known_type(alloc: Global, drawing: &Drawing<'_>, i: u32) -> Result<bool, Memory>
    requires { i < length drawing.now }
    ensures { IfOk result (λ b. b ≡ has_known_type (element_at drawing.now i)) }
{
    match written_type(alloc, drawing, i)? {
        Some(word) => Ok(is_among(&TYPES, word.as_str().as_bytes())),
        None => Ok(false),
    }
}

// What equipment is to a station.
pub(crate) fn equipment_use(drawing: &Drawing<'_>, i: u32) -> Option<Use>
    requires { i < length drawing.now }
    ensures { result ≡ equipment_use (element_at drawing.now i) }
{
    if drawing.role(i) != Role::ConductingEquipment {
        return None;
    }
    Some(use_of(drawing.kind(i)))
}

// Whether equipment has a grounded terminal, though it is no earthing switch and does not stand at earth by its
// nature.
pub(crate) fn is_oddly_grounded(
    alloc: Global,
    whole: &WholeDrawing<'_>,
    i: u32,
) -> Result<bool, Memory>
    requires { i < length whole.now }
    ensures { IfOk result (λ b. b ≡ is_oddly_grounded whole.now i (element_at whole.now i)) }
{
    let drawing = whole.drawing();
    if let Some(Use::Disconnector) = equipment_use(drawing, i) {
        return Ok(false);
    }
    if !some_earth(whole.ends(i)) {
        return Ok(false);
    }
    has_unearthed_type(alloc, drawing, i)
}

// Whether one of these nodes is another than the first.
fn some_other(first: u32, nodes: &[u32]) -> bool
    ensures { result ≡ list_any (λ n. not (n == first)) nodes.now }
{
    nodes.iter().any(|node| *node != first)
}

// Whether two of these nodes differ.
fn two_differ(nodes: &[u32]) -> bool
    ensures { result ≡ two_differ nodes.now }
{
    match nodes {
        [first, rest @ ..] => some_other(*first, rest),
        [] => false,
    }
}

// Whether equipment of one of the standard's types joins two nodes and is no bond.
pub(crate) fn is_no_bond(alloc: Global, whole: &WholeDrawing<'_>, i: u32) -> Result<bool, Memory>
    requires { i < length whole.now }
    ensures { IfOk result (λ b. b ≡ is_no_bond whole.now i (element_at whole.now i)) }
{
    let drawing = whole.drawing();
    if drawing.role(i) != Role::ConductingEquipment {
        return Ok(false);
    }
    let kind = drawing.kind(i);
    let Use::Other = use_of(kind) else {
        return Ok(false);
    };
    if is_bond(kind) {
        return Ok(false);
    }
    let nodes = nodes_at(alloc, whole.ends(i))?;
    if !two_differ(&nodes) {
        return Ok(false);
    }
    has_known_type(alloc, drawing, i)
}

// Whether a winding has more than one terminal on nodes.
pub(crate) fn is_joining_winding(
    alloc: Global,
    whole: &WholeDrawing<'_>,
    i: u32,
) -> Result<bool, Memory>
    requires { i < length whole.now }
    ensures { IfOk result (λ b. b ≡ is_joining_winding whole.now i (element_at whole.now i)) }
{
    if whole.drawing().role(i) != Role::TransformerWinding {
        return Ok(false);
    }
    let nodes = nodes_at(alloc, whole.ends(i))?;
    Ok(nodes.len() > 1)
}

// Whether a node's name has the letters of `grounded`, in another case.
pub(crate) fn is_named_as_earth(drawing: &Drawing<'_>, i: u32) -> bool
    requires { i < length drawing.now }
    ensures { result ≡ is_named_as_earth (element_at drawing.now i) }
{
    if drawing.role(i) != Role::ConnectivityNode {
        return false;
    }
    match drawing.name(i) {
        Some(name) => same_letters("grounded", name),
        None => false,
    }
}

// Whether the last name of a node's path and its own name differ.
fn names_differ(key: &Option<String>, name: &Option<String>) -> bool
    ensures { result ≡ names_differ (option_map string_bytes key.now) (option_map string_bytes name.now) }
{
    match key {
        Some(key) => match name {
            Some(name) => after_slash(key.as_bytes()) != name.as_bytes(),
            None => false,
        },
        None => false,
    }
}

// Whether a terminal names two nodes.
pub(crate) fn names_two_nodes(alloc: Global, drawing: &Drawing<'_>, i: u32) -> Result<bool, Memory>
    requires { i < length drawing.now }
    ensures { IfOk result (λ b. b ≡ names_two_nodes (element_at drawing.now i)) }
{
    if drawing.role(i) != Role::Terminal {
        return Ok(false);
    }
    let key = drawing.attribute(alloc, i, "connectivityNode")?;
    let name = drawing.attribute(alloc, i, "cNodeName")?;
    Ok(names_differ(&key, &name))
}
