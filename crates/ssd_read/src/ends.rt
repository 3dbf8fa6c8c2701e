//! Where terminals stand.

ghost use Rattle.std.specs.Prelude.{◌≡◌, ℕ, ◌<◌, ◌≤◌, ◌++◌, List, [], ◌∷◌, length, IfOk, OnOk, Option, Some, None};
ghost use Rattle.std.specs.Prelude.{Bool, true, codes, slice_set, slice_index_or, replicate, string_bytes};
ghost use Rattle.std.specs.Prelude.{if◌then◌else◌};
ghost use Rattle.std.specs.Option.{option_map};
ghost use Rattle.ssd_read.specs.declared.role.Role.TheVariants.{Terminal};
ghost use Rattle.ssd_read.specs.Elements.{Element, element_at, same_role, attribute_value};
ghost use Rattle.ssd_read.specs.Decoded.{AreNamesOf};
ghost use Rattle.ssd_text.specs.Nesting.{Entry};
ghost use Rattle.ssd_read.specs.Names.{keys_of};
ghost use Rattle.ssd_read.specs.SeenPaths.{AreNumbered};
ghost use Rattle.ssd_read.specs.Ends.{after_slash, is_grounded, with_slash, joined_names, wanted_key, end_of};
ghost use Rattle.ssd_read.specs.Ends.{is_terminal_of, ends_of, node_at, nodes_at};
ghost use Rattle.ssd_read.specs.Steps.{is_winding_terminal_of, winding_ends_of};
ghost use Rattle.ssd_text.specs.declared.limits.TheConstants.{ELEMENTS};

use crate::drawing::Drawing;
use crate::end_lists::EndLists;
use crate::paths::Names;
use crate::role::Role;
use crate::terminal_place::TerminalPlace;
use crate::types::Use;
use ilk_base::Memory;
use std::alloc::Global;

/// What follows the last slash of a name, or all. Time: the name.
pub fn after_slash(name: &[u8]) -> &[u8]
    ensures { result.now ≡ after_slash name.now }
{
    let mut start = 0;
    for (i, b) in name.iter().enumerate() {
        if *b == b'/' {
            start = i + 1;
        }
    }
    let (_, last) = name.split_at(start);
    last
}

// The names by which a terminal says its node, decoded once: the node's key, and its own name.
#[derive(Drop)]
pub(crate) struct TerminalNames {
    key: Option<String>,
    node: Option<String>,
}

// The names by which a terminal says its node.
fn names_of(alloc: Global, drawing: &Drawing<'_>, i: u32) -> Result<TerminalNames, Memory>
    requires { i < length drawing.now }
    ensures { IfOk result (AreNamesOf (element_at drawing.now i).entry) }
{
    let key = drawing.attribute(alloc, i, "connectivityNode")?;
    let node = drawing.attribute(alloc, i, "cNodeName")?;
    Ok(TerminalNames { key, node })
}

// Whether a terminal of these names is grounded.
fn is_grounded(names: &TerminalNames) -> bool
    ensures { (e : Entry) → AreNamesOf e names.now → result ≡ is_grounded e }
{
    match &names.node {
        Some(node) => "grounded" == node.as_str(),
        None => match &names.key {
            Some(key) => "grounded".as_bytes() == after_slash(key.as_bytes()),
            None => false,
        },
    }
}

// Two names joined, where both are there.
fn joined(front: Option<String>, back: Option<String>) -> Result<Option<String>, Memory>
    ensures { IfOk result (λ o. option_map string_bytes o ≡ with_slash (option_map string_bytes front)
        (option_map string_bytes back)) }
{
    let Some(mut path) = front else {
        return Ok(None);
    };
    let Some(back) = back else {
        return Ok(None);
    };
    path.push_str("/")?;
    path.push_str(back.as_str())?;
    Ok(Some(path))
}

// The four names of a terminal joined, where all are there; the last is its node's.
fn joined_names(
    alloc: Global,
    drawing: &Drawing<'_>,
    i: u32,
    node: Option<String>,
) -> Result<Option<String>, Memory>
    requires within { i < length drawing.now }
    requires node { option_map string_bytes node
        ≡ attribute_value (element_at drawing.now i).entry (codes "cNodeName") }
    ensures { IfOk result (λ o. option_map string_bytes o ≡ joined_names (element_at drawing.now i).entry) }
{
    let substation = drawing.attribute(alloc, i, "substationName")?;
    let level = drawing.attribute(alloc, i, "voltageLevelName")?;
    let bay = drawing.attribute(alloc, i, "bayName")?;
    let level = joined(substation, level)?;
    let bay = joined(level, bay)?;
    let key = joined(bay, node)?;
    Ok(key)
}

// The key of the node on which a terminal stands, where it says one.
fn wanted_key(
    alloc: Global,
    drawing: &Drawing<'_>,
    i: u32,
    names: TerminalNames,
) -> Result<Option<String>, Memory>
    requires within { i < length drawing.now }
    requires names { AreNamesOf (element_at drawing.now i).entry names }
    ensures { IfOk result (λ o. option_map string_bytes o ≡ wanted_key (element_at drawing.now i).entry) }
{
    let TerminalNames { key, node } = names;
    match key {
        Some(key) => Ok(Some(key)),
        None => joined_names(alloc, drawing, i, node),
    }
}

// Where a terminal stands.
fn end_of(
    alloc: Global,
    drawing: &Drawing<'_>,
    keys: &Names,
    i: u32,
) -> Result<TerminalPlace, Memory>
    requires within { i < length drawing.now }
    requires keys { AreNumbered keys.now (keys_of drawing.now) }
    requires few { length drawing.now ≤ ELEMENTS }
    ensures { IfOk result (λ e. e ≡ end_of drawing.now (element_at drawing.now i)) }
{
    let names = names_of(alloc, drawing, i)?;
    if is_grounded(&names) {
        return Ok(TerminalPlace::Earth);
    }
    match wanted_key(alloc, drawing, i, names)? {
        None => Ok(TerminalPlace::Missing(drawing.at(i))),
        Some(key) => match keys.find(key.as_str()) {
            Some(node) => Ok(TerminalPlace::Node(node as u32)),
            None => Ok(TerminalPlace::Missing(drawing.at(i))),
        },
    }
}

// Adds the end of a terminal in a winding to the element that holds the winding.
fn add_winding_end(
    drawing: &Drawing<'_>,
    i: u32,
    holder: u32,
    end: TerminalPlace,
    windings: &mut EndLists,
) -> Result<(), Memory>
    requires within { i < length drawing.now }
    requires is_terminal { same_role (element_at drawing.now i).role Terminal ≡ true }
    requires holder { (element_at drawing.now i).entry.parent ≡ Some holder }
    requires holder_within { holder < length drawing.now }
    requires windings { length windings.old ≡ length drawing.now }
    ensures windings_len { length windings.new ≡ length windings.old }
    ensures windings { OnOk result ((j : ℕ) → j < length drawing.now → slice_index_or windings.new j [] ≡ slice_index_or
        windings.old j [] ++ (if is_winding_terminal_of drawing.now j (element_at drawing.now i) then end
        ∷ [] else [])) }
{
    if drawing.within(i) != Role::TransformerWinding {
        return Ok(());
    }
    let Some(outer) = drawing.parent(holder) else {
        return Ok(());
    };
    if outer >= drawing.count() {
        return Ok(());
    }
    windings.push(outer, end)?;
    Ok(())
}

// Adds the end of a terminal to the element that holds it, and to its winding's transformer.
fn add_end(
    alloc: Global,
    drawing: &Drawing<'_>,
    keys: &Names,
    i: u32,
    own: &mut EndLists,
    windings: &mut EndLists,
) -> Result<(), Memory>
    requires within { i < length drawing.now }
    requires keys { AreNumbered keys.now (keys_of drawing.now) }
    requires own { length own.old ≡ length drawing.now }
    requires windings { length windings.old ≡ length drawing.now }
    ensures own_len { length own.new ≡ length own.old }
    ensures windings_len { length windings.new ≡ length windings.old }
    ensures own { OnOk result ((j : ℕ) → j < length drawing.now → slice_index_or own.new j [] ≡ slice_index_or own.old j
        [] ++ (if is_terminal_of j (element_at drawing.now i) then end_of drawing.now (element_at drawing.now i)
        ∷ [] else [])) }
    ensures windings { OnOk result ((j : ℕ) → j < length drawing.now → slice_index_or windings.new j [] ≡ slice_index_or
        windings.old j [] ++ (if is_winding_terminal_of drawing.now j (element_at drawing.now i) then end_of drawing.now
        (element_at drawing.now i) ∷ [] else [])) }
{
    if drawing.role(i) != Role::Terminal {
        return Ok(());
    }
    let Some(holder) = drawing.parent(i) else {
        return Ok(());
    };
    if holder >= drawing.count() {
        return Ok(());
    }
    let end = end_of(alloc, drawing, keys, i)?;
    own.push(holder, end)?;
    add_winding_end(drawing, i, holder, end, windings)
}

// The ends of all elements, and of the windings of all elements.
pub(crate) fn all_ends(
    alloc: Global,
    drawing: &Drawing<'_>,
    keys: &Names,
) -> Result<(EndLists, EndLists), Memory>
    requires { AreNumbered keys.now (keys_of drawing.now) }
    ensures own_len { IfOk result (λ r. length r.0 ≡ length drawing.now) }
    ensures windings_len { IfOk result (λ r. length r.1 ≡ length drawing.now) }
    ensures own { IfOk result (λ r. (j : ℕ) → j < length drawing.now →
        slice_index_or r.0 j [] ≡ ends_of drawing.now j) }
    ensures windings { IfOk result (λ r. (j : ℕ) → j < length drawing.now →
        slice_index_or r.1 j [] ≡ winding_ends_of drawing.now j) }
{
    let mut own = EndLists::new(alloc, drawing.count())?;
    let mut windings = EndLists::new(alloc, drawing.count())?;
    for i in 0..drawing.count() {
        add_end(alloc, drawing, keys, i, &mut own, &mut windings)?;
    }
    Ok((own, windings))
}

// The node of an end.
fn node_at(end: TerminalPlace) -> Option<u32>
    ensures { result ≡ node_at end }
{
    match end {
        TerminalPlace::Node(node) => Some(node),
        TerminalPlace::Earth | TerminalPlace::Missing(_) => None,
    }
}

/// The nodes of the ends that are not grounded, in their order. Time and memory: the ends.
pub fn nodes_at(alloc: Global, ends: &[TerminalPlace]) -> Result<Vec<u32>, Memory>
    ensures { IfOk result (λ v. v.items ≡ nodes_at ends.now) }
{
    let nodes = ends.iter().filter_map(|end| node_at(*end)).collect(alloc)?;
    Ok(nodes)
}
