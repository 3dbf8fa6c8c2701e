//! Pass 2: what the ends of equipment and of windings may be.

ghost use Rattle.std.specs.Prelude.{◌≡◌, ℕ, ◌<◌, ◌≤◌, ◌++◌, List, [], ◌∷◌, length, IfOk, OnOk, Option, Some, None};
ghost use Rattle.std.specs.Prelude.{slice_index_or};
ghost use Rattle.ssd_read.specs.declared.terminal_place.TerminalPlace.{TerminalPlace as AnEnd};
ghost use Rattle.ssd_read.specs.Elements.{Element, element_at};
ghost use Rattle.ssd_read.specs.Names.{first_fault};
ghost use Rattle.ssd_read.specs.Ends.{nodes_at, missing_fault, are_apart, breaker_fault, disconnector_fault};
ghost use Rattle.ssd_read.specs.Ends.{infeed_fault, use_fault, fault_of_ends, ends_of, end_fault};
ghost use Rattle.ssd_read.specs.Seen.{Finds};
ghost use Rattle.ssd_text.specs.declared.limits.TheConstants.{ELEMENTS};

use crate::drawing::Drawing;
use crate::end_lists::EndLists;
use crate::ends::nodes_at;
use crate::refusal::SsdRefusal;
use crate::role::Role;
use crate::terminal_place::TerminalPlace;
use crate::types::{Use, use_of};
use ilk_base::Memory;
use std::alloc::Global;

// The first end without a node.
fn missing_fault(ends: &[TerminalPlace]) -> Option<SsdRefusal>
    ensures { result ≡ missing_fault ends.now }
{
    for end in ends {
        if let TerminalPlace::Missing(at) = *end {
            return Some(SsdRefusal::NodeMissing { at });
        }
    }
    None
}

// Whether the first two nodes differ.
fn are_apart(nodes: &[u32]) -> bool
    ensures { result ≡ are_apart nodes.now }
{
    match nodes {
        [a, b, ..] => *a != *b,
        _ => true,
    }
}

fn breaker_fault(at: u32, ends: &[TerminalPlace], nodes: &[u32]) -> Option<SsdRefusal>
    requires nodes { nodes.now ≡ nodes_at ends.now }
    requires few { length ends.now ≤ ELEMENTS }
    ensures { result ≡ breaker_fault at ends.now }
{
    if ends.len() != 2 {
        return Some(SsdRefusal::Terminals {
            at,
            count: ends.len() as u32,
        });
    }
    if nodes.len() != 2 {
        return Some(SsdRefusal::Grounded { at });
    }
    if !are_apart(nodes) {
        return Some(SsdRefusal::Loop { at });
    }
    None
}

fn disconnector_fault(at: u32, ends: &[TerminalPlace], nodes: &[u32]) -> Option<SsdRefusal>
    requires nodes { nodes.now ≡ nodes_at ends.now }
    requires few { length ends.now ≤ ELEMENTS }
    ensures { result ≡ disconnector_fault at ends.now }
{
    if ends.len() != 2 {
        return Some(SsdRefusal::Terminals {
            at,
            count: ends.len() as u32,
        });
    }
    if nodes.is_empty() {
        return Some(SsdRefusal::Grounded { at });
    }
    if !are_apart(nodes) {
        return Some(SsdRefusal::Loop { at });
    }
    None
}

fn infeed_fault(at: u32, nodes: &[u32]) -> Option<SsdRefusal>
    requires few { length nodes.now ≤ ELEMENTS }
    ensures { (ends : List AnEnd) → nodes.now ≡ nodes_at ends → result ≡ infeed_fault at ends }
{
    if nodes.len() != 1 {
        return Some(SsdRefusal::Terminals {
            at,
            count: nodes.len() as u32,
        });
    }
    None
}

// The fault of equipment of this use, by its ends.
fn use_fault(kind: Use, at: u32, ends: &[TerminalPlace], nodes: &[u32]) -> Option<SsdRefusal>
    requires nodes { nodes.now ≡ nodes_at ends.now }
    requires few { length ends.now ≤ ELEMENTS }
    requires few_nodes { length nodes.now ≤ ELEMENTS }
    ensures { result ≡ use_fault kind at ends.now }
{
    match kind {
        Use::Breaker => breaker_fault(at, ends, nodes),
        Use::Disconnector => disconnector_fault(at, ends, nodes),
        Use::Infeed => infeed_fault(at, nodes),
        Use::Other => None,
    }
}

// The fault of an element, by its ends.
fn fault_of_ends(
    alloc: Global,
    drawing: &Drawing<'_>,
    i: u32,
    ends: &[TerminalPlace],
) -> Result<Option<SsdRefusal>, Memory>
    requires within { i < length drawing.now }
    requires few { length ends.now ≤ ELEMENTS }
    ensures { IfOk result (λ o. o ≡ fault_of_ends (element_at drawing.now i) ends.now) }
{
    let role = drawing.role(i);
    if role != Role::ConductingEquipment && role != Role::TransformerWinding {
        return Ok(None);
    }
    if let Some(fault) = missing_fault(ends) {
        return Ok(Some(fault));
    }
    if role == Role::TransformerWinding {
        return Ok(None);
    }
    let kind = use_of(drawing.kind(i));
    let nodes = nodes_at(alloc, ends)?;
    Ok(use_fault(kind, drawing.at(i), ends, &nodes))
}

// The first fault of ends.
pub(crate) fn check_ends(
    alloc: Global,
    drawing: &Drawing<'_>,
    own: &EndLists,
) -> Result<(), SsdRefusal>
    requires len { length own.now ≡ length drawing.now }
    requires own { (j : ℕ) → j < length drawing.now → slice_index_or own.now j [] ≡ ends_of drawing.now j }
    ensures { Finds result (first_fault (end_fault drawing.now) [] drawing.now) }
{
    for i in 0..drawing.count() {
        if let Some(fault) = fault_of_ends(alloc, drawing, i, own.of(i))? {
            return Err(fault);
        }
    }
    Ok(())
}
