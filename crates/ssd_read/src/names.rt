//! Pass 1: names that are missing, and names that are there twice.

ghost use Rattle.std.specs.Prelude.{◌≡◌, ℕ, ◌<◌, ◌≤◌, ◌++◌, List, [], ◌∷◌, length, IfOk, OnOk, Bool, not, string_bytes};
ghost use Rattle.std.specs.Prelude.{IsTrue, codes};
ghost use Rattle.std.specs.Option.{option_map};
ghost use Rattle.ssd_text.specs.Nesting.{Entry};
ghost use Rattle.std.specs.List.{list_any, list_all};
ghost use Rattle.ssd_read.specs.Elements.{Element, element_at, attribute_value};
ghost use Rattle.ssd_read.specs.Names.{is_shown, is_good_name, lacks_name, is_nameless, key_of, same_path, same_key};
ghost use Rattle.ssd_read.specs.Names.{counted_paths, keys_of, name_fault, first_fault};
ghost use Rattle.ssd_read.specs.Seen.{Finds};
ghost use Rattle.ssd_read.specs.SeenPaths.{AreNumbered, HaveSame};

use crate::drawing::Drawing;
use crate::paths::{Names, Paths};
use crate::refusal::SsdRefusal;
use crate::role::{Role, counted_as};
use ilk_base::Memory;
use std::alloc::Global;

/// Whether a name is not empty and holds neither control characters nor U+007F. Time: the name.
pub fn is_good_name(name: &[u8]) -> bool
    ensures { result ≡ is_good_name name.now }
{
    !name.is_empty() && has_shown(name)
}

fn has_shown(name: &[u8]) -> bool
    ensures { result ≡ list_all is_shown name.now }
{
    name.iter().all(|b| *b >= 32 && *b != 127)
}

// Whether an element of this name has none that is good.
fn lacks_name(name: Option<&str>) -> bool
    ensures { (e : Entry) → option_map (λ s. s.now) name.entry ≡ attribute_value e (codes "name") → result
        ≡ lacks_name e }
{
    match name {
        Some(name) => !is_good_name(name.as_bytes()),
        None => true,
    }
}

// Whether an element lacks a name that it needs, or its type.
fn is_nameless(drawing: &Drawing<'_>, i: u32) -> bool
    requires { i < length drawing.now }
    ensures { result ≡ is_nameless (element_at drawing.now i) }
{
    let role = drawing.role(i);
    if counted_as(role).is_none() {
        return false;
    }
    if lacks_name(drawing.name(i)) {
        return true;
    }
    if role != Role::ConductingEquipment {
        return false;
    }
    drawing.kind(i).is_none()
}

// The key of a node.
fn key_of(alloc: Global, drawing: &Drawing<'_>, i: u32) -> Result<String, Memory>
    requires { i < length drawing.now }
    ensures { IfOk result (λ s. string_bytes s ≡ key_of (element_at drawing.now i)) }
{
    match drawing.attribute(alloc, i, "pathName")? {
        Some(key) => Ok(key),
        None => {
            let path = String::from_str(alloc, drawing.path(i))?;
            Ok(path)
        }
    }
}

// Adds the path of an element, and says whether no element of its kind had it.
fn add_path<'d>(drawing: &'d Drawing<'_>, i: u32, paths: &mut Paths<'d>) -> Result<bool, Memory>
    requires { i < length drawing.now }
    ensures new { IfOk result (λ b. (before : List Element) → HaveSame paths.old (counted_paths before) →
        b ≡ not (list_any (same_path (element_at drawing.now i)) before)) }
    ensures added { IfOk result (λ _. (before : List Element) → HaveSame paths.old (counted_paths before) →
        HaveSame paths.new (counted_paths (before ++ element_at drawing.now i ∷ []))) }
{
    match counted_as(drawing.role(i)) {
        None => Ok(true),
        Some(kind) => {
            let new = paths.add(kind, drawing.path(i))?;
            Ok(new)
        }
    }
}

// Adds the key of a node, and says whether no node had it.
fn add_key(alloc: Global, drawing: &Drawing<'_>, i: u32, keys: &mut Names) -> Result<bool, Memory>
    requires { i < length drawing.now }
    ensures new { IfOk result (λ b. (before : List Element) → AreNumbered keys.old (keys_of before) →
        b ≡ not (list_any (same_key (element_at drawing.now i)) before)) }
    ensures added { IfOk result (λ b. IsTrue b → (before : List Element) → AreNumbered keys.old (keys_of before) →
        AreNumbered keys.new (keys_of (before ++ element_at drawing.now i ∷ []))) }
{
    if drawing.role(i) != Role::ConnectivityNode {
        return Ok(true);
    }
    let key = key_of(alloc, drawing, i)?;
    let new = keys.add(key)?;
    Ok(new)
}

// Adds the names of an element, or finds its fault.
fn check_name<'d>(
    alloc: Global,
    drawing: &'d Drawing<'_>,
    i: u32,
    paths: &mut Paths<'d>,
    keys: &mut Names,
) -> Result<(), SsdRefusal>
    requires { i < length drawing.now }
    ensures fault { (before : List Element) → HaveSame paths.old (counted_paths before) → AreNumbered keys.old
        (keys_of before) → Finds result (name_fault before (element_at drawing.now i)) }
    ensures paths { OnOk result ((before : List Element) → HaveSame paths.old (counted_paths before) →
        HaveSame paths.new (counted_paths (before ++ element_at drawing.now i ∷ []))) }
    ensures keys { OnOk result ((before : List Element) → AreNumbered keys.old (keys_of before) →
        AreNumbered keys.new (keys_of (before ++ element_at drawing.now i ∷ []))) }
{
    if is_nameless(drawing, i) {
        return Err(SsdRefusal::NoName { at: drawing.at(i) });
    }
    if !add_path(drawing, i, paths)? {
        return Err(SsdRefusal::Twice { at: drawing.at(i) });
    }
    if !add_key(alloc, drawing, i, keys)? {
        return Err(SsdRefusal::Twice { at: drawing.at(i) });
    }
    Ok(())
}

// The keys of all nodes, or the first fault of names.
pub(crate) fn check_names(alloc: Global, drawing: &Drawing<'_>) -> Result<Names, SsdRefusal>
    ensures fault { Finds result (first_fault name_fault [] drawing.now) }
    ensures keys { IfOk result (λ keys. AreNumbered keys (keys_of drawing.now)) }
{
    let mut paths = Paths::new(alloc);
    let mut keys = Names::new(alloc);
    for i in 0..drawing.count() {
        match check_name(alloc, drawing, i, &mut paths, &mut keys) {
            Ok(()) => {}
            Err(fault) => return Err(fault),
        }
    }
    Ok(keys)
}
