//! The elements of a drawing, and what each of them is.
ghost use Rattle.std.specs.Prelude.{◌≡◌, ◌<◌, ◌≤◌, ◌==◌, List, [], length, IfOk, Some, None, Option, slice_get};
ghost use Rattle.std.specs.Prelude.{string_bytes, option_and_then, is_some, true, codes};
ghost use Rattle.std.specs.Option.{option_map, unwrap_or};
ghost use Rattle.ssd_read.specs.declared.role.Role.TheVariants.{ConductingEquipment};
ghost use Rattle.ssd_read.specs.Elements.{Element, attribute_value, front_of, front_of_tree, role_in, element_name};
ghost use Rattle.ssd_read.specs.Elements.{counted_as, elements_of, element_at, unless_grounded, path_in, element_after};
ghost use Rattle.ssd_read.specs.Types.{type_of};
ghost use Rattle.ssd_read.specs.Decoded.{IsNameOf, IsDecoded, ArePlaces};
ghost use Rattle.ssd_text.specs.Nesting.{Entry, entry_at};
ghost use Rattle.ssd_read.specs.Drawn.{IsDrawn};
ghost use Rattle.ssd_read.specs.Seen.{placed, placed_all, Finds};
ghost use Rattle.ssd_read.specs.PathBytes.{paths_fault};
ghost use Rattle.ssd_text.specs.declared.limits.TheConstants.{ELEMENTS};

use crate::attributes::{attribute, entry, name_in, name_or_nothing, text_of};
use crate::refusal::SsdRefusal;
use crate::role::{Role, counted_as, front_of, role_in, unless_grounded};
use crate::types::{EquipmentType, type_in};
use ilk_base::Memory;
use ssd_text::Tree;
use station_graph::What;
use station_graph::limits::PATH_BYTES;
use std::alloc::Global;
use std::marker::Model;

// What an element is, what it stands in, its name, where it is counted by one, its path, and its type, where
// it is equipment: each decoded once, for all passes.
#[derive(Drop)]
pub(crate) struct DrawnElement {
    pub(crate) role: Role,
    pub(crate) within: Role,
    pub(crate) name: Option<String>,
    pub(crate) path: String,
    pub(crate) kind: Option<EquipmentType>,
}

// The path of an element of this name in one of this path.
fn path_in(alloc: Global, role: Role, outer: &str, name: &str) -> Result<String, Memory>
    ensures { (e : Entry) → (is_some (counted_as role) ≡ true → name.now ≡ element_name e)
        → IfOk result (λ s. string_bytes s ≡ path_in outer.now role e) }
{
    match counted_as(role) {
        None => Ok(String::new(alloc)),
        Some(Role::Substation) => {
            let path = String::from_str(alloc, name)?;
            Ok(path)
        }
        Some(_) => {
            let mut path = String::from_str(alloc, outer)?;
            path.push_str("/")?;
            path.push_str(name)?;
            Ok(path)
        }
    }
}

/// The elements of a drawing, seen as their list: what each is, what it stands in, its path, and what it says.
#[derive(Drop)]
pub struct Drawing<'a> {
    tree: Tree<'a>,
    places: Vec<DrawnElement>,
}

impl<'a> Model for Drawing<'a> {
    ghost use Rattle.std.specs.Prelude.{List, length, ◌≡◌};
    ghost use Rattle.ssd_read.specs.Elements.{Element};

    ghost Value = { List Element };

    ghost use Rattle.ssd_read.specs.Seen.{placed_all};
    ghost use Rattle.ssd_read.specs.Decoded.{ArePlaces};

    ghost view = { λ d. placed_all d.tree d.places.items };

    ghost invariant = { λ d. ArePlaces d.tree d.places.items };
}

// The place of the element in which one stands, where it stands in one.
fn above(before: &[DrawnElement], parent: Option<u32>) -> Option<&DrawnElement>
    ensures { option_map (λ p. p.now) result ≡ option_and_then (slice_get before.now) parent }
{
    before.get(parent? as usize)
}

// The place of the next element after these.
fn place_of(
    alloc: Global,
    tree: &Tree<'_>,
    front: &[u8],
    before: &[DrawnElement],
    i: u32,
) -> Result<DrawnElement, Memory>
    requires next { i ≡ length before.now }
    requires within { i < length tree.now }
    ensures element { IfOk result (λ p. placed (entry_at tree.now i) p ≡ element_after front.now
        (placed_all tree.now before.now) (entry_at tree.now i)) }
    ensures decoded { IfOk result (IsDecoded (entry_at tree.now i)) }
{
    let entry = entry(tree, i);
    match above(before, entry.parent) {
        None => Ok(DrawnElement {
            role: Role::Root,
            within: Role::Skipped,
            name: None,
            path: String::new(alloc),
            kind: None,
        }),
        Some(above) => {
            let named = role_in(above.role, front, entry.name);
            let name = name_in(alloc, tree, i, named)?;
            let text = text_of(&name);
            let role = unless_grounded(named, text);
            let path = path_in(alloc, role, above.path.as_str(), name_or_nothing(text))?;
            let kind = type_in(alloc, tree, i, role)?;
            Ok(DrawnElement {
                role,
                within: above.role,
                name,
                path,
                kind,
            })
        }
    }
}

// What stands in front of the names of read elements.
fn front_of_tree<'a>(tree: &Tree<'a>) -> &'a [u8]
    ensures { result.now ≡ front_of_tree tree.now }
{
    if tree.count() == 0 {
        &[]
    } else {
        front_of(entry(tree, 0).name.as_bytes())
    }
}

// The places of all elements, where their paths together are within the limit.
fn places_of(alloc: Global, tree: &Tree<'_>) -> Result<Vec<DrawnElement>, SsdRefusal>
    ensures places { IfOk result (λ places. ArePlaces tree.now places.items) }
    ensures fault { Finds result (paths_fault (elements_of tree.now)) }
{
    let front = front_of_tree(tree);
    let mut places = Vec::new(alloc);
    let mut room = PATH_BYTES;
    for i in 0..tree.count() {
        let place = place_of(alloc, tree, front, &places, i)?;
        let more = place.path.as_str().len();
        if more > room {
            return Err(SsdRefusal::Limit {
                what: What::Paths,
                count: PATH_BYTES as u32 + 1,
            });
        }
        room -= more;
        places.push(place)?;
    }
    Ok(places)
}

impl<'a> Drawing<'a> {
    pub(crate) fn new(alloc: Global, tree: Tree<'a>) -> Result<Drawing<'a>, SsdRefusal>
        ensures elements { IfOk result (λ d. d ≡ elements_of tree.entry) }
        ensures fault { Finds result (paths_fault (elements_of tree.entry)) }
    {
        match places_of(alloc, &tree) {
            Ok(places) => Ok(Drawing { tree, places }),
            Err(fault) => Err(fault),
        }
    }

    /// How many elements there are, at once. They are those of a tree, in document order.
    pub fn count(&self) -> u32
        ensures count { result ≡ length self.now }
        ensures few { result ≤ ELEMENTS }
        ensures drawn { IsDrawn self.now }
    {
        self.tree.count()
    }

    /// What the element of this number is, at once.
    pub fn role(&self, i: u32) -> Role
        requires { i < length self.now }
        ensures { result ≡ (element_at self.now i).role }
    {
        self.places[i as usize].role
    }

    /// What the element is in which it stands, at once.
    pub fn within(&self, i: u32) -> Role
        requires { i < length self.now }
        ensures { result ≡ (element_at self.now i).within }
    {
        self.places[i as usize].within
    }

    /// Its path, where it is named, at once.
    pub fn path(&self, i: u32) -> &str
        requires { i < length self.now }
        ensures { result.now ≡ (element_at self.now i).path }
    {
        self.places[i as usize].path.as_str()
    }

    /// How many bytes stand before its start tag, at once.
    pub fn at(&self, i: u32) -> u32
        requires { i < length self.now }
        ensures { result ≡ (element_at self.now i).entry.at }
    {
        entry(&self.tree, i).at
    }

    /// The number of the element in which it stands; none for the root. At once.
    pub fn parent(&self, i: u32) -> Option<u32>
        requires { i < length self.now }
        ensures { result ≡ (element_at self.now i).entry.parent }
    {
        entry(&self.tree, i).parent
    }

    /// The name of its tag, with its prefix, at once.
    pub fn tag(&self, i: u32) -> &str
        requires { i < length self.now }
        ensures { result.now ≡ (element_at self.now i).entry.name }
    {
        entry(&self.tree, i).name
    }

    /// The decoded value of its attribute of this name; none where it has none. Time: its attributes, and the
    /// value; memory: the value.
    pub fn attribute(&self, alloc: Global, i: u32, word: &str) -> Result<Option<String>, Memory>
        requires { i < length self.now }
        ensures { IfOk result (λ v. option_map string_bytes v
            ≡ attribute_value (element_at self.now i).entry word.now) }
    {
        attribute(alloc, &self.tree, i, word)
    }

    /// The name of an element that is counted by it, where it has one. At once.
    pub fn name(&self, i: u32) -> Option<&str>
        requires within { i < length self.now }
        requires counted { is_some (counted_as (element_at self.now i).role) ≡ true }
        ensures { option_map (λ s. s.now) result ≡ attribute_value (element_at self.now i).entry (codes "name") }
    {
        text_of(&self.places[i as usize].name)
    }

    /// The type of equipment, where it says one. At once.
    pub fn kind(&self, i: u32) -> Option<EquipmentType>
        requires within { i < length self.now }
        requires role { (element_at self.now i).role ≡ ConductingEquipment }
        ensures { result ≡ type_of (element_at self.now i).entry }
    {
        self.places[i as usize].kind
    }
}
