//! The attributes of an element, decoded.
ghost use Rattle.std.specs.Prelude.{◌≡◌, ◌<◌, length, IfOk, Some, None, Option, [], string_bytes};
ghost use Rattle.std.specs.Option.{option_map, unwrap_or};
ghost use Rattle.ssd_read.specs.Elements.{attribute_value};
ghost use Rattle.ssd_read.specs.Decoded.{IsNameOf};
ghost use Rattle.ssd_text.specs.Nesting.{entry_at};

use crate::role::{Role, counted_as};
use ilk_base::Memory;
use ssd_text::{Element as Entry, Tree};
use std::alloc::Global;

// An element of a tree without its attributes.
pub(crate) fn entry<'a>(tree: &Tree<'a>, i: u32) -> Entry<'a>
    requires { i < length tree.now }
    ensures at { result.at ≡ (entry_at tree.now i).at }
    ensures parent { result.parent ≡ (entry_at tree.now i).parent }
    ensures name { result.name.now ≡ (entry_at tree.now i).name }
{
    tree.element(i)
}

// The decoded value of an attribute of an element.
pub(crate) fn attribute(
    alloc: Global,
    tree: &Tree<'_>,
    i: u32,
    word: &str,
) -> Result<Option<String>, Memory>
    requires { i < length tree.now }
    ensures { IfOk result (λ v. option_map string_bytes v ≡ attribute_value (entry_at tree.now i) word.now) }
{
    match tree.attr(i, word) {
        None => Ok(None),
        Some(attr) => {
            let value = attr.value(alloc)?;
            Ok(Some(value))
        }
    }
}

// The name of an element of this role, where it is counted by one and has one.
pub(crate) fn name_in(
    alloc: Global,
    tree: &Tree<'_>,
    i: u32,
    role: Role,
) -> Result<Option<String>, Memory>
    requires { i < length tree.now }
    ensures { IfOk result (λ name. IsNameOf role (entry_at tree.now i) (option_map string_bytes name)) }
{
    if counted_as(role).is_none() {
        return Ok(None);
    }
    attribute(alloc, tree, i, "name")
}

// The text of a name.
pub(crate) fn text_of(name: &Option<String>) -> Option<&str>
    ensures { option_map (λ s. s.now) result ≡ option_map string_bytes name.now }
{
    match name {
        Some(name) => Some(name.as_str()),
        None => None,
    }
}

// A name, or nothing.
pub(crate) fn name_or_nothing(name: Option<&str>) -> &str
    ensures { result.now ≡ unwrap_or (option_map (λ s. s.now) name.entry) [] }
{
    match name {
        Some(name) => name,
        None => "",
    }
}
