//! Elements and attributes, which borrow the text.

ghost use Rattle.std.specs.Prelude.{◌≡◌, ◌<◌, ◌≤◌, length, IfSome, slice_get, find};
ghost use Rattle.std.specs.Option.{option_map};
ghost use Rattle.std.specs.Str.{bytes_eq};
ghost use Rattle.ssd_text.specs.Nesting.{entry_at, IsInOrder};
ghost use Rattle.ssd_text.specs.Seen.{pair_of, written};
ghost use Rattle.ssd_text.specs.declared.limits.TheConstants.{ELEMENTS};

use std::marker::Model;

/// An attribute as it is written. Both texts are slices of the source.
#[derive(Clone, Copy)]
pub struct Attr<'a> {
    /// the name, with its prefix
    pub name: &'a str,
    /// what stands between the quotes, with its references and white space as they are written
    pub raw: &'a str,
}

// An element with its attributes.
#[derive(Drop)]
pub(crate) struct TreeElement<'a> {
    pub(crate) at: u32,
    pub(crate) parent: Option<u32>,
    pub(crate) name: &'a str,
    pub(crate) attrs: Vec<Attr<'a>>,
}

/// The elements of a text in document order, which is the order of their start tags. Their names
/// and attributes are slices of the text that was read.
///
/// A tree takes 56 bytes for each element and 32 for each attribute, and up to twice that for the
/// room that its lists keep: about 200 bytes for an element with two attributes.
#[derive(Drop)]
pub struct Tree<'a> {
    pub(crate) nodes: Vec<TreeElement<'a>>,
}

impl<'a> Model for Tree<'a> {
    ghost use Rattle.std.specs.Prelude.{List, ◌<◌, ◌≤◌, length};
    ghost use Rattle.ssd_text.specs.Nesting.{Entry};

    ghost Value = { List Entry };

    ghost use Rattle.ssd_text.specs.Seen.{entries_of};

    ghost view = { λ t. entries_of t.nodes.items };

    ghost use Rattle.ssd_text.specs.Nesting.{IsInOrder};
    ghost use Rattle.ssd_text.specs.declared.limits.TheConstants.{ELEMENTS};

    ghost invariant = { λ t. (0 < length t.nodes.items) × (length t.nodes.items ≤ ELEMENTS)
        × IsInOrder (entries_of t.nodes.items) };
}

/// An element, without its attributes.
#[derive(Clone, Copy)]
pub struct Element<'a> {
    /// where its start tag begins: the number of bytes before it in the text
    pub at: u32,
    /// the number of the element in which it stands, or none for the root
    pub parent: Option<u32>,
    /// the name, with its prefix, as a slice of the source
    pub name: &'a str,
}

impl<'a> Tree<'a> {
    /// How many elements there are: at least 1 and at most 200,000. They stand in order: each parent
    /// comes before its children, and what stands between the two stands below that parent. At once.
    pub fn count(&self) -> u32
        ensures count { result ≡ length self.now }
        ensures some { 0 < result }
        ensures few { result ≤ ELEMENTS }
        ensures order { IsInOrder self.now }
    {
        self.nodes.len() as u32
    }

    /// An element by its number in document order, from 0, which is the root. At once.
    pub fn element(&self, i: u32) -> Element<'a>
        requires { i < length self.now }
        ensures at { result.at ≡ (entry_at self.now i).at }
        ensures parent { result.parent ≡ (entry_at self.now i).parent }
        ensures name { result.name.now ≡ (entry_at self.now i).name }
    {
        let node = &self.nodes[i as usize];
        Element {
            at: node.at,
            parent: node.parent,
            name: node.name,
        }
    }

    /// The attribute of an element with exactly this name, its prefix among it, or none. In time of
    /// the number of the element's attributes.
    pub fn attr(&self, i: u32, name: &str) -> Option<Attr<'a>>
        requires { i < length self.now }
        ensures { option_map pair_of result ≡ find (λ p. bytes_eq p.0 name.now) (entry_at self.now i).attributes }
    {
        named(&self.nodes[i as usize].attrs, name)
    }
}

// The first attribute of this name.
fn named<'a>(attrs: &[Attr<'a>], name: &str) -> Option<Attr<'a>>
    ensures { option_map pair_of result ≡ find (λ p. bytes_eq p.0 name.now) (written attrs.now) }
{
    for attr in attrs {
        if attr.name == name {
            return Some(*attr);
        }
    }
    None
}
