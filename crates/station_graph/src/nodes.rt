//! Lists of nodes.
ghost use Rattle.std.specs.Prelude.{◌≡◌, ℕ, ◌<◌, List, [], ◌∷◌, ◌++◌, length, slice_index, IfOk, OnOk, OnErr, ◌==◌};
ghost use Rattle.std.specs.Str.{bytes_eq};
ghost use Rattle.std.specs.Cmp.{partial_equiv_from_equiv};
ghost use Rattle.std.specs.Cmp.Lexicographic.{nat_list_eq_equiv};

use ilk_base::{Memory, NodeId};
use std::alloc::Global;
use std::marker::Model;

/// A list of nodes, seen as the list of their numbers. Two lists are equal where they name the same
/// nodes in the same order.
#[derive(Clone, Drop)]
pub struct NodeList {
    numbers: Vec<u16>,
}

impl Model for NodeList {
    ghost Value = { List ℕ };

    ghost view = { λ l. l.numbers.items };
}

impl NodeList {
    /// The empty list. Takes no memory.
    pub fn new(alloc: Global) -> NodeList
        ensures { result ≡ [] }
    {
        NodeList {
            numbers: Vec::new(alloc),
        }
    }

    /// The empty list with room for so many nodes, which are added without a move.
    pub fn with_capacity(alloc: Global, count: usize) -> Result<NodeList, Memory>
        ensures { IfOk result (λ l. l ≡ []) }
    {
        Ok(NodeList {
            numbers: Vec::with_capacity(alloc, count)?,
        })
    }

    // The nodes of these numbers.
    pub(crate) fn from_numbers(numbers: Vec<u16>) -> NodeList
        ensures { result ≡ numbers.items }
    {
        NodeList { numbers }
    }

    /// Adds a node at the end, at once but for the moves of a list that grows. After `Memory` the
    /// list is unchanged.
    pub fn push(&mut self, node: NodeId) -> Result<(), Memory>
        ensures ok { OnOk result (self.new ≡ self.old ++ node.0 ∷ []) }
        ensures err { OnErr result (self.new ≡ self.old) }
    {
        self.numbers.push(node.0)?;
        Ok(())
    }

    /// The numbers of its nodes, at once.
    pub fn numbers(&self) -> &[u16]
        ensures { result.now ≡ self.now }
    {
        &self.numbers
    }

    /// How many nodes it has, at once.
    pub fn len(&self) -> usize
        ensures { result ≡ length self.now }
    {
        self.numbers.len()
    }

    /// Whether it has no node, at once.
    pub fn is_empty(&self) -> bool
        ensures { result ≡ (length self.now == 0) }
    {
        self.numbers.is_empty()
    }

    /// The node at a place of the list, at once.
    pub fn get(&self, i: usize) -> NodeId
        requires { i < length self.now }
        ensures { result.0 ≡ slice_index self.now i }
    {
        NodeId(self.numbers[i])
    }
}

impl PartialEq for NodeList {
    ghost eq = { bytes_eq };

    ghost laws = { partial_equiv_from_equiv nat_list_eq_equiv };

    fn eq(&self, other: &NodeList) -> bool {
        self.numbers == other.numbers
    }
}

impl Eq for NodeList {
    ghost laws = { nat_list_eq_equiv };
}
