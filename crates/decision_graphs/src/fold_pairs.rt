//! A layer of two choices with its nodes of equal edges made one: rows of two need no lists.
ghost use Rattle.std.specs.Prelude.{◌≡◌, ◌⊎◌, ◌*◌, ◌<◌, ◌≤◌, List, ℕ, length, slice_index, IfOk};
ghost use Rattle.decision_graphs.specs.Folding.{IsFolded, CanFold};
ghost use Rattle.decision_graphs.specs.FoldedView.{folding_in};
ghost use Rattle.decision_graphs.specs.RowIndex.{IsPairIndex, IsKnownPair, IsNewPair};
ghost use Rattle.decision_graphs.specs.Shapes.{place};

use crate::find::row_at;
use crate::fold::{FoldedLists, ROOM};
use crate::shape::Shape;
use ilk_base::Memory;
use number_hash::{NumberHash, NumberMap};
use std::alloc::Global;
use std::collections::HashMap;
use std::collections::hash_map::Entry;

// The classes to which the two edges of a node lead.
#[derive(Clone, Copy, PartialEq, Eq, Hash)]
pub(crate) struct Pair {
    pub(crate) first: u32,
    pub(crate) second: u32,
}

// The classes to which the two edges of a node lead, of those of what comes next.
fn pair_at(shape: Shape, edges: &[u32], next: &[u32], node: usize) -> Pair
    requires two { shape.choices ≡ 2 }
    requires node { node < shape.nodes }
    requires fold { (bound : ℕ) × CanFold shape edges.now next.now bound }
    ensures first { result.first ≡ slice_index next.now (slice_index edges.now (place shape node 0)) }
    ensures second { result.second ≡ slice_index next.now (slice_index edges.now (place shape node 1)) }
{
    let row = row_at(shape, edges, node);
    Pair {
        first: next[row[0] as usize],
        second: next[row[1] as usize],
    }
}

// The class of the pair: that which the index has for it, else the next one, which the index has from now on.
fn class_of(index: &mut NumberMap<Pair, u32>, pair: Pair, next: u32) -> Result<u32, Memory>
    ensures { IfOk result (λ class. (rows : List ℕ) → IsPairIndex next rows index.old → length rows ≡ next * 2
        → IsKnownPair next rows pair class index.new ⊎ IsNewPair next rows pair class index.new) }
{
    match index.entry(pair)? {
        Entry::Occupied(entry) => Ok(*entry.get()),
        Entry::Vacant(entry) => {
            entry.insert(next);
            Ok(next)
        }
    }
}

// Folds a layer of two choices, given to which class each place of what comes next belongs.
pub(crate) fn fold_pairs(
    alloc: Global,
    shape: Shape,
    edges: &[u32],
    next: &[u32],
    bound: u32,
) -> Result<FoldedLists, Memory>
    requires two { shape.choices ≡ 2 }
    requires fold { CanFold shape edges.now next.now bound }
    ensures { IfOk result (λ f. IsFolded shape edges.now next.now bound shape.nodes (folding_in f)) }
{
    let room = ROOM.min(shape.nodes as usize);
    let mut rows = Vec::new(alloc);
    let mut classes = Vec::with_capacity(alloc, shape.nodes as usize)?;
    let mut index = HashMap::with_capacity_and_hasher(alloc, room, NumberHash::new())?;
    let mut count = 0u32;
    for node in 0..shape.nodes as usize {
        let pair = pair_at(shape, edges, next, node);
        let class = class_of(&mut index, pair, count)?;
        if class == count {
            rows.push(pair.first)?;
            rows.push(pair.second)?;
            count += 1;
        }
        classes.push(class)?;
    }
    Ok(FoldedLists {
        count,
        rows,
        classes,
    })
}
