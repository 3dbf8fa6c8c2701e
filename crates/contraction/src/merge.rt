//! Two rising lists of nodes as one.
ghost use Rattle.std.specs.Prelude.{◌≡◌, ◌≢◌, ℕ, ◌+◌, ◌-◌, ◌<◌, ◌≤◌, ◌↔◌, length, slice_get, slice_index, Some, IfOk};
ghost use Rattle.std.specs.Prelude.{IsTrue, vec_len};
ghost use Rattle.contraction.specs.Answers.{AreNodes};
ghost use Rattle.contraction.specs.Merging.{LeastNext, Advances, IsMerged};

use ilk_base::Memory;
use std::alloc::Global;

// Two rising lists of nodes as one, with the place of each entry of both.
#[derive(Drop)]
pub(crate) struct Union {
    pub(crate) kept: Vec<u16>,
    pub(crate) first: Vec<u16>,
    pub(crate) second: Vec<u16>,
}

// The lesser of the next nodes of two rising lists.
fn least_next(first: &[u16], i: usize, second: &[u16], j: usize) -> Option<u16>
    ensures { LeastNext first.now second.now i j result }
{
    if i >= first.len() {
        if j >= second.len() {
            return None;
        }
        return Some(second[j]);
    }
    if j >= second.len() || first[i] <= second[j] {
        return Some(first[i]);
    }
    Some(second[j])
}

// Notes the place of a node that is the next one of the list.
fn advance(nodes: &[u16], places: &mut Vec<u16>, node: u16, place: u16) -> Result<(), Memory>
    ensures { IfOk result (λ _. Advances nodes.now node place places.old.items places.new.items) }
{
    let next = places.len();
    if next < nodes.len() && nodes[next] == node {
        places.push(place)?;
    }
    Ok(())
}

// Merges two rising lists of nodes.
pub(crate) fn merge(alloc: Global, first: &[u16], second: &[u16]) -> Result<Union, Memory>
    requires first { AreNodes first.now }
    requires second { AreNodes second.now }
    ensures { IfOk result
        (λ u. IsMerged first.now second.now u.kept.items u.first.items u.second.items) }
{
    let mut kept = Vec::with_capacity(alloc, first.len() + second.len())?;
    let mut first_places = Vec::with_capacity(alloc, first.len())?;
    let mut second_places = Vec::with_capacity(alloc, second.len())?;
    'merging: while let Some(node) = least_next(
        first,
        first_places.len(),
        second,
        second_places.len(),
    ) {
        let place = kept.len() as u16;
        kept.push(node)?;
        advance(first, &mut first_places, node, place)?;
        advance(second, &mut second_places, node, place)?;
    }
    Ok(Union {
        kept,
        first: first_places,
        second: second_places,
    })
}
