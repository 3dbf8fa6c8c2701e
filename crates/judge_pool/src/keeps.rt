//! The lists of nodes of a pool, each by its number.
ghost use Rattle.std.specs.Prelude.{◌≡◌, slice_get, Some, IfOk, IfSome, OnOk};
ghost use Rattle.judge_pool.specs.declared.pool.Pool.{Pool as AnyPool};
ghost use Rattle.judge_pool.specs.Pooling.{IsPool, GrewTo};
ghost use Rattle.judge_pool.specs.Keeping.{NumbersAreRight};

use crate::pool::Pool;
use ilk_base::{Memory, NodeId};
use number_hash::NumberMap;
use station_graph::NodeList;
use std::alloc::Global;

// The number of the list of nodes, if it is noted.
fn find_keep(numbers: &NumberMap<Vec<u16>, usize>, nodes: &Vec<u16>) -> Option<usize>
    ensures { (p : AnyPool) → NumbersAreRight p numbers.now
        → IfSome result (λ k. slice_get p.keeps.items k ≡ Some nodes.now.items) }
{
    match numbers.get(nodes) {
        Some(number) => Some(*number),
        None => None,
    }
}

// Notes the number of the list of nodes.
fn note_keep(
    numbers: &mut NumberMap<Vec<u16>, usize>,
    nodes: Vec<u16>,
    number: usize,
) -> Result<(), Memory>
    ensures { OnOk result ((p : AnyPool) → NumbersAreRight p numbers.old
        → slice_get p.keeps.items number ≡ Some nodes.items → NumbersAreRight p numbers.new) }
{
    numbers.insert(nodes, number)?;
    Ok(())
}

// The numbers as a list of nodes.
fn list_from(alloc: Global, numbers: &[u16]) -> Result<NodeList, Memory>
    ensures { IfOk result (λ list. list ≡ numbers.now) }
{
    let mut list = NodeList::with_capacity(alloc, numbers.len())?;
    for number in numbers {
        list.push(NodeId(*number))?;
    }
    Ok(list)
}

impl Pool {
    // Puts the list of nodes last.
    fn put_keep(&mut self, nodes: NodeList) -> Result<usize, Memory>
        requires { IsPool self.old }
        ensures grew { OnOk result (GrewTo self.old self.new) }
        ensures kept { IfOk result (λ k. slice_get self.new.keeps.items k ≡ Some nodes) }
    {
        let held = self.keeps.as_slice();
        let place = held.len();
        self.keeps.push(nodes)?;
        Ok(place)
    }

    // Puts the list of these nodes last, and notes its number.
    fn new_keep(&mut self, alloc: Global, nodes: Vec<u16>) -> Result<usize, Memory>
        requires { IsPool self.old }
        ensures grew { OnOk result (GrewTo self.old self.new) }
        ensures kept { IfOk result (λ k. slice_get self.new.keeps.items k ≡ Some nodes.items) }
    {
        let list = list_from(alloc, &nodes)?;
        let place = self.put_keep(list)?;
        note_keep(&mut self.keep_numbers, nodes, place)?;
        Ok(place)
    }

    // The number of the list of these nodes.
    pub(crate) fn keep_list(&mut self, alloc: Global, nodes: &[u16]) -> Result<usize, Memory>
        requires { IsPool self.old }
        ensures grew { OnOk result (GrewTo self.old self.new) }
        ensures kept { IfOk result (λ k. slice_get self.new.keeps.items k ≡ Some nodes.now) }
    {
        let key = Vec::from_slice(alloc, nodes)?;
        match find_keep(&self.keep_numbers, &key) {
            Some(place) => Ok(place),
            None => {
                let place = self.new_keep(alloc, key)?;
                Ok(place)
            }
        }
    }

    /// The number of the list of nodes, which is put last where no call before put it there. Time and memory: those of
    /// the nodes.
    pub fn keep(&mut self, alloc: Global, nodes: NodeList) -> Result<usize, Memory>
        requires { IsPool self.old }
        ensures grew { OnOk result (GrewTo self.old self.new) }
        ensures kept { IfOk result (λ k. slice_get self.new.keeps.items k ≡ Some nodes) }
    {
        let place = self.keep_list(alloc, nodes.numbers())?;
        Ok(place)
    }
}
