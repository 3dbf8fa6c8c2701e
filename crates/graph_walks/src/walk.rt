//! The walk of four graphs.
ghost use Rattle.std.specs.Prelude.{◌≡◌, ℕ, ◌≤◌, ◌<◌, ◌^◌, length, map, slice_get, Some, IfOk, IfErr};
ghost use Rattle.graph_products.specs.declared.pair.Pair.{Pair as AnyPair};
ghost use Rattle.graph_products.specs.declared.product.ProductTrouble.TheVariants.{Wide};
ghost use Rattle.graph_walks.specs.Walks.{same_rows, same_steps, HasTwos, IsWalkOf, IsWideWalk, HasWalkRoom};
ghost use Rattle.graph_walks.specs.Walks.{codes_at, IsInPlace};

use crate::codes::Codes;
use decision_graphs::Graph;
use graph_products::{Pair, ProductTrouble, Row, product_of};
use ilk_base::Memory;
use std::alloc::Global;

/// Four graphs walked together.
#[derive(Drop)]
pub struct Walk {
    /// a graph of the same layers and choices
    pub graph: Graph,
    /// for each of its labels the labels to which the four lead
    pub codes: Vec<Codes>,
}

// Both graphs take the same of two choices.
fn one_step(alloc: Global) -> Result<Vec<Row>, Memory>
    ensures { IfOk result (λ v. v.items ≡ same_rows) }
{
    let mut rows = Vec::new(alloc);
    rows.push(Row {
        first: 0,
        second: 0,
    })?;
    rows.push(Row {
        first: 1,
        second: 1,
    })?;
    Ok(rows)
}

/// The steps by which two graphs of n layers of two choices each take the same choices: the rows of a product. Time and
/// memory: the steps.
pub fn same_steps(alloc: Global, n: u16) -> Result<Vec<Vec<Row>>, Memory>
    ensures { IfOk result (λ v. map (λ r. r.items) v.items ≡ same_steps n) }
{
    let mut steps = Vec::new(alloc);
    for _j in 0..n {
        let rows = one_step(alloc)?;
        steps.push(rows)?;
    }
    Ok(steps)
}

// The labels for which a label of the product of two products stands.
fn code(one: &[Pair], other: &[Pair], pair: Pair) -> Codes
    requires { IsInPlace one.now other.now pair }
    ensures { result ≡ codes_at one.now other.now pair }
{
    let first = one[pair.first as usize];
    let second = other[pair.second as usize];
    Codes {
        first: first.first,
        second: first.second,
        third: second.first,
        fourth: second.second,
    }
}

// Those of each label.
fn codes(alloc: Global, one: &[Pair], other: &[Pair], pairs: &[Pair]) -> Result<Vec<Codes>, Memory>
    requires { (t : ℕ) (x : AnyPair) → slice_get pairs.now t ≡ Some x → IsInPlace one.now other.now x }
    ensures { IfOk result (λ v. v.items ≡ map (codes_at one.now other.now) pairs.now) }
{
    let mut list = Vec::new(alloc);
    for t in 0..pairs.len() {
        list.push(code(one, other, pairs[t]))?;
    }
    Ok(list)
}

/// The four graphs, of n layers of two choices each, walked together. It is `Wide` where one of the three products by
/// which they are walked has more edges than the budget: that of the first two, that of the last two, and that of both.
/// Time and memory: those edges.
pub fn walk_of(
    alloc: Global,
    first: &Graph,
    second: &Graph,
    third: &Graph,
    fourth: &Graph,
    n: u16,
    budget: usize,
) -> Result<Walk, ProductTrouble>
    requires first { HasTwos n first.now }
    requires second { HasTwos n second.now }
    requires third { HasTwos n third.now }
    requires fourth { HasTwos n fourth.now }
    requires budget { budget < 2 ^ 32 }
    ensures walk { IfOk result (λ w. IsWalkOf first.now second.now third.now fourth.now n w.graph w.codes.items) }
    ensures room { IfOk result (λ _. HasWalkRoom first.now second.now third.now fourth.now n budget) }
    ensures wide { IfErr result (λ e. e ≡ Wide →
        IsWideWalk first.now second.now third.now fourth.now n budget) }
{
    let steps = same_steps(alloc, n)?;
    let one = product_of(alloc, first, second, &steps, budget)?;
    let other = product_of(alloc, third, fourth, &steps, budget)?;
    let all = product_of(alloc, &one.graph, &other.graph, &steps, budget)?;
    let codes = codes(alloc, &one.pairs, &other.pairs, &all.pairs)?;
    Ok(Walk {
        graph: all.graph,
        codes,
    })
}
