//! The graph that says whether an operation is released.
ghost use Rattle.std.specs.Prelude.{◌≡◌, map, IfOk};
ghost use Rattle.dependence_search.specs.Released.{HasTwoChoices, IsReleasedOf, released_name};

use change_search::answer;
use decision_graphs::{Folds, Graph};
use graph_walks::{Codes, Walk};
use ilk_base::{Direction, Memory};
use std::alloc::Global;

// One where labels say that the move is released, else zero.
fn name_of(direction: Direction, codes: Codes) -> u32
    ensures { result ≡ released_name direction codes }
{
    match answer(direction, codes.first, codes.third) {
        Some(_) => 0,
        None => 1,
    }
}

// So of each label.
fn names_of(alloc: Global, direction: Direction, codes: &[Codes]) -> Result<Vec<u32>, Memory>
    ensures { IfOk result (λ v. v.items ≡ map (released_name direction) codes.now) }
{
    let mut names = Vec::new(alloc);
    for t in 0..codes.len() {
        names.push(name_of(direction, codes[t]))?;
    }
    Ok(names)
}

/// The graph of an operation, by the walk of its switch: it leads to 1 where a move in this direction is released, and to
/// 0 where it breaks a rule. It is reduced, so it has no more nodes than the walk, and mostly far fewer, and two different
/// nodes of one layer lead to different labels by some choices. Time and memory: the edges of the walk.
pub fn released_graph(alloc: Global, walk: &Walk, direction: Direction) -> Result<Graph, Memory>
    requires { HasTwoChoices walk.now.graph walk.now.codes.items }
    ensures { IfOk result (IsReleasedOf walk.now.graph walk.now.codes.items direction) }
{
    let names = names_of(alloc, direction, &walk.codes)?;
    let named = walk.graph.rename(alloc, 2, &names)?;
    // (like bays make layers that are folded alike)
    let mut folds = Folds::new(alloc);
    let reduced = named.reduce_by(alloc, &mut folds)?;
    Ok(reduced)
}
