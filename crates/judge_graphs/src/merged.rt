//! Outer graphs in which the labels that no inner graph tells apart are one. They are much smaller, and lead through the
//! inner graphs to the same labels.
ghost use Rattle.std.specs.Prelude.{◌≡◌, ℕ, ◌<◌, length, slice_index, IfOk, IsTrue};
ghost use Rattle.decision_graphs.specs.Label.{AreLayers, AreReduced};
ghost use Rattle.judge_graphs.specs.PartnerLabels.{AreInnersOf, IsRenamed, IsMerged};

use crate::label_names::names_of;
use decision_graphs::{Folds, Graph};
use ilk_base::Memory;
use std::alloc::Global;
use std::rc::Rc;

// Whether each label is its own name.
fn keep_all(names: &[u32]) -> bool
    ensures { IsTrue result → (x : ℕ) → x < length names.now → slice_index names.now x ≡ x }
{
    for (label, name) in names.iter().enumerate() {
        if *name as usize != label {
            return false;
        }
    }
    true
}

// The copy of the outer graph in which labels of one name are one, reduced.
fn renamed(alloc: Global, folds: &mut Folds, outer: &Graph, names: &[u32]) -> Result<Graph, Memory>
    requires names { (x : ℕ) → x < outer.now.labels → slice_index names.now x < outer.now.labels }
    requires count { length names.now ≡ outer.now.labels }
    ensures renamed { IfOk result (IsRenamed outer.now names.now) }
    ensures labels { IfOk result (λ g. g.labels ≡ outer.now.labels) }
    ensures reduced { IfOk result (λ g. AreReduced g.layers) }
    ensures fits { IfOk result (λ g. AreLayers g.labels g.layers) }
{
    let labels = outer.labels();
    let copy = outer.rename(alloc, labels, names)?;
    let reduced = copy.reduce_by(alloc, folds)?;
    let _labels = reduced.labels();
    Ok(reduced)
}

// The outer graph with labels made one that no inner graph tells apart: itself where each is told from the others.
pub(crate) fn merged(
    alloc: Global,
    folds: &mut Folds,
    outer: &Rc<Graph>,
    inners: &[Graph],
) -> Result<Rc<Graph>, Memory>
    requires inners { AreInnersOf outer.now.value.labels inners.now }
    requires reduced { AreReduced outer.now.value.layers }
    ensures { IfOk result (λ g. IsMerged outer.now.value inners.now g.value) }
{
    let graph = outer.as_ref();
    let names = names_of(alloc, inners, graph.labels())?;
    if keep_all(&names) {
        let same = outer.clone()?;
        return Ok(same);
    }
    let copy = renamed(alloc, folds, graph, &names)?;
    let held = Rc::new(alloc, copy)?;
    Ok(held)
}
