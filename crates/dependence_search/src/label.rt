//! The search for choices that lead to a wanted label.
ghost use Rattle.std.specs.Prelude.{◌≡◌, ℕ, ◌<◌, true, length, map, replicate, IfOk, IfSome, IfNone};
ghost use Rattle.decision_graphs.specs.Label.{Layer};
ghost use Rattle.decision_graphs.specs.Reaching.{IsSet};
ghost use Rattle.dependence_search.specs.Leading.{IsLed};

use decision_graphs::{ChoiceList, Graph, Marks};
use graph_walks::allowed_sets;
use ilk_base::Memory;
use std::alloc::Global;

// The first label that is wanted and marked.
fn wanted_label(wanted: &[bool], marks: &Marks) -> Option<u32>
    requires many { length wanted.now ≡ length marks.now.labels }
    requires few { length wanted.now < 4294967296 }
    ensures found { IfSome result (λ t. IsSet marks.now.labels t) }
    ensures shows { IfSome result (λ t. IsSet wanted.now t) }
    ensures none { IfNone result ((t : ℕ) → IsSet wanted.now t → ¬ IsSet marks.now.labels t) }
{
    for t in 0..wanted.len() {
        if wanted[t] && marks.marked(t as u32) {
            return Some(t as u32);
        }
    }
    None
}

// Each of n layers is free.
fn all_free(alloc: Global, n: u16) -> Result<Vec<bool>, Memory>
    ensures { IfOk result (λ v. v.items ≡ replicate n true) }
{
    let mut free = Vec::new(alloc);
    free.resize(usize::from(n), true)?;
    Ok(free)
}

// Choices, one of two in each of n layers, that lead to a wanted label; none where no choices do.
pub(crate) fn find_label(
    alloc: Global,
    graph: &Graph,
    wanted: &[bool],
    n: u16,
) -> Result<Option<ChoiceList>, Memory>
    requires choices { map (λ (x : Layer). x.choices) graph.now.layers ≡ replicate n 2 }
    requires labels { length wanted.now ≡ graph.now.labels }
    ensures { IfOk result (IsLed graph.now wanted.now n) }
{
    let free = all_free(alloc, n)?;
    let sets = allowed_sets(alloc, graph, &free)?;
    let mut marks = Marks::new(alloc, graph)?;
    graph.reach(&sets, &mut marks);
    let _labels = graph.labels();
    match wanted_label(wanted, &marks) {
        Some(label) => Ok(Some(marks.path_to(alloc, label)?)),
        None => Ok(None),
    }
}
