//! Two graphs in a row.
ghost use Rattle.std.specs.Prelude.{◌≡◌, ℕ, ◌<◌, IfOk, MatchOption};
ghost use Rattle.decision_graphs.specs.Reaching.{AreSetsOf, MarksReached};
ghost use Rattle.decision_graphs.specs.Marked.{PathsLead};
ghost use Rattle.release_compile.specs.Chaining.{AreInARow, FirstAllows, IsChain, NoneLeads};

use decision_graphs::{ChoiceList, ChoiceSets, Graph, Marks};
use ilk_base::Memory;
use std::alloc::Global;

// Choices that lead through two graphs.
#[derive(Drop)]
pub(crate) struct Through {
    pub(crate) outer: ChoiceList,
    pub(crate) inner: ChoiceList,
}

// Allowed choices that lead through both graphs to the label, if there are some. The marks are of what the outer
// graph reaches, and the inner sets allow that in their first layer.
pub(crate) fn find_chain(
    alloc: Global,
    outer: &Graph,
    inner: &Graph,
    sets: &ChoiceSets,
    marks: &Marks,
    inner_sets: &ChoiceSets,
    goal: u32,
) -> Result<Option<Through>, Memory>
    requires outer_sets { AreSetsOf outer.now.layers sets.now }
    requires inner_sets { AreSetsOf inner.now.layers inner_sets.now }
    requires marks { MarksReached outer.now sets.now marks.now.labels }
    requires paths { PathsLead outer.now sets.now marks.now }
    requires first { FirstAllows inner_sets.now marks.now.labels }
    requires goal { goal < inner.now.labels }
    requires row { AreInARow outer.now inner.now }
    ensures { IfOk result (λ o. MatchOption o
        (NoneLeads outer.now inner.now sets.now inner_sets.now goal)
        (λ f. IsChain outer.now inner.now sets.now inner_sets.now goal f.outer f.inner)) }
{
    let _labels = outer.labels();
    match inner.path_to(alloc, inner_sets, goal)? {
        None => Ok(None),
        Some(path) => {
            let before = marks.path_to(alloc, path.choice(0))?;
            Ok(Some(Through {
                outer: before,
                inner: path,
            }))
        }
    }
}
