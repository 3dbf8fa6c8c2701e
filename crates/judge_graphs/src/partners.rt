//! The partners of a bay, by its graphs. Another bay is a partner where some answer for an operation of the bay changes
//! with the other bay's switches. Labels of an outer graph that no inner graph tells apart are made one; the parts on
//! which one of the two graphs then depends are the partners.
ghost use Rattle.std.specs.Prelude.{◌≡◌, ◌⊎◌, ℕ, ◌<◌, ◌↔◌, length, slice_index_or, slice_get, Some, true, false};
ghost use Rattle.std.specs.Prelude.{IfOk, IfSome};
ghost use Rattle.decision_graphs.specs.Label.{AreReduced};
ghost use Rattle.judge_graphs.specs.BuiltView.{view_of};
ghost use Rattle.judge_graphs.specs.PartnerLabels.{AreInnersOf, TellsOf, IsMerged};
ghost use Rattle.judge_graphs.specs.Telling.{IsToldBy, HaveMerged, AreThese, AreOf, AreMerged};

use crate::graphs::{BayGraphs, Unmerged, ViewGraphs};
use crate::merged::merged;
use decision_graphs::{Folds, Graph};
use ilk_base::Memory;
use std::alloc::Global;
use std::rc::Rc;

// The graphs of both views of a bay, and for each other part, in document order, whether those of one view tell of its
// layer.
#[derive(Drop)]
pub(crate) struct BothViews {
    pub(crate) gap: ViewGraphs,
    pub(crate) load: ViewGraphs,
    pub(crate) told: Vec<bool>,
}

// For each place whether one of the two lists says so.
fn either(alloc: Global, first: &[bool], second: &[bool]) -> Result<Vec<bool>, Memory>
    requires { length first.now ≡ length second.now }
    ensures count { IfOk result (λ v. length v.items ≡ length first.now) }
    ensures each { IfOk result (λ v. (j : ℕ) → j < length first.now → (slice_index_or v.items j false ≡ true)
        ↔ ((slice_index_or first.now j false ≡ true) ⊎ (slice_index_or second.now j false ≡ true))) }
{
    let mut both = Vec::new(alloc);
    for (place, one) in first.iter().enumerate() {
        both.push(*one || second[place])?;
    }
    Ok(both)
}

// For each other part, in document order, whether the graphs of this view tell of its layer: whether two lists of
// choices that differ in this layer alone, and one list of other choices, lead through both graphs to different labels.
fn view_tells(alloc: Global, graphs: &ViewGraphs) -> Result<Vec<bool>, Memory>
    requires inners { AreInnersOf graphs.now.outer.value.labels graphs.now.inner.items }
    requires merged { IsMerged graphs.now.outer.value graphs.now.inner.items graphs.now.merged.value }
    ensures count { IfOk result (λ v. length v.items ≡ length graphs.now.outer.value.layers) }
    ensures told { IfOk result (λ v. (j : ℕ) → j < length graphs.now.outer.value.layers
        → (slice_index_or v.items j false ≡ true) ↔ TellsOf graphs.now.outer.value graphs.now.inner.items j) }
{
    let _labels = graphs.outer.as_ref().labels();
    let told = graphs.merged.as_ref().reduced_dependencies(alloc)?;
    Ok(told)
}

// For each other part, in document order, whether the graphs of one of the two views tell of its layer.
fn told_layers(alloc: Global, gap: &ViewGraphs, load: &ViewGraphs) -> Result<Vec<bool>, Memory>
    requires same { length gap.now.outer.value.layers ≡ length load.now.outer.value.layers }
    requires gap_inners { AreInnersOf gap.now.outer.value.labels gap.now.inner.items }
    requires load_inners { AreInnersOf load.now.outer.value.labels load.now.inner.items }
    requires gap_merged { IsMerged gap.now.outer.value gap.now.inner.items gap.now.merged.value }
    requires load_merged { IsMerged load.now.outer.value load.now.inner.items load.now.merged.value }
    ensures { IfOk result (λ v. IsToldBy (view_of gap.now) (view_of load.now) v.items) }
{
    let by_gap = view_tells(alloc, gap)?;
    let by_load = view_tells(alloc, load)?;
    let told = either(alloc, &by_gap, &by_load)?;
    Ok(told)
}

// Whether two lists of graphs are the same.
fn same_inners(one: &[Graph], other: &[Graph]) -> bool
    ensures { result ≡ true → one.now ≡ other.now }
{
    if one.len() != other.len() {
        return false;
    }
    for place in 0..one.len() {
        if !one[place].same(&other[place]) {
            return false;
        }
    }
    true
}

// Whether the graphs of one view are the same.
fn same_view(one: &ViewGraphs, other: &Unmerged) -> bool
    ensures { result ≡ true → AreOf one.now other.now }
{
    if !one.outer.as_ref().same(other.outer.as_ref()) {
        return false;
    }
    same_inners(&one.inner, &other.inner)
}

// Whether the graphs of a bay are these.
fn are_these(graphs: &BayGraphs, gap: &Unmerged, load: &Unmerged) -> bool
    ensures { result ≡ true → AreThese graphs.now gap.now load.now }
{
    if !same_view(&graphs.gap, gap) {
        return false;
    }
    same_view(&graphs.load, load)
}

// The graphs of a part before, if they are these.
fn before_like<'b>(
    bays: &'b [Option<BayGraphs>],
    gap: &Unmerged,
    load: &Unmerged,
) -> Option<&'b BayGraphs>
    ensures { IfSome result (λ g. (b : ℕ) × (slice_get bays.now b ≡ Some (Some g.now))
        × AreThese g.now gap.now load.now) }
{
    for place in 0..bays.len() {
        match &bays[place] {
            Some(graphs) => {
                if are_these(graphs, gap, load) {
                    return Some(graphs);
                }
            }
            None => {}
        }
    }
    None
}

// The graphs of one view with the merged one.
fn with_merged(graphs: Unmerged, merged: Rc<Graph>) -> ViewGraphs
    ensures graphs { AreOf result graphs }
    ensures merged { result.merged.value ≡ merged.value }
{
    ViewGraphs {
        outer: graphs.outer,
        inner: graphs.inner,
        merged,
    }
}

// The graphs of one view with a merged one that is made of them.
fn merge(alloc: Global, folds: &mut Folds, graphs: Unmerged) -> Result<ViewGraphs, Memory>
    requires inners { AreInnersOf graphs.outer.value.labels graphs.inner.items }
    requires reduced { AreReduced graphs.outer.value.layers }
    ensures graphs { IfOk result (λ g. AreOf g graphs) }
    ensures merged { IfOk result (λ g. IsMerged graphs.outer.value graphs.inner.items g.merged.value) }
{
    let copy = merged(alloc, folds, &graphs.outer, &graphs.inner)?;
    Ok(with_merged(graphs, copy))
}

// The graphs of both views, which are those of a part before.
fn merged_as(
    alloc: Global,
    before: &BayGraphs,
    gap: Unmerged,
    load: Unmerged,
) -> Result<BothViews, Memory>
    requires these { AreThese before.now gap load }
    requires merged { AreMerged (view_of before.now.gap) (view_of before.now.load) before.now.told.items }
    ensures gap { IfOk result (λ r. AreOf r.gap gap) }
    ensures load { IfOk result (λ r. AreOf r.load load) }
    ensures merged { IfOk result (λ r. AreMerged (view_of r.gap) (view_of r.load) r.told.items) }
{
    let told = Vec::from_slice(alloc, &before.told)?;
    let merged_gap = before.gap.merged.clone()?;
    let merged_load = before.load.merged.clone()?;
    Ok(BothViews {
        gap: with_merged(gap, merged_gap),
        load: with_merged(load, merged_load),
        told,
    })
}

// The graphs of both views with merged ones, and the parts of which they tell. Those of a part before serve whose graphs
// are these.
pub(crate) fn merge_both(
    alloc: Global,
    gap_folds: &mut Folds,
    load_folds: &mut Folds,
    bays: &[Option<BayGraphs>],
    gap: Unmerged,
    load: Unmerged,
) -> Result<BothViews, Memory>
    requires bays { HaveMerged bays.now }
    requires same { length gap.outer.value.layers ≡ length load.outer.value.layers }
    requires gap_inners { AreInnersOf gap.outer.value.labels gap.inner.items }
    requires load_inners { AreInnersOf load.outer.value.labels load.inner.items }
    requires gap_reduced { AreReduced gap.outer.value.layers }
    requires load_reduced { AreReduced load.outer.value.layers }
    ensures gap { IfOk result (λ r. AreOf r.gap gap) }
    ensures load { IfOk result (λ r. AreOf r.load load) }
    ensures merged { IfOk result (λ r. AreMerged (view_of r.gap) (view_of r.load) r.told.items) }
{
    match before_like(bays, &gap, &load) {
        Some(graphs) => {
            let both = merged_as(alloc, graphs, gap, load)?;
            Ok(both)
        }
        None => {
            let gap = merge(alloc, gap_folds, gap)?;
            let load = merge(alloc, load_folds, load)?;
            let told = told_layers(alloc, &gap, &load)?;
            Ok(BothViews { gap, load, told })
        }
    }
}
