//! What the inner graph of a switch can say by the words of its bay alone, wherever the other parts stand. It is small
//! beside the outer graph, which need not be walked where the inner one can say nothing.
ghost use Rattle.std.specs.Prelude.{◌≡◌, ℕ, suc, ◌+◌, ◌<◌, ◌^◌, List, Bool, length, IfOk, IsFalse};
ghost use Rattle.double_points.specs.Words.{AreWords};
ghost use Rattle.decision_graphs.specs.Label.{layer_at};
ghost use Rattle.decision_graphs.specs.Reaching.{AreSetsOf, IsSet, set_at};
ghost use Rattle.judge_pool.specs.Lettered.{lettered};
ghost use Rattle.judge_pool.specs.Graphs.{IsOwn};
ghost use Rattle.judge_graphs.specs.Built.{AreViewGraphs};
ghost use Rattle.judge_graphs.specs.BuiltView.{view_of};
ghost use Rattle.release_compile.specs.Allowed.{OwnAllowed};
ghost use Rattle.release_compile.specs.Denying.{SaysNoRule};

use crate::reached::marked;
use crate::sets::{allow_marked, allow_own};
use crate::sides::Place;
use bay_contract::Parts;
use decision_graphs::{ChoiceSets, Graph, Marks};
use double_points::Readings;
use ilk_base::{Memory, SwitchId};
use judge_graphs::ViewGraphs;
use judge_pool::View;
use station_graph::Station;
use std::alloc::Global;

// Sets for an inner graph: all labels of the outer one, and the positions that agree with the words.
fn own_sets(
    alloc: Global,
    inner: &Graph,
    own: &Readings,
    first: u16,
    moved: u16,
    others: u16,
) -> Result<ChoiceSets, Memory>
    requires count { length inner.now.layers ≡ suc others }
    requires two { (i : ℕ) → i < others → (layer_at inner.now.layers (suc i)).choices ≡ 2 }
    requires words { first + others < length own.now }
    requires few { length own.now + 1 < 2 ^ 16 }
    ensures sets { IfOk result (AreSetsOf inner.now.layers) }
    ensures labels { IfOk result (λ s. (label : ℕ) → label < (layer_at inner.now.layers 0).choices →
        IsSet (set_at s 0) label) }
    ensures own { IfOk result (OwnAllowed first moved others own.now) }
{
    let mut sets = ChoiceSets::new(alloc, inner)?;
    let labels = vec![in alloc; true; inner.choices(0) as usize]?;
    allow_marked(&mut sets, 0, &labels);
    allow_own(&mut sets, own, first, moved, others);
    Ok(sets)
}

// Whether one of so many labels is marked that says a rule, as all do but the first.
fn says_some(marks: &Marks, count: u32) -> bool
    requires { length marks.now.labels ≡ count }
    ensures { IsFalse result → (label : ℕ) → 0 < label → label < count → IsSet marks.now.labels label → ⊥ }
{
    for label in 1..count {
        if marks.marked(label) {
            return true;
        }
    }
    false
}

// Whether the view may say a rule of the switch: with some label of the outer graph, reached or not, the words of the
// bay lead to a label that says one. Where they do not, none is said whatever was heard.
pub(crate) fn may_say(
    alloc: Global,
    view: View,
    station: &Station,
    parts: &Parts,
    graphs: &ViewGraphs,
    own: &Readings,
    place: Place,
    switch: SwitchId,
) -> Result<bool, Memory>
    requires own { IsOwn station.now place.bay.0 switch.0 place.first place.others }
    requires words { AreWords station.now own.now }
    requires graphs { AreViewGraphs view (lettered station.now parts.now) place.bay.0 place.first (suc place.others)
        (view_of graphs.now) }
    ensures { IfOk result (λ may. IsFalse may → (sets : List (List Bool)) →
        AreSetsOf graphs.now.merged.value.layers sets →
        SaysNoRule view (lettered station.now parts.now) place.bay.0 switch.0 own.now sets) }
{
    let _count = station.switch_count();
    let index = usize::from(switch.0 - place.first);
    let inner = &graphs.inner[index];
    let sets = own_sets(alloc, inner, own, place.first, switch.0, place.others)?;
    let marks = marked(alloc, inner, &sets)?;
    Ok(says_some(&marks, inner.labels()))
}
