//! The search for choices that show a change.
ghost use Rattle.std.specs.Prelude.{◌≡◌, ℕ, ◌<◌, ◌^◌, length, slice_get, Some, IfSome, IfNone, IfOk};
ghost use Rattle.decision_graphs.specs.Reaching.{IsSet};
ghost use Rattle.graph_walks.specs.declared.codes.Codes.{Codes as Labels};
ghost use Rattle.change_search.specs.Telling.{Tells};
ghost use Rattle.change_search.specs.Searching.{IsFound, HaveReached};

use crate::telling::tells;
use decision_graphs::{ChoiceList, ChoiceSets, Marks};
use graph_walks::{Codes, Walk};
use ilk_base::{Direction, Memory, Rule};
use station_changes::Change;
use std::alloc::Global;

// The first marked label that tells the change.
fn telling_label(
    codes: &[Codes],
    marks: &Marks,
    direction: Direction,
    change: Change,
    rule: Rule,
) -> Option<u32>
    requires many { length codes.now ≡ length marks.now.labels }
    requires few { length codes.now < 2 ^ 32 }
    ensures found { IfSome result (λ t. IsSet marks.now.labels t) }
    ensures shows { IfSome result (λ t. (c : Labels) × (slice_get codes.now t ≡ Some c) × Tells direction change rule c) }
    ensures none { IfNone result ((t : ℕ) (c : Labels) → slice_get codes.now t ≡ Some c → IsSet marks.now.labels t
        → ¬ Tells direction change rule c) }
{
    for t in 0..codes.len() {
        if marks.marked(t as u32) && tells(direction, change, rule, codes[t]) {
            return Some(t as u32);
        }
    }
    None
}

/// Allowed choices by which a walk leads to labels that tell the change by the rule; none where no allowed choices do. The
/// marks are those that `Graph::reach` sets for these allowed choices. Time: the labels and the layers.
pub fn find_change(
    alloc: Global,
    walk: &Walk,
    sets: &ChoiceSets,
    marks: &Marks,
    direction: Direction,
    change: Change,
    rule: Rule,
) -> Result<Option<ChoiceList>, Memory>
    requires reached { HaveReached walk.now.graph sets.now marks.now }
    requires labels { walk.now.graph.labels ≡ length walk.now.codes.items }
    ensures { IfOk result (IsFound walk.now.graph walk.now.codes.items sets.now direction change rule) }
{
    let _ = sets;
    let _labels = walk.graph.labels();
    match telling_label(&walk.codes, marks, direction, change, rule) {
        Some(label) => {
            let path = marks.path_to(alloc, label)?;
            Ok(Some(path))
        }
        None => Ok(None),
    }
}
