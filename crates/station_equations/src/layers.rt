//! Graphs as nodes of equations, from the last layer to the first.
ghost use Rattle.std.specs.Prelude.{◌≡◌, ◌<◌, ◌≤◌, ◌+◌, ◌-◌, ◌∷◌, ℕ, Bool, List, suc, length, slice_get, Some, IfOk};
ghost use Rattle.std.specs.Prelude.{OnOk};
ghost use Rattle.decision_graphs.specs.Label.{layer_at, size_at, first_at, step, label_of};
ghost use Rattle.decision_graphs.specs.Reaching.{node_total};
ghost use Rattle.release_compile.specs.Chaining.{AreInARow};
ghost use Rattle.station_equations.specs.declared.goal.Goal.{Goal as GoalOf};
ghost use Rattle.station_equations.specs.EquationLines.{PartLines};
ghost use Rattle.station_equations.specs.EquationForm.{IsGoal};
ghost use Rattle.station_equations.specs.Subjects.{IsRowFor, IsChosen, HasChoices, AreChosenFrom, LayersLook};
ghost use Rattle.station_equations.specs.Growing.{AreGoals, AllGrew, LayersHaveChoices, LayerLeads, LeadsToEnd};
ghost use Rattle.judge_pool.specs.Pooling.{Extends};
ghost use Rattle.station_equations.specs.Growing.{AllLead};
ghost use Rattle.station_equations.specs.Apart.{IsFrom, AreFrom, AllFrom};
ghost use Rattle.station_equations.specs.Compiling.{inner_total};

use crate::goal::Goal;
use crate::node::Node;
use crate::rows::{goal_by, row_goals};
use crate::subject::{Subject, Subjects};
use decision_graphs::Graph;
use ilk_base::Memory;
use std::alloc::Global;

// The goals of the nodes of a layer, where `next` has a goal for each place behind it.
fn layer_goals(
    alloc: Global,
    nodes: &mut Vec<Node>,
    graph: &Graph,
    layer: u16,
    subject: Subject,
    next: &[Goal],
) -> Result<Vec<Goal>, Memory>
    requires layer { layer < length graph.now.layers }
    requires next { length next.now ≡ size_at graph.now.labels graph.now.layers (suc layer) }
    requires row { IsRowFor subject (layer_at graph.now.layers layer).choices }
    ensures extends { OnOk result (Extends nodes.old.items nodes.new.items) }
    ensures count { IfOk result (λ v. length v.items ≡ length (layer_at graph.now.layers layer).rows) }
    ensures leads { IfOk result (λ v. LayerLeads nodes.new.items subject (layer_at graph.now.layers layer)
        next.now v.items) }
    ensures grew { IfOk result (λ v. (switches : ℕ) (parts : List PartLines) →
        HasChoices switches parts subject (layer_at graph.now.layers layer).choices
        → AreGoals (length nodes.old.items) next.now → AllGrew switches parts nodes.old.items
        → AllGrew switches parts nodes.new.items × AreGoals (length nodes.new.items) v.items) }
    ensures apart { IfOk result (λ v. (lo : ℕ) → lo ≤ length nodes.old.items → AreFrom lo next.now →
        AllFrom lo nodes.old.items
        → AllFrom lo nodes.new.items × AreFrom lo v.items) }
    ensures few { OnOk result (length nodes.new.items
        ≤ length nodes.old.items + length (layer_at graph.now.layers layer).rows) }
{
    let (_, count) = graph.nodes(layer);
    let mut goals = Vec::new(alloc);
    for node in 0..count {
        let row = row_goals(alloc, graph, layer, node, next)?;
        let goal = goal_by(nodes, subject, row)?;
        goals.push(goal)?;
    }
    Ok(goals)
}

// The goals of the nodes of layer `from`, where `ends` has a goal for each label.
fn graph_goals(
    alloc: Global,
    nodes: &mut Vec<Node>,
    graph: &Graph,
    from: u16,
    subjects: Subjects,
    ends: Vec<Goal>,
) -> Result<Vec<Goal>, Memory>
    requires from { from ≤ length graph.now.layers }
    requires ends { length ends.items ≡ graph.now.labels }
    requires look { LayersLook subjects graph.now from }
    ensures extends { OnOk result (Extends nodes.old.items nodes.new.items) }
    ensures count { IfOk result (λ v. length v.items ≡ size_at graph.now.labels graph.now.layers from) }
    ensures leads { IfOk result (λ v. AllLead nodes.new.items subjects graph.now from v.items ends.items) }
    ensures grew { IfOk result (λ v. (switches : ℕ) (parts : List PartLines) →
        LayersHaveChoices switches parts subjects graph.now from
        → AreGoals (length nodes.old.items) ends.items → AllGrew switches parts nodes.old.items
        → AllGrew switches parts nodes.new.items × AreGoals (length nodes.new.items) v.items) }
    ensures apart { IfOk result (λ v. (lo : ℕ) → lo ≤ length nodes.old.items → AreFrom lo ends.items →
        AllFrom lo nodes.old.items
        → AllFrom lo nodes.new.items × AreFrom lo v.items) }
    ensures few { OnOk result (length nodes.new.items + first_at graph.now.layers from
        ≤ length nodes.old.items + node_total graph.now) }
{
    let mut layer = graph.layers();
    let mut goals = ends;
    while layer > from {
        layer -= 1;
        let subject = subjects.at(layer);
        let before = layer_goals(alloc, nodes, graph, layer, subject, &goals)?;
        goals = before;
    }
    Ok(goals)
}

// The goal that leads through the outer graph of a bay and then through the inner graph of a switch to the
// goals of the inner graph's labels.
pub(crate) fn view_goal(
    alloc: Global,
    nodes: &mut Vec<Node>,
    outer: &Graph,
    inner: &Graph,
    others: Subjects,
    own: Subjects,
    ends: Vec<Goal>,
) -> Result<Goal, Memory>
    requires row { AreInARow outer.now inner.now }
    requires ends { length ends.items ≡ inner.now.labels }
    requires others { LayersLook others outer.now 0 }
    requires own { LayersLook own inner.now 1 }
    ensures extends { OnOk result (Extends nodes.old.items nodes.new.items) }
    ensures leads { IfOk result (λ goal. (parts : List PartLines) (v : List Bool) (cs ds : List ℕ)
        → length cs ≡ length outer.now.layers → AreChosenFrom parts v others outer.now 0 cs
        → suc (length ds) ≡ length inner.now.layers → AreChosenFrom parts v own inner.now 1 ds
        → LeadsToEnd parts nodes.new.items v goal ends.items (label_of inner.now (label_of outer.now cs ∷ ds))) }
    ensures grew { IfOk result (λ goal. (switches : ℕ) (parts : List PartLines)
        → LayersHaveChoices switches parts others outer.now 0 → LayersHaveChoices switches parts own inner.now 1
        → AreGoals (length nodes.old.items) ends.items → AllGrew switches parts nodes.old.items
        → AllGrew switches parts nodes.new.items × IsGoal (length nodes.new.items) goal) }
    ensures apart { IfOk result (λ goal. (lo : ℕ) → lo ≤ length nodes.old.items → AreFrom lo ends.items →
        AllFrom lo nodes.old.items
        → AllFrom lo nodes.new.items × IsFrom lo goal) }
    ensures few { OnOk result (length nodes.new.items
        ≤ length nodes.old.items + (inner_total inner.now + node_total outer.now)) }
{
    let _fits = inner.labels();
    let _outer_fits = outer.labels();
    let inner_goals = graph_goals(alloc, nodes, inner, 1, own, ends)?;
    let entries = row_goals(alloc, inner, 0, 0, &inner_goals)?;
    let goals = graph_goals(alloc, nodes, outer, 0, others, entries)?;
    Ok(goals[0])
}
