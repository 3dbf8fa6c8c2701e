//! The equations of a station's judge.
ghost use Rattle.std.specs.Prelude.{◌≡◌, ◌<◌, ◌≤◌, ◌+◌, ◌∷◌, [], ℕ, Bool, List, length, slice_get, Some, None, IfOk};
ghost use Rattle.std.specs.Prelude.{OnOk};
ghost use Rattle.ilk_base.specs.declared.words.Rule.TheVariants.{R1, R2, R3};
ghost use Rattle.station_graph.specs.Alike.{IsVector};
ghost use Rattle.judge_pool.specs.declared.view.View.TheVariants.{Gap, Load};
ghost use Rattle.release_compile.specs.Judging.{ground, bay_at};
ghost use Rattle.judge_graphs.specs.Built.{AreBayGraphs};
ghost use Rattle.central_rules.specs.Meaning.{bay_of};
ghost use Rattle.station_equations.specs.declared.goal.Goal.TheVariants.{Answer};
ghost use Rattle.station_equations.specs.EquationLines.{PartLines};
ghost use Rattle.station_equations.specs.EquationForm.{IsGoal, SwitchGoalsFit, AreEquations};
ghost use Rattle.station_equations.specs.Growing.{AllGrew};
ghost use Rattle.judge_pool.specs.Pooling.{Extends};
ghost use Rattle.station_equations.specs.Apart.{IsFrom, BothFrom, AllFrom, StandApart};
ghost use Rattle.station_equations.specs.NodeCount.{HaveFewNodes, HaveFewLines};
ghost use Rattle.station_equations.specs.CompileText.{IsCompileText};
ghost use Rattle.station_equations.specs.Compiling.{AreExact, AreExactParts, IsOwnBay, ViewLeads, SwitchIsExact};
ghost use Rattle.station_equations.specs.Compiling.{AreGoalsOf, HaveFewSteps, view_nodes, switch_nodes};

use crate::equations::Equations;
use crate::goal::{Goal, NUMBERS, SwitchGoals};
use crate::layers::view_goal;
use crate::node::Node;
use crate::steps::all_steps;
use crate::subject::Subjects;
use crate::turning::{turned_nodes, turned_ops};
use ilk_base::{BayId, Memory, Rule, SwitchId, Text};
use release_compile::GraphJudge;
use station_graph::Station;
use std::alloc::Global;

// The goals of the labels of an inner load graph.
fn load_ends(alloc: Global) -> Result<Vec<Goal>, Memory>
    ensures { IfOk result (λ v. v.items ≡ Answer None ∷ Answer (Some R3) ∷ []) }
{
    let mut ends = Vec::new(alloc);
    ends.push(Goal::Answer(None))?;
    ends.push(Goal::Answer(Some(Rule::R3)))?;
    Ok(ends)
}

// The goals of the labels of an inner gap graph, where the first two rules give none at the first.
fn gap_ends(alloc: Global, free: Goal) -> Result<Vec<Goal>, Memory>
    ensures { IfOk result (λ v. v.items ≡ free ∷ Answer (Some R1) ∷ Answer (Some R2) ∷ []) }
{
    let mut ends = Vec::new(alloc);
    ends.push(free)?;
    ends.push(Goal::Answer(Some(Rule::R1)))?;
    ends.push(Goal::Answer(Some(Rule::R2)))?;
    Ok(ends)
}

// The bay of a switch, its first switch, and how many it has.
#[derive(Clone, Copy)]
struct OwnBay {
    bay: BayId,
    first: SwitchId,
    count: u16,
}

// Where the switch stands.
fn own_bay(judge: &GraphJudge, id: SwitchId) -> OwnBay
    requires { id.0 < length judge.now.diagram.switches }
    ensures { IsOwnBay judge.now.diagram id.0 result.bay.0 result.first.0 result.count }
{
    let station = judge.station();
    let bay = station.switch(id).bay;
    let (first, count) = station.switches_of(bay);
    OwnBay { bay, first, count }
}

// The goal that leads through the load graphs of a switch to these goals.
fn load_goal(
    alloc: Global,
    judge: &GraphJudge,
    nodes: &mut Vec<Node>,
    id: SwitchId,
    own: OwnBay,
) -> Result<Goal, Memory>
    requires { IsOwnBay judge.now.diagram id.0 own.bay.0 own.first.0 own.count }
    ensures extends { OnOk result (Extends nodes.old.items nodes.new.items) }
    ensures leads { IfOk result (λ goal. (parts : List PartLines) (v : List Bool) →
        AreExactParts judge.now.diagram judge.now.alphabets parts
        → IsVector judge.now.diagram v →
        ViewLeads Load judge.now.diagram parts nodes.new.items v id.0 goal (Answer None ∷ Answer (Some R3) ∷ [])) }
    ensures grew { IfOk result (λ goal. (parts : List PartLines) →
        AreExactParts judge.now.diagram judge.now.alphabets parts
        → AllGrew (length judge.now.diagram.switches) parts nodes.old.items
        → AllGrew (length judge.now.diagram.switches) parts nodes.new.items × IsGoal (length nodes.new.items) goal) }
    ensures apart { IfOk result (λ goal. (lo : ℕ) → lo ≤ length nodes.old.items → AllFrom lo nodes.old.items
        → AllFrom lo nodes.new.items × IsFrom lo goal) }
    ensures few { OnOk result (length nodes.new.items ≤ length nodes.old.items
        + view_nodes (bay_at judge.now (bay_of judge.now.diagram id.0))
        (bay_at judge.now (bay_of judge.now.diagram id.0)).load id.0) }
    ensures graphs { IfOk result (λ _. AreBayGraphs (ground judge.now) (bay_of judge.now.diagram id.0)
        (bay_at judge.now (bay_of judge.now.diagram id.0))) }
{
    let ends = load_ends(alloc)?;
    let _alphabets = judge.parts();
    let outer = judge.outer_load(own.bay);
    let inner = judge.inner_load(id);
    let others = Subjects::OtherParts(own.bay);
    let switches = Subjects::OtherSwitches {
        first: own.first,
        moved: id,
    };
    let goal = view_goal(alloc, nodes, outer, inner, others, switches, ends)?;
    Ok(goal)
}

// The goal that leads through the gap graphs of a switch: to this goal where the first two rules give none,
// else to the rule.
fn gap_goal(
    alloc: Global,
    judge: &GraphJudge,
    nodes: &mut Vec<Node>,
    id: SwitchId,
    own: OwnBay,
    free: Goal,
) -> Result<Goal, Memory>
    requires { IsOwnBay judge.now.diagram id.0 own.bay.0 own.first.0 own.count }
    ensures extends { OnOk result (Extends nodes.old.items nodes.new.items) }
    ensures leads { IfOk result (λ goal. (parts : List PartLines) (v : List Bool) →
        AreExactParts judge.now.diagram judge.now.alphabets parts
        → IsVector judge.now.diagram v →
        ViewLeads Gap judge.now.diagram parts nodes.new.items v id.0 goal
        (free ∷ Answer (Some R1) ∷ Answer (Some R2) ∷ [])) }
    ensures grew { IfOk result (λ goal. (parts : List PartLines) →
        AreExactParts judge.now.diagram judge.now.alphabets parts
        → IsGoal (length nodes.old.items) free → AllGrew (length judge.now.diagram.switches) parts nodes.old.items
        → AllGrew (length judge.now.diagram.switches) parts nodes.new.items × IsGoal (length nodes.new.items) goal) }
    ensures apart { IfOk result (λ goal. (lo : ℕ) → lo ≤ length nodes.old.items → IsFrom lo free →
        AllFrom lo nodes.old.items
        → AllFrom lo nodes.new.items × IsFrom lo goal) }
    ensures few { OnOk result (length nodes.new.items ≤ length nodes.old.items
        + view_nodes (bay_at judge.now (bay_of judge.now.diagram id.0))
        (bay_at judge.now (bay_of judge.now.diagram id.0)).gap id.0) }
{
    let ends = gap_ends(alloc, free)?;
    let _alphabets = judge.parts();
    let outer = judge.outer_gap(own.bay);
    let inner = judge.inner_gap(id);
    let others = Subjects::OtherParts(own.bay);
    let switches = Subjects::OtherSwitches {
        first: own.first,
        moved: id,
    };
    let goal = view_goal(alloc, nodes, outer, inner, others, switches, ends)?;
    Ok(goal)
}

// The goals of a switch's operations. Opening is judged by the load graphs alone; closing by the gap graphs,
// and where these give no rule, by the load graphs.
fn switch_goals(
    alloc: Global,
    judge: &GraphJudge,
    nodes: &mut Vec<Node>,
    id: SwitchId,
) -> Result<SwitchGoals, Memory>
    requires { id.0 < length judge.now.diagram.switches }
    ensures extends { OnOk result (Extends nodes.old.items nodes.new.items) }
    ensures exact { IfOk result (λ goals. (parts : List PartLines) (v : List Bool) →
        AreExactParts judge.now.diagram judge.now.alphabets parts
        → IsVector judge.now.diagram v → SwitchIsExact judge.now.diagram parts nodes.new.items goals id.0 v) }
    ensures grew { IfOk result (λ goals. (parts : List PartLines) →
        AreExactParts judge.now.diagram judge.now.alphabets parts
        → AllGrew (length judge.now.diagram.switches) parts nodes.old.items
        → AllGrew (length judge.now.diagram.switches) parts nodes.new.items
        × SwitchGoalsFit (length nodes.new.items) goals) }
    ensures apart { IfOk result (λ goals. AllFrom (length nodes.old.items) nodes.new.items
        × BothFrom (length nodes.old.items) goals) }
    ensures few { OnOk result (length nodes.new.items ≤ length nodes.old.items + switch_nodes judge.now id.0) }
    ensures graphs { IfOk result (λ _. AreBayGraphs (ground judge.now) (bay_of judge.now.diagram id.0)
        (bay_at judge.now (bay_of judge.now.diagram id.0))) }
{
    let own = own_bay(judge, id);
    let opening = load_goal(alloc, judge, nodes, id, own)?;
    let closing = gap_goal(alloc, judge, nodes, id, own, opening)?;
    Ok(SwitchGoals { opening, closing })
}

// The goals of all switches.
fn all_goals(
    alloc: Global,
    judge: &GraphJudge,
    nodes: &mut Vec<Node>,
) -> Result<Vec<SwitchGoals>, Memory>
    requires { nodes.old.items ≡ [] }
    ensures goals { IfOk result (λ ops. (parts : List PartLines) →
        AreExactParts judge.now.diagram judge.now.alphabets parts
        → AreGoalsOf judge.now.diagram parts nodes.new.items (length judge.now.diagram.switches) ops.items) }
    ensures apart { IfOk result (λ ops. (parts : List PartLines) →
        AreExactParts judge.now.diagram judge.now.alphabets parts
        → StandApart judge.now (length judge.now.diagram.switches) ops.items nodes.new.items) }
{
    let station = judge.station();
    let mut ops = Vec::new(alloc);
    for i in 0..station.switch_count() {
        let goals = switch_goals(alloc, judge, nodes, SwitchId(i))?;
        ops.push(goals)?;
    }
    Ok(ops)
}

// How many nodes there are, where they are fewer than `NUMBERS`.
fn node_count(nodes: &[Node]) -> Result<u32, Memory>
    ensures { IfOk result (λ n. length nodes.now ≡ n) }
{
    if nodes.len() as u64 >= NUMBERS {
        return Err(Memory);
    }
    Ok(nodes.len() as u32)
}

/// The equations of the judge's station: their meaning is what the rules say, for every operation and every
/// vector. They are made of the judge's decision graphs: opening a switch is judged by the load graphs alone,
/// and closing it by the gap graphs, and where these give no rule, by the load graphs. Time and memory: for
/// each switch the edges of its bay's outer graphs and of its inner ones.
pub fn compile_equations(alloc: Global, judge: &GraphJudge) -> Result<Equations, Memory>
    ensures of_station { IfOk result (AreEquations judge.now.diagram) }
    ensures exact { IfOk result (AreExact judge.now.diagram) }
    ensures steps { IfOk result (HaveFewSteps judge.now.diagram) }
    ensures nodes { IfOk result (HaveFewNodes judge.now.diagram) }
    ensures all { IfOk result (HaveFewLines judge.now.diagram) }
{
    let parts = all_steps(alloc, judge.station(), judge.parts())?;
    let mut nodes = Vec::new(alloc);
    let goals = all_goals(alloc, judge, &mut nodes)?;
    let total = node_count(&nodes)?;
    let ops = turned_ops(goals, total);
    let lines = turned_nodes(alloc, nodes, total)?;
    Ok(Equations {
        parts,
        ops,
        nodes: lines,
    })
}

/// The text of the equations of the judge's station (docs/FORMATS.md): one of the form, whose meaning is what
/// the rules say, with no more lines than the counted sizes of the station allow. Time and memory: as those of
/// `compile_equations`, and the text, which is held once.
pub fn compile_text(alloc: Global, station: &Station, judge: &GraphJudge) -> Result<Text, Memory>
    requires same { judge.now.diagram ≡ station.now }
    ensures { IfOk result (IsCompileText station.now) }
{
    let equations = compile_equations(alloc, judge)?;
    let text = equations.text(alloc, station)?;
    Ok(text)
}
