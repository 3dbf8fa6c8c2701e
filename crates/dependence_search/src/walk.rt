//! The walk of the two graphs of a switch.
ghost use Rattle.std.specs.Prelude.{◌≡◌, ◌↔◌, ◌<◌, ◌≤◌, ◌^◌, ℕ, Bool, List, Option, length, IfOk, IfErr, OnOk};
ghost use Rattle.ilk_base.specs.declared.words.Op.{Op};
ghost use Rattle.ilk_base.specs.declared.words.Rule.{Rule};
ghost use Rattle.station_graph.specs.Alike.{IsVector};
ghost use Rattle.station_graph.specs.CentralRules.{Breaks};
ghost use Rattle.station_graph.specs.Diagram.{Diagram, IsStation};
ghost use Rattle.decision_graphs.specs.Label.{Layered};
ghost use Rattle.graph_walks.specs.declared.codes.Codes.{Codes};
ghost use Rattle.station_joints.specs.Together.{AreJointSteps};
ghost use Rattle.change_search.specs.Passing.{IsWideSwitchWalk, KeepsSwitchWalk};
ghost use Rattle.step_graphs.specs.declared.step.Step.{Step as StepValue};
ghost use Rattle.station_graph.specs.Connection.{a_switch};
ghost use Rattle.step_graphs.specs.Steps.{AreSteps, AllFit, TakesIn};
ghost use Rattle.judge_pool.specs.declared.limits.TheConstants.{BAY_EDGES};
ghost use Rattle.judge_pool.specs.declared.layer.Trouble.TheVariants.{Wide};
ghost use Rattle.graph_products.specs.declared.product.ProductTrouble.TheVariants.{Wide as TooWide};
ghost use Rattle.dependence_search.specs.RuleWalks.{AreRuleStocks, IsRuleWalk};

use graph_products::ProductTrouble;
use graph_walks::{Walk, walk_of};
use ilk_base::{Memory, SwitchId};
use judge_pool::{Trouble, View};
use station_graph::Station;
use std::alloc::Global;
use step_graphs::{Step, StepStock, moved_graph, step_stock};

/// What the graphs of all switches are made of, in both views.
#[derive(Drop)]
pub struct RuleStocks {
    /// for what is live and earthed
    pub gap: StepStock,
    /// for what carries load
    pub load: StepStock,
}

/// The stocks of these steps. Time and memory: the steps.
pub fn rule_stocks(alloc: Global, station: &Station, steps: &[Step]) -> Result<RuleStocks, Memory>
    requires { AllFit station.now steps.now }
    ensures { IfOk result (AreRuleStocks station.now steps.now) }
{
    Ok(RuleStocks {
        gap: step_stock(alloc, View::Gap, station, steps)?,
        load: step_stock(alloc, View::Load, station, steps)?,
    })
}

// Why a walk was not made.
fn trouble_of(trouble: ProductTrouble) -> Trouble
    ensures { (result ≡ Wide) ↔ (trouble ≡ TooWide) }
{
    match trouble {
        ProductTrouble::Memory => Trouble::Memory,
        ProductTrouble::Wide => Trouble::Wide,
    }
}

/// The walk of the gap graph and the load graph of a switch, by which labels say which rule moving it breaks, for each
/// position of all other switches. It is too wide exactly where a graph, or a product of them, has more edges than the
/// budget: a walk that is made keeps it, and along given steps none does both (`keeping_excludes_passing`).
/// Time and memory: those edges, and the compositions that the stocks have not got.
pub fn rule_walk(
    alloc: Global,
    stocks: &mut RuleStocks,
    station: &Station,
    steps: &[Step],
    place: u16,
    id: SwitchId,
    budget: usize,
) -> Result<Walk, Trouble>
    requires stocks { AreRuleStocks station.now steps.now stocks.old }
    requires steps { AreSteps station.now steps.now }
    requires moved { TakesIn steps.now place (a_switch id.0) }
    requires some { 1 < length steps.now }
    requires few { length steps.now < 2 ^ 16 }
    requires budget { budget ≤ BAY_EDGES }
    ensures stocks { OnOk result (AreRuleStocks station.now steps.now stocks.new) }
    ensures walk { IfOk result (λ w. IsRuleWalk station.now steps.now place id.0 w.graph w.codes.items) }
    ensures keeps { IfOk result (λ _. KeepsSwitchWalk station.now station.now steps.now steps.now place id.0 id.0 budget) }
    ensures wide { IfErr result (λ e. e ≡ Wide
        → IsWideSwitchWalk station.now station.now steps.now steps.now place id.0 id.0 budget) }
{
    let n = (steps.len() - 1) as u16;
    let gap = moved_graph(alloc, &mut stocks.gap, station, steps, place, id, budget)?;
    let load = moved_graph(alloc, &mut stocks.load, station, steps, place, id, budget)?;
    match walk_of(alloc, &gap, &gap, &load, &load, n, budget) {
        Ok(walk) => Ok(walk),
        Err(trouble) => Err(trouble_of(trouble)),
    }
}

/// The walk of a switch answers for every position of all switches: an operation of the switch breaks one rule there, or
/// none. This is a law: the call does nothing.
pub fn walks_answer()
    ensures { (d : Diagram) (old_steps new_steps : List StepValue) (b : ℕ) (op : Op) (walk : Layered) (codes : List Codes)
        (v : List Bool) → IsStation d → AreJointSteps d d old_steps new_steps → b < length old_steps
        → IsRuleWalk d old_steps b op.switch.0 walk codes → IsVector d v → (answer : Option Rule) × Breaks d v op answer }
{}
