//! The walk of a switch, with what is made of it: the graphs of its operations, and its edges, laid out to guess by.
ghost use Rattle.std.specs.Prelude.{◌≡◌, List, ◌<◌, ◌≤◌, length, IfOk, IfErr, OnOk};
ghost use Rattle.decision_graphs.specs.Label.{Layered};
ghost use Rattle.graph_walks.specs.declared.codes.Codes.{Codes as LabelCodes};
ghost use Rattle.ilk_base.specs.declared.words.Direction.{Direction as Way};
ghost use Rattle.station_joints.specs.Joined.{HaveJointSteps};
ghost use Rattle.dependence_search.specs.RuleWalks.{AreRuleStocks};
ghost use Rattle.dependence_search.specs.Released.{IsReleasedOf};
ghost use Rattle.dependence_search.specs.Width.{IsNarrow, IsTooWide};
ghost use Rattle.commissioning_tests.specs.Growing.{AreTurnedLayers};
ghost use Rattle.commissioning_tests.specs.Held.{IsHeld};
ghost use Rattle.judge_pool.specs.declared.limits.TheConstants.{BAY_EDGES};
ghost use Rattle.judge_pool.specs.declared.layer.Trouble.TheVariants.{Wide};

use crate::paths::{Paths, paths_of};
use decision_graphs::{Folds, Graph};
use dependence_search::{RuleStocks, released_graph, rule_walk};
use graph_walks::Walk;
use ilk_base::{Direction, Memory, SwitchId};
use judge_pool::Trouble;
use station_graph::Station;
use station_joints::JointSteps;
use std::alloc::Global;

// The walk of a switch, and what is made of it.
#[derive(Drop)]
pub(crate) struct SwitchPaths {
    pub(crate) walk: Walk,
    // the place of the step of the switch
    pub(crate) place: u16,
    // which operation opens it; the next closes it
    pub(crate) opening: usize,
    // the graphs that say whether it may be opened, and closed
    pub(crate) opened: Graph,
    pub(crate) closed: Graph,
    // for each layer whether its choice turns that the switch may be opened, and closed
    pub(crate) turns_opening: Vec<bool>,
    pub(crate) turns_closing: Vec<bool>,
    // the edges of the walk
    pub(crate) paths: Paths,
}

// For each layer of an operation's walk whether the choice there turns its release, by the graph of the operation.
fn turned_layers(alloc: Global, released: &Graph) -> Result<Vec<bool>, Memory>
    ensures { IfOk result (λ v. (walk : Layered) (codes : List LabelCodes) (direction : Way)
        → IsReleasedOf walk codes direction released.now → AreTurnedLayers walk codes direction v.items) }
{
    let mut folds = Folds::new(alloc);
    let layers = released.dependencies_by(alloc, &mut folds)?;
    Ok(layers)
}

// The walk of a switch, if it has no more edges than the limit.
pub(crate) fn switch_paths(
    alloc: Global,
    stocks: &mut RuleStocks,
    station: &Station,
    steps: &JointSteps,
    switch: SwitchId,
    opening: usize,
    limit: usize,
) -> Result<SwitchPaths, Trouble>
    requires steps { HaveJointSteps station.now station.now steps.now }
    requires some { 1 < length steps.now.old_steps.items }
    requires stocks { AreRuleStocks station.now steps.now.old_steps.items stocks.old }
    requires switch { switch.0 < length station.now.switches }
    requires limit { limit ≤ BAY_EDGES }
    ensures stocks { OnOk result (AreRuleStocks station.now steps.now.old_steps.items stocks.new) }
    ensures held { IfOk result (IsHeld station.now steps.now.old_steps.items switch.0) }
    ensures narrow { IfOk result (λ _. IsNarrow station.now steps.now.old_steps.items switch.0 limit) }
    ensures wide { IfErr result (λ e. e ≡ Wide
        → IsTooWide station.now steps.now.old_steps.items switch.0 limit) }
{
    let place = steps.old_places[usize::from(switch.0)];
    let walk = rule_walk(
        alloc,
        stocks,
        station,
        &steps.old_steps,
        place,
        switch,
        limit,
    )?;
    let opened = released_graph(alloc, &walk, Direction::ToOff)?;
    let closed = released_graph(alloc, &walk, Direction::ToOn)?;
    let turns_opening = turned_layers(alloc, &opened)?;
    let turns_closing = turned_layers(alloc, &closed)?;
    let paths = paths_of(alloc, &walk)?;
    Ok(SwitchPaths {
        walk,
        place,
        opening,
        opened,
        closed,
        turns_opening,
        turns_closing,
        paths,
    })
}
