//! The graph of a moved switch.
ghost use Rattle.std.specs.Prelude.{◌≡◌, ℕ, suc, ◌+◌, ◌<◌, ◌≤◌, ◌^◌, length, map, slice_index};
ghost use Rattle.std.specs.Prelude.{IfOk, IfErr, OnOk, sum_by};
ghost use Rattle.decision_graphs.specs.declared.finished.FinishedLayer.{FinishedLayer as Finished};
ghost use Rattle.station_graph.specs.Connection.{a_switch};
ghost use Rattle.decision_graphs.specs.Finished.{AreFinished, finished};
ghost use Rattle.decision_graphs.specs.declared.limits.TheConstants.{LAYERS, GRAPH_NODES};
ghost use Rattle.judge_pool.specs.Pooling.{IsPool, GrewTo};
ghost use Rattle.judge_pool.specs.declared.limits.TheConstants.{BAY_EDGES};
ghost use Rattle.step_graphs.specs.Steps.{AreSteps, AllFit, TakesIn};
ghost use Rattle.step_graphs.specs.Letters.{AreStepRows};
ghost use Rattle.step_graphs.specs.Ready.{IsStepStock, IsStepReady};
ghost use Rattle.step_graphs.specs.Moved.{IsMovedGraph, IsLabelledFrom};
ghost use Rattle.step_graphs.specs.Edges.{StepsPass, StepsKeep};
ghost use Rattle.judge_pool.specs.declared.layer.Trouble.TheVariants.{Wide};

use crate::ends::end_codes;
use crate::letters::step_rows;
use crate::spans::step_keeps;
use crate::step::Step;
use decision_graphs::{FinishedLayer, Folds, Graph};
use ilk_base::{Memory, SwitchId};
use judge_intake::codes::label_count;
use judge_intake::{nothing, other_rows};
use judge_pool::{Pool, Trouble, View, fold_layers};
use station_graph::Station;
use std::alloc::Global;

/// What the graphs of all switches are made of, in one view: the values of the steps, and what was composed of them.
#[derive(Drop)]
pub struct StepStock {
    /// the values, of which there are those of the steps
    pub pool: Pool,
    /// for each step the numbers of its values, open and closed
    pub rows: Vec<Vec<usize>>,
}

// What the layers of a graph take in, by the numbers of a pool.
#[derive(Drop)]
struct StepIntake {
    start: usize,
    letters: Vec<Vec<usize>>,
    keeps: Vec<usize>,
}

/// The stock of these steps in one view. Time and memory: the steps.
pub fn step_stock(
    alloc: Global,
    view: View,
    station: &Station,
    steps: &[Step],
) -> Result<StepStock, Memory>
    requires { AllFit station.now steps.now }
    ensures stock { IfOk result (IsStepStock station.now steps.now) }
    ensures view { IfOk result (λ s. s.pool.view ≡ view) }
{
    let mut pool = Pool::new(alloc, view);
    let rows = step_rows(alloc, &mut pool, station, steps)?;
    Ok(StepStock { pool, rows })
}

// What the layers of the graph of the switch at a place take in, by a pool and the numbers in it of the steps' values.
fn intake(
    alloc: Global,
    pool: &mut Pool,
    rows: &[Vec<usize>],
    station: &Station,
    steps: &[Step],
    place: u16,
    others: u16,
) -> Result<StepIntake, Memory>
    requires pool { IsPool pool.old }
    requires rows { AreStepRows pool.old station.now steps.now (map (λ v. v.items) rows.now) (length steps.now) }
    requires fit { AllFit station.now steps.now }
    requires count { suc others ≡ length steps.now }
    requires few { others + 1 < 2 ^ 16 }
    requires place { place < length steps.now }
    ensures grew { OnOk result (GrewTo pool.old pool.new) }
    ensures ready { IfOk result (λ i. IsStepReady pool.new station.now steps.now place others i.start
        (map (λ v. v.items) i.letters.items) i.keeps.items) }
{
    let keeps = step_keeps(alloc, pool, station, steps, place, others)?;
    let start = nothing(alloc, pool)?;
    let letters = other_rows(alloc, rows, place, others)?;
    Ok(StepIntake {
        start,
        letters,
        keeps,
    })
}

// The graph of these layers, reduced, with these in place of its labels.
fn labelled(
    alloc: Global,
    layers: &[FinishedLayer],
    count: u32,
    labels: &[u32],
) -> Result<Graph, Memory>
    requires finished { AreFinished (length labels.now) layers.now }
    requires few_layers { length layers.now ≤ LAYERS }
    requires few_labels { length labels.now < 2 ^ 32 }
    requires few_nodes { sum_by (λ (l : Finished). l.nodes) layers.now ≤ GRAPH_NODES }
    requires some { 0 < count }
    requires small { (x : ℕ) → x < length labels.now → slice_index labels.now x < count }
    ensures { IfOk result (IsLabelledFrom count labels.now (map finished layers.now)) }
{
    let whole = Graph::from_layers(alloc, labels.len() as u32, layers)?;
    let named = whole.rename(alloc, count, labels)?;
    // (like bays make layers that are folded alike)
    let mut folds = Folds::new(alloc);
    let reduced = named.reduce_by(alloc, &mut folds)?;
    let _labels = reduced.labels();
    Ok(reduced)
}

/// The graph of the switch at a place of the steps, made of the values of a pool, where these are the numbers of each
/// step's values, open and closed. So the graphs of two stations can be made of one pool, and what both have alike is
/// composed once. It is too wide where it has more edges than the budget before it is reduced: before each layer each
/// distinct view of the items so far counts two edges. Time and memory: those of the edges, and of the compositions that
/// the pool has not got.
pub fn moved_graph_in(
    alloc: Global,
    pool: &mut Pool,
    rows: &[Vec<usize>],
    station: &Station,
    steps: &[Step],
    place: u16,
    id: SwitchId,
    budget: usize,
) -> Result<Graph, Trouble>
    requires pool { IsPool pool.old }
    requires rows { AreStepRows pool.old station.now steps.now (map (λ v. v.items) rows.now) (length steps.now) }
    requires steps { AreSteps station.now steps.now }
    requires moved { TakesIn steps.now place (a_switch id.0) }
    requires some { 1 < length steps.now }
    requires few { length steps.now < 2 ^ 16 }
    requires budget { budget ≤ BAY_EDGES }
    ensures grew { OnOk result (GrewTo pool.old pool.new) }
    ensures graph { IfOk result (IsMovedGraph pool.old.view station.now steps.now place id.0) }
    ensures room { IfOk result (λ _. StepsKeep pool.old.view station.now steps.now place budget) }
    ensures wide { IfErr result (λ e. e ≡ Wide → StepsPass pool.old.view station.now steps.now place budget) }
{
    let others = (steps.len() - 1) as u16;
    let taken = intake(alloc, pool, rows, station, steps, place, others)?;
    let drafts = fold_layers(
        alloc,
        pool,
        taken.start,
        &taken.letters,
        &taken.keeps,
        budget,
    )?;
    let codes = end_codes(alloc, pool, station, id, &drafts.states)?;
    let count = label_count(pool.view);
    let graph = labelled(alloc, &drafts.layers, count, &codes)?;
    Ok(graph)
}

/// The same of a stock.
pub fn moved_graph(
    alloc: Global,
    stock: &mut StepStock,
    station: &Station,
    steps: &[Step],
    place: u16,
    id: SwitchId,
    limit: usize,
) -> Result<Graph, Trouble>
    requires stock { IsStepStock station.now steps.now stock.old }
    requires steps { AreSteps station.now steps.now }
    requires moved { TakesIn steps.now place (a_switch id.0) }
    requires some { 1 < length steps.now }
    requires few { length steps.now < 2 ^ 16 }
    requires limit { limit ≤ BAY_EDGES }
    ensures stock { OnOk result (IsStepStock station.now steps.now stock.new) }
    ensures view { OnOk result (stock.new.pool.view ≡ stock.old.pool.view) }
    ensures graph { IfOk result (IsMovedGraph stock.old.pool.view station.now steps.now place id.0) }
    ensures room { IfOk result (λ _. StepsKeep stock.old.pool.view station.now steps.now place limit) }
    ensures wide { IfErr result (λ e. e ≡ Wide →
        StepsPass stock.old.pool.view station.now steps.now place limit) }
{
    let graph = moved_graph_in(
        alloc,
        &mut stock.pool,
        &stock.rows,
        station,
        steps,
        place,
        id,
        limit,
    )?;
    Ok(graph)
}
