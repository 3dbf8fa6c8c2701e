//! The graphs of a bay are made.
ghost use Rattle.std.specs.Prelude.{◌≡◌, ◌+◌, ◌<◌, ◌≤◌, ◌↔◌, ℕ, suc, length, map, Some, IfOk, IfErr, OnOk};
ghost use Rattle.station_graph.specs.Diagram.{part_count};
ghost use Rattle.contraction.specs.Renaming.{mapped};
ghost use Rattle.part_alphabets.specs.PartAlphabets.{Alphabets};
ghost use Rattle.part_alphabets.specs.Alphabets.{AreAlphabets};
ghost use Rattle.judge_pool.specs.Lettered.{lettered};
ghost use Rattle.judge_pool.specs.Pooling.{IsPool, GrewTo};
ghost use Rattle.judge_pool.specs.Layering.{values_at};
ghost use Rattle.judge_intake.specs.SharedNodes.{IsSharing};
ghost use Rattle.judge_intake.specs.Inputs.{AreNames, IsBayIntake};
ghost use Rattle.judge_intake.specs.OwnBays.{IsOwnBay};
ghost use Rattle.judge_pool.specs.Places.{node_listed, pool_on};
ghost use Rattle.judge_graphs.specs.Built.{AreInner, AreUnmerged, AreBayGraphs};
ghost use Rattle.judge_pool.specs.Counted.{SwitchesHave, ViewHas, BayHas, Spends, Passes};
ghost use Rattle.judge_graphs.specs.Stocking.{IsStock};
ghost use Rattle.judge_graphs.specs.Labelling.{AreInnerNotes};
ghost use Rattle.judge_graphs.specs.Telling.{HasMerged, HaveMerged};
ghost use Rattle.judge_pool.specs.declared.view.View.TheVariants.{Gap, Load};
ghost use Rattle.judge_pool.specs.declared.layer.Trouble.TheVariants.{Wide};
ghost use Rattle.judge_graphs.specs.BuiltView.{seen_bay};
ghost use Rattle.judge_pool.specs.declared.limits.TheConstants.{BAY_EDGES};

use crate::graphs::{BayGraphs, Unmerged};
use crate::inner::inner_graph;
use crate::labelled::InnerNotes;
use crate::outer::outer_graph;
use crate::partners::merge_both;
use crate::stock::Stock;
use bay_contract::Parts;
use decision_graphs::{Folds, Graph};
use ilk_base::BayId;
use judge_intake::{BayIntake, OwnBay, Sharing, bay_intake, own_bay};
use judge_pool::{Pool, Trouble, View};
use station_graph::Station;
use std::alloc::Global;

// Inner graphs, and how many edges are left of those that may be made.
#[derive(Drop)]
struct Inners {
    graphs: Vec<Graph>,
    left: usize,
}

// The graphs of one view, and how many edges are left.
#[derive(Drop)]
struct Viewed {
    graphs: Unmerged,
    left: usize,
}

/// The graphs of a bay that were just made.
#[derive(Drop)]
pub struct Bay {
    /// the graphs
    pub graphs: BayGraphs,
    /// how many edges are left of those that may be made
    pub left: usize,
}

// The inner graphs of one view, from what they take in together.
fn own_graphs(
    alloc: Global,
    pool: &mut Pool,
    folds: &mut Folds,
    notes: &mut InnerNotes,
    station: &Station,
    own: &OwnBay,
    common: &BayIntake,
    left: usize,
) -> Result<Inners, Trouble>
    requires pool { IsPool pool.old }
    requires notes { AreInnerNotes pool.old notes.old }
    requires own { IsOwnBay station.now own.now }
    requires common { IsBayIntake (pool_on (node_listed own.now.nodes) pool.old) station.now own.now.bay.0
        own.now.first own.now.count common.now }
    requires few { length common.now.names.items ≤ BAY_EDGES + 1 }
    requires left { left ≤ BAY_EDGES }
    ensures grew { OnOk result (GrewTo pool.old pool.new) }
    ensures notes { OnOk result (AreInnerNotes pool.new notes.new) }
    ensures inner { IfOk result
        (λ r. (a : Alphabets) → AreInner pool.old.view (lettered station.now a) own.now.bay.0 own.now.first
        own.now.count (values_at (map (mapped (node_listed own.now.nodes)) pool.old.values.items)
        common.now.names.items) r.graphs.items own.now.count) }
    ensures wide { IfErr result (λ e. e ≡ Wide →
        Passes (SwitchesHave pool.old.view station.now own.now.bay.0 own.now.first own.now.count own.now.count) station.now left) }
    ensures spent { IfOk result (λ r. Spends (SwitchesHave pool.old.view station.now own.now.bay.0 own.now.first own.now.count own.now.count)
        station.now left r.left) }
    ensures left { IfOk result (λ r. r.left ≤ left) }
{
    let _count = station.switch_count();
    let mut graphs = Vec::new(alloc);
    let mut rest = left;
    for i in 0..own.count {
        let others = own.count - 1;
        let moved = own.first + i;
        let made = inner_graph(
            alloc, pool, folds, notes, station, own, common, moved, others, rest,
        )?;
        rest = made.left;
        graphs.push(made.graph)?;
    }
    Ok(Inners { graphs, left: rest })
}

// The inner graphs of one view.
fn inner_graphs(
    alloc: Global,
    pool: &mut Pool,
    folds: &mut Folds,
    notes: &mut InnerNotes,
    station: &Station,
    own: &OwnBay,
    names: &[usize],
    left: usize,
) -> Result<Inners, Trouble>
    requires pool { IsPool pool.old }
    requires notes { AreInnerNotes pool.old notes.old }
    requires own { IsOwnBay station.now own.now }
    requires names { AreNames pool.old station.now own.now.bay.0 names.now }
    requires few { length names.now ≤ BAY_EDGES + 1 }
    requires left { left ≤ BAY_EDGES }
    ensures grew { OnOk result (GrewTo pool.old pool.new) }
    ensures notes { OnOk result (AreInnerNotes pool.new notes.new) }
    ensures inner { IfOk result (λ r. (a : Alphabets) →
        AreInner pool.old.view (lettered station.now a) own.now.bay.0 own.now.first own.now.count
        (values_at pool.old.values.items names.now) r.graphs.items own.now.count) }
    ensures wide { IfErr result (λ e. e ≡ Wide →
        Passes (SwitchesHave pool.old.view station.now own.now.bay.0 own.now.first own.now.count own.now.count) station.now left) }
    ensures spent { IfOk result (λ r. Spends (SwitchesHave pool.old.view station.now own.now.bay.0 own.now.first own.now.count own.now.count)
        station.now left r.left) }
    ensures left { IfOk result (λ r. r.left ≤ left) }
{
    let _count = station.switch_count();
    let common = bay_intake(alloc, pool, station, own, names)?;
    let inners = own_graphs(alloc, pool, folds, notes, station, own, &common, left)?;
    Ok(inners)
}

// The graphs of one view of a bay, of which the stock is.
fn view_graphs(
    alloc: Global,
    view: View,
    station: &Station,
    parts: &Parts,
    stock: &mut Stock,
    sharing: &Sharing,
    own: &OwnBay,
    left: usize,
) -> Result<Viewed, Trouble>
    requires lettered { AreAlphabets station.now parts.now }
    requires stock { IsStock (lettered station.now parts.now) view stock.old }
    requires sharing { IsSharing station.now sharing.now }
    requires own { IsOwnBay station.now own.now }
    requires left { left ≤ BAY_EDGES }
    ensures stock { OnOk result (IsStock (lettered station.now parts.now) view stock.new) }
    ensures graphs { IfOk result (λ r. AreUnmerged view (lettered station.now parts.now) own.now.bay.0
        own.now.first own.now.count r.graphs.outer.value r.graphs.inner.items) }
    ensures wide { IfErr result (λ e. e ≡ Wide →
        Passes (ViewHas view station.now own.now.bay.0 own.now.first own.now.count) station.now left) }
    ensures spent { IfOk result (λ r. Spends (ViewHas view station.now own.now.bay.0 own.now.first own.now.count)
        station.now left r.left) }
    ensures left { IfOk result (λ r. r.left ≤ left) }
{
    let _ = view;
    let others = station.part_count() - 1;
    let outer = outer_graph(
        alloc,
        &mut stock.pool,
        &stock.letters,
        &mut stock.folds,
        &mut stock.outer,
        station,
        parts,
        sharing,
        own.bay,
        others,
        left,
    )?;
    let inners = inner_graphs(
        alloc,
        &mut stock.pool,
        &mut stock.folds,
        &mut stock.inner,
        station,
        own,
        &outer.names,
        outer.left,
    )?;
    Ok(Viewed {
        graphs: Unmerged {
            outer: outer.graph,
            inner: inners.graphs,
        },
        left: inners.left,
    })
}

/// The graphs of a bay, where those of the bays before it are at hand. They are too wide where they have more edges
/// than are left. Time and memory: those of the edges, each once, and of the compositions that the stocks have not got.
pub fn bay_graphs(
    alloc: Global,
    station: &Station,
    parts: &Parts,
    gap_stock: &mut Stock,
    load_stock: &mut Stock,
    bays: &[Option<BayGraphs>],
    sharing: &Sharing,
    bay: BayId,
    left: usize,
) -> Result<Bay, Trouble>
    requires lettered { AreAlphabets station.now parts.now }
    requires gap { IsStock (lettered station.now parts.now) Gap gap_stock.old }
    requires load { IsStock (lettered station.now parts.now) Load load_stock.old }
    requires bays { HaveMerged bays.now }
    requires sharing { IsSharing station.now sharing.now }
    requires bay { bay.0 < part_count station.now }
    requires left { left ≤ BAY_EDGES }
    ensures gap { OnOk result (IsStock (lettered station.now parts.now) Gap gap_stock.new) }
    ensures load { OnOk result (IsStock (lettered station.now parts.now) Load load_stock.new) }
    ensures merged { IfOk result (λ r. HasMerged (Some r.graphs)) }
    ensures graphs { IfOk result (λ r. AreBayGraphs (lettered station.now parts.now) bay.0 (seen_bay r.graphs)) }
    ensures wide { IfErr result (λ e. e ≡ Wide → Passes (BayHas station.now bay.0) station.now left) }
    ensures spent { IfOk result (λ r. Spends (BayHas station.now bay.0) station.now left r.left) }
    ensures left { IfOk result (λ r. r.left ≤ left) }
{
    station.is_station();
    let own = own_bay(alloc, station, &sharing.parts, bay)?;
    let gap = view_graphs(
        alloc,
        View::Gap,
        station,
        parts,
        gap_stock,
        sharing,
        &own,
        left,
    )?;
    let load = view_graphs(
        alloc,
        View::Load,
        station,
        parts,
        load_stock,
        sharing,
        &own,
        gap.left,
    )?;
    let both = merge_both(
        alloc,
        &mut gap_stock.folds,
        &mut load_stock.folds,
        bays,
        gap.graphs,
        load.graphs,
    )?;
    Ok(Bay {
        graphs: BayGraphs {
            first: own.first,
            count: own.count,
            gap: both.gap,
            load: both.load,
            told: both.told,
        },
        left: load.left,
    })
}
