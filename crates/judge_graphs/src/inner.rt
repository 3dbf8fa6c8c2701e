//! The inner graphs of the switches of a bay.
ghost use Rattle.std.specs.Prelude.{◌≡◌, ◌+◌, ◌≤◌, length, map, IfOk, IfErr, OnOk};
ghost use Rattle.contraction.specs.Renaming.{mapped};
ghost use Rattle.part_alphabets.specs.PartAlphabets.{Alphabets};
ghost use Rattle.decision_graphs.specs.Label.{AreReduced};
ghost use Rattle.judge_pool.specs.Lettered.{lettered};
ghost use Rattle.judge_pool.specs.Pooling.{IsPool, GrewTo};
ghost use Rattle.judge_pool.specs.Layering.{values_at};
ghost use Rattle.judge_pool.specs.Graphs.{IsInner};
ghost use Rattle.judge_intake.specs.Coding.{labels_of};
ghost use Rattle.judge_intake.specs.Inputs.{IsBayIntake};
ghost use Rattle.judge_intake.specs.OwnBays.{IsOwnBay, IsOwnSwitch};
ghost use Rattle.judge_graphs.specs.Noting.{letter_rows};
ghost use Rattle.judge_graphs.specs.Labelling.{AreInnerNotes};
ghost use Rattle.judge_pool.specs.Places.{node_listed, pool_on};
ghost use Rattle.judge_intake.specs.Ready.{IsInnerReady};
ghost use Rattle.judge_pool.specs.Counted.{InnerHas, Spends, Passes, InnerIsSmall};
ghost use Rattle.judge_pool.specs.declared.layer.Trouble.TheVariants.{Wide};
ghost use Rattle.judge_pool.specs.declared.limits.TheConstants.{BAY_EDGES};

use crate::labelled::{InnerNotes, labelled_graph};
use crate::noted::{Intake, taken_again};
use decision_graphs::{Folds, Graph};
use ilk_base::{Memory, SwitchId};
use judge_intake::codes::{codes, label_count};
use judge_intake::{BayIntake, OwnBay, inner_keeps, inner_letters};
use judge_pool::{Pool, Trouble};
use station_graph::Station;
use std::alloc::Global;

// An inner graph, and how many edges are left of those that may be made.
#[derive(Drop)]
pub(crate) struct Inner {
    pub(crate) graph: Graph,
    pub(crate) left: usize,
}

// What the layers of an inner graph take in, by places of the list of nodes kept before the first.
fn inner_intake(
    alloc: Global,
    pool: &mut Pool,
    station: &Station,
    own: &OwnBay,
    common: &BayIntake,
    moved: u16,
    others: u16,
) -> Result<Intake, Memory>
    requires pool { IsPool pool.old }
    requires own { IsOwnBay station.now own.now }
    requires moved { IsOwnSwitch own.now moved others }
    requires common { IsBayIntake (pool_on (node_listed own.now.nodes) pool.old) station.now own.now.bay.0
        own.now.first own.now.count common.now }
    ensures grew { OnOk result (GrewTo pool.old pool.new) }
    ensures ready { IfOk result (λ i. (a : Alphabets) → IsInnerReady (lettered station.now a) own.now.bay.0 moved
        own.now.first others (pool_on (node_listed own.now.nodes) pool.new) i.start common.now.names.items
        (letter_rows i) i.keeps.items) }
{
    let _count = station.switch_count();
    let keeps = inner_keeps(alloc, pool, station, own, common.keep, moved, others)?;
    let letters = inner_letters(alloc, common, moved - own.first, others)?;
    Ok(Intake {
        start: common.start,
        letters,
        keeps,
    })
}

// The inner graph of one view. The edges of its first layer, one for each name, are made beside those that may be made.
pub(crate) fn inner_graph(
    alloc: Global,
    pool: &mut Pool,
    folds: &mut Folds,
    notes: &mut InnerNotes,
    station: &Station,
    own: &OwnBay,
    common: &BayIntake,
    moved: u16,
    others: u16,
    left: usize,
) -> Result<Inner, Trouble>
    requires pool { IsPool pool.old }
    requires notes { AreInnerNotes pool.old notes.old }
    requires own { IsOwnBay station.now own.now }
    requires moved { IsOwnSwitch own.now moved others }
    requires common { IsBayIntake (pool_on (node_listed own.now.nodes) pool.old) station.now own.now.bay.0
        own.now.first own.now.count common.now }
    requires few { length common.now.names.items ≤ BAY_EDGES + 1 }
    requires left { left ≤ BAY_EDGES }
    ensures grew { OnOk result (GrewTo pool.old pool.new) }
    ensures notes { OnOk result (AreInnerNotes pool.new notes.new) }
    ensures wide { IfErr result (λ e. e ≡ Wide →
        Passes (InnerHas pool.old.view station.now own.now.bay.0 moved own.now.first others others) station.now left) }
    ensures spent { IfOk result (λ r. Spends (InnerHas pool.old.view station.now own.now.bay.0 moved own.now.first others others)
        station.now left r.left) }
    ensures small { IfOk result (λ r. InnerIsSmall pool.old.view station.now own.now.bay.0 moved own.now.first others r.graph) }
    ensures inner { IfOk result (λ r. (a : Alphabets) →
        IsInner pool.old.view (lettered station.now a) own.now.bay.0 moved own.now.first others
        (values_at (map (mapped (node_listed own.now.nodes)) pool.old.values.items) common.now.names.items) r.graph) }
    ensures labels { IfOk result (λ r. r.graph.labels ≡ labels_of pool.old.view) }
    ensures reduced { IfOk result (λ r. AreReduced r.graph.layers) }
    ensures left { IfOk result (λ r. r.left ≤ left) }
{
    let _count = station.switch_count();
    let intake = inner_intake(alloc, pool, station, own, common, moved, others)?;
    let budget = left + common.names.len();
    let taken = taken_again(alloc, pool, folds, &mut notes.graphs, intake, budget)?;
    let held = notes.graphs.as_slice();
    let names = held[taken.place].names.as_slice();
    let labels = codes(alloc, pool, station, SwitchId(moved), &own.nodes, names)?;
    let count = label_count(pool.view);
    let graph = labelled_graph(
        alloc,
        folds,
        held,
        &mut notes.labelled,
        taken.place,
        count,
        labels,
    )?;
    Ok(Inner {
        graph,
        left: taken.left,
    })
}
