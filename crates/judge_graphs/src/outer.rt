//! The outer graphs of a bay.
ghost use Rattle.std.specs.Prelude.{◌≡◌, ◌+◌, ◌<◌, ◌≤◌, ℕ, suc, length, map, IfOk, IfErr, OnOk};
ghost use Rattle.station_graph.specs.Diagram.{part_count};
ghost use Rattle.part_alphabets.specs.Alphabets.{AreAlphabets};
ghost use Rattle.decision_graphs.specs.Label.{AreReduced};
ghost use Rattle.judge_pool.specs.Lettered.{lettered};
ghost use Rattle.judge_pool.specs.Pooling.{IsPool, GrewTo};
ghost use Rattle.judge_pool.specs.Layering.{values_at};
ghost use Rattle.judge_pool.specs.Graphs.{IsOuter};
ghost use Rattle.judge_intake.specs.SharedNodes.{IsSharing};
ghost use Rattle.judge_intake.specs.Inputs.{AreNames, AreLetters};
ghost use Rattle.judge_intake.specs.Ready.{IsOuterReady};
ghost use Rattle.judge_graphs.specs.Noting.{letter_rows, AreOuter};
ghost use Rattle.judge_pool.specs.Counted.{OuterHas, Spends, Passes, OuterIsSmall};
ghost use Rattle.judge_pool.specs.declared.layer.Trouble.TheVariants.{Wide};
ghost use Rattle.judge_pool.specs.declared.limits.TheConstants.{BAY_EDGES};

use crate::noted::{Intake, Noted, TakenGraph, taken};
use bay_contract::Parts;
use decision_graphs::Folds;
use ilk_base::{BayId, Memory};
use judge_intake::{Sharing, nothing, other_rows, outer_keeps};
use judge_pool::{Pool, Trouble};
use station_graph::Station;
use std::alloc::Global;

// What the layers of a bay's outer graph take in.
fn outer_intake(
    alloc: Global,
    pool: &mut Pool,
    letters: &[Vec<usize>],
    station: &Station,
    parts: &Parts,
    sharing: &Sharing,
    bay: BayId,
    others: u16,
) -> Result<Intake, Memory>
    requires pool { IsPool pool.old }
    requires lettered { AreAlphabets station.now parts.now }
    requires letters { AreLetters (lettered station.now parts.now) pool.old (map (λ v. v.items) letters.now)
        (part_count station.now) }
    requires sharing { IsSharing station.now sharing.now }
    requires count { suc others ≡ part_count station.now }
    requires bay { bay.0 < part_count station.now }
    ensures grew { OnOk result (GrewTo pool.old pool.new) }
    ensures ready { IfOk result
        (λ i. IsOuterReady (lettered station.now parts.now) bay.0 pool.new i.start (letter_rows i)
        i.keeps.items) }
    ensures count { IfOk result (λ i. length (letter_rows i) ≡ others) }
{
    let _count = station.part_count();
    let _ = parts;
    let keeps = outer_keeps(alloc, pool, station, sharing, bay, others)?;
    let start = nothing(alloc, pool)?;
    let letters = other_rows(alloc, letters, u16::from(bay.0), others)?;
    Ok(Intake {
        start,
        letters,
        keeps,
    })
}

// The outer graph of one view. It is that of a bay before where all other parts look the same from both.
pub(crate) fn outer_graph(
    alloc: Global,
    pool: &mut Pool,
    letters: &[Vec<usize>],
    folds: &mut Folds,
    notes: &mut Vec<Noted>,
    station: &Station,
    parts: &Parts,
    sharing: &Sharing,
    bay: BayId,
    others: u16,
    left: usize,
) -> Result<TakenGraph, Trouble>
    requires pool { IsPool pool.old }
    requires lettered { AreAlphabets station.now parts.now }
    requires letters { AreLetters (lettered station.now parts.now) pool.old (map (λ v. v.items) letters.now)
        (part_count station.now) }
    requires notes { AreOuter pool.old notes.old.items }
    requires sharing { IsSharing station.now sharing.now }
    requires count { suc others ≡ part_count station.now }
    requires bay { bay.0 < part_count station.now }
    requires left { left ≤ BAY_EDGES }
    ensures grew { OnOk result (GrewTo pool.old pool.new) }
    ensures notes { OnOk result (AreOuter pool.new notes.new.items) }
    ensures wide { IfErr result (λ e. e ≡ Wide →
        Passes (OuterHas pool.old.view station.now bay.0 others) station.now left) }
    ensures spent { IfOk result (λ o. Spends (OuterHas pool.old.view station.now bay.0 others) station.now
        left o.left) }
    ensures small { IfOk result (λ o. OuterIsSmall pool.old.view station.now bay.0 o.graph.value) }
    ensures outer { IfOk result (λ o. IsOuter pool.old.view (lettered station.now parts.now) bay.0 o.graph.value
        (values_at pool.new.values.items o.names.items)) }
    ensures reduced { IfOk result (λ o. AreReduced o.graph.value.layers) }
    ensures names { IfOk result (λ o. AreNames pool.new station.now bay.0 o.names.items) }
    ensures names_few { IfOk result (λ o. length o.names.items ≤ BAY_EDGES + 1) }
    ensures left { IfOk result (λ o. o.left ≤ left) }
{
    let _count = station.part_count();
    let intake = outer_intake(alloc, pool, letters, station, parts, sharing, bay, others)?;
    let outer = taken(alloc, pool, folds, notes, intake, left)?;
    let _labels = outer.graph.as_ref().labels();
    Ok(outer)
}
