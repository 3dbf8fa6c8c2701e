//! The graphs of all bays of a station, each within its counted edges.
ghost use Rattle.std.specs.Prelude.{◌≡◌, ◌+◌, ◌-◌, ◌<◌, ◌≤◌, ◌⊎◌, ◌++◌, ◌∷◌, [], ℕ, map, IfOk, IfErr, OnOk};
ghost use Rattle.station_graph.specs.Diagram.{part_count};
ghost use Rattle.part_alphabets.specs.Alphabets.{AreAlphabets};
ghost use Rattle.central_rules.specs.Meaning.{IsBay};
ghost use Rattle.judge_pool.specs.declared.limits.TheConstants.{BAY_EDGES as BAY, ALL_EDGES as ALL};
ghost use Rattle.judge_pool.specs.declared.layer.Trouble.TheVariants.{Wide as IsWide};
ghost use Rattle.judge_pool.specs.Lettered.{lettered};
ghost use Rattle.judge_intake.specs.SharedNodes.{IsSharing};
ghost use Rattle.judge_graphs.specs.Stocking.{IsStock};
ghost use Rattle.judge_graphs.specs.Telling.{HasMerged, HaveMerged};
ghost use Rattle.judge_pool.specs.declared.view.View.TheVariants.{Gap, Load};
ghost use Rattle.judge_pool.specs.Counted.{BayHas, Passes};
ghost use Rattle.judge_graphs.specs.Built.{AreBays, AreGraphsOf};
ghost use Rattle.judge_graphs.specs.BuiltView.{seen_part};
ghost use Rattle.release_compile.specs.Judging.{PartHasEdges, KeepEdges, IsTooWide};

use crate::refusal::BuildRefusal;
use bay_contract::Parts;
use ilk_base::{BayId, Memory};
use judge_graphs::{BayGraphs, Stock, bay_graphs, renew_large, stock_of};
use judge_intake::Sharing;
use judge_pool::{ALL_EDGES, BAY_EDGES, Trouble, View};
use station_graph::Station;
use std::alloc::Global;

// The graphs of a part, if it has switches, and how many edges are left.
#[derive(Drop)]
struct Part {
    graphs: Option<BayGraphs>,
    left: usize,
}

// How many counted edges a bay may have where those before it have so many.
fn allowed(spent: usize) -> usize
    requires { spent ≤ ALL }
    ensures bay { result ≤ BAY }
    ensures all { result + spent ≤ ALL }
    ensures either { (result ≡ BAY) ⊎ (result + spent ≡ ALL) }
{
    (ALL_EDGES - spent).min(BAY_EDGES)
}

// The graphs of a part. A part without switches has none.
fn part_graphs(
    alloc: Global,
    station: &Station,
    parts: &Parts,
    gap: &mut Stock,
    load: &mut Stock,
    bays: &[Option<BayGraphs>],
    sharing: &Sharing,
    bay: BayId,
    left: usize,
) -> Result<Part, Trouble>
    requires lettered { AreAlphabets station.now parts.now }
    requires gap { IsStock (lettered station.now parts.now) Gap gap.old }
    requires load { IsStock (lettered station.now parts.now) Load load.old }
    requires bays { HaveMerged bays.now }
    requires sharing { IsSharing station.now sharing.now }
    requires bay { bay.0 < part_count station.now }
    requires left { left ≤ BAY }
    ensures gap { OnOk result (IsStock (lettered station.now parts.now) Gap gap.new) }
    ensures load { OnOk result (IsStock (lettered station.now parts.now) Load load.new) }
    ensures told { IfOk result (λ r. HasMerged r.graphs) }
    ensures graphs { IfOk result (λ r. AreGraphsOf (lettered station.now parts.now) bay.0 (seen_part r.graphs)) }
    ensures wide { IfErr result (λ e. e ≡ IsWide →
        IsBay station.now bay.0 × Passes (BayHas station.now bay.0) station.now left) }
    ensures spent { IfOk result (λ r. PartHasEdges station.now bay.0 (left - r.left)) }
    ensures left { IfOk result (λ r. r.left ≤ left) }
{
    let (_, count) = station.switches_of(bay);
    if count == 0 {
        return Ok(Part { graphs: None, left });
    }
    let made = bay_graphs(alloc, station, parts, gap, load, bays, sharing, bay, left)?;
    Ok(Part {
        graphs: Some(made.graphs),
        left: made.left,
    })
}

// Puts the graphs of one more part last.
fn keep(bays: &mut Vec<Option<BayGraphs>>, graphs: Option<BayGraphs>) -> Result<(), Memory>
    ensures { IfOk result (λ _. bays.new.items ≡ bays.old.items ++ graphs ∷ []) }
{
    bays.push(graphs)?;
    Ok(())
}

// Begins new stocks in place of large ones.
fn renew_both(
    alloc: Global,
    station: &Station,
    parts: &Parts,
    sharing: &Sharing,
    gap: &mut Stock,
    load: &mut Stock,
) -> Result<(), Memory>
    requires lettered { AreAlphabets station.now parts.now }
    requires sharing { IsSharing station.now sharing.now }
    requires gap { IsStock (lettered station.now parts.now) Gap gap.old }
    requires load { IsStock (lettered station.now parts.now) Load load.old }
    ensures gap { OnOk result (IsStock (lettered station.now parts.now) Gap gap.new) }
    ensures load { OnOk result (IsStock (lettered station.now parts.now) Load load.new) }
{
    renew_large(alloc, View::Gap, station, parts, &sharing.parts, gap)?;
    renew_large(alloc, View::Load, station, parts, &sharing.parts, load)
}

// The graphs of all parts that have switches, made of these stocks.
fn bays_of(
    alloc: Global,
    station: &Station,
    parts: &Parts,
    sharing: &Sharing,
    gap: &mut Stock,
    load: &mut Stock,
) -> Result<Vec<Option<BayGraphs>>, BuildRefusal>
    requires lettered { AreAlphabets station.now parts.now }
    requires sharing { IsSharing station.now sharing.now }
    requires gap { IsStock (lettered station.now parts.now) Gap gap.old }
    requires load { IsStock (lettered station.now parts.now) Load load.old }
    ensures bays { IfOk result (λ v. AreBays (lettered station.now parts.now) (map seen_part v.items)
        (part_count station.now)) }
    ensures fits { IfOk result (λ _. (edges : ℕ) × KeepEdges station.now (part_count station.now) edges) }
    ensures refusal { IfErr result (IsTooWide station.now) }
{
    let mut bays = Vec::new(alloc);
    let mut spent = 0usize;
    for part in 0..station.part_count() {
        let bay = BayId(part as u8);
        let left = allowed(spent);
        match part_graphs(alloc, station, parts, gap, load, &bays, sharing, bay, left) {
            Ok(made) => {
                spent += left - made.left;
                keep(&mut bays, made.graphs)?;
                renew_both(alloc, station, parts, sharing, gap, load)?;
            }
            Err(Trouble::Memory) => {
                return Err(BuildRefusal::Memory);
            }
            Err(Trouble::Wide) => {
                return Err(BuildRefusal::Wide { bay });
            }
        }
    }
    Ok(bays)
}

// The graphs of all parts that have switches.
pub(crate) fn all_bays(
    alloc: Global,
    station: &Station,
    parts: &Parts,
    sharing: &Sharing,
) -> Result<Vec<Option<BayGraphs>>, BuildRefusal>
    requires lettered { AreAlphabets station.now parts.now }
    requires sharing { IsSharing station.now sharing.now }
    ensures bays { IfOk result (λ v. AreBays (lettered station.now parts.now) (map seen_part v.items)
        (part_count station.now)) }
    ensures fits { IfOk result (λ _. (edges : ℕ) × KeepEdges station.now (part_count station.now) edges) }
    ensures refusal { IfErr result (IsTooWide station.now) }
{
    let mut gap = stock_of(alloc, View::Gap, station, parts, &sharing.parts)?;
    let mut load = stock_of(alloc, View::Load, station, parts, &sharing.parts)?;
    bays_of(alloc, station, parts, sharing, &mut gap, &mut load)
}
