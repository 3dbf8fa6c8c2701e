//! What the layers of a graph take in: values and lists of nodes, by their numbers in a pool.
ghost use Rattle.std.specs.Prelude.{◌≡◌, ℕ, suc, ◌+◌, ◌<◌, ◌≤◌, ◌↔◌, ◌∷◌, List, length, map, slice_get, Some, OnOk};
ghost use Rattle.std.specs.Prelude.{IfOk, Contains};
ghost use Rattle.station_graph.specs.Diagram.{part_count};
ghost use Rattle.contraction.specs.Answers.{Answers, Keeps};
ghost use Rattle.part_alphabets.specs.Alphabets.{AreAlphabets};
ghost use Rattle.judge_pool.specs.Lettered.{lettered};
ghost use Rattle.judge_pool.specs.Pooling.{IsPool, GrewTo};
ghost use Rattle.judge_pool.specs.Places.{node_listed, pool_on};
ghost use Rattle.judge_intake.specs.SharedNodes.{AreShared, IsSharing};
ghost use Rattle.judge_pool.specs.Needing.{IsNeededOuter, BayNeeds, InnerNeeds};
ghost use Rattle.judge_intake.specs.OwnBays.{IsOwnBay, IsOwnSwitch};
ghost use Rattle.judge_intake.specs.Inputs.{HasNodes, AreKeeps, AreCopies, AreLetters, AreOtherRows, HasNothing};

use crate::needed::{Sharing, inner_places, outer_nodes};
use crate::others::other_number;
use crate::own::BayIntake;
use crate::own_bays::OwnBay;
use bay_contract::Parts;
use contraction::Contraction;
use ilk_base::{BayId, Memory};
use judge_pool::Pool;
use station_graph::{NodeList, Station};
use std::alloc::Global;

/// The numbers of the nodes that are kept before each layer of an outer graph.
pub fn outer_keeps(
    alloc: Global,
    pool: &mut Pool,
    station: &Station,
    sharing: &Sharing,
    bay: BayId,
    others: u16,
) -> Result<Vec<usize>, Memory>
    requires pool { IsPool pool.old }
    requires sharing { IsSharing station.now sharing.now }
    requires count { suc others ≡ part_count station.now }
    requires bay { bay.0 < part_count station.now }
    ensures grew { OnOk result (GrewTo pool.old pool.new) }
    ensures keeps { IfOk result (λ v. AreKeeps (IsNeededOuter station.now bay.0) pool.new v.items (suc others)) }
{
    let _count = station.part_count();
    let mut keeps = Vec::new(alloc);
    let count = others + 1;
    for place in 0..count {
        let nodes = outer_nodes(alloc, station, sharing, bay, place, others)?;
        let id = pool.keep(alloc, nodes)?;
        keeps.push(id)?;
    }
    Ok(keeps)
}

// The numbers of copies of these values.
fn copies(
    alloc: Global,
    pool: &mut Pool,
    values: &[Contraction],
    nodes: &NodeList,
) -> Result<Vec<usize>, Memory>
    requires pool { IsPool pool.old }
    requires nodes { (c : ℕ) (x : Answers) → slice_get values.now c ≡ Some x → (n : ℕ) → Keeps x.kept n ↔
        Contains nodes.now n }
    ensures grew { OnOk result (GrewTo pool.old pool.new) }
    ensures copies { IfOk result (λ v. AreCopies pool.new values.now v.items) }
{
    let mut ids = Vec::new(alloc);
    let count = values.len();
    for place in 0..count {
        let value = &values[place];
        let id = pool.copy(alloc, value, nodes)?;
        ids.push(id)?;
    }
    Ok(ids)
}

/// The numbers of the letters of each part.
pub fn letter_rows(
    alloc: Global,
    pool: &mut Pool,
    station: &Station,
    parts: &Parts,
    shared: &[NodeList],
) -> Result<Vec<Vec<usize>>, Memory>
    requires pool { IsPool pool.old }
    requires lettered { AreAlphabets station.now parts.now }
    requires shared { AreShared station.now shared.now }
    ensures grew { OnOk result (GrewTo pool.old pool.new) }
    ensures rows { IfOk result (λ v. AreLetters (lettered station.now parts.now) pool.new (map (λ r. r.items) v.items)
        (part_count station.now)) }
{
    let mut rows = Vec::new(alloc);
    for part in 0..station.part_count() {
        let place = usize::from(part);
        let nodes = &shared[place];
        let letters = parts.letters(BayId(part as u8));
        let ids = copies(alloc, pool, letters, nodes)?;
        rows.push(ids)?;
    }
    Ok(rows)
}

/// Those of the rows that are not this one's, in order.
pub fn other_rows(
    alloc: Global,
    rows: &[Vec<usize>],
    this: u16,
    others: u16,
) -> Result<Vec<Vec<usize>>, Memory>
    requires few { others < length rows.now }
    ensures { IfOk result (λ v. AreOtherRows this (map (λ r. r.items) rows.now) (map (λ r. r.items) v.items) others) }
{
    let mut list = Vec::new(alloc);
    for i in 0..others {
        let place = usize::from(other_number(0, this, i));
        let row = &rows[place];
        let copy = Vec::from_slice(alloc, row)?;
        list.push(copy)?;
    }
    Ok(list)
}

/// The number of the value of no item.
pub fn nothing(alloc: Global, pool: &mut Pool) -> Result<usize, Memory>
    requires { IsPool pool.old }
    ensures grew { OnOk result (GrewTo pool.old pool.new) }
    ensures nothing { IfOk result (HasNothing pool.new) }
{
    let nodes = NodeList::new(alloc);
    let value = Contraction::empty(alloc, &nodes)?;
    let id = pool.intern(alloc, value)?;
    Ok(id)
}

/// The numbers of the lists of nodes that are kept before each layer of an inner graph, by places in the first of them,
/// of which this is the number.
pub fn inner_keeps(
    alloc: Global,
    pool: &mut Pool,
    station: &Station,
    own: &OwnBay,
    keep: usize,
    moved: u16,
    others: u16,
) -> Result<Vec<usize>, Memory>
    requires pool { IsPool pool.old }
    requires own { IsOwnBay station.now own.now }
    requires moved { IsOwnSwitch own.now moved others }
    requires keep { HasNodes (BayNeeds station.now own.now.bay.0 own.now.first own.now.count)
        (pool_on (node_listed own.now.nodes) pool.old) keep }
    ensures grew { OnOk result (GrewTo pool.old pool.new) }
    ensures keeps { IfOk result (λ v. AreKeeps (InnerNeeds station.now own.now.bay.0 moved own.now.first others)
        (pool_on (node_listed own.now.nodes) pool.new) v.items (suc (suc others))) }
{
    let _count = station.switch_count();
    let mut keeps = Vec::new(alloc);
    keeps.push(keep)?;
    for from in 0..own.count {
        let places = inner_places(alloc, station, &own.nodes, own.first, moved, from, others)?;
        let id = pool.keep(alloc, places)?;
        keeps.push(id)?;
    }
    Ok(keeps)
}

/// The letters of the layers of an inner graph: the names, and of each other switch of the bay the values, open and
/// closed.
pub fn inner_letters(
    alloc: Global,
    own: &BayIntake,
    place: u16,
    others: u16,
) -> Result<Vec<Vec<usize>>, Memory>
    requires { others < length own.now.pairs.items }
    ensures { IfOk result (λ v. (rows : List (List ℕ)) × (map (λ r. r.items) v.items ≡ own.now.names.items ∷ rows)
        × AreOtherRows place (map (λ r. r.items) own.now.pairs.items) rows others) }
{
    let names = Vec::from_slice(alloc, &own.names)?;
    let mut rows = other_rows(alloc, &own.pairs, place, others)?;
    rows.insert(0, names)?;
    Ok(rows)
}
