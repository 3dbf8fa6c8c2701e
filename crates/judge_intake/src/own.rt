//! What the inner graphs of a bay take in whichever switch is moved: values and lists of nodes, by their numbers in a
//! pool and by places of a list of nodes.
ghost use Rattle.std.specs.Prelude.{◌≡◌, ℕ, ◌+◌, ◌<◌, ◌≤◌, length, map, OnOk, IfOk, Contains};
ghost use Rattle.station_graph.specs.Connection.{a_switch};
ghost use Rattle.station_graph.specs.Sharing.{Touches};
ghost use Rattle.contraction.specs.Answers.{AreNodes};
ghost use Rattle.judge_pool.specs.Pooling.{IsPool, GrewTo};
ghost use Rattle.judge_pool.specs.Places.{node_listed, pool_on};
ghost use Rattle.judge_pool.specs.Layering.{values_at};
ghost use Rattle.judge_pool.specs.Needing.{TouchesOwn};
ghost use Rattle.judge_intake.specs.OwnBays.{IsOwnBay};
ghost use Rattle.judge_intake.specs.Inputs.{AreCopies, HasNodes, HasLinks, HasSwitch, HasPair, ArePairs, AreNames};
ghost use Rattle.judge_intake.specs.Inputs.{IsBayIntake};

use crate::own_bays::OwnBay;
use crate::places::{intern_in_places, names_in_places, places_of};
use bay_contract::base;
use contraction::Contraction;
use ilk_base::{BayId, Memory, SwitchId};
use judge_pool::Pool;
use station_graph::{NodeList, Station};
use std::alloc::Global;

/// What the inner graphs of a bay take in whichever switch is moved, by the numbers of a pool and by places of a list
/// of nodes.
#[derive(Drop)]
pub struct BayIntake {
    /// the value of the bay's links and taps
    pub start: usize,
    /// the list of all places
    pub keep: usize,
    /// the names of the outer graph's labels
    pub names: Vec<usize>,
    /// of each switch the values, open and closed
    pub pairs: Vec<Vec<usize>>,
}

// The number of the value of the bay's links and taps, on these nodes by their places.
fn links(
    alloc: Global,
    pool: &mut Pool,
    station: &Station,
    bay: BayId,
    list: &NodeList,
) -> Result<usize, Memory>
    requires pool { IsPool pool.old }
    requires nodes { AreNodes list.now }
    ensures grew { OnOk result (GrewTo pool.old pool.new) }
    ensures links { IfOk result
        (HasLinks (pool_on (node_listed list.now) pool.new) station.now bay.0 (Contains list.now)) }
{
    let value = base(alloc, station, bay, list)?;
    let id = intern_in_places(alloc, pool, list, &value)?;
    Ok(id)
}

// The number of the value of a switch in a position, by places of a list that has its ends.
fn switch_id(
    alloc: Global,
    pool: &mut Pool,
    station: &Station,
    list: &NodeList,
    id: SwitchId,
    closed: bool,
) -> Result<usize, Memory>
    requires pool { IsPool pool.old }
    requires nodes { AreNodes list.now }
    requires switch { id.0 < length station.now.switches }
    requires has { (n : ℕ) → Touches station.now (a_switch id.0) n → Contains list.now n }
    ensures grew { OnOk result (GrewTo pool.old pool.new) }
    ensures has { IfOk result (HasSwitch (pool_on (node_listed list.now) pool.new) station.now id.0 closed) }
{
    let value = Contraction::of_switch(alloc, station, id, closed)?;
    let place = intern_in_places(alloc, pool, list, &value)?;
    Ok(place)
}

// The numbers of the values of a switch, open and closed, by places of a list that has its ends.
fn switch_pair(
    alloc: Global,
    pool: &mut Pool,
    station: &Station,
    list: &NodeList,
    id: SwitchId,
) -> Result<Vec<usize>, Memory>
    requires pool { IsPool pool.old }
    requires nodes { AreNodes list.now }
    requires switch { id.0 < length station.now.switches }
    requires has { (n : ℕ) → Touches station.now (a_switch id.0) n → Contains list.now n }
    ensures grew { OnOk result (GrewTo pool.old pool.new) }
    ensures pair { IfOk result (λ v. HasPair (pool_on (node_listed list.now) pool.new) station.now id.0 v.items) }
{
    let off = switch_id(alloc, pool, station, list, id, false)?;
    let on = switch_id(alloc, pool, station, list, id, true)?;
    let mut ids = Vec::new(alloc);
    ids.push(off)?;
    ids.push(on)?;
    Ok(ids)
}

// The numbers of the values of the bay's switches, open and closed, by places of a list that has their ends.
fn switch_pairs(
    alloc: Global,
    pool: &mut Pool,
    station: &Station,
    list: &NodeList,
    first: u16,
    count: u16,
) -> Result<Vec<Vec<usize>>, Memory>
    requires pool { IsPool pool.old }
    requires nodes { AreNodes list.now }
    requires those { first + count ≤ length station.now.switches }
    requires has { (n : ℕ) → TouchesOwn station.now first count n → Contains list.now n }
    ensures grew { OnOk result (GrewTo pool.old pool.new) }
    ensures pairs { IfOk result (λ v. ArePairs (pool_on (node_listed list.now) pool.new) station.now first
        (map (λ r. r.items) v.items) count) }
{
    let _count = station.switch_count();
    let mut pairs = Vec::new(alloc);
    for i in 0..count {
        let id = SwitchId(first + i);
        let pair = switch_pair(alloc, pool, station, list, id)?;
        pairs.push(pair)?;
    }
    Ok(pairs)
}

// The number of the list of all places of a list.
fn all_places(alloc: Global, pool: &mut Pool, list: &NodeList) -> Result<usize, Memory>
    requires pool { IsPool pool.old }
    requires nodes { AreNodes list.now }
    ensures grew { OnOk result (GrewTo pool.old pool.new) }
    ensures keep { IfOk result (HasNodes (Contains list.now) (pool_on (node_listed list.now) pool.new)) }
{
    let all = list.numbers();
    let places = places_of(alloc, list, all)?;
    let id = pool.keep(alloc, places)?;
    Ok(id)
}

/// What the inner graphs of a bay take in together.
pub fn bay_intake(
    alloc: Global,
    pool: &mut Pool,
    station: &Station,
    own: &OwnBay,
    names: &[usize],
) -> Result<BayIntake, Memory>
    requires pool { IsPool pool.old }
    requires own { IsOwnBay station.now own.now }
    requires names { AreNames pool.old station.now own.now.bay.0 names.now }
    ensures grew { OnOk result (GrewTo pool.old pool.new) }
    ensures intake { IfOk result
        (IsBayIntake (pool_on (node_listed own.now.nodes) pool.new) station.now own.now.bay.0 own.now.first
        own.now.count) }
    ensures copies { IfOk result (λ i. AreCopies (pool_on (node_listed own.now.nodes) pool.new)
        (values_at pool.old.values.items names.now) i.names.items) }
{
    let _count = station.switch_count();
    let list = &own.nodes;
    let copies = names_in_places(alloc, pool, list, names)?;
    let start = links(alloc, pool, station, own.bay, list)?;
    let pairs = switch_pairs(alloc, pool, station, list, own.first, own.count)?;
    let keep = all_places(alloc, pool, list)?;
    Ok(BayIntake {
        start,
        keep,
        names: copies,
        pairs,
    })
}
