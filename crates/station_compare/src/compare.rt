//! Two stations compared.
ghost use Rattle.std.specs.Prelude.{◌≡◌, ◌<◌, length, IfOk, IfErr, OnOk};
ghost use Rattle.station_compare.specs.Comparing.{IsComparison, AreHere, AreGone, IsGone, IsRefusal};
ghost use Rattle.station_compare.specs.Turning.{AreBayWalks};
ghost use Rattle.station_compare.specs.Orders.{AreNarrow};

use crate::found::{Comparison, Found};
use crate::next::next_found;
use crate::refusal::CompareRefusal;
use crate::sharing::sharing_of;
use crate::walks::{BayWalks, turn_to, walks_of};
use ilk_base::{BayId, Memory, SwitchId};
use station_graph::Station;
use station_joints::same_switch;
use std::alloc::Global;

// Whether the other station has the switch not.
fn is_gone(old: &Station, new: &Station, id: SwitchId) -> bool
    requires { id.0 < length old.now.switches }
    ensures { IsGone old.now new.now id.0 result }
{
    match same_switch(old, new, id) {
        Some(_) => false,
        None => true,
    }
}

// For each switch of the old station whether the new one has it not.
fn gone(alloc: Global, old: &Station, new: &Station) -> Result<Vec<bool>, Memory>
    ensures { IfOk result (λ v. AreGone old.now new.now v.items) }
{
    let mut list = Vec::new(alloc);
    for i in 0..old.switch_count() {
        list.push(is_gone(old, new, SwitchId(i)))?;
    }
    Ok(list)
}

// What is found of each switch of the new station by these walks, whichever bay they are at.
fn found_by(
    alloc: Global,
    walks: &mut BayWalks,
    old: &Station,
    new: &Station,
) -> Result<Vec<Found>, CompareRefusal>
    requires { AreBayWalks old.now new.now walks.old }
    ensures here { IfOk result (λ v. AreHere old.now new.now v.items) }
    ensures narrow { IfOk result (λ _. AreNarrow old.now new.now) }
    ensures refusal { IfErr result (IsRefusal old.now new.now) }
{
    let mut list = Vec::new(alloc);
    for k in 0..new.switch_count() {
        let id = SwitchId(k);
        turn_to(alloc, walks, old, new, id)?;
        let found = next_found(alloc, walks, old, new, &list, id)?;
        list.push(found)?;
    }
    Ok(list)
}

// What is found of each switch of the new station.
fn here(alloc: Global, old: &Station, new: &Station) -> Result<Vec<Found>, CompareRefusal>
    ensures here { IfOk result (λ v. AreHere old.now new.now v.items) }
    ensures narrow { IfOk result (λ _. AreNarrow old.now new.now) }
    ensures refusal { IfErr result (IsRefusal old.now new.now) }
{
    let sharing = sharing_of(alloc, old, new)?;
    let mut walks = walks_of(alloc, old, new, sharing, BayId(0))?;
    found_by(alloc, &mut walks, old, new)
}

/// The new station compared with the old one: for each operation that both have and for each rule, whether some position
/// of all switches shows a change, and such a position, an isolated one where there is one. Of bays that are like each
/// other in both stations one is walked, and its positions are exchanged for the others. Time: for each switch of those
/// bays that both have the edges of its four graphs and of their walk, of which each has at most
/// `change_search::walk_limit` of the switches of those bays. Memory: those of one bay, and 1 kB for each like bay.
pub fn compare_stations(
    alloc: Global,
    old: &Station,
    new: &Station,
) -> Result<Comparison, CompareRefusal>
    ensures comparison { IfOk result (IsComparison old.now new.now) }
    ensures narrow { IfOk result (λ _. AreNarrow old.now new.now) }
    ensures refusal { IfErr result (IsRefusal old.now new.now) }
{
    let here = here(alloc, old, new)?;
    let gone = gone(alloc, old, new)?;
    Ok(Comparison { here, gone })
}
