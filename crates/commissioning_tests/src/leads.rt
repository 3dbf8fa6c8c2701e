//! Which bay is tested for each: of bays that are like each other the first.
ghost use Rattle.std.specs.Prelude.{◌≡◌, ◌↔◌, ◌++◌, ◌∷◌, [], if◌then◌else◌, ◌⊎◌, ◌<◌, IsTrue, Some, map, slice_get, IfOk, OnOk};
ghost use Rattle.std.specs.List.{range_with_len};
ghost use Rattle.station_graph.specs.Diagram.{part_count};
ghost use Rattle.central_rules.specs.Meaning.{IsBay};
ghost use Rattle.commissioning_tests.specs.Listed.{AreThose};
ghost use Rattle.commissioning_tests.specs.Shared.{LeadsItself, StandsBefore, AreLeads, IsTested, IsLater};
ghost use Rattle.commissioning_tests.specs.Shared.{tested_switches as switches_of_tested};

use ilk_base::{BayId, Memory, SwitchId};
use like_bays::are_like;
use station_graph::Station;
use std::alloc::Global;

// Whether a part is a bay.
fn is_bay(station: &Station, part: BayId) -> bool
    requires { part.0 < part_count station.now }
    ensures { IsTrue result ↔ IsBay station.now part.0 }
{
    let (_, count) = station.switches_of(part);
    0 < count
}

// Whether the tests of a part are those of this one.
fn leads_to(leads: &[u8], part: BayId, one: BayId) -> bool
    ensures { IsTrue result ↔ (slice_get leads.now part.0 ≡ Some one.0) }
{
    usize::from(part.0) < leads.len() && leads[usize::from(part.0)] == one.0
}

// Whether a part has tests of its own, if it is a bay.
fn leads_itself(leads: &[u8], part: BayId) -> bool
    ensures { IsTrue result ↔ LeadsItself leads.now part.0 }
{
    leads_to(leads, part, part)
}

// Whether a part is a bay that has tests of its own.
pub(crate) fn is_tested(station: &Station, leads: &[u8], part: BayId) -> bool
    requires { part.0 < part_count station.now }
    ensures { IsTrue result ↔ IsTested station.now leads.now part.0 }
{
    is_bay(station, part) && leads_itself(leads, part)
}

// Whether the tests of a part are those of an earlier one.
fn stands_before(
    alloc: Global,
    station: &Station,
    leads: &[u8],
    one: BayId,
    part: BayId,
) -> Result<bool, Memory>
    requires earlier { one.0 < part.0 }
    requires within { part.0 < part_count station.now }
    ensures { IfOk result (λ stands. IsTrue stands → StandsBefore station.now leads.now one.0 part.0) }
{
    if !leads_itself(leads, one) || !is_bay(station, one) {
        return Ok(false);
    }
    let like = are_like(alloc, station, one, part)?;
    Ok(like)
}

// The part whose tests are those of a part: the first that is like it, or itself.
fn lead_of(alloc: Global, station: &Station, leads: &[u8], part: BayId) -> Result<u8, Memory>
    requires { part.0 < part_count station.now }
    ensures { IfOk result (λ one. (one ≡ part.0) ⊎ StandsBefore station.now leads.now one part.0) }
{
    for one in 0..part.0 {
        if stands_before(alloc, station, leads, BayId(one), part)? {
            return Ok(one);
        }
    }
    Ok(part.0)
}

// For each part the one whose tests are its tests. Time: the parts that have tests of their own, for each part, and the
// items for each two of them.
pub(crate) fn leads_of(alloc: Global, station: &Station) -> Result<Vec<u8>, Memory>
    ensures { IfOk result (λ v. AreLeads station.now v.items) }
{
    let mut leads = Vec::new(alloc);
    for part in 0..station.part_count() {
        let lead = lead_of(alloc, station, &leads, BayId(part as u8))?;
        leads.push(lead)?;
    }
    Ok(leads)
}

// How many switches the bays have that have tests of their own.
pub(crate) fn tested_switches(station: &Station, leads: &[u8]) -> u16
    requires { AreLeads station.now leads.now }
    ensures { result ≡ switches_of_tested station.now leads.now }
{
    let mut count = 0;
    for s in 0..station.switch_count() {
        let bay = station.switch(SwitchId(s)).bay;
        if leads_itself(leads, bay) {
            count += 1;
        }
    }
    count
}

// Whether the tests of a part are those of this earlier one, and it is a bay.
fn is_later(station: &Station, leads: &[u8], one: BayId, part: BayId) -> bool
    requires { part.0 < part_count station.now }
    ensures { IsTrue result ↔ IsLater station.now leads.now one.0 part.0 }
{
    is_bay(station, part) && one.0 < part.0 && leads_to(leads, part, one)
}

// Appends the bay, if it is wanted.
fn push_bay(list: &mut Vec<BayId>, wanted: bool, bay: BayId) -> Result<(), Memory>
    ensures { OnOk result (list.new.items ≡ (if wanted then list.old.items ++ bay ∷ [] else list.old.items)) }
{
    if wanted {
        list.push(bay)?;
    }
    Ok(())
}

// The later bays whose tests are those of this part.
pub(crate) fn like_of(
    alloc: Global,
    station: &Station,
    leads: &[u8],
    one: BayId,
) -> Result<Vec<BayId>, Memory>
    ensures { IfOk result (λ v. AreThose (IsLater station.now leads.now one.0)
        (range_with_len 0 (part_count station.now)) (map (λ b. b.0) v.items)) }
{
    let mut like = Vec::new(alloc);
    for part in 0..station.part_count() {
        let part = BayId(part as u8);
        push_bay(&mut like, is_later(station, leads, one, part), part)?;
    }
    Ok(like)
}
