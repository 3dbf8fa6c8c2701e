//! The plan of a station, by its judge.
ghost use Rattle.std.specs.Prelude.{◌≡◌, ◌≢◌, ◌<◌, ◌≤◌, IfOk, IsTrue, IsFalse};
ghost use Rattle.station_graph.specs.Diagram.{part_count};
ghost use Rattle.central_rules.specs.Meaning.{IsBay};
ghost use Rattle.exchange_plan.specs.Planning.{IsPlan, IsPartnerOf, ArePartners};

use crate::planned::{BayPlan, PartnerBits, Plan};
use bay_contract::Parts;
use central_rules::Judge;
use ilk_base::{BayId, Memory};
use release_compile::GraphJudge;
use station_graph::Station;
use std::alloc::Global;

// Whether the part has switches.
fn is_bay(station: &Station, part: BayId) -> bool
    requires { part.0 < part_count station.now }
    ensures bay { IsTrue result → IsBay station.now part.0 }
    ensures other { IsFalse result → ¬ IsBay station.now part.0 }
{
    let (_, count) = station.switches_of(part);
    count > 0
}

// Whether the part, another than the bay, is a partner of the bay.
fn tells_bay(station: &Station, judge: &GraphJudge, bay: BayId, part: BayId) -> bool
    requires station { judge.now.diagram ≡ station.now }
    requires bay { IsBay station.now bay.0 }
    requires part { part.0 < part_count station.now }
    requires apart { part.0 ≢ bay.0 }
    ensures partner { IsTrue result → IsPartnerOf station.now bay.0 part.0 }
    ensures other { IsFalse result → ¬ IsPartnerOf station.now bay.0 part.0 }
{
    if !is_bay(station, part) {
        return false;
    }
    judge.tells(part, bay)
}

// Whether the part is a partner of the bay.
fn is_partner(station: &Station, judge: &GraphJudge, bay: BayId, part: BayId) -> bool
    requires station { judge.now.diagram ≡ station.now }
    requires bay { IsBay station.now bay.0 }
    requires part { part.0 < part_count station.now }
    ensures partner { IsTrue result → IsPartnerOf station.now bay.0 part.0 }
    ensures other { IsFalse result → ¬ IsPartnerOf station.now bay.0 part.0 }
{
    part != bay && tells_bay(station, judge, bay, part)
}

// The partners of the bay, by bay.
fn partners_of(
    alloc: Global,
    station: &Station,
    judge: &GraphJudge,
    bay: BayId,
) -> Result<Vec<PartnerBits>, Memory>
    requires station { judge.now.diagram ≡ station.now }
    requires bay { IsBay station.now bay.0 }
    ensures { IfOk result (λ v. ArePartners station.now bay.0 v.items) }
{
    let mut partners = Vec::new(alloc);
    let parts = judge.parts();
    for number in 0..station.part_count() {
        let part = BayId(number as u8);
        if is_partner(station, judge, bay, part) {
            partners.push(PartnerBits {
                bay: part,
                bits: parts.size(part),
            })?;
        }
    }
    Ok(partners)
}

/// For each bay its partners, and the size of each partner's alphabet. The judge is that of the station. Time: the
/// square of the parts.
pub fn plan(alloc: Global, station: &Station, judge: &GraphJudge) -> Result<Plan, Memory>
    requires { judge.now.diagram ≡ station.now }
    ensures { IfOk result (IsPlan station.now) }
{
    let mut bays = Vec::new(alloc);
    for number in 0..station.part_count() {
        let bay = BayId(number as u8);
        if is_bay(station, bay) {
            let partners = partners_of(alloc, station, judge, bay)?;
            bays.push(BayPlan { bay, partners })?;
        }
    }
    Ok(Plan::from_bays(bays))
}
