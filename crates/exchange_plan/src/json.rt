//! The text of a plan: one compact JSON object (RFC 8259).
ghost use Rattle.std.specs.Prelude.{◌≡◌, ◌++◌, ◌∷◌, [], ◌<◌, ◌≤◌, ℕ, length, map, slice_get, slice_index_or, Some};
ghost use Rattle.std.specs.Prelude.{IfOk, string_bytes};
ghost use Rattle.station_graph.specs.Diagram.{Diagram, part_count};
ghost use Rattle.serde_json.specs.Data.{array};
ghost use Rattle.serde_json.specs.View.{view, items_of};
ghost use Rattle.exchange_plan.specs.Planning.{IsPlan};
ghost use Rattle.exchange_plan.specs.PlanText.{partner_data, bay_data, plan_data, plan_json, plan_text, IsPlanText};
ghost use Rattle.exchange_plan.specs.declared.planned.BayPlan.{BayPlan as OfBay};

use crate::planned::{BayPlan, PartnerBits, Plan};
use crate::planning::plan;
use ilk_base::{BayId, Memory, Text};
use release_compile::GraphJudge;
use serde_json::{Value, json};
use station_graph::Station;
use std::alloc::{AllocError, Global};

// A partner as an object.
fn partner_value(alloc: Global, partner: PartnerBits) -> Result<Value, AllocError>
    ensures { IfOk result (λ v. view v ≡ partner_data partner) }
{
    json!(in alloc; {"bay": partner.bay.0, "bits": partner.bits})
}

// The partners as a list.
fn partner_values(alloc: Global, partners: &[PartnerBits]) -> Result<Value, AllocError>
    ensures { IfOk result (λ v. view v ≡ array (items_of (map partner_data partners.now))) }
{
    let mut list = Vec::new(alloc);
    for partner in partners {
        list.push(partner_value(alloc, *partner)?)?;
    }
    Ok(Value::Array(list))
}

// The partners of a bay as a list.
fn listed_partners(alloc: Global, plan: &BayPlan) -> Result<Value, AllocError>
    ensures { IfOk result (λ v. view v ≡ array (items_of (map partner_data plan.now.partners.items))) }
{
    partner_values(alloc, &plan.partners)
}

// The path of a bay.
fn path_of(station: &Station, bay: BayId) -> &str
    requires { bay.0 < part_count station.now }
    ensures { result.now ≡ slice_index_or station.now.part_paths bay.0 [] }
{
    station.part_path(bay)
}

// A bay as an object.
fn bay_value(alloc: Global, station: &Station, plan: &BayPlan) -> Result<Value, AllocError>
    requires { plan.now.bay.0 < part_count station.now }
    ensures { IfOk result (λ v. view v ≡ bay_data station.now plan.now) }
{
    let partners = listed_partners(alloc, plan)?;
    let path = path_of(station, plan.bay);
    json!(in alloc; {"bay": plan.bay.0, "partners": partners, "path": path})
}

// The bays as a list.
fn bay_values(alloc: Global, station: &Station, bays: &[BayPlan]) -> Result<Value, AllocError>
    requires { (i : ℕ) (x : OfBay) → slice_get bays.now i ≡ Some x → x.bay.0 < part_count station.now }
    ensures { IfOk result (λ v. view v ≡ array (items_of (map (bay_data station.now) bays.now))) }
{
    let mut list = Vec::new(alloc);
    for plan in bays {
        list.push(bay_value(alloc, station, plan)?)?;
    }
    Ok(Value::Array(list))
}

// The plan as an object.
fn plan_value(alloc: Global, station: &Station, bays: &[BayPlan]) -> Result<Value, AllocError>
    requires { (i : ℕ) (x : OfBay) → slice_get bays.now i ≡ Some x → x.bay.0 < part_count station.now }
    ensures { IfOk result (λ v. view v ≡ plan_data station.now bays.now) }
{
    let list = bay_values(alloc, station, bays)?;
    json!(in alloc; {"bays": list})
}

// The text of the plan's object.
fn json_of(alloc: Global, station: &Station, bays: &[BayPlan]) -> Result<String, AllocError>
    requires { (i : ℕ) (x : OfBay) → slice_get bays.now i ≡ Some x → x.bay.0 < part_count station.now }
    ensures { IfOk result (λ s. string_bytes s ≡ plan_json station.now bays.now) }
{
    let value = plan_value(alloc, station, bays)?;
    value.to_string(alloc)
}

impl Plan {
    /// The plan as one compact JSON object and LF: `bays`, a list with an object for each bay with `bay`, its number
    /// among the parts, `partners`, a list of objects with `bay` and `bits`, by bay, and `path`. Keys stand in
    /// alphabetical order. `bits` is the size of the partner's alphabet. The plan is that of the station.
    pub fn to_json(&self, alloc: Global, station: &Station) -> Result<Text, Memory>
        requires { IsPlan station.now self.now }
        ensures { IfOk result (λ t. t ≡ plan_text station.now self.now) }
    {
        let json = json_of(alloc, station, self.bays())?;
        let mut text = Text::new(alloc);
        text.push(json.as_bytes())?;
        text.push(b"\n")?;
        Ok(text)
    }
}

/// The text of the station's plan, which `Plan::to_json` describes. The judge is that of the station.
pub fn plan_text(alloc: Global, station: &Station, judge: &GraphJudge) -> Result<Text, Memory>
    requires { judge.now.diagram ≡ station.now }
    ensures { IfOk result (IsPlanText station.now) }
{
    let made = plan(alloc, station, judge)?;
    let text = made.to_json(alloc, station)?;
    Ok(text)
}
