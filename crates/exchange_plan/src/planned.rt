//! What a plan holds.
ghost use Rattle.std.specs.Prelude.{◌≡◌, ◌≢◌, ℕ, List, slice_get, Some, MatchOption};
ghost use Rattle.station_graph.specs.Diagram.{Diagram};
ghost use Rattle.exchange_plan.specs.Planning.{IsPlan, IsPartnerOf, HasSize, Lists, ListsPartner};
ghost use Rattle.exchange_plan.specs.declared.planned.BayPlan.{BayPlan as OfBay};

use ilk_base::BayId;
use std::marker::Model;

// A partner of a bay, and the size of its alphabet: so many bits tell of its positions.
#[derive(Clone, Copy)]
pub(crate) struct PartnerBits {
    pub(crate) bay: BayId,
    pub(crate) bits: u8,
}

// A bay and its partners, by bay.
#[derive(Drop)]
pub(crate) struct BayPlan {
    pub(crate) bay: BayId,
    pub(crate) partners: Vec<PartnerBits>,
}

/// The data exchange plan of a station: for each bay, by bay, its partners and the size of each partner's alphabet.
/// Contracts see it as this list.
#[derive(Drop)]
pub struct Plan {
    bays: Vec<BayPlan>,
}

impl Model for Plan {
    ghost use Rattle.std.specs.Prelude.{List};
    ghost use Rattle.exchange_plan.specs.declared.planned.BayPlan.{BayPlan};

    ghost Value = { List BayPlan };

    ghost view = { λ p. p.bays.items };
}

// The size that the list names for the bay.
fn bits_of(list: &[PartnerBits], bay: BayId) -> Option<u8>
    ensures { MatchOption result ((n : ℕ) → ¬ ListsPartner list.now bay.0 n) (ListsPartner list.now bay.0) }
{
    for partner in list {
        if partner.bay == bay {
            return Some(partner.bits);
        }
    }
    None
}

// The plan of the bay, where there is one.
fn plan_of(bays: &[BayPlan], bay: BayId) -> Option<&BayPlan>
    ensures { MatchOption result ((x : OfBay) → ¬ Lists bays.now bay.0 x) (λ x. Lists bays.now bay.0 x.now) }
{
    for plan in bays {
        if plan.bay == bay {
            return Some(plan);
        }
    }
    None
}

impl Plan {
    // The plan of these bays.
    pub(crate) fn from_bays(bays: Vec<BayPlan>) -> Plan
        ensures { result ≡ bays.items }
    {
        Plan { bays }
    }

    // The bays with their partners.
    pub(crate) fn bays(&self) -> &[BayPlan]
        ensures { result.now ≡ self.now }
    {
        &self.bays
    }

    /// The size of the partner's alphabet, none exactly where it is no partner of the bay. Time: the bays and the bay's
    /// partners. Takes no memory.
    pub fn bits(&self, bay: BayId, partner: BayId) -> Option<u8>
        ensures { (d : Diagram) → IsPlan d self.now → MatchOption result (¬ IsPartnerOf d bay.0 partner.0)
            (λ n. IsPartnerOf d bay.0 partner.0 × HasSize d partner.0 n) }
    {
        match plan_of(self.bays(), bay) {
            Some(plan) => bits_of(&plan.partners, partner),
            None => None,
        }
    }
}
