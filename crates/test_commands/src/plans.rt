//! The plans of two stations with two feeders each, worked by hand.
ghost use Rattle.std.specs.Prelude.{◌≡◌};
ghost use Rattle.exchange_plan.specs.Planning.{IsPlan};

use crate::asked::{Asked, Bits, Row};
use exchange_plan::{Plan, plan};
use ilk_base::BayId;
use release_compile::GraphJudge;
use station_graph::Station;
use std::alloc::Global;
use test_stations::{Example, row_holds};

// Two feeders on one busbar. Each can put voltage or earth on the busbar, in eight ways that its own nodes do not tell
// apart. Neither is a partner of itself, and the busbar has no switches.
const TOGETHER: Row = Row {
    drawing: Example::TwoFeeders,
    asked: Asked::Plan(
        b"{\"bays\":[{\"bay\":1,\"partners\":[{\"bay\":2,\"bits\":8}],\"path\":\"S/V1/Q1\"},\
        {\"bay\":2,\"partners\":[{\"bay\":1,\"bits\":8}],\"path\":\"S/V1/Q2\"}]}\n",
        &[
            (1, 2, Some(8)),
            (2, 1, Some(8)),
            (1, 1, None),
            (1, 0, None),
            (0, 1, None),
        ],
    ),
};

// On two busbars no feeder touches what the other can reach.
const APART: Row = Row {
    drawing: Example::FeedersApart,
    asked: Asked::Plan(
        b"{\"bays\":[{\"bay\":2,\"partners\":[],\"path\":\"S/V1/Q1\"},\
        {\"bay\":3,\"partners\":[],\"path\":\"S/V1/Q2\"}]}\n",
        &[(2, 3, None), (3, 2, None), (2, 2, None)],
    ),
};

// Whether each pair is told so.
fn has_bits(made: &Plan, rows: &[Bits]) -> bool {
    for (bay, partner, bits) in rows {
        if made.bits(BayId(*bay), BayId(*partner)) != *bits {
            return false;
        }
    }
    true
}

// Whether this is the text of the plan.
fn has_text(alloc: Global, station: &Station, made: &Plan, wanted: &[u8]) -> bool
    requires { IsPlan station.now made.now }
{
    match made.to_json(alloc, station) {
        Ok(text) => text.bytes() == wanted,
        Err(_) => false,
    }
}

// Whether the plan of the station has this text, and tells the pairs so.
pub(crate) fn is_plan(
    alloc: Global,
    station: &Station,
    judge: &GraphJudge,
    text: &[u8],
    bits: &[Bits],
) -> bool
    requires { judge.now.diagram ≡ station.now }
{
    match plan(alloc, station, judge) {
        Ok(made) => has_bits(&made, bits) && has_text(alloc, station, &made, text),
        Err(_) => false,
    }
}

#[test]
fn plans(rt: HostRuntime) {
    assert!(rt; row_holds(rt.alloc(), &TOGETHER));
    assert!(rt; row_holds(rt.alloc(), &APART));
}
