//! What a node has heard in the round that it collects.
ghost use Rattle.std.specs.Prelude.{◌≡◌, ◌↔◌, ◌<◌, length, Some, IfOk, IsTrue, slice_set};
ghost use Rattle.station_graph.specs.Diagram.{part_count};
ghost use Rattle.bay_protocol.specs.State.{AllHeard, IsHeard};

use crate::sending::part_count;
use bay_protocol::is_other;
use ilk_base::{BayId, HeardList, Memory, Summary};
use station_graph::Station;
use std::alloc::Global;

// Whether a summary of the part was heard.
fn is_heard(heard: &HeardList, part: BayId) -> bool
    requires { part.0 < length heard.now }
    ensures { IsTrue result ↔ IsHeard heard.now part.0 }
{
    heard.get(part).is_some()
}

// Whether all others were heard.
pub(crate) fn are_heard(station: &Station, bay: BayId, heard: &HeardList) -> bool
    requires { length heard.now ≡ part_count station.now }
    ensures { IsTrue result ↔ AllHeard station.now bay.0 heard.now }
{
    for part in 0..part_count(station) {
        if is_other(station, bay, BayId(part)) && !is_heard(heard, BayId(part)) {
            return false;
        }
    }
    true
}

// A copy of what was heard, in a list for so many parts.
fn copied(alloc: Global, heard: &HeardList, parts: u8) -> Result<HeardList, Memory>
    requires { length heard.now ≡ parts }
    ensures { IfOk result (λ h. h ≡ heard.now) }
{
    let mut copy = HeardList::none(alloc, parts)?;
    for part in 0..parts {
        if let Some(summary) = heard.get(BayId(part)) {
            copy.set(BayId(part), summary);
        }
    }
    Ok(copy)
}

// What was heard, with this summary of the bay.
pub(crate) fn with_one(
    alloc: Global,
    heard: &HeardList,
    parts: u8,
    bay: BayId,
    summary: &Summary,
) -> Result<HeardList, Memory>
    requires count { length heard.now ≡ parts }
    requires bay { bay.0 < parts }
    ensures { IfOk result (λ h. h ≡ slice_set heard.now bay.0 (Some summary.now)) }
{
    let mut copy = copied(alloc, heard, parts)?;
    copy.set(bay, *summary);
    Ok(copy)
}
