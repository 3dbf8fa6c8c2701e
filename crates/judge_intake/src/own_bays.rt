//! A bay by its switches and by the nodes that it needs.
ghost use Rattle.std.specs.Prelude.{◌≡◌, ◌<◌, IfOk};
ghost use Rattle.station_graph.specs.Diagram.{part_count};
ghost use Rattle.judge_intake.specs.SharedNodes.{AreShared};
ghost use Rattle.judge_intake.specs.OwnBays.{IsOwnBay};

use crate::needed::bay_nodes;
use ilk_base::{BayId, Memory};
use station_graph::{NodeList, Station};
use std::alloc::Global;

/// A bay by its switches, which stand together in document order, and by the nodes that its graphs need.
#[derive(Drop)]
pub struct OwnBay {
    /// the bay
    pub bay: BayId,
    /// its first switch
    pub first: u16,
    /// how many switches it has
    pub count: u16,
    /// the nodes that the bay shares, and those that its switches touch, rising
    pub nodes: NodeList,
}

/// The bay with its switches and nodes. Time: its switches for each node of the station.
pub fn own_bay(
    alloc: Global,
    station: &Station,
    shared: &[NodeList],
    bay: BayId,
) -> Result<OwnBay, Memory>
    requires shared { AreShared station.now shared.now }
    requires bay { bay.0 < part_count station.now }
    ensures own { IfOk result (IsOwnBay station.now) }
    ensures bay { IfOk result (λ o. o.bay ≡ bay) }
{
    let (first, count) = station.switches_of(bay);
    let nodes = bay_nodes(alloc, station, shared, bay, first.0, count)?;
    Ok(OwnBay {
        bay,
        first: first.0,
        count,
        nodes,
    })
}
