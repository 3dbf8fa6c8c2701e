//! What belongs to a part, and what it shares with the others.
ghost use Rattle.std.specs.Prelude.{ℕ, ◌<◌, ◌↔◌, IfOk, Contains};
ghost use Rattle.station_graph.specs.Diagram.{node_count, IsStation};
ghost use Rattle.station_graph.specs.Sharing.{IsShared};
ghost use Rattle.station_graph.specs.Nodes.{Rises};

use crate::marks::{marked_twice, touched};
use crate::nodes::NodeList;
use crate::station::Station;
use ilk_base::{BayId, Memory};
use std::alloc::Global;

// The nodes that both the part and another part touch, rising.
fn shared(alloc: Global, station: &Station, part: BayId) -> Result<NodeList, Memory>
    ensures exact { IfOk result (λ l. (n : ℕ) → Contains l n ↔ IsShared station.now part.0 n) }
    ensures rises { IfOk result Rises }
    ensures within { IfOk result (λ l. (n : ℕ) → Contains l n → n < node_count station.now) }
{
    station.is_station();
    let here = touched(alloc, station, part, true)?;
    let elsewhere = touched(alloc, station, part, false)?;
    marked_twice(alloc, &here, &elsewhere)
}

impl Station {
    /// The nodes on which both this part and another part have an end or a tap, rising. Time: the
    /// nodes and all items; memory: the nodes.
    pub fn shared_nodes(&self, alloc: Global, part: BayId) -> Result<NodeList, Memory>
        ensures exact { IfOk result (λ l. (n : ℕ) → Contains l n ↔ IsShared self.now part.0 n) }
        ensures rises { IfOk result Rises }
        ensures within { IfOk result (λ l. (n : ℕ) → Contains l n → n < node_count self.now) }
        ensures station { IsStation self.now }
    {
        let _ = &self.taps;
        shared(alloc, self, part)
    }
}
