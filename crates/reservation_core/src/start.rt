//! How a world begins.
ghost use Rattle.std.specs.Prelude.{◌≡◌, ◌<◌, ℕ, length, false, IfOk, slice_index_or};
ghost use Rattle.station_graph.specs.Diagram.{part_count};
ghost use Rattle.station_graph.specs.Alike.{IsVector};
ghost use Rattle.reservation_core.specs.Scene.{true_at};
ghost use Rattle.reservation_core.specs.Start.{AreNew, IsNew, position_of};

use crate::values::Position;
use bay_node::Node;
use bay_protocol::is_bay;
use ilk_base::{BayId, Memory, SwitchId};
use station_graph::{Station, Vector};
use std::alloc::Global;

// The node of a part to which nothing has happened, if the part is a bay.
fn new_node(alloc: Global, station: &Station, part: BayId) -> Result<Option<Node>, Memory>
    ensures { IfOk result (λ place. IsNew station.now part.0 place) }
{
    if !is_bay(station, part) {
        return Ok(None);
    }
    Ok(Some(Node::new(alloc, station, part)?))
}

// How many parts the station has, of which there are few.
fn part_count(station: &Station) -> u8
    ensures { result ≡ part_count station.now }
{
    station.part_count() as u8
}

// A new node for each part that is a bay.
pub(crate) fn new_nodes(alloc: Global, station: &Station) -> Result<Vec<Option<Node>>, Memory>
    ensures { IfOk result (λ v. AreNew station.now v.items) }
{
    let mut nodes = Vec::new(alloc);
    for part in 0..part_count(station) {
        nodes.push(new_node(alloc, station, BayId(part))?)?;
    }
    Ok(nodes)
}

// Where a switch that is closed or not stands.
fn position_of(closed: bool) -> Position
    ensures { result ≡ position_of closed }
{
    if closed {
        Position::Closed
    } else {
        Position::Open
    }
}

// Where each switch stands, by the vector.
pub(crate) fn positions(
    alloc: Global,
    station: &Station,
    start: &Vector,
) -> Result<Vec<Position>, Memory>
    requires { IsVector station.now start.now }
    ensures count { IfOk result (λ v. length v.items ≡ length station.now.switches) }
    ensures each { IfOk result (λ v. (i : ℕ) → i < length station.now.switches →
        true_at v.items i ≡ position_of (slice_index_or start.now i false)) }
{
    let mut truth = Vec::new(alloc);
    for i in 0..station.switch_count() {
        truth.push(position_of(start.closed(SwitchId(i))))?;
    }
    Ok(truth)
}
