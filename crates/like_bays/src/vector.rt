//! Positions of all switches, exchanged.
ghost use Rattle.std.specs.Prelude.{◌≡◌, false, IfOk, slice_index_or};
ghost use Rattle.station_graph.specs.Alike.{IsVector};
ghost use Rattle.release_dependence.specs.Exchange.{IsExchanged};
ghost use Rattle.like_bays.specs.Like.{led_by, IsExchangeBy};

use crate::items::led_to;
use ilk_base::Memory;
use station_graph::Station;
use std::alloc::Global;

// The position at a place of the list.
fn position(closed: &[bool], place: u16) -> bool
    ensures { result ≡ slice_index_or closed.now place false }
{
    if usize::from(place) < closed.len() {
        closed[usize::from(place)]
    } else {
        false
    }
}

/// The positions of all switches with those exchanged that the table exchanges: each switch has the position of the one to
/// which the table leads. Time and memory: the switches.
pub fn exchanged_vector(
    alloc: Global,
    station: &Station,
    table: &[u16],
    closed: &[bool],
) -> Result<Vec<bool>, Memory>
    requires table { IsExchangeBy station.now table.now }
    ensures vector { IfOk result (λ v. IsVector station.now v.items) }
    ensures exchanged { IfOk result (λ v. IsVector station.now closed.now →
        IsExchanged (led_by table.now) closed.now v.items) }
{
    let mut list = Vec::new(alloc);
    for i in 0..station.switch_count() {
        list.push(position(closed, led_to(table, i)))?;
    }
    Ok(list)
}
