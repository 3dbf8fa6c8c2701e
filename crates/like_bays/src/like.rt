//! Which bays are like.
ghost use Rattle.std.specs.Prelude.{IsTrue, IfOk, IfSome};
ghost use Rattle.like_bays.specs.Like.{AreLike, IsExchangeBy};

use crate::check::is_exchange;
use crate::tables::tables_of;
use ilk_base::{BayId, Memory};
use station_graph::Station;
use std::alloc::Global;

/// Whether two bays are seen to be like: the exchange of their items in document order leaves the drawing what it is. Then
/// the tests of the one are those of the other with the two exchanged, by `release_dependence::exchange_keeps_answers`. It
/// is not looked for an exchange that keeps no order, so bays that are like may be missed. Time and memory: the items.
pub fn are_like(alloc: Global, station: &Station, one: BayId, other: BayId) -> Result<bool, Memory>
    ensures { IfOk result (λ like. IsTrue like → AreLike station.now one.0 other.0) }
{
    station.is_station();
    let (first, count) = station.switches_of(one);
    let (second, others) = station.switches_of(other);
    if count != others {
        return Ok(false);
    }
    let tables = tables_of(alloc, station, one, other)?;
    Ok(is_exchange(station, &tables, first, second, count))
}

/// Where the exchange of two bays leads from each switch, if they are seen to be like: from the switches of each to those
/// of the other, and from every other switch to itself. Time and memory: the items.
pub fn exchange_of(
    alloc: Global,
    station: &Station,
    one: BayId,
    other: BayId,
) -> Result<Option<Vec<u16>>, Memory>
    ensures { IfOk result (λ found. IfSome found (λ table. IsExchangeBy station.now table.items)) }
{
    station.is_station();
    let (first, count) = station.switches_of(one);
    let (second, others) = station.switches_of(other);
    if count != others {
        return Ok(None);
    }
    let tables = tables_of(alloc, station, one, other)?;
    if !is_exchange(station, &tables, first, second, count) {
        return Ok(None);
    }
    let table = Vec::from_slice(alloc, &tables.switches)?;
    Ok(Some(table))
}
