//! Which switches stand for others: of bays that an exchange of the station carries into one another only the first has
//! its switches moved.
ghost use Rattle.std.specs.Prelude.{◌≡◌, ◌↔◌, ℕ, ◌+◌, ◌<◌, ◌≤◌, ◌^◌, IsTrue, length, slice_get, Some, IfOk, OnOk};
ghost use Rattle.like_bays.specs.Like.{led_by, IsExchangeBy};
ghost use Rattle.commissioning_tests.specs.Standing.{IsMoved, AreStanding, AreStands, IsSettled, LeavesBay};

use ilk_base::{BayId, Memory, SwitchId};
use like_bays::exchange_of;
use station_graph::Station;
use std::alloc::Global;

// Whether the switch stands for itself: it is moved.
pub(crate) fn is_moved(stands: &[u16], s: u16) -> bool
    ensures { IsTrue result ↔ IsMoved stands.now s }
{
    usize::from(s) < stands.len() && stands[usize::from(s)] == s
}

// Each switch stands for itself.
fn themselves(alloc: Global, station: &Station) -> Result<Vec<u16>, Memory>
    ensures len { IfOk result (λ v. length v.items ≡ length station.now.switches) }
    ensures each { IfOk result (λ v. (s t : ℕ) → slice_get v.items s ≡ Some t → s ≡ t) }
{
    let mut stands = Vec::new(alloc);
    for s in 0..station.switch_count() {
        stands.push(s)?;
    }
    Ok(stands)
}

// Whether the table leaves a switch.
fn leaves(table: &[u16], s: u16) -> bool
    ensures { IsTrue result → led_by table.now s ≡ s }
{
    usize::from(s) >= table.len() || table[usize::from(s)] == s
}

// Whether the table leaves so many switches from the first on.
fn leaves_bay(table: &[u16], first: SwitchId, count: u16) -> bool
    requires { first.0 + count < 2 ^ 16 }
    ensures { IsTrue result → LeavesBay table.now first.0 count }
{
    for i in 0..count {
        if !leaves(table, first.0 + i) {
            return false;
        }
    }
    true
}

// Lets a switch stand for a later one, if the table leads there.
fn stand_at(
    station: &Station,
    table: &[u16],
    first: SwitchId,
    count: u16,
    stands: &mut Vec<u16>,
    s: usize,
)
    requires standing { AreStanding station.now first.0 count stands.old.items }
    requires exchange { IsExchangeBy station.now table.now }
    requires leaves { LeavesBay table.now first.0 count }
    ensures len { length stands.new.items ≡ length stands.old.items }
    ensures standing { AreStanding station.now first.0 count stands.new.items }
{
    let _ = station;
    if s < stands.len() && s < table.len() && usize::from(table[s]) < s {
        stands[s] = table[s];
    }
}

// Lets switches stand for later ones to which the table leads.
fn stand_by(station: &Station, table: &[u16], first: SwitchId, count: u16, stands: &mut Vec<u16>)
    requires standing { AreStanding station.now first.0 count stands.old.items }
    requires exchange { IsExchangeBy station.now table.now }
    requires leaves { LeavesBay table.now first.0 count }
    ensures len { length stands.new.items ≡ length stands.old.items }
    ensures standing { AreStanding station.now first.0 count stands.new.items }
{
    for s in 0..station.switch_count() {
        stand_at(station, table, first, count, stands, usize::from(s));
    }
}

// Whether a part has switches, the first of which stands for itself.
fn is_leading(station: &Station, stands: &[u16], part: BayId) -> bool {
    let (first, count) = station.switches_of(part);
    0 < count && is_moved(stands, first.0)
}

// Lets the switches of a part stand for those of another, if an exchange of both leaves the bay's switches.
fn stand_for(
    alloc: Global,
    station: &Station,
    one: BayId,
    other: BayId,
    first: SwitchId,
    count: u16,
    stands: &mut Vec<u16>,
) -> Result<(), Memory>
    requires few { first.0 + count < 2 ^ 16 }
    requires standing { AreStanding station.now first.0 count stands.old.items }
    ensures len { OnOk result (length stands.new.items ≡ length stands.old.items) }
    ensures standing { OnOk result (AreStanding station.now first.0 count stands.new.items) }
{
    let Some(table) = exchange_of(alloc, station, one, other)? else {
        return Ok(());
    };
    if leaves_bay(&table, first, count) {
        stand_by(station, &table, first, count, stands);
    }
    Ok(())
}

// Lets switches stand for those of a part: those of the earlier parts that lead, one after another, until they do.
fn stand_for_part(
    alloc: Global,
    station: &Station,
    part: BayId,
    first: SwitchId,
    count: u16,
    stands: &mut Vec<u16>,
) -> Result<(), Memory>
    requires few { first.0 + count < 2 ^ 16 }
    requires standing { AreStanding station.now first.0 count stands.old.items }
    ensures len { OnOk result (length stands.new.items ≡ length stands.old.items) }
    ensures standing { OnOk result (AreStanding station.now first.0 count stands.new.items) }
{
    for one in 0..part.0 {
        if is_leading(station, stands, BayId(one)) && is_leading(station, stands, part) {
            stand_for(alloc, station, BayId(one), part, first, count, stands)?;
        }
    }
    Ok(())
}

// What stands for a switch, if that stands for itself; else the switch.
fn settled_at(stands: &[u16], s: u16) -> u16
    requires { s < length stands.now }
    ensures { IsSettled stands.now s result }
{
    let t = stands[usize::from(s)];
    if is_moved(stands, t) { t } else { s }
}

// So for each switch.
fn settled(
    alloc: Global,
    station: &Station,
    first: SwitchId,
    count: u16,
    stands: &[u16],
) -> Result<Vec<u16>, Memory>
    requires len { length stands.now ≡ length station.now.switches }
    requires standing { AreStanding station.now first.0 count stands.now }
    ensures { IfOk result (λ v. AreStands station.now first.0 count v.items) }
{
    let mut list = Vec::new(alloc);
    for s in 0..station.switch_count() {
        list.push(settled_at(stands, s))?;
    }
    Ok(list)
}

// What stands for each switch, part by part.
fn unsettled(
    alloc: Global,
    station: &Station,
    first: SwitchId,
    count: u16,
) -> Result<Vec<u16>, Memory>
    requires few { first.0 + count < 2 ^ 16 }
    ensures len { IfOk result (λ v. length v.items ≡ length station.now.switches) }
    ensures standing { IfOk result (λ v. AreStanding station.now first.0 count v.items) }
{
    let mut stands = themselves(alloc, station)?;
    for part in 0..station.part_count() {
        let part = BayId(part as u8);
        stand_for_part(alloc, station, part, first, count, &mut stands)?;
    }
    Ok(stands)
}

// For each switch one that stands for it, and is moved. So many switches from the first on, which are tested, stand for
// themselves alone. Time: the parts, for each part that is like no earlier one, and the items for each two of them.
pub(crate) fn stands_of(
    alloc: Global,
    station: &Station,
    first: SwitchId,
    count: u16,
) -> Result<Vec<u16>, Memory>
    requires few { first.0 + count < 2 ^ 16 }
    ensures { IfOk result (λ v. AreStands station.now first.0 count v.items) }
{
    let stands = unsettled(alloc, station, first, count)?;
    settled(alloc, station, first, count, &stands)
}
