//! Whether tables are those of an exchange.
ghost use Rattle.std.specs.Prelude.{◌≡◌, ℕ, ◌+◌, ◌<◌, ◌^◌, IsTrue, length};
ghost use Rattle.like_bays.specs.Like.{led_by, IsOutside};
ghost use Rattle.like_bays.specs.Kept.{LeadsBack, KeepsSwitch, KeepsLink, KeepsTap, AreTablesOf};

use crate::items::{keeps_link, keeps_switch, keeps_tap, led_to};
use crate::tables::Tables;
use ilk_base::SwitchId;
use station_graph::Station;

// Whether the table leads back to a number.
fn leads_back_to(table: &[u16], n: usize) -> bool
    requires { n < length table.now }
    ensures { IsTrue result → led_by table.now (led_by table.now n) ≡ n }
{
    usize::from(led_to(table, table[n])) == n
}

// Whether the table leads back to each number.
fn leads_back(table: &[u16]) -> bool
    ensures { IsTrue result → LeadsBack table.now }
{
    for n in 0..table.len() {
        if !leads_back_to(table, n) {
            return false;
        }
    }
    true
}

// Whether the tables keep all switches.
fn keeps_switches(station: &Station, tables: &Tables) -> bool
    ensures { IsTrue result → (i : ℕ) → i < length station.now.switches
        → KeepsSwitch station.now tables.now.switches.items tables.now.nodes.items i }
{
    for i in 0..station.switch_count() {
        if !keeps_switch(station, tables, i) {
            return false;
        }
    }
    true
}

// Whether the tables keep all links.
fn keeps_links(station: &Station, tables: &Tables) -> bool
    ensures { IsTrue result → (i : ℕ) → i < length station.now.links
        → KeepsLink station.now tables.now.nodes.items i }
{
    for i in 0..station.link_count() {
        if !keeps_link(station, tables, i) {
            return false;
        }
    }
    true
}

// Whether the tables keep all taps.
fn keeps_taps(station: &Station, tables: &Tables) -> bool
    ensures { IsTrue result → (i : ℕ) → i < length station.now.taps
        → KeepsTap station.now tables.now.nodes.items i }
{
    for i in 0..station.tap_count() {
        if !keeps_tap(station, tables, i) {
            return false;
        }
    }
    true
}

// Whether the table leads from so many switches from the first on to those from the second on.
fn carries(table: &[u16], first: SwitchId, second: SwitchId, count: u16) -> bool
    requires first { first.0 + count < 2 ^ 16 }
    requires second { second.0 + count < 2 ^ 16 }
    ensures { IsTrue result → (i : ℕ) → i < count → led_by table.now (first.0 + i) ≡ second.0 + i }
{
    for i in 0..count {
        if led_to(table, first.0 + i) != second.0 + i {
            return false;
        }
    }
    true
}

// Whether a switch is none of so many from the first on.
fn is_outside(first: SwitchId, count: u16, s: usize) -> bool
    requires first { first.0 + count < 2 ^ 16 }
    ensures { IsOutside first.0 count s → IsTrue result }
{
    s < usize::from(first.0) || usize::from(first.0 + count) <= s
}

// Whether the table leaves a switch, if it is in neither bay.
fn leaves_one(table: &[u16], first: SwitchId, second: SwitchId, count: u16, s: usize) -> bool
    requires first { first.0 + count < 2 ^ 16 }
    requires second { second.0 + count < 2 ^ 16 }
    requires within { s < length table.now }
    ensures { IsTrue result → IsOutside first.0 count s → IsOutside second.0 count s → led_by table.now s ≡ s }
{
    !is_outside(first, count, s) || !is_outside(second, count, s) || usize::from(table[s]) == s
}

// Whether the table leaves all switches that are in neither bay.
fn leaves(table: &[u16], first: SwitchId, second: SwitchId, count: u16) -> bool
    requires first { first.0 + count < 2 ^ 16 }
    requires second { second.0 + count < 2 ^ 16 }
    ensures { IsTrue result → (s : ℕ) → IsOutside first.0 count s → IsOutside second.0 count s
        → led_by table.now s ≡ s }
{
    for s in 0..table.len() {
        if !leaves_one(table, first, second, count, s) {
            return false;
        }
    }
    true
}

// Whether the tables are those of an exchange that carries so many switches from the first on to those from the second on.
pub(crate) fn is_exchange(
    station: &Station,
    tables: &Tables,
    first: SwitchId,
    second: SwitchId,
    count: u16,
) -> bool
    requires first { first.0 + count < 2 ^ 16 }
    requires second { second.0 + count < 2 ^ 16 }
    ensures { IsTrue result → AreTablesOf station.now tables.now.switches.items tables.now.nodes.items first.0 second.0
        count }
{
    leads_back(&tables.switches)
        && leads_back(&tables.nodes)
        && keeps_switches(station, tables)
        && keeps_links(station, tables)
        && keeps_taps(station, tables)
        && carries(&tables.switches, first, second, count)
        && leaves(&tables.switches, first, second, count)
}
