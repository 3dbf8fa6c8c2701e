//! The tables of an exchange of two bays, as a guess that is judged afterwards: the items of the one are put for those of
//! the other in document order, and their nodes with them.

use ilk_base::{BayId, Memory, NodeId, SwitchId};
use station_graph::{Link, Station, Switch};
use std::alloc::Global;

// Where an exchange leads from each switch, node, link and tap.
#[derive(Drop)]
pub(crate) struct Tables {
    pub(crate) switches: Vec<u16>,
    pub(crate) nodes: Vec<u16>,
    pub(crate) links: Vec<u16>,
    pub(crate) taps: Vec<u16>,
}

// The table that leaves everything.
fn unmoved(alloc: Global, count: u16) -> Result<Vec<u16>, Memory> {
    let mut table = Vec::new(alloc);
    for n in 0..count {
        table.push(n)?;
    }
    Ok(table)
}

// Writes where the table leads from a number.
fn lead(table: &mut Vec<u16>, from: u16, to: u16) {
    let place = usize::from(from);
    if place < table.len() {
        table[place] = to;
    }
}

// Exchanges two numbers.
fn exchange(table: &mut Vec<u16>, one: u16, other: u16) {
    lead(table, one, other);
    lead(table, other, one);
}

// Exchanges two second ends.
fn exchange_seconds(nodes: &mut Vec<u16>, one: Option<NodeId>, other: Option<NodeId>) {
    if let Some(one) = one {
        if let Some(other) = other {
            exchange(nodes, one.0, other.0);
        }
    }
}

impl Tables {
    // Exchanges two switches.
    fn exchange_switches(&mut self, one: SwitchId, other: SwitchId, x: Switch, y: Switch) {
        exchange(&mut self.switches, one.0, other.0);
        exchange(&mut self.nodes, x.first.0, y.first.0);
        exchange_seconds(&mut self.nodes, x.second, y.second);
    }

    // Exchanges two links.
    fn exchange_links(&mut self, one: u16, other: u16, x: Link, y: Link) {
        exchange(&mut self.links, one, other);
        exchange(&mut self.nodes, x.first.0, y.first.0);
        exchange(&mut self.nodes, x.second.0, y.second.0);
    }
}

// The number at a place.
fn number_at(numbers: &[u16], place: usize) -> Option<u16> {
    if place < numbers.len() {
        Some(numbers[place])
    } else {
        None
    }
}

// The switches of a part.
fn switches_of(alloc: Global, station: &Station, part: BayId) -> Result<Vec<u16>, Memory> {
    let mut list = Vec::new(alloc);
    for i in 0..station.switch_count() {
        if station.switch(SwitchId(i)).bay == part {
            list.push(i)?;
        }
    }
    Ok(list)
}

// The links of a part.
fn links_of(alloc: Global, station: &Station, part: BayId) -> Result<Vec<u16>, Memory> {
    let mut list = Vec::new(alloc);
    for i in 0..station.link_count() {
        if station.link(i).part == part {
            list.push(i)?;
        }
    }
    Ok(list)
}

// The taps of a part.
fn taps_of(alloc: Global, station: &Station, part: BayId) -> Result<Vec<u16>, Memory> {
    let mut list = Vec::new(alloc);
    for i in 0..station.tap_count() {
        if station.tap(i).part == part {
            list.push(i)?;
        }
    }
    Ok(list)
}

// Exchanges the switches of these numbers, place by place.
fn put_switches(station: &Station, ones: &[u16], others: &[u16], tables: &mut Tables) {
    for k in 0..ones.len() {
        let one = ones[k];
        if let Some(other) = number_at(others, k) {
            if one < station.switch_count() && other < station.switch_count() {
                let x = station.switch(SwitchId(one));
                let y = station.switch(SwitchId(other));
                tables.exchange_switches(SwitchId(one), SwitchId(other), x, y);
            }
        }
    }
}

// Exchanges the links of these numbers, place by place.
fn put_links(station: &Station, ones: &[u16], others: &[u16], tables: &mut Tables) {
    for k in 0..ones.len() {
        let one = ones[k];
        if let Some(other) = number_at(others, k) {
            if one < station.link_count() && other < station.link_count() {
                tables.exchange_links(one, other, station.link(one), station.link(other));
            }
        }
    }
}

// Exchanges the taps of these numbers, place by place.
fn put_taps(ones: &[u16], others: &[u16], taps: &mut Vec<u16>) {
    for k in 0..ones.len() {
        if let Some(other) = number_at(others, k) {
            exchange(taps, ones[k], other);
        }
    }
}

// The tables that leave everything.
fn all_unmoved(alloc: Global, station: &Station) -> Result<Tables, Memory> {
    Ok(Tables {
        switches: unmoved(alloc, station.switch_count())?,
        nodes: unmoved(alloc, station.node_count())?,
        links: unmoved(alloc, station.link_count())?,
        taps: unmoved(alloc, station.tap_count())?,
    })
}

// The tables that put the items of each of two parts for those of the other.
pub(crate) fn tables_of(
    alloc: Global,
    station: &Station,
    one: BayId,
    other: BayId,
) -> Result<Tables, Memory> {
    let mut tables = all_unmoved(alloc, station)?;
    let ones = switches_of(alloc, station, one)?;
    let others = switches_of(alloc, station, other)?;
    put_switches(station, &ones, &others, &mut tables);
    let ones = links_of(alloc, station, one)?;
    let others = links_of(alloc, station, other)?;
    put_links(station, &ones, &others, &mut tables);
    let ones = taps_of(alloc, station, one)?;
    let others = taps_of(alloc, station, other)?;
    put_taps(&ones, &others, &mut tables.taps);
    Ok(tables)
}
