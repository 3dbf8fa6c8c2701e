//! The edges of a part.
ghost use Rattle.std.specs.Prelude.{◌≡◌, ◌≢◌, ◌<◌, ◌↔◌, length, IsTrue, OnOk};
ghost use Rattle.interlock_terms.specs.Terms.{Grew};
ghost use Rattle.short_equations.specs.Edges.{AreEdges};
ghost use Rattle.short_equations.specs.ItemEdges.{AddsSight};
ghost use Rattle.short_equations.specs.PartItems.{SwitchesBelow, LinksBelow, TapsBelow, PartBut};

use crate::edge::Edge;
use crate::sights::{add_link, add_switch, add_tap};
use crate::view::View;
use ilk_base::{BayId, Memory, SwitchId};
use interlock_terms::Terms;
use station_graph::{Station, Switch};

// Whether the switch is of the part, and another one than that which is left out.
fn is_chosen(switch: Switch, id: SwitchId, part: BayId, skip: SwitchId) -> bool
    ensures { IsTrue result ↔ ((switch.bay.0 ≡ part.0) × (id.0 ≢ skip.0)) }
{
    switch.bay == part && id != skip
}

// Adds what the switches of a part but one are in the view.
fn add_switches(
    terms: &mut Terms,
    edges: &mut Vec<Edge>,
    view: View,
    station: &Station,
    part: BayId,
    skip: SwitchId,
) -> Result<(), Memory>
    requires edges { AreEdges edges.old.items }
    ensures grew { OnOk result (Grew terms.old terms.new) }
    ensures edges { OnOk result (AreEdges edges.new.items) }
    ensures adds { OnOk result (AddsSight view terms.new edges.old.items
        (SwitchesBelow station.now part.0 skip.0 (length station.now.switches)) station.now edges.new.items) }
{
    for i in 0..station.switch_count() {
        let id = SwitchId(i);
        let switch = station.switch(id);
        if is_chosen(switch, id, part, skip) {
            add_switch(terms, edges, view, id, switch)?;
        }
    }
    Ok(())
}

fn is_of(owner: BayId, part: BayId) -> bool
    ensures { IsTrue result ↔ (owner.0 ≡ part.0) }
{
    owner == part
}

// Adds what the links of a part are in the view.
fn add_links(
    terms: &mut Terms,
    edges: &mut Vec<Edge>,
    view: View,
    station: &Station,
    part: BayId,
) -> Result<(), Memory>
    requires edges { AreEdges edges.old.items }
    ensures grew { OnOk result (Grew terms.old terms.new) }
    ensures edges { OnOk result (AreEdges edges.new.items) }
    ensures adds { OnOk result (AddsSight view terms.new edges.old.items
        (LinksBelow station.now part.0 (length station.now.links)) station.now edges.new.items) }
{
    for i in 0..station.link_count() {
        let link = station.link(i);
        if is_of(link.part, part) {
            add_link(terms, edges, view, link)?;
        }
    }
    Ok(())
}

// Adds what the taps of a part are in the view.
fn add_taps(
    terms: &mut Terms,
    edges: &mut Vec<Edge>,
    view: View,
    station: &Station,
    part: BayId,
) -> Result<(), Memory>
    requires edges { AreEdges edges.old.items }
    ensures grew { OnOk result (Grew terms.old terms.new) }
    ensures edges { OnOk result (AreEdges edges.new.items) }
    ensures adds { OnOk result (AddsSight view terms.new edges.old.items
        (TapsBelow station.now part.0 (length station.now.taps)) station.now edges.new.items) }
{
    for i in 0..station.tap_count() {
        let tap = station.tap(i);
        if is_of(tap.part, part) {
            add_tap(terms, edges, view, tap)?;
        }
    }
    Ok(())
}

/// Adds what the items of a part, but for one switch, are in the view. A number that no switch has leaves out none.
pub(crate) fn add_part(
    terms: &mut Terms,
    edges: &mut Vec<Edge>,
    view: View,
    station: &Station,
    part: BayId,
    skip: SwitchId,
) -> Result<(), Memory>
    requires edges { AreEdges edges.old.items }
    ensures grew { OnOk result (Grew terms.old terms.new) }
    ensures edges { OnOk result (AreEdges edges.new.items) }
    ensures adds { OnOk result (AddsSight view terms.new edges.old.items
        (PartBut station.now part.0 skip.0) station.now edges.new.items) }
{
    add_switches(terms, edges, view, station, part, skip)?;
    add_links(terms, edges, view, station, part)?;
    add_taps(terms, edges, view, station, part)?;
    Ok(())
}
