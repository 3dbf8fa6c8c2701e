//! Edges that stand for the items of some parts.
ghost use Rattle.std.specs.Prelude.{◌≡◌, ◌<◌, length, IfOk, OnOk};
ghost use Rattle.station_graph.specs.Diagram.{IsStation};
ghost use Rattle.interlock_terms.specs.Terms.{Grew};
ghost use Rattle.short_equations.specs.declared.part_set.PartSet.TheVariants.{Only};
ghost use Rattle.short_equations.specs.Edges.{AreEdges};
ghost use Rattle.short_equations.specs.Fragments.{InParts, StandsForItems, ComposedOf};

use crate::edge::Edge;
use crate::elimination::{add_all, eliminate_all};
use crate::part::add_part;
use crate::part_set::{PartSet, inner_nodes};
use crate::view::View;
use ilk_base::{BayId, Memory, SwitchId};
use interlock_terms::Terms;
use station_graph::Station;
use std::alloc::Global;

/// The edges of both, with nodes eliminated at which all items are of these parts.
pub(crate) fn compose(
    alloc: Global,
    terms: &mut Terms,
    station: &Station,
    first: &[Edge],
    second: &[Edge],
    set: PartSet,
) -> Result<Vec<Edge>, Memory>
    requires first { AreEdges first.now }
    requires second { AreEdges second.now }
    ensures grew { OnOk result (Grew terms.old terms.new) }
    ensures edges { IfOk result (λ r. AreEdges r.items) }
    ensures composed { IfOk result (λ r. ComposedOf station.now set terms.new first.now second.now r.items) }
    ensures station { OnOk result (IsStation station.now) }
{
    let mut edges = Vec::from_slice(alloc, first)?;
    add_all(terms, &mut edges, second)?;
    let nodes = inner_nodes(alloc, station, &edges, set)?;
    let left = eliminate_all(alloc, terms, &edges, &nodes)?;
    Ok(left)
}

/// The edges that stand for one part.
pub(crate) fn own_edges(
    alloc: Global,
    terms: &mut Terms,
    station: &Station,
    view: View,
    part: BayId,
) -> Result<Vec<Edge>, Memory>
    ensures grew { OnOk result (Grew terms.old terms.new) }
    ensures edges { IfOk result (λ r. AreEdges r.items) }
    ensures stands { IfOk result
        (λ r. StandsForItems view station.now terms.new (InParts station.now (Only part)) r.items) }
{
    let mut edges = Vec::new(alloc);
    add_part(
        terms,
        &mut edges,
        view,
        station,
        part,
        SwitchId(station.switch_count()),
    )?;
    let none = Vec::new(alloc);
    let left = compose(alloc, terms, station, &edges, &none, PartSet::Only(part))?;
    Ok(left)
}
