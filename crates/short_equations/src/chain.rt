//! The parts along the chain: each with all others, composed from the left and from the right.
ghost use Rattle.std.specs.Prelude.{◌≡◌, ◌≤◌, ◌<◌, ◌+◌, ◌^◌, length, slice_get, Some, IfOk, OnOk, IsTrue, ◌↔◌};
ghost use Rattle.ilk_base.specs.declared.words.BayId.{BayId};
ghost use Rattle.station_graph.specs.declared.items.Switch.{Switch};
ghost use Rattle.station_graph.specs.Diagram.{part_count};
ghost use Rattle.interlock_terms.specs.Terms.{Grew};
ghost use Rattle.short_equations.specs.declared.part_set.PartSet.TheVariants.{Only, Below, From, But};
ghost use Rattle.short_equations.specs.Edges.{AreEdges};
ghost use Rattle.short_equations.specs.Fragments.{InParts, StandsForItems};
ghost use Rattle.short_equations.specs.Pairs.{IsExactPair, AreExactFrom, SetsBay, AreExactPairs};

use crate::edge::Edge;
use crate::elimination::eliminate_all;
use crate::fragment::{compose, own_edges};
use crate::pair::{TermPair, far_end, other_nodes, read_pair};
use crate::part::add_part;
use crate::part_set::PartSet;
use crate::view::View;
use ilk_base::{BayId, Memory, SwitchId};
use interlock_terms::Terms;
use station_graph::Station;
use std::alloc::Global;

// The terms of a switch, from edges that stand for all other parts.
fn switch_pair(
    alloc: Global,
    terms: &mut Terms,
    station: &Station,
    view: View,
    others: &[Edge],
    id: SwitchId,
    part: BayId,
) -> Result<TermPair, Memory>
    requires edges { AreEdges others.now }
    requires within { id.0 < length station.now.switches }
    requires stands { StandsForItems view station.now terms.old (InParts station.now (But part)) others.now }
    ensures grew { OnOk result (Grew terms.old terms.new) }
    ensures exact { IfOk result (λ p. (x : Switch) → slice_get station.now.switches id.0 ≡ Some x
        → x.bay ≡ part → IsExactPair view station.now terms.new id.0 x p) }
{
    let switch = station.switch(id);
    let second = far_end(switch);
    let mut edges = Vec::from_slice(alloc, others)?;
    add_part(terms, &mut edges, view, station, part, id)?;
    let nodes = other_nodes(alloc, station, switch.first, second)?;
    let left = eliminate_all(alloc, terms, &edges, &nodes)?;
    let pair = read_pair(terms, &left, view, switch.first, second)?;
    Ok(pair)
}

fn is_of(owner: BayId, part: BayId) -> bool
    ensures same { IsTrue result → owner ≡ part }
    ensures number { IsTrue result ↔ (owner.0 ≡ part.0) }
{
    owner == part
}

// The terms of each switch of a part, from edges that stand for all other parts.
fn add_pairs(
    alloc: Global,
    terms: &mut Terms,
    station: &Station,
    view: View,
    others: &[Edge],
    part: BayId,
    pairs: &mut Vec<TermPair>,
) -> Result<(), Memory>
    requires edges { AreEdges others.now }
    requires stands { StandsForItems view station.now terms.old (InParts station.now (But part)) others.now }
    requires room { length pairs.old.items ≡ length station.now.switches }
    ensures grew { OnOk result (Grew terms.old terms.new) }
    ensures sets { OnOk result (SetsBay view station.now terms.new part.0 pairs.old.items pairs.new.items) }
{
    for i in 0..station.switch_count() {
        if is_of(station.switch(SwitchId(i)).bay, part) {
            let pair = switch_pair(alloc, terms, station, view, others, SwitchId(i), part)?;
            pairs[i as usize] = pair;
        }
    }
    Ok(())
}

// The terms of each switch of a part, from the edges that stand for the parts before it, for itself and for the parts
// after it; the edges that stand for the parts from it on are returned.
fn take_part(
    alloc: Global,
    terms: &mut Terms,
    station: &Station,
    view: View,
    part: u16,
    before: &[Edge],
    own: &[Edge],
    after: &[Edge],
    pairs: &mut Vec<TermPair>,
) -> Result<Vec<Edge>, Memory>
    requires part { part < 2 ^ 8 }
    requires before_edges { AreEdges before.now }
    requires own_edges { AreEdges own.now }
    requires after_edges { AreEdges after.now }
    requires before { StandsForItems view station.now terms.old (InParts station.now (Below part)) before.now }
    requires own { StandsForItems view station.now terms.old (InParts station.now (Only (record { 0 = part }))) own.now }
    requires after { StandsForItems view station.now terms.old (InParts station.now (From (part + 1))) after.now }
    requires room { length pairs.old.items ≡ length station.now.switches }
    requires exact { AreExactFrom view station.now terms.old (part + 1) pairs.old.items }
    ensures grew { OnOk result (Grew terms.old terms.new) }
    ensures edges { IfOk result (λ r. AreEdges r.items) }
    ensures stands { IfOk result
        (λ r. StandsForItems view station.now terms.new (InParts station.now (From part)) r.items) }
    ensures len { OnOk result (length pairs.new.items ≡ length station.now.switches) }
    ensures exact { OnOk result (AreExactFrom view station.now terms.new part pairs.new.items) }
{
    let here = BayId(part as u8);
    let others = compose(alloc, terms, station, before, after, PartSet::But(here))?;
    add_pairs(alloc, terms, station, view, &others, here, pairs)?;
    let from_here = compose(alloc, terms, station, own, after, PartSet::From(part))?;
    Ok(from_here)
}

// The terms of each switch of the parts from this number on; the edges that stand for those parts are returned.
fn walk(
    alloc: Global,
    terms: &mut Terms,
    station: &Station,
    view: View,
    part: u16,
    before: &[Edge],
    pairs: &mut Vec<TermPair>,
) -> Result<Vec<Edge>, Memory>
    requires part { part ≤ part_count station.now }
    requires edges { AreEdges before.now }
    requires stands { StandsForItems view station.now terms.old (InParts station.now (Below part)) before.now }
    requires room { length pairs.old.items ≡ length station.now.switches }
    ensures grew { OnOk result (Grew terms.old terms.new) }
    ensures edges { IfOk result (λ r. AreEdges r.items) }
    ensures stands { IfOk result
        (λ r. StandsForItems view station.now terms.new (InParts station.now (From part)) r.items) }
    ensures len { OnOk result (length pairs.new.items ≡ length station.now.switches) }
    ensures exact { OnOk result (AreExactFrom view station.now terms.new part pairs.new.items) }
{
    if part == station.part_count() {
        return Ok(Vec::new(alloc));
    }
    let here = BayId(part as u8);
    let own = own_edges(alloc, terms, station, view, here)?;
    let so_far = compose(
        alloc,
        terms,
        station,
        before,
        &own,
        PartSet::Below(part + 1),
    )?;
    let after = walk(alloc, terms, station, view, part + 1, &so_far, pairs)?;
    take_part(
        alloc, terms, station, view, part, before, &own, &after, pairs,
    )
}

/// The two terms of each switch in a view, by the number of the switch.
///
/// Time: for each part its own items, and for each switch the edges that are left of all other parts, which are few; and
/// for each part the items of the station, to find the nodes that it shares.
pub fn view_pairs(
    alloc: Global,
    terms: &mut Terms,
    station: &Station,
    view: View,
) -> Result<Vec<TermPair>, Memory>
    ensures grew { OnOk result (Grew terms.old terms.new) }
    ensures len { IfOk result (λ r. length r.items ≡ length station.now.switches) }
    ensures exact { IfOk result (λ r. AreExactPairs view station.now terms.new r.items) }
{
    let none = TermPair {
        first: None,
        second: None,
    };
    let mut pairs = vec![in alloc; none; station.switch_count() as usize]?;
    let edges = Vec::new(alloc);
    walk(alloc, terms, station, view, 0, &edges, &mut pairs)?;
    Ok(pairs)
}
