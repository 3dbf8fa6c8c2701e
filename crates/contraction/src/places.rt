//! Places of kept nodes.
ghost use Rattle.std.specs.Prelude.{◌≡◌, ℕ, ◌<◌, ◌≤◌, ◌↔◌, length, slice_get, slice_index, Some, IfOk, IsTrue};
ghost use Rattle.station_graph.specs.declared.limits.TheConstants.{NODES};
ghost use Rattle.station_graph.specs.Nodes.{Rises};
ghost use Rattle.contraction.specs.Answers.{Keeps, SameAt, MarkedAt};
ghost use Rattle.contraction.specs.Restricting.{NamedBelow, PlacesOf, Picks};

use ilk_base::Memory;
use station_graph::limits::NODES;
use std::alloc::Global;

// The place of a kept node.
fn place_of(kept: &[u16], node: u16) -> usize
    requires { Keeps kept.now node }
    ensures { slice_get kept.now result ≡ Some node }
{
    let mut place = 0;
    'seeking: while kept[place] != node {
        place += 1;
    }
    place
}

// Whether two kept nodes have one label.
pub(crate) fn same_label(kept: &[u16], labels: &[u16], a: u16, b: u16) -> bool
    requires rises { Rises kept.now }
    requires len { length labels.now ≡ length kept.now }
    requires first { Keeps kept.now a }
    requires second { Keeps kept.now b }
    ensures { IsTrue result ↔ SameAt kept.now labels.now a b }
{
    labels[place_of(kept, a)] == labels[place_of(kept, b)]
}

// Whether a kept node is marked.
pub(crate) fn is_marked(kept: &[u16], marks: &[bool], a: u16) -> bool
    requires rises { Rises kept.now }
    requires len { length marks.now ≡ length kept.now }
    requires node { Keeps kept.now a }
    ensures { IsTrue result ↔ MarkedAt kept.now marks.now a }
{
    marks[place_of(kept, a)]
}

// Notes which nodes are named, of those for which there is room.
fn note_named(named: &mut [bool], nodes: &[u16])
    ensures { NamedBelow nodes.now (length nodes.now) named.old named.new }
{
    for i in 0..nodes.len() {
        let node = nodes[i] as usize;
        if node < named.len() {
            named[node] = true;
        }
    }
}

// The places of the list at which one of these nodes stands.
pub(crate) fn places_of(alloc: Global, kept: &[u16], nodes: &[u16]) -> Result<Vec<u16>, Memory>
    requires few { length kept.now ≤ NODES }
    requires small { (k : ℕ) → k < length kept.now → slice_index kept.now k < NODES }
    ensures { IfOk result (λ places. PlacesOf nodes.now kept.now places.items) }
{
    let mut named = [false; NODES];
    note_named(&mut named, nodes);
    let mut places = Vec::with_capacity(alloc, nodes.len())?;
    for place in 0..kept.len() {
        let is_named = named[kept[place] as usize];
        if is_named {
            places.push(place as u16)?;
        }
    }
    Ok(places)
}

// The entries of a row at these places.
pub(crate) fn picked<T: Copy + Drop>(
    alloc: Global,
    all: &[T],
    places: &[u16],
) -> Result<Vec<T>, Memory>
    requires { (k : ℕ) → k < length places.now → slice_index places.now k < length all.now }
    ensures { IfOk result (λ row. Picks all.now places.now row.items) }
{
    let mut row = Vec::with_capacity(alloc, places.len())?;
    for k in 0..places.len() {
        row.push(all[places[k] as usize])?;
    }
    Ok(row)
}
