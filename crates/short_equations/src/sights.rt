//! The edges of single items.
ghost use Rattle.std.specs.Prelude.{◌≡◌, ◌≢◌, ◌<◌, ◌≤◌, ◌↔◌, ℕ, length, IsTrue, OnOk, true};
ghost use Rattle.station_graph.specs.Connection.{AreEnds};
ghost use Rattle.short_equations.specs.declared.edge.TheConstants.{FIRST_MARK};
ghost use Rattle.short_equations.specs.declared.view.View.TheVariants.{Bond, Load};
ghost use Rattle.interlock_terms.specs.Terms.{Values, Grew, IsTrueAt};
ghost use Rattle.short_equations.specs.Edges.{AreEdges, IsEdge, LeadsAlong};
ghost use Rattle.short_equations.specs.ItemEdges.{EndsFit, AddsEnds, AddsMark, AddsSwitch, AddsLink, AddsTap};

use crate::edge::{Edge, FIRST_MARK};
use crate::elimination::add_edge;
use crate::view::{Step, View, step_of};
use ilk_base::{Memory, NodeId, SwitchId};
use interlock_terms::Terms;
use station_graph::{Link, Switch, Tap};

// The edge between two nodes.
fn edge_between(a: NodeId, b: NodeId, term: usize) -> Edge
    requires first { a.0 < FIRST_MARK }
    requires second { b.0 < FIRST_MARK }
    requires differ { a.0 ≢ b.0 }
    ensures edge { IsEdge result }
    ensures leads { (v : Values) (x y : ℕ) → LeadsAlong v result x y ↔ (IsTrueAt v term × AreEnds a.0 b.0 x y) }
{
    if a.0 < b.0 {
        return Edge {
            first: a,
            second: b,
            term,
        };
    }
    Edge {
        first: b,
        second: a,
        term,
    }
}

// The edge from a node to a mark.
fn edge_to_mark(node: NodeId, mark: NodeId, term: usize) -> Edge
    requires node { node.0 < FIRST_MARK }
    requires mark { FIRST_MARK ≤ mark.0 }
    ensures edge { IsEdge result }
    ensures leads { (v : Values) (x y : ℕ) → LeadsAlong v result x y
        ↔ (IsTrueAt v term × ((x ≡ node.0) × (y ≡ mark.0))) }
{
    Edge {
        first: node,
        second: mark,
        term,
    }
}

// Adds the edge between the ends of a switch, there where the term is true.
fn add_ends(
    terms: &mut Terms,
    edges: &mut Vec<Edge>,
    switch: Switch,
    term: usize,
) -> Result<(), Memory>
    requires edges { AreEdges edges.old.items }
    requires fits { EndsFit switch }
    ensures grew { OnOk result (Grew terms.old terms.new) }
    ensures edges { OnOk result (AreEdges edges.new.items) }
    ensures adds { OnOk result (AddsEnds terms.new edges.old.items switch term edges.new.items) }
{
    if let Some(second) = switch.second {
        add_edge(terms, edges, edge_between(switch.first, second, term))?;
    }
    Ok(())
}

// Adds the edge from a node to a mark, there where the term is true.
fn add_mark(
    terms: &mut Terms,
    edges: &mut Vec<Edge>,
    node: NodeId,
    mark: NodeId,
    term: usize,
) -> Result<(), Memory>
    requires edges { AreEdges edges.old.items }
    requires node { node.0 < FIRST_MARK }
    requires mark { FIRST_MARK ≤ mark.0 }
    ensures grew { OnOk result (Grew terms.old terms.new) }
    ensures edges { OnOk result (AreEdges edges.new.items) }
    ensures adds { OnOk result (AddsMark terms.new edges.old.items node.0 mark.0 term edges.new.items) }
{
    add_edge(terms, edges, edge_to_mark(node, mark, term))?;
    Ok(())
}

// Adds what a switch is in the view.
pub(crate) fn add_switch(
    terms: &mut Terms,
    edges: &mut Vec<Edge>,
    view: View,
    id: SwitchId,
    switch: Switch,
) -> Result<(), Memory>
    requires edges { AreEdges edges.old.items }
    requires fits { EndsFit switch }
    ensures grew { OnOk result (Grew terms.old terms.new) }
    ensures edges { OnOk result (AreEdges edges.new.items) }
    ensures adds { OnOk result (AddsSwitch view terms.new edges.old.items id.0 switch edges.new.items) }
{
    match step_of(view, switch.kind) {
        Step::Nothing => {}
        Step::Ends => {
            let term = terms.always()?;
            add_ends(terms, edges, switch, term)?;
        }
        Step::ClosedEnds => {
            let term = terms.closed(id)?;
            add_ends(terms, edges, switch, term)?;
        }
        Step::FirstMark => {
            let term = terms.closed(id)?;
            add_mark(terms, edges, switch.first, NodeId(FIRST_MARK), term)?;
        }
        Step::SecondMark => {
            let term = terms.closed(id)?;
            add_mark(terms, edges, switch.first, NodeId(FIRST_MARK + 1), term)?;
        }
    }
    Ok(())
}

fn link_counts(view: View, link: Link) -> bool
    ensures { IsTrue result ↔ (view ≡ Bond → link.bond ≡ true) }
{
    link.bond || view != View::Bond
}

// Adds what a link is in the view.
pub(crate) fn add_link(
    terms: &mut Terms,
    edges: &mut Vec<Edge>,
    view: View,
    link: Link,
) -> Result<(), Memory>
    requires edges { AreEdges edges.old.items }
    requires first { link.first.0 < FIRST_MARK }
    requires second { link.second.0 < FIRST_MARK }
    requires differ { link.first.0 ≢ link.second.0 }
    ensures grew { OnOk result (Grew terms.old terms.new) }
    ensures edges { OnOk result (AreEdges edges.new.items) }
    ensures adds { OnOk result (AddsLink view terms.new edges.old.items link edges.new.items) }
{
    if link_counts(view, link) {
        let term = terms.always()?;
        add_edge(terms, edges, edge_between(link.first, link.second, term))?;
    }
    Ok(())
}

fn tap_counts(view: View) -> bool
    ensures { IsTrue result ↔ (view ≡ Load) }
{
    view == View::Load
}

// Adds what a tap is in the view.
pub(crate) fn add_tap(
    terms: &mut Terms,
    edges: &mut Vec<Edge>,
    view: View,
    tap: Tap,
) -> Result<(), Memory>
    requires edges { AreEdges edges.old.items }
    requires node { tap.node.0 < FIRST_MARK }
    ensures grew { OnOk result (Grew terms.old terms.new) }
    ensures edges { OnOk result (AreEdges edges.new.items) }
    ensures adds { OnOk result (AddsTap view terms.new edges.old.items tap edges.new.items) }
{
    if tap_counts(view) {
        let term = terms.always()?;
        add_mark(terms, edges, tap.node, NodeId(FIRST_MARK + 1), term)?;
    }
    Ok(())
}
