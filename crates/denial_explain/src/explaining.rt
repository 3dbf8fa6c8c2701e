//! Why an operation breaks a rule.
ghost use Rattle.std.specs.Prelude.{◌≡◌, ◌<◌, ◌^◌, ◌↔◌, ◌⊎◌, ℕ, length, slice_set, Some, IfOk, Contains};
ghost use Rattle.ilk_base.specs.declared.words.Rule.{Rule as AnyRule};
ghost use Rattle.ilk_base.specs.declared.words.Rule.TheVariants.{R1, R2, R3};
ghost use Rattle.station_graph.specs.Diagram.{node_count};
ghost use Rattle.station_graph.specs.Nodes.{Rises};
ghost use Rattle.station_graph.specs.Connection.{Bonded, with_breakers_closed};
ghost use Rattle.station_graph.specs.Supply.{Live};
ghost use Rattle.station_graph.specs.CentralRules.{Breaks, IsOperation};
ghost use Rattle.denial_explain.specs.Ways.{AllBelow};
ghost use Rattle.denial_explain.specs.Explained.{Explains, LeadsLive};
ghost use Rattle.denial_explain.specs.SameClass.{IsClassOf};
ghost use Rattle.denial_explain.specs.ExplanationText.{ChainFits, ExplanationFits};
ghost use Rattle.station_graph.specs.Alike.{IsVector};

use crate::chain::Chain;
use crate::chains::{chain_to_closed, chain_to_tap};
use crate::explanation::Explanation;
use central_rules::{breaks, is_live, labels};
use ilk_base::{Kind, Memory, NodeId, Op, Rule};
use station_graph::{NodeList, Station, Vector};
use std::alloc::Global;

// The vector with the moved switch in this position.
fn moved_to(
    alloc: Global,
    station: &Station,
    op: Op,
    reading: &Vector,
    closed: bool,
) -> Result<Vector, Memory>
    requires reading { IsVector station.now reading.now }
    requires op { IsOperation station.now op }
    ensures value { IfOk result (λ v. v ≡ slice_set reading.now op.switch.0 closed) }
    ensures whole { IfOk result (λ v. IsVector station.now v) }
{
    reading.with(alloc, op.switch, closed)
}

// The vector in which what is coupled is joined.
fn coupling(alloc: Global, station: &Station, vector: &Vector) -> Result<Vector, Memory>
    requires { IsVector station.now vector.now }
    ensures value { IfOk result (λ v. v ≡ with_breakers_closed station.now vector.now) }
    ensures whole { IfOk result (λ v. IsVector station.now v) }
{
    vector.with_breakers_closed(alloc, station)
}

// How the node of an earthing switch is energised.
fn explain_earthing(
    alloc: Global,
    station: &Station,
    op: Op,
    reading: &Vector,
) -> Result<Explanation, Memory>
    requires reading { IsVector station.now reading.now }
    requires op { IsOperation station.now op }
    requires broken { Breaks station.now reading.now op (Some R1) }
    ensures explains { IfOk result (Explains station.now reading.now op) }
    ensures fits { IfOk result (ExplanationFits station.now) }
{
    let moved = station.switch(op.switch);
    let open = moved_to(alloc, station, op, reading, false)?;
    let coupling = coupling(alloc, station, &open)?;
    let live = chain_to_closed(alloc, station, &coupling, &open, Kind::Infeed, moved.first)?;
    Ok(Explanation {
        op,
        rule: Rule::R1,
        live,
        earthed: None,
        taps: None,
        bonded: NodeList::new(alloc),
    })
}

// How the first node is energised and earthed, with the operation done.
fn explain_closing(
    alloc: Global,
    station: &Station,
    op: Op,
    reading: &Vector,
) -> Result<Explanation, Memory>
    requires reading { IsVector station.now reading.now }
    requires op { IsOperation station.now op }
    requires broken { Breaks station.now reading.now op (Some R2) }
    ensures explains { IfOk result (Explains station.now reading.now op) }
    ensures fits { IfOk result (ExplanationFits station.now) }
{
    let moved = station.switch(op.switch);
    let closed = moved_to(alloc, station, op, reading, true)?;
    let coupling = coupling(alloc, station, &closed)?;
    let live = chain_to_closed(
        alloc,
        station,
        &coupling,
        &closed,
        Kind::Infeed,
        moved.first,
    )?;
    let earthed = chain_to_closed(
        alloc,
        station,
        &coupling,
        &closed,
        Kind::Earthing,
        moved.first,
    )?;
    Ok(Explanation {
        op,
        rule: Rule::R2,
        live,
        earthed: Some(earthed),
        taps: None,
        bonded: NodeList::new(alloc),
    })
}

// The nodes with the label of this node, rising.
fn same_class(alloc: Global, labels: &NodeList, node: NodeId) -> Result<NodeList, Memory>
    requires node { node.0 < length labels.now }
    requires few { length labels.now < 2 ^ 16 }
    ensures { IfOk result (IsClassOf labels.now node.0) }
{
    let class = labels.get(node.0 as usize);
    let mut nodes = NodeList::new(alloc);
    for i in 0..labels.len() as u16 {
        if labels.get(i as usize) == class {
            nodes.push(NodeId(i))?;
        }
    }
    Ok(nodes)
}

// All nodes that are bonded to the node, rising.
fn bonded_nodes(
    alloc: Global,
    station: &Station,
    vector: &Vector,
    node: NodeId,
) -> Result<NodeList, Memory>
    requires vector { IsVector station.now vector.now }
    requires node { node.0 < node_count station.now }
    ensures exact { IfOk result (λ l. (n : ℕ) → Contains l n ↔ Bonded station.now vector.now node.0 n) }
    ensures rises { IfOk result Rises }
    ensures nodes { IfOk result (AllBelow (node_count station.now)) }
{
    let labels = labels(alloc, station, vector, true)?;
    station.is_station();
    same_class(alloc, &labels, node)
}

// How a side of a gap is live: from its first node if that is live, else from its second.
fn live_chain(
    alloc: Global,
    station: &Station,
    vector: &Vector,
    first: NodeId,
    second: NodeId,
) -> Result<Chain, Memory>
    requires vector { IsVector station.now vector.now }
    requires first { first.0 < node_count station.now }
    requires second { second.0 < node_count station.now }
    requires live { Live station.now vector.now first.0 ⊎ Live station.now vector.now second.0 }
    ensures chain { IfOk result (LeadsLive station.now vector.now first.0 second.0) }
    ensures fits { IfOk result (ChainFits station.now) }
{
    let joined = labels(alloc, station, vector, false)?;
    if is_live(station, vector, &joined, first) {
        return chain_to_closed(alloc, station, vector, vector, Kind::Infeed, first);
    }
    chain_to_closed(alloc, station, vector, vector, Kind::Infeed, second)
}

// The load on both sides of a disconnector, with it open, and what is bonded to its first node.
fn explain_load(
    alloc: Global,
    station: &Station,
    op: Op,
    reading: &Vector,
) -> Result<Explanation, Memory>
    requires reading { IsVector station.now reading.now }
    requires op { IsOperation station.now op }
    requires broken { Breaks station.now reading.now op (Some R3) }
    ensures explains { IfOk result (Explains station.now reading.now op) }
    ensures fits { IfOk result (ExplanationFits station.now) }
{
    let moved = station.switch(op.switch);
    let Some(second) = moved.second else {
        unreachable!()
    };
    let open = moved_to(alloc, station, op, reading, false)?;
    let live = live_chain(alloc, station, &open, moved.first, second)?;
    let first_tap = chain_to_tap(alloc, station, &open, moved.first)?;
    let second_tap = chain_to_tap(alloc, station, &open, second)?;
    let bonded = bonded_nodes(alloc, station, &open, moved.first)?;
    Ok(Explanation {
        op,
        rule: Rule::R3,
        live,
        earthed: None,
        taps: Some((first_tap, second_tap)),
        bonded,
    })
}

/// Why the operation breaks a rule in this reading of the positions: for R1 how the node of the earthing
/// switch is energised, for R2 how the first node of the switch is energised and earthed with the operation
/// done, for R3 how one side of the disconnector is live with it open, what load each side has, and what is
/// bonded to its first node. Each chain is as short as can be; of several shortest ones it is any. The
/// operation breaks a rule in this reading, as a judge's denial shows it. After `Memory` nothing is changed.
///
/// Time: that of `breaks`, one breadth-first pass over the nodes and all items for each chain, and for R3
/// that of `labels` twice. Memory: the nodes and the items.
pub fn explain(
    alloc: Global,
    station: &Station,
    op: Op,
    reading: &Vector,
) -> Result<Explanation, Memory>
    requires reading { IsVector station.now reading.now }
    requires op { IsOperation station.now op }
    requires broken { (rule : AnyRule) × Breaks station.now reading.now op (Some rule) }
    ensures explains { IfOk result (Explains station.now reading.now op) }
    ensures fits { IfOk result (ExplanationFits station.now) }
{
    match breaks(alloc, station, reading, op)? {
        Some(Rule::R1) => explain_earthing(alloc, station, op, reading),
        Some(Rule::R2) => explain_closing(alloc, station, op, reading),
        Some(Rule::R3) => explain_load(alloc, station, op, reading),
        None => unreachable!(),
    }
}
