//! How many steps each node is from the nearest end.
ghost use Rattle.std.specs.Prelude.{◌≡◌, ℕ, ◌+◌, ◌<◌, ◌≤◌, ◌^◌, List, [], length, replicate, None, Contains, IfOk};
ghost use Rattle.std.specs.Prelude.{OnOk};
ghost use Rattle.denial_explain.specs.Ways.{AllBelow, IsWay};
ghost use Rattle.denial_explain.specs.Listing.{list_at, Listed, IsUndirected};
ghost use Rattle.denial_explain.specs.Stepping.{HasSteps, Visits, ReachesAll, Spreads, AreSteps};

use crate::neighbours::Neighbours;
use ilk_base::{Memory, NodeId};
use station_graph::NodeList;
use std::alloc::Global;

// A way, and its last node.
#[derive(Drop)]
pub(crate) struct Way {
    pub(crate) nodes: NodeList,
    pub(crate) last: NodeId,
}

// Gives the node its steps and lets it join the queue, where it has none yet.
fn reach(
    node: NodeId,
    next: u16,
    steps: &mut [Option<u16>],
    queue: &mut NodeList,
) -> Result<(), Memory>
    requires { node.0 < length steps.old }
    ensures { OnOk result (Visits node.0 next steps.old steps.new queue.old queue.new) }
{
    if steps[node.0 as usize].is_none() {
        queue.push(node)?;
        steps[node.0 as usize] = Some(next);
    }
    Ok(())
}

// The same for each of these nodes, in their order.
fn reach_all(
    nodes: &[u16],
    next: u16,
    steps: &mut [Option<u16>],
    queue: &mut NodeList,
) -> Result<(), Memory>
    requires { AllBelow (length steps.old) nodes.now }
    ensures { OnOk result (ReachesAll (Contains nodes.now) next steps.old steps.new queue.old queue.new) }
{
    for node in nodes {
        reach(NodeId(*node), next, steps, queue)?;
    }
    Ok(())
}

// The turn of a node: it reaches its neighbours, which get one step more than it has.
fn spread(
    neighbours: &Neighbours,
    node: NodeId,
    steps: &mut [Option<u16>],
    queue: &mut NodeList,
) -> Result<(), Memory>
    requires node { node.0 < length neighbours.now }
    requires reached { (k : ℕ) × HasSteps steps.old node.0 k × (k + 1 < 2 ^ 16) }
    requires within { AllBelow (length steps.old) (list_at neighbours.now node.0) }
    ensures { OnOk result
        (Spreads neighbours.now node.0 steps.old steps.new queue.old queue.new) }
{
    match steps[node.0 as usize] {
        Some(reached) => reach_all(neighbours.at(node), reached + 1, steps, queue),
        None => unreachable!(),
    }
}

// The pass, breadth first: from the ends on, each node of the queue has its turn.
fn spread_all(
    neighbours: &Neighbours,
    ends: &NodeList,
    steps: &mut [Option<u16>],
    queue: &mut NodeList,
) -> Result<(), Memory>
    requires few { length neighbours.now < 2 ^ 16 }
    requires lists { IsUndirected neighbours.now }
    requires ends { AllBelow (length neighbours.now) ends.now }
    requires steps { steps.old ≡ replicate (length neighbours.now) None }
    requires queue { queue.old ≡ [] }
    ensures { OnOk result
        (AreSteps (Listed neighbours.now) (Contains ends.now) (length neighbours.now) steps.new) }
{
    reach_all(ends.numbers(), 0, steps, queue)?;
    let mut front = 0;
    'queue: while front < queue.len() {
        spread(neighbours, queue.get(front), steps, queue)?;
        front += 1;
    }
    Ok(())
}

// How many steps each node is from the nearest of these ends; none where no way leads to one. Time: the
// nodes and the lists of neighbours; memory: the nodes.
pub(crate) fn steps_to(
    alloc: Global,
    neighbours: &Neighbours,
    ends: &NodeList,
) -> Result<Vec<Option<u16>>, Memory>
    requires few { length neighbours.now < 2 ^ 16 }
    requires lists { IsUndirected neighbours.now }
    requires ends { AllBelow (length neighbours.now) ends.now }
    ensures { IfOk result (λ s. AreSteps (Listed neighbours.now) (Contains ends.now) (length neighbours.now) s.items) }
{
    let mut steps = vec![in alloc; None; neighbours.len()]?;
    let mut queue = NodeList::new(alloc);
    spread_all(neighbours, ends, &mut steps, &mut queue)?;
    Ok(steps)
}

// The first of the nodes that has so many steps.
fn nearer(nodes: &[u16], steps: &[Option<u16>], left: u16) -> NodeId
    requires within { AllBelow (length steps.now) nodes.now }
    requires there { (m : ℕ) × Contains nodes.now m × HasSteps steps.now m left }
    ensures listed { Contains nodes.now result.0 }
    ensures steps { HasSteps steps.now result.0 left }
{
    for node in nodes {
        if steps[*node as usize] == Some(left) {
            return NodeId(*node);
        }
    }
    unreachable!()
}

// A way from the node to the nearest end, by the steps. Time: the neighbours of its nodes; memory: its
// nodes.
pub(crate) fn follow(
    alloc: Global,
    neighbours: &Neighbours,
    steps: &[Option<u16>],
    from: NodeId,
) -> Result<Way, Memory>
    requires lists { IsUndirected neighbours.now }
    requires steps { AreSteps (Listed neighbours.now) (λ n. HasSteps steps.now n 0) (length neighbours.now) steps.now }
    requires from { (k : ℕ) × HasSteps steps.now from.0 k }
    ensures way { IfOk result (λ w. IsWay (Listed neighbours.now) (λ n. HasSteps steps.now n 0) from.0
        w.last.0 w.nodes) }
    ensures nodes { IfOk result (λ w. AllBelow (length neighbours.now) w.nodes) }
{
    let mut nodes = NodeList::new(alloc);
    nodes.push(from)?;
    let mut last = from;
    let mut left = steps_at(steps, from);
    'steps: while left > 0 {
        left -= 1;
        last = nearer(neighbours.at(last), steps, left);
        nodes.push(last)?;
    }
    Ok(Way { nodes, last })
}

// The steps of a node that has some.
fn steps_at(steps: &[Option<u16>], node: NodeId) -> u16
    requires { (k : ℕ) × HasSteps steps.now node.0 k }
    ensures { HasSteps steps.now node.0 result }
{
    match steps[node.0 as usize] {
        Some(count) => count,
        None => unreachable!(),
    }
}
