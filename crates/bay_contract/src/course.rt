//! What the layers of a part are made of.
ghost use Rattle.std.specs.Prelude.{◌≡◌, ℕ, ◌+◌, ◌^◌, ◌<◌, ◌≤◌, ◌↔◌, length, IfOk, Contains};
ghost use Rattle.station_graph.specs.Connection.{a_switch};
ghost use Rattle.station_graph.specs.Diagram.{AreSwitchesOf};
ghost use Rattle.station_graph.specs.Sharing.{IsShared, OfPart};
ghost use Rattle.contraction.specs.Answers.{AreNodes};
ghost use Rattle.part_alphabets.specs.Layers.{IsKept};
ghost use Rattle.bay_contract.specs.Courses.{IsTurn, AreTurns, IsCourse, nodes_after};
ghost use Rattle.bay_contract.specs.Turns.{positioned};

use crate::bases::base;
use crate::kept::{fewer_nodes, kept_nodes};
use contraction::Contraction;
use ilk_base::{BayId, Memory, SwitchId};
use station_graph::{NodeList, Station};
use std::alloc::Global;

// How a part goes on after one of its switches: the values of the switch, open and closed, and the nodes
// that matter then.
#[derive(Drop)]
pub(crate) struct Turn {
    pub(crate) off: Contraction,
    pub(crate) on: Contraction,
    pub(crate) kept: NodeList,
}

impl Turn {
    // The value of the switch in this position.
    pub(crate) fn value(&self, closed: bool) -> &Contraction
        ensures { result.now ≡ positioned self.now.off self.now.on closed }
    {
        if closed { &self.on } else { &self.off }
    }
}

// What the layers of a part are made of: its links and taps as a value on the nodes that matter first, and
// a turn for each of its switches.
#[derive(Drop)]
pub(crate) struct Course {
    pub(crate) nodes: NodeList,
    pub(crate) base: Contraction,
    pub(crate) turns: Vec<Turn>,
}

// The turn of one switch.
fn turn_of(
    alloc: Global,
    station: &Station,
    part: BayId,
    shared: &NodeList,
    nodes: &NodeList,
    first: u16,
    id: SwitchId,
) -> Result<Turn, Memory>
    requires own { OfPart station.now part.0 (a_switch id.0) }
    requires room { id.0 + 1 < 2 ^ 16 }
    requires after { first ≤ id.0 }
    requires shared { (n : ℕ) → Contains shared.now n ↔ IsShared station.now part.0 n }
    requires nodes { (n : ℕ) → Contains nodes.now n ↔ IsKept station.now part.0 first n }
    requires rising { AreNodes nodes.now }
    ensures { IfOk result (IsTurn station.now part.0 id.0) }
{
    let kept = fewer_nodes(alloc, station, part, shared, id.0 + 1, nodes, first)?;
    let off = Contraction::of_switch(alloc, station, id, false)?;
    let on = Contraction::of_switch(alloc, station, id, true)?;
    Ok(Turn { off, on, kept })
}

// The turns of the part's switches.
fn turns_of(
    alloc: Global,
    station: &Station,
    part: BayId,
    shared: &NodeList,
    nodes: &NodeList,
    first: u16,
    count: u16,
) -> Result<Vec<Turn>, Memory>
    requires switches { AreSwitchesOf station.now part.0 first count }
    requires room { first + count < 2 ^ 16 }
    requires shared { (n : ℕ) → Contains shared.now n ↔ IsShared station.now part.0 n }
    requires nodes { (n : ℕ) → Contains nodes.now n ↔ IsKept station.now part.0 first n }
    requires rising { AreNodes nodes.now }
    ensures count { IfOk result (λ t. length t.items ≡ count) }
    ensures turns { IfOk result (λ t. AreTurns station.now part.0 first t.items) }
{
    let mut turns = Vec::with_capacity(alloc, count as usize)?;
    for j in 0..count {
        let id = SwitchId(first + j);
        turns.push(turn_of(alloc, station, part, shared, nodes, first, id)?)?;
    }
    Ok(turns)
}

// The course of the part, whose switches are so many from the first on.
pub(crate) fn course_of(
    alloc: Global,
    station: &Station,
    part: BayId,
    first: u16,
    count: u16,
) -> Result<Course, Memory>
    requires switches { AreSwitchesOf station.now part.0 first count }
    ensures { IfOk result (IsCourse station.now part.0 first count) }
{
    let shared = station.shared_nodes(alloc, part)?;
    let nodes = kept_nodes(alloc, station, part, &shared, first)?;
    let value = base(alloc, station, part, &nodes)?;
    let turns = turns_of(alloc, station, part, &shared, &nodes, first, count)?;
    Ok(Course {
        nodes,
        base: value,
        turns,
    })
}

impl Course {
    // The nodes that matter after all switches.
    pub(crate) fn last_nodes(&self) -> &NodeList
        ensures { result.now ≡ nodes_after self.now (length self.now.turns.items) }
    {
        let count = self.turns.len();
        if count == 0 {
            &self.nodes
        } else {
            &self.turns[count - 1].kept
        }
    }
}
