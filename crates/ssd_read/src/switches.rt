//! The switches that equipment gives, added to a builder.
ghost use Rattle.std.specs.Prelude.{◌≡◌, ◌≢◌, ℕ, ◌<◌, [], ◌∷◌, length, true, Some, None, slice_index, Contains};
ghost use Rattle.station_graph.specs.Diagram.{node_count, part_count, IsTwoEnded};
ghost use Rattle.ssd_read.specs.Ends.{are_apart};
ghost use Rattle.ssd_read.specs.Steps.{switch_step, breaker_steps, disconnector_steps, infeed_steps};
ghost use Rattle.ssd_read.specs.Seen.{Builds, AreNodes, MayTakeSwitch};

use crate::links::add_tap;
use crate::refusal::SsdRefusal;
use ilk_base::{BayId, Kind, NodeId};
use station_graph::{Builder, Switch};

// Adds a switch with two ends.
fn add_two_ended(
    builder: &mut Builder,
    name: &str,
    kind: Kind,
    part: BayId,
    first: u32,
    second: u32,
) -> Result<(), SsdRefusal>
    requires two_ended { IsTwoEnded kind }
    requires part { part.0 < part_count builder.old }
    requires first { first < node_count builder.old }
    requires second { second < node_count builder.old }
    requires apart { second ≢ first }
    requires room { MayTakeSwitch builder.old part.0 name.now }
    ensures builds { Builds builder.old (switch_step part.0 name.now kind first (Some second) ∷ []) result builder.new }
    ensures nodes { node_count builder.new ≡ node_count builder.old }
    ensures parts { part_count builder.new ≡ part_count builder.old }
{
    let _count = builder.node_count();
    let item = Switch {
        kind,
        first: NodeId(first as u16),
        second: Some(NodeId(second as u16)),
        bay: part,
    };
    match builder.switch(name, item) {
        Ok(_) => Ok(()),
        Err(fault) => Err(SsdRefusal::from(fault)),
    }
}

// Adds a switch with one end.
fn add_one_ended(
    builder: &mut Builder,
    name: &str,
    kind: Kind,
    part: BayId,
    node: u32,
) -> Result<(), SsdRefusal>
    requires one_ended { ¬ IsTwoEnded kind }
    requires part { part.0 < part_count builder.old }
    requires node { node < node_count builder.old }
    requires room { MayTakeSwitch builder.old part.0 name.now }
    ensures builds { Builds builder.old (switch_step part.0 name.now kind node None ∷ []) result builder.new }
    ensures nodes { node_count builder.new ≡ node_count builder.old }
    ensures parts { part_count builder.new ≡ part_count builder.old }
{
    let _count = builder.node_count();
    let item = Switch {
        kind,
        first: NodeId(node as u16),
        second: None,
        bay: part,
    };
    match builder.switch(name, item) {
        Ok(_) => Ok(()),
        Err(fault) => Err(SsdRefusal::from(fault)),
    }
}

// Adds a breaker.
pub(crate) fn add_breaker(
    builder: &mut Builder,
    part: BayId,
    name: &str,
    nodes: &[u32],
) -> Result<(), SsdRefusal>
    requires part { part.0 < part_count builder.old }
    requires nodes { AreNodes builder.old nodes.now }
    requires apart { are_apart nodes.now ≡ true }
    requires room { MayTakeSwitch builder.old part.0 name.now }
    ensures { Builds builder.old (breaker_steps part.0 name.now nodes.now) result builder.new }
{
    match nodes {
        [first, second, ..] => {
            add_two_ended(builder, name, Kind::Breaker, part, *first, *second)
        }
        _ => Ok(()),
    }
}

// Adds a disconnector, or an earthing switch where there is one node alone.
pub(crate) fn add_disconnector(
    builder: &mut Builder,
    part: BayId,
    name: &str,
    nodes: &[u32],
) -> Result<(), SsdRefusal>
    requires part { part.0 < part_count builder.old }
    requires nodes { AreNodes builder.old nodes.now }
    requires apart { are_apart nodes.now ≡ true }
    requires room { MayTakeSwitch builder.old part.0 name.now }
    ensures { Builds builder.old (disconnector_steps part.0 name.now nodes.now) result builder.new }
{
    match nodes {
        [node] => add_one_ended(builder, name, Kind::Earthing, part, *node),
        [first, second, ..] => {
            add_two_ended(builder, name, Kind::Disconnector, part, *first, *second)
        }
        [] => Ok(()),
    }
}

// Adds an infeed with its tap.
pub(crate) fn add_infeed(
    builder: &mut Builder,
    part: BayId,
    name: &str,
    nodes: &[u32],
) -> Result<(), SsdRefusal>
    requires part { part.0 < part_count builder.old }
    requires nodes { AreNodes builder.old nodes.now }
    requires room { MayTakeSwitch builder.old part.0 name.now }
    ensures { Builds builder.old (infeed_steps part.0 name.now nodes.now) result builder.new }
{
    match nodes {
        [] => Ok(()),
        [node, ..] => match add_one_ended(builder, name, Kind::Infeed, part, *node) {
            Ok(()) => add_tap(builder, part, *node),
            Err(fault) => Err(fault),
        },
    }
}
