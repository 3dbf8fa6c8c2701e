//! The bays of the station, with their nodes and switches.
ghost use Rattle.std.specs.Prelude.{◌≡◌, IfOk};
ghost use Rattle.std.specs.List.{flat_map};
ghost use Rattle.station_make.specs.Layout.{bays, infeed_at, is_odd, node_at, nodes_of, switch_between, switches_of};

use ilk_base::Memory;
use std::alloc::Global;

// A bay of the station.
#[derive(Clone, Copy, PartialEq, Eq)]
pub(crate) enum Bay {
    FirstBusbar,
    SecondBusbar,
    Coupler,
    // the feeder of this number, from 1
    Feeder(u8),
}

// A node of a bay, or earth.
#[derive(Clone, Copy, PartialEq, Eq)]
pub(crate) enum Node {
    Busbar,
    CouplerFirst,
    CouplerSecond,
    FeederFirst,
    FeederSecond,
    FeederThird,
    Grounded,
}

// A node, with the bay that it is of.
#[derive(Clone, Copy, PartialEq, Eq)]
pub(crate) struct Terminal {
    pub(crate) bay: Bay,
    pub(crate) node: Node,
}

// What a switch is called in its bay (IEC 81346).
#[derive(Clone, Copy, PartialEq, Eq)]
pub(crate) enum Designation {
    Qb1,
    Qb2,
    Qa1,
    Qb9,
    Qc9,
    E1,
}

// A switch, with the nodes on which it stands and its position.
#[derive(Clone, Copy, PartialEq, Eq)]
pub(crate) struct Switch {
    pub(crate) bay: Bay,
    pub(crate) designation: Designation,
    pub(crate) first: Terminal,
    pub(crate) second: Option<Terminal>,
    pub(crate) is_on: bool,
}

// The bays of the station with so many feeders, in document order.
pub(crate) fn bays(alloc: Global, feeders: u8) -> Result<Vec<Bay>, Memory>
    ensures { IfOk result (λ v. v.items ≡ bays feeders) }
{
    let mut all = vec![in alloc; Bay::FirstBusbar, Bay::SecondBusbar, Bay::Coupler]?;
    for i in 0..feeders {
        all.push(Bay::Feeder(i + 1))?;
    }
    Ok(all)
}

// The nodes of a bay, in document order.
pub(crate) fn nodes_of(bay: Bay) -> &'static [Node]
    ensures { result.now ≡ nodes_of bay }
{
    match bay {
        Bay::FirstBusbar | Bay::SecondBusbar => &[Node::Busbar],
        Bay::Coupler => &[Node::CouplerFirst, Node::CouplerSecond],
        Bay::Feeder(_) => &[Node::FeederFirst, Node::FeederSecond, Node::FeederThird],
    }
}

// The node of this bay.
pub(crate) fn node_at(bay: Bay, node: Node) -> Terminal
    ensures { result ≡ node_at bay node }
{
    Terminal { bay, node }
}

// The switch of the bay that stands between two nodes.
fn switch_between(
    bay: Bay,
    designation: Designation,
    first: Terminal,
    second: Terminal,
    is_on: bool,
) -> Switch
    ensures { result ≡ switch_between bay designation first second is_on }
{
    Switch {
        bay,
        designation,
        first,
        second: Some(second),
        is_on,
    }
}

// The infeed of the bay, which is on.
fn infeed_at(bay: Bay, terminal: Terminal) -> Switch
    ensures { result ≡ infeed_at bay terminal }
{
    Switch {
        bay,
        designation: Designation::E1,
        first: terminal,
        second: None,
        is_on: true,
    }
}

// Whether the number is odd.
fn is_odd(number: u8) -> bool
    ensures { result ≡ is_odd number }
{
    number % 2 == 1
}

// The switches of the coupler, which is through.
fn coupler_switches(alloc: Global) -> Result<Vec<Switch>, Memory>
    ensures { IfOk result (λ v. v.items ≡ switches_of Bay.Coupler) }
{
    let bay = Bay::Coupler;
    let one = node_at(Bay::FirstBusbar, Node::Busbar);
    let two = node_at(Bay::SecondBusbar, Node::Busbar);
    let first = node_at(bay, Node::CouplerFirst);
    let second = node_at(bay, Node::CouplerSecond);
    Ok(vec![in alloc;
        switch_between(bay, Designation::Qb1, one, first, true),
        switch_between(bay, Designation::Qa1, first, second, true),
        switch_between(bay, Designation::Qb2, second, two, true),
    ]?)
}

// The switches of a feeder: it is through to the first busbar where its number is odd, else to the second,
// and not earthed.
fn feeder_switches(alloc: Global, number: u8) -> Result<Vec<Switch>, Memory>
    ensures { IfOk result (λ v. v.items ≡ switches_of (Bay.Feeder number)) }
{
    let bay = Bay::Feeder(number);
    let one = node_at(Bay::FirstBusbar, Node::Busbar);
    let two = node_at(Bay::SecondBusbar, Node::Busbar);
    let first = node_at(bay, Node::FeederFirst);
    let second = node_at(bay, Node::FeederSecond);
    let third = node_at(bay, Node::FeederThird);
    let earth = node_at(bay, Node::Grounded);
    let on_one = is_odd(number);
    Ok(vec![in alloc;
        switch_between(bay, Designation::Qb1, one, first, on_one),
        switch_between(bay, Designation::Qb2, two, first, !on_one),
        switch_between(bay, Designation::Qa1, first, second, true),
        switch_between(bay, Designation::Qb9, second, third, true),
        switch_between(bay, Designation::Qc9, third, earth, false),
        infeed_at(bay, third),
    ]?)
}

// The switches of a bay, in document order.
pub(crate) fn switches_of(alloc: Global, bay: Bay) -> Result<Vec<Switch>, Memory>
    ensures { IfOk result (λ v. v.items ≡ switches_of bay) }
{
    match bay {
        Bay::FirstBusbar | Bay::SecondBusbar => Ok(Vec::new(alloc)),
        Bay::Coupler => coupler_switches(alloc),
        Bay::Feeder(number) => feeder_switches(alloc, number),
    }
}

// The switches of these bays, in document order.
pub(crate) fn all_switches(alloc: Global, bays: &[Bay]) -> Result<Vec<Switch>, Memory>
    ensures { IfOk result (λ v. v.items ≡ flat_map switches_of bays.now) }
{
    let mut all = Vec::new(alloc);
    for bay in bays {
        all.extend_from_slice(&switches_of(alloc, *bay)?)?;
    }
    Ok(all)
}
