//! Each limit of a builder reached, and passed by one item: what is answered, and that the builder is as
//! it was before.
ghost use Rattle.station_graph.specs.Diagram.{InfeedsTapped};

use ilk_base::{BayId, Kind, NodeId};
use station_graph::{BuildFault, Builder, Link, Station, Switch, Tap, What};
use std::alloc::Global;
use std::process::Abort;

// Adds a part of this path.
fn add_part(rt: &impl Abort, builder: &mut Builder, path: &str) -> Result<(), BuildFault> {
    assert!(rt; builder.accepts_part(path));
    builder.part(path)?;
    Ok(())
}

// Adds a node of this path.
fn add_node(rt: &impl Abort, builder: &mut Builder, path: &str) -> Result<(), BuildFault> {
    assert!(rt; builder.accepts_node(path));
    builder.node(path)?;
    Ok(())
}

// Adds an earthing switch at the first node.
fn add_switch(
    rt: &impl Abort,
    alloc: Global,
    builder: &mut Builder,
    part: u8,
    name: &str,
) -> Result<(), BuildFault> {
    let item = Switch {
        kind: Kind::Earthing,
        first: NodeId(0),
        second: None,
        bay: BayId(part),
    };
    assert!(rt; builder.accepts_switch(alloc, name, item)?);
    builder.switch(name, item)?;
    Ok(())
}

// Adds a link between the first two nodes.
fn add_link(rt: &impl Abort, builder: &mut Builder) -> Result<(), BuildFault> {
    let item = Link {
        first: NodeId(0),
        second: NodeId(1),
        bond: true,
        part: BayId(0),
    };
    assert!(rt; builder.accepts_link(item));
    builder.link(item)
}

// Adds a tap at the first node.
fn add_tap(rt: &impl Abort, builder: &mut Builder) -> Result<(), BuildFault> {
    let item = Tap {
        node: NodeId(0),
        part: BayId(0),
    };
    assert!(rt; builder.accepts_tap(item));
    builder.tap(item)
}

// What is added, and of switches how many go to a part.
#[derive(Clone, Copy)]
enum Added {
    Parts,
    Nodes,
    Switches(u32),
    Links,
    Taps,
}

// Adds one more of what is counted, by this name.
fn add_named(
    rt: &impl Abort,
    alloc: Global,
    builder: &mut Builder,
    added: Added,
    number: u32,
    name: &str,
) -> Result<(), BuildFault> {
    match added {
        Added::Parts => add_part(rt, builder, name),
        Added::Nodes => add_node(rt, builder, name),
        Added::Switches(each) => {
            let part = u8::try_from(number / each.max(1)).unwrap_or(0);
            add_switch(rt, alloc, builder, part, name)
        }
        Added::Links => add_link(rt, builder),
        Added::Taps => add_tap(rt, builder),
    }
}

// Adds one more of what is counted.
fn add(
    rt: &impl Abort,
    alloc: Global,
    builder: &mut Builder,
    added: Added,
    number: u32,
) -> Result<(), BuildFault> {
    let name = format!(in alloc; "n{number}")?;
    add_named(rt, alloc, builder, added, number, name.as_str())
}

// Adds those of these numbers.
fn add_all(
    rt: &impl Abort,
    alloc: Global,
    builder: &mut Builder,
    added: Added,
    first: u32,
    end: u32,
) -> Result<(), BuildFault> {
    for number in first..end {
        add(rt, alloc, builder, added, number)?;
    }
    Ok(())
}

// How many there are of each.
#[derive(Clone, Copy, PartialEq, Eq)]
struct Counts {
    parts: u16,
    nodes: u16,
    switches: u16,
    links: u16,
    taps: u16,
}

// One part more than there may be bays, two nodes, and one of everything else.
const FEW: Counts = Counts {
    parts: 65,
    nodes: 2,
    switches: 1,
    links: 1,
    taps: 1,
};

fn add_few(rt: &impl Abort, alloc: Global, builder: &mut Builder) -> Result<(), BuildFault> {
    add_all(rt, alloc, builder, Added::Parts, 0, 65)?;
    add_all(rt, alloc, builder, Added::Nodes, 0, 2)?;
    add_all(rt, alloc, builder, Added::Switches(1), 0, 1)?;
    add_link(rt, builder)?;
    add_tap(rt, builder)
}

// Whether the station has so many of each.
fn has_counts(station: &Station, wanted: Counts) -> bool {
    let counts = Counts {
        parts: station.part_count(),
        nodes: station.node_count(),
        switches: station.switch_count(),
        links: station.link_count(),
        taps: station.tap_count(),
    };
    counts == wanted
}

// Whether the builder holds so many of each.
fn is_finished_with(builder: Builder, wanted: Counts) -> bool
    requires { InfeedsTapped builder }
{
    has_counts(&builder.finish(), wanted)
}

// Whether the builder is complete, and holds so many of each.
fn has_ended_with(builder: Builder, wanted: Counts) -> bool {
    if builder.is_complete() {
        is_finished_with(builder, wanted)
    } else {
        false
    }
}

// A limit: what is added, which limit it reaches, how many of it there are among the few items, how many there may
// be, and the counts at the limit.
struct Case {
    added: Added,
    what: What,
    few: u32,
    limit: u32,
    counts: Counts,
}

// Switches go 24 to a part where those of the station are counted, one to a part where the bays are, and all to the
// first part where those of a bay are. Where they go eight to a part, the last one is of a further bay, and is refused
// by the limit of switches too: the bays, which it would make more of, come last.
const CASES: &[Case] = &[
    Case {
        added: Added::Parts,
        what: What::Parts,
        few: 65,
        limit: 200,
        counts: Counts { parts: 200, ..FEW },
    },
    Case {
        added: Added::Nodes,
        what: What::Nodes,
        few: 2,
        limit: 1024,
        counts: Counts { nodes: 1024, ..FEW },
    },
    Case {
        added: Added::Switches(1),
        what: What::Bays,
        few: 1,
        limit: 64,
        counts: Counts {
            switches: 64,
            ..FEW
        },
    },
    Case {
        added: Added::Switches(24),
        what: What::Switches,
        few: 1,
        limit: 512,
        counts: Counts {
            switches: 512,
            ..FEW
        },
    },
    Case {
        added: Added::Switches(8),
        what: What::Switches,
        few: 1,
        limit: 512,
        counts: Counts {
            switches: 512,
            ..FEW
        },
    },
    Case {
        added: Added::Switches(1000),
        what: What::BaySwitches,
        few: 1,
        limit: 24,
        counts: Counts {
            switches: 24,
            ..FEW
        },
    },
    Case {
        added: Added::Links,
        what: What::Links,
        few: 1,
        limit: 2048,
        counts: Counts { links: 2048, ..FEW },
    },
    Case {
        added: Added::Taps,
        what: What::Taps,
        few: 1,
        limit: 2048,
        counts: Counts { taps: 2048, ..FEW },
    },
];

// Whether one more than the limit is refused, and refused once more, since its path is still new.
fn refuses_twice(rt: &impl Abort, alloc: Global, builder: &mut Builder, case: &Case) -> bool {
    let refused = Err(BuildFault::Limit {
        what: case.what,
        count: case.limit.saturating_add(1),
    });
    add(rt, alloc, builder, case.added, case.limit) == refused
        && add(rt, alloc, builder, case.added, case.limit) == refused
}

// Whether the limit is reached and not passed.
fn reaches(rt: &impl Abort, alloc: Global, builder: &mut Builder, case: &Case) -> bool {
    add_few(rt, alloc, builder).is_ok()
        && add_all(rt, alloc, builder, case.added, case.few, case.limit).is_ok()
        && refuses_twice(rt, alloc, builder, case)
}

// The same, and whether the builder then has what it had at the limit.
fn is_kept(rt: &impl Abort, alloc: Global, case: &Case) -> bool {
    let mut builder = Builder::new(alloc);
    let reached = reaches(rt, alloc, &mut builder, case);
    has_ended_with(builder, case.counts) && reached
}

#[test]
fn one_past_each_limit(rt: HostRuntime) {
    for case in CASES {
        assert!(rt; is_kept(&rt, rt.alloc(), case));
    }
}
