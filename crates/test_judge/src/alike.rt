//! Which positions are alike: the rows of their contractions are equal or not.
ghost use Rattle.std.specs.Prelude.{◌≡◌, length};

use crate::composed::{Items, is_whole, kept_of};
use contraction::Contraction;
use ilk_base::{Memory, Text};
use station_graph::Station;
use std::alloc::Global;
use test_stations::{Example, StationRow, rows_hold};

// Two positions of some items, each on its nodes, and whether they have one gap view and one load view.
struct Row {
    drawing: Example,
    items: Items,
    kept: &'static [u16],
    second_kept: &'static [u16],
    first: &'static [u8],
    second: &'static [u8],
    gap: bool,
    load: bool,
}

// A feeder on the busbar: nothing is there where the busbar disconnector is open; the switches of the
// other feeder do not matter; the breaker matters to load alone, and behind it open the infeed and the
// earthing switch matter to the gap view alone; through with the tap alone and with all. The
// rows tell the kept nodes too, and not the order in which they are named.
const FEEDERS: &[Row] = &[
    Row {
        drawing: Example::TwoFeeders,
        items: Items::Part(1),
        kept: &[0],
        second_kept: &[0],
        first: b"0000000000",
        second: b"0111100000",
        gap: true,
        load: true,
    },
    Row {
        drawing: Example::TwoFeeders,
        items: Items::Part(1),
        kept: &[0],
        second_kept: &[0],
        first: b"1010100000",
        second: b"1010111111",
        gap: true,
        load: true,
    },
    Row {
        drawing: Example::TwoFeeders,
        items: Items::Part(1),
        kept: &[0],
        second_kept: &[0],
        first: b"1010100000",
        second: b"1110100000",
        gap: true,
        load: false,
    },
    Row {
        drawing: Example::TwoFeeders,
        items: Items::Part(1),
        kept: &[0],
        second_kept: &[0],
        first: b"1010100000",
        second: b"1011000000",
        gap: false,
        load: true,
    },
    Row {
        drawing: Example::TwoFeeders,
        items: Items::Part(1),
        kept: &[0],
        second_kept: &[0],
        first: b"1110000000",
        second: b"1111100000",
        gap: false,
        load: false,
    },
    Row {
        drawing: Example::TwoFeeders,
        items: Items::Part(1),
        kept: &[1],
        second_kept: &[2],
        first: b"0000000000",
        second: b"0000000000",
        gap: false,
        load: false,
    },
    Row {
        drawing: Example::TwoFeeders,
        items: Items::Part(1),
        kept: &[0, 3],
        second_kept: &[3, 0],
        first: b"0000000000",
        second: b"0000000000",
        gap: true,
        load: true,
    },
];

// The bay of the bare stub shares no node, so all its positions are alike there. On the busbar and the
// stub it does not matter which disconnector is closed, and it matters whether one is, and the infeed.
const STUB: &[Row] = &[
    Row {
        drawing: Example::BareStub,
        items: Items::Part(1),
        kept: &[],
        second_kept: &[],
        first: b"000",
        second: b"111",
        gap: true,
        load: true,
    },
    Row {
        drawing: Example::BareStub,
        items: Items::Part(1),
        kept: &[0, 1],
        second_kept: &[0, 1],
        first: b"011",
        second: b"101",
        gap: true,
        load: true,
    },
    Row {
        drawing: Example::BareStub,
        items: Items::Part(1),
        kept: &[0, 1],
        second_kept: &[0, 1],
        first: b"001",
        second: b"011",
        gap: false,
        load: false,
    },
    Row {
        drawing: Example::BareStub,
        items: Items::Part(1),
        kept: &[0, 1],
        second_kept: &[0, 1],
        first: b"010",
        second: b"011",
        gap: false,
        load: false,
    },
];

// The bay between the two busbars has all its positions apart on them. By all items the busbars are
// coupled in any case, so the disconnector matters to load alone, since it bonds them; on a busbar of each
// voltage it does not matter.
const TRANSFORMERS: &[Row] = &[
    Row {
        drawing: Example::TwoTransformers,
        items: Items::Part(4),
        kept: &[0, 1],
        second_kept: &[0, 1],
        first: b"01",
        second: b"11",
        gap: false,
        load: false,
    },
    Row {
        drawing: Example::TwoTransformers,
        items: Items::Part(4),
        kept: &[0, 1],
        second_kept: &[0, 1],
        first: b"00",
        second: b"01",
        gap: false,
        load: false,
    },
    Row {
        drawing: Example::TwoTransformers,
        items: Items::All,
        kept: &[0, 1],
        second_kept: &[0, 1],
        first: b"01",
        second: b"11",
        gap: true,
        load: false,
    },
    Row {
        drawing: Example::TwoTransformers,
        items: Items::All,
        kept: &[0, 2],
        second_kept: &[0, 2],
        first: b"01",
        second: b"11",
        gap: true,
        load: true,
    },
];

// Of which view a row is.
#[derive(Clone, Copy)]
enum View {
    Gap,
    Load,
    Both,
}

fn row_of(alloc: Global, value: &Contraction, view: View) -> Result<Text, Memory> {
    match view {
        View::Gap => value.gap_row(alloc),
        View::Load => value.load_row(alloc),
        View::Both => value.row(alloc),
    }
}

// Whether this is the row of the value.
fn has_row(alloc: Global, value: &Contraction, view: View, row: &[u8]) -> Option<bool> {
    match row_of(alloc, value, view) {
        Ok(own) => Some(own.bytes() == row),
        Err(_) => None,
    }
}

// Whether the two have one row.
fn share_row(alloc: Global, first: &Contraction, second: &Contraction, view: View) -> Option<bool> {
    match row_of(alloc, first, view) {
        Ok(row) => has_row(alloc, second, view, row.bytes()),
        Err(_) => None,
    }
}

// Whether the rows of two contractions are equal where they should be: those of the gap views, of the load
// views, and of both.
fn are_as_said(alloc: Global, first: &Contraction, second: &Contraction, row: &Row) -> bool {
    share_row(alloc, first, second, View::Gap) == Some(row.gap)
        && share_row(alloc, first, second, View::Load) == Some(row.load)
        && share_row(alloc, first, second, View::Both) == Some(row.gap && row.load)
}

// The second position against the contraction of the first.
fn is_second(
    alloc: Global,
    station: &Station,
    row: &Row,
    closed: &[u8],
    first: &Contraction,
) -> bool
    requires { length closed.now ≡ length station.now.switches }
{
    match kept_of(alloc, station, row.items, closed, row.second_kept) {
        Some(second) => are_as_said(alloc, first, &second, row),
        None => false,
    }
}

impl StationRow for Row {
    fn example(&self) -> Example {
        self.drawing
    }

    fn holds(&self, alloc: Global, station: &Station) -> bool {
        if !is_whole(station, self.first) || !is_whole(station, self.second) {
            return false;
        }
        match kept_of(alloc, station, self.items, self.first, self.kept) {
            Some(first) => is_second(alloc, station, self, self.second, &first),
            None => false,
        }
    }
}

#[test]
fn feeders(rt: HostRuntime) {
    assert!(rt; rows_hold(rt.alloc(), FEEDERS));
}

#[test]
fn bare_stub(rt: HostRuntime) {
    assert!(rt; rows_hold(rt.alloc(), STUB));
}

#[test]
fn transformers(rt: HostRuntime) {
    assert!(rt; rows_hold(rt.alloc(), TRANSFORMERS));
}
