//! Two contractions together on some of their nodes, in one view alone.
ghost use Rattle.std.specs.Prelude.{◌≡◌, ◌⊎◌, ℕ, IsTrue, Contains, length};
ghost use Rattle.contraction.specs.Answers.{Keeps};

use crate::both::has_both_rows;
use crate::composed::{Items, is_whole, kept_of, nodes_of};
use crate::lies::{Lies, lies_so};
use contraction::{Contraction, Selection};
use ilk_base::{Memory, Text};
use station_graph::{NodeList, Station};
use std::alloc::Global;
use test_stations::{Example, StationRow, rows_hold};

// Which part of the station, and the nodes on which it is told.
type Told = (u8, &'static [u16]);

// Two parts in these positions, the nodes on which both are told together, how they lie, and the bytes of both rows
// there. The gap row has the nodes, the labels of what is coupled, and a mark for each node that is energisable, then
// one for each that is earthable. The load row has the nodes, the labels of what is joined, those of what is bonded,
// and a mark for each node that is fed, then one for each that is fed or tapped. A number has two bytes; a label is the
// first place of its class.
struct Row {
    drawing: Example,
    closed: &'static [u8],
    first: Told,
    second: Told,
    nodes: &'static [u16],
    lies: Lies,
    gap: &'static [u8],
    load: &'static [u8],
}

// Each feeder is told on the busbar and the end of its line. Both lines are on, and the first feeder's breaker is open;
// both are off, with that breaker open; the second line is on, and the first is through and earthed; the same with the
// first line on too, behind its open busbar disconnector. Then a transformer to the other voltage, and the bay between
// the busbars with its disconnector open: it joins the two voltages without bonding them.
const ROWS: &[Row] = &[
    Row {
        drawing: Example::TwoFeeders,
        closed: b"1010111101",
        first: (1, &[0, 3]),
        second: (2, &[0, 6]),
        nodes: &[3, 6],
        lies: Lies {
            first: &[0, 1],
            second: &[0, 2],
            asked: &[1, 2],
        },
        gap: &[0, 3, 0, 6, 0, 0, 0, 0, 1, 1, 0, 0],
        load: &[0, 3, 0, 6, 0, 0, 0, 1, 0, 0, 0, 1, 1, 1, 1, 1],
    },
    Row {
        drawing: Example::TwoFeeders,
        closed: b"1010011100",
        first: (1, &[0, 3]),
        second: (2, &[0, 6]),
        nodes: &[0, 6],
        lies: Lies {
            first: &[0, 1],
            second: &[0, 2],
            asked: &[0, 2],
        },
        gap: &[0, 0, 0, 6, 0, 0, 0, 0, 0, 0, 0, 0],
        load: &[0, 0, 0, 6, 0, 0, 0, 0, 0, 0, 0, 0, 0, 0, 1, 1],
    },
    Row {
        drawing: Example::TwoFeeders,
        closed: b"1111011101",
        first: (1, &[0, 3]),
        second: (2, &[0, 6]),
        nodes: &[0],
        lies: Lies {
            first: &[0, 1],
            second: &[0, 2],
            asked: &[0],
        },
        gap: &[0, 0, 0, 0, 1, 1],
        load: &[0, 0, 0, 0, 0, 0, 1, 1],
    },
    Row {
        drawing: Example::TwoFeeders,
        closed: b"0111111101",
        first: (1, &[0, 3]),
        second: (2, &[0, 6]),
        nodes: &[0, 3, 6],
        lies: Lies {
            first: &[0, 1],
            second: &[0, 2],
            asked: &[0, 1, 2],
        },
        gap: &[0, 0, 0, 3, 0, 6, 0, 0, 0, 1, 0, 0, 1, 1, 1, 0, 1, 0],
        load: &[
            0, 0, 0, 3, 0, 6, 0, 0, 0, 1, 0, 0, 0, 0, 0, 1, 0, 0, 1, 1, 1, 1, 1, 1,
        ],
    },
    Row {
        drawing: Example::TwoTransformers,
        closed: b"01",
        first: (0, &[0, 2]),
        second: (4, &[0, 1]),
        nodes: &[0, 1, 2],
        lies: Lies {
            first: &[0, 2],
            second: &[0, 1],
            asked: &[0, 1, 2],
        },
        gap: &[0, 0, 0, 1, 0, 2, 0, 0, 0, 1, 0, 0, 1, 0, 1, 0, 0, 0],
        load: &[
            0, 0, 0, 1, 0, 2, 0, 0, 0, 1, 0, 0, 0, 0, 0, 1, 0, 2, 1, 0, 1, 1, 0, 1,
        ],
    },
];

// Whether these are the bytes of the row that was made.
pub(crate) fn is_row(made: Result<Text, Memory>, bytes: &[u8]) -> bool {
    match made {
        Ok(text) => text.bytes() == bytes,
        Err(_) => false,
    }
}

// Whether each of the nodes is kept by one of the two.
pub(crate) fn either_keeps(x: &Contraction, y: &Contraction, nodes: &NodeList) -> bool
    ensures { IsTrue result → (n : ℕ) → Contains nodes.now n → Keeps x.now.kept n ⊎ Keeps y.now.kept n }
{
    for i in 0..nodes.len() {
        let node = nodes.get(i);
        if !x.keeps(node) && !y.keeps(node) {
            return false;
        }
    }
    true
}

// The gap row of the value that both have together on these nodes.
fn gap_row(
    alloc: Global,
    x: &Contraction,
    y: &Contraction,
    nodes: &NodeList,
) -> Result<Text, Memory>
    requires { (n : ℕ) → Contains nodes.now n → Keeps x.now.kept n ⊎ Keeps y.now.kept n }
{
    x.compose_gap(alloc, y, nodes)?.gap_row(alloc)
}

// The load row of the value that both have together on these nodes.
fn load_row(
    alloc: Global,
    x: &Contraction,
    y: &Contraction,
    nodes: &NodeList,
) -> Result<Text, Memory>
    requires { (n : ℕ) → Contains nodes.now n → Keeps x.now.kept n ⊎ Keeps y.now.kept n }
{
    x.compose_load(alloc, y, nodes)?.load_row(alloc)
}

// The gap row of the value that both have together on a selection.
fn gap_row_on(
    alloc: Global,
    x: &Contraction,
    y: &Contraction,
    selection: &Selection,
) -> Result<Text, Memory>
    requires first { selection.now.first ≡ x.now.kept }
    requires second { selection.now.second ≡ y.now.kept }
    requires nodes { (n : ℕ) → Contains selection.now.nodes n → Keeps x.now.kept n ⊎ Keeps y.now.kept n }
{
    x.compose_gap_on(alloc, y, selection)?.gap_row(alloc)
}

// The load row of the value that both have together on a selection.
fn load_row_on(
    alloc: Global,
    x: &Contraction,
    y: &Contraction,
    selection: &Selection,
) -> Result<Text, Memory>
    requires first { selection.now.first ≡ x.now.kept }
    requires second { selection.now.second ≡ y.now.kept }
    requires nodes { (n : ℕ) → Contains selection.now.nodes n → Keeps x.now.kept n ⊎ Keeps y.now.kept n }
{
    x.compose_load_on(alloc, y, selection)?.load_row(alloc)
}

// Whether both rows on these nodes are those of the table.
fn has_rows(alloc: Global, x: &Contraction, y: &Contraction, nodes: &NodeList, row: &Row) -> bool
    requires { (n : ℕ) → Contains nodes.now n → Keeps x.now.kept n ⊎ Keeps y.now.kept n }
{
    is_row(gap_row(alloc, x, y, nodes), row.gap) && is_row(load_row(alloc, x, y, nodes), row.load)
}

// Whether both rows on a selection are those of the table, of the value and without it.
fn has_rows_on(
    alloc: Global,
    x: &Contraction,
    y: &Contraction,
    selection: &Selection,
    row: &Row,
) -> bool
    requires first { selection.now.first ≡ x.now.kept }
    requires second { selection.now.second ≡ y.now.kept }
    requires nodes { (n : ℕ) → Contains selection.now.nodes n → Keeps x.now.kept n ⊎ Keeps y.now.kept n }
{
    is_row(gap_row_on(alloc, x, y, selection), row.gap)
        && is_row(load_row_on(alloc, x, y, selection), row.load)
        && is_row(x.composed_gap_row(alloc, y, selection), row.gap)
        && is_row(x.composed_load_row(alloc, y, selection), row.load)
}

// Whether both rows on the selection of these nodes are those of the table.
fn has_rows_selected(
    alloc: Global,
    x: &Contraction,
    y: &Contraction,
    nodes: &NodeList,
    row: &Row,
) -> Result<bool, Memory>
    requires { (n : ℕ) → Contains nodes.now n → Keeps x.now.kept n ⊎ Keeps y.now.kept n }
{
    let made = Selection::held_or_new(alloc, None, x.nodes(), y.nodes(), nodes)?;
    let selection = Selection::held_or_new(alloc, Some(made), x.nodes(), y.nodes(), nodes)?;
    let both = has_both_rows(alloc, x, y, &selection, row.gap, row.load)?;
    Ok(both && has_rows_on(alloc, x, y, &selection, row))
}

// Whether the selection is that of the two and these nodes, and of no other two and no other nodes.
fn is_only_of(
    selection: &Selection,
    x: &Contraction,
    y: &Contraction,
    nodes: &NodeList,
    none: &NodeList,
) -> bool {
    selection.is_of(x.nodes(), y.nodes(), nodes)
        && !selection.is_of(y.nodes(), x.nodes(), nodes)
        && !selection.is_of(x.nodes(), x.nodes(), nodes)
        && !selection.is_of(x.nodes(), y.nodes(), none)
}

// Whether the selection of these nodes is so.
fn is_its_own(
    alloc: Global,
    x: &Contraction,
    y: &Contraction,
    nodes: &NodeList,
    lies: &Lies,
) -> Result<bool, Memory> {
    let selection = Selection::of(alloc, x.nodes(), y.nodes(), nodes)?;
    let none = NodeList::new(alloc);
    Ok(lies_so(&selection, lies, nodes.numbers()) && is_only_of(&selection, x, y, nodes, &none))
}

// Whether the two together on these nodes are as the table says.
fn is_on_nodes(
    alloc: Global,
    x: &Contraction,
    y: &Contraction,
    nodes: &NodeList,
    row: &Row,
) -> bool {
    either_keeps(x, y, nodes)
        && matches!(is_its_own(alloc, x, y, nodes, &row.lies), Ok(true))
        && has_rows(alloc, x, y, nodes, row)
        && matches!(has_rows_selected(alloc, x, y, nodes, row), Ok(true))
}

// The same, on the nodes of the row.
fn are_as_said(alloc: Global, x: &Contraction, y: &Contraction, row: &Row) -> bool {
    match nodes_of(alloc, row.nodes) {
        Ok(nodes) => is_on_nodes(alloc, x, y, &nodes, row),
        Err(_) => false,
    }
}

// The second part in these positions together with the first.
fn is_second(alloc: Global, station: &Station, closed: &[u8], x: &Contraction, row: &Row) -> bool
    requires { length closed.now ≡ length station.now.switches }
{
    let (part, kept) = row.second;
    match kept_of(alloc, station, Items::Part(part), closed, kept) {
        Some(y) => are_as_said(alloc, x, &y, row),
        None => false,
    }
}

impl StationRow for Row {
    fn example(&self) -> Example {
        self.drawing
    }

    fn holds(&self, alloc: Global, station: &Station) -> bool {
        if !is_whole(station, self.closed) {
            return false;
        }
        let (part, kept) = self.first;
        match kept_of(alloc, station, Items::Part(part), self.closed, kept) {
            Some(x) => is_second(alloc, station, self.closed, &x, self),
            None => false,
        }
    }
}

#[test]
fn parts_in_one_view(rt: HostRuntime) {
    assert!(rt; rows_hold(rt.alloc(), ROWS));
}
