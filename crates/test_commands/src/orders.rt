//! Orders on two feeders, their texts and refusals. The texts are worked by hand from the rules.
ghost use Rattle.std.specs.Prelude.{◌≡◌, length, IfOk};
ghost use Rattle.switching_orders.specs.OrderRuling.{AreOperations};

use double_points::Readings;
use ilk_base::{Dbpos, InputRefusal, Memory, SwitchId, Text};
use station_graph::{Station, Vector};
use std::alloc::Global;
use switching_orders::{Order, OrderFault, certain_positions, order_text, read_order};
use test_stations::{Example, StationRow, row_holds, rows_hold};

// The words of the switches, a sign for each: 0 off, 1 on, and lost for all else.
fn words(alloc: Global, station: &Station, signs: &[u8]) -> Result<Readings, Memory>
    requires { length signs.now ≡ length station.now.switches }
    ensures { IfOk result (λ words. length words ≡ length station.now.switches) }
{
    let mut words = Readings::lost(alloc, station)?;
    for i in 0..station.switch_count() {
        match signs[i as usize] {
            b'0' => words.sense(SwitchId(i), Dbpos::Off),
            b'1' => words.sense(SwitchId(i), Dbpos::On),
            _ => {}
        }
    }
    Ok(words)
}

// The words of all switches, an order, its text, and whether it differs.
struct Row {
    words: &'static [u8; 10],
    order: &'static str,
    text: &'static str,
    differs: bool,
}

// A feeder is put on the busbar and taken off; what is joined to an infeed is not earthed, and an infeed
// that is on is not set on again; an infeed that was taken off an earthed feeder may not come back; the
// empty order; empty lines, and lines that end with CR LF.
const ROWS: &[Row] = &[
    Row {
        words: b"0000000000",
        order: "close S/V1/Q1/QB1\nclose S/V1/Q1/QB9\nclose S/V1/Q1/E1\nclose S/V1/Q1/QA1",
        text: "1 ok close S/V1/Q1/QB1\n2 ok close S/V1/Q1/QB9\n3 ok close S/V1/Q1/E1\n\
               4 ok close S/V1/Q1/QA1\naccepted 4\nback accepted\n",
        differs: false,
    },
    Row {
        words: b"0000000000",
        order: "close S/V1/Q1/E1\nclose S/V1/Q1/QC9\nclose S/V1/Q1/QB1\n",
        text: "1 ok close S/V1/Q1/E1\n2 denied R1 close S/V1/Q1/QC9\n",
        differs: true,
    },
    Row {
        words: b"0000000000",
        order: "close S/V1/Q1/E1\nclose S/V1/Q1/E1\n",
        text: "1 ok close S/V1/Q1/E1\n2 idle close S/V1/Q1/E1\n",
        differs: true,
    },
    Row {
        words: b"0001100000",
        order: "open S/V1/Q1/E1\n",
        text: "1 ok open S/V1/Q1/E1\naccepted 1\nback 1 denied R2 close S/V1/Q1/E1\n",
        differs: false,
    },
    Row {
        words: b"0000000000",
        order: "",
        text: "accepted 0\nback accepted\n",
        differs: false,
    },
    Row {
        words: b"0000000000",
        order: "\r\n\nclose S/V1/Q2/QC9\r\n",
        text: "1 ok close S/V1/Q2/QC9\naccepted 1\nback accepted\n",
        differs: false,
    },
];

// Whether this is told of the order.
fn is_told(alloc: Global, station: &Station, start: &Vector, order: &Order, row: &Row) -> bool
    requires start { length start.now ≡ length station.now.switches }
    requires order { AreOperations station.now order.now }
{
    match order_text(alloc, station, start, order) {
        Ok(report) => {
            report.text.bytes() == row.text.as_bytes() && report.differs == row.differs
        }
        Err(_) => false,
    }
}

// Whether it is told from these positions on.
fn is_told_from(alloc: Global, station: &Station, start: &Vector, row: &Row) -> bool
    requires { length start.now ≡ length station.now.switches }
{
    match read_order(alloc, station, row.order.as_bytes()) {
        Ok(order) => is_told(alloc, station, start, &order, row),
        Err(_) => false,
    }
}

// Whether it is told of the positions that the words say.
fn is_told_of(alloc: Global, station: &Station, words: &Readings, row: &Row) -> bool
    requires { length words.now ≡ length station.now.switches }
{
    match certain_positions(alloc, station, words) {
        Ok(Some(start)) => is_told_from(alloc, station, &start, row),
        _ => false,
    }
}

impl StationRow for Row {
    fn example(&self) -> Example {
        Example::TwoFeeders
    }

    fn holds(&self, alloc: Global, station: &Station) -> bool {
        if station.switch_count() != 10 {
            return false;
        }
        let signs = self.words;
        match words(alloc, station, signs) {
            Ok(words) => is_told_of(alloc, station, &words, self),
            Err(_) => false,
        }
    }
}

#[test]
fn texts(rt: HostRuntime) {
    assert!(rt; rows_hold(rt.alloc(), ROWS));
}

// Texts that are no order, with the number and the line of their refusals.
const REFUSED: &[(&[u8], u8, u32)] = &[
    (b"close S/V1/Q1/QB1\nshut S/V1/Q1/QB1\n", 10, 2),
    (b"open \n", 10, 1),
    (b"open S/V1/Q1/QB1\n\nopen S/V1/Q1\n", 2, 3),
    (b"open S/V1/Q1/QB1\xFF\n", 2, 1),
    (b"open S/V1/Q1/QB1\r", 10, 1),
    (b"\r", 10, 1),
];

// Whether the text is refused so.
fn is_refused(alloc: Global, station: &Station, text: &[u8], number: u8, line: u32) -> bool {
    match read_order(alloc, station, text) {
        Ok(_) => false,
        Err(fault) => fault == OrderFault::Refused(InputRefusal { number, line }),
    }
}

// Whether each text is refused so.
fn are_refused(alloc: Global, station: &Station, rows: &[(&[u8], u8, u32)]) -> bool {
    for (text, number, line) in rows {
        if !is_refused(alloc, station, text, *number, *line) {
            return false;
        }
    }
    true
}

// Adds the most lines.
fn push_lines(long: &mut Text) -> Result<(), Memory> {
    for _ in 0..20_000 {
        long.push(b"open S/V1/Q1/QB1\n")?;
    }
    Ok(())
}

// Whether an order of the most lines is read, and refused with one line more.
fn has_most(alloc: Global, station: &Station) -> bool {
    let mut long = Text::new(alloc);
    push_lines(&mut long).is_ok()
        && read_order(alloc, station, long.bytes()).is_ok()
        && long.push(b"\nshut\n").is_ok()
        && is_refused(alloc, station, long.bytes(), 9, 20_002)
}

// Whether these words leave no certain positions.
fn is_unsure(alloc: Global, station: &Station, words: &Readings) -> bool
    requires { length words.now ≡ length station.now.switches }
{
    match certain_positions(alloc, station, words) {
        Ok(positions) => positions.is_none(),
        Err(_) => false,
    }
}

// The same, by their signs.
fn are_unsure(alloc: Global, station: &Station, signs: &[u8; 10]) -> bool {
    if station.switch_count() != 10 {
        return false;
    }
    match words(alloc, station, signs) {
        Ok(words) => is_unsure(alloc, station, &words),
        Err(_) => false,
    }
}

// What is asked of inputs on the two feeders.
enum Asked {
    // whether each text is refused so
    Refused(&'static [(&'static [u8], u8, u32)]),
    // whether an order may have so many lines
    Lines,
    // whether these words leave no certain positions
    Unsure(&'static [u8; 10]),
}

impl StationRow for Asked {
    fn example(&self) -> Example {
        Example::TwoFeeders
    }

    fn holds(&self, alloc: Global, station: &Station) -> bool {
        match self {
            Asked::Refused(rows) => are_refused(alloc, station, rows),
            Asked::Lines => has_most(alloc, station),
            Asked::Unsure(signs) => are_unsure(alloc, station, signs),
        }
    }
}

#[test]
fn refusals(rt: HostRuntime) {
    assert!(rt; row_holds(rt.alloc(), &Asked::Refused(REFUSED)));
    assert!(rt; row_holds(rt.alloc(), &Asked::Lines));
}

// A word that is lost leaves no certain positions.
#[test]
fn unsure_words(rt: HostRuntime) {
    assert!(rt; row_holds(rt.alloc(), &Asked::Unsure(b"000?000000")));
}
