//! Blocks of a line bay and of a busbar with many lines, what is found of them, and refused texts. The
//! texts are worked by hand from the rules.
ghost use Rattle.std.specs.Prelude.{◌≡◌};
ghost use Rattle.equation_audit.specs.Equations.{AreOfStation};
ghost use Rattle.equation_audit.specs.Findings.{AreShown};

use central_rules::{PlainJudge, fits_plain};
use equation_audit::{Audit, Blocks, BlocksFault, audit, read_blocks};
use station_graph::Station;
use std::alloc::Global;
use test_stations::{Example, StationRow, row_holds, rows_hold};

// Blocks, what is written of them, and whether one is loose or strict.
struct Row {
    blocks: &'static str,
    text: &'static str,
    differs: bool,
}

// A line with an earthing switch. To earth it only where it is off is what the rules say, also where it is
// said in two alternatives, with empty lines and CR LF. To set it on whatever the earthing switch does is
// loose. Never to set it off is strict. To earth it only where it is on is both. To set it on only where it
// is off is strict, since its own position says nothing to the rules.
const ROWS: &[Row] = &[
    Row {
        blocks: "close S/V1/Q1/QC9\nwhen off S/V1/Q1/E1\nend\n",
        text: "same close S/V1/Q1/QC9\n",
        differs: false,
    },
    Row {
        blocks: "close S/V1/Q1/QC9\r\n\r\nwhen on S/V1/Q1/E1\r\nwhen off S/V1/Q1/E1\r\nor\r\nwhen off S/V1/Q1/E1\r\nend",
        text: "same close S/V1/Q1/QC9\n",
        differs: false,
    },
    Row {
        blocks: "close S/V1/Q1/E1\nend\n",
        text: "loose R2 close S/V1/Q1/E1\nwith S/V1/Q1/QC9\n",
        differs: true,
    },
    Row {
        blocks: "open S/V1/Q1/E1\nnever\nend\n",
        text: "strict open S/V1/Q1/E1\n",
        differs: true,
    },
    Row {
        blocks: "close S/V1/Q1/QC9\nwhen on S/V1/Q1/E1\nend\nopen S/V1/Q1/QC9\nend\n",
        text: "loose R1 close S/V1/Q1/QC9\nwith S/V1/Q1/E1\nstrict close S/V1/Q1/QC9\nwith off S/V1/Q1/E1\nsame open S/V1/Q1/QC9\n",
        differs: true,
    },
    Row {
        blocks: "close S/V1/Q1/E1\nwhen off S/V1/Q1/E1\nwhen off S/V1/Q1/QC9\nend\n",
        text: "strict close S/V1/Q1/E1\nwith off S/V1/Q1/QC9\nwith on S/V1/Q1/E1\n",
        differs: true,
    },
    Row {
        blocks: "",
        text: "",
        differs: false,
    },
];

// Whether this is the text of what was found.
fn has_text(alloc: Global, station: &Station, found: &Audit, text: &str) -> bool
    requires { AreShown station.now found.now }
{
    match found.text(alloc, station) {
        Ok(written) => written.bytes() == text.as_bytes(),
        Err(_) => false,
    }
}

// Whether this is found of the blocks.
fn is_found(alloc: Global, station: &Station, blocks: &Blocks, row: &Row) -> bool
    requires { AreOfStation station.now blocks.now }
{
    if !fits_plain(station) {
        return false;
    }
    match audit(alloc, station, blocks, &PlainJudge::new(station)) {
        Ok(found) => {
            found.differs() == row.differs && has_text(alloc, station, &found, row.text)
        }
        Err(_) => false,
    }
}

impl StationRow for Row {
    fn example(&self) -> Example {
        Example::EarthedLine
    }

    fn holds(&self, alloc: Global, station: &Station) -> bool {
        match read_blocks(alloc, station, self.blocks.as_bytes()) {
            Ok(blocks) => is_found(alloc, station, &blocks, self),
            Err(_) => false,
        }
    }
}

#[test]
fn texts(rt: HostRuntime) {
    assert!(rt; rows_hold(rt.alloc(), ROWS));
}

// Texts that are no blocks, with the number and the line of their refusals: a block without its end; a
// second block of an operation; a condition and a `never` where none may stand, also on a switch that is
// not known; paths that no switch has; an end of line that is none.
const REFUSED: &[(&str, u8, u32)] = &[
    ("open S/V1/Q1/E1\nnever\n", 10, 3),
    ("open S/V1/Q1/E1\n\n", 10, 3),
    (
        "open S/V1/Q1/E1\nnever\nend\nopen S/V1/Q1/E1\nnever\nend\n",
        4,
        4,
    ),
    ("when on S/V1/Q1/E1\n", 10, 1),
    ("open S/V1/Q1/E1\nor\nnever\nend\n", 10, 3),
    ("open S/V1/Q1/E1\nnever\nwhen on S/V1/Q1/E2\nend\n", 10, 3),
    ("open S/V1/Q1/E1\nopen S/V1/Q1/QC9\nend\n", 10, 2),
    ("open S/V1/Q1/E2\nwhen\n", 2, 1),
    ("open S/V1/Q1/E1\n\nwhen on S/V1/Q1/E2\n", 2, 3),
    ("open S/V1/Q1/E1\nend\r", 10, 2),
];

// Twelve of thirteen lines at one node in two blocks, named twice in the second; and all thirteen in one.
const TWELVE: &str = "open S/V1/Q1/E1\nwhen on S/V1/Q1/E13\nend\n\
    close S/V1/Q1/E1\nwhen on S/V1/Q1/E1\nwhen on S/V1/Q1/E2\nwhen on S/V1/Q1/E3\nwhen on S/V1/Q1/E4\nwhen on S/V1/Q1/E5\n\
    when on S/V1/Q1/E6\nor\nwhen off S/V1/Q1/E7\nwhen off S/V1/Q1/E8\nwhen off S/V1/Q1/E9\nwhen off S/V1/Q1/E10\n\
    when off S/V1/Q1/E11\nwhen off S/V1/Q1/E12\nwhen off S/V1/Q1/E1\nend\n";

const THIRTEEN: &str =
    "close S/V1/Q1/E1\nwhen on S/V1/Q1/E1\nwhen on S/V1/Q1/E2\nwhen on S/V1/Q1/E3\nwhen on S/V1/Q1/E4\n\
    when on S/V1/Q1/E5\nwhen on S/V1/Q1/E6\nwhen on S/V1/Q1/E7\nwhen on S/V1/Q1/E8\nwhen on S/V1/Q1/E9\nwhen on S/V1/Q1/E10\n\
    when on S/V1/Q1/E11\nwhen on S/V1/Q1/E12\nwhen off S/V1/Q1/E1\nwhen on S/V1/Q1/E13\nend\n";

// Whether the text is refused so, or is blocks.
fn is_read(alloc: Global, station: &Station, text: &str, refused: Option<(u8, u32)>) -> bool {
    match read_blocks(alloc, station, text.as_bytes()) {
        Ok(_) => refused == None,
        Err(BlocksFault::Refused(refusal)) => refused == Some((refusal.number, refusal.line)),
        Err(_) => false,
    }
}

// Whether each text is refused so.
fn are_refused(alloc: Global, station: &Station, rows: &[(&str, u8, u32)]) -> bool {
    for (text, number, line) in rows {
        if !is_read(alloc, station, text, Some((*number, *line))) {
            return false;
        }
    }
    true
}

// What is asked of texts.
enum Asked {
    // whether these are refused so on the line with an earthing switch
    Refused(&'static [(&'static str, u8, u32)]),
    // whether on thirteen lines at one node the first is blocks, and the second refused so
    AtMost(&'static str, (&'static str, u8, u32)),
}

impl StationRow for Asked {
    fn example(&self) -> Example {
        match self {
            Asked::Refused(_) => Example::EarthedLine,
            Asked::AtMost(..) => Example::ThirteenLines,
        }
    }

    fn holds(&self, alloc: Global, station: &Station) -> bool {
        match self {
            Asked::Refused(rows) => are_refused(alloc, station, rows),
            Asked::AtMost(most, more) => {
                is_read(alloc, station, most, None) && are_refused(alloc, station, &[*more])
            }
        }
    }
}

#[test]
fn refusals(rt: HostRuntime) {
    assert!(rt; row_holds(rt.alloc(), &Asked::Refused(REFUSED)));
}

// A thirteenth switch in one block is refused, and counts for no other block.
#[test]
fn many_switches(rt: HostRuntime) {
    assert!(rt; row_holds(rt.alloc(), &Asked::AtMost(TWELVE, (THIRTEEN, 13, 15))));
}
