//! What is refused: texts of a drawing, positions and words, each with the line that it gives on `err`.
use crate::rows::expect;
use ilk_base::{Memory, Text};
use interlock_cli::Status;
use std::alloc::Global;
use std::process::Abort;
use std::test::Fail;
use test_stations::TWO_FEEDERS;

// A drawing up to what stands in its one bay (63 bytes), a node a in it (28 bytes), the start of an
// equipment (41 bytes), a terminal on a, on a node b and grounded, and the ends of all.
const BAY: &str = "<SCL><Substation name=\"S\"><VoltageLevel name=\"V\"><Bay name=\"Q\">";

const NODE: &str = "<ConnectivityNode name=\"a\"/>";

const INFEED: &str = "<ConductingEquipment name=\"E\" type=\"IFL\">";

const DISCONNECTOR: &str = "<ConductingEquipment name=\"E\" type=\"DIS\">";

const BREAKER: &str = "<ConductingEquipment name=\"E\" type=\"CBR\">";

const ON_A: &str = "<Terminal connectivityNode=\"S/V/Q/a\" cNodeName=\"a\"/>";

const ON_B: &str = "<Terminal connectivityNode=\"S/V/Q/b\" cNodeName=\"b\"/>";

const GROUNDED: &str = "<Terminal connectivityNode=\"S/V/Q/grounded\" cNodeName=\"grounded\"/>";

const END: &str = "</ConductingEquipment></Bay></VoltageLevel></Substation></SCL>";

// The pieces of a drawing, and the line.
const DRAWINGS: &[(&[&str], &str)] = &[
    (&[], "interlock: station refused 2 at 0\n"),
    (
        &["<SCL><Substation name=\"S\""],
        "interlock: station refused 2 at 5\n",
    ),
    (
        &["<SCL><Substation name=\"S\">"],
        "interlock: station refused 6 at 5\n",
    ),
    (
        &["<!DOCTYPE SCL><SCL/>"],
        "interlock: station refused 3 at 0\n",
    ),
    (&["<SCL></SLC>"], "interlock: station refused 5 at 5\n"),
    (&["<A/>"], "interlock: station refused 8 at 0\n"),
    (
        &["<SCL><Substation/></SCL>"],
        "interlock: station refused 9 at 5\n",
    ),
    (
        &["<SCL><Substation name=\"S\"/><Substation name=\"S\"/></SCL>"],
        "interlock: station refused 10 at 27\n",
    ),
    (
        &[BAY, NODE, INFEED, ON_B, END],
        "interlock: station refused 11 at 132\n",
    ),
    (
        &[BAY, NODE, DISCONNECTOR, ON_A, END],
        "interlock: station refused 12 at 91 count 1\n",
    ),
    (
        &[BAY, NODE, BREAKER, ON_A, GROUNDED, END],
        "interlock: station refused 13 at 91\n",
    ),
    (
        &[BAY, NODE, BREAKER, ON_A, ON_A, END],
        "interlock: station refused 14 at 91\n",
    ),
];

fn joined(alloc: Global, pieces: &[&str]) -> Result<Text, Memory> {
    let mut text = Text::new(alloc);
    for piece in pieces {
        text.push(piece.as_bytes())?;
    }
    Ok(text)
}

// Both commands end with this line, and write nothing.
fn expect_refused(
    rt: &impl Abort,
    alloc: Global,
    station: &[u8],
    positions: &[u8],
    status: Status,
    line: &str,
) -> Result<(), Fail> {
    for words in ["check a.ssd a.csv", "explain a.ssd a.csv open S/V1/Q1/QB1"] {
        let want = (status, b"".as_slice(), line);
        expect(rt, alloc, words, station, positions, want)?;
    }
    Ok(())
}

#[test]
fn drawings(rt: HostRuntime) -> Result<(), Fail> {
    let alloc = rt.alloc();
    let refused = Status::StationRefused;
    for (pieces, line) in DRAWINGS {
        let text = joined(alloc, pieces)?;
        expect_refused(&rt, alloc, text.bytes(), b"", refused, line)?;
    }
    let line = "interlock: station refused 1 at 0\n";
    expect_refused(&rt, alloc, b"\xFF\xFE\x3C\x00", b"", refused, line)
}

// The names of nodes and switches.
const DIGITS: [&str; 8] = ["1", "2", "3", "4", "5", "6", "7", "8"];

// Appends bay `name`, with earthing switches on the nodes of bay `at`, which it declares where it is that bay.
fn push_earthings(text: &mut Text, name: &str, at: &str, digits: &[&str]) -> Result<(), Memory> {
    text.push(b"<Bay name=\"Q")?;
    text.push(name.as_bytes())?;
    text.push(b"\">")?;
    if name == at {
        for digit in digits {
            text.push(b"<ConnectivityNode name=\"a")?;
            text.push(digit.as_bytes())?;
            text.push(b"\"/>")?;
        }
    }
    for digit in digits {
        push_earthing(text, at, digit)?;
    }
    text.push(b"</Bay>")
}

// Appends an earthing switch on a node of bay `at`.
fn push_earthing(text: &mut Text, at: &str, digit: &str) -> Result<(), Memory> {
    text.push(b"<ConductingEquipment name=\"E")?;
    text.push(digit.as_bytes())?;
    text.push(b"\" type=\"DIS\"><Terminal connectivityNode=\"S/V/Q")?;
    text.push(at.as_bytes())?;
    text.push(b"/a")?;
    text.push(digit.as_bytes())?;
    text.push(b"\"/>")?;
    text.push(GROUNDED.as_bytes())?;
    text.push(b"</ConductingEquipment>")
}

// A drawing of bays, each with so many earthing switches on the nodes of a bay.
fn earthed_bays(alloc: Global, bays: &[(&str, &str)], digits: &[&str]) -> Result<Text, Memory> {
    let mut text = Text::new(alloc);
    text.push(b"<SCL><Substation name=\"S\"><VoltageLevel name=\"V\">")?;
    for (name, at) in bays {
        push_earthings(&mut text, name, at, digits)?;
    }
    text.push(b"</VoltageLevel></Substation></SCL>")?;
    Ok(text)
}

// Stations that are refused since they pass a limit of their graphs: a bay of 256 distinct contractions, and bays of
// 128 each of which any three together have 2,097,152.
#[test]
fn limits_of_graphs(rt: HostRuntime) -> Result<(), Fail> {
    let alloc = rt.alloc();
    let refused = Status::StationRefused;
    let many = earthed_bays(alloc, &[("1", "1"), ("2", "1")], &DIGITS)?;
    let line = "interlock: station refused 16 part 0 step 8\n";
    expect_refused(&rt, alloc, many.bytes(), b"", refused, line)?;
    let six = [
        ("1", "1"),
        ("2", "2"),
        ("3", "3"),
        ("4", "1"),
        ("5", "2"),
        ("6", "3"),
    ];
    let wide = earthed_bays(alloc, &six, &DIGITS[..7])?;
    let line = "interlock: station refused 17 bay 0\n";
    expect_refused(&rt, alloc, wide.bytes(), b"", refused, line)
}

#[test]
fn positions(rt: HostRuntime) -> Result<(), Fail> {
    let alloc = rt.alloc();
    let station = TWO_FEEDERS.as_bytes();
    for (positions, line) in [
        (
            b"S/V1/Q1/QX,on".as_slice(),
            "interlock: input refused 2 line 1\n",
        ),
        (
            b"S/V1/Q1/QB1,on\nS/V1/Q1/QB1,on\n",
            "interlock: input refused 4 line 2\n",
        ),
        (b"S/V1/Q1/QB1,up", "interlock: input refused 3 line 1\n"),
        (b"S/V1/Q1/QB1", "interlock: input refused 1 line 1\n"),
        (b"S/V1/Q1/QB1\xFF,on", "interlock: input refused 1 line 1\n"),
    ] {
        expect_refused(&rt, alloc, station, positions, Status::InputRefused, line)?;
    }
    Ok(())
}

// No words; a word that is missing, begins with `-`, or is one too many; names of no command; and
// numbers of feeders that are out of range or not written so.
const USAGE: &[&str] = &[
    "",
    "check a.ssd",
    "check -x a.ssd",
    "check a.ssd -p",
    "check a.ssd a.csv more",
    "frobnicate",
    "checks a.ssd a.csv",
    "help",
    "work 1",
    "work 02",
    "explain a.ssd",
    "explain a.ssd a.csv open",
    "explain a.ssd a.csv up S/V1/Q1/QB1",
    "explain a.ssd a.csv open -x",
    "check a.ssd a.csv open S/V1/Q1/QB1",
    "node a.ssd",
    "node a.ssd S/V1/Q1 more",
];

#[test]
fn words(rt: HostRuntime) -> Result<(), Fail> {
    let alloc = rt.alloc();
    let station = TWO_FEEDERS.as_bytes();
    for words in USAGE {
        let want = (Status::Usage, b"".as_slice(), "interlock: usage\n");
        expect(&rt, alloc, words, station, b"", want)?;
    }
    for (words, status, line) in [
        (
            "check b.ssd a.csv",
            Status::ReadFault,
            "interlock: read fault\n",
        ),
        (
            "check a.ssd b.csv",
            Status::ReadFault,
            "interlock: read fault\n",
        ),
        (
            "explain b.ssd a.csv open S/V1/Q1/QX",
            Status::ReadFault,
            "interlock: read fault\n",
        ),
        (
            "explain a.ssd a.csv open S/V1/Q1/QX",
            Status::InputRefused,
            "interlock: input refused 11 line 0\n",
        ),
        (
            "explain a.ssd a.csv close S/V1/Q1",
            Status::InputRefused,
            "interlock: input refused 11 line 0\n",
        ),
    ] {
        expect(&rt, alloc, words, station, b"", (status, b"", line))?;
    }
    Ok(())
}
