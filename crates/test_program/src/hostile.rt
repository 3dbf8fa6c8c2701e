//! Hostile cases: files that are cut, too deep or too large, and calls of the outside that fail.
use crate::rows::{BOTH_THROUGH, expect, lines_of, positions_of};
use ilk_base::{MemShelf, MemSink, MemSource, Memory, Text};
use interlock_cli::{Status, run};
use std::alloc::Global;
use std::process::Abort;
use std::test::Fail;
use test_stations::{AS_A_TOOL_WRITES, TWO_FEEDERS, words_of};

// Runs `check` over a drawing that is cut, which is refused as no whole document or as one whose innermost
// element does not end.
fn expect_cut(rt: &impl Abort, alloc: Global, front: &[u8]) -> Result<(), Fail> {
    let words = words_of(alloc, "check a.ssd a.csv")?;
    let mut shelf = MemShelf::new(alloc);
    shelf.put("a.ssd", front)?;
    let mut input = MemSource::new(alloc, b"", 1)?;
    let mut out = MemSink::new(alloc, 100, 100)?;
    let mut err = MemSink::new(alloc, 100, 100)?;
    let status = run(alloc, &words, &mut shelf, &mut input, &mut out, &mut err);
    assert!(rt; status == Status::StationRefused);
    assert!(rt; out.bytes() == b"".as_slice());
    let line = err.bytes();
    assert!(rt;
        line.starts_with(b"interlock: station refused 2 at ")
            || line.starts_with(b"interlock: station refused 6 at ")
    );
    Ok(())
}

#[test]
fn cut_drawings(rt: HostRuntime) -> Result<(), Fail> {
    let alloc = rt.alloc();
    let text = AS_A_TOOL_WRITES.as_bytes();
    for end in 0..text.len() {
        let (front, rest) = text.split_at(end);
        // the front lacks the last `>` of the text
        if rest.contains(&b'>') {
            expect_cut(&rt, alloc, front)?;
        }
    }
    Ok(())
}

// A text of pieces, each as often as said.
fn repeated(alloc: Global, pieces: &[(&str, u32)]) -> Result<Text, Memory> {
    let mut text = Text::new(alloc);
    for (piece, times) in pieces {
        for _ in 0..*times {
            text.push(piece.as_bytes())?;
        }
    }
    Ok(text)
}

// 64 blanks.
const BLANKS: &str = "                                                                ";

// Drawings that are too deep, just not too deep, of too many elements and of too many bytes.
const DRAWINGS: &[(&[(&str, u32)], Status, &str)] = &[
    (
        &[("<SCL>", 1), ("<a>", 64)],
        Status::StationRefused,
        "interlock: station refused 4 at 194\n",
    ),
    (
        &[("<SCL>", 1), ("<a>", 63), ("</a>", 63), ("</SCL>", 1)],
        Status::Done,
        "",
    ),
    (
        &[("<SCL>", 1), ("<a/>", 200_000), ("</SCL>", 1)],
        Status::StationRefused,
        "interlock: station refused 7 at 800001\n",
    ),
    (
        &[("<SCL/>", 1), (BLANKS, 131_071), (" ", 59)],
        Status::StationRefused,
        "interlock: station refused 15 limit 1 count 8388609\n",
    ),
];

fn expect_drawing(
    rt: &impl Abort,
    alloc: Global,
    pieces: &[(&str, u32)],
    status: Status,
    line: &str,
) -> Result<(), Fail> {
    let text = repeated(alloc, pieces)?;
    let words = "check a.ssd a.csv";
    expect(rt, alloc, words, text.bytes(), b"", (status, b"", line))
}

#[test]
fn large_drawings(rt: HostRuntime) -> Result<(), Fail> {
    let alloc = rt.alloc();
    for (pieces, status, line) in DRAWINGS {
        expect_drawing(&rt, alloc, pieces, *status, line)?;
    }
    Ok(())
}

#[test]
fn large_positions(rt: HostRuntime) -> Result<(), Fail> {
    let alloc = rt.alloc();
    let text = repeated(alloc, &[(BLANKS, 131_072), (" ", 1)])?;
    let line = "interlock: input refused 5 line 0\n";
    let want = (Status::InputRefused, b"".as_slice(), line);
    let station = TWO_FEEDERS.as_bytes();
    expect(&rt, alloc, "check a.ssd a.csv", station, text.bytes(), want)
}

// Runs the words with the write of that number failing, and one byte taken in each call.
fn expect_write_fault(
    rt: &impl Abort,
    alloc: Global,
    line: &str,
    positions: &[u8],
    text: &[u8],
    call: u32,
) -> Result<(), Fail> {
    let words = words_of(alloc, line)?;
    let mut shelf = MemShelf::new(alloc);
    shelf.put("a.ssd", TWO_FEEDERS.as_bytes())?;
    shelf.put("a.csv", positions)?;
    let mut input = MemSource::new(alloc, b"", 1)?;
    let mut out = MemSink::new(alloc, 1000, 1)?;
    out.fail(call)?;
    let mut err = MemSink::new(alloc, 100, 100)?;
    let status = run(alloc, &words, &mut shelf, &mut input, &mut out, &mut err);
    assert!(rt; status == Status::WriteFault);
    assert!(rt; out.bytes().len() + 1 == call as usize);
    assert!(rt; text.starts_with(out.bytes()));
    assert!(rt; err.bytes() == b"interlock: write fault\n".as_slice());
    Ok(())
}

// Runs the words with the read of that number failing, of which there are two, and with no room for a
// line on `err`.
fn expect_read_fault(
    rt: &impl Abort,
    alloc: Global,
    line: &str,
    positions: &[u8],
    text: &[u8],
    call: u32,
) -> Result<(), Fail> {
    let words = words_of(alloc, line)?;
    let mut shelf = MemShelf::new(alloc);
    shelf.put("a.ssd", TWO_FEEDERS.as_bytes())?;
    shelf.put("a.csv", positions)?;
    shelf.fail(call)?;
    let mut input = MemSource::new(alloc, b"", 1)?;
    let mut out = MemSink::new(alloc, 1000, 1000)?;
    let mut err = MemSink::new(alloc, 0, 1)?;
    let status = run(alloc, &words, &mut shelf, &mut input, &mut out, &mut err);
    let failed = call < 3;
    let want = if failed {
        Status::ReadFault
    } else {
        Status::Done
    };
    assert!(rt; status == want);
    assert!(rt; out.bytes() == if failed { b"".as_slice() } else { text });
    assert!(rt; err.bytes() == b"".as_slice());
    Ok(())
}

#[test]
fn failing_calls(rt: HostRuntime) -> Result<(), Fail> {
    let alloc = rt.alloc();
    let positions = positions_of(alloc, BOTH_THROUGH.on)?;
    let lines = lines_of(alloc, &BOTH_THROUGH)?;
    let released = b"released open S/V1/Q1/QA1\n".as_slice();
    for (words, text) in [
        ("check a.ssd a.csv", lines.bytes()),
        ("explain a.ssd a.csv open S/V1/Q1/QA1", released),
    ] {
        for call in 1..21 {
            expect_write_fault(&rt, alloc, words, positions.bytes(), text, call)?;
            expect_read_fault(&rt, alloc, words, positions.bytes(), text, call)?;
        }
    }
    Ok(())
}
