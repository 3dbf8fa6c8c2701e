//! What `node` answers to the lines of its input, and how it ends.
ghost use Rattle.std.specs.Prelude.{◌≤◌};

use ilk_base::{MemShelf, MemSink, MemSource, Memory, Text};
use interlock_cli::{Status, run};
use std::alloc::Global;
use std::process::Abort;
use std::test::Fail;
use test_stations::{FEEDERS_APART, TWO_FEEDERS, words_of};

// A row: the lines of the input, what they give, and how the call ends, with its line on `err`.
struct Row {
    words: &'static str,
    input: &'static [u8],
    text: &'static [u8],
    status: Status,
    line: &'static str,
}

// The words of the bays.
const Q1: &str = "node a.ssd S/V1/Q1";

const Q2: &str = "node a.ssd S/V1/Q2";

const ROWS: &[Row] = &[
    // One whole operation of the first feeder: the second answers that it is in the position that the fifth bit of
    // its summary stands for, which releases the operation; then the end is sensed.
    Row {
        words: Q1,
        input: b"sense off S/V1/Q1/QB1\nsense off S/V1/Q1/QA1\nsense on S/V1/Q1/QB9\nsense off S/V1/Q1/QC9\n\
            sense off S/V1/Q1/E1\ncommand close S/V1/Q1/QB1\nframe 02020100000001000104\nsense on S/V1/Q1/QB1\n",
        text: b"keep 000000010000000000000000000000000000\ncollecting 1\nsend 010102000000010000\n\
            keep 000000010000000000000100000001000001\ngranted 1 close S/V1/Q1/QB1\n\
            keep 000000010000000000000000000000000000\nfinished 1\nsend 050102000000010000\n",
        status: Status::Done,
        line: "",
    },
    // The drive stops between its ends: the operation has ended.
    Row {
        words: Q1,
        input: b"sense off S/V1/Q1/QB1\r\nsense off S/V1/Q1/QA1\nsense on S/V1/Q1/QB9\nsense off S/V1/Q1/QC9\n\
            sense off S/V1/Q1/E1\ncommand close S/V1/Q1/QB1\nframe 02020100000001000104\ncut S/V1/Q1/QB1",
        text: b"keep 000000010000000000000000000000000000\ncollecting 1\nsend 010102000000010000\n\
            keep 000000010000000000000100000001000001\ngranted 1 close S/V1/Q1/QB1\n\
            keep 000000010000000000000000000000000000\nstopped 1\nsend 050102000000010000\n",
        status: Status::Done,
        line: "",
    },
    // The second feeder is reserved, and answers with all its positions, of which it knows nothing; later it asks
    // whether the round is still open.
    Row {
        words: Q2,
        input: b"frame 010102000000010000\ntick\n",
        text: b"keep 000000000101000000010000000000000000\nsend 020201000000010001ff\nsend 040201000000010000\n",
        status: Status::Done,
        line: "",
    },
    // The second feeder is reserved by one whose answers it cannot change: the lock is bare.
    Row {
        words: "node g.ssd S/V1/Q2",
        input: b"frame 010203000000010000\n",
        text: b"keep 000000000102000000010000000000000000\nsend 020302000000010000\n",
        status: Status::Done,
        line: "",
    },
    // The last round is spent, the record being in digits of upper case; or it is opened and withdrawn, and then
    // spent.
    Row {
        words: Q1,
        input: b"kept FFFFffff0000000000000000000000000000\ncommand close S/V1/Q1/QB1\n",
        text: b"spent\n",
        status: Status::Done,
        line: "",
    },
    Row {
        words: Q1,
        input: b"kept fffffffe0000000000000000000000000000\ncommand close S/V1/Q1/QB1\nwithdraw\n\
            command close S/V1/Q1/QB1\n",
        text: b"keep ffffffff0000000000000000000000000000\ncollecting 4294967295\nsend 010102ffffffff0000\n\
            withdrawn 4294967295\nsend 050102ffffffff0000\nspent\n",
        status: Status::Done,
        line: "",
    },
    // Bytes that are no frame change nothing, and so does a frame of no bytes.
    Row {
        words: Q1,
        input: b"frame \nframe 01\nrestart\n",
        text: b"",
        status: Status::Done,
        line: "",
    },
    // A part without switches is no bay, and a path of none is not of the station.
    Row {
        words: "node a.ssd S/V1/W1",
        input: b"tick\n",
        text: b"",
        status: Status::InputRefused,
        line: "interlock: input refused 11 line 0\n",
    },
    Row {
        words: "node a.ssd S/V1/Q3",
        input: b"tick\n",
        text: b"",
        status: Status::InputRefused,
        line: "interlock: input refused 11 line 0\n",
    },
];

// Lines that are refused, behind a line that is answered: no such line, an empty line, a path of another bay, a word
// that is none, half a digit, a blank that is missing, a record in a later line, a last line that ends with CR.
const REFUSED: &[&[u8]] = &[
    b"tack",
    b"\ntick",
    b"sense on S/V1/Q1/QB1",
    b"sense open S/V1/Q2/QB1",
    b"frame 0",
    b"frame",
    b"kept 000000000000000000000000000000000000",
    b"tick\r",
];

// Runs the words over the files a.ssd and g.ssd and the input.
fn expect_session(rt: &impl Abort, alloc: Global, row: &Row) -> Result<(), Fail> {
    let words = words_of(alloc, row.words)?;
    let mut shelf = MemShelf::new(alloc);
    shelf.put("a.ssd", TWO_FEEDERS.as_bytes())?;
    shelf.put("g.ssd", FEEDERS_APART.as_bytes())?;
    let mut input = MemSource::new(alloc, row.input, 7)?;
    let mut out = MemSink::new(alloc, 1000, 77)?;
    let mut err = MemSink::new(alloc, 100, 7)?;
    let status = run(alloc, &words, &mut shelf, &mut input, &mut out, &mut err);
    assert!(rt; err.bytes() == row.line.as_bytes());
    assert!(rt; out.bytes() == row.text);
    assert!(rt; status == row.status);
    Ok(())
}

#[test]
fn sessions(rt: HostRuntime) -> Result<(), Fail> {
    let alloc = rt.alloc();
    for row in ROWS {
        expect_session(&rt, alloc, row)?;
    }
    Ok(())
}

// Runs the second feeder's node over an input of which so many bytes come in a call.
fn expect_input(
    rt: &impl Abort,
    alloc: Global,
    bytes: &[u8],
    most: usize,
    failing: u32,
    want: (Status, &[u8], &str),
) -> Result<(), Fail>
    requires { 1 ≤ most }
{
    let words = words_of(alloc, Q2)?;
    let mut shelf = MemShelf::new(alloc);
    shelf.put("a.ssd", TWO_FEEDERS.as_bytes())?;
    let mut input = MemSource::new(alloc, bytes, most)?;
    input.fail(failing)?;
    let mut out = MemSink::new(alloc, 1000, 3)?;
    let mut err = MemSink::new(alloc, 100, 100)?;
    let status = run(alloc, &words, &mut shelf, &mut input, &mut out, &mut err);
    let (want_status, want_out, want_err) = want;
    assert!(rt; out.bytes() == want_out);
    assert!(rt; err.bytes() == want_err.as_bytes());
    assert!(rt; status == want_status);
    Ok(())
}

// The first line of the answer and the query is answered before the input fails in the second.
#[test]
fn input_that_fails(rt: HostRuntime) -> Result<(), Fail> {
    let alloc = rt.alloc();
    let input = b"frame 010102000000010000\ntick\n".as_slice();
    let text = b"keep 000000000101000000010000000000000000\nsend 020201000000010001ff\n".as_slice();
    let want = (Status::ReadFault, text, "interlock: read fault\n");
    expect_input(&rt, alloc, input, 1, 27, want)
}

// A line that is refused, and one that is too long, behind a line that is answered.
#[test]
fn refused_lines(rt: HostRuntime) -> Result<(), Fail> {
    let alloc = rt.alloc();
    let refused = (
        Status::InputRefused,
        b"".as_slice(),
        "interlock: input refused 10 line 2\n",
    );
    for line in REFUSED {
        let mut input = Text::new(alloc);
        input.push(b"tick\n")?;
        input.push(line)?;
        expect_input(&rt, alloc, input.bytes(), 4096, 100, refused)?;
    }
    let long = long_line(alloc)?;
    expect_input(&rt, alloc, long.bytes(), 4096, 100, refused)
}

// A tick, and a frame of 4,097 bytes without an end.
fn long_line(alloc: Global) -> Result<Text, Memory> {
    let mut text = Text::new(alloc);
    text.push(b"tick\nframe 0")?;
    for _ in 0..2045 {
        text.push(b"00")?;
    }
    Ok(text)
}

// The lines of a million ticks, and one more.
#[test]
fn long_input(rt: HostRuntime) -> Result<(), Fail> {
    let alloc = rt.alloc();
    let mut input = Text::new(alloc);
    for _ in 0..1_000_000 {
        input.push(b"tick\n")?;
    }
    let none = b"".as_slice();
    let never = 4_000_000;
    expect_input(
        &rt,
        alloc,
        input.bytes(),
        4096,
        never,
        (Status::Done, none, ""),
    )?;
    input.push(b"x")?;
    let want = (Status::Long, none, "interlock: input too long\n");
    expect_input(&rt, alloc, input.bytes(), 4096, never, want)
}
